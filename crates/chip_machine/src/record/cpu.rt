//! The bytes of a processor in a state's record.
ghost use Rattle.std.specs.Prelude.{◌≡◌, length, slice_index, Some, None, if◌then◌else◌};
ghost use Rattle.record_table.specs.Numbers.{bytes_of};
ghost use Rattle.mos_cpu.specs.Registers.{is_status, processor_numbers};
ghost use Rattle.chip_machine.specs.RecordNumbers.{cpu_at};

use mos_cpu::Cpu;

/// The bytes of a processor.
pub const PROCESSOR_LENGTH: usize = 7;

/// The processor that seven bytes spell; none if the one of P isn't a status.
pub fn cpu_in(bytes: &[u8]) -> Option<Cpu>
    requires { length bytes.now ≡ PROCESSOR_LENGTH }
    ensures { result ≡ (if is_status (slice_index bytes.now 4) then Some (cpu_at bytes.now) else None) }
{
    let p = bytes[4];
    if !Cpu::is_status(p) {
        return None;
    }
    Some(Cpu {
        a: bytes[0],
        x: bytes[1],
        y: bytes[2],
        s: bytes[3],
        p,
        pc: u16::from_be_bytes([bytes[5], bytes[6]]),
    })
}

/// The bytes that spell a processor.
pub fn cpu_bytes(cpu: &Cpu) -> [u8; PROCESSOR_LENGTH]
    ensures { result ≡ bytes_of processor_numbers cpu.now }
{
    let pc = cpu.pc.to_be_bytes();
    [cpu.a, cpu.x, cpu.y, cpu.s, cpu.p, pc[0], pc[1]]
}

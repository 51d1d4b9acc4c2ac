//! The bytes of a RIOT in a state's record.
ghost use Rattle.std.specs.Prelude.{◌≡◌, length};
ghost use Rattle.record_table.specs.Numbers.{bytes_of};
ghost use Rattle.riot_chip.specs.Riot.{riot_numbers};
ghost use Rattle.chip_machine.specs.Record.{riot_bytes};
ghost use Rattle.chip_machine.specs.RecordNumbers.{riot_at, riot_with};

use riot_chip::{RiotFields, TimerFields};

/// The bytes of a RIOT's memory.
pub const MEMORY_LENGTH: usize = 128;

/// The bytes of its ports and its timer.
const PORTS_LENGTH: usize = 9;

/// The bytes of a RIOT.
pub const RIOT_LENGTH: usize = MEMORY_LENGTH + PORTS_LENGTH;

/// The RIOT with this memory whose ports and timer the bytes spell.
fn riot_with(ram: [u8; MEMORY_LENGTH], bytes: &[u8]) -> RiotFields
    requires { length bytes.now ≡ PORTS_LENGTH }
    ensures { result ≡ riot_with ram bytes.now }
{
    RiotFields {
        ram,
        output_a: bytes[0],
        direction_a: bytes[1],
        output_b: bytes[2],
        direction_b: bytes[3],
        timer: TimerFields {
            value: bytes[4],
            part: u16::from_be_bytes([bytes[5], bytes[6]]),
            interval: bytes[7],
            flag: bytes[8],
        },
    }
}

/// The RIOT that the bytes spell.
pub fn riot_in(bytes: &[u8]) -> RiotFields
    requires { length bytes.now ≡ RIOT_LENGTH }
    ensures { result ≡ riot_at bytes.now }
{
    let (memory, ports) = bytes.split_at(MEMORY_LENGTH);
    let mut ram = [0; MEMORY_LENGTH];
    ram.copy_from_slice(memory);
    riot_with(ram, ports)
}

/// The bytes that spell the ports and the timer.
fn port_bytes(riot: &RiotFields) -> [u8; PORTS_LENGTH]
    ensures { result ≡ bytes_of riot_numbers riot.now }
{
    let part = riot.timer.part.to_be_bytes();
    [
        riot.output_a,
        riot.direction_a,
        riot.output_b,
        riot.direction_b,
        riot.timer.value,
        part[0],
        part[1],
        riot.timer.interval,
        riot.timer.flag,
    ]
}

/// The bytes that spell a RIOT.
pub fn riot_bytes(riot: &RiotFields) -> [u8; RIOT_LENGTH]
    ensures { result ≡ riot_bytes riot.now }
{
    let mut out = [0; RIOT_LENGTH];
    out[..MEMORY_LENGTH].copy_from_slice(&riot.ram);
    out[MEMORY_LENGTH..].copy_from_slice(&port_bytes(riot));
    out
}

//! Instructions until a frame stops.
ghost use Rattle.std.specs.Prelude.{◌≡◌, ◌<◌, ◌≤◌, ◌+◌, false, IfOk, IfErr};
ghost use Rattle.mos_cpu.specs.Registers.{Registers};
ghost use Rattle.vcs_machine.specs.Consoles.{frame_meaning_of};
ghost use Rattle.vcs_machine.specs.Faults.{stop_with};
ghost use Rattle.vcs_machine.specs.Frame.{Machine, stop_of, Ended, most_frame_cycles};
ghost use Rattle.vcs_machine.specs.Private.BeamCycles.{IsBegun, beam_cycles, machine_since};

use crate::console::Console;
use crate::fault::{FaultKind, Halt};
use mos_cpu::{Cpu, RunningCpu, load, step_running};
use tia_core::Paint;

/// Cycles after which a frame that has not ended is too long.
pub const TOO_MANY_CYCLES: u32 = 24_320;

/// Passes the rounds of a loop that waits for the timer, if the processor is at its branch, and they
/// surely go on and begin before the frame is too long. It answers the processor.
///
/// A frame that goes on from there stops as it would have stopped. The processor comes by its value,
/// so that the loop of a frame can keep its registers out of memory.
#[inline(never)]
fn pass_rounds<S: Paint>(cpu: Cpu, console: &mut Console<S>, start: u32) -> Cpu
    requires no_wait { console.old.awaits_line ≡ false }
    requires no_end { console.old.ended ≡ false }
    requires begun { IsBegun start console.old }
    ensures stops { stop_of (frame_meaning_of S.drawn) (machine_since start cpu console.old)
        ≡ stop_of (frame_meaning_of S.drawn) (machine_since start result console.new) }
    ensures begun { IsBegun start console.new }
    ensures later { beam_cycles console.old ≤ beam_cycles console.new }
{
    let Some(poll) = console.poll_at(cpu.pc) else {
        return cpu;
    };
    let cycles = console.beam_cycles() - start;
    if cycles >= TOO_MANY_CYCLES || !poll.branch.is_taken(cpu.p) {
        return cpu;
    }
    let room = (TOO_MANY_CYCLES - cycles) / poll.cycles as u32;
    let ahead = console.rounds_ahead(poll);
    let count = if ahead < room { ahead } else { room };
    if count == 0 {
        return cpu;
    }
    let passed = poll.cycles as u32 * count;
    let loaded = load(console.load_after(poll.register, passed), cpu.p);
    Cpu {
        a: loaded.value,
        x: cpu.x,
        y: cpu.y,
        s: cpu.s,
        p: loaded.p,
        pc: cpu.pc,
    }
}

/// The same after an instruction that was followed by so long a wait, for the processor at its place.
/// One that waited wrote WSYNC, and didn't read the timer.
#[inline(always)]
fn pass_rounds_after<S: Paint>(
    waited: u8,
    cpu: &mut RunningCpu,
    console: &mut Console<S>,
    start: u32,
)
    requires no_wait { console.old.awaits_line ≡ false }
    requires no_end { console.old.ended ≡ false }
    requires begun { IsBegun start console.old }
    ensures stops { stop_of (frame_meaning_of S.drawn) (machine_since start cpu.old console.old)
        ≡ stop_of (frame_meaning_of S.drawn) (machine_since start cpu.new console.new) }
    ensures begun { IsBegun start console.new }
    ensures later { beam_cycles console.old ≤ beam_cycles console.new }
{
    if waited == 0 {
        *cpu = RunningCpu::of(&pass_rounds(cpu.registers(), console, start));
    }
}

/// Instructions, each with its wait, until the frame stops, which begins in line 0; it answers its
/// cycles.
///
/// They aren't counted: the beam tells them, and it is asked where the frame may stop.
#[inline(always)]
fn run_until_stop<S: Paint>(cpu: &mut RunningCpu, console: &mut Console<S>) -> Result<u32, Halt>
    requires line { console.old.tia.line ≡ 0 }
    ensures ok { IfOk result (λ total. stop_of (frame_meaning_of S.drawn) (record { registers = cpu.old; bus = console.old; cycles = 0 })
        ≡ Ended (record { registers = cpu.new; bus = console.new; cycles = total })) }
    ensures err { IfErr result (λ halt. stop_of (frame_meaning_of S.drawn) (record { registers = cpu.old; bus = console.old; cycles = 0 })
        ≡ stop_with halt.kind (record { registers = cpu.new; bus = console.new; cycles = halt.cycles })) }
    ensures most { IfOk result (λ total. total ≤ most_frame_cycles) }
{
    let start = console.beam_cycles();
    loop {
        if let Err(fault) = step_running(cpu, console) {
            let kind = FaultKind::from(fault);
            let cycles = console.beam_cycles() - start;
            return Err(Halt { kind, cycles });
        }
        if console.has_event() {
            let waited = console.wait();
            if console.has_ended() {
                return Ok(console.beam_cycles() - start);
            }
            pass_rounds_after(waited, cpu, console, start);
            if console.has_event() {
                let cycles = console.beam_cycles() - start;
                if cycles >= TOO_MANY_CYCLES {
                    let kind = FaultKind::Overlong;
                    return Err(Halt { kind, cycles });
                }
            }
        }
    }
}

/// The same for a processor as it is before and after a frame.
#[inline(always)]
pub fn run_frame<S: Paint>(cpu: &mut Cpu, console: &mut Console<S>) -> Result<u32, Halt>
    requires line { console.old.tia.line ≡ 0 }
    ensures ok { IfOk result (λ total. stop_of (frame_meaning_of S.drawn) (record { registers = cpu.old; bus = console.old; cycles = 0 })
        ≡ Ended (record { registers = cpu.new; bus = console.new; cycles = total })) }
    ensures err { IfErr result (λ halt. stop_of (frame_meaning_of S.drawn) (record { registers = cpu.old; bus = console.old; cycles = 0 })
        ≡ stop_with halt.kind (record { registers = cpu.new; bus = console.new; cycles = halt.cycles })) }
    ensures most { IfOk result (λ total. total ≤ most_frame_cycles) }
{
    let mut running = RunningCpu::of(cpu);
    let answer = run_until_stop(&mut running, console);
    *cpu = running.registers();
    answer
}

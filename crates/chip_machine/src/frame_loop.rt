//! Instructions until a frame stops.
ghost use Rattle.std.specs.Prelude.{◌≡◌, ◌≤◌, false, OnOk, IfErr};
ghost use Rattle.chip_machine.specs.Frame.{Ended, Machine, stop_of};
ghost use Rattle.chip_machine.specs.Outcomes.{stop_with};

use crate::console::Console;
use crate::polls::ROUND_CYCLES;
use bus_cycles::step_running;
use mos_cpu::{Cpu, RunningCpu};
use tia_core::Paint;
use vcs_machine::FaultKind;

/// Cycles after which a frame that has not ended is too long: those of 1,024 scanlines.
pub const TOO_MANY_CYCLES: u32 = 77_824;

/// Passes the rounds of a loop that waits for the timer, if the processor is at its branch, and they
/// surely go on and begin before the frame is too long. It answers the processor.
///
/// A frame that goes on from there stops as it would have stopped. The processor comes by its value,
/// so that the loop of a frame can keep its registers out of memory.
#[inline(never)]
fn pass_rounds<S: Paint>(cpu: Cpu, console: &mut Console<S>) -> Cpu
    requires no_stop { console.old.is_stopped ≡ false }
    requires no_end { console.old.has_ended ≡ false }
    ensures stops { stop_of S.drawn (record { registers = cpu; console = console.old })
        ≡ stop_of S.drawn (record { registers = result; console = console.new }) }
    ensures cartridge { console.new.cart.cartridge ≡ console.old.cart.cartridge }
    ensures later { console.old.cycles ≤ console.new.cycles }
    ensures running { console.new.is_stopped ≡ false }
    ensures going { console.new.has_ended ≡ false }
{
    let cycles = console.cycles();
    let Some(poll) = console.poll_at(cpu.pc) else {
        return cpu;
    };
    if cycles >= TOO_MANY_CYCLES || !poll.branch.is_taken(cpu.p) {
        return cpu;
    }
    let round = ROUND_CYCLES as u32;
    let count = console
        .rounds_ahead(poll)
        .min((TOO_MANY_CYCLES - cycles) / round);
    if count == 0 {
        return cpu;
    }
    let byte = console.look_after(poll.register, round * count);
    poll.reader.after(cpu, byte)
}

/// The same after an instruction, if it read the RIOT.
#[inline(always)]
fn pass_rounds_after_read<S: Paint>(cpu: &mut RunningCpu, console: &mut Console<S>)
    requires no_stop { console.old.is_stopped ≡ false }
    requires no_end { console.old.has_ended ≡ false }
    ensures stops { stop_of S.drawn (record { registers = cpu.old; console = console.old })
        ≡ stop_of S.drawn (record { registers = cpu.new; console = console.new }) }
    ensures cartridge { console.new.cart.cartridge ≡ console.old.cart.cartridge }
    ensures later { console.old.cycles ≤ console.new.cycles }
    ensures running { console.new.is_stopped ≡ false }
    ensures going { console.new.has_ended ≡ false }
{
    if console.has_read_riot() {
        *cpu = RunningCpu::of(&pass_rounds(cpu.registers(), console));
    }
}

/// Instructions, each with the stop that it leaves, until the frame stops.
#[inline(always)]
pub fn run_until_stop<S: Paint>(
    cpu: &mut RunningCpu,
    console: &mut Console<S>,
) -> Result<(), FaultKind>
    requires { console.old.cycles ≡ 0 }
    ensures ok { OnOk result (stop_of S.drawn (record { registers = cpu.old; console = console.old })
        ≡ Ended (record { registers = cpu.new; console = console.new })) }
    ensures err { IfErr result (λ kind. stop_of S.drawn (record { registers = cpu.old; console = console.old }) ≡ stop_with kind) }
    ensures cartridge { console.new.cart.cartridge ≡ console.old.cart.cartridge }
{
    while console.are_cycles_below(TOO_MANY_CYCLES) {
        if let Err(fault) = step_running(cpu, console) {
            return Err(FaultKind::from(fault));
        }
        if console.has_event() {
            console.pass_stop();
            if console.has_ended() {
                return Ok(());
            }
            pass_rounds_after_read(cpu, console);
            console.clear_event();
        }
    }
    Err(FaultKind::Overlong)
}

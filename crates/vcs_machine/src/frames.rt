//! One frame.
ghost use Rattle.std.specs.Prelude.{◌≡◌, ◌≤◌, ◌+◌, true, false, if◌then◌else◌, Some, None, IfOk};
ghost use Rattle.std.specs.Prelude.{IfErr, IfSome, IfNone, IsTrue};
ghost use Rattle.tia_core.specs.Clock.{Pixel, sink_after_pixels};
ghost use Rattle.vcs_machine.specs.Consoles.{frame_meaning_of, with_pixel_logged, Console};
ghost use Rattle.vcs_machine.specs.Faults.{stop_with};
ghost use Rattle.vcs_machine.specs.Inputs.{is_input};
ghost use Rattle.vcs_machine.specs.Frame.{stop_of, Machine, Ended, most_frame_cycles};
ghost use Rattle.vcs_machine.specs.Outcomes.{frame_of, machine_of, state_left, Played, Failed, FailsAs};
ghost use Rattle.vcs_machine.specs.Outcomes.{PlaysOn, Halts};
ghost use Rattle.vcs_machine.specs.Pictures.{Rows};

use crate::console::Console;
use crate::fault::{FaultKind, Halt};
use crate::frame_loop::run_frame;
use crate::input::Input;
use crate::picture::Picture;
use crate::state::State;
use crate::timing::timed_frame;
use refused::Refused;
use riot_map::Cart;
use std::alloc::Global;
use tia_core::{NoPaint, Paint};

/// A frame from a state, whose pixels go to a sink; it answers the sink, and its cycles.
pub(crate) fn frame_onto<S: Paint + Drop>(
    cart: &Cart,
    state: &mut State,
    input: Input,
    sink: S,
) -> Result<(S, u32), Halt>
    ensures ok { IfOk result (λ played. PlaysOn S.drawn cart.now state.old input sink state.new played.0 played.1) }
    ensures err { IfErr result (λ halt. Halts cart.now state.old input halt.kind state.new halt.cycles) }
    ensures most { IfOk result (λ played. played.1 ≤ most_frame_cycles) }
    ensures lawful { IsTrue (is_input input) }
{
    let mut cpu = state.cpu();
    let mut console = Console::begin(cart, state, input, sink);
    let ran = run_frame(&mut cpu, &mut console);
    let (after, sink) = console.finish(cpu);
    *state = after;
    match ran {
        Ok(cycles) => Ok((sink, cycles)),
        Err(halt) => Err(halt),
    }
}

/// One frame on a cartridge from a state, with its picture if `keep` is true.
///
/// A frame sets the pins and buttons from its input, then executes instructions, each with its wait
/// after WSYNC, until bit 1 of VSYNC has fallen. It takes at most 24,401 cycles. After a fault the
/// state is the one before the faulty instruction, with the frame's beginning done, and after
/// `Overlong` the one that was reached. With `keep` false no memory is taken; with `keep` true that
/// of 322 rows is taken first, in one allocation, and if it is refused the state stays as it was.
pub fn frame(
    alloc: Global,
    cart: &Cart,
    state: &mut State,
    input: Input,
    keep: bool,
) -> Result<Option<Picture>, Refused<FaultKind>>
    ensures ok { IfOk result (λ picture. (rows : Rows) × (frame_of cart.now state.old input ≡ Played state.new rows)
        × (picture ≡ (if keep then Some rows else None))) }
    ensures err { IfErr result (λ error. FailsAs (frame_of cart.now state.old input) error state.new) }
    ensures memory { result ≡ Err Refused.NoMemory → keep ≡ true }
    ensures refused { result ≡ Err Refused.NoMemory → state.new ≡ state.old }
{
    match timed_frame(alloc, cart, state, input, keep) {
        Ok(timed) => Ok(timed.picture),
        Err(error) => Err(error),
    }
}

/// How one frame on a cartridge stops before its end, and after how many of its cycles; none if
/// it ends.
///
/// The state is left as `frame` leaves it, and no memory is taken. The cycles are those of the
/// instructions before the faulty one, with their waits.
pub fn halt(cart: &Cart, state: &mut State, input: Input) -> Option<Halt>
    ensures failed { IfSome result (λ halt. frame_of cart.now state.old input ≡ Failed halt.kind state.new) }
    ensures halted { IfSome result (λ halt. Halts cart.now state.old input halt.kind state.new halt.cycles) }
    ensures ended { IfNone result ((rows : Rows) × (frame_of cart.now state.old input ≡ Played state.new rows)) }
    ensures lawful { IsTrue (is_input input) }
{
    match frame_onto(cart, state, input, NoPaint) {
        Ok(_) => None,
        Err(halt) => Some(halt),
    }
}

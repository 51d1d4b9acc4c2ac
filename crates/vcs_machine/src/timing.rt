//! One frame, and how long it took.
ghost use Rattle.std.specs.Prelude.{◌≡◌, true, if◌then◌else◌, Some, None, length, IfOk, IfErr};
ghost use Rattle.vcs_machine.specs.Outcomes.{FailsAs, Played, cycles_of, frame_of};
ghost use Rattle.vcs_machine.specs.Pictures.{Rows, rows_of};
ghost use Rattle.vcs_machine.specs.States.{line_cycle_of};

use crate::fault::FaultKind;
use crate::frames::frame_onto;
use crate::input::Input;
use crate::picture::{Picture, rows};
use crate::state::State;
use refused::Refused;
use riot_map::Cart;
use std::alloc::Global;
use tia_core::NoPaint;

/// How long a frame was that ended.
#[derive(Drop)]
pub struct TimedFrame {
    /// The cycles that it took, waits included: at most 24,401.
    pub cycles: u32,
    /// The rows of its picture, at most 322.
    pub rows: u16,
    /// Its picture, if it is kept.
    pub picture: Option<Picture>,
}

/// One frame on a cartridge from a state, as `frame` plays it, with its cycles and the rows of its
/// picture, whether or not that is kept.
///
/// The errors are those of `frame`, and so is what they leave. With `keep` false no memory is taken;
/// with `keep` true that of 322 rows is taken first, in one allocation, and if it is refused the
/// state stays as it was.
pub fn timed_frame(
    alloc: Global,
    cart: &Cart,
    state: &mut State,
    input: Input,
    keep: bool,
) -> Result<TimedFrame, Refused<FaultKind>>
    ensures ok { IfOk result (λ timed. (rows : Rows) × (frame_of cart.now state.old input ≡ Played state.new rows)
        × (timed.rows ≡ length rows) × (timed.picture ≡ (if keep then Some rows else None))) }
    ensures cycles { IfOk result (λ timed. timed.cycles ≡ cycles_of cart.now state.old input) }
    ensures rows { IfOk result (λ timed. timed.rows ≡ rows_of (line_cycle_of state.old) timed.cycles) }
    ensures err { IfErr result (λ error. FailsAs (frame_of cart.now state.old input) error state.new) }
    ensures memory { result ≡ Err Refused.NoMemory → keep ≡ true }
    ensures refused { result ≡ Err Refused.NoMemory → state.new ≡ state.old }
{
    let line_cycle = state.line_cycle();
    if !keep {
        return match frame_onto(cart, state, input, NoPaint) {
            Ok((_, cycles)) => Ok(TimedFrame {
                cycles,
                rows: rows(line_cycle, cycles),
                picture: None,
            }),
            Err(halt) => Err(Refused::Of(halt.kind)),
        };
    }
    let Ok(blank) = Picture::blank(alloc) else {
        return Err(Refused::NoMemory);
    };
    match frame_onto(cart, state, input, blank) {
        Ok((picture, cycles)) => {
            let rows = rows(line_cycle, cycles);
            Ok(TimedFrame {
                cycles,
                rows,
                picture: Some(picture.cut(rows)),
            })
        }
        Err(halt) => Err(Refused::Of(halt.kind)),
    }
}

//! One frame.
ghost use Rattle.std.specs.Prelude.{ℕ, ◌≡◌, true, if◌then◌else◌, Some, None, IfOk, IfErr, IfSome, IfNone, IsTrue, length};
ghost use Rattle.movie_machine.specs.Outcomes.{FailsAs, Failed, Played, frame_of, left_with};
ghost use Rattle.movie_machine.specs.States.{is_of};
ghost use Rattle.vcs_machine.specs.Inputs.{is_input};
ghost use Rattle.vcs_machine.specs.Pictures.{Rows};

use crate::cart::Cart;
use crate::fault::Halt;
use crate::state::State;
use chip_machine::TimedFrame;
use refused::Refused;
use std::alloc::Global;
use vcs_machine::{FaultKind, Input, timed_frame};

/// One frame on a cartridge from a state of it, with its picture if `keep` is true.
///
/// With `keep` false no memory is taken; with `keep` true that of 322 rows is taken first, in one
/// allocation, and if it is refused the state stays as it was. After a fault by the guide's rules the
/// state is the one before the faulty instruction, or after `Overlong` the one that was reached; by the
/// chip's rules it is worth nothing.
pub fn frame(
    alloc: Global,
    cart: &Cart,
    state: &mut State,
    input: Input,
    keep: bool,
) -> Result<TimedFrame, Refused<FaultKind>>
    requires { IsTrue (is_of cart.now state.old) }
    ensures ok { IfOk result (λ timed. (rows : Rows) × (frame_of cart.now state.old input ≡ Some (Played state.new rows timed.cycles))
        × (timed.rows ≡ length rows) × (timed.picture ≡ (if keep then Some rows else None))) }
    ensures err { IfErr result (λ error. FailsAs (frame_of cart.now state.old input) error state.new) }
    ensures cartridge { IsTrue (is_of cart.now state.new) }
    ensures memory { result ≡ Err Refused.NoMemory → keep ≡ true }
    ensures refused { result ≡ Err Refused.NoMemory → state.new ≡ state.old }
{
    match (cart, state) {
        (Cart::Guide(cart), State::Guide(state)) => {
            let timed = timed_frame(alloc, cart, state, input, keep)?;
            Ok(TimedFrame {
                cycles: timed.cycles,
                rows: timed.rows,
                picture: timed.picture,
            })
        }
        (Cart::Chip(cart), State::Chip(state)) => chip_machine::frame(
            alloc, cart, state, input, keep,
        ),
        _ => unreachable!(),
    }
}

/// How one frame on a cartridge stops before its end; none if it ends.
///
/// The state is left as `frame` leaves it, and no memory is taken.
pub fn halt(alloc: Global, cart: &Cart, state: &mut State, input: Input) -> Option<Halt>
    requires { IsTrue (is_of cart.now state.old) }
    ensures failed { IfSome result (λ halt. frame_of cart.now state.old input ≡ Some (Failed halt.kind (left_with state.new halt.cycles))) }
    ensures ended { IfNone result ((rows : Rows) × (cycles : ℕ) × (frame_of cart.now state.old input ≡ Some (Played state.new rows cycles))) }
    ensures cartridge { IsTrue (is_of cart.now state.new) }
    ensures lawful { IsTrue (is_input input) }
{
    match (cart, state) {
        (Cart::Guide(cart), State::Guide(state)) => {
            let halt = vcs_machine::halt(cart, state, input)?;
            Some(Halt {
                kind: halt.kind,
                cycles: Some(halt.cycles),
            })
        }
        (Cart::Chip(cart), State::Chip(state)) => {
            // (the proof then knows that the input is one)
            let _ = input.bytes();
            match chip_machine::frame(alloc, cart, state, input, false) {
                Ok(_) => None,
                Err(Refused::Of(kind)) => Some(Halt { kind, cycles: None }),
                Err(Refused::NoMemory) => unreachable!(),
            }
        }
        _ => unreachable!(),
    }
}

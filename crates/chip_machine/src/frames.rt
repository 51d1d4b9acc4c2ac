//! One frame.
ghost use Rattle.std.specs.Prelude.{◌≡◌, true, if◌then◌else◌, Some, None, IfOk, IfErr, IsTrue, length};
ghost use Rattle.chip_machine.specs.Frame.{stop_of};
ghost use Rattle.chip_machine.specs.Outcomes.{FailsAs, Played as PlayedOf, PlaysOn, frame_of, machine_of};
ghost use Rattle.chip_machine.specs.Outcomes.{stop_with};
ghost use Rattle.chip_machine.specs.States.{is_of};
ghost use Rattle.vcs_machine.specs.Pictures.{Rows};

use crate::console::Console;
use crate::frame_loop::run_until_stop;
use crate::left::Left;
use crate::state::State;
use crate::timed_frame::TimedFrame;
use cart_board::Cart;
use mos_cpu::RunningCpu;
use refused::Refused;
use std::alloc::Global;
use tia_core::{NoPaint, Paint};
use vcs_machine::{FaultKind, Input, Picture};

/// A frame that has ended, and the sink of its pixels.
#[derive(Drop)]
struct Played<S: Paint> {
    cycles: u32,
    rows: u16,
    sink: S,
}

/// A frame from a state, whose pixels go to a sink.
fn frame_onto<S: Paint + Drop>(
    alloc: Global,
    cart: &Cart,
    state: &mut State,
    input: Input,
    sink: S,
) -> Result<Played<S>, FaultKind>
    requires { IsTrue (is_of cart.now state.old) }
    ensures ok { IfOk result (λ played. PlaysOn S.drawn cart.now state.old input sink state.new played.sink played.cycles played.rows) }
    ensures err { IfErr result (λ kind. stop_of S.drawn (machine_of cart.now state.old input sink) ≡ stop_with kind) }
    ensures cartridge { IsTrue (is_of cart.now state.new) }
{
    let mut cpu = RunningCpu::of(&state.cpu());
    let mapped = state.take_cart(alloc, cart);
    let mut console = Console::begin(mapped, state.riot(), state.tia(), input, sink);
    let ran = run_until_stop(&mut cpu, &mut console);
    console.catch_up_tia();
    let cycles = console.cycles();
    let rows = console.rows();
    let Left {
        cart: mapped,
        riot,
        tia,
        sink,
    } = console.finish();
    match ran {
        Ok(()) => {
            *state = State::of_parts(cpu.registers(), &riot, &tia, mapped);
            Ok(Played { cycles, rows, sink })
        }
        Err(kind) => {
            state.put_ram(mapped);
            Err(kind)
        }
    }
}

/// One frame on a cartridge from a state of it, with its picture if `keep` is true.
///
/// A frame sets the pins and buttons from its input, then executes instructions, each with the stop
/// that it leaves, until bit 1 of VSYNC has fallen in one. With `keep` true the memory of 322 rows is
/// taken first, in one allocation, and if it is refused the state stays as it was. After a fault the
/// state is one of the cartridge, and worth nothing.
pub fn frame(
    alloc: Global,
    cart: &Cart,
    state: &mut State,
    input: Input,
    keep: bool,
) -> Result<TimedFrame, Refused<FaultKind>>
    requires { IsTrue (is_of cart.now state.old) }
    ensures ok { IfOk result (λ timed. (rows : Rows) × (frame_of cart.now state.old input ≡ PlayedOf state.new rows timed.cycles)
        × (timed.rows ≡ length rows) × (timed.picture ≡ (if keep then Some rows else None))) }
    ensures err { IfErr result (λ error. FailsAs (frame_of cart.now state.old input) error) }
    ensures cartridge { IsTrue (is_of cart.now state.new) }
    ensures memory { result ≡ Err Refused.NoMemory → keep ≡ true }
    ensures refused { result ≡ Err Refused.NoMemory → state.new ≡ state.old }
{
    if !keep {
        return match frame_onto(alloc, cart, state, input, NoPaint) {
            Ok(played) => Ok(TimedFrame {
                cycles: played.cycles,
                rows: played.rows,
                picture: None,
            }),
            Err(kind) => Err(Refused::Of(kind)),
        };
    }
    let Ok(blank) = Picture::blank(alloc) else {
        return Err(Refused::NoMemory);
    };
    match frame_onto(alloc, cart, state, input, blank) {
        Ok(played) => Ok(TimedFrame {
            cycles: played.cycles,
            rows: played.rows,
            picture: Some(played.sink.cut(played.rows)),
        }),
        Err(kind) => Err(Refused::Of(kind)),
    }
}

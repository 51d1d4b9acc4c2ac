//! A frame that is executed one instruction at a time, by the rules of its cartridge.
ghost use Rattle.std.specs.Prelude.{◌≡◌, ◌<◌, ◌≤◌, length, Err, Ok, Some, false, IsTrue, IfErr, IfOk, OnErr, OnOk};
ghost use Rattle.mos_cpu.specs.Operands.{length_of};
ghost use Rattle.mos_cpu.specs.declared.fault.CpuFault.{CpuFault};
ghost use Rattle.movie_machine.specs.Carts.{ram_length};
ghost use Rattle.movie_machine.specs.Instructions.{begun, chip_executed, cycles_of, executed_at, guide_executed};
ghost use Rattle.movie_machine.specs.Instructions.{has_ended, is_over, next_of, rows_of};
ghost use Rattle.movie_machine.specs.States.{is_of};
ghost use Rattle.vcs_machine.specs.Faults.{kind_of};

use crate::cart::Cart;
use crate::executed::Executed;
use crate::state::State;
use arrayvec::ArrayVec;
use mos_cpu::{Mode, row};
use std::alloc::{AllocError, Global};
use std::marker::Model;
use vcs_machine::{FaultKind, Input};

/// A frame on a cartridge that goes on one instruction at a time, and draws nothing.
#[derive(Drop)]
pub struct Stepping<'a> {
    frame: Frame<'a>,
}

#[derive(Drop)]
enum Frame<'a> {
    Guide(GuideFrame<'a>),
    Chip(ChipFrame<'a>),
}

#[derive(Drop)]
struct GuideFrame<'a> {
    cart: &'a riot_map::Cart,
    /// The cycle of its scanline in which the frame began.
    line_cycle: u8,
    stepping: vcs_machine::Stepping<'a>,
}

#[derive(Drop)]
struct ChipFrame<'a> {
    cart: &'a cart_board::Cart,
    stepping: chip_machine::Stepping<'a>,
}

impl<'a> Model for Stepping<'a> {
    ghost use Rattle.movie_machine.specs.Instructions.{Underway};
    ghost use Rattle.movie_machine.specs.Private.Stepping.{underway_of};

    ghost Value = { Underway };

    ghost view = { λ s. underway_of s.frame };
}

impl<'a> Stepping<'a> {
    /// A frame that begins in a state of this cartridge, with this input.
    ///
    /// AllocError comes only if memory for the RAM of the cartridge was refused.
    pub fn begin(
        alloc: Global,
        cart: &'a Cart,
        state: &State,
        input: Input,
    ) -> Result<Stepping<'a>, AllocError>
        requires { IsTrue (is_of cart.now state.now) }
        ensures value { IfOk result (λ stepping. begun cart.now state.now input ≡ Some stepping) }
        ensures memory { OnErr result (0 < ram_length cart.now) }
    {
        let frame = match (cart, state) {
            (Cart::Guide(cart), State::Guide(state)) => Frame::Guide(GuideFrame {
                cart,
                line_cycle: state.line_cycle(),
                stepping: vcs_machine::Stepping::begin(cart, state, input),
            }),
            (Cart::Chip(cart), State::Chip(state)) => Frame::Chip(ChipFrame {
                cart,
                stepping: chip_machine::Stepping::begin(alloc, cart, state, input)?,
            }),
            _ => unreachable!(),
        };
        Ok(Stepping { frame })
    }

    /// The cycles of the frame so far.
    pub fn cycles(&self) -> u32
        ensures { result ≡ cycles_of self.now }
    {
        match &self.frame {
            Frame::Guide(frame) => frame.stepping.cycles(),
            Frame::Chip(frame) => frame.stepping.cycles(),
        }
    }

    /// The rows of the picture of the frame, if it ends here.
    pub fn rows(&self) -> u16
        ensures { result ≡ rows_of self.now }
    {
        match &self.frame {
            Frame::Guide(frame) => frame.stepping.rows(frame.line_cycle),
            Frame::Chip(frame) => frame.stepping.rows(),
        }
    }

    /// Whether the frame's end has come: VSYNC has fallen in it.
    pub fn has_ended(&self) -> bool
        ensures { result ≡ has_ended self.now }
    {
        match &self.frame {
            Frame::Guide(frame) => frame.stepping.has_ended(),
            Frame::Chip(frame) => frame.stepping.has_ended(),
        }
    }

    /// Whether the frame stops here: it has ended, or it is too long.
    pub fn is_over(&self) -> bool
        ensures { result ≡ is_over self.now }
    {
        match &self.frame {
            Frame::Guide(frame) => frame.stepping.is_over(),
            Frame::Chip(frame) => frame.stepping.is_over(),
        }
    }

    /// Executes one instruction with the stop that it leaves, in a frame that isn't over. By the guide's
    /// rules a faulty one changes nothing; by the chip's nothing is said of what goes on after it.
    pub fn next(&mut self) -> Result<Executed, FaultKind>
        requires { is_over self.old ≡ false }
        ensures went { OnOk result (next_of self.old ≡ Ok self.new) }
        ensures executed { IfOk result (λ executed. executed ≡ executed_at self.old) }
        ensures later { OnOk result (cycles_of self.old < cycles_of self.new) }
        ensures fault { IfErr result (λ kind. (fault : CpuFault) × (kind ≡ kind_of fault) × (next_of self.old ≡ Err fault)) }
    {
        match &mut self.frame {
            Frame::Guide(frame) => Ok(executed_by_guide(frame.cart, frame.stepping.next()?)),
            Frame::Chip(frame) => Ok(executed_by_chip(frame.cart, frame.stepping.next()?)),
        }
    }
}

/// How many bytes an instruction with this addressing mode has.
fn code_length(mode: Mode) -> usize
    ensures value { result ≡ length_of mode }
    ensures range { result ≤ 3 }
{
    match mode {
        Mode::Implied | Mode::Accumulator => 1,
        Mode::Absolute | Mode::AbsoluteX | Mode::AbsoluteY | Mode::Indirect => 3,
        _ => 2,
    }
}

/// These bytes, where there is room for them.
fn listed<const N: usize>(bytes: &[u8]) -> ArrayVec<u8, N>
    requires { length bytes.now ≤ N }
    ensures { result.items ≡ bytes.now }
{
    ArrayVec::try_from(bytes).unwrap()
}

/// An instruction by the guide's rules, on a cartridge.
fn executed_by_guide(cart: &riot_map::Cart, executed: vcs_machine::Executed) -> Executed
    ensures { result ≡ guide_executed cart.now executed }
{
    let mut banks = ArrayVec::new();
    if cart.has_banks() {
        banks.push(executed.bank);
    }
    let bytes = [executed.opcode, executed.low, executed.high];
    let length = match row(executed.opcode) {
        Some(row) => code_length(row.mode),
        None => 0,
    };
    Executed {
        line: executed.line,
        cycle: executed.cycle,
        cpu: executed.cpu,
        banks,
        code: listed(&bytes[..length]),
        accesses: executed.accesses,
    }
}

/// The same by the chip's rules.
fn executed_by_chip(cart: &cart_board::Cart, executed: chip_machine::Executed) -> Executed
    ensures { result ≡ chip_executed cart.now executed }
{
    Executed {
        line: executed.line,
        cycle: executed.cycle,
        cpu: executed.cpu,
        banks: listed(cart.board().bank_bytes(&executed.banks)),
        code: executed.code,
        accesses: executed.accesses,
    }
}

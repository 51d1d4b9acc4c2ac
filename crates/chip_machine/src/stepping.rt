//! A frame that is executed one instruction at a time.
ghost use Rattle.std.specs.Prelude.{◌≡◌, ◌≤◌, ◌<◌, ◌||◌, length, nat_le, IsTrue, IfOk, IfErr, OnOk, OnErr};
ghost use Rattle.mos_cpu.specs.declared.fault.CpuFault.{CpuFault};
ghost use Rattle.vcs_machine.specs.Faults.{kind_of};
ghost use Rattle.chip_machine.specs.Frame.{Faulty, Went, overlong_cycles, turn};
ghost use Rattle.chip_machine.specs.Instructions.{executed_at};
ghost use Rattle.chip_machine.specs.Outcomes.{machine_of};
ghost use Rattle.chip_machine.specs.Pictures.{rows_of};
ghost use Rattle.chip_machine.specs.States.{is_of};

use crate::console::Console;
use crate::executed::Executed;
use crate::frame_loop::TOO_MANY_CYCLES;
use crate::logged::Logged;
use crate::state::State;
use arrayvec::ArrayVec;
use bus_cycles::step;
use cart_board::Cart;
use mos_cpu::Cpu;
use std::alloc::{AllocError, Global};
use std::marker::Model;
use std::mem;
use tia_core::NoPaint;
use vcs_machine::{FaultKind, Input};

/// A frame on a cartridge that goes on one instruction at a time, and draws nothing.
#[derive(Drop)]
pub struct Stepping<'a> {
    cpu: Cpu,
    bus: Logged<'a>,
}

impl<'a> Model for Stepping<'a> {
    ghost use Rattle.std.specs.Prelude.{◌≡◌, []};
    ghost use Rattle.chip_machine.specs.Frame.{Machine};
    ghost use Rattle.tia_core.specs.declared.paint.NoPaint.{NoPaint};

    ghost Value = { Machine NoPaint };

    ghost view = { λ s. record { registers = s.cpu; console = s.bus.console } };

    ghost invariant = { λ s. (s.bus.code.items ≡ []) × (s.bus.accesses.items ≡ []) };
}

impl<'a> Stepping<'a> {
    /// A frame that begins in a state of this cartridge, with this input.
    ///
    /// AllocError comes only if the allocation of the cartridge's RAM was refused. Without RAM it takes
    /// no memory.
    pub fn begin(
        alloc: Global,
        cart: &'a Cart,
        state: &State,
        input: Input,
    ) -> Result<Stepping<'a>, AllocError>
        requires { IsTrue (is_of cart.now state.now) }
        ensures value { IfOk result (λ stepping. stepping ≡ machine_of cart.now state.now input (record {})) }
        ensures memory { OnErr result (0 < length state.now.ram) }
    {
        let mut copy = state.copy(alloc)?;
        let mapped = copy.take_cart(alloc, cart);
        Ok(Stepping {
            cpu: state.cpu(),
            bus: Logged {
                console: Console::begin(mapped, state.riot(), state.tia(), input, NoPaint),
                code: ArrayVec::new(),
                accesses: ArrayVec::new(),
            },
        })
    }

    /// The cycles of the frame so far.
    pub fn cycles(&self) -> u32
        ensures { result ≡ self.now.console.cycles }
    {
        self.bus.console.cycles()
    }

    /// The rows of the picture of the frame, if it ends here.
    pub fn rows(&self) -> u16
        ensures { result ≡ rows_of self.now.console.tia }
    {
        self.bus.console.rows()
    }

    /// Whether the frame's end has come: VSYNC has fallen in it.
    pub fn has_ended(&self) -> bool
        ensures { result ≡ self.now.console.has_ended }
    {
        self.bus.console.has_ended()
    }

    /// Whether the frame stops here: it has ended, or it is too long.
    pub fn is_over(&self) -> bool
        ensures { result ≡ (self.now.console.has_ended || nat_le overlong_cycles self.now.console.cycles) }
    {
        self.has_ended() || self.cycles() >= TOO_MANY_CYCLES
    }

    /// Executes one instruction with the stop that it leaves. Nothing is said of what goes on after a
    /// fault.
    pub fn next(&mut self) -> Result<Executed, FaultKind>
        ensures went { OnOk result (turn (λ s _ _ _. s) self.old ≡ Went self.new) }
        ensures executed { IfOk result (λ executed. executed ≡ executed_at (λ s _ _ _. s) self.old) }
        ensures fault { IfErr result (λ kind. (fault : CpuFault) × (kind ≡ kind_of fault) × (turn (λ s _ _ _. s) self.old ≡ Faulty fault)) }
    {
        let cpu = self.cpu;
        let banks = self.bus.console.banks();
        self.bus.console.catch_up_tia();
        let (line, cycle) = self.bus.console.beam();
        let answer = step(&mut self.cpu, &mut self.bus);
        let code = mem::replace(&mut self.bus.code, ArrayVec::new());
        let accesses = mem::replace(&mut self.bus.accesses, ArrayVec::new());
        if let Err(fault) = answer {
            return Err(FaultKind::from(fault));
        }
        self.bus.console.pass_stop();
        Ok(Executed {
            line,
            cycle,
            cpu,
            banks,
            code,
            accesses,
        })
    }
}

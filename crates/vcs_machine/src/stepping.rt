//! A frame that is executed one instruction at a time.
ghost use Rattle.std.specs.Prelude.{◌≡◌, ◌<◌, ◌≤◌, ◌+◌, IfOk, IfErr, OnOk, OnErr};
ghost use Rattle.mos_cpu.specs.declared.fault.CpuFault.{CpuFault};
ghost use Rattle.vcs_machine.specs.Faults.{kind_of};
ghost use Rattle.vcs_machine.specs.Frame.{Faulty, Went, is_over, overlong_cycles, turn};
ghost use Rattle.vcs_machine.specs.Instructions.{executed_at, undrawn_meaning, undrawn_of};
ghost use Rattle.vcs_machine.specs.Instructions.{with_pixel_lost};
ghost use Rattle.vcs_machine.specs.Pictures.{rows_of};

use crate::console::Console;
use crate::executed::Executed;
use crate::fault::FaultKind;
use crate::frame_loop::TOO_MANY_CYCLES;
use crate::input::Input;
use crate::logged::{Logged, NoPixels};
use crate::picture::rows;
use crate::state::State;
use arrayvec::ArrayVec;
use mos_cpu::{Cpu, step};
use riot_map::Cart;
use std::marker::Model;
use std::mem;

/// A frame on a cartridge that goes on one instruction at a time, and draws nothing.
#[derive(Drop)]
pub struct Stepping<'a> {
    cpu: Cpu,
    bus: Logged<'a>,
    cycles: u32,
}

impl<'a> Model for Stepping<'a> {
    ghost use Rattle.std.specs.Prelude.{◌≡◌, ◌≤◌, []};
    ghost use Rattle.vcs_machine.specs.Frame.{Machine, most_frame_cycles};
    ghost use Rattle.vcs_machine.specs.Instructions.{Undrawn};

    ghost Value = { Machine Undrawn };

    ghost view = { λ s. record { registers = s.cpu; bus = s.bus.console; cycles = s.cycles } };

    ghost invariant = { λ s. (s.bus.accesses.items ≡ []) × (s.cycles ≤ most_frame_cycles) };
}

impl<'a> Stepping<'a> {
    /// A frame that begins in a state, with this input.
    pub fn begin(cart: &'a Cart, state: &State, input: Input) -> Stepping<'a>
        ensures { result ≡ undrawn_of cart.now state.now input }
    {
        Stepping {
            cpu: state.cpu(),
            bus: Logged {
                console: Console::begin(cart, state, input, NoPixels),
                accesses: ArrayVec::new(),
            },
            cycles: 0,
        }
    }

    /// The cycles of the frame so far.
    pub fn cycles(&self) -> u32
        ensures { result ≡ self.now.cycles }
    {
        self.cycles
    }

    /// The rows of the picture of a frame that began at this cycle of its scanline, if it ends here.
    pub fn rows(&self, line_cycle: u8) -> u16
        ensures { result ≡ rows_of line_cycle self.now.cycles }
    {
        rows(line_cycle, self.cycles)
    }

    /// Whether the frame's end has come: VSYNC has fallen in it.
    pub fn has_ended(&self) -> bool
        ensures { result ≡ self.now.bus.ended }
    {
        self.bus.console.has_ended()
    }

    /// Whether the frame stops here: it has ended, or it is too long.
    #[tactic(auto, unfolding(crate::specs::Consoles::frame_meaning_of))]
    pub fn is_over(&self) -> bool
        ensures { result ≡ is_over undrawn_meaning self.now }
    {
        self.has_ended() || self.cycles >= TOO_MANY_CYCLES
    }

    /// Executes one instruction with its wait after WSYNC, in a frame that is not too long. A faulty
    /// one changes nothing.
    pub fn next(&mut self) -> Result<Executed, FaultKind>
        requires { self.old.cycles < overlong_cycles }
        ensures went { OnOk result (turn undrawn_meaning self.old ≡ Went self.new) }
        ensures executed { IfOk result (λ executed. executed ≡ executed_at with_pixel_lost self.old) }
        ensures later { OnOk result (self.old.cycles + 2 ≤ self.new.cycles) }
        ensures fault { IfErr result (λ kind. (fault : CpuFault) × (kind ≡ kind_of fault) × (turn undrawn_meaning self.old ≡ Faulty fault)) }
        ensures same { OnErr result (self.new ≡ self.old) }
    {
        let cpu = self.cpu;
        let bank = self.bus.console.bank();
        let opcode = self.bus.console.byte_at(cpu.pc);
        let low = self.bus.console.byte_at(cpu.pc.wrapping_add(1));
        let high = self.bus.console.byte_at(cpu.pc.wrapping_add(2));
        let (line, cycle) = self.bus.console.beam();
        match step(&mut self.cpu, &mut self.bus) {
            Ok(taken) => self.cycles += taken as u32,
            Err(fault) => return Err(FaultKind::from(fault)),
        }
        self.cycles += self.bus.console.wait() as u32;
        let accesses = mem::replace(&mut self.bus.accesses, ArrayVec::new());
        Ok(Executed {
            line,
            cycle,
            cpu,
            bank,
            opcode,
            low,
            high,
            accesses,
        })
    }
}

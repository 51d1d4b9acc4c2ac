//! The numbers of a state.
ghost use Rattle.std.specs.Prelude.{◌≡◌};
ghost use Rattle.vcs_machine.specs.States.{is_state};

use mos_cpu::Cpu;
use riot_map::RiotFields;
use tia_core::TiaFields;

/// The numbers of a console between two frames: those of its parts, and the selected bank.
///
/// Pins and pressed buttons are no part of a state: each frame's input has them. The line is none
/// either: each frame counts its own.
#[derive(Clone, Copy, Debug, PartialEq, Eq)]
pub struct StateFields {
    pub cpu: Cpu,
    pub riot: RiotFields,
    /// The beam stands where a cycle of the processor begins, so that `clock` is three times the
    /// cycles of its scanline.
    pub tia: TiaFields,
    /// The selected bank of the cartridge, 0 or 1; 0 if it has no banks.
    pub bank: u8,
}

impl StateFields {
    /// Whether these are the numbers of a state.
    #[tactic(auto, unfolding(crate::specs::States::is_state))]
    pub fn is_lawful(&self) -> bool
        ensures { result ≡ is_state self.now }
    {
        Cpu::is_status(self.cpu.p)
            && self.riot.is_lawful()
            && self.tia.is_lawful()
            && self.tia.clock % 3 == 0
            && self.bank < 2
    }
}

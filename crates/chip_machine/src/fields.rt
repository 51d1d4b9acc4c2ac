//! The numbers of a state.
ghost use Rattle.std.specs.Prelude.{◌≡◌};
ghost use Rattle.chip_machine.specs.States.{is_state};

use mos_cpu::Cpu;
use riot_chip::RiotFields;
use tia_chip::TiaState;

/// The numbers of a console between two frames, but for the RAM of its cartridge.
///
/// Pins and pressed buttons are no part of a state: each frame's input has them. The line is none
/// either, since each frame counts its own, nor a stop after WSYNC: no frame ends within one.
#[derive(Clone, Copy, Debug, PartialEq, Eq)]
pub struct StateFields {
    pub cpu: Cpu,
    pub riot: RiotFields,
    /// The beam stands where a cycle of the processor begins, so that `clock` is three times the
    /// cycles of its scanline.
    pub tia: TiaState,
    /// The bank bytes of the cartridge. Those that its board hasn't are 0.
    pub banks: [u8; 3],
}

impl StateFields {
    /// Whether these are the numbers of a state, on some cartridge.
    #[tactic(auto, unfolding(crate::specs::States::is_state))]
    pub fn is_lawful(&self) -> bool
        ensures { result ≡ is_state self.now }
    {
        Cpu::is_status(self.cpu.p)
            && self.riot.is_lawful()
            && self.tia.is_lawful()
            && self.tia.is_settled()
            && self.tia.clock % 3 == 0
    }
}

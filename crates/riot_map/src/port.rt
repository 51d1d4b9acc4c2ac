//! Ports of eight pins.
ghost use Rattle.std.specs.Prelude.{◌≡◌};
ghost use Rattle.riot_map.specs.Ports.{port_a_byte, port_b_byte};

/// A port.
#[derive(Clone, Copy)]
pub struct Port {
    /// The output latch.
    pub output: u8,
    /// The direction register: a bit of 1 is an output.
    pub direction: u8,
    /// The pins, as what is connected sets them.
    pub pins: u8,
}

impl Port {
    /// The pins, of which an output of 0 pulls its own down.
    #[tactic(auto, using(crate::proofs::PortLemmas::port_a))]
    pub fn read_a(&self) -> u8
        ensures { result ≡ port_a_byte self.now }
    {
        self.pins & (self.output | !self.direction)
    }

    /// The outputs, and the pins elsewhere.
    #[tactic(auto, using(crate::proofs::PortLemmas::port_b))]
    pub fn read_b(&self) -> u8
        ensures { result ≡ port_b_byte self.now }
    {
        (self.output & self.direction) | (self.pins & !self.direction)
    }
}

//! The names of what can be held.
ghost use Rattle.std.specs.Prelude.{◌≡◌, ◌^◌};
ghost use Rattle.input_text.specs.Names.{bit_of_name};

/// The port that has a name's bit, which is a byte of an input: ports A and B of the RIOT, and the
/// buttons.
#[derive(Clone, Copy, PartialEq, Eq)]
pub(crate) enum Port {
    Swcha,
    Swchb,
    Buttons,
}

/// What can be held in a frame: the joysticks' directions and buttons, and the console's switches.
///
/// `Pro0` and `Pro1` are the difficulty switches of the two players at A, `Monochrome` is the
/// colour switch at black and white.
#[derive(Clone, Copy, PartialEq, Eq)]
pub(crate) enum Name {
    Up0,
    Down0,
    Left0,
    Right0,
    Fire0,
    Up1,
    Down1,
    Left1,
    Right1,
    Fire1,
    Reset,
    Select,
    Monochrome,
    Pro0,
    Pro1,
}

/// All names, in the order of printing.
pub(crate) const NAMES: [Name; 15] = [
    Name::Up0,
    Name::Down0,
    Name::Left0,
    Name::Right0,
    Name::Fire0,
    Name::Up1,
    Name::Down1,
    Name::Left1,
    Name::Right1,
    Name::Fire1,
    Name::Reset,
    Name::Select,
    Name::Monochrome,
    Name::Pro0,
    Name::Pro1,
];

/// How a name is written, and its bit.
#[derive(Clone, Copy)]
pub(crate) struct NamedBit {
    pub(crate) word: &'static str,
    pub(crate) port: Port,
    /// The bit alone, in the byte of that port.
    pub(crate) mask: u8,
}

impl Name {
    /// How it is written, and its bit.
    pub(crate) fn named_bit(self) -> NamedBit
        ensures word { result.word.now ≡ (bit_of_name self).word }
        ensures port { result.port ≡ (bit_of_name self).port }
        ensures mask { result.mask ≡ 2 ^ (bit_of_name self).bit }
    {
        let (word, port, mask) = match self {
            Name::Up0 => ("up0", Port::Swcha, 0x10),
            Name::Down0 => ("down0", Port::Swcha, 0x20),
            Name::Left0 => ("left0", Port::Swcha, 0x40),
            Name::Right0 => ("right0", Port::Swcha, 0x80),
            Name::Fire0 => ("fire0", Port::Buttons, 0x01),
            Name::Up1 => ("up1", Port::Swcha, 0x01),
            Name::Down1 => ("down1", Port::Swcha, 0x02),
            Name::Left1 => ("left1", Port::Swcha, 0x04),
            Name::Right1 => ("right1", Port::Swcha, 0x08),
            Name::Fire1 => ("fire1", Port::Buttons, 0x02),
            Name::Reset => ("reset", Port::Swchb, 0x01),
            Name::Select => ("select", Port::Swchb, 0x02),
            Name::Monochrome => ("monochrome", Port::Swchb, 0x08),
            Name::Pro0 => ("pro0", Port::Swchb, 0x40),
            Name::Pro1 => ("pro1", Port::Swchb, 0x80),
        };
        NamedBit { word, port, mask }
    }
}

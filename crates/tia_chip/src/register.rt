//! The registers that are written, by name and number, and the bits that each keeps.
ghost use Rattle.std.specs.Prelude.{◌≡◌, ◌≤◌};
ghost use Rattle.tia_chip.specs.Private.Late.{acts_late, is_colour, keeps_shown};
ghost use Rattle.tia_chip.specs.Private.Owed.{needs_steps};
ghost use Rattle.tia_chip.specs.Registers.{register_of, mask_of, register_bits, delay_of, value_by_delay};

use crate::bits::has_bit;

/// The number of WSYNC, whose write makes the processor wait for the next scanline.
pub const WSYNC: u8 = 2;

/// A register that can be written, by its name in the Stella Programmer's Guide.
#[derive(Clone, Copy, Debug, PartialEq, Eq)]
pub enum Register {
    Vsync,
    Vblank,
    Wsync,
    Rsync,
    Nusiz0,
    Nusiz1,
    Colup0,
    Colup1,
    Colupf,
    Colubk,
    Ctrlpf,
    Refp0,
    Refp1,
    Pf0,
    Pf1,
    Pf2,
    Resp0,
    Resp1,
    Resm0,
    Resm1,
    Resbl,
    Grp0,
    Grp1,
    Enam0,
    Enam1,
    Enabl,
    Hmp0,
    Hmp1,
    Hmm0,
    Hmm1,
    Hmbl,
    Vdelp0,
    Vdelp1,
    Vdelbl,
    Resmp0,
    Resmp1,
    Hmove,
    Hmclr,
    Cxclr,
    /// A register without effect: audio, and the numbers past CXCLR.
    Ignored,
}

/// The registers by number, 00 to 2C.
const REGISTERS: &[Register; 45] = &[
    Register::Vsync,
    Register::Vblank,
    Register::Wsync,
    Register::Rsync,
    Register::Nusiz0,
    Register::Nusiz1,
    Register::Colup0,
    Register::Colup1,
    Register::Colupf,
    Register::Colubk,
    Register::Ctrlpf,
    Register::Refp0,
    Register::Refp1,
    Register::Pf0,
    Register::Pf1,
    Register::Pf2,
    Register::Resp0,
    Register::Resp1,
    Register::Resm0,
    Register::Resm1,
    Register::Resbl,
    Register::Ignored,
    Register::Ignored,
    Register::Ignored,
    Register::Ignored,
    Register::Ignored,
    Register::Ignored,
    Register::Grp0,
    Register::Grp1,
    Register::Enam0,
    Register::Enam1,
    Register::Enabl,
    Register::Hmp0,
    Register::Hmp1,
    Register::Hmm0,
    Register::Hmm1,
    Register::Hmbl,
    Register::Vdelp0,
    Register::Vdelp1,
    Register::Vdelbl,
    Register::Resmp0,
    Register::Resmp1,
    Register::Hmove,
    Register::Hmclr,
    Register::Cxclr,
];

impl Register {
    /// The register with this number, of which the low six bits count.
    #[inline(always)]
    pub(crate) fn from_number(number: u8) -> Self
        ensures { result ≡ register_of number }
    {
        let index = (number % 64) as usize;
        if index < 45 {
            REGISTERS[index]
        } else {
            Register::Ignored
        }
    }

    /// The bits that it keeps of a written value.
    #[inline(always)]
    pub(crate) fn mask(self) -> u8
        ensures { result ≡ mask_of self }
    {
        match self {
            Register::Vblank => 0x42,
            Register::Nusiz0 | Register::Nusiz1 | Register::Ctrlpf => 0x37,
            Register::Colup0 | Register::Colup1 | Register::Colupf | Register::Colubk => 0xFE,
            Register::Refp0 | Register::Refp1 => 0x08,
            Register::Pf1 | Register::Pf2 | Register::Grp0 | Register::Grp1 => 0xFF,
            Register::Vsync | Register::Enam0 | Register::Enam1 | Register::Enabl => 0x02,
            Register::Resmp0 | Register::Resmp1 => 0x02,
            Register::Pf0 | Register::Hmp0 | Register::Hmp1 => 0xF0,
            Register::Hmm0 | Register::Hmm1 | Register::Hmbl => 0xF0,
            Register::Vdelp0 | Register::Vdelp1 | Register::Vdelbl => 0x01,
            _ => 0,
        }
    }

    /// The bits of a written value that it keeps.
    #[inline(always)]
    pub(crate) fn keep(self, value: u8) -> u8
        ensures { result ≡ register_bits self value }
    {
        value & self.mask()
    }

    /// Whether all of a write of it is put on its way, in the place of any other write but HMOVE.
    #[inline(always)]
    pub(crate) fn acts_late(self) -> bool
        ensures { result ≡ acts_late self }
    {
        match self {
            Register::Refp0 | Register::Refp1 => true,
            Register::Pf0 | Register::Pf1 | Register::Pf2 => true,
            Register::Grp0 | Register::Grp1 => true,
            Register::Enam0 | Register::Enam1 | Register::Enabl => true,
            Register::Hmp0 | Register::Hmp1 => true,
            Register::Hmm0 | Register::Hmm1 | Register::Hmbl | Register::Hmclr => true,
            _ => false,
        }
    }

    /// Whether it is one of the four colours.
    #[inline(always)]
    pub(crate) fn is_colour(self) -> bool
        ensures { result ≡ is_colour self }
    {
        match self {
            Register::Colup0 | Register::Colup1 | Register::Colupf | Register::Colubk => true,
            _ => false,
        }
    }

    /// Whether a write of it surely changes nothing that an object shows.
    #[inline(always)]
    pub(crate) fn keeps_shown(self) -> bool
        ensures { result ≡ keeps_shown self }
    {
        match self {
            Register::Nusiz0 | Register::Nusiz1 => false,
            Register::Refp0 | Register::Refp1 => false,
            Register::Grp0 | Register::Grp1 => false,
            Register::Enam0 | Register::Enam1 | Register::Enabl => false,
            Register::Vdelp0 | Register::Vdelp1 | Register::Vdelbl => false,
            Register::Resmp0 | Register::Resmp1 => false,
            _ => true,
        }
    }

    /// Whether a write of it depends on the steps of objects, or they on it.
    #[inline(always)]
    pub(crate) fn needs_steps(self) -> bool
        ensures { result ≡ needs_steps self }
    {
        match self {
            Register::Nusiz0 | Register::Nusiz1 | Register::Ctrlpf => true,
            Register::Refp0 | Register::Refp1 => true,
            Register::Resp0 | Register::Resp1 => true,
            Register::Resm0 | Register::Resm1 | Register::Resbl => true,
            Register::Grp0 | Register::Grp1 => true,
            Register::Vdelp0 | Register::Vdelp1 => true,
            Register::Resmp0 | Register::Resmp1 => true,
            Register::Hmove => true,
            _ => false,
        }
    }

    /// After how many colour clocks a write of it acts.
    #[inline(always)]
    pub(crate) fn delay(self) -> u8
        ensures value { result ≡ delay_of self }
        ensures range { result ≤ 6 }
    {
        match self {
            Register::Vblank | Register::Refp0 | Register::Refp1 => 1,
            Register::Grp0 | Register::Grp1 => 1,
            Register::Enam0 | Register::Enam1 | Register::Enabl => 1,
            Register::Pf0 | Register::Pf1 | Register::Pf2 => 2,
            Register::Hmp0 | Register::Hmp1 => 2,
            Register::Hmm0 | Register::Hmm1 | Register::Hmbl | Register::Hmclr => 2,
            Register::Hmove => 6,
            _ => 0,
        }
    }
}

/// What is shown of a register that may be delayed: its old value if bit 0 of `delay` is set.
#[inline(always)]
pub fn value_by_delay(delay: u8, old: u8, new: u8) -> u8
    ensures { result ≡ value_by_delay delay old new }
{
    if has_bit(delay, 0) { old } else { new }
}

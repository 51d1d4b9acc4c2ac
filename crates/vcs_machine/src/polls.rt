//! Loops that wait for the timer.
ghost use Rattle.std.specs.Prelude.{◌≡◌, ◌<◌, IfSome};
ghost use Rattle.mos_cpu.specs.Accesses.{is_taken};
ghost use Rattle.vcs_machine.specs.Private.Polls.{goes_on, least_of, opcode_of, operation_of};

/// The branch that ends such a loop, which goes on while the byte that was loaded is of a kind.
#[derive(Clone, Copy)]
pub enum Branch {
    IfNotZero,
    IfZero,
    IfPlus,
    IfMinus,
}

impl Branch {
    /// The branch of an opcode. None for those that no such loop ends with.
    pub fn of_opcode(opcode: u8) -> Option<Branch>
        ensures { IfSome result (λ branch. opcode_of branch ≡ opcode) }
    {
        match opcode {
            0xD0 => Some(Branch::IfNotZero),
            0xF0 => Some(Branch::IfZero),
            0x10 => Some(Branch::IfPlus),
            0x30 => Some(Branch::IfMinus),
            _ => None,
        }
    }

    /// Whether it is taken at a status.
    pub fn is_taken(self, p: u8) -> bool
        ensures { result ≡ is_taken (operation_of self) p }
    {
        match self {
            Branch::IfNotZero => p / 2 % 2 != 1,
            Branch::IfZero => p / 2 % 2 == 1,
            Branch::IfPlus => p / 128 % 2 != 1,
            Branch::IfMinus => p / 128 % 2 == 1,
        }
    }

    /// Whether it is taken after a load of this byte.
    pub fn goes_on(self, byte: u8) -> bool
        ensures { result ≡ goes_on self byte }
    {
        match self {
            Branch::IfNotZero => byte != 0,
            Branch::IfZero => byte == 0,
            Branch::IfPlus => byte / 128 % 2 != 1,
            Branch::IfMinus => byte / 128 % 2 == 1,
        }
    }

    /// If it is taken after a load of a byte, it is so after that of each byte from this one up to
    /// it.
    pub fn least(self) -> u8
        ensures { result ≡ least_of self }
    {
        match self {
            Branch::IfNotZero => 1,
            Branch::IfZero | Branch::IfPlus => 0,
            Branch::IfMinus => 128,
        }
    }
}

/// A loop of two instructions: `LDA` of INTIM or of the timer's flag, and a branch back to it.
#[derive(Clone, Copy)]
pub struct Poll {
    pub branch: Branch,
    /// The register of the RIOT that is loaded.
    pub register: u8,
    /// The cycles of a round: the branch, taken, and the load.
    pub cycles: u8,
}

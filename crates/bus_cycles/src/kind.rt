//! Which cycles an operation has.

ghost use Rattle.std.specs.Prelude.{◌≡◌};
ghost use Rattle.bus_cycles.specs.Private.Kinds.{kind_of};

use mos_cpu::Operation;

/// Operations that are alike in their cycles.
#[derive(Clone, Copy, Debug, PartialEq, Eq)]
pub(crate) enum Kind {
    /// Reads its operand.
    Read,
    /// Stores a register.
    Store,
    /// Changes its operand.
    Change,
    /// Goes elsewhere if its test is met.
    Branch,
    /// Touches registers alone.
    Implied,
    /// PHA and PHP.
    Push,
    /// PLA and PLP.
    Pull,
    Jmp,
    Jsr,
    Rts,
    Rti,
    Brk,
}

impl Kind {
    #[inline(always)]
    pub(crate) fn of(operation: Operation) -> Kind
        ensures { result ≡ kind_of operation }
    {
        match operation {
            Operation::Adc => Kind::Read,
            Operation::And => Kind::Read,
            Operation::Bit => Kind::Read,
            Operation::Cmp => Kind::Read,
            Operation::Cpx => Kind::Read,
            Operation::Cpy => Kind::Read,
            Operation::Eor => Kind::Read,
            Operation::Lda => Kind::Read,
            Operation::Ldx => Kind::Read,
            Operation::Ldy => Kind::Read,
            Operation::Ora => Kind::Read,
            Operation::Sbc => Kind::Read,
            Operation::Sta => Kind::Store,
            Operation::Stx => Kind::Store,
            Operation::Sty => Kind::Store,
            Operation::Asl => Kind::Change,
            Operation::Dec => Kind::Change,
            Operation::Inc => Kind::Change,
            Operation::Lsr => Kind::Change,
            Operation::Rol => Kind::Change,
            Operation::Ror => Kind::Change,
            Operation::Bcc => Kind::Branch,
            Operation::Bcs => Kind::Branch,
            Operation::Beq => Kind::Branch,
            Operation::Bmi => Kind::Branch,
            Operation::Bne => Kind::Branch,
            Operation::Bpl => Kind::Branch,
            Operation::Bvc => Kind::Branch,
            Operation::Bvs => Kind::Branch,
            Operation::Pha => Kind::Push,
            Operation::Php => Kind::Push,
            Operation::Pla => Kind::Pull,
            Operation::Plp => Kind::Pull,
            Operation::Jmp => Kind::Jmp,
            Operation::Jsr => Kind::Jsr,
            Operation::Rts => Kind::Rts,
            Operation::Rti => Kind::Rti,
            Operation::Brk => Kind::Brk,
            _ => Kind::Implied,
        }
    }
}

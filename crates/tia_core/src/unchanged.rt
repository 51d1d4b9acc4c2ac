//! Writes of the TIA that change nothing.
ghost use Rattle.std.specs.Prelude.{◌≡◌, ℕ, Bool, IsTrue};
ghost use Rattle.tia_core.specs.Registers.{register_of};
ghost use Rattle.tia_core.specs.Write.{fields_after, effect_after};
ghost use Rattle.tia_core.specs.declared.effect.Effect.TheVariants.{Nothing};
ghost use Rattle.tia_core.specs.Private.Unchanged.{after_beam};

use crate::fields::TiaFields;
use crate::register::Register;

/// Whether a write of a register is known to leave a TIA of these numbers as it is, wherever its
/// beam is. A register keeps the bits of its mask. Games write most registers in each scanline, and
/// mostly what is there already.
#[inline(always)]
pub fn is_unchanged(fields: &TiaFields, number: u8, value: u8) -> bool
    ensures fields { IsTrue result → (fire0 fire1 : Bool) (collisions clock comb : ℕ) →
        fields_after (after_beam fields.now collisions clock comb) fire0 fire1 (register_of number) value
        ≡ after_beam fields.now collisions clock comb }
    ensures effect { IsTrue result → (collisions clock comb : ℕ) →
        effect_after (after_beam fields.now collisions clock comb) (register_of number) value ≡ Nothing }
{
    match number {
        0x04 => Register::Nusiz0.keep(value) == fields.nusiz0,
        0x05 => Register::Nusiz1.keep(value) == fields.nusiz1,
        0x06 => Register::Colup0.keep(value) == fields.colup0,
        0x07 => Register::Colup1.keep(value) == fields.colup1,
        0x08 => Register::Colupf.keep(value) == fields.colupf,
        0x09 => Register::Colubk.keep(value) == fields.colubk,
        0x0A => Register::Ctrlpf.keep(value) == fields.ctrlpf,
        0x0B => Register::Refp0.keep(value) == fields.refp0,
        0x0C => Register::Refp1.keep(value) == fields.refp1,
        0x0D => Register::Pf0.keep(value) == fields.pf0,
        0x0E => Register::Pf1.keep(value) == fields.pf1,
        0x0F => Register::Pf2.keep(value) == fields.pf2,
        0x1B => Register::Grp0.keep(value) == fields.grp0_new && fields.grp1_new == fields.grp1_old,
        0x1C => {
            Register::Grp1.keep(value) == fields.grp1_new
                && fields.grp0_new == fields.grp0_old
                && fields.enabl_new == fields.enabl_old
        }
        0x1D => Register::Enam0.keep(value) == fields.enam0,
        0x1E => Register::Enam1.keep(value) == fields.enam1,
        0x1F => Register::Enabl.keep(value) == fields.enabl_new,
        0x20 => Register::Hmp0.keep(value) == fields.hmp0,
        0x21 => Register::Hmp1.keep(value) == fields.hmp1,
        0x22 => Register::Hmm0.keep(value) == fields.hmm0,
        0x23 => Register::Hmm1.keep(value) == fields.hmm1,
        0x24 => Register::Hmbl.keep(value) == fields.hmbl,
        0x25 => Register::Vdelp0.keep(value) == fields.vdelp0,
        0x26 => Register::Vdelp1.keep(value) == fields.vdelp1,
        0x27 => Register::Vdelbl.keep(value) == fields.vdelbl,
        0x28 => Register::Resmp0.keep(value) == fields.resmp0,
        0x29 => Register::Resmp1.keep(value) == fields.resmp1,
        _ => false,
    }
}

//! Writes that the beam can't tell, but for the colours of its pixels.
ghost use Rattle.std.specs.Prelude.{◌≡◌, Bool, IsTrue, true, false, ℕ};
ghost use Rattle.tia_core.specs.Objects.{objects_at};
ghost use Rattle.tia_core.specs.Private.ObjectSets.{visible_objects};
ghost use Rattle.tia_core.specs.Private.ObjectMasks.{placed};
ghost use Rattle.tia_core.specs.Private.Unseen.{is_unseen};
ghost use Rattle.tia_core.specs.Registers.{register_of};
ghost use Rattle.tia_core.specs.Write.{fields_after};

use crate::fields::TiaFields;
use crate::register::Register;

/// Writes a register that holds a colour, if the register with this number, up to 63, is one, and
/// answers whether it is. Which pairs meet doesn't depend on it, so it makes no difference how far the
/// beam has gone.
#[tactic(auto, unfolding(crate::specs::Objects::objects_at))]
#[inline(always)]
pub fn write_unseen(fields: &mut TiaFields, number: u8, value: u8) -> bool
    ensures unseen { IsTrue result → is_unseen (register_of number) ≡ true }
    ensures value { IsTrue result → (fire0 fire1 : Bool) → fields.new ≡ fields_after fields.old fire0 fire1 (register_of number) value }
    ensures others { result ≡ false → fields.new ≡ fields.old }
    ensures objects { (x : ℕ) → objects_at fields.new x ≡ objects_at fields.old x }
    ensures visible { visible_objects fields.new ≡ visible_objects fields.old }
    ensures placed { (a b c d e x : ℕ) → objects_at (placed fields.new a b c d e) x ≡ objects_at (placed fields.old a b c d e) x }
{
    match number {
        0x06 => fields.colup0 = Register::Colup0.keep(value),
        0x07 => fields.colup1 = Register::Colup1.keep(value),
        0x08 => fields.colupf = Register::Colupf.keep(value),
        0x09 => fields.colubk = Register::Colubk.keep(value),
        _ => return false,
    }
    true
}

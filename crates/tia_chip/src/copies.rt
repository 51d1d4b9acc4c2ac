//! Which steps light an object whose copies follow from its counter.
ghost use Rattle.std.specs.Prelude.{ℕ, ◌≡◌, ◌<◌, ◌≤◌, ◌&&◌, nat_lt};
ghost use Rattle.tia_chip.specs.Bits.{has_bit};
ghost use Rattle.tia_chip.specs.Quiet.{age_of, counter_after as counter_of};

use crate::bits::{bits_at, bits_from, first_bits};
use crate::counter::{age, counter_after, steps_to_beginning};

/// With which of so many steps an object is lit whose shape has a bit for each age at which its copies
/// are: bit k is that of step k.
pub fn lit_steps(shape: u64, mode: u8, counter: u8, count: u8) -> u64
    requires mode { mode < 8 }
    requires counter { counter < 160 }
    requires most { count ≤ 64 }
    ensures { (k : ℕ) → has_bit result k ≡ (nat_lt k count && has_bit shape (age_of mode (counter_of k counter))) }
{
    let mut lit = 0;
    let mut passed = 0;
    while passed < count {
        let now = counter_after(passed, counter);
        let steps = (steps_to_beginning(mode, now) + 1).min(count - passed);
        let word = first_bits(bits_from(shape, age(mode, now)), steps);
        lit |= bits_at(word, passed);
        passed += steps;
    }
    lit
}

//! Laws of what a TIA does, for the machine that runs one.
ghost use Rattle.std.specs.Prelude.{◌≡◌, ◌↔◌, ◌<◌, ◌+◌, ◌*◌, ◌/◌, ◌%◌, ◌++◌, ◌^◌, ℕ, Bool, IsTrue};
ghost use Rattle.std.specs.Prelude.{true, false, All, map, filter, [], ◌∷◌};
ghost use Rattle.std.specs.Fn.{iterate};
ghost use Rattle.std.specs.List.{range_with_len};
ghost use Rattle.std.specs.List.Sorted.{IsStrictlyIncreasing};
ghost use Rattle.tia_core.specs.Beam.{beam_of, beam_of_pixel, is_visible};
ghost use Rattle.tia_core.specs.Bits.{has_bit};
ghost use Rattle.tia_core.specs.Clock.{after_clock, pixels, sink_after_pixels};
ghost use Rattle.tia_core.specs.Collision.{pairs_of, met_byte};
ghost use Rattle.tia_core.specs.Coverage.{player_covers, missile_covers, ball_covers};
ghost use Rattle.tia_core.specs.Read.{register_byte};
ghost use Rattle.tia_core.specs.TiaState.{TiaState, is_tia, at_frame_start};
ghost use Rattle.tia_core.specs.Write.{fields_after, effect_after, tia_after_write};

use crate::effect::Effect;
use crate::fields::TiaFields;
use crate::objects::Objects;
use crate::register::Register;

/// Clocks in two parts are clocks one after another, and so are their pixels.
pub fn law_of_clocks()
    ensures state { (m n : ℕ) (s : TiaState) → iterate after_clock (m + n) s ≡ iterate after_clock n (iterate after_clock m s) }
    ensures pixels { (m n : ℕ) (s : TiaState) → pixels (m + n) s ≡ pixels m s ++ pixels n (iterate after_clock m s) }
{}

/// What a sink gets of clocks in two parts is what it gets of them one after another.
pub fn law_of_sinks<S>()
    ensures { (drawn : S → ℕ → ℕ → ℕ → S) (sink : S) (m n : ℕ) (s : TiaState)
        → sink_after_pixels drawn sink (pixels (m + n) s)
        ≡ sink_after_pixels drawn (sink_after_pixels drawn sink (pixels m s)) (pixels n (iterate after_clock m s)) }
{}

/// The beam of lawful numbers is at one of the 228 clocks of a line. It goes on by a clock each
/// time, from line to line, and lines are counted modulo 65,536.
pub fn law_of_the_beam()
    ensures range { (t : TiaFields) → IsTrue (is_tia t) → t.clock < 228 }
    ensures clock { (n : ℕ) (s : TiaState) → IsTrue (is_tia s.fields) → (iterate after_clock n s).fields.clock ≡ (s.fields.clock + n) % 228 }
    ensures line { (n : ℕ) (s : TiaState) → IsTrue (is_tia s.fields) → s.line < 2 ^ 16
        → (iterate after_clock n s).line ≡ (s.line + (s.fields.clock + n) / 228) % 2 ^ 16 }
{}

/// Until lines are counted round, clocks put one pixel for each visible clock, in order, and so no
/// pixel twice.
pub fn law_of_pixels()
    ensures places { (n : ℕ) (s : TiaState) → IsTrue (is_tia s.fields) → beam_of s + n < 228 * 2 ^ 16
        → map beam_of_pixel (pixels n s) ≡ filter is_visible (range_with_len (beam_of s) n) }
    ensures rise { (n : ℕ) (s : TiaState) → IsTrue (is_tia s.fields) → beam_of s + n < 228 * 2 ^ 16 → IsStrictlyIncreasing (map beam_of_pixel (pixels n s)) }
    ensures in_line { (n : ℕ) (s : TiaState) → IsTrue (is_tia s.fields) → All (λ p. p.x < 160) (pixels n s) }
{}

/// Clocks, writes and frame starts make lawful numbers of lawful ones.
pub fn law_of_lawful_numbers()
    ensures clocks { (n : ℕ) (s : TiaState) → IsTrue (is_tia s.fields) → IsTrue (is_tia (iterate after_clock n s).fields) }
    ensures writes { (s : TiaState) (number v : ℕ) → IsTrue (is_tia s.fields) → IsTrue (is_tia (tia_after_write s number v).fields) }
    ensures frame_starts { (s : TiaState) → IsTrue (is_tia s.fields) → IsTrue (is_tia (at_frame_start s).fields) }
{}

/// Clocks change nothing but the collisions, the clock, the comb and the line.
pub fn law_of_unchanged_registers()
    ensures { (n : ℕ) (s : TiaState) → IsTrue (is_tia s.fields)
        → let after = iterate after_clock n s in
        after ≡ record s {
          fields = record s.fields { collisions = after.fields.collisions; clock = after.fields.clock; comb = after.fields.comb };
          line = after.line;
        } }
{}

/// A collision bit that is set stays set over clocks.
pub fn law_of_collisions()
    ensures { (n : ℕ) (s : TiaState) (k : ℕ) → has_bit s.fields.collisions k ≡ true → has_bit (iterate after_clock n s).fields.collisions k ≡ true }
{}

/// A write ends the frame exactly if bit 1 of VSYNC falls.
pub fn law_of_frame_ends()
    ensures { (t : TiaFields) (fire0 fire1 : Bool) (r : Register) (v : ℕ)
        → (effect_after t r v ≡ Effect.FrameEnd) ↔ ((has_bit t.vsync 1 ≡ true) × (has_bit (fields_after t fire0 fire1 r v).vsync 1 ≡ false)) }
{}

/// After a pixel that these objects cover, with the collisions cleared before, each of the
/// registers 0 to 7 gives those of its pairs that met.
pub fn law_of_collision_registers()
    ensures { (t : TiaFields) (fire0 fire1 : Bool) (o : Objects) (register : ℕ) → register < 8
        → register_byte (record t { collisions = pairs_of o }) fire0 fire1 register ≡ met_byte o register }
{}

/// Coverage goes round the line: an object that is moved by k pixels covers the pixels k further,
/// counted modulo 160.
pub fn law_of_coverage()
    ensures players { (mode : ℕ) (reflected : Bool) (graphic position x k : ℕ) → x < 160 → position < 160
        → player_covers mode reflected graphic ((position + k) % 160) ((x + k) % 160) ≡ player_covers mode reflected graphic position x }
    ensures missiles { (mode size position x k : ℕ) → x < 160 → position < 160
        → missile_covers mode size ((position + k) % 160) ((x + k) % 160) ≡ missile_covers mode size position x }
    ensures ball { (size position x k : ℕ) → x < 160 → position < 160
        → ball_covers size ((position + k) % 160) ((x + k) % 160) ≡ ball_covers size position x }
{}

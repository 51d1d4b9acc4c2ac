//! Laws about the definitions.
ghost use Rattle.std.specs.Prelude.{◌≡◌, ℕ, ◌+◌, ◌-◌, ◌*◌, ◌/◌, ◌%◌, ◌<◌, ◌≤◌, true};
ghost use Rattle.riot_map.specs.Riot.{RiotState, IsRiot, riot_of, fields_of, with_pins};
ghost use Rattle.riot_map.specs.Riot.{after_cycles, after_read, after_write, with_ram};
ghost use Rattle.riot_map.specs.Riot.{riot_at_power_on, riot_read};
ghost use Rattle.riot_map.specs.RiotFields.{is_riot, AreInRange};
ghost use Rattle.riot_map.specs.Timer.{after_cycle, interval_of};
ghost use Rattle.riot_map.specs.declared.fields.RiotFields.{RiotFields};

/// Lawful numbers come back from the RIOT that they make.
#[tactic(auto, using(crate::proofs::RiotNumbers::fields_back))]
pub fn law_of_numbers()
    ensures { (f : RiotFields) → f.timer < 256 → is_riot f ≡ true → fields_of (riot_of f) ≡ f }
{}

/// A RIOT comes back from its numbers, but for its pins, and these are lawful.
pub fn law_of_riots()
    ensures same { (r : RiotState) → IsRiot r → riot_of (fields_of r) ≡ with_pins 255 255 r }
    ensures lawful { (r : RiotState) → IsRiot r → is_riot (fields_of r) ≡ true }
    ensures in_range { (r : RiotState) → IsRiot r → AreInRange (fields_of r) }
{}

/// Power-on and lawful numbers make a RIOT, and what the calls do to a RIOT leaves one.
pub fn law_of_lawful_riots()
    ensures power_on { IsRiot riot_at_power_on }
    ensures fields { (f : RiotFields) → AreInRange f → is_riot f ≡ true → IsRiot (riot_of f) }
    ensures cycles { (r : RiotState) (n : ℕ) → IsRiot r → IsRiot (after_cycles n r) }
    ensures read { (r : RiotState) (register : ℕ) → IsRiot r → IsRiot (after_read r register) }
    ensures write { (r : RiotState) (register value : ℕ) → value < 256 → IsRiot r → IsRiot (after_write r register value) }
    ensures ram { (r : RiotState) (i value : ℕ) → value < 256 → IsRiot r → IsRiot (with_ram i value r) }
    ensures pins { (r : RiotState) (a b : ℕ) → IsRiot r → IsRiot (with_pins a b r) }
{}

/// So many cycles are as many single ones, one after another, and one is a step of the timer.
pub fn law_of_riot_cycles()
    ensures none { (r : RiotState) → after_cycles 0 r ≡ r }
    ensures one { (r : RiotState) → after_cycles 1 r ≡ record r { timer = after_cycle r.timer } }
    ensures parts { (m n : ℕ) (r : RiotState) → after_cycles (m + n) r ≡ after_cycles n (after_cycles m r) }
{}

/// What INTIM (register 04) and the flag (register 05) give after a write of `n` that starts the
/// timer: to TIM1T, TIM8T, TIM64T or T1024T, the registers from 14 (hexadecimal) on.
///
/// For `n` intervals, counted from the cycle after the write, INTIM shows n - 1 and falls by one
/// with each interval, so that it holds 0 for the last of them. Then it shows 255, and falls by one
/// with each cycle, modulo 256. The flag is clear up to then, and set from then on. A read of INTIM
/// clears it, and it stays clear until the next write. No read changes what INTIM shows later.
pub fn law_of_the_timer()
    ensures before_zero { (r : RiotState) (code n t : ℕ) → code < 4 → 0 < t → t ≤ n * interval_of code
        → let after = after_cycles t (after_write r (0x14 + code) n) in
        (riot_read after 4 ≡ n - 1 - (t - 1) / interval_of code) × (riot_read after 5 ≡ 0) }
    ensures past_zero { (r : RiotState) (code n t : ℕ) → code < 4
        → let after = after_cycles (n * interval_of code + 1 + t) (after_write r (0x14 + code) n) in
        (riot_read after 4 ≡ 255 - t % 256) × (riot_read after 5 ≡ 128) }
    ensures cleared { (r : RiotState) (code n t u : ℕ) → code < 4
        → let after = after_cycles (n * interval_of code + 1 + t) (after_write r (0x14 + code) n) in
        riot_read (after_cycles u (after_read after 4)) 5 ≡ 0 }
    ensures reads { (r : RiotState) (register t : ℕ) → riot_read (after_cycles t (after_read r register)) 4 ≡ riot_read (after_cycles t r) 4 }
{}

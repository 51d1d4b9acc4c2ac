//! The ball.
ghost use Rattle.std.specs.Fn.{iterate};
ghost use Rattle.std.specs.Prelude.{◌≡◌, ◌<◌, ◌≤◌, ◌+◌, ◌&&◌, nat_lt, Option, None, ℕ, suc, false, true};
ghost use Rattle.tia_chip.specs.Counter.{begins_copy as begins_of};
ghost use Rattle.tia_chip.specs.Quiet.{counter_after as counter_of};
ghost use Rattle.tia_chip.specs.Bits.{has_bit};
ghost use Rattle.tia_chip.specs.Ball.{ball_after_step, ball_after_strobe, begun_place, begun_size};
ghost use Rattle.tia_chip.specs.Ball.{enable_of, ending_size, is_ball_changed, is_ball_drawn};
ghost use Rattle.tia_chip.specs.Ball.{is_ball_lit, looked_at_ball, stepped_place};
ghost use Rattle.tia_chip.specs.Private.Ranges.{IsBallInRange, IsBallPlaceInRange};
ghost use Rattle.tia_chip.specs.Quiet.{IsQuietBall, ball_place_of_age, quiet_ball_after};

use crate::bits::{has_bit, with_pixel};
use crate::copies::lit_steps;
use crate::counter::{
    age, begins_copy, begins_within, counter_after, is_free_for, next_counter, steps_to_copy,
    strobed_counter,
};
use crate::missile::{dot_shape, is_dot_of_age, size};
use crate::register::value_by_delay;

/// The ball, with the registers that are its own.
#[derive(Clone, Copy, Debug, PartialEq, Eq)]
pub struct Ball {
    /// The enable that was written last.
    pub enabl_new: u8,
    /// The enable that is shown with VDELBL.
    pub enabl_old: u8,
    pub vdelbl: u8,
    pub hmbl: u8,
    /// 0 to 159.
    pub counter: u8,
    /// How far a copy on its way is: it is drawn from place 4 on.
    pub place: Option<u8>,
    /// The size at which a copy is over if the ball moves in the picture.
    pub own_size: u8,
    /// The counter modulo 4 before the last pulse of HMOVE.
    pub phase: u8,
    /// Whether HMOVE moves it.
    pub moves: bool,
    /// Whether its copy was drawn when it was last looked at.
    pub seen: bool,
}

/// Whether a copy is drawn.
#[inline(always)]
fn is_drawn(place: Option<u8>) -> bool
    ensures { result ≡ is_ball_drawn place }
{
    match place {
        None => false,
        Some(place) => place >= 4,
    }
}

/// A place after a step, unless a copy begins.
#[inline(always)]
fn stepped_place(size: u8, place: Option<u8>) -> Option<u8>
    requires place { IsBallPlaceInRange place }
    requires size { size ≤ 8 }
    ensures value { result ≡ stepped_place size place }
    ensures range { IsBallPlaceInRange result }
{
    match place {
        None => None,
        Some(place) => if place + 1 >= 4 + size {
            None
        } else {
            Some(place + 1)
        },
    }
}

/// The own size of a copy that begins.
#[inline(always)]
fn begun_size(ctrlpf: u8, phase: u8) -> u8
    ensures value { result ≡ begun_size ctrlpf phase }
    ensures range { result ≤ 8 }
{
    match phase {
        1 => size(ctrlpf).max(2),
        2 => 0,
        _ => size(ctrlpf),
    }
}

/// The place of a quiet ball whose last copy began so many steps ago.
#[inline(always)]
fn place_of_age(size: u8, age: u8) -> Option<u8>
    requires size { size ≤ 8 }
    ensures value { result ≡ ball_place_of_age size age }
    ensures range { IsBallPlaceInRange result }
{
    if age >= 4 + size { None } else { Some(age) }
}

impl Ball {
    /// Whether its place follows from its counter.
    #[inline(always)]
    pub(crate) fn is_quiet(&self, ctrlpf: u8) -> bool
        requires { IsBallInRange self.now }
        ensures { result ≡ true → IsQuietBall ctrlpf self.now }
    {
        self.place == place_of_age(size(ctrlpf), age(0, self.counter))
    }

    /// The steps of a line of a quiet ball, which lead to where it is. What was seen of it is forgotten.
    #[inline(always)]
    fn pass_line(&mut self, ctrlpf: u8)
        requires range { IsBallInRange self.old }
        requires quiet { IsQuietBall ctrlpf self.old }
        ensures value { self.new ≡ record (quiet_ball_after ctrlpf 160 self.old) { seen = false } }
        ensures range { IsBallInRange self.new }
    {
        self.own_size = begun_size(ctrlpf, self.phase);
        self.seen = false;
    }

    /// So many steps of a quiet ball. What was seen of it is forgotten.
    #[inline(always)]
    fn pass_quiet(&mut self, ctrlpf: u8, count: u8)
        requires range { IsBallInRange self.old }
        requires quiet { IsQuietBall ctrlpf self.old }
        requires some { 1 ≤ count }
        requires most { count ≤ 160 }
        ensures value { self.new ≡ record (quiet_ball_after ctrlpf count self.old) { seen = false } }
        ensures range { IsBallInRange self.new }
    {
        if count == 160 {
            self.pass_line(ctrlpf);
            return;
        }
        if begins_within(count, self.counter) {
            self.own_size = begun_size(ctrlpf, self.phase);
        }
        self.counter = counter_after(count, self.counter);
        self.place = place_of_age(size(ctrlpf), age(0, self.counter));
        self.seen = false;
    }

    /// Whether it is enabled, as it shows.
    #[inline(always)]
    pub(crate) fn is_enabled(&self) -> bool
        ensures { result ≡ has_bit (enable_of self.now) 1 }
    {
        has_bit(self.enable(), 1)
    }

    /// With which of so many steps of a quiet ball it is lit: bit k is that of step k.
    fn lit_within(&self, ctrlpf: u8, count: u8) -> u64
        requires range { IsBallInRange self.now }
        requires most { count ≤ 64 }
        ensures { (k : ℕ) → has_bit result k ≡ (nat_lt k count && is_ball_lit (quiet_ball_after ctrlpf (suc k) self.now)) }
    {
        if self.is_enabled() {
            lit_steps(dot_shape(size(ctrlpf)), 0, self.counter, count)
        } else {
            0
        }
    }

    /// So many steps of a quiet ball. The last is looked at.
    fn pass_looked(&mut self, ctrlpf: u8, count: u8)
        requires range { IsBallInRange self.old }
        requires some { 1 ≤ count }
        requires most { count ≤ 160 }
        ensures value { self.new ≡ quiet_ball_after ctrlpf count self.old }
        ensures range { IsBallInRange self.new }
    {
        let last = counter_after(count - 1, self.counter);
        self.seen = is_dot_of_age(size(ctrlpf), age(0, last));
        if begins_within(count, self.counter) {
            self.own_size = begun_size(ctrlpf, self.phase);
        }
        self.counter = counter_after(count, self.counter);
        self.place = place_of_age(size(ctrlpf), age(0, self.counter));
    }

    /// The enable that it shows.
    #[inline(always)]
    fn enable(&self) -> u8
        ensures { result ≡ enable_of self.now }
    {
        value_by_delay(self.vdelbl, self.enabl_old, self.enabl_new)
    }

    /// The size at which its copy is over.
    #[inline(always)]
    fn ending_size(&self, ctrlpf: u8, in_blank: bool) -> u8
        requires { IsBallInRange self.now }
        ensures value { result ≡ ending_size ctrlpf in_blank self.now }
        ensures range { result ≤ 8 }
    {
        if self.moves && !in_blank {
            self.own_size
        } else {
            size(ctrlpf)
        }
    }

    /// The place of a copy that begins.
    #[inline(always)]
    fn begun_place(&self, ctrlpf: u8, in_blank: bool) -> u8
        ensures value { result ≡ begun_place ctrlpf in_blank self.now }
        ensures range { result ≤ 1 }
    {
        let is_early = self.phase == 1 && self.moves && !in_blank && size(ctrlpf) <= 2;
        if is_early { 1 } else { 0 }
    }

    /// Looks at it: what is seen stays until the next look.
    #[inline(always)]
    pub(crate) fn look(&mut self)
        requires { IsBallInRange self.old }
        ensures value { self.new ≡ looked_at_ball self.old }
        ensures range { IsBallInRange self.new }
    {
        self.seen = is_drawn(self.place);
    }

    /// A step, before which it is looked at.
    #[inline]
    pub(crate) fn step(&mut self, ctrlpf: u8, in_blank: bool)
        requires { IsBallInRange self.old }
        ensures value { self.new ≡ ball_after_step ctrlpf in_blank self.old }
        ensures range { IsBallInRange self.new }
    {
        self.look();
        if begins_copy(0, self.counter) {
            self.place = Some(self.begun_place(ctrlpf, in_blank));
            self.own_size = begun_size(ctrlpf, self.phase);
        } else {
            self.place = stepped_place(self.ending_size(ctrlpf, in_blank), self.place);
        }
        self.counter = next_counter(self.counter);
    }

    /// RESBL, which takes effect so many steps late.
    pub(crate) fn strobe(&mut self, late: u8)
        requires range { IsBallInRange self.old }
        requires late { late ≤ 2 }
        ensures value { self.new ≡ ball_after_strobe late self.old }
        ensures range { IsBallInRange self.new }
    {
        self.counter = strobed_counter(late);
        self.place = Some(late);
    }

    /// Whether it is lit.
    #[inline(always)]
    pub(crate) fn is_lit(&self) -> bool
        ensures { result ≡ is_ball_lit self.now }
    {
        self.seen && has_bit(self.enable(), 1)
    }

    /// Whether a write that made it of `before` changed ENABL as it shows, or VDELBL.
    pub(crate) fn is_changed_from(&self, before: &Ball) -> bool
        ensures { result ≡ is_ball_changed before.now self.now }
    {
        before.enable() != self.enable() || before.vdelbl != self.vdelbl
    }

    /// The first of so many steps in the picture: those up to one with which a copy may begin, if there
    /// is none, and else one. How many they were.
    fn stride(&mut self, ctrlpf: u8, most: u8) -> u8
        requires range { IsBallInRange self.old }
        requires some { 1 ≤ most }
        ensures some { 1 ≤ result }
        ensures most { result ≤ most }
        ensures value { self.new ≡ iterate (ball_after_step ctrlpf false) result self.old }
        ensures unlit { (k : ℕ) → suc k < result → is_ball_lit (iterate (ball_after_step ctrlpf false) (suc k) self.old) ≡ false }
        ensures range { IsBallInRange self.new }
    {
        let steps = steps_to_copy(self.counter).min(most);
        if steps == 0 || self.place.is_some() {
            self.step(ctrlpf, false);
            return 1;
        }
        self.counter = counter_after(steps, self.counter);
        self.seen = false;
        steps
    }

    /// So many steps in the picture, at most 64, and with which of them it is lit: bit k is that of
    /// step k.
    pub(crate) fn steps(&mut self, ctrlpf: u8, count: u8) -> u64
        requires range { IsBallInRange self.old }
        requires some { 1 ≤ count }
        requires most { count ≤ 64 }
        ensures value { self.new ≡ iterate (ball_after_step ctrlpf false) count self.old }
        ensures lit { (k : ℕ) → has_bit result k ≡ (nat_lt k count && is_ball_lit (iterate (ball_after_step ctrlpf false) (suc k) self.old)) }
        ensures range { IsBallInRange self.new }
    {
        if self.is_bare_for(count) {
            self.counter += count;
            self.seen = false;
            return 0;
        }
        if !self.moves && self.is_quiet(ctrlpf) {
            let lit = self.lit_within(ctrlpf, count);
            self.pass_looked(ctrlpf, count);
            return lit;
        }
        let mut lit = 0;
        let mut passed = 0;
        while passed < count {
            passed += self.stride(ctrlpf, count - passed);
            lit = with_pixel(lit, passed - 1, self.is_lit());
        }
        lit
    }

    /// Whether it has no copy, none begins with the next steps, and its counter doesn't go round.
    #[inline(always)]
    fn is_bare_for(&self, count: u8) -> bool
        ensures none { result ≡ true → self.now.place ≡ None }
        ensures begins { result ≡ true → (k : ℕ) → k < count → begins_of 0 (counter_of k self.now.counter) ≡ false }
        ensures sum { result ≡ true → self.now.counter + count ≤ 156 }
    {
        self.place.is_none() && is_free_for(0, self.counter, count)
    }

    /// So many steps in the picture of one that doesn't move. What was seen of it is forgotten.
    #[inline(always)]
    pub(crate) fn pass(&mut self, ctrlpf: u8, count: u8)
        requires range { IsBallInRange self.old }
        requires still { self.old.moves ≡ false }
        requires some { 1 ≤ count }
        requires most { count ≤ 160 }
        ensures value { self.new ≡ record (iterate (ball_after_step ctrlpf false) count self.old) { seen = false } }
        ensures range { IsBallInRange self.new }
    {
        if self.is_bare_for(count) {
            self.counter += count;
            self.seen = false;
        } else {
            self.pass_copy(ctrlpf, count);
        }
    }

    /// The same where it may have a copy.
    #[inline(never)]
    fn pass_copy(&mut self, ctrlpf: u8, count: u8)
        requires range { IsBallInRange self.old }
        requires still { self.old.moves ≡ false }
        requires some { 1 ≤ count }
        requires most { count ≤ 160 }
        ensures value { self.new ≡ record (iterate (ball_after_step ctrlpf false) count self.old) { seen = false } }
        ensures range { IsBallInRange self.new }
    {
        if self.is_quiet(ctrlpf) {
            self.pass_quiet(ctrlpf, count);
        } else {
            self.pass_strides(ctrlpf, count);
        }
    }

    /// The same by its strides.
    #[inline(never)]
    fn pass_strides(&mut self, ctrlpf: u8, count: u8)
        requires range { IsBallInRange self.old }
        requires still { self.old.moves ≡ false }
        requires some { 1 ≤ count }
        requires most { count ≤ 160 }
        ensures value { self.new ≡ record (iterate (ball_after_step ctrlpf false) count self.old) { seen = false } }
        ensures range { IsBallInRange self.new }
    {
        let mut passed = 0;
        while passed < count {
            passed += self.stride(ctrlpf, count - passed);
        }
        self.seen = false;
    }
}

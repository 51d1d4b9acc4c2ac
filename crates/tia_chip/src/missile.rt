//! The two missiles.
ghost use Rattle.std.specs.Fn.{iterate};
ghost use Rattle.std.specs.Prelude.{◌≡◌, ◌<◌, ◌≤◌, ◌+◌, ◌%◌, ◌&&◌, nat_lt, Option, None, ℕ, suc, false, true};
ghost use Rattle.tia_chip.specs.Counter.{begins_copy as begins_of};
ghost use Rattle.tia_chip.specs.Quiet.{counter_after as counter_of};
ghost use Rattle.tia_chip.specs.Bits.{has_bit};
ghost use Rattle.tia_chip.specs.Missile.{begins_missile, copy_about_to_show, copy_before_step};
ghost use Rattle.tia_chip.specs.Missile.{is_locked, is_missile_changed, is_missile_drawn};
ghost use Rattle.tia_chip.specs.Missile.{is_missile_lit, looked_at_missile, missile_after_nusiz};
ghost use Rattle.tia_chip.specs.Missile.{missile_after_resmp, missile_after_step};
ghost use Rattle.tia_chip.specs.Missile.{missile_after_strobe, release_of, resized_copy, size_of};
ghost use Rattle.tia_chip.specs.Missile.{stepped_missile_copy, strobed_missile_copy};
ghost use Rattle.tia_chip.specs.Private.Ranges.{IsMissileCopyInRange, IsMissileInRange, IsWidth};
ghost use Rattle.tia_chip.specs.Quiet.{IsQuietMissile, is_dot_of_age, missile_copy_at, missile_copy_of_age};
ghost use Rattle.tia_chip.specs.Quiet.{missile_mask, quiet_missile_after};

use crate::bits::{has_bit, with_pixel};
use crate::copies::lit_steps;
use crate::counter::{
    age, begins_copy, counter_after, is_free_for, next_counter, steps_to_copy, strobed_counter,
};

/// A copy of a missile that is on its way.
#[derive(Clone, Copy, Debug, PartialEq, Eq)]
pub struct MissileCopy {
    /// How far it is: it is drawn from place 4 on.
    pub place: u8,
    /// The size at which it is over if the missile moves.
    pub own_size: u8,
}

/// A missile, with the registers that are its own.
#[derive(Clone, Copy, Debug, PartialEq, Eq)]
pub struct Missile {
    pub enam: u8,
    pub resmp: u8,
    pub hmm: u8,
    /// 0 to 159.
    pub counter: u8,
    pub copy: Option<MissileCopy>,
    /// Whether HMOVE moves it.
    pub moves: bool,
    /// Whether its copy was drawn when it was last looked at.
    pub seen: bool,
}

/// The size of a missile or ball, by bits 5 and 4 of NUSIZ or CTRLPF.
#[inline(always)]
pub fn size(register: u8) -> u8
    ensures value { result ≡ size_of register }
    ensures range { result ≤ 8 }
{
    1 << (register / 16 % 4)
}

/// Whether a copy is drawn.
#[inline(always)]
fn is_drawn(copy: Option<MissileCopy>) -> bool
    ensures { result ≡ is_missile_drawn copy }
{
    match copy {
        None => false,
        Some(copy) => copy.place >= 4,
    }
}

/// A copy as the step from place 3 finds it.
#[inline(always)]
fn copy_about_to_show(size: u8, clock: u8, moves: bool) -> MissileCopy
    ensures { result ≡ copy_about_to_show size clock moves }
{
    if moves && clock % 4 == 1 {
        MissileCopy {
            place: 3,
            own_size: 0,
        }
    } else if moves && clock % 4 == 2 && size <= 2 {
        MissileCopy {
            place: 4,
            own_size: 2,
        }
    } else {
        MissileCopy {
            place: 3,
            own_size: size,
        }
    }
}

/// A copy as a step at this clock finds it.
#[inline(always)]
fn copy_before_step(
    size: u8,
    clock: u8,
    moves: bool,
    copy: Option<MissileCopy>,
) -> Option<MissileCopy>
    requires copy { IsMissileCopyInRange copy }
    requires size { size ≤ 8 }
    ensures value { result ≡ copy_before_step size clock moves copy }
    ensures range { IsMissileCopyInRange result }
{
    match copy {
        Some(copy) if copy.place == 3 => Some(copy_about_to_show(size, clock, moves)),
        _ => copy,
    }
}

/// A copy after a step, unless another begins.
#[inline(always)]
fn stepped_copy(size: u8, moves: bool, copy: Option<MissileCopy>) -> Option<MissileCopy>
    requires copy { IsMissileCopyInRange copy }
    requires size { size ≤ 8 }
    ensures value { result ≡ stepped_missile_copy size moves copy }
    ensures range { IsMissileCopyInRange result }
{
    match copy {
        None => None,
        Some(copy) => {
            let end = 4 + (if moves { copy.own_size } else { size });
            let place = copy.place + 1;
            if place >= end {
                None
            } else {
                Some(MissileCopy { place, ..copy })
            }
        }
    }
}

/// Whether a missile or the ball of this size is drawn at this age.
#[inline(always)]
pub fn is_dot_of_age(size: u8, age: u8) -> bool
    requires { size ≤ 8 }
    ensures { result ≡ is_dot_of_age size age }
{
    age >= 4 && age < 4 + size
}

/// The ages at which a missile or the ball of this size is drawn.
#[inline(always)]
pub fn dot_shape(size: u8) -> u64
    requires { size ≤ 8 }
    ensures { (age : ℕ) → has_bit result age ≡ is_dot_of_age size age }
{
    (1 << (4 + size)) - 16
}

/// A copy once NUSIZ has this size.
fn resized_copy(size: u8, copy: Option<MissileCopy>) -> Option<MissileCopy>
    requires copy { IsMissileCopyInRange copy }
    requires size { size ≤ 8 }
    ensures value { result ≡ resized_copy size copy }
    ensures range { IsMissileCopyInRange result }
{
    match copy {
        Some(copy) if copy.place >= 4 + size => None,
        _ => copy,
    }
}

/// A copy after a strobe that takes effect so many steps late.
fn strobed_copy(
    size: u8,
    in_blank: bool,
    late: u8,
    copy: Option<MissileCopy>,
) -> Option<MissileCopy>
    requires copy { IsMissileCopyInRange copy }
    requires late { late ≤ 2 }
    ensures value { result ≡ strobed_missile_copy size in_blank late copy }
    ensures range { IsMissileCopyInRange result }
{
    match copy {
        None => None,
        Some(copy) if copy.place < 4 => Some(MissileCopy {
            place: late,
            ..copy
        }),
        Some(copy) if size >= 4 => {
            let half = if copy.place < 8 { 4 } else { 8 };
            Some(MissileCopy {
                place: half + late,
                ..copy
            })
        }
        Some(copy) => {
            if in_blank {
                None
            } else {
                Some(MissileCopy { place: 5, ..copy })
            }
        }
    }
}

/// How far a missile's counter is behind that of the player that lets it go, by the player's width.
fn release(width: u8) -> u8
    requires { IsWidth width }
    ensures value { result ≡ release_of width }
    ensures range { result ≤ 12 }
{
    match width {
        1 => 5,
        2 => 8,
        _ => 12,
    }
}

/// The copy of a quiet missile whose last copy began so many steps ago.
#[inline(always)]
fn copy_of_age(size: u8, age: u8) -> Option<MissileCopy>
    requires size { size ≤ 8 }
    ensures value { result ≡ missile_copy_of_age size age }
    ensures range { IsMissileCopyInRange result }
{
    if age >= 4 + size {
        None
    } else {
        Some(MissileCopy {
            place: age,
            own_size: if age < 4 { 1 } else { size },
        })
    }
}

impl Missile {
    /// The copy that it has if it is quiet and its counter is this.
    #[inline(always)]
    fn quiet_copy(&self, nusiz: u8, counter: u8) -> Option<MissileCopy>
        requires { counter < 160 }
        ensures value { result ≡ missile_copy_at nusiz self.now counter }
        ensures range { IsMissileCopyInRange result }
    {
        if self.is_locked() {
            None
        } else {
            copy_of_age(size(nusiz), age(nusiz % 8, counter))
        }
    }

    /// Whether its copy follows from its counter.
    #[inline(always)]
    pub(crate) fn is_quiet(&self, nusiz: u8) -> bool
        requires { IsMissileInRange self.now }
        ensures { result ≡ true → IsQuietMissile nusiz self.now }
    {
        self.copy == self.quiet_copy(nusiz, self.counter)
    }

    /// The steps of a line of a quiet missile, which lead to where it is. What was seen of it is forgotten.
    #[inline(always)]
    fn pass_line(&mut self, nusiz: u8)
        requires range { IsMissileInRange self.old }
        requires quiet { IsQuietMissile nusiz self.old }
        ensures value { self.new ≡ record (quiet_missile_after nusiz 160 self.old) { seen = false } }
        ensures range { IsMissileInRange self.new }
    {
        self.seen = false;
    }

    /// So many steps of a quiet missile. What was seen of it is forgotten.
    #[inline(always)]
    fn pass_quiet(&mut self, nusiz: u8, count: u8)
        requires range { IsMissileInRange self.old }
        requires quiet { IsQuietMissile nusiz self.old }
        requires some { 1 ≤ count }
        requires most { count ≤ 160 }
        ensures value { self.new ≡ record (quiet_missile_after nusiz count self.old) { seen = false } }
        ensures range { IsMissileInRange self.new }
    {
        if count == 160 {
            self.pass_line(nusiz);
            return;
        }
        self.counter = counter_after(count, self.counter);
        self.copy = self.quiet_copy(nusiz, self.counter);
        self.seen = false;
    }

    /// Whether it is enabled.
    #[inline(always)]
    pub(crate) fn is_enabled(&self) -> bool
        ensures { result ≡ has_bit self.now.enam 1 }
    {
        has_bit(self.enam, 1)
    }

    /// With which of so many steps of a quiet missile its copy is drawn: bit k is that of step k.
    fn drawn_steps(&self, nusiz: u8, count: u8) -> u64
        requires range { IsMissileInRange self.now }
        requires most { count ≤ 64 }
        ensures { (k : ℕ) → has_bit result k ≡ (nat_lt k count && missile_mask nusiz self.now (counter_of k self.now.counter)) }
    {
        if self.is_locked() {
            0
        } else {
            lit_steps(dot_shape(size(nusiz)), nusiz % 8, self.counter, count)
        }
    }

    /// With which of so many steps of a quiet missile it is lit: bit k is that of step k.
    fn lit_within(&self, nusiz: u8, count: u8) -> u64
        requires range { IsMissileInRange self.now }
        requires most { count ≤ 64 }
        ensures { (k : ℕ) → has_bit result k ≡ (nat_lt k count && is_missile_lit (quiet_missile_after nusiz (suc k) self.now)) }
    {
        if self.is_enabled() {
            self.drawn_steps(nusiz, count)
        } else {
            0
        }
    }

    /// So many steps of a quiet missile. The last is looked at.
    fn pass_looked(&mut self, nusiz: u8, count: u8)
        requires range { IsMissileInRange self.old }
        requires some { 1 ≤ count }
        requires most { count ≤ 160 }
        ensures value { self.new ≡ quiet_missile_after nusiz count self.old }
        ensures range { IsMissileInRange self.new }
    {
        let last = counter_after(count - 1, self.counter);
        self.seen = !self.is_locked() && is_dot_of_age(size(nusiz), age(nusiz % 8, last));
        self.counter = counter_after(count, self.counter);
        self.copy = self.quiet_copy(nusiz, self.counter);
    }

    /// Whether it keeps copies from beginning.
    #[inline(always)]
    fn is_locked(&self) -> bool
        ensures { result ≡ is_locked self.now }
    {
        has_bit(self.resmp, 1)
    }

    /// Whether a copy begins with this step.
    #[inline(always)]
    fn begins(&self, nusiz: u8) -> bool
        ensures { result ≡ begins_missile nusiz self.now }
    {
        begins_copy(nusiz % 8, self.counter) && !self.is_locked()
    }

    /// Looks at it: what is seen stays until the next look.
    #[inline(always)]
    pub(crate) fn look(&mut self)
        requires { IsMissileInRange self.old }
        ensures value { self.new ≡ looked_at_missile self.old }
        ensures range { IsMissileInRange self.new }
    {
        self.seen = is_drawn(self.copy);
    }

    /// A step at a clock of the line, before which it is looked at.
    #[inline]
    pub(crate) fn step(&mut self, nusiz: u8, clock: u8)
        requires { IsMissileInRange self.old }
        ensures value { self.new ≡ missile_after_step nusiz clock self.old }
        ensures range { IsMissileInRange self.new }
    {
        let size = size(nusiz);
        self.copy = copy_before_step(size, clock, self.moves, self.copy);
        self.look();
        self.copy = if self.begins(nusiz) {
            Some(MissileCopy {
                place: 0,
                own_size: 1,
            })
        } else {
            stepped_copy(size, self.moves, self.copy)
        };
        self.counter = next_counter(self.counter);
    }

    /// A write of NUSIZ of its player.
    pub(crate) fn write_nusiz(&mut self, nusiz: u8)
        requires { IsMissileInRange self.old }
        ensures value { self.new ≡ missile_after_nusiz nusiz self.old }
        ensures range { IsMissileInRange self.new }
    {
        self.copy = resized_copy(size(nusiz), self.copy);
    }

    /// RESM, which takes effect so many steps late.
    pub(crate) fn strobe(&mut self, nusiz: u8, in_blank: bool, late: u8)
        requires range { IsMissileInRange self.old }
        requires late { late ≤ 2 }
        ensures value { self.new ≡ missile_after_strobe nusiz in_blank late self.old }
        ensures range { IsMissileInRange self.new }
    {
        self.counter = strobed_counter(late);
        self.copy = strobed_copy(size(nusiz), in_blank, late, self.copy);
    }

    /// Writes RESMP, with the width and the counter of its player.
    pub(crate) fn write_resmp(&mut self, width: u8, counter: u8, resmp: u8)
        requires range { IsMissileInRange self.old }
        requires width { IsWidth width }
        requires counter { counter < 160 }
        ensures value { self.new ≡ missile_after_resmp width counter resmp self.old }
        ensures range { IsMissileInRange self.new }
    {
        if self.is_locked() && !has_bit(resmp, 1) {
            let ahead = u16::from(counter) + 160;
            self.counter = ((ahead - u16::from(release(width))) % 160) as u8;
        }
        self.resmp = resmp;
    }

    /// Whether it is lit.
    #[inline(always)]
    pub(crate) fn is_lit(&self) -> bool
        ensures { result ≡ is_missile_lit self.now }
    {
        self.seen && has_bit(self.enam, 1) && !self.is_locked()
    }

    /// Whether a write that made it of `before` changed ENAM or RESMP.
    pub(crate) fn is_changed_from(&self, before: &Missile) -> bool
        ensures { result ≡ is_missile_changed before.now self.now }
    {
        before.enam != self.enam || before.resmp != self.resmp
    }

    /// The first of so many steps in the picture: those up to one with which a copy may begin, if there
    /// is none, and else one. How many they were.
    fn stride(&mut self, nusiz: u8, clock: u8, most: u8) -> u8
        requires range { IsMissileInRange self.old }
        requires some { 1 ≤ most }
        ensures some { 1 ≤ result }
        ensures most { result ≤ most }
        ensures value { self.new ≡ iterate (missile_after_step nusiz clock) result self.old }
        ensures unlit { (k : ℕ) → suc k < result → is_missile_lit (iterate (missile_after_step nusiz clock) (suc k) self.old) ≡ false }
        ensures range { IsMissileInRange self.new }
    {
        let steps = steps_to_copy(self.counter).min(most);
        if steps == 0 || self.copy.is_some() {
            self.step(nusiz, clock);
            return 1;
        }
        self.counter = counter_after(steps, self.counter);
        self.seen = false;
        steps
    }

    /// So many steps in the picture, at most 64, and with which of them it is lit: bit k is that of
    /// step k.
    pub(crate) fn steps(&mut self, nusiz: u8, clock: u8, count: u8) -> u64
        requires range { IsMissileInRange self.old }
        requires some { 1 ≤ count }
        requires most { count ≤ 64 }
        ensures value { self.new ≡ iterate (missile_after_step nusiz clock) count self.old }
        ensures lit { (k : ℕ) → has_bit result k ≡ (nat_lt k count && is_missile_lit (iterate (missile_after_step nusiz clock) (suc k) self.old)) }
        ensures range { IsMissileInRange self.new }
    {
        if self.is_bare_for(nusiz, count) {
            self.counter += count;
            self.seen = false;
            return 0;
        }
        if !self.moves && self.is_quiet(nusiz) {
            let lit = self.lit_within(nusiz, count);
            self.pass_looked(nusiz, count);
            return lit;
        }
        let mut lit = 0;
        let mut passed = 0;
        while passed < count {
            passed += self.stride(nusiz, clock, count - passed);
            lit = with_pixel(lit, passed - 1, self.is_lit());
        }
        lit
    }

    /// Whether it has no copy, none begins with the next steps, and its counter doesn't go round.
    #[inline(always)]
    fn is_bare_for(&self, nusiz: u8, count: u8) -> bool
        ensures none { result ≡ true → self.now.copy ≡ None }
        ensures begins { result ≡ true → (k : ℕ) → k < count → begins_of (nusiz % 8) (counter_of k self.now.counter) ≡ false }
        ensures sum { result ≡ true → self.now.counter + count ≤ 156 }
    {
        self.copy.is_none() && is_free_for(nusiz % 8, self.counter, count)
    }

    /// So many steps in the picture of one that doesn't move. What was seen of it is forgotten.
    #[inline(always)]
    pub(crate) fn pass(&mut self, nusiz: u8, clock: u8, count: u8)
        requires range { IsMissileInRange self.old }
        requires still { self.old.moves ≡ false }
        requires some { 1 ≤ count }
        requires most { count ≤ 160 }
        ensures value { self.new ≡ record (iterate (missile_after_step nusiz clock) count self.old) { seen = false } }
        ensures range { IsMissileInRange self.new }
    {
        if self.is_bare_for(nusiz, count) {
            self.counter += count;
            self.seen = false;
        } else {
            self.pass_copy(nusiz, clock, count);
        }
    }

    /// The same where it may have a copy.
    #[inline(never)]
    fn pass_copy(&mut self, nusiz: u8, clock: u8, count: u8)
        requires range { IsMissileInRange self.old }
        requires still { self.old.moves ≡ false }
        requires some { 1 ≤ count }
        requires most { count ≤ 160 }
        ensures value { self.new ≡ record (iterate (missile_after_step nusiz clock) count self.old) { seen = false } }
        ensures range { IsMissileInRange self.new }
    {
        if self.is_quiet(nusiz) {
            self.pass_quiet(nusiz, count);
        } else {
            self.pass_strides(nusiz, clock, count);
        }
    }

    /// The same by its strides.
    #[inline(never)]
    fn pass_strides(&mut self, nusiz: u8, clock: u8, count: u8)
        requires range { IsMissileInRange self.old }
        requires still { self.old.moves ≡ false }
        requires some { 1 ≤ count }
        requires most { count ≤ 160 }
        ensures value { self.new ≡ record (iterate (missile_after_step nusiz clock) count self.old) { seen = false } }
        ensures range { IsMissileInRange self.new }
    {
        let mut passed = 0;
        while passed < count {
            passed += self.stride(nusiz, clock, count - passed);
        }
        self.seen = false;
    }
}

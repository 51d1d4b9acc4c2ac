//! The two players.
ghost use Rattle.std.specs.Fn.{iterate};
ghost use Rattle.std.specs.Prelude.{◌≡◌, ◌<◌, ◌≤◌, ◌+◌, ◌-◌, ◌%◌, ◌&&◌, ◌==◌, not, nat_lt, if◌then◌else◌, Option, None, ℕ, suc, false, true};
ghost use Rattle.tia_chip.specs.Counter.{begins_copy as begins_of};
ghost use Rattle.tia_chip.specs.Quiet.{counter_after as counter_of};
ghost use Rattle.tia_chip.specs.Bits.{has_bit};
ghost use Rattle.tia_chip.specs.Player.{begins_player, ends_bit, graphic_of, is_drawn, is_drawn_at};
ghost use Rattle.tia_chip.specs.Player.{is_player_changed, looked_at_player, next_place};
ghost use Rattle.tia_chip.specs.Player.{player_after_step, player_after_strobe, stepped_copy};
ghost use Rattle.tia_chip.specs.Player.{strobed_copy, width_of, with_awaited_step};
ghost use Rattle.tia_chip.specs.Player.{is_drawn_next, shows_one};
ghost use Rattle.tia_chip.specs.PlayerWidth.{beginning_of, change_of, copy_at_change, copy_in_mode};
ghost use Rattle.tia_chip.specs.PlayerWidth.{player_after_nusiz, steps_to_change, with_width};
ghost use Rattle.tia_chip.specs.PlayerWidth.{place_at_change};
ghost use Rattle.tia_chip.specs.Private.Ranges.{IsCopyInRange, IsPlaceInRange, IsPlayerInRange, IsWidth};
ghost use Rattle.tia_chip.specs.Quiet.{IsQuietPlayer, player_copy_at, player_copy_of_age, quiet_player_after};
ghost use Rattle.tia_chip.specs.Quiet.{first_drawn, is_drawn_of_age, shows_one_at_age};

use crate::bits::{has_bit, has_pixel, with_pixel};
use crate::copies::lit_steps;
use crate::counter::{
    age, begins_copy, counter_after, is_free_for, next_counter, steps_to_copy, strobed_counter,
};
use crate::register::value_by_delay;

/// A copy of a player that is on its way.
#[derive(Clone, Copy, Debug, PartialEq, Eq)]
pub struct PlayerCopy {
    /// How far it is, from 0 to 9: it is drawn from place 5 on, if wide from place 6 on.
    pub place: u8,
    /// Which of its 8 bits comes next, from the left.
    pub bit: u8,
}

/// A player, with the registers that draw and move it.
#[derive(Clone, Copy, Debug, PartialEq, Eq)]
pub struct Player {
    pub nusiz: u8,
    pub refp: u8,
    /// The graphic that was written last.
    pub grp_new: u8,
    /// The graphic that is shown with VDELP.
    pub grp_old: u8,
    pub vdelp: u8,
    pub hmp: u8,
    /// 0 to 159.
    pub counter: u8,
    pub copy: Option<PlayerCopy>,
    /// The width in force: 1, 2 or 4.
    pub width: u8,
    /// How many steps of a drawn copy pass until the width is that of NUSIZ; 0 if it is.
    pub change: u8,
    /// Whether HMOVE moves it.
    pub moves: bool,
    /// Whether it showed a bit that is 1 when it was last looked at.
    pub seen: bool,
}

/// The width of a player's bits by NUSIZ.
#[inline(always)]
pub fn width(nusiz: u8) -> u8
    ensures value { result ≡ width_of nusiz }
    ensures range { IsWidth result }
{
    match nusiz % 8 {
        5 => 2,
        7 => 4,
        _ => 1,
    }
}

/// Whether a copy is drawn at a place.
#[inline(always)]
fn is_drawn_at(width: u8, place: u8) -> bool
    ensures { result ≡ is_drawn_at width place }
{
    place >= (if width == 1 { 5 } else { 6 })
}

/// Whether a copy is drawn.
#[inline(always)]
fn is_drawn(width: u8, copy: Option<PlayerCopy>) -> bool
    ensures { result ≡ is_drawn width copy }
{
    match copy {
        None => false,
        Some(copy) => is_drawn_at(width, copy.place),
    }
}

/// The place after a step.
#[inline(always)]
fn next_place(place: u8) -> u8
    requires { IsPlaceInRange place }
    ensures value { result ≡ next_place place }
    ensures range { IsPlaceInRange result }
{
    if place == 9 { 6 } else { place + 1 }
}

/// Whether the step from a place ends a bit.
#[inline(always)]
fn ends_bit(width: u8, place: u8) -> bool
    requires place { IsPlaceInRange place }
    requires width { IsWidth width }
    ensures { result ≡ ends_bit width place }
{
    let next = next_place(place);
    if width == 1 {
        next >= 6
    } else {
        place >= 6 && (next - 6) % width == 0
    }
}

/// A copy after a step.
#[inline(always)]
fn stepped_copy(width: u8, copy: Option<PlayerCopy>) -> Option<PlayerCopy>
    requires copy { IsCopyInRange copy }
    requires width { IsWidth width }
    ensures value { result ≡ stepped_copy width copy }
    ensures range { IsCopyInRange result }
{
    match copy {
        None => None,
        Some(copy) => {
            let place = next_place(copy.place);
            if !ends_bit(width, copy.place) {
                Some(PlayerCopy {
                    place,
                    bit: copy.bit,
                })
            } else if copy.bit == 7 {
                None
            } else {
                Some(PlayerCopy {
                    place,
                    bit: copy.bit + 1,
                })
            }
        }
    }
}

/// Whether a step from a copy leads to a place at which it is drawn.
#[inline(always)]
fn is_drawn_next(width: u8, copy: Option<PlayerCopy>) -> bool
    requires { IsCopyInRange copy }
    ensures { result ≡ is_drawn_next width copy }
{
    match copy {
        None => false,
        Some(copy) => is_drawn_at(width, next_place(copy.place)),
    }
}

/// A copy after a strobe that takes effect so many steps late.
fn strobed_copy(late: u8, copy: Option<PlayerCopy>) -> Option<PlayerCopy>
    requires copy { IsCopyInRange copy }
    requires late { late ≤ 2 }
    ensures value { result ≡ strobed_copy late copy }
    ensures range { IsCopyInRange result }
{
    match copy {
        None => None,
        Some(copy) if copy.place < 4 => Some(PlayerCopy {
            place: late,
            ..copy
        }),
        Some(copy) => Some(copy),
    }
}

/// How many steps pass until a width changes from `old` to `new`, with a copy at this place; 0 if it
/// changes at once.
fn steps_to_change(in_blank: bool, old: u8, new: u8, place: u8) -> u8
    requires old { IsWidth old }
    requires place { IsPlaceInRange place }
    ensures value { result ≡ steps_to_change in_blank old new place }
    ensures range { result ≤ 5 }
{
    let soon = if in_blank { place } else { place + 1 };
    let left = (14 - place) % old;
    if soon < 4 || old != 1 && soon < 6 {
        0
    } else if old == 1 || new == 1 {
        if in_blank && is_drawn_at(old, place) {
            1
        } else {
            2
        }
    } else if left != 0 {
        left + 1
    } else if in_blank {
        0
    } else {
        old + 1
    }
}

/// How many steps a change of width waits for.
fn change_of(in_blank: bool, old: u8, new: u8, copy: Option<PlayerCopy>) -> u8
    requires old { IsWidth old }
    requires copy { IsCopyInRange copy }
    ensures value { result ≡ change_of in_blank old new copy }
    ensures range { result ≤ 5 }
{
    match copy {
        None => 0,
        Some(copy) => steps_to_change(in_blank, old, new, copy.place),
    }
}

/// The place of a copy as the width changes.
fn place_at_change(in_blank: bool, old: u8, new: u8, place: u8) -> u8
    requires { IsPlaceInRange place }
    ensures value { result ≡ place_at_change in_blank old new place }
    ensures range { result ≤ place }
{
    let soon = if in_blank { place } else { place + 1 };
    if old != 1 && new == 1 && (4..6).contains(&soon) {
        place - 1
    } else {
        place
    }
}

/// A copy as the width changes.
fn copy_at_change(in_blank: bool, old: u8, new: u8, copy: Option<PlayerCopy>) -> Option<PlayerCopy>
    requires { IsCopyInRange copy }
    ensures value { result ≡ copy_at_change in_blank old new copy }
    ensures range { IsCopyInRange result }
{
    match copy {
        None => None,
        Some(copy) => Some(PlayerCopy {
            place: place_at_change(in_blank, old, new, copy.place),
            ..copy
        }),
    }
}

/// The counter of the step with which a copy began.
fn beginning_of(counter: u8, place: u8) -> u8
    requires place { IsPlaceInRange place }
    ensures { result ≡ beginning_of counter place }
{
    ((u16::from(counter) + 159 - u16::from(place)) % 160) as u8
}

/// A copy as NUSIZ goes from one mode to another.
fn copy_in_mode(old: u8, new: u8, counter: u8, copy: Option<PlayerCopy>) -> Option<PlayerCopy>
    requires { IsCopyInRange copy }
    ensures value { result ≡ copy_in_mode old new counter copy }
    ensures range { IsCopyInRange result }
{
    match copy {
        None => None,
        Some(copy) => {
            let is_new = old != new && copy.place < 2;
            if is_new && !begins_copy(new, beginning_of(counter, copy.place)) {
                None
            } else {
                Some(copy)
            }
        }
    }
}

/// The age at which a copy of this width is drawn for the first time.
#[inline(always)]
fn first_drawn(width: u8) -> u8
    requires { IsWidth width }
    ensures value { result ≡ first_drawn width }
    ensures range { result ≤ 6 }
{
    if width == 1 { 5 } else { 6 }
}

/// The copy of a quiet player whose last copy began so many steps ago.
#[inline(always)]
fn copy_of_age(width: u8, age: u8) -> Option<PlayerCopy>
    requires width { IsWidth width }
    ensures value { result ≡ player_copy_of_age width age }
    ensures range { IsCopyInRange result }
{
    let first = first_drawn(width);
    if age >= first + 8 * width {
        None
    } else {
        Some(PlayerCopy {
            place: if age < 6 { age } else { 6 + (age - 6) % 4 },
            bit: age.saturating_sub(first) / width,
        })
    }
}

impl Player {
    /// The copy that it has if it is quiet and its counter is this.
    #[inline(always)]
    fn quiet_copy(&self, counter: u8) -> Option<PlayerCopy>
        requires { counter < 160 }
        ensures value { result ≡ player_copy_at self.now counter }
        ensures range { IsCopyInRange result }
    {
        copy_of_age(width(self.nusiz), age(self.nusiz % 8, counter))
    }

    /// Whether its copy follows from its counter.
    #[inline(always)]
    pub(crate) fn is_quiet(&self) -> bool
        requires { IsPlayerInRange self.now }
        ensures { result ≡ true → IsQuietPlayer self.now }
    {
        self.change == 0
            && self.width == width(self.nusiz)
            && self.copy == self.quiet_copy(self.counter)
    }

    /// The steps of a line of a quiet player, which lead to where it is. What it showed is forgotten.
    #[inline(always)]
    fn pass_line(&mut self)
        requires range { IsPlayerInRange self.old }
        requires quiet { IsQuietPlayer self.old }
        ensures value { self.new ≡ record (quiet_player_after 160 self.old) { seen = false } }
        ensures range { IsPlayerInRange self.new }
    {
        self.seen = false;
    }

    /// So many steps of a quiet player. What it showed is forgotten.
    #[inline(always)]
    fn pass_quiet(&mut self, count: u8)
        requires range { IsPlayerInRange self.old }
        requires quiet { IsQuietPlayer self.old }
        requires some { 1 ≤ count }
        requires most { count ≤ 160 }
        ensures value { self.new ≡ record (quiet_player_after count self.old) { seen = false } }
        ensures range { IsPlayerInRange self.new }
    {
        if count == 160 {
            self.pass_line();
            return;
        }
        self.counter = counter_after(count, self.counter);
        self.copy = self.quiet_copy(self.counter);
        self.seen = false;
    }

    /// Whether it shows a bit that is 1 in some place.
    #[inline(always)]
    pub(crate) fn has_dots(&self) -> bool
        ensures { result ≡ not (graphic_of self.now == 0) }
    {
        self.graphic() != 0
    }

    /// Whether its bit with this number, from the left as it is drawn, is 1.
    #[inline(always)]
    fn shows_bit(&self, bit: u8) -> bool
        requires { bit ≤ 7 }
        ensures { result ≡ has_bit (graphic_of self.now) (if has_bit self.now.refp 3 then bit else 7 - bit) }
    {
        let index = if has_bit(self.refp, 3) { bit } else { 7 - bit };
        has_bit(self.graphic(), index)
    }

    /// Whether a copy of this width shows a bit that is 1 at this age, at which it is drawn.
    #[inline(always)]
    fn shows_at(&self, width: u8, age: u8) -> bool
        requires width { IsWidth width }
        requires drawn { is_drawn_of_age width age ≡ true }
        ensures { result ≡ shows_one_at_age self.now width age }
    {
        self.shows_bit((age - first_drawn(width)) / width)
    }

    /// The ages at which a copy of it shows a bit that is 1, while its width is that of NUSIZ.
    fn shape(&self) -> u64
        ensures { (age : ℕ) → has_bit result age ≡ shows_one_at_age self.now (width_of self.now.nusiz) age }
    {
        if !self.has_dots() {
            return 0;
        }
        let width = width(self.nusiz);
        let end = first_drawn(width) + 8 * width;
        let mut shape = 0;
        let mut age = first_drawn(width);
        while age < end {
            shape = with_pixel(shape, age, self.shows_at(width, age));
            age += 1;
        }
        shape
    }

    /// So many steps of a quiet player, at most 64, and with which of them it is lit: bit k is that of
    /// step k.
    fn quiet_steps(&mut self, count: u8) -> u64
        requires range { IsPlayerInRange self.old }
        requires some { 1 ≤ count }
        requires most { count ≤ 64 }
        requires quiet { IsQuietPlayer self.old }
        ensures value { self.new ≡ quiet_player_after count self.old }
        ensures lit { (k : ℕ) → has_bit result k ≡ (nat_lt k count && (quiet_player_after (suc k) self.old).seen) }
        ensures range { IsPlayerInRange self.new }
    {
        let lit = lit_steps(self.shape(), self.nusiz % 8, self.counter, count);
        self.counter = counter_after(count, self.counter);
        self.copy = self.quiet_copy(self.counter);
        self.seen = has_pixel(lit, count - 1);
        lit
    }

    /// The graphic that it shows.
    #[inline(always)]
    fn graphic(&self) -> u8
        ensures { result ≡ graphic_of self.now }
    {
        value_by_delay(self.vdelp, self.grp_old, self.grp_new)
    }

    /// Whether it shows a bit that is 1.
    #[inline(always)]
    fn shows_one(&self) -> bool
        requires { IsPlayerInRange self.now }
        ensures { result ≡ shows_one self.now self.now.copy }
    {
        match self.copy {
            None => false,
            Some(copy) => {
                let bit = if has_bit(self.refp, 3) {
                    copy.bit
                } else {
                    7 - copy.bit
                };
                is_drawn_at(self.width, copy.place) && has_bit(self.graphic(), bit)
            }
        }
    }

    /// Looks at it: what is seen stays until the next look.
    #[inline(always)]
    pub(crate) fn look(&mut self)
        requires { IsPlayerInRange self.old }
        ensures value { self.new ≡ looked_at_player self.old }
        ensures range { IsPlayerInRange self.new }
    {
        self.seen = self.shows_one();
    }

    /// Takes a step off those that a change of width waits for.
    #[inline(always)]
    fn await_step(&mut self)
        requires { IsPlayerInRange self.old }
        ensures value { self.new ≡ with_awaited_step self.old }
        ensures range { IsPlayerInRange self.new }
    {
        if self.change == 1 {
            self.width = width(self.nusiz);
        }
        self.change = self.change.saturating_sub(1);
    }

    /// Whether a copy begins with this step.
    #[inline(always)]
    fn begins(&self) -> bool
        ensures { result ≡ begins_player self.now }
    {
        begins_copy(self.nusiz % 8, self.counter)
    }

    /// A step, before which it is looked at.
    #[inline]
    pub(crate) fn step(&mut self)
        requires { IsPlayerInRange self.old }
        ensures value { self.new ≡ player_after_step self.old }
        ensures range { IsPlayerInRange self.new }
    {
        self.look();
        let begins = self.begins();
        let counts = !begins && is_drawn_next(self.width, self.copy);
        self.copy = if begins {
            Some(PlayerCopy { place: 0, bit: 0 })
        } else {
            stepped_copy(self.width, self.copy)
        };
        self.counter = next_counter(self.counter);
        if counts {
            self.await_step();
        }
    }

    /// RESP, which takes effect so many steps late.
    pub(crate) fn strobe(&mut self, late: u8)
        requires range { IsPlayerInRange self.old }
        requires late { late ≤ 2 }
        ensures value { self.new ≡ player_after_strobe late self.old }
        ensures range { IsPlayerInRange self.new }
    {
        self.counter = strobed_counter(late);
        self.copy = strobed_copy(late, self.copy);
    }

    /// Takes a new width, at once or later.
    fn set_width(&mut self, in_blank: bool, new: u8)
        requires range { IsPlayerInRange self.old }
        requires width { IsWidth new }
        ensures value { self.new ≡ with_width in_blank new self.old }
        ensures range { IsPlayerInRange self.new }
    {
        let steps = change_of(in_blank, self.width, new, self.copy);
        if self.width == new {
            self.change = 0;
        } else if steps == 0 {
            self.copy = copy_at_change(in_blank, self.width, new, self.copy);
            self.width = new;
            self.change = 0;
        } else {
            self.change = steps;
        }
    }

    /// Writes NUSIZ.
    pub(crate) fn write_nusiz(&mut self, in_blank: bool, nusiz: u8)
        requires { IsPlayerInRange self.old }
        ensures value { self.new ≡ player_after_nusiz in_blank nusiz self.old }
        ensures range { IsPlayerInRange self.new }
    {
        self.copy = copy_in_mode(self.nusiz % 8, nusiz % 8, self.counter, self.copy);
        self.nusiz = nusiz;
        self.set_width(in_blank, width(nusiz));
    }

    /// Whether a write that made it of `before` changed what it draws.
    pub(crate) fn is_changed_from(&self, before: &Player) -> bool
        ensures { result ≡ is_player_changed before.now self.now }
    {
        let same = before.graphic() == self.graphic()
            && before.refp == self.refp
            && before.vdelp == self.vdelp;
        is_drawn(self.width, self.copy) && !same
    }

    /// The first of so many steps in the picture: those up to one with which a copy may begin, if there
    /// is none, and else one. How many they were.
    fn stride(&mut self, most: u8) -> u8
        requires range { IsPlayerInRange self.old }
        requires some { 1 ≤ most }
        ensures some { 1 ≤ result }
        ensures most { result ≤ most }
        ensures value { self.new ≡ iterate player_after_step result self.old }
        ensures unlit { (k : ℕ) → suc k < result → (iterate player_after_step (suc k) self.old).seen ≡ false }
        ensures range { IsPlayerInRange self.new }
    {
        let steps = steps_to_copy(self.counter).min(most);
        if steps == 0 || self.copy.is_some() {
            self.step();
            return 1;
        }
        self.counter = counter_after(steps, self.counter);
        self.seen = false;
        steps
    }

    /// So many steps in the picture, at most 64, and with which of them it is lit: bit k is that of
    /// step k.
    pub(crate) fn steps(&mut self, count: u8) -> u64
        requires range { IsPlayerInRange self.old }
        requires some { 1 ≤ count }
        requires most { count ≤ 64 }
        ensures value { self.new ≡ iterate player_after_step count self.old }
        ensures lit { (k : ℕ) → has_bit result k ≡ (nat_lt k count && (iterate player_after_step (suc k) self.old).seen) }
        ensures range { IsPlayerInRange self.new }
    {
        if self.is_bare_for(count) {
            self.counter += count;
            self.seen = false;
            return 0;
        }
        if self.is_quiet() {
            return self.quiet_steps(count);
        }
        let mut lit = 0;
        let mut passed = 0;
        while passed < count {
            passed += self.stride(count - passed);
            lit = with_pixel(lit, passed - 1, self.seen);
        }
        lit
    }

    /// Whether it has no copy, none begins with the next steps, and its counter doesn't go round.
    #[inline(always)]
    fn is_bare_for(&self, count: u8) -> bool
        ensures none { result ≡ true → self.now.copy ≡ None }
        ensures begins { result ≡ true → (k : ℕ) → k < count → begins_of (self.now.nusiz % 8) (counter_of k self.now.counter) ≡ false }
        ensures sum { result ≡ true → self.now.counter + count ≤ 156 }
    {
        self.copy.is_none() && is_free_for(self.nusiz % 8, self.counter, count)
    }

    /// So many steps. What it showed is forgotten.
    #[inline(always)]
    pub(crate) fn pass(&mut self, count: u8)
        requires range { IsPlayerInRange self.old }
        requires some { 1 ≤ count }
        requires most { count ≤ 160 }
        ensures value { self.new ≡ record (iterate player_after_step count self.old) { seen = false } }
        ensures range { IsPlayerInRange self.new }
    {
        if self.is_bare_for(count) {
            self.counter += count;
            self.seen = false;
        } else {
            self.pass_copy(count);
        }
    }

    /// The same where it may have a copy.
    #[inline(never)]
    fn pass_copy(&mut self, count: u8)
        requires range { IsPlayerInRange self.old }
        requires some { 1 ≤ count }
        requires most { count ≤ 160 }
        ensures value { self.new ≡ record (iterate player_after_step count self.old) { seen = false } }
        ensures range { IsPlayerInRange self.new }
    {
        if self.is_quiet() {
            self.pass_quiet(count);
        } else {
            self.pass_strides(count);
        }
    }

    /// The same by its strides.
    #[inline(never)]
    fn pass_strides(&mut self, count: u8)
        requires range { IsPlayerInRange self.old }
        requires some { 1 ≤ count }
        requires most { count ≤ 160 }
        ensures value { self.new ≡ record (iterate player_after_step count self.old) { seen = false } }
        ensures range { IsPlayerInRange self.new }
    {
        let mut passed = 0;
        while passed < count {
            passed += self.stride(count - passed);
        }
        self.seen = false;
    }
}

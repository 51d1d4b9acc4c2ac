//! The masks of the six objects, and the pairs that meet in them.
ghost use Rattle.std.specs.Prelude.{◌≡◌, ◌<◌, ◌≤◌, ◌-◌, ◌+◌, ◌*◌, ◌/◌, ◌^◌, ◌||◌, ℕ, true, false, bit_or, if◌then◌else◌};
ghost use Rattle.tia_core.specs.Bits.{has_bit};
ghost use Rattle.tia_core.specs.Clock.{sink_after_pixels};
ghost use Rattle.tia_core.specs.Collision.{number_from, pairs_of};
ghost use Rattle.tia_core.specs.Mask.{covers};
ghost use Rattle.tia_core.specs.Objects.{ball_at, is_in, missile_at, object_of, objects_at};
ghost use Rattle.tia_core.specs.Private.ObjectSets.{bl, m0, m1, no_objects, is_single, set_number};
ghost use Rattle.tia_core.specs.Private.ObjectSets.{visible_objects, with_single, p0, p1, pf};
ghost use Rattle.tia_core.specs.Private.ObjectMasks.{objects_in, AreInWindow, AreShown, IsMaskOf};
ghost use Rattle.tia_core.specs.Private.ObjectMasks.{MasksFit};
ghost use Rattle.tia_core.specs.Private.MaskChanges.{with_change};
ghost use Rattle.tia_core.specs.Private.StretchPairs.{stretch_pairs, IsIdle};
ghost use Rattle.tia_core.specs.Private.StretchPixels.{stretch_pixels};
ghost use Rattle.tia_core.specs.Private.Lawful.{IsLawfulTia};
ghost use Rattle.tia_core.specs.declared.objects.Objects.{Objects as Set};
ghost use Rattle.tia_core.specs.declared.write.Changed.TheVariants.{Places, Shapes};

use crate::bits::has_bit;
use crate::collision::{number_of, with_pairs};
use crate::colour::{colour_at, is_dark};
use crate::fields::TiaFields;
use crate::least::least;
use crate::mask::{Mask, first_change};
use crate::object_masks::{ball_mask, missile_mask, player_mask, playfield_mask};
use crate::objects::{Objects, is_shown, pairs_of_set, size, value_by_delay};
use crate::paint::Paint;
use crate::patterns::{
    Patterns, reshape_ball, reshape_missile0, reshape_missile1, reshape_player0, reshape_player1,
};
use crate::window::{MOST_PIXELS, Window, pixels};

/// The masks of the six objects.
#[derive(Drop)]
pub struct Masks {
    pub player0: Mask,
    pub player1: Mask,
    pub missile0: Mask,
    pub missile1: Mask,
    pub ball: Mask,
    pub playfield: Mask,
    /// The objects whose masks are to be made anew.
    pub stale: Objects,
    /// The patterns of the objects that move.
    pub patterns: Patterns,
    /// The objects whose patterns are to be made anew, and the playfield if its mask may be.
    pub reshaped: Objects,
    /// Whether `reshaped` may have an object.
    pub is_reshaped: bool,
    /// The number of the set of objects that may be visible.
    pub visible: u8,
    /// Whether it is known that no two objects meet on the line.
    pub are_apart: bool,
}

/// No object.
const NO_OBJECTS: Objects = Objects {
    player0: false,
    player1: false,
    missile0: false,
    missile1: false,
    ball: false,
    playfield: false,
};

/// The objects that move.
const ALL_BUT_PLAYFIELD: Objects = Objects {
    player0: true,
    player1: true,
    missile0: true,
    missile1: true,
    ball: true,
    playfield: false,
};

impl Masks {
    /// Masks that are all to be made anew.
    pub fn stale(tia: &TiaFields) -> Self
        ensures { MasksFit tia.now result }
    {
        Masks {
            player0: Mask::empty(),
            player1: Mask::empty(),
            missile0: Mask::empty(),
            missile1: Mask::empty(),
            ball: Mask::empty(),
            playfield: Mask::empty(),
            stale: Objects {
                player0: true,
                player1: true,
                missile0: true,
                missile1: true,
                ball: true,
                playfield: true,
            },
            patterns: Patterns::empty(),
            reshaped: Objects {
                player0: true,
                player1: true,
                missile0: true,
                missile1: true,
                ball: true,
                playfield: true,
            },
            is_reshaped: true,
            visible: Objects::visible(tia).number(),
            are_apart: false,
        }
    }

    /// Marks that objects stand elsewhere, or that a missile is locked or released. All keep their
    /// patterns.
    #[inline]
    pub fn mark_places(&mut self)
        ensures { self.new ≡ with_change self.old Places }
    {
        self.stale = self.stale.union(ALL_BUT_PLAYFIELD);
        self.are_apart = false;
    }

    /// Keeps whether an object may be visible now, told whether it might before. It comes by the number
    /// of the set that has it alone.
    #[inline(always)]
    pub fn show(&mut self, object: u8, before: bool, after: bool)
        requires { is_single object ≡ true }
        ensures others { self.new ≡ record self.old { visible = self.new.visible } }
        ensures visible { (o : Set) → self.old.visible ≡ set_number (with_single object before o)
            → self.new.visible ≡ set_number (with_single object after o) }
    {
        self.visible = self
            .visible
            .wrapping_add(object * after as u8)
            .wrapping_sub(object * before as u8);
    }

    /// Finds anew which objects may be visible.
    #[inline]
    pub fn find_visible(&mut self, tia: &TiaFields)
        ensures { self.new ≡ record self.old { visible = set_number (visible_objects tia.now) } }
    {
        self.visible = Objects::visible(tia).number();
    }

    /// Marks objects whose shapes have changed, one by one: unions of the sets take more than twice
    /// as many host instructions. A set comes as its number: of a constant one the compiler leaves
    /// two stores for each object.
    #[inline]
    pub fn mark_shapes(&mut self, objects: u8)
        ensures { self.new ≡ with_change self.old (Shapes objects) }
    {
        let stale = &mut self.stale;
        let reshaped = &mut self.reshaped;
        mark_shape(objects, 0, &mut stale.player0, &mut reshaped.player0);
        mark_shape(objects, 1, &mut stale.player1, &mut reshaped.player1);
        mark_shape(objects, 2, &mut stale.missile0, &mut reshaped.missile0);
        mark_shape(objects, 3, &mut stale.missile1, &mut reshaped.missile1);
        mark_shape(objects, 4, &mut stale.ball, &mut reshaped.ball);
        mark_shape(objects, 5, &mut stale.playfield, &mut reshaped.playfield);
        self.is_reshaped = true;
        self.are_apart = false;
    }

    /// Makes anew each mask that is to be.
    pub fn renew(&mut self, tia: &TiaFields)
        requires lawful { IsLawfulTia tia.now }
        requires fit { MasksFit tia.now self.old }
        ensures fit { MasksFit tia.now self.new }
        ensures fresh { self.new.stale ≡ no_objects }
        ensures shown { AreShown tia.now self.new }
    {
        renew_player0(&mut self.player0, self.stale.player0, tia);
        renew_player1(&mut self.player1, self.stale.player1, tia);
        renew_missile0(&mut self.missile0, self.stale.missile0, tia);
        renew_missile1(&mut self.missile1, self.stale.missile1, tia);
        renew_ball(&mut self.ball, self.stale.ball, tia);
        renew_playfield(&mut self.playfield, self.stale.playfield, tia);
        self.stale = NO_OBJECTS;
    }

    /// Whether it is known that the beam latches nothing on the line, be it that no two objects meet
    /// there, or that all pairs of those that may be visible are latched.
    #[inline(always)]
    pub fn is_idle(&self, tia: &TiaFields) -> bool
        requires { MasksFit tia.now self.now }
        ensures { result ≡ true → IsIdle tia.now }
    {
        self.are_apart || self.are_latched(tia)
    }

    /// Whether it is known that all pairs of the objects that may be visible are latched.
    #[inline(always)]
    fn are_latched(&self, tia: &TiaFields) -> bool
        requires { MasksFit tia.now self.now }
        ensures { result ≡ true → IsIdle tia.now }
    {
        tia.collisions | pairs_of_set(self.visible) == tia.collisions
    }

    /// The collision bits with those of the pairs that meet in pixels `from..to`. Whether the beam is
    /// idle isn't asked again if it was.
    #[inline(always)]
    pub fn collisions_after(&mut self, tia: &TiaFields, from: u8, to: u8, was_asked: bool) -> u16
        requires lawful { IsLawfulTia tia.now }
        requires fit { MasksFit tia.now self.old }
        requires first { from < 160 }
        requires order { from ≤ to }
        requires range { to ≤ 160 }
        ensures value { result ≡ bit_or tia.now.collisions (number_from 0 (stretch_pairs tia.now from (to - from))) }
        ensures range { result < 2 ^ 15 }
        ensures fit { MasksFit tia.now self.new }
    {
        if !was_asked && self.is_idle(tia) {
            return tia.collisions;
        }
        self.latched_anew(tia, from, to)
    }

    /// The collision bits with those of the pairs that meet in pixels `from..to`, of which some may
    /// not be latched yet.
    #[inline(always)]
    fn latched_anew(&mut self, tia: &TiaFields, from: u8, to: u8) -> u16
        requires lawful { IsLawfulTia tia.now }
        requires fit { MasksFit tia.now self.old }
        requires first { from < 160 }
        requires order { from ≤ to }
        requires range { to ≤ 160 }
        ensures value { result ≡ bit_or tia.now.collisions (number_from 0 (stretch_pairs tia.now from (to - from))) }
        ensures range { result < 2 ^ 15 }
        ensures fit { MasksFit tia.now self.new }
    {
        if to - from <= MOST_PIXELS {
            return self.latched_in_window(tia, from, to);
        }
        self.latched_by_masks(tia, from, to)
    }

    /// The same in at most 32 pixels, by a window of them.
    #[inline(always)]
    fn latched_in_window(&mut self, tia: &TiaFields, from: u8, to: u8) -> u16
        requires lawful { IsLawfulTia tia.now }
        requires fit { MasksFit tia.now self.old }
        requires first { from < 160 }
        requires order { from ≤ to }
        requires range { to ≤ 160 }
        requires short { to - from ≤ 32 }
        ensures value { result ≡ bit_or tia.now.collisions (number_from 0 (stretch_pairs tia.now from (to - from))) }
        ensures range { result < 2 ^ 15 }
        ensures fit { MasksFit tia.now self.new }
    {
        let window = self.window(tia, from);
        if window.any_two_meet(pixels(to - from)) {
            return with_pairs(tia.collisions, window.pairs(tia, from, to));
        }
        tia.collisions
    }

    /// The window of each object from pixel `first` on.
    #[inline(always)]
    fn window(&mut self, tia: &TiaFields, first: u8) -> Window
        requires lawful { IsLawfulTia tia.now }
        requires fit { MasksFit tia.now self.old }
        requires first { first < 160 }
        ensures window { AreInWindow tia.now first result }
        ensures fit { MasksFit tia.now self.new }
    {
        self.find_patterns(tia);
        Window {
            player0: self.patterns.player0.window(first, tia.position_p0),
            player1: self.patterns.player1.window(first, tia.position_p1),
            missile0: unlocked(
                self.patterns.missile0.window(first, tia.position_m0),
                tia.resmp0,
            ),
            missile1: unlocked(
                self.patterns.missile1.window(first, tia.position_m1),
                tia.resmp1,
            ),
            ball: self.patterns.ball.window(first, tia.position_bl),
            playfield: self.playfield.window(first),
        }
    }

    /// Makes the patterns and the playfield's mask anew if one of them may have to be.
    #[inline(always)]
    fn find_patterns(&mut self, tia: &TiaFields)
        requires { MasksFit tia.now self.old }
        ensures fit { MasksFit tia.now self.new }
        ensures fresh { self.new.reshaped ≡ no_objects }
    {
        if self.is_reshaped {
            self.reshape(tia);
        }
    }

    /// Makes anew each pattern that is to be, and the playfield's mask if it is to be.
    #[inline(always)]
    fn reshape(&mut self, tia: &TiaFields)
        requires { MasksFit tia.now self.old }
        ensures fit { MasksFit tia.now self.new }
        ensures fresh { self.new.reshaped ≡ no_objects }
    {
        let patterns = &mut self.patterns;
        reshape_player0(&mut patterns.player0, self.reshaped.player0, tia);
        reshape_player1(&mut patterns.player1, self.reshaped.player1, tia);
        reshape_missile0(&mut patterns.missile0, self.reshaped.missile0, tia);
        reshape_missile1(&mut patterns.missile1, self.reshaped.missile1, tia);
        reshape_ball(&mut patterns.ball, self.reshaped.ball, tia);
        renew_playfield(&mut self.playfield, self.stale.playfield, tia);
        self.stale.playfield = false;
        self.reshaped = NO_OBJECTS;
        self.is_reshaped = false;
    }

    /// The same by the masks of the whole line.
    #[inline(never)]
    fn latched_by_masks(&mut self, tia: &TiaFields, from: u8, to: u8) -> u16
        requires lawful { IsLawfulTia tia.now }
        requires fit { MasksFit tia.now self.old }
        requires order { from ≤ to }
        requires range { to ≤ 160 }
        ensures value { result ≡ bit_or tia.now.collisions (number_from 0 (stretch_pairs tia.now from (to - from))) }
        ensures range { result < 2 ^ 15 }
        ensures fit { MasksFit tia.now self.new }
    {
        self.renew(tia);
        if self.any_two_meet(from, to) {
            return with_pairs(tia.collisions, self.pairs(tia, from, to));
        }
        // Then none meet on the whole line.
        if from == 0 && to == 160 {
            self.are_apart = true;
        }
        tia.collisions
    }

    /// Whether some pixel of `from..to` is covered by two objects.
    #[inline]
    fn any_two_meet(&self, from: u8, to: u8) -> bool
        requires order { from ≤ to }
        requires range { to ≤ 160 }
        ensures { result ≡ false → (x : ℕ) → from ≤ x → x < to → pairs_of (objects_in self.now x) ≡ 0 }
    {
        Mask::any_two_meet(
            &self.player0,
            &self.player1,
            &self.missile0,
            &self.missile1,
            &self.ball,
            &self.playfield,
            from,
            to,
        )
    }

    /// The collision bits of the pairs that meet in pixels `from..to`.
    fn pairs(&self, tia: &TiaFields, from: u8, to: u8) -> u16
        requires shown { AreShown tia.now self.now }
        requires order { from ≤ to }
        requires range { to ≤ 160 }
        ensures value { result ≡ number_from 0 (stretch_pairs tia.now from (to - from)) }
        ensures range { result < 2 ^ 15 }
    {
        let within = Mask::between(from, to);
        let pairs = [
            self.missile0.meets_within(&self.player1, &within),
            self.missile0.meets_within(&self.player0, &within),
            self.missile1.meets_within(&self.player0, &within),
            self.missile1.meets_within(&self.player1, &within),
            self.player0.meets_within(&self.playfield, &within),
            self.player0.meets_within(&self.ball, &within),
            self.player1.meets_within(&self.playfield, &within),
            self.player1.meets_within(&self.ball, &within),
            self.missile0.meets_within(&self.playfield, &within),
            self.missile0.meets_within(&self.ball, &within),
            self.missile1.meets_within(&self.playfield, &within),
            self.missile1.meets_within(&self.ball, &within),
            self.ball.meets_within(&self.playfield, &within),
            self.player0.meets_within(&self.player1, &within),
            self.missile0.meets_within(&self.missile1, &within),
        ];
        number_of(&pairs)
    }

    /// The objects whose masks cover pixel `x`.
    #[inline]
    fn objects(&self, x: u8) -> Objects
        requires { x < 160 }
        ensures { result ≡ objects_in self.now x }
    {
        Objects {
            player0: self.player0.covers(x),
            player1: self.player1.covers(x),
            missile0: self.missile0.covers(x),
            missile1: self.missile1.covers(x),
            ball: self.ball.covers(x),
            playfield: self.playfield.covers(x),
        }
    }

    /// Puts pixels `from..to` of a line.
    pub fn paint<S: Paint>(&mut self, tia: &TiaFields, line: u16, from: u8, to: u8, sink: &mut S)
        requires lawful { IsLawfulTia tia.now }
        requires fit { MasksFit tia.now self.old }
        requires order { from ≤ to }
        requires range { to ≤ 160 }
        ensures fit { MasksFit tia.now self.new }
        ensures sink { sink.new ≡ sink_after_pixels S.drawn sink.old (stretch_pixels tia.now line from (to - from)) }
    {
        if sink.keeps() {
            if is_dark(tia) {
                sink.put_run(line, from, to, 0);
            } else {
                self.renew(tia);
                self.paint_fresh(tia, line, from, to, sink);
            }
        }
    }

    /// Puts pixels `from..to` of a line, once no mask is to be made anew.
    fn paint_fresh<S: Paint>(&self, tia: &TiaFields, line: u16, from: u8, to: u8, sink: &mut S)
        requires shown { AreShown tia.now self.now }
        requires order { from ≤ to }
        requires range { to ≤ 160 }
        ensures { sink.new ≡ sink_after_pixels S.drawn sink.old (stretch_pixels tia.now line from (to - from)) }
    {
        let mut x = from;
        while x < to {
            let end = self.run_end(x, to);
            sink.put_run(line, x, end, colour_at(tia, self.objects(x), x));
            x = end;
        }
    }

    /// The end of a run of pixels from `x` on, at most at `to`, that the same objects cover.
    #[inline]
    fn run_end(&self, x: u8, to: u8) -> u8
        requires order { x < to }
        requires range { to ≤ 160 }
        ensures after { x < result }
        ensures range { result ≤ to }
        ensures comb { x < 8 → result ≤ 8 }
        ensures half { x < 80 → result ≤ 80 }
        ensures same { (y : ℕ) → x ≤ y → y < result → objects_in self.now y ≡ objects_in self.now x }
    {
        let changes = self.player0.changes(x)
            | self.player1.changes(x)
            | self.missile0.changes(x)
            | self.missile1.changes(x)
            | self.ball.changes(x)
            | self.playfield.changes(x);
        least(x + first_change(changes), least(edge_after(x), to))
    }
}

/// The pixels of a missile, which are none if it is locked to its player.
#[inline(always)]
fn unlocked(window: u32, resmp: u8) -> u32
    ensures { result ≡ (if has_bit resmp 1 then 0 else window) }
{
    if has_bit(resmp, 1) { 0 } else { window }
}

/// Marks an object if it is of a set.
#[inline(always)]
fn mark_shape(objects: u8, object: u8, stale: &mut bool, reshaped: &mut bool)
    requires { object < 8 }
    ensures stale { stale.new ≡ (stale.old || has_bit objects object) }
    ensures reshaped { reshaped.new ≡ (reshaped.old || has_bit objects object) }
{
    if has_bit(objects, object) {
        *stale = true;
        *reshaped = true;
    }
}

/// The next pixel at which the comb ends, the picture's right half or a word of a mask begins, or
/// the line ends.
#[inline]
fn edge_after(x: u8) -> u8
    requires { x < 160 }
    ensures after { x < result }
    ensures word { result ≤ 32 * (x / 32) + 32 }
    ensures comb { x < 8 → result ≤ 8 }
    ensures half { x < 80 → result ≤ 80 }
{
    if x < 8 {
        8
    } else if x < 80 && x >= 64 {
        80
    } else {
        32 * (x / 32) + 32
    }
}

/// The mask of an object: 0 to 5 are player 0, player 1, missile 0, missile 1, the ball and the
/// playfield.
pub fn mask_of(tia: &TiaFields, object: u8) -> Mask
    requires lawful { IsLawfulTia tia.now }
    requires range { object < 6 }
    ensures { (x : ℕ) → x < 160 → covers result x ≡ is_in (object_of object) (objects_at tia.now x) }
{
    let mut masks = Masks::stale(tia);
    masks.renew(tia);
    match object {
        0 => masks.player0,
        1 => masks.player1,
        2 => masks.missile0,
        3 => masks.missile1,
        4 => masks.ball,
        _ => masks.playfield,
    }
}

/// Makes the mask of player 0 anew if it is to be.
#[inline]
#[tactic(auto, unfolding(crate::specs::Objects::objects_at))]
fn renew_player0(mask: &mut Mask, stale: bool, tia: &TiaFields)
    requires lawful { IsLawfulTia tia.now }
    requires fit { stale ≡ false → IsMaskOf tia.now p0 mask.old }
    ensures { IsMaskOf tia.now p0 mask.new }
{
    if stale {
        let graphic = value_by_delay(tia.vdelp0, tia.grp0_old, tia.grp0_new);
        *mask = player_mask(
            tia.nusiz0 % 8,
            has_bit(tia.refp0, 3),
            graphic,
            tia.position_p0,
        );
    }
}

/// Makes the mask of player 1 anew if it is to be.
#[inline]
#[tactic(auto, unfolding(crate::specs::Objects::objects_at))]
fn renew_player1(mask: &mut Mask, stale: bool, tia: &TiaFields)
    requires lawful { IsLawfulTia tia.now }
    requires fit { stale ≡ false → IsMaskOf tia.now p1 mask.old }
    ensures { IsMaskOf tia.now p1 mask.new }
{
    if stale {
        let graphic = value_by_delay(tia.vdelp1, tia.grp1_old, tia.grp1_new);
        *mask = player_mask(
            tia.nusiz1 % 8,
            has_bit(tia.refp1, 3),
            graphic,
            tia.position_p1,
        );
    }
}

/// Makes the mask of missile 0 anew if it is to be.
#[inline]
#[tactic(auto, unfolding(crate::specs::Objects::objects_at))]
fn renew_missile0(mask: &mut Mask, stale: bool, tia: &TiaFields)
    requires lawful { IsLawfulTia tia.now }
    requires fit { stale ≡ false → IsMaskOf tia.now m0 mask.old }
    ensures { IsMaskOf tia.now m0 mask.new }
{
    if stale {
        *mask = missile(tia.enam0, tia.resmp0, tia.nusiz0, tia.position_m0);
    }
}

/// Makes the mask of missile 1 anew if it is to be.
#[inline]
#[tactic(auto, unfolding(crate::specs::Objects::objects_at))]
fn renew_missile1(mask: &mut Mask, stale: bool, tia: &TiaFields)
    requires lawful { IsLawfulTia tia.now }
    requires fit { stale ≡ false → IsMaskOf tia.now m1 mask.old }
    ensures { IsMaskOf tia.now m1 mask.new }
{
    if stale {
        *mask = missile(tia.enam1, tia.resmp1, tia.nusiz1, tia.position_m1);
    }
}

/// Makes the mask of the ball anew if it is to be.
#[inline]
#[tactic(auto, unfolding(crate::specs::Objects::objects_at))]
fn renew_ball(mask: &mut Mask, stale: bool, tia: &TiaFields)
    requires lawful { IsLawfulTia tia.now }
    requires fit { stale ≡ false → IsMaskOf tia.now bl mask.old }
    ensures { IsMaskOf tia.now bl mask.new }
{
    if stale {
        *mask = ball(
            value_by_delay(tia.vdelbl, tia.enabl_old, tia.enabl_new),
            tia.ctrlpf,
            tia.position_bl,
        );
    }
}

/// Makes the mask of the playfield anew if it is to be.
#[inline]
#[tactic(auto, unfolding(crate::specs::Objects::objects_at))]
fn renew_playfield(mask: &mut Mask, stale: bool, tia: &TiaFields)
    requires { stale ≡ false → IsMaskOf tia.now pf mask.old }
    ensures { IsMaskOf tia.now pf mask.new }
{
    if stale {
        *mask = playfield_mask(tia.pf0, tia.pf1, tia.pf2, has_bit(tia.ctrlpf, 0));
    }
}

/// The mask of a missile: it is enabled, not locked to its player, and one of its copies is there.
#[inline]
fn missile(enam: u8, resmp: u8, nusiz: u8, position: u8) -> Mask
    requires { position < 160 }
    ensures { (x : ℕ) → x < 160 → covers result x ≡ missile_at enam resmp nusiz position x }
{
    if is_shown(enam, resmp) {
        missile_mask(nusiz % 8, size(nusiz), position)
    } else {
        Mask::empty()
    }
}

/// The mask of a ball: it is enabled and there.
#[inline]
fn ball(enabl: u8, ctrlpf: u8, position: u8) -> Mask
    requires { position < 160 }
    ensures { (x : ℕ) → x < 160 → covers result x ≡ ball_at enabl ctrlpf position x }
{
    if has_bit(enabl, 1) {
        ball_mask(size(ctrlpf), position)
    } else {
        Mask::empty()
    }
}

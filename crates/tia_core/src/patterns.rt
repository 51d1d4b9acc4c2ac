//! The patterns of the objects that move.
ghost use Rattle.std.specs.Prelude.{◌≡◌, ◌<◌, false, ℕ};
ghost use Rattle.tia_core.specs.Coverage.{distance_of};
ghost use Rattle.tia_core.specs.Mask.{covers};
ghost use Rattle.tia_core.specs.Objects.{ball_at, missile_at};
ghost use Rattle.tia_core.specs.Private.ObjectSets.{bl, m0, m1, p0, p1};
ghost use Rattle.tia_core.specs.Private.ObjectMasks.{IsPatternOf};

use crate::bits::has_bit;
use crate::fields::TiaFields;
use crate::object_masks::{ball_pattern, missile_pattern, player_pattern};
use crate::objects::{size, value_by_delay};
use crate::pattern::Pattern;

/// The patterns of the objects that move. Those of missiles are as if these were not locked to their
/// players.
#[derive(Drop)]
pub struct Patterns {
    pub player0: Pattern,
    pub player1: Pattern,
    pub missile0: Pattern,
    pub missile1: Pattern,
    pub ball: Pattern,
}

impl Patterns {
    /// Patterns that cover no pixel.
    pub fn empty() -> Self {
        Patterns {
            player0: Pattern::of_row(0),
            player1: Pattern::of_row(0),
            missile0: Pattern::of_row(0),
            missile1: Pattern::of_row(0),
            ball: Pattern::of_row(0),
        }
    }
}

/// Makes the pattern of player 0 anew if it is to be.
#[inline]
#[tactic(auto, unfolding(crate::specs::Objects::objects_at))]
pub fn reshape_player0(pattern: &mut Pattern, reshaped: bool, tia: &TiaFields)
    requires { reshaped ≡ false → IsPatternOf tia.now p0 pattern.old }
    ensures { IsPatternOf tia.now p0 pattern.new }
{
    if reshaped {
        let graphic = value_by_delay(tia.vdelp0, tia.grp0_old, tia.grp0_new);
        *pattern = player_pattern(tia.nusiz0 % 8, has_bit(tia.refp0, 3), graphic);
    }
}

/// Makes the pattern of player 1 anew if it is to be.
#[inline]
#[tactic(auto, unfolding(crate::specs::Objects::objects_at))]
pub fn reshape_player1(pattern: &mut Pattern, reshaped: bool, tia: &TiaFields)
    requires { reshaped ≡ false → IsPatternOf tia.now p1 pattern.old }
    ensures { IsPatternOf tia.now p1 pattern.new }
{
    if reshaped {
        let graphic = value_by_delay(tia.vdelp1, tia.grp1_old, tia.grp1_new);
        *pattern = player_pattern(tia.nusiz1 % 8, has_bit(tia.refp1, 3), graphic);
    }
}

/// Makes the pattern of missile 0 anew if it is to be.
#[inline]
#[tactic(auto, unfolding(crate::specs::Objects::objects_at))]
pub fn reshape_missile0(pattern: &mut Pattern, reshaped: bool, tia: &TiaFields)
    requires { reshaped ≡ false → IsPatternOf tia.now m0 pattern.old }
    ensures { IsPatternOf tia.now m0 pattern.new }
{
    if reshaped {
        *pattern = missile(tia.enam0, tia.nusiz0);
    }
}

/// Makes the pattern of missile 1 anew if it is to be.
#[inline]
#[tactic(auto, unfolding(crate::specs::Objects::objects_at))]
pub fn reshape_missile1(pattern: &mut Pattern, reshaped: bool, tia: &TiaFields)
    requires { reshaped ≡ false → IsPatternOf tia.now m1 pattern.old }
    ensures { IsPatternOf tia.now m1 pattern.new }
{
    if reshaped {
        *pattern = missile(tia.enam1, tia.nusiz1);
    }
}

/// Makes the pattern of the ball anew if it is to be.
#[inline]
#[tactic(auto, unfolding(crate::specs::Objects::objects_at))]
pub fn reshape_ball(pattern: &mut Pattern, reshaped: bool, tia: &TiaFields)
    requires { reshaped ≡ false → IsPatternOf tia.now bl pattern.old }
    ensures { IsPatternOf tia.now bl pattern.new }
{
    if reshaped {
        *pattern = ball(
            value_by_delay(tia.vdelbl, tia.enabl_old, tia.enabl_new),
            tia.ctrlpf,
        );
    }
}

/// The pattern of a missile: it is enabled, and has its player's copies.
#[inline]
fn missile(enam: u8, nusiz: u8) -> Pattern
    ensures { (x p : ℕ) → p < 160 → covers result (distance_of x p 0) ≡ missile_at enam 0 nusiz p x }
{
    if has_bit(enam, 1) {
        missile_pattern(nusiz % 8, size(nusiz))
    } else {
        Pattern::of_row(0)
    }
}

/// The pattern of a ball that is enabled.
#[inline]
fn ball(enabl: u8, ctrlpf: u8) -> Pattern
    ensures { (x p : ℕ) → p < 160 → covers result (distance_of x p 0) ≡ ball_at enabl ctrlpf p x }
{
    if has_bit(enabl, 1) {
        ball_pattern(size(ctrlpf))
    } else {
        Pattern::of_row(0)
    }
}

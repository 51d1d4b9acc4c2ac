//! HMOVE.
ghost use Rattle.std.specs.Prelude.{◌≡◌, ◌<◌, ◌≤◌};
ghost use Rattle.tia_chip.specs.Motion.{after_hmove, after_pulse, any_moves, ball_after_pulse};
ghost use Rattle.tia_chip.specs.Motion.{missile_after_pulse, player_after_pulse, pulsed, pulses_of};
ghost use Rattle.tia_chip.specs.Motion.{pulses_on, still_moves, with_counted_pulse};
ghost use Rattle.tia_chip.specs.Private.Ranges.{IsBallInRange, IsInRange, IsMissileInRange};
ghost use Rattle.tia_chip.specs.Private.Ranges.{IsPlayerInRange};

use crate::ball::Ball;
use crate::missile::Missile;
use crate::player::Player;
use crate::state::TiaState;

/// Whether an object that moves still does after so many pulses.
#[inline(always)]
fn still_moves(motion: u8, pulses: u8) -> bool
    ensures { result ≡ still_moves motion pulses }
{
    (motion / 16 + 8) % 16 != pulses % 16
}

/// Whether an object moves.
#[inline(always)]
pub fn any_moves(tia: &TiaState) -> bool
    ensures { result ≡ any_moves tia.now }
{
    tia.player0.moves | tia.player1.moves | tia.missile0.moves | tia.missile1.moves | tia.ball.moves
}

/// Whether a clock pulsed, and an object still moves after it.
#[inline(always)]
pub fn pulses_on(tia: &TiaState) -> bool
    ensures { result ≡ pulses_on tia.now }
{
    tia.clock % 4 == 0 && any_moves(tia)
}

/// HMOVE acts: all objects move.
pub fn start(tia: &mut TiaState)
    ensures { tia.new ≡ after_hmove tia.old }
{
    tia.longer = tia.is_in_blank();
    tia.player0.moves = true;
    tia.player1.moves = true;
    tia.missile0.moves = true;
    tia.missile1.moves = true;
    tia.ball.moves = true;
    tia.pulses = 0;
}

/// A player after a pulse.
fn pulsed_player(tia: &TiaState, mut player: Player) -> Player
    requires { IsPlayerInRange player }
    ensures value { result ≡ player_after_pulse tia.now player }
    ensures range { IsPlayerInRange result }
{
    player.moves = player.moves && still_moves(player.hmp, tia.pulses);
    if player.moves && tia.is_in_blank() {
        player.step();
    }
    player
}

/// A missile after a pulse.
fn pulsed_missile(tia: &TiaState, nusiz: u8, mut missile: Missile) -> Missile
    requires { IsMissileInRange missile }
    ensures value { result ≡ missile_after_pulse tia.now nusiz missile }
    ensures range { IsMissileInRange result }
{
    missile.moves = missile.moves && still_moves(missile.hmm, tia.pulses);
    if missile.moves && tia.is_in_blank() {
        missile.step(nusiz, tia.clock);
    }
    missile
}

/// The ball after a pulse.
fn pulsed_ball(tia: &TiaState, mut ball: Ball) -> Ball
    requires { IsBallInRange ball }
    ensures value { result ≡ ball_after_pulse tia.now ball }
    ensures range { IsBallInRange result }
{
    ball.moves = ball.moves && still_moves(ball.hmbl, tia.pulses);
    ball.phase = ball.counter % 4;
    if ball.moves && tia.is_in_blank() {
        ball.step(tia.ctrlpf, true);
    }
    ball
}

/// Counts a pulse.
fn count_pulse(tia: &mut TiaState)
    requires { IsInRange tia.old }
    ensures value { tia.new ≡ with_counted_pulse tia.old }
    ensures range { IsInRange tia.new }
{
    tia.pulses = if any_moves(tia) {
        (tia.pulses + 1).min(16)
    } else {
        0
    };
}

/// A clock's pulse, if it has one.
pub fn pulse(tia: &mut TiaState)
    requires { IsInRange tia.old }
    ensures value { tia.new ≡ pulsed tia.old }
    ensures range { IsInRange tia.new }
{
    if !pulses_on(tia) {
        return;
    }
    tia.missile0 = pulsed_missile(tia, tia.player0.nusiz, tia.missile0);
    tia.missile1 = pulsed_missile(tia, tia.player1.nusiz, tia.missile1);
    tia.player0 = pulsed_player(tia, tia.player0);
    tia.player1 = pulsed_player(tia, tia.player1);
    tia.ball = pulsed_ball(tia, tia.ball);
    count_pulse(tia);
}

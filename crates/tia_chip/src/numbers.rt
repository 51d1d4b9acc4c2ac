//! Numbers of a TIA that a record has in another form.
ghost use Rattle.std.specs.Prelude.{◌≡◌, ◌<◌};
ghost use Rattle.tia_chip.specs.Numbers.{ball_copy_number, bit_number, missile_copy_number};
ghost use Rattle.tia_chip.specs.Numbers.{moves_number, own_size_number, player_copy_number};
ghost use Rattle.tia_chip.specs.Numbers.{seen_number, size_number};

use crate::collision::number_of;
use crate::missile::MissileCopy;
use crate::player::PlayerCopy;
use crate::state::TiaState;

/// The number of a player's copy: 0 for none, else its place and one.
pub fn player_copy_number(copy: Option<PlayerCopy>) -> u16
    ensures { result ≡ player_copy_number copy }
{
    match copy {
        None => 0,
        Some(PlayerCopy { place, .. }) => place as u16 + 1,
    }
}

/// The bit of a player's copy; 0 for none.
pub fn bit_number(copy: Option<PlayerCopy>) -> u8
    ensures { result ≡ bit_number copy }
{
    match copy {
        None => 0,
        Some(copy) => copy.bit,
    }
}

/// The number of a missile's copy: 0 for none, else its place and one.
pub fn missile_copy_number(copy: Option<MissileCopy>) -> u16
    ensures { result ≡ missile_copy_number copy }
{
    match copy {
        None => 0,
        Some(MissileCopy { place, .. }) => place as u16 + 1,
    }
}

/// The number of the ball's copy: 0 for none, else its place and one.
pub fn ball_copy_number(place: Option<u8>) -> u16
    ensures { result ≡ ball_copy_number place }
{
    match place {
        None => 0,
        Some(place) => place as u16 + 1,
    }
}

/// The number of a size: 0 to 3 of 1, 2, 4 and 8, else 4.
pub fn size_number(size: u8) -> u8
    ensures { result ≡ size_number size }
{
    match size {
        1 => 0,
        2 => 1,
        4 => 2,
        8 => 3,
        _ => 4,
    }
}

/// The number of the own size of a missile's copy; 0 for none.
pub fn own_size_number(copy: Option<MissileCopy>) -> u8
    ensures { result ≡ own_size_number copy }
{
    match copy {
        None => 0,
        Some(copy) => size_number(copy.own_size),
    }
}

/// Which objects HMOVE moves, a bit for each: player 0 in bit 0, player 1, missile 0, missile 1,
/// the ball in bit 4.
pub fn moves_number(tia: &TiaState) -> u16
    ensures value { result ≡ moves_number tia.now }
    ensures range { result < 32 }
{
    number_of(&[
        tia.ball.moves,
        tia.missile1.moves,
        tia.missile0.moves,
        tia.player1.moves,
        tia.player0.moves,
    ])
}

/// Which objects were seen, likewise.
pub fn seen_number(tia: &TiaState) -> u16
    ensures value { result ≡ seen_number tia.now }
    ensures range { result < 32 }
{
    number_of(&[
        tia.ball.seen,
        tia.missile1.seen,
        tia.missile0.seen,
        tia.player1.seen,
        tia.player0.seen,
    ])
}

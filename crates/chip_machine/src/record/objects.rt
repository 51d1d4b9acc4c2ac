//! The bytes of players, missiles and the ball in a state's record.
ghost use Rattle.std.specs.Prelude.{◌≡◌, ◌<◌, length};
ghost use Rattle.chip_machine.specs.RecordNumbers.{ball_at, missile_at, missile_copy_at, place_at};
ghost use Rattle.chip_machine.specs.RecordNumbers.{player_at, player_copy_at, size_at};

use tia_chip::{Ball, Missile, MissileCopy, Player, PlayerCopy};

/// The sizes 1, 2, 4, 8 and 0 by their numbers; a number beyond them is that of 0.
fn size_at(number: u8) -> u8
    ensures { result ≡ size_at number }
{
    match number {
        0 => 1,
        1 => 2,
        2 => 4,
        3 => 8,
        _ => 0,
    }
}

/// A player's copy of its number and its bit.
fn player_copy_at(number: u8, bit: u8) -> Option<PlayerCopy>
    ensures { result ≡ player_copy_at number bit }
{
    if number == 0 {
        None
    } else {
        Some(PlayerCopy {
            place: number - 1,
            bit,
        })
    }
}

/// A missile's copy of its number and that of its own size.
fn missile_copy_at(number: u8, size: u8) -> Option<MissileCopy>
    ensures { result ≡ missile_copy_at number size }
{
    if number == 0 {
        None
    } else {
        Some(MissileCopy {
            place: number - 1,
            own_size: size_at(size),
        })
    }
}

/// The place of the ball's copy of its number.
fn place_at(number: u8) -> Option<u8>
    ensures { result ≡ place_at number }
{
    if number == 0 { None } else { Some(number - 1) }
}

/// A player of a TIA's bytes, by its number.
pub fn player_at(bytes: &[u8], player: usize, moves: bool, seen: bool) -> Player
    requires length { length bytes.now ≡ 62 }
    requires player { player < 2 }
    ensures { result ≡ player_at bytes.now player moves seen }
{
    Player {
        nusiz: bytes[2 + player],
        refp: bytes[9 + player],
        grp_new: bytes[14 + 2 * player],
        grp_old: bytes[15 + 2 * player],
        vdelp: bytes[27 + player],
        hmp: bytes[22 + player],
        counter: bytes[32 + player],
        copy: player_copy_at(bytes[37 + player], bytes[39 + player]),
        width: size_at(bytes[41 + player]),
        change: bytes[43 + player],
        moves,
        seen,
    }
}

/// A missile of a TIA's bytes, by its number.
pub fn missile_at(bytes: &[u8], missile: usize, moves: bool, seen: bool) -> Missile
    requires length { length bytes.now ≡ 62 }
    requires missile { missile < 2 }
    ensures { result ≡ missile_at bytes.now missile moves seen }
{
    Missile {
        enam: bytes[18 + missile],
        resmp: bytes[30 + missile],
        hmm: bytes[24 + missile],
        counter: bytes[34 + missile],
        copy: missile_copy_at(bytes[45 + missile], bytes[57 + missile]),
        moves,
        seen,
    }
}

/// The ball of a TIA's bytes.
pub fn ball_at(bytes: &[u8], moves: bool, seen: bool) -> Ball
    requires { length bytes.now ≡ 62 }
    ensures { result ≡ ball_at bytes.now moves seen }
{
    Ball {
        enabl_new: bytes[20],
        enabl_old: bytes[21],
        vdelbl: bytes[29],
        hmbl: bytes[26],
        counter: bytes[36],
        place: place_at(bytes[47]),
        own_size: size_at(bytes[59]),
        phase: bytes[60],
        moves,
        seen,
    }
}

//! Which number of a state by the chip's rules doesn't fit those beside it.
ghost use Rattle.std.specs.Prelude.{◌≡◌, ◌/◌, IfSome};
ghost use Rattle.tia_chip.specs.Player.{width_of};
ghost use Rattle.movie_hints.specs.Fits.{beside, cycle_beside, has_width_of_nusiz, is_unfit};
ghost use Rattle.movie_hints.specs.Hints.{TellsState};

use crate::fit::Fit;
use crate::hint::Hint;
use crate::mismatch::{Expected, Field, Found};
use crate::places::{byte_after, byte_at};

// Where numbers stand in a record, of two objects the first one's.
const NUSIZ: usize = 146;

const PLAYER_COPY: usize = 181;

const BIT: usize = 183;

const WIDTH: usize = 185;

const CHANGE: usize = 187;

const MISSILE_COPY: usize = 189;

const MIRRORED: usize = 192;

const PLAYFIELD_BIT: usize = 193;

const MOVES: usize = 196;

const PULSES: usize = 197;

const LINE_CYCLE: usize = 199;

const LONGER: usize = 200;

const OWN_SIZE: usize = 201;

const SEEN: usize = 205;

/// A number that has to fit those beside it.
#[derive(Clone, Copy)]
struct FitNumber {
    name: &'static str,
    /// Where it stands in a record.
    place: usize,
    fit: Fit,
}

/// Such a number, with its name.
macro_rules! number {
    ($name:literal, $place:expr, $fit:ident) => {
        FitNumber {
            name: $name,
            place: $place,
            fit: Fit::$fit,
        }
    };
}

/// The numbers that have to fit those beside them, in a record's order.
const FIT_NUMBERS: [FitNumber; 13] = [
    number!("bit of player 0", BIT, NoBit),
    number!("bit of player 1", BIT + 1, NoBit),
    number!("change of player 0", CHANGE, NoChange),
    number!("change of player 0", CHANGE, Change),
    number!("change of player 1", CHANGE + 1, NoChange),
    number!("change of player 1", CHANGE + 1, Change),
    number!("mirrored", MIRRORED, NotMirrored),
    number!("playfield bit", PLAYFIELD_BIT, NoPlayfieldBit),
    number!("pulses", PULSES, NoPulses),
    number!("longer", LONGER, NotLonger),
    number!("own size of missile 0", OWN_SIZE, NoOwnSize),
    number!("own size of missile 1", OWN_SIZE + 1, NoOwnSize),
    number!("seen", SEEN, NotSeen),
];

/// The byte at another place of a record, of which the byte at the first place stands here in a file.
fn beside(bytes: &[u8], at: usize, place: usize, other: usize) -> u8
    ensures { result ≡ beside bytes.now at place other }
{
    if other < place {
        byte_at(bytes, at.saturating_sub(place - other))
    } else {
        byte_after(bytes, at, other - place)
    }
}

/// The line cycle, from such a place.
fn cycle_beside(bytes: &[u8], at: usize, place: usize) -> u8
    ensures { result ≡ cycle_beside bytes.now at place }
{
    beside(bytes, at, place, LINE_CYCLE)
}

/// The number of a width by NUSIZ.
fn width_number(nusiz: u8) -> u8
    ensures { result ≡ width_of nusiz / 2 }
{
    match nusiz % 8 {
        5 => 1,
        7 => 2,
        _ => 0,
    }
}

/// Whether a player, whose change stands here, has the width of its NUSIZ.
fn has_width_of_nusiz(bytes: &[u8], at: usize) -> bool
    ensures { result ≡ has_width_of_nusiz bytes.now at }
{
    beside(bytes, at, CHANGE, WIDTH) == width_number(beside(bytes, at, CHANGE, NUSIZ))
}

/// Whether a number, which stands here, doesn't fit those beside it.
fn is_unfit(bytes: &[u8], at: usize, fit: Fit, found: u8) -> bool
    ensures { result ≡ is_unfit bytes.now at fit found }
{
    match fit {
        Fit::NoBit => found != 0 && beside(bytes, at, BIT, PLAYER_COPY) < 7,
        Fit::NoChange => found != 0 && has_width_of_nusiz(bytes, at),
        Fit::Change => found == 0 && !has_width_of_nusiz(bytes, at),
        Fit::NotMirrored => {
            found != 0 && !(50..=74).contains(&cycle_beside(bytes, at, MIRRORED))
        }
        Fit::NoPlayfieldBit => {
            let cycle = cycle_beside(bytes, at, PLAYFIELD_BIT);
            found != 0 && (cycle < 23 || cycle % 4 == 0)
        }
        Fit::NoPulses => found != 0 && beside(bytes, at, PULSES, MOVES) == 0,
        Fit::NotLonger => {
            let cycle = cycle_beside(bytes, at, LONGER);
            found != 0 && (cycle == 0 || (26..=74).contains(&cycle))
        }
        Fit::NoOwnSize => found != 0 && beside(bytes, at, OWN_SIZE, MISSILE_COPY) < 5,
        Fit::NotSeen => {
            let cycle = cycle_beside(bytes, at, SEEN);
            found != 0 && 23 <= cycle && beside(bytes, at, SEEN, LONGER) != 1
        }
    }
}

/// What a number says that doesn't fit those beside it, in the record at this place of a file.
pub(crate) fn broken_fit(bytes: &[u8], at: usize) -> Option<Hint>
    ensures { IfSome result (TellsState bytes.now) }
{
    for number in FIT_NUMBERS.iter().copied() {
        let at = at.saturating_add(number.place);
        let found = byte_at(bytes, at);
        if is_unfit(bytes, at, number.fit, found) {
            let field = Field::Named(number.name);
            let expected = Expected::Fit(number.fit);
            return Some(Hint::of_field(field, at, expected, Found::Byte(found)));
        }
    }
    None
}

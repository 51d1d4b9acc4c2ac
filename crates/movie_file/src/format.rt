//! The numbers of the format, and its versions. `specs/Format` has them for contracts.
ghost use Rattle.std.specs.Prelude.{◌≡◌, ◌≤◌, ◌<◌, None};
ghost use Rattle.cart_board.specs.Known.{known_row};
ghost use Rattle.movie_file.specs.Format.{has_board, header_length, is_length, is_version, most_frames};
ghost use Rattle.movie_file.specs.Format.{record_length, row_of, rules_by, takes_cart, versions};
ghost use Rattle.movie_machine.specs.declared.rules.Rules.TheVariants.{Guide as ByGuide};

use cart_board::KnownBoard;
use movie_machine::Rules;
use riot_map::Cart;

/// The first four bytes of a file, `A26M`, as a number.
pub(crate) const MAGIC: u32 = 0x4132_364D;

/// The most frames of a movie, and of text that says its inputs.
pub const MOST_FRAMES: u32 = 262_143;

/// The most checkpoints of a movie.
pub const MOST_CHECKPOINTS: u16 = 4_095;

/// The bytes of a state record by the guide's rules.
pub const STATE_LENGTH: usize = 188;

/// The bytes of an input.
pub const INPUT_LENGTH: usize = 3;

/// A version of the format, as a row of the table `VERSIONS`.
#[derive(Clone, Copy)]
pub(crate) struct Version {
    pub number: u16,
    /// The rules of its movies. By the chip's rules its headers name a board.
    pub rules: Rules,
    /// Whether the length of its cartridge has four bytes in the header, or two.
    pub has_wide_length: bool,
    /// The bytes of its longest cartridge.
    pub longest_cartridge: u32,
    /// The bytes of a state record in a movie. By the guide's rules they are the first ones of a whole
    /// record, and the others are 0; by the chip's rules a board adds some.
    pub record_length: usize,
    pub most_frames: u32,
}

const VERSION_2: Version = Version {
    number: 2,
    rules: Rules::Guide,
    has_wide_length: false,
    longest_cartridge: 8192,
    record_length: STATE_LENGTH,
    most_frames: MOST_FRAMES,
};

/// The versions, equal to the definition's list.
static VERSIONS: [Version; 3] = [
    Version {
        number: 1,
        rules: Rules::Guide,
        has_wide_length: false,
        longest_cartridge: 4096,
        record_length: 187,
        most_frames: 65_535,
    },
    VERSION_2,
    Version {
        number: 3,
        rules: Rules::Chip,
        has_wide_length: true,
        longest_cartridge: 524_288,
        record_length: 206,
        most_frames: MOST_FRAMES,
    },
];

impl Version {
    /// All versions, the oldest first.
    fn all() -> &'static [Version]
        ensures { result.now ≡ versions }
    {
        &VERSIONS
    }

    /// The version of a number, or version 2.
    pub(crate) fn of(number: u16) -> Version
        ensures { result ≡ row_of number }
    {
        let found = Version::all()
            .iter()
            .find(|version| version.number == number);
        found.copied().unwrap_or(VERSION_2)
    }
}

/// Whether there is such a version of the format.
pub(crate) fn is_version(version: u16) -> bool
    ensures { result ≡ is_version version }
{
    Version::of(version).number == version
}

/// Whether the headers of a version name the board of the cartridge.
pub fn has_board(version: u16) -> bool
    ensures { result ≡ has_board version }
{
    match Version::of(version).rules {
        Rules::Guide => false,
        Rules::Chip => true,
    }
}

/// Whether the length of the cartridge has four bytes in the headers of a version, or two.
pub fn has_wide_length(version: u16) -> bool
    ensures { result ≡ (row_of version).has_wide_length }
{
    Version::of(version).has_wide_length
}

/// The bytes of a header.
#[tactic(auto, using(crate::proofs::VersionLemmas::of_each_version))]
pub fn header_length(version: u16) -> usize
    ensures value { result ≡ header_length version }
    ensures least { 14 ≤ result }
    ensures most { result ≤ 17 }
{
    let board = if has_board(version) { 1 } else { 0 };
    let length = if has_wide_length(version) { 4 } else { 2 };
    4 + 2 + board + length + 4 + 2
}

/// Whether cartridges, on this board or on none, have so many bytes.
pub fn is_length(board: Option<KnownBoard>, bytes: usize) -> bool
    ensures { result ≡ is_length (known_row board) bytes }
{
    match board {
        None => Cart::is_length(bytes),
        Some(known) => known.board.has_length(bytes),
    }
}

/// Whether a version has cartridges of this length, on this board or on none.
pub(crate) fn takes_cart(version: u16, board: Option<KnownBoard>, bytes: u32) -> bool
    ensures { result ≡ takes_cart version (known_row board) bytes }
{
    is_length(board, bytes as usize) && bytes <= Version::of(version).longest_cartridge
}

/// The most frames of a movie of a version.
#[tactic(auto, using(crate::proofs::VersionLemmas::of_each_version))]
pub fn most_frames(version: u16) -> u32
    ensures value { result ≡ most_frames version }
    ensures most { result ≤ MOST_FRAMES }
{
    Version::of(version).most_frames
}

/// The bytes of a state record in a movie of a version whose cartridge is on this board, or on none.
#[tactic(auto, using(crate::proofs::VersionLemmas::of_each_version, crate::proofs::BoardLemmas::few_added))]
pub fn record_length(version: u16, board: Option<KnownBoard>) -> usize
    ensures value { result ≡ record_length version (known_row board) }
    ensures some { 0 < result }
    ensures few { result ≤ 2256 }
    ensures whole { board ≡ None → rules_by version ≡ ByGuide → result ≤ STATE_LENGTH }
{
    let own = Version::of(version).record_length;
    match board {
        None => own,
        Some(known) => own + known.board.record_length(),
    }
}

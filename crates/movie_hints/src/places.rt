//! Places in the bytes of a movie file, whatever they hold.
ghost use Rattle.std.specs.Prelude.{ℕ, List, ◌≡◌, ◌<◌, ◌+◌, ◌^◌, slice_index, if◌then◌else◌};
ghost use Rattle.cart_board.specs.Known.{known_row};
ghost use Rattle.movie_file.specs.Format.{has_board};
ghost use Rattle.movie_hints.specs.Places.{board_in, board_place, checkpoint_place, count_in, end_place, four_at};
ghost use Rattle.movie_hints.specs.Places.{frames_in, header_end, input_place, length_in, two_at, version_in};
ghost use Rattle.movie_hints.specs.Private.Sayings.{IsSaid};

use cart_board::KnownBoard;
use movie_file::{INPUT_LENGTH, has_board, has_wide_length, header_length, record_length};

/// Where the version of a movie stands.
const VERSION_AT: usize = 4;

/// Where the board stands in versions that name one, and else the length of the cartridge.
pub(crate) const BOARD_AT: usize = 6;

/// A byte, or 0 after the last one.
pub(crate) fn byte_at(bytes: &[u8], at: usize) -> u8
    ensures { result ≡ slice_index bytes.now at }
{
    bytes.get(at).copied().unwrap_or(0)
}

/// The byte so many places further on.
#[tactic(auto, using(std::proofs::lemmas::List::get_or_past))]
pub(crate) fn byte_after(bytes: &[u8], at: usize, places: usize) -> u8
    ensures { result ≡ slice_index bytes.now (at + places) }
{
    match at.checked_add(places) {
        Some(at) => byte_at(bytes, at),
        None => 0,
    }
}

/// The number of two bytes.
pub(crate) fn two_at(bytes: &[u8], at: usize) -> u16
    ensures { result ≡ two_at bytes.now at }
{
    u16::from_be_bytes([byte_at(bytes, at), byte_after(bytes, at, 1)])
}

/// The number of four bytes.
pub(crate) fn four_at(bytes: &[u8], at: usize) -> u32
    ensures { result ≡ four_at bytes.now at }
{
    let second = byte_after(bytes, at, 1);
    let third = byte_after(bytes, at, 2);
    let fourth = byte_after(bytes, at, 3);
    u32::from_be_bytes([byte_at(bytes, at), second, third, fourth])
}

/// The board of a file's cartridge: none where the version names none, or where no board has its code.
fn board_in(bytes: &[u8], version: u16) -> Option<KnownBoard>
    requires { version ≡ version_in bytes.now }
    ensures value { known_row result ≡ board_in bytes.now }
{
    if has_board(version) {
        KnownBoard::of_code(byte_at(bytes, BOARD_AT))
    } else {
        None
    }
}

/// Where the length of the cartridge stands, in a movie of a version.
pub(crate) fn length_place(version: u16) -> usize
    ensures { result ≡ (if has_board version then board_place + 1 else board_place) }
{
    if has_board(version) {
        BOARD_AT + 1
    } else {
        BOARD_AT
    }
}

/// The length of the cartridge.
fn length_in(bytes: &[u8], version: u16) -> u32
    requires { version ≡ version_in bytes.now }
    ensures { result ≡ length_in bytes.now }
{
    let at = length_place(version);
    if has_wide_length(version) {
        four_at(bytes, at)
    } else {
        u32::from(two_at(bytes, at))
    }
}

/// What the header of a file says.
#[derive(Clone, Copy)]
pub(crate) struct Places {
    pub(crate) version: u16,
    pub(crate) board: Option<KnownBoard>,
    pub(crate) cartridge: u32,
    pub(crate) frames: u32,
    pub(crate) checkpoints: u16,
}

impl Places {
    pub(crate) fn of(bytes: &[u8]) -> Places
        ensures { IsSaid bytes.now result }
    {
        let version = two_at(bytes, VERSION_AT);
        let board = board_in(bytes, version);
        let end = header_length(version);
        Places {
            version,
            board,
            cartridge: length_in(bytes, version),
            frames: four_at(bytes, end - 6),
            checkpoints: two_at(bytes, end - 2),
        }
    }

    /// Where the start state is.
    pub(crate) fn start(self) -> usize
        ensures said { (bytes : List ℕ) → IsSaid bytes self → result ≡ header_end bytes + length_in bytes }
        ensures few { result < 2 ^ 33 }
    {
        header_length(self.version) + self.cartridge as usize
    }

    /// Where the input of a frame is, counted from 0.
    pub(crate) fn input(self, frame: u64) -> usize
        ensures said { (bytes : List ℕ) → IsSaid bytes self → frame < 2 ^ 62 → result ≡ input_place bytes frame }
        ensures few { frame < 2 ^ 62 → result + 2 < 2 ^ 64 }
    {
        let inputs = (frame as usize).saturating_mul(INPUT_LENGTH);
        (self.start() + record_length(self.version, self.board)).saturating_add(inputs)
    }

    /// Where a checkpoint is, counted from 0.
    pub(crate) fn checkpoint(self, number: u16) -> usize
        ensures { (bytes : List ℕ) → IsSaid bytes self → result ≡ checkpoint_place bytes number }
    {
        let length = 4 + record_length(self.version, self.board);
        let checkpoints = usize::from(number).saturating_mul(length);
        self.input(u64::from(self.frames))
            .saturating_add(checkpoints)
    }

    /// Where the file ends.
    pub(crate) fn end(self) -> usize
        ensures { (bytes : List ℕ) → IsSaid bytes self → result ≡ end_place bytes }
    {
        self.checkpoint(self.checkpoints)
    }
}

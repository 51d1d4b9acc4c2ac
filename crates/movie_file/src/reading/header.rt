//! Reading the header.
ghost use Rattle.std.specs.Prelude.{◌≡◌, ◌≤◌, ◌==◌, IfOk, IsTrue, length};
ghost use Rattle.std.specs.Int.{from_be_bytes, w16, w32};
ghost use Rattle.cart_board.specs.Known.{known_row};
ghost use Rattle.movie_machine.specs.Carts.{rules_on};
ghost use Rattle.movie_file.specs.declared.error.MovieError.TheVariants as errors;
ghost use Rattle.movie_file.specs.Format.{is_version, length_width, magic};
ghost use Rattle.movie_file.specs.Format.{most_checkpoints, most_frames, rules_by, takes_cart};
ghost use Rattle.movie_file.specs.MovieError.{Gives};
ghost use Rattle.movie_file.specs.Reading.{board_at, body_length, byte_at, counts_at, number_at, sizes_at, tested_at};
ghost use Rattle.movie_file.specs.Sizes.{sizes_of};

use super::sizes::Sizes;
use crate::error::MovieError;
use crate::format::{
    INPUT_LENGTH, MAGIC, MOST_CHECKPOINTS, Version, has_board, is_version, most_frames,
    record_length, takes_cart,
};
use cart_board::KnownBoard;

/// A byte, and what follows it.
#[tactic(auto, using(crate::proofs::ReadLemmas::byte_there))]
fn u8_at(bytes: &[u8]) -> Result<(u8, &[u8]), MovieError>
    ensures gives { Gives (λ x. (x.0, x.1.now)) result (byte_at bytes.now) }
{
    if bytes.is_empty() {
        return Err(MovieError::Short);
    }
    let (prefix, rest) = bytes.split_at(1);
    Ok((prefix[0], rest))
}

/// A number of two bytes, and what follows it.
fn u16_at(bytes: &[u8]) -> Result<(u16, &[u8]), MovieError>
    ensures gives { Gives (λ x. (x.0, x.1.now)) result (number_at w16 bytes.now) }
{
    if bytes.len() < 2 {
        return Err(MovieError::Short);
    }
    let (prefix, rest) = bytes.split_at(2);
    Ok((u16::from_be_bytes([prefix[0], prefix[1]]), rest))
}

/// A number of four bytes, and what follows it.
fn u32_at(bytes: &[u8]) -> Result<(u32, &[u8]), MovieError>
    ensures gives { Gives (λ x. (x.0, x.1.now)) result (number_at w32 bytes.now) }
{
    if bytes.len() < 4 {
        return Err(MovieError::Short);
    }
    let (prefix, rest) = bytes.split_at(4);
    let number = u32::from_be_bytes([prefix[0], prefix[1], prefix[2], prefix[3]]);
    Ok((number, rest))
}

/// The magic, and what follows it.
#[tactic(auto, unfolding(crate::specs::Reading::tested_at))]
fn magic_in(bytes: &[u8]) -> Result<(u32, &[u8]), MovieError>
    ensures gives { Gives (λ x. (x.0, x.1.now)) result
        (tested_at w32 (λ n. n == from_be_bytes w32 magic) errors.BadMagic bytes.now) }
{
    let (magic, rest) = u32_at(bytes)?;
    if magic != MAGIC {
        return Err(MovieError::BadMagic);
    }
    Ok((magic, rest))
}

/// The version, and what follows it.
#[tactic(auto, unfolding(crate::specs::Reading::tested_at))]
fn version_in(bytes: &[u8]) -> Result<(u16, &[u8]), MovieError>
    ensures gives { Gives (λ x. (x.0, x.1.now)) result
        (tested_at w16 is_version errors.BadVersion bytes.now) }
    ensures version { IfOk result (λ x. IsTrue (is_version x.0)) }
{
    let (version, rest) = u16_at(bytes)?;
    if !is_version(version) {
        return Err(MovieError::BadVersion);
    }
    Ok((version, rest))
}

/// The board of the cartridge, if the headers of the version name it, and what follows it.
#[tactic(auto, unfolding(crate::specs::Reading::board_at))]
fn board_in(version: u16, bytes: &[u8]) -> Result<(Option<KnownBoard>, &[u8]), MovieError>
    ensures gives { Gives (λ x. (known_row x.0, x.1.now)) result
        (board_at version bytes.now) }
    ensures rules { IfOk result (λ x.
        rules_on (known_row x.0) ≡ rules_by version) }
{
    if !has_board(version) {
        return Ok((None, bytes));
    }
    let (code, rest) = u8_at(bytes)?;
    match KnownBoard::of_code(code) {
        Some(board) => Ok((Some(board), rest)),
        None => Err(MovieError::BadBoard),
    }
}

/// A number of as many bytes as the length of the cartridge has, and what follows it, in a movie of a
/// version.
fn length_at(version: u16, bytes: &[u8]) -> Result<(u32, &[u8]), MovieError>
    ensures gives { Gives (λ x. (x.0, x.1.now)) result
        (number_at (length_width version) bytes.now) }
{
    if Version::of(version).has_wide_length {
        return u32_at(bytes);
    }
    let (length, rest) = u16_at(bytes)?;
    Ok((u32::from(length), rest))
}

/// The length of the cartridge, and what follows it, in a movie of a version, on this board or on
/// none.
#[tactic(auto, unfolding(crate::specs::Reading::tested_at))]
fn cart_length_in<'a>(
    version: u16,
    board: Option<KnownBoard>,
    bytes: &'a [u8],
) -> Result<(u32, &'a [u8]), MovieError>
    ensures gives { let row = known_row board in
        Gives (λ x. (x.0, x.1.now)) result
        (tested_at (length_width version) (takes_cart version row) errors.BadCartSize bytes.now) }
    ensures length { IfOk result (λ x.
        IsTrue (takes_cart version (known_row board) x.0)) }
{
    let (length, rest) = length_at(version, bytes)?;
    if !takes_cart(version, board, length) {
        return Err(MovieError::BadCartSize);
    }
    Ok((length, rest))
}

/// The numbers of frames and checkpoints, which are one field, and what follows them, in a movie of
/// a version.
#[tactic(auto, unfolding(crate::specs::Reading::counts_at))]
fn counts_in(version: u16, bytes: &[u8]) -> Result<(u32, u16, &[u8]), MovieError>
    ensures gives { Gives (λ x. (x.0, x.1, x.2.now)) result (counts_at version bytes.now) }
    ensures few { IfOk result (λ x. (x.0 ≤ most_frames version) × (x.1 ≤ most_checkpoints)) }
{
    let (frames, rest) = u32_at(bytes)?;
    let (checkpoints, rest) = u16_at(rest)?;
    if 1 <= frames && frames <= most_frames(version) && checkpoints <= MOST_CHECKPOINTS {
        Ok((frames, checkpoints, rest))
    } else {
        Err(MovieError::BadCounts)
    }
}

/// The bytes after a header.
fn body_length(sizes: Sizes) -> usize
    requires frames { sizes.frames ≤ most_frames sizes.version }
    requires checkpoints { sizes.checkpoints ≤ most_checkpoints }
    ensures { result ≡ body_length (sizes_of sizes) }
{
    let record = record_length(sizes.version, sizes.board);
    let inputs = INPUT_LENGTH * sizes.frames as usize;
    let checkpoints = (4 + record) * sizes.checkpoints as usize;
    sizes.cartridge_length as usize + record + inputs + checkpoints
}

/// What the header says, and the bytes after it, of which there are enough.
#[tactic(auto, unfolding(crate::specs::Reading::sizes_at))]
pub(super) fn sizes_in(bytes: &[u8]) -> Result<(Sizes, &[u8]), MovieError>
    ensures gives { Gives (λ x. (sizes_of x.0, x.1.now)) result (sizes_at bytes.now) }
    ensures long { IfOk result (λ x. body_length (sizes_of x.0) ≤ length x.1.now) }
    ensures version { IfOk result (λ x. IsTrue (is_version x.0.version)) }
    ensures rules { IfOk result (λ x. rules_on (sizes_of x.0).board ≡ rules_by x.0.version) }
    ensures cartridge { IfOk result (λ x.
        IsTrue (takes_cart x.0.version (sizes_of x.0).board x.0.cartridge_length)) }
    ensures few { IfOk result (λ x.
        (x.0.frames ≤ most_frames x.0.version) × (x.0.checkpoints ≤ most_checkpoints)) }
{
    let (_, rest) = magic_in(bytes)?;
    let (version, rest) = version_in(rest)?;
    let (board, rest) = board_in(version, rest)?;
    let (cartridge_length, rest) = cart_length_in(version, board, rest)?;
    let (frames, checkpoints, rest) = counts_in(version, rest)?;
    let sizes = Sizes {
        version,
        board,
        cartridge_length,
        frames,
        checkpoints,
    };
    if rest.len() < body_length(sizes) {
        return Err(MovieError::Short);
    }
    Ok((sizes, rest))
}

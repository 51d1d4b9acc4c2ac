//! Where the bytes of a ROM that is expected aren't those of a cartridge.
ghost use Rattle.std.specs.Prelude.{◌≡◌, ◌<◌, All, IfOk, length, string_bytes};
ghost use Rattle.std.specs.Option.{option_copied};
ghost use Rattle.movie_report.specs.CartridgeDifferences.{bytes_text, byte_text, lengths_text};
ghost use Rattle.movie_report.specs.CartridgeDifferences.{cartridge_differences, different_offsets};
ghost use Rattle.movie_report.specs.CartridgeDifferences.{places_text};

use crate::differences::without_comma;
use replay_plan::Notation;
use std::alloc::{AllocError, Global};
use std::fmt;
use vcs_machine::{HexByte, HexWord};

/// Of how many places the bytes are shown.
const MOST_SHOWN: usize = 4;

/// A place in a cartridge, as at least four capital hexadecimal digits.
#[derive(Clone, Copy)]
struct HexOffset(usize);

impl fmt::Display for HexOffset {
    ghost use Rattle.std.specs.Prelude.{Some};
    ghost use Rattle.movie_report.specs.CartridgeDifferences.{offset_text};

    ghost output = { λ place. Some (offset_text place.0) };

    fn fmt<W: fmt::Write>(&self, f: &mut fmt::Formatter<W>) -> fmt::Result {
        let offset = self.0;
        if offset < 0x10000 {
            write!(f, "{}", HexWord(offset as u16))
        } else {
            let (high, low) = (offset / 0x10000, HexWord((offset % 0x10000) as u16));
            write!(f, "{high:X}{low}")
        }
    }
}

/// The offsets at which a ROM differs from a cartridge of its length.
#[tactic(auto, unfolding(crate::specs::CartridgeDifferences::different_offsets))]
fn different_offsets(alloc: Global, rom: &[u8], cart: &[u8]) -> Result<Vec<usize>, AllocError>
    requires lengths { length rom.now ≡ length cart.now }
    ensures value { IfOk result (λ offsets. offsets.items ≡ different_offsets rom.now cart.now) }
    ensures within { IfOk result (λ offsets. All (λ offset. offset < length cart.now) offsets.items) }
{
    let mut offsets = Vec::new(alloc);
    for offset in 0..cart.len() {
        if rom[offset] != cart[offset] {
            offsets.push(offset)?;
        }
    }
    Ok(offsets)
}

/// What is said of the bytes at an offset.
fn byte_text(
    alloc: Global,
    notation: Notation,
    offset: usize,
    expected: u8,
    found: u8,
) -> Result<String, AllocError>
    ensures { IfOk result (λ text. string_bytes text ≡ byte_text notation offset expected found) }
{
    let offset = HexOffset(offset);
    let (expected, found) = (HexByte(expected), HexByte(found));
    match notation {
        Notation::Lines => format!(in alloc;
            "cartridge {offset}: expected {expected}, found {found}\n"
        ),
        Notation::Json => format!(in alloc;
            ",{{\"offset\":\"{offset}\",\"expected\":\"{expected}\",\"found\":\"{found}\"}}"
        ),
    }
}

/// What is said of the bytes at these offsets.
fn bytes_text(
    alloc: Global,
    notation: Notation,
    rom: &[u8],
    cart: &[u8],
    offsets: &[usize],
) -> Result<String, AllocError>
    requires lengths { length rom.now ≡ length cart.now }
    requires within { All (λ offset. offset < length cart.now) offsets.now }
    ensures { IfOk result (λ text. string_bytes text ≡ bytes_text notation rom.now cart.now offsets.now) }
{
    let mut text = String::new(alloc);
    for &offset in offsets {
        let piece = byte_text(alloc, notation, offset, rom[offset], cart[offset])?;
        text.push_str(&piece)?;
    }
    Ok(text)
}

/// In how many places a ROM differs from a cartridge of its length, and the first of them.
#[tactic(auto, using(crate::proofs::CartridgeDifferenceLemmas::places_shown))]
fn places_text(
    alloc: Global,
    notation: Notation,
    rom: &[u8],
    cart: &[u8],
) -> Result<String, AllocError>
    requires lengths { length rom.now ≡ length cart.now }
    ensures { IfOk result (λ text. string_bytes text
        ≡ places_text notation rom.now cart.now (different_offsets rom.now cart.now)) }
{
    let offsets = different_offsets(alloc, rom, cart)?;
    let count = offsets.len();
    let shown = &offsets[..count.min(MOST_SHOWN)];
    let bytes = bytes_text(alloc, notation, rom, cart, shown)?;
    match notation {
        Notation::Lines => format!(in alloc; "cartridge differs: {count} bytes\n{bytes}"),
        Notation::Json => {
            let elements = without_comma(&bytes);
            format!(in alloc; ",\"differing_bytes\":{count},\"cartridge_differs\":[{elements}]")
        }
    }
}

/// Two lengths that differ.
fn lengths_text(
    alloc: Global,
    notation: Notation,
    expected: usize,
    found: usize,
) -> Result<String, AllocError>
    ensures { IfOk result (λ text. string_bytes text ≡ lengths_text notation expected found) }
{
    match notation {
        Notation::Lines => format!(in alloc;
            "cartridge length: expected {expected}, found {found}\n"
        ),
        Notation::Json => format!(in alloc; ",\"expected_length\":{expected}"),
    }
}

/// In what a cartridge isn't the ROM that is expected, if one is: in its length, or else in how many
/// bytes, and in which of them first.
pub(crate) fn cartridge_differences(
    alloc: Global,
    notation: Notation,
    rom: Option<&[u8]>,
    cart: &[u8],
) -> Result<String, AllocError>
    ensures { IfOk result (λ text. string_bytes text
        ≡ cartridge_differences notation (option_copied rom.entry) cart.now) }
{
    let Some(bytes) = rom else {
        return Ok(String::new(alloc));
    };
    if bytes == cart {
        return Ok(String::new(alloc));
    }
    if bytes.len() != cart.len() {
        return lengths_text(alloc, notation, bytes.len(), cart.len());
    }
    places_text(alloc, notation, bytes, cart)
}

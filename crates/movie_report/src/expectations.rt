//! How a movie agrees with what is expected of it.
ghost use Rattle.std.specs.Prelude.{◌≡◌, ◌<◌, IfOk, OnErr, length, string_bytes};
ghost use Rattle.std.specs.Option.{option_copied};
ghost use Rattle.movie_machine.specs.Carts.{bytes_of, ram_length};
ghost use Rattle.movie_report.specs.Expectations.{agreement_of, agreement_text, cartridge_agreement};
ghost use Rattle.movie_report.specs.Expectations.{disagrees, has_digest, is_no, is_of_rom};
ghost use Rattle.movie_report.specs.Expectations.{starts_at_power_on};

use crate::cartridge_differences::cartridge_differences;
use crate::notation::AnswerFact;
use crate::segments::ends_with_checkpoint;
use movie_file::{Movie, have_one_record};
use movie_machine::{Cart, State};
use replay_plan::{Expectations, Notation};
use sha2::{Digest, Sha256};
use std::alloc::{AllocError, Global};

/// How a movie agrees with what is expected of it. Each is None where nothing is.
#[derive(Clone, Copy, Debug, PartialEq, Eq)]
pub struct Agreement {
    /// Whether its cartridge is the one.
    pub cartridge: Option<bool>,
    /// Whether it starts at power-on.
    pub start: Option<bool>,
    /// Whether a checkpoint stands after its last frame.
    pub last_frame: Option<bool>,
}

/// Whether a cartridge has exactly the bytes of a ROM, if there is one.
fn is_of_rom(cart: &Cart, rom: Option<&[u8]>) -> bool
    ensures { result ≡ is_of_rom (bytes_of cart.now) (option_copied rom.entry) }
{
    match rom {
        Some(bytes) => cart.bytes() == bytes,
        None => true,
    }
}

/// Whether a cartridge has this SHA-256, if there is one.
fn has_digest(cart: &Cart, digest: Option<[u8; 32]>) -> bool
    ensures { result ≡ has_digest (bytes_of cart.now) digest }
{
    match digest {
        Some(bytes) => Sha256::digest(cart.bytes()) == bytes,
        None => true,
    }
}

/// Whether a cartridge is the one that is expected.
fn cartridge_agreement(cart: &Cart, rom: Option<&[u8]>, digest: Option<[u8; 32]>) -> Option<bool>
    ensures { result ≡ cartridge_agreement (bytes_of cart.now) (option_copied rom.entry) digest }
{
    if rom.is_none() && digest.is_none() {
        return None;
    }
    Some(is_of_rom(cart, rom) && has_digest(cart, digest))
}

/// Whether a movie's start state has the record of power-on.
#[tactic(auto, using(movie_file::proofs::StateLemmas::start_of))]
fn starts_at_power_on(alloc: Global, movie: &Movie) -> Result<bool, AllocError>
    ensures value { IfOk result (λ answer. answer ≡ starts_at_power_on movie.now) }
    ensures memory { OnErr result (0 < ram_length movie.now.cartridge) }
{
    let _ = movie.frames();
    let cart = movie.cart();
    let power_on = State::power_on(alloc, cart)?;
    Ok(have_one_record(cart, movie.start(), &power_on))
}

/// Whether an answer is that something isn't as expected.
fn is_no(answer: Option<bool>) -> bool
    ensures { result ≡ is_no answer }
{
    answer == Some(false)
}

impl Agreement {
    /// That of a movie with a ROM, if one is expected, and with the rest.
    ///
    /// AllocError comes only if memory for the RAM of the cartridge was refused.
    pub fn of(
        alloc: Global,
        movie: &Movie,
        rom: Option<&[u8]>,
        expectations: &Expectations,
    ) -> Result<Agreement, AllocError>
        ensures value { IfOk result (λ agreement. agreement ≡ agreement_of movie.now (option_copied rom.entry) expectations.now) }
        ensures memory { OnErr result (0 < ram_length movie.now.cartridge) }
    {
        let cartridge = cartridge_agreement(movie.cart(), rom, expectations.digest);
        let start = if expectations.power_on {
            Some(starts_at_power_on(alloc, movie)?)
        } else {
            None
        };
        let last_frame = if expectations.to_the_end {
            Some(ends_with_checkpoint(movie))
        } else {
            None
        };
        Ok(Agreement {
            cartridge,
            start,
            last_frame,
        })
    }

    /// Whether anything isn't as expected.
    pub fn disagrees(self) -> bool
        ensures { result ≡ disagrees self }
    {
        is_no(self.cartridge) || is_no(self.start) || is_no(self.last_frame)
    }

    /// A line or a member for each that is expected, and in what the cartridge differs from the ROM
    /// that is expected, if one is.
    pub(crate) fn text(
        self,
        alloc: Global,
        notation: Notation,
        rom: Option<&[u8]>,
        cartridge: &[u8],
    ) -> Result<String, AllocError>
        ensures { IfOk result (λ text. string_bytes text
            ≡ agreement_text notation (option_copied rom.entry) cartridge.now self) }
    {
        let differences = cartridge_differences(alloc, notation, rom, cartridge)?;
        format!(in alloc;
            "{}{differences}{}{}",
            AnswerFact(
                notation,
                "cartridge_expected",
                "cartridge expected: ",
                self.cartridge
            ),
            AnswerFact(notation, "start_expected", "start expected: ", self.start),
            AnswerFact(
                notation,
                "last_frame_expected",
                "last frame expected: ",
                self.last_frame
            )
        )
    }
}

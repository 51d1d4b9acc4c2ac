//! State records.
ghost use Rattle.std.specs.Prelude.{◌≡◌, ◌<◌, length, IfOk, IfSome, OnErr, None, Some};
ghost use Rattle.vcs_machine.specs.declared.fields.StateFields.{StateFields};
ghost use Rattle.movie_file.specs.Movie.{IsState};
ghost use Rattle.movie_file.specs.Format.{record_length, rules_by};
ghost use Rattle.movie_file.specs.Record.{guide_state_at, record_of, recorded_state, movie_state_at, whole_record};
ghost use Rattle.movie_machine.specs.Carts.{board_of, ram_length, rules_of};
ghost use Rattle.movie_machine.specs.declared.rules.Rules.TheVariants.{Guide as ByGuide};

mod chip;
mod cpu;
mod number;
mod riot;
mod tia;

use crate::format::{STATE_LENGTH, record_length};
pub use chip::{
    BANK_BYTES_AT, CHIP_RIOT_NUMBERS, CHIP_RIOT_NUMBERS_AT, CHIP_TIA_NUMBERS, CHIP_TIA_NUMBERS_AT,
};
pub use cpu::PROCESSOR_NUMBERS;
use cpu::{PROCESSOR_LENGTH, cpu_bytes, cpu_in};
use movie_machine::Cart;
pub use number::RecordNumber;
use number::number;
pub use riot::RIOT_NUMBERS;
use riot::{MEMORY_LENGTH, RIOT_LENGTH, riot_bytes, riot_in};
use std::alloc::{AllocError, Global};
pub use tia::TIA_NUMBERS;
use tia::{TIA_LENGTH, tia_bytes, tia_in};
use vcs_machine::{State, StateFields};

/// The numbers of a state that are none of its parts'.
pub const BANK_NUMBERS: [RecordNumber; 1] = [number!("bank", most: 1)];

/// Where the RIOT begins in a record, after the processor.
const RIOT_AT: usize = PROCESSOR_LENGTH;

/// Where the numbers of the RIOT begin, after its memory.
pub const RIOT_NUMBERS_AT: usize = RIOT_AT + MEMORY_LENGTH;

/// Where the numbers of the TIA begin.
pub const TIA_NUMBERS_AT: usize = RIOT_AT + RIOT_LENGTH;

/// Where the bank is.
pub const BANK_NUMBERS_AT: usize = TIA_NUMBERS_AT + TIA_LENGTH;

/// The state whose record the bytes are; none if they aren't 188 bytes or break a condition.
#[tactic(auto, unfolding(crate::specs::Record::recorded_state))]
pub fn read_state(bytes: &[u8]) -> Option<State>
    ensures exact { result ≡ recorded_state bytes.now }
    ensures found { IfSome result (λ f. IsState f × (bytes.now ≡ record_of f)) }
    ensures only { (f : StateFields) → IsState f → bytes.now ≡ record_of f → result ≡ Some f }
{
    if bytes.len() != STATE_LENGTH {
        return None;
    }
    State::from_fields(StateFields {
        cpu: cpu_in(&bytes[..RIOT_AT])?,
        riot: riot_in(&bytes[RIOT_AT..TIA_NUMBERS_AT]),
        tia: tia_in(&bytes[TIA_NUMBERS_AT..BANK_NUMBERS_AT])?,
        bank: bytes[BANK_NUMBERS_AT],
    })
}

/// The state whose whole record the bytes are, but for what the version leaves out.
fn whole_state_in(version: u16, bytes: &[u8]) -> Option<State>
    requires rules { rules_by version ≡ ByGuide }
    requires length { length bytes.now ≡ record_length version None }
    ensures { result ≡ recorded_state (whole_record version bytes.now) }
{
    let mut record = [0; STATE_LENGTH];
    record[..record_length(version, None)].copy_from_slice(bytes);
    read_state(&record)
}

/// The state by the guide's rules whose record in a movie of a version with this cartridge the bytes
/// are.
#[tactic(auto, unfolding(crate::specs::Record::guide_state_at))]
fn guide_state_in(version: u16, cart: &riot_map::Cart, bytes: &[u8]) -> Option<State>
    requires rules { rules_by version ≡ ByGuide }
    requires length { length bytes.now ≡ record_length version None }
    ensures { result ≡ guide_state_at version (length cart.now) bytes.now }
{
    let state = whole_state_in(version, bytes)?;
    if cart.has_banks() || state.fields().bank == 0 {
        Some(state)
    } else {
        None
    }
}

/// The state of a cartridge whose record in a movie of a version the bytes are.
///
/// AllocError comes only if memory for the RAM of the cartridge was refused.
pub(crate) fn movie_state_in(
    alloc: Global,
    version: u16,
    cart: &Cart,
    bytes: &[u8],
) -> Result<Option<movie_machine::State>, AllocError>
    requires rules { rules_of cart.now ≡ rules_by version }
    requires length { length bytes.now ≡ record_length version (board_of cart.now) }
    ensures value { IfOk result (λ found. found ≡ movie_state_at version cart.now bytes.now) }
    ensures memory { OnErr result (0 < ram_length cart.now) }
{
    match cart {
        Cart::Guide(cart) => {
            let state = guide_state_in(version, cart, bytes);
            Ok(state.map(movie_machine::State::Guide))
        }
        Cart::Chip(cart) => {
            // (the proof then knows that the board is one of the table)
            let _ = cart.board();
            let state = chip_machine::read_state(alloc, cart, bytes)?;
            Ok(state.map(movie_machine::State::Chip))
        }
    }
}

/// The record of a state.
pub fn write_state(state: &State) -> [u8; STATE_LENGTH]
    ensures record { result ≡ record_of state.now }
    ensures lawful { IsState state.now }
{
    let fields = state.fields();
    let mut out = [0; STATE_LENGTH];
    out[..RIOT_AT].copy_from_slice(&cpu_bytes(&fields.cpu));
    out[RIOT_AT..TIA_NUMBERS_AT].copy_from_slice(&riot_bytes(&fields.riot));
    out[TIA_NUMBERS_AT..BANK_NUMBERS_AT].copy_from_slice(&tia_bytes(&fields.tia));
    out[BANK_NUMBERS_AT] = fields.bank;
    out
}

//! State records.
ghost use Rattle.std.specs.Prelude.{◌≡◌, ◌+◌, ◌<◌, ◌++◌, ◌&&◌, length, if◌then◌else◌, IfOk, IfSome, OnOk, OnErr, Some, None};
ghost use Rattle.cart_board.specs.Record.{record_length};
ghost use Rattle.chip_machine.specs.Record.{IsStateOf, record_of};
ghost use Rattle.chip_machine.specs.RecordNumbers.{fields_at, spells_tia, tia_part};
ghost use Rattle.chip_machine.specs.States.{StateData, is_state};

mod cpu;
mod objects;
mod riot;
mod tia;

use crate::fields::StateFields;
use crate::state::{State, ram_of};
use cart_board::Cart;
use cpu::{PROCESSOR_LENGTH, cpu_bytes, cpu_in};
use riot::{RIOT_LENGTH, riot_bytes, riot_in};
use std::alloc::{AllocError, Global};
pub(crate) use tia::tia_bytes;
use tia::{TIA_LENGTH, tia_in};

/// Where the RIOT begins in a record, after the processor.
const RIOT_AT: usize = PROCESSOR_LENGTH;

/// Where the TIA begins.
const TIA_AT: usize = RIOT_AT + RIOT_LENGTH;

/// Where the bank bytes begin, which the RAM of the cartridge follows.
const BANKS_AT: usize = TIA_AT + TIA_LENGTH;

/// The numbers that the bytes of a record of this cartridge spell, but for its RAM; none if they break
/// a condition.
fn fields_in(cart: &Cart, bytes: &[u8]) -> Option<StateFields>
    requires { length bytes.now ≡ BANKS_AT + record_length cart.now.row }
    ensures { let fields = fields_at cart.now.row bytes.now in
        result ≡ (if is_state fields && spells_tia (tia_part bytes.now) then Some fields else None) }
{
    let fields = StateFields {
        cpu: cpu_in(&bytes[..RIOT_AT])?,
        riot: riot_in(&bytes[RIOT_AT..TIA_AT]),
        tia: tia_in(&bytes[TIA_AT..BANKS_AT])?,
        banks: cart.board().banks_in(&bytes[BANKS_AT..]),
    };
    // A number that the others leave no room for isn't read, but has to be 0.
    if fields.is_lawful() && &tia_bytes(&fields.tia)[..] == &bytes[TIA_AT..BANKS_AT] {
        Some(fields)
    } else {
        None
    }
}

/// The state of a cartridge whose record the bytes are; none if they aren't as many as its board's,
/// or break a condition.
///
/// AllocError comes only if the allocation of its RAM was refused. A board without RAM takes no memory.
pub fn read_state(alloc: Global, cart: &Cart, bytes: &[u8]) -> Result<Option<State>, AllocError>
    ensures found { IfOk result (λ found. IfSome found (λ s. IsStateOf cart.now s × (bytes.now ≡ record_of cart.now.row s))) }
    ensures only { IfOk result (λ found. (s : StateData) → IsStateOf cart.now s → bytes.now ≡ record_of cart.now.row s → found ≡ Some s) }
    ensures memory { OnErr result (0 < cart.now.row.ram) }
{
    let board = cart.board();
    if bytes.len() != BANKS_AT + board.record_length() {
        return Ok(None);
    }
    let Some(fields) = fields_in(cart, bytes) else {
        return Ok(None);
    };
    let ram = ram_of(alloc, &bytes[BANKS_AT + board.banks.len()..])?;
    let Some(state) = State::new(fields, ram) else {
        return Ok(None);
    };
    if !state.is_of(cart) {
        return Ok(None);
    }
    Ok(Some(state))
}

/// Appends the record of a state of a cartridge. AllocError comes only if the allocation of its room
/// was refused.
pub fn write_state(cart: &Cart, state: &State, out: &mut Vec<u8>) -> Result<(), AllocError>
    ensures ok { OnOk result (out.new.items ≡ out.old.items ++ record_of cart.now.row state.now) }
    ensures err { OnErr result (out.new.items ≡ out.old.items) }
{
    let fields = state.fields();
    let banks = cart.board().bank_bytes(&fields.banks);
    let ram = state.ram();
    out.reserve(BANKS_AT + banks.len() + ram.len())?;
    out.extend_from_slice(&cpu_bytes(&fields.cpu))?;
    out.extend_from_slice(&riot_bytes(&fields.riot))?;
    out.extend_from_slice(&tia_bytes(&fields.tia))?;
    out.extend_from_slice(banks)?;
    out.extend_from_slice(ram)?;
    Ok(())
}

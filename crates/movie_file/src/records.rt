//! Records of states with their cartridge.
ghost use Rattle.std.specs.Prelude.{◌≡◌, IfOk, IsTrue, length};
ghost use Rattle.std.specs.Str.{bytes_eq};
ghost use Rattle.movie_machine.specs.Carts.{board_of};
ghost use Rattle.movie_machine.specs.States.{is_of};
ghost use Rattle.movie_file.specs.Record.{record_in, whole_length};

use crate::record::write_state;
use movie_machine::{Cart, State};
use std::alloc::{AllocError, Global};

/// The record of a state with a cartridge, by the rules of both.
pub fn state_record(alloc: Global, cart: &Cart, state: &State) -> Result<Vec<u8>, AllocError>
    ensures value { IfOk result (λ spelled. spelled.items ≡ record_in cart.now state.now) }
    ensures whole { IfOk result (λ spelled. IsTrue (is_of cart.now state.now)
        → length spelled.items ≡ whole_length (board_of cart.now)) }
{
    let mut record = Vec::new(alloc);
    match (cart, state) {
        (Cart::Guide(_), State::Guide(state)) => record.extend_from_slice(&write_state(state))?,
        (Cart::Chip(cart), State::Chip(state)) => {
            // (the proof then knows how long the record is)
            let _ = cart.board();
            let _ = state.fields();
            chip_machine::write_state(cart, state, &mut record)?;
        }
        _ => {}
    }
    Ok(record)
}

/// Whether two states of a cartridge have one record. It takes no memory.
pub fn have_one_record(cart: &Cart, first: &State, second: &State) -> bool
    requires first { IsTrue (is_of cart.now first.now) }
    requires second { IsTrue (is_of cart.now second.now) }
    ensures { result ≡ bytes_eq (record_in cart.now first.now) (record_in cart.now second.now) }
{
    match (cart, first, second) {
        (Cart::Guide(_), State::Guide(first), State::Guide(second)) => {
            write_state(first) == write_state(second)
        }
        (Cart::Chip(cart), State::Chip(first), State::Chip(second)) => {
            // (the proof then knows that a record spells its state)
            let _ = cart.board();
            let _ = first.fields();
            let _ = second.fields();
            first.equals(second)
        }
        _ => unreachable!(),
    }
}

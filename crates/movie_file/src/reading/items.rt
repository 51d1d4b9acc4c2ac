//! Reading inputs and checkpoints.
ghost use Rattle.std.specs.Prelude.{◌≡◌, ◌≤◌, ◌<◌, ◌+◌, ◌*◌, [], Err, IfOk, OnErr, length, vec_capacity};
ghost use Rattle.std.specs.Option.{ok_or};
ghost use Rattle.movie_file.specs.declared.error.MovieError.TheVariants as errors;
ghost use Rattle.movie_file.specs.Format.{input_length, record_length, checkpoint_length};
ghost use Rattle.movie_file.specs.Format.{most_checkpoints, rules_by};
ghost use Rattle.movie_file.specs.MovieError.{Gives, GivesUnlessRefused};
ghost use Rattle.movie_file.specs.Reading.{input_at, inputs_at, head_state_at, claimed_checkpoint};
ghost use Rattle.movie_file.specs.Reading.{checkpoints_at};
ghost use Rattle.movie_machine.specs.Carts.{board_of, ram_length, rules_of};

use super::sizes::Sizes;
use crate::checkpoint::Checkpoint;
use crate::error::MovieError;
use crate::format::{INPUT_LENGTH, record_length};
use crate::record::movie_state_in;
use movie_machine::{Cart, State};
use refused::Refused;
use std::alloc::{AllocError, Global};
use vcs_machine::Input;

/// The input of a number, at the head of the bytes.
#[tactic(auto, unfolding(crate::specs::Reading::input_at))]
fn input_in(number: u64, bytes: &[u8]) -> Result<Input, MovieError>
    requires { input_length ≤ length bytes.now }
    ensures gives { Gives (λ x. x) result (input_at number bytes.now) }
{
    match Input::new(bytes[0], bytes[1], bytes[2]) {
        Some(input) => Ok(input),
        None => Err(MovieError::BadInput(number)),
    }
}

/// So many inputs, put into an empty list that has room for them, and what follows them.
pub(super) fn inputs_in(
    mut inputs: Vec<Input>,
    count: usize,
    bytes: &[u8],
) -> Result<(Vec<Input>, &[u8]), MovieError>
    requires empty { inputs.items ≡ [] }
    requires room { count ≤ vec_capacity inputs }
    requires long { input_length * count ≤ length bytes.now }
    ensures gives { Gives (λ x. (x.0.items, x.1.now)) result (inputs_at count 1 bytes.now) }
    ensures rest { IfOk result (λ x. length x.1.now + input_length * count ≡ length bytes.now) }
{
    let mut rest = bytes;
    for i in 0..count {
        let input = input_in(i as u64 + 1, rest)?;
        inputs.push_reserved(input);
        let (_, after) = rest.split_at(INPUT_LENGTH);
        rest = after;
    }
    Ok((inputs, rest))
}

/// The state whose record the bytes begin with, in a movie of a version with this cartridge.
///
/// AllocError comes only if memory for the RAM of the cartridge was refused.
fn head_state_in(
    alloc: Global,
    version: u16,
    cart: &Cart,
    bytes: &[u8],
) -> Result<Option<State>, AllocError>
    requires rules { rules_of cart.now ≡ rules_by version }
    requires long { record_length version (board_of cart.now) ≤ length bytes.now }
    ensures value { IfOk result (λ found. found ≡ head_state_at version cart.now bytes.now) }
    ensures memory { OnErr result (0 < ram_length cart.now) }
{
    let length = record_length(version, cart.board());
    movie_state_in(alloc, version, cart, &bytes[..length])
}

/// The checkpoint of a number, at the head of the bytes, if the one before it stands after
/// frame `last`, in a movie of these sizes with this cartridge.
///
/// `NoMemory` comes only if memory for the RAM of the cartridge was refused.
#[tactic(auto, unfolding(crate::specs::Reading::claimed_checkpoint))]
fn checkpoint_in(
    alloc: Global,
    sizes: Sizes,
    cart: &Cart,
    number: u16,
    last: u32,
    bytes: &[u8],
) -> Result<Checkpoint, Refused<MovieError>>
    requires rules { rules_of cart.now ≡ rules_by sizes.version }
    requires long { checkpoint_length sizes.version (board_of cart.now) ≤ length bytes.now }
    ensures gives { GivesUnlessRefused (λ x. x) result
        (claimed_checkpoint sizes.version cart.now sizes.frames number last bytes.now) }
    ensures memory { result ≡ Err Refused.NoMemory → 0 < ram_length cart.now }
{
    let frame = u32::from_be_bytes([bytes[0], bytes[1], bytes[2], bytes[3]]);
    if frame <= last || sizes.frames < frame {
        return Err(Refused::Of(MovieError::BadOrder(number)));
    }
    match head_state_in(alloc, sizes.version, cart, &bytes[4..])? {
        Some(state) => Ok(Checkpoint { frame, state }),
        None => Err(Refused::Of(MovieError::BadState(number))),
    }
}

/// The checkpoints of a movie with this cartridge, put into an empty list that has room for them, and
/// what follows them.
///
/// `NoMemory` comes only if memory for the RAM of the cartridge was refused.
pub(super) fn checkpoints_in<'a>(
    alloc: Global,
    mut checkpoints: Vec<Checkpoint>,
    sizes: Sizes,
    cart: &Cart,
    bytes: &'a [u8],
) -> Result<(Vec<Checkpoint>, &'a [u8]), Refused<MovieError>>
    requires empty { checkpoints.items ≡ [] }
    requires room { sizes.checkpoints ≤ vec_capacity checkpoints }
    requires few { sizes.checkpoints ≤ most_checkpoints }
    requires rules { rules_of cart.now ≡ rules_by sizes.version }
    requires long { checkpoint_length sizes.version (board_of cart.now) * sizes.checkpoints
        ≤ length bytes.now }
    ensures gives { GivesUnlessRefused (λ x. (x.0.items, x.1.now)) result
        (checkpoints_at sizes.version cart.now sizes.frames sizes.checkpoints 1 0 bytes.now) }
    ensures memory { result ≡ Err Refused.NoMemory → 0 < ram_length cart.now }
{
    let length = 4 + record_length(sizes.version, cart.board());
    let mut rest = bytes;
    let mut last = 0;
    for i in 0..sizes.checkpoints {
        let checkpoint = checkpoint_in(alloc, sizes, cart, i + 1, last, rest)?;
        last = checkpoint.frame;
        checkpoints.push_reserved(checkpoint);
        let (_, after) = rest.split_at(length);
        rest = after;
    }
    Ok((checkpoints, rest))
}

/// The start state at the head of the bytes, in a movie of a version with this cartridge.
///
/// `NoMemory` comes only if memory for the RAM of the cartridge was refused.
pub(super) fn start_in(
    alloc: Global,
    version: u16,
    cart: &Cart,
    bytes: &[u8],
) -> Result<State, Refused<MovieError>>
    requires rules { rules_of cart.now ≡ rules_by version }
    requires long { record_length version (board_of cart.now) ≤ length bytes.now }
    ensures gives { GivesUnlessRefused (λ s. s) result
        (ok_or (head_state_at version cart.now bytes.now) (errors.BadState 0)) }
    ensures memory { result ≡ Err Refused.NoMemory → 0 < ram_length cart.now }
{
    match head_state_in(alloc, version, cart, bytes)? {
        Some(state) => Ok(state),
        None => Err(Refused::Of(MovieError::BadState(0))),
    }
}

//! Writing movies.
ghost use Rattle.std.specs.Prelude.{◌≡◌, ◌++◌, length, OnOk, OnErr};
ghost use Rattle.std.specs.Int.{w16, w32, to_be_bytes};
ghost use Rattle.std.specs.Io.{StartsWith};
ghost use Rattle.std.specs.List.{flat_map};
ghost use Rattle.movie_machine.specs.Carts.{board_of, bytes_of, rules_of};
ghost use Rattle.vcs_machine.specs.Inputs.{input_bytes};
ghost use Rattle.movie_file.specs.Format.{length_width, magic, rules_by};
ghost use Rattle.movie_file.specs.Movie.{IsMovie};
ghost use Rattle.movie_file.specs.Spelling.{board_bytes, header_of, checkpoint_bytes, spelling};
ghost use Rattle.movie_file.specs.Record.{state_bytes};

use crate::checkpoint::Checkpoint;
use crate::format::{MAGIC, Version, header_length, record_length};
use crate::movie::Movie;
use crate::record::write_state;
use movie_machine::{Cart, State};
use std::alloc::AllocError;
use vcs_machine::Input;

/// Appends the board of a cartridge, if it is on one.
fn put_board(out: &mut Vec<u8>, movie: &Movie) -> Result<(), AllocError>
    ensures ok { OnOk result
        (out.new.items ≡ out.old.items ++ board_bytes (board_of movie.now.cartridge)) }
    ensures prefix { StartsWith out.new.items out.old.items }
{
    match movie.cart().board() {
        None => Ok(()),
        Some(known) => out.extend_from_slice(&[known.board.code]),
    }
}

/// Appends the length of a cartridge, in a movie of a version.
fn put_length(out: &mut Vec<u8>, movie: &Movie) -> Result<(), AllocError>
    ensures ok { OnOk result
        (out.new.items ≡ out.old.items ++ to_be_bytes (length_width movie.now.version) (length (bytes_of movie.now.cartridge))) }
    ensures prefix { StartsWith out.new.items out.old.items }
{
    let length = movie.cart().bytes().len();
    if Version::of(movie.version()).has_wide_length {
        out.extend_from_slice(&(length as u32).to_be_bytes())
    } else {
        out.extend_from_slice(&(length as u16).to_be_bytes())
    }
}

/// The magic and the version of a movie.
fn first_fields(movie: &Movie) -> [u8; 6]
    ensures { result ≡ magic ++ to_be_bytes w16 movie.now.version }
{
    let magic = MAGIC.to_be_bytes();
    let version = movie.version().to_be_bytes();
    [
        magic[0], magic[1], magic[2], magic[3], version[0], version[1],
    ]
}

/// The numbers of frames and checkpoints of a movie.
fn counts(movie: &Movie) -> [u8; 6]
    ensures { result ≡ to_be_bytes w32 (length movie.now.inputs)
        ++ to_be_bytes w16 (length movie.now.checkpoints) }
{
    let frames = movie.frames().to_be_bytes();
    let checkpoints = movie.checkpoints().to_be_bytes();
    [
        frames[0],
        frames[1],
        frames[2],
        frames[3],
        checkpoints[0],
        checkpoints[1],
    ]
}

/// Appends the header of a movie. Its memory is taken first.
#[tactic(auto, using(crate::proofs::PrefixLemmas::prefix_then))]
fn put_header(out: &mut Vec<u8>, movie: &Movie) -> Result<(), AllocError>
    ensures ok { OnOk result (out.new.items ≡ out.old.items ++ header_of movie.now) }
    ensures prefix { StartsWith out.new.items out.old.items }
{
    out.reserve(header_length(movie.version()))?;
    out.extend_from_slice(&first_fields(movie))?;
    put_board(out, movie)?;
    put_length(out, movie)?;
    out.extend_from_slice(&counts(movie))?;
    Ok(())
}

/// Appends inputs.
fn put_inputs(out: &mut Vec<u8>, inputs: &[Input]) -> Result<(), AllocError>
    ensures ok { OnOk result (out.new.items ≡ out.old.items ++ flat_map input_bytes inputs.now) }
    ensures prefix { StartsWith out.new.items out.old.items }
{
    for input in inputs {
        out.extend_from_slice(&input.bytes())?;
    }
    Ok(())
}

/// Appends a state, in a movie of a version with this cartridge.
fn put_state(out: &mut Vec<u8>, version: u16, cart: &Cart, state: &State) -> Result<(), AllocError>
    requires { rules_of cart.now ≡ rules_by version }
    ensures ok { OnOk result (out.new.items ≡ out.old.items ++ state_bytes version cart.now state.now) }
    ensures prefix { StartsWith out.new.items out.old.items }
{
    match (cart, state) {
        (Cart::Guide(_), State::Guide(state)) => out.extend_from_slice(
            &write_state(state)[..record_length(version, None)],
        ),
        (Cart::Chip(cart), State::Chip(state)) => chip_machine::write_state(cart, state, out),
        _ => Ok(()),
    }
}

/// Appends a checkpoint, in a movie of a version with this cartridge.
fn put_checkpoint(
    out: &mut Vec<u8>,
    version: u16,
    cart: &Cart,
    checkpoint: &Checkpoint,
) -> Result<(), AllocError>
    requires { rules_of cart.now ≡ rules_by version }
    ensures ok { OnOk result
        (out.new.items ≡ out.old.items ++ checkpoint_bytes version cart.now checkpoint.now) }
    ensures prefix { StartsWith out.new.items out.old.items }
{
    out.extend_from_slice(&checkpoint.frame.to_be_bytes())?;
    put_state(out, version, cart, &checkpoint.state)?;
    Ok(())
}

/// Appends checkpoints, in a movie of a version with this cartridge.
#[tactic(auto, using(crate::proofs::PrefixLemmas::prefix_then))]
fn put_checkpoints(
    out: &mut Vec<u8>,
    version: u16,
    cart: &Cart,
    checkpoints: &[Checkpoint],
) -> Result<(), AllocError>
    requires { rules_of cart.now ≡ rules_by version }
    ensures ok { OnOk result
        (out.new.items ≡ out.old.items ++ flat_map (checkpoint_bytes version cart.now) checkpoints.now) }
    ensures prefix { StartsWith out.new.items out.old.items }
{
    for checkpoint in checkpoints {
        put_checkpoint(out, version, cart, checkpoint)?;
    }
    Ok(())
}

/// Appends a movie. After a refusal a prefix of it may stand there.
#[tactic(auto, using(crate::proofs::PrefixLemmas::prefix_then))]
fn put_movie(out: &mut Vec<u8>, movie: &Movie) -> Result<(), AllocError>
    ensures ok { OnOk result (out.new.items ≡ out.old.items ++ spelling movie.now) }
    ensures prefix { StartsWith out.new.items out.old.items }
    ensures lawful { IsMovie movie.now }
{
    let version = movie.version();
    let cart = movie.cart();
    put_header(out, movie)?;
    out.extend_from_slice(cart.bytes())?;
    put_state(out, version, cart, movie.start())?;
    put_inputs(out, movie.inputs())?;
    put_checkpoints(out, version, cart, movie.all_checkpoints())?;
    Ok(())
}

/// Appends the one spelling of a movie. If memory is refused the vector has the bytes that it
/// had.
pub fn write_movie(movie: &Movie, out: &mut Vec<u8>) -> Result<(), AllocError>
    ensures ok { OnOk result (out.new.items ≡ out.old.items ++ spelling movie.now) }
    ensures err { OnErr result (out.new.items ≡ out.old.items) }
    ensures lawful { IsMovie movie.now }
{
    let length = out.len();
    match put_movie(out, movie) {
        Ok(()) => Ok(()),
        Err(_) => {
            out.truncate(length);
            Err(AllocError)
        }
    }
}

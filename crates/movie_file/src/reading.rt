//! Reading movies.
ghost use Rattle.std.specs.Prelude.{◌≡◌, ◌≤◌, ◌<◌, ◌+◌, [], length, Err, IfOk, IsOk, Ok};
ghost use Rattle.std.specs.Prelude.{vec_capacity};
ghost use Rattle.movie_file.specs.Format.{most_frames, most_checkpoints, rules_by};
ghost use Rattle.movie_file.specs.Movie.{MovieData};
ghost use Rattle.movie_file.specs.MovieError.{GivesUnlessRefused};
ghost use Rattle.movie_file.specs.Private.MovieParts.{data_of};
ghost use Rattle.movie_file.specs.Reading.{body_length, movie_at, rest_at, sizes_at};
ghost use Rattle.movie_file.specs.Sizes.{sizes_of};
ghost use Rattle.movie_file.specs.Spelling.{Spells};
ghost use Rattle.movie_machine.specs.Carts.{IsCart, board_of, cart_on, ram_length, rules_of};

mod header;
mod inputs;
mod items;
mod sizes;

use crate::checkpoint::Checkpoint;
use crate::error::MovieError;
use crate::format::record_length;
use crate::movie::Movie;
use crate::parts::MovieParts;
use header::sizes_in;
pub use inputs::read_inputs;
use items::{checkpoints_in, inputs_in, start_in};
use movie_machine::Cart;
use refused::Refused;
pub(crate) use sizes::Sizes;
use std::alloc::{AllocError, Global};
use vcs_machine::Input;

/// The cartridge of a movie, and room for its inputs and checkpoints: all the memory that it needs, but
/// for the RAM of states.
#[derive(Drop)]
struct Reserved {
    cart: Cart,
    inputs: Vec<Input>,
    checkpoints: Vec<Checkpoint>,
}

impl Reserved {
    /// The cartridge of these bytes, and room for the inputs and checkpoints of a movie of these sizes,
    /// and for no more.
    fn new(alloc: Global, cartridge: &[u8], sizes: Sizes) -> Result<Reserved, AllocError>
        requires cartridge { IsCart (cart_on (sizes_of sizes).board cartridge.now) }
        ensures cartridge { IfOk result (λ reserved.
            reserved.cart ≡ cart_on (sizes_of sizes).board cartridge.now) }
        ensures inputs { IfOk result (λ reserved. (reserved.inputs.items ≡ [])
            × (vec_capacity reserved.inputs ≡ sizes.frames)) }
        ensures checkpoints { IfOk result (λ reserved. (reserved.checkpoints.items ≡ [])
            × (vec_capacity reserved.checkpoints ≡ sizes.checkpoints)) }
    {
        let cartridge = Vec::from_slice(alloc, cartridge)?;
        let inputs = Vec::with_capacity(alloc, sizes.frames as usize)?;
        let checkpoints = Vec::with_capacity(alloc, sizes.checkpoints as usize)?;
        let Ok(cart) = Cart::on(sizes.board, cartridge) else {
            unreachable!()
        };
        Ok(Reserved {
            cart,
            inputs,
            checkpoints,
        })
    }

    /// What follows a header and the cartridge, which is here already.
    #[tactic(auto, unfolding(crate::specs::Reading::rest_at))]
    fn fill(
        self,
        alloc: Global,
        sizes: Sizes,
        bytes: &[u8],
    ) -> Result<MovieParts, Refused<MovieError>>
        requires board { board_of self.cart ≡ (sizes_of sizes).board }
        requires rules { rules_of self.cart ≡ rules_by sizes.version }
        requires frames { sizes.frames ≤ most_frames sizes.version }
        requires checkpoints { sizes.checkpoints ≤ most_checkpoints }
        requires long { body_length (sizes_of sizes) ≤ sizes.cartridge_length + length bytes.now }
        requires inputs_room { (self.inputs.items ≡ [])
            × (sizes.frames ≤ vec_capacity self.inputs) }
        requires checkpoints_room { (self.checkpoints.items ≡ [])
            × (sizes.checkpoints ≤ vec_capacity self.checkpoints) }
        ensures gives { GivesUnlessRefused data_of result (rest_at (sizes_of sizes) self.cart bytes.now) }
        ensures memory { result ≡ Err Refused.NoMemory → 0 < ram_length self.cart }
    {
        let Reserved {
            cart,
            inputs,
            checkpoints,
        } = self;
        let start = start_in(alloc, sizes.version, &cart, bytes)?;
        let (_, rest) = bytes.split_at(record_length(sizes.version, sizes.board));
        let (inputs, rest) = inputs_in(inputs, sizes.frames as usize, rest)?;
        let (checkpoints, rest) = checkpoints_in(alloc, checkpoints, sizes, &cart, rest)?;
        if !rest.is_empty() {
            return Err(Refused::Of(MovieError::Trailing));
        }
        Ok(MovieParts {
            version: sizes.version,
            cart,
            start,
            inputs,
            checkpoints,
        })
    }
}

/// The movie that the bytes spell, all of the bytes; else the first refusal in the order of the
/// format.
///
/// `NoMemory` comes only if the header is good and enough bytes follow it, and then before any other
/// refusal, but for that of a state's RAM: it comes in the state's place.
#[tactic(auto, unfolding(crate::specs::Reading::movie_at))]
pub fn read_movie(alloc: Global, bytes: &[u8]) -> Result<Movie, Refused<MovieError>>
    ensures found { IfOk result (λ m. Spells bytes.now m) }
    // What the bytes spell is read, unless memory was refused.
    ensures only { (m : MovieData) → Spells bytes.now m → GivesUnlessRefused (λ m. m) result (Ok m) }
    ensures exact { GivesUnlessRefused (λ m. m) result (movie_at bytes.now) }
    ensures refused { (e : MovieError) → result ≡ Err (Refused.Of e) → movie_at bytes.now ≡ Err e }
    ensures memory { result ≡ Err Refused.NoMemory → IsOk (sizes_at bytes.now) }
{
    let (sizes, rest) = sizes_in(bytes)?;
    let (cartridge, rest) = rest.split_at(sizes.cartridge_length as usize);
    let reserved = Reserved::new(alloc, cartridge, sizes)?;
    let parts = reserved.fill(alloc, sizes, rest)?;
    Ok(Movie::from_parts(parts))
}

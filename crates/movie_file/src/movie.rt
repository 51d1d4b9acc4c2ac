//! Movies.
ghost use Rattle.std.specs.Prelude.{◌≡◌, ◌-◌, ◌<◌, ◌≤◌, length, slice_get, Some};

use crate::checkpoint::Checkpoint;
use crate::format::MOST_FRAMES;
use crate::parts::MovieParts;
use movie_machine::{Cart, State};
use std::marker::Model;
use vcs_machine::Input;

/// A movie, lawful by its type: what the format says of a movie holds of each.
#[derive(Drop)]
pub struct Movie {
    version: u16,
    cart: Cart,
    start: State,
    inputs: Vec<Input>,
    checkpoints: Vec<Checkpoint>,
}

impl Model for Movie {
    ghost use Rattle.movie_file.specs.Movie.{MovieData, IsMovie};

    ghost Value = { MovieData };

    ghost view = { λ m. record {
      version = m.version;
      cartridge = m.cart;
      start = m.start;
      inputs = m.inputs.items;
      checkpoints = m.checkpoints.items;
    } };

    ghost invariant = { λ m. IsMovie (record {
      version = m.version;
      cartridge = m.cart;
      start = m.start;
      inputs = m.inputs.items;
      checkpoints = m.checkpoints.items;
    }) };
}

impl Movie {
    ghost use Rattle.movie_file.specs.Movie.{MovieData, IsMovie};
    ghost use Rattle.movie_file.specs.Conversion.{in_version_2};
    ghost use Rattle.movie_file.specs.Private.MovieParts.{data_of};

    /// The movie of these parts.
    pub(crate) fn from_parts(parts: MovieParts) -> Movie
        requires { IsMovie (data_of parts) }
        ensures { result ≡ data_of parts }
    {
        let MovieParts {
            version,
            cart,
            start,
            inputs,
            checkpoints,
        } = parts;
        Movie {
            version,
            cart,
            start,
            inputs,
            checkpoints,
        }
    }

    /// The version of its format.
    pub fn version(&self) -> u16
        ensures value { result ≡ self.now.version }
        ensures lawful { IsMovie self.now }
    {
        self.version
    }

    /// Its cartridge.
    pub fn cart(&self) -> &Cart
        ensures { result.now ≡ self.now.cartridge }
    {
        &self.cart
    }

    /// The state before its first frame.
    pub fn start(&self) -> &State
        ensures { result.now ≡ self.now.start }
    {
        &self.start
    }

    /// The number of its frames, 1 to the most of its version.
    pub fn frames(&self) -> u32
        ensures value { result ≡ length self.now.inputs }
        ensures most { result ≤ MOST_FRAMES }
        ensures lawful { IsMovie self.now }
    {
        self.inputs.len() as u32
    }

    /// The inputs of its frames, in order.
    pub fn inputs(&self) -> &[Input]
        ensures { result.now ≡ self.now.inputs }
    {
        &self.inputs
    }

    /// The input of a frame; frames are counted from 1.
    pub fn input(&self, frame: u32) -> Input
        requires first { 0 < frame }
        requires last { frame ≤ length self.now.inputs }
        ensures { slice_get self.now.inputs (frame - 1) ≡ Some result }
    {
        self.inputs[frame as usize - 1]
    }

    /// The number of its checkpoints, 0 to 4,095.
    pub fn checkpoints(&self) -> u16
        ensures value { result ≡ length self.now.checkpoints }
        ensures lawful { IsMovie self.now }
    {
        self.checkpoints.len() as u16
    }

    /// The checkpoint of a number; checkpoints are counted from 1.
    pub fn checkpoint(&self, number: u16) -> &Checkpoint
        requires first { 0 < number }
        requires last { number ≤ length self.now.checkpoints }
        ensures { slice_get self.now.checkpoints (number - 1) ≡ Some result.now }
    {
        &self.checkpoints[number as usize - 1]
    }

    /// The same movie in version 2.
    pub(crate) fn in_version_2(self) -> Movie
        requires { self.version ≡ 1 }
        ensures { result ≡ in_version_2 self }
    {
        let mut movie = self;
        movie.version = 2;
        movie
    }

    /// Its checkpoints, in order.
    pub(crate) fn all_checkpoints(&self) -> &[Checkpoint]
        ensures { result.now ≡ self.now.checkpoints }
    {
        &self.checkpoints
    }
}

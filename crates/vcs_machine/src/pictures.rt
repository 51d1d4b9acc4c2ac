//! Pictures of several frames.
ghost use Rattle.std.specs.Prelude.{◌≡◌, ◌↔◌, ◌<◌, [], length, slice_index_or, IsTrue};

use crate::picture::Picture;
use std::marker::Model;

/// Kept pictures, in the order of their frames, which contracts see as a list of pictures.
#[derive(Drop)]
pub struct Pictures {
    pictures: Vec<Picture>,
}

impl Model for Pictures {
    ghost use Rattle.std.specs.Prelude.{List, ℕ};

    ghost Value = { List (List (List ℕ)) };

    ghost view = { λ p. p.pictures.items };
}

impl Pictures {
    /// The pictures of a vector.
    pub fn new(pictures: Vec<Picture>) -> Pictures
        ensures { result ≡ pictures.items }
    {
        Pictures { pictures }
    }

    /// The vector of them.
    pub fn into_vec(self) -> Vec<Picture>
        ensures { result.items ≡ self }
    {
        let Self { pictures } = self;
        pictures
    }

    /// How many there are.
    pub fn len(&self) -> usize
        ensures { result ≡ length self.now }
    {
        self.pictures.len()
    }

    /// Whether there are none.
    pub fn is_empty(&self) -> bool
        ensures { IsTrue result ↔ (self.now ≡ []) }
    {
        self.pictures.is_empty()
    }

    /// The picture at an index, from 0.
    pub fn at(&self, index: usize) -> &Picture
        requires { index < length self.now }
        ensures { result.now ≡ slice_index_or self.now index result.now }
    {
        &self.pictures[index]
    }

    /// Whether both have the same pictures in the same order.
    pub fn equals(&self, other: &Pictures) -> bool
        ensures { IsTrue result ↔ (self.now ≡ other.now) }
    {
        if self.len() != other.len() {
            return false;
        }
        for i in 0..self.len() {
            if !self.at(i).equals(other.at(i)) {
                return false;
            }
        }
        true
    }
}

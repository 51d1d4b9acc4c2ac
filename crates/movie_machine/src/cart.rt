//! Cartridges.
ghost use Rattle.std.specs.Prelude.{◌≡◌, ◌↔◌, length, IfOk, IsOk};
ghost use Rattle.cart_board.specs.Known.{known_row};

use crate::rules::Rules;
use cart_board::{BadCartSize, KnownBoard};
use std::alloc::{AllocError, Global};

/// A cartridge, by the rules by which it is played.
#[derive(Drop)]
pub enum Cart {
    Guide(riot_map::Cart),
    Chip(cart_board::Cart),
}

impl Cart {
    ghost use Rattle.movie_machine.specs.Carts.{IsCart, board_of, bytes_of, cart_on, rules_of};

    /// The cartridge of these bytes: on a board by the chip's rules, on none by the guide's. Takes no
    /// memory.
    pub fn on(board: Option<KnownBoard>, bytes: Vec<u8>) -> Result<Cart, BadCartSize>
        ensures size { IsOk result ↔ IsCart (cart_on (known_row board) bytes.items) }
        ensures value { IfOk result (λ cart. cart ≡ cart_on (known_row board) bytes.items) }
    {
        match board {
            None => match riot_map::Cart::new(bytes) {
                Ok(cart) => Ok(Cart::Guide(cart)),
                Err(_) => Err(BadCartSize),
            },
            Some(known) => Ok(Cart::Chip(cart_board::Cart::new(known.board, bytes)?)),
        }
    }

    /// The board that it is on; none by the guide's rules.
    pub fn board(&self) -> Option<KnownBoard>
        ensures value { known_row result ≡ board_of self.now }
    {
        match self {
            Cart::Guide(_) => None,
            Cart::Chip(cart) => Some(KnownBoard {
                board: cart.board(),
            }),
        }
    }

    /// Its rules.
    pub fn rules(&self) -> Rules
        ensures { result ≡ rules_of self.now }
    {
        match self {
            Cart::Guide(_) => Rules::Guide,
            Cart::Chip(_) => Rules::Chip,
        }
    }

    /// A cartridge with the same bytes, by the same rules.
    pub fn copy(&self, alloc: Global) -> Result<Cart, AllocError>
        ensures { IfOk result (λ copy. copy ≡ self.now) }
    {
        let bytes = Vec::from_slice(alloc, self.bytes())?;
        match self {
            Cart::Guide(_) => match riot_map::Cart::new(bytes) {
                Ok(copy) => Ok(Cart::Guide(copy)),
                Err(_) => unreachable!(),
            },
            Cart::Chip(cart) => match cart_board::Cart::new(cart.board(), bytes) {
                Ok(copy) => Ok(Cart::Chip(copy)),
                Err(_) => unreachable!(),
            },
        }
    }

    /// The number of its bytes.
    #[tactic(auto, using(crate::proofs::CartLemmas::few_bytes))]
    pub fn len(&self) -> u32
        ensures value { result ≡ length (bytes_of self.now) }
        ensures lawful { IsCart self.now }
    {
        match self {
            Cart::Guide(cart) => u32::from(cart.len()),
            Cart::Chip(cart) => {
                let _ = cart.board();
                cart.bytes().len() as u32
            }
        }
    }

    /// Its bytes, in the order of the file.
    pub fn bytes(&self) -> &[u8]
        ensures value { result.now ≡ bytes_of self.now }
        ensures lawful { IsCart self.now }
    {
        match self {
            Cart::Guide(cart) => cart.bytes(),
            Cart::Chip(cart) => {
                let _ = cart.board();
                cart.bytes()
            }
        }
    }
}

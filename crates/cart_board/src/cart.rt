//! A cartridge on a board.
ghost use Rattle.std.specs.Prelude.{◌≡◌, ◌↔◌, length, IsTrue, IsOk, IfOk};
ghost use Rattle.cart_board.specs.Board.{row_of, has_length};
ghost use Rattle.cart_board.specs.Boards.{IsBoard};

use crate::board::Board;
use std::marker::Model;

/// The bytes of a cartridge aren't as many as its board takes.
#[derive(Clone, Copy, Debug, PartialEq, Eq)]
pub struct BadCartSize;

/// A cartridge on a board, which contracts see as the board's row and the list of its bytes.
#[derive(Drop)]
pub struct Cart {
    board: &'static Board,
    bytes: Vec<u8>,
}

impl Model for Cart {
    ghost use Rattle.std.specs.Prelude.{length, IsTrue};
    ghost use Rattle.cart_board.specs.Board.{row_of, has_length};
    ghost use Rattle.cart_board.specs.Boards.{IsBoard};
    ghost use Rattle.cart_board.specs.CartState.{Cartridge};

    ghost Value = { Cartridge };

    ghost view = { λ c. record { row = row_of c.board.now; bytes = c.bytes.items } };

    ghost invariant = { λ c. IsBoard (row_of c.board.now) × IsTrue (has_length (row_of c.board.now) (length c.bytes.items)) };
}

impl Cart {
    /// The cartridge of these bytes on a board of the table. Takes no memory.
    pub fn new(board: &'static Board, bytes: Vec<u8>) -> Result<Cart, BadCartSize>
        requires { IsBoard (row_of board.now) }
        ensures size { IsOk result ↔ IsTrue (has_length (row_of board.now) (length bytes.items)) }
        ensures value { IfOk result (λ cart. cart ≡ record { row = row_of board.now; bytes = bytes.items }) }
    {
        if board.has_length(bytes.len()) {
            Ok(Cart { board, bytes })
        } else {
            Err(BadCartSize)
        }
    }

    /// Its board.
    pub fn board(&self) -> &'static Board
        ensures value { row_of result.now ≡ self.now.row }
        ensures known { IsBoard self.now.row }
    {
        self.board
    }

    /// Its bytes, in the order of the file.
    pub fn bytes(&self) -> &[u8]
        ensures value { result.now ≡ self.now.bytes }
        ensures lawful { IsTrue (has_length self.now.row (length self.now.bytes)) }
    {
        &self.bytes
    }
}

//! Boards of the table.
ghost use Rattle.std.specs.Prelude.{◌≡◌, ◌==◌, bytes_eq, find, option_map};
ghost use Rattle.cart_board.specs.Board.{row_of};
ghost use Rattle.cart_board.specs.Boards.{boards, IsBoard};

use crate::board::Board;

/// A board that is one of the table.
#[derive(Clone, Copy, Debug)]
pub struct KnownBoard {
    pub board: &'static Board,
    pub ghost known: { IsBoard (row_of board.now) },
}

impl KnownBoard {
    /// The board of a code.
    pub fn of_code(code: u8) -> Option<KnownBoard>
        ensures { option_map (λ known. row_of known.board.now) result ≡ find (λ row. row.code == code) boards }
    {
        match Board::of_code(code) {
            Some(board) => Some(KnownBoard { board }),
            None => None,
        }
    }

    /// The board of a name, in capitals as in the table.
    pub fn of_name(name: &str) -> Option<KnownBoard>
        ensures { option_map (λ known. row_of known.board.now) result ≡ find (λ row. bytes_eq row.name name.now) boards }
    {
        match Board::of_name(name) {
            Some(board) => Some(KnownBoard { board }),
            None => None,
        }
    }
}

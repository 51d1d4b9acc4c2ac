//! Boards that a command names.
ghost use Rattle.std.specs.Prelude.{◌≡◌, ◌<◌, Some, length, option_and_then, option_map, slice_get};
ghost use Rattle.cart_board.specs.Board.{row_of};
ghost use Rattle.cart_board.specs.Boards.{boards};

use cart_board::{Board, KnownBoard};

/// A board of the table, by its code.
#[derive(Clone, Copy, Debug)]
pub struct NamedBoard {
    pub code: u8,
    pub ghost known: { code < length boards },
}

impl NamedBoard {
    /// A board by its code.
    #[tactic(auto, using(crate::proofs::NamedBoards::code_within))]
    pub(crate) fn of(known: KnownBoard) -> NamedBoard
        ensures { slice_get boards result.code ≡ Some (row_of known.board.now) }
    {
        NamedBoard {
            code: known.board.code,
        }
    }

    /// The board of this code.
    fn known(self) -> KnownBoard
        ensures { slice_get boards self.code ≡ Some (row_of result.board.now) }
    {
        KnownBoard {
            board: &Board::all()[self.code as usize],
        }
    }

    /// The board of a command, if it names one.
    pub fn known_of(board: Option<NamedBoard>) -> Option<KnownBoard>
        ensures { option_map (λ known. row_of known.board.now) result
            ≡ option_and_then (λ named. slice_get boards named.code) board }
    {
        match board {
            None => None,
            Some(named) => Some(named.known()),
        }
    }
}

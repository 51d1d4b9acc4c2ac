//! Which lengths cartridges have.
ghost use Rattle.std.specs.Prelude.{◌≡◌};
ghost use Rattle.movie_hints.specs.Hints.{is_some_length};

use cart_board::Board;
use riot_map::Cart;

/// Whether some cartridge has so many bytes, by the guide's rules or on a board.
pub(crate) fn is_some_length(bytes: usize) -> bool
    ensures { result ≡ is_some_length bytes }
{
    Cart::is_length(bytes) || Board::all().iter().any(|board| board.has_length(bytes))
}

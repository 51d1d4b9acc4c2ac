//! Boards of cartridges: how their bytes are wired, and what accesses do to them.
#![tactic(auto)]

mod bank;
mod board;
mod boards;
mod cart;
mod hot_spot;
mod known_board;
mod laws;
mod mapped_cart;
mod window;

pub use bank::{BankByte, BankNumbers, LastBank};
pub use board::Board;
pub use cart::{BadCartSize, Cart};
pub use hot_spot::{HotSpot, Selects};
pub use known_board::KnownBoard;
pub use laws::{law_of_boards, law_of_records};
pub use mapped_cart::{BadCartState, MappedCart};
pub use window::{Kind, Slice, Start, Target, When, Window};

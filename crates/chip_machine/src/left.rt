//! What a frame leaves of a console.

use cart_board::MappedCart;
use riot_chip::Riot;
use tia_chip::Tia;
use tia_core::Paint;

/// The parts of a console that a frame has left.
#[derive(Drop)]
pub struct Left<'a, S: Paint> {
    pub cart: MappedCart<'a>,
    pub riot: Riot,
    pub tia: Tia,
    pub sink: S,
}

//! Pieces of arrived bytes, exact slices lent from them without a copy, and windows of neighbouring pieces.
#![tactic(auto)]

mod lent;
mod piece;
mod ring;
mod window;

pub use lent::Lent;
pub use piece::Piece;
pub use ring::take_front;
pub use window::Window;

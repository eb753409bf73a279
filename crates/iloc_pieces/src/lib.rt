//! Texts in pieces, of which listings are made.
#![tactic(auto)]

mod escaped;
mod piece;

pub use piece::{Piece, push_all};

//! Operations that have no counterpart on the other side.

mod chains;
pub mod lacking;

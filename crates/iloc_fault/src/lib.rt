//! Where blocks fault: at which operation, and the address that it reaches.
#![tactic(auto)]

mod finder;
pub mod laws;
mod place;

pub use finder::FaultFinder;
pub use place::FaultPlace;

//! What is known of the addresses that a block's operations reach, and which operations depend on which by memory then.
//!
//! Two addresses are apart if they differ whatever memory the block starts with. Operations that are apart don't depend on each
//! other. The crate also counts how many operations wait for each directly.
#![tactic(auto)]

mod addresses;
mod dependences;
pub mod laws;
mod registers;
mod successors;
mod words;

pub use addresses::known_addresses;
pub use dependences::MemoryDependences;
pub use registers::KnownRegisters;
pub use successors::count_successors;
pub use words::are_apart;

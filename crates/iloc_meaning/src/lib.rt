//! What a basic block does: its memory, the effect of an operation, the outcome of a plain run.
//!
//! Functions are marked `inline` for speed: without all marks here `run` takes 6 to 15 % more processor time.
#![tactic(auto)]

pub mod arithmetic;
mod effect;
mod interpreter;
pub mod laws;
mod machine_state;
mod memory;
mod outcome;
mod registers;
mod run;
mod scratch;
mod words;

pub use effect::Effect;
pub use interpreter::Interpreter;
pub use machine_state::MachineState;
pub use memory::{LAST_ADDRESS, Memory, WORDS};
pub use outcome::Outcome;
pub use registers::Registers;
pub use run::run_block;
pub use scratch::Scratch;
pub use words::Words;

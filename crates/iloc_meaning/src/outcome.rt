//! The outcome of a run.
ghost use Rattle.std.specs.Prelude.{◌≡◌};
ghost use Rattle.std.specs.Option.{option_copied};
ghost use Rattle.iloc_meaning.specs.Outcome.{shown};

use crate::memory::Memory;
use crate::words::Words;

/// The outcome of a block. Of a block that faults nothing else is known.
#[derive(Debug, Drop, PartialEq, Eq)]
pub enum Outcome {
    /// No operation faulted.
    Finished {
        /// The emitted words, in order.
        outputs: Words,
        /// The memory after the last operation.
        memory: Memory,
    },
    /// An operation faulted.
    Fault,
}

impl Outcome {
    /// Promise: the emitted words, in order, or `None` for a block that faults.
    pub fn outputs(&self) -> Option<&[i32]>
        ensures { option_copied result ≡ shown self.now }
    {
        match self {
            Outcome::Finished { outputs, .. } => Some(outputs.as_slice()),
            Outcome::Fault => None,
        }
    }
}

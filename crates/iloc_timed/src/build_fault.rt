//! Why operations and rows make no schedule.
ghost use Rattle.std.specs.Prelude.{◌≡◌};

use std::alloc::AllocError;
use thiserror::Error;

/// Why operations and rows make no schedule. A bad row is reported before an operation that isn't in exactly one slot.
#[derive(Clone, Copy, Debug, Drop, Error, PartialEq, Eq)]
pub enum BuildFault {
    /// This row is the first with a number that isn't an operation's or with a broken rule of the
    /// units.
    #[error("row {0}: an operation that isn't there, or that can't be issued there")]
    BadRow(usize),
    /// This operation is the first that isn't in exactly one slot.
    #[error("operation {0}: not in exactly one slot")]
    NotOnce(usize),
    /// The growth of a list was refused.
    #[error("out of memory")]
    NoMemory,
}

impl From<AllocError> for BuildFault {
    ghost use Rattle.iloc_timed.specs.declared.build_fault.BuildFault.TheVariants.{NoMemory as no_memory};

    ghost from_gives = { λ _ fault. fault ≡ no_memory };

    fn from(_: AllocError) -> BuildFault {
        BuildFault::NoMemory
    }
}

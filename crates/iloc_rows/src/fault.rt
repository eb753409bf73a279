//! Why a text with rows is refused.
ghost use Rattle.std.specs.Prelude.{◌≡◌};

use iloc_ops::NoMemory;
use iloc_text::ReadFault;
use std::alloc::AllocFailed;
use std::error::Error;
use std::fmt::{self, Display, Formatter};

/// Why a text denotes no blocks with proposals. Lines are counted from 1.
#[derive(Clone, Copy, Debug, Drop, PartialEq, Eq)]
pub enum RowsFault {
    /// As a file of blocks is refused; of a line below them, that it can't be read and is of no block, or that it has
    /// operation 10,001 of its block's rows.
    Read(ReadFault),
    /// There is no block.
    NoBlocks,
    /// This line is a head that names no block after that of the rows, numbers of cycles and heads before it; or it is a row or a
    /// number of cycles without a head, when there isn't exactly one block.
    NoSuchBlock(u32),
}

impl Display for RowsFault {
    ghost use Rattle.std.specs.Prelude.{Some};
    ghost use Rattle.iloc_rows.specs.Fault.{rows_fault_text};

    ghost output = { λ fault. Some (rows_fault_text fault) };

    fn fmt<W: fmt::Write>(&self, f: &mut Formatter<W>) -> fmt::Result {
        match self {
            RowsFault::Read(fault) => write!(f, "{fault}"),
            RowsFault::NoBlocks => f.write_str("no blocks"),
            RowsFault::NoSuchBlock(line) => write!(
                f,
                "line {line}: expected \"block K NAME\" with the number and the name of a later block, - for no name"
            ),
        }
    }
}

impl Error for RowsFault {}

impl From<ReadFault> for RowsFault {
    ghost use Rattle.iloc_rows.specs.declared.fault.RowsFault.TheVariants.{Read as read};

    ghost from_gives = { λ from fault. fault ≡ read from };

    fn from(fault: ReadFault) -> RowsFault {
        RowsFault::Read(fault)
    }
}

impl From<NoMemory> for RowsFault {
    ghost use Rattle.iloc_text.specs.declared.fault.ReadFault.TheVariants.{NoMemory as no_memory};
    ghost use Rattle.iloc_rows.specs.declared.fault.RowsFault.TheVariants.{Read as read};

    ghost from_gives = { λ _ fault. fault ≡ read no_memory };

    fn from(_: NoMemory) -> RowsFault {
        RowsFault::Read(ReadFault::NoMemory)
    }
}

impl<T: Drop> From<AllocFailed<T>> for RowsFault {
    ghost use Rattle.iloc_text.specs.declared.fault.ReadFault.TheVariants.{NoMemory as no_memory};
    ghost use Rattle.iloc_rows.specs.declared.fault.RowsFault.TheVariants.{Read as read};

    ghost from_gives = { λ _ fault. fault ≡ read no_memory };

    fn from(_: AllocFailed<T>) -> RowsFault {
        RowsFault::Read(ReadFault::NoMemory)
    }
}

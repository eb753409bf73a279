//! Why a text is refused.
ghost use Rattle.std.specs.Prelude.{◌≡◌};

use iloc_ops::NoMemory;
use std::alloc::AllocFailed;
use std::error::Error;
use std::fmt::{self, Display, Formatter};

/// Why a text has no file. Lines are counted from 1.
#[derive(Clone, Copy, Debug, Drop, PartialEq, Eq)]
pub enum ReadFault {
    /// The text is longer than 16,777,216 bytes.
    InputTooLong,
    /// This line has no reading, and would have none if numbers had no limit.
    BadLine(u32),
    /// This line would have a reading if numbers had no limit.
    NumberTooLarge(u32),
    /// This line starts block 65,536.
    TooManyBlocks(u32),
    /// This line holds operation 10,001 of its block.
    TooManyOperations(u32),
    /// The growth of a list was refused.
    NoMemory,
}

impl Display for ReadFault {
    ghost use Rattle.std.specs.Prelude.{Some};
    ghost use Rattle.iloc_text.specs.Fault.{fault_text};

    ghost output = { λ fault. Some (fault_text fault) };

    fn fmt<W: fmt::Write>(&self, f: &mut Formatter<W>) -> fmt::Result {
        match self {
            ReadFault::InputTooLong => f.write_str("input longer than 16777216 bytes"),
            ReadFault::BadLine(line) => write!(f, "line {line}: not understood"),
            ReadFault::NumberTooLarge(line) => write!(f, "line {line}: number above 2147483647"),
            ReadFault::TooManyBlocks(line) => write!(f, "line {line}: more than 65535 blocks"),
            ReadFault::TooManyOperations(line) => {
                write!(f, "line {line}: more than 10000 operations in a block")
            }
            ReadFault::NoMemory => f.write_str("out of memory"),
        }
    }
}

impl Error for ReadFault {}

impl From<NoMemory> for ReadFault {
    ghost use Rattle.iloc_text.specs.declared.fault.ReadFault.TheVariants.{NoMemory as no_memory};

    ghost from_gives = { λ _ fault. fault ≡ no_memory };

    fn from(_: NoMemory) -> ReadFault {
        ReadFault::NoMemory
    }
}

impl<T: Drop> From<AllocFailed<T>> for ReadFault {
    ghost use Rattle.iloc_text.specs.declared.fault.ReadFault.TheVariants.{NoMemory as no_memory};

    ghost from_gives = { λ _ fault. fault ≡ no_memory };

    fn from(_: AllocFailed<T>) -> ReadFault {
        ReadFault::NoMemory
    }
}

/// Why no text was read from a stream.
#[derive(Clone, Copy, Debug, Drop, PartialEq, Eq)]
pub enum InputFault {
    /// A read failed.
    ReadFailed,
    /// The growth of a list was refused.
    NoMemory,
}

impl From<NoMemory> for InputFault {
    ghost use Rattle.iloc_text.specs.declared.fault.InputFault.TheVariants.{NoMemory as no_memory};

    ghost from_gives = { λ _ fault. fault ≡ no_memory };

    fn from(_: NoMemory) -> InputFault {
        InputFault::NoMemory
    }
}

/// Why no file was read from a stream.
#[derive(Clone, Copy, Debug, Drop, PartialEq, Eq)]
pub enum StreamFault {
    /// A read failed.
    ReadFailed,
    /// The text that was read has no file, or a growth was refused.
    Text(ReadFault),
}

impl From<ReadFault> for StreamFault {
    ghost use Rattle.iloc_text.specs.declared.fault.StreamFault.TheVariants.{Text};

    ghost from_gives = { λ fault given. given ≡ Text fault };

    fn from(fault: ReadFault) -> StreamFault {
        StreamFault::Text(fault)
    }
}

impl From<InputFault> for StreamFault {
    ghost use Rattle.iloc_text.specs.Streams.{stream_fault_of};

    ghost from_gives = { λ fault given. given ≡ stream_fault_of fault };

    fn from(fault: InputFault) -> StreamFault {
        match fault {
            InputFault::ReadFailed => StreamFault::ReadFailed,
            InputFault::NoMemory => StreamFault::Text(ReadFault::NoMemory),
        }
    }
}

impl From<NoMemory> for StreamFault {
    ghost use Rattle.iloc_text.specs.declared.fault.ReadFault.TheVariants.{NoMemory as no_memory};
    ghost use Rattle.iloc_text.specs.declared.fault.StreamFault.TheVariants.{Text};

    ghost from_gives = { λ _ fault. fault ≡ Text no_memory };

    fn from(_: NoMemory) -> StreamFault {
        StreamFault::Text(ReadFault::NoMemory)
    }
}

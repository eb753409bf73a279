//! Why nothing, or not all, was listed.
ghost use Rattle.std.specs.Prelude.{◌≡◌};
ghost use Rattle.iloc_driver.specs.Fault.{run_status_of};

mod word;

use iloc_listing::WriteFailed;
use iloc_ops::NoMemory;
use iloc_rows::RowsFault;
use iloc_text::{InputFault, ReadFault, StreamFault};
use std::alloc::{AllocError, AllocFailed};
use std::error::Error;
use std::fmt::{self, Display, Formatter};
pub use word::Word;

/// Why the blocks of a file weren't worked through.
#[derive(Clone, Copy, Debug, Drop, PartialEq, Eq)]
pub enum FarmFault {
    /// A worker could not be started.
    NoThread,
    /// The growth of a list, a text or a memory was refused.
    NoMemory,
}

impl Display for FarmFault {
    ghost use Rattle.std.specs.Prelude.{Some};
    ghost use Rattle.iloc_driver.specs.Fault.{farm_text};

    ghost output = { λ fault. Some (farm_text fault) };

    fn fmt<W: fmt::Write>(&self, f: &mut Formatter<W>) -> fmt::Result {
        match self {
            FarmFault::NoThread => f.write_str("a worker could not be started"),
            FarmFault::NoMemory => f.write_str("out of memory"),
        }
    }
}

impl Error for FarmFault {}

/// Why a file that the words name was not read.
#[derive(Clone, Copy, Debug, Drop, PartialEq, Eq)]
pub enum FileFault {
    /// There is no file of that name.
    NoFile,
    /// It could not be opened.
    NotOpened,
    /// A read of it failed, as of a folder.
    ReadFailed,
    /// The growth of its text was refused.
    NoMemory,
}

impl Display for FileFault {
    ghost use Rattle.std.specs.Prelude.{Some};
    ghost use Rattle.iloc_driver.specs.Fault.{file_text};

    ghost output = { λ fault. Some (file_text fault) };

    fn fmt<W: fmt::Write>(&self, f: &mut Formatter<W>) -> fmt::Result {
        match self {
            FileFault::NoFile => f.write_str("no such file"),
            FileFault::NotOpened => f.write_str("opening failed"),
            FileFault::ReadFailed => f.write_str("reading failed"),
            FileFault::NoMemory => f.write_str("out of memory"),
        }
    }
}

impl Error for FileFault {}

/// Why there is no task, whose blocks are in a text of their own.
#[derive(Clone, Copy, Debug, Drop, PartialEq, Eq)]
pub enum TaskFault {
    /// Its file was not read. Want of memory is never told here.
    Unread(FileFault),
    /// It is refused; its lines are counted by themselves. Want of memory is never told here.
    Text(RowsFault),
}

impl Display for TaskFault {
    ghost use Rattle.std.specs.Prelude.{Some};
    ghost use Rattle.iloc_driver.specs.Fault.{task_text};

    ghost output = { λ fault. Some (task_text fault) };

    fn fmt<W: fmt::Write>(&self, f: &mut Formatter<W>) -> fmt::Result {
        match self {
            TaskFault::Unread(fault) => write!(f, "task: {fault}"),
            TaskFault::Text(fault) => write!(f, "task: {fault}"),
        }
    }
}

impl Error for TaskFault {}

/// Why a text has no numbers for the operations of a file's blocks, which are counted from 1.
#[derive(Clone, Copy, Debug, Drop, PartialEq, Eq)]
pub enum NumbersFault {
    /// The text has more than `MAX_INPUT` bytes.
    TooLong,
    /// The block's line has fewer words than the block has operations, or more; `nop`s are left out.
    OtherCount {
        block: u32,
        operations: usize,
        numbers: usize,
    },
    /// This word of the block's line is no number, or one above 4,294,967,295.
    NotANumber {
        block: u32,
        word: Word,
    },
    /// The text goes on after the line of the last block; `block` is the number that one more block would have.
    NoBlock {
        block: u32,
    },
    /// The growth of a list was refused.
    NoMemory,
}

impl Display for NumbersFault {
    ghost use Rattle.std.specs.Prelude.{Some};
    ghost use Rattle.iloc_driver.specs.Fault.{numbers_text};

    ghost output = { λ fault. Some (numbers_text fault) };

    fn fmt<W: fmt::Write>(&self, f: &mut Formatter<W>) -> fmt::Result {
        match self {
            NumbersFault::TooLong => f.write_str("input longer than 16777216 bytes"),
            NumbersFault::OtherCount {
                block,
                operations,
                numbers,
            } => write!(
                f,
                "block {block}: expected {operations} numbers, one for each operation except nop, found {numbers}"
            ),
            NumbersFault::NotANumber { block, word } => write!(
                f,
                "block {block}: expected a number from 0 to 4294967295, found {word}"
            ),
            NumbersFault::NoBlock { block } => {
                write!(f, "block {block}: no such block, but numbers for it")
            }
            NumbersFault::NoMemory => f.write_str("out of memory"),
        }
    }
}

impl Error for NumbersFault {}

/// Why there are no numbers of somebody's own for the operations of a file's blocks.
#[derive(Clone, Copy, Debug, Drop, PartialEq, Eq)]
pub enum PrioritiesFault {
    /// Their file was not read. Want of memory is never told here.
    Unread(FileFault),
    /// It is refused. Want of memory is never told here.
    Text(NumbersFault),
}

impl Display for PrioritiesFault {
    ghost use Rattle.std.specs.Prelude.{Some};
    ghost use Rattle.iloc_driver.specs.Fault.{priorities_text};

    ghost output = { λ fault. Some (priorities_text fault) };

    fn fmt<W: fmt::Write>(&self, f: &mut Formatter<W>) -> fmt::Result {
        match self {
            PrioritiesFault::Unread(fault) => write!(f, "priorities: {fault}"),
            PrioritiesFault::Text(fault) => write!(f, "priorities: {fault}"),
        }
    }
}

impl Error for PrioritiesFault {}

/// Why a run of a request failed.
#[derive(Clone, Copy, Debug, Drop, PartialEq, Eq)]
pub enum RunFault {
    /// A read failed.
    ReadFailed,
    /// The input is no file. Want of memory is never told here.
    Text(ReadFault),
    /// The input of a check is no blocks with rows. Want of memory is never told here.
    Rows(RowsFault),
    /// The task is none, or it could not be read.
    Task(TaskFault),
    /// There are no numbers that rank the operations, or they could not be read.
    Priorities(PrioritiesFault),
    /// The work failed, or memory was wanting, also while the input was read.
    Farm(FarmFault),
    /// A write or the flush failed.
    WriteFailed,
}

impl Display for RunFault {
    ghost use Rattle.std.specs.Prelude.{Some};
    ghost use Rattle.iloc_driver.specs.Fault.{run_text};

    ghost output = { λ fault. Some (run_text fault) };

    fn fmt<W: fmt::Write>(&self, f: &mut Formatter<W>) -> fmt::Result {
        match self {
            RunFault::ReadFailed => f.write_str("reading failed"),
            RunFault::Text(fault) => write!(f, "{fault}"),
            RunFault::Rows(fault) => write!(f, "{fault}"),
            RunFault::Task(fault) => write!(f, "{fault}"),
            RunFault::Priorities(fault) => write!(f, "{fault}"),
            RunFault::Farm(fault) => write!(f, "{fault}"),
            RunFault::WriteFailed => f.write_str("writing failed"),
        }
    }
}

impl Error for RunFault {}

/// The exit status of a program that ends with this fault.
///
/// Promise: 1 for a fault in the text, 3 where memory or a thread was refused, 4 where a device failed.
pub fn run_status(fault: &RunFault) -> u8
    ensures { result ≡ run_status_of fault.now }
{
    match fault {
        RunFault::Farm(_)
        | RunFault::Text(ReadFault::NoMemory)
        | RunFault::Rows(RowsFault::Read(ReadFault::NoMemory))
        | RunFault::Task(TaskFault::Text(RowsFault::Read(ReadFault::NoMemory)))
        | RunFault::Task(TaskFault::Unread(FileFault::NoMemory))
        | RunFault::Priorities(PrioritiesFault::Unread(FileFault::NoMemory))
        | RunFault::Priorities(PrioritiesFault::Text(NumbersFault::NoMemory)) => 3,
        RunFault::Task(TaskFault::Unread(_))
        | RunFault::Priorities(PrioritiesFault::Unread(_))
        | RunFault::ReadFailed
        | RunFault::WriteFailed => 4,
        RunFault::Text(_) | RunFault::Rows(_) | RunFault::Task(_) | RunFault::Priorities(_) => 1,
    }
}

impl From<InputFault> for RunFault {
    ghost use Rattle.iloc_driver.specs.Fault.{fault_of_input};

    ghost from_gives = { λ fault given. given ≡ fault_of_input fault };

    fn from(fault: InputFault) -> RunFault {
        match fault {
            InputFault::ReadFailed => RunFault::ReadFailed,
            InputFault::NoMemory => RunFault::Farm(FarmFault::NoMemory),
        }
    }
}

impl From<ReadFault> for RunFault {
    ghost use Rattle.iloc_driver.specs.Fault.{fault_of_text};

    ghost from_gives = { λ fault given. given ≡ fault_of_text fault };

    fn from(fault: ReadFault) -> RunFault {
        match fault {
            ReadFault::NoMemory => RunFault::Farm(FarmFault::NoMemory),
            fault => RunFault::Text(fault),
        }
    }
}

impl From<StreamFault> for RunFault {
    ghost use Rattle.iloc_driver.specs.Fault.{fault_of_stream};

    ghost from_gives = { λ fault given. given ≡ fault_of_stream fault };

    fn from(fault: StreamFault) -> RunFault {
        match fault {
            StreamFault::ReadFailed => RunFault::ReadFailed,
            StreamFault::Text(fault) => RunFault::from(fault),
        }
    }
}

impl From<RowsFault> for RunFault {
    ghost use Rattle.iloc_driver.specs.Fault.{fault_of_rows};

    ghost from_gives = { λ fault given. given ≡ fault_of_rows fault };

    fn from(fault: RowsFault) -> RunFault {
        match fault {
            RowsFault::Read(ReadFault::NoMemory) => RunFault::Farm(FarmFault::NoMemory),
            fault => RunFault::Rows(fault),
        }
    }
}

impl From<NumbersFault> for RunFault {
    ghost use Rattle.iloc_driver.specs.Fault.{fault_of_numbers};

    ghost from_gives = { λ fault given. given ≡ fault_of_numbers fault };

    fn from(fault: NumbersFault) -> RunFault {
        match fault {
            NumbersFault::NoMemory => RunFault::Farm(FarmFault::NoMemory),
            fault => RunFault::Priorities(PrioritiesFault::Text(fault)),
        }
    }
}

impl<T: Drop> From<AllocFailed<T>> for NumbersFault {
    ghost use Rattle.iloc_driver.specs.declared.fault.NumbersFault.TheVariants.{NoMemory as no_memory};

    ghost from_gives = { λ _ given. given ≡ no_memory };

    fn from(_: AllocFailed<T>) -> NumbersFault {
        NumbersFault::NoMemory
    }
}

impl From<NoMemory> for FarmFault {
    ghost use Rattle.iloc_driver.specs.declared.fault.FarmFault.TheVariants.{NoMemory as no_memory};

    ghost from_gives = { λ _ given. given ≡ no_memory };

    fn from(_: NoMemory) -> FarmFault {
        FarmFault::NoMemory
    }
}

impl From<iloc_board::NoMemory> for FarmFault {
    ghost use Rattle.iloc_driver.specs.declared.fault.FarmFault.TheVariants.{NoMemory as no_memory};

    ghost from_gives = { λ _ given. given ≡ no_memory };

    fn from(_: iloc_board::NoMemory) -> FarmFault {
        FarmFault::NoMemory
    }
}

impl From<AllocError> for FarmFault {
    ghost use Rattle.iloc_driver.specs.declared.fault.FarmFault.TheVariants.{NoMemory as no_memory};

    ghost from_gives = { λ _ given. given ≡ no_memory };

    fn from(_: AllocError) -> FarmFault {
        FarmFault::NoMemory
    }
}

impl<T: Drop> From<AllocFailed<T>> for FarmFault {
    ghost use Rattle.iloc_driver.specs.declared.fault.FarmFault.TheVariants.{NoMemory as no_memory};

    ghost from_gives = { λ _ given. given ≡ no_memory };

    fn from(_: AllocFailed<T>) -> FarmFault {
        FarmFault::NoMemory
    }
}

impl From<FarmFault> for RunFault {
    ghost use Rattle.iloc_driver.specs.declared.fault.RunFault.TheVariants.{Farm};

    ghost from_gives = { λ fault given. given ≡ Farm fault };

    fn from(fault: FarmFault) -> RunFault {
        RunFault::Farm(fault)
    }
}

impl From<NoMemory> for RunFault {
    ghost use Rattle.iloc_driver.specs.declared.fault.FarmFault.TheVariants.{NoMemory as no_memory};
    ghost use Rattle.iloc_driver.specs.declared.fault.RunFault.TheVariants.{Farm};

    ghost from_gives = { λ _ given. given ≡ Farm no_memory };

    fn from(_: NoMemory) -> RunFault {
        RunFault::Farm(FarmFault::NoMemory)
    }
}

impl From<WriteFailed> for RunFault {
    ghost use Rattle.iloc_driver.specs.declared.fault.RunFault.TheVariants.{WriteFailed as write_failed};

    ghost from_gives = { λ _ given. given ≡ write_failed };

    fn from(_: WriteFailed) -> RunFault {
        RunFault::WriteFailed
    }
}

//! Why a command line gives no request.
ghost use Rattle.std.specs.Prelude.{◌≡◌, IfOk};
ghost use Rattle.clap.specs.Words.{kind_of};
ghost use Rattle.iloc_args.specs.Fault.{excluded_text, status_of};
ghost use Rattle.iloc_args.specs.Steps.Refusing.{IsFaultBy};
ghost use Rattle.iloc_args.specs.declared.fault.LineFault.TheVariants.{NoMemory};

use crate::advice::advised;
use crate::priority::NO_SUCH_PRIORITY;
use clap::error::{Error as ClapError, ErrorKind};
use std::alloc::{AllocError, AllocFailed, Global};
use std::error::Error;
use std::fmt::{self, Display, Formatter};

/// Options that exclude each other.
#[derive(Clone, Copy, Debug, PartialEq, Eq)]
pub enum Exclusion {
    /// A listing as a table and one as JSON.
    CsvAndJson,
    /// A priority by its name, and priorities from a file.
    PriorityAndPriorities,
    /// Priorities from a file, and blocks from a file apart from their rows.
    PrioritiesAndTask,
    /// Only lawful schedules pass, which wait for each other by the book, and blocks are scheduled by address.
    LawfulAndDisambiguate,
    /// Rows that others made are traced, which ranks nothing, and a priority by its name.
    TaskAndPriority,
    /// Rows that others made are traced, or explained by the book, and blocks are scheduled by address.
    TaskAndDisambiguate,
    /// Rows that others made are explained, which lists no cycles, and cycles are listed.
    TaskAndCycles,
    /// Rows that others made are explained, which makes no table, and the listing is a table.
    TaskAndCsv,
    /// The listing is a table of operations, and cycles are listed.
    CsvAndCycles,
}

/// Why a command line gives no request. Its `Display` is the text for the user.
#[derive(Debug, Drop, PartialEq, Eq)]
pub enum LineFault {
    /// Help or the version was asked for: its text.
    Help(String),
    /// The words are no command line: what is wrong, and the usage.
    Refused(String),
    /// This start of the words is not a multiple of 4.
    BadStart(u32),
    /// The words reach beyond the end of memory.
    TooManyWords,
    /// The priority is the name of no heuristic.
    NoSuchPriority,
    /// Options are given that exclude each other.
    Excluded(Exclusion),
    /// The growth of a list or a text was refused.
    NoMemory,
}

impl Exclusion {
    /// What is said of it.
    fn text(self) -> &'static str
        ensures { result.now ≡ excluded_text self }
    {
        match self {
            Exclusion::CsvAndJson => "--csv and --json exclude each other",
            Exclusion::PriorityAndPriorities => "--priority and --priorities exclude each other",
            Exclusion::PrioritiesAndTask => "--priorities and --task exclude each other",
            Exclusion::LawfulAndDisambiguate => "--lawful and --disambiguate exclude each other",
            Exclusion::TaskAndPriority => "--task and --priority exclude each other",
            Exclusion::TaskAndDisambiguate => "--task and --disambiguate exclude each other",
            Exclusion::TaskAndCycles => "--task and --cycles exclude each other",
            Exclusion::TaskAndCsv => "--task and --csv exclude each other",
            Exclusion::CsvAndCycles => "--csv and --cycles exclude each other",
        }
    }
}

impl Display for LineFault {
    ghost use Rattle.std.specs.Prelude.{Some};
    ghost use Rattle.iloc_args.specs.Fault.{line_text};

    ghost output = { λ fault. Some (line_text fault) };

    fn fmt<W: fmt::Write>(&self, f: &mut Formatter<W>) -> fmt::Result {
        match self {
            LineFault::Help(text) | LineFault::Refused(text) => f.write_str(text.as_str()),
            LineFault::BadStart(_) => f.write_str("--at is not a multiple of 4"),
            LineFault::TooManyWords => f.write_str("the words do not fit into memory"),
            LineFault::NoSuchPriority => { f.write_str(NO_SUCH_PRIORITY) }
            LineFault::Excluded(exclusion) => f.write_str(exclusion.text()),
            LineFault::NoMemory => f.write_str("out of memory"),
        }
    }
}

impl Error for LineFault {}

impl LineFault {
    /// The fault for an error of the parser, with its text; the words begin with the name of this command.
    pub(crate) fn of_parser(
        alloc: Global,
        error: &ClapError,
        command: &str,
    ) -> Result<LineFault, AllocError>
        ensures { IfOk result (IsFaultBy (kind_of error.now)) }
    {
        Ok(match error.kind() {
            ErrorKind::OutOfMemory => LineFault::NoMemory,
            ErrorKind::DisplayHelp | ErrorKind::DisplayVersion => {
                LineFault::Help(error.to_string(alloc)?)
            }
            _ => LineFault::Refused(advised(alloc, error.to_string(alloc)?.as_str(), command)?),
        })
    }
}

impl From<AllocError> for LineFault {
    ghost from_gives = { λ _ fault. fault ≡ NoMemory };

    fn from(_: AllocError) -> LineFault {
        LineFault::NoMemory
    }
}

impl<T: Drop> From<AllocFailed<T>> for LineFault {
    ghost from_gives = { λ _ fault. fault ≡ NoMemory };

    fn from(_: AllocFailed<T>) -> LineFault {
        LineFault::NoMemory
    }
}

/// The exit status of the program: 0 where help or the version was asked for, 2 for a mistake in the words, 3 for
/// want of memory.
///
/// Promise: the status is 0 where help or the version was asked for, and else 2, or 3 if an allocation failed.
pub fn line_status(fault: &LineFault) -> u8
    ensures { result ≡ status_of fault.now }
{
    match fault {
        LineFault::Help(_) => 0,
        LineFault::Refused(_)
        | LineFault::BadStart(_)
        | LineFault::TooManyWords
        | LineFault::NoSuchPriority
        | LineFault::Excluded(_) => 2,
        LineFault::NoMemory => 3,
    }
}

//! Lines that are refused.
ghost use Rattle.std.specs.Prelude.{◌++◌, ◌≤◌, ◌<◌, ◌+◌, ◌^◌, OnOk, List, []};
ghost use Rattle.iloc_lint.specs.Faults.{Refusal};
ghost use Rattle.iloc_lint.specs.Refused.{AreKept};
ghost use Rattle.iloc_lint.specs.Steps.Noted.{refusals};

use iloc_ops::NoMemory;
use iloc_text::ReadFault;
use std::alloc::Global;

/// So many are listed.
pub const MOST_LISTED: usize = 1000;

/// A line that is refused, and why, with its number.
#[derive(Clone, Copy, Drop)]
pub struct Refused<'a> {
    /// Its text; empty where the whole text is too long.
    pub line: &'a [u8],
    /// Why it is refused.
    pub fault: ReadFault,
}

/// The lines that are refused.
#[derive(Drop)]
pub struct Refusals<'a> {
    /// The first 1,000 of them, in their order.
    pub first: Vec<Refused<'a>>,
    /// How many there are.
    pub count: usize,
}

impl<'a> Refusals<'a> {
    /// No line is refused.
    pub(crate) fn none(alloc: Global) -> Refusals<'a>
        ensures { AreKept [] result }
    {
        Refusals {
            first: Vec::new(alloc),
            count: 0,
        }
    }

    /// Adds one.
    pub(crate) fn add(&mut self, line: &'a [u8], fault: Option<ReadFault>) -> Result<(), NoMemory>
        requires { self.old.count < 2 ^ 63 }
        ensures kept { OnOk result ((before : List Refusal) → AreKept before self.old →
            AreKept (before ++ refusals line.entry.now fault) self.new) }
        ensures few { self.new.count ≤ self.old.count + 1 }
    {
        let Some(fault) = fault else { return Ok(()) };
        if self.count < MOST_LISTED {
            self.first.push(Refused { line, fault })?;
        }
        self.count += 1;
        Ok(())
    }
}

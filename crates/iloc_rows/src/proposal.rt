//! What is proposed for a block.
ghost use Rattle.std.specs.Prelude.{◌≡◌, ◌≤◌, ◌<◌, [], ◌∷◌, ◌++◌, List, length, vec_len, IfOk, OnOk, MatchOption};
ghost use Rattle.std.specs.Option.{option_copied};
ghost use Rattle.std.specs.List.{AllByRecursion};
ghost use Rattle.iloc_timed.specs.Rows.{IsTable};
ghost use Rattle.iloc_timed.specs.Schedule.{AreInRange, AreOnce, IsFirstBadRow};
ghost use Rattle.iloc_rows.specs.Proposing.{IsNumbered};

mod either_slot;
mod unread;

use either_slot::first_that_breaks;
use iloc_ops::{NoMemory, Op};
use iloc_timed::{MAX_ROWS, Row, Schedule};
use std::alloc::Global;
use std::marker::Model;
pub use unread::{LineText, Unread};

/// The rows that are proposed for a block, the first for cycle 0, no more than a schedule may have.
#[derive(Debug, Drop)]
pub struct Rows {
    items: Vec<Row>,
}

impl Model for Rows {
    ghost use Rattle.std.specs.Prelude.{◌≤◌, List, vec_len};
    ghost use Rattle.iloc_timed.specs.Limits.{MAX_ROWS};
    ghost use Rattle.iloc_timed.specs.declared.row.Row.{Row};

    ghost Value = { List Row };

    ghost view = { λ rows. rows.items.items };

    ghost invariant = { λ rows. vec_len rows.items ≤ MAX_ROWS };
}

impl Rows {
    /// No rows.
    pub(crate) fn none(alloc: Global) -> Rows
        ensures { result ≡ [] }
    {
        Rows {
            items: Vec::new(alloc),
        }
    }

    /// The rows, in order.
    pub(crate) fn as_slice(&self) -> &[Row]
        ensures rows { result.now ≡ self.now }
        ensures few { length self.now ≤ MAX_ROWS }
    {
        self.items.as_slice()
    }

    /// Adds a row at the end.
    pub(crate) fn push(&mut self, row: Row) -> Result<(), NoMemory>
        requires { length self.old < MAX_ROWS }
        ensures { OnOk result (self.new ≡ self.old ++ row ∷ []) }
    {
        self.items.push(row)?;
        Ok(())
    }
}

/// The operations of rows, in order.
#[derive(Debug, Drop)]
pub struct RowOps {
    items: Vec<Op>,
}

impl Model for RowOps {
    ghost use Rattle.std.specs.Prelude.{List};
    ghost use Rattle.iloc_ops.specs.declared.op.Op.{Op};

    ghost Value = { List Op };

    ghost view = { λ ops. ops.items.items };
}

impl RowOps {
    /// No operations.
    pub(crate) fn none(alloc: Global) -> RowOps
        ensures { result ≡ [] }
    {
        RowOps {
            items: Vec::new(alloc),
        }
    }

    /// The operations, in order.
    pub(crate) fn as_slice(&self) -> &[Op]
        ensures { result.now ≡ self.now }
    {
        self.items.as_slice()
    }

    /// Adds an operation at the end.
    pub(crate) fn push(&mut self, op: Op) -> Result<(), NoMemory>
        ensures { OnOk result (self.new ≡ self.old ++ op ∷ []) }
    {
        self.items.push(op)?;
        Ok(())
    }
}

/// What lines propose for a block, as far as they are read.
#[derive(Debug, Drop)]
pub struct Proposed {
    /// The operations, without the `nop`s, which are written for empty slots.
    pub ops: RowOps,
    /// The rows, with the numbers of the operations.
    pub rows: Rows,
    /// The last number of cycles that is claimed for the block.
    pub claimed: Option<u32>,
    /// The first line that can't be read.
    pub unread: Option<Unread>,
}

/// What is proposed for a block: the operations of its rows in order, in each row that on unit 0 first; the rows, with
/// each operation in its own slot; how many cycles are claimed, if any are; and the first line that can't be read, if there
/// is one. Such a line is there as a row without operations.
///
/// Promise: each number in a row is an operation's, and each operation is in exactly one slot.
#[derive(Debug, Drop)]
pub struct Proposal {
    proposed: Proposed,
}

impl Model for Proposal {
    ghost use Rattle.iloc_rows.specs.declared.proposal.Proposed.{Proposed};
    ghost use Rattle.iloc_rows.specs.Proposing.{IsNumbered};

    ghost Value = { Proposed };

    ghost view = { λ proposal. proposal.proposed };

    ghost invariant = { λ proposal. IsNumbered proposal.proposed };
}

impl Proposal {
    /// Promise: lends the operations, by their numbers.
    pub fn ops(&self) -> &[Op]
        ensures { result.now ≡ self.now.ops }
    {
        self.proposed.ops.as_slice()
    }

    /// Promise: lends the rows, in order, 4,000,000,000 at most. Each operation is in exactly one slot.
    pub fn rows(&self) -> &[Row]
        ensures rows { result.now ≡ self.now.rows }
        ensures few { length self.now.rows ≤ MAX_ROWS }
        ensures in_range { AreInRange (length self.now.ops) self.now.rows }
        ensures once { AreOnce (length self.now.ops) self.now.rows }
    {
        self.proposed.rows.as_slice()
    }

    /// Promise: the last number of cycles that is claimed for the block.
    pub fn claimed(&self) -> Option<u32>
        ensures { result ≡ self.now.claimed }
    {
        self.proposed.claimed
    }

    /// Promise: lends the first line that can't be read.
    pub fn unread(&self) -> Option<&Unread>
        ensures { option_copied result ≡ self.now.unread }
    {
        self.proposed.unread.as_ref()
    }

    /// Promise: the first row that breaks the rules of the units; without one the rows are a schedule.
    pub fn bad_row(&self) -> Option<usize>
        ensures { MatchOption result (IsTable self.now.ops self.now.rows) (IsFirstBadRow self.now.ops self.now.rows) }
    {
        first_that_breaks(self.ops(), self.rows())
    }

    /// Promise: the schedule of the operations in the rows of `self`, which keep the rules of the units.
    pub fn into_schedule(self) -> Schedule
        requires { IsTable self.ops self.rows }
        ensures ops { result.ops ≡ self.ops }
        ensures rows { result.rows ≡ self.rows }
    {
        let Proposed { ops, rows, .. } = self.proposed;
        Schedule::of_table(ops.items, rows.items)
    }
}

/// What is proposed for the blocks of a file, in their order.
#[derive(Debug, Drop)]
pub struct Proposals {
    items: Vec<Proposal>,
}

impl Model for Proposals {
    ghost use Rattle.std.specs.Prelude.{List};
    ghost use Rattle.iloc_rows.specs.declared.proposal.Proposed.{Proposed};

    ghost Value = { List Proposed };

    ghost view = { λ proposals. proposals.items.items };
}

impl Proposals {
    /// What was read for each block.
    pub(crate) fn of(alloc: Global, read: Vec<Proposed>) -> Result<Proposals, NoMemory>
        requires { AllByRecursion IsNumbered read.items }
        ensures { IfOk result (λ proposals. proposals ≡ read.items) }
    {
        let mut items = Vec::with_capacity(alloc, read.len())?;
        for proposed in read {
            items.push(Proposal { proposed })?;
        }
        Ok(Proposals { items })
    }

    /// Promise: lends the proposals, in order.
    pub fn as_slice(&self) -> &[Proposal]
        ensures { result.now ≡ self.now }
    {
        self.items.as_slice()
    }

    /// Promise: gives the proposals back, in order.
    pub fn into_vec(self) -> Vec<Proposal>
        ensures { result.items ≡ self }
    {
        self.items
    }
}

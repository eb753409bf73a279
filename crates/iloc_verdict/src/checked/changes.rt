//! Which operations rows leave out or add.
ghost use Rattle.std.specs.Prelude.{◌≡◌, ◌<◌, ◌==◌, length, IfOk, option_to_list};
ghost use Rattle.std.specs.List.{list_any};
ghost use Rattle.iloc_timed.specs.Rows.{holds, issue_cycle};
ghost use Rattle.iloc_rules.specs.Renaming.{without_nops as ops_of};
ghost use Rattle.iloc_facts.specs.Lawfulness.{AreAdded, AreLeftOut, issue_of};
ghost use Rattle.iloc_verdict.specs.Changes.{AreChanges};

use iloc_facts::{Added, Issue, LeftOut, without_counterpart, without_nops};
use iloc_ops::{Block, NoMemory, Op};
use iloc_timed::Row;
use std::alloc::Global;

/// Which operations of their block rows leave out, and which they add.
#[derive(Clone, Copy, Debug, PartialEq, Eq)]
pub struct Changes {
    /// The operations of the block that have no counterpart.
    pub left_out: Option<LeftOut>,
    /// The operations of the rows that have none.
    pub added: Option<Added>,
}

/// Whether this operation is in the slot.
fn is_in(slot: Option<usize>, number: usize) -> bool
    ensures { result ≡ list_any (λ j. number == j) (option_to_list slot) }
{
    match slot {
        Some(other) => number == other,
        None => false,
    }
}

/// Whether this operation is in the row.
fn holds(row: &Row, number: usize) -> bool
    ensures { result ≡ holds row.now number }
{
    is_in(row.one, number) || is_in(row.zero, number)
}

/// The cycle of the first row that has this operation.
#[tactic(auto, using(crate::proofs::IssueCycles::issued_next, crate::proofs::IssueCycles::issued_later))]
fn issue_cycle(rows: &[Row], number: usize) -> usize
    ensures { result ≡ issue_cycle rows.now number }
{
    for (cycle, row) in rows.iter().enumerate() {
        if holds(row, number) {
            return cycle;
        }
    }
    rows.len()
}

/// This operation of rows, with its cycle.
fn issued(ops: &[Op], rows: &[Row], number: usize) -> Issue
    requires { number < length ops.now }
    ensures { result ≡ issue_of ops.now rows.now number }
{
    Issue {
        cycle: issue_cycle(rows, number),
        op: ops[number],
    }
}

/// The operations of a block without `nop`s that have no counterpart in rows.
fn left_out(alloc: Global, block: &[Op], ops: &[Op]) -> Result<Option<LeftOut>, NoMemory>
    ensures { IfOk result (AreLeftOut block.now ops.now) }
{
    match without_counterpart(alloc, block, ops, None)? {
        Some(it) => Ok(Some(LeftOut {
            count: it.count,
            op: block[it.number],
        })),
        None => Ok(None),
    }
}

/// The operations of rows that have no counterpart in a block without `nop`s.
fn added(alloc: Global, block: &[Op], ops: &[Op], rows: &[Row]) -> Result<Option<Added>, NoMemory>
    ensures { IfOk result (AreAdded block.now ops.now rows.now) }
{
    match without_counterpart(alloc, ops, block, None)? {
        Some(it) => Ok(Some(Added {
            count: it.count,
            issue: issued(ops, rows, it.number),
        })),
        None => Ok(None),
    }
}

/// Which operations of a block rows leave out, and which they add.
pub fn changes_of(
    alloc: Global,
    block: &Block,
    ops: &[Op],
    rows: &[Row],
) -> Result<Changes, NoMemory>
    ensures { IfOk result (AreChanges (ops_of block.now.ops) ops.now rows.now) }
{
    let block = without_nops(alloc, block)?;
    Ok(Changes {
        left_out: left_out(alloc, &block, ops)?,
        added: added(alloc, &block, ops, rows)?,
    })
}

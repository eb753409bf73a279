//! Rows by the book in a block's own numbers.
ghost use Rattle.std.specs.Prelude.{◌≡◌, map, option_map, slice_index, IfOk};
ghost use Rattle.iloc_meaning.specs.Trace.{op_at};
ghost use Rattle.iloc_timed.specs.declared.latencies.Latencies.{Latencies as Table};
ghost use Rattle.iloc_rules.specs.Renaming.{renamed, without_nops};
ghost use Rattle.iloc_validation.specs.Decision.{IsScheduleBy};
ghost use Rattle.iloc_validation.specs.OwnRows.{renumber, AreOwnRows};

use crate::numbers::at;
use crate::pairing::Pairing;
use iloc_ops::{Block, NoMemory, Op};
use iloc_timed::{Row, Schedule};
use std::alloc::Global;

/// Rows by the book in a block's own numbers.
#[derive(Debug, Drop)]
pub struct OwnRows {
    /// The block's operations, renamed, in the slots of what is issued for them.
    pub schedule: Schedule,
    /// By operation what is issued for it.
    pub issued: Vec<Op>,
}

/// A slot in which each number is another.
fn renumbered_slot(numbers: &[usize], slot: Option<usize>) -> Option<usize>
    ensures { result ≡ option_map (slice_index numbers.now) slot }
{
    match slot {
        Some(k) => Some(at(numbers, k)),
        None => None,
    }
}

/// Rows in which each number is another.
fn renumbered_rows(alloc: Global, numbers: &[usize], rows: &[Row]) -> Result<Vec<Row>, NoMemory>
    ensures { IfOk result (λ own. own.items ≡ map (renumber (slice_index numbers.now)) rows.now) }
{
    let mut own = Vec::with_capacity(alloc, rows.len())?;
    for row in rows {
        own.push(Row {
            zero: renumbered_slot(numbers, row.zero),
            one: renumbered_slot(numbers, row.one),
        })?;
    }
    Ok(own)
}

/// The operations of `ops` with `numbers`.
fn ops_with(alloc: Global, ops: &[Op], numbers: &[usize]) -> Result<Vec<Op>, NoMemory>
    ensures { IfOk result (λ found. found.items ≡ map (op_at ops.now) numbers.now) }
{
    let mut found = Vec::with_capacity(alloc, numbers.len())?;
    for number in numbers {
        found.push(ops.get(*number).copied().unwrap_or(Op::Nop))?;
    }
    Ok(found)
}

/// Rows that somebody made for a block, in the block's own numbers, under a pairing that makes them a schedule of it
/// (`decide`). `names` are the block's operations as a schedule of ours renames them.
///
/// Promise: the block's operations stand, renamed, in the slots of those that are issued for them.
pub fn own_rows(
    alloc: Global,
    block: &Block,
    theirs: &Schedule,
    names: &[Op],
    pairing: &Pairing,
) -> Result<OwnRows, NoMemory>
    requires names { names.now ≡ renamed block.now.ops }
    requires right { (lat : Table) × IsScheduleBy lat (without_nops block.now.ops) theirs.now.ops theirs.now.rows pairing.now }
    ensures { IfOk result (λ own. (lat : Table)
        → IsScheduleBy lat (without_nops block.now.ops) theirs.now.ops theirs.now.rows pairing.now
        → AreOwnRows lat block.now.ops theirs.now.ops theirs.now.rows own.schedule own.issued.items) }
{
    let issued = ops_with(alloc, theirs.ops(), &pairing.partner)?;
    let rows = renumbered_rows(alloc, &pairing.origin, theirs.rows())?;
    let ops = Vec::from_slice(alloc, names)?;
    Ok(OwnRows {
        schedule: Schedule::of_table(ops, rows),
        issued,
    })
}

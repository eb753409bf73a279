//! Rows that issue what a schedule of ours does.
ghost use Rattle.std.specs.Prelude.{◌≡◌, ◌<◌, ◌↔◌, ℕ, List, length, option_map, slice_index, unwrap_or, IfOk, IfSome, IsTrue, OnOk};
ghost use Rattle.iloc_ops.specs.declared.op.Op.{Op as Operation};
ghost use Rattle.iloc_meaning.specs.Trace.{op_at};
ghost use Rattle.iloc_timed.specs.declared.latencies.Latencies.{Latencies};
ghost use Rattle.iloc_timed.specs.Rows.{row_at, IsTable};
ghost use Rattle.iloc_rules.specs.Lawful.{IsLawful};
ghost use Rattle.iloc_rules.specs.Renaming.{without_nops};
ghost use Rattle.iloc_validation.specs.ByTheBook.{IssueTheSame, issued_in};
ghost use Rattle.iloc_validation.specs.Decision.{IsScheduleBy};
ghost use Rattle.iloc_validation.specs.Steps.Numbers.{number_in, with_number};

use crate::pairing::Pairing;
use iloc_ops::{NoMemory, Op};
use iloc_timed::{Row, Schedule};
use std::alloc::Global;

/// The operation in a slot.
fn issued(ops: &[Op], slot: Option<usize>) -> Option<Op>
    ensures { result ≡ option_map (op_at ops.now) slot }
{
    slot.map(|k| ops.get(k).copied().unwrap_or(Op::Nop))
}

/// Whether two rows issue the same operations on the same units.
fn are_alike(ops: &[Op], row: Row, others: &[Op], other: Row) -> bool
    ensures { IsTrue result ↔ (issued_in ops.now row ≡ issued_in others.now other) }
{
    issued(ops, row.zero) == issued(others, other.zero)
        && issued(ops, row.one) == issued(others, other.one)
}

/// Whether two schedules issue the same cycle by cycle, whatever the numbers of their operations are.
pub(crate) fn issue_the_same(ours: &Schedule, theirs: &Schedule) -> bool
    ensures { IsTrue result ↔ IssueTheSame ours.now.ops ours.now.rows theirs.now.ops theirs.now.rows }
{
    if ours.rows().len() != theirs.rows().len() {
        return false;
    }
    for c in 0..theirs.rows().len() {
        if !are_alike(ours.ops(), ours.rows()[c], theirs.ops(), theirs.rows()[c]) {
            return false;
        }
    }
    true
}

/// Notes at the place of what stands in one slot what stands in the other.
fn note(numbers: &mut Vec<usize>, slot: Option<usize>, other: Option<usize>)
    requires known { IfSome slot (λ k. k < length numbers.old.items) }
    ensures { numbers.new.items ≡ with_number numbers.old.items slot (unwrap_or other 0) }
{
    if let Some(k) = slot {
        numbers[k] = other.unwrap_or(0);
    }
}

/// The row of a cycle, an empty one after the last.
fn row_at(rows: &[Row], cycle: usize) -> Row
    ensures { result ≡ row_at rows.now cycle }
{
    let none = Row {
        zero: None,
        one: None,
    };
    rows.get(cycle).copied().unwrap_or(none)
}

/// By operation of a schedule the number that it has in another, which issues the same.
fn numbers_in(alloc: Global, others: &Schedule, schedule: &Schedule) -> Result<Vec<usize>, NoMemory>
    ensures table { OnOk result (IsTable schedule.now.ops schedule.now.rows) }
    ensures size { IfOk result (λ numbers. length numbers.items ≡ length schedule.now.ops) }
    ensures each { IfOk result (λ numbers. IssueTheSame others.now.ops others.now.rows schedule.now.ops schedule.now.rows
        → (k : ℕ) → k < length schedule.now.ops
        → slice_index numbers.items k ≡ number_in others.now.rows schedule.now.rows k) }
{
    let mut numbers = vec![in alloc; 0; schedule.ops().len()]?;
    for (c, row) in schedule.rows().iter().enumerate() {
        let other = row_at(others.rows(), c);
        note(&mut numbers, row.zero, other.zero);
        note(&mut numbers, row.one, other.one);
    }
    Ok(numbers)
}

/// The pairing of rows with a lawful schedule of ours that issues the same: by unit and cycle.
pub(crate) fn paired_by_slot(
    alloc: Global,
    ours: &Schedule,
    theirs: &Schedule,
) -> Result<Pairing, NoMemory>
    ensures { IfOk result (λ pairing. (lat : Latencies) (block : List Operation) → IsLawful lat block ours.now.ops ours.now.rows
        → IssueTheSame ours.now.ops ours.now.rows theirs.now.ops theirs.now.rows
        → IsScheduleBy lat (without_nops block) theirs.now.ops theirs.now.rows pairing) }
{
    Ok(Pairing {
        origin: numbers_in(alloc, ours, theirs)?,
        partner: numbers_in(alloc, theirs, ours)?,
    })
}

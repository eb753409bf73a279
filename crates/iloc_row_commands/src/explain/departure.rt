//! Where the rows that are proposed for a block leave the greedy choice.
ghost use Rattle.std.specs.Prelude.{ℕ, ◌≡◌, ◌++◌, not, List, length, find, option_map, option_to_list, OnOk};
ghost use Rattle.std.specs.List.{list_all, range_with_len};
ghost use Rattle.iloc_ops.specs.declared.op.Op.{Op as op_value};
ghost use Rattle.iloc_timed.specs.declared.latencies.Latencies.{Latencies as latencies_value};
ghost use Rattle.iloc_timed.specs.Rows.{holds, row_at as row_of_cycle};
ghost use Rattle.iloc_rules.specs.Greedy.{IsGreedyBy};
ghost use Rattle.iloc_row_commands.specs.Explain.Departure as listed;

use Piece::{Number, Operation, Text};
use iloc_ops::{NoMemory, Op};
use iloc_pieces::{Piece, push_all};
use iloc_timed::{Row, Schedule};

/// A row that takes something else than the greedy choice would.
#[derive(Clone, Copy, Debug, PartialEq, Eq)]
pub(crate) struct Departure {
    /// Its number.
    pub(crate) row: usize,
    /// What the choice would take there, from what is ready in these rows.
    pub(crate) choice: Row,
}

/// The row of a cycle, an empty one after the last.
fn row_at(rows: &[Row], cycle: usize) -> Row
    ensures { result ≡ row_of_cycle rows.now cycle }
{
    rows.get(cycle).copied().unwrap_or_default()
}

/// Whether a row takes what is in a slot of another.
fn takes(row: Row, slot: Option<usize>) -> bool
    ensures { result ≡ list_all (holds row) (option_to_list slot) }
{
    slot.is_none_or(|i| row.zero == Some(i) || row.one == Some(i))
}

/// Whether two rows take the same operations, on either unit.
fn take_the_same(row: Row, other: Row) -> bool
    ensures { result ≡ listed.take_the_same row other }
{
    takes(other, row.one)
        && takes(other, row.zero)
        && takes(row, other.one)
        && takes(row, other.zero)
}

/// The first of `rows` that takes something else than `others` do in its cycle.
fn first_unlike(rows: &[Row], others: &[Row]) -> Option<usize>
    ensures { result ≡ find (λ c. not (listed.take_the_same (row_of_cycle rows.now c) (row_of_cycle others.now c)))
        (range_with_len 0 (length rows.now)) }
{
    (0..rows.len()).find(|row| !take_the_same(row_at(rows, *row), row_at(others, *row)))
}

/// That row, with what the others do in its cycle as the choice.
fn departure_from(rows: &[Row], others: &[Row]) -> Option<Departure>
    ensures { result ≡ option_map (λ c. record { row = c; choice = row_of_cycle others.now c })
        (find (λ c. not (listed.take_the_same (row_of_cycle rows.now c) (row_of_cycle others.now c)))
        (range_with_len 0 (length rows.now))) }
{
    first_unlike(rows, others).map(|row| Departure {
        row,
        choice: row_at(others, row),
    })
}

/// The first row of a schedule that takes something else than the greedy choice would, on either unit, and what the choice would
/// take there. `ours` is the greedy schedule of the same operations: up to that row both take the same, so the same is ready, and
/// what our row takes is the choice.
///
/// Promise: Each row before it takes what the choice would from what is ready in these rows; where there is none, every row does.
pub(crate) fn departure_of(theirs: &Schedule, ours: &Schedule) -> Option<Departure>
    requires { theirs.now.ops ≡ ours.now.ops }
    ensures { (prios : List ℕ) (lat : latencies_value) (block : List op_value)
        → IsGreedyBy prios lat block ours.now.ops ours.now.rows
        → result ≡ listed.departure prios lat theirs.now.ops theirs.now.rows }
{
    let (rows, others) = (theirs.rows(), ours.rows());
    departure_from(rows, others)
}

/// Appends the number of an operation and what is issued for it, `nop` for none.
fn push_taken(text: &mut Vec<u8>, issued: &[Op], slot: Option<usize>) -> Result<(), NoMemory>
    ensures { OnOk result (text.new.items ≡ text.old.items ++ listed.taken_text issued.now slot) }
{
    let Some(j) = slot else {
        return Ok(text.extend_from_slice(b"nop")?);
    };
    let op = Operation(issued.get(j).copied().unwrap_or(Op::Nop));
    push_all(text, &[Number(j as u64), Text(" "), op])
}

/// Appends the line of a departure, if there is one, with what is issued for each operation.
pub(crate) fn push_departure(
    text: &mut Vec<u8>,
    departure: Option<Departure>,
    issued: &[Op],
) -> Result<(), NoMemory>
    ensures { OnOk result (text.new.items ≡ text.old.items ++ listed.departure_line issued.now departure) }
{
    let Some(Departure { row, choice }) = departure else {
        return Ok(());
    };
    let row = Number(row as u64);
    push_all(text, &[Text("row "), row, Text(": the choice would take ")])?;
    push_taken(text, issued, choice.zero)?;
    text.extend_from_slice(b" ; ")?;
    push_taken(text, issued, choice.one)?;
    Ok(text.extend_from_slice(b"\n")?)
}

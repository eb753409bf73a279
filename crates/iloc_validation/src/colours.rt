//! Colours of operations that every pairing keeps. Where the colours of both sides add up to different sums, no pairing
//! makes the rows a schedule of the block.
ghost use Rattle.std.specs.Prelude.{◌≡◌, ◌<◌, ◌↔◌, ◌%◌, ◌^◌, ℕ, length, slice_index, sum_by, IsTrue, IfOk};
ghost use Rattle.iloc_validation.specs.Steps.Colours.{mixed, ArePassed, AreColoured};

mod issue_order;
pub mod mixing;
mod passes;

use crate::colours::issue_order::IssueOrder;
use crate::colours::mixing::total;
use crate::colours::passes::{backwards, forwards};
use iloc_facts::{Sides, Sources};
use iloc_ops::NoMemory;
use std::alloc::Global;

/// How many times colours are passed forwards and backwards.
const ROUNDS: usize = 4;

/// Colours of the operations of a block and of rows.
#[derive(Drop)]
pub(crate) struct Coloured {
    /// By operation of the block.
    pub here: Vec<u64>,
    /// By operation of the rows.
    pub there: Vec<u64>,
}

/// Whether the colours of both sides add up to one sum.
fn have_one_sum(colours: &Coloured) -> bool
    ensures { IsTrue result ↔ (sum_by (λ c. mixed c 1) colours.now.here.items % 2 ^ 64
        ≡ sum_by (λ c. mixed c 1) colours.now.there.items % 2 ^ 64) }
{
    total(&colours.here) == total(&colours.there)
}

/// The colours after one pass forwards and one backwards, or none, where the sums of both sides differ.
fn passed(
    alloc: Global,
    block: &[Sources],
    rows: &[Sources],
    colours: &Coloured,
) -> Result<Option<Coloured>, NoMemory>
    requires here { length colours.now.here.items ≡ length block.now }
    requires there { length colours.now.there.items ≡ length rows.now }
    ensures { IfOk result (ArePassed block.now rows.now colours.now) }
{
    let read = Coloured {
        here: forwards(alloc, block, &colours.here)?,
        there: forwards(alloc, rows, &colours.there)?,
    };
    if !have_one_sum(&read) {
        return Ok(None);
    }
    let heard = Coloured {
        here: backwards(alloc, block, &read.here)?,
        there: backwards(alloc, rows, &read.there)?,
    };
    if have_one_sum(&heard) {
        Ok(Some(heard))
    } else {
        Ok(None)
    }
}

/// The colours after all passes, or none, where the sums of both sides differ.
fn all_passed(
    alloc: Global,
    block: &[Sources],
    rows: &[Sources],
    colours: Coloured,
) -> Result<Option<Coloured>, NoMemory>
    requires here { length colours.here.items ≡ length block.now }
    requires there { length colours.there.items ≡ length rows.now }
    ensures { IfOk result (ArePassed block.now rows.now colours) }
{
    if !have_one_sum(&colours) {
        return Ok(None);
    }
    let mut last = colours;
    for _ in 0..ROUNDS {
        match passed(alloc, block, rows, &last)? {
            Some(next) => last = next,
            None => return Ok(None),
        }
    }
    Ok(Some(last))
}

/// The colours in another order: for each number that of this number.
fn by_number(alloc: Global, colours: &[u64], numbers: &[usize]) -> Result<Vec<u64>, NoMemory>
    ensures size { IfOk result (λ own. length own.items ≡ length numbers.now) }
    ensures each { IfOk result (λ own. (p : ℕ) → p < length numbers.now
        → slice_index own.items p ≡ slice_index colours.now (slice_index numbers.now p)) }
{
    let mut own = Vec::with_capacity(alloc, numbers.len())?;
    for number in numbers {
        own.push(colours.get(*number).copied().unwrap_or(0))?;
    }
    Ok(own)
}

/// Refines the colours `here` and `there`: each pairing that keeps them keeps the result. A colour is mixed with the
/// ones of what the operation reads, and of what reads it; a pass reaches through all of it at once. None, where the
/// colours show that no pairing keeps them.
pub(crate) fn kept_colours(
    alloc: Global,
    sides: &Sides,
    here: Vec<u64>,
    there: Vec<u64>,
) -> Result<Option<Coloured>, NoMemory>
    requires here { length here.items ≡ length sides.now.block.items }
    requires there { length there.items ≡ length sides.now.schedule.now.ops }
    ensures { IfOk result (AreColoured sides.now here.items there.items) }
{
    let Some(order) = IssueOrder::of(alloc, sides.schedule.rows(), &sides.readings)? else {
        return Ok(Some(Coloured { here, there }));
    };
    let start = Coloured {
        here,
        there: by_number(alloc, &there, &order.ops)?,
    };
    match all_passed(alloc, &sides.givens, &order.sources, start)? {
        Some(last) => Ok(Some(Coloured {
            there: by_number(alloc, &last.there, &order.places)?,
            here: last.here,
        })),
        None => Ok(None),
    }
}

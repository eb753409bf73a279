//! Whether rows that somebody made are a schedule of a block by the book.
ghost use Rattle.std.specs.Prelude.{◌≡◌, true, length, IfNone, IfOk, IfSome};
ghost use Rattle.iloc_rules.specs.Lawful.{IsLawful};
ghost use Rattle.iloc_validation.specs.ByTheBook.{IssueTheSame};
ghost use Rattle.iloc_validation.specs.Decision.{IsDecision, IsFoundLawful};
ghost use Rattle.iloc_validation.specs.Steps.Decisions.{IsDecisionOf, IsExcluded, IsPairing};
ghost use Rattle.iloc_validation.specs.Steps.Pairing.{IsUnder};

pub mod first_colours;
mod ours;
mod partners;
mod under_way;

use self::first_colours::coloured;
use self::ours::{issue_the_same, paired_by_slot};
use self::partners::{Budget, searched};
use self::under_way::is_under_way;
use crate::pairing::Pairing;
use crate::verification::is_schedule_under;
use iloc_facts::{Sides, has_operations};
use iloc_ops::{Block, NoMemory};
use iloc_timed::{Latencies, Schedule};
use std::alloc::Global;

/// What is decided of rows that somebody made for a block.
#[derive(Debug, Drop)]
pub enum Decision {
    /// They are a schedule of the block by the book, under this pairing.
    Lawful(Pairing),
    /// They aren't, under any pairing.
    Unlawful,
    /// Neither is known; nothing is left out or added.
    Undecided,
}

/// The pairing of each operation with the one of its number, where rows are a schedule of a block by the book under it.
pub(crate) fn in_order(alloc: Global, sides: &Sides) -> Result<Option<Pairing>, NoMemory>
    ensures right { IfOk result (λ found. IfSome found (IsPairing sides.now)) }
    ensures own { IfOk result (λ found. IsUnder sides.now (λ k. k) (λ i. i)
        → length sides.now.schedule.now.ops ≡ length sides.now.block.items → IfNone found ⊥) }
{
    if sides.block.len() != sides.readings.len() {
        return Ok(None);
    }
    let pairing = Pairing::in_order(alloc, sides.block.len())?;
    if is_schedule_under(alloc, sides, &pairing)? {
        Ok(Some(pairing))
    } else {
        Ok(None)
    }
}

/// Whether rows have another number of operations than a block, or issue one while a store is under way for which it has to
/// wait: then no pairing makes them a schedule of it.
fn is_excluded(sides: &Sides) -> bool
    ensures { result ≡ true → IsExcluded sides.now }
{
    if sides.block.len() != sides.readings.len() {
        return true;
    }
    is_under_way(sides.schedule, sides.latencies)
}

/// What is decided of rows under other pairings than that by number.
fn decided(alloc: Global, sides: &Sides, blocks: usize) -> Result<Decision, NoMemory>
    ensures { IfOk result (IsDecisionOf sides.now) }
{
    if is_excluded(sides) {
        return Ok(Decision::Unlawful);
    }
    let colours = match coloured(alloc, sides)? {
        Some(colours) => colours,
        None => return Ok(Decision::Unlawful),
    };
    let budget = Budget::on_one_of(blocks, sides.block.len());
    let decision = searched(alloc, sides, &colours, budget)?;
    if let Decision::Undecided = decision {
        return if has_operations(alloc, &sides.block, sides.schedule.ops())? {
            Ok(Decision::Undecided)
        } else {
            Ok(Decision::Unlawful)
        };
    }
    Ok(decision)
}

/// Decides whether rows that somebody made are a schedule of a block by the book: whether their operations can be paired
/// with the block's, one to one and whatever registers they name, so that each reads the results that it reads in the
/// block and waits for what memory and outputs make it wait for (Cooper and Torczon, Engineering a Compiler, chapter on
/// instruction scheduling). `ours` is a schedule of ours for the block.
///
/// Promise: rows that are found to be lawful are a schedule of the block by the book, under the pairing that is handed out;
/// those that are found to be unlawful are none, under any pairing. What a schedule of ours issues is found to be lawful,
/// whatever numbers its operations have. Rows that leave operations out or add some are never left undecided.
///
/// Of some rows neither is found: where operations are alike in so many ways that the search gives up, and counting doesn't
/// exclude each way to pair three of them. `blocks` is how many are decided in all: the more, the sooner each search gives up.
pub fn decide(
    alloc: Global,
    block: &Block,
    ours: &Schedule,
    theirs: &Schedule,
    latencies: &Latencies,
    blocks: usize,
) -> Result<Decision, NoMemory>
    requires lawful { IsLawful latencies.now block.now.ops ours.now.ops ours.now.rows }
    ensures right { IfOk result (IsDecision latencies.now block.now.ops theirs.now.ops theirs.now.rows) }
    ensures own { IfOk result (λ decision. IssueTheSame ours.now.ops ours.now.rows theirs.now.ops theirs.now.rows
        → IsFoundLawful decision) }
    ensures lawful { IfOk result (λ decision. IsLawful latencies.now block.now.ops theirs.now.ops theirs.now.rows
        → IsFoundLawful decision) }
{
    if issue_the_same(ours, theirs) {
        return Ok(Decision::Lawful(paired_by_slot(alloc, ours, theirs)?));
    }
    let sides = Sides::of(alloc, block, theirs, latencies)?;
    match in_order(alloc, &sides)? {
        Some(pairing) => Ok(Decision::Lawful(pairing)),
        None => decided(alloc, &sides, blocks),
    }
}

//! The search for a pairing that keeps colours, and where it finds an operation no partner, for one with each that it may have.
ghost use Rattle.std.specs.Prelude.{◌≡◌, ◌<◌, length, IfOk};
ghost use Rattle.iloc_validation.specs.Steps.Colours.{marked, IsPairColoured};
ghost use Rattle.iloc_validation.specs.Steps.Decisions.{IsDecisionAmong, IsFoundDecision};

use super::Decision;
use crate::backtracking::{Found, found_pairing};
use crate::colours::mixing::START;
use crate::colours::{Coloured, kept_colours};
use crate::pairing::Pairing;
use crate::verification::is_schedule_under;
use iloc_facts::Sides;
use iloc_ops::NoMemory;
use std::alloc::Global;

/// How many steps a search takes for each operation before it gives up. Blocks that aren't made to slow it take about 10.
const STEPS: usize = 1000;

/// How many it takes at least, and where two operations have a colour of their own.
const FEW_STEPS: usize = 50;

/// How many steps the searches for all blocks together take, if that leaves them enough: some 0.4 s.
const ALL_STEPS: usize = 10_000_000;

/// How many operations are paired one after another, where a search gives up or ends.
const DEPTH: usize = 3;

/// How many partners are tried then, times the operations that are coloured anew for each.
const WORK: usize = 1_000_000;

/// The same for all blocks together.
const ALL_WORK: usize = 10_000_000;

/// Colours in which an operation has the colour of none but by chance.
fn marked(alloc: Global, colours: &[u64], place: usize) -> Result<Vec<u64>, NoMemory>
    requires { place < length colours.now }
    ensures { IfOk result (λ new. new.items ≡ marked colours.now place) }
{
    let mut new = Vec::from_slice(alloc, colours)?;
    new[place] = START;
    Ok(new)
}

/// Colours kept by each pairing that keeps `colours` and pairs operation `i` of the block with operation `k` of the
/// rows. None, where the two have different colours, or passes show that there is no such pairing.
fn paired_colours(
    alloc: Global,
    sides: &Sides,
    colours: &Coloured,
    i: usize,
    k: usize,
) -> Result<Option<Coloured>, NoMemory>
    requires here { length colours.now.here.items ≡ length sides.now.block.items }
    requires there { length colours.now.there.items ≡ length sides.now.schedule.now.ops }
    requires within { i < length colours.now.here.items }
    requires within_too { k < length colours.now.there.items }
    ensures { IfOk result (IsPairColoured sides.now colours.now.here.items colours.now.there.items i k) }
{
    if colours.there[k] != colours.here[i] {
        return Ok(None);
    }
    let here = marked(alloc, &colours.here, i)?;
    let there = marked(alloc, &colours.there, k)?;
    kept_colours(alloc, sides, here, there)
}

/// What is decided by a pairing that was found: nothing, if the rows are no schedule of the block under it.
fn verified(alloc: Global, sides: &Sides, found: Pairing) -> Result<Decision, NoMemory>
    requires origins { length found.origin.items ≡ length sides.now.schedule.now.ops }
    requires partners { length found.partner.items ≡ length sides.now.block.items }
    ensures { IfOk result (IsFoundDecision sides.now) }
{
    if is_schedule_under(alloc, sides, &found)? {
        Ok(Decision::Lawful(found))
    } else {
        Ok(Decision::Undecided)
    }
}

/// How much a search may cost.
#[derive(Clone, Copy)]
pub(crate) struct Budget {
    /// How many operations are paired one after another, each with all that may be its partner.
    pub depth: usize,
    /// How many partners are tried in all.
    pub tries: usize,
    /// How many steps each search takes for each operation.
    pub steps: usize,
}

impl Budget {
    /// The budget of one of `blocks` blocks that has `operations` operations: the more of both, the less for an
    /// operation. It depends on nothing else, so it is the same in whatever order blocks are judged.
    pub(crate) fn on_one_of(blocks: usize, operations: usize) -> Budget {
        let all = blocks.saturating_mul(operations).max(1);
        Budget {
            depth: DEPTH,
            tries: (ALL_WORK / all).min(WORK / operations.max(1)),
            steps: (ALL_STEPS / all).max(FEW_STEPS).min(STEPS),
        }
    }
}

/// What is left of a budget for each of the operations that have a colour: no try, if they are too many.
fn left(budget: Budget, colours: &[u64], colour: u64) -> Budget
    ensures { result.depth ≡ budget.depth }
{
    let count = colours.iter().filter(|other| **other == colour).count();
    Budget {
        tries: budget.tries.checked_div(count).unwrap_or(budget.tries),
        steps: FEW_STEPS,
        ..budget
    }
}

/// What is decided of the pairings that keep `colours`. Where a search finds none, the operation at which it ended is
/// paired in turn with each of its colour, and the two have a colour of their own from then on.
pub(crate) fn searched(
    alloc: Global,
    sides: &Sides,
    colours: &Coloured,
    budget: Budget,
) -> Result<Decision, NoMemory>
    requires here { length colours.now.here.items ≡ length sides.now.block.items }
    requires there { length colours.now.there.items ≡ length sides.now.schedule.now.ops }
    ensures { IfOk result (IsDecisionAmong sides.now colours.now.here.items colours.now.there.items) }
{
    let i = match found_pairing(alloc, sides, colours, budget.steps)? {
        Found::Paired(found) => return verified(alloc, sides, found),
        Found::NoPartner(i) => i,
    };
    if budget.depth == 0 || i >= colours.here.len() {
        return Ok(Decision::Undecided);
    }
    let mut rest = left(budget, &colours.there, colours.here[i]);
    if rest.tries == 0 {
        return Ok(Decision::Undecided);
    }
    rest.depth -= 1;
    for k in 0..colours.there.len() {
        let new = match paired_colours(alloc, sides, colours, i, k)? {
            Some(new) => new,
            None => continue,
        };
        match searched(alloc, sides, &new, rest)? {
            Decision::Unlawful => {}
            other => return Ok(other),
        }
    }
    Ok(Decision::Unlawful)
}

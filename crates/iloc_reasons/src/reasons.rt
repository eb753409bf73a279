//! Why rows aren't issued as their block asks for.
ghost use Rattle.std.specs.Prelude.{◌≡◌, ◌≢◌, ◌<◌, ◌≤◌, length, IfOk, All, AllPairs};
ghost use Rattle.iloc_rules.specs.Renaming.{without_nops as ops_of};
ghost use Rattle.iloc_facts.specs.Lawfulness.{AreLeftOut, AreAdded};
ghost use Rattle.iloc_facts.specs.Facts.{IsFact};
ghost use Rattle.iloc_facts.specs.Reasons.{AreReasons};
ghost use Rattle.iloc_reasons.specs.Steps.Likeness.{TellApart};
ghost use Rattle.iloc_reasons.specs.Steps.Sides.{AreNoted};

use crate::choice::chosen;
use crate::choice::data_flow::DataFlow;
use crate::claim::Claim;
use crate::counterpart::first_seen;
use crate::likeness::{Terms, sources_of, terms_of};
use crate::read::read_by_some;
use iloc_facts::{Added, Fact, LeftOut, MOST_FACTS, Reasons, Sides, without_counterpart};
use iloc_ops::{Block, NoMemory};
use iloc_timed::{Latencies, Schedule};
use std::alloc::Global;
use std::collections::BTreeMap;

/// The first facts of what is claimed, each once, and how many more were found.
fn first_facts(
    alloc: Global,
    sides: &Sides,
    terms: &Terms,
    read: &BTreeMap<usize, usize>,
    claims: &[Claim],
) -> Result<(Vec<Fact>, usize), NoMemory>
    requires terms { TellApart sides.now.latencies.now sides.now.block.items sides.now.schedule.now.ops
        sides.now.schedule.now.rows terms.now }
    requires noted { AreNoted sides.now.readings.items read.now }
    ensures facts { IfOk result (λ listed. All (IsFact sides.now.latencies.now sides.now.block.items sides.now.schedule.now.ops
        sides.now.schedule.now.rows) listed.0.items) }
    ensures once { IfOk result (λ listed. AllPairs (λ one other. one ≢ other) listed.0.items) }
    ensures few { IfOk result (λ listed. length listed.0.items ≤ 8) }
    ensures more { IfOk result (λ listed. length listed.0.items < 8 → listed.1 ≡ 0) }
{
    let mut facts = Vec::new(alloc);
    let mut more: usize = 0;
    for claim in claims {
        if let Some(fact) = claim.fact(sides, terms, read)
            && !facts.contains(&fact)
        {
            if facts.len() < MOST_FACTS {
                facts.push(fact)?;
            } else {
                more = more.saturating_add(1);
            }
        }
    }
    Ok((facts, more))
}

/// Facts or, where there is none, the first operation that doesn't read what its counterpart reads.
fn or_seen(
    alloc: Global,
    sides: &Sides,
    block: &DataFlow,
    rows: &DataFlow,
    facts: Vec<Fact>,
) -> Result<Vec<Fact>, NoMemory>
    requires facts { All (IsFact sides.now.latencies.now sides.now.block.items sides.now.schedule.now.ops
        sides.now.schedule.now.rows) facts.items }
    requires once { AllPairs (λ one other. one ≢ other) facts.items }
    requires few { length facts.items ≤ 8 }
    ensures facts { IfOk result (λ listed. All (IsFact sides.now.latencies.now sides.now.block.items sides.now.schedule.now.ops
        sides.now.schedule.now.rows) listed.items) }
    ensures once { IfOk result (λ listed. AllPairs (λ one other. one ≢ other) listed.items) }
    ensures few { IfOk result (λ listed. length listed.items ≤ 8) }
    ensures kept { IfOk result (λ listed. length facts.items ≤ length listed.items) }
{
    let mut facts = facts;
    if facts.is_empty()
        && let Some(fact) = first_seen(alloc, sides, block, rows)?
    {
        facts.push(fact)?;
    }
    Ok(facts)
}

/// The operations of the block that have no counterpart, named by this one, if it is short.
fn left_out(alloc: Global, sides: &Sides, named: Option<usize>) -> Result<Option<LeftOut>, NoMemory>
    ensures { IfOk result (AreLeftOut sides.now.block.items sides.now.schedule.now.ops) }
{
    match without_counterpart(alloc, &sides.block, sides.schedule.ops(), named)? {
        Some(it) => Ok(Some(LeftOut {
            count: it.count,
            op: sides.block[it.number],
        })),
        None => Ok(None),
    }
}

/// The operations of the rows that have no counterpart, named by this one, if it is short.
fn added(alloc: Global, sides: &Sides, named: Option<usize>) -> Result<Option<Added>, NoMemory>
    ensures { IfOk result (AreAdded sides.now.block.items sides.now.schedule.now.ops sides.now.schedule.now.rows) }
{
    match without_counterpart(alloc, sides.schedule.ops(), &sides.block, named)? {
        Some(it) => Ok(Some(Added {
            count: it.count,
            issue: sides.issued(it.number),
        })),
        None => Ok(None),
    }
}

/// Why the rows of `sides` aren't issued as their block asks for, by the data flow of `block` and of `rows`.
fn reasons_among(
    alloc: Global,
    sides: &Sides,
    block: &DataFlow,
    rows: &DataFlow,
) -> Result<Reasons, NoMemory>
    ensures { IfOk result (AreReasons sides.now.latencies.now sides.now.block.items sides.now.schedule.now.ops
        sides.now.schedule.now.rows) }
{
    let read = read_by_some(alloc, &sides.readings)?;
    let choice = chosen(alloc, sides, block, rows, &read)?;
    let terms = terms_of(alloc, sides, block, rows)?;
    let (facts, more) = first_facts(alloc, sides, &terms, &read, &choice.claims)?;
    let left_out = left_out(alloc, sides, choice.left_out)?;
    let added = added(alloc, sides, choice.added)?;
    let (facts, more) = if left_out.is_some() || added.is_some() || !facts.is_empty() {
        (facts, more)
    } else {
        let (facts, more) = first_facts(alloc, sides, &terms, &read, &choice.otherwise)?;
        (or_seen(alloc, sides, block, rows, facts)?, more)
    };
    Ok(Reasons {
        left_out,
        added,
        facts,
        more,
    })
}

/// The same, of both sides.
fn reasons_by(alloc: Global, sides: &Sides) -> Result<Reasons, NoMemory>
    ensures { IfOk result (AreReasons sides.now.latencies.now sides.now.block.items sides.now.schedule.now.ops
        sides.now.schedule.now.rows) }
{
    let block = DataFlow::of_block(alloc, &sides.block, &sides.givens)?;
    let sources = sources_of(alloc, &sides.readings)?;
    let rows = DataFlow::of(alloc, sides.schedule.ops(), sides.schedule.rows(), &sources)?;
    reasons_among(alloc, sides, &block, &rows)
}

/// Why rows that somebody made for a block aren't issued as it asks for: which operations are left out or added, and facts
/// of the rows, by row; then which operations stand for others, and last what is less likely to be wrong. Which facts are
/// listed is a choice that promises nothing; it names the operations at fault.
///
/// Promise: what is said to be left out or added is, and each line is a fact of the rows, listed once.
pub fn reasons_of(
    alloc: Global,
    block: &Block,
    theirs: &Schedule,
    latencies: &Latencies,
) -> Result<Reasons, NoMemory>
    ensures { IfOk result (AreReasons latencies.now (ops_of block.now.ops) theirs.now.ops theirs.now.rows) }
{
    let sides = Sides::of(alloc, block, theirs, latencies)?;
    reasons_by(alloc, &sides)
}

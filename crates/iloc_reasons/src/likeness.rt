//! Which operations of rows are like none of a block.
ghost use Rattle.std.specs.Prelude.{◌≡◌, ◌≢◌, ◌<◌, ℕ, true, None, map, slice_index, IfOk};
ghost use Rattle.std.specs.BTreeMap.{get};
ghost use Rattle.std.specs.Ordering.{nat_cmp};
ghost use Rattle.iloc_facts.specs.declared.reading.Reading.{Reading as Noted};
ghost use Rattle.iloc_reasons.specs.Steps.Likeness.{TellApart};
ghost use Rattle.iloc_reasons.specs.Steps.Terms.{AreTerms};

use crate::choice::data_flow::DataFlow;
use crate::terms::{Values, at, label_number};
use iloc_facts::{Reading, Sides, Sources};
use iloc_ops::{NoMemory, Op};
use std::alloc::Global;
use std::collections::BTreeMap;

/// The terms of the operations of a block and of rows.
#[derive(Drop)]
pub(crate) struct Terms {
    pub block: Vec<u64>,
    pub rows: Vec<u64>,
    /// The terms of the block, to look them up.
    pub known: BTreeMap<u64, usize>,
}

/// Whether the term of each operation is that of its label and of what it reads.
fn are_terms(ops: &[Op], sources: &[Sources], terms: &[u64]) -> bool
    ensures { result ≡ true → AreTerms ops.now sources.now terms.now }
{
    for (k, op) in ops.iter().enumerate() {
        let read = sources.get(k).copied().unwrap_or(Sources::Nothing);
        if at(terms, k) != Values::of(terms, read).behind(label_number(op)) {
            return false;
        }
    }
    true
}

/// What the operations of rows read.
pub(crate) fn sources_of(alloc: Global, readings: &[Reading]) -> Result<Vec<Sources>, NoMemory>
    ensures { IfOk result (λ sources. sources.items ≡ map (λ (r : Noted). r.sources) readings.now) }
{
    let mut sources = Vec::with_capacity(alloc, readings.len())?;
    for reading in readings {
        sources.push(reading.sources)?;
    }
    Ok(sources)
}

/// The first `count` of `terms`, to look them up.
fn looked_up(alloc: Global, terms: &[u64], count: usize) -> Result<BTreeMap<u64, usize>, NoMemory>
    ensures { IfOk result (λ found. (i : ℕ) → i < count → get nat_cmp found (slice_index terms.now i) ≢ None) }
{
    let mut found = BTreeMap::new(alloc);
    for i in 0..count {
        found.insert(at(terms, i), i)?;
    }
    Ok(found)
}

/// The terms of both sides, by the data flow of `block` and of `rows`. Where they couldn't be relied on, which doesn't
/// happen, all operations have one term.
pub(crate) fn terms_of(
    alloc: Global,
    sides: &Sides,
    block: &DataFlow,
    rows: &DataFlow,
) -> Result<Terms, NoMemory>
    ensures { IfOk result (TellApart sides.now.latencies.now sides.now.block.items sides.now.schedule.now.ops
        sides.now.schedule.now.rows) }
{
    let ops = sides.schedule.ops();
    let sources = sources_of(alloc, &sides.readings)?;
    let here = block.forwards(alloc, &block.labels)?;
    let there = rows.forwards(alloc, &rows.labels)?;
    if are_terms(&sides.block, &sides.givens, &here) && are_terms(ops, &sources, &there) {
        let known = looked_up(alloc, &here, sides.block.len())?;
        return Ok(Terms {
            block: here,
            rows: there,
            known,
        });
    }
    let known = looked_up(alloc, &[], 1)?;
    Ok(Terms {
        block: Vec::new(alloc),
        rows: Vec::new(alloc),
        known,
    })
}

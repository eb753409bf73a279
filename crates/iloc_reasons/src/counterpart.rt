//! Operations that read others than their counterparts in the block, where the first of a label is that of the block's first,
//! and so on.
ghost use Rattle.std.specs.Prelude.{◌≡◌, ◌<◌, ◌↔◌, length, take, false, IfOk, IfSome, IsTrue};
ghost use Rattle.iloc_meaning.specs.Trace.{op_at};
ghost use Rattle.iloc_facts.specs.Counts.{count_like};
ghost use Rattle.iloc_facts.specs.Facts.{AreSources, IsCounterpart, IsFact};
ghost use Rattle.iloc_reasons.specs.Steps.Sides.{AreAllRead};

use crate::choice::data_flow::DataFlow;
use crate::choice::side::paired;
use crate::claim::source_at;
use iloc_facts::{Fact, Sides, Sources, have_one_label};
use iloc_ops::{NoMemory, Op};
use std::alloc::Global;

/// How many operations of the label of operation k come before it.
fn count_before(ops: &[Op], k: usize) -> usize
    requires { k < length ops.now }
    ensures { result ≡ count_like (op_at ops.now k) (take k ops.now) }
{
    let mut count = 0;
    for j in 0..k {
        if have_one_label(&ops[k], &ops[j]) {
            count += 1;
        }
    }
    count
}

/// Whether operation i of the block is the counterpart of operation k of the rows.
fn is_counterpart(block: &[Op], ops: &[Op], i: usize, k: usize) -> bool
    requires { k < length ops.now }
    ensures { IsTrue result ↔ IsCounterpart block.now ops.now i k }
{
    i < block.len()
        && have_one_label(&block[i], &ops[k])
        && count_before(block, i) == count_before(ops, k)
}

/// Whether what is read is the start of a register on both sides, or results of counterparts.
fn is_same(sides: &Sides, given: Option<usize>, read: Option<usize>) -> bool
    ensures { result ≡ false → AreSources (IsCounterpart sides.now.block.items sides.now.schedule.now.ops) given read → ⊥ }
{
    let ops = sides.schedule.ops();
    match (given, read) {
        (Some(o), Some(j)) => j >= ops.len() || is_counterpart(&sides.block, ops, o, j),
        (None, None) => true,
        _ => false,
    }
}

/// The same of all that is read.
fn are_same(sides: &Sides, given: Sources, read: Sources) -> bool
    ensures { result ≡ false → AreAllRead (IsCounterpart sides.now.block.items sides.now.schedule.now.ops) given read → ⊥ }
{
    match (given, read) {
        (Sources::One(only), Sources::One(other)) => is_same(sides, only, other),
        (Sources::Two(left, right), Sources::Two(other, another)) => {
            is_same(sides, left, other) && is_same(sides, right, another)
        }
        _ => true,
    }
}

/// Operation `k` of the rows doesn't read what its counterpart reads, if that is operation `i` of the block.
pub(crate) fn seen(sides: &Sides, k: usize, i: usize) -> Option<Fact>
    ensures { IfSome result (IsFact sides.now.latencies.now sides.now.block.items sides.now.schedule.now.ops
        sides.now.schedule.now.rows) }
{
    let issue = sides.issue(k)?;
    let given = sides.given(i)?;
    let reading = sides.reading(k)?;
    let ops = sides.schedule.ops();
    if is_counterpart(&sides.block, ops, i, k) && !are_same(sides, given, reading.sources) {
        return Some(Fact::See { issue });
    }
    None
}

/// Which operation of the block it is whose result is read, by partner.
fn partner(partners: &[Option<usize>], read: Option<usize>) -> Option<usize> {
    partners.get(read?).copied().flatten()
}

/// Whether operation k of the rows reads at some place others than operation i of the block, by partner.
fn reads_others(sides: &Sides, partners: &[Option<usize>], k: usize, i: usize) -> bool {
    let (Some(given), Some(reading)) = (sides.givens.get(i), sides.readings.get(k)) else {
        return false;
    };
    for place in 0..2 {
        if partner(partners, source_at(reading.sources, place)) != source_at(*given, place) {
            return true;
        }
    }
    false
}

/// The first operation of the rows that doesn't read what its counterpart reads.
pub(crate) fn first_seen(
    alloc: Global,
    sides: &Sides,
    block: &DataFlow,
    rows: &DataFlow,
) -> Result<Option<Fact>, NoMemory>
    ensures { IfOk result (λ found. IfSome found (IsFact sides.now.latencies.now sides.now.block.items
        sides.now.schedule.now.ops sides.now.schedule.now.rows)) }
{
    let partners = paired(alloc, &rows.labels, &block.labels)?;
    for (k, partner) in partners.iter().enumerate() {
        if let Some(i) = *partner
            && reads_others(sides, &partners, k, i)
        {
            return Ok(seen(sides, k, i));
        }
    }
    Ok(None)
}

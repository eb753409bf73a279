//! The operations of rows in the order of issue, in which each reads earlier ones.
ghost use Rattle.std.specs.Prelude.{◌≡◌, ◌<◌, ◌↔◌, ℕ, true, length, slice_index, IsTrue, IfOk, IfSome};
ghost use Rattle.iloc_validation.specs.Steps.Colours.{IsBelow, AreReadAt, IsOrderOf};

use crate::numbers::{are_same, by_numbers};
use crate::pairing::leads_back;
use iloc_facts::{Reading, Sources};
use iloc_ops::NoMemory;
use iloc_timed::Row;
use std::alloc::Global;

/// Operations in the order of issue.
#[derive(Drop)]
pub(crate) struct IssueOrder {
    /// By place the operation.
    pub ops: Vec<usize>,
    /// By operation its place.
    pub places: Vec<usize>,
    /// By place what the operation reads, as places.
    pub sources: Vec<Sources>,
}

/// The operations of rows in the order of issue.
fn issued(alloc: Global, rows: &[Row]) -> Result<Vec<usize>, NoMemory> {
    let mut ops = Vec::new(alloc);
    for row in rows {
        if let Some(k) = row.zero {
            ops.push(k)?;
        }
        if let Some(k) = row.one {
            ops.push(k)?;
        }
    }
    Ok(ops)
}

/// By operation its place in this order.
fn places(alloc: Global, ops: &[usize], count: usize) -> Result<Vec<usize>, NoMemory>
    ensures { IfOk result (λ places. length places.items ≡ count) }
{
    let mut places = vec![in alloc; 0; count]?;
    for (p, k) in ops.iter().enumerate() {
        if *k < places.len() {
            places[*k] = p;
        }
    }
    Ok(places)
}

/// By place what the operations in this order read, as places.
fn sources_by_place(
    alloc: Global,
    ops: &[usize],
    places: &[usize],
    readings: &[Reading],
) -> Result<Vec<Sources>, NoMemory>
    ensures { IfOk result (λ sources. length sources.items ≡ length ops.now) }
{
    let mut sources = Vec::with_capacity(alloc, ops.len())?;
    for k in ops {
        let reads = match readings.get(*k) {
            Some(reading) => by_numbers(reading.sources, places),
            None => Sources::Nothing,
        };
        sources.push(reads)?;
    }
    Ok(sources)
}

/// Whether what is read, if it isn't the start of a register, is before a place.
fn is_before(source: Option<usize>, place: usize) -> bool
    ensures { IsTrue result ↔ IfSome source (λ j. j < place) }
{
    match source {
        Some(j) => j < place,
        None => true,
    }
}

/// Whether all that is read is.
fn is_below(sources: Sources, place: usize) -> bool
    ensures { IsTrue result ↔ IsBelow place sources }
{
    match sources {
        Sources::Nothing => true,
        Sources::One(only) => is_before(only, place),
        Sources::Two(left, right) => is_before(left, place) && is_before(right, place),
    }
}

/// Whether `sources` are what `readings` say of the operations `ops`, and each of them is earlier.
fn are_read(ops: &[usize], sources: &[Sources], readings: &[Reading]) -> bool
    requires known { (p : ℕ) → p < length ops.now → slice_index ops.now p < length readings.now }
    requires sized { length sources.now ≡ length ops.now }
    ensures { result ≡ true → (p : ℕ) → p < length ops.now → AreReadAt ops.now sources.now readings.now p }
{
    for (p, k) in ops.iter().enumerate() {
        let reads = sources[p];
        if !is_below(reads, p) || !are_same(by_numbers(reads, ops), readings[*k].sources) {
            return false;
        }
    }
    true
}

impl IssueOrder {
    /// That of rows, from which `readings` were taken. It is found in any way, and then tested.
    pub(crate) fn of(
        alloc: Global,
        rows: &[Row],
        readings: &[Reading],
    ) -> Result<Option<IssueOrder>, NoMemory>
        ensures { IfOk result (λ found. IfSome found (IsOrderOf readings.now)) }
    {
        let ops = issued(alloc, rows)?;
        let places = places(alloc, &ops, readings.len())?;
        let sources = sources_by_place(alloc, &ops, &places, readings)?;
        if leads_back(&ops, &places)
            && leads_back(&places, &ops)
            && are_read(&ops, &sources, readings)
        {
            Ok(Some(IssueOrder {
                ops,
                places,
                sources,
            }))
        } else {
            Ok(None)
        }
    }
}

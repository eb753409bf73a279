//! Which operations of a block have no counterpart in rows, by what they compute.

use super::data_flow::{DataFlow, EffectPlace, put};
use super::lines::Lines;
use crate::terms::{Values, at, mix};
use iloc_ops::NoMemory;
use iloc_timed::Kind;
use std::alloc::Global;

/// The operations of one side, with numbers for what they compute and who reads them.
#[derive(Drop)]
pub(crate) struct Side<'a> {
    pub flow: &'a DataFlow<'a>,
    /// By operation its place as a number, or 0 where places don't count.
    pub places: Vec<u64>,
    /// By operation a number for its label, its place, and the terms of what it reads.
    pub terms: Vec<u64>,
    /// By operation a number for its label and for who reads it.
    pub readers: Vec<u64>,
    /// By operation a number for its term and for who reads it.
    pub both: Vec<u64>,
}

/// The numbers of places.
fn numbers_of(alloc: Global, places: &[EffectPlace]) -> Result<Vec<u64>, NoMemory> {
    let mut numbers = Vec::with_capacity(alloc, places.len())?;
    for place in places {
        numbers.push(place.number())?;
    }
    Ok(numbers)
}

/// Place by place a number for the one of `these` and the one of `those`.
fn all_mixed(alloc: Global, these: &[u64], those: &[u64]) -> Result<Vec<u64>, NoMemory> {
    let mut mixed = Vec::with_capacity(alloc, these.len())?;
    for (one, other) in these.iter().zip(those.iter()) {
        mixed.push(mix(*one, *other))?;
    }
    Ok(mixed)
}

impl<'a> Side<'a> {
    /// The numbers of one side, in which places count or don't.
    pub(crate) fn of(
        alloc: Global,
        flow: &'a DataFlow<'a>,
        places_count: bool,
    ) -> Result<Side<'a>, NoMemory> {
        let places = if places_count {
            numbers_of(alloc, &flow.places)?
        } else {
            vec![in alloc; 0; flow.ops.len()]?
        };
        let terms = flow.forwards(alloc, &all_mixed(alloc, &flow.labels, &places)?)?;
        let readers = flow.backwards(alloc, &flow.labels)?;
        Ok(Side {
            flow,
            both: all_mixed(alloc, &terms, &readers)?,
            places,
            terms,
            readers,
        })
    }

    /// The term that operation `k` has at `place` where it reads `values`.
    pub(crate) fn term(&self, k: usize, place: u64, values: Values) -> u64 {
        values.behind(mix(at(&self.flow.labels, k), place))
    }
}

/// A sum over the stores and outputs of one side, equal where they count the same without registers.
pub(crate) fn effects(flow: &DataFlow) -> u64 {
    let mut sum: u64 = 0;
    for (op, label) in flow.ops.iter().zip(flow.labels.iter()) {
        if matches!(Kind::of(op), Kind::Store | Kind::Output) {
            sum = sum.wrapping_add(mix(*label, 1));
        }
    }
    sum
}

/// Lines of operations: operation k is in the line of `keys[k]`.
fn lined_up(alloc: Global, keys: &[u64]) -> Result<Lines, NoMemory> {
    let mut lines = Lines::new(alloc, keys.len())?;
    for (i, key) in keys.iter().enumerate().rev() {
        lines.put_first(*key, i)?;
    }
    Ok(lines)
}

/// By operation its counterpart of the same key among others: the first for the first, and so on.
pub(crate) fn paired(
    alloc: Global,
    keys: &[u64],
    others: &[u64],
) -> Result<Vec<Option<usize>>, NoMemory> {
    let mut there = lined_up(alloc, others)?;
    let mut free = vec![in alloc; true; others.len()]?;
    let mut pairs = Vec::with_capacity(alloc, keys.len())?;
    for key in keys {
        let found = there.first_free(*key, &free)?;
        if let Some(i) = found {
            put(&mut free, i, false);
        }
        pairs.push(found)?;
    }
    Ok(pairs)
}

/// Whether there is such a place, and it holds.
pub(crate) fn has(list: &[bool], place: usize) -> bool {
    list.get(place).copied().unwrap_or(false)
}

//! Loads, stores and outputs of rows that are on the wrong side of others.

use super::data_flow::{DataFlow, put};
use super::known::Known;
use super::side::has;
use crate::claim::{Claim, What};
use iloc_ops::NoMemory;
use iloc_timed::Kind;
use std::alloc::Global;

/// The stores or the outputs of rows as they are issued.
#[derive(Drop)]
struct Line {
    issued: Vec<usize>,
    // By place the greatest number in the block up to there, counted from 1; 0 for none.
    greatest: Vec<usize>,
    // By place the least number in the block from there on.
    least: Vec<usize>,
}

/// The operations of a kind, as they are issued.
fn of_kind(alloc: Global, flow: &DataFlow, kind: Kind) -> Result<Vec<usize>, NoMemory> {
    let mut found = Vec::new(alloc);
    for k in &flow.issued {
        if flow.kind(*k) == kind {
            found.push(*k)?;
        }
    }
    Ok(found)
}

/// By place the greatest of `numbers` up to there, counted from 1; 0 for none.
fn greatest(alloc: Global, numbers: &[Option<usize>]) -> Result<Vec<usize>, NoMemory> {
    let mut found = Vec::with_capacity(alloc, numbers.len())?;
    let mut most: usize = 0;
    for number in numbers {
        let counted = match number {
            Some(i) => i.saturating_add(1),
            None => 0,
        };
        if most < counted {
            most = counted;
        }
        found.push(most)?;
    }
    Ok(found)
}

/// By place the least of `numbers` from there on.
fn least(alloc: Global, numbers: &[Option<usize>]) -> Result<Vec<usize>, NoMemory> {
    let mut found = vec![in alloc; usize::MAX; numbers.len()]?;
    let mut fewest = usize::MAX;
    for place in (0..numbers.len()).rev() {
        if let Some(i) = numbers.get(place).copied().flatten()
            && i < fewest
        {
            fewest = i;
        }
        put(&mut found, place, fewest);
    }
    Ok(found)
}

/// The first place of numbers that don't fall at which one is greater than this.
fn first_above(numbers: &[usize], most: usize) -> usize {
    let mut low: usize = 0;
    let mut high = numbers.len();
    for _ in 0..usize::BITS {
        let middle = low.saturating_add(high) / 2;
        match numbers.get(middle) {
            Some(number) if low < high && *number <= most => low = middle.saturating_add(1),
            _ => high = middle,
        }
    }
    low
}

impl Line {
    /// The operations of `kind` in the rows.
    fn of(alloc: Global, known: &Known, kind: Kind) -> Result<Line, NoMemory> {
        let issued = of_kind(alloc, known.rows.flow, kind)?;
        let mut numbers = Vec::with_capacity(alloc, issued.len())?;
        for k in &issued {
            numbers.push(known.partner(*k))?;
        }
        Ok(Line {
            issued,
            greatest: greatest(alloc, &numbers)?,
            least: least(alloc, &numbers)?,
        })
    }

    /// The first one that is behind operation i in the block.
    fn first_behind(&self, i: usize) -> Option<usize> {
        let place = first_above(&self.greatest, i.saturating_add(1));
        self.issued.get(place).copied()
    }

    /// The last one that is before operation i in the block.
    fn last_before(&self, i: usize) -> Option<usize> {
        let place = first_above(&self.least, i).checked_sub(1)?;
        self.issued.get(place).copied()
    }
}

/// The store or output that operation k is on the wrong side of.
fn passed(known: &Known, stores: &Line, outputs: &Line, k: usize) -> Option<Claim> {
    let i = known.partner(k)?;
    let here = known.rows.flow.place(k);
    let wanted = known.block.flow.place(i);
    let by_stores = known.rows.flow.kind(k) == Kind::Store || here.stores != wanted.stores;
    let line = if by_stores { stores } else { outputs };
    let is_early = if by_stores {
        here.stores < wanted.stores
    } else {
        here.outputs < wanted.outputs
    };
    let other = if is_early {
        line.last_before(i)
    } else {
        line.first_behind(i)
    };
    known.against(k, other?)
}

/// What is claimed in place of that operation k is issued while a store is under way, if the block has the store behind it: in
/// one row that the store isn't behind it, and else that it isn't before the store.
fn while_of_later(known: &Known, k: usize, store: usize) -> Option<Claim> {
    if known.issued(k) == known.issued(store) {
        return known.against(store, k);
    }
    known.against(k, store)
}

/// Claims of operations that were moved, and all others; that a store is under way that the block has behind an operation is
/// claimed as their order.
pub(crate) fn with_orders(
    alloc: Global,
    known: &Known,
    moved: &[usize],
    claims: &[Claim],
) -> Result<Vec<Claim>, NoMemory> {
    let stores = Line::of(alloc, known, Kind::Store)?;
    let outputs = Line::of(alloc, known, Kind::Output)?;
    let mut are_told = vec![in alloc; false; known.partners.len()]?;
    let mut orders = Vec::new(alloc);
    for k in moved {
        if let Some(claim) = passed(known, &stores, &outputs, *k) {
            put(&mut are_told, *k, true);
            orders.push(claim)?;
        }
    }
    let mut found = Vec::with_capacity(alloc, claims.len())?;
    for claim in claims {
        let order = match claim.what {
            What::While { store } => while_of_later(known, claim.k, store),
            _ => None,
        };
        match order {
            Some(order) if has(&are_told, order.k) => {}
            Some(order) => found.push(order)?,
            None => found.push(*claim)?,
        }
    }
    found.extend_from_slice(&orders)?;
    Ok(found)
}

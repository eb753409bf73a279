//! Which facts of rows are claimed. Nothing is promised of the choice, since each claim is checked.
//!
//! It goes by terms: the label of an operation, its place among stores and outputs, and the terms of what it reads. An
//! operation of the rows that the block has no more of is found to be one that is missing there, by the cheapest change of
//! what it reads; from then on it counts as that one, so that nobody is blamed for another's fault.

mod counts;
pub(crate) mod data_flow;
mod doubts;
mod guesses;
mod known;
mod lines;
mod misread;
mod missing;
mod orders;
pub(crate) mod side;
mod strays;
mod walk;

use self::counts::Counts;
use self::data_flow::DataFlow;
use self::missing::Missing;
use self::side::{Side, effects, paired};
use self::strays::Strays;
use self::walk::{Found, Said, Walk};
use crate::claim::Claim;
use iloc_facts::Sides;
use iloc_ops::NoMemory;
use std::alloc::Global;
use std::collections::BTreeMap;

/// What is claimed of rows.
#[derive(Drop)]
pub(crate) struct RowClaims {
    /// In the order in which it is listed.
    pub claims: Vec<Claim>,
    /// The same of what is claimed where none of `claims` is a fact.
    pub otherwise: Vec<Claim>,
    /// The operation of the block that is named as left out.
    pub left_out: Option<usize>,
    /// The operation of the rows that is named as added.
    pub added: Option<usize>,
}

/// By operation whether there are more of its label than among others.
fn short(alloc: Global, flow: &DataFlow, others: &DataFlow) -> Result<Vec<bool>, NoMemory> {
    let here = Counts::of(alloc, &flow.labels)?;
    let there = Counts::of(alloc, &others.labels)?;
    let mut are = Vec::with_capacity(alloc, flow.labels.len())?;
    for label in &flow.labels {
        are.push(there.get(*label) < here.get(*label))?;
    }
    Ok(are)
}

/// A walk through the rows that has yet to begin.
fn begun<'a>(
    alloc: Global,
    sides: &'a Sides<'a>,
    block: &'a Side<'a>,
    rows: &'a Side<'a>,
    read: &'a BTreeMap<usize, usize>,
) -> Result<Walk<'a>, NoMemory> {
    let short = short(alloc, block.flow, rows.flow)?;
    let counterparts = paired(alloc, &rows.both, &block.both)?;
    Ok(Walk {
        alloc,
        sides,
        block,
        rows,
        missing: Missing::of(alloc, block, short, &counterparts)?,
        strays: Strays::none(alloc, rows.flow, &counterparts, read)?,
        found: Found::of(alloc, rows, counterparts)?,
        store: None,
        said: Said::nothing(alloc),
    })
}

/// What is claimed of rows, gone through from first to last.
fn walked(
    alloc: Global,
    sides: &Sides,
    block: &Side,
    rows: &Side,
    read: &BTreeMap<usize, usize>,
) -> Result<RowClaims, NoMemory> {
    let mut walk = begun(alloc, sides, block, rows, read)?;
    for row in sides.schedule.rows() {
        walk.pass(row)?;
    }
    walk.choice()
}

/// What is claimed of the rows of `sides`: `here` is the data flow of the block, `there` the one of the rows.
pub(crate) fn chosen(
    alloc: Global,
    sides: &Sides,
    here: &DataFlow,
    there: &DataFlow,
    read: &BTreeMap<usize, usize>,
) -> Result<RowClaims, NoMemory> {
    let places_count = effects(here) == effects(there);
    let block = Side::of(alloc, here, places_count)?;
    let rows = Side::of(alloc, there, places_count)?;
    walked(alloc, sides, &block, &rows, read)
}

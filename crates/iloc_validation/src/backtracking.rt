//! The search for a pairing of the operations of rows with those of a block. Nothing is promised of what it finds,
//! since each pairing is verified.
//!
//! The operations of a pair have one colour, and what they read is paired too. Once nothing more follows, the search
//! looks for the first pair with a reader that has no partner, and tries the readers of the other one, first that at
//! the same place in the order of colours; where none leads on, it takes its last choice back. Once there is no such
//! reader, all pairs are kept, since parts that don't hang together and are alike may be exchanged, and it goes on with
//! the next operation of the block.

ghost use Rattle.std.specs.Prelude.{length, IfOk};
ghost use Rattle.iloc_validation.specs.Steps.Decisions.{IsFoundFor};

mod pairs;
mod readers;
mod run;

use self::readers::Readers;
use self::run::Search;
use crate::colours::Coloured;
use crate::pairing::Pairing;
use iloc_facts::Sides;
use iloc_ops::NoMemory;
use std::alloc::Global;

/// What the search ends with.
#[derive(Drop)]
pub(crate) enum Found {
    /// This pairing.
    Paired(Pairing),
    /// For this operation of the block no partner was found.
    NoPartner(usize),
}

/// A pairing of the operations of the rows with those of the block that keeps `colours`, if one is found in `steps`
/// steps an operation.
pub(crate) fn found_pairing(
    alloc: Global,
    sides: &Sides,
    colours: &Coloured,
    steps: usize,
) -> Result<Found, NoMemory>
    ensures { IfOk result (IsFoundFor (length sides.now.block.items) (length sides.now.readings.items)) }
{
    let mut reads = Vec::with_capacity(alloc, sides.readings.len())?;
    for reading in &sides.readings {
        reads.push(reading.sources)?;
    }
    let block = Readers::of(alloc, &sides.givens, &colours.here)?;
    let rows = Readers::of(alloc, &reads, &colours.there)?;
    let mut search = Search::new(alloc, &block, &rows)?;
    let is_found = search.run(steps.saturating_mul(sides.block.len()))?;
    let root = search.root();
    let found = search.into_pairing();
    if is_found
        && found.origin.len() == sides.readings.len()
        && found.partner.len() == sides.block.len()
    {
        Ok(Found::Paired(found))
    } else {
        Ok(Found::NoPartner(root))
    }
}

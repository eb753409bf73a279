//! Which operation of its block each of somebody's rows is.
ghost use Rattle.std.specs.Prelude.{◌≡◌, ◌<◌, ◌↔◌, ◌⊎◌, ℕ, List, Option, true, Some, length, slice_index, IfOk, IfSome};
ghost use Rattle.std.specs.BTreeMap.{get};
ghost use Rattle.std.specs.Ordering.{nat_cmp};
ghost use Rattle.iloc_ops.specs.declared.op.Op.{Op as op_value};
ghost use Rattle.iloc_meaning.specs.Trace.{op_at};
ghost use Rattle.iloc_rules.specs.Renaming.{without_nops as ops_of};
ghost use Rattle.iloc_facts.specs.Facts.{AreSources, HasLabel};
ghost use Rattle.iloc_reasons.specs.Origins.{origin_at, AreKnown, AreLast, AreOrigins, IsKnown};
ghost use Rattle.iloc_reasons.specs.Steps.Likeness.{TellApart};
ghost use Rattle.iloc_reasons.specs.Steps.Origins.{AreAlone, AreLeft, AreReadAlike, ArePartners};

mod left;

use crate::choice::data_flow::DataFlow;
use crate::likeness::{Terms, sources_of, terms_of};
use crate::terms::at;
use iloc_facts::{Sides, Sources, have_one_label};
use iloc_ops::{Block, NoMemory, Op};
use iloc_timed::{Latencies, Schedule};
use left::Left;
use std::alloc::Global;
use std::collections::BTreeMap;

/// What is noted at a place.
fn origin_at(origins: &[Option<usize>], k: usize) -> Option<usize>
    ensures { result ≡ origin_at origins.now k }
{
    match origins.get(k) {
        Some(origin) => *origin,
        None => None,
    }
}

/// Whether what is read is the start of a register on both sides, or the result of one that is known to be what is read in the
/// block.
fn is_read_alike(known: &[Option<usize>], given: Option<usize>, read: Option<usize>) -> bool
    ensures { result ≡ true → AreSources (λ j l. origin_at known.now l ≡ Some j) given read }
{
    match (given, read) {
        (Some(j), Some(l)) => origin_at(known, l) == Some(j),
        (None, None) => true,
        _ => false,
    }
}

/// The same of all that is read.
fn are_read_alike(known: &[Option<usize>], given: Sources, read: Sources) -> bool
    ensures { result ≡ true → AreReadAlike known.now given read }
{
    match (given, read) {
        (Sources::Nothing, Sources::Nothing) => true,
        (Sources::One(only), Sources::One(other)) => is_read_alike(known, only, other),
        (Sources::Two(left, right), Sources::Two(other, another)) => {
            is_read_alike(known, left, other) && is_read_alike(known, right, another)
        }
        _ => false,
    }
}

/// By number where it is alone among the first `count` of these, or that it isn't.
fn places(
    alloc: Global,
    numbers: &[u64],
    count: usize,
) -> Result<BTreeMap<u64, Option<usize>>, NoMemory>
    ensures { IfOk result (AreAlone numbers.now count) }
{
    let mut alone = BTreeMap::new(alloc);
    for i in 0..count {
        let number = at(numbers, i);
        let place = if alone.get(&number).is_some() {
            None
        } else {
            Some(i)
        };
        alone.insert(number, place)?;
    }
    Ok(alone)
}

/// Terms that only one operation of a side has, each with that operation.
#[derive(Drop)]
struct Alone {
    here: BTreeMap<u64, Option<usize>>,
    there: BTreeMap<u64, Option<usize>>,
}

/// Where a number is alone, if it is.
fn place_of(alone: &BTreeMap<u64, Option<usize>>, number: u64) -> Option<usize>
    ensures { IfSome result (λ i. get nat_cmp alone.now number ≡ Some (Some i)) }
{
    match alone.get(&number) {
        Some(place) => *place,
        None => None,
    }
}

/// The operation of the block that alone has the term of operation k of the rows, if that has it alone.
fn alike(terms: &Terms, alone: &Alone, k: usize) -> Option<usize>
    ensures here { IfSome result (λ i. get nat_cmp alone.now.here (slice_index terms.now.rows.items k) ≡ Some (Some i)) }
    ensures there { IfSome result (λ _. get nat_cmp alone.now.there (slice_index terms.now.rows.items k) ≡ Some (Some k)) }
    ensures same { IfSome result (λ i. slice_index terms.now.block.items i ≡ slice_index terms.now.rows.items k) }
{
    let term = at(&terms.rows, k);
    let i = place_of(&alone.here, term)?;
    let l = place_of(&alone.there, term)?;
    if l == k && at(&terms.block, i) == term {
        return Some(i);
    }
    None
}

/// Whether operation i of the block differs from operation k of the rows in registers alone.
fn is_labelled(block: &[Op], ops: &[Op], i: usize, k: usize) -> bool
    requires { k < length ops.now }
    ensures { result ≡ true → HasLabel block.now i (op_at ops.now k) }
{
    i < block.len() && have_one_label(&block[i], &ops[k])
}

/// The operation of the block that operation k of the rows is known to be.
fn known_origin(
    sides: &Sides,
    terms: &Terms,
    alone: &Alone,
    known: &[Option<usize>],
    k: usize,
) -> Option<usize>
    requires terms { TellApart sides.now.latencies.now sides.now.block.items sides.now.schedule.now.ops
        sides.now.schedule.now.rows terms.now }
    requires here { AreAlone terms.now.block.items (length sides.now.block.items) alone.now.here }
    requires there { AreAlone terms.now.rows.items (length sides.now.schedule.now.ops) alone.now.there }
    requires within { k < length sides.now.schedule.now.ops }
    ensures { IfSome result (λ i. IsKnown sides.now.latencies.now sides.now.block.items sides.now.schedule.now.ops
        sides.now.schedule.now.rows known.now i k) }
{
    let i = alike(terms, alone, k)?;
    let given = sides.given(i)?;
    let reading = sides.reading(k)?;
    let ops = sides.schedule.ops();
    if is_labelled(&sides.block, ops, i, k) && are_read_alike(known, given, reading.sources) {
        return Some(i);
    }
    None
}

/// By operation of the rows the one of the block that it is known to be by what it computes.
fn known_origins(
    alloc: Global,
    sides: &Sides,
    terms: &Terms,
) -> Result<Vec<Option<usize>>, NoMemory>
    requires terms { TellApart sides.now.latencies.now sides.now.block.items sides.now.schedule.now.ops
        sides.now.schedule.now.rows terms.now }
    ensures size { IfOk result (λ known. length known.items ≡ length sides.now.schedule.now.ops) }
    ensures each { IfOk result (λ known. AreKnown sides.now.latencies.now sides.now.block.items sides.now.schedule.now.ops
        sides.now.schedule.now.rows known.items) }
{
    let count = sides.schedule.ops().len();
    let alone = Alone {
        here: places(alloc, &terms.block, sides.block.len())?,
        there: places(alloc, &terms.rows, count)?,
    };
    let mut known = Vec::with_capacity(alloc, count)?;
    for k in 0..count {
        let origin = known_origin(sides, terms, &alone, &known, k);
        known.push(origin)?;
    }
    Ok(known)
}

/// By operation of the block, of which there are `count`, one of the rows that is known to be it.
fn partners_of(
    alloc: Global,
    known: &[Option<usize>],
    count: usize,
) -> Result<Vec<Option<usize>>, NoMemory>
    ensures size { IfOk result (λ partners. length partners.items ≡ count) }
    ensures each { IfOk result (λ partners. ArePartners known.now (length known.now) partners.items) }
{
    let mut partners = vec![in alloc; None; count]?;
    for (k, origin) in known.iter().enumerate() {
        if let Some(i) = *origin
            && i < partners.len()
        {
            partners[i] = Some(k);
        }
    }
    Ok(partners)
}

/// The operation of the block that operation k of the rows is known to be, or else the last of its label, if it is the last of
/// the rows.
fn origin_of(
    known: &[Option<usize>],
    here: &Left,
    there: &Left,
    ops: &[Op],
    k: usize,
) -> Option<usize>
    requires within { k < length ops.now }
    requires there { AreLeft ops.now known.now (length ops.now) there.now }
    ensures { (block : List op_value) (partners : List (Option ℕ)) → length partners ≡ length block
        → ArePartners known.now (length known.now) partners → AreLeft block partners (length block) here.now
        → (i : ℕ) → (result ≡ Some i)
        ↔ ((origin_at known.now k ≡ Some i) ⊎ AreLast block ops.now known.now i k) }
{
    let known = origin_at(known, k);
    if known.is_some() {
        return known;
    }
    let i = here.only(&ops[k])?;
    let l = there.only(&ops[k])?;
    if l == k { Some(i) } else { None }
}

/// By operation of the rows the one of the block that it is, where it can be no other.
fn origins_among(
    alloc: Global,
    sides: &Sides,
    known: &[Option<usize>],
) -> Result<Vec<Option<usize>>, NoMemory>
    requires size { length known.now ≡ length sides.now.schedule.now.ops }
    requires each { AreKnown sides.now.latencies.now sides.now.block.items sides.now.schedule.now.ops
        sides.now.schedule.now.rows known.now }
    ensures { IfOk result (λ origins. AreOrigins sides.now.latencies.now sides.now.block.items sides.now.schedule.now.ops
        sides.now.schedule.now.rows origins.items) }
{
    let ops = sides.schedule.ops();
    let partners = partners_of(alloc, known, sides.block.len())?;
    let here = Left::of(alloc, &sides.block, &partners)?;
    let there = Left::of(alloc, ops, known)?;
    let mut origins = Vec::with_capacity(alloc, ops.len())?;
    for k in 0..ops.len() {
        origins.push(origin_of(known, &here, &there, ops, k))?;
    }
    Ok(origins)
}

/// The same, of both sides.
fn origins_by(alloc: Global, sides: &Sides) -> Result<Vec<Option<usize>>, NoMemory>
    ensures { IfOk result (λ origins. AreOrigins sides.now.latencies.now sides.now.block.items sides.now.schedule.now.ops
        sides.now.schedule.now.rows origins.items) }
{
    let block = DataFlow::of_block(alloc, &sides.block, &sides.givens)?;
    let sources = sources_of(alloc, &sides.readings)?;
    let rows = DataFlow::of(alloc, sides.schedule.ops(), sides.schedule.rows(), &sources)?;
    let terms = terms_of(alloc, sides, &block, &rows)?;
    let known = known_origins(alloc, sides, &terms)?;
    origins_among(alloc, sides, &known)
}

/// Which operation of its block each of rows that somebody made is, where they aren't known to be by the book: the one that
/// computes the same, or else the only one of its label that is left on both sides. Operations are numbered without `nop`s.
///
/// Promise: each operation has the number of the one that it is by what both compute and by no other computing it, or of the
/// last of its label, where one is left on both sides; the others have none.
pub fn origins_of(
    alloc: Global,
    block: &Block,
    theirs: &Schedule,
    latencies: &Latencies,
) -> Result<Vec<Option<usize>>, NoMemory>
    ensures { IfOk result (λ origins. AreOrigins latencies.now (ops_of block.now.ops) theirs.now.ops theirs.now.rows
        origins.items) }
{
    let sides = Sides::of(alloc, block, theirs, latencies)?;
    origins_by(alloc, &sides)
}

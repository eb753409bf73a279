//! The first colours of operations: label, and place among stores and outputs. Every pairing keeps them.
ghost use Rattle.std.specs.Prelude.{◌≡◌, ◌<◌, ℕ, length, slice_index, IfOk, IfSome};
ghost use Rattle.iloc_validation.specs.Steps.Decisions.{AreKeptColours};
ghost use Rattle.iloc_validation.specs.Steps.FirstColours.{label_colour, first_here, first_there};

use crate::colours::mixing::mix;
use crate::colours::{Coloured, kept_colours};
use crate::numbers::NONE;
use iloc_facts::{ByLabel, Sides};
use iloc_ops::{NoMemory, Op};
use iloc_timed::{Kind, Schedule};
use std::alloc::Global;

/// The colour of the label of an operation: the number of one of the block's that have it, or that of no operation.
fn label_colour(labels: &ByLabel, op: &Op) -> u64
    ensures { result ≡ label_colour labels.now op.now }
{
    labels.number(op).unwrap_or(NONE) as u64
}

/// How many stores and outputs there are so far, modulo 2⁶⁴.
#[derive(Clone, Copy)]
pub(crate) struct Places {
    stores: u64,
    outputs: u64,
}

impl Places {
    ghost use Rattle.std.specs.Prelude.{IfSome};
    ghost use Rattle.iloc_validation.specs.Steps.FirstColours.{first_colour, colour_in, with_op, with_slot};
    ghost use Rattle.iloc_validation.specs.Steps.Numbers.{with_number};

    /// Before the first operation.
    fn none() -> Places
        ensures stores { result.stores ≡ 0 }
        ensures outputs { result.outputs ≡ 0 }
    {
        Places {
            stores: 0,
            outputs: 0,
        }
    }

    /// The colour of the next operation: its label; of a load, a store or an output also how many stores are before it, and
    /// of an output how many outputs.
    fn colour(&self, labels: &ByLabel, op: &Op) -> u64
        ensures { result ≡ first_colour labels.now self.now.stores self.now.outputs op.now }
    {
        let label = label_colour(labels, op);
        match Kind::of(op) {
            Kind::Load | Kind::Store => mix(label, self.stores),
            Kind::Output => mix(mix(label, self.stores), self.outputs),
            Kind::Mult | Kind::Other => label,
        }
    }

    /// Counts an operation.
    fn note(&mut self, op: &Op)
        ensures { self.new ≡ with_op op.now self.old }
    {
        match Kind::of(op) {
            Kind::Store => self.stores = self.stores.wrapping_add(1),
            Kind::Output => self.outputs = self.outputs.wrapping_add(1),
            Kind::Load | Kind::Mult | Kind::Other => {}
        }
    }

    /// Sets the colour of what stands in a slot.
    fn colour_slot(&self, labels: &ByLabel, colours: &mut Vec<u64>, ops: &[Op], slot: Option<usize>)
        requires known { IfSome slot (λ k. k < length ops.now) }
        requires size { length colours.old.items ≡ length ops.now }
        ensures { colours.new.items
            ≡ with_number colours.old.items slot (colour_in labels.now ops.now self.now.stores self.now.outputs slot) }
    {
        if let Some(k) = slot {
            colours[k] = self.colour(labels, &ops[k]);
        }
    }

    /// Counts what stands in a slot.
    fn note_slot(&mut self, ops: &[Op], slot: Option<usize>)
        requires known { IfSome slot (λ k. k < length ops.now) }
        ensures { self.new ≡ with_slot ops.now slot self.old }
    {
        if let Some(k) = slot {
            self.note(&ops[k]);
        }
    }
}

/// By operation of a block its first colour.
fn first_here(alloc: Global, labels: &ByLabel, block: &[Op]) -> Result<Vec<u64>, NoMemory>
    ensures size { IfOk result (λ colours. length colours.items ≡ length block.now) }
    ensures each { IfOk result (λ colours. (i : ℕ) → i < length block.now
        → slice_index colours.items i ≡ first_here labels.now block.now i) }
{
    let mut places = Places::none();
    let mut colours = Vec::with_capacity(alloc, block.len())?;
    for i in 0..block.len() {
        colours.push(places.colour(labels, &block[i]))?;
        places.note(&block[i]);
    }
    Ok(colours)
}

/// By operation of rows its first colour.
fn first_there(alloc: Global, labels: &ByLabel, schedule: &Schedule) -> Result<Vec<u64>, NoMemory>
    ensures size { IfOk result (λ colours. length colours.items ≡ length schedule.now.ops) }
    ensures each { IfOk result (λ colours. (k : ℕ) → k < length schedule.now.ops
        → slice_index colours.items k ≡ first_there labels.now schedule.now.ops schedule.now.rows k) }
{
    let ops = schedule.ops();
    let mut places = Places::none();
    let mut colours = vec![in alloc; 0; ops.len()]?;
    for row in schedule.rows() {
        places.colour_slot(labels, &mut colours, ops, row.zero);
        places.colour_slot(labels, &mut colours, ops, row.one);
        places.note_slot(ops, row.zero);
        places.note_slot(ops, row.one);
    }
    Ok(colours)
}

/// Colours of the operations of a block and of rows that every pairing keeps, or none, where they show that there is no
/// pairing.
pub(crate) fn coloured(alloc: Global, sides: &Sides) -> Result<Option<Coloured>, NoMemory>
    ensures { IfOk result (AreKeptColours sides.now) }
{
    let labels = ByLabel::of(alloc, &sides.block)?;
    let here = first_here(alloc, &labels, &sides.block)?;
    let there = first_there(alloc, &labels, sides.schedule)?;
    kept_colours(alloc, sides, here, there)
}

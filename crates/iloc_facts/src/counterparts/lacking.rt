//! Operations of a block and of rows that have no counterpart.
ghost use Rattle.std.specs.Prelude.{◌≡◌, ◌<◌, ◌==◌, None, length, IfOk, IfSome, IfNone};
ghost use Rattle.iloc_meaning.specs.Trace.{op_at};
ghost use Rattle.iloc_facts.specs.Counts.{lacking, has_operations, IsShort, AreLacking};
ghost use Rattle.iloc_facts.specs.Steps.Counterparts.{IsLackingIn};

use super::chains::counterparts_among;
use crate::label::count_like;
use iloc_ops::{NoMemory, Op};
use std::alloc::Global;

/// Operations that have no counterpart.
#[derive(Clone, Copy, Debug)]
pub struct Lacking {
    /// How many there are, counted without registers.
    pub count: usize,
    /// The number of one that is short.
    pub number: usize,
}

/// How many operations have no counterpart, and the first of them.
fn first_lacking(counterparts: &[Option<usize>]) -> Option<Lacking>
    ensures { IsLackingIn counterparts.now result }
{
    let mut found: Option<Lacking> = None;
    for (number, counterpart) in counterparts.iter().enumerate() {
        if counterpart.is_none() {
            found = Some(match found {
                Some(it) => Lacking {
                    count: it.count + 1,
                    ..it
                },
                None => Lacking { count: 1, number },
            });
        }
    }
    found
}

/// This operation, if it is one that is short; or else that one.
fn short_or(ops: &[Op], others: &[Op], preferred: Option<usize>, number: usize) -> usize
    requires within { number < length ops.now }
    requires short { IsShort (op_at ops.now number) ops.now others.now }
    ensures within { result < length ops.now }
    ensures short { IsShort (op_at ops.now result) ops.now others.now }
{
    if let Some(i) = preferred
        && i < ops.len()
        && count_like(&ops[i], others) < count_like(&ops[i], ops)
    {
        return i;
    }
    number
}

/// How many operations have no counterpart among the others, by labels, and the number of one of which there are too few:
/// of this one, if it is short.
///
/// Promise: how many operations have no counterpart among the others, and one that is short there.
pub fn without_counterpart(
    alloc: Global,
    ops: &[Op],
    others: &[Op],
    preferred: Option<usize>,
) -> Result<Option<Lacking>, NoMemory>
    ensures none { IfOk result (λ found. IfNone found (lacking ops.now others.now ≡ 0)) }
    ensures some { IfOk result (λ found. IfSome found (AreLacking ops.now others.now)) }
{
    let counterparts = counterparts_among(alloc, ops, others)?;
    match first_lacking(&counterparts) {
        Some(it) => {
            let number = short_or(ops, others, preferred, it.number);
            Ok(Some(Lacking { number, ..it }))
        }
        None => Ok(None),
    }
}

/// Whether each operation has a counterpart among the others.
fn have_counterparts(alloc: Global, ops: &[Op], others: &[Op]) -> Result<bool, NoMemory>
    ensures { IfOk result (λ yes. yes ≡ (lacking ops.now others.now == 0)) }
{
    Ok(without_counterpart(alloc, ops, others, None)?.is_none())
}

/// Whether `ops` are the operations of `block`, which has no `nop`s, whatever registers they name.
pub fn has_operations(alloc: Global, block: &[Op], ops: &[Op]) -> Result<bool, NoMemory>
    ensures { IfOk result (λ yes. yes ≡ has_operations block.now ops.now) }
{
    let none_left_out = have_counterparts(alloc, block, ops)?;
    let none_added = have_counterparts(alloc, ops, block)?;
    Ok(none_left_out && none_added)
}

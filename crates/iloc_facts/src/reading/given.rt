//! What the operations of a block read, one after another.
ghost use Rattle.std.specs.Prelude.{◌≡◌, ◌<◌, ℕ, length, IfOk};
ghost use Rattle.iloc_ops.specs.Registers.{used};
ghost use Rattle.iloc_meaning.specs.Trace.{op_at};
ghost use Rattle.iloc_rules.specs.Renaming.{without_nops};
ghost use Rattle.iloc_facts.specs.Readings.{given, sources_of, sources_at};

use crate::reading::holders::Holders;
use crate::reading::sources::Sources;
use iloc_ops::{Block, NoMemory, Op, defines};
use std::alloc::Global;

/// Promise: the operations of a block but for its `nop`s.
pub fn without_nops(alloc: Global, block: &Block) -> Result<Vec<Op>, NoMemory>
    ensures { IfOk result (λ ops. ops.items ≡ without_nops block.now.ops) }
{
    let mut ops = Vec::with_capacity(alloc, block.ops.len())?;
    for op in block.ops.as_slice() {
        if !matches!(op, Op::Nop) {
            ops.push(*op)?;
        }
    }
    Ok(ops)
}

/// By operation what it reads, where all are executed in order.
pub(crate) fn givens(alloc: Global, block: &[Op]) -> Result<Vec<Sources>, NoMemory>
    ensures size { IfOk result (λ givens. length givens.items ≡ length block.now) }
    ensures each { IfOk result (λ givens. (i : ℕ) → i < length block.now
        → sources_at givens.items i ≡ sources_of (given block.now i) (used (op_at block.now i))) }
{
    let mut holders = Holders::none(alloc);
    let mut givens = Vec::with_capacity(alloc, block.len())?;
    for (i, op) in block.iter().enumerate() {
        givens.push(holders.sources(op))?;
        if let Some(register) = defines(op) {
            holders.set(register, i)?;
        }
    }
    Ok(givens)
}

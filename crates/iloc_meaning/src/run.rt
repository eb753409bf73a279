//! The plain run of a block: one operation after another.
ghost use Rattle.std.specs.Prelude.{◌≡◌, IfOk};
ghost use Rattle.iloc_meaning.specs.Outcome.{outcome};

use crate::interpreter::Interpreter;
use crate::memory::Memory;
use crate::outcome::Outcome;
use iloc_ops::{Block, NoMemory};
use std::alloc::Global;

/// Promise: the outcome of a block that starts with all registers 0 and this memory.
///
/// After a refusal of memory, as after a fault, the memory is dropped.
pub fn run_block(alloc: Global, block: &Block, memory: Memory) -> Result<Outcome, NoMemory>
    ensures { IfOk result (λ o. o ≡ outcome block.now.ops memory) }
{
    let mut interpreter = Interpreter::new(alloc, memory)?;
    interpreter.run(block)?;
    Ok(interpreter.into_outcome())
}

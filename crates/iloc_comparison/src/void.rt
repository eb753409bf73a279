//! Blocks whose outcome says nothing of rows.
ghost use Rattle.std.specs.Prelude.{◌≡◌, ◌≢◌, ◌≤◌, ◌↔◌, true, false, length, take, IfOk, IsTrue, MatchOption};
ghost use Rattle.iloc_meaning.specs.Outcome.{outcome};
ghost use Rattle.iloc_meaning.specs.declared.outcome.Outcome.TheVariants.{Fault};
ghost use Rattle.iloc_comparison.specs.Void.{CanBeJudged, FaultsAt, IsVoid, shows_something};

use iloc_meaning::{Interpreter, Memory};
use iloc_ops::{Block, NoMemory, Op, Ops};
use iloc_timed::Kind;
use std::alloc::Global;

/// Why a block's outcome says nothing of rows.
#[derive(Clone, Copy, Debug, PartialEq, Eq)]
pub enum Void {
    /// On the memory handed in it faults, at this operation.
    Faults(Op),
    /// It has neither a store nor an output or, where outputs alone are compared, no output.
    ShowsNothing,
}

/// Whether the block of the first `count` operations of `block` faults.
fn prefix_faults(
    alloc: Global,
    interpreter: &mut Interpreter,
    block: &Block,
    count: usize,
) -> Result<bool, NoMemory>
    requires { count ≤ length block.now.ops }
    ensures memory { interpreter.new.memory ≡ interpreter.old.memory }
    ensures faults { IfOk result (λ faults.
        IsTrue faults ↔ (outcome (take count block.now.ops) interpreter.old.memory ≡ Fault)) }
{
    let ops = Vec::from_slice(alloc, &block.ops.as_slice()[..count])?;
    interpreter.run(&Block {
        name: None,
        ops: Ops::new(ops),
    })?;
    Ok(interpreter.outputs().is_none())
}

/// The operation at which a block faults on a memory, if it does.
fn fault(alloc: Global, block: &Block, memory: &Memory) -> Result<Option<Op>, NoMemory>
    ensures { IfOk result (λ op. MatchOption op
        (outcome block.now.ops memory.now ≢ Fault) (FaultsAt block.now.ops memory.now)) }
{
    let mut interpreter = Interpreter::new(alloc, memory.copy()?)?;
    let mut faulting = block.ops.len();
    if !prefix_faults(alloc, &mut interpreter, block, faulting)? {
        return Ok(None);
    }
    let mut finishing = 0;
    while finishing + 1 < faulting {
        let middle = finishing + (faulting - finishing) / 2;
        if prefix_faults(alloc, &mut interpreter, block, middle)? {
            faulting = middle;
        } else {
            finishing = middle;
        }
    }
    Ok(Some(block.ops.as_slice()[finishing]))
}

/// Whether a block has an output.
fn has_output(block: &Block) -> bool
    ensures { result ≡ shows_something true block.now.ops }
{
    block
        .ops
        .as_slice()
        .iter()
        .any(|op| matches!(Kind::of(op), Kind::Output))
}

/// Whether a block has a store or an output.
fn has_store_or_output(block: &Block) -> bool
    ensures { result ≡ shows_something false block.now.ops }
{
    block
        .ops
        .as_slice()
        .iter()
        .any(|op| matches!(Kind::of(op), Kind::Store | Kind::Output))
}

/// Whether a block has a store or an output, or an output where outputs alone are compared.
fn shows_something(outputs_alone: bool, block: &Block) -> bool
    ensures { result ≡ shows_something outputs_alone block.now.ops }
{
    if outputs_alone {
        has_output(block)
    } else {
        has_store_or_output(block)
    }
}

/// Why a block's outcome on a memory, or what it emits there, says nothing of rows, if it doesn't.
pub(crate) fn why_void(
    alloc: Global,
    outputs_alone: bool,
    block: &Block,
    memory: &Memory,
) -> Result<Option<Void>, NoMemory>
    ensures { IfOk result (λ why. MatchOption why
        (CanBeJudged outputs_alone block.now.ops memory.now) (IsVoid outputs_alone block.now.ops memory.now)) }
{
    if let Some(op) = fault(alloc, block, memory)? {
        return Ok(Some(Void::Faults(op)));
    }
    if !shows_something(outputs_alone, block) {
        return Ok(Some(Void::ShowsNothing));
    }
    Ok(None)
}

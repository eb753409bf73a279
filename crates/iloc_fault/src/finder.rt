//! Finding where a block faults.
ghost use Rattle.std.specs.Prelude.{◌≡◌, ◌≢◌, IfOk, MatchOption};
ghost use Rattle.iloc_meaning.specs.Outcome.{outcome};
ghost use Rattle.iloc_meaning.specs.declared.outcome.Outcome.TheVariants.{Fault};
ghost use Rattle.iloc_fault.specs.Place.{IsFaultPlace};

use crate::place::{FaultPlace, reached};
use iloc_meaning::{MachineState, Memory};
use iloc_ops::{Block, NoMemory, Op};
use std::alloc::Global;
use std::marker::Model;

/// The place of the first of `ops` that faults, if one does, where they are run from the start on the memory that was
/// first passed in.
fn first_fault(state: &mut MachineState, ops: &[Op]) -> Result<Option<FaultPlace>, NoMemory>
    ensures first { state.new.memory.first ≡ state.old.memory.first }
    ensures place { IfOk result (λ place. MatchOption place
        (outcome ops.now state.old.memory.first ≢ Fault) (IsFaultPlace ops.now state.old.memory.first)) }
{
    state.restart();
    for (operation, op) in ops.iter().enumerate() {
        let address = reached(op, &state.registers).unwrap_or(0);
        if !state.step(op)? {
            return Ok(Some(FaultPlace { operation, address }));
        }
    }
    Ok(None)
}

/// Finds where blocks fault, one after another, each with all registers 0 and the memory that was first passed in.
#[derive(Drop)]
pub struct FaultFinder {
    state: MachineState,
}

impl Model for FaultFinder {
    ghost use Rattle.std.specs.Prelude.{List, ℤ};

    ghost Value = { List ℤ };

    ghost view = { λ finder. finder.state.memory.first };
}

impl FaultFinder {
    /// Promise: one whose blocks all start with this memory.
    pub fn new(alloc: Global, memory: Memory) -> Result<FaultFinder, NoMemory>
        ensures { IfOk result (λ finder. finder ≡ memory) }
    {
        Ok(FaultFinder {
            state: MachineState::new(alloc, memory)?,
        })
    }

    /// Promise: the place at which a block faults, or none if it doesn't, whatever ran before.
    pub fn find(&mut self, block: &Block) -> Result<Option<FaultPlace>, NoMemory>
        ensures memory { self.new ≡ self.old }
        ensures place { IfOk result (λ place. MatchOption place
            (outcome block.now.ops self.old ≢ Fault) (IsFaultPlace block.now.ops self.old)) }
    {
        first_fault(&mut self.state, block.ops.as_slice())
    }
}

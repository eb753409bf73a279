//! Plain runs of blocks, one after another on one memory.
ghost use Rattle.std.specs.Prelude.{◌≡◌, [], IfOk, OnOk};
ghost use Rattle.std.specs.Option.{option_copied};
ghost use Rattle.iloc_meaning.specs.Outcome.{outcome, shown};

use crate::machine_state::MachineState;
use crate::memory::Memory;
use crate::outcome::Outcome;
use iloc_ops::{Block, NoMemory};
use std::alloc::Global;
use std::marker::Model;

/// Runs blocks plainly, one after another, each with all registers 0 and the memory that was first passed in.
/// It holds that memory and no copy: what a block wrote is undone before the next one runs.
#[derive(Drop)]
pub struct Interpreter {
    state: MachineState,
}

impl Model for Interpreter {
    ghost use Rattle.iloc_meaning.specs.Outcome.{Runs};
    ghost use Rattle.iloc_meaning.specs.MachineState.{leaves};

    ghost Value = { Runs };

    ghost view = { λ i. record { memory = i.state.memory.first; last = leaves i.state.finished i.state } };
}

impl Interpreter {
    /// Promise: an interpreter whose blocks all start with this memory; until the first one runs, its outcome is that of
    /// a block without operations.
    pub fn new(alloc: Global, memory: Memory) -> Result<Interpreter, NoMemory>
        ensures { IfOk result (λ it. it ≡ record { memory = memory; last = Outcome.Finished [] memory }) }
    {
        Ok(Interpreter {
            state: MachineState::new(alloc, memory)?,
        })
    }

    /// Promise: runs a block, whose outcome is then the block's outcome on the first memory, whatever ran before.
    ///
    /// After a refusal of memory the outcome is unspecified, and the next block runs as after any other.
    pub fn run(&mut self, block: &Block) -> Result<(), NoMemory>
        ensures memory { self.new.memory ≡ self.old.memory }
        ensures outcome { OnOk result (self.new.last ≡ outcome block.now.ops self.old.memory) }
    {
        self.state.finished = self.state.run(block.ops.as_slice())?;
        Ok(())
    }

    /// Promise: the words that the last block emitted, in order, or `None` if it faulted.
    pub fn outputs(&self) -> Option<&[i32]>
        ensures { option_copied result ≡ shown self.now.last }
    {
        self.state.outputs()
    }

    /// Promise: the outcome of the last block.
    pub fn into_outcome(self) -> Outcome
        ensures { result ≡ self.last }
    {
        self.state.into_outcome()
    }
}

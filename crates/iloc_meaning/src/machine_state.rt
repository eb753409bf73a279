//! What a run changes: registers, memory and emitted words.
ghost use Rattle.std.specs.Prelude.{◌≡◌, true, [], List, ℤ, pos, length, IfOk};
ghost use Rattle.std.specs.Option.{option_copied};
ghost use Rattle.iloc_meaning.specs.Outcome.{outcome, shown};

use crate::effect::Effect;
use crate::memory::{Memory, WORDS};
use crate::outcome::Outcome;
use crate::registers::Registers;
use crate::scratch::Scratch;
use crate::words::Words;
use iloc_ops::{NoMemory, Op, defines};
use std::alloc::Global;

/// The registers, the memory and the emitted words of a run, and whether it came to its end.
#[derive(Drop)]
pub struct MachineState {
    /// The values of the registers.
    pub registers: Registers,
    /// The memory, which can be restored to the one that was first passed in.
    pub memory: Scratch,
    /// The emitted words, in order.
    pub outputs: Vec<i32>,
    /// Whether the last run came to its end, and wasn't ended by a fault.
    pub finished: bool,
}

impl MachineState {
    ghost use Rattle.iloc_ops.specs.declared.op.Reg.{Reg};
    ghost use Rattle.iloc_meaning.specs.Registers.{value_of};
    ghost use Rattle.iloc_meaning.specs.MachineState.{After, Follows, leaves};
    ghost use Rattle.iloc_meaning.specs.Trace.{Executed, then_executed};

    /// Promise: a run without operations, at its end: all registers 0, this memory, no output.
    pub fn new(alloc: Global, memory: Memory) -> Result<MachineState, NoMemory>
        ensures registers { IfOk result (λ state. (r : Reg) → value_of state.registers r ≡ pos 0) }
        ensures memory { IfOk result (λ state. state.memory ≡ record { first = memory; words = memory }) }
        ensures outputs { IfOk result (λ state. state.outputs.items ≡ []) }
        ensures finished { IfOk result (λ state. state.finished ≡ true) }
    {
        Ok(MachineState {
            registers: Registers::new(alloc)?,
            memory: Scratch::new(alloc, memory),
            outputs: Vec::new(alloc),
            finished: true,
        })
    }

    /// Promise: all registers 0, the memory that was first passed in, no output.
    pub fn restart(&mut self)
        ensures registers { (r : Reg) → value_of self.new.registers r ≡ pos 0 }
        ensures memory { self.new.memory ≡ record { first = self.old.memory.first; words = self.old.memory.first } }
        ensures outputs { self.new.outputs.items ≡ [] }
        ensures size { length self.old.memory.first ≡ WORDS }
    {
        self.registers.clear();
        self.memory.put_back();
        self.outputs.clear();
        prove_eq!(self.memory.memory().word_count(), WORDS);
    }

    /// Takes one operation. Answers whether the run goes on: it ends at a fault.
    ///
    /// Promise: a state that follows a trace follows it with this operation too, or the operation faults.
    #[inline(always)]
    pub fn step(&mut self, op: &Op) -> Result<bool, NoMemory>
        ensures first { self.new.memory.first ≡ self.old.memory.first }
        ensures after { IfOk result (λ goes_on. (memory : List ℤ) (trace : List Executed) →
            Follows memory trace self.old →
            After goes_on memory (then_executed memory op.now trace) self.new) }
    {
        match Effect::of(op, &self.registers, self.memory.memory()) {
            Effect::Faults => return Ok(false),
            Effect::Gives(result) => {
                let Some(register) = defines(op) else {
                    unreachable!()
                };
                self.registers.set(register, result)?;
            }
            Effect::Writes { address, word } => self.memory.set(address, word)?,
            Effect::Emits(word) => self.outputs.push(word)?,
            Effect::Nothing => {}
        }
        Ok(true)
    }

    /// Runs operations from the start, on the memory that was first passed in. Answers whether the run came to their
    /// end: a fault ends it.
    pub(crate) fn run(&mut self, ops: &[Op]) -> Result<bool, NoMemory>
        ensures first { self.new.memory.first ≡ self.old.memory.first }
        ensures outcome { IfOk result (λ finished.
            leaves finished self.new ≡ outcome ops.now self.old.memory.first) }
    {
        self.restart();
        for op in ops {
            if !self.step(op)? {
                return Ok(false);
            }
        }
        Ok(true)
    }

    /// Promise: the words that the last run emitted, in order, or `None` if it faulted.
    pub fn outputs(&self) -> Option<&[i32]>
        ensures { option_copied result ≡ shown (leaves self.now.finished self.now) }
    {
        if self.finished {
            Some(self.outputs.as_slice())
        } else {
            None
        }
    }

    /// Promise: the outcome of the last run.
    pub fn into_outcome(self) -> Outcome
        ensures { result ≡ leaves self.finished self }
    {
        if !self.finished {
            return Outcome::Fault;
        }
        Outcome::Finished {
            outputs: Words::new(self.outputs),
            memory: self.memory.into_memory(),
        }
    }
}

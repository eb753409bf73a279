//! A schedule in mid-run.
ghost use Rattle.std.specs.Prelude.{ℕ, ◌≡◌, ◌+◌, ◌<◌, ◌≤◌, pos, [], ◌∷◌, ◌++◌, List, ℤ, length, map, fold, option_to_list, All, IfOk, OnOk, IfSome, IsTrue, true};
ghost use Rattle.iloc_ops.specs.declared.op.Op.{Op as op_value};
ghost use Rattle.iloc_ops.specs.declared.op.Reg.{Reg as Register};
ghost use Rattle.iloc_meaning.specs.Outcome.{shown};
ghost use Rattle.std.specs.Option.{option_copied};
ghost use Rattle.iloc_timed.specs.declared.latencies.Latencies.{Latencies as latencies_value};
ghost use Rattle.iloc_timed.specs.declared.row.Row.{Row as row_value};
ghost use Rattle.iloc_timed.specs.Latency.{latency};
ghost use Rattle.iloc_meaning.specs.Address.{is_good};
ghost use Rattle.iloc_meaning.specs.Memory.{word_at};
ghost use Rattle.iloc_meaning.specs.Registers.{value_of};
ghost use Rattle.iloc_timed.specs.Limits.{LONGEST_LATENCY};
ghost use Rattle.iloc_timed.specs.Steps.Pending.{landed_in_register, landed_in_word, CanLand};

use crate::row::Row;
use crate::schedule::{MAX_ROWS, Schedule};
use crate::wheel::{LONGEST, Pending, Wheel};
use iloc_meaning::{Effect, MachineState, Memory, Registers, Scratch};
use iloc_ops::{NoMemory, Op, defines};
use std::alloc::Global;

/// Writes a result where it goes.
fn land_one(
    registers: &mut Registers,
    memory: &mut Scratch,
    pending: Pending,
) -> Result<(), NoMemory>
    requires { CanLand pending }
    ensures first { memory.new.first ≡ memory.old.first }
    ensures registers { OnOk result ((r : Register)
        → value_of registers.new r ≡ landed_in_register r (value_of registers.old r) pending) }
    ensures words { OnOk result ((a : ℕ) → IsTrue (is_good (pos a))
        → word_at memory.new.words a ≡ landed_in_word a (word_at memory.old.words a) pending) }
    ensures size { OnOk result (length memory.new.words ≡ length memory.old.words) }
{
    match pending {
        Pending::Register { register, value } => registers.set(register, value)?,
        Pending::Word { address, word } => memory.set(address, word)?,
    }
    Ok(())
}

/// Writes results where they go, in order.
fn land_all(
    registers: &mut Registers,
    memory: &mut Scratch,
    due: &[Pending],
) -> Result<(), NoMemory>
    requires { All CanLand due.now }
    ensures first { memory.new.first ≡ memory.old.first }
    ensures registers { OnOk result ((r : Register)
        → value_of registers.new r ≡ fold (landed_in_register r) (value_of registers.old r) due.now) }
    ensures words { OnOk result ((a : ℕ) → IsTrue (is_good (pos a))
        → word_at memory.new.words a ≡ fold (landed_in_word a) (word_at memory.old.words a) due.now) }
    ensures size { OnOk result (length memory.new.words ≡ length memory.old.words) }
{
    for pending in due {
        land_one(registers, memory, *pending)?;
    }
    Ok(())
}

/// A schedule in mid-run: results that were due are written, and the others are under way.
#[derive(Drop)]
pub struct Machine {
    pub state: MachineState,
    wheel: Wheel<Pending>,
}

impl Machine {
    ghost use Rattle.std.specs.Prelude.{List, ℤ};
    ghost use Rattle.iloc_timed.specs.Timed.{Issued, issue_all, timed_outcome};
    ghost use Rattle.iloc_timed.specs.Rows.{slots};
    ghost use Rattle.iloc_timed.specs.Steps.Machine.{then_issued, Follows, After};
    ghost use Rattle.iloc_timed.specs.RowByRow.{HasRun};
    ghost use Rattle.iloc_meaning.specs.MachineState.{leaves};

    /// Promise: all registers 0, this memory, nothing under way.
    pub fn new(alloc: Global, memory: Memory) -> Result<Machine, NoMemory>
        ensures memory { IfOk result (λ machine. machine.state.memory ≡ record { first = memory; words = memory }) }
        ensures outputs { IfOk result (λ machine. machine.state.outputs.items ≡ []) }
        ensures finished { IfOk result (λ machine. machine.state.finished ≡ true) }
    {
        Ok(Machine {
            state: MachineState::new(alloc, memory)?,
            wheel: Wheel::new(alloc)?,
        })
    }

    /// All registers 0, the memory that was first passed in, no output, nothing under way.
    fn restart(&mut self)
        ensures first { self.new.state.memory.first ≡ self.old.state.memory.first }
        ensures follows { Follows self.old.state.memory.first 0 [] self.new }
    {
        self.state.restart();
        self.wheel.clear_all();
    }

    /// Writes what is due at a cycle, some results.
    fn land_due(&mut self, cycle: usize) -> Result<(), NoMemory>
        ensures first { self.new.state.memory.first ≡ self.old.state.memory.first }
        ensures follows { OnOk result ((memory : List ℤ) (log : List Issued) →
            Follows memory cycle log self.old → Follows memory (cycle + 1) log self.new) }
    {
        land_all(
            &mut self.state.registers,
            &mut self.state.memory,
            self.wheel.due(cycle),
        )?;
        self.wheel.clear(cycle);
        Ok(())
    }

    /// Writes what is due at a cycle.
    // Inlined, with what is due in a call of its own: so `simulate` executes 4.1 % fewer instructions on blocks of ten operations.
    #[inline(always)]
    fn land(&mut self, cycle: usize) -> Result<(), NoMemory>
        ensures first { self.new.state.memory.first ≡ self.old.state.memory.first }
        ensures follows { OnOk result ((memory : List ℤ) (log : List Issued) →
            Follows memory cycle log self.old → Follows memory (cycle + 1) log self.new) }
    {
        if self.wheel.due(cycle).is_empty() {
            return Ok(());
        }
        self.land_due(cycle)
    }

    /// Issues an operation whose result is due at a cycle. Answers whether the run goes on: it ends
    /// at a fault.
    // Inlined with `issue_slot`: so `simulate` takes 4.7 % fewer instructions.
    #[inline(always)]
    fn issue(&mut self, op: &Op, due: usize) -> Result<bool, NoMemory>
        ensures first { self.new.state.memory.first ≡ self.old.state.memory.first }
        ensures after { IfOk result (λ goes_on. (memory : List ℤ) (c : ℕ) (log : List Issued) →
            c ≤ due → due < c + LONGEST_LATENCY → Follows memory c log self.old →
            After goes_on memory c (then_issued memory c due op.now log) self.new) }
    {
        match Effect::of(op, &self.state.registers, self.state.memory.memory()) {
            Effect::Faults => return Ok(false),
            Effect::Gives(value) => {
                let Some(register) = defines(op) else {
                    unreachable!()
                };
                self.wheel.push(due, Pending::Register { register, value })?;
            }
            Effect::Writes { address, word } => {
                self.wheel.push(due, Pending::Word { address, word })?;
            }
            Effect::Emits(word) => self.state.outputs.push(word)?,
            Effect::Nothing => {}
        }
        Ok(true)
    }

    /// Issues the operation in a slot. Answers whether the run goes on. Of each of `ops` the latency is in `own`.
    #[inline(always)]
    fn issue_slot(
        &mut self,
        ops: &[Op],
        own: &[u32],
        slot: Option<usize>,
        cycle: usize,
    ) -> Result<bool, NoMemory>
        requires known { IfSome slot (λ i. i < length ops.now) }
        requires size { length own.now ≡ length ops.now }
        requires early { cycle ≤ MAX_ROWS }
        ensures first { self.new.state.memory.first ≡ self.old.state.memory.first }
        ensures after { IfOk result (λ goes_on. (lat : latencies_value) (memory : List ℤ) (log : List Issued) →
            own.now ≡ map (latency lat) ops.now → Follows memory (cycle + 1) log self.old →
            After goes_on memory (cycle + 1) (issue_all lat memory ops.now cycle (option_to_list slot) log) self.new) }
    {
        match slot {
            Some(i) => self.issue(&ops[i], cycle + own[i] as usize),
            None => Ok(true),
        }
    }

    /// Writes what is due at a cycle, and issues the operations of its row. Answers whether the run
    /// goes on.
    fn run_row(&mut self, ops: &[Op], own: &[u32], row: Row, cycle: usize) -> Result<bool, NoMemory>
        requires zero { IfSome row.zero (λ i. i < length ops.now) }
        requires one { IfSome row.one (λ i. i < length ops.now) }
        requires size { length own.now ≡ length ops.now }
        requires early { cycle ≤ MAX_ROWS }
        ensures first { self.new.state.memory.first ≡ self.old.state.memory.first }
        ensures after { IfOk result (λ goes_on. (lat : latencies_value) (memory : List ℤ) (log : List Issued) →
            own.now ≡ map (latency lat) ops.now → Follows memory cycle log self.old →
            After goes_on memory (cycle + 1) (issue_all lat memory ops.now cycle (slots row) log) self.new) }
    {
        self.land(cycle)?;
        if !self.issue_slot(ops, own, row.zero, cycle)? {
            return Ok(false);
        }
        self.issue_slot(ops, own, row.one, cycle)
    }

    /// Starts a run of a schedule, whose rows are then run one by one, on the memory that was first passed in.
    pub fn begin(&mut self)
        ensures first { self.new.state.memory.first ≡ self.old.state.memory.first }
        ensures ran { (lat : latencies_value) (ops : List op_value) → HasRun lat ops [] self.new }
    {
        self.restart();
        self.state.finished = true;
    }

    /// Runs the row of a cycle, the next after those that were run, unless a fault has ended the run. Of each of `ops`, the
    /// operations of the schedule, the latency is in `own`.
    ///
    /// Promise: what has run of the schedule has run with this row too.
    pub fn take_row(
        &mut self,
        ops: &[Op],
        own: &[u32],
        row: Row,
        cycle: usize,
    ) -> Result<(), NoMemory>
        requires zero { IfSome row.zero (λ i. i < length ops.now) }
        requires one { IfSome row.one (λ i. i < length ops.now) }
        requires size { length own.now ≡ length ops.now }
        requires early { cycle ≤ MAX_ROWS }
        ensures first { self.new.state.memory.first ≡ self.old.state.memory.first }
        ensures ran { OnOk result ((lat : latencies_value) (rows : List row_value) →
            own.now ≡ map (latency lat) ops.now → length rows ≡ cycle →
            HasRun lat ops.now rows self.old → HasRun lat ops.now (rows ++ row ∷ []) self.new) }
    {
        if !self.state.finished {
            return Ok(());
        }
        self.state.finished = self.run_row(ops, own, row, cycle)?;
        Ok(())
    }

    /// Promise: the words that the rows emitted that have run, in order, or `None` if one faulted.
    pub fn outputs(&self) -> Option<&[i32]>
        ensures { (lat : latencies_value) (ops : List op_value) (rows : List row_value) → HasRun lat ops rows self.now →
            option_copied result ≡ shown (timed_outcome lat ops rows self.now.state.memory.first) }
    {
        self.state.outputs()
    }

    /// Writes whatever is under way, from a cycle on.
    fn land_rest(&mut self, from: usize) -> Result<(), NoMemory>
        requires { from ≤ MAX_ROWS }
        ensures first { self.new.state.memory.first ≡ self.old.state.memory.first }
        ensures follows { OnOk result ((memory : List ℤ) (log : List Issued) →
            Follows memory from log self.old → Follows memory (from + LONGEST_LATENCY) log self.new) }
    {
        for cycle in from..from + LONGEST {
            self.land(cycle)?;
        }
        Ok(())
    }

    /// Runs a schedule from the start to its end, on the memory that was first passed in. Of each of its operations the latency is
    /// in `own`.
    pub(crate) fn run(&mut self, schedule: &Schedule, own: &[u32]) -> Result<(), NoMemory>
        requires size { length own.now ≡ length schedule.now.ops }
        ensures first { self.new.state.memory.first ≡ self.old.state.memory.first }
        ensures outcome { OnOk result ((lat : latencies_value) → own.now ≡ map (latency lat) schedule.now.ops →
            leaves self.new.state.finished self.new.state
            ≡ timed_outcome lat schedule.now.ops schedule.now.rows self.old.state.memory.first) }
    {
        self.begin();
        let ops = schedule.ops();
        let rows = schedule.rows();
        for (cycle, row) in rows.iter().enumerate() {
            self.take_row(ops, own, *row, cycle)?;
        }
        if !self.state.finished {
            return Ok(());
        }
        self.land_rest(rows.len())?;
        self.state.finished = true;
        Ok(())
    }
}

//! Runs of schedules in terms.
ghost use Rattle.std.specs.Prelude.{◌≡◌, ◌+◌, ◌<◌, ◌≤◌, ◌∷◌, length, [], option_to_list, List, ℕ, IfOk, OnOk, IfSome};
ghost use Rattle.iloc_timed.specs.Timed.{Issued, issue_all, issued_before};
ghost use Rattle.iloc_timed.specs.Rows.{slots};
ghost use Rattle.iloc_timed.specs.Steps.Machine.{then_issued};
ghost use Rattle.iloc_terms.specs.Steps.Terms.{Adds};
ghost use Rattle.iloc_terms.specs.Steps.Symbols.{HasLanded};

mod action;
mod registers;
mod sent;

use crate::table::Table;
use action::Action;
use iloc_ops::{NoMemory, Op, Reg, defines};
use iloc_timed::{LONGEST, Latencies, MAX_ROWS, Row, Schedule, Wheel, latency};
use registers::TermRegisters;
use sent::Sent;
use std::alloc::Global;

/// Writes what was sent where it goes. Answers the memory then.
fn land_one(
    table: &mut Table,
    registers: &mut TermRegisters,
    memory: u32,
    sent: Sent,
) -> Result<u32, NoMemory>
    ensures { IfOk result (λ after. Adds table.old table.new (λ _ d.
        HasLanded d registers.old memory (sent ∷ []) registers.new after)) }
{
    match sent {
        Sent::Register { register, value } => {
            registers.set(register, value)?;
            Ok(memory)
        }
        Sent::Word { address, value } => table.written(memory, address, value),
    }
}

/// Writes what is due where it goes, in order. Answers the memory then.
fn land_all(
    table: &mut Table,
    registers: &mut TermRegisters,
    memory: u32,
    due: &[Sent],
) -> Result<u32, NoMemory>
    ensures { IfOk result (λ after. Adds table.old table.new (λ _ d.
        HasLanded d registers.old memory due.now registers.new after)) }
{
    let mut after = memory;
    for sent in due {
        after = land_one(table, registers, after, *sent)?;
    }
    Ok(after)
}

/// A schedule in mid-run, in terms: what was due is written, and the rest is under way.
#[derive(Drop)]
pub(crate) struct Symbols {
    pub(crate) registers: TermRegisters,
    /// The number of its memory.
    pub(crate) memory: u32,
    /// The words that were emitted, in order.
    pub(crate) outputs: Vec<u32>,
    /// The addresses at which something was done.
    pub(crate) addresses: Vec<u32>,
    pub(crate) wheel: Wheel<Sent>,
}

impl Symbols {
    ghost use Rattle.std.specs.Prelude.{option_map};
    ghost use Rattle.iloc_terms.specs.declared.symbols.sent.Sent.TheVariants as S;
    ghost use Rattle.iloc_terms.specs.Steps.Tracking.{Tracks, Keeps, Records, with_sent, Ends};

    /// All registers 0, the memory handed in, nothing under way.
    fn new(alloc: Global, table: &mut Table) -> Result<Symbols, NoMemory>
        ensures { IfOk result (λ it. Adds table.old table.new (λ memory d. Tracks memory d 0 [] it)) }
    {
        Ok(Symbols {
            registers: TermRegisters::new(alloc, table)?,
            memory: table.start()?,
            outputs: Vec::new(alloc),
            addresses: Vec::new(alloc),
            wheel: Wheel::new(alloc)?,
        })
    }

    /// Writes what is due at a cycle.
    fn land(&mut self, table: &mut Table, cycle: usize) -> Result<(), NoMemory>
        ensures { OnOk result (Adds table.old table.new (λ memory d. (log : List Issued) →
            Keeps memory d cycle log self.old → Keeps memory d (cycle + 1) log self.new)) }
    {
        let due = self.wheel.due(cycle);
        self.memory = land_all(table, &mut self.registers, self.memory, due)?;
        self.wheel.clear(cycle);
        Ok(())
    }

    /// Sends a word to a register, if there is one, where it is due at a cycle.
    fn send(&mut self, register: Option<Reg>, value: u32, due: usize) -> Result<(), NoMemory>
        ensures { OnOk result (self.new ≡ record self.old {
          wheel = with_sent due (option_map (λ r. S.Register r value) register) self.old.wheel;
        }) }
    {
        if let Some(register) = register {
            self.wheel.push(due, Sent::Register { register, value })?;
        }
        Ok(())
    }

    /// Does what an operation does that defines this register, if it defines one. What it sends is due at
    /// a cycle.
    fn perform(&mut self, register: Option<Reg>, action: Action, due: usize) -> Result<(), NoMemory>
        ensures { OnOk result (Records register action due self.old self.new) }
    {
        match action {
            Action::Gives(value) => self.send(register, value, due)?,
            Action::Loads { address, value } => {
                self.addresses.push(address)?;
                self.send(register, value, due)?;
            }
            Action::Stores { address, value } => {
                self.addresses.push(address)?;
                self.wheel.push(due, Sent::Word { address, value })?;
            }
            Action::Emits { address, value } => {
                self.addresses.push(address)?;
                self.outputs.push(value)?;
            }
            Action::Nothing => {}
        }
        Ok(())
    }

    /// Issues an operation whose result is due at a cycle.
    fn issue(&mut self, table: &mut Table, op: &Op, due: usize) -> Result<(), NoMemory>
        ensures { OnOk result (Adds table.old table.new (λ memory d. (c : ℕ) (log : List Issued) →
            c ≤ due → due < c + 16 → Keeps memory d c log self.old →
            Keeps memory d c (then_issued memory c due op.now log) self.new)) }
    {
        let action = Action::of(op, &self.registers, self.memory, table)?;
        self.perform(defines(op), action, due)
    }

    /// Issues the operation in a slot.
    fn issue_slot(
        &mut self,
        table: &mut Table,
        ops: &[Op],
        slot: Option<usize>,
        cycle: usize,
        latencies: &Latencies,
    ) -> Result<(), NoMemory>
        requires known { IfSome slot (λ i. i < length ops.now) }
        requires early { cycle ≤ MAX_ROWS }
        ensures { OnOk result (Adds table.old table.new (λ memory d. (log : List Issued) →
            Keeps memory d (cycle + 1) log self.old → Keeps memory d (cycle + 1)
            (issue_all latencies.now memory ops.now cycle (option_to_list slot) log) self.new)) }
    {
        match slot {
            Some(i) => {
                let op = &ops[i];
                self.issue(table, op, cycle + latency(op, latencies) as usize)
            }
            None => Ok(()),
        }
    }

    /// Writes what is due at a cycle, and issues the operations of its row.
    fn run_row(
        &mut self,
        table: &mut Table,
        ops: &[Op],
        row: Row,
        cycle: usize,
        latencies: &Latencies,
    ) -> Result<(), NoMemory>
        requires zero { IfSome row.zero (λ i. i < length ops.now) }
        requires one { IfSome row.one (λ i. i < length ops.now) }
        requires early { cycle ≤ MAX_ROWS }
        ensures { OnOk result (Adds table.old table.new (λ memory d. (log : List Issued) →
            Keeps memory d cycle log self.old → Keeps memory d (cycle + 1)
            (issue_all latencies.now memory ops.now cycle (slots row) log) self.new)) }
    {
        self.land(table, cycle)?;
        self.issue_slot(table, ops, row.zero, cycle, latencies)?;
        self.issue_slot(table, ops, row.one, cycle, latencies)
    }

    /// Writes whatever is under way, from a cycle on.
    fn land_rest(&mut self, table: &mut Table, from: usize) -> Result<(), NoMemory>
        requires { from ≤ MAX_ROWS }
        ensures { OnOk result (Adds table.old table.new (λ memory d. (log : List Issued) →
            Keeps memory d from log self.old → Keeps memory d (from + 16) log self.new)) }
    {
        for cycle in from..from + LONGEST {
            self.land(table, cycle)?;
        }
        Ok(())
    }

    /// The end of a schedule's run.
    pub(crate) fn of(
        alloc: Global,
        table: &mut Table,
        schedule: &Schedule,
        latencies: &Latencies,
    ) -> Result<Symbols, NoMemory>
        ensures { IfOk result (λ it. Adds table.old table.new (λ memory d. Ends memory d
            (issued_before latencies.now memory schedule.now.ops schedule.now.rows (length schedule.now.rows)) it)) }
    {
        let mut symbols = Symbols::new(alloc, table)?;
        let ops = schedule.ops();
        let rows = schedule.rows();
        for (cycle, row) in rows.iter().enumerate() {
            symbols.run_row(table, ops, *row, cycle, latencies)?;
        }
        symbols.land_rest(table, rows.len())?;
        Ok(symbols)
    }
}

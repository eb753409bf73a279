//! A schedule that is listed in mid-run.
ghost use Rattle.std.specs.Prelude.{ℕ, ◌≡◌, ◌+◌, ◌++◌, ◌<◌, ◌≤◌, pos, [], List, ℤ, length, fold, option_to_list, All, IfOk, OnOk, IfSome, IsTrue};
ghost use Rattle.iloc_ops.specs.declared.op.Reg.{Reg as register};
ghost use Rattle.iloc_ops.specs.Registers.{defined};
ghost use Rattle.iloc_meaning.specs.Address.{is_good};
ghost use Rattle.iloc_meaning.specs.Memory.{word_at};
ghost use Rattle.iloc_meaning.specs.Registers.{value_of};
ghost use Rattle.iloc_timed.specs.declared.latencies.Latencies.{Latencies as latencies};
ghost use Rattle.iloc_timed.specs.Rows.{row_at as row_of_cycle};
ghost use Rattle.iloc_trace.specs.declared.event.Place.TheVariants.{Register as in_register, Word as in_word};
ghost use Rattle.iloc_trace.specs.Places.{address_read as word_read, sent, target_of, value_at};
ghost use Rattle.iloc_trace.specs.Steps.Arrivals as steps;
ghost use Rattle.iloc_trace.specs.Steps.Rows.{slot_faults};

use crate::event::{Place, Read, Write};
use crate::listing::{push_reads, push_write};
use crate::under_way::{Arrival, UnderWay, first_for};
use Piece::{Number, Operation, Text};
use arrayvec::ArrayVec;
use iloc_meaning::arithmetic::{constant, sum};
use iloc_meaning::{Effect, Memory, Registers, Scratch};
use iloc_ops::{NoMemory, Op, defines, uses};
use iloc_pieces::{Piece, push_all};
use iloc_timed::{LONGEST, Latencies, MAX_ROWS, Row, Schedule, latency};
use std::alloc::Global;

/// No run takes more cycles.
const MOST_CYCLES: usize = MAX_ROWS + LONGEST;

/// An operation that is issued.
#[derive(Clone, Copy)]
pub(crate) struct Executed {
    pub(crate) op: Op,
    pub(crate) effect: Effect,
    /// The cycle in which it is issued.
    pub(crate) cycle: u64,
    /// What it sends.
    pub(crate) sent: Option<Arrival>,
}

/// The row of a cycle, an empty one after the last.
fn row_at(rows: &[Row], cycle: usize) -> Row
    ensures { result ≡ row_of_cycle rows.now cycle }
{
    rows.get(cycle).copied().unwrap_or_default()
}

/// Whether there is a fault in a slot.
fn faults(slot: Option<Executed>) -> bool
    ensures { result ≡ slot_faults slot }
{
    slot.is_some_and(|executed| executed.effect == Effect::Faults)
}

/// Where the result of an operation with this effect goes.
fn target(op: &Op, effect: Effect) -> Option<Place>
    ensures { result ≡ target_of (defined op.now) effect }
{
    match effect {
        Effect::Gives(_) => match defines(op) {
            Some(register) => Some(Place::Register(register)),
            None => None,
        },
        Effect::Writes { address, .. } => Some(Place::Word(address)),
        _ => None,
    }
}

/// The value that an effect sends, 0 where it sends none.
fn value_sent(effect: Effect) -> i32
    ensures { result ≡ sent effect }
{
    match effect {
        Effect::Gives(value) => value,
        Effect::Writes { word, .. } => word,
        _ => 0,
    }
}

/// The address from which an operation reads a word, if it is good.
fn address_read(op: &Op, registers: &Registers) -> Option<u32>
    ensures { result ≡ word_read op.now (value_of registers.now) }
{
    let address = match *op {
        Op::Load { addr, .. } => registers.get(addr),
        Op::LoadAI { addr, offset, .. } => sum(registers.get(addr), constant(offset)),
        Op::Output { addr } => constant(addr),
        _ => return None,
    };
    Memory::is_good(address).then_some(address.cast_unsigned())
}

/// Lists a result that arrives, and writes it where it goes.
fn land_one(
    text: &mut Vec<u8>,
    registers: &mut Registers,
    memory: &mut Scratch,
    cycle: u64,
    arrival: Arrival,
) -> Result<(), NoMemory>
    requires { steps.CanArrive arrival }
    ensures first { memory.new.first ≡ memory.old.first }
    ensures lists { OnOk result (text.new.items ≡ text.old.items ++ steps.arrival_line cycle arrival
        (value_at (value_of registers.old) (word_at memory.old.words) arrival.place)) }
    ensures registers { OnOk result ((r : register) → value_of registers.new r
        ≡ steps.arrived_in (in_register r) (value_of registers.old r) arrival) }
    ensures words { OnOk result ((a : ℕ) → IsTrue (is_good (pos a)) → word_at memory.new.words a
        ≡ steps.arrived_in (in_word a) (word_at memory.old.words a) arrival) }
{
    let Arrival {
        place,
        value,
        issued,
        ..
    } = arrival;
    let was = match place {
        Place::Register(register) => registers.get(register),
        Place::Word(address) => memory.memory().get(address),
    };
    push_write(
        text,
        Write {
            cycle,
            place,
            value,
            was,
            issued,
        },
    )?;
    match place {
        Place::Register(register) => registers.set(register, value),
        Place::Word(address) => memory.set(address, value),
    }
}

/// Lists and writes what of this is due at a cycle.
fn land_all(
    text: &mut Vec<u8>,
    registers: &mut Registers,
    memory: &mut Scratch,
    cycle: u64,
    coming: &[Arrival],
) -> Result<(), NoMemory>
    requires { All steps.CanArrive coming.now }
    ensures first { memory.new.first ≡ memory.old.first }
    ensures lists { OnOk result (text.new.items ≡ text.old.items ++ steps.arrival_lines cycle
        (value_at (value_of registers.old) (word_at memory.old.words)) (steps.due_now cycle coming.now)) }
    ensures registers { OnOk result ((r : register) → value_of registers.new r
        ≡ fold (steps.arrived_in (in_register r)) (value_of registers.old r) (steps.due_now cycle coming.now)) }
    ensures words { OnOk result ((a : ℕ) → IsTrue (is_good (pos a)) → word_at memory.new.words a
        ≡ fold (steps.arrived_in (in_word a)) (word_at memory.old.words a) (steps.due_now cycle coming.now)) }
{
    for arrival in coming {
        if arrival.due == cycle {
            land_one(text, registers, memory, cycle, *arrival)?;
        }
    }
    Ok(())
}

/// A schedule in mid-run: results that were due are written, and the others are under way.
#[derive(Drop)]
pub(crate) struct TracedMachine {
    pub(crate) registers: Registers,
    pub(crate) memory: Scratch,
    pub(crate) under_way: UnderWay,
}

impl TracedMachine {
    ghost use Rattle.iloc_timed.specs.Rows.{slots};
    ghost use Rattle.iloc_timed.specs.Timed.{Issued, issue_all};
    ghost use Rattle.iloc_trace.specs.Events.{events_after};
    ghost use Rattle.iloc_trace.specs.Listing.{trace_lines};
    ghost use Rattle.iloc_trace.specs.Steps.Rows.{After, Follows, in_slot, place_value, read_at, reads_of, sent_after, sent_in, slot_line};

    /// All registers 0, this memory, nothing under way.
    pub(crate) fn new(alloc: Global, memory: Memory) -> Result<TracedMachine, NoMemory>
        ensures { IfOk result (λ machine. machine.memory ≡ record { first = memory; words = memory }) }
    {
        Ok(TracedMachine {
            registers: Registers::new(alloc)?,
            memory: Scratch::new(alloc, memory),
            under_way: UnderWay::new(alloc),
        })
    }

    /// All registers 0, the memory that was first passed in, nothing under way.
    pub(crate) fn restart(&mut self)
        ensures first { self.new.memory.first ≡ self.old.memory.first }
        ensures follows { (lat : latencies) → Follows lat self.old.memory.first 0 [] self.new }
    {
        self.registers.clear();
        self.memory.put_back();
        self.under_way.clear();
    }

    /// Lists and writes what is due at a cycle.
    fn land(&mut self, text: &mut Vec<u8>, cycle: u64) -> Result<(), NoMemory>
        ensures first { self.new.memory.first ≡ self.old.memory.first }
        ensures can_arrive { All steps.CanArrive self.old.under_way }
        ensures lists { OnOk result (text.new.items ≡ text.old.items
            ++ steps.arrival_lines cycle (place_value self.old) (steps.due_now cycle self.old.under_way)) }
        ensures registers { OnOk result ((r : register) → value_of self.new.registers r
            ≡ fold (steps.arrived_in (in_register r)) (value_of self.old.registers r) (steps.due_now cycle self.old.under_way)) }
        ensures words { OnOk result ((a : ℕ) → IsTrue (is_good (pos a)) → word_at self.new.memory.words a
            ≡ fold (steps.arrived_in (in_word a)) (word_at self.old.memory.words a) (steps.due_now cycle self.old.under_way)) }
        ensures under_way { OnOk result (self.new.under_way ≡ steps.due_later cycle self.old.under_way) }
    {
        land_all(
            text,
            &mut self.registers,
            &mut self.memory,
            cycle,
            self.under_way.as_slice(),
        )?;
        self.under_way.remove_due(cycle);
        Ok(())
    }

    /// What is in a place.
    fn value(&self, place: Place) -> i32
        requires { steps.IsGood place }
        ensures { result ≡ place_value self.now place }
    {
        match place {
            Place::Register(register) => self.registers.get(register),
            Place::Word(address) => self.memory.memory().get(address),
        }
    }

    /// Executes the operation in a slot.
    fn execute(
        &self,
        ops: &[Op],
        slot: Option<usize>,
        cycle: usize,
        latencies: &Latencies,
    ) -> Option<Executed>
        requires known { IfSome slot (λ i. i < length ops.now) }
        requires early { cycle ≤ MOST_CYCLES }
        ensures executed { result ≡ in_slot latencies.now self.now ops.now cycle slot }
        ensures can_arrive { All steps.CanArrive (option_to_list (sent_in result)) }
    {
        let op = ops[slot?];
        let effect = Effect::of(&op, &self.registers, self.memory.memory());
        let cycle = cycle as u64;
        let sent = match target(&op, effect) {
            Some(place) => Some(Arrival {
                place,
                value: value_sent(effect),
                due: cycle + latency(&op, latencies),
                issued: cycle,
            }),
            None => None,
        };
        Some(Executed {
            op,
            effect,
            cycle,
            sent,
        })
    }

    /// What is read in a place, while this is sent too.
    fn read(&self, place: Place, beside: Option<Arrival>) -> Read
        requires { steps.IsGood place }
        ensures { result ≡ read_at self.now (self.now.under_way ++ option_to_list beside) place }
    {
        let first = self.under_way.next_due(place);
        let until = match beside {
            Some(arrival) => first_for(place, first, arrival),
            None => first,
        };
        Read {
            place,
            value: self.value(place),
            until,
        }
    }

    /// What an operation reads, while this is sent too.
    fn reads(&self, op: &Op, beside: Option<Arrival>) -> ArrayVec<Read, 3>
        ensures { result.items ≡ reads_of self.now (self.now.under_way ++ option_to_list beside) op.now }
    {
        let mut reads = ArrayVec::new();
        match uses(op).as_slice() {
            [first, second] if first != second => {
                reads.push(self.read(Place::Register(*first), beside));
                reads.push(self.read(Place::Register(*second), beside));
            }
            [first, ..] => reads.push(self.read(Place::Register(*first), beside)),
            [] => {}
        }
        if let Some(address) = address_read(op, &self.registers) {
            reads.push(self.read(Place::Word(address), beside));
        }
        reads
    }

    /// Lists what is issued in a slot of `unit`, beside what is in the other one: `issue C unit U OPERATION` and what it reads, with
    /// `fault` in place of `issue` where it faults.
    fn list(
        &self,
        text: &mut Vec<u8>,
        unit: u64,
        slot: Option<Executed>,
        beside: Option<Executed>,
    ) -> Result<(), NoMemory>
        ensures { OnOk result (text.new.items ≡ text.old.items ++ slot_line self.now unit slot beside) }
    {
        let Some(executed) = slot else {
            return Ok(());
        };
        let reads = self.reads(&executed.op, beside.and_then(|other| other.sent));
        push_all(
            text,
            &[
                Text(if faults(slot) { "fault " } else { "issue " }),
                Number(executed.cycle),
                Text(" unit "),
                Number(unit),
                Text(" "),
                Operation(executed.op),
            ],
        )?;
        push_reads(text, &executed.op, reads.as_slice())?;
        Ok(text.push(b'\n')?)
    }

    /// Has what was sent in a slot on its way.
    fn send(&mut self, slot: Option<Executed>) -> Result<(), NoMemory>
        requires { All steps.CanArrive (option_to_list (sent_in slot)) }
        ensures first { self.new.memory.first ≡ self.old.memory.first }
        ensures sent { OnOk result (self.new ≡ sent_after self.old slot) }
    {
        match slot.and_then(|executed| executed.sent) {
            Some(arrival) => self.under_way.push(arrival),
            None => Ok(()),
        }
    }

    /// Lists and does what happens at a cycle of `schedule`. Answers whether the run goes on: a fault ends it.
    pub(crate) fn run_row(
        &mut self,
        text: &mut Vec<u8>,
        schedule: &Schedule,
        cycle: usize,
        latencies: &Latencies,
    ) -> Result<bool, NoMemory>
        requires { cycle ≤ MOST_CYCLES }
        ensures first { self.new.memory.first ≡ self.old.memory.first }
        ensures lists { OnOk result ((memory : List ℤ) (log : List Issued) →
            Follows latencies.now memory cycle log self.old → text.new.items ≡ text.old.items
            ++ trace_lines (events_after latencies.now memory schedule.now.ops (row_of_cycle schedule.now.rows cycle) cycle log)) }
        ensures after { IfOk result (λ goes_on. (memory : List ℤ) (log : List Issued) →
            Follows latencies.now memory cycle log self.old → After goes_on latencies.now memory (cycle + 1)
            (issue_all latencies.now memory schedule.now.ops cycle (slots (row_of_cycle schedule.now.rows cycle)) log) self.new) }
    {
        self.land(text, cycle as u64)?;
        let ops = schedule.ops();
        let row = row_at(schedule.rows(), cycle);
        let zero = self.execute(ops, row.zero, cycle, latencies);
        let one = self.execute(ops, row.one, cycle, latencies);
        self.list(text, 0, zero, one)?;
        self.list(text, 1, one, zero)?;
        self.send(zero)?;
        self.send(one)?;
        Ok(!(faults(zero) || faults(one)))
    }
}

//! The kept edges where operations whose addresses are known to differ don't wait for each other by memory.
ghost use Rattle.std.specs.Prelude.{◌≡◌, ◌≤◌, ◌<◌, ◌+◌, ◌*◌, List, length, map, OnOk};
ghost use Rattle.iloc_ops.specs.declared.op.Op.{Op as operation};
ghost use Rattle.iloc_meaning.specs.Trace.{op_at};
ghost use Rattle.iloc_timed.specs.Kinds.{kind as kind_of};
ghost use Rattle.iloc_timed.specs.Latency.{latency};
ghost use Rattle.iloc_rules.specs.Apart.{by_address};
ghost use Rattle.iloc_rules.specs.declared.memory_rule.MemoryRule.TheVariants.{Address};
ghost use Rattle.iloc_rules.specs.Renaming.{IsRenamed};
ghost use Rattle.iloc_addresses.specs.Dependences.{AreSources};
ghost use Rattle.iloc_addresses.specs.Steps.Dependences.{waiting};
ghost use Rattle.iloc_sched.specs.Steps.Edges.ByAddress.{delay_after, CoversSources};
ghost use Rattle.iloc_sched.specs.Steps.Edges.PartialGraph.{HasCapacity, IsPartialGraph, KeepsFrame, KeepsCapacity, Grows};
ghost use Rattle.iloc_sched.specs.Steps.Graph.{IsGraphOf};
ghost use Rattle.iloc_sched.specs.Steps.Views.{graph_of};

use crate::edges::Edges;
use crate::edges::lasts::Lasts;
use crate::edges::next::Next;
use crate::registers::OperandRegisters;
use iloc_addresses::{KnownRegisters, MemoryDependences};
use iloc_ops::{MAX_OPS, NoMemory, Op};
use iloc_rules::reads_stored;
use iloc_timed::{Kind, Latencies};
use std::alloc::Global;

/// How long an operation of the second kind waits for one of the first, where it waits by memory or outputs.
fn delay_after(latencies: &Latencies, first: Kind, second: Kind) -> u32
    ensures { result ≡ delay_after latencies.now first second }
{
    if reads_stored(first, second) {
        latencies.store
    } else {
        1
    }
}

/// What is known before an operation: of registers, and of the operations that it may have to wait for by memory and outputs.
#[derive(Drop)]
pub(crate) struct LastsByAddress {
    registers: KnownRegisters,
    dependences: MemoryDependences,
    // Those that the last one has to wait for.
    sources: Vec<u32>,
}

impl LastsByAddress {
    ghost use Rattle.iloc_sched.specs.Steps.Edges.ByAddress.{AreKnown};

    /// One that is to be cleared before the first list.
    pub(crate) fn new(alloc: Global) -> LastsByAddress {
        LastsByAddress {
            registers: KnownRegisters::new(alloc),
            dependences: MemoryDependences::new(alloc),
            sources: Vec::new(alloc),
        }
    }

    /// Before the first operation of a list. From now on registers below the limit are looked up fastest.
    fn clear(&mut self, registers: usize)
        ensures known { (ops : List operation) → AreKnown ops self.new 0 }
        ensures waiting { waiting self.new.dependences ≡ 0 }
    {
        self.registers.clear(registers);
        self.dependences.clear();
    }

    /// Takes operation `j`, which is `op` of this `kind`, and finds the operations that it waits for.
    #[inline(always)]
    fn take(&mut self, op: &Op, kind: Kind, j: usize) -> Result<(), NoMemory>
        requires of { kind ≡ kind_of op.now }
        requires few { j < MAX_OPS }
        ensures sources { OnOk result ((ops : List operation) → op_at ops j ≡ op.now → AreKnown ops self.old j
            → AreSources (by_address ops) ops j self.new.sources.items) }
        ensures known { OnOk result ((ops : List operation) → op_at ops j ≡ op.now → AreKnown ops self.old j
            → AreKnown ops self.new (j + 1)) }
        ensures few { OnOk result (length self.new.sources.items + waiting self.new.dependences
            ≤ waiting self.old.dependences + 3) }
    {
        let address = self.registers.address_of(op);
        self.dependences
            .take(kind, address, j as u32, &mut self.sources)?;
        self.registers.take(op, j as u32)
    }
}

impl Edges {
    ghost use Rattle.iloc_sched.specs.Steps.Edges.Lasts.{IsNext};

    /// Adds the edges into the next operation from `sources`, the operations that it waits for by memory and outputs.
    fn add_sources(&mut self, next: &Next, sources: &[u32])
        requires next { IsNext next.now }
        requires sources { AreSources (by_address next.now.ops.now) next.now.ops.now next.now.j sources.now }
        requires space { length self.old.edges.items + length sources.now ≤ 5 * length self.old.heads.items }
        requires capacity { HasCapacity self.old (length self.old.heads.items) }
        requires partial { IsPartialGraph Address next.now.latencies.now next.now.ops.now (graph_of self.old) next.now.j }
        ensures grows { Grows Address next.now.latencies.now next.now.ops.now (graph_of self.old) (graph_of self.new) next.now.j }
        ensures covers { CoversSources next.now.latencies.now next.now.ops.now (graph_of self.new) next.now.j sources.now }
        ensures count { length self.new.edges.items ≡ length self.old.edges.items + length sources.now }
        ensures frame { KeepsFrame self.old self.new }
    {
        for i in sources {
            let first = Kind::of(&next.ops[*i as usize]);
            self.add(
                *i,
                next.j as u32,
                delay_after(next.latencies, first, next.kind),
            );
        }
    }

    /// Adds all edges into the next operation, which waits for `sources` by memory and outputs.
    fn add_by_address(&mut self, next: &Next, sources: &[u32])
        requires next { IsNext next.now }
        requires sources { AreSources (by_address next.now.ops.now) next.now.ops.now next.now.j sources.now }
        requires space { length self.old.edges.items + 2 + length sources.now ≤ 5 * length self.old.heads.items }
        requires capacity { HasCapacity self.old (length self.old.heads.items) }
        requires starts { length self.old.starts.items ≡ next.now.j + 1 }
        requires partial { IsPartialGraph Address next.now.latencies.now next.now.ops.now (graph_of self.old) next.now.j }
        ensures partial { IsPartialGraph Address next.now.latencies.now next.now.ops.now (graph_of self.new) (next.now.j + 1) }
        ensures count { length self.new.edges.items ≤ length self.old.edges.items + 2 + length sources.now }
        ensures starts { length self.new.starts.items ≡ next.now.j + 2 }
        ensures heads { length self.new.heads.items ≡ length self.old.heads.items }
        ensures capacity { KeepsCapacity self.old self.new }
    {
        self.add_uses(next);
        self.add_sources(next, sources);
        self.starts.push_reserved(self.edges.len() as u32);
    }

    /// The kept edges of renamed operations.
    pub fn fill_by_address(
        &mut self,
        lasts: &mut Lasts,
        earlier: &mut LastsByAddress,
        ops: &[Op],
        own: &[u32],
        latencies: &Latencies,
    ) -> Result<(), NoMemory>
        requires few { length ops.now ≤ MAX_OPS }
        requires renamed { IsRenamed ops.now }
        requires own { own.now ≡ map (latency latencies.now) ops.now }
        ensures { OnOk result (IsGraphOf Address latencies.now ops.now (graph_of self.new)) }
    {
        let count = ops.len();
        self.clear(count)?;
        lasts.clear(3 * count);
        earlier.clear(3 * count);
        for j in 0..count {
            let op = ops[j];
            let registers = OperandRegisters::of(&op);
            let kind = Kind::of(&op);
            earlier.take(&op, kind, j)?;
            let next = Next {
                ops,
                own,
                latencies,
                lasts,
                kind,
                uses: registers.uses,
                j,
            };
            self.add_by_address(&next, &earlier.sources);
            lasts.note(kind, registers.defines, j)?;
        }
        Ok(())
    }
}

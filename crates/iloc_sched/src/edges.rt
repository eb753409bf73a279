//! The delay pairs that are kept as edges.
//!
//! Every result that is used gives an edge from its definition. By memory and outputs only the nearest pairs are
//! kept, since every other goes by way of an operation between: from the last store, from the last output, and to a
//! store from each load since the last one.
ghost use Rattle.std.specs.Prelude.{ℕ, ◌≡◌, ◌+◌, ◌*◌, ◌≤◌, ◌<◌, length, List, Some, OnOk, Contains};
ghost use Rattle.iloc_ops.specs.Limits.{MAX_OPS};
ghost use Rattle.iloc_ops.specs.declared.op.Op.{Op};
ghost use Rattle.iloc_ops.specs.Registers.{used};
ghost use Rattle.iloc_timed.specs.declared.latencies.Latencies.{Latencies};
ghost use Rattle.iloc_meaning.specs.Trace.{op_at};
ghost use Rattle.iloc_rules.specs.declared.memory_rule.MemoryRule.{MemoryRule as rule_value};
ghost use Rattle.iloc_rules.specs.declared.memory_rule.MemoryRule.TheVariants.{Book};

pub(crate) mod by_address;
pub(crate) mod kinds;
pub mod lasts;
pub mod next;

use crate::edges::next::Next;
use crate::registers::Uses;
use iloc_ops::{MAX_OPS, NoMemory, Reg};
use iloc_timed::Kind;
use std::alloc::Global;

/// At most so many edges are kept for each operation.
const MOST_EDGES: usize = 5;

/// A delay pair that is kept: the operation `to` may be issued `delay` cycles after `from`.
#[derive(Clone, Copy, Debug, Drop)]
pub struct Edge {
    pub from: u32,
    pub to: u32,
    pub delay: u32,
    /// The edge before this one out of the same operation.
    pub(crate) previous: Option<u32>,
}

/// The kept edges of a block, sorted by their later operation.
#[derive(Debug, Drop)]
pub struct Edges {
    edges: Vec<Edge>,
    // By operation the first edge into it, and at the end the number of edges.
    starts: Vec<u32>,
    // By operation the last edge out of it.
    heads: Vec<Option<u32>>,
    ghost short: { length heads.items ≤ MAX_OPS },
    ghost few: { length edges.items ≤ 5 * length heads.items },
}

impl Edges {
    ghost use Rattle.std.specs.Prelude.{None, ◌++◌, ◌∷◌, []};
    ghost use Rattle.iloc_rules.specs.Steps.Members.{In};
    ghost use Rattle.iloc_sched.specs.Steps.Edges.Lasts.{IsNext, loads_before};
    ghost use Rattle.iloc_sched.specs.Steps.Edges.PartialGraph.{HasCapacity, IsPartialGraph, KeepsFrame, KeepsCapacity, Grows, AddsFrom, CoversUse, CoversUses, CoversMemory};
    ghost use Rattle.iloc_sched.specs.Steps.Views.{edge_at, graph_of, IsEmptied};

    /// No operation and no edge.
    pub fn new(alloc: Global) -> Edges
        ensures { IsEmptied result }
    {
        Edges {
            edges: Vec::new(alloc),
            starts: Vec::new(alloc),
            heads: Vec::new(alloc),
        }
    }

    /// How many operations there are.
    pub fn op_count(&self) -> usize
        ensures { result ≡ length self.now.heads.items }
    {
        self.heads.len()
    }

    /// How many edges there are.
    pub fn edge_count(&self) -> usize
        ensures { result ≡ length self.now.edges.items }
    {
        self.edges.len()
    }

    /// The edges.
    pub fn as_slice(&self) -> &[Edge]
        ensures { result.now ≡ self.now.edges.items }
    {
        self.edges.as_slice()
    }

    /// Edge x.
    pub fn get(&self, x: usize) -> Edge
        requires { x < length self.now.edges.items }
        ensures { result ≡ edge_at self.now x }
    {
        self.edges[x]
    }

    /// The first edge into operation j, or the place where it would be; at their number the number of all edges.
    pub fn start(&self, j: usize) -> u32
        ensures { result ≡ (graph_of self.now).start j }
    {
        self.starts.get(j).copied().unwrap_or(0)
    }

    /// The last edge out of operation i.
    pub fn last_from(&self, i: usize) -> Option<u32>
        requires { i < length self.now.heads.items }
        ensures { result ≡ (graph_of self.now).head i }
    {
        self.heads[i]
    }

    /// No operation and no edge.
    pub fn forget(&mut self)
        ensures { IsEmptied self.new }
    {
        self.edges.clear();
        self.starts.clear();
        self.heads.clear();
    }

    /// Begins with `count` operations and no edge.
    fn clear(&mut self, count: usize) -> Result<(), NoMemory>
        requires { count ≤ MAX_OPS }
        ensures partial { OnOk result ((rule : rule_value) (lat : Latencies) (ops : List Op) → length ops ≡ count
            → IsPartialGraph rule lat ops (graph_of self.new) 0) }
        ensures starts { OnOk result (length self.new.starts.items ≡ 1) }
        ensures edges { OnOk result (length self.new.edges.items ≡ 0) }
        ensures capacity { OnOk result (HasCapacity self.new count) }
    {
        self.edges.clear();
        self.edges.reserve(MOST_EDGES * count)?;
        self.starts.clear();
        self.starts.reserve(count + 1)?;
        self.starts.push_reserved(0);
        self.heads.clear();
        self.heads.resize(count, None)?;
        Ok(())
    }

    /// No operation, with capacity for `space`.
    pub fn empty(&mut self, space: usize) -> Result<(), NoMemory>
        requires { space ≤ MAX_OPS }
        ensures partial { OnOk result ((rule : rule_value) (lat : Latencies) (ops : List Op) → length ops ≡ 0
            → IsPartialGraph rule lat ops (graph_of self.new) 0) }
        ensures starts { OnOk result (length self.new.starts.items ≡ 1) }
        ensures edges { OnOk result (length self.new.edges.items ≡ 0) }
        ensures capacity { OnOk result (HasCapacity self.new space) }
    {
        self.edges.clear();
        self.edges.reserve(MOST_EDGES * space)?;
        self.starts.clear();
        self.starts.reserve(space + 1)?;
        self.starts.push_reserved(0);
        self.heads.clear();
        self.heads.reserve(space)?;
        Ok(())
    }

    /// One operation more, with no edge out of it yet.
    pub fn grow(&mut self)
        requires few { length self.old.heads.items < MAX_OPS }
        requires capacity { HasCapacity self.old (length self.old.heads.items + 1) }
        ensures heads { self.new.heads.items ≡ self.old.heads.items ++ None ∷ [] }
        ensures edges { self.new.edges ≡ self.old.edges }
        ensures starts { self.new.starts ≡ self.old.starts }
        ensures capacity { KeepsCapacity self.old self.new }
    {
        self.heads.push_reserved(None);
    }

    /// Adds an edge.
    fn add(&mut self, from: u32, to: u32, delay: u32)
        requires space { length self.old.edges.items < 5 * length self.old.heads.items }
        requires capacity { HasCapacity self.old (length self.old.heads.items) }
        requires there { from < length self.old.heads.items }
        ensures adds { AddsFrom (λ i. i ≡ from) (graph_of self.old) (graph_of self.new) to delay }
        ensures count { length self.new.edges.items ≡ length self.old.edges.items + 1 }
        ensures frame { KeepsFrame self.old self.new }
    {
        let place = self.edges.len() as u32;
        let previous = self.heads[from as usize];
        self.edges.push_reserved(Edge {
            from,
            to,
            delay,
            previous,
        });
        self.heads[from as usize] = Some(place);
    }

    /// Adds an edge from an operation that there may be.
    fn add_from(&mut self, from: Option<u32>, to: u32, delay: u32)
        requires space { length self.old.edges.items < 5 * length self.old.heads.items }
        requires capacity { HasCapacity self.old (length self.old.heads.items) }
        requires there { (i : ℕ) → from ≡ Some i → i < length self.old.heads.items }
        ensures adds { AddsFrom (λ i. from ≡ Some i) (graph_of self.old) (graph_of self.new) to delay }
        ensures count { length self.new.edges.items ≤ length self.old.edges.items + 1 }
        ensures frame { KeepsFrame self.old self.new }
    {
        if let Some(i) = from {
            self.add(i, to, delay);
        }
    }

    /// Adds an edge from each of some operations.
    #[inline(always)]
    fn add_each(&mut self, from: &[u32], to: u32, delay: u32)
        requires space { length self.old.edges.items + length from.now ≤ 5 * length self.old.heads.items }
        requires capacity { HasCapacity self.old (length self.old.heads.items) }
        requires there { (i : ℕ) → In from.now i → i < length self.old.heads.items }
        ensures adds { AddsFrom (In from.now) (graph_of self.old) (graph_of self.new) to delay }
        ensures count { length self.new.edges.items ≡ length self.old.edges.items + length from.now }
        ensures frame { KeepsFrame self.old self.new }
    {
        for i in from {
            self.add(*i, to, delay);
        }
    }

    /// Adds the edge into the next operation for a register that it uses.
    #[inline(always)]
    fn add_use(&mut self, next: &Next, register: Reg)
        requires next { IsNext next.now }
        requires used { Contains (used (op_at next.now.ops.now next.now.j)) register }
        requires space { length self.old.edges.items < 5 * length self.old.heads.items }
        requires capacity { HasCapacity self.old (length self.old.heads.items) }
        requires partial { (rule : rule_value) × IsPartialGraph rule next.now.latencies.now next.now.ops.now (graph_of self.old) next.now.j }
        ensures grows { (rule : rule_value) → IsPartialGraph rule next.now.latencies.now next.now.ops.now (graph_of self.old) next.now.j
            → Grows rule next.now.latencies.now next.now.ops.now (graph_of self.old) (graph_of self.new) next.now.j }
        ensures covers { CoversUse next.now.latencies.now next.now.ops.now (graph_of self.new) next.now.j register }
        ensures count { length self.new.edges.items ≤ length self.old.edges.items + 1 }
        ensures frame { KeepsFrame self.old self.new }
    {
        if let Some(i) = next.lasts.definers.get(register) {
            self.add(i, next.j as u32, next.own[i as usize]);
        }
    }

    /// Adds the edges into the next operation for the registers that it uses.
    #[inline(always)]
    fn add_uses(&mut self, next: &Next)
        requires next { IsNext next.now }
        requires space { length self.old.edges.items + 2 ≤ 5 * length self.old.heads.items }
        requires capacity { HasCapacity self.old (length self.old.heads.items) }
        requires partial { (rule : rule_value) × IsPartialGraph rule next.now.latencies.now next.now.ops.now (graph_of self.old) next.now.j }
        ensures grows { (rule : rule_value) → IsPartialGraph rule next.now.latencies.now next.now.ops.now (graph_of self.old) next.now.j
            → Grows rule next.now.latencies.now next.now.ops.now (graph_of self.old) (graph_of self.new) next.now.j }
        ensures covers { CoversUses next.now.latencies.now next.now.ops.now (graph_of self.new) next.now.j }
        ensures count { length self.new.edges.items ≤ length self.old.edges.items + 2 }
        ensures frame { KeepsFrame self.old self.new }
    {
        match next.uses {
            Uses::Nothing => {}
            Uses::One(register) => self.add_use(next, register),
            Uses::Two(left, right) => {
                self.add_use(next, left);
                self.add_use(next, right);
            }
        }
    }

    /// Adds the edges into the next operation by memory and outputs.
    #[inline(always)]
    fn add_memory(&mut self, next: &Next)
        requires next { IsNext next.now }
        requires space { length self.old.edges.items + 2 + length next.now.lasts.now.loads.items ≤ 5 * length self.old.heads.items }
        requires capacity { HasCapacity self.old (length self.old.heads.items) }
        requires partial { IsPartialGraph Book next.now.latencies.now next.now.ops.now (graph_of self.old) next.now.j }
        ensures grows { Grows Book next.now.latencies.now next.now.ops.now (graph_of self.old) (graph_of self.new) next.now.j }
        ensures covers { CoversMemory next.now.latencies.now next.now.ops.now (graph_of self.new) next.now.j }
        ensures count { length self.new.edges.items ≤ length self.old.edges.items + 2
            + loads_before next.now.kind next.now.lasts.now }
        ensures frame { KeepsFrame self.old self.new }
    {
        let to = next.j as u32;
        let latencies = next.latencies;
        let lasts = next.lasts;
        match next.kind {
            Kind::Load => self.add_from(lasts.store, to, latencies.store),
            Kind::Output => {
                self.add_from(lasts.store, to, latencies.store);
                self.add_from(lasts.output, to, 1);
            }
            Kind::Store => {
                self.add_from(lasts.store, to, 1);
                self.add_from(lasts.output, to, 1);
                self.add_each(&lasts.loads, to, 1);
            }
            Kind::Mult | Kind::Other => {}
        }
    }

    /// Adds all edges into the next operation.
    #[inline(always)]
    pub fn add_all(&mut self, next: &Next)
        requires next { IsNext next.now }
        requires space { length self.old.edges.items + 4 + length next.now.lasts.now.loads.items ≤ 5 * length self.old.heads.items }
        requires capacity { HasCapacity self.old (length self.old.heads.items) }
        requires starts { length self.old.starts.items ≡ next.now.j + 1 }
        requires partial { IsPartialGraph Book next.now.latencies.now next.now.ops.now (graph_of self.old) next.now.j }
        ensures partial { IsPartialGraph Book next.now.latencies.now next.now.ops.now (graph_of self.new) (next.now.j + 1) }
        ensures count { length self.new.edges.items ≤ length self.old.edges.items + 4
            + loads_before next.now.kind next.now.lasts.now }
        ensures starts { length self.new.starts.items ≡ next.now.j + 2 }
        ensures heads { length self.new.heads.items ≡ length self.old.heads.items }
        ensures capacity { KeepsCapacity self.old self.new }
    {
        self.add_uses(next);
        self.add_memory(next);
        self.starts.push_reserved(self.edges.len() as u32);
    }
}

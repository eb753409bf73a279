//! The dependence graph of a block.
ghost use Rattle.std.specs.Prelude.{ℕ, ◌≡◌, ◌≤◌, ◌<◌, ◌+◌, List, [], length, map, All, Any, IfErr, OnOk};
ghost use Rattle.iloc_ops.specs.declared.op.Op.{Op};
ghost use Rattle.iloc_timed.specs.Kinds.{kind};
ghost use Rattle.iloc_rules.specs.Delays.{IsDelayPairWhere};
ghost use Rattle.iloc_rules.specs.Heuristics.{priorities_by_where};
ghost use Rattle.iloc_rules.specs.Priority.{priorities_where};
ghost use Rattle.iloc_rules.specs.Renaming.{renamed};
ghost use Rattle.iloc_rules.specs.Rule.{counts_by};
ghost use Rattle.iloc_rules.specs.Starts.{starts_where};
ghost use Rattle.iloc_rules.specs.declared.memory_rule.MemoryRule.TheVariants.{Book};
ghost use Rattle.iloc_sched.specs.Graph.GraphOf.{GraphOf, of_block};
ghost use Rattle.iloc_sched.specs.Graph.Near.{IsNearPairBy};
ghost use Rattle.iloc_sched.specs.declared.edges.Edge.{Edge as edge_value};
ghost use Rattle.iloc_sched.specs.Steps.Edges.SoundGraph.{IsSound};

use crate::edges::Edge;
use crate::edges::lasts::Lasts;
use crate::ranking::heuristic::fill_ranks;
use crate::ranking::priority::fill_chains;
use crate::ranking::starts::fill_starts;
use crate::renaming::Names;
use crate::tables::Tables;
use iloc_ops::{Block, MAX_OPS, NoMemory, Op};
use iloc_rules::{Heuristic, MemoryRule};
use iloc_timed::{Kind, Latencies};
use std::alloc::Global;
use std::marker::Model;

/// The dependence graph of a block by a rule of memory: its renamed operations, their latencies, and delay pairs that are
/// kept as edges, from which every other follows. Its buffers are kept from block to block.
#[derive(Drop)]
pub struct Graph {
    alloc: Global,
    names: Names,
    lasts: Lasts,
    tables: Tables,
}

impl Model for Graph {
    ghost use Rattle.iloc_sched.specs.Graph.GraphOf.{GraphOf};

    ghost Value = { GraphOf };

    ghost use Rattle.iloc_sched.specs.Steps.Edges.SoundGraph.{IsOfBlock};

    ghost view = { λ g. record { rule = g.tables.rule; ops = g.tables.ops.items; latencies = g.tables.latencies } };

    ghost invariant = { λ g. IsOfBlock g.tables };
}

impl Graph {
    /// The graph of a block without operations.
    pub fn new(alloc: Global) -> Graph
        ensures ops { result.ops ≡ [] }
        ensures rule { result.rule ≡ Book }
    {
        Graph {
            alloc,
            names: Names::new(alloc),
            lasts: Lasts::new(alloc),
            tables: Tables::new(alloc),
        }
    }

    /// Becomes the graph of a block, of at most `MAX_OPS` operations, by a rule. After a refusal it is that of a block without
    /// any, by the book.
    pub fn refill(
        &mut self,
        rule: MemoryRule,
        block: &Block,
        latencies: &Latencies,
    ) -> Result<(), NoMemory>
        requires { length block.now.ops ≤ MAX_OPS }
        ensures graph { OnOk result (self.new ≡ of_block rule latencies.now block.now.ops) }
        ensures empty { IfErr result (λ _. self.new.ops ≡ []) }
        ensures rule { IfErr result (λ _. self.new.rule ≡ Book) }
    {
        let opened = match rule {
            MemoryRule::Book => {
                self.tables
                    .open(&mut self.names, &mut self.lasts, block, latencies)
            }
            MemoryRule::Address => {
                self.tables
                    .open_by_address(&mut self.names, &mut self.lasts, block, latencies)
            }
        };
        match opened {
            Ok(()) => Ok(()),
            Err(refusal) => {
                self.tables.forget();
                Err(refusal)
            }
        }
    }

    /// By what the operations wait for each other by memory.
    pub fn rule(&self) -> MemoryRule
        ensures { result ≡ self.now.rule }
    {
        self.tables.rule
    }

    /// The renamed operations, at most `MAX_OPS`.
    pub fn ops(&self) -> &[Op]
        ensures ops { result.now ≡ self.now.ops }
        ensures few { length self.now.ops ≤ MAX_OPS }
    {
        self.tables.ops.as_slice()
    }

    /// The latencies.
    pub fn latencies(&self) -> &Latencies
        ensures { result.now ≡ self.now.latencies }
    {
        &self.tables.latencies
    }

    /// By operation its kind.
    pub fn kinds(&self) -> &[Kind]
        ensures kinds { result.now ≡ map kind self.now.ops }
        ensures few { length self.now.ops ≤ MAX_OPS }
    {
        self.tables.kinds.as_slice()
    }

    /// The kept edges, sorted by their later operation.
    ///
    /// Promise: Each is a delay pair of the operations by the graph's rule, and cycles of issue that wait for the kept
    /// edges wait for all delays.
    pub fn edges(&self) -> &[Edge]
        ensures each { All (λ (e : edge_value). IsDelayPairWhere (counts_by self.now.rule self.now.ops)
            self.now.latencies self.now.ops e.from e.to e.delay) result.now }
        ensures all { (cycle : ℕ → ℕ) → All (λ (e : edge_value). cycle e.from + e.delay ≤ cycle e.to) result.now
            → (i j d : ℕ) → IsDelayPairWhere (counts_by self.now.rule self.now.ops) self.now.latencies self.now.ops i j d
            → cycle i + d ≤ cycle j }
    {
        self.tables.edges.as_slice()
    }

    /// The kept edges into operation j.
    ///
    /// Promise: Each is a near pair by the graph's rule, and each near pair has an edge that is at least as long.
    pub fn edges_into(&self, j: usize) -> &[Edge]
        requires { j < length self.now.ops }
        ensures near { All (λ (e : edge_value). (e.to ≡ j)
            × IsNearPairBy self.now.rule self.now.latencies self.now.ops e.from j e.delay) result.now }
        ensures all { (i d : ℕ) → IsNearPairBy self.now.rule self.now.latencies self.now.ops i j d
            → Any (λ (e : edge_value). (e.from ≡ i) × (d ≤ e.delay)) result.now }
    {
        let edges = &self.tables.edges;
        &edges.as_slice()[edges.start(j) as usize..edges.start(j + 1) as usize]
    }

    /// Fills a list with the longest chain of delays from each operation, up to the end of the block, by its rule.
    pub fn chains(&self, found: &mut Vec<u32>) -> Result<(), NoMemory>
        ensures { OnOk result (found.new.items
            ≡ priorities_where (counts_by self.now.rule self.now.ops) self.now.latencies self.now.ops) }
    {
        fill_chains(found, &self.tables)
    }

    /// Fills a list with the longest chain of delays to each operation by its rule: the first cycle at which it can be issued.
    pub fn starts(&self, found: &mut Vec<u32>) -> Result<(), NoMemory>
        ensures { OnOk result (found.new.items
            ≡ starts_where (counts_by self.now.rule self.now.ops) self.now.latencies self.now.ops) }
    {
        fill_starts(found, &self.tables)
    }

    /// Fills a list with the priorities of the operations by a heuristic and by its rule.
    #[inline(always)]
    pub fn rank(&self, heuristic: Heuristic, found: &mut Vec<u32>) -> Result<(), NoMemory>
        ensures { OnOk result (found.new.items
            ≡ priorities_by_where (counts_by self.now.rule self.now.ops) heuristic self.now.latencies self.now.ops) }
    {
        fill_ranks(found, heuristic, self.alloc, &self.tables)
    }

    /// The tables.
    pub(crate) fn tables(&self) -> &Tables
        ensures sound { IsSound result.now }
        ensures named { (block : List Op) × (result.now.ops.items ≡ renamed block) }
        ensures graph { self.now
            ≡ record { rule = result.now.rule; ops = result.now.ops.items; latencies = result.now.latencies } }
    {
        &self.tables
    }
}

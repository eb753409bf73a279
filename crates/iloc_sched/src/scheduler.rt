//! The list scheduler.
ghost use Rattle.std.specs.Prelude.{◌≡◌, ◌≤◌, ◌+◌, ◌*◌, List, [], length, IfOk, OnOk};
ghost use Rattle.iloc_ops.specs.declared.op.Op.{Op};
ghost use Rattle.iloc_timed.specs.declared.latencies.Latencies.{Latencies as latencies_value};
ghost use Rattle.iloc_timed.specs.declared.row.Row.{Row as row_value};
ghost use Rattle.iloc_timed.specs.Rows.{IsTable};
ghost use Rattle.iloc_rules.specs.declared.memory_rule.MemoryRule.{MemoryRule as rule_value};
ghost use Rattle.iloc_sched.specs.Graph.GraphOf.{of_block};
ghost use Rattle.iloc_rules.specs.Greedy.{IsGreedyWhere};
ghost use Rattle.iloc_rules.specs.Heuristics.{priorities_by, priorities_under};
ghost use Rattle.iloc_rules.specs.Priority.{priorities, priorities_where};
ghost use Rattle.iloc_rules.specs.Renaming.{renamed};
ghost use Rattle.iloc_rules.specs.Rule.{counts_by};
ghost use Rattle.iloc_sched.specs.Scheduled.{AreRowsBy, IsTheSchedule, IsTheScheduleBy};
ghost use Rattle.iloc_sched.specs.Steps.Cycle.SoFar.{IsPlan, counts_of, took_of};

use crate::cycle::calendar::SHORT;
use crate::cycle::order::Order;
use crate::cycle::plan::Plan;
use crate::cycle::waiting::Waiting;
use crate::graph::Graph;
use crate::taker::TakeRows;
use iloc_ops::{Block, MAX_OPS, NoMemory, Op};
use iloc_rules::{Heuristic, LONGEST_DELAY, MemoryRule};
use iloc_timed::{Latencies, MAX_ROWS, Row, Schedule};
use std::alloc::Global;
use std::mem;

/// Makes schedules of blocks from their graphs, one after another. Its buffers are kept from schedule to schedule, whatever
/// the graphs.
#[derive(Drop)]
pub struct Scheduler {
    alloc: Global,
    ranks: Vec<u32>,
    order: Order,
    waiting: Waiting,
    ops: Vec<Op>,
    rows: Vec<Row>,
}

impl Scheduler {
    /// A scheduler that has no memory yet.
    pub fn new(alloc: Global) -> Scheduler {
        Scheduler {
            alloc,
            ranks: Vec::new(alloc),
            order: Order::new(alloc),
            waiting: Waiting::new(alloc),
            ops: Vec::new(alloc),
            rows: Vec::new(alloc),
        }
    }

    /// Hands `taker` the rows of the schedule of a graph's block that is greedy by `ranks`, a priority for each operation, and by
    /// the graph's rule of memory: in each cycle the first of the ready operations is issued, with the first of the others that can
    /// go beside it, in order of falling priority, then of number. The graph stays as it is.
    ///
    /// Promise: The taker takes just the rows of the only schedule of the block that is greedy by `ranks` and by the
    /// graph's rule, with the block's outcome, and its cycles lie between the bounds of `schedule`, whatever graphs came before.
    pub fn feed<T: TakeRows>(
        &mut self,
        graph: &Graph,
        ranks: &[u32],
        taker: &mut T,
    ) -> Result<(), NoMemory>
        requires { length ranks.now ≡ length graph.now.ops }
        ensures kept { T.kept taker.new ≡ T.kept taker.old }
        ensures took { OnOk result ((rows : List row_value) × T.took graph.now.latencies graph.now.ops taker.old rows taker.new
            × AreRowsBy (λ _ _ _. ranks.now) graph.now rows) }
    {
        let tables = graph.tables();
        self.order.fill(ranks)?;
        let plan = Plan {
            tables,
            priorities: ranks,
            order: &self.order.by_rank,
            ranks: &self.order.ranks,
            short: ranks.len() < SHORT,
        };
        fill_rows(&plan, &mut self.waiting, taker)
    }

    /// Hands `taker` the rows of the schedule of a graph's block that is greedy by a heuristic and by the graph's rule, as `feed`.
    pub fn feed_as<T: TakeRows>(
        &mut self,
        graph: &Graph,
        heuristic: Heuristic,
        taker: &mut T,
    ) -> Result<(), NoMemory>
        ensures kept { T.kept taker.new ≡ T.kept taker.old }
        ensures took { OnOk result ((rows : List row_value) × T.took graph.now.latencies graph.now.ops taker.old rows taker.new
            × AreRowsBy (λ rule lat. priorities_under rule heuristic lat) graph.now rows) }
    {
        let mut ranks = mem::replace(&mut self.ranks, Vec::new(self.alloc));
        graph.rank(heuristic, &mut ranks)?;
        let fed = self.feed(graph, &ranks, taker);
        self.ranks = ranks;
        fed
    }

    /// No rows, in the scheduler's buffer.
    fn no_rows(&mut self) -> Vec<Row>
        ensures { result.items ≡ [] }
    {
        self.rows.clear();
        mem::replace(&mut self.rows, Vec::new(self.alloc))
    }

    /// The schedule of the operations of a graph in `rows`.
    fn schedule_in(&mut self, graph: &Graph, rows: Vec<Row>) -> Result<Schedule, NoMemory>
        requires table { IsTable graph.now.ops rows.items }
        requires few { length rows.items ≤ MAX_ROWS }
        ensures { IfOk result (λ s. s ≡ record { ops = graph.now.ops; rows = rows.items }) }
    {
        self.ops.clear();
        self.ops.extend_from_slice(graph.ops())?;
        let ops = mem::replace(&mut self.ops, Vec::new(self.alloc));
        Ok(Schedule::of_table(ops, rows))
    }

    /// The schedule of a graph's block that is greedy by `ranks`, whose rows `feed` hands on. It is in own buffers, which
    /// `take_back` takes back.
    ///
    /// Promise: It is the only schedule of the block that is greedy by `ranks` and by the graph's rule, with the block's
    /// outcome, and its cycles lie between the bounds of `schedule`, whatever graphs came before.
    pub fn lend(&mut self, graph: &Graph, ranks: &[u32]) -> Result<Schedule, NoMemory>
        requires { length ranks.now ≡ length graph.now.ops }
        ensures { IfOk result (λ s. (rule : rule_value) (lat : latencies_value) (block : List Op) →
            graph.now ≡ of_block rule lat block → IsTheScheduleBy rule (λ _. ranks.now) lat block s) }
    {
        let mut rows = self.no_rows();
        self.feed(graph, ranks, &mut rows)?;
        self.schedule_in(graph, rows)
    }

    /// The schedule of a graph's block that is greedy by a heuristic and by the graph's rule, lent as `lend` does.
    ///
    /// Promise: It is the only schedule of the block that is greedy by the heuristic's priorities and by the graph's rule, with
    /// the block's outcome, and its cycles lie between the bounds of `schedule`.
    pub fn lend_as(&mut self, graph: &Graph, heuristic: Heuristic) -> Result<Schedule, NoMemory>
        ensures { IfOk result (λ s. (rule : rule_value) (lat : latencies_value) (block : List Op) →
            graph.now ≡ of_block rule lat block → IsTheScheduleBy rule (priorities_under rule heuristic lat) lat block s) }
    {
        let mut rows = self.no_rows();
        self.feed_as(graph, heuristic, &mut rows)?;
        self.schedule_in(graph, rows)
    }

    /// Takes back the buffers of a schedule, for the next one.
    pub fn take_back(&mut self, schedule: Schedule) {
        (self.ops, self.rows) = schedule.into_parts();
    }
}

/// Hands `taker` the rows of the greedy schedule.
fn fill_rows<T: TakeRows>(plan: &Plan, waiting: &mut Waiting, taker: &mut T) -> Result<(), NoMemory>
    requires { IsPlan plan.now }
    ensures kept { T.kept taker.new ≡ T.kept taker.old }
    ensures took { OnOk result ((rows : List row_value) × took_of T.took plan.now taker.old rows taker.new
        × (length rows ≤ LONGEST_DELAY * MAX_OPS + 1)
        × ((block : List Op) → plan.now.tables.now.ops.items ≡ renamed block
        → IsGreedyWhere (counts_of plan.now) plan.now.priorities.now plan.now.tables.now.latencies block
        plan.now.tables.now.ops.items rows)) }
{
    waiting.open(plan)?;
    // The same plan. Its flag comes from the calendar, since one that is computed from a length is computed anew at each test: that
    // takes 10 instructions more for an operation of a block of ten.
    let known = Plan {
        short: waiting.calendar.is_short(),
        ..*plan
    };
    let mut left = plan.tables.ops.len();
    let mut cycle = 0;
    while left > 0 {
        let issued = waiting.step(&known, taker, cycle)?;
        left -= issued;
        cycle += 1;
    }
    Ok(())
}

/// The schedule of a block, of at most `MAX_OPS` operations, that is greedy by a heuristic.
///
/// For many blocks make one `Graph` and one `Scheduler`.
///
/// Promise: It is the only greedy schedule of the block by the heuristic's priorities, with the block's outcome, and its
/// cycles lie between the bounds of `schedule`.
pub fn schedule_as(
    alloc: Global,
    block: &Block,
    latencies: &Latencies,
    heuristic: Heuristic,
) -> Result<Schedule, NoMemory>
    requires { length block.now.ops ≤ MAX_OPS }
    ensures { IfOk result (IsTheSchedule (priorities_by heuristic latencies.now) latencies.now block.now.ops) }
{
    let mut graph = Graph::new(alloc);
    graph.refill(MemoryRule::Book, block, latencies)?;
    Scheduler::new(alloc).lend_as(&graph, heuristic)
}

/// The greedy schedule of a block, of at most `MAX_OPS` operations: in each cycle the first of the ready operations is
/// issued, with the first of the others that can go beside it, in order of priority, then of number.
///
/// Promise: It is the only greedy schedule of the block, and on every memory it has the block's outcome; it takes at least
/// as many cycles as an operation's issue and its priority together, and at most as many as all latencies together.
pub fn schedule(alloc: Global, block: &Block, latencies: &Latencies) -> Result<Schedule, NoMemory>
    requires { length block.now.ops ≤ MAX_OPS }
    ensures { IfOk result (IsTheSchedule (priorities latencies.now) latencies.now block.now.ops) }
{
    schedule_as(alloc, block, latencies, Heuristic::Chain)
}

/// The greedy schedule of a block, of at most `MAX_OPS` operations, by a rule of memory.
///
/// For many blocks make one `Graph` and one `Scheduler`.
///
/// Promise: It is the only greedy schedule of the block by the rule, and on every memory it has the block's outcome; its cycles
/// lie between the bounds of `schedule`.
pub fn schedule_by(
    alloc: Global,
    block: &Block,
    latencies: &Latencies,
    rule: MemoryRule,
) -> Result<Schedule, NoMemory>
    requires { length block.now.ops ≤ MAX_OPS }
    ensures { IfOk result (IsTheScheduleBy rule (λ ops. priorities_where (counts_by rule ops) latencies.now ops)
        latencies.now block.now.ops) }
{
    let mut graph = Graph::new(alloc);
    graph.refill(rule, block, latencies)?;
    let mut ranks = Vec::new(alloc);
    graph.chains(&mut ranks)?;
    Scheduler::new(alloc).lend(&graph, &ranks)
}

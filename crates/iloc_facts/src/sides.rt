//! A block and rows for it, with what their operations read.
ghost use Rattle.std.specs.Prelude.{◌≡◌, ◌<◌, ◌≤◌, ℕ, length, IfOk, IfNone, IfSome};
ghost use Rattle.iloc_ops.specs.Registers.{used};
ghost use Rattle.iloc_meaning.specs.Trace.{op_at};
ghost use Rattle.iloc_timed.specs.Limits.{MAX_ROWS};
ghost use Rattle.iloc_timed.specs.Rows.{IsTable};
ghost use Rattle.iloc_rules.specs.Renaming.{without_nops as ops_of};
ghost use Rattle.iloc_facts.specs.Facts.{IsIssued};
ghost use Rattle.iloc_facts.specs.Lawfulness.{issue_of};
ghost use Rattle.iloc_facts.specs.Readings.{due, given, reading_at, reading_of, sources_at, sources_of};

use crate::lawfulness::Issue;
use crate::reading::given::{givens, without_nops};
use crate::reading::sources::Sources;
use crate::reading::{Reading, readings};
use iloc_ops::{Block, NoMemory, Op};
use iloc_timed::{Latencies, Schedule, latency};
use std::alloc::Global;

/// A block without its `nop`s and rows for it, with what their operations read.
///
/// Promise: of each operation of the rows it is noted when it is issued, and what it reads then; of each of the block what
/// it reads, where all are executed in order.
#[derive(Drop)]
pub struct Sides<'a> {
    /// The operations of the block.
    pub block: Vec<Op>,
    /// By operation of the block what it reads.
    pub givens: Vec<Sources>,
    /// The rows.
    pub schedule: &'a Schedule,
    /// By operation of the rows when it is issued, and what it reads.
    pub readings: Vec<Reading>,
    /// The latencies of the machine.
    pub latencies: &'a Latencies,
    pub ghost given_count: { length givens.items ≡ length block.items },
    pub ghost each_given: { (i : ℕ) → i < length block.items
        → sources_at givens.items i ≡ sources_of (given block.items i) (used (op_at block.items i)) },
    pub ghost table: { IsTable schedule.now.ops schedule.now.rows },
    pub ghost few: { length schedule.now.rows ≤ MAX_ROWS },
    pub ghost reading_count: { length readings.items ≡ length schedule.now.ops },
    pub ghost each_reading: { (k : ℕ) → k < length schedule.now.ops → reading_at readings.items k
        ≡ reading_of latencies.now schedule.now.ops schedule.now.rows k },
}

impl Sides<'_> {
    /// The operations of a block but for its `nop`s, and these rows.
    pub fn of<'a>(
        alloc: Global,
        block: &Block,
        schedule: &'a Schedule,
        latencies: &'a Latencies,
    ) -> Result<Sides<'a>, NoMemory>
        ensures block { IfOk result (λ sides. sides.block.items ≡ ops_of block.now.ops) }
        ensures rows { IfOk result (λ sides. sides.schedule.now ≡ schedule.now) }
        ensures latencies { IfOk result (λ sides. sides.latencies.now ≡ latencies.now) }
    {
        let ops = without_nops(alloc, block)?;
        Ok(Sides {
            givens: givens(alloc, &ops)?,
            block: ops,
            readings: readings(alloc, schedule, latencies)?,
            schedule,
            latencies,
        })
    }

    /// Operation `k` of the rows, with its cycle, if there is one.
    pub fn issue(&self, k: usize) -> Option<Issue>
        ensures is { IfSome result (IsIssued self.now.schedule.now.ops self.now.schedule.now.rows k) }
        ensures beyond { IfNone result (length self.now.schedule.now.ops ≤ k) }
    {
        let reading = self.readings.get(k)?;
        let op = self.schedule.ops().get(k)?;
        Some(Issue {
            cycle: reading.cycle,
            op: *op,
        })
    }

    /// Operation `k` of the rows, which is one of them, with its cycle.
    pub fn issued(&self, k: usize) -> Issue
        requires { k < length self.now.schedule.now.ops }
        ensures { result ≡ issue_of self.now.schedule.now.ops self.now.schedule.now.rows k }
    {
        Issue {
            cycle: self.readings[k].cycle,
            op: self.schedule.ops()[k],
        }
    }

    /// When operation `k` of the rows is issued, and what it reads then, if there is one.
    pub fn reading(&self, k: usize) -> Option<Reading>
        ensures is { IfSome result (λ reading. reading ≡ reading_of self.now.latencies.now self.now.schedule.now.ops
            self.now.schedule.now.rows k) }
        ensures beyond { IfNone result (length self.now.schedule.now.ops ≤ k) }
    {
        self.readings.get(k).copied()
    }

    /// What operation `i` of the block reads, if there is one.
    pub fn given(&self, i: usize) -> Option<Sources>
        ensures is { IfSome result (λ sources. sources
            ≡ sources_of (given self.now.block.items i) (used (op_at self.now.block.items i))) }
        ensures beyond { IfNone result (length self.now.block.items ≤ i) }
    {
        self.givens.get(i).copied()
    }

    /// The cycle at which the result of operation `k` of the rows arrives, if there is one.
    pub fn due(&self, k: usize) -> Option<usize>
        ensures is { IfSome result (λ cycle. cycle ≡ due self.now.latencies.now self.now.schedule.now.ops
            self.now.schedule.now.rows k) }
        ensures beyond { IfNone result (length self.now.schedule.now.ops ≤ k) }
    {
        let issue = self.issue(k)?;
        Some(issue.cycle + latency(&issue.op, self.latencies) as usize)
    }
}

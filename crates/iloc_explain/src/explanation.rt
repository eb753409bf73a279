//! What is said of each operation of a schedule.
ghost use Rattle.std.specs.Prelude.{◌≡◌, ◌-◌, IfOk};
ghost use Rattle.iloc_explain.specs.Explained.{AreExplained, unit_of};
ghost use Rattle.iloc_explain.specs.Measures.{AreMeasures};

use crate::holding::{Holder, holder_of};
use crate::issued::issue_cycles;
use crate::ready::ready_cycles;
use crate::subject::Subject;
use crate::waited::waited_until;
use iloc_ops::NoMemory;
use iloc_timed::{Row, cycles};
use std::alloc::Global;

/// One of the two units that issue operations.
#[derive(Clone, Copy, PartialEq, Eq)]
pub(crate) enum Unit {
    /// Unit 0.
    Zero,
    /// Unit 1.
    One,
}

/// When and where an operation of a schedule is issued, and why not before.
#[derive(Drop)]
pub(crate) struct Explained {
    /// The cycle at which it is issued.
    pub cycle: usize,
    /// The unit that issues it.
    pub unit: Unit,
    /// The cycle at which it is ready: the first at which all that it waits for is over.
    pub ready: usize,
    /// For which operations it waited until then, by their numbers, in the order of their issue.
    pub after: Vec<usize>,
    /// Its priority, by which it was ranked.
    pub priority: u64,
    /// The first cycle at which its delays alone would let it be issued.
    pub earliest: u64,
    /// How many cycles later it could be issued for the delays behind it: the cycles of the schedule less its own and less
    /// the longest chain of delays from it.
    pub slack: u64,
    /// What kept it out of the row before.
    pub held: Holder,
}

/// The unit on which a row issues operation i.
fn unit_of(row: Row, i: usize) -> Unit
    ensures { result ≡ unit_of row i }
{
    match row.zero {
        Some(zero) if zero == i => Unit::Zero,
        _ => Unit::One,
    }
}

/// How many cycles later an operation could be issued, from which so long a chain of delays leads.
fn slack_of(total: u64, cycle: usize, chain: u64) -> u64
    ensures { result ≡ total - cycle - chain }
{
    total.saturating_sub(cycle as u64).saturating_sub(chain)
}

/// Explains each operation of a schedule of renamed operations that waits for their delays, in the order of their numbers, by
/// what is known of the operations.
///
/// Promise: Each operation is listed with its cycle of issue, its unit, its priority, the first cycle at which all that it
/// waits for is over, just the operations for which it waited until then, its start, its slack, and what kept it out of the
/// row before.
pub(crate) fn explain(alloc: Global, subject: &Subject<'_>) -> Result<Vec<Explained>, NoMemory>
    requires { AreMeasures subject.now.measures.now.delays.latencies.now subject.now.schedule.now.ops subject.now.measures.now }
    ensures { IfOk result (λ explained. AreExplained subject.now.measures.now.ranks.items subject.now.measures.now.delays.rule
        subject.now.measures.now.delays.latencies.now subject.now.schedule.now.ops subject.now.schedule.now.rows explained.items) }
{
    let (measures, schedule) = (subject.measures, subject.schedule);
    let ops = schedule.ops();
    let rows = schedule.rows();
    let issued = issue_cycles(alloc, schedule)?;
    let ready_at = ready_cycles(alloc, &measures.pairs, &issued)?;
    let total = cycles(schedule, measures.delays.latencies);
    let mut explained = Vec::new(alloc);
    for j in 0..ops.len() {
        let cycle = issued[j];
        let ready = ready_at[j];
        let after = waited_until(alloc, subject, j, ready)?;
        explained.push(Explained {
            cycle,
            unit: unit_of(rows[cycle], j),
            ready,
            after,
            priority: u64::from(measures.ranks[j]),
            earliest: u64::from(measures.starts[j]),
            slack: slack_of(total, cycle, u64::from(measures.chains[j])),
            held: holder_of(schedule, j, cycle, ready),
        })?;
    }
    Ok(explained)
}

//! What binds in a schedule, from cycle 0 to its end.
ghost use Rattle.std.specs.Prelude.{◌≡◌, ◌+◌, ◌-◌, ◌<◌, ◌≤◌, ℕ, List, length, None, IfOk, MatchOption, map};
ghost use Rattle.std.specs.List.{range_with_len};
ghost use Rattle.iloc_meaning.specs.Trace.{op_at};
ghost use Rattle.iloc_timed.specs.declared.latencies.Latencies.{Latencies as latencies_value};
ghost use Rattle.iloc_timed.specs.Latency.{latency as latency_value};
ghost use Rattle.iloc_timed.specs.Rows.{issue_cycle, row_at};
ghost use Rattle.iloc_rules.specs.declared.memory_rule.MemoryRule.{MemoryRule as rule_value};
ghost use Rattle.iloc_explain.specs.Explained.{AreExplained};
ghost use Rattle.iloc_explain.specs.Holding.{keeper};
ghost use Rattle.iloc_explain.specs.Path.{Begins, Binds, HadRoom, IsPath};

use crate::chain::place_of_greatest;
use crate::explanation::Explained;
use crate::holding::keeper;
use iloc_ops::NoMemory;
use iloc_timed::{Latencies, Schedule, latency};
use std::alloc::Global;

/// Some cycles of a path, by what binds there.
#[derive(Clone, Copy, PartialEq, Eq)]
pub(crate) enum Stretch {
    /// The next operation of the path waits for the one of this number, so many cycles from its issue on; the last stretch is
    /// the latency of the last operation.
    Delay(usize, usize),
    /// The operation of this number keeps the next one of the path out of its row, for a cycle.
    Held(usize),
    /// For so many cycles the next operation of the path is ready and the rows have room for it.
    Free(usize),
}

impl Stretch {
    ghost use Rattle.iloc_explain.specs.Path.{origin, span};

    /// How many cycles it takes.
    pub(crate) fn span(self) -> usize
        ensures { result ≡ span self }
    {
        match self {
            Stretch::Delay(_, cycles) => cycles,
            Stretch::Held(_) => 1,
            Stretch::Free(cycles) => cycles,
        }
    }

    /// The operation at which it begins, where it leads to operation j.
    fn origin(self, j: usize) -> usize
        ensures { result ≡ origin self j }
    {
        match self {
            Stretch::Delay(i, _) => i,
            Stretch::Held(i) => i,
            Stretch::Free(_) => j,
        }
    }
}

/// How many rows before this cycle had room for operation j since it was ready, with none between them that hadn't.
fn rows_with_room(schedule: &Schedule, j: usize, ready: usize, cycle: usize) -> usize
    requires known { j < length schedule.now.ops }
    requires order { ready < cycle }
    requires within { cycle ≤ length schedule.now.rows }
    requires room { keeper schedule.now.ops (row_at schedule.now.rows (cycle - 1)) j ≡ None }
    ensures { HadRoom schedule.now.ops schedule.now.rows j ready cycle result }
{
    let ops = schedule.ops();
    let rows = schedule.rows();
    let mut first = cycle - 1;
    while first > ready && keeper(ops, rows[first - 1], j).is_none() {
        first -= 1;
    }
    cycle - first
}

/// What binds operation j in a cycle, by the explained operations; nothing in the cycle in which a path begins.
fn bound(schedule: &Schedule, explained: &[Explained], j: usize, cycle: usize) -> Option<Stretch>
    requires explained { (prios : List ℕ) × (rule : rule_value) × (lat : latencies_value)
        × AreExplained prios rule lat schedule.now.ops schedule.now.rows explained.now }
    requires known { j < length schedule.now.ops }
    requires within { cycle ≤ issue_cycle schedule.now.rows j }
    ensures { (prios : List ℕ) (rule : rule_value) (lat : latencies_value)
        → AreExplained prios rule lat schedule.now.ops schedule.now.rows explained.now
        → MatchOption result (Begins rule lat schedule.now.ops schedule.now.rows j cycle)
        (Binds rule lat schedule.now.ops schedule.now.rows j cycle) }
{
    let ops = schedule.ops();
    let own = &explained[j];
    if cycle < own.ready {
        return None;
    }
    if cycle == own.ready {
        let i = *own.after.first()?;
        return Some(Stretch::Delay(i, cycle - explained[i].cycle));
    }
    match keeper(ops, schedule.rows()[cycle - 1], j) {
        Some(h) => Some(Stretch::Held(h)),
        None => Some(Stretch::Free(rows_with_room(schedule, j, own.ready, cycle))),
    }
}

/// By operation the cycle at which its result arrives.
fn arrivals(
    alloc: Global,
    schedule: &Schedule,
    latencies: &Latencies,
    explained: &[Explained],
) -> Result<Vec<u32>, NoMemory>
    requires { (prios : List ℕ) × (rule : rule_value)
        × AreExplained prios rule latencies.now schedule.now.ops schedule.now.rows explained.now }
    ensures { IfOk result (λ found. found.items
        ≡ map (λ i. issue_cycle schedule.now.rows i + latency_value latencies.now (op_at schedule.now.ops i))
        (range_with_len 0 (length schedule.now.ops))) }
{
    let ops = schedule.ops();
    // Of which there are so few that no sum wraps.
    let _rows = schedule.rows();
    let mut found = Vec::new(alloc);
    for (i, op) in ops.iter().enumerate() {
        found.push(explained[i].cycle as u32 + latency(op, latencies) as u32)?;
    }
    Ok(found)
}

/// What binds in a schedule of renamed operations, from cycle 0 to its end: it is found from the first operation whose result
/// arrives last, back to the beginning. It takes time linear in the rows.
///
/// Promise: Back from the issue of the first operation whose result arrives last, each stretch is what keeps an operation from
/// being issued earlier, and the last is that operation's latency; `laws::paths_sum_to_the_cycles` says that a lawful schedule
/// takes just their cycles.
pub(crate) fn path_of(
    alloc: Global,
    schedule: &Schedule,
    latencies: &Latencies,
    explained: &[Explained],
) -> Result<Vec<Stretch>, NoMemory>
    requires { (prios : List ℕ) × (rule : rule_value)
        × AreExplained prios rule latencies.now schedule.now.ops schedule.now.rows explained.now }
    ensures { IfOk result (λ path. (prios : List ℕ) (rule : rule_value)
        → AreExplained prios rule latencies.now schedule.now.ops schedule.now.rows explained.now
        → IsPath rule latencies.now schedule.now.ops schedule.now.rows path.items) }
{
    let arrivals = arrivals(alloc, schedule, latencies, explained)?;
    let mut path = Vec::new(alloc);
    let Some(last) = place_of_greatest(&arrivals) else {
        return Ok(path);
    };
    let ops = schedule.ops();
    let taken = latency(&ops[last], latencies);
    path.push(Stretch::Delay(last, taken as usize))?;
    let mut j = last;
    let mut cycle = explained[last].cycle;
    while let Some(stretch) = bound(schedule, explained, j, cycle) {
        path.push(stretch)?;
        j = stretch.origin(j);
        cycle -= stretch.span();
    }
    path.reverse();
    Ok(path)
}

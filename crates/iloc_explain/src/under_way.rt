//! What is under way in a cycle.
ghost use Rattle.std.specs.Prelude.{◌≡◌, ◌++◌, ◌<◌, ◌≤◌, filter, length, nat_lt, option_to_list, IfOk, IfSome, OnOk};
ghost use Rattle.iloc_timed.specs.Rows.{issue_cycle};
ghost use Rattle.iloc_explain.specs.CycleLines.{paired};
ghost use Rattle.iloc_explain.specs.ReadyList.{arrival, under_way};

use crate::subject::Subject;
use iloc_ops::NoMemory;
use iloc_rules::LONGEST_DELAY;
use iloc_timed::latency;
use std::alloc::Global;

/// Adds what a slot holds, which is issued at a cycle, with the cycle at which its result arrives, if that is after this cycle.
fn push_under_way(
    found: &mut Vec<(usize, u64)>,
    slot: Option<usize>,
    subject: &Subject<'_>,
    issued: usize,
    cycle: usize,
) -> Result<(), NoMemory>
    requires known { IfSome slot (λ i. i < length subject.now.schedule.now.ops) }
    requires issued { IfSome slot (λ i. issue_cycle subject.now.schedule.now.rows i ≡ issued) }
    requires within { issued < length subject.now.schedule.now.rows }
    ensures { OnOk result (found.new.items ≡ found.old.items
        ++ paired (arrival subject.now.measures.now.delays.latencies.now subject.now.schedule.now.ops subject.now.schedule.now.rows)
        (filter (λ i. nat_lt cycle (arrival subject.now.measures.now.delays.latencies.now subject.now.schedule.now.ops subject.now.schedule.now.rows i)) (option_to_list slot))) }
{
    let Some(i) = slot else {
        return Ok(());
    };
    // Of which there are so few that no sum wraps.
    let _rows = subject.schedule.rows();
    let measures = subject.measures;
    let arrival = issued as u64 + latency(&subject.schedule.ops()[i], measures.delays.latencies);
    if arrival <= cycle as u64 {
        return Ok(());
    }
    Ok(found.push((i, arrival))?)
}

/// What was issued before a cycle and arrives after it, in the order of issue, each with the cycle of its arrival. No latency is above
/// `LONGEST_DELAY`, so it visits so many rows alone.
pub(crate) fn under_way(
    alloc: Global,
    subject: &Subject<'_>,
    cycle: usize,
) -> Result<Vec<(usize, u64)>, NoMemory>
    requires { cycle ≤ length subject.now.schedule.now.rows }
    ensures { IfOk result (λ found. found.items ≡ paired (arrival subject.now.measures.now.delays.latencies.now subject.now.schedule.now.ops subject.now.schedule.now.rows)
        (under_way subject.now.measures.now.delays.latencies.now subject.now.schedule.now.ops subject.now.schedule.now.rows cycle)) }
{
    let _ops = subject.schedule.ops();
    let rows = subject.schedule.rows();
    let mut found = Vec::new(alloc);
    for issued in cycle.saturating_sub(LONGEST_DELAY)..cycle {
        let row = rows[issued];
        push_under_way(&mut found, row.zero, subject, issued, cycle)?;
        push_under_way(&mut found, row.one, subject, issued, cycle)?;
    }
    Ok(found)
}

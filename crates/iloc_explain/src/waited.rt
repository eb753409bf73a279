//! What an operation waited for last.
ghost use Rattle.std.specs.Prelude.{◌≡◌, ◌++◌, ◌<◌, filter, length, option_to_list, IfOk, IfSome, OnOk};
ghost use Rattle.iloc_explain.specs.Waiting.{waited_until};
ghost use Rattle.iloc_explain.specs.Steps.Waits.{waits_for};

use crate::delays::Delays;
use crate::subject::Subject;
use iloc_ops::NoMemory;
use iloc_rules::LONGEST_DELAY;
use std::alloc::Global;

/// Adds what a slot holds where operation j waits `delay` cycles for it.
fn push_waited(
    waited: &mut Vec<usize>,
    slot: Option<usize>,
    delays: &Delays<'_>,
    j: usize,
    delay: u64,
) -> Result<(), NoMemory>
    requires known { IfSome slot (λ i. i < length delays.now.ops.now) }
    requires there { j < length delays.now.ops.now }
    ensures { OnOk result (waited.new.items ≡ waited.old.items
        ++ filter (waits_for delays.now.rule delays.now.latencies.now delays.now.ops.now j delay) (option_to_list slot)) }
{
    match slot {
        Some(i) if delays.waits(i, j, delay) => Ok(waited.push(i)?),
        _ => Ok(()),
    }
}

/// The operations for which operation j waited until a cycle, in the order of their issue. No delay is longer than
/// `LONGEST_DELAY`, so it looks at so many rows before that cycle alone.
pub(crate) fn waited_until(
    alloc: Global,
    subject: &Subject<'_>,
    j: usize,
    cycle: usize,
) -> Result<Vec<usize>, NoMemory>
    requires { j < length subject.now.schedule.now.ops }
    ensures { IfOk result (λ waited. waited.items ≡ waited_until subject.now.measures.now.delays.rule
        subject.now.measures.now.delays.latencies.now subject.now.schedule.now.ops subject.now.schedule.now.rows j cycle) }
{
    // Whose rows have operations alone.
    let _ops = subject.schedule.ops();
    let rows = subject.schedule.rows();
    let measures = subject.measures;
    let end = cycle.min(rows.len());
    let mut waited = Vec::new(alloc);
    for issued in cycle.saturating_sub(LONGEST_DELAY).min(end)..end {
        let delay = (cycle - issued) as u64;
        let row = rows[issued];
        push_waited(&mut waited, row.zero, &measures.delays, j, delay)?;
        push_waited(&mut waited, row.one, &measures.delays, j, delay)?;
    }
    Ok(waited)
}

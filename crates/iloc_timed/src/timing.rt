//! How long operations and schedules take.
ghost use Rattle.std.specs.Prelude.{◌≡◌, ◌+◌, ◌<◌, ◌≤◌, length, map, get_or, IfSome, OnOk, unwrap_or, option_map};
ghost use Rattle.iloc_meaning.specs.Trace.{op_at};
ghost use Rattle.iloc_timed.specs.Kinds.{kind};
ghost use Rattle.iloc_timed.specs.Latency.{latency, IsLatency};
ghost use Rattle.iloc_timed.specs.Cycles.{cycles};
ghost use Rattle.iloc_timed.specs.Rows.{AreNumbered};
ghost use Rattle.iloc_timed.specs.Steps.Latencies.{place};

use crate::kind::Kind;
use crate::latencies::Latencies;
use crate::row::Row;
use crate::schedule::{MAX_ROWS, Schedule};
use iloc_ops::{NoMemory, Op};

/// As `Kind::of`, which compiles to a table by itself, and inlined to a jump: so `simulate` mispredicts 0.35 branches less for
/// each operation.
#[inline(never)]
fn kind_of(op: &Op) -> Kind
    ensures { result ≡ kind op.now }
{
    Kind::of(op)
}

/// Promise: how many cycles after its issue the result of an operation arrives, from 1 to 16.
pub fn latency(op: &Op, latencies: &Latencies) -> u64
    ensures latency { result ≡ latency latencies.now op.now }
    ensures within { IsLatency result }
{
    u64::from(latencies.of(kind_of(op)))
}

/// Fills a list with the latency of each operation.
pub(crate) fn fill_latencies(
    own: &mut Vec<u32>,
    ops: &[Op],
    latencies: &Latencies,
) -> Result<(), NoMemory>
    ensures { OnOk result (own.new.items ≡ map (latency latencies.now) ops.now) }
{
    own.clear();
    for op in ops {
        own.push(latencies.of(kind_of(op)))?;
    }
    Ok(())
}

/// When the result of what is issued in a slot arrives, by the latencies of the kinds; 0 for an empty slot.
fn arrival(ops: &[Op], by_kind: &[u32; 5], cycle: usize, slot: Option<usize>) -> u64
    requires issued { IfSome slot (λ i. i < length ops.now) }
    requires early { cycle ≤ MAX_ROWS }
    ensures { result ≡ unwrap_or (option_map (λ i. cycle + get_or by_kind.now (place (kind (op_at ops.now i))) 0) slot) 0 }
{
    match slot {
        Some(i) => cycle as u64 + u64::from(by_kind[kind_of(&ops[i]) as usize]),
        None => 0,
    }
}

/// Promise: how many cycles rows take until their last result has arrived: the greatest sum of a cycle of issue and a
/// latency, 0 if there is no operation.
///
/// The rows may break the rules of the units.
pub fn cycles_of(ops: &[Op], rows: &[Row], latencies: &Latencies) -> u64
    requires numbered { AreNumbered ops.now rows.now }
    requires few { length rows.now ≤ MAX_ROWS }
    ensures { result ≡ cycles latencies.now ops.now rows.now }
{
    let longest = u64::from(latencies.longest());
    let by_kind = latencies.by_kind();
    let mut last = 0;
    // From the last row back, as long as a row that is left may hold what arrives later.
    let mut left = rows.len();
    while left > 0 && last < left as u64 + longest {
        left -= 1;
        let row = rows[left];
        last = arrival(ops, &by_kind, left, row.zero).max(last);
        last = arrival(ops, &by_kind, left, row.one).max(last);
    }
    last
}

/// Promise: how many cycles a schedule takes until its last result has arrived.
pub fn cycles(schedule: &Schedule, latencies: &Latencies) -> u64
    ensures { result ≡ cycles latencies.now schedule.now.ops schedule.now.rows }
{
    cycles_of(schedule.ops(), schedule.rows(), latencies)
}

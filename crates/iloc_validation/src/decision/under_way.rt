//! What is issued while a store is under way.
ghost use Rattle.std.specs.Prelude.{◌≡◌, ◌<◌, ◌||◌, ℕ, true, length};
ghost use Rattle.iloc_timed.specs.declared.kind.Kind.TheVariants as K;
ghost use Rattle.iloc_timed.specs.Kinds.{is_store};
ghost use Rattle.iloc_timed.specs.Rows.{kind_in, is_some_kind};
ghost use Rattle.iloc_rules.specs.Delays.{reads_stored};
ghost use Rattle.iloc_facts.specs.UnderWay.{IsUnderWay};

use iloc_ops::Op;
use iloc_timed::{Kind, Latencies, Row, Schedule};

/// The kind of the operation in a slot.
fn kind_in(ops: &[Op], slot: Option<usize>) -> Option<Kind>
    ensures { result ≡ kind_in ops.now slot }
{
    slot.map(|k| ops.get(k).map_or(Kind::Other, Kind::of))
}

/// Whether an operation of a row stores.
fn issues_store(ops: &[Op], row: Row) -> bool
    ensures { result ≡ (is_some_kind is_store (kind_in ops.now row.zero) || is_some_kind is_store (kind_in ops.now row.one)) }
{
    let stores = |kind: Option<Kind>| matches!(kind, Some(Kind::Store));
    stores(kind_in(ops, row.zero)) || stores(kind_in(ops, row.one))
}

/// Whether an operation of a row has to wait for stores before it.
fn issues_load_or_output(ops: &[Op], row: Row) -> bool
    ensures { result ≡ (is_some_kind (reads_stored K.Store) (kind_in ops.now row.zero)
        || is_some_kind (reads_stored K.Store) (kind_in ops.now row.one)) }
{
    let waits = |kind: Option<Kind>| matches!(kind, Some(Kind::Load | Kind::Output));
    waits(kind_in(ops, row.zero)) || waits(kind_in(ops, row.one))
}

/// Whether a load or an output is issued while a store is under way.
pub(crate) fn is_under_way(schedule: &Schedule, latencies: &Latencies) -> bool
    ensures { result ≡ true → (k : ℕ) × (s : ℕ) × (k < length schedule.now.ops) × (s < length schedule.now.ops)
        × IsUnderWay latencies.now schedule.now.ops schedule.now.rows k s }
{
    let ops = schedule.ops();
    let mut until = 0;
    for (cycle, row) in schedule.rows().iter().enumerate() {
        if issues_store(ops, *row) {
            until = cycle + latencies.store as usize;
        }
        if cycle < until && issues_load_or_output(ops, *row) {
            return true;
        }
    }
    false
}

//! What kept an operation out of the row before its own.
ghost use Rattle.std.specs.Prelude.{◌≡◌, ◌<◌, ◌≤◌, length, IfSome};
ghost use Rattle.iloc_explain.specs.Holding.{clash, held_by, holder, keeper};
ghost use Rattle.iloc_rules.specs.Greedy.{may_stand_beside};

use iloc_ops::Op;
use iloc_timed::{Kind, Row, Schedule};

/// What kept an operation out of the row before its own.
#[derive(Clone, Copy, PartialEq, Eq)]
pub(crate) enum Holder {
    /// Its delays: it is issued as soon as it is ready.
    Delays,
    /// The operation of this number in that row: the units don't let the two be issued together, or the row is full.
    Operation(usize),
    /// Nothing: that row had room for it.
    Nothing,
}

/// Whether the units let operations of the kinds `a` and `b` be issued together.
fn may_stand_beside(a: Kind, b: Kind) -> bool
    ensures { result ≡ may_stand_beside a b }
{
    !(a.needs_zero() && b.needs_zero())
        && !(a.needs_one() && b.needs_one())
        && !(a.stands_alone() && b.stands_alone())
}

/// Whether the units don't let operations i and j be issued together.
fn clash(ops: &[Op], i: usize, j: usize) -> bool
    requires first { i < length ops.now }
    requires second { j < length ops.now }
    ensures { result ≡ clash ops.now i j }
{
    !may_stand_beside(Kind::of(&ops[i]), Kind::of(&ops[j]))
}

/// The operation that keeps operation j out of a row: the first that it can't stand beside or, in a full row, that on unit 0.
pub(crate) fn keeper(ops: &[Op], row: Row, j: usize) -> Option<usize>
    requires zero { IfSome row.zero (λ i. i < length ops.now) }
    requires one { IfSome row.one (λ i. i < length ops.now) }
    requires known { j < length ops.now }
    ensures { result ≡ keeper ops.now row j }
{
    match (row.zero, row.one) {
        (Some(zero), Some(one)) if clash(ops, one, j) && !clash(ops, zero, j) => Some(one),
        (Some(zero), Some(_)) => Some(zero),
        (Some(only), None) | (None, Some(only)) if clash(ops, only, j) => Some(only),
        _ => None,
    }
}

/// What an operation is held by where this one keeps it out, or nothing does.
pub(crate) fn held_by(keeper: Option<usize>) -> Holder
    ensures { result ≡ held_by keeper }
{
    match keeper {
        Some(i) => Holder::Operation(i),
        None => Holder::Nothing,
    }
}

/// What kept operation j, issued in this cycle and ready in that one, out of the row before. It looks at that row alone.
pub(crate) fn holder_of(schedule: &Schedule, j: usize, cycle: usize, ready: usize) -> Holder
    requires known { j < length schedule.now.ops }
    requires within { cycle ≤ length schedule.now.rows }
    ensures { result ≡ holder schedule.now.ops schedule.now.rows j cycle ready }
{
    if cycle <= ready {
        return Holder::Delays;
    }
    held_by(keeper(schedule.ops(), schedule.rows()[cycle - 1], j))
}

//! One cycle of a schedule.
ghost use Rattle.std.specs.Prelude.{◌≡◌};
ghost use Rattle.iloc_timed.specs.Rows.{kind_in};

use crate::kind::Kind;
use iloc_ops::Op;

/// The operations that are issued in one cycle, by their numbers: one on each unit, or none.
#[derive(Clone, Copy, Debug, Default, PartialEq, Eq)]
pub struct Row {
    /// The operation on unit 0.
    pub zero: Option<usize>,
    /// The operation on unit 1.
    pub one: Option<usize>,
}

/// The kind of the operation in a slot.
pub fn kind_in(ops: &[Op], slot: Option<usize>) -> Option<Kind>
    ensures { result ≡ kind_in ops.now slot }
{
    slot.map(|i| ops.get(i).map_or(Kind::Other, Kind::of))
}

impl Row {
    ghost use Rattle.iloc_timed.specs.Rows.{keeps_units};
    ghost use Rattle.iloc_timed.specs.Schedule.{is_sound};

    /// Whether each number is one of an operation of `ops` and the rules of the units are kept.
    pub(crate) fn is_sound(&self, ops: &[Op]) -> bool
        ensures { result ≡ is_sound ops.now self.now }
    {
        let in_range = |slot: Option<usize>| slot.is_none_or(|i| i < ops.len());
        in_range(self.one) && in_range(self.zero) && self.keeps_units(ops)
    }

    /// Whether loads and stores are on unit 0, products on unit 1, and at most one output is in the row.
    pub fn keeps_units(&self, ops: &[Op]) -> bool
        ensures { result ≡ keeps_units ops.now self.now }
    {
        let zero = kind_in(ops, self.zero);
        let one = kind_in(ops, self.one);
        let stands_alone = |kind: Option<Kind>| kind.is_some_and(Kind::stands_alone);
        !zero.is_some_and(Kind::needs_one)
            && !one.is_some_and(Kind::needs_zero)
            && !(stands_alone(zero) && stands_alone(one))
    }
}

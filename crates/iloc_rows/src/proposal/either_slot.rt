//! Rows whose operations may be in either slot.
ghost use Rattle.std.specs.Prelude.{◌≡◌, map, MatchOption};
ghost use Rattle.iloc_rows.specs.EitherSlot.{AllKeepUnits, IsFirstThatBreaks, in_either_slot, placed, with_either_slot};

use super::{Proposal, Proposals, Proposed, Rows};
use iloc_ops::Op;
use iloc_timed::Row;

/// The first row that breaks the rules of the units.
pub fn first_that_breaks(ops: &[Op], rows: &[Row]) -> Option<usize>
    ensures { MatchOption result (AllKeepUnits ops.now rows.now) (IsFirstThatBreaks ops.now rows.now) }
{
    rows.iter().position(|row| !row.keeps_units(ops))
}

/// The row, exchanged if it breaks the rules of the units as it is, and keeps them so.
fn in_either_slot(ops: &[Op], row: Row) -> Row
    ensures { result ≡ in_either_slot ops.now row }
{
    let exchanged = Row {
        zero: row.one,
        one: row.zero,
    };
    if !row.keeps_units(ops) && exchanged.keeps_units(ops) {
        exchanged
    } else {
        row
    }
}

impl Rows {
    /// Exchanges each row that keeps the rules of the units only so.
    fn use_either_slot(&mut self, ops: &[Op])
        ensures { self.new ≡ map (in_either_slot ops.now) self.old }
    {
        for row in self.items.iter_mut() {
            *row = in_either_slot(ops, *row);
        }
    }
}

impl Proposal {
    /// Exchanges the operations of each row that keeps the rules of the units only so.
    fn use_either_slot(&mut self)
        ensures { self.new ≡ with_either_slot self.old }
    {
        let Proposed { ops, rows, .. } = &mut self.proposed;
        rows.use_either_slot(ops.as_slice());
    }
}

impl Proposals {
    /// Promise: the proposals as they are judged. With leave for either slot, the operations of each row that breaks the rules
    /// of the units, and keeps them if the two are exchanged, are exchanged.
    pub fn placed(self, either_slot: bool) -> Proposals
        ensures { result ≡ placed either_slot self }
    {
        let mut items = self.items;
        if either_slot {
            for proposal in items.iter_mut() {
                proposal.use_either_slot();
            }
        }
        Proposals { items }
    }
}

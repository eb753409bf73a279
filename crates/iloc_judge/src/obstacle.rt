//! What keeps a proposal from being a schedule.
ghost use Rattle.std.specs.Prelude.{IfOk, MatchOption};
ghost use Rattle.iloc_judge.specs.Obstacle.{IsObstacle, IsReadable};

use iloc_lint::row_wording;
use iloc_ops::NoMemory;
use iloc_rows::Proposal;
use iloc_verdict::Obstacle;
use std::alloc::Global;

/// What keeps `proposal` from being a schedule, if something does: its first line that can't be read, with `row_wording`'s words for
/// it, or else its first row that breaks the rules of the units.
pub fn obstacle_of(alloc: Global, proposal: &Proposal) -> Result<Option<Obstacle<'_>>, NoMemory>
    ensures { IfOk result (λ found. MatchOption found (IsReadable proposal.now) (IsObstacle proposal.now)) }
{
    if let Some(unread) = proposal.unread() {
        let words = row_wording(alloc, unread.text.as_bytes())?;
        return Ok(Some(Obstacle::Unread(unread, words)));
    }
    match proposal.bad_row() {
        Some(row) => Ok(Some(Obstacle::Units(row))),
        None => Ok(None),
    }
}

//! A worker's run over a board.
ghost use Rattle.std.specs.Prelude.{◌≡◌, ◌<◌, true, MatchOption, OnOk, OnErr};
ghost use Rattle.iloc_board.specs.declared.board.state.State.TheVariants as about;
ghost use Rattle.iloc_board.specs.Core.{is_holding};
ghost use Rattle.iloc_board.specs.Views.{state};
ghost use Rattle.iloc_board.specs.Working.{Runs, HandsBack, IsDone};
ghost use Rattle.iloc_board.specs.Steps.Course.{Goes, Ended, HandsNothing};

use crate::board::pass::Pass;
use crate::board::{Board, Seen, Tried};
use crate::desk::{AtDesk, NoDesk};
use crate::fault::NoMemory;
use crate::gate::Gate;
use crate::jobs::Jobs;

/// Takes jobs and hands back their answers, until none is left. The pass is free at first.
///
/// Promise: each job that the worker hands back has an answer that fits. At `Ok` the worker is free and was told that none is
/// left. If memory is refused, the pass holds the job whose answer was lost. It adds at most `3 * count + 1` steps, whatever
/// the other workers do.
pub fn work<'a, J: Jobs, G: Gate>(
    board: &Board<'a, J>,
    pass: &mut Pass<'a, J>,
    gate: &G,
) -> Result<(), NoMemory>
    requires own { pass.old.board ≡ board.now }
    requires free { state pass.old ≡ about.Free }
    ensures own { pass.new.board ≡ board.now }
    ensures runs { Runs (J.number board.now.jobs) pass.old.journal pass.new.journal }
    ensures answers { let jobs = board.now.jobs in HandsBack (J.fits jobs) (J.price jobs) pass.old pass.new }
    ensures ok { OnOk result (IsDone pass.new.journal) }
    ensures err { OnErr result (is_holding (state pass.new) ≡ true) }
{
    work_at(board, pass, gate, &mut NoDesk)
}

/// The same, with the answers made at this desk.
///
/// Promise: what `work` promises, whatever the desk holds.
pub fn work_at<'a, J: AtDesk<D>, D, G: Gate>(
    board: &Board<'a, J>,
    pass: &mut Pass<'a, J>,
    gate: &G,
    desk: &mut D,
) -> Result<(), NoMemory>
    requires own { pass.old.board ≡ board.now }
    requires free { state pass.old ≡ about.Free }
    ensures own { pass.new.board ≡ board.now }
    ensures runs { Runs (J.number board.now.jobs) pass.old.journal pass.new.journal }
    ensures answers { let jobs = board.now.jobs in HandsBack (J.fits jobs) (J.price jobs) pass.old pass.new }
    ensures ok { OnOk result (IsDone pass.new.journal) }
    ensures err { OnErr result (is_holding (state pass.new) ≡ true) }
{
    while let Some(job) = claim(board, pass, gate) {
        let answer = board.jobs.answer_at(desk, board.alloc, job)?;
        board.hand_back(pass, answer)?;
    }
    Ok(())
}

/// Takes a job, or sees that none is left.
fn claim<'a, J: Jobs, G: Gate>(
    board: &Board<'a, J>,
    pass: &mut Pass<'a, J>,
    gate: &G,
) -> Option<u32>
    requires own { pass.old.board ≡ board.now }
    requires free { state pass.old ≡ about.Free }
    ensures own { pass.new.board ≡ board.now }
    ensures nothing { HandsNothing pass.old pass.new }
    ensures claimed { MatchOption result
        (Ended (J.number board.now.jobs) pass.old.journal pass.new.journal × IsDone pass.new.journal)
        (λ k. Goes (J.number board.now.jobs) pass.old.journal pass.new.journal
        × (state pass.new ≡ about.Holding k) × (k < J.number board.now.jobs)) }
{
    let Seen::Block(job) = board.look(pass) else {
        return None;
    };
    gate.after_look(pass.worker(), job);
    loop {
        match board.try_take(pass) {
            Tried::Took(job) => {
                gate.after_take(pass.worker(), job);
                return Some(job);
            }
            Tried::Stale(_) => {}
            Tried::NoneLeft => return None,
        }
    }
}

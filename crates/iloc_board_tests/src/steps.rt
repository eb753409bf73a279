//! Steps that tests take with a pass, written down.
ghost use Rattle.std.specs.Prelude.{◌≡◌};

use crate::tens::Tens;
use iloc_board::{Board, FreeGate, Pass, Root, Seen, State, Tried, work};
use std::process::Abort;

/// What is done with a pass, and what has to come of it.
#[derive(Clone, Copy)]
pub(crate) enum Act {
    Look(Seen),
    Try(Tried),
    /// The answer to the job that the pass holds.
    HandBack,
    /// To the end.
    Work,
}

/// Whether the pass may look, and sees this.
fn sees<'a>(board: &Board<'a, Tens>, pass: &mut Pass<'a, Tens>, seen: Seen) -> bool
    requires { pass.old.board ≡ board.now }
    ensures { pass.new.board ≡ board.now }
{
    match pass.state() {
        State::Holding(_) => false,
        State::Free | State::Looked(_) => board.look(pass) == seen,
    }
}

/// Whether the pass may try, and this becomes of it.
fn tries<'a>(board: &Board<'a, Tens>, pass: &mut Pass<'a, Tens>, tried: Tried) -> bool
    requires { pass.old.board ≡ board.now }
    ensures { pass.new.board ≡ board.now }
{
    match pass.state() {
        State::Looked(_) => board.try_take(pass) == tried,
        State::Free | State::Holding(_) => false,
    }
}

/// Whether the pass holds a job, and hands back the answer to it.
fn hands_back<'a>(board: &Board<'a, Tens>, pass: &mut Pass<'a, Tens>) -> bool
    requires { pass.old.board ≡ board.now }
    ensures { pass.new.board ≡ board.now }
{
    match pass.state() {
        State::Holding(job) => board.hand_back(pass, 10 + job).is_ok(),
        State::Free | State::Looked(_) => false,
    }
}

/// Whether the pass may work, and does so to the end.
fn works<'a>(board: &Board<'a, Tens>, pass: &mut Pass<'a, Tens>) -> bool
    requires { pass.old.board ≡ board.now }
    ensures { pass.new.board ≡ board.now }
{
    match pass.state() {
        State::Free => work(board, pass, &FreeGate).is_ok(),
        State::Looked(_) | State::Holding(_) => false,
    }
}

/// Does this with the pass, where its state allows it, and asserts what comes of it.
fn carry_out<'a>(rt: &impl Abort, board: &Board<'a, Tens>, pass: &mut Pass<'a, Tens>, act: Act)
    requires { pass.old.board ≡ board.now }
    ensures { pass.new.board ≡ board.now }
{
    let is_so = match act {
        Act::Look(seen) => sees(board, pass, seen),
        Act::Try(tried) => tries(board, pass, tried),
        Act::HandBack => hands_back(board, pass),
        Act::Work => works(board, pass),
    };
    assert!(rt; is_so);
}

/// Does all this with the pass, one after another.
pub(crate) fn act_all<'a>(
    rt: &impl Abort,
    board: &Board<'a, Tens>,
    pass: &mut Pass<'a, Tens>,
    acts: &[Act],
)
    requires { pass.old.board ≡ board.now }
    ensures { pass.new.board ≡ board.now }
{
    for it in acts {
        carry_out(rt, board, pass, *it);
    }
}

/// Gathers the pass, for which memory has to suffice.
pub(crate) fn gather<'a>(
    rt: &impl Abort,
    board: &Board<'a, Tens>,
    root: &mut Root<'a, Tens>,
    pass: Pass<'a, Tens>,
)
    requires root { root.old.board ≡ board.now }
    requires pass { pass.board ≡ board.now }
    ensures { root.new.board ≡ board.now }
{
    assert!(rt; board.gather(root, pass).is_ok());
}

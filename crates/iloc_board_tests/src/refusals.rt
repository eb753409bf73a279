//! That a second try ends well where a growth is refused: to be run with each growth refused in turn. The test ends with
//! the refusal.
ghost use Rattle.std.specs.Prelude.{◌≡◌};
ghost use Rattle.iloc_board.specs.declared.board.state.State.TheVariants as about;
ghost use Rattle.iloc_board.specs.Views.{state};

use crate::asserted::assert_list;
use crate::steps::{Act, act_all, gather};
use crate::tens::Tens;
use iloc_board::{Board, FreeGate, NoMemory, Pass, work};
use std::process::Abort;
use std::test::Fail;

/// What is left to be done after work at which an answer was lost.
const LOST: &[Act] = &[Act::HandBack, Act::Work];

const TENS: &[u32] = &[
    10, 11, 12, 13, 14, 15, 16, 17, 18, 19, 20, 21, 22, 23, 24, 25, 26, 27, 28, 29,
];

/// Works, on behind the answer that was lost where one was, and answers how the work ended first.
fn work_on<'a>(
    rt: &impl Abort,
    board: &Board<'a, Tens>,
    pass: &mut Pass<'a, Tens>,
) -> Result<(), NoMemory>
    requires own { pass.old.board ≡ board.now }
    requires free { state pass.old ≡ about.Free }
    ensures { pass.new.board ≡ board.now }
{
    let first = work(board, pass, &FreeGate);
    let left = if first.is_ok() { &[] } else { LOST };
    act_all(rt, board, pass, left);
    first
}

#[test]
fn works_on_after_an_answer_was_lost(rt: HostRuntime) -> Result<(), Fail> {
    let jobs = Tens { count: 20 };
    let (board, mut root) = Board::new(rt.alloc(), &jobs, 1)?;
    let mut pass = board.pass(&mut root);
    let worked = work_on(&rt, &board, &mut pass);
    gather(&rt, &board, &mut root, pass);
    assert_list(&rt, &board.collect(root)?.answers, TENS);
    Ok(worked?)
}

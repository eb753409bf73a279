use crate::asserted::assert_list;
use crate::steps::Act::{HandBack, Look, Try};
use crate::steps::{act_all, gather};
use crate::tens::Tens;
use iloc_board::Board;
use iloc_board::Seen::{Block, NoneLeft};
use iloc_board::Tried::{Stale, Took};
use std::test::Fail;

#[test]
fn two_passes_share_two_jobs(rt: HostRuntime) -> Result<(), Fail> {
    let jobs = Tens { count: 2 };
    let (board, mut root) = Board::new(rt.alloc(), &jobs, 2)?;
    let mut zero = board.pass(&mut root);
    let mut one = board.pass(&mut root);
    assert!(rt; (root.workers(), root.made()) == (2, 2));
    act_all(&rt, &board, &mut zero, &[Look(Block(0))]);
    act_all(&rt, &board, &mut one, &[Look(Block(0)), Try(Took(0))]);
    act_all(
        &rt,
        &board,
        &mut zero,
        &[Try(Stale(1)), Try(Took(1)), HandBack],
    );
    act_all(&rt, &board, &mut one, &[HandBack, Look(NoneLeft)]);
    gather(&rt, &board, &mut root, zero);
    gather(&rt, &board, &mut root, one);
    assert_list(&rt, &board.collect(root)?.answers, &[10, 11]);
    Ok(())
}

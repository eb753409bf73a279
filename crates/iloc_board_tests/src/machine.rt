use crate::asserted::assert_list;
use iloc_board::Reply::{Block, Handed, NoneLeft, NotNow, Stale, Took};
use iloc_board::Step::{Hand, Look, Try};
use iloc_board::{Reply, Step, play};
use std::test::*;

/// Three workers race for two jobs. A step that the state forbids changes nothing.
const STEPS: &[Step] = &[
    Look(0),
    Look(1),
    Look(2),
    Try(0),
    Try(1),
    Try(1),
    Try(2),
    Try(2),
    Hand { worker: 0, cost: 5 },
    Hand { worker: 1, cost: 6 },
];

const REPLIES: &[Reply] = &[
    Block(0),
    Block(0),
    Block(0),
    Took(0),
    Stale(1),
    Took(1),
    NoneLeft,
    NotNow,
    Handed,
    Handed,
];

#[test]
fn answers_step_by_step(rt: HostRuntime) -> Result<(), Fail> {
    let played = play(rt.alloc(), 2, STEPS)?;
    assert_list(&rt, &played.replies, REPLIES);
    assert_list(&rt, &played.costs, &[5, 6]);
    assert!(rt; played.next == 2);
    Ok(())
}

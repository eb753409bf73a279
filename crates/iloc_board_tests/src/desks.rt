use crate::tens::Tens;
use iloc_board::{AtDesk, Board, FreeGate, Jobs, NoMemory, work_at};
use std::alloc::Global;
use std::test::*;

/// Counts the answers that were made at it.
#[derive(Drop)]
struct Counter(u32);

impl AtDesk<Counter> for Tens {
    fn answer_at(&self, desk: &mut Counter, alloc: Global, i: u32) -> Result<u32, NoMemory> {
        desk.0 = desk.0.wrapping_add(1);
        self.answer(alloc, i)
    }
}

#[test]
fn a_worker_answers_at_its_desk(rt: HostRuntime) -> Result<(), Fail> {
    let jobs = Tens { count: 3 };
    let (board, mut root) = Board::new(rt.alloc(), &jobs, 1)?;
    let mut pass = board.pass(&mut root);
    let mut desk = Counter(0);
    work_at(&board, &mut pass, &FreeGate, &mut desk)?;
    assert!(rt; desk.0 == 3);
    Ok(())
}

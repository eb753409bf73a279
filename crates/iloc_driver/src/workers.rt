//! The workers of a board, each a thread.
ghost use Rattle.std.specs.Prelude.{◌≡◌, ◌<◌, ◌^◌, [], ◌∷◌, ◌++◌, length, IfErr, IfOk, OnOk, map};
ghost use Rattle.std.specs.List.{All, range_with_len};
ghost use Rattle.iloc_board.specs.declared.board.state.State.TheVariants as about;
ghost use Rattle.iloc_board.specs.Views.{state};
ghost use Rattle.iloc_board.specs.Working.{IsDone};
ghost use Rattle.iloc_board.specs.Collecting.{IsWhole, workers_of};
ghost use Rattle.iloc_driver.specs.Fault.{EndsWork};
ghost use Rattle.iloc_driver.specs.Work.{AreFarmed};

mod crew;

use crate::fault::FarmFault;
use crew::{Routine, crew};
use iloc_board::{AtDesk, Board, Done, Gate, Jobs, NoMemory, Pass, Root, work_at};
use std::alloc::Global;
use std::sync::Wait;
use std::thread::Threads;

/// A pass that is to work at a board, and the desk of its worker.
#[derive(Drop)]
pub struct Shift<'s, 'a, J: AtDesk<D>, D, G: Gate> {
    pub board: &'s Board<'a, J>,
    pub pass: Pass<'a, J>,
    pub desk: D,
    pub gate: &'s G,
}

/// A pass that has worked, and whether memory sufficed.
#[derive(Drop)]
pub struct Worked<'a, J: Jobs> {
    pub pass: Pass<'a, J>,
    pub done: Result<(), NoMemory>,
}

impl<'s, 'a, J: AtDesk<D>, D: Drop, G: Gate> Routine for Shift<'s, 'a, J, D, G> {
    type Output = Worked<'a, J>;

    ghost can_run = { λ s. (s.pass.board ≡ s.board.now) × (state s.pass ≡ about.Free) };

    ghost run_gives = { λ s w. (w.pass.board ≡ s.board.now) × (w.pass.journal.worker ≡ s.pass.journal.worker) × OnOk w.done (IsDone w.pass.journal) };

    fn run(self) -> Worked<'a, J> {
        let Shift {
            board,
            mut pass,
            mut desk,
            gate,
        } = self;
        let done = work_at(board, &mut pass, gate, &mut desk);
        Worked { pass, done }
    }
}

/// Has these jobs done by as many workers as there are desks. The workers take the jobs from one board; each has a pass, one of
/// these desks and a thread of its own.
///
/// Promise: what the workers did, by the journals of the receipt, is one legal history of a board of one thread, in which each
/// job is taken once and handed back once. The answers are those that were handed back, in the order of the jobs. There is one
/// journal of each worker, in order, and each worker was told that no job is left.
///
/// # Errors
///
/// `NoThread` where a thread could not be started, `NoMemory` where memory was refused. After either every thread that was
/// started has ended.
pub fn farm_out<'a, J: AtDesk<D> + Sync, D: Send + Drop, G: Gate + Sync, R: Threads + Wait + Sync>(
    rt: &R,
    alloc: Global,
    jobs: &'a J,
    desks: Vec<D>,
    gate: &G,
) -> Result<Done<'a, J>, FarmFault>
where
    J::Answer: Send,
    requires some { 0 < length desks.items }
    requires few { length desks.items < 2 ^ 32 }
    ensures jobs { IfOk result (λ done. done.jobs ≡ jobs.now) }
    ensures headline { IfOk result (λ done. AreFarmed (J.number jobs.now) (J.fits jobs.now) (J.price jobs.now)
        (length desks.items) done.receipt) }
{
    let (board, mut root) = Board::new(alloc, jobs, desks.len() as u32)?;
    work_all(rt, alloc, &board, &mut root, desks, gate)?;
    Ok(board.done(root)?)
}

/// Has all jobs of a new board done by as many workers as its root may make: each has a pass, one of these desks and a thread
/// of its own.
///
/// Promise: at `Ok` the root has gathered one journal of each worker, in order, and each worker was told that no job is left.
/// `NoThread` comes only after all passes were made and before any was gathered.
///
/// # Errors
///
/// `NoThread` where a thread could not be started, whatever became of the workers before it; else `NoMemory` where memory was
/// refused. After either every thread that was started has ended.
pub fn work_all<'a, J: AtDesk<D> + Sync, D: Send + Drop, G: Gate + Sync, R: Threads + Wait + Sync>(
    rt: &R,
    alloc: Global,
    board: &Board<'a, J>,
    root: &mut Root<'a, J>,
    desks: Vec<D>,
    gate: &G,
) -> Result<(), FarmFault>
where
    J::Answer: Send,
    requires own { root.old.board ≡ board.now }
    requires some { 0 < root.old.workers }
    requires each { length desks.items ≡ root.old.workers }
    requires none_made { root.old.made ≡ 0 }
    requires none_gathered { root.old.gathered ≡ [] }
    ensures own { root.new.board ≡ board.now }
    ensures made { OnOk result (root.new.made ≡ root.old.workers) }
    ensures journals { OnOk result (workers_of root.new.gathered ≡ range_with_len 0 root.old.workers) }
    ensures done { OnOk result (All IsDone root.new.gathered) }
    ensures whole { OnOk result (IsWhole root.new.made root.new.gathered) }
    ensures order { IfErr result (EndsWork root.old.workers root.new.made root.new.gathered) }
{
    let shifts = shifts(alloc, board, root, desks, gate)?;
    let worked = crew(rt, alloc, shifts)?;
    Ok(gather_all(board, root, worked)?)
}

/// A shift at each of `desks`, for each pass that `root` may make.
fn shifts<'s, 'a, J: AtDesk<D>, D: Drop, G: Gate>(
    alloc: Global,
    board: &'s Board<'a, J>,
    root: &mut Root<'a, J>,
    desks: Vec<D>,
    gate: &'s G,
) -> Result<Vec<Shift<'s, 'a, J, D, G>>, NoMemory>
    requires own { root.old.board ≡ board.now }
    requires each { length desks.items ≡ root.old.workers }
    requires none_made { root.old.made ≡ 0 }
    requires none_gathered { root.old.gathered ≡ [] }
    ensures own { root.new.board ≡ board.now }
    ensures gathered { root.new.gathered ≡ [] }
    ensures ready { IfOk result (λ made.
        All (λ s. (s.pass.board ≡ s.board.now) × (s.board.now ≡ board.now) × (state s.pass ≡ about.Free)) made.items) }
    ensures numbered { IfOk result (λ made.
        map (λ s. s.pass.journal.worker) made.items ≡ range_with_len 0 root.new.made) }
    ensures all { OnOk result (root.new.made ≡ root.old.workers) }
{
    let mut made = Vec::new(alloc);
    for desk in desks {
        let pass = board.pass(root);
        made.push(Shift {
            board,
            pass,
            desk,
            gate,
        })?;
    }
    Ok(made)
}

/// Gathers a pass that has worked, and answers whether memory sufficed for its work and for the gathering.
fn gather_one<'a, J: Jobs>(
    board: &Board<'a, J>,
    root: &mut Root<'a, J>,
    worked: Worked<'a, J>,
) -> Result<(), NoMemory>
    requires root { root.old.board ≡ board.now }
    requires pass { worked.pass.board ≡ board.now }
    requires done { OnOk worked.done (IsDone worked.pass.journal) }
    ensures own { root.new.board ≡ board.now }
    ensures made { root.new.made ≡ root.old.made }
    ensures ok { OnOk result ((root.new.gathered ≡ root.old.gathered ++ worked.entry.pass.journal ∷ [])
        × IsDone worked.entry.pass.journal) }
{
    let Worked { pass, done } = worked;
    board.gather(root, pass)?;
    done
}

/// Gathers every pass, and then answers whether memory sufficed for all of them.
fn gather_all<'a, J: Jobs>(
    board: &Board<'a, J>,
    root: &mut Root<'a, J>,
    worked: Vec<Worked<'a, J>>,
) -> Result<(), NoMemory>
    requires root { root.old.board ≡ board.now }
    requires each { All (λ w. (w.pass.board ≡ board.now) × OnOk w.done (IsDone w.pass.journal)) worked.items }
    ensures own { root.new.board ≡ board.now }
    ensures made { root.new.made ≡ root.old.made }
    ensures gathered { OnOk result
        (root.new.gathered ≡ root.old.gathered ++ map (λ w. w.pass.journal) worked.entry.items) }
    ensures done { OnOk result (All (λ w. IsDone w.pass.journal) worked.entry.items) }
{
    let mut all = Ok(());
    for shift in worked {
        if let Err(refused) = gather_one(board, root, shift) {
            all = Err(refused);
        }
    }
    all
}

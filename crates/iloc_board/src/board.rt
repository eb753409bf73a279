//! The board: a row of words that threads share.
ghost use Rattle.std.specs.Prelude.{◌≡◌, ◌+◌, ◌<◌, true, false, [], IfOk, IfErr, OnOk};
ghost use Rattle.iloc_board.specs.declared.step.Step.TheVariants as step;
ghost use Rattle.iloc_board.specs.declared.board.state.State.TheVariants as about;
ghost use Rattle.iloc_board.specs.Core.{is_holding, state_after};
ghost use Rattle.iloc_board.specs.Journal.{seen, saw_none};
ghost use Rattle.iloc_board.specs.Views.{job_of, is_looking, state, stepped, with_answer, with_pass, new_pass, with_gathered, seen_reply, tried_reply, IsFreshSeen, IsFreshTried};

pub mod pass;
pub mod rule;
pub mod seat_view;
pub mod state;

use crate::answers::Answers;
use crate::board::pass::{Pass, Root};
use crate::board::rule::{Gathering, Handing, Looking, Making, Order, Trying};
use crate::board::seat_view::SeatView;
use crate::board::state::State;
use crate::fault::{NoMemory, NoMemoryWith};
use crate::jobs::Jobs;
use atomic_table::Table;
use std::alloc::Global;
use std::marker::Model;

/// What a look found.
#[derive(Clone, Copy, PartialEq, Eq)]
pub enum Seen {
    /// This job is next.
    Block(u32),
    /// All jobs were taken.
    NoneLeft,
}

/// What became of a try.
#[derive(Clone, Copy, PartialEq, Eq)]
pub enum Tried {
    /// The pass has taken this job.
    Took(u32),
    /// Another pass was faster, and this job is next now.
    Stale(u32),
    /// All jobs were taken.
    NoneLeft,
}

/// A row of words that threads share: the number of the next job, and then each job's cost. No call waits for another.
#[derive(Drop)]
pub struct Board<'a, J: Jobs> {
    pub(crate) jobs: &'a J,
    pub(crate) count: u32,
    pub(crate) alloc: Global,
    pub(crate) table: Table<(), SeatView, u32, Order, Global>,
}

impl<'a, J: Jobs> Model for Board<'a, J> {
    ghost use Rattle.iloc_board.specs.Views.{BoardView};

    ghost Value = { BoardView J };

    ghost use Rattle.iloc_board.specs.Steps.Inside.{IsBoard};

    ghost view = { λ b. record { table = b.table.shared.table_id; jobs = b.jobs.now } };

    ghost invariant = { λ b. IsBoard (J.number b.jobs.now) b.count b.table.shared.key b.table.shared.table_id };
}

impl<'a, J: Jobs> Board<'a, J> {
    /// A board for these jobs, with a root that may make `workers` passes.
    ///
    /// Promise: board and root belong together; no pass was made, and no journal or answer gathered.
    pub fn new(
        alloc: Global,
        jobs: &'a J,
        workers: u32,
    ) -> Result<(Board<'a, J>, Root<'a, J>), NoMemory>
        ensures jobs { IfOk result (λ r. r.0.jobs ≡ jobs.now) }
        ensures root { IfOk result (λ r. r.1 ≡
            record { board = r.0; workers = workers; made = 0; gathered = []; answers = [] }) }
    {
        let count = jobs.count();
        let words = vec![in alloc; 0u64; count as usize + 1]?;
        let (table, seat) = Table::<(), SeatView, u32, Order, Global>::of_words(
            alloc,
            words.as_slice(),
            &count,
        )?;
        let board = Board {
            jobs,
            count,
            alloc,
            table,
        };
        let root = Root {
            jobs,
            seat,
            workers,
            made: 0,
            answers: Answers::new(alloc),
        };
        Ok((board, root))
    }

    /// Makes a pass.
    ///
    /// Promise: the pass has the next number, starts no earlier than the gathered passes had got, and has done nothing.
    pub fn pass(&self, root: &mut Root<'a, J>) -> Pass<'a, J>
        requires own { root.old.board ≡ self.now }
        requires left { root.old.made < root.old.workers }
        ensures root { root.new ≡ with_pass root.old }
        ensures pass { result ≡ new_pass (J.number self.now.jobs) root.old }
    {
        let seat = self.table.shared.split_seat::<Making>(&mut root.seat);
        let worker = root.made;
        root.made += 1;
        Pass {
            jobs: self.jobs,
            seat,
            worker,
            state: State::Free,
            answers: Answers::new(self.alloc),
        }
    }

    /// Which job is next. The pass holds none.
    ///
    /// Promise: the look is the next step in the pass's journal; it never shows a job below one that the pass has seen, and after
    /// `NoneLeft` it always answers `NoneLeft`.
    pub fn look(&self, pass: &mut Pass<'a, J>) -> Seen
        requires own { pass.old.board ≡ self.now }
        requires free { is_holding (state pass.old) ≡ false }
        ensures step { let look = step.Look pass.old.journal.worker in
            pass.new ≡ stepped pass.old look (seen_reply result) }
        ensures state { state pass.new ≡ state_after (state pass.old) (seen_reply result) }
        ensures fresh { let count = J.number self.now.jobs in
            IsFreshSeen count (seen count pass.old.journal) result }
        ensures stays { saw_none pass.old.journal.entries ≡ true → result ≡ Seen.NoneLeft }
    {
        let next = self.table.shared.load::<Looking>(&mut pass.seat, 0);
        if next < u64::from(self.count) {
            let next = next as u32;
            pass.state = State::Looked(next);
            Seen::Block(next)
        } else {
            pass.state = State::Free;
            Seen::NoneLeft
        }
    }

    /// Tries to take the job that the pass has looked at.
    ///
    /// Promise: the try is the next step in the pass's journal; the pass takes the very job that it looked at, or is shown a later
    /// one, or learns that none is left.
    pub fn try_take(&self, pass: &mut Pass<'a, J>) -> Tried
        requires own { pass.old.board ≡ self.now }
        requires looked { is_looking (state pass.old) ≡ true }
        ensures step { let attempt = step.Try pass.old.journal.worker in
            pass.new ≡ stepped pass.old attempt (tried_reply result) }
        ensures state { state pass.new ≡ state_after (state pass.old) (tried_reply result) }
        ensures fresh { let count = J.number self.now.jobs in
            IsFreshTried count (seen count pass.old.journal) (job_of (state pass.old)) result }
    {
        let State::Looked(job) = pass.state else {
            unreachable!()
        };
        let wanted = u64::from(job);
        let found = self
            .table
            .shared
            .compare_exchange::<Trying>(&mut pass.seat, 0, wanted, wanted + 1);
        if found == wanted {
            pass.state = State::Holding(job);
            Tried::Took(job)
        } else if found < u64::from(self.count) {
            let next = found as u32;
            pass.state = State::Looked(next);
            Tried::Stale(next)
        } else {
            pass.state = State::Free;
            Tried::NoneLeft
        }
    }

    /// Hands back an answer to the job that the pass holds.
    ///
    /// Promise: the pass keeps the answer and is free again, and the hand-back, at the answer's cost, is the next step in its
    /// journal. If memory is refused, the answer is given back and nothing has changed.
    pub fn hand_back(
        &self,
        pass: &mut Pass<'a, J>,
        answer: J::Answer,
    ) -> Result<(), NoMemoryWith<J::Answer>>
        requires own { pass.old.board ≡ self.now }
        requires holding { is_holding (state pass.old) ≡ true }
        requires fits { J.fits self.now.jobs (job_of (state pass.old)) answer }
        ensures ok { let job = job_of (state pass.old) in
            OnOk result (pass.new ≡ with_answer pass.old job answer (J.price self.now.jobs answer)) }
        ensures state { OnOk result (state pass.new ≡ about.Free) }
        ensures err { IfErr result (λ e. (pass.new ≡ pass.old) × (e.0 ≡ answer)) }
    {
        let State::Holding(job) = pass.state else {
            unreachable!()
        };
        let cost = self.jobs.cost(&answer);
        if let Err(_) = pass.answers.reserve_one() {
            return Err(NoMemoryWith(answer));
        }
        self.table
            .shared
            .store::<Handing>(&mut pass.seat, job as usize + 1, cost);
        pass.answers.push_reserved(job, answer);
        pass.state = State::Free;
        Ok(())
    }

    /// Takes the answers of `pass` into `root`.
    ///
    /// Promise: the root has the pass's journal and its answers after its own. If memory is refused, the pass is given
    /// back and nothing has changed.
    pub fn gather(
        &self,
        root: &mut Root<'a, J>,
        mut pass: Pass<'a, J>,
    ) -> Result<(), NoMemoryWith<Pass<'a, J>>>
        requires root { root.old.board ≡ self.now }
        requires pass { pass.board ≡ self.now }
        ensures ok { OnOk result (root.new ≡ with_gathered root.old pass.entry) }
        ensures err { IfErr result (λ e. (root.new ≡ root.old) × (e.0 ≡ pass.entry)) }
    {
        if let Err(_) = root.answers.append(&mut pass.answers) {
            return Err(NoMemoryWith(pass));
        }
        let Pass { seat, .. } = pass;
        self.table
            .shared
            .join_seat::<Gathering>(&mut root.seat, seat);
        Ok(())
    }
}

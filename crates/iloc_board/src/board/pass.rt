//! Passes, by which workers take part in a board, and the root that makes and gathers them.
ghost use Rattle.std.specs.Prelude.{◌≡◌};
ghost use Rattle.iloc_board.specs.Core.{IsWithin};
ghost use Rattle.iloc_board.specs.Journal.{handed, all_handed};
ghost use Rattle.iloc_board.specs.Views.{state};
ghost use Rattle.iloc_board.specs.Finished.{AreFitting};

use crate::answers::Answers;
use crate::board::seat_view::SeatView;
use crate::board::state::State;
use crate::jobs::Jobs;
use atomic_table::Seat;
use std::marker::Model;

/// A worker's part in a board, which it takes its steps with.
#[derive(Drop)]
pub struct Pass<'a, J: Jobs> {
    pub(crate) jobs: &'a J,
    pub(crate) seat: Seat<(), SeatView>,
    pub(crate) worker: u32,
    pub(crate) state: State,
    pub(crate) answers: Answers<J::Answer>,
}

impl<'a, J: Jobs> Model for Pass<'a, J> {
    ghost use Rattle.iloc_board.specs.Views.{PassView};

    ghost Value = { PassView J J.Answer };

    ghost use Rattle.iloc_board.specs.Steps.Inside.{IsPass};

    ghost view = { λ p. record {
      board = record { table = p.seat.table_id; jobs = p.jobs.now };
      journal = p.seat.me.0.journal;
      answers = p.answers.pairs;
    } };

    ghost invariant = { λ p. IsPass (J.number p.jobs.now) (J.fits p.jobs.now) (J.price p.jobs.now) p.seat.me p.worker p.state record {
      board = record { table = p.seat.table_id; jobs = p.jobs.now };
      journal = p.seat.me.0.journal;
      answers = p.answers.pairs;
    } };
}

impl<'a, J: Jobs> Pass<'a, J> {
    /// The worker's number.
    ///
    /// Promise: this is the number in the pass's journal.
    pub fn worker(&self) -> u32
        ensures { result ≡ self.now.journal.worker }
    {
        self.worker
    }

    /// What the worker is about.
    ///
    /// Promise: this is the state that the pass's journal leads to, and the pass has a fitting answer for each job that it
    /// handed back.
    pub fn state(&self) -> State
        ensures state { result ≡ state self.now }
        ensures within { IsWithin (J.number self.now.board.jobs) result }
        ensures answers { let jobs = self.now.board.jobs in
            AreFitting (J.fits jobs) (J.price jobs) self.now.answers (handed self.now.journal.entries) }
    {
        self.state
    }
}

/// Makes the passes of a board, and gathers them.
#[derive(Drop)]
pub struct Root<'a, J: Jobs> {
    pub(crate) jobs: &'a J,
    pub(crate) seat: Seat<(), SeatView>,
    pub(crate) workers: u32,
    pub(crate) made: u32,
    pub(crate) answers: Answers<J::Answer>,
}

impl<'a, J: Jobs> Model for Root<'a, J> {
    ghost use Rattle.iloc_board.specs.Views.{RootView};

    ghost Value = { RootView J J.Answer };

    ghost use Rattle.iloc_board.specs.Steps.Inside.{IsRoot};

    ghost view = { λ r. record {
      board = record { table = r.seat.table_id; jobs = r.jobs.now };
      workers = r.workers;
      made = r.made;
      gathered = r.seat.me.0.gathered;
      answers = r.answers.pairs;
    } };

    ghost invariant = { λ r. IsRoot (J.number r.jobs.now) (J.fits r.jobs.now) (J.price r.jobs.now) r.seat.me record {
      board = record { table = r.seat.table_id; jobs = r.jobs.now };
      workers = r.workers;
      made = r.made;
      gathered = r.seat.me.0.gathered;
      answers = r.answers.pairs;
    } };
}

impl<'a, J: Jobs> Root<'a, J> {
    /// How many passes there may be.
    ///
    /// Promise: this is the number that the board was made with.
    pub fn workers(&self) -> u32
        ensures { result ≡ self.now.workers }
    {
        self.workers
    }

    /// How many passes were made.
    ///
    /// Promise: this is that number, and the root has a fitting answer for each job that a gathered pass handed back.
    pub fn made(&self) -> u32
        ensures made { result ≡ self.now.made }
        ensures answers { let jobs = self.now.board.jobs in
            AreFitting (J.fits jobs) (J.price jobs) self.now.answers (all_handed self.now.gathered) }
    {
        self.made
    }
}

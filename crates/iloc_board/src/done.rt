//! A board that was closed when all its jobs were done.
ghost use Rattle.std.specs.Prelude.{◌≡◌, IfOk, List};
ghost use Rattle.iloc_board.specs.declared.step.Step.{Step};
ghost use Rattle.iloc_board.specs.Collecting.{IsWhole};
ghost use Rattle.iloc_board.specs.Finished.{IsDoneBy, IsFinished};
ghost use Rattle.iloc_board.specs.Steps.Closing.{IsClosed};

use crate::answers::Answers;
use crate::board::Board;
use crate::board::pass::Root;
use crate::board::rule::Telling;
use crate::board::seat_view::SeatView;
use crate::collect::{CollectFault, in_place};
use crate::fault::NoMemory;
use crate::jobs::Jobs;
use atomic_table::{Seat, Table, TableRule};
use std::alloc::Global;
use std::collections::LinkedList;
use std::marker::Model;

/// How a receipt keeps answers: a table is told them when it is made, and tells its first seat.
pub(crate) struct Sealing;

impl<A> TableRule<(), LinkedList<A>, Vec<A>> for Sealing {
    ghost holds = { λ _ _. Unit {0} };

    ghost first = { λ answers. answers.items };
}

/// That workers did what their journals say, and handed back the answers that it tells. It is the seat of the root that
/// gathered them, with a seat that was told of the answers, so only who closed a board has one; it takes no memory, and
/// outlives jobs and answers.
#[derive(Drop)]
pub struct Receipt<A> {
    work: Seat<(), SeatView>,
    seal: Seat<(), LinkedList<A>>,
}

impl<A> Model for Receipt<A> {
    ghost use Rattle.iloc_board.specs.Finished.{ReceiptView};

    ghost Value = { ReceiptView A };

    ghost view = { λ r. record { made = r.work.me.0.made; gathered = r.work.me.0.gathered; answers = r.seal.me.0 } };
}

/// The receipt for `work` and `answers`. Its table has no words and is given up.
fn sealed<A: Drop>(
    alloc: Global,
    work: Seat<(), SeatView>,
    answers: &Vec<A>,
) -> Result<Receipt<A>, NoMemory>
    ensures { IfOk result (λ receipt. receipt
        ≡ record { made = work.me.0.made; gathered = work.me.0.gathered; answers = answers.now.items }) }
{
    let (table, seal) = Table::<(), LinkedList<A>, Vec<A>, Sealing, Global>::of_words(
        alloc,
        &[],
        answers,
    )?;
    drop(table);
    Ok(Receipt { work, seal })
}

/// The answers to all jobs of a board, in the order of the jobs, with the receipt for the work.
#[derive(Drop)]
pub struct Done<'a, J: Jobs> {
    jobs: &'a J,
    receipt: Receipt<J::Answer>,
    answers: Vec<J::Answer>,
}

impl<'a, J: Jobs> Model for Done<'a, J> {
    ghost use Rattle.std.specs.Prelude.{◌≡◌};
    ghost use Rattle.iloc_board.specs.Finished.{DoneView, IsDoneBy};

    ghost Value = { DoneView J J.Answer };

    ghost view = { λ d. record { jobs = d.jobs.now; receipt = d.receipt } };

    ghost invariant = { λ d. let jobs = d.jobs.now in
        IsDoneBy (J.number jobs) (J.fits jobs) (J.price jobs) d.receipt × (d.answers.items ≡ d.receipt.answers) };
}

impl<'a, J: Jobs> Done<'a, J> {
    /// The answers, in the order of the jobs, and the receipt.
    ///
    /// Promise: what the workers did, by the receipt's journals, is one legal history of a board of one thread, in
    /// which each job is taken once and handed back once. The answers are the ones that were handed back.
    pub fn into_parts(self) -> (Vec<J::Answer>, Receipt<J::Answer>)
        ensures answers { result.0.items ≡ result.1.answers }
        ensures receipt { result.1 ≡ self.entry.receipt }
        ensures done { let jobs = self.entry.jobs in
            IsDoneBy (J.number jobs) (J.fits jobs) (J.price jobs) result.1 }
    {
        (self.answers, self.receipt)
    }
}

impl<'a, J: Jobs> Board<'a, J> {
    /// The answers that a root gathered, and its seat, once it was told of all steps.
    fn reveal(&self, root: Root<'a, J>) -> (Answers<J::Answer>, Seat<(), SeatView>)
        requires own { root.board ≡ self.now }
        ensures answers { result.0.pairs ≡ root.entry.answers }
        ensures made { result.1.me.0.made ≡ root.entry.made }
        ensures gathered { result.1.me.0.gathered ≡ root.entry.gathered }
        ensures list { let jobs = self.now.jobs in let count = J.number jobs in
            (steps : List Step) × IsClosed count (J.fits jobs) (J.price jobs) root.entry steps }
    {
        let Root {
            mut seat,
            answers,
            ..
        } = root;
        self.table.shared.load::<Telling>(&mut seat, 0);
        (answers, seat)
    }

    /// Closes a board at which all was done: no job can be missing.
    ///
    /// Promise: what the root gathered is one legal history, from all jobs waiting to none waiting and none out. No job is
    /// taken twice or handed back twice, and each has the one answer that was handed back for it, at its cost.
    pub fn done(self, root: Root<'a, J>) -> Result<Done<'a, J>, NoMemory>
        requires own { root.board ≡ self }
        requires whole { IsWhole root.made root.gathered }
        ensures jobs { IfOk result (λ done. done.jobs ≡ self.entry.jobs) }
        ensures made { IfOk result (λ done. done.receipt.made ≡ root.entry.made) }
        ensures gathered { IfOk result (λ done. done.receipt.gathered ≡ root.entry.gathered) }
        ensures done { let jobs = self.entry.jobs in IfOk result (λ done.
            IsFinished (J.number jobs) (J.fits jobs) (J.price jobs) done.receipt root.entry.answers) }
    {
        let jobs = self.jobs;
        let (answers, work) = self.reveal(root);
        match in_place(self.alloc, self.count, answers) {
            Ok(answers) => {
                let receipt = sealed(self.alloc, work, &answers)?;
                Ok(Done {
                    jobs,
                    receipt,
                    answers,
                })
            }
            Err(CollectFault::NoMemory) => Err(NoMemory),
            Err(CollectFault::Missing(_)) => unreachable!(),
        }
    }
}

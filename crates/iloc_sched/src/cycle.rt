//! One cycle of a schedule after another.
ghost use Rattle.std.specs.Prelude.{◌≡◌, ◌+◌, ◌^◌, ◌<◌, ◌≤◌, List, [], ◌∷◌, ◌++◌, IfOk};
ghost use Rattle.iloc_timed.specs.declared.row.Row.{Row as row_value};
ghost use Rattle.iloc_timed.specs.Rows.{slots};
ghost use Rattle.iloc_sched.specs.Steps.Cycle.SoFar.{HasTaken, IsPlan, IsUnderWay, IsBest, IssuesAny, row_with, slot_count, waiting_count};
ghost use Rattle.iloc_sched.specs.Steps.Views.{issued_list};

pub mod calendar;
pub mod class;
pub mod counting;
pub mod issued;
pub mod keys;
pub mod order;
pub mod plan;
pub mod waiting;
pub mod words;

use crate::cycle::class::Class;
use crate::cycle::plan::Plan;
use crate::cycle::waiting::Waiting;
use crate::taker::TakeRows;
use iloc_ops::{NoMemory, Op};
use iloc_rules::LONGEST_DELAY;
use iloc_timed::{Kind, MAX_ROWS, Row};

/// An operation that is chosen for a row.
#[derive(Clone, Copy)]
pub struct Choice {
    pub number: u32,
    pub kind: Kind,
}

/// The row of a choice with what goes beside it. A product goes on unit 1, a load or a store on unit 0. The kinds tell, and not
/// the classes: by these the branch shares a jump with the next choice, and `counts` mispredicts 0.2 branches more for each
/// operation.
fn row_of(a: &Choice, b: &Option<Choice>) -> Row
    ensures { result ≡ row_with a.now b.now }
{
    let first = Some(a.number as usize);
    let second = b.as_ref().map(|b| b.number as usize);
    if a.kind.needs_one() || b.as_ref().is_some_and(|b| b.kind.needs_zero()) {
        Row {
            zero: second,
            one: first,
        }
    } else {
        Row {
            zero: first,
            one: second,
        }
    }
}

/// How many slots a choice takes with what goes beside it.
fn slot_count(beside: &Option<Choice>) -> usize
    ensures { result ≡ slot_count beside.now }
{
    match beside {
        None => 1,
        Some(_) => 2,
    }
}

impl Waiting {
    /// At the start of a cycle what becomes ready then joins what is ready.
    #[inline(always)]
    fn release(&mut self, plan: &Plan, cycle: u32)
        requires plan { IsPlan plan.now }
        requires under_way { IsUnderWay plan.now self.old cycle }
        ensures under_way { IsUnderWay plan.now self.new (cycle + 1) }
        ensures issued { issued_list self.new ≡ issued_list self.old }
    {
        self.calendar.release(plan.short, cycle);
    }

    /// Issues the first of the ready that can go beside an operation of a class. The rest keeps nothing out.
    #[inline(always)]
    fn issue_first(&mut self, plan: &Plan, beside: Class, cycle: u32) -> Option<Choice>
        requires small { cycle + LONGEST_DELAY + 1 < 2 ^ 32 }
        requires plan { IsPlan plan.now }
        requires under_way { IsUnderWay plan.now self.old (cycle + 1) }
        ensures best { IsBest plan.now self.old beside result }
        ensures issues { IssuesAny plan.now self.old self.new cycle result }
    {
        let rank = self.calendar.take_first(plan.short, beside)?;
        let number = plan.order[rank as usize];
        self.issue(plan, number as usize, cycle);
        let kind = plan.kind_of(number);
        Some(Choice { number, kind })
    }

    /// Hands on the row of one more cycle. Answers how many operations it issues. It stands in its caller's loop, where the compiler
    /// sees that the plan's flag stays (`Plan::short`).
    #[inline(always)]
    pub fn step<T: TakeRows>(
        &mut self,
        plan: &Plan,
        taker: &mut T,
        cycle: u32,
    ) -> Result<usize, NoMemory>
        requires early { cycle ≤ MAX_ROWS }
        requires plan { IsPlan plan.now }
        requires under_way { IsUnderWay plan.now self.old cycle }
        ensures taken { IfOk result (λ n. (start : T) (rows : List row_value)
            → HasTaken T.took plan.now self.old start taker.old cycle rows
            → (row : row_value) × HasTaken T.took plan.now self.new start taker.new (cycle + 1) (rows ++ row ∷ [])
            × (0 < n → slots row ≡ [] → ⊥)) }
        ensures kept { T.kept taker.new ≡ T.kept taker.old }
        ensures count { IfOk result (λ n. waiting_count self.new + n ≡ waiting_count self.old) }
    {
        let ops: &[Op] = &plan.tables.ops;
        let own: &[u32] = &plan.tables.own;
        self.release(plan, cycle);
        let first = self.issue_first(plan, Class::Rest, cycle);
        match first {
            None => {
                let empty = Row {
                    zero: None,
                    one: None,
                };
                taker.take(ops, own, empty, cycle)?;
                Ok(0)
            }
            Some(a) => {
                let b = self.issue_first(plan, Class::of(a.kind), cycle);
                taker.take(ops, own, row_of(&a, &b), cycle)?;
                Ok(slot_count(&b))
            }
        }
    }
}

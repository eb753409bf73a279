//! Which operations wait, and for what.
//!
//! Each operation counts the edges into it whose sources aren't issued. When an operation is issued, the edges out of it
//! are gone through. Whose last edge was one of them goes into the bucket of the cycle at which the last of its sources'
//! results has arrived.
ghost use Rattle.std.specs.Prelude.{ℕ, false, ◌≡◌, ◌+◌, ◌^◌, ◌<◌, length, slice_set, OnOk};
ghost use Rattle.iloc_sched.specs.Steps.Cycle.Calendar.{has};
ghost use Rattle.iloc_sched.specs.Steps.Cycle.SoFar.{IsPlan};

use crate::cycle::calendar::Calendar;
use crate::cycle::class::Class;
use crate::cycle::issued::Issued;
use crate::cycle::plan::Plan;
use iloc_ops::NoMemory;
use iloc_rules::LONGEST_DELAY;
use std::alloc::Global;

/// The state of an operation while a schedule is made.
#[derive(Clone, Copy)]
struct OperationState {
    /// How many edges into it there are whose sources aren't issued.
    unmet: u32,
    /// The earliest cycle by all other edges into it.
    earliest: u32,
}

/// The states of all operations.
#[derive(Drop)]
pub struct Waiting {
    states: Vec<OperationState>,
    /// When each was issued, for the proofs alone.
    issued: Issued,
    /// The operations that wait for no edge any more, by the cycle at which they become ready.
    pub calendar: Calendar,
}

impl Waiting {
    ghost use Rattle.std.specs.Prelude.{None, Some};
    ghost use Rattle.iloc_sched.specs.Steps.Cycle.Progress.{Waits, Walks, CanIssue, KeepsPlaces, previous_of};
    ghost use Rattle.iloc_sched.specs.Steps.Views.{graph_of, issued_list, unmet_list, earliest_list, progress_of, IsSized};
    ghost use Rattle.iloc_sched.specs.Steps.Cycle.SoFar.{IsCalendar, waiting_count};

    /// No operation.
    pub fn new(alloc: Global) -> Waiting
        ensures { waiting_count result ≡ 0 }
    {
        Waiting {
            states: Vec::new(alloc),
            issued: Issued::none(0),
            calendar: Calendar::new(alloc),
        }
    }

    /// Nothing is issued: each operation waits for all edges into it, and who has none becomes ready at once. It is noted by
    /// class what an operation of it keeps out of its row, in the same loop: one of its own costs 0.18 mispredicted branches and
    /// 6 instructions for each operation of a block of fifteen.
    pub fn open(&mut self, plan: &Plan) -> Result<(), NoMemory>
        requires plan { IsPlan plan.now }
        ensures waits { OnOk result (Waits (graph_of plan.now.tables.now.edges) (progress_of plan.now.ranks.now self.new) 0 0 None) }
        ensures sized { OnOk result (IsSized plan.now.tables.now.edges self.new) }
        ensures calendar { OnOk result (IsCalendar plan.now self.new.calendar) }
        ensures none { OnOk result ((j : ℕ) → (progress_of plan.now.ranks.now self.new).issued j ≡ None) }
        ensures ready { OnOk result ((r : ℕ) → has self.new.calendar 32 r ≡ false) }
        ensures count { OnOk result (waiting_count self.new ≡ length plan.now.tables.now.edges.heads.items) }
    {
        let edges = &plan.tables.edges;
        let count = edges.op_count();
        self.calendar.clear(count)?;
        let short = self.calendar.is_short();
        self.states.clear();
        self.states.reserve(count)?;
        self.issued = Issued::none(count);
        let mut place = edges.start(0);
        for j in 0..count {
            let end = edges.start(j + 1);
            self.states.push_reserved(OperationState {
                unmet: end - place,
                earliest: 0,
            });
            let rank = plan.ranks[j];
            let class = Class::of(plan.kind_of(j as u32));
            self.calendar.keep_out(short, class, rank);
            self.calendar.put_if(short, place == end, rank, 0);
            place = end;
        }
        Ok(())
    }

    /// Sets that operation `j` waits for `unmet` edges, and by the others until the cycle `earliest`.
    fn change(&mut self, j: usize, unmet: u32, earliest: u32)
        requires { j < length self.old.states.items }
        ensures issued { issued_list self.new ≡ issued_list self.old }
        ensures unmet { unmet_list self.new ≡ slice_set (unmet_list self.old) j unmet }
        ensures earliest { earliest_list self.new ≡ slice_set (earliest_list self.old) j earliest }
        ensures calendar { self.new.calendar ≡ self.old.calendar }
        ensures size { length self.new.states.items ≡ length self.old.states.items }
    {
        let state = &mut self.states[j];
        state.unmet = unmet;
        state.earliest = earliest;
    }

    /// Passes an edge whose source was issued at this cycle: its target has one less to wait for. For `None` it reads edge 0 in
    /// its place, and changes nothing. Answers the edge before it out of the same source.
    #[inline(always)]
    fn pass(&mut self, plan: &Plan, at: Option<u32>, cycle: u32) -> Option<u32>
        requires small { cycle + LONGEST_DELAY + 1 < 2 ^ 32 }
        requires plan { IsPlan plan.now }
        requires some { 0 < length plan.now.tables.now.edges.edges.items }
        requires sized { IsSized plan.now.tables.now.edges self.old }
        requires calendar { IsCalendar plan.now self.old.calendar }
        requires walks { Walks (graph_of plan.now.tables.now.edges) (progress_of plan.now.ranks.now self.old) cycle at }
        ensures previous { result ≡ previous_of (graph_of plan.now.tables.now.edges) at }
        ensures walks { Walks (graph_of plan.now.tables.now.edges) (progress_of plan.now.ranks.now self.new) cycle result }
        ensures keeps { KeepsPlaces (progress_of plan.now.ranks.now self.old) (progress_of plan.now.ranks.now self.new) }
        ensures issued { issued_list self.new ≡ issued_list self.old }
        ensures sized { IsSized plan.now.tables.now.edges self.new }
        ensures calendar { IsCalendar plan.now self.new.calendar }
        ensures ready { (r : ℕ) → has self.new.calendar 32 r ≡ has self.old.calendar 32 r }
    {
        let some = at.is_some();
        let edge = plan.tables.edges.get(at.unwrap_or(0) as usize);
        let target = edge.to as usize;
        let state = self.states[target];
        let unmet = state.unmet - u32::from(some);
        let until = if some { cycle + edge.delay } else { 0 };
        let earliest = state.earliest.max(until);
        self.change(target, unmet, earliest);
        self.calendar.put_if(plan.short, some && unmet == 0, plan.ranks[target], earliest);
        edge.previous
    }

    /// Issues operation i at this cycle. In a short block the first step along its edges isn't tested, since whether an operation
    /// has an edge out of it is seldom predicted: in blocks of ten operations a test costs 0.2 to 0.5 mispredicted branches for
    /// each, and the step 35 instructions. In blocks of a hundred it costs 0.2.
    #[inline(always)]
    pub fn issue(&mut self, plan: &Plan, i: usize, cycle: u32)
        requires small { cycle + LONGEST_DELAY + 1 < 2 ^ 32 }
        requires plan { IsPlan plan.now }
        requires sized { IsSized plan.now.tables.now.edges self.old }
        requires calendar { IsCalendar plan.now self.old.calendar }
        requires can { CanIssue (graph_of plan.now.tables.now.edges) (progress_of plan.now.ranks.now self.old) (cycle + 1) i }
        requires waits { Waits (graph_of plan.now.tables.now.edges) (progress_of plan.now.ranks.now self.old) (cycle + 1) 0 None }
        ensures waits { Waits (graph_of plan.now.tables.now.edges) (progress_of plan.now.ranks.now self.new) (cycle + 1) 0 None }
        ensures issued { issued_list self.new ≡ slice_set (issued_list self.old) i (Some cycle) }
        ensures keeps { KeepsPlaces (progress_of plan.now.ranks.now self.old) (progress_of plan.now.ranks.now self.new) }
        ensures sized { IsSized plan.now.tables.now.edges self.new }
        ensures calendar { IsCalendar plan.now self.new.calendar }
        ensures ready { (r : ℕ) → has self.new.calendar 32 r ≡ has self.old.calendar 32 r }
    {
        self.issued = self.issued.and(i, cycle);
        let mut at = plan.tables.edges.last_from(i);
        if plan.short && plan.tables.edges.edge_count() > 0 {
            at = self.pass(plan, at, cycle);
        }
        while at.is_some() {
            at = self.pass(plan, at, cycle);
        }
    }
}

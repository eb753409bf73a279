//! The core of the board as a function: what any list of steps leads to.
ghost use Rattle.std.specs.Prelude.{◌≡◌, ℕ, ◌<◌, ◌≤◌, IfOk, length};
ghost use Rattle.std.specs.BTreeMap.{get};
ghost use Rattle.iloc_board.specs.Limits.{MOST_JOBS};
ghost use Rattle.iloc_board.specs.Core.{Core, IsWithin, worker_of, look_reply, try_reply, hand_reply, reply_at, reply_to, state_after, after, opening};
ghost use Rattle.iloc_board.specs.History.{IsExact};
ghost use Rattle.iloc_board.specs.Play.{replies, final, IsLegal, TakesEachOnce, EndsAlike};
ghost use Rattle.iloc_board.specs.Steps.RunningCore.{Shows, state_in};

use crate::board::state::State;
use crate::fault::NoMemory;
use crate::step::{Reply, Step};
use std::alloc::Global;
use std::collections::BTreeMap;

/// What a list of steps led to.
#[derive(Drop)]
pub struct Played {
    /// The reply to each step.
    pub replies: Vec<Reply>,
    /// The number of the next job: how many jobs were taken.
    pub next: u32,
    /// The cost of each job, 0 where none was handed back.
    pub costs: Vec<u64>,
}

// The core with the workers' states in a map: a worker that isn't in it is free.
#[derive(Drop)]
struct RunningCore {
    count: u32,
    next: u32,
    costs: Vec<u64>,
    states: BTreeMap<u32, State>,
}

fn worker(step: Step) -> u32
    ensures { result ≡ worker_of step }
{
    match step {
        Step::Look(worker) | Step::Try(worker) | Step::Hand { worker, .. } => worker,
    }
}

fn look(count: u32, next: u32, state: State) -> Reply
    ensures { result ≡ look_reply count next state }
{
    match state {
        State::Holding(_) => Reply::NotNow,
        State::Free | State::Looked(_) => {
            if next < count {
                Reply::Block(next)
            } else {
                Reply::NoneLeft
            }
        }
    }
}

fn try_take(count: u32, next: u32, state: State) -> Reply
    ensures { result ≡ try_reply count next state }
{
    match state {
        State::Looked(job) => {
            if next == job {
                Reply::Took(job)
            } else if next < count {
                Reply::Stale(next)
            } else {
                Reply::NoneLeft
            }
        }
        State::Free | State::Holding(_) => Reply::NotNow,
    }
}

fn hand_back(state: State) -> Reply
    ensures { result ≡ hand_reply state }
{
    match state {
        State::Holding(_) => Reply::Handed,
        State::Free | State::Looked(_) => Reply::NotNow,
    }
}

fn next_state(state: State, reply: Reply) -> State
    ensures { result ≡ state_after state reply }
{
    match reply {
        Reply::Block(job) | Reply::Stale(job) => State::Looked(job),
        Reply::Took(job) => State::Holding(job),
        Reply::NoneLeft | Reply::Handed => State::Free,
        Reply::NotNow => state,
    }
}

impl RunningCore {
    fn state(&self, worker: u32) -> State
        ensures { result ≡ state_in self.now.states worker }
    {
        match self.states.get(&worker) {
            Some(state) => *state,
            None => State::Free,
        }
    }

    fn reply(&self, state: State, step: Step) -> Reply
        ensures { result ≡ reply_at self.now.count self.now.next state step }
    {
        match step {
            Step::Look(_) => look(self.count, self.next, state),
            Step::Try(_) => try_take(self.count, self.next, state),
            Step::Hand { .. } => hand_back(state),
        }
    }

    /// Makes a step. The workers' states name jobs of the board alone.
    fn step(&mut self, step: Step) -> Result<Reply, NoMemory>
        requires few { self.old.count ≤ MOST_JOBS }
        requires costs { length self.old.costs.items ≡ self.old.count }
        requires within { (q : ℕ) → IsWithin self.old.count (state_in self.old.states q) }
        ensures { IfOk result (λ r. (c : Core) → Shows self.old.next self.old.costs.items self.old.states c
            → (r ≡ reply_to self.old.count c step) × (self.new.count ≡ self.old.count)
            × Shows self.new.next self.new.costs.items self.new.states (after self.old.count c step)) }
    {
        let worker = worker(step);
        let state = self.state(worker);
        let reply = self.reply(state, step);
        self.states.insert(worker, next_state(state, reply))?;
        if let Reply::Took(job) = reply {
            self.next = job + 1;
        }
        if let (State::Holding(job), Step::Hand { cost, .. }) = (state, step) {
            self.costs[job as usize] = cost;
        }
        Ok(reply)
    }
}

/// Makes these steps, one after another, at a board of `count` jobs, of which none was taken before. A worker may have any
/// number.
///
/// Promise: replies, next job and costs are those of the core, and whatever the steps, their takes and hand-backs are one legal
/// history of a board of one thread, in which no job is taken twice.
pub fn play(alloc: Global, count: u32, steps: &[Step]) -> Result<Played, NoMemory>
    requires { count ≤ MOST_JOBS }
    ensures replies { IfOk result (λ p. p.replies.items ≡ replies count steps.now) }
    ensures next { IfOk result (λ p. p.next ≡ (final count steps.now).next) }
    ensures costs { IfOk result (λ p. p.costs.items ≡ (final count steps.now).costs) }
    ensures exact { IsExact count (opening count) steps.now }
    ensures legal { IsLegal count steps.now }
    ensures once { TakesEachOnce count steps.now }
    ensures ends { EndsAlike count steps.now }
{
    let mut core = RunningCore {
        count,
        next: 0,
        costs: vec![in alloc; 0u64; count as usize]?,
        states: BTreeMap::new(alloc),
    };
    let mut replies = Vec::new(alloc);
    for step in steps {
        let reply = core.step(*step)?;
        replies.push(reply)?;
    }
    let RunningCore { next, costs, .. } = core;
    Ok(Played {
        replies,
        next,
        costs,
    })
}

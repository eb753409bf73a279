//! The steps that workers make at a board, the replies, and what one worker has done.
use std::collections::LinkedList;

/// One step at the board. Each worker has a number.
#[derive(Clone, Copy)]
pub enum Step {
    /// This worker asks which job is next.
    Look(u32),
    /// This worker tries to take the job that it saw.
    Try(u32),
    /// This worker hands back an answer to the job that it holds, at this cost.
    Hand { worker: u32, cost: u64 },
}

/// What the board replies to a step.
#[derive(Clone, Copy, Debug, PartialEq, Eq)]
pub enum Reply {
    /// This job is next.
    Block(u32),
    /// All jobs were taken.
    NoneLeft,
    /// The worker has taken this job.
    Took(u32),
    /// Another worker was faster, and this job is next now.
    Stale(u32),
    /// The answer was accepted.
    Handed,
    /// The worker's state forbids the step, and nothing has changed.
    NotNow,
}

/// A step with its reply.
#[derive(Clone, Copy)]
pub struct Entry {
    pub step: Step,
    pub reply: Reply,
}

/// The entries that a worker has made, in order. A journal is in proofs alone: no value of it is made.
pub struct Journal {
    /// The worker's number.
    pub worker: u32,
    /// The next job cannot have been below this when the worker began.
    pub start: u32,
    /// Each step with its reply.
    pub entries: LinkedList<Entry>,
}

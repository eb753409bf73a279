//! What is said of somebody's rows for a block.

pub mod kind;

use crate::checked::changes::Changes;
use crate::obstacle::Obstacle;
use iloc_comparison::Comparison;
use iloc_facts::Reasons;

/// What is said of somebody's rows for a block.
#[derive(Debug, Drop)]
pub enum Verdict<'a> {
    /// The rows are no schedule: what keeps them from being one, and which operations they leave out or add.
    Refused(Obstacle<'a>, Changes),
    /// The rows are a schedule of the block by the book.
    Lawful,
    /// They are none, of which these facts tell, and what they do compares so with what the block does.
    Unlawful(Reasons, Comparison),
    /// It isn't decided whether they are one. They have the block's operations, and what they do compares so with what the block
    /// does.
    Undecided(Comparison),
}

/// A verdict on somebody's rows, and which operation of the block each of theirs is.
#[derive(Debug, Drop)]
pub struct Judgement<'a> {
    /// The verdict.
    pub verdict: Verdict<'a>,
    /// By operation of the rows the one of the block, `None` where that isn't known. Empty where it isn't listed.
    pub origins: Vec<Option<usize>>,
}

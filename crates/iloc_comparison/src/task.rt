//! What proposals are judged beside, and how.
ghost use Rattle.std.specs.Prelude.{◌≤◌, length};
ghost use Rattle.iloc_ops.specs.Limits.{MAX_OPS};
ghost use Rattle.iloc_rules.specs.Lawful.{IsLawful};

use iloc_meaning::Memory;
use iloc_ops::Block;
use iloc_rules::Sought;
use iloc_timed::{Latencies, Schedule};

/// A block that somebody proposes rows for, and what we know of it.
#[derive(Drop)]
pub struct JudgedBlock<'a> {
    /// The block, of 10,000 operations at most.
    pub block: &'a Block,
    /// Our schedule of it by the book, beside which rows are judged.
    pub ours: &'a Schedule,
    /// How many cycles our schedule takes by the rule of memory that is asked for.
    pub cycles: u64,
    /// What a search finds by that rule of the cycles it takes, if there is one.
    pub sought: Option<Sought>,
    /// The cycles that each schedule takes at least which is lawful by that rule.
    pub least: u64,
    /// The latencies of the machine.
    pub latencies: &'a Latencies,
    pub ghost few: { length block.now.ops ≤ MAX_OPS },
    pub ghost lawful: { IsLawful latencies.now block.now.ops ours.now.ops ours.now.rows },
}

/// The form of a listing.
#[derive(Clone, Copy, Debug, PartialEq, Eq)]
pub enum Form {
    /// A line for each block, with what is said of it below.
    Lines,
    /// A table of comma-separated values, with a row for each block.
    Table,
    /// A value of JSON for each block, on a line of its own.
    Json,
}

/// What is asked of what is proposed for blocks, and how it is listed.
#[derive(Clone, Copy, Debug, PartialEq, Eq)]
pub struct CheckOptions {
    /// Whether nothing but rows by the book passes.
    pub lawful: bool,
    /// Whether nothing passes that leaves operations of its block out or adds some, up to registers.
    pub operations: bool,
    /// Whether rows are compared with their block by outputs and faults alone, and not by outcomes.
    pub outputs_alone: bool,
    /// The form in which it is listed.
    pub form: Form,
}

/// How what is proposed for blocks is judged, and listed.
#[derive(Drop)]
pub struct Judging<'a> {
    /// What is asked of it.
    pub options: CheckOptions,
    /// The memory that is handed in.
    pub memory: &'a Memory,
    /// How many blocks are judged. The more there are, the less is searched and made up for each.
    pub blocks: usize,
}

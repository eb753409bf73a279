//! Why the rows that are proposed for a block take their cycles.
ghost use Rattle.std.specs.Prelude.{ℕ, ◌≡◌, ◌≤◌, ◌++◌, true, List, length, IfOk, OnOk};
ghost use Rattle.iloc_timed.specs.Rows.{IsTable};
ghost use Rattle.iloc_rules.specs.Greedy.{IsGreedyBy};
ghost use Rattle.iloc_rules.specs.declared.memory_rule.MemoryRule.TheVariants.{Book};
ghost use Rattle.iloc_rules.specs.Heuristics.{priorities_by};
ghost use Rattle.iloc_rules.specs.Least.{least};
ghost use Rattle.iloc_rules.specs.Renaming.{renamed};
ghost use Rattle.iloc_rules.specs.declared.memory_rule.MemoryRule.TheVariants.{Book};
ghost use Rattle.iloc_explain.specs.Listing.{IsExplanation};
ghost use Rattle.iloc_explain.specs.Waiting.{WaitsForAll};
ghost use Rattle.iloc_sched.specs.Graph.GraphOf.{of_block};
ghost use Rattle.iloc_validation.specs.ByTheBook.{IssueTheSame};
ghost use Rattle.iloc_verdict.specs.Entry.Reasons.{reasons_told};
ghost use Rattle.iloc_verdict.specs.Obstacle.{obstacle_told};
ghost use Rattle.iloc_judge.specs.Obstacle.{IsObstacle};
ghost use Rattle.iloc_row_commands.specs.Explain.Departure.{departure, departure_line};
ghost use Rattle.iloc_row_commands.specs.Explain.Explained.{not_lawful, IsRowsExplanation, IsSaidOf};

use crate::explain::departure::{departure_of, push_departure};
use iloc_explain::{Subject, push_explanation};
use iloc_facts::Reasons;
use iloc_graph::measure;
use iloc_judge::obstacle_of;
use iloc_ops::{Block, NoMemory};
use iloc_reasons::reasons_of;
use iloc_rows::Proposal;
use iloc_rules::Heuristic;
use iloc_sched::Graph;
use iloc_timed::{Latencies, MAX_ROWS, Schedule, cycles_of};
use iloc_validation::{Decision, OwnRows, decide, own_rows};
use iloc_verdict::{Obstacle, push_obstacle, push_reasons};
use std::alloc::Global;

/// A block that somebody proposes rows for, and what we know of it.
#[derive(Drop)]
pub(crate) struct KnownBlock<'a> {
    pub(crate) block: &'a Block,
    /// Its graph.
    pub(crate) graph: &'a Graph,
    /// By what our schedule of it is greedy.
    pub(crate) heuristic: Heuristic,
    /// That schedule.
    pub(crate) ours: &'a Schedule,
    /// The latencies of the machine.
    pub(crate) latencies: &'a Latencies,
    /// How many blocks there are.
    pub(crate) blocks: usize,
    pub(crate) ghost greedy: { IsGreedyBy (priorities_by heuristic latencies.now ours.now.ops) latencies.now block.now.ops
        ours.now.ops ours.now.rows },
    pub(crate) ghost drawn: { graph.now ≡ of_block Book latencies.now block.now.ops },
}

/// What is found of the rows that are proposed for a block.
#[derive(Clone, Copy, Debug, PartialEq, Eq)]
pub struct ExplainedRows {
    /// Whether they are known to be a schedule of the block by the book.
    pub is_lawful: bool,
    /// How many cycles they take.
    pub cycles: u64,
}

/// Appends that rows aren't lawful, and why.
fn push_why(text: &mut Vec<u8>, reasons: &Reasons) -> Result<(), NoMemory>
    ensures { OnOk result (text.new.items ≡ text.old.items ++ not_lawful (reasons_told reasons.now)) }
{
    text.extend_from_slice(b"  not lawful\n")?;
    push_reasons(text, reasons)
}

/// Appends that a proposal isn't lawful, and what keeps it from being a schedule.
fn push_refused(
    text: &mut Vec<u8>,
    proposal: &Proposal,
    obstacle: &Obstacle<'_>,
) -> Result<(), NoMemory>
    requires { IsObstacle proposal.now obstacle.now }
    ensures { OnOk result (text.new.items
        ≡ text.old.items ++ not_lawful (obstacle_told proposal.now.ops proposal.now.rows obstacle.now)) }
{
    text.extend_from_slice(b"  not lawful\n")?;
    push_obstacle(text, proposal.ops(), proposal.rows(), obstacle)
}

/// Appends what explains rows by the book, in the block's own numbers, and where they leave the greedy choice.
fn push_own(
    alloc: Global,
    text: &mut Vec<u8>,
    known: &KnownBlock<'_>,
    own: &OwnRows,
) -> Result<(), NoMemory>
    requires names { own.now.schedule.ops ≡ renamed known.now.block.now.ops }
    requires waits { WaitsForAll Book known.now.latencies.now own.now.schedule.ops own.now.schedule.rows }
    requires issued { length own.now.issued.items ≡ length own.now.schedule.ops }
    ensures { OnOk result ((explanation : List ℕ)
        × IsExplanation (priorities_by known.now.heuristic known.now.latencies.now own.now.schedule.ops) Book
        known.now.latencies.now (least known.now.latencies.now known.now.block.now.ops) known.now.block.now.ops own.now.schedule.ops own.now.schedule.rows own.now.issued.items
        explanation
        × (text.new.items ≡ text.old.items ++ explanation ++ departure_line own.now.issued.items
        (departure (priorities_by known.now.heuristic known.now.latencies.now own.now.schedule.ops) known.now.latencies.now
        own.now.schedule.ops own.now.schedule.rows))) }
{
    let (schedule, issued) = (&own.schedule, &own.issued);
    let mut ranks = Vec::new(alloc);
    known.graph.rank(known.heuristic, &mut ranks)?;
    let measures = measure(alloc, known.graph, ranks)?;
    let explained = Subject {
        block: known.block,
        measures: &measures,
        schedule,
    };
    push_explanation(alloc, text, &explained, issued)?;
    push_departure(text, departure_of(schedule, known.ours), issued)
}

/// Appends what is said of a schedule that somebody made for a block, beside ours, and answers whether it is by the book.
fn push_said(
    alloc: Global,
    text: &mut Vec<u8>,
    known: &KnownBlock<'_>,
    theirs: &Schedule,
) -> Result<bool, NoMemory>
    requires table { IsTable theirs.now.ops theirs.now.rows }
    requires few_rows { length theirs.now.rows ≤ MAX_ROWS }
    ensures said { IfOk result (λ is_lawful. (entry : List ℕ)
        × IsSaidOf is_lawful known.now.heuristic known.now.latencies.now known.now.block.now.ops theirs.now.ops
        theirs.now.rows entry × (text.new.items ≡ text.old.items ++ entry)) }
    ensures own { IfOk result (λ is_lawful.
        IssueTheSame known.now.ours.now.ops known.now.ours.now.rows theirs.now.ops theirs.now.rows
        → is_lawful ≡ true) }
{
    let (block, latencies) = (known.block, known.latencies);
    match decide(alloc, block, known.ours, theirs, latencies, known.blocks)? {
        Decision::Lawful(pairing) => {
            let own = own_rows(alloc, block, theirs, known.ours.ops(), &pairing)?;
            push_own(alloc, text, known, &own)?;
            Ok(true)
        }
        Decision::Unlawful => {
            let reasons = reasons_of(alloc, block, theirs, latencies)?;
            push_why(text, &reasons)?;
            Ok(false)
        }
        Decision::Undecided => {
            text.extend_from_slice(b"  undecided\n")?;
            Ok(false)
        }
    }
}

/// Appends what explains the rows that are proposed for a block, beside our schedule of it, after the block's head. Rows by the
/// book are explained as the schedule of the block that they are, with each operation as the block has it and as it is issued,
/// and the first row that leaves the greedy choice is named; of others it is said that they aren't lawful, and why, or that this
/// isn't decided.
///
/// Promise: what is appended explains the rows, which then are by the book, or tells facts of rows that aren't; and what our
/// schedule issues is explained.
pub(crate) fn push_rows_explanation(
    alloc: Global,
    text: &mut Vec<u8>,
    known: &KnownBlock<'_>,
    proposal: Proposal,
) -> Result<ExplainedRows, NoMemory>
    ensures { IfOk result (λ found. (entry : List ℕ)
        × IsRowsExplanation known.now.heuristic known.now.latencies.now known.now.block.now.ops known.now.ours.now proposal
        found entry × (text.new.items ≡ text.old.items ++ entry)) }
{
    let cycles = cycles_of(proposal.ops(), proposal.rows(), known.latencies);
    if let Some(obstacle) = obstacle_of(alloc, &proposal)? {
        push_refused(text, &proposal, &obstacle)?;
        return Ok(ExplainedRows {
            is_lawful: false,
            cycles,
        });
    }
    let theirs = proposal.into_schedule();
    prove!(theirs.rows().len() <= MAX_ROWS);
    let is_lawful = push_said(alloc, text, known, &theirs)?;
    Ok(ExplainedRows { is_lawful, cycles })
}

//! What is found of the rows that are proposed for a block.
ghost use Rattle.std.specs.Prelude.{◌≡◌, ◌++◌, OnOk};
ghost use Rattle.iloc_verdict.specs.Checked.{compared_kind, found, kind_of, passes};
ghost use Rattle.iloc_verdict.specs.Entry.{entry_as};
ghost use Rattle.iloc_verdict.specs.Counted.{CanBeListed};

pub mod changes;
pub mod detail;
pub mod kept;
pub mod reason;
pub(crate) mod unit_rule;
pub(crate) mod verdict_line;

use crate::json::push_json;
use crate::obstacle::Obstacle;
use crate::verdict::kind::VerdictKind;
use crate::verdict::{Judgement, Verdict};
use detail::push_detail;
use iloc_comparison::{CheckOptions, Comparison, Form, JudgedBlock};
use iloc_ops::{NoMemory, Op};
use iloc_rows::Proposal;
use iloc_rules::Sought;
use iloc_timed::{Row, cycles_of};
use verdict_line::{push_line, push_table_row};

/// What is found of the rows that are proposed for a block.
#[derive(Clone, Copy, Debug, PartialEq, Eq)]
pub struct Checked {
    /// The verdict on them.
    pub kind: VerdictKind,
    /// Whether they have the block's operations, up to registers, or needn't. Rows that can't be read don't.
    pub keeps_operations: bool,
    /// How many cycles they take.
    pub cycles: u64,
    /// How many cycles our schedule takes, by the rule of memory that is asked for.
    pub ours: u64,
    /// What a search finds of the block's cycles, if there is one.
    pub sought: Option<Sought>,
    /// How many cycles each schedule takes at least that is lawful by that rule.
    pub least: u64,
    /// How many cycles are claimed, if a number is.
    pub claimed: Option<u32>,
}

impl Checked {
    /// Whether the rows pass: where `lawful` is set only if they are by the book.
    pub fn passes(&self, lawful: bool) -> bool
        ensures { result ≡ passes lawful self.now }
    {
        self.keeps_operations
            && match self.kind {
                VerdictKind::Lawful => true,
                VerdictKind::Same | VerdictKind::Prints => !lawful,
                _ => false,
            }
    }
}

/// The verdict of how rows compare with their block.
fn compared_kind(comparison: &Comparison) -> VerdictKind
    ensures { result ≡ compared_kind comparison.now }
{
    match comparison {
        Comparison::Void(_) => VerdictKind::Void,
        Comparison::Same => VerdictKind::Same,
        Comparison::Prints => VerdictKind::Prints,
        Comparison::Agrees => VerdictKind::Agrees,
        Comparison::Differs(_) | Comparison::DiffersOn(_, _) => VerdictKind::Differs,
    }
}

/// The verdict in a word, where nothing but rows by the book passes or where others may.
pub fn kind_of(lawful: bool, verdict: &Verdict<'_>) -> VerdictKind
    ensures { result ≡ kind_of lawful verdict.now }
{
    match verdict {
        Verdict::Refused(Obstacle::Unread(..), _) => VerdictKind::Unread,
        Verdict::Refused(Obstacle::Units(_), _) => VerdictKind::Units,
        Verdict::Lawful => VerdictKind::Lawful,
        Verdict::Undecided(_) if lawful => VerdictKind::Undecided,
        Verdict::Unlawful(_, comparison) | Verdict::Undecided(comparison) => {
            compared_kind(comparison)
        }
    }
}

/// What is found of a proposal with this verdict.
pub fn found(
    task: &JudgedBlock<'_>,
    proposal: &Proposal,
    kind: VerdictKind,
    keeps_operations: bool,
) -> Checked
    ensures { result ≡ found kind keeps_operations task.now.cycles task.now.sought task.now.least task.now.latencies.now
        proposal.now }
{
    Checked {
        kind,
        keeps_operations,
        cycles: cycles_of(proposal.ops(), proposal.rows(), task.latencies),
        ours: task.cycles,
        sought: task.sought,
        least: task.least,
        claimed: proposal.claimed(),
    }
}

/// Rows that are judged, and what is found of them.
#[derive(Drop)]
pub struct Judged<'a> {
    /// The operations of the rows.
    pub ops: &'a [Op],
    /// The rows.
    pub rows: &'a [Row],
    /// How they are judged.
    pub judgement: Judgement<'a>,
    /// What is found of them.
    pub checked: Checked,
}

/// Appends what is listed of rows that are judged, as `options` asks for it.
pub fn push_entry(
    text: &mut Vec<u8>,
    options: CheckOptions,
    judged: &Judged<'_>,
) -> Result<(), NoMemory>
    requires { CanBeListed judged.now.rows.now judged.now.judgement.verdict }
    ensures { OnOk result (text.new.items ≡ text.old.items ++ entry_as options judged.now.ops.now judged.now.rows.now
        judged.now.judgement.verdict judged.now.judgement.origins.items judged.now.checked) }
{
    let checked = judged.checked;
    match options.form {
        Form::Lines => {
            push_line(text, checked)?;
            push_detail(text, judged.ops, judged.rows, &judged.judgement.verdict)
        }
        Form::Table => push_table_row(text, checked),
        Form::Json => push_json(text, checked.passes(options.lawful), judged),
    }
}

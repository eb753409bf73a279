//! What is found of the rows that are proposed for a block.
ghost use Rattle.std.specs.Prelude.{ℕ, ◌≡◌, ◌++◌, List, IfOk};
ghost use Rattle.iloc_verdict.specs.Checked.{IsBeside};
ghost use Rattle.iloc_judge.specs.Checked.{IsCheck};
ghost use Rattle.iloc_judge.specs.Obstacle.{IsObstacle};

use crate::obstacle::obstacle_of;
use crate::verdict::judge;
use iloc_comparison::{JudgedBlock, Judging};
use iloc_ops::NoMemory;
use iloc_rows::Proposal;
use iloc_verdict::{
    Checked, Judged, Judgement, Obstacle, Verdict, VerdictKind, changes_of, found,
    keeps_operations, kind_of, push_entry,
};
use std::alloc::Global;

/// Appends what is listed of a proposal that `obstacle` keeps from being a schedule.
fn push_refused(
    alloc: Global,
    text: &mut Vec<u8>,
    judging: &Judging<'_>,
    task: &JudgedBlock<'_>,
    proposal: &Proposal,
    obstacle: Obstacle<'_>,
) -> Result<Checked, NoMemory>
    requires hinders { IsObstacle proposal.now obstacle }
    ensures beside { IfOk result (IsBeside task.now) }
    ensures entry { IfOk result (λ checked. (entry : List ℕ)
        × IsCheck judging.now.options task.now.latencies.now judging.now.memory.now
        task.now.block.now.ops task.now.ours.now proposal.now checked entry
        × (text.new.items ≡ text.old.items ++ entry)) }
{
    let options = judging.options;
    let (ops, rows) = (proposal.ops(), proposal.rows());
    let changes = changes_of(alloc, task.block, ops, rows)?;
    let verdict = Verdict::Refused(obstacle, changes);
    let keeps_operations = keeps_operations(alloc, options.operations, task.block, proposal)?;
    let checked = found(
        task,
        proposal,
        kind_of(options.lawful, &verdict),
        keeps_operations,
    );
    let origins = Vec::new(alloc);
    let judgement = Judgement { verdict, origins };
    let judged = Judged {
        ops,
        rows,
        judgement,
        checked,
    };
    push_entry(text, options, &judged)?;
    Ok(checked)
}

/// Judges what is proposed for a block, beside our schedule of it, and appends what is listed of it after the block's head:
/// the verdict with the cycles of the rows, ours, what is sought and the least, and the lines that tell where the rows go
/// wrong, if they do. In a table it is a row, with the cycles that are claimed and no lines below; in JSON it is one line that
/// has all of it.
///
/// After a refusal a part of it may have been appended.
///
/// Promise: what is listed is a verdict that holds as it is stated, with the cycles and, of rows that aren't by the book, with
/// facts, which hold too; and what our schedule issues is lawful.
pub fn push_check(
    alloc: Global,
    text: &mut Vec<u8>,
    judging: &Judging<'_>,
    task: &JudgedBlock<'_>,
    proposal: Proposal,
) -> Result<Checked, NoMemory>
    ensures beside { IfOk result (IsBeside task.now) }
    ensures entry { IfOk result (λ checked. (entry : List ℕ)
        × IsCheck judging.now.options task.now.latencies.now judging.now.memory.now
        task.now.block.now.ops task.now.ours.now proposal checked entry
        × (text.new.items ≡ text.old.items ++ entry)) }
{
    if let Some(obstacle) = obstacle_of(alloc, &proposal)? {
        return push_refused(alloc, text, judging, task, &proposal, obstacle);
    }
    let options = judging.options;
    let keeps_operations = keeps_operations(alloc, options.operations, task.block, &proposal)?;
    let found = found(task, &proposal, VerdictKind::Lawful, keeps_operations);
    let theirs = proposal.into_schedule();
    let judgement = judge(alloc, judging, task, &theirs)?;
    let checked = Checked {
        kind: kind_of(options.lawful, &judgement.verdict),
        ..found
    };
    let judged = Judged {
        ops: theirs.ops(),
        rows: theirs.rows(),
        judgement,
        checked,
    };
    push_entry(text, options, &judged)?;
    Ok(checked)
}

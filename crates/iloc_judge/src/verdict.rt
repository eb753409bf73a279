//! The verdict on somebody's rows for a block.
ghost use Rattle.std.specs.Prelude.{◌≡◌, ◌≤◌, ◌<◌, ℕ, Some, None, length, slice_index, IfOk};
ghost use Rattle.iloc_comparison.specs.declared.task.Form.TheVariants.{Json};
ghost use Rattle.iloc_reasons.specs.Origins.{origin_at, AreOrigins};
ghost use Rattle.iloc_rules.specs.Renaming.{without_nops};
ghost use Rattle.iloc_timed.specs.Rows.{IsTable};
ghost use Rattle.iloc_validation.specs.ByTheBook.{IssueTheSame};
ghost use Rattle.iloc_judge.specs.Origins.{AreOriginsFor};
ghost use Rattle.iloc_judge.specs.Verdict.{IsVerdict, unread_in};

use iloc_comparison::{Form, JudgedBlock, Judging, compared};
use iloc_ops::NoMemory;
use iloc_reasons::{origins_of, reasons_of};
use iloc_timed::{MAX_ROWS, Schedule};
use iloc_validation::{Decision, Pairing, decide};
use iloc_verdict::{Judgement, Verdict};
use std::alloc::Global;

/// By operation of rows, of which there are `count`, the one of the block that it is paired with.
fn paired(alloc: Global, pairing: &Pairing, count: usize) -> Result<Vec<Option<usize>>, NoMemory>
    ensures size { IfOk result (λ origins. length origins.items ≡ count) }
    ensures each { IfOk result (λ origins. (k : ℕ) → k < count
        → origin_at origins.items k ≡ Some (slice_index pairing.now.origin.items k)) }
{
    let mut origins = Vec::with_capacity(alloc, count)?;
    for k in 0..count {
        origins.push(Some(pairing.origin.get(k).copied().unwrap_or(0)))?;
    }
    Ok(origins)
}

/// The operations of the block that rows have by a pairing, where JSON is asked for; else none.
fn paired_if(
    alloc: Global,
    form: Form,
    pairing: &Pairing,
    count: usize,
) -> Result<Vec<Option<usize>>, NoMemory>
    ensures size { IfOk result (λ origins. form ≡ Json → length origins.items ≡ count) }
    ensures each { IfOk result (λ origins. form ≡ Json → (k : ℕ) → k < count
        → origin_at origins.items k ≡ Some (slice_index pairing.now.origin.items k)) }
{
    match form {
        Form::Json => paired(alloc, pairing, count),
        Form::Lines | Form::Table => Ok(Vec::new(alloc)),
    }
}

/// The operations of the block that rows have which aren't known to be by the book, where JSON is asked for; else none.
fn others_if(
    alloc: Global,
    form: Form,
    task: &JudgedBlock<'_>,
    theirs: &Schedule,
) -> Result<Vec<Option<usize>>, NoMemory>
    ensures { IfOk result (λ origins. form ≡ Json → AreOrigins task.now.latencies.now (without_nops task.now.block.now.ops)
        theirs.now.ops theirs.now.rows origins.items) }
{
    match form {
        Form::Json => origins_of(alloc, task.block, theirs, task.latencies),
        Form::Lines | Form::Table => Ok(Vec::new(alloc)),
    }
}

/// Judges somebody's schedule beside ours.
///
/// Promise: the verdict holds as it is stated, and a schedule that issues what ours issues is lawful. So where operations are left
/// out or added, the rows are found to be none by the book. Where JSON is asked for, it is noted which operation of the block each
/// is.
pub fn judge(
    alloc: Global,
    judging: &Judging<'_>,
    task: &JudgedBlock<'_>,
    theirs: &Schedule,
) -> Result<Judgement<'static>, NoMemory>
    requires few { length theirs.now.rows ≤ MAX_ROWS }
    requires table { IsTable theirs.now.ops theirs.now.rows }
    ensures right { IfOk result (λ judgement. IsVerdict judging.now.options.outputs_alone task.now.latencies.now
        task.now.block.now.ops theirs.now.ops theirs.now.rows judging.now.memory.now judgement.verdict) }
    ensures own { IfOk result (λ judgement.
        IssueTheSame task.now.ours.now.ops task.now.ours.now.rows theirs.now.ops theirs.now.rows
        → judgement.verdict ≡ Verdict.Lawful) }
    ensures read { IfOk result (λ judgement. unread_in judgement.verdict ≡ None) }
    ensures origins { IfOk result (λ judgement. judging.now.options.form ≡ Json
        → AreOriginsFor task.now.latencies.now task.now.block.now.ops theirs.now.ops theirs.now.rows judgement.verdict
        judgement.origins.items) }
{
    let form = judging.options.form;
    match decide(
        alloc,
        task.block,
        task.ours,
        theirs,
        task.latencies,
        judging.blocks,
    )? {
        Decision::Lawful(pairing) => Ok(Judgement {
            verdict: Verdict::Lawful,
            origins: paired_if(alloc, form, &pairing, theirs.ops().len())?,
        }),
        Decision::Unlawful => {
            let reasons = reasons_of(alloc, task.block, theirs, task.latencies)?;
            let found = compared(alloc, judging, task, theirs)?;
            Ok(Judgement {
                verdict: Verdict::Unlawful(reasons, found),
                origins: others_if(alloc, form, task, theirs)?,
            })
        }
        Decision::Undecided => Ok(Judgement {
            verdict: Verdict::Undecided(compared(alloc, judging, task, theirs)?),
            origins: others_if(alloc, form, task, theirs)?,
        }),
    }
}

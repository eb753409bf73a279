//! Why rows aren't a schedule of their block by the book, in JSON.
ghost use Rattle.std.specs.Prelude.{◌≡◌, ◌++◌, OnOk, codes};
ghost use Rattle.std.specs.List.{flat_map};
ghost use Rattle.iloc_verdict.specs.Entry.Json as json;
ghost use Rattle.iloc_verdict.specs.Remarks.{fact_remark};
ghost use Rattle.iloc_comparison.specs.declared.task.Form.TheVariants as forms;

use crate::checked::changes::Changes;
use crate::remark::reason::push_fact;
use Piece::{Number, Operation, Text};
use iloc_comparison::Form;
use iloc_facts::{Added, Fact, LeftOut, Reasons};
use iloc_ops::NoMemory;
use iloc_pieces::{Piece, push_all};

/// Appends each fact after a comma.
fn push_rest(text: &mut Vec<u8>, facts: &[Fact]) -> Result<(), NoMemory>
    ensures { OnOk result (text.new.items
        ≡ text.old.items ++ flat_map (λ f. codes "," ++ fact_remark forms.Json f) facts.now) }
{
    for fact in facts {
        text.push(b',')?;
        push_fact(text, Form::Json, fact)?;
    }
    Ok(())
}

/// Appends facts with commas between them.
fn push_facts(text: &mut Vec<u8>, facts: &[Fact]) -> Result<(), NoMemory>
    ensures { OnOk result (text.new.items ≡ text.old.items ++ json.facts_values facts.now) }
{
    match facts {
        [] => Ok(()),
        [first, rest @ ..] => {
            push_fact(text, Form::Json, first)?;
            push_rest(text, rest)
        }
    }
}

/// Appends how many operations of the block are left out, and one of them.
fn push_left_out(text: &mut Vec<u8>, left_out: Option<LeftOut>) -> Result<(), NoMemory>
    ensures { OnOk result (text.new.items ≡ text.old.items ++ json.left_out_member left_out) }
{
    let Some(it) = left_out else {
        return Ok(text.extend_from_slice(b",\"left_out\":null")?);
    };
    push_all(
        text,
        &[
            Text(",\"left_out\":{\"count\":"),
            Number(it.count as u64),
            Text(",\"operation\":\""),
            Operation(it.op),
            Text("\"}"),
        ],
    )
}

/// Appends how many operations are added to the block's, and one of them.
fn push_added(text: &mut Vec<u8>, added: Option<Added>) -> Result<(), NoMemory>
    ensures { OnOk result (text.new.items ≡ text.old.items ++ json.added_member added) }
{
    let Some(it) = added else {
        return Ok(text.extend_from_slice(b",\"added\":null")?);
    };
    push_all(
        text,
        &[
            Text(",\"added\":{\"count\":"),
            Number(it.count as u64),
            Text(",\"row\":"),
            Number(it.issue.cycle as u64),
            Text(",\"operation\":\""),
            Operation(it.issue.op),
            Text("\"}"),
        ],
    )
}

/// Appends what is left out and added.
pub(crate) fn push_changes(text: &mut Vec<u8>, changes: Changes) -> Result<(), NoMemory>
    ensures { OnOk result (text.new.items ≡ text.old.items ++ json.changes_members changes) }
{
    push_left_out(text, changes.left_out)?;
    push_added(text, changes.added)
}

/// Appends why rows aren't a schedule of their block.
pub(crate) fn push_reasons(text: &mut Vec<u8>, reasons: &Reasons) -> Result<(), NoMemory>
    ensures { OnOk result (text.new.items ≡ text.old.items ++ json.reasons_members reasons.now) }
{
    let (left_out, added) = (reasons.left_out, reasons.added);
    push_changes(text, Changes { left_out, added })?;
    text.extend_from_slice(b",\"reasons\":[")?;
    push_facts(text, &reasons.facts)?;
    push_all(text, &[Text("],\"more\":"), Number(reasons.more as u64)])
}

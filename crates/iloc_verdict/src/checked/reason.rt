//! The lines that say why rows aren't a schedule of their block by the book.
ghost use Rattle.std.specs.Prelude.{◌≡◌, ◌++◌, OnOk};
ghost use Rattle.std.specs.List.{flat_map};
ghost use Rattle.iloc_verdict.specs.Entry.Reasons as told;

use crate::remark::reason::push_fact;
use Piece::{Number, Operation, Text};
use iloc_comparison::Form;
use iloc_facts::{Added, Fact, LeftOut, Reasons};
use iloc_ops::NoMemory;
use iloc_pieces::{Piece, push_all};

/// Appends how many operations of the block are left out, and one of them, if there are any.
fn push_left_out(text: &mut Vec<u8>, left_out: Option<LeftOut>) -> Result<(), NoMemory>
    ensures { OnOk result (text.new.items ≡ text.old.items ++ told.left_out_told left_out) }
{
    let Some(it) = left_out else {
        return Ok(());
    };
    let (count, op) = (Number(it.count as u64), Operation(it.op));
    push_all(
        text,
        &[Text("  left out "), count, Text(": "), op, Text("\n")],
    )
}

/// Appends how many operations are added to the block's, and one of them, if there are any.
fn push_added(text: &mut Vec<u8>, added: Option<Added>) -> Result<(), NoMemory>
    ensures { OnOk result (text.new.items ≡ text.old.items ++ told.added_told added) }
{
    let Some(it) = added else {
        return Ok(());
    };
    push_all(
        text,
        &[
            Text("  added "),
            Number(it.count as u64),
            Text(": row "),
            Number(it.issue.cycle as u64),
            Text(": "),
            Operation(it.issue.op),
            Text("\n"),
        ],
    )
}

/// Appends the line of each fact.
fn push_facts(text: &mut Vec<u8>, facts: &[Fact]) -> Result<(), NoMemory>
    ensures { OnOk result (text.new.items ≡ text.old.items ++ flat_map told.fact_told facts.now) }
{
    for fact in facts {
        push_fact(text, Form::Lines, fact)?;
        text.push(b'\n')?;
    }
    Ok(())
}

/// Appends how many facts more there are, if there are any.
fn push_more(text: &mut Vec<u8>, more: usize) -> Result<(), NoMemory>
    ensures { OnOk result (text.new.items ≡ text.old.items ++ told.more_told more) }
{
    if more == 0 {
        return Ok(());
    }
    push_all(
        text,
        &[Text("  and "), Number(more as u64), Text(" more\n")],
    )
}

/// Appends the lines that say why rows aren't a schedule of their block.
pub fn push_reasons(text: &mut Vec<u8>, reasons: &Reasons) -> Result<(), NoMemory>
    ensures { OnOk result (text.new.items ≡ text.old.items ++ told.reasons_told reasons.now) }
{
    push_left_out(text, reasons.left_out)?;
    push_added(text, reasons.added)?;
    push_facts(text, &reasons.facts)?;
    push_more(text, reasons.more)
}

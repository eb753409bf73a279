//! A verdict with the numbers that go with it: on a line, in the row of a table, or as members of JSON.
ghost use Rattle.std.specs.Prelude.{◌≡◌, ◌++◌, OnOk};
ghost use Rattle.iloc_pieces.specs.Pieces.{piece_text};
ghost use Rattle.iloc_verdict.specs.Entry.Listing as listed;

use crate::checked::Checked;
use Piece::{Number, Text};
use iloc_comparison::Form;
use iloc_ops::NoMemory;
use iloc_pieces::{Piece, push_all};
use iloc_rules::Sought;

/// Appends ` NAME N`, in a table `,N`, in JSON a member.
fn push_count(text: &mut Vec<u8>, form: Form, name: &str, number: u64) -> Result<(), NoMemory>
    ensures { OnOk result (text.new.items ≡ text.old.items ++ listed.count_as form name.now number) }
{
    match form {
        Form::Lines => push_all(text, &[Text(" "), Text(name), Text(" "), Number(number)]),
        Form::Table => push_all(text, &[Text(","), Number(number)]),
        Form::Json => push_all(
            text,
            &[Text(",\""), Text(name), Text("\":"), Number(number)],
        ),
    }
}

/// Appends the best cycles and the bound that a search found, if there was one.
fn push_sought(text: &mut Vec<u8>, form: Form, sought: &Option<Sought>) -> Result<(), NoMemory>
    ensures { OnOk result (text.new.items ≡ text.old.items ++ listed.sought_as form sought.now) }
{
    if let Some(sought) = sought {
        push_count(text, form, "best", u64::from(sought.best))?;
        push_count(text, form, "bound", u64::from(sought.bound))?;
    }
    Ok(())
}

/// Appends the cycles of the rows and ours, what was sought, and the least.
pub(crate) fn push_counts(text: &mut Vec<u8>, form: Form, checked: Checked) -> Result<(), NoMemory>
    ensures { OnOk result (text.new.items ≡ text.old.items ++ listed.counts_as form checked) }
{
    push_count(text, form, "cycles", checked.cycles)?;
    push_count(text, form, "ours", checked.ours)?;
    push_sought(text, form, &checked.sought)?;
    push_count(text, form, "least", checked.least)
}

/// Appends ` claimed X` where a number of cycles is claimed and isn't that of the rows.
fn push_wrong_claim(text: &mut Vec<u8>, checked: Checked) -> Result<(), NoMemory>
    ensures { OnOk result (text.new.items ≡ text.old.items ++ listed.wrong_claim checked.cycles checked.claimed) }
{
    match checked.claimed {
        Some(claim) if u64::from(claim) != checked.cycles => {
            push_all(text, &[Text(" claimed "), Number(u64::from(claim))])
        }
        _ => Ok(()),
    }
}

/// Appends the line with the word for the verdict, the numbers that go with it and the number of cycles that is claimed.
pub(crate) fn push_line(text: &mut Vec<u8>, checked: Checked) -> Result<(), NoMemory>
    ensures { OnOk result (text.new.items ≡ text.old.items ++ listed.line_of checked) }
{
    push_all(text, &[Text(" "), Text(checked.kind.word())])?;
    push_counts(text, Form::Lines, checked)?;
    push_wrong_claim(text, checked)?;
    Ok(text.push(b'\n')?)
}

/// The number of cycles that is claimed, or `none` where none is.
pub(crate) fn claim<'a>(claimed: Option<u32>, none: &'a str) -> Piece<'a>
    ensures { piece_text result ≡ listed.claim_or none.now claimed }
{
    match claimed {
        Some(claim) => Number(u64::from(claim)),
        None => Text(none),
    }
}

/// Appends the row of a table with the word for the verdict, the numbers that go with it and the number of cycles that is claimed.
pub(crate) fn push_table_row(text: &mut Vec<u8>, checked: Checked) -> Result<(), NoMemory>
    ensures { OnOk result (text.new.items ≡ text.old.items ++ listed.row_of checked) }
{
    push_all(text, &[Text(","), Text(checked.kind.word())])?;
    push_counts(text, Form::Table, checked)?;
    push_all(text, &[Text(","), claim(checked.claimed, ""), Text("\n")])
}

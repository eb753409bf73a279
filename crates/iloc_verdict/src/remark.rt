//! Remarks, which say where rows go wrong: each is a line below a verdict, or an object of JSON.
ghost use Rattle.std.specs.Prelude.{◌≡◌, ◌++◌, OnOk};
ghost use Rattle.std.specs.List.{flat_map};
ghost use Rattle.iloc_comparison.specs.declared.task.Form.TheVariants.{Json, Lines};
ghost use Rattle.iloc_pieces.specs.Pieces.{piece_text};
ghost use Rattle.iloc_verdict.specs.Remarks as said;

pub mod comparison;
pub mod reason;

use Piece::{Number, Operation, Text};
use iloc_comparison::Form;
use iloc_facts::Issue;
use iloc_ops::{NoMemory, Op};
use iloc_pieces::{Piece, push_all};
use iloc_timed::{Row, push_row};

/// A part of a remark: words, which JSON leaves out, a name, which lines leave out, and a value.
#[derive(Clone, Copy)]
pub enum Part<'a> {
    /// Words alone.
    Words(&'a str),
    /// A value that JSON has as it is.
    Plain(&'a str, &'a str, Piece<'a>),
    /// A value that JSON has as a string.
    Quoted(&'a str, &'a str, Piece<'a>),
    /// The operation whose result is lost, `None` for what a register had at the start.
    Lost(Option<Issue>),
    /// A row of operations, which JSON has as a string.
    Row(&'a str, &'a str, &'a [Op], Row),
}

/// What JSON has in a member, where a line has something else.
fn either<'a>(form: Form, in_line: &'a str, in_json: &'a str) -> Piece<'a>
    ensures { piece_text result ≡ said.either form in_line.now in_json.now }
{
    match form {
        Form::Lines | Form::Table => Text(in_line),
        Form::Json => Text(in_json),
    }
}

/// Appends that the result of `lost` is lost, or what a register had at the start.
fn push_lost(text: &mut Vec<u8>, lost: Option<Issue>) -> Result<(), NoMemory>
    ensures { OnOk result (text.new.items ≡ text.old.items ++ said.lost_as Lines lost) }
{
    let Some(lost) = lost else {
        return push_all(text, &[Text(", no longer of the start")]);
    };
    let (row, op) = (Number(lost.cycle as u64), Operation(lost.op));
    push_all(text, &[Text(", no longer of row "), row, Text(": "), op])
}

/// Appends `part` as a line has it.
fn push_in_line(text: &mut Vec<u8>, part: Part<'_>) -> Result<(), NoMemory>
    ensures { OnOk result (text.new.items ≡ text.old.items ++ said.part_as Lines part.entry) }
{
    match part {
        Part::Words(words) => push_all(text, &[Text(words)]),
        Part::Plain(words, _, value) => push_all(text, &[Text(words), value]),
        Part::Quoted(words, _, value) => push_all(text, &[Text(words), value]),
        Part::Lost(lost) => push_lost(text, lost),
        Part::Row(words, _, ops, row) => {
            text.extend_from_slice(words.as_bytes())?;
            push_row(text, ops, &row)
        }
    }
}

/// Appends `part` as JSON has it.
fn push_in_json(text: &mut Vec<u8>, part: Part<'_>) -> Result<(), NoMemory>
    ensures { OnOk result (text.new.items ≡ text.old.items ++ said.part_as Json part.entry) }
{
    let comma = Text(",\"");
    match part {
        Part::Words(_) => Ok(()),
        Part::Plain(_, name, value) => push_all(text, &[comma, Text(name), Text("\":"), value]),
        Part::Quoted(_, name, value) => {
            let (name, colon, quote) = (Text(name), Text("\":\""), Text("\""));
            push_all(text, &[comma, name, colon, value, quote])
        }
        Part::Lost(Some(lost)) => {
            let (row, op) = (Number(lost.cycle as u64), Operation(lost.op));
            let (row_is, operation_is) = (Text(",\"lost_row\":"), Text(",\"lost_operation\":\""));
            push_all(text, &[row_is, row, operation_is, op, Text("\"")])
        }
        Part::Lost(None) => push_all(text, &[Text(",\"lost_row\":null,\"lost_operation\":null")]),
        Part::Row(_, name, ops, row) => {
            push_all(text, &[comma, Text(name), Text("\":\"")])?;
            push_row(text, ops, &row)?;
            Ok(text.push(b'"')?)
        }
    }
}

/// Appends `parts`, one after another, in this form.
fn push_each(text: &mut Vec<u8>, form: Form, parts: &[Part<'_>]) -> Result<(), NoMemory>
    ensures { OnOk result (text.new.items ≡ text.old.items ++ flat_map (said.part_as form) parts.now) }
{
    for part in parts {
        match form {
            Form::Lines | Form::Table => push_in_line(text, *part)?,
            Form::Json => push_in_json(text, *part)?,
        }
    }
    Ok(())
}

/// Appends `parts`, one after another, in this form.
#[tactic(auto, using(crate::proofs::Parts::parts_are))]
fn push_parts(text: &mut Vec<u8>, form: Form, parts: &[Part<'_>]) -> Result<(), NoMemory>
    ensures { OnOk result (text.new.items ≡ text.old.items ++ said.parts_as form parts.now) }
{
    push_each(text, form, parts)
}

/// Appends a remark of this `kind`: in a line `parts` after two blanks, without the line's end, and in JSON an object.
pub(crate) fn push_remark(
    text: &mut Vec<u8>,
    form: Form,
    kind: &str,
    parts: &[Part<'_>],
) -> Result<(), NoMemory>
    ensures { OnOk result
        (text.new.items ≡ text.old.items ++ said.remark form kind.now (said.parts_as form parts.now)) }
{
    match form {
        Form::Lines | Form::Table => {
            text.extend_from_slice(b"  ")?;
            push_parts(text, form, parts)
        }
        Form::Json => {
            push_all(text, &[Text("{\"kind\":\""), Text(kind), Text("\"")])?;
            push_parts(text, form, parts)?;
            Ok(text.push(b'}')?)
        }
    }
}

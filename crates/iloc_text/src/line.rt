//! What a line says.
ghost use Rattle.std.specs.Prelude.{◌≡◌, option_map, nat_lt};
ghost use Rattle.std.specs.List.{list_all};
ghost use Rattle.iloc_text.specs.declared.line.scan.TheConstants.{ABOVE_LIMIT};
ghost use Rattle.iloc_text.specs.Steps.LineReads.{LineReads, label_of};
ghost use Rattle.iloc_text.specs.Steps.Scan.{is_end, body_at, line_at, optional_label_at, is_within_limit, is_within};

pub mod fast_path;
pub mod numbers;
pub mod one_pass;
pub mod opcode;
pub mod operand;
pub mod operation;
pub mod scan;
pub mod schedule_line;
pub mod shape;

use crate::line::operation::optional_operation_at;
use crate::line::scan::{ABOVE_LIMIT, after_blanks, word_at};
use iloc_ops::{Op, Operands, form_of};

/// What a line reads as.
#[derive(Clone, Copy)]
pub struct Line<'a> {
    /// The name in its label.
    pub label: Option<&'a [u8]>,
    /// Its operation.
    pub op: Option<Op>,
}

/// Why a line has no reading.
#[derive(Clone, Copy, PartialEq, Eq)]
pub enum ParseFault {
    /// It would have none if numbers had no limit either.
    Bad,
    /// It would have one if numbers had no limit.
    NumberTooLarge,
}

/// A label, or none if no word is followed by a colon, and what follows that.
#[tactic(auto, unfolding(crate::specs::Steps::Scan::optional_label_at))]
pub fn optional_label_at(bytes: &[u8]) -> (Option<&[u8]>, &[u8])
    ensures { (option_map (λ name. name.now) result.0, result.1.now) ≡ optional_label_at bytes.now }
{
    match bytes {
        [first, ..] if first.is_ascii_alphabetic() => {
            let (word, rest) = word_at(bytes);
            match after_blanks(rest) {
                [b':', after @ ..] => (Some(word), after),
                _ => (None, bytes),
            }
        }
        _ => (None, bytes),
    }
}

/// Nothing is left of the line, or a comment.
pub fn is_end(rest: &[u8]) -> bool
    ensures { result ≡ is_end rest.now }
{
    matches!(rest, [] | [b'/', b'/', ..])
}

/// The operation in what follows a label, or that there is none; numbers above the limit count as `ABOVE_LIMIT`.
#[tactic(auto, unfolding(crate::specs::Steps::Scan::body_at))]
fn body_at(bytes: &[u8]) -> Option<Option<Op>>
    ensures { result ≡ body_at bytes.now }
{
    let (op, rest) = optional_operation_at(after_blanks(bytes))?;
    if is_end(after_blanks(rest)) {
        Some(op)
    } else {
        None
    }
}

/// The label and the operation of the line, as `body_at` has it.
#[tactic(auto, unfolding(crate::specs::Steps::Scan::line_at))]
fn line_at(bytes: &[u8]) -> Option<Line<'_>>
    ensures { option_map (λ line. (label_of line, line.op)) result ≡ line_at bytes.now }
{
    let (label, rest) = optional_label_at(after_blanks(bytes));
    let op = body_at(rest)?;
    Some(Line { label, op })
}

/// No number was capped.
#[inline(always)]
fn are_within_limit(numbers: &[u32]) -> bool
    ensures { result ≡ list_all (λ n. nat_lt n ABOVE_LIMIT) numbers.now }
{
    numbers.iter().all(|number| *number < ABOVE_LIMIT)
}

/// No number of the operation was capped.
fn is_within_limit(op: &Op) -> bool
    ensures { result ≡ is_within_limit op.now }
{
    match form_of(op).1 {
        Operands::Nothing => true,
        Operands::Constant(value) => are_within_limit(&[value]),
        Operands::Immediate(value, dest) => are_within_limit(&[value, dest.0]),
        Operands::Copied(source, dest) => are_within_limit(&[source.0, dest.0]),
        Operands::Stored(value, addr) => are_within_limit(&[value.0, addr.0]),
        Operands::Sources(left, right, dest) => are_within_limit(&[left.0, right.0, dest.0]),
        Operands::WithConstant(left, value, dest) => are_within_limit(&[left.0, value, dest.0]),
        Operands::StoredAt(value, addr, offset) => are_within_limit(&[value.0, addr.0, offset]),
    }
}

/// The line has no operation, or one of which no number was capped.
pub fn is_within(op: &Option<Op>) -> bool
    ensures { result ≡ is_within op.now }
{
    match op {
        Some(op) => is_within_limit(op),
        None => true,
    }
}

/// What the line reads as, or why it has no reading.
pub fn read_line(bytes: &[u8]) -> Result<Line<'_>, ParseFault>
    ensures { LineReads bytes.now result }
{
    let Some(line) = line_at(bytes) else {
        return Err(ParseFault::Bad);
    };
    if is_within(&line.op) {
        Ok(line)
    } else {
        Err(ParseFault::NumberTooLarge)
    }
}

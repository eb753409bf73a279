//! What a line of a schedule says, as schedules are listed.
ghost use Rattle.std.specs.Prelude.{◌≡◌, option_map};
ghost use Rattle.iloc_text.specs.ScheduleLines.{IsSaidBy, said_of, is_product, alone};
ghost use Rattle.iloc_text.specs.Steps.ScheduleScan.{slot_at, behind_byte, row_at, block_name_at, head_at, cycles_at, total_at, worded_at, said_at, schedule_line_at, is_said_within};

use crate::line::operand::number_behind_blank;
use crate::line::operation::optional_operation_at;
use crate::line::scan::{ABOVE_LIMIT, after_blanks, is_word_byte, some_blanks_at, word_at};
use crate::line::{ParseFault, is_end, is_within};
use iloc_ops::Op;

/// What a line of a schedule says.
#[derive(Clone, Copy)]
pub enum ScheduleLine<'a> {
    /// Nothing: only blanks and a comment, or not even those.
    Empty,
    /// `[ zero ; one ]`: the operations that are issued in a cycle, on unit 0 and on unit 1; `nop` for one that is left
    /// out. In `[ op ]` a product is on unit 1, any other operation on unit 0.
    Row { zero: Op, one: Op },
    /// `block number name`: the lines below are of this block; the name `-` is none.
    Head { number: u32, name: Option<&'a [u8]> },
    /// `cycles number`: how many cycles the schedule of a block takes.
    Cycles(u32),
    /// `total number`: how many cycles all schedules take.
    Total(u32),
}

/// An operation with any blanks on both sides, `nop` for blanks alone, and what follows.
#[tactic(auto, unfolding(crate::specs::Steps::ScheduleScan::slot_at))]
fn slot_at(bytes: &[u8]) -> Option<(Op, &[u8])>
    ensures { option_map (λ found. (found.0, found.1.now)) result ≡ slot_at bytes.now }
{
    let (op, rest) = optional_operation_at(after_blanks(bytes))?;
    Some((op.unwrap_or(Op::Nop), after_blanks(rest)))
}

/// Whether the operation is a product.
fn is_product(op: &Op) -> bool
    ensures { result ≡ is_product op.now }
{
    matches!(op, Op::Mult { .. } | Op::MultI { .. })
}

/// The row of a single operation: what is issued on unit 0 and on unit 1.
fn alone(op: Op) -> (Op, Op)
    ensures { result ≡ alone op }
{
    if is_product(&op) {
        (Op::Nop, op)
    } else {
        (op, Op::Nop)
    }
}

/// What follows this byte.
fn behind_byte(byte: u8, bytes: &[u8]) -> Option<&[u8]>
    ensures { option_map (λ rest. rest.now) result ≡ behind_byte byte bytes.now }
{
    match bytes {
        [first, rest @ ..] if *first == byte => Some(rest),
        _ => None,
    }
}

/// A row of which the bracket was read.
#[tactic(auto, unfolding(crate::specs::Steps::ScheduleScan::row_at))]
fn row_at(bytes: &[u8]) -> Option<(ScheduleLine<'_>, &[u8])>
    ensures { option_map (λ found. (said_of found.0, found.1.now)) result ≡ row_at bytes.now }
{
    let (first, rest) = slot_at(bytes)?;
    if let Some(rest) = behind_byte(b';', rest) {
        let (one, rest) = slot_at(rest)?;
        let rest = behind_byte(b']', rest)?;
        return Some((ScheduleLine::Row { zero: first, one }, rest));
    }
    let rest = behind_byte(b']', rest)?;
    let (zero, one) = alone(first);
    Some((ScheduleLine::Row { zero, one }, rest))
}

/// The name of a block, `-` where it has none.
fn block_name_at(bytes: &[u8]) -> Option<(Option<&[u8]>, &[u8])>
    ensures { option_map (λ found. (option_map (λ name. name.now) found.0, found.1.now)) result
        ≡ block_name_at bytes.now }
{
    match bytes {
        [b'-', rest @ ..] => Some((None, rest)),
        [first, ..] if first.is_ascii_alphabetic() => {
            let (word, rest) = word_at(bytes);
            Some((Some(word), rest))
        }
        _ => None,
    }
}

/// The head of a block of which the word was read.
#[tactic(auto, unfolding(crate::specs::Steps::ScheduleScan::head_at, crate::specs::Steps::ScheduleScan::number_behind))]
fn head_at(bytes: &[u8]) -> Option<(ScheduleLine<'_>, &[u8])>
    ensures { option_map (λ found. (said_of found.0, found.1.now)) result ≡ head_at bytes.now }
{
    let (number, rest) = number_behind_blank(bytes)?;
    let (name, rest) = block_name_at(some_blanks_at(rest)?)?;
    Some((ScheduleLine::Head { number, name }, rest))
}

/// What is said with this word, and what follows.
#[tactic(auto, unfolding(crate::specs::Steps::ScheduleScan::cycles_at, crate::specs::Steps::ScheduleScan::total_at, crate::specs::Steps::ScheduleScan::number_behind))]
fn worded_at<'a>(word: &[u8], rest: &'a [u8]) -> Option<(ScheduleLine<'a>, &'a [u8])>
    ensures { option_map (λ found. (said_of found.0, found.1.now)) result ≡ worded_at word.now rest.now }
{
    if word == b"block".as_slice() {
        head_at(rest)
    } else if word == b"cycles".as_slice() {
        let (number, rest) = number_behind_blank(rest)?;
        Some((ScheduleLine::Cycles(number), rest))
    } else if word == b"total".as_slice() {
        let (number, rest) = number_behind_blank(rest)?;
        Some((ScheduleLine::Total(number), rest))
    } else {
        None
    }
}

/// What is said, or nothing if there is neither a bracket nor a word.
#[tactic(auto, unfolding(crate::specs::Steps::ScheduleScan::said_at))]
fn said_at(bytes: &[u8]) -> Option<(ScheduleLine<'_>, &[u8])>
    ensures { option_map (λ found. (said_of found.0, found.1.now)) result ≡ said_at bytes.now }
{
    match bytes {
        [b'[', rest @ ..] => row_at(rest),
        [first, ..] if is_word_byte(*first) => {
            let (word, rest) = word_at(bytes);
            worded_at(word, rest)
        }
        _ => Some((ScheduleLine::Empty, bytes)),
    }
}

/// What the line says; its numbers count as `ABOVE_LIMIT` where they are above the limit.
#[tactic(auto, unfolding(crate::specs::Steps::ScheduleScan::schedule_line_at))]
fn schedule_line_at(bytes: &[u8]) -> Option<ScheduleLine<'_>>
    ensures { option_map said_of result ≡ schedule_line_at bytes.now }
{
    let (line, rest) = said_at(after_blanks(bytes))?;
    if is_end(after_blanks(rest)) {
        Some(line)
    } else {
        None
    }
}

/// No number was capped.
fn is_said_within(line: &ScheduleLine<'_>) -> bool
    ensures { result ≡ is_said_within (said_of line.now) }
{
    match *line {
        ScheduleLine::Empty => true,
        ScheduleLine::Row { zero, one } => is_within(&Some(zero)) && is_within(&Some(one)),
        ScheduleLine::Head { number, .. } => number < ABOVE_LIMIT,
        ScheduleLine::Cycles(number) => number < ABOVE_LIMIT,
        ScheduleLine::Total(number) => number < ABOVE_LIMIT,
    }
}

/// Promise: what a line of a schedule says, or why it isn't understood; the line comes without its line end.
pub fn read_schedule_line(line: &[u8]) -> Result<ScheduleLine<'_>, ParseFault>
    ensures { IsSaidBy line.now result }
{
    let Some(found) = schedule_line_at(line) else {
        return Err(ParseFault::Bad);
    };
    if is_said_within(&found) {
        Ok(found)
    } else {
        Err(ParseFault::NumberTooLarge)
    }
}

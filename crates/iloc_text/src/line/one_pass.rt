//! Lines that read, found in one pass over their bytes. Where nothing is found, a line may still read.
ghost use Rattle.std.specs.Prelude.{◌<◌, None, Some, Ok, IfSome, length};
ghost use Rattle.iloc_text.specs.Grammar.{◌⋅◌, Blanks, OptionalComment};
ghost use Rattle.iloc_text.specs.Steps.LineReads.{FirstIs, FirstBody, FirstLine};

use crate::line::fast_path::{LONGEST, fast_called_at};
use crate::line::opcode::opcode_at;
use crate::line::scan::after_blanks;
use crate::line::{Line, optional_label_at};
use crate::line_ends::split_line;
use iloc_ops::Op;

/// What follows the first line end, if there is one, and nothing but a comment precedes it.
#[inline(always)]
fn behind_comment(bytes: &[u8]) -> Option<Option<&[u8]>>
    ensures { IfSome result (FirstIs OptionalComment bytes.now) }
{
    match bytes {
        [b'\n', after @ ..] => Some(Some(after)),
        [] => Some(None),
        [b'/', b'/', comment @ ..] => Some(split_line(comment).1),
        _ => None,
    }
}

/// As `behind_line_end`, out of the way of what has a line end at once.
#[inline(never)]
fn behind_further_line_end(bytes: &[u8]) -> Option<Option<&[u8]>>
    ensures { IfSome result (FirstIs (Blanks ⋅ OptionalComment) bytes.now) }
{
    behind_comment(after_blanks(bytes))
}

/// What follows the first line end, if there is one, and nothing but blanks and a comment precede it. A letter is seen at once:
/// that saves `run` 4 % of its instructions on blocks of a label and an operation.
#[inline(always)]
fn behind_line_end(bytes: &[u8]) -> Option<Option<&[u8]>>
    ensures { IfSome result (FirstIs (Blanks ⋅ OptionalComment) bytes.now) }
{
    match bytes {
        [b'\n', after @ ..] => Some(Some(after)),
        [first, ..] if first.is_ascii_alphabetic() => None,
        _ => behind_further_line_end(bytes),
    }
}

/// As `behind_operation`, out of the way of what has a line end at once.
#[cold]
#[inline(never)]
fn behind_further_operation(bytes: &[u8]) -> &[u8]
    ensures { length result.now < length bytes.now → FirstIs (Blanks ⋅ OptionalComment) bytes.now (Some result) }
{
    match behind_further_line_end(bytes) {
        Some(Some(after)) => after,
        _ => bytes,
    }
}

/// What follows the first line end, if nothing but blanks and a comment precede it; else all of the bytes. They come in registers,
/// and an `Option` of them doesn't: with that `run` executes 3 % more instructions.
#[inline(always)]
fn behind_operation(bytes: &[u8]) -> &[u8]
    ensures { length result.now < length bytes.now → FirstIs (Blanks ⋅ OptionalComment) bytes.now (Some result) }
{
    match bytes {
        [b'\n', after @ ..] => after,
        _ => behind_further_operation(bytes),
    }
}

/// The operation at the front, found on the fast path, and what follows the line end after it. This is what most lines
/// are. Without the fast path `counts` takes 24 % more processor time on 65,535 blocks of some ten operations.
#[inline(always)]
fn fast_operation(bytes: &[u8]) -> Option<(Op, &[u8])>
    ensures { IfSome result (λ found. FirstBody bytes.now (Some found.0) (Some found.1)) }
{
    // Long enough for the eight bytes in which an opcode is looked for, and for what may follow it.
    if bytes.len() < LONGEST + 8 {
        return None;
    }
    let (opcode, start) = opcode_at(bytes)?;
    let (op, at) = fast_called_at(opcode, bytes, start)?;
    let behind = &bytes[at..];
    let after = behind_operation(behind);
    if after.len() < behind.len() {
        Some((op, after))
    } else {
        None
    }
}

/// What the line at the front says if that is an operation found on the fast path, or nothing but a comment, without a
/// label and without blanks before it, and what follows its line end.
#[inline(always)]
pub fn fast_body(bytes: &[u8]) -> Option<(Option<Op>, &[u8])>
    ensures { IfSome result (λ found. FirstBody bytes.now found.0 (Some found.1)) }
{
    if let Some((op, after)) = fast_operation(bytes) {
        return Some((Some(op), after));
    }
    let after = behind_line_end(bytes)??;
    Some((None, after))
}

/// What the line at the front says after a label, if it has one, and blanks. Without a label the fast path isn't tried:
/// `read_bodies` has tried it.
#[inline(always)]
fn body_behind<'a>(label: Option<&[u8]>, bytes: &'a [u8]) -> Option<(Option<Op>, Option<&'a [u8]>)>
    ensures { IfSome result (λ found. FirstBody bytes.now found.0 found.1) }
{
    if let Some(after) = behind_line_end(bytes) {
        return Some((None, after));
    }
    label?;
    let (op, after) = fast_operation(bytes)?;
    Some((Some(op), Some(after)))
}

/// What the first line of the text reads as, and what follows its line end, if it has one. Where each such line is cut from
/// the text and then read, `counts` takes 10 % more processor time on 65,535 lines of a label and an operation.
#[inline(always)]
pub fn fast_line(text: &[u8]) -> Option<(Line<'_>, Option<&[u8]>)>
    ensures { IfSome result (λ found. FirstLine text.now (Ok found)) }
{
    let (label, behind) = optional_label_at(after_blanks(text));
    let (op, after) = body_behind(label, after_blanks(behind))?;
    Some((Line { label, op }, after))
}

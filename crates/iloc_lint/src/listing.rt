//! What is listed of a text: each faulty line with what is wrong there, hints, and what the text holds.
ghost use Rattle.std.specs.Prelude.{◌≡◌, ◌≤◌, ◌+◌, ◌++◌, ◌==◌, List, ℕ, length, take, IfOk, OnOk};
ghost use Rattle.iloc_lint.specs.Listing.{AreRefusalEntries, AreHints, IsEntry, ListsLint, caret_line, cut, line_entry, more_line, text_line, total_line};
ghost use Rattle.iloc_lint.specs.Refused.{refusals_of};

use crate::faults::{Linted, lint};
use crate::hint::push_hints;
use crate::hints::hints_on;
use crate::place::place_of;
use crate::refused::{MOST_LISTED, Refused};
use crate::shown::push_shown;
use crate::wording::{ABOVE_LIMIT, wording};
use iloc_ops::{NoMemory, push_column, push_number};
use iloc_text::ReadFault;
use std::alloc::Global;

/// So many bytes of a line are shown.
const MOST_SHOWN: usize = 64;

/// So many of them come before the place that is pointed at.
const MOST_BEFORE: usize = 40;

/// As many spaces as come before a caret at most.
const SPACES: &[u8] = b"                                        ";

/// Appends `..` where something is left out.
fn push_cut(text: &mut Vec<u8>, left_out: bool) -> Result<(), NoMemory>
    ensures { OnOk result (text.new.items ≡ text.old.items ++ cut left_out) }
{
    if left_out {
        text.extend_from_slice(b"..")?;
    }
    Ok(())
}

/// As many of the bytes as are shown.
fn front_of(bytes: &[u8]) -> &[u8]
    ensures { result.now ≡ take 64 bytes.now }
{
    if bytes.len() > MOST_SHOWN {
        return &bytes[..MOST_SHOWN];
    }
    bytes
}

/// Appends the line of a text from this place on, as far as it is shown.
fn push_text_line(text: &mut Vec<u8>, line: &[u8], from: usize) -> Result<(), NoMemory>
    requires { from ≤ length line.now }
    ensures { OnOk result (text.new.items ≡ text.old.items ++ text_line line.now from) }
{
    let rest = &line[from..];
    text.extend_from_slice(b"    ")?;
    push_cut(text, from > 0)?;
    push_shown(text, front_of(rest))?;
    push_cut(text, rest.len() > MOST_SHOWN)?;
    Ok(text.push(b'\n')?)
}

/// Appends a caret below the byte at a place, where bytes are shown from an earlier one on.
fn push_caret_line(text: &mut Vec<u8>, from: usize, at: usize) -> Result<(), NoMemory>
    requires { (from ≤ at) × (at ≤ from + 40) }
    ensures { OnOk result (text.new.items ≡ text.old.items ++ caret_line from at) }
{
    text.extend_from_slice(b"    ")?;
    if from > 0 {
        text.extend_from_slice(b"  ")?;
    }
    text.extend_from_slice(&SPACES[..at - from])?;
    Ok(text.extend_from_slice(b"^\n")?)
}

/// Appends what is said of a line: its number, what is wrong, its text, and a caret below the place.
fn push_line_entry(
    text: &mut Vec<u8>,
    number: u32,
    what: &[u8],
    line: &[u8],
    at: usize,
) -> Result<(), NoMemory>
    requires { at ≤ length line.now }
    ensures { OnOk result (text.new.items ≡ text.old.items ++ line_entry number what.now line.now at) }
{
    text.extend_from_slice(b"line ")?;
    push_number(text, number)?;
    text.extend_from_slice(b": ")?;
    push_shown(text, what)?;
    text.push(b'\n')?;
    let from = at.saturating_sub(MOST_BEFORE);
    push_text_line(text, line, from)?;
    push_caret_line(text, from, at)
}

/// Appends the entry of a line that is refused.
fn push_entry(alloc: Global, text: &mut Vec<u8>, refused: &Refused<'_>) -> Result<(), NoMemory>
    ensures { OnOk result ((entry : List ℕ) × IsEntry refused.now.line.now refused.now.fault entry
        × (text.new.items ≡ text.old.items ++ entry)) }
{
    let line = refused.line;
    match refused.fault {
        ReadFault::BadLine(number) => {
            let what = wording(alloc, number, line)?;
            push_line_entry(text, number, &what, line, place_of(line))
        }
        ReadFault::NumberTooLarge(number) => {
            push_line_entry(text, number, ABOVE_LIMIT, line, place_of(line))
        }
        ReadFault::TooManyBlocks(number) => {
            push_line_entry(text, number, b"more than 65535 blocks", line, 0)
        }
        ReadFault::TooManyOperations(number) => push_line_entry(
            text,
            number,
            b"more than 10000 operations in a block",
            line,
            0,
        ),
        ReadFault::InputTooLong => {
            Ok(text.extend_from_slice(b"input longer than 16777216 bytes\n")?)
        }
        ReadFault::NoMemory => Err(NoMemory),
    }
}

/// Appends the entries of lines that are refused.
fn push_entries(alloc: Global, text: &mut Vec<u8>, faults: &[Refused<'_>]) -> Result<(), NoMemory>
    ensures { OnOk result ((entries : List ℕ) × AreRefusalEntries (refusals_of faults.now) entries
        × (text.new.items ≡ text.old.items ++ entries)) }
{
    for fault in faults {
        push_entry(alloc, text, fault)?;
    }
    Ok(())
}

/// Appends how many more lines are refused than are listed.
fn push_more(text: &mut Vec<u8>, count: usize) -> Result<(), NoMemory>
    ensures { OnOk result (text.new.items ≡ text.old.items ++ more_line count) }
{
    if count > MOST_LISTED {
        text.extend_from_slice(b"and ")?;
        push_number(text, count - MOST_LISTED)?;
        text.extend_from_slice(b" more\n")?;
    }
    Ok(())
}

/// Appends the last line: how many blocks and operations there are, and how many lines are refused.
fn push_totals(text: &mut Vec<u8>, found: &Linted<'_>) -> Result<(), NoMemory>
    ensures { OnOk result (text.new.items ≡ text.old.items
        ++ total_line found.now.blocks found.now.ops found.now.faults.count) }
{
    text.extend_from_slice(b"blocks ")?;
    push_number(text, found.blocks)?;
    push_column(text, "operations", found.ops as u64)?;
    push_column(text, "faults", found.faults.count as u64)?;
    Ok(text.push(b'\n')?)
}

/// Appends hints on a text that reads; none on another.
fn push_hints_where(
    alloc: Global,
    text: &mut Vec<u8>,
    found: &Linted<'_>,
    input: &[u8],
) -> Result<(), NoMemory>
    ensures { OnOk result ((hints : List ℕ) × AreHints (found.now.faults.count == 0) hints
        × (text.new.items ≡ text.old.items ++ hints)) }
{
    if found.reads() {
        let hints = hints_on(alloc, input)?;
        push_hints(alloc, text, &hints)?;
    }
    Ok(())
}

/// What is listed of a text.
#[derive(Drop)]
pub struct Report {
    /// The listing.
    pub text: Vec<u8>,
    /// Whether no line is refused.
    pub reads: bool,
}

/// What is listed of the text `input`: for each line that is refused its number, what is wrong there, its text, and a
/// caret below the first byte with which no reading goes on, of 1,000 lines at most, and how many more there are; hints
/// if the text reads; and at the end how many blocks, operations and faults there are. The wording of hints and of a
/// line that has no reading is free.
///
/// Promise: Of a text within the limit the lines counted are exactly the ones that the grammar refuses, where a refused
/// line counts as empty for the lines after it; the first 1,000 are listed, each with its number, part of its text and,
/// where it has no reading, the place where its reading ends. Of a longer text that is said alone.
pub fn report_of(alloc: Global, input: &[u8]) -> Result<Report, NoMemory>
    ensures { IfOk result (λ report. ListsLint input.now report.reads report.text.items) }
{
    let found = lint(alloc, input)?;
    let mut text = Vec::new(alloc);
    push_entries(alloc, &mut text, &found.faults.first)?;
    push_more(&mut text, found.faults.count)?;
    push_hints_where(alloc, &mut text, &found, input)?;
    push_totals(&mut text, &found)?;
    Ok(Report {
        text,
        reads: found.reads(),
    })
}

//! What is wrong with a line among the rows of a schedule that can't be read, in words.
ghost use Rattle.std.specs.Prelude.{ℕ, ◌≡◌, ◌<◌, ◌≤◌, IfErr, IfOk, IfSome, IsTrue, List, ◌++◌, length};
ghost use Rattle.iloc_lint.specs.Row.{IsAfterBlanks, IsLeft, IsNext, IsRowWording, is_in_claim, is_in_head, is_in_row};
ghost use Rattle.iloc_lint.specs.Steps.Stopped.{Stops, StopsIn};
ghost use Rattle.iloc_lint.specs.declared.row.Wanted.TheVariants.{LineEnd};

use crate::place::{Part, blanks_at, part_at, parts_of, word_at};
use crate::shown::push_shown;
use crate::wording::opcode_of;
use iloc_ops::{NoMemory, Opcode};
use iloc_text::{ScheduleLine, read_schedule_line};
use std::alloc::Global;

/// The longest part of a word that is shown.
const MOST_SHOWN: usize = 20;

/// What may follow a place in a line among rows.
#[derive(Clone, Copy, Drop)]
pub enum Wanted {
    /// `[`, of a row.
    Row,
    Operation,
    Register,
    Number,
    /// A number, where there is one above the limit.
    SmallNumber,
    Comma,
    Arrow,
    /// `;` or `]`, after a first slot.
    SlotOrEnd,
    /// `]`, after a second slot.
    RowEnd,
    /// A blank after a block's number.
    Blank,
    /// A block's name, or `-`.
    Name,
    /// The name that this block has.
    OwnName,
    LineEnd,
}

impl Wanted {
    ghost use Rattle.iloc_lint.specs.Row.{wanted_text};

    /// What it is called.
    fn text(self) -> &'static [u8]
        ensures { result.now ≡ wanted_text self }
    {
        match self {
            Wanted::Row => b"[",
            Wanted::Operation => b"an operation",
            Wanted::Register => b"a register",
            Wanted::Number => b"a number",
            Wanted::SmallNumber => b"a number up to 2147483647",
            Wanted::Comma => b"a comma",
            Wanted::Arrow => b"=>",
            Wanted::SlotOrEnd => b"; or ]",
            Wanted::RowEnd => b"]",
            Wanted::Blank => b"a blank",
            Wanted::Name => b"a name or -",
            Wanted::OwnName => b"the block's name",
            Wanted::LineEnd => b"end of line",
        }
    }
}

/// Where a line stops: what is wanted, and the bytes from there on.
#[derive(Clone, Copy)]
struct Stop<'a> {
    wanted: Wanted,
    rest: &'a [u8],
}

/// What follows the blanks at the front.
fn after_blanks(bytes: &[u8]) -> &[u8]
    ensures left { IsLeft bytes.now result.now }
    ensures blanks { IsAfterBlanks bytes.now result.now }
{
    &bytes[blanks_at(bytes)..]
}

/// How many bytes of the word, sign or byte at the front are shown.
fn shown_at(bytes: &[u8]) -> usize
    requires { 0 < length bytes.now }
    ensures some { 0 < result }
    ensures within { result ≤ length bytes.now }
{
    match bytes {
        [b'=', b'>', ..] | [b'/', b'/', ..] => 2,
        _ => word_at(bytes).max(1).min(MOST_SHOWN),
    }
}

/// The word, sign or byte that comes after any blanks.
fn found_at(bytes: &[u8]) -> &[u8]
    ensures { (rest : List ℕ) × IsAfterBlanks bytes.now rest × IsNext rest result.now }
{
    let rest = after_blanks(bytes);
    if rest.is_empty() {
        return b"end of line";
    }
    &rest[..shown_at(rest)]
}

/// Whether the word is written as this part, so that only its number can be too large.
fn is_too_large(part: Part, word: &[u8]) -> bool {
    match (part, word) {
        (Part::Constant, [first, .., last]) | (Part::Register, [b'r', first, .., last]) => {
            first.is_ascii_digit() && last.is_ascii_digit()
        }
        _ => false,
    }
}

/// What is wanted where this part of an operation isn't found.
fn wanted_part(opcode: Opcode, part: Part, word: &[u8]) -> Wanted
    ensures { IsTrue (is_in_row result) }
{
    match (part, opcode) {
        (Part::Comma, _) => Wanted::Comma,
        (Part::Arrow, _) => Wanted::Arrow,
        _ if is_too_large(part, word) => Wanted::SmallNumber,
        (Part::Constant, _) | (Part::Space, Opcode::LoadI | Opcode::Output) => Wanted::Number,
        (Part::Register | Part::Space, _) => Wanted::Register,
    }
}

/// What follows the operands of an operation, or where they stop.
fn operands_at(opcode: Opcode, bytes: &[u8]) -> Result<&[u8], Stop<'_>>
    ensures ok { IfOk result (λ rest. IsLeft bytes.now rest.now) }
    ensures err { IfErr result (λ stop. StopsIn is_in_row bytes.now stop.wanted stop.rest.now) }
{
    let mut rest = bytes;
    for part in parts_of(opcode) {
        let (count, whole) = part_at(*part, rest);
        if !whole {
            let wanted = wanted_part(opcode, *part, found_at(rest));
            return Err(Stop { wanted, rest });
        }
        rest = &rest[count..];
    }
    Ok(rest)
}

/// What follows a slot, or where it stops.
fn slot_at(bytes: &[u8]) -> Result<&[u8], Stop<'_>>
    ensures ok { IfOk result (λ rest. IsLeft bytes.now rest.now) }
    ensures err { IfErr result (λ stop. StopsIn is_in_row bytes.now stop.wanted stop.rest.now) }
{
    let rest = after_blanks(bytes);
    if let [b';' | b']', ..] = rest {
        return Ok(rest);
    }
    let count = word_at(rest);
    let Some(opcode) = opcode_of(&rest[..count]) else {
        return Err(Stop {
            wanted: Wanted::Operation,
            rest,
        });
    };
    Ok(after_blanks(operands_at(opcode, &rest[count..])?))
}

/// What follows a second slot, if there is one, and what is wanted there; or where the slot stops.
fn second_at(bytes: &[u8]) -> Result<(Wanted, &[u8]), Stop<'_>>
    ensures ok { IfOk result (λ it. StopsIn is_in_row bytes.now it.0 it.1.now) }
    ensures err { IfErr result (λ stop. StopsIn is_in_row bytes.now stop.wanted stop.rest.now) }
{
    match bytes {
        [b';', second @ ..] => match slot_at(second) {
            Ok(rest) => Ok((Wanted::RowEnd, rest)),
            Err(stop) => Err(stop),
        },
        _ => Ok((Wanted::SlotOrEnd, bytes)),
    }
}

/// What follows the two slots of a row or its one, and what ends it, or where they stop.
fn slots_at(bytes: &[u8]) -> Result<&[u8], Stop<'_>>
    ensures ok { IfOk result (λ rest. IsLeft bytes.now rest.now) }
    ensures err { IfErr result (λ stop. StopsIn is_in_row bytes.now stop.wanted stop.rest.now) }
{
    let (wanted, rest) = second_at(slot_at(bytes)?)?;
    match rest {
        [b']', after @ ..] => Ok(after),
        _ => Err(Stop { wanted, rest }),
    }
}

/// What follows blanks and a number, or where they stop.
fn number_after(bytes: &[u8]) -> Result<&[u8], Stop<'_>>
    ensures ok { IfOk result (λ rest. IsLeft bytes.now rest.now) }
    ensures err { IfErr result (λ stop. StopsIn is_in_claim bytes.now stop.wanted stop.rest.now) }
{
    let rest = after_blanks(bytes);
    let (count, whole) = part_at(Part::Constant, rest);
    if whole {
        return Ok(&rest[count..]);
    }
    let wanted = if is_too_large(Part::Constant, found_at(rest)) {
        Wanted::SmallNumber
    } else {
        Wanted::Number
    };
    Err(Stop { wanted, rest })
}

/// What follows the name of a block, or where it stops.
fn name_after(bytes: &[u8]) -> Result<&[u8], Stop<'_>>
    ensures ok { IfOk result (λ rest. IsLeft bytes.now rest.now) }
    ensures err { IfErr result (λ stop. StopsIn is_in_head bytes.now stop.wanted stop.rest.now) }
{
    let rest = after_blanks(bytes);
    if rest.len() == bytes.len() && !rest.is_empty() {
        return Err(Stop {
            wanted: Wanted::Blank,
            rest,
        });
    }
    match rest {
        [b'-', after @ ..] => Ok(after),
        [first, ..] if first.is_ascii_alphabetic() => Ok(&rest[word_at(rest)..]),
        _ => Err(Stop {
            wanted: Wanted::Name,
            rest,
        }),
    }
}

/// What follows the number and the name of a block, or where they stop.
fn head_at(bytes: &[u8]) -> Result<&[u8], Stop<'_>>
    ensures ok { IfOk result (λ rest. IsLeft bytes.now rest.now) }
    ensures err { IfErr result (λ stop. StopsIn is_in_head bytes.now stop.wanted stop.rest.now) }
{
    match number_after(bytes) {
        Ok(rest) => name_after(rest),
        Err(stop) => Err(stop),
    }
}

/// What follows this text, if it is the word or the byte at the front.
fn after_text<'a>(text: &'static [u8], bytes: &'a [u8]) -> Option<&'a [u8]>
    ensures { IfSome result (λ rest. bytes.now ≡ text.now ++ rest.now) }
{
    let (first, rest) = bytes.split_at(word_at(bytes).max(1).min(bytes.len()));
    if first == text { Some(rest) } else { None }
}

/// What follows a row, a claim or a block's head, or where it stops.
fn said_at(line: &[u8]) -> Result<&[u8], Stop<'_>>
    ensures ok { IfOk result (λ rest. Stops line.now LineEnd rest.now) }
    ensures err { IfErr result (λ stop. Stops line.now stop.wanted stop.rest.now) }
{
    let rest = after_blanks(line);
    if let Some(slots) = after_text(b"[", rest) {
        return slots_at(slots);
    }
    if let Some(head) = after_text(b"block", rest) {
        return head_at(head);
    }
    if let Some(claim) = after_text(b"cycles", rest) {
        return number_after(claim);
    }
    if let Some(claim) = after_text(b"total", rest) {
        return number_after(claim);
    }
    Err(Stop {
        wanted: Wanted::Row,
        rest,
    })
}

/// Where a head stops that has another name than its block: where its name is.
fn misnamed_stop(line: &[u8]) -> Stop<'_>
    ensures { Stops line.now result.wanted result.rest.now }
{
    let rest = after_blanks(line);
    let Some(head) = after_text(b"block", rest) else {
        return Stop {
            wanted: Wanted::Row,
            rest,
        };
    };
    match number_after(head) {
        Ok(rest) => Stop {
            wanted: Wanted::OwnName,
            rest: after_blanks(rest),
        },
        Err(stop) => stop,
    }
}

/// Where a line stops: one that reads is the head of a block by another name.
fn stop_of(line: &[u8]) -> Stop<'_>
    ensures { Stops line.now result.wanted result.rest.now }
{
    if let Ok(ScheduleLine::Head { .. }) = read_schedule_line(line) {
        return misnamed_stop(line);
    }
    match said_at(line) {
        Ok(rest) => Stop {
            wanted: Wanted::LineEnd,
            rest,
        },
        Err(stop) => stop,
    }
}

/// What is wrong with a line among rows that can't be read, or that is a head with another name than its block's: what is wanted
/// where its reading ends, and what is found there.
///
/// Promise: this is `expected W, found F` at a place of the line. W is one of the texts that may be wanted after what the line
/// begins with: `[`, or what belongs in a row, a block's head or a claim. F begins what is left there, as bytes are shown, or is
/// `end of line` where nothing is. Which place, isn't promised.
pub fn row_wording(alloc: Global, line: &[u8]) -> Result<Vec<u8>, NoMemory>
    ensures { IfOk result (λ words. IsRowWording line.now words.items) }
{
    let stop = stop_of(line);
    let mut what = Vec::new(alloc);
    what.extend_from_slice(b"expected ")?;
    what.extend_from_slice(stop.wanted.text())?;
    what.extend_from_slice(b", found ")?;
    push_shown(&mut what, found_at(stop.rest))?;
    Ok(what)
}

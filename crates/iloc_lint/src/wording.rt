//! What is wrong with a line, in words.
ghost use Rattle.std.specs.Prelude.{◌≤◌, ◌<◌, length};

use crate::place::{Part, Place, blanks_at, label_at, operands_at, place_of, word_at};
use crate::shown::push_shown;
use iloc_ops::{NoMemory, OPCODES, Opcode};
use iloc_text::{is_blank, is_word_byte};
use std::alloc::Global;

/// Opcodes of the book and of other machines that this language doesn't have.
const FOREIGN: [&[u8]; 31] = [
    b"div", b"divI", b"rsubI", b"rdivI", b"and", b"andI", b"or", b"orI", b"xor", b"xorI", b"not",
    b"neg", b"loadAO", b"storeAO", b"cloadAI", b"cload", b"cstore", b"i2i", b"c2c", b"c2i", b"i2c",
    b"cbr", b"jump", b"jumpI", b"tbl", b"phi", b"halt", b"cmp_LT", b"cmp_EQ", b"mul", b"mov",
];

/// What is wanted where a register may be.
const REGISTER: &[u8] = b"a register";

/// What is advised where the book has its own register and addresses.
const BOOK_ADVICE: &[u8] =
    b": for rarp and @x write r0 or a register, and a number, as in examples/book.iloc";

/// What is said of a number that is too large.
pub const ABOVE_LIMIT: &[u8] = b"a number above 2147483647";

/// The digits of a byte's number.
const HEX_DIGITS: [u8; 16] = *b"0123456789ABCDEF";

/// The longest part of a word that is shown.
const MOST_QUOTED: usize = 24;

/// The opcode that is written so.
pub fn opcode_of(word: &[u8]) -> Option<Opcode> {
    OPCODES.iter().copied().find(|opcode| opcode.text() == word)
}

/// Whether one of the two, but for the case of letters, is the other with one byte more at its end.
fn is_near(word: &[u8], text: &[u8]) -> bool {
    match (word, text) {
        ([front @ .., _], _) if front.eq_ignore_ascii_case(text) => true,
        (_, [front @ .., _]) => word.len() > 1 && word.eq_ignore_ascii_case(front),
        _ => false,
    }
}

/// The opcode that may be meant: one that differs in the case of letters alone, else one that is near.
fn meant_by(word: &[u8]) -> Option<Opcode> {
    if let Some(opcode) = OPCODES
        .iter()
        .copied()
        .find(|opcode| word.eq_ignore_ascii_case(opcode.text()))
    {
        return Some(opcode);
    }
    OPCODES
        .iter()
        .copied()
        .find(|opcode| is_near(word, opcode.text()))
}

/// Appends the start of a text in quotes.
fn push_quoted(what: &mut Vec<u8>, text: &[u8]) -> Result<(), NoMemory> {
    what.push(b'"')?;
    push_shown(what, &text[..text.len().min(MOST_QUOTED)])?;
    if text.len() > MOST_QUOTED {
        what.extend_from_slice(b"..")?;
    }
    what.push(b'"')?;
    Ok(())
}

/// Where the word starts that goes on at a place; the place itself where none does.
fn word_start(line: &[u8], at: usize) -> usize
    requires { at ≤ length line.now }
    ensures { result ≤ at }
{
    let mut start = at;
    while start > 0 && is_word_byte(line[start - 1]) {
        start -= 1;
    }
    start
}

/// Appends a byte that can't be printed, by its number.
fn push_byte(what: &mut Vec<u8>, byte: u8) -> Result<(), NoMemory> {
    what.extend_from_slice(b"byte 0x")?;
    what.push(HEX_DIGITS[usize::from(byte / 16)])?;
    Ok(what.push(HEX_DIGITS[usize::from(byte % 16)])?)
}

/// Appends what is found at a place: a word, an arrow, a byte, or the end of the line.
fn push_found(what: &mut Vec<u8>, line: &[u8], at: usize) -> Result<(), NoMemory>
    requires { at ≤ length line.now }
{
    what.extend_from_slice(b", found ")?;
    let start = if at > 0 && line[at - 1] == b'/' {
        at - 1
    } else {
        at
    };
    let rest = &line[start..];
    match (word_at(rest), rest) {
        (_, []) => Ok(what.extend_from_slice(b"the end of the line")?),
        (0, [b'=', b'>', ..]) => push_quoted(what, b"=>"),
        (0, [0xef, 0xbb, 0xbf, ..]) => Ok(what.extend_from_slice(b"a byte-order mark")?),
        (0, [first, ..]) if first.is_ascii_graphic() => push_quoted(what, &[*first]),
        (0, [first, ..]) => push_byte(what, *first),
        (count, _) => push_quoted(what, &rest[..count]),
    }
}

/// What is wanted where a line stops.
fn wanted(opcode: Opcode, place: &Place) -> &'static [u8] {
    match (place.part, opcode) {
        (None, _) => b"the end of the line",
        (Some(Part::Comma), _) => b"\",\"",
        (Some(Part::Arrow), _) => b"\"=>\"",
        (Some(Part::Constant), _) | (Some(Part::Space), Opcode::LoadI | Opcode::Output) => {
            b"a number"
        }
        (Some(Part::Register | Part::Space), _) => REGISTER,
    }
}

/// Whether the byte before the place is the first of the part that stops a line.
fn is_begun(place: &Place, before: u8) -> bool {
    match place.part {
        Some(Part::Register) => before == b'r',
        Some(Part::Arrow) => before == b'=',
        _ => false,
    }
}

/// What is wrong with a word that is no opcode, and what follows it.
fn push_no_opcode(what: &mut Vec<u8>, word: &[u8], after: &[u8]) -> Result<(), NoMemory> {
    if FOREIGN.iter().any(|foreign| *foreign == word) {
        push_shown(what, word)?;
        what.extend_from_slice(b" isn't an operation of this language")?;
        return Ok(());
    }
    what.extend_from_slice(b"no such opcode ")?;
    push_quoted(what, word)?;
    let rest = &after[blanks_at(after)..];
    if let [byte, ..] = after
        && !byte.is_ascii_graphic()
        && !is_blank(*byte)
    {
        what.extend_from_slice(b": ")?;
        push_byte(what, *byte)?;
        what.extend_from_slice(b" follows it")?;
    } else if let Some(opcode) = meant_by(word) {
        what.extend_from_slice(b": ")?;
        what.extend_from_slice(opcode.text())?;
        what.extend_from_slice(b"?")?;
    } else if opcode_of(&rest[..word_at(rest)]).is_some() {
        what.extend_from_slice(b": a label ends with \":\"")?;
    }
    Ok(())
}

/// Says what to write for a name of the book that is found, or for a register with a capital letter where one is wanted.
fn push_advice(what: &mut Vec<u8>, wanted: &[u8], found: &[u8]) -> Result<(), NoMemory> {
    match &found[..word_at(found)] {
        b"rarp" => what.extend_from_slice(BOOK_ADVICE)?,
        [] if found.starts_with(b"@") => what.extend_from_slice(BOOK_ADVICE)?,
        [b'R', digits @ ..] if wanted == REGISTER && digits.iter().all(|it| it.is_ascii_digit()) =>
            {
                what.extend_from_slice(b": registers begin with a small r")?;
            }
        _ => {}
    }
    Ok(())
}

/// What is wrong with a register or a number that starts at a place and doesn't go on at another.
fn push_broken_off(what: &mut Vec<u8>, line: &[u8], begun: usize, at: usize) -> Result<(), NoMemory>
    requires { (begun < at) × (at < length line.now) }
{
    if line[at].is_ascii_digit() {
        return Ok(what.extend_from_slice(ABOVE_LIMIT)?);
    }
    let wanted = if line[begun] == b'r' {
        REGISTER
    } else {
        b"a number"
    };
    what.extend_from_slice(b"expected ")?;
    what.extend_from_slice(wanted)?;
    push_found(what, line, begun)?;
    push_advice(what, wanted, &line[begun..])
}

/// What is wrong after an opcode, whose operands start at this place of the line.
fn push_operands(
    what: &mut Vec<u8>,
    opcode: Opcode,
    line: &[u8],
    start: usize,
) -> Result<(), NoMemory>
    requires { start ≤ length line.now }
{
    let place = operands_at(opcode, &line[start..]);
    let at = start + place.at;
    let begun = word_start(line, at);
    if at < line.len() && is_word_byte(line[at]) && begun < at {
        return push_broken_off(what, line, begun, at);
    }
    let wanted = wanted(opcode, &place);
    what.extend_from_slice(b"expected ")?;
    what.extend_from_slice(wanted)?;
    if at > 0 && is_begun(&place, line[at - 1]) {
        return push_found(what, line, at - 1);
    }
    push_found(what, line, at)?;
    push_advice(what, wanted, &line[at..])
}

/// What is wrong with the encoding of a text, if its first line shows it. UTF-16 without a mark shows by two characters of
/// ASCII, or by one that is the whole line: of each two bytes one is 0.
fn encoding_of(first: &[u8]) -> Option<&'static [u8]> {
    match first {
        [0xef, 0xbb, 0xbf, ..] => {
            Some(b"the text begins with a byte-order mark: save it without one")
        }
        [0xff, 0xfe, ..]
        | [0xfe, 0xff, ..]
        | [0, 1..=127]
        | [0, 1..=127, 0, ..]
        | [1..=127, 0]
        | [1..=127, 0, 1..=127, 0, ..] => Some(b"the text is in UTF-16: save it as UTF-8"),
        _ => None,
    }
}

/// What is wrong with the line of this number that has no reading, in words.
pub fn wording(alloc: Global, number: u32, line: &[u8]) -> Result<Vec<u8>, NoMemory> {
    let mut what = Vec::new(alloc);
    if number == 1
        && let Some(encoding) = encoding_of(line)
    {
        what.extend_from_slice(encoding)?;
        return Ok(what);
    }
    let label = label_at(line);
    let start = label + blanks_at(&line[label..]);
    let count = word_at(&line[start..]);
    let word = &line[start..start + count];
    if count == 0 {
        what.extend_from_slice(b"expected an operation or \"//\"")?;
        push_found(&mut what, line, place_of(line))?;
    } else if let Some(opcode) = opcode_of(word) {
        push_operands(&mut what, opcode, line, start + count)?;
    } else {
        push_no_opcode(&mut what, word, &line[start + count..])?;
    }
    Ok(what)
}

//! How far a line reads: along the parts of each operation, to the first byte that belongs to none.
ghost use Rattle.std.specs.Prelude.{◌≡◌, ◌≤◌, true, ◌&&◌, length};
ghost use Rattle.std.specs.Char.{is_ascii_digit};
ghost use Rattle.iloc_lint.specs.Place.{IsPlace};
ghost use Rattle.iloc_lint.specs.Steps.Longest.{Called, Longest, NumberAt, PartAt, RegisterAt, Rest, SignAt, alternate, blanks_in, comment_in, common_in, digits_in, label_in, parts, word_in};

use iloc_ops::{MAX_NUMBER, OPCODES, Opcode, Operands, form_of, op_of};
use iloc_text::{is_blank, is_word_byte};

/// A part of an operation after its opcode.
#[derive(Clone, Copy, Drop, PartialEq, Eq)]
pub enum Part {
    /// One blank or more.
    Space,
    /// `,` with any blanks on both sides.
    Comma,
    /// `=>` with any blanks on both sides.
    Arrow,
    /// `r` and a number within the limit.
    Register,
    /// A number within the limit.
    Constant,
}

use Part::{Arrow, Comma, Constant, Register, Space};

/// The parts after an opcode.
pub fn parts_of(opcode: Opcode) -> &'static [Part]
    ensures { result.now ≡ parts opcode }
{
    match form_of(&op_of(opcode, &[])).1 {
        Operands::Nothing => &[],
        Operands::Constant(_) => &[Space, Constant],
        Operands::Immediate(..) => &[Space, Constant, Arrow, Register],
        Operands::Copied(..) | Operands::Stored(..) => &[Space, Register, Arrow, Register],
        Operands::Sources(..) => &[Space, Register, Comma, Register, Arrow, Register],
        Operands::WithConstant(..) => &[Space, Register, Comma, Constant, Arrow, Register],
        Operands::StoredAt(..) => &[Space, Register, Arrow, Register, Comma, Constant],
    }
}

/// How many blanks are at the front.
pub fn blanks_at(bytes: &[u8]) -> usize
    ensures count { result ≡ blanks_in bytes.now }
    ensures within { result ≤ length bytes.now }
{
    let mut rest = bytes;
    while let [first, after @ ..] = rest
        && is_blank(*first)
    {
        rest = after;
    }
    bytes.len() - rest.len()
}

/// How many letters, digits and underscores are at the front.
pub fn word_at(bytes: &[u8]) -> usize
    ensures count { result ≡ word_in bytes.now }
    ensures within { result ≤ length bytes.now }
{
    let mut rest = bytes;
    while let [first, after @ ..] = rest
        && is_word_byte(*first)
    {
        rest = after;
    }
    bytes.len() - rest.len()
}

/// How many digits of a number within the limit are at the front.
fn digits_at(bytes: &[u8]) -> usize
    ensures count { result ≡ digits_in 0 bytes.now }
    ensures within { result ≤ length bytes.now }
{
    let mut value = 0;
    let mut rest = bytes;
    while let [digit, after @ ..] = rest
        && digit.is_ascii_digit()
    {
        value = value * 10 + u64::from(*digit - b'0');
        if value > u64::from(MAX_NUMBER) {
            break;
        }
        rest = after;
    }
    bytes.len() - rest.len()
}

/// How many bytes at the front the two have in common.
fn common(text: &[u8], bytes: &[u8]) -> usize
    ensures count { result ≡ common_in text.now bytes.now }
    ensures inside { result ≤ length bytes.now }
    ensures within { result ≤ length text.now }
{
    let mut left = text;
    let mut rest = bytes;
    while let [own, others @ ..] = left
        && let [first, after @ ..] = rest
        && *first == *own
    {
        left = others;
        rest = after;
    }
    bytes.len() - rest.len()
}

/// As `digits_at`, and whether they are the whole number.
fn number_at(bytes: &[u8]) -> (usize, bool)
    ensures number { NumberAt bytes.now result.0 result.1 }
    ensures within { result.0 ≤ length bytes.now }
{
    let count = digits_at(bytes);
    let goes_on = match &bytes[count..] {
        [next, ..] => next.is_ascii_digit(),
        [] => false,
    };
    (count, count > 0 && !goes_on)
}

/// How many bytes at the front belong to a register, and whether they are all of it.
fn register_at(bytes: &[u8]) -> (usize, bool)
    ensures register { RegisterAt bytes.now result.0 result.1 }
    ensures within { result.0 ≤ length bytes.now }
{
    let [b'r', digits @ ..] = bytes else {
        return (0, false);
    };
    let (count, whole) = number_at(digits);
    (count + 1, whole)
}

/// How many bytes at the front belong to a sign with any blanks on both sides, and whether they are all of it.
fn sign_at(sign: &[u8], bytes: &[u8]) -> (usize, bool)
    ensures sign { SignAt sign.now bytes.now result.0 result.1 }
    ensures within { result.0 ≤ length bytes.now }
{
    let before = blanks_at(bytes);
    let rest = &bytes[before..];
    let count = common(sign, rest);
    if count < sign.len() {
        return (before + count, false);
    }
    (before + (count + blanks_at(&rest[count..])), true)
}

/// How many bytes at the front belong to the part, and whether they are all of it.
pub fn part_at(part: Part, bytes: &[u8]) -> (usize, bool)
    ensures part { PartAt part bytes.now result.0 result.1 }
    ensures within { result.0 ≤ length bytes.now }
{
    match part {
        Space => {
            let count = blanks_at(bytes);
            (count, count > 0)
        }
        Comma => sign_at(b",", bytes),
        Arrow => sign_at(b"=>", bytes),
        Register => register_at(bytes),
        Constant => number_at(bytes),
    }
}

/// How many bytes at the front belong to a comment.
fn comment_at(bytes: &[u8]) -> usize
    ensures count { result ≡ comment_in bytes.now }
    ensures within { result ≤ length bytes.now }
{
    match bytes {
        [b'/', b'/', ..] => bytes.len(),
        [b'/', ..] => 1,
        _ => 0,
    }
}

/// How far bytes read, and what is wanted there.
#[derive(Clone, Copy, Drop)]
pub struct Place {
    /// How many bytes read.
    pub at: usize,
    /// The part that stops them; none where a comment or the end would go on.
    pub part: Option<Part>,
}

/// How far the bytes go along the parts, blanks and a comment.
fn along(parts: &[Part], bytes: &[u8]) -> Place
    requires { alternate parts.now ≡ true }
    ensures { Longest (Rest parts.now) bytes.now result.at }
{
    let mut at = 0;
    for part in parts {
        let (count, whole) = part_at(*part, &bytes[at..]);
        at += count;
        if !whole {
            return Place {
                at,
                part: Some(*part),
            };
        }
    }
    at += blanks_at(&bytes[at..]);
    Place {
        at: at + comment_at(&bytes[at..]),
        part: None,
    }
}

/// How far the bytes after an opcode go along its operands.
pub fn operands_at(opcode: Opcode, bytes: &[u8]) -> Place
    ensures { Longest (Rest (parts opcode)) bytes.now result.at }
{
    along(parts_of(opcode), bytes)
}

/// How far the bytes go along an operation with this opcode.
fn operation_at(opcode: Opcode, bytes: &[u8]) -> usize
    ensures { Longest (Called opcode) bytes.now result }
{
    let text = opcode.text();
    let count = common(text, bytes);
    if count < text.len() {
        count
    } else {
        count + operands_at(opcode, &bytes[count..]).at
    }
}

/// How many bytes at the front are blanks and a label; 0 where there is none.
pub fn label_at(line: &[u8]) -> usize
    ensures count { result ≡ label_in line.now }
    ensures within { result ≤ length line.now }
{
    let start = blanks_at(line);
    let name = &line[start..];
    match name {
        [first, ..] if first.is_ascii_alphabetic() => {
            let word = word_at(name);
            let end = word + blanks_at(&name[word..]);
            match &name[end..] {
                [b':', ..] => start + end + 1,
                _ => 0,
            }
        }
        _ => 0,
    }
}

/// How far the line reads.
pub fn place_of(line: &[u8]) -> usize
    ensures { IsPlace line.now result }
{
    let label = label_at(line);
    let start = label + blanks_at(&line[label..]);
    let bytes = &line[start..];
    let mut most = comment_at(bytes);
    for opcode in OPCODES {
        most = most.max(operation_at(opcode, bytes));
    }
    start + most
}

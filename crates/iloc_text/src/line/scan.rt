//! The tokens of a line. Each function reads one at the front of the bytes and gives what follows it.
ghost use Rattle.std.specs.Prelude.{◌≡◌, ◌≤◌, option_map, length, drop};
ghost use Rattle.iloc_text.specs.Grammar.{is_blank, is_word_byte};
ghost use Rattle.iloc_text.specs.Steps.Scan.{after_blanks, some_blanks_at, arrow_at, comma_at, after_word, word_of};

use crate::line::fast_path::word_from;
use iloc_ops::MAX_NUMBER;

/// The least number above the limit. While a line is scanned it represents every such number.
pub const ABOVE_LIMIT: u32 = MAX_NUMBER + 1;

/// Promise: whether a byte is a space, a tab or a carriage return.
#[inline(always)]
pub fn is_blank(byte: u8) -> bool
    ensures { result ≡ is_blank byte }
{
    byte == b' ' || byte == b'\t' || byte == b'\r'
}

/// How many of the first eight bytes are spaces before one that isn't; 0 of fewer bytes. Where each is tested by itself, `run`
/// executes 10 % more instructions for an indented text, and mispredicts a branch more for each operation.
#[inline(always)]
fn count_spaces(bytes: &[u8]) -> usize
    ensures passed { after_blanks (drop result bytes.now) ≡ after_blanks bytes.now }
    ensures inside { result ≤ length bytes.now }
{
    if bytes.len() < 8 {
        return 0;
    }
    let others = word_from(bytes, 0) ^ 0x2020_2020_2020_2020;
    (others.trailing_zeros() >> 3) as usize
}

/// As `after_blanks`, out of the way of bytes without blanks at the front.
#[inline(never)]
fn after_all_blanks(bytes: &[u8]) -> &[u8]
    ensures { result.now ≡ after_blanks bytes.now }
{
    let mut rest = &bytes[count_spaces(bytes)..];
    while let [first, after @ ..] = rest
        && is_blank(*first)
    {
        rest = after;
    }
    rest
}

/// The bytes after the blanks at the front.
#[inline(always)]
pub fn after_blanks(bytes: &[u8]) -> &[u8]
    ensures { result.now ≡ after_blanks bytes.now }
{
    match bytes {
        [first, ..] if is_blank(*first) => after_all_blanks(bytes),
        _ => bytes,
    }
}

/// The bytes after one blank or more.
#[inline(always)]
pub fn some_blanks_at(bytes: &[u8]) -> Option<&[u8]>
    ensures { option_map (λ rest. rest.now) result ≡ some_blanks_at bytes.now }
{
    let [first, after @ ..] = bytes else {
        return None;
    };
    if is_blank(*first) {
        Some(after_blanks(after))
    } else {
        None
    }
}

/// `=>` with any blanks on both sides.
pub fn arrow_at(bytes: &[u8]) -> Option<&[u8]>
    ensures { option_map (λ rest. rest.now) result ≡ arrow_at bytes.now }
{
    match after_blanks(bytes) {
        [b'=', b'>', after @ ..] => Some(after_blanks(after)),
        _ => None,
    }
}

/// `,` with any blanks on both sides.
#[inline(always)]
pub fn comma_at(bytes: &[u8]) -> Option<&[u8]>
    ensures { option_map (λ rest. rest.now) result ≡ comma_at bytes.now }
{
    if let [b',', after @ ..] = bytes {
        return Some(after_blanks(after));
    }
    match after_blanks(bytes) {
        [b',', after @ ..] => Some(after_blanks(after)),
        _ => None,
    }
}

/// Promise: whether a byte is a letter, a digit or an underscore.
pub fn is_word_byte(byte: u8) -> bool
    ensures { result ≡ is_word_byte byte }
{
    byte.is_ascii_alphanumeric() || byte == b'_'
}

/// The bytes after the letters, digits and underscores at the front.
fn after_word(bytes: &[u8]) -> &[u8]
    ensures rest { result.now ≡ after_word bytes.now }
    ensures shorter { length result.now ≤ length bytes.now }
{
    let mut rest = bytes;
    while let [first, after @ ..] = rest
        && is_word_byte(*first)
    {
        rest = after;
    }
    rest
}

/// The letters, digits and underscores at the front, of which there may be none, and what follows them.
pub fn word_at(bytes: &[u8]) -> (&[u8], &[u8])
    ensures word { result.0.now ≡ word_of bytes.now }
    ensures rest { result.1.now ≡ after_word bytes.now }
{
    let rest = after_word(bytes);
    (&bytes[..bytes.len() - rest.len()], rest)
}

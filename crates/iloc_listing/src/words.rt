//! Emitted words, each on a line of its own.
ghost use Rattle.std.specs.Prelude.{◌≡◌, ◌≤◌, ◌+◌, ◌*◌, ◌++◌, drop, length, OnOk};
ghost use Rattle.std.specs.List.{flat_map};
ghost use Rattle.iloc_listing.specs.Listing.{word_line};
ghost use Rattle.iloc_listing.specs.declared.words.TheConstants.{LONGEST_LINE, WORDS_AT_ONCE};

use iloc_ops::NoMemory;
use itoa::write_digits;

/// A word takes at most this many bytes: a sign, ten digits and the line end.
const LONGEST_LINE: usize = 12;

/// This many lines are written before they are appended together.
const WORDS_AT_ONCE: usize = 16;

/// Writes `word` and a line end so that they end at `end`, and gives where they start.
#[inline(always)]
#[tactic(auto, using(crate::proofs::Numbers::word_is_short))]
fn write_line(lines: &mut [u8], end: usize, word: i32) -> usize
    requires { (LONGEST_LINE ≤ end) × (end ≤ length lines.old) }
    ensures space { (result ≤ end) × (end ≤ result + LONGEST_LINE) }
    ensures length { length lines.new ≡ length lines.old }
    ensures written { drop result lines.new ≡ word_line word ++ drop end lines.old }
{
    lines[end - 1] = b'\n';
    let start = write_digits(u64::from(word.unsigned_abs()), lines, end - 1);
    if word >= 0 {
        return start;
    }
    lines[start - 1] = b'-';
    start - 1
}

/// Writes a line for each of `words`, the last one first, and gives where they start.
fn write_lines(lines: &mut [u8], words: &[i32]) -> usize
    requires { length words.now * LONGEST_LINE ≤ length lines.old }
    ensures space { result ≤ length lines.new }
    ensures length { length lines.new ≡ length lines.old }
    ensures written { drop result lines.new ≡ flat_map word_line words.now }
{
    let mut start = lines.len();
    let mut left = words.len();
    while left > 0 {
        left -= 1;
        start = write_line(lines, start, words[left]);
    }
    start
}

/// Appends each of `words` on a line of its own.
pub(crate) fn push_words(text: &mut Vec<u8>, words: &[i32]) -> Result<(), NoMemory>
    ensures { OnOk result (text.new.items ≡ text.old.items ++ flat_map word_line words.now) }
{
    let mut lines = [0; WORDS_AT_ONCE * LONGEST_LINE];
    let mut rest = words;
    while !rest.is_empty() {
        let (some, after) = rest.split_at(rest.len().min(WORDS_AT_ONCE));
        let start = write_lines(&mut lines, some);
        text.extend_from_slice(&lines[start..])?;
        rest = after;
    }
    Ok(())
}

//! The words of sets of ranks.
ghost use Rattle.std.specs.Prelude.{ℕ, ◌≡◌, ◌≢◌, ◌+◌, ◌*◌, ◌/◌, ◌%◌, ◌<◌, ◌≤◌, length, slice_index, OnOk, OnErr};
ghost use Rattle.std.specs.Int.{bit_at, trailing_zeros, w64};
ghost use Rattle.iloc_sched.specs.Steps.Cycle.RankSets.{word_at, AddsBit, TakesBit, MovesAt, HoldsBits, IsFirstBit, IsFirstWithin, IsSearched, NotesMoved, open_bit};

use crate::cycle::calendar::{KEPT_OUT, READY, SETS};
use iloc_ops::NoMemory;

/// Makes `words` a list of `count` zeros.
pub fn fill_zeros(words: &mut Vec<u64>, count: usize) -> Result<(), NoMemory>
    ensures zero { (i : ℕ) → slice_index words.new.items i ≡ 0 }
    ensures size { OnOk result (length words.new.items ≡ count) }
    ensures none { OnErr result (length words.new.items ≡ 0) }
{
    words.clear();
    Ok(words.resize(count, 0)?)
}

/// Adds a rank to a set if the condition holds. It takes no branch.
#[inline(always)]
pub fn add_if(words: &mut [u64], condition: bool, set: usize, rank: usize)
    requires set { set < 37 }
    requires there { rank / 64 * 37 + set < length words.old }
    ensures { AddsBit words.old words.new condition set rank }
{
    words[rank / 64 * SETS + set] |= u64::from(condition) << (rank % 64);
}

/// Takes a rank out of a set if the condition holds. It takes no branch.
#[inline(always)]
pub fn take_out_if(words: &mut [u64], condition: bool, set: usize, rank: usize)
    requires set { set < 37 }
    requires there { rank / 64 * 37 + set < length words.old }
    ensures { TakesBit words.old words.new condition set rank }
{
    words[rank / 64 * SETS + set] &= !(u64::from(condition) << (rank % 64));
}

/// Moves a word of a bucket to what is ready.
#[inline(always)]
pub fn move_word(words: &mut [u64], word: usize, bucket: usize)
    requires bucket { bucket < 32 }
    requires there { word * 37 + 37 ≤ length words.old }
    ensures moved { MovesAt words.old words.new bucket word }
    ensures others { (s w : ℕ) → s < 37 → (w ≡ word → (s ≢ 32) × (s ≢ bucket)) → word_at words.new s w ≡ word_at words.old s w }
    ensures size { length words.new ≡ length words.old }
{
    words[word * SETS + READY] |= words[word * SETS + bucket];
    words[word * SETS + bucket] = 0;
}

/// Moves the first of the words that are left of a block, and answers which are left then.
#[inline(always)]
fn move_next(words: &mut [u64], left: u64, block: usize, bucket: usize) -> u64
    requires bucket { bucket < 32 }
    requires there { (block * 64 + trailing_zeros w64 left % 64) * 37 + 37 ≤ length words.old }
    ensures moved { MovesAt words.old words.new bucket (block * 64 + trailing_zeros w64 left % 64) }
    ensures others { (s w : ℕ) → s < 37 → (w ≡ block * 64 + trailing_zeros w64 left % 64 → (s ≢ 32) × (s ≢ bucket))
        → word_at words.new s w ≡ word_at words.old s w }
    ensures size { length words.new ≡ length words.old }
    ensures less { 0 < left → result < left }
    ensures most { result ≤ left }
    ensures gone { bit_at result (trailing_zeros w64 left % 64) ≡ 0 }
    ensures stays { (i : ℕ) → i < 64 → i ≢ trailing_zeros w64 left % 64 → bit_at result i ≡ bit_at left i }
{
    let low = left.trailing_zeros() % 64;
    move_word(words, block * 64 + low as usize, bucket);
    left & !(1 << low)
}

/// Moves the words of a block from a bucket to what is ready. Whether there is any is seldom predicted (a test costs 0.2
/// mispredicted branches for each operation), and to move an empty word changes nothing, so the first step is untested.
#[inline(always)]
pub fn move_words(words: &mut [u64], some: u64, block: usize, bucket: usize)
    requires bucket { bucket < 32 }
    requires block { block * 64 * 37 + 37 ≤ length words.old }
    requires there { HoldsBits words.old some block }
    requires summary { (w : ℕ) → w / 64 ≡ block → bit_at some (w % 64) ≡ 0 → word_at words.old bucket w ≡ 0 }
    ensures moved { (w : ℕ) → w / 64 ≡ block → MovesAt words.old words.new bucket w }
    ensures others { (s w : ℕ) → s < 37 → (w / 64 ≡ block → (s ≢ 32) × (s ≢ bucket)) → word_at words.new s w ≡ word_at words.old s w }
    ensures size { length words.new ≡ length words.old }
{
    let mut left = move_next(words, some, block, bucket);
    while left != 0 {
        left = move_next(words, left, block, bucket);
    }
}

/// In the summary: the words of a bucket may have what is ready and not kept out now, whatever the class.
#[inline(always)]
pub fn move_summary(summary: &mut [u64], some: u64, block: usize, bucket: usize)
    requires bucket { bucket < 32 }
    requires there { block * 37 + 37 ≤ length summary.old }
    ensures { NotesMoved summary.old summary.new some block bucket 4 }
{
    summary[block * SETS + bucket] = 0;
    for class in 0..4 {
        summary[block * SETS + (KEPT_OUT + class)] |= some;
    }
}

/// The first bit of what is ready that isn't kept out.
#[inline(always)]
fn first_bit(ready: u64, kept_out: u64) -> Option<u32>
    ensures { IsFirstBit ready kept_out result }
{
    let open = ready & !kept_out;
    if open == 0 {
        None
    } else {
        Some(open.trailing_zeros())
    }
}

/// The first rank of a word that is ready and that an operation of the class at this place doesn't keep out.
#[inline(always)]
pub fn first_of_word(words: &[u64], word: usize, beside: usize) -> Option<u32>
    requires beside { beside < 4 }
    requires few { word < 1000 }
    requires there { word * 37 + 37 ≤ length words.now }
    ensures { IsFirstWithin words.now beside (λ r. r / 64 ≡ word) result }
{
    let bit = first_bit(
        words[word * SETS + READY],
        words[word * SETS + KEPT_OUT + beside],
    )?;
    Some(word as u32 * 64 + bit)
}

/// The first of a block, of whose words `some` says which may have any. Says also which may have any still.
#[inline(always)]
pub fn first_of_block(words: &[u64], some: u64, block: usize, beside: usize) -> (Option<u32>, u64)
    requires beside { beside < 4 }
    requires few { block < 10 }
    requires there { HoldsBits words.now some block }
    requires summary { (r : ℕ) → r / 64 / 64 ≡ block → bit_at some (r / 64 % 64) ≡ 0 → open_bit words.now beside r ≡ 0 }
    ensures first { IsFirstWithin words.now beside (λ r. r / 64 / 64 ≡ block) result.0 }
    ensures searched { IsSearched words.now beside block some result.1 }
{
    let mut left = some;
    while left != 0 {
        let low = left.trailing_zeros() % 64;
        if let Some(rank) = first_of_word(words, block * 64 + low as usize, beside) {
            return (Some(rank), left);
        }
        left &= !(1 << low);
    }
    (None, left)
}

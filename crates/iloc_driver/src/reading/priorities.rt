//! Reading the numbers by which somebody ranks the operations of blocks: a line for each block, with blanks between.
ghost use Rattle.std.specs.Prelude.{◌≡◌, ◌≢◌, ◌≤◌, ◌<◌, List, [], ◌∷◌, Ok, Err, Some, map, length, option_copied, IfErr, IfOk, IfSome, MatchOption, ℕ};
ghost use Rattle.std.specs.List.{after_first, before_first, list_all};
ghost use Rattle.iloc_text.specs.Files.{AreWithinLimits};
ghost use Rattle.iloc_text.specs.Grammar.{is_blank};
ghost use Rattle.iloc_text.specs.Lines.{is_line_end};
ghost use Rattle.iloc_rules.specs.Renaming.{without_nops};
ghost use Rattle.iloc_driver.specs.Priorities.{AreFor, is_space, number_after, numbers_for, own_of, priorities_from, priorities_in, words_of};
ghost use Rattle.iloc_driver.specs.Steps.Ranked.{is_no_blank, without};
ghost use Rattle.iloc_driver.specs.declared.fault.NumbersFault.TheVariants.{NoMemory as no_memory};

use crate::fault::{NumbersFault, Word};
use iloc_ops::{Block, MAX_INPUT, Op};
use iloc_text::is_blank;
use memchr::memchr;
use std::alloc::Global;
use std::marker::Model;

/// The numbers that rank the operations of a file's blocks, if they are somebody's own.
#[derive(Drop)]
pub struct Priorities(Option<Vec<Vec<u32>>>);

impl Model for Priorities {
    ghost use Rattle.std.specs.Prelude.{map, option_map};
    ghost use Rattle.iloc_driver.specs.Priorities.{Own};

    ghost Value = { Own };

    ghost view = { λ p. option_map (λ all. map (λ numbers. numbers.items) all.items) p.0 };
}

impl Priorities {
    ghost use Rattle.std.specs.Prelude.{None};

    /// There are none.
    pub(crate) fn none() -> Priorities
        ensures { result ≡ None }
    {
        Priorities(None)
    }

    /// The priorities that `text` has for `blocks`.
    #[tactic(auto, using(crate::proofs::Priorities::are_for))]
    pub(crate) fn read(
        alloc: Global,
        text: &[u8],
        blocks: &[Block],
    ) -> Result<Priorities, NumbersFault>
        requires { AreWithinLimits blocks.now }
        ensures ok { IfOk result (λ own. (numbers : List (List ℕ)) × (own ≡ Some numbers)
            × (priorities_in text.now blocks.now ≡ Ok numbers)) }
        ensures each { IfOk result (λ own. AreFor own blocks.now) }
        ensures err { IfErr result (λ fault. fault ≢ no_memory → priorities_in text.now blocks.now ≡ Err fault) }
    {
        if text.len() > MAX_INPUT {
            return Err(NumbersFault::TooLong);
        }
        Ok(Priorities(Some(numbers_of_all(alloc, text, blocks)?)))
    }

    /// The priorities of block `number`, counted from 1.
    pub(crate) fn of(&self, number: usize) -> Option<&[u32]>
        requires { 1 ≤ number }
        ensures { option_copied result ≡ own_of self.now number }
    {
        match &self.0 {
            Some(all) => match all.get(number - 1) {
                Some(numbers) => Some(numbers.as_slice()),
                None => None,
            },
            None => None,
        }
    }
}

/// The numbers that `text` has for `blocks`.
#[tactic(auto, using(crate::proofs::Priorities::all_read, crate::proofs::Priorities::more_left))]
fn numbers_of_all(
    alloc: Global,
    text: &[u8],
    blocks: &[Block],
) -> Result<Vec<Vec<u32>>, NumbersFault>
    requires { AreWithinLimits blocks.now }
    ensures ok { IfOk result (λ all.
        priorities_from 1 blocks.now text.now ≡ Ok (map (λ numbers. numbers.items) all.items)) }
    ensures err { IfErr result (λ fault. fault ≢ no_memory → priorities_from 1 blocks.now text.now ≡ Err fault) }
{
    let mut all = Vec::new(alloc);
    let mut rest = text;
    while all.len() < blocks.len() {
        let (line, after) = split_line(rest);
        let operations = count_of(blocks[all.len()].ops.as_slice());
        let number = all.len() as u32 + 1;
        all.push(numbers_of(alloc, line, number, operations)?)?;
        rest = after;
    }
    if are_spaces(rest) {
        return Ok(all);
    }
    let block = blocks.len() as u32 + 1;
    Err(NumbersFault::NoBlock { block })
}

/// The numbers of `line`, which are one for each of the `operations` operations of `block`.
#[tactic(auto, using(crate::proofs::Priorities::next_number, crate::proofs::Priorities::no_number, crate::proofs::Priorities::all_numbers))]
fn numbers_of(
    alloc: Global,
    line: &[u8],
    block: u32,
    operations: usize,
) -> Result<Vec<u32>, NumbersFault>
    ensures ok { IfOk result (λ found. numbers_for block operations (words_of line.now) ≡ Ok found.items) }
    ensures err { IfErr result (λ fault. fault ≢ no_memory → numbers_for block operations (words_of line.now) ≡ Err fault) }
{
    let numbers = count_words(line);
    if numbers != operations {
        return Err(NumbersFault::OtherCount {
            block,
            operations,
            numbers,
        });
    }
    let mut found = Vec::new(alloc);
    let mut rest = line;
    while let Some((word, after)) = first_word(rest) {
        let Some(number) = number_in(word) else {
            let word = Word::of(word);
            return Err(NumbersFault::NotANumber { block, word });
        };
        found.push(number)?;
        rest = after;
    }
    Ok(found)
}

/// The number that `word` writes.
#[tactic(auto, using(crate::proofs::Priorities::too_large))]
fn number_in(word: &[u8]) -> Option<u32>
    ensures { result ≡ number_after 0 word.now }
{
    let mut number = 0;
    let mut rest = word;
    while let [digit, after @ ..] = rest {
        if !digit.is_ascii_digit() || number > u64::from(u32::MAX) {
            return None;
        }
        number = number * 10 + u64::from(*digit - b'0');
        rest = after;
    }
    if number > u64::from(u32::MAX) {
        return None;
    }
    Some(number as u32)
}

/// How many words `line` has.
fn count_words(line: &[u8]) -> usize
    ensures { result ≡ length (words_of line.now) }
{
    let mut count = 0;
    let mut rest = line;
    while let Some((_, after)) = first_word(rest) {
        count += 1;
        rest = after;
    }
    count
}

/// The first word of `line`, and what follows it, if it has one.
#[tactic(auto, using(crate::proofs::Splitting::no_word, crate::proofs::Splitting::word_found, crate::proofs::Splitting::word_shorter))]
fn first_word(line: &[u8]) -> Option<(&[u8], &[u8])>
    ensures words { MatchOption result (words_of line.now ≡ [])
        (λ both. words_of line.now ≡ both.0.now ∷ words_of both.1.now) }
    ensures shorter { IfSome result (λ both. length both.1.now < length line.now) }
{
    let rest = without_blanks(line);
    if rest.is_empty() {
        return None;
    }
    let after = without_word(rest);
    Some((&rest[..rest.len() - after.len()], after))
}

/// `line` without its leading blanks.
fn without_blanks(line: &[u8]) -> &[u8]
    ensures rest { result.now ≡ without is_blank line.now }
    ensures short { length result.now ≤ length line.now }
{
    let mut rest = line;
    while let [first, after @ ..] = rest
        && is_blank(*first)
    {
        rest = after;
    }
    rest
}

/// `line` from its first blank on.
fn without_word(line: &[u8]) -> &[u8]
    ensures rest { result.now ≡ without is_no_blank line.now }
    ensures short { length result.now ≤ length line.now }
{
    let mut rest = line;
    while let [first, after @ ..] = rest
        && !is_blank(*first)
    {
        rest = after;
    }
    rest
}

/// How many of these operations are no `nop`s.
fn count_of(ops: &[Op]) -> usize
    ensures count { result ≡ length (without_nops ops.now) }
    ensures few { result ≤ length ops.now }
{
    let mut count = 0;
    let mut rest = ops;
    while let [op, after @ ..] = rest {
        if !matches!(op, Op::Nop) {
            count += 1;
        }
        rest = after;
    }
    count
}

/// The first line, and what follows it.
fn split_line(text: &[u8]) -> (&[u8], &[u8])
    ensures line { result.0.now ≡ before_first is_line_end text.now }
    ensures after { result.1.now ≡ after_first is_line_end text.now }
{
    match memchr(b'\n', text) {
        Some(end) => (&text[..end], &text[end + 1..]),
        None => (text, &[]),
    }
}

/// Whether `text` has blanks and line ends alone.
fn are_spaces(text: &[u8]) -> bool
    ensures { result ≡ list_all is_space text.now }
{
    text.iter().all(|byte| is_blank(*byte) || *byte == b'\n')
}

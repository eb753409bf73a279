//! What is known of a result, by what is known of the operands.
ghost use Rattle.std.specs.Prelude.{◌≡◌, ◌*ℤ◌};
ghost use Rattle.iloc_meaning.specs.Arithmetic.{wrapped, shifted_left as shifted_to_the_left, shifted_right as shifted_to_the_right};
ghost use Rattle.iloc_rules.specs.Apart as meant;
ghost use Rattle.iloc_addresses.specs.Steps.Dependences as seen;
ghost use Rattle.iloc_addresses.specs.Steps.Successors as counted;

use iloc_meaning::arithmetic;
use iloc_rules::Word;

/// The result of operation i, of which nothing else is known.
pub(crate) fn own(i: u32) -> Word
    ensures { result ≡ meant.own i }
{
    Word::Based(i, 0)
}

/// A word with a constant added.
pub(crate) fn plus(word: Word, constant: i32) -> Word
    ensures { result ≡ meant.plus word constant }
{
    match word {
        Word::Known(c) => Word::Known(arithmetic::sum(c, constant)),
        Word::Based(base, c) => Word::Based(base, arithmetic::sum(c, constant)),
    }
}

/// The sum of two words, as the result of operation i.
pub(crate) fn sum(i: u32, left: Word, right: Word) -> Word
    ensures { result ≡ meant.sum i left right }
{
    match (left, right) {
        (_, Word::Known(c)) => plus(left, c),
        (Word::Known(c), Word::Based(..)) => plus(right, c),
        (Word::Based(..), Word::Based(..)) => own(i),
    }
}

/// Their difference.
pub(crate) fn difference(i: u32, left: Word, right: Word) -> Word
    ensures { result ≡ meant.difference i left right }
{
    match (left, right) {
        (Word::Known(c), Word::Known(d)) => Word::Known(arithmetic::difference(c, d)),
        (Word::Based(base, c), Word::Known(d)) => Word::Based(base, arithmetic::difference(c, d)),
        (Word::Known(_), Word::Based(..)) => own(i),
        (Word::Based(base, c), Word::Based(other, d)) => {
            if base == other {
                Word::Known(arithmetic::difference(c, d))
            } else {
                own(i)
            }
        }
    }
}

/// Their product.
pub(crate) fn product(i: u32, left: Word, right: Word) -> Word
    ensures { result ≡ meant.folded (λ c d. wrapped (c *ℤ d)) i left right }
{
    match (left, right) {
        (Word::Known(c), Word::Known(d)) => Word::Known(arithmetic::product(c, d)),
        (Word::Known(_), Word::Based(..)) | (Word::Based(..), _) => own(i),
    }
}

/// The first shifted left by the second.
pub(crate) fn shifted_left(i: u32, left: Word, right: Word) -> Word
    ensures { result ≡ meant.folded shifted_to_the_left i left right }
{
    match (left, right) {
        (Word::Known(c), Word::Known(d)) => Word::Known(arithmetic::shifted_left(c, d)),
        (Word::Known(_), Word::Based(..)) | (Word::Based(..), _) => own(i),
    }
}

/// The first shifted right by the second.
pub(crate) fn shifted_right(i: u32, left: Word, right: Word) -> Word
    ensures { result ≡ meant.folded shifted_to_the_right i left right }
{
    match (left, right) {
        (Word::Known(c), Word::Known(d)) => Word::Known(arithmetic::shifted_right(c, d)),
        (Word::Known(_), Word::Based(..)) | (Word::Based(..), _) => own(i),
    }
}

/// Promise: Whether two words differ whatever the result of their base is: they have one base, or none, and two constants.
pub fn are_apart(first: Word, second: Word) -> bool
    ensures { result ≡ meant.are_apart first second }
{
    match (first, second) {
        (Word::Known(c), Word::Known(d)) => c != d,
        (Word::Based(base, c), Word::Based(other, d)) => base == other && c != d,
        (Word::Known(_), Word::Based(..)) | (Word::Based(..), Word::Known(_)) => false,
    }
}

/// The constant of a word.
pub(crate) fn constant_of(word: Word) -> i32
    ensures constant { result ≡ seen.constant_of word }
    ensures short { seen.IsShort result }
{
    match word {
        Word::Known(c) | Word::Based(_, c) => c,
    }
}

/// The base of a word, if it has one.
pub(crate) fn base_of(word: Word) -> Option<u32>
    ensures { result ≡ counted.base_of word }
{
    match word {
        Word::Known(_) => None,
        Word::Based(base, _) => Some(base),
    }
}

/// Whether two words have one base, or both none.
pub(crate) fn have_one_base(first: Word, second: Word) -> bool
    ensures { result ≡ seen.have_one_base first second }
{
    match (first, second) {
        (Word::Known(_), Word::Known(_)) => true,
        (Word::Based(base, _), Word::Based(other, _)) => base == other,
        (Word::Based(..), Word::Known(_)) | (Word::Known(_), Word::Based(..)) => false,
    }
}

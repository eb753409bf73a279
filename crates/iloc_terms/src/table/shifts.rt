//! The shifted words of a table. A shift to the left is a product; shifts to the right by known amounts are one. A term
//! has its amount times 2^27, which is the same for amounts that are apart by a multiple of 32.
ghost use Rattle.std.specs.Prelude.{◌≡◌, ◌≤◌, List, ℤ, pos, ◌*ℤ◌, IfOk, IfSome};
ghost use Rattle.std.specs.Int.{int_shr};
ghost use Rattle.iloc_meaning.specs.Arithmetic.{shift_of, shifted_left, shifted_right, wrapped};
ghost use Rattle.iloc_terms.specs.Steps.Terms.{Adds, Meaning, IsMeaning, base_word, high_bits};

use crate::table::Table;
use crate::table::node::{Binary, Node};
use iloc_meaning::arithmetic;
use iloc_ops::NoMemory;

/// By how many bits a word is shifted to the right at most: what is left then is its sign.
const MOST_BITS: u32 = 31;

/// How many bits of a word are above its five lowest.
const HIGHER_BITS: u32 = 27;

/// Times this a word has its five lowest bits highest, and no others.
const TO_HIGHEST: i32 = 134_217_728;

/// The same as a number without a sign.
const FIRST_HIGH: u32 = 134_217_728;

/// Times this a word is 0 if it has none but its five highest bits.
const PAST_HIGHEST: i32 = 32;

/// A word as `value` shifted to the right by `bits` bits.
#[derive(Clone, Copy)]
struct Shifted {
    value: u32,
    bits: u32,
}

impl Table {
    /// `base` times 2^27, if `base` is a word shifted to the right by 27 bits that has none but its five highest: the word.
    #[tactic(auto, using(crate::proofs::Terms::Shifts::back))]
    fn shifted_back(&mut self, base: Option<u32>) -> Result<Option<u32>, NoMemory>
        ensures { IfOk result (λ value. Adds self.old self.new (λ _ d. IfSome value (λ n.
            d.word n ≡ wrapped (base_word d base *ℤ pos 134217728)))) }
    {
        let Some(some) = base else {
            return Ok(None);
        };
        let from = self.as_shifted(some);
        if from.bits != HIGHER_BITS {
            return Ok(None);
        }
        let lower = self.scaled(from.value, PAST_HIGHEST)?;
        match self.constant(lower) {
            Some(0) => Ok(Some(from.value)),
            _ => Ok(None),
        }
    }

    /// `amount` times 2^27: a shift goes by as many bits as its five highest say.
    fn amount(&mut self, amount: u32) -> Result<u32, NoMemory>
        ensures { IfOk result (λ n. Adds self.old self.new (λ _ d. high_bits (d.word n) ≡ shift_of (d.word amount))) }
    {
        let parts = self.parts(amount);
        match self.shifted_back(parts.base)? {
            Some(word) => self.raised(word, arithmetic::product(parts.constant, TO_HIGHEST)),
            None => self.scaled(amount, TO_HIGHEST),
        }
    }

    /// What the five highest bits of a word say, if they are known.
    fn known_bits(&self, amount: u32) -> Option<u32>
        ensures are { IfSome result (λ bits. (memory : List ℤ) (d : Meaning) → IsMeaning memory self.now d
            → high_bits (d.word amount) ≡ bits) }
        ensures at_most { IfSome result (λ bits. bits ≤ 31) }
    {
        match self.constant(amount) {
            Some(word) => Some(word.cast_unsigned() / FIRST_HIGH),
            None => None,
        }
    }

    /// A word shifted left by a constant modulo 32.
    pub(crate) fn shifted_left_by(&mut self, value: u32, amount: i32) -> Result<u32, NoMemory>
        ensures { IfOk result (λ n. Adds self.old self.new (λ _ d. d.word n ≡ shifted_left (d.word value) amount)) }
    {
        self.scaled(value, arithmetic::shifted_left(1, amount))
    }

    /// A word shifted left by another modulo 32: its product with 1 shifted so.
    pub(crate) fn shifted_left(&mut self, value: u32, amount: u32) -> Result<u32, NoMemory>
        ensures { IfOk result (λ n. Adds self.old self.new (λ _ d.
            d.word n ≡ shifted_left (d.word value) (d.word amount))) }
    {
        let amount = self.amount(amount)?;
        if let Some(bits) = self.known_bits(amount) {
            return self.shifted_left_by(value, bits.cast_signed());
        }
        let one = self.known(1)?;
        let power = self.combined(Binary::ShiftLeft, one, amount)?;
        self.product(value, power)
    }

    /// A word as a shifted one, at least by 0 bits.
    #[tactic(auto, using(crate::proofs::Terms::Shifts::shr_none))]
    fn as_shifted(&self, value: u32) -> Shifted
        ensures is_shifted { (memory : List ℤ) (d : Meaning) → IsMeaning memory self.now d
            → d.word value ≡ int_shr (d.word result.value) result.bits }
        ensures at_most { result.bits ≤ 31 }
    {
        let Some(
            Node::Combined {
                by: Binary::ShiftRight,
                left,
                right,
            },
        ) = self.node(value)
        else {
            return Shifted { value, bits: 0 };
        };
        match self.known_bits(right) {
            Some(bits) => Shifted { value: left, bits },
            None => Shifted { value, bits: 0 },
        }
    }

    /// A word shifted right by a constant modulo 32, the sign kept.
    pub(crate) fn shifted_right_by(&mut self, value: u32, amount: i32) -> Result<u32, NoMemory>
        ensures { IfOk result (λ n. Adds self.old self.new (λ _ d. d.word n ≡ shifted_right (d.word value) amount)) }
    {
        if let Some(word) = self.constant(value) {
            return self.known(arithmetic::shifted_right(word, amount));
        }
        let bits = amount.cast_unsigned() % 32;
        if bits == 0 {
            return Ok(value);
        }
        let shifted = self.as_shifted(value);
        let bits = (shifted.bits + bits).min(MOST_BITS);
        let amount = self.known((bits * FIRST_HIGH).cast_signed())?;
        self.combined(Binary::ShiftRight, shifted.value, amount)
    }

    /// A word shifted right by another modulo 32, the sign kept.
    #[tactic(auto, using(crate::proofs::Terms::Shifts::shr_zero, crate::proofs::Terms::Shifts::shr_ones))]
    pub(crate) fn shifted_right(&mut self, value: u32, amount: u32) -> Result<u32, NoMemory>
        ensures { IfOk result (λ n. Adds self.old self.new (λ _ d.
            d.word n ≡ shifted_right (d.word value) (d.word amount))) }
    {
        let amount = self.amount(amount)?;
        if let Some(bits) = self.known_bits(amount) {
            return self.shifted_right_by(value, bits.cast_signed());
        }
        match self.constant(value) {
            Some(0 | -1) => Ok(value),
            _ => self.combined(Binary::ShiftRight, value, amount),
        }
    }
}

//! The words of a table, in a normal form: a constant, a base, or a base and a constant together. A base is a
//! sum of terms; products name the lower number first.
ghost use Rattle.std.specs.Prelude.{◌≡◌, List, ℤ, ◌+ℤ◌, ◌-ℤ◌, ◌*ℤ◌, IfOk, IfSome};
ghost use Rattle.iloc_meaning.specs.Arithmetic.{wrapped};
ghost use Rattle.iloc_terms.specs.Steps.Terms.{computed, Adds, Meaning, IsMeaning, ArePartsOf};

use crate::table::Table;
use crate::table::node::{Binary, Node};
use iloc_meaning::arithmetic;
use iloc_ops::NoMemory;

/// A word as the sum of a base and a constant, wrapped to 32 bits; with no base, as the constant.
#[derive(Clone, Copy)]
pub(crate) struct Parts {
    pub(crate) base: Option<u32>,
    pub(crate) constant: i32,
}

impl Table {
    /// The parts of a word.
    pub(crate) fn parts(&self, number: u32) -> Parts
        ensures { (memory : List ℤ) (d : Meaning) → IsMeaning memory self.now d
            → ArePartsOf d number result.base result.constant }
    {
        match self.node(number) {
            Some(Node::Known(constant)) => Parts {
                base: None,
                constant,
            },
            Some(Node::Offset { base, constant }) => Parts {
                base: Some(base),
                constant,
            },
            _ => Parts {
                base: Some(number),
                constant: 0,
            },
        }
    }

    /// The constant that a word is, if it is known to be one.
    pub(super) fn constant(&self, number: u32) -> Option<i32>
        ensures { IfSome result (λ word. (memory : List ℤ) (d : Meaning) → IsMeaning memory self.now d
            → d.word number ≡ word) }
    {
        match self.node(number) {
            Some(Node::Known(word)) => Some(word),
            _ => None,
        }
    }

    /// This word.
    pub(crate) fn known(&mut self, word: i32) -> Result<u32, NoMemory>
        ensures { IfOk result (λ n. Adds self.old self.new (λ _ d. d.word n ≡ word)) }
    {
        self.intern(Node::Known(word))
    }

    /// What an operation makes of two words.
    pub(super) fn combined(&mut self, by: Binary, left: u32, right: u32) -> Result<u32, NoMemory>
        ensures { IfOk result (λ n. Adds self.old self.new (λ _ d.
            d.word n ≡ computed by (d.word left) (d.word right))) }
    {
        self.intern(Node::Combined { by, left, right })
    }

    /// The word with the parts `base` and `constant`.
    pub(super) fn of_parts(&mut self, base: Option<u32>, constant: i32) -> Result<u32, NoMemory>
        ensures { IfOk result (λ n. Adds self.old self.new (λ _ d. ArePartsOf d n base constant)) }
    {
        match base {
            None => self.known(constant),
            Some(base) if constant == 0 => Ok(base),
            Some(base) => self.intern(Node::Offset { base, constant }),
        }
    }

    /// The sum of a word and a constant.
    pub(crate) fn raised(&mut self, number: u32, by: i32) -> Result<u32, NoMemory>
        ensures { IfOk result (λ n. Adds self.old self.new (λ _ d. d.word n ≡ wrapped (d.word number +ℤ by))) }
    {
        let parts = self.parts(number);
        self.of_parts(parts.base, arithmetic::sum(parts.constant, by))
    }

    /// A word less a constant.
    pub(crate) fn lowered(&mut self, number: u32, by: i32) -> Result<u32, NoMemory>
        ensures { IfOk result (λ n. Adds self.old self.new (λ _ d. d.word n ≡ wrapped (d.word number -ℤ by))) }
    {
        let by = self.known(by)?;
        self.difference(number, by)
    }

    /// The product of a word and a constant.
    pub(crate) fn scaled(&mut self, number: u32, by: i32) -> Result<u32, NoMemory>
        ensures { IfOk result (λ n. Adds self.old self.new (λ _ d. d.word n ≡ wrapped (d.word number *ℤ by))) }
    {
        let parts = self.parts(number);
        let base = self.scaled_base(parts.base, by)?;
        self.of_parts(base, arithmetic::product(parts.constant, by))
    }

    /// The sum of two words.
    pub(crate) fn sum(&mut self, left: u32, right: u32) -> Result<u32, NoMemory>
        ensures { IfOk result (λ n. Adds self.old self.new (λ _ d. d.word n ≡ wrapped (d.word left +ℤ d.word right))) }
    {
        let one = self.parts(left);
        let other = self.parts(right);
        let base = self.sum_of_bases(one.base, other.base)?;
        self.of_parts(base, arithmetic::sum(one.constant, other.constant))
    }

    /// A word less another.
    pub(crate) fn difference(&mut self, left: u32, right: u32) -> Result<u32, NoMemory>
        ensures { IfOk result (λ n. Adds self.old self.new (λ _ d. d.word n ≡ wrapped (d.word left -ℤ d.word right))) }
    {
        let less = self.scaled(right, -1)?;
        self.sum(left, less)
    }
}

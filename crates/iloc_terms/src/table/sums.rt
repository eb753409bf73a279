//! The bases of a table: sums of terms, each an atom and its factor, those of newer atoms first.
ghost use Rattle.std.specs.Prelude.{◌≡◌, List, ℤ, ◌+ℤ◌, ◌*ℤ◌, IfOk, Some};
ghost use Rattle.iloc_meaning.specs.Arithmetic.{wrapped};
ghost use Rattle.iloc_terms.specs.Steps.Terms.{base_word, Adds, Meaning, IsMeaning, IsSum, IsSumOfBases, IsMultiple};

use crate::table::Table;
use crate::table::node::Node;
use iloc_meaning::arithmetic;
use iloc_ops::NoMemory;
use std::cmp::Ordering;

/// How many terms a sum or a multiple copies at most. Where more would be copied, a base is an atom itself.
const MOST_COPIED: u32 = 128;

/// How many it copies at most without steps.
const FEW_COPIED: u32 = 1;

/// The first term of a base, and the base of the others.
#[derive(Clone, Copy)]
pub(super) struct Term {
    pub(super) rest: Option<u32>,
    pub(super) atom: u32,
    pub(super) by: i32,
}

/// The first term of the sum of two bases, and what each has left.
#[derive(Clone, Copy)]
struct FirstTerm {
    left: Option<u32>,
    right: Option<u32>,
    atom: u32,
    by: i32,
}

impl Table {
    /// How many terms a sum or a multiple may copy.
    fn most_copied(&self) -> u32 {
        if self.has_steps() {
            MOST_COPIED
        } else {
            FEW_COPIED
        }
    }

    /// A base as a term and a rest.
    pub(super) fn term(&self, base: u32) -> Term
        ensures { (memory : List ℤ) (d : Meaning) → IsMeaning memory self.now d
            → IsSum d (Some base) result.rest result.atom result.by }
    {
        match self.node(base) {
            Some(Node::Sum { rest, atom, by }) => Term { rest, atom, by },
            _ => Term {
                rest: None,
                atom: base,
                by: 1,
            },
        }
    }

    /// The first term of the sum of two bases: the one of the newer atom, or two of the same atom together.
    fn first_term(&self, left: u32, right: u32) -> FirstTerm
        ensures { (memory : List ℤ) (d : Meaning) → IsMeaning memory self.now d
            → wrapped (d.word left +ℤ d.word right)
            ≡ wrapped ((base_word d result.left +ℤ base_word d result.right) +ℤ d.word result.atom *ℤ result.by) }
    {
        let one = self.term(left);
        let other = self.term(right);
        match one.atom.cmp(&other.atom) {
            Ordering::Greater => FirstTerm {
                left: one.rest,
                right: Some(right),
                atom: one.atom,
                by: one.by,
            },
            Ordering::Less => FirstTerm {
                left: Some(left),
                right: other.rest,
                atom: other.atom,
                by: other.by,
            },
            Ordering::Equal => FirstTerm {
                left: one.rest,
                right: other.rest,
                atom: one.atom,
                by: arithmetic::sum(one.by, other.by),
            },
        }
    }

    /// The base `rest` with `atom` times `by`; one atom alone is itself.
    #[tactic(auto, using(crate::proofs::Terms::Sums::one_atom, crate::proofs::Terms::Sums::no_atom))]
    pub(super) fn of_terms(
        &mut self,
        rest: Option<u32>,
        atom: u32,
        by: i32,
    ) -> Result<Option<u32>, NoMemory>
        ensures { IfOk result (λ base. Adds self.old self.new (λ _ d. IsSum d base rest atom by)) }
    {
        match (rest, by) {
            (_, 0) => Ok(rest),
            (None, 1) => Ok(Some(atom)),
            _ => Ok(Some(self.intern(Node::Sum { rest, atom, by })?)),
        }
    }

    /// A term before a base: before its own atom it is one more of it.
    fn with_term(&mut self, rest: Option<u32>, atom: u32, by: i32) -> Result<Option<u32>, NoMemory>
        ensures { IfOk result (λ base. Adds self.old self.new (λ _ d. IsSum d base rest atom by)) }
    {
        if rest == Some(atom) {
            self.of_terms(None, atom, arithmetic::sum(by, 1))
        } else {
            self.of_terms(rest, atom, by)
        }
    }

    /// The sum of the bases `left` and `right`, if that copies at most `most` terms.
    fn merged(
        &mut self,
        left: Option<u32>,
        right: Option<u32>,
        most: u32,
    ) -> Result<Option<Option<u32>>, NoMemory>
        ensures { IfOk result (λ sum. Adds self.old self.new (λ _ d. IsSumOfBases d sum left right)) }
    {
        let Some(one) = left else {
            return Ok(Some(right));
        };
        let Some(other) = right else {
            return Ok(Some(left));
        };
        if most == 0 {
            return Ok(None);
        }
        let first = self.first_term(one, other);
        let Some(rest) = self.merged(first.left, first.right, most - 1)? else {
            return Ok(None);
        };
        Ok(Some(self.with_term(rest, first.atom, first.by)?))
    }

    /// The sum of two bases.
    pub(super) fn sum_of_bases(
        &mut self,
        left: Option<u32>,
        right: Option<u32>,
    ) -> Result<Option<u32>, NoMemory>
        ensures { IfOk result (λ base. Adds self.old self.new (λ _ d.
            base_word d base ≡ wrapped (base_word d left +ℤ base_word d right))) }
    {
        let most = self.most_copied();
        if let Some(sum) = self.merged(left, right, most)? {
            return Ok(sum);
        }
        let Some(one) = left else {
            return Ok(right);
        };
        let Some(other) = right else {
            return Ok(left);
        };
        if one < other {
            self.with_term(left, other, 1)
        } else {
            self.with_term(right, one, 1)
        }
    }

    /// The base `base` times `by`, if that has at most `most` terms.
    fn multiple(
        &mut self,
        base: Option<u32>,
        by: i32,
        most: u32,
    ) -> Result<Option<Option<u32>>, NoMemory>
        ensures { IfOk result (λ multiple. Adds self.old self.new (λ _ d. IsMultiple d multiple base by)) }
    {
        let Some(some) = base else {
            return Ok(Some(None));
        };
        if most == 0 {
            return Ok(None);
        }
        let first = self.term(some);
        let Some(rest) = self.multiple(first.rest, by, most - 1)? else {
            return Ok(None);
        };
        Ok(Some(self.with_term(rest, first.atom, arithmetic::product(first.by, by))?))
    }

    /// The product of a base and a constant.
    pub(super) fn scaled_base(
        &mut self,
        base: Option<u32>,
        by: i32,
    ) -> Result<Option<u32>, NoMemory>
        ensures { IfOk result (λ new. Adds self.old self.new (λ _ d.
            base_word d new ≡ wrapped (base_word d base *ℤ by))) }
    {
        let Some(some) = base else {
            return Ok(None);
        };
        let most = self.most_copied();
        match self.multiple(base, by, most)? {
            Some(multiple) => Ok(multiple),
            None => self.with_term(None, some, by),
        }
    }
}

//! The products of a table: of two bases with few terms they are multiplied out, and of two atoms they are a
//! list of atoms, the newest first.
ghost use Rattle.std.specs.Prelude.{◌≡◌, List, ℤ, ◌*ℤ◌, IfOk};
ghost use Rattle.iloc_meaning.specs.Arithmetic.{wrapped};
ghost use Rattle.iloc_terms.specs.Steps.Terms.{base_word, factor_word, Adds, Meaning, IsMeaning, IsProduct, IsMultiple};

use crate::table::Table;
use crate::table::node::{Binary, Node};
use iloc_meaning::arithmetic;
use iloc_ops::NoMemory;

/// How many pairs of terms are multiplied out at most. Where there are more, a product is an atom.
const MOST_PAIRS: u32 = 16;

/// How many atoms of two products their product copies at most. Where there are more, it names both products.
const MOST_ATOMS: u32 = 8;

/// The first atom of a product of atoms, and the product of the others.
#[derive(Clone, Copy)]
struct Factors {
    rest: Option<u32>,
    atom: u32,
}

/// The first atom of two products, what its product has left, and the other product.
#[derive(Clone, Copy)]
struct FirstFactor {
    rest: Option<u32>,
    other: u32,
    atom: u32,
}

impl Table {
    /// A product of atoms as an atom and a rest.
    #[tactic(auto, using(crate::proofs::Terms::MultipliedOut::one_factor))]
    fn factors(&self, product: u32) -> Factors
        ensures { (memory : List ℤ) (d : Meaning) → IsMeaning memory self.now d
            → d.word product ≡ wrapped (factor_word d result.rest *ℤ d.word result.atom) }
    {
        match self.node(product) {
            Some(
                Node::Combined {
                    by: Binary::Product,
                    left,
                    right,
                },
            ) => Factors {
                rest: Some(left),
                atom: right,
            },
            _ => Factors {
                rest: None,
                atom: product,
            },
        }
    }

    /// The first atom of two products: the newer one, and of one atom that of the newer product.
    #[tactic(auto, using(crate::proofs::Terms::MultipliedOut::left_factor, crate::proofs::Terms::MultipliedOut::right_factor))]
    fn first_factor(&self, left: u32, right: u32) -> FirstFactor
        ensures { (memory : List ℤ) (d : Meaning) → IsMeaning memory self.now d
            → wrapped (d.word left *ℤ d.word right)
            ≡ wrapped ((factor_word d result.rest *ℤ d.word result.other) *ℤ d.word result.atom) }
    {
        let one = self.factors(left);
        let other = self.factors(right);
        if (one.atom, left) < (other.atom, right) {
            FirstFactor {
                rest: other.rest,
                other: left,
                atom: other.atom,
            }
        } else {
            FirstFactor {
                rest: one.rest,
                other: right,
                atom: one.atom,
            }
        }
    }

    /// The product of the products `left` and `right`, if that copies at most `most` atoms.
    #[tactic(auto, using(crate::proofs::Terms::MultipliedOut::last_factor, crate::proofs::Terms::MultipliedOut::factor_after))]
    fn joined(&mut self, left: u32, right: u32, most: u32) -> Result<Option<u32>, NoMemory>
        ensures { IfOk result (λ product. Adds self.old self.new (λ _ d. IsProduct d product left right)) }
    {
        if most == 0 {
            return Ok(None);
        }
        let first = self.first_factor(left, right);
        let Some(rest) = first.rest else {
            return Ok(Some(self.combined(Binary::Product, first.other, first.atom)?));
        };
        let Some(rest) = self.joined(rest, first.other, most - 1)? else {
            return Ok(None);
        };
        Ok(Some(self.combined(Binary::Product, rest, first.atom)?))
    }

    /// The product of two words as it is, the older one first.
    fn plain_product(&mut self, left: u32, right: u32) -> Result<u32, NoMemory>
        ensures { IfOk result (λ n. Adds self.old self.new (λ _ d. d.word n ≡ wrapped (d.word left *ℤ d.word right))) }
    {
        if left <= right {
            self.combined(Binary::Product, left, right)
        } else {
            self.combined(Binary::Product, right, left)
        }
    }

    /// The product of two products of atoms.
    fn product_of_atoms(&mut self, left: u32, right: u32) -> Result<u32, NoMemory>
        ensures { IfOk result (λ n. Adds self.old self.new (λ _ d. d.word n ≡ wrapped (d.word left *ℤ d.word right))) }
    {
        match self.joined(left, right, MOST_ATOMS)? {
            Some(product) => Ok(product),
            None => self.plain_product(left, right),
        }
    }

    /// The product of `base` and of `atom` times `by`, if `base` has at most `most` terms.
    fn times_term(
        &mut self,
        base: Option<u32>,
        atom: u32,
        by: i32,
        most: u32,
    ) -> Result<Option<Option<u32>>, NoMemory>
        ensures { IfOk result (λ product. Adds self.old self.new (λ _ d. IsMultiple d product base (d.word atom *ℤ by))) }
    {
        let Some(some) = base else {
            return Ok(Some(None));
        };
        if most == 0 {
            return Ok(None);
        }
        let first = self.term(some);
        let Some(rest) = self.times_term(first.rest, atom, by, most - 1)? else {
            return Ok(None);
        };
        let atoms = self.product_of_atoms(first.atom, atom)?;
        let term = self.of_terms(None, atoms, arithmetic::product(first.by, by))?;
        Ok(Some(self.sum_of_bases(rest, term)?))
    }

    /// The product of the bases `left` and `right`, if each has at most `most` terms.
    fn multiplied_out(
        &mut self,
        left: Option<u32>,
        right: Option<u32>,
        most: u32,
    ) -> Result<Option<Option<u32>>, NoMemory>
        ensures { IfOk result (λ product. Adds self.old self.new (λ _ d.
            IsMultiple d product left (base_word d right))) }
    {
        let Some(some) = left else {
            return Ok(Some(None));
        };
        if most == 0 {
            return Ok(None);
        }
        let first = self.term(some);
        let Some(rest) = self.multiplied_out(first.rest, right, most - 1)? else {
            return Ok(None);
        };
        let Some(row) = self.times_term(right, first.atom, first.by, MOST_PAIRS)? else {
            return Ok(None);
        };
        Ok(Some(self.sum_of_bases(rest, row)?))
    }

    /// How many terms `base` has, counted up to `most`.
    fn count_terms(&self, base: Option<u32>, most: u32) -> u32 {
        let mut base = base;
        for count in 0..most {
            let Some(some) = base else {
                return count;
            };
            base = self.term(some).rest;
        }
        most
    }

    /// The product of two bases, if there are few pairs of their terms.
    fn product_of_bases(
        &mut self,
        left: Option<u32>,
        right: Option<u32>,
    ) -> Result<Option<Option<u32>>, NoMemory>
        ensures { IfOk result (λ product. Adds self.old self.new (λ _ d.
            IsMultiple d product left (base_word d right))) }
    {
        let most = MOST_PAIRS + 1;
        let one = self.count_terms(left, most);
        let other = self.count_terms(right, most);
        if u64::from(one) * u64::from(other) > u64::from(MOST_PAIRS) {
            return Ok(None);
        }
        self.multiplied_out(left, right, MOST_PAIRS)
    }

    /// The product of two words, multiplied out if there are few pairs of their terms, and steps.
    fn product_of_parts(&mut self, left: u32, right: u32) -> Result<Option<u32>, NoMemory>
        ensures { IfOk result (λ product. Adds self.old self.new (λ _ d. IsProduct d product left right)) }
    {
        if !self.has_steps() {
            return Ok(None);
        }
        let one = self.parts(left);
        let other = self.parts(right);
        let Some(bases) = self.product_of_bases(one.base, other.base)? else {
            return Ok(None);
        };
        let scaled = self.scaled_base(one.base, other.constant)?;
        let other_scaled = self.scaled_base(other.base, one.constant)?;
        let mixed = self.sum_of_bases(scaled, other_scaled)?;
        let base = self.sum_of_bases(bases, mixed)?;
        let constant = arithmetic::product(one.constant, other.constant);
        Ok(Some(self.of_parts(base, constant)?))
    }

    /// The product of two words.
    pub(crate) fn product(&mut self, left: u32, right: u32) -> Result<u32, NoMemory>
        ensures { IfOk result (λ n. Adds self.old self.new (λ _ d. d.word n ≡ wrapped (d.word left *ℤ d.word right))) }
    {
        if let Some(by) = self.constant(right) {
            return self.scaled(left, by);
        }
        if let Some(by) = self.constant(left) {
            return self.scaled(right, by);
        }
        match self.product_of_parts(left, right)? {
            Some(product) => Ok(product),
            None => self.plain_product(left, right),
        }
    }
}

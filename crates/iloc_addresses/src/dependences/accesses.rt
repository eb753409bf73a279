//! The loads and outputs for which no store has waited yet.
ghost use Rattle.std.specs.Prelude.{◌≡◌, ◌+◌, if◌then◌else◌, ℕ, Bool, List, [], Option, Some, OnOk};
ghost use Rattle.iloc_rules.specs.declared.word.Word.{Word as AWord};

use super::by_constant::ByConstant;
use crate::words::{are_apart, constant_of, have_one_base};
use iloc_ops::NoMemory;
use iloc_rules::Word;
use std::alloc::Global;

/// So many of the earlier ones are gone through at each store. Where none is, and all are kept by constant, `counts --disambiguate`
/// executes 4 % more instructions on blocks of some ten operations, and 13 % on blocks of some hundred.
const FEW: usize = 32;

/// An operation that reads at an address.
#[derive(Clone, Copy, Drop)]
pub(crate) struct Access {
    op: u32,
    address: Word,
}

/// Operations that read.
#[derive(Drop)]
pub(crate) struct Accesses {
    // The address of the last store.
    base: Word,
    // Those since then, and up to `FEW` earlier ones.
    recent: Vec<Access>,
    // The other earlier ones, which have its base.
    kept: ByConstant,
}

impl Accesses {
    ghost use Rattle.iloc_addresses.specs.Steps.ByConstant.{ops_at};
    ghost use Rattle.iloc_addresses.specs.Steps.Dependences.{AreFar, ArePlaced, Finds, IsShort, constant_of, waiting_by};

    /// None.
    pub(crate) fn new(alloc: Global) -> Accesses
        ensures placed { (of : ℕ → Option AWord) → ArePlaced of result }
        ensures none { (test : ℕ → Bool) → waiting_by test result ≡ 0 }
    {
        Accesses {
            base: Word::Known(0),
            recent: Vec::new(alloc),
            kept: ByConstant::new(alloc),
        }
    }

    /// None from now on.
    pub(crate) fn clear(&mut self)
        ensures placed { (of : ℕ → Option AWord) → ArePlaced of self.new }
        ensures none { (test : ℕ → Bool) → waiting_by test self.new ≡ 0 }
    {
        self.recent.clear();
        self.kept.clear();
    }

    /// Operation j, which reads at this address, is one of them from now on.
    pub(crate) fn note(&mut self, j: u32, address: Word) -> Result<(), NoMemory>
        ensures placed { OnOk result ((of : ℕ → Option AWord) → of j ≡ Some address
            → IsShort (constant_of address) → ArePlaced of self.old → ArePlaced of self.new) }
        ensures more { OnOk result ((test : ℕ → Bool)
            → waiting_by test self.new ≡ waiting_by test self.old + (if test j then 1 else 0)) }
    {
        self.recent.push(Access { op: j, address })?;
        Ok(())
    }

    /// Moves to `found` the operations that aren't apart from `address`, the address of a store, which is the last one
    /// from now on.
    pub(crate) fn find(&mut self, address: Word, found: &mut Vec<u32>) -> Result<(), NoMemory>
        ensures finds { OnOk result (Finds address self.old self.new found.old.items found.new.items) }
        ensures far { OnOk result (AreFar address self.new) }
    {
        if have_one_base(self.base, address) {
            self.kept.move_at(constant_of(address), found)?;
        } else {
            self.kept.move_all(found)?;
        }
        self.base = address;
        self.find_recent(found)
    }

    /// Moves to `found` the recent operations that aren't apart from the last store's address, and keeps the others.
    fn find_recent(&mut self, found: &mut Vec<u32>) -> Result<(), NoMemory>
        ensures finds { OnOk result (Finds self.old.base self.old self.new found.old.items found.new.items) }
        ensures far { OnOk result (ops_at self.old.kept (constant_of self.old.base) ≡ []
            → AreFar self.old.base self.new) }
    {
        let mut far = 0;
        while far < self.recent.len() {
            let apart = are_apart(self.recent[far].address, self.base);
            if apart && far < FEW {
                far += 1;
            } else {
                let access = self.recent.swap_remove(far);
                if apart {
                    self.kept.put(constant_of(access.address), access.op)?;
                } else {
                    found.push(access.op)?;
                }
            }
        }
        Ok(())
    }
}

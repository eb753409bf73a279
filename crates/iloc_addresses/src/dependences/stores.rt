//! The stores before an operation, by what they reach.
ghost use Rattle.std.specs.Prelude.{◌≡◌, ◌<◌, if◌then◌else◌, None, Some, OnOk};
ghost use Rattle.iloc_rules.specs.declared.word.Word.{Word};
ghost use Rattle.iloc_rules.specs.Apart.{are_apart};

use super::last_by_constant::LastByConstant;
use crate::words::{constant_of, have_one_base};
use iloc_ops::NoMemory;
use iloc_rules::Word;
use std::alloc::Global;

/// For each address the last store that isn't apart from it.
#[derive(Drop)]
pub(crate) struct Stores {
    // The address of the last store.
    base: Word,
    // The last store.
    last: Option<u32>,
    // The last store with another base than that one's.
    other: Option<u32>,
    // By constant the last store with its base after the other.
    own: LastByConstant,
}

impl Stores {
    ghost use Rattle.iloc_addresses.specs.Steps.Dependences.{IsShort, constant_of, store_for};

    /// None.
    pub(crate) fn new(alloc: Global) -> Stores
        ensures last { result.last ≡ None }
        ensures stores { (w : Word) → store_for result w ≡ None }
    {
        Stores {
            base: Word::Known(0),
            last: None,
            other: None,
            own: LastByConstant::new(alloc),
        }
    }

    /// None from now on.
    pub(crate) fn clear(&mut self)
        ensures last { self.new.last ≡ None }
        ensures stores { (w : Word) → store_for self.new w ≡ None }
    {
        self.last = None;
        self.other = None;
        self.own.clear();
    }

    /// The last one.
    pub(crate) fn last(&self) -> Option<u32>
        ensures { result ≡ self.now.last }
    {
        self.last
    }

    /// The last one that isn't apart from an address.
    pub(crate) fn last_for(&self, address: Word) -> Option<u32>
        ensures last { result ≡ store_for self.now address }
        ensures short { IsShort (constant_of address) }
    {
        let constant = constant_of(address);
        if have_one_base(self.base, address) {
            self.own.get(constant).or(self.other)
        } else {
            self.last
        }
    }

    /// Operation j, which stores at this address, is the last one from now on.
    pub(crate) fn note(&mut self, j: u32, address: Word) -> Result<(), NoMemory>
        ensures last { OnOk result (self.new.last ≡ Some j) }
        ensures stores { OnOk result ((w : Word) → IsShort (constant_of w)
            → store_for self.new w ≡ (if are_apart address w then store_for self.old w else Some j)) }
        ensures short { IsShort (constant_of address) }
    {
        let constant = constant_of(address);
        if !have_one_base(self.base, address) {
            self.other = self.last;
            self.own.clear();
        }
        self.own.set(constant, j)?;
        self.base = address;
        self.last = Some(j);
        Ok(())
    }
}

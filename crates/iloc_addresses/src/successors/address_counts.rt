//! Addresses, counted.
ghost use Rattle.std.specs.Prelude.{◌≡◌, ◌+◌, ◌<◌, ◌≤◌, ◌^◌, if◌then◌else◌, OnOk};
ghost use Rattle.iloc_rules.specs.declared.word.Word.{Word};
ghost use Rattle.iloc_rules.specs.Apart.{are_apart};

use crate::words::{base_of, constant_of};
use iloc_ops::NoMemory;
use iloc_rules::Word;
use std::alloc::Global;
use std::collections::BTreeMap;

/// How many addresses there are of each.
#[derive(Drop)]
pub(crate) struct AddressCounts {
    all: u32,
    // By base, or by none.
    by_base: BTreeMap<Option<u32>, u32>,
    // By base and constant.
    by_word: BTreeMap<(Option<u32>, i32), u32>,
}

impl AddressCounts {
    ghost use Rattle.iloc_addresses.specs.Steps.Dependences.{IsShort, constant_of};
    ghost use Rattle.iloc_addresses.specs.Steps.Successors.{AreNested, near, with_base, with_both};

    /// None.
    pub(crate) fn new(alloc: Global) -> AddressCounts
        ensures all { result.all ≡ 0 }
        ensures near { (w : Word) → near result w ≡ 0 }
        ensures nested { AreNested result }
    {
        AddressCounts {
            all: 0,
            by_base: BTreeMap::new(alloc),
            by_word: BTreeMap::new(alloc),
        }
    }

    /// How many there are.
    pub(crate) fn len(&self) -> u32
        ensures { result ≡ self.now.all }
    {
        self.all
    }

    /// How many have a base, or none.
    fn with_base(&self, base: Option<u32>) -> u32
        ensures { result ≡ with_base self.now base }
    {
        self.by_base.get(&base).copied().unwrap_or(0)
    }

    /// How many have a base, or none, and a constant.
    fn with_both(&self, base: Option<u32>, constant: i32) -> u32
        ensures { result ≡ with_both self.now base constant }
    {
        self.by_word.get(&(base, constant)).copied().unwrap_or(0)
    }

    /// How many aren't apart from an address.
    pub(crate) fn count_near(&self, address: Word) -> u32
        requires { AreNested self.now }
        ensures near { result ≡ near self.now address }
        ensures few { result ≤ self.now.all }
    {
        let base = base_of(address);
        self.all - self.with_base(base) + self.with_both(base, constant_of(address))
    }

    /// One more.
    pub(crate) fn note(&mut self, address: Word) -> Result<(), NoMemory>
        requires few { self.old.all + 1 < 2 ^ 32 }
        requires nested { AreNested self.old }
        ensures all { OnOk result (self.new.all ≡ self.old.all + 1) }
        ensures near { OnOk result ((w : Word) → IsShort (constant_of w)
            → near self.new w ≡ near self.old w + (if are_apart w address then 0 else 1)) }
        ensures nested { OnOk result (AreNested self.new) }
    {
        let (base, constant) = (base_of(address), constant_of(address));
        let (with_base, with_both) = (self.with_base(base), self.with_both(base, constant));
        self.by_base.insert(base, with_base + 1)?;
        self.by_word.insert((base, constant), with_both + 1)?;
        self.all += 1;
        Ok(())
    }
}

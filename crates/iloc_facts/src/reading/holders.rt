//! The operations whose results registers hold.
ghost use Rattle.std.specs.Prelude.{◌≡◌, None, OnOk};

use crate::reading::sources::Sources;
use iloc_ops::{NoMemory, Op, Reg, uses};
use std::alloc::Global;
use std::collections::BTreeMap;

/// By register the operation whose result it holds.
#[derive(Drop)]
pub(crate) struct Holders {
    numbers: BTreeMap<u32, usize>,
}

impl Holders {
    ghost use Rattle.iloc_ops.specs.declared.op.Reg.{Reg as Register};
    ghost use Rattle.iloc_ops.specs.Registers.{used};
    ghost use Rattle.iloc_facts.specs.Readings.{sources_of};
    ghost use Rattle.iloc_facts.specs.Steps.Tracks.Holders.{holder, ChangesOnly};

    /// No register holds a result.
    pub(crate) fn none(alloc: Global) -> Holders
        ensures { (r : Register) → holder result r ≡ None }
    {
        Holders {
            numbers: BTreeMap::new(alloc),
        }
    }

    /// The operation whose result a register holds.
    pub(crate) fn get(&self, register: Reg) -> Option<usize>
        ensures { result ≡ holder self.now register }
    {
        self.numbers.get(&register.0).copied()
    }

    /// Gives a register the result of an operation.
    pub(crate) fn set(&mut self, register: Reg, op: usize) -> Result<(), NoMemory>
        ensures { OnOk result (ChangesOnly self.old self.new register op) }
    {
        self.numbers.insert(register.0, op)?;
        Ok(())
    }

    /// What an operation reads now.
    pub(crate) fn sources(&self, op: &Op) -> Sources
        ensures { result ≡ sources_of (holder self.now) (used op.now) }
    {
        match uses(op).as_slice() {
            [] => Sources::Nothing,
            [only] => Sources::One(self.get(*only)),
            [left, right, ..] => Sources::Two(self.get(*left), self.get(*right)),
        }
    }
}

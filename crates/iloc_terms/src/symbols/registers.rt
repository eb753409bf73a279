//! The terms in registers.
ghost use Rattle.std.specs.Prelude.{◌≡◌, IfOk, OnOk};

use crate::table::Table;
use iloc_ops::{NoMemory, Reg};
use std::alloc::Global;
use std::collections::BTreeMap;

/// The numbers of the terms in the registers of a run.
#[derive(Drop)]
pub(crate) struct TermRegisters {
    numbers: BTreeMap<u32, u32>,
    // In each register that was given no value.
    zero: u32,
}

impl TermRegisters {
    ghost use Rattle.std.specs.Prelude.{pos};
    ghost use Rattle.iloc_ops.specs.declared.op.Reg.{Reg as Register};
    ghost use Rattle.iloc_terms.specs.Steps.Terms.{Adds};
    ghost use Rattle.iloc_terms.specs.Steps.Symbols.{number_in, ChangesOnly};

    /// All registers 0.
    pub(crate) fn new(alloc: Global, table: &mut Table) -> Result<TermRegisters, NoMemory>
        ensures { IfOk result (λ registers. Adds table.old table.new (λ _ d. (r : Register)
            → d.word (number_in registers r) ≡ pos 0)) }
    {
        Ok(TermRegisters {
            numbers: BTreeMap::new(alloc),
            zero: table.known(0)?,
        })
    }

    /// The number of the term in a register.
    pub(crate) fn get(&self, register: Reg) -> u32
        ensures { result ≡ number_in self.now register }
    {
        self.numbers.get(&register.0).copied().unwrap_or(self.zero)
    }

    /// Gives a register a term.
    pub(crate) fn set(&mut self, register: Reg, number: u32) -> Result<(), NoMemory>
        ensures { OnOk result (ChangesOnly self.old self.new register number) }
    {
        self.numbers.insert(register.0, number)?;
        Ok(())
    }
}

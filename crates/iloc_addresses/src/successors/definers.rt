//! Where the used registers come from.
ghost use Rattle.std.specs.Prelude.{ℕ, ◌≡◌, ◌+◌, ◌&&◌, ◌||◌, false, List, OnOk};
ghost use Rattle.std.specs.List.{list_any};
ghost use Rattle.iloc_ops.specs.declared.op.Op.{Op as Operation};
ghost use Rattle.iloc_ops.specs.declared.op.Reg.{Reg as Register};
ghost use Rattle.iloc_ops.specs.Registers.{used};
ghost use Rattle.iloc_meaning.specs.Trace.{op_at};
ghost use Rattle.iloc_rules.specs.Renaming.{IsRenamed};

use iloc_ops::{NoMemory, Op, Reg, defines, uses};
use std::alloc::Global;
use std::collections::BTreeMap;

/// By register the operation before another that defines it.
#[derive(Drop)]
pub(crate) struct Definers {
    ops: BTreeMap<u32, u32>,
}

impl Definers {
    ghost use Rattle.iloc_addresses.specs.Steps.Successors.{AreDefiners, definer, is_number};

    /// Before the first operation of a list.
    pub(crate) fn new(alloc: Global) -> Definers
        ensures { (ops : List Operation) → AreDefiners ops 0 result }
    {
        Definers {
            ops: BTreeMap::new(alloc),
        }
    }

    /// The operation that defines a register, if one does.
    fn get(&self, register: &Reg) -> Option<u32>
        ensures { result ≡ definer self.now register.now }
    {
        self.ops.get(&register.0).copied()
    }

    /// The operations that define the registers that one uses, each once.
    pub(crate) fn sources(&self, op: &Op) -> (Option<u32>, Option<u32>)
        ensures each { (i : ℕ) → (is_number i result.0 || is_number i result.1)
            ≡ list_any (λ (r : Register). is_number i (definer self.now r)) (used op.now) }
        ensures once { (i : ℕ) → (is_number i result.0 && is_number i result.1) ≡ false }
    {
        match uses(op).as_slice() {
            [] => (None, None),
            [register] => (self.get(register), None),
            [left, right, ..] => {
                let (first, second) = (self.get(left), self.get(right));
                (first, second.filter(|_| second != first))
            }
        }
    }

    /// Takes operation j: what defines registers before the next.
    pub(crate) fn take(&mut self, op: &Op, j: u32) -> Result<(), NoMemory>
        ensures { OnOk result ((ops : List Operation) → IsRenamed ops → op_at ops j ≡ op.now → AreDefiners ops j self.old
            → AreDefiners ops (j + 1) self.new) }
    {
        if let Some(register) = defines(op) {
            self.ops.insert(register.0, j)?;
        }
        Ok(())
    }
}

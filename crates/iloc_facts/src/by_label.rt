//! Numbers of operations, by their labels.
ghost use Rattle.std.specs.Prelude.{◌≡◌, None, length, IfOk, OnOk};

use crate::label::label_key;
use iloc_ops::{NoMemory, Op};
use std::alloc::Global;
use std::collections::BTreeMap;

/// By label the number of an operation that has it.
#[derive(Drop)]
pub struct ByLabel {
    // By the key of the label.
    numbers: BTreeMap<Op, usize>,
}

impl ByLabel {
    ghost use Rattle.iloc_ops.specs.declared.op.Op.{Op as Operation};
    ghost use Rattle.iloc_facts.specs.ByLabel.{number_like, NumbersLabels, SetsLike};

    /// None has a number.
    pub fn none(alloc: Global) -> ByLabel
        ensures { (op : Operation) → number_like result op ≡ None }
    {
        ByLabel {
            numbers: BTreeMap::new(alloc),
        }
    }

    /// The numbers of a block's operations: of each label that of the last one that has it.
    pub fn of(alloc: Global, ops: &[Op]) -> Result<ByLabel, NoMemory>
        ensures { IfOk result (NumbersLabels ops.now (length ops.now)) }
    {
        let mut numbers = ByLabel::none(alloc);
        for i in 0..ops.len() {
            numbers.set(&ops[i], Some(i))?;
        }
        Ok(numbers)
    }

    /// The number for operations like this one.
    pub fn number(&self, op: &Op) -> Option<usize>
        ensures { result ≡ number_like self.now op.now }
    {
        self.numbers.get(&label_key(op)).copied()
    }

    /// Sets the number of the operations like `op`, or that they have none.
    pub fn set(&mut self, op: &Op, number: Option<usize>) -> Result<(), NoMemory>
        ensures { OnOk result (SetsLike self.old self.new op.now number) }
    {
        let key = label_key(op);
        match number {
            Some(k) => {
                self.numbers.insert(key, k)?;
                Ok(())
            }
            None => {
                self.numbers.remove(&key);
                Ok(())
            }
        }
    }
}

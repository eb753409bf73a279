//! Operations of one side of which nothing is known yet, by label.
ghost use Rattle.std.specs.Prelude.{◌≡◌, ◌+◌, ◌<◌, ◌↔◌, ℕ, List, Option, Some, None, length, IfOk, OnOk};
ghost use Rattle.iloc_ops.specs.declared.op.Op.{Op as op_value};
ghost use Rattle.iloc_meaning.specs.Trace.{op_at};
ghost use Rattle.iloc_reasons.specs.Origins.{origin_at, IsOnly, IsUnknown};
ghost use Rattle.iloc_reasons.specs.Steps.Origins.{AreLeft};

use super::origin_at;
use iloc_facts::ByLabel;
use iloc_ops::{NoMemory, Op};
use std::alloc::Global;

/// Operations of one side of which nothing is known yet, by label.
#[derive(Drop)]
pub(crate) struct Left {
    // The first of each label.
    first: ByLabel,
    // One more, where there are more.
    more: ByLabel,
}

impl Left {
    /// Adds operation i.
    fn add(&mut self, ops: &[Op], noted: &[Option<usize>], i: usize) -> Result<(), NoMemory>
        requires within { i < length ops.now }
        requires unknown { origin_at noted.now i ≡ None }
        requires so_far { AreLeft ops.now noted.now i self.old }
        ensures { OnOk result (AreLeft ops.now noted.now (i + 1) self.new) }
    {
        match self.first.number(&ops[i]) {
            None => {
                self.first.set(&ops[i], Some(i))?;
                Ok(())
            }
            Some(_) => {
                self.more.set(&ops[i], Some(i))?;
                Ok(())
            }
        }
    }

    /// The operations of one side of which nothing is noted.
    pub(crate) fn of(alloc: Global, ops: &[Op], noted: &[Option<usize>]) -> Result<Left, NoMemory>
        ensures { IfOk result (AreLeft ops.now noted.now (length ops.now)) }
    {
        let mut left = Left {
            first: ByLabel::none(alloc),
            more: ByLabel::none(alloc),
        };
        for i in 0..ops.len() {
            if origin_at(noted, i).is_none() {
                left.add(ops, noted, i)?;
            }
        }
        Ok(left)
    }

    /// The only one that is left of an operation's label.
    pub(crate) fn only(&self, op: &Op) -> Option<usize>
        ensures { (ops : List op_value) (noted : List (Option ℕ)) → AreLeft ops noted (length ops) self.now
            → (i : ℕ) → (result ≡ Some i) ↔ IsOnly (IsUnknown ops noted op.now) i }
    {
        match self.more.number(op) {
            Some(_) => None,
            None => self.first.number(op),
        }
    }
}

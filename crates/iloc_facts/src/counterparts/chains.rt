//! The counterparts of operations on the other side: the first of a label with the first of that label, and so on.
ghost use Rattle.std.specs.Prelude.{◌≡◌, ◌+◌, ◌<◌, length, IfOk, OnOk, IfSome, IfNone};
ghost use Rattle.iloc_facts.specs.ByLabel.{number_like, SetsLike};
ghost use Rattle.iloc_facts.specs.Steps.Counterparts.{noted_at, AreChained, AreCounterparts};

use crate::by_label::ByLabel;
use iloc_ops::{NoMemory, Op};
use std::alloc::Global;

/// The operations of one side in chains, one for each label.
#[derive(Drop)]
pub(crate) struct Chains {
    waiting: ByLabel,
    // By operation the next one like it.
    next: Vec<Option<usize>>,
}

/// What is noted at a place.
fn noted(numbers: &[Option<usize>], place: usize) -> Option<usize>
    ensures { result ≡ noted_at numbers.now place }
{
    match numbers.get(place) {
        Some(number) => *number,
        None => None,
    }
}

impl Chains {
    /// Puts operation `k` before the operations like it.
    fn put_first(&mut self, ops: &[Op], k: usize) -> Result<(), NoMemory>
        requires within { k < length ops.now }
        requires later { AreChained ops.now (k + 1) self.old }
        ensures { OnOk result (AreChained ops.now k self.new) }
    {
        self.next[k] = self.waiting.number(&ops[k]);
        self.waiting.set(&ops[k], Some(k))?;
        Ok(())
    }

    /// Takes out the first operation like `op`.
    fn take(&mut self, op: &Op) -> Result<Option<usize>, NoMemory>
        ensures next { OnOk result (self.new.next ≡ self.old.next) }
        ensures first { IfOk result (λ k. k ≡ number_like self.old.waiting op.now) }
        ensures none { IfOk result (λ k. IfNone k (self.new.waiting ≡ self.old.waiting)) }
        ensures some { IfOk result (λ k. IfSome k (λ j. SetsLike self.old.waiting self.new.waiting op.now
            (noted_at self.old.next.items j))) }
    {
        match self.waiting.number(op) {
            Some(k) => {
                let next = noted(&self.next, k);
                self.waiting.set(op, next)?;
                Ok(Some(k))
            }
            None => Ok(None),
        }
    }
}

/// The operations of one side in chains.
fn chained(alloc: Global, ops: &[Op]) -> Result<Chains, NoMemory>
    ensures { IfOk result (AreChained ops.now 0) }
{
    let waiting = ByLabel::none(alloc);
    let next = vec![in alloc; None; ops.len()]?;
    let mut chains = Chains { waiting, next };
    for place in 0..ops.len() {
        chains.put_first(ops, ops.len() - 1 - place)?;
    }
    Ok(chains)
}

/// By operation its counterpart among the others.
pub(crate) fn counterparts_among(
    alloc: Global,
    ops: &[Op],
    others: &[Op],
) -> Result<Vec<Option<usize>>, NoMemory>
    ensures { IfOk result (λ it. AreCounterparts ops.now others.now it.items) }
{
    let mut chains = chained(alloc, others)?;
    let mut counterparts = Vec::with_capacity(alloc, ops.len())?;
    for op in ops {
        let counterpart = chains.take(op)?;
        counterparts.push(counterpart)?;
    }
    Ok(counterparts)
}

//! The operations of a block.
ghost use Rattle.std.specs.Prelude.{◌≡◌, ◌≤◌, ◌↔◌, [], ◌∷◌, ◌++◌, ◌<◌, true, false, length, IsTrue, IfOk, OnOk, OnErr};
ghost use Rattle.std.specs.Arc.{arc_value};
ghost use Rattle.std.specs.List.{slice_range};

use crate::no_memory::NoMemory;
use crate::op::Op;
use std::fmt;
use std::marker::Model;
use std::sync::Arc;

/// A range of a list of operations that blocks share.
#[derive(Drop)]
struct Shared {
    all: Arc<Vec<Op>>,
    start: usize,
    end: usize,
    ghost ordered: { start ≤ end },
    ghost there: { end ≤ length (arc_value all).items },
}

/// Where a block's operations are.
#[derive(Drop)]
enum Held {
    /// In a list of their own, which may grow.
    Own(Vec<Op>),
    /// In one that blocks share.
    Shared(Shared),
}

impl Shared {
    ghost use Rattle.iloc_ops.specs.Steps.Held.{shared_ops};

    fn as_slice(&self) -> &[Op]
        ensures { result.now ≡ shared_ops self.now }
    {
        &self.all[self.start..self.end]
    }

    /// A copy of the operations, followed by one more.
    #[cold]
    fn with(&self, op: Op) -> Result<Vec<Op>, NoMemory>
        ensures { IfOk result (λ items. items.items ≡ shared_ops self.now ++ op ∷ []) }
    {
        let mut items = Vec::from_slice(*self.all.allocator(), self.as_slice())?;
        items.push(op)?;
        Ok(items)
    }
}

/// The operations of a block, in order.
#[derive(Drop)]
pub struct Ops {
    held: Held,
}

impl Model for Ops {
    ghost use Rattle.std.specs.Prelude.{List};
    ghost use Rattle.iloc_ops.specs.declared.op.Op.{Op};
    ghost use Rattle.iloc_ops.specs.Steps.Held.{operations};

    ghost Value = { List Op };

    ghost view = { λ ops. operations ops.held };
}

impl Ops {
    /// Promise: the operations of `items`, in their order.
    pub fn new(items: Vec<Op>) -> Ops
        ensures { result ≡ items.items }
    {
        Ops {
            held: Held::Own(items),
        }
    }

    /// Promise: the operations of a list from `start` up to `end`.
    ///
    /// The list is shared, not copied.
    pub fn of_shared(all: &Arc<Vec<Op>>, start: usize, end: usize) -> Result<Ops, NoMemory>
        requires ordered { start ≤ end }
        requires there { end ≤ length (arc_value all.now).items }
        ensures { IfOk result (λ ops. ops ≡ slice_range (arc_value all.now).items start end) }
    {
        let all = Arc::try_clone(all)?;
        Ok(Ops {
            held: Held::Shared(Shared { all, start, end }),
        })
    }

    /// Promise: how many operations there are.
    pub fn len(&self) -> usize
        ensures { result ≡ length self.now }
    {
        self.as_slice().len()
    }

    /// Promise: whether there is no operation.
    pub fn is_empty(&self) -> bool
        ensures { IsTrue result ↔ (length self.now ≡ 0) }
    {
        self.as_slice().is_empty()
    }

    /// Promise: adds an operation at the end; after a refusal of memory the operations are as before.
    ///
    /// Shared operations are copied first.
    #[inline(always)]
    pub fn push(&mut self, op: Op) -> Result<(), NoMemory>
        ensures ok { OnOk result (self.new ≡ self.old ++ op ∷ []) }
        ensures err { OnErr result (self.new ≡ self.old) }
    {
        match &mut self.held {
            Held::Own(items) => items.push(op)?,
            Held::Shared(shared) => self.held = Held::Own(shared.with(op)?),
        }
        Ok(())
    }

    /// Promise: adds an operation at the end if there are fewer than `limit`, and says whether it did.
    ///
    /// Shared operations are copied first.
    #[inline(always)]
    pub fn push_within(&mut self, limit: usize, op: Op) -> Result<bool, NoMemory>
        ensures added { IfOk result (λ added. added ≡ true → self.new ≡ self.old ++ op ∷ []) }
        ensures below { IfOk result (λ added. added ≡ true → length self.old < limit) }
        ensures full { IfOk result (λ added. added ≡ false → limit ≤ length self.old) }
        ensures within { length self.old ≤ limit → length self.new ≤ limit }
    {
        match &mut self.held {
            Held::Own(items) => {
                if items.len() >= limit {
                    return Ok(false);
                }
                items.push(op)?;
            }
            Held::Shared(shared) => {
                if shared.as_slice().len() >= limit {
                    return Ok(false);
                }
                self.held = Held::Own(shared.with(op)?);
            }
        }
        Ok(true)
    }

    /// Promise: removes all operations.
    ///
    /// A list of their own keeps its capacity.
    pub fn clear(&mut self)
        ensures { self.new ≡ [] }
    {
        match &mut self.held {
            Held::Own(items) => items.clear(),
            Held::Shared(shared) => self.held = Held::Own(Vec::new(*shared.all.allocator())),
        }
    }

    /// Promise: lends the operations, in order.
    #[inline]
    pub fn as_slice(&self) -> &[Op]
        ensures { result.now ≡ self.now }
    {
        match &self.held {
            Held::Own(items) => items.as_slice(),
            Held::Shared(shared) => shared.as_slice(),
        }
    }
}

impl fmt::Debug for Ops {
    fn fmt<W: fmt::Write>(&self, f: &mut fmt::Formatter<W>) -> fmt::Result {
        fmt::Debug::fmt(self.as_slice(), f)
    }
}

//! Copies of blocks that were handed over.
ghost use Rattle.std.specs.Prelude.{◌≡◌, [], ◌∷◌, ◌++◌, length, sum_by, IfOk, OnOk};
ghost use Rattle.std.specs.Option.{option_copied};

use crate::reader::taker::TakeBlocks;
use iloc_ops::{Block, Blocks, IlocFile, Name, NoMemory, Op, Ops};
use std::alloc::Global;
use std::mem;
use std::sync::Arc;

/// A shared list has room for so many operations, or for those of a single block that has more. With a list for each block
/// `counts` takes 12 % more processor time on 65,535 blocks of some ten operations.
const MOST_SHARED: usize = 4096;

/// A block whose operations are in the list that is being filled.
#[derive(Drop)]
struct Unsettled {
    name: Option<Name>,
    count: usize,
}

/// The blocks that were handed over, in copies that share lists of operations.
#[derive(Drop)]
pub struct Copies {
    /// The first blocks.
    done: Vec<Block>,
    /// The blocks after them.
    unsettled: Vec<Unsettled>,
    /// The operations of the unsettled blocks.
    ops: Vec<Op>,
    ghost whole: { sum_by (λ w. w.count) unsettled.items ≡ length ops.items },
}

/// A copy of the name, if there is one.
fn copy_of_name(alloc: Global, name: Option<&Name>) -> Result<Option<Name>, NoMemory>
    ensures { IfOk result (λ copy. copy ≡ option_copied name.entry) }
{
    match name {
        Some(name) => Ok(Some(Name::from_str(alloc, name.as_str())?)),
        None => Ok(None),
    }
}

impl Copies {
    ghost use Rattle.iloc_text.specs.Steps.Copied.{all_of};

    /// No block.
    pub fn new(alloc: Global) -> Copies
        ensures { all_of result ≡ [] }
    {
        Copies {
            done: Vec::new(alloc),
            unsettled: Vec::new(alloc),
            ops: Vec::new(alloc),
        }
    }

    /// Settles all blocks: the ones that weren't share the list of their operations.
    fn settle(&mut self, alloc: Global) -> Result<(), NoMemory>
        ensures all { OnOk result (all_of self.new ≡ all_of self.old) }
        ensures none { OnOk result (self.new.unsettled.items ≡ []) }
    {
        let mut unsettled = mem::replace(&mut self.unsettled, Vec::new(alloc));
        let ops = mem::replace(&mut self.ops, Vec::new(alloc));
        let all = Arc::new(alloc, ops)?;
        let mut start = 0;
        for block in unsettled.drain(..) {
            let end = start + block.count;
            self.done.push(Block {
                name: block.name,
                ops: Ops::of_shared(&all, start, end)?,
            })?;
            start = end;
        }
        self.unsettled = unsettled;
        Ok(())
    }

    /// Adds a copy of the block, which isn't settled yet.
    fn add(&mut self, alloc: Global, block: &Block) -> Result<(), NoMemory>
        ensures { OnOk result (all_of self.new ≡ all_of self.old ++ block.now ∷ []) }
    {
        let name = copy_of_name(alloc, block.name.as_ref())?;
        let ops = block.ops.as_slice();
        self.unsettled.reserve(1)?;
        self.ops.extend_from_slice(ops)?;
        self.unsettled.push_reserved(Unsettled {
            name,
            count: ops.len(),
        });
        Ok(())
    }

    /// Takes `blocks` over.
    pub(crate) fn append(&mut self, alloc: Global, mut blocks: Vec<Block>) -> Result<(), NoMemory>
        ensures { OnOk result (all_of self.new ≡ all_of self.old ++ blocks.items) }
    {
        self.settle(alloc)?;
        self.done.append(&mut blocks)?;
        Ok(())
    }

    /// The file of all blocks.
    pub fn into_file(mut self, alloc: Global) -> Result<IlocFile, NoMemory>
        ensures { IfOk result (λ file. file.blocks ≡ all_of self) }
    {
        self.settle(alloc)?;
        Ok(IlocFile {
            blocks: Blocks::new(self.done),
        })
    }
}

impl TakeBlocks for Copies {
    ghost use Rattle.std.specs.Prelude.{◌≡◌, ◌++◌};
    ghost use Rattle.std.proofs.Common.{sym, append-nil};
    ghost use Rattle.iloc_text.specs.Steps.Copied.{all_of};

    ghost took = { λ start blocks now. all_of now ≡ all_of start ++ blocks };

    fn take(&mut self, alloc: Global, _number: usize, block: &Block) -> Result<(), NoMemory> {
        let count = block.ops.len();
        if count > self.ops.capacity() - self.ops.len() {
            self.settle(alloc)?;
            self.ops.reserve(MOST_SHARED.max(count))?;
        }
        self.add(alloc, block)
    }

    ghost took_none = { λ start. sym (append-nil (all_of start)) };
}

//! Basic blocks, and the file that holds them.
ghost use Rattle.std.specs.Prelude.{◌≡◌};

use crate::name::Name;
use crate::ops::Ops;
use std::marker::Model;

/// A basic block: a straight run of operations under a label, or under none.
#[derive(Debug, Drop)]
pub struct Block {
    /// What its label says; the block before the first label has none.
    pub name: Option<Name>,
    /// Its operations.
    pub ops: Ops,
}

/// The blocks of a file, in order.
#[derive(Debug, Drop)]
pub struct Blocks {
    items: Vec<Block>,
}

impl Model for Blocks {
    ghost use Rattle.std.specs.Prelude.{List};
    ghost use Rattle.iloc_ops.specs.declared.file.Block.{Block};

    ghost Value = { List Block };

    ghost view = { λ blocks. blocks.items.items };
}

impl Blocks {
    /// Promise: the blocks of `items`, in their order.
    pub fn new(items: Vec<Block>) -> Blocks
        ensures { result ≡ items.items }
    {
        Blocks { items }
    }

    /// Promise: lends the blocks, in order.
    pub fn as_slice(&self) -> &[Block]
        ensures { result.now ≡ self.now }
    {
        self.items.as_slice()
    }

    /// Promise: gives the blocks back, in order.
    pub fn into_vec(self) -> Vec<Block>
        ensures { result.items ≡ self }
    {
        self.items
    }
}

/// A file of basic blocks.
#[derive(Debug, Drop)]
pub struct IlocFile {
    /// The blocks, in the order of their lines.
    pub blocks: Blocks,
}

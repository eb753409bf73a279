//! What the reader hands the blocks of a text to.
ghost use Rattle.std.specs.Prelude.{◌≡◌, ◌+◌, ◌≤◌, List, [], ◌∷◌, ◌++◌, length, OnOk};
ghost use Rattle.iloc_ops.specs.declared.file.Block.{Block as block_value};

use iloc_ops::{Block, MAX_BLOCKS, MAX_OPS, NoMemory};
use std::alloc::Global;

/// Takes the blocks of a text, one after another.
pub trait TakeBlocks {
    // From the first state to the second one it took these blocks.
    ghost took: { Self → List block_value → Self → Type 0 };

    /// Takes the block with this number, counted from 1. The block is lent: its buffers are reused for the next one.
    ///
    /// Promise: after it the taker has taken this block after all earlier ones.
    fn take(&mut self, alloc: Global, number: usize, block: &Block) -> Result<(), NoMemory>
        requires first { 1 ≤ number }
        requires last { number ≤ MAX_BLOCKS }
        requires short { length block.now.ops ≤ MAX_OPS }
        ensures { (start : Self) (blocks : List block_value) → took start blocks self.old →
            length blocks + 1 ≡ number → OnOk result (took start (blocks ++ block.now ∷ []) self.new) };

    // At first it took none.
    ghost took_none: { (start : Self) → took start [] start };
}

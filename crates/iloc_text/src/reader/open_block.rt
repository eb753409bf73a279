//! The block that is being read: how the blocks of a file grow, line by line, within the limits.
ghost use Rattle.std.specs.Prelude.{◌≡◌, ◌+◌, ◌<◌, ◌≤◌, ◌++◌, [], List, IsUtf8, None, IfOk, OnOk, length};
ghost use Rattle.std.specs.Option.{ForSome, option_copied};
ghost use Rattle.iloc_ops.specs.declared.file.Block.{Block as block_value};
ghost use Rattle.iloc_ops.specs.Limits.{MAX_BLOCKS, MAX_OPS};
ghost use Rattle.iloc_text.specs.Steps.LineReads.{label_of};
ghost use Rattle.iloc_text.specs.Steps.Growth.{opened, with_op, with_optional_op, with_line, Grows};

use crate::fault::ReadFault;
use crate::line::Line;
use crate::reader::copies::Copies;
use crate::reader::taker::TakeBlocks;
use iloc_ops::{Block, Blocks, MAX_BLOCKS, MAX_OPS, Name, NoMemory, Op, Ops};
use std::alloc::Global;
use std::str;

/// The block whose lines are being read, within the limits. Its buffers are reused for each block.
#[derive(Drop)]
pub struct OpenBlock {
    // How many blocks there are with this one; 0 where none is open yet.
    count: usize,
    // Its name and the operations read so far.
    block: Block,
    ghost few: { count ≤ MAX_BLOCKS },
    ghost short: { length block.ops ≤ MAX_OPS },
}

/// `bytes` as a text.
fn text_of(bytes: &[u8]) -> &str
    requires { IsUtf8 bytes.now }
    ensures { result.now ≡ bytes.now }
{
    unsafe { str::from_utf8_unchecked(bytes) }
}

/// The name with this text, if there is one.
fn name_of(alloc: Global, text: Option<&str>) -> Result<Option<Name>, NoMemory>
    ensures { IfOk result (λ name. name ≡ option_copied text.entry) }
{
    match text {
        Some(text) => Ok(Some(Name::from_str(alloc, text)?)),
        None => Ok(None),
    }
}

impl OpenBlock {
    ghost use Rattle.iloc_text.specs.Files.{AreWithinLimits};
    ghost use Rattle.iloc_text.specs.Steps.Copied.{has_copied};
    ghost use Rattle.iloc_text.specs.Steps.Open.{AreSoFar, HasTaken};

    /// No block is open.
    pub fn none(alloc: Global) -> OpenBlock
        ensures { AreSoFar [] result [] }
    {
        let ops = Ops::new(Vec::new(alloc));
        let block = Block { name: None, ops };
        OpenBlock { count: 0, block }
    }

    /// How many blocks there are with the open one.
    pub fn count(&self) -> usize
        ensures { result ≡ self.now.count }
    {
        self.count
    }

    /// Hands the open block over, if there is one.
    pub fn hand_over<T: TakeBlocks>(&self, alloc: Global, taker: &mut T) -> Result<(), NoMemory>
        ensures { (start : T) (blocks : List block_value) →
            HasTaken T.took start taker.old self.now blocks → OnOk result (T.took start blocks taker.new) }
    {
        if self.count > 0 {
            taker.take(alloc, self.count, &self.block)?;
        }
        Ok(())
    }

    /// Hands over the open block, and all of `blocks` but the last one, which it opens.
    pub fn hand_on(
        &mut self,
        alloc: Global,
        taker: &mut Copies,
        blocks: Blocks,
    ) -> Result<(), NoMemory>
        requires few { self.old.count + length blocks ≤ MAX_BLOCKS }
        requires limits { AreWithinLimits blocks }
        ensures { (start : Copies) (before : List block_value) → HasTaken has_copied start taker.old self.old before →
            OnOk result (HasTaken has_copied start taker.new self.new (before ++ blocks)) }
    {
        let mut further = blocks.into_vec();
        let count = self.count + further.len();
        let Some(last) = further.pop() else {
            return Ok(());
        };
        self.hand_over(alloc, taker)?;
        taker.append(alloc, further)?;
        self.count = count;
        self.block = last;
        Ok(())
    }

    /// Opens a block without operations, which the line with this number asks for.
    fn open<T: TakeBlocks>(
        &mut self,
        alloc: Global,
        taker: &mut T,
        name: Option<&str>,
        number: u32,
    ) -> Result<(), ReadFault>
        ensures { (start : T) (blocks : List block_value) → HasTaken T.took start taker.old self.old blocks →
            Grows (HasTaken T.took start taker.new self.new) (opened (option_copied name.entry) blocks) number result }
    {
        if self.count == MAX_BLOCKS {
            return Err(ReadFault::TooManyBlocks(number));
        }
        self.hand_over(alloc, taker)?;
        self.count += 1;
        self.block.ops.clear();
        self.block.name = name_of(alloc, name)?;
        Ok(())
    }

    /// Opens a block without a name where none is open yet.
    #[cold]
    #[inline(never)]
    fn open_unnamed(&mut self)
        requires { self.old.count ≡ 0 }
        ensures { (done blocks : List block_value) → AreSoFar done self.old blocks →
            AreSoFar done self.new (opened None blocks) }
    {
        let block = &mut self.block;
        block.ops.clear();
        block.name = None;
        self.count = 1;
    }

    /// Adds the operation to the open block, which is there.
    #[inline(always)]
    fn push(&mut self, op: Op, number: u32) -> Result<(), ReadFault>
        ensures { (done blocks : List block_value) → AreSoFar done self.old blocks → 0 < length blocks →
            Grows (AreSoFar done self.new) (with_op op blocks) number result }
    {
        if self.block.ops.push_within(MAX_OPS, op)? {
            Ok(())
        } else {
            Err(ReadFault::TooManyOperations(number))
        }
    }

    /// Adds the operation, if there is one, to the open block, or to an unnamed block where none is open yet.
    #[inline(always)]
    pub fn add_op<T: TakeBlocks>(
        &mut self,
        alloc: Global,
        taker: &mut T,
        op: Option<Op>,
        number: u32,
    ) -> Result<(), ReadFault>
        ensures { (start : T) (blocks : List block_value) → HasTaken T.took start taker.old self.old blocks →
            Grows (HasTaken T.took start taker.new self.new) (with_optional_op op blocks) number result }
    {
        let Some(op) = op else {
            return Ok(());
        };
        if self.count == 0 {
            self.open_unnamed();
        }
        self.push(op, number)
    }

    /// Adds what the line with this number reads as.
    pub fn add_line<T: TakeBlocks>(
        &mut self,
        alloc: Global,
        taker: &mut T,
        line: Line<'_>,
        number: u32,
    ) -> Result<(), ReadFault>
        requires { ForSome (label_of line) IsUtf8 }
        ensures { (start : T) (blocks : List block_value) → HasTaken T.took start taker.old self.old blocks →
            Grows (HasTaken T.took start taker.new self.new) (with_line (label_of line.entry) line.entry.op blocks) number result }
    {
        if let Some(label) = line.label {
            self.open(alloc, taker, Some(text_of(label)), number)?;
        }
        self.add_op(alloc, taker, line.op, number)
    }
}

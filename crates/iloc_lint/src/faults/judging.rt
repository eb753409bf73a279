//! What becomes of the counts with a line, and why it is refused.
ghost use Rattle.std.specs.Prelude.{◌≡◌, ◌≤◌, ◌<◌, ◌+◌, ◌^◌, [], List, Option, ℕ, IfOk, is_some, option_to_list, length};
ghost use Rattle.iloc_ops.specs.Limits.{MAX_INPUT};
ghost use Rattle.iloc_text.specs.Files.{HasNoLineEnd, Reading};
ghost use Rattle.iloc_lint.specs.Steps.Counted.{AddsReading, Count, Judged, grown};

use crate::alone::{Content, Unknown, read_alone};
use crate::faults::counts::Counts;
use iloc_ops::{MAX_BLOCKS, MAX_OPS, NoMemory, Op};
use iloc_text::ReadFault;
use std::alloc::Global;

/// 1 if there is an operation, else 0.
fn one_if(op: &Option<Op>) -> usize
    ensures { result ≡ length (option_to_list op.now) }
{
    match op {
        Some(_) => 1,
        None => 0,
    }
}

impl Counts {
    /// There is no line yet.
    pub fn none() -> Counts
        ensures { Count [] result }
    {
        Counts {
            blocks: 0,
            last: 0,
            ops: 0,
        }
    }

    /// How many blocks there are with a line that says so, and how many operations the last has.
    fn grown(&self, said: &Content) -> (usize, usize)
        ensures { result ≡ grown self.now.blocks self.now.last said.now.labelled (is_some said.now.op) }
    {
        match (said.labelled, said.op.is_some()) {
            (true, true) => (self.blocks + 1, 1),
            (true, false) => (self.blocks + 1, 0),
            (false, false) => (self.blocks, self.last),
            (false, true) if self.blocks == 0 => (1, 1),
            (false, true) => (self.blocks, self.last + 1),
        }
    }

    /// Adds a line with this number that says so, or answers which limit it goes beyond.
    fn add(&mut self, said: &Content, number: u32) -> Result<(), ReadFault>
        requires { self.old.ops < 2 ^ 32 }
        ensures { (before : List Reading) (label : Option (List ℕ)) → Count before self.old →
            said.now.labelled ≡ is_some label →
            AddsReading before (record { label = label; op = said.now.op }) number self.old self.new result }
    {
        let (blocks, last) = self.grown(said);
        if blocks > MAX_BLOCKS {
            return Err(ReadFault::TooManyBlocks(number));
        }
        if last > MAX_OPS {
            return Err(ReadFault::TooManyOperations(number));
        }
        let ops = self.ops + one_if(&said.op);
        *self = Counts { blocks, last, ops };
        Ok(())
    }

    /// Adds the line with this number, or answers why it is refused, and so counts as empty.
    pub fn judge(
        &mut self,
        alloc: Global,
        line: &[u8],
        number: u32,
    ) -> Result<Option<ReadFault>, NoMemory>
        requires single { HasNoLineEnd line.now }
        requires short { length line.now ≤ MAX_INPUT }
        requires room { self.old.ops < 2 ^ 32 }
        ensures { (before : List Reading) → Count before self.old → length before + 1 ≡ number →
            IfOk result (Judged before line.now self.new) }
    {
        match read_alone(alloc, line) {
            Ok(said) => Ok(self.add(&said, number).err()),
            Err(Unknown::Bad) => Ok(Some(ReadFault::BadLine(number))),
            Err(Unknown::TooLarge) => Ok(Some(ReadFault::NumberTooLarge(number))),
            Err(Unknown::NoMemory) => Err(NoMemory),
        }
    }
}

//! All faults of a text.
ghost use Rattle.std.specs.Prelude.{◌≡◌, [], ◌∷◌, ◌==◌, List, IfOk};
ghost use Rattle.iloc_text.specs.declared.fault.ReadFault.TheVariants.{InputTooLong as input_too_long};
ghost use Rattle.iloc_lint.specs.Faults.{IsLinted, Refusal};
ghost use Rattle.iloc_lint.specs.Refused.{AreKept};

mod counts;
mod judging;

use crate::refused::Refusals;
use counts::Counts;
use iloc_ops::{MAX_INPUT, NoMemory};
use iloc_text::{ReadFault, split_line};
use std::alloc::Global;

/// What is wrong with a text, and how much the rest of it holds.
#[derive(Drop)]
pub struct Linted<'a> {
    /// The lines that are refused; none where the text reads.
    pub faults: Refusals<'a>,
    /// How many blocks there are.
    pub blocks: usize,
    /// How many operations all blocks have.
    pub ops: usize,
}

impl Linted<'_> {
    /// Whether no line is refused.
    pub fn reads(&self) -> bool
        ensures { result ≡ (self.now.faults.count == 0) }
    {
        self.faults.count == 0
    }
}

/// A text that is too long has that fault alone.
fn too_long<'a>(alloc: Global) -> Result<Linted<'a>, NoMemory>
    ensures { IfOk result (λ found. AreKept (record { line = []; fault = input_too_long } ∷ []) found.faults
        × (found.blocks ≡ 0) × (found.ops ≡ 0)) }
{
    let mut faults = Refusals::none(alloc);
    faults.add(&[], Some(ReadFault::InputTooLong))?;
    Ok(Linted {
        faults,
        blocks: 0,
        ops: 0,
    })
}

/// All faults of a text: for each line whether the grammar refuses it, and why, where each line that is refused before it
/// counts as empty. The first 1,000 are kept, and all are counted.
///
/// Promise: a line counts exactly if the reader would refuse the text there, were each line before it that counts empty.
pub fn lint(alloc: Global, input: &[u8]) -> Result<Linted<'_>, NoMemory>
    ensures { IfOk result (λ found. (refusals : List Refusal) × IsLinted input.now refusals found.blocks found.ops
        × AreKept refusals found.faults) }
{
    if input.len() > MAX_INPUT {
        let found = too_long(alloc)?;
        return Ok(found);
    }
    let mut faults = Refusals::none(alloc);
    let mut counts = Counts::none();
    let mut number = 0;
    let mut rest = Some(input);
    while let Some(text) = rest {
        let (line, after) = split_line(text);
        number += 1;
        let fault = counts.judge(alloc, line, number)?;
        faults.add(line, fault)?;
        rest = after;
    }
    Ok(Linted {
        faults,
        blocks: counts.blocks,
        ops: counts.ops,
    })
}

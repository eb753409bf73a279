//! The reader: from bytes to the blocks that they denote.
ghost use Rattle.std.specs.Prelude.{◌≡◌, ◌≢◌, ◌+◌, ◌<◌, ◌≤◌, ◌^◌, length, List, IfOk, IfErr, OnOk};
ghost use Rattle.iloc_ops.specs.declared.file.Block.{Block};
ghost use Rattle.iloc_text.specs.declared.fault.ReadFault.TheVariants.{NoMemory as no_memory};
ghost use Rattle.iloc_text.specs.Steps.LineReads.{FirstLine};
ghost use Rattle.iloc_text.specs.Lines.{lines_of};
ghost use Rattle.iloc_text.specs.Steps.Open.{HasTaken};
ghost use Rattle.iloc_text.specs.Steps.Verdicts.{Answered, FrontAnswered, answer_from};
ghost use Rattle.iloc_text.specs.Files.{AreWithinLimits, Denotes, IsRefused};

pub mod copies;
pub mod open_block;
pub mod taker;

use crate::fault::ReadFault;
use crate::line::one_pass::{fast_body, fast_line};
use crate::line::scan::after_blanks;
use crate::line::{Line, ParseFault, read_line};
use crate::line_ends::split_line;
use crate::reader::copies::Copies;
use crate::reader::open_block::OpenBlock;
use crate::reader::taker::TakeBlocks;
use iloc_ops::{IlocFile, MAX_INPUT};
use std::alloc::Global;

/// The first line of the text and what follows its line end, if it has one; or why it has no reading.
#[inline(always)]
fn first_line(text: &[u8]) -> Result<(Line<'_>, Option<&[u8]>), ParseFault>
    ensures { FirstLine text.now result }
{
    if let Some(found) = fast_line(text) {
        return Ok(found);
    }
    let (bytes, after) = split_line(text);
    let line = read_line(bytes)?;
    Ok((line, after))
}

/// Reads the lines at the front of the text that are operations found on the fast path, or nothing but a comment, after `before`
/// lines. Answers the text behind them, and how many lines were read in all. In this loop of its own the text is never an
/// `Option`: that saves `run` 5 % of its instructions.
#[inline(always)]
fn read_bodies<'a, T: TakeBlocks>(
    alloc: Global,
    text: &'a [u8],
    before: u32,
    open_block: &mut OpenBlock,
    taker: &mut T,
) -> Result<(&'a [u8], u32), ReadFault>
    requires { before + length (lines_of text.now) < 2 ^ 32 }
    ensures number { IfOk result (λ left. left.1 + length (lines_of left.0.now) ≡ before + length (lines_of text.now)) }
    ensures fewer { IfOk result (λ left. length (lines_of left.0.now) ≤ length (lines_of text.now)) }
    ensures blocks { (start : T) (blocks : List Block) → HasTaken T.took start taker.old open_block.old blocks →
        FrontAnswered (HasTaken T.took start taker.new open_block.new) (answer_from blocks (before + 1) (lines_of text.now)) result }
{
    let mut number = before;
    let mut rest = text;
    while let Some((op, after)) = fast_body(after_blanks(rest)) {
        number += 1;
        open_block.add_op(alloc, taker, op, number)?;
        rest = after;
    }
    Ok((rest, number))
}

/// Reads the lines of the text, after `before` lines, and hands each block over as soon as the next one opens. Answers
/// how many lines were read in all.
pub(crate) fn read_lines<T: TakeBlocks>(
    alloc: Global,
    text: &[u8],
    before: u32,
    open_block: &mut OpenBlock,
    taker: &mut T,
) -> Result<u32, ReadFault>
    requires { before + length text.now + 1 < 2 ^ 32 }
    ensures number { IfOk result (λ number. number ≡ before + length (lines_of text.now)) }
    ensures blocks { (start : T) (blocks : List Block) → HasTaken T.took start taker.old open_block.old blocks →
        Answered (HasTaken T.took start taker.new open_block.new) (answer_from blocks (before + 1) (lines_of text.now)) result }
{
    let mut number = before;
    let mut rest = Some(text);
    while let Some(text) = rest {
        let (text, read) = read_bodies(alloc, text, number, open_block, taker)?;
        number = read + 1;
        let (line, after) = match first_line(text) {
            Ok(found) => found,
            Err(ParseFault::Bad) => return Err(ReadFault::BadLine(number)),
            Err(ParseFault::NumberTooLarge) => return Err(ReadFault::NumberTooLarge(number)),
        };
        open_block.add_line(alloc, taker, line, number)?;
        rest = after;
    }
    Ok(number)
}

/// Reads a text of ILOC and hands each block over, in order, as soon as its last line is read. Answers how many lines the
/// text has.
///
/// Promise: the taker gets exactly the blocks that the text denotes, in order, or the text is refused as it denotes.
///
/// A text that is too long is refused before any line is looked at; otherwise the earliest faulty line is named. On one
/// line `BadLine` comes before `NumberTooLarge`, `TooManyBlocks` and `TooManyOperations`. `NoMemory` may come instead, if
/// the taker answers it or a growth is refused. When a text is refused, blocks may have been handed over already.
pub fn read_blocks<T: TakeBlocks>(
    alloc: Global,
    input: &[u8],
    taker: &mut T,
) -> Result<u32, ReadFault>
    ensures lines { IfOk result (λ lines. lines ≡ length (lines_of input.now)) }
    ensures ok { OnOk result
        ((blocks : List Block) × Denotes input.now blocks × T.took taker.old blocks taker.new) }
    ensures err { IfErr result (λ fault. fault ≢ no_memory → IsRefused input.now fault) }
{
    if input.len() > MAX_INPUT {
        return Err(ReadFault::InputTooLong);
    }
    let mut open = OpenBlock::none(alloc);
    let lines = read_lines(alloc, input, 0, &mut open, taker)?;
    open.hand_over(alloc, taker)?;
    Ok(lines)
}

/// Reads a file of ILOC, as `read_blocks` does.
///
/// Promise: exactly the file that the text denotes, of at most 65,535 blocks, each of at most 10,000 operations, or the
/// refusal that it denotes.
pub fn read_file(alloc: Global, input: &[u8]) -> Result<IlocFile, ReadFault>
    ensures ok { IfOk result (λ file. Denotes input.now file.blocks) }
    ensures limits { IfOk result (λ file. AreWithinLimits file.blocks) }
    ensures err { IfErr result (λ fault. fault ≢ no_memory → IsRefused input.now fault) }
{
    let mut copies = Copies::new(alloc);
    read_blocks(alloc, input, &mut copies)?;
    Ok(copies.into_file(alloc)?)
}

//! The reader: from bytes to blocks and what is proposed for them.
ghost use Rattle.std.specs.Prelude.{◌≢◌, ◌≤◌, ◌+◌, length, IfOk, IfErr};
ghost use Rattle.iloc_text.specs.declared.fault.ReadFault.TheVariants.{NoMemory as no_memory};
ghost use Rattle.iloc_text.specs.Lines.{lines_left};
ghost use Rattle.iloc_rows.specs.declared.fault.RowsFault.TheVariants.{Read as read};
ghost use Rattle.iloc_rows.specs.Submissions.{Denotes, IsRefused, Propose, HaveFirstFault, IsTask, IsNoTask, ProposeApart, AreRefusedFor};

use crate::blocks_end::cut_before_rows;
use crate::fault::RowsFault;
use crate::proposal::Proposals;
use crate::proposing::Proposing;
use crate::told::read_told_line;
use iloc_ops::{Block, Blocks, MAX_INPUT};
use iloc_text::{ReadFault, read_file, split_line};
use std::alloc::Global;

/// Blocks, and what is proposed for each.
#[derive(Debug, Drop)]
pub struct Submission {
    /// The blocks, in the order of their lines.
    pub blocks: Blocks,
    /// As many proposals, in the order of the blocks.
    pub proposals: Proposals,
}

/// What the lines below the blocks, after `lines` other lines, propose for the blocks, or the first fault.
fn read_proposals(
    alloc: Global,
    blocks: &[Block],
    rows: Option<&[u8]>,
    lines: u32,
) -> Result<Proposals, RowsFault>
    requires { lines + length (lines_left rows) ≤ MAX_INPUT + 1 }
    ensures ok { IfOk result (Propose blocks.now lines (lines_left rows.entry)) }
    ensures err { IfErr result (λ fault. fault ≢ read no_memory →
        HaveFirstFault blocks.now lines (lines_left rows.entry) fault) }
{
    let mut proposing = Proposing::none(alloc, blocks.len())?;
    let mut number = lines;
    let mut rest = rows;
    while let Some(text) = rest {
        number += 1;
        let (bytes, after) = split_line(text);
        proposing.add(alloc, blocks, read_told_line(blocks, bytes), number)?;
        rest = after;
    }
    Ok(Proposals::of(alloc, proposing.proposals)?)
}

/// Reads blocks of ILOC, followed by schedule lines.
///
/// Promise: exactly the blocks and proposals that the text denotes, or the refusal that it denotes.
///
/// The blocks end before the first schedule line, and what precedes it is read as `iloc_text::read_file` reads it. If that
/// has no block, the text is refused whatever follows. A text that is too long is refused before any line is looked at;
/// otherwise the earliest faulty line is named. A line below the blocks that can't be read is a row without operations of its
/// block, and bad only where there is no block of which it could be. The head of a later block by another name turns to that
/// block, and is such a row. `NoMemory` may come instead, if a growth is refused.
pub fn read_submission(alloc: Global, input: &[u8]) -> Result<Submission, RowsFault>
    ensures ok { IfOk result (λ found. Denotes input.now found.blocks found.proposals) }
    ensures err { IfErr result (λ fault. fault ≢ read no_memory → IsRefused input.now fault) }
{
    if input.len() > MAX_INPUT {
        return Err(RowsFault::Read(ReadFault::InputTooLong));
    }
    let cut = cut_before_rows(input);
    let file = read_file(alloc, cut.blocks)?;
    let blocks = file.blocks.as_slice();
    if blocks.is_empty() {
        return Err(RowsFault::NoBlocks);
    }
    let proposals = read_proposals(alloc, blocks, cut.rows, cut.lines)?;
    Ok(Submission {
        blocks: file.blocks,
        proposals,
    })
}

/// Reads a task, apart from what is handed in for it.
///
/// Promise: exactly the blocks that the text denotes, at least one, or the refusal that it denotes.
///
/// It is read as `iloc_text::read_file` reads it, so a schedule line is a bad line. `NoMemory` may come instead, if a
/// growth is refused.
pub fn read_task(alloc: Global, input: &[u8]) -> Result<Blocks, RowsFault>
    ensures ok { IfOk result (IsTask input.now) }
    ensures err { IfErr result (λ fault. fault ≢ read no_memory → IsNoTask input.now fault) }
{
    let file = read_file(alloc, input)?;
    if file.blocks.as_slice().is_empty() {
        return Err(RowsFault::NoBlocks);
    }
    Ok(file.blocks)
}

/// Reads schedule lines alone, as somebody hands them in for these blocks. Its lines are counted from its first.
///
/// Promise: exactly the proposals that the text denotes for these blocks, or the refusal that it denotes.
///
/// A text that is too long is refused before any line is looked at; otherwise the earliest faulty line is named, as by
/// `read_submission`. `NoMemory` may come instead, if a growth is refused.
pub fn read_rows(alloc: Global, blocks: &[Block], input: &[u8]) -> Result<Proposals, RowsFault>
    ensures ok { IfOk result (ProposeApart blocks.now input.now) }
    ensures err { IfErr result (λ fault. fault ≢ read no_memory → AreRefusedFor blocks.now input.now fault) }
{
    if input.len() > MAX_INPUT {
        return Err(RowsFault::Read(ReadFault::InputTooLong));
    }
    read_proposals(alloc, blocks, Some(input), 0)
}

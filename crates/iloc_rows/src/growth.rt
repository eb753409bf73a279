//! How what is proposed grows, line by line.
ghost use Rattle.std.specs.Prelude.{◌≡◌, ◌<◌, ◌+◌, ℕ, max, [], ◌++◌, List, length, vec_len, slice_set, option_map, IfOk, IfSome, OnOk};
ghost use Rattle.iloc_text.specs.ScheduleLines.{said_of};
ghost use Rattle.iloc_rows.specs.Told.{Told, told_of};
ghost use Rattle.iloc_rows.specs.Told.Told.{read};
ghost use Rattle.iloc_text.specs.declared.fault.ReadFault.TheVariants.{BadLine as bad_line};
ghost use Rattle.iloc_rows.specs.declared.fault.RowsFault.TheVariants.{Read as read_fault, NoSuchBlock as no_such_block};
ghost use Rattle.iloc_rows.specs.Proposing.{is_empty, filled, slot, proposals_of};
ghost use Rattle.iloc_rows.specs.Steps.Growth.{none_proposed, with_row, with_cycles, with_unread, or_this, place, later_place, at_place, HasProposed, AddsTold, Becomes, RowAdds, Turns};

use crate::fault::RowsFault;
use crate::proposal::{LineText, Proposed, RowOps, Rows, Unread};
use crate::proposing::Proposing;
use crate::told::{ToldLine, is_named};
use iloc_ops::{Block, MAX_OPS, NoMemory, Op};
use iloc_text::{ReadFault, ScheduleLine};
use iloc_timed::{MAX_ROWS, Row};
use std::alloc::Global;

/// Whether the operation fills no slot: a `nop` is written for an empty one.
fn is_empty(op: &Op) -> bool
    ensures { result ≡ is_empty op.now }
{
    matches!(op, Op::Nop)
}

impl Proposed {
    /// Nothing is proposed.
    fn none(alloc: Global) -> Proposed
        ensures { result ≡ none_proposed }
    {
        Proposed {
            ops: RowOps::none(alloc),
            rows: Rows::none(alloc),
            claimed: None,
            unread: None,
        }
    }

    /// Adds the operation, if it fills its slot, and gives its number.
    fn push_slot(&mut self, op: Op) -> Result<Option<usize>, NoMemory>
        ensures slot { IfOk result (λ place. place ≡ slot (length self.old.ops) op) }
        ensures ops { OnOk result (self.new ≡ record self.old { ops = self.old.ops ++ filled op }) }
    {
        if is_empty(&op) {
            return Ok(None);
        }
        let place = self.ops.as_slice().len();
        self.ops.push(op)?;
        Ok(Some(place))
    }

    /// Adds a row.
    fn push_row(&mut self, zero: Op, one: Op) -> Result<(), NoMemory>
        requires { length self.old.rows < MAX_ROWS }
        ensures { OnOk result (self.new ≡ with_row self.old zero one) }
    {
        let zero = self.push_slot(zero)?;
        let one = self.push_slot(one)?;
        self.rows.push(Row { zero, one })?;
        Ok(())
    }

    /// Notes the row that comes next as a line that can't be read, unless there is one already.
    fn note_unread(&mut self, alloc: Global, text: &[u8], line: u32) -> Result<(), NoMemory>
        requires { length self.old.rows < MAX_ROWS }
        ensures { OnOk result (self.new ≡ record self.old {
          unread = or_this self.old.unread record { line = line; row = length self.old.rows; text = text.now };
        }) }
    {
        if self.unread.is_none() {
            let text = LineText::of(alloc, text)?;
            let row = self.rows.as_slice().len() as u32;
            self.unread = Some(Unread { line, row, text });
        }
        Ok(())
    }

    /// Adds a line that can't be read, as an empty row.
    fn push_unread(&mut self, alloc: Global, text: &[u8], line: u32) -> Result<(), NoMemory>
        requires { length self.old.rows < MAX_ROWS }
        ensures { OnOk result (self.new ≡ with_unread self.old line text.now) }
    {
        self.note_unread(alloc, text, line)?;
        self.rows.push(Row {
            zero: None,
            one: None,
        })?;
        Ok(())
    }
}

impl Proposing {
    /// Nothing is proposed for `count` blocks.
    pub fn none(alloc: Global, count: usize) -> Result<Proposing, NoMemory>
        ensures proposals { IfOk result (λ state. state.proposals.items ≡ proposals_of count []) }
        ensures last { IfOk result (λ state. state.last ≡ 0) }
    {
        let mut proposals = Vec::with_capacity(alloc, count)?;
        for _ in 0..count {
            proposals.push(Proposed::none(alloc))?;
        }
        Ok(Proposing { proposals, last: 0 })
    }

    /// The place of the block to which rows and numbers of cycles belong, if there is one.
    fn place(&self) -> Option<usize>
        ensures place { result ≡ place self.now.last (vec_len self.now.proposals) }
        ensures within { IfSome result (λ i. i < vec_len self.now.proposals) }
    {
        if self.last > 0 {
            Some(self.last as usize - 1)
        } else if self.proposals.len() == 1 {
            Some(0)
        } else {
            None
        }
    }

    /// Adds a row to what is proposed for the block at this place.
    fn push_row(&mut self, i: usize, zero: Op, one: Op) -> Result<(), NoMemory>
        requires within { i < vec_len self.old.proposals }
        requires few { length (at_place self.old.proposals.items i).rows < MAX_ROWS }
        ensures proposals { OnOk result (self.new.proposals.items
            ≡ slice_set self.old.proposals.items i (with_row (at_place self.old.proposals.items i) zero one)) }
        ensures last { self.new.last ≡ self.old.last }
    {
        self.proposals[i].push_row(zero, one)?;
        Ok(())
    }

    /// Adds a line that can't be read to what is proposed for the block at this place.
    fn push_unread(
        &mut self,
        alloc: Global,
        i: usize,
        text: &[u8],
        line: u32,
    ) -> Result<(), NoMemory>
        requires within { i < vec_len self.old.proposals }
        requires few { length (at_place self.old.proposals.items i).rows < MAX_ROWS }
        ensures proposals { OnOk result (self.new.proposals.items
            ≡ slice_set self.old.proposals.items i (with_unread (at_place self.old.proposals.items i) line text.now)) }
        ensures last { self.new.last ≡ self.old.last }
    {
        self.proposals[i].push_unread(alloc, text, line)?;
        Ok(())
    }

    /// Sets the last claim of the block at this place.
    fn set_cycles(&mut self, i: usize, cycles: u32)
        requires { i < vec_len self.old.proposals }
        ensures proposals { self.new.proposals.items
            ≡ slice_set self.old.proposals.items i (with_cycles (at_place self.old.proposals.items i) cycles) }
        ensures last { self.new.last ≡ self.old.last }
    {
        self.proposals[i].claimed = Some(cycles);
    }

    /// Adds a row on the line with this number.
    fn add_row(&mut self, zero: Op, one: Op, number: u32) -> Result<(), RowsFault>
        requires { (i : ℕ) → length (at_place self.old.proposals.items i).rows < MAX_ROWS }
        ensures { RowAdds self.old zero one number self.new result }
    {
        let Some(i) = self.place() else {
            return Err(RowsFault::NoSuchBlock(number));
        };
        self.push_row(i, zero, one)?;
        if self.proposals[i].ops.as_slice().len() > MAX_OPS {
            return Err(RowsFault::Read(ReadFault::TooManyOperations(number)));
        }
        self.last = self.last.max(1);
        Ok(())
    }

    /// Adds a claim on the line with this number.
    fn add_cycles(&mut self, cycles: u32, number: u32) -> Result<(), RowsFault>
        ensures { Becomes self.old (place self.old.last (length self.old.proposals.items)) (max 1 self.old.last)
            (λ p. with_cycles p cycles) (no_such_block number) self.new result }
    {
        let Some(i) = self.place() else {
            return Err(RowsFault::NoSuchBlock(number));
        };
        self.set_cycles(i, cycles);
        self.last = self.last.max(1);
        Ok(())
    }

    /// Adds a line that can't be read, with its number.
    fn add_unread(&mut self, alloc: Global, text: &[u8], number: u32) -> Result<(), RowsFault>
        requires { (i : ℕ) → length (at_place self.old.proposals.items i).rows < MAX_ROWS }
        ensures { Becomes self.old (place self.old.last (length self.old.proposals.items)) self.old.last (λ p. with_unread p number text.now)
            (read_fault (bad_line number)) self.new result }
    {
        let Some(i) = self.place() else {
            return Err(RowsFault::Read(ReadFault::BadLine(number)));
        };
        self.push_unread(alloc, i, text, number)?;
        Ok(())
    }

    /// The place of the block with this number, if it comes after the last one and is there.
    fn later_place(&self, block: u32) -> Option<usize>
        ensures place { result ≡ later_place self.now.last block (vec_len self.now.proposals) }
        ensures within { IfSome result (λ i. i < vec_len self.now.proposals) }
    {
        if self.last < block && block as usize <= self.proposals.len() {
            Some(block as usize - 1)
        } else {
            None
        }
    }

    /// Turns to the block of which the line with this number is the head by another name, and adds it as one that can't be read.
    fn add_misnamed(
        &mut self,
        alloc: Global,
        block: u32,
        text: &[u8],
        number: u32,
    ) -> Result<(), RowsFault>
        requires { (i : ℕ) → length (at_place self.old.proposals.items i).rows < MAX_ROWS }
        ensures { Becomes self.old (later_place self.old.last block (length self.old.proposals.items)) block
            (λ p. with_unread p number text.now) (no_such_block number) self.new result }
    {
        let Some(place) = self.later_place(block) else {
            return Err(RowsFault::NoSuchBlock(number));
        };
        self.push_unread(alloc, place, text, number)?;
        self.last = block;
        Ok(())
    }

    /// Turns to the block that a head names on the line with this number.
    fn turn_to(
        &mut self,
        blocks: &[Block],
        block: u32,
        name: Option<&[u8]>,
        number: u32,
    ) -> Result<(), RowsFault>
        requires { length blocks.now ≡ length self.old.proposals.items }
        ensures { Turns blocks.now self.old block (option_map (λ text. text.now) name.entry) number self.new result }
    {
        if block <= self.last || !is_named(blocks, block, name) {
            return Err(RowsFault::NoSuchBlock(number));
        }
        self.last = block;
        Ok(())
    }

    /// Adds what `line`, which has this `number`, says of `blocks`.
    fn add_read(
        &mut self,
        blocks: &[Block],
        line: ScheduleLine<'_>,
        number: u32,
    ) -> Result<(), RowsFault>
        requires { (lines : List Told) × HasProposed blocks.now lines self.old × (length lines < MAX_ROWS) }
        ensures { (lines : List Told) → HasProposed blocks.now lines self.old →
            AddsTold blocks.now lines (read (said_of line.entry)) number self.new result }
    {
        match line {
            ScheduleLine::Empty | ScheduleLine::Total(_) => Ok(()),
            ScheduleLine::Row { zero, one } => self.add_row(zero, one, number),
            ScheduleLine::Head {
                number: block,
                name,
            } => self.turn_to(blocks, block, name, number),
            ScheduleLine::Cycles(cycles) => self.add_cycles(cycles, number),
        }
    }

    /// Adds what `line`, which has this `number`, tells of `blocks`.
    pub fn add(
        &mut self,
        alloc: Global,
        blocks: &[Block],
        line: ToldLine<'_>,
        number: u32,
    ) -> Result<(), RowsFault>
        requires { (lines : List Told) × HasProposed blocks.now lines self.old × (length lines < MAX_ROWS) }
        ensures { (lines : List Told) → HasProposed blocks.now lines self.old →
            AddsTold blocks.now lines (told_of number line.entry) number self.new result }
    {
        match line {
            ToldLine::Reads(line) => self.add_read(blocks, line, number),
            ToldLine::Unread(text) => self.add_unread(alloc, text, number),
            ToldLine::Misnamed(block, text) => self.add_misnamed(alloc, block, text, number),
        }
    }
}

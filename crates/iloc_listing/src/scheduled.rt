//! Entries of schedules, and the listing of them.
ghost use Rattle.std.specs.Prelude.{◌≡◌, ◌≤◌, ◌<◌, ◌^◌, ◌++◌, length, sum_by, IfOk, OnOk};
ghost use Rattle.iloc_ops.specs.Limits.{MAX_BLOCKS};
ghost use Rattle.iloc_listing.specs.Listing as listed;

use crate::lines::{count_of, push_numbered, push_schedule, push_total};
use crate::text::{FoldedText, Listing, ScheduleEntry};
use bytes::BytesMut;
use iloc_ops::{Block, NoMemory};
use iloc_timed::{Latencies, RowWriter, Schedule};
use std::alloc::Global;

/// Appends the comment that follows a schedule's cycles where a bound on them is known.
fn push_bound(text: &mut Vec<u8>, bound: Option<u64>, cycles: u64) -> Result<(), NoMemory>
    ensures { OnOk result (text.new.items ≡ text.old.items ++ listed.bound_comment bound cycles) }
{
    let Some(bound) = bound else {
        return Ok(());
    };
    let end: &[u8] = if cycles == bound {
        b" optimal\n"
    } else {
        b"\n"
    };
    push_numbered(text, b"// bound ", bound, b"")?;
    text.extend_from_slice(end)?;
    Ok(())
}

/// Makes entries of schedules, one after another.
#[derive(Drop)]
pub struct EntryMaker {
    alloc: Global,
    writer: RowWriter,
    /// The entry of a block, until it is kept.
    text: Vec<u8>,
    /// What the next entries are cut from.
    piece: BytesMut,
}

impl EntryMaker {
    /// One that has made none.
    pub fn new(alloc: Global) -> EntryMaker {
        EntryMaker {
            alloc,
            writer: RowWriter::new(),
            text: Vec::new(alloc),
            piece: BytesMut::new(alloc),
        }
    }

    /// The entry of the block with this number, counted from 1, and this schedule, whose cycles may have a known bound. It is
    /// folded where most of the schedule's rows are empty.
    pub fn entry(
        &mut self,
        latencies: &Latencies,
        number: usize,
        block: &Block,
        schedule: &Schedule,
        bound: Option<u64>,
    ) -> Result<ScheduleEntry, NoMemory>
        requires { number < 2 ^ 63 }
        ensures text { IfOk result (λ entry. entry.text
            ≡ listed.schedule_entry latencies.now number block.now.name schedule.now
            ++ listed.bound_comment bound (listed.cycles_of latencies.now schedule.now)) }
        ensures cycles { IfOk result (λ entry. entry.cycles ≡ listed.cycles_of latencies.now schedule.now) }
    {
        self.text.clear();
        let cycles = count_of(schedule, latencies);
        let count = u64::from(cycles);
        let name = block.name.as_ref();
        push_schedule(
            &mut self.text,
            &mut self.writer,
            number,
            name,
            schedule,
            count,
        )?;
        push_bound(&mut self.text, bound, count)?;
        let folds = cycles as usize / 4 > block.ops.len();
        let text = FoldedText::of(self.alloc, &mut self.piece, &mut self.text, folds)?;
        Ok(ScheduleEntry { text, cycles })
    }

    /// The entry with this `text`, for a schedule that takes `cycles` cycles.
    pub fn entry_of(&mut self, text: &[u8], cycles: u32) -> Result<ScheduleEntry, NoMemory>
        ensures text { IfOk result (λ entry. entry.text ≡ text.now) }
        ensures cycles { IfOk result (λ entry. entry.cycles ≡ cycles) }
    {
        let text = FoldedText::copied(self.alloc, &mut self.piece, text)?;
        Ok(ScheduleEntry { text, cycles })
    }
}

/// The sum of the cycles of `entries`.
fn cycles_of_all(entries: &[ScheduleEntry]) -> u64
    requires { length entries.now ≤ MAX_BLOCKS }
    ensures sum { result ≡ sum_by (λ entry. entry.cycles) entries.now }
    ensures small { result < 2 ^ 63 }
{
    let mut total = 0;
    for entry in entries {
        total += u64::from(entry.cycles);
    }
    total
}

/// The listing of `entries`, with the cycles of all at the end.
pub fn with_total(alloc: Global, entries: Vec<ScheduleEntry>) -> Result<Listing, NoMemory>
    requires { length entries.items ≤ MAX_BLOCKS }
    ensures { IfOk result (λ text. text ≡ listed.listing_of_entries entries.items) }
{
    let mut ending = Vec::new(alloc);
    push_total(&mut ending, cycles_of_all(&entries))?;
    Listing::of_entries(alloc, entries, ending)
}

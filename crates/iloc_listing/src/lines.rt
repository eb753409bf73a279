//! The lines of listings: of outcomes, of schedules and of their cycles.
ghost use Rattle.std.specs.Prelude.{◌≡◌, ◌+◌, ◌≤◌, ◌<◌, ◌^◌, ◌++◌, length, OnOk, IfOk};
ghost use Rattle.iloc_ops.specs.Limits.{MAX_BLOCKS};
ghost use Rattle.std.specs.Option.{option_copied};
ghost use Rattle.std.specs.Fmt.{decimal};
ghost use Rattle.iloc_listing.specs.Listing.{counts_listing};
ghost use Rattle.iloc_listing.specs.Listing as listed;

use crate::table::push_count;
use crate::words::push_words;
use iloc_meaning::Outcome;
use iloc_ops::{IlocFile, Name, NoMemory, write_text};
use iloc_timed::{Latencies, MAX_ROWS, Row, RowWriter, Schedule, cycles};
use itoa::write_digits;
use std::alloc::Global;

/// More bytes than a number takes with the words around it.
const LONGEST_LINE: usize = 48;

/// Appends a number with a word before it and one after it, in one go.
#[inline(always)]
#[tactic(auto, using(crate::proofs::Numbers::decimal_is_short))]
pub fn push_numbered(
    text: &mut Vec<u8>,
    before: &[u8],
    number: u64,
    after: &[u8],
) -> Result<(), NoMemory>
    requires { length before.now + length after.now ≤ 16 }
    ensures { OnOk result (text.new.items ≡ text.old.items ++ before.now ++ decimal number ++ after.now) }
{
    let mut line = [0; LONGEST_LINE];
    let end = write_text(&mut line, LONGEST_LINE, after);
    let end = write_digits(number, &mut line, end);
    let start = write_text(&mut line, end, before);
    text.extend_from_slice(&line[start..])?;
    Ok(())
}

/// Appends `block K NAME`, with `-` for a block without a name. As a call of its own `schedule` executes 2 instructions more for
/// each operation of blocks of ten.
#[inline(always)]
pub fn push_block_head(
    text: &mut Vec<u8>,
    number: usize,
    name: Option<&Name>,
) -> Result<(), NoMemory>
    requires { number < 2 ^ 63 }
    ensures { OnOk result
        (text.new.items ≡ text.old.items ++ listed.block_head number (option_copied name.entry)) }
{
    let name = match name {
        Some(name) => name.as_str(),
        None => "-",
    };
    push_numbered(text, b"block ", number as u64, b" ")?;
    text.extend_from_slice(name.as_bytes())?;
    Ok(())
}

/// Appends what is listed of block `number`, counted from 1, which emitted `words`, or faulted where there are none.
/// After a refusal a part of it may follow the text.
pub fn push_outcome(
    text: &mut Vec<u8>,
    number: usize,
    name: Option<&Name>,
    words: Option<&[i32]>,
) -> Result<(), NoMemory>
    requires { number < 2 ^ 63 }
    ensures { OnOk result (text.new.items
        ≡ text.old.items ++ listed.shown_entry number (option_copied name.entry) (option_copied words.entry)) }
{
    push_block_head(text, number, name)?;
    text.push(b'\n')?;
    match words {
        Some(words) => push_words(text, words),
        None => Ok(text.extend_from_slice(b"fault\n")?),
    }
}

/// Whether no operation is issued in a row.
fn is_empty(row: &Row) -> bool
    ensures { result ≡ listed.is_empty row.now }
{
    row.zero.is_none() && row.one.is_none()
}

/// The rows up to the last that holds an operation.
fn held_rows(rows: &[Row]) -> &[Row]
    ensures { result.now ≡ listed.held_rows rows.now }
{
    let mut count = rows.len();
    while count > 0 && is_empty(&rows[count - 1]) {
        count -= 1;
    }
    &rows[..count]
}

/// Appends the rows and the `cycles` of block `number`, counted from 1, with its `schedule`. Empty rows after the last
/// operation are left out.
pub(crate) fn push_schedule(
    text: &mut Vec<u8>,
    writer: &mut RowWriter,
    number: usize,
    name: Option<&Name>,
    schedule: &Schedule,
    cycles: u64,
) -> Result<(), NoMemory>
    requires number { number < 2 ^ 63 }
    requires cycles { cycles < 2 ^ 63 }
    ensures { OnOk result (text.new.items ≡ text.old.items
        ++ listed.schedule_lines number (option_copied name.entry) schedule.now cycles) }
{
    push_block_head(text, number, name)?;
    text.push(b'\n')?;
    writer.push_lines(text, schedule.ops(), held_rows(schedule.rows()))?;
    push_numbered(text, b"cycles ", cycles, b"\n")
}

/// Appends the line of the cycles of all.
pub fn push_total(text: &mut Vec<u8>, total: u64) -> Result<(), NoMemory>
    requires { total < 2 ^ 63 }
    ensures { OnOk result (text.new.items ≡ text.old.items ++ listed.total_of total) }
{
    push_numbered(text, b"total ", total, b"\n")
}

/// How many cycles a schedule takes, which 32 bits hold.
pub fn count_of(schedule: &Schedule, latencies: &Latencies) -> u32
    ensures { result ≡ listed.cycles_of latencies.now schedule.now }
{
    prove!(schedule.rows().len() <= MAX_ROWS);
    cycles(schedule, latencies) as u32
}

/// Appends the line with the sum of `cycles`.
pub fn push_total_of(text: &mut Vec<u8>, cycles: &[u32]) -> Result<(), NoMemory>
    requires { length cycles.now ≤ MAX_BLOCKS }
    ensures { OnOk result (text.new.items ≡ text.old.items ++ listed.total_of_all cycles.now) }
{
    let mut total = 0;
    for count in cycles {
        total += u64::from(*count);
    }
    push_total(text, total)
}

/// The listing of a file's blocks with their schedules.
///
/// Promise: for each block the listing has its head, a line for each row up to the last operation, and its cycles; at the end
/// the cycles of all.
pub fn schedules_text(
    alloc: Global,
    file: &IlocFile,
    latencies: &Latencies,
    schedules: &[Schedule],
) -> Result<Vec<u8>, NoMemory>
    requires each { length schedules.now ≡ length file.now.blocks }
    requires total { listed.total_cycles latencies.now schedules.now < 2 ^ 63 }
    ensures { IfOk result (λ text. text.items ≡
        listed.schedules_listing latencies.now file.now.blocks schedules.now) }
{
    let mut text = Vec::new(alloc);
    let mut writer = RowWriter::new();
    let mut total = 0;
    for (index, block) in file.blocks.as_slice().iter().enumerate() {
        let schedule = &schedules[index];
        let cycles = cycles(schedule, latencies);
        let name = block.name.as_ref();
        push_schedule(&mut text, &mut writer, index + 1, name, schedule, cycles)?;
        total += cycles;
    }
    push_total(&mut text, total)?;
    Ok(text)
}

/// The listing of a file's blocks with the cycles of their schedules.
///
/// Promise: for each block the listing has a line with its number, its name and its cycles, as `counts` has it; at the end the
/// cycles of all.
pub fn counts_text(
    alloc: Global,
    file: &IlocFile,
    latencies: &Latencies,
    schedules: &[Schedule],
) -> Result<Vec<u8>, NoMemory>
    requires each { length schedules.now ≡ length file.now.blocks }
    requires total { listed.total_cycles latencies.now schedules.now < 2 ^ 63 }
    ensures { IfOk result (λ text. text.items ≡
        counts_listing latencies.now file.now.blocks schedules.now) }
{
    let mut text = Vec::new(alloc);
    let mut total = 0;
    for (index, block) in file.blocks.as_slice().iter().enumerate() {
        let cycles = cycles(&schedules[index], latencies);
        push_count(&mut text, false, index + 1, block.name.as_ref(), cycles)?;
        total += cycles;
    }
    push_total(&mut text, total)?;
    Ok(text)
}

/// The listing of a file's blocks with their outcomes.
///
/// Promise: for each block the listing has its head and the words that it emits, or that it faults, as `run` has it.
pub fn outcomes_text(
    alloc: Global,
    file: &IlocFile,
    outcomes: &[Outcome],
) -> Result<Vec<u8>, NoMemory>
    requires { length outcomes.now ≡ length file.now.blocks }
    ensures { IfOk result (λ text. text.items ≡ listed.outcomes_listing file.now.blocks outcomes.now) }
{
    let mut text = Vec::new(alloc);
    for (index, block) in file.blocks.as_slice().iter().enumerate() {
        let words = outcomes[index].outputs();
        push_outcome(&mut text, index + 1, block.name.as_ref(), words)?;
    }
    Ok(text)
}

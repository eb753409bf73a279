//! Why a text isn't understood: as `lint` says it, or as it is said of rows.
ghost use Rattle.std.specs.Prelude.{◌≡◌, ◌⊎◌, true, IfOk, IfSome};
ghost use Rattle.iloc_text.specs.ScheduleLines.{IsScheduleLine};
ghost use Rattle.iloc_driver.specs.Run.Apart.{Holds};
ghost use Rattle.iloc_farm.specs.Reason.{IsLine, IsReason, MayBeSaid, row_text, task_row_text};

use iloc_args::{Request, Task};
use iloc_driver::Texts;
use iloc_lint::{report_of, row_wording};
use iloc_ops::NoMemory;
use iloc_rows::{RowsFault, read_rows, read_submission, read_task};
use iloc_text::{
    ParseFault, ReadFault, ScheduleLine, push_number, read_schedule_line, read_text_from,
    split_line,
};
use std::alloc::Global;

/// What is said of a row among blocks.
const ROW: &[u8] = b"ilocfarm: it has a row where blocks belong\n";

/// What is said of a row in a task.
const TASK_ROW: &[u8] =
    b"ilocfarm: it has a row where blocks belong, and rows come from standard input: are the two exchanged?\n";

/// What is said of a text without blocks that may have rows.
const NO_BLOCKS: &[u8] =
    b"ilocfarm: blocks come before their rows, or from a file by --task FILE\n";

/// What a text should have.
#[derive(Clone, Copy)]
enum Sought {
    Blocks,
    /// Blocks, in a file of their own.
    Task,
    BlocksAndRows,
    /// Rows for the blocks of a task.
    Rows,
}

/// The line of this number, counted from 1.
fn line_at(text: &[u8], number: u32) -> Option<&[u8]>
    ensures { IfSome result (λ line. IsLine text.now number line.now) }
{
    let mut rest = text;
    for _ in 0..number.saturating_sub(1) {
        let (_, Some(after)) = split_line(rest) else {
            return None;
        };
        rest = after;
    }
    Some(split_line(rest).0)
}

/// The first three lines that `lint` lists of a text, if it lists a fault.
fn linted(alloc: Global, text: &[u8]) -> Result<Vec<u8>, NoMemory>
    ensures { IfOk result (λ said. IsReason text.now said.items) }
{
    let report = report_of(alloc, text)?;
    let mut said = Vec::new(alloc);
    if report.reads {
        return Ok(said);
    }
    let (what, Some(rest)) = split_line(&report.text) else {
        return Ok(said);
    };
    let (line, Some(rest)) = split_line(rest) else {
        return Ok(said);
    };
    let (caret, _) = split_line(rest);
    said.extend_from_slice(what)?;
    said.push(b'\n')?;
    said.extend_from_slice(line)?;
    said.push(b'\n')?;
    said.extend_from_slice(caret)?;
    said.push(b'\n')?;
    Ok(said)
}

/// Whether the line says more than nothing in a schedule, or would if numbers had no limit.
fn is_row(line: &[u8]) -> bool
    ensures { result ≡ true → IsScheduleLine line.now }
{
    match read_schedule_line(line) {
        Ok(ScheduleLine::Empty) | Err(ParseFault::Bad) => false,
        Ok(_) | Err(ParseFault::NumberTooLarge) => true,
    }
}

/// What is said of a line of this number in a text that should have blocks: `of_row` if it is a row, else what `lint` lists.
fn of_blocks(alloc: Global, text: &[u8], number: u32, of_row: &[u8]) -> Result<Vec<u8>, NoMemory>
    requires { (of_row.now ≡ row_text) ⊎ (of_row.now ≡ task_row_text) }
    ensures { IfOk result (λ said. IsReason text.now said.items) }
{
    let Some(line) = line_at(text, number) else {
        return Ok(Vec::new(alloc));
    };
    if !is_row(line) {
        return linted(alloc, text);
    }
    let mut said = Vec::new(alloc);
    said.extend_from_slice(of_row)?;
    Ok(said)
}

/// What is said of a line of this number that may be a row, where `linted` is said of a line of blocks.
fn of_rows(alloc: Global, text: &[u8], number: u32, linted: Vec<u8>) -> Result<Vec<u8>, NoMemory>
    requires { IsReason text.now linted.items }
    ensures { IfOk result (λ said. IsReason text.now said.items) }
{
    let mut said = Vec::new(alloc);
    let Some(line) = line_at(text, number) else {
        return Ok(said);
    };
    let words = row_wording(alloc, line)?;
    said.extend_from_slice(b"line ")?;
    push_number(&mut said, number)?;
    said.extend_from_slice(b": ")?;
    if words.starts_with(b"expected [,") && linted.starts_with(&said) {
        return Ok(linted);
    }
    said.extend_from_slice(&words)?;
    said.push(b'\n')?;
    Ok(said)
}

/// What is said of a text that is refused for this fault, if more is wrong with a line than the fault says.
fn reason_for(
    alloc: Global,
    text: &[u8],
    fault: Option<RowsFault>,
    sought: Sought,
) -> Result<Vec<u8>, NoMemory>
    ensures { IfOk result (λ said. IsReason text.now said.items) }
{
    let Some(RowsFault::Read(ReadFault::BadLine(number) | ReadFault::NumberTooLarge(number))) =
        fault
    else {
        return Ok(Vec::new(alloc));
    };
    match sought {
        Sought::Blocks => of_blocks(alloc, text, number, ROW),
        Sought::Task => of_blocks(alloc, text, number, TASK_ROW),
        Sought::BlocksAndRows => of_rows(alloc, text, number, linted(alloc, text)?),
        Sought::Rows => of_rows(alloc, text, number, Vec::new(alloc)),
    }
}

/// Why a text with blocks and rows isn't understood. Nothing where it is.
fn of_submission(alloc: Global, text: &[u8]) -> Result<Vec<u8>, NoMemory>
    ensures { IfOk result (λ said. IsReason text.now said.items) }
{
    match read_submission(alloc, text) {
        Err(RowsFault::NoBlocks) => {
            let mut said = Vec::new(alloc);
            said.extend_from_slice(NO_BLOCKS)?;
            Ok(said)
        }
        read => reason_for(alloc, text, read.err(), Sought::BlocksAndRows),
    }
}

/// The text of this name, if it can be read.
fn text_named<T: Texts>(alloc: Global, texts: &T, name: &str) -> Option<Vec<u8>>
    ensures { IfSome result (λ text. Holds (T.held texts.now name.now) text.items) }
{
    let mut text = texts.open_text(name).ok()?;
    read_text_from(alloc, &mut text).ok()
}

/// Why what a request reads isn't understood: its task, or else what was read of its input. Nothing where it is.
pub fn reason_of<T: Texts>(
    alloc: Global,
    texts: &T,
    request: &Request,
    input: &[u8],
) -> Result<Vec<u8>, NoMemory>
    ensures { IfOk result (λ said. MayBeSaid (T.held texts.now) input.now said.items) }
{
    let Some(name) = &request.task_file else {
        return match request.task {
            Task::Lint => Ok(Vec::new(alloc)),
            Task::Check => of_submission(alloc, input),
            _ => reason_for(alloc, input, read_task(alloc, input).err(), Sought::Blocks),
        };
    };
    let Some(task) = text_named(alloc, texts, name.as_str()) else {
        return Ok(Vec::new(alloc));
    };
    match read_task(alloc, &task) {
        Ok(blocks) => {
            let fault = read_rows(alloc, blocks.as_slice(), input).err();
            reason_for(alloc, input, fault, Sought::Rows)
        }
        Err(fault) => reason_for(alloc, &task, Some(fault), Sought::Task),
    }
}

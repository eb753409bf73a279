//! How rows are written.
ghost use Rattle.std.specs.Prelude.{◌≡◌, ◌≤◌, ◌+◌, ◌*◌, ◌++◌, drop, length, OnErr, OnOk};
ghost use Rattle.std.specs.List.{flat_map};
ghost use Rattle.iloc_ops.specs.Spelling.{spelling};
ghost use Rattle.iloc_ops.specs.declared.spelling.TheConstants.{LONGEST_OPERATION};
ghost use Rattle.iloc_timed.specs.Spelling.{op_in, row_line, row_spelling};
ghost use Rattle.iloc_timed.specs.declared.spelling.TheConstants.{LONGEST_ROW, LONGEST_LINE, ROWS_AT_ONCE};

use crate::row::Row;
use iloc_ops::{LONGEST_OPERATION, NoMemory, Op, Word, write_op, write_word};

/// More bytes than a row is written with: a word is written with eight.
const LONGEST_ROW: usize = 2 * LONGEST_OPERATION + 13;

/// The same with a line end.
const LONGEST_LINE: usize = LONGEST_ROW + 1;

/// So many lines are written before they are appended together. If each is appended by itself, `schedule` executes 4 % more
/// instructions.
const ROWS_AT_ONCE: usize = 16;

const OPEN: Word = Word {
    bytes: *b"      [ ",
    length: 2,
};

const BETWEEN: Word = Word {
    bytes: *b"      ; ",
    length: 3,
};

const CLOSE: Word = Word {
    bytes: *b"       ]",
    length: 2,
};

const NOP: Word = Word {
    bytes: *b"     nop",
    length: 3,
};

/// Writes the operation in a slot, `nop` where it is empty, so that it ends at `end`, and gives where it starts.
#[inline(always)]
fn write_slot(line: &mut [u8], end: usize, ops: &[Op], slot: Option<usize>) -> usize
    requires { (LONGEST_OPERATION ≤ end) × (end ≤ length line.old) }
    ensures space { (result ≤ end) × (end ≤ result + LONGEST_OPERATION) }
    ensures length { length line.new ≡ length line.old }
    ensures written { drop result line.new ≡ spelling (op_in ops.now slot) ++ drop end line.old }
{
    match slot {
        Some(i) if i < ops.len() => write_op(line, end, &ops[i]),
        _ => write_word(line, end, &NOP),
    }
}

/// Writes a row so that it ends at `end`, and gives where it starts.
fn write_row(line: &mut [u8], end: usize, ops: &[Op], row: &Row) -> usize
    requires { (LONGEST_ROW ≤ end) × (end ≤ length line.old) }
    ensures space { (result ≤ end) × (end ≤ result + LONGEST_ROW) }
    ensures length { length line.new ≡ length line.old }
    ensures written { drop result line.new ≡ row_spelling ops.now row.now ++ drop end line.old }
{
    let end = write_word(line, end, &CLOSE);
    let end = write_slot(line, end, ops, row.one);
    let end = write_word(line, end, &BETWEEN);
    let end = write_slot(line, end, ops, row.zero);
    write_word(line, end, &OPEN)
}

/// The same with a line end.
#[inline(always)]
fn write_line(line: &mut [u8], end: usize, ops: &[Op], row: &Row) -> usize
    requires { (LONGEST_LINE ≤ end) × (end ≤ length line.old) }
    ensures space { (result ≤ end) × (end ≤ result + LONGEST_LINE) }
    ensures length { length line.new ≡ length line.old }
    ensures written { drop result line.new ≡ row_line ops.now row.now ++ drop end line.old }
{
    line[end - 1] = b'\n';
    write_row(line, end - 1, ops, row)
}

/// Writes a line for each row, the last of them first, and gives where they start.
fn write_lines(lines: &mut [u8], ops: &[Op], rows: &[Row]) -> usize
    requires { length rows.now * LONGEST_LINE ≤ length lines.old }
    ensures space { result ≤ length lines.new }
    ensures length { length lines.new ≡ length lines.old }
    ensures written { drop result lines.new ≡ flat_map (row_line ops.now) rows.now }
{
    let mut start = lines.len();
    let mut left = rows.len();
    while left > 0 {
        left -= 1;
        start = write_line(lines, start, ops, &rows[left]);
    }
    start
}

/// Promise: appends a row, `[ X ; Y ]`, the operation on unit 0 first, with `nop` for an empty slot; after a refusal of
/// memory the text is as before.
pub fn push_row(text: &mut Vec<u8>, ops: &[Op], row: &Row) -> Result<(), NoMemory>
    ensures ok { OnOk result (text.new.items ≡ text.old.items ++ row_spelling ops.now row.now) }
    ensures err { OnErr result (text.new.items ≡ text.old.items) }
{
    let mut line = [0; LONGEST_ROW];
    let start = write_row(&mut line, LONGEST_ROW, ops, row);
    text.extend_from_slice(&line[start..])?;
    Ok(())
}

/// Writes rows, one after another.
#[derive(Debug, Drop)]
pub struct RowWriter {
    /// Where lines are written before they are appended.
    lines: [u8; ROWS_AT_ONCE * LONGEST_LINE],
}

impl RowWriter {
    pub fn new() -> RowWriter {
        RowWriter {
            lines: [0; ROWS_AT_ONCE * LONGEST_LINE],
        }
    }

    /// Promise: appends a row and a line end for each of the rows; after a refusal of memory the first of them may follow the
    /// text.
    pub fn push_lines(
        &mut self,
        text: &mut Vec<u8>,
        ops: &[Op],
        rows: &[Row],
    ) -> Result<(), NoMemory>
        ensures { OnOk result (text.new.items ≡ text.old.items ++ flat_map (row_line ops.now) rows.now) }
    {
        let mut rest = rows;
        while !rest.is_empty() {
            let (some, behind) = rest.split_at(rest.len().min(ROWS_AT_ONCE));
            let start = write_lines(&mut self.lines, ops, some);
            text.extend_from_slice(&self.lines[start..])?;
            rest = behind;
        }
        Ok(())
    }
}

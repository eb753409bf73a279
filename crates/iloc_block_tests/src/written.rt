//! Blocks, rows and schedules, as tests write them down. Tables of cases are constants, since a proof pays for each
//! reference that a function makes.
ghost use Rattle.std.specs.Prelude.{◌≤◌, length, IfOk};

use iloc_ops::{Block, MAX_OPS, Op};
use iloc_text::read_file;
use iloc_timed::{BuildFault, MAX_ROWS, Row, Schedule};
use std::alloc::{AllocError, Global};
use std::test::Fail;

/// The one block of a text, where it isn't too long to be scheduled.
pub(crate) fn block_of(alloc: Global, text: &[u8]) -> Result<Block, Fail>
    ensures { IfOk result (λ block. length block.ops ≤ MAX_OPS) }
{
    let file = read_file(alloc, text)?;
    let block = file.blocks.into_vec().pop().ok_or("no block")?;
    if block.ops.len() > MAX_OPS {
        return Err(Fail::from("too many operations"));
    }
    Ok(block)
}

/// A row in which nothing is issued.
const EMPTY: Row = Row {
    zero: None,
    one: None,
};

/// What is issued in a cycle: the cycle, and the operations on unit 0 and on unit 1.
pub(crate) type Issue = (usize, Option<usize>, Option<usize>);

/// The rows with `issues`, in order; nothing is issued in any other cycle.
pub(crate) fn rows_of(alloc: Global, issues: &[Issue]) -> Result<Vec<Row>, AllocError> {
    let mut rows = Vec::new(alloc);
    for issue in issues {
        let (cycle, zero, one) = *issue;
        rows.resize(cycle, EMPTY)?;
        rows.push(Row { zero, one })?;
    }
    Ok(rows)
}

/// The schedule of `ops` and `issues`. Of its rows no more are taken than a schedule may have.
pub(crate) fn build(alloc: Global, ops: &[Op], issues: &[Issue]) -> Result<Schedule, BuildFault> {
    let mut rows = rows_of(alloc, issues)?;
    rows.truncate(MAX_ROWS);
    Schedule::new(alloc, Vec::from_slice(alloc, ops)?, rows)
}

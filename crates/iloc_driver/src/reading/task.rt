//! Reading a task, whose blocks are in a text of their own, and apart from it the rows that somebody hands in.
ghost use Rattle.std.specs.Prelude.{IfErr, IfOk};
ghost use Rattle.iloc_rows.specs.Laws.{AreWithinLimits};
ghost use Rattle.iloc_driver.specs.Run.Apart.{ReadsApart, ReadsTask};
ghost use Rattle.iloc_driver.specs.Run.Causes.{IsCaused, of_rows_apart, of_task};

use crate::fault::{FarmFault, FileFault, RunFault, TaskFault};
use crate::reading::texts::{Texts, text_named};
use iloc_ops::Blocks;
use iloc_rows::laws::submissions_apart_are_within_limits;
use iloc_rows::{RowsFault, Submission, read_rows, read_task};
use iloc_text::{ReadFault, read_text_from};
use std::alloc::Global;
use std::io::Read;

/// The blocks of the task with this name.
fn task_named<T: Texts>(alloc: Global, texts: &T, name: &str) -> Result<Blocks, RunFault>
    ensures ok { IfOk result (ReadsTask (T.held texts.now name.now)) }
    ensures err { IfErr result (IsCaused (of_task (T.held texts.now name.now))) }
{
    let input = match text_named(alloc, texts, name) {
        Ok(input) => input,
        Err(FileFault::NoMemory) => return Err(RunFault::Farm(FarmFault::NoMemory)),
        Err(fault) => return Err(RunFault::Task(TaskFault::Unread(fault))),
    };
    match read_task(alloc, &input) {
        Ok(blocks) => Ok(blocks),
        Err(RowsFault::Read(ReadFault::NoMemory)) => Err(RunFault::Farm(FarmFault::NoMemory)),
        Err(fault) => Err(RunFault::Task(TaskFault::Text(fault))),
    }
}

/// The blocks of the task with this name, and what the rows that the reader gives propose for them. Of a bad task no row is
/// read.
pub(crate) fn submission_apart<T: Texts, R: Read>(
    alloc: Global,
    texts: &T,
    name: &str,
    reader: &mut R,
) -> Result<Submission, RunFault>
    ensures ok { IfOk result (λ found.
        ReadsApart (T.held texts.now name.now) (R.remaining reader.old) (R.remaining reader.new)
        found.blocks found.proposals
        × AreWithinLimits found.blocks found.proposals) }
    ensures err { IfErr result
        (IsCaused (of_rows_apart (T.held texts.now name.now) (R.remaining reader.old) (R.remaining reader.new))) }
{
    submissions_apart_are_within_limits();
    let blocks = task_named(alloc, texts, name)?;
    let rows = read_text_from(alloc, reader)?;
    let proposals = read_rows(alloc, blocks.as_slice(), &rows)?;
    Ok(Submission { blocks, proposals })
}

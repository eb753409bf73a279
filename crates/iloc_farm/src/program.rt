//! The whole program but its real streams: from bytes to bytes, and from words to exit status.
ghost use Rattle.std.specs.Prelude.{◌≡◌, IfErr, IfOk, List, ℕ};
ghost use Rattle.std.specs.Io.KnownBytes.{Appends};
ghost use Rattle.iloc_driver.specs.Program.{Ends};
ghost use Rattle.iloc_driver.specs.Run.{EndsRun, ListsFrom};
ghost use Rattle.iloc_driver.specs.Work.{HasReceipt};
ghost use Rattle.iloc_farm.specs.Commands.{IsReceiptFor, command_of};
ghost use Rattle.iloc_farm.specs.Theorem.{Status0Tells};
ghost use Rattle.iloc_farm.specs.Theorem.Farmed.{HasHeadline};

use crate::commands::AllCommands;
use crate::receipt::CommandReceipt;
use iloc_args::Request;
use iloc_driver::{Ending, Finding, RunFault, Streams, Texts};
use std::alloc::Global;
use std::env::Args;
use std::io::{self, Read, Write};
use std::sync::Wait;
use std::thread::Threads;

/// Runs the program on its words, the first of which is its own name. An error in place of the words means that one of them
/// isn't UTF-8, or that memory was refused. `texts` opens the file of blocks that they may name.
///
/// Promise: the program does what its words ask for and ends with status 0, with 5 where what it judged or explained doesn't
/// pass, or with 1 where the text that it searched for faults has some. Or a fault stops it: then it says which on one line of
/// `streams.faults`, or in the parser's own words, and ends with that fault's status.
///
/// What status 0 tells is a promise of its own (`status_0`). Of `schedule` and `counts`: the bytes that were read denote blocks,
/// and what was written is the listing of schedules, or of their cycles. They are one for each block, in order, lawful with the
/// latencies and by the rule of memory that are asked for, each with its block's outcome on every memory. Of `check`: so are the
/// rows that were read, or they show what the block shows.
pub fn run_program<H: Threads + Wait + Sync, T: Texts, R: Read, W: Write, F: Write>(
    rt: &H,
    alloc: Global,
    words: io::Result<Args>,
    texts: &T,
    streams: &mut Streams<R, W, F>,
) -> Ending
    ensures ends { Ends command_of (T.held texts.now) words (R.remaining streams.old.reader) (R.remaining streams.new.reader)
        (W.contents streams.old.writer) (W.contents streams.new.writer)
        (F.contents streams.old.faults) (F.contents streams.new.faults) result }
    ensures status_0 { result.status ≡ 0 → Status0Tells (T.held texts.now) words
        (R.remaining streams.old.reader) (R.remaining streams.new.reader)
        (W.contents streams.old.writer) (W.contents streams.new.writer) }
{
    iloc_driver::run_words::<AllCommands, H, T, R, W, F>(rt, alloc, words, texts, streams)
}

/// Reads an input, writes what the request lists of it, and answers what was found. For `Check` the input is blocks with rows
/// or, where the request names a file, rows for that file's blocks, which are read first; else it is a file, of which nothing
/// is judged. For `Schedule`, `Counts`, `Compare`, `Optimize` and, where the request names no task, `Explain` its workers are
/// threads, and there is a receipt for their work.
///
/// Promise: at `Ok` the listing of just this input was written, whole. It is made of what workers handed back, which the receipt
/// keeps. By the receipt, what they did with the very blocks that were read is one legal history of a board of one thread, in
/// which each block is taken once and what is listed of it handed back once; for `Schedule`, `Counts` and `Optimize` that is of a
/// schedule that keeps its block (`headline`). After `WriteFailed` a prefix of the listing was written, and after any other fault
/// nothing. A fault of the text is the first that the text has; that no worker could be started is answered only where the text
/// has none.
pub fn run_with_receipt<H: Threads + Wait + Sync, T: Texts, R: Read, W: Write>(
    rt: &H,
    alloc: Global,
    texts: &T,
    reader: &mut R,
    writer: &mut W,
    request: &Request,
) -> Result<(Finding, Option<CommandReceipt>), RunFault>
    ensures ok { IfOk result (λ done. (text : List ℕ) ×
        ListsFrom command_of (T.held texts.now) request.now (R.remaining reader.old) (R.remaining reader.new) done.0 text ×
        HasReceipt (command_of request.now.task) (IsReceiptFor request.now.task) (T.held texts.now) request.now (R.remaining reader.old) (R.remaining reader.new) text done.1 ×
        Appends (W.contents writer.old) (W.contents writer.new) text) }
    ensures err { IfErr result (EndsRun command_of (T.held texts.now) request.now
        (R.remaining reader.old) (R.remaining reader.new)
        (W.contents writer.old) (W.contents writer.new)) }
    ensures headline { IfOk result (λ done. HasHeadline request.now (R.remaining reader.old) (R.remaining reader.new)
        (W.contents writer.old) (W.contents writer.new) done.1) }
{
    iloc_driver::run_request::<AllCommands, H, T, R, W>(rt, alloc, texts, reader, writer, request)
}

/// Does what `run_with_receipt` does, and answers what was found.
///
/// Promise: at `Ok` the listing of just this input was written, whole. After `WriteFailed` a prefix of it was, and after any other
/// fault nothing. A fault of the text is the first that the text has; that no worker could be started is answered only where
/// the text has none.
pub fn run<H: Threads + Wait + Sync, T: Texts, R: Read, W: Write>(
    rt: &H,
    alloc: Global,
    texts: &T,
    reader: &mut R,
    writer: &mut W,
    request: &Request,
) -> Result<Finding, RunFault>
    ensures ok { IfOk result (λ finding. (text : List ℕ) ×
        ListsFrom command_of (T.held texts.now) request.now (R.remaining reader.old) (R.remaining reader.new) finding text ×
        Appends (W.contents writer.old) (W.contents writer.new) text) }
    ensures err { IfErr result (EndsRun command_of (T.held texts.now) request.now
        (R.remaining reader.old) (R.remaining reader.new)
        (W.contents writer.old) (W.contents writer.new)) }
{
    let (finding, _) = run_with_receipt(rt, alloc, texts, reader, writer, request)?;
    Ok(finding)
}

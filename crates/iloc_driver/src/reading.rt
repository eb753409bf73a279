//! Reading the blocks that workers are to share.
ghost use Rattle.std.specs.Prelude.{IfErr, IfOk, List, ℕ};
ghost use Rattle.iloc_text.specs.Files.{AreWithinLimits, Denotes};
ghost use Rattle.iloc_text.specs.Streams.{ReadsText};
ghost use Rattle.iloc_driver.specs.Priorities.{AreFor, AreIn};
ghost use Rattle.iloc_driver.specs.Run.Causes.{IsCaused, of_file, of_ranked_file};

mod parts;
pub(crate) mod priorities;
pub(crate) mod task;
pub(crate) mod texts;

use crate::fault::{FarmFault, FileFault, PrioritiesFault, RunFault};
use iloc_args::Request;
use iloc_ops::Blocks;
use iloc_text::read_file_from;
use parts::read_by_threads;
use priorities::Priorities;
use std::alloc::Global;
use std::io::Read;
use std::sync::Wait;
use std::thread::Threads;
use texts::{Texts, text_named};

/// The blocks of the file that the reader gives, read as its bytes come: by one thread where the request has one worker, else
/// by as many as it has workers.
fn read_blocks<H: Threads + Wait + Sync, R: Read>(
    rt: &H,
    alloc: Global,
    reader: &mut R,
    request: &Request,
) -> Result<Blocks, RunFault>
    ensures ok { IfOk result (λ blocks. (input : List ℕ) ×
        ReadsText (R.remaining reader.old) (R.remaining reader.new) input ×
        Denotes input blocks × AreWithinLimits blocks) }
    ensures err { IfErr result (IsCaused (of_file (R.remaining reader.old) (R.remaining reader.new))) }
{
    if request.workers == 1 {
        return Ok(read_file_from(alloc, reader)?.blocks);
    }
    let threads = request.workers as usize;
    Ok(read_by_threads(rt, alloc, reader, threads)?.blocks)
}

/// The blocks of the file that the reader gives, with the numbers for them in the file that the request names, if it does. That
/// one is opened and read before any block.
#[tactic(auto, using(crate::proofs::Streamed::ranked_causes, crate::proofs::Streamed::none_caused))]
pub(crate) fn read_ranked<H: Threads + Wait + Sync, T: Texts, R: Read>(
    rt: &H,
    alloc: Global,
    texts: &T,
    reader: &mut R,
    request: &Request,
) -> Result<(Blocks, Priorities), RunFault>
    ensures ok { IfOk result (λ ranked. (input : List ℕ) ×
        ReadsText (R.remaining reader.old) (R.remaining reader.new) input ×
        Denotes input ranked.0 × AreIn request.now.priorities_file (T.held texts.now) ranked.0 ranked.1) }
    ensures limits { IfOk result (λ ranked. AreWithinLimits ranked.0) }
    ensures each { IfOk result (λ ranked. AreFor ranked.1 ranked.0) }
    ensures err { IfErr result (IsCaused
        (of_ranked_file request.now.priorities_file (T.held texts.now) (R.remaining reader.old) (R.remaining reader.new))) }
{
    let Some(name) = &request.priorities_file else {
        let blocks = read_blocks(rt, alloc, reader, request)?;
        return Ok((blocks, Priorities::none()));
    };
    let text = match text_named(alloc, texts, name.as_str()) {
        Ok(text) => text,
        Err(FileFault::NoMemory) => return Err(RunFault::Farm(FarmFault::NoMemory)),
        Err(fault) => return Err(RunFault::Priorities(PrioritiesFault::Unread(fault))),
    };
    let blocks = read_blocks(rt, alloc, reader, request)?;
    let priorities = Priorities::read(alloc, &text, blocks.as_slice())?;
    Ok((blocks, priorities))
}

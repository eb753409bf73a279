//! How much is spent on the memories that are made up for a block.

use crate::refutation::aim::MOST_AIMS;
use crate::refutation::pattern::Pattern;
use iloc_meaning::WORDS;
use iloc_ops::Block;
use iloc_timed::Schedule;

/// How often block and rows are run on made-up memories for all blocks of a request together: some 10 s.
const MOST_RUNS: usize = 200_000;

/// How many memories are made up for a block, at most.
const MOST_TRIES: usize = MOST_AIMS + Pattern::ALL.len();

/// How many steps are taken at most to shorten one memory: some 3 ms.
const MOST_STEPS: usize = 1_000_000;

/// How many words there may be from the first to the last of the made-up memories of all blocks together: the arguments that
/// are listed have as many.
const MOST_WORDS: usize = 1 << 24;

/// How much is spent on the memories that are made up for a block: less for each where there are many blocks. It depends
/// on nothing else, so it is the same in whatever order the blocks are judged.
#[derive(Clone, Copy)]
pub(crate) struct Effort {
    /// How many memories are tried.
    pub(crate) tries: usize,
    /// How often block and rows are run again to shorten one.
    pub(crate) reruns: usize,
    /// How many words a memory may span.
    pub(crate) span: usize,
}

impl Effort {
    /// The effort for one of `blocks` blocks. A run takes a step for each word of memory, which is copied and compared,
    /// for each operation of the block and for each row, so a short block is run 61 times at most to shorten a memory.
    pub(crate) fn on_one_of(blocks: usize, block: &Block, schedule: &Schedule) -> Effort {
        let blocks = blocks.max(1);
        let runs = MOST_RUNS / blocks;
        let tries = runs.min(MOST_TRIES);
        let lines = block.ops.len().saturating_add(schedule.rows().len());
        Effort {
            tries,
            reruns: (runs - tries).min(MOST_STEPS / lines.saturating_add(WORDS)),
            span: MOST_WORDS / blocks,
        }
    }
}

//! What a command line asks the program to do.
ghost use Rattle.std.specs.Prelude.{◌≡◌, ◌+◌, ◌*◌, ◌%◌, ◌≤◌, true, false, is_some, length};
ghost use Rattle.std.specs.Option.{ForSome};
ghost use Rattle.iloc_meaning.specs.Address.{LAST_ADDRESS};
ghost use Rattle.iloc_meaning.specs.Memory.{WORDS};
ghost use Rattle.iloc_args.specs.Exclusions.{excludes};
ghost use Rattle.iloc_args.specs.Flags.{has};
ghost use Rattle.iloc_args.specs.Ranking.{ranks_by_own};
ghost use Rattle.iloc_args.specs.declared.fault.Exclusion.{Exclusion as exclusion_value};

use crate::flag::{Flag, Flags};
use iloc_rules::{Heuristic, MemoryRule};
use iloc_timed::Latencies;

/// The command: what is done with each block.
#[derive(Clone, Copy, Debug, PartialEq, Eq)]
pub enum Task {
    /// Run it plainly, one operation after the other.
    Run,
    /// Schedule it, and run the schedule.
    Simulate,
    /// Schedule it, run the schedule, and list what happens.
    Trace,
    /// Schedule it, and list the schedule.
    Schedule,
    /// Schedule it, and list how many cycles the schedule takes.
    Counts,
    /// Schedule it by each heuristic, and list how many cycles the schedules take.
    Compare,
    /// Find its best schedule, and list that with a bound on the cycles.
    Optimize,
    /// Schedule it, and list why the schedule takes its cycles.
    Explain,
    /// Judge the rows that stand behind the blocks.
    Check,
    /// List its dependence graph.
    Graph,
    /// List every fault of the text.
    Lint,
}

/// A command with its options; an option that the command does not take has its default, or none.
#[derive(Debug, Drop, PartialEq, Eq)]
pub struct Request {
    /// What is done.
    pub task: Task,
    /// How many workers share the blocks, 1 to 8.
    pub workers: u32,
    /// The address of the first word, a multiple of 4.
    pub at: u32,
    /// What the memory holds from `at` on when a block starts, as 32-bit patterns.
    pub words: Vec<u32>,
    /// How many cycles loads, stores and products take.
    pub latencies: Latencies,
    /// By what the ready operations are ranked.
    pub priority: Heuristic,
    /// Whether `priority` is given, and not the default.
    pub priority_given: bool,
    /// The name of the file that holds the numbers by which they are ranked instead; only where `priority` isn't given, and never
    /// beside `task_file`.
    pub priorities_file: Option<String>,
    /// How many nodes a search for the best schedule has for each number of cycles that is tried, if there is a search.
    pub nodes: Option<u32>,
    /// The name of the file that holds the blocks, apart from the rows.
    pub task_file: Option<String>,
    /// Which flags are given.
    pub flags: Flags,
    ghost some_worker: { 1 ≤ workers },
    ghost few_workers: { workers ≤ 8 },
    ghost aligned: { at % 4 ≡ 0 },
    ghost in_memory: { at ≤ LAST_ADDRESS },
    ghost ranks: { ForSome priorities_file (λ _. ranks_by_own task ≡ true) },
    ghost none_excluded: { (exclusion : exclusion_value)
        → excludes task (has flags) priority_given (is_some priorities_file) (is_some task_file) exclusion ≡ false },
    ghost fits: { at + 4 * length words.items ≤ 4 * WORDS },
}

impl Request {
    ghost use Rattle.iloc_args.specs.Rule.{memory_rule};

    /// Promise: the rule by which operations wait for each other by memory: by address with `--disambiguate`, else by the book.
    pub fn memory_rule(&self) -> MemoryRule
        ensures { result ≡ memory_rule self.now }
    {
        if self.flags.has(Flag::Disambiguate) {
            MemoryRule::Address
        } else {
            MemoryRule::Book
        }
    }
}

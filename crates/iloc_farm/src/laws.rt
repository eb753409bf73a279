//! Laws of listings and of rows, as contracts of functions that do nothing.
ghost use Rattle.iloc_farm.specs.Laws.{ChecksIgnoreWorkers, GreedySchedulesCanBeListed, HandInsDontChangeTheTask, ByTheBookTakesTheLeast, CountedOptimaAreOptimal, ListingsIgnoreWorkers, OptimaIgnoreWorkers, PassedChecksKeepOutcomes, PassedChecksMayPass, SimulatingListsRuns};

/// The number of workers leaves no trace in a listing.
///
/// Promise: requests that are equal but for their workers list one text of one file, unless schedules are searched for.
pub fn listings_ignore_workers()
    ensures { ListingsIgnoreWorkers }
{}

/// Which of several schedules a search finds, no contract says.
///
/// Promise: what `optimize` and `compare --nodes` may list of blocks doesn't depend on their workers.
pub fn optima_ignore_workers()
    ensures { OptimaIgnoreWorkers }
{}

/// Where `compare` counts a schedule as optimal, it is so.
///
/// Promise: a greedy schedule that is counted so is optimal among those of its block that are lawful by the rule of memory.
pub fn counted_optima_are_optimal()
    ensures { CountedOptimaAreOptimal }
{}

/// `simulate` and `run` list the same.
///
/// Promise: what `simulate` lists of blocks is what `run` lists of them.
pub fn simulating_lists_runs()
    ensures { SimulatingListsRuns }
{}

/// The number of workers leaves no trace in a check.
///
/// Promise: what a check may list of an input doesn't depend on its workers.
pub fn checks_ignore_workers()
    ensures { ChecksIgnoreWorkers }
{}

/// Where a check passed, the rows that are proposed for each block keep the rules of the units and have its outcome on
/// every memory of 16,384 words of 32 bits or, where outputs alone are compared, show what it shows.
pub fn passed_checks_keep_outcomes()
    ensures { PassedChecksKeepOutcomes }
{}

/// Where a check passed, the rows that are proposed for each block are by the book; or, where that isn't asked for, the
/// block finishes on the memory handed in, and has a store or an output, or an output where outputs alone are compared.
pub fn passed_checks_may_pass()
    ensures { PassedChecksMayPass }
{}

/// Whatever is handed in, the blocks that are judged are the blocks of the task's file, where one is named.
///
/// Promise: a hand-in can't change the task.
pub fn hand_ins_dont_change_the_task()
    ensures { HandInsDontChangeTheTask }
{}

/// `schedules_text` and `counts_text` take the greedy schedules of every file.
///
/// Promise: by every heuristic, blocks within the limits have as many greedy schedules as they are, and the cycles of these
/// together are below 2^63.
pub fn greedy_schedules_can_be_listed()
    ensures { GreedySchedulesCanBeListed }
{}

/// Rows by the book take no fewer cycles than `least` of the block.
///
/// Promise: no rows by the book take fewer cycles than the bound.
pub fn by_the_book_takes_the_least()
    ensures { ByTheBookTakesTheLeast }
{}

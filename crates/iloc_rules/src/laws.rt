//! Laws of schedules, as contracts of functions that do nothing.
ghost use Rattle.iloc_rules.specs.Laws.{LawfulSchedulesKeepTheOutcome, SoundSchedulesKeepTheOutcome, ApartOperationsNeverMeet, ApartSchedulesKeepTheOutcome, FewerCountMoreIsLawful, CountsHaveOneGreedySchedule, CountsBoundTheCycles, BlocksHaveOneGreedySchedule, PrioritiesHaveOneGreedySchedule, PrioritiesBoundTheCycles, LatenciesBoundTheCycles, LatenciesBoundTheCyclesByPriorities, LessSlackIsALongerChain};

/// Promise: Every lawful schedule of a block has, on every memory with all registers 0, the block's outcome: it emits the
/// same words and leaves the same memory, or it faults where the block does.
pub fn lawful_schedules_keep_the_outcome()
    ensures { LawfulSchedulesKeepTheOutcome }
{}

/// Promise: So has every schedule that is lawful but for delays by memory between some pairs of operations, if on no memory
/// such a pair touches one good address, one of them a store, when the operations are executed in order, past faults.
pub fn sound_schedules_keep_the_outcome()
    ensures { SoundSchedulesKeepTheOutcome }
{}

/// Promise: Two operations whose addresses are one base and two constants touch no word together, whatever the memory.
pub fn apart_operations_never_meet()
    ensures { ApartOperationsNeverMeet }
{}

/// Promise: So a schedule that is lawful but for delays by memory between such operations has the block's outcome on every
/// memory.
pub fn apart_schedules_keep_the_outcome()
    ensures { ApartSchedulesKeepTheOutcome }
{}

/// Promise: What is lawful stays so where fewer pairs have delays by memory.
pub fn fewer_count_more_is_lawful()
    ensures { FewerCountMoreIsLawful }
{}

/// Promise: Each block has a greedy schedule, and two greedy schedules of a block are equal, operations and rows.
pub fn one_greedy_schedule()
    ensures { BlocksHaveOneGreedySchedule }
{}

/// Promise: By any priorities a block has one greedy schedule, and two by the same priorities are equal.
pub fn one_greedy_schedule_by_priorities()
    ensures { PrioritiesHaveOneGreedySchedule }
{}

/// Promise: By any priorities, and whichever pairs have delays by memory, a block has one greedy schedule, and two by the
/// same are equal.
pub fn one_greedy_schedule_by_counts()
    ensures { CountsHaveOneGreedySchedule }
{}

/// Promise: Whichever pairs have delays by memory, a greedy schedule takes at most as many cycles as the latencies of
/// its operations together, and a lawful one at least as many as an operation's cycle of issue and its priority together.
pub fn counts_bound_the_cycles()
    ensures { CountsBoundTheCycles }
{}

/// Promise: In a lawful schedule the cycle at which an operation is issued and its priority together are at most the cycles
/// of the schedule.
pub fn priorities_bound_the_cycles()
    ensures { PrioritiesBoundTheCycles }
{}

/// Promise: A greedy schedule takes at most as many cycles as the latencies of its operations together.
pub fn latencies_bound_the_cycles()
    ensures { LatenciesBoundTheCycles }
{}

/// Promise: By any priorities a greedy schedule takes at most as many cycles as the latencies of its operations together.
pub fn latencies_bound_the_cycles_by_priorities()
    ensures { LatenciesBoundTheCyclesByPriorities }
{}

/// Promise: Of two operations the one with less slack has the longer chain of delays through it, and the other way round.
///
/// So to rank by the longest chains through operations is to rank by slack, the least first.
pub fn less_slack_is_a_longer_chain()
    ensures { LessSlackIsALongerChain }
{}

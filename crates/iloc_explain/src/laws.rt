//! Laws of explanations, as contracts of functions that do nothing.
ghost use Rattle.iloc_explain.specs.Laws.{GreedySchedulesLeaveNoRoom, LinesGiveTheRows, PathsSumToTheCycles, SchedulesHaveOneExplanation};

/// Promise: Two texts that explain one schedule of a block are equal.
pub fn one_explanation()
    ensures { SchedulesHaveOneExplanation }
{}

/// Promise: The stretches of the path of a schedule that is lawful by a rule of memory take together just the cycles of the schedule.
pub fn paths_sum_to_the_cycles()
    ensures { PathsSumToTheCycles }
{}

/// Promise: In a greedy schedule, by any rule of memory and priorities, no row has room for an operation that is ready: whatever isn't issued as
/// soon as it is ready is held by an operation of the row before, and no stretch of the path is free.
pub fn greedy_schedules_leave_no_room()
    ensures { GreedySchedulesLeaveNoRoom }
{}

/// Promise: Who reads the lines of the ready list of a schedule that is lawful by a rule of memory has its rows: each cycle that begins a line has the row that the
/// line says is taken, and the others have empty rows.
pub fn lines_give_the_rows()
    ensures { LinesGiveTheRows }
{}

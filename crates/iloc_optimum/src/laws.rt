//! Laws of bounds, as contracts of functions that do nothing.
ghost use Rattle.iloc_optimum.specs.Laws.{LawfulSchedulesAreTimings, NothingLeftRaisesTheBound, ReachedBoundsAreOptimal};

/// Promise: By any rule of memory, a lawful schedule that takes as many cycles as a bound is optimal among the lawful schedules
/// of its block.
pub fn reached_bounds_are_optimal()
    ensures { ReachedBoundsAreOptimal }
{}

/// Promise: The cycles of issue in a schedule that is lawful by a rule keep the delay pairs of its operations by that rule, and
/// no cycles hold more operations of a share than their rows can.
pub fn lawful_schedules_are_timings()
    ensures { LawfulSchedulesAreTimings }
{}

/// Promise: If no cycles of issue keep the delay pairs by a rule and the units within the windows that a number of
/// cycles leaves of a block's operations, each schedule of the block that is lawful by the rule takes more cycles.
pub fn nothing_left_raises_the_bound()
    ensures { NothingLeftRaisesTheBound }
{}

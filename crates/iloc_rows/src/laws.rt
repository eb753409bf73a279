//! Laws of texts with rows, as contracts of functions that do nothing.
ghost use Rattle.iloc_rows.specs.Laws.{TextsHaveOneAnswer, TextsHaveAnAnswer, HandInsDontChangeTheTask, TextsApartHaveOneAnswer};
ghost use Rattle.iloc_rows.specs.Laws.{PlacedRowsAreWithinLimits, SingleOperationsKeepTheUnits, SubmissionsApartAreWithinLimits, SubmissionsAreWithinLimits};

/// Promise: a text denotes at most one list of blocks with one list of proposals, or one refusal, and never both.
pub fn texts_have_one_answer()
    ensures { TextsHaveOneAnswer }
{}

/// Promise: each text denotes blocks with proposals, or a refusal, so out of memory is never the only answer to it.
pub fn texts_have_an_answer()
    ensures { TextsHaveAnAnswer }
{}

/// Promise: a text denotes at most 65,535 blocks and as many proposals, each of at most 10,000 operations; each operation
/// of a proposal is in exactly one slot of its rows, and each number there is an operation's.
pub fn submissions_are_within_limits()
    ensures { SubmissionsAreWithinLimits }
{}

/// Promise: a task and the rows that are handed in apart from it are within the same limits.
pub fn submissions_apart_are_within_limits()
    ensures { SubmissionsApartAreWithinLimits }
{}

/// Promise: proposals that are within the limits of a schedule are so too with leave for either slot.
pub fn placed_rows_are_within_limits()
    ensures { PlacedRowsAreWithinLimits }
{}

/// Promise: the row of a single operation, `[ X ]`, keeps the rules of the units.
pub fn single_operations_keep_the_units()
    ensures { SingleOperationsKeepTheUnits }
{}

/// Promise: whatever rows are handed in for a task, apart from it, the task's blocks are the same.
pub fn hand_ins_dont_change_the_task()
    ensures { HandInsDontChangeTheTask }
{}

/// Promise: a task, and rows apart from it, denote at most one list of blocks with one list of proposals.
pub fn texts_apart_have_one_answer()
    ensures { TextsApartHaveOneAnswer }
{}

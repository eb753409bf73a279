//! A law of what is said of rows, as the contract of a function that does nothing.
ghost use Rattle.iloc_row_commands.specs.Laws.{RowsByTheChoiceTakeOurCycles};

/// Promise: A lawful schedule that takes more cycles or fewer than the greedy one has a row that leaves the choice.
pub fn rows_by_the_choice_take_our_cycles()
    ensures { RowsByTheChoiceTakeOurCycles }
{}

//! Laws of what is found of rows, as contracts of functions that do nothing.
ghost use Rattle.iloc_judge.specs.Laws.{PassedRowsMayPass, SameRowsDoTheSame};

/// Rows that are found to be the same have the block's outcome on every memory or, where outputs alone are compared, show what
/// it shows.
pub fn same_rows_do_the_same()
    ensures { SameRowsDoTheSame }
{}

/// Rows that pass are by the book or, where that isn't asked for, do the same as the block on every memory, while the
/// block finishes on the memory handed in and has a store or an output, or an output where outputs alone are compared.
pub fn passed_rows_may_pass()
    ensures { PassedRowsMayPass }
{}

//! Laws of schedules by the book, as contracts of functions that do nothing.
ghost use Rattle.iloc_validation.specs.Laws.{ByTheBookKeepsTheOutcome, LawfulSchedulesAreByTheBook, OwnRowsAreByTheBook, CountsThatDifferExcludeByTheBook, WhatIsUnderWayExcludesByTheBook};

/// Rows that are a schedule of a block by the book have the block's outcome, on every memory.
///
/// Promise: rows by the book do what the block does, on every memory, whatever registers they use.
pub fn by_the_book_keeps_the_outcome()
    ensures { ByTheBookKeepsTheOutcome }
{}

/// Each lawful schedule of a block is one by the book.
///
/// Promise: each lawful schedule is by the book.
pub fn lawful_schedules_are_by_the_book()
    ensures { LawfulSchedulesAreByTheBook }
{}

/// So are rows that issue what a lawful schedule issues, however its operations are numbered.
///
/// Promise: a lawful schedule that was written down and read again is by the book.
pub fn own_rows_are_by_the_book()
    ensures { OwnRowsAreByTheBook }
{}

/// Where labels count otherwise than the block's, operations are left out or others are added, and no pairing makes the rows a
/// schedule by the book.
///
/// Promise: rows of which operations are left out or added aren't by the book.
pub fn counts_that_differ_exclude_by_the_book()
    ensures { CountsThatDifferExcludeByTheBook }
{}

/// Where a load or an output is issued while a store is under way, no pairing does either.
///
/// Promise: rows that issue a load or an output while a store is under way aren't by the book.
pub fn what_is_under_way_excludes_by_the_book()
    ensures { WhatIsUnderWayExcludesByTheBook }
{}

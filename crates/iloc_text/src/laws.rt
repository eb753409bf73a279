//! Laws of the language, as contracts of functions that do nothing.
ghost use Rattle.iloc_text.specs.Laws.{LinesHaveOneReading, ScheduleLinesSayOneThing, SpellingsReadBack, TextsHaveAnAnswer, TextsHaveOneAnswer, FilesAreWithinLimits};

/// Promise: a line has at most one reading.
pub fn lines_have_one_reading()
    ensures { LinesHaveOneReading }
{}

/// Promise: a line of a schedule says at most one thing.
pub fn schedule_lines_say_one_thing()
    ensures { ScheduleLinesSayOneThing }
{}

/// Promise: the spelling of an operation, as `push_op` writes it, reads as that operation if its numbers are within the
/// limit.
pub fn spellings_read_back()
    ensures { SpellingsReadBack }
{}

/// Promise: a text denotes at most one file or one refusal, and never both.
pub fn texts_have_one_answer()
    ensures { TextsHaveOneAnswer }
{}

/// Promise: each text denotes a file or a refusal, so out of memory is never the only answer to it.
pub fn texts_have_an_answer()
    ensures { TextsHaveAnAnswer }
{}

/// Promise: a file that a text denotes has at most 65,535 blocks, each of at most 10,000 operations.
pub fn files_are_within_limits()
    ensures { FilesAreWithinLimits }
{}

//! Where the blocks of a text end.
ghost use Rattle.std.specs.Prelude.{◌≡◌, ◌≤◌, MatchBool, length};
ghost use Rattle.iloc_text.specs.ScheduleLines.{IsScheduleLine, said_of};
ghost use Rattle.iloc_rows.specs.Steps.Ends.{is_nothing, IsCutOf};

use iloc_ops::MAX_INPUT;
use iloc_text::{ParseFault, ScheduleLine, read_schedule_line, split_line};

/// A text, cut before its first schedule line.
#[derive(Clone, Copy)]
pub struct CutText<'a> {
    /// The lines before that one, without their last line end.
    pub blocks: &'a [u8],
    /// How many lines precede the first schedule line.
    pub lines: u32,
    /// The first schedule line and all that follows it, if there is one.
    pub rows: Option<&'a [u8]>,
}

/// Whether nothing is said.
fn is_nothing(line: &ScheduleLine<'_>) -> bool
    ensures { result ≡ is_nothing (said_of line.now) }
{
    matches!(line, ScheduleLine::Empty)
}

/// Whether the line says more than nothing, or would if numbers had no limit.
fn is_schedule_line(line: &[u8]) -> bool
    ensures { MatchBool result (IsScheduleLine line.now) (IsScheduleLine line.now → ⊥) }
{
    match read_schedule_line(line) {
        Ok(found) => !is_nothing(&found),
        Err(ParseFault::Bad) => false,
        Err(ParseFault::NumberTooLarge) => true,
    }
}

/// Cuts the text before its first schedule line.
pub fn cut_before_rows(input: &[u8]) -> CutText<'_>
    requires { length input.now ≤ MAX_INPUT }
    ensures { IsCutOf input.now result }
{
    let mut lines = 0;
    let mut rest = Some(input);
    while let Some(text) = rest {
        let (line, after) = split_line(text);
        if is_schedule_line(line) {
            let end = (input.len() - text.len()).saturating_sub(1);
            return CutText {
                blocks: &input[..end],
                lines,
                rows: Some(text),
            };
        }
        lines += 1;
        rest = after;
    }
    CutText {
        blocks: input,
        lines,
        rows: None,
    }
}

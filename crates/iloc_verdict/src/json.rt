//! Lines of JSON.
ghost use Rattle.std.specs.Prelude.{◌≡◌, ◌++◌, ◌<◌, length, OnOk};
ghost use Rattle.iloc_verdict.specs.Entry.Json as json;
ghost use Rattle.iloc_verdict.specs.Counted.{CanBeListed};
ghost use Rattle.iloc_verdict.specs.Obstacle.{IsAmong};

mod comparison;
mod operations;
mod reason;

use crate::checked::changes::Changes;
use crate::checked::verdict_line::{claim, push_counts};
use crate::checked::{Checked, Judged};
use crate::obstacle::Obstacle;
use crate::remark::reason::push_units;
use crate::verdict::Verdict;
use Piece::{Escaped, Number, Text};
use comparison::{push_comparison, push_no_difference};
use iloc_comparison::Form;
use iloc_ops::{NoMemory, Op};
use iloc_pieces::{Piece, push_all};
use iloc_rows::Unread;
use iloc_timed::Row;
use operations::push_origins;
use reason::{push_changes, push_reasons};

/// The longest part of a line's text that is listed.
const MOST_SHOWN: usize = 64;

/// Appends the end of the word for the verdict, whether the `rows` rows pass, and how many there are.
fn push_passing(text: &mut Vec<u8>, passing: bool, rows: usize) -> Result<(), NoMemory>
    ensures { OnOk result (text.new.items ≡ text.old.items ++ json.passing_members passing rows) }
{
    let passes = if passing { "true" } else { "false" };
    let (passes, rows) = (Text(passes), Number(rows as u64));
    push_all(
        text,
        &[Text("\",\"passes\":"), passes, Text(",\"rows\":"), rows],
    )
}

/// Appends the word for the verdict, whether the `rows` rows pass, and the numbers that go with it.
fn push_verdict(
    text: &mut Vec<u8>,
    passing: bool,
    rows: usize,
    checked: Checked,
) -> Result<(), NoMemory>
    ensures { OnOk result (text.new.items ≡ text.old.items ++ json.verdict_members passing rows checked) }
{
    push_all(text, &[Text(",\"verdict\":\""), Text(checked.kind.word())])?;
    push_passing(text, passing, rows)?;
    push_counts(text, Form::Json, checked)?;
    push_all(
        text,
        &[Text(",\"claimed\":"), claim(checked.claimed, "null")],
    )
}

/// Appends the first bytes of a `line`, and `..` where there are more.
#[tactic(auto, unfolding(crate::specs::Entry::Json::start_of))]
fn push_start_of(text: &mut Vec<u8>, line: &[u8]) -> Result<(), NoMemory>
    ensures { OnOk result (text.new.items ≡ text.old.items ++ json.start_of line.now) }
{
    if line.len() <= MOST_SHOWN {
        return push_all(text, &[Escaped(line)]);
    }
    let (start, _) = line.split_at(MOST_SHOWN);
    push_all(text, &[Escaped(start), Text("..")])
}

/// Appends that `unread` can't be read, with `words` for what is wrong with it.
fn push_unread_value(text: &mut Vec<u8>, unread: &Unread, words: &[u8]) -> Result<(), NoMemory>
    ensures { OnOk result (text.new.items ≡ text.old.items ++ json.unread_value unread.now words.now) }
{
    push_all(
        text,
        &[
            Text("{\"kind\":\"unread\",\"line\":"),
            Number(u64::from(unread.line)),
            Text(",\"row\":"),
            Number(u64::from(unread.row)),
            Text(",\"text\":\""),
        ],
    )?;
    push_start_of(text, unread.text.as_bytes())?;
    let words = Escaped(words);
    push_all(text, &[Text("\",\"problem\":\""), words, Text("\"}")])
}

/// Appends what keeps rows from being a schedule.
fn push_obstacle(
    text: &mut Vec<u8>,
    ops: &[Op],
    rows: &[Row],
    obstacle: &Obstacle<'_>,
) -> Result<(), NoMemory>
    requires { IsAmong rows.now obstacle.now }
    ensures { OnOk result (text.new.items ≡ text.old.items ++ json.obstacle_value ops.now rows.now obstacle.now) }
{
    match obstacle {
        Obstacle::Unread(unread, words) => push_unread_value(text, unread, words),
        Obstacle::Units(row) => push_units(text, Form::Json, ops, rows, *row),
    }
}

/// Appends what comes before a reason that is alone: that nothing is compared, and what is left out and added.
fn push_before(text: &mut Vec<u8>, changes: Changes) -> Result<(), NoMemory>
    ensures { OnOk result (text.new.items ≡ text.old.items ++ json.before changes) }
{
    push_no_difference(text)?;
    push_changes(text, changes)?;
    Ok(text.extend_from_slice(b",\"reasons\":[")?)
}

/// Appends what keeps rows from being a schedule as the reason that is alone.
fn push_refused(
    text: &mut Vec<u8>,
    ops: &[Op],
    rows: &[Row],
    obstacle: &Obstacle<'_>,
    changes: Changes,
) -> Result<(), NoMemory>
    requires { IsAmong rows.now obstacle.now }
    ensures { OnOk result (text.new.items ≡ text.old.items ++ json.refused_members ops.now rows.now obstacle.now changes) }
{
    push_before(text, changes)?;
    push_obstacle(text, ops, rows, obstacle)?;
    push_all(text, &[Text("],\"more\":0")])
}

/// Appends that it isn't decided whether rows are by the book.
fn push_undecided(text: &mut Vec<u8>) -> Result<(), NoMemory>
    ensures { OnOk result (text.new.items ≡ text.old.items ++ json.undecided_members) }
{
    let none = Text(",\"left_out\":null,\"added\":null");
    let undecided = Text(",\"reasons\":[{\"kind\":\"undecided\"}],\"more\":0");
    push_all(text, &[none, undecided])
}

/// Appends what is said of the operations `ops` in `rows` after their verdict.
fn push_detail(
    text: &mut Vec<u8>,
    ops: &[Op],
    rows: &[Row],
    verdict: &Verdict<'_>,
) -> Result<(), NoMemory>
    requires { CanBeListed rows.now verdict.now }
    ensures { OnOk result
        (text.new.items ≡ text.old.items ++ json.detail_members ops.now rows.now verdict.now) }
{
    match verdict {
        Verdict::Refused(obstacle, changes) => push_refused(text, ops, rows, obstacle, *changes),
        Verdict::Lawful => {
            push_no_difference(text)?;
            Ok(text.extend_from_slice(
                b",\"left_out\":null,\"added\":null,\"reasons\":[],\"more\":0",
            )?)
        }
        Verdict::Unlawful(reasons, comparison) => {
            push_comparison(text, comparison)?;
            push_reasons(text, reasons)
        }
        Verdict::Undecided(comparison) => {
            push_comparison(text, comparison)?;
            push_undecided(text)
        }
    }
}

/// Appends what is listed of rows that are judged, and pass or don't.
pub(crate) fn push_json(
    text: &mut Vec<u8>,
    passing: bool,
    judged: &Judged<'_>,
) -> Result<(), NoMemory>
    requires { CanBeListed judged.now.rows.now judged.now.judgement.verdict }
    ensures { OnOk result (text.new.items ≡ text.old.items ++ json.json_of passing judged.now.ops.now judged.now.rows.now
        judged.now.judgement.verdict judged.now.judgement.origins.items judged.now.checked) }
{
    let (ops, rows) = (judged.ops, judged.rows);
    push_verdict(text, passing, rows.len(), judged.checked)?;
    push_detail(text, ops, rows, &judged.judgement.verdict)?;
    push_origins(text, &judged.judgement, rows)?;
    Ok(text.extend_from_slice(b"}\n")?)
}

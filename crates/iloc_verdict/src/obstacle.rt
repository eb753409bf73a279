//! What keeps rows from being a schedule, and its line.
ghost use Rattle.std.specs.Prelude.{◌≡◌, ◌++◌, ◌<◌, length, OnOk};
ghost use Rattle.iloc_verdict.specs.Obstacle.{IsAmong, bad_row, obstacle_told, unread_told};

use crate::remark::reason::push_units;
use Piece::{Number, Text};
use iloc_comparison::Form;
use iloc_ops::{NoMemory, Op};
use iloc_pieces::{Piece, push_all};
use iloc_rows::Unread;
use iloc_timed::Row;

/// What keeps rows from being a schedule.
#[derive(Debug, Drop)]
pub enum Obstacle<'a> {
    /// The first line that can't be read, and words for what is wrong with it.
    Unread(&'a Unread, Vec<u8>),
    /// The first row, from 0, that breaks the rules of the units.
    Units(usize),
}

/// Appends where a line is that can't be read, with `words` for what is wrong with it, in one line.
fn push_unread(text: &mut Vec<u8>, unread: &Unread, words: &[u8]) -> Result<(), NoMemory>
    ensures { OnOk result (text.new.items ≡ text.old.items ++ unread_told unread.now words.now) }
{
    let (line, row) = (u64::from(unread.line), u64::from(unread.row));
    push_all(
        text,
        &[
            Text("  line "),
            Number(line),
            Text(", row "),
            Number(row),
            Text(": "),
        ],
    )?;
    for byte in words {
        if *byte != b'\n' {
            text.push(*byte)?;
        }
    }
    Ok(text.push(b'\n')?)
}

/// Appends the line of row `row`, as one that breaks the rules of the units, with the rule.
fn push_bad_row(text: &mut Vec<u8>, ops: &[Op], rows: &[Row], row: usize) -> Result<(), NoMemory>
    requires { row < length rows.now }
    ensures { OnOk result (text.new.items ≡ text.old.items ++ bad_row ops.now rows.now row) }
{
    push_units(text, Form::Lines, ops, rows, row)?;
    Ok(text.push(b'\n')?)
}

/// Promise: appends the line of `obstacle`: where a line is that can't be read, with its words, or the row of `rows` that breaks
/// the rules of the units, with the rule.
pub fn push_obstacle(
    text: &mut Vec<u8>,
    ops: &[Op],
    rows: &[Row],
    obstacle: &Obstacle<'_>,
) -> Result<(), NoMemory>
    requires { IsAmong rows.now obstacle.now }
    ensures { OnOk result (text.new.items ≡ text.old.items ++ obstacle_told ops.now rows.now obstacle.now) }
{
    match obstacle {
        Obstacle::Unread(unread, words) => push_unread(text, unread, words),
        Obstacle::Units(row) => push_bad_row(text, ops, rows, *row),
    }
}

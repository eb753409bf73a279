//! Which operation of the block each of the rows is, in JSON.
ghost use Rattle.std.specs.Prelude.{◌≡◌, ◌++◌, OnOk, codes};
ghost use Rattle.std.specs.List.{flat_map};
ghost use Rattle.iloc_pieces.specs.Pieces.{piece_text};
ghost use Rattle.iloc_verdict.specs.Entry.Json as json;

use crate::obstacle::Obstacle;
use crate::verdict::{Judgement, Verdict};
use Piece::{Number, Text};
use iloc_ops::NoMemory;
use iloc_pieces::{Piece, push_all};
use iloc_timed::Row;

/// The number that `origins` notes for the operation in `slot`.
fn slot_value<'a>(origins: &[Option<usize>], slot: Option<usize>) -> Piece<'a>
    ensures { piece_text result ≡ json.slot_value origins.now slot }
{
    match slot {
        Some(k) => match origins.get(k).copied().unwrap_or(None) {
            Some(number) => Number(number as u64),
            None => Text("null"),
        },
        None => Text("null"),
    }
}

/// Appends the numbers for a row.
fn push_row_value(text: &mut Vec<u8>, origins: &[Option<usize>], row: &Row) -> Result<(), NoMemory>
    ensures { OnOk result (text.new.items ≡ text.old.items ++ json.row_value origins.now row.now) }
{
    let (zero, one) = (slot_value(origins, row.zero), slot_value(origins, row.one));
    push_all(text, &[Text("["), zero, Text(","), one, Text("]")])
}

/// Appends each row after a comma.
fn push_rest(text: &mut Vec<u8>, origins: &[Option<usize>], rows: &[Row]) -> Result<(), NoMemory>
    ensures { OnOk result (text.new.items
        ≡ text.old.items ++ flat_map (λ r. codes "," ++ json.row_value origins.now r) rows.now) }
{
    for row in rows {
        text.push(b',')?;
        push_row_value(text, origins, row)?;
    }
    Ok(())
}

/// Appends rows with commas between them.
fn push_rows(text: &mut Vec<u8>, origins: &[Option<usize>], rows: &[Row]) -> Result<(), NoMemory>
    ensures { OnOk result (text.new.items ≡ text.old.items ++ json.rows_values origins.now rows.now) }
{
    match rows {
        [] => Ok(()),
        [first, rest @ ..] => {
            push_row_value(text, origins, first)?;
            push_rest(text, origins, rest)
        }
    }
}

/// Appends for each row the numbers that are noted for its two slots.
fn push_operations(
    text: &mut Vec<u8>,
    origins: &[Option<usize>],
    rows: &[Row],
) -> Result<(), NoMemory>
    ensures { OnOk result (text.new.items ≡ text.old.items ++ json.operations_member origins.now rows.now) }
{
    text.extend_from_slice(b",\"operations\":[")?;
    push_rows(text, origins, rows)?;
    Ok(text.extend_from_slice(b"]")?)
}

/// Appends which operation of the block each of `rows` is, null where a line can't be read.
pub(crate) fn push_origins(
    text: &mut Vec<u8>,
    judgement: &Judgement<'_>,
    rows: &[Row],
) -> Result<(), NoMemory>
    ensures { OnOk result (text.new.items ≡ text.old.items
        ++ json.origins_member judgement.now.verdict judgement.now.origins.items rows.now) }
{
    match &judgement.verdict {
        Verdict::Refused(Obstacle::Unread(..), _) => {
            Ok(text.extend_from_slice(b",\"operations\":null")?)
        }
        _ => push_operations(text, &judgement.origins, rows),
    }
}

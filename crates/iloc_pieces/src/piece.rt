//! A text as a list of pieces.
ghost use Rattle.std.specs.Prelude.{◌≡◌, ◌++◌, OnOk};
ghost use Rattle.std.specs.List.{flat_map};
ghost use Rattle.iloc_pieces.specs.Pieces.{all_text, piece_text};

use crate::escaped::push_escaped;
use iloc_ops::{NoMemory, Op, push_number, push_op};

/// A piece of a text.
#[derive(Clone, Copy)]
pub enum Piece<'a> {
    /// These bytes.
    Text(&'a str),
    /// A number in decimal.
    Number(u64),
    /// A number in decimal, with a `-` where it is negative.
    Signed(i32),
    /// An operation, as it is spelled.
    Operation(Op),
    /// These bytes within a string of JSON: each that isn't printable ASCII, `"` and `\` as `\u00XX`.
    Escaped(&'a [u8]),
}

/// Appends `piece`.
fn push_piece(text: &mut Vec<u8>, piece: Piece<'_>) -> Result<(), NoMemory>
    ensures { OnOk result (text.new.items ≡ text.old.items ++ piece_text piece.entry) }
{
    match piece {
        Piece::Text(words) => Ok(text.extend_from_slice(words.as_bytes())?),
        Piece::Number(number) => push_number(text, number),
        Piece::Signed(number) => push_number(text, number),
        Piece::Operation(op) => push_op(text, &op),
        Piece::Escaped(bytes) => push_escaped(text, bytes),
    }
}

/// Appends `pieces`, one after another.
fn push_each(text: &mut Vec<u8>, pieces: &[Piece<'_>]) -> Result<(), NoMemory>
    ensures { OnOk result (text.new.items ≡ text.old.items ++ flat_map piece_text pieces.now) }
{
    for piece in pieces {
        push_piece(text, *piece)?;
    }
    Ok(())
}

/// Promise: appends `pieces`, one after another.
///
/// After a refusal of memory a part of them may have been appended.
#[tactic(auto, using(crate::proofs::All::all_is))]
pub fn push_all(text: &mut Vec<u8>, pieces: &[Piece<'_>]) -> Result<(), NoMemory>
    ensures { OnOk result (text.new.items ≡ text.old.items ++ all_text pieces.now) }
{
    push_each(text, pieces)
}

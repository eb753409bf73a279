//! A line that can't be read.
ghost use Rattle.std.specs.Prelude.{◌≡◌, IfOk};

use iloc_ops::NoMemory;
use std::alloc::Global;
use std::marker::Model;

/// The text of a line, as it is written.
#[derive(Debug, Drop)]
pub struct LineText {
    bytes: Vec<u8>,
}

impl Model for LineText {
    ghost use Rattle.std.specs.Prelude.{ℕ, List};

    ghost Value = { List ℕ };

    ghost view = { λ text. text.bytes.items };
}

impl LineText {
    /// A copy of `bytes`.
    pub(crate) fn of(alloc: Global, bytes: &[u8]) -> Result<LineText, NoMemory>
        ensures { IfOk result (λ text. text ≡ bytes.now) }
    {
        Ok(LineText {
            bytes: Vec::from_slice(alloc, bytes)?,
        })
    }

    /// Promise: lends the bytes of the text.
    pub fn as_bytes(&self) -> &[u8]
        ensures { result.now ≡ self.now }
    {
        self.bytes.as_slice()
    }
}

/// A line among rows that can't be read.
#[derive(Debug, Drop)]
pub struct Unread {
    /// Its number, counted from the first line of the text.
    pub line: u32,
    /// How many rows of its block precede it.
    pub row: u32,
    /// Its text.
    pub text: LineText,
}

//! A word that is no number, as a fault quotes it.
ghost use Rattle.std.specs.Prelude.{◌≡◌};
ghost use Rattle.iloc_driver.specs.Quoted.{end_of, shown_byte, word_of};

use std::fmt::{self, Display, Formatter};

/// How many bytes of a word are quoted.
const MOST_QUOTED: usize = 24;

/// A word that is no number. Its `Display` is the word in quotes.
#[derive(Clone, Copy, Debug, Drop, PartialEq, Eq)]
pub struct Word {
    /// Its first bytes, or all and zeros after them.
    bytes: [u8; MOST_QUOTED],
    /// How many bytes it has.
    length: usize,
}

impl Word {
    /// What a fault keeps of `text`.
    pub(crate) fn of(text: &[u8]) -> Word
        ensures { result ≡ word_of text.now }
    {
        let mut bytes = [0; MOST_QUOTED];
        let count = text.len().min(MOST_QUOTED);
        bytes[..count].copy_from_slice(&text[..count]);
        Word {
            bytes,
            length: text.len(),
        }
    }

    /// What follows the bytes that are shown of it.
    fn end(&self) -> &'static str
        ensures { result.now ≡ end_of self.now }
    {
        if self.length > MOST_QUOTED {
            "..\""
        } else {
            "\""
        }
    }
}

/// A byte as it is shown.
fn shown_byte(byte: u8) -> char
    ensures { result ≡ shown_byte byte }
{
    if byte.is_ascii_graphic() {
        char::from(byte)
    } else {
        '?'
    }
}

impl Display for Word {
    ghost use Rattle.std.specs.Prelude.{Some};
    ghost use Rattle.iloc_driver.specs.Quoted.{quoted};

    ghost output = { λ word. Some (quoted word) };

    fn fmt<W: fmt::Write>(&self, f: &mut Formatter<W>) -> fmt::Result {
        f.write_str("\"")?;
        for byte in self.bytes.iter().take(self.length) {
            f.write_char(shown_byte(*byte))?;
        }
        f.write_str(self.end())
    }
}

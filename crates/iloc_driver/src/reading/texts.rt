//! Texts that are known by a name, as files are.
ghost use Rattle.std.specs.Prelude.{◌≡◌, IfOk, List, Option, ℕ};
ghost use Rattle.iloc_driver.specs.Run.Apart.{Holds};

use crate::fault::FileFault;
use iloc_text::{InputFault, read_text_from};
use std::alloc::Global;
use std::io::{self, ErrorKind, Read};

/// Opens texts by their names: where the program runs, files.
pub trait Texts {
    /// A text that was opened.
    type Text: Read + Drop;

    // what is known of the bytes of the text with this name
    ghost held: { Self → List ℕ → Option (List ℕ) };

    /// Opens the text with this name, at its first byte.
    fn open_text(&self, name: &str) -> io::Result<Self::Text>
        ensures { IfOk result (λ text. Self.Text.remaining text ≡ held self.now name.now) };
}

/// The bytes of the text with this name.
pub(crate) fn text_named<T: Texts>(
    alloc: Global,
    texts: &T,
    name: &str,
) -> Result<Vec<u8>, FileFault>
    ensures { IfOk result (λ input. Holds (T.held texts.now name.now) input.items) }
{
    let mut text = match texts.open_text(name) {
        Ok(text) => text,
        Err(error) if error.kind() == ErrorKind::NotFound => return Err(FileFault::NoFile),
        Err(_) => return Err(FileFault::NotOpened),
    };
    match read_text_from(alloc, &mut text) {
        Ok(input) => Ok(input),
        Err(InputFault::ReadFailed) => Err(FileFault::ReadFailed),
        Err(InputFault::NoMemory) => Err(FileFault::NoMemory),
    }
}

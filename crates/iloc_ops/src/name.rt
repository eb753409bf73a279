//! The names of blocks.
ghost use Rattle.std.specs.Prelude.{◌≡◌, IfOk, string_bytes};

use crate::no_memory::NoMemory;
use arrayvec::ArrayString;
use std::alloc::Global;
use std::marker::Model;

/// Copies up to this length take no memory of their own.
const SHORT: usize = 16;

/// The text of a name.
#[derive(Debug, Drop)]
enum Text {
    /// In the value itself.
    Short(ArrayString<SHORT>),
    Long(String),
}

/// The name of a block: the bytes of its label without the colon.
#[derive(Debug, Drop)]
pub struct Name {
    text: Text,
}

impl Model for Name {
    ghost use Rattle.std.specs.Prelude.{ℕ, List};
    ghost use Rattle.iloc_ops.specs.Steps.Held.{name_text};

    ghost Value = { List ℕ };

    ghost view = { λ name. name_text name.text };
}

impl Name {
    /// Promise: the name with this text.
    pub fn new(text: String) -> Name
        ensures { result ≡ string_bytes text }
    {
        Name {
            text: Text::Long(text),
        }
    }

    /// Promise: a name with a copy of this text.
    ///
    /// A copy of at most 16 bytes needs no allocation.
    pub fn from_str(alloc: Global, text: &str) -> Result<Name, NoMemory>
        ensures { IfOk result (λ name. name ≡ text.now) }
    {
        let text = match ArrayString::from(text) {
            Ok(short) => Text::Short(short),
            Err(_) => Text::Long(String::from_str(alloc, text)?),
        };
        Ok(Name { text })
    }

    /// Promise: the text of the name.
    pub fn as_str(&self) -> &str
        ensures { result.now ≡ self.now }
    {
        match &self.text {
            Text::Short(text) => text.as_str(),
            Text::Long(text) => text.as_str(),
        }
    }
}

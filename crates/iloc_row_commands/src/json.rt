//! How the entry of a block begins in JSON.
ghost use Rattle.std.specs.Prelude.{◌≡◌, ◌<◌, ◌^◌, ◌++◌, OnOk};
ghost use Rattle.std.specs.Option.{option_copied};
ghost use Rattle.iloc_row_commands.specs.Check as listed;

use Piece::{Escaped, Number, Text};
use iloc_ops::{Name, NoMemory};
use iloc_pieces::{Piece, push_all};

/// Appends the name of a block as a member of JSON, null for a block without a name.
fn push_name_member(text: &mut Vec<u8>, name: Option<&Name>) -> Result<(), NoMemory>
    ensures { OnOk result
        (text.new.items ≡ text.old.items ++ listed.name_member (option_copied name.entry)) }
{
    match name {
        Some(name) => {
            let name = Escaped(name.as_str().as_bytes());
            push_all(text, &[Text("\"name\":\""), name, Text("\"")])
        }
        None => push_all(text, &[Text("\"name\":null")]),
    }
}

/// Appends `{"block":K,"name":NAME`.
pub(crate) fn push_json_head(
    text: &mut Vec<u8>,
    number: usize,
    name: Option<&Name>,
) -> Result<(), NoMemory>
    requires { number < 2 ^ 63 }
    ensures { OnOk result
        (text.new.items ≡ text.old.items ++ listed.json_head number (option_copied name.entry)) }
{
    push_all(
        text,
        &[Text("{\"block\":"), Number(number as u64), Text(",")],
    )?;
    push_name_member(text, name)
}

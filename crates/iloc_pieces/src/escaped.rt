//! How bytes are written within a string of JSON.
ghost use Rattle.std.specs.Prelude.{◌≡◌, ◌++◌, ◌<◌, OnOk};
ghost use Rattle.std.specs.List.{flat_map};
ghost use Rattle.iloc_pieces.specs.Escaped as json;

use iloc_ops::NoMemory;

/// The digit of a number below 16.
fn hex_digit(number: u8) -> u8
    requires { number < 16 }
    ensures { result ≡ json.hex_digit number }
{
    if number < 10 {
        b'0' + number
    } else {
        b'a' - 10 + number
    }
}

/// Whether `byte` stands for itself in a string.
fn is_plain(byte: u8) -> bool
    ensures { result ≡ json.is_plain byte }
{
    31 < byte && byte < 127 && byte != b'"' && byte != b'\\'
}

/// Appends `byte` of a string.
fn push_byte(text: &mut Vec<u8>, byte: u8) -> Result<(), NoMemory>
    ensures { OnOk result (text.new.items ≡ text.old.items ++ json.escaped byte) }
{
    if is_plain(byte) {
        return Ok(text.push(byte)?);
    }
    text.extend_from_slice(b"\\u00")?;
    text.push(hex_digit(byte / 16))?;
    Ok(text.push(hex_digit(byte % 16))?)
}

/// Appends the `bytes` of a string.
pub(crate) fn push_escaped(text: &mut Vec<u8>, bytes: &[u8]) -> Result<(), NoMemory>
    ensures { OnOk result (text.new.items ≡ text.old.items ++ flat_map json.escaped bytes.now) }
{
    for byte in bytes {
        push_byte(text, *byte)?;
    }
    Ok(())
}

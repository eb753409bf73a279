//! Writing texts, short ones joined.
ghost use Rattle.std.specs.Prelude.{◌≡◌, [], ◌++◌, OnErr, OnOk};
ghost use Rattle.std.specs.Io.KnownBytes.{Appends};
ghost use Rattle.iloc_listing.specs.Device.{WritesFront};
ghost use Rattle.iloc_listing.specs.Steps.Joined.{Joins};

use std::io::Write;

/// A write failed or took no byte, or the flush failed.
#[derive(Clone, Copy, Debug, Drop, PartialEq, Eq)]
pub struct WriteFailed;

/// Writes the whole text, then flushes.
///
/// Promise: at `Ok` the text was written, once and whole; after a failure a prefix of it was.
pub fn write_text<W: Write>(writer: &mut W, text: &[u8]) -> Result<(), WriteFailed>
    ensures ok { OnOk result (Appends (W.contents writer.old) (W.contents writer.new) text.now) }
    ensures err { OnErr result
        (WritesFront (W.contents writer.old) (W.contents writer.new) text.now) }
{
    write_bytes(writer, text)?;
    writer.flush().map_err(|_| WriteFailed)
}

/// Writes the whole text. After a failure a prefix of it was written.
fn write_bytes<W: Write>(writer: &mut W, text: &[u8]) -> Result<(), WriteFailed>
    ensures ok { OnOk result (Appends (W.contents writer.old) (W.contents writer.new) text.now) }
    ensures err { OnErr result
        (WritesFront (W.contents writer.old) (W.contents writer.new) text.now) }
{
    let mut rest = text;
    while !rest.is_empty() {
        match writer.write(rest) {
            Ok(count) if count > 0 => rest = &rest[count..],
            _ => return Err(WriteFailed),
        }
    }
    Ok(())
}

/// Writes what the buffer holds, which is empty then. After a failure a prefix of that was written.
fn write_buffer<W: Write>(buffer: &mut Vec<u8>, writer: &mut W) -> Result<(), WriteFailed>
    ensures empty { OnOk result (buffer.new.items ≡ []) }
    ensures ok { OnOk result (Appends (W.contents writer.old) (W.contents writer.new) buffer.old.items) }
    ensures err { OnErr result (WritesFront (W.contents writer.old) (W.contents writer.new) buffer.old.items) }
{
    write_bytes(writer, buffer)?;
    buffer.clear();
    Ok(())
}

/// Texts from this size on are written by themselves. Joined with others they cost a copy.
const UNJOINED: usize = 16384;

/// Adds `text` to `buffer`, which never grows: where `text` doesn't fit in what is left of it, the buffer is written first. A text of
/// `UNJOINED` bytes or one that is longer than the buffer is written by itself. After a failure a prefix of both was written.
pub(crate) fn write_joined<W: Write>(
    text: &[u8],
    buffer: &mut Vec<u8>,
    writer: &mut W,
) -> Result<(), WriteFailed>
    ensures ok { OnOk result
        (Joins (W.contents writer.old) (W.contents writer.new) buffer.old.items buffer.new.items text.now) }
    ensures err { OnErr result
        (WritesFront (W.contents writer.old) (W.contents writer.new) (buffer.old.items ++ text.now)) }
{
    let is_short = text.len() < UNJOINED;
    if is_short && text.len() <= buffer.capacity() - buffer.len() {
        return buffer.extend_from_slice(text).map_err(|_| WriteFailed);
    }
    write_buffer(buffer, writer)?;
    if is_short && text.len() <= buffer.capacity() {
        return buffer.extend_from_slice(text).map_err(|_| WriteFailed);
    }
    write_bytes(writer, text)
}

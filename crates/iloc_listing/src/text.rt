//! Listed texts, in which rows without an operation take little memory.
ghost use Rattle.std.specs.Prelude.{◌≡◌, ◌<◌, ◌≤◌, ◌+◌, ◌++◌, length, IfOk, OnErr, OnOk};
ghost use Rattle.std.specs.Io.KnownBytes.{Appends};
ghost use Rattle.std.specs.List.{flat_map};
ghost use Rattle.iloc_listing.specs.Device.{WritesFront};
ghost use Rattle.iloc_listing.specs.Steps.Joined.{Joins};
ghost use Rattle.iloc_listing.specs.Steps.Text.{empty_rows};

use crate::writing::{WriteFailed, write_joined, write_text};
use bytes::{Bytes, BytesMut};
use iloc_ops::NoMemory;
use std::alloc::Global;
use std::io::Write;
use std::marker::Model;
use std::mem;

/// How a row without an operation is listed.
const EMPTY_ROW: &[u8] = b"[ nop ; nop ]\n";

/// Entries are cut from pieces of this size. With an allocation for each, the heap of a worker's thread grew page by page: by
/// 4,200 calls of `mprotect` on 65,535 blocks of some ten operations, and now by 270. With that, and with the entries moved
/// to lists of their texts and cycles before they were written, `schedule` took 4 to 11 % more processor time with one
/// worker there, and 9 to 12 % more wall time with four.
const PIECE: usize = 65536;

/// Texts are joined up to this length before they are written.
const MOST_JOINED: usize = 65536;

/// An entry from this size on keeps the buffer that it was written to, in place of a copy.
const WHOLE: usize = 4096;

/// Rows without an operation that follow one another.
#[derive(Clone, Copy, Drop)]
struct EmptyRows {
    /// How many bytes precede them after the empty rows before.
    bytes: usize,
    rows: usize,
}

/// A text. Of rows without an operation it may keep the number alone.
#[derive(Drop)]
pub struct FoldedText {
    /// All bytes but those of the rows of which the number is kept.
    bytes: Bytes,
    runs: Vec<EmptyRows>,
}

impl Model for FoldedText {
    ghost use Rattle.std.specs.Prelude.{ℕ, ◌≤◌, List, length};
    ghost use Rattle.iloc_listing.specs.Steps.Text.{bytes_before, unfolded};

    ghost Value = { List ℕ };

    ghost view = { λ t. unfolded t.runs.items t.bytes };

    ghost invariant = { λ t. bytes_before t.runs.items ≤ length t.bytes };
}

/// How many empty rows a text begins with, and what comes after them.
fn split_rows(text: &[u8]) -> (usize, &[u8])
    ensures parts { text.now ≡ empty_rows result.0 ++ result.1.now }
    ensures fits { length result.1.now + result.0 ≤ length text.now }
{
    let mut rows = 0;
    let mut rest = text;
    while rest.starts_with(EMPTY_ROW) {
        rows += 1;
        rest = &rest[EMPTY_ROW.len()..];
    }
    (rows, rest)
}

/// How many bytes the first line takes with its end, or all where it has none.
fn line_size(text: &[u8]) -> usize
    ensures within { result ≤ length text.now }
    ensures some { 0 < length text.now → 0 < result }
{
    let end = text.iter().position(|byte| *byte == b'\n');
    end.map_or(text.len(), |end| end + 1)
}

/// Adds `rows` empty rows to `buffer`, which is written where they don't fit. After a failure a prefix of both was
/// written.
fn write_empty_rows<W: Write>(
    rows: usize,
    buffer: &mut Vec<u8>,
    writer: &mut W,
) -> Result<(), WriteFailed>
    ensures ok { OnOk result (Joins (W.contents writer.old) (W.contents writer.new)
        buffer.old.items buffer.new.items (empty_rows rows)) }
    ensures err { OnErr result (WritesFront (W.contents writer.old) (W.contents writer.new)
        (buffer.old.items ++ empty_rows rows)) }
{
    for _row in 0..rows {
        write_joined(EMPTY_ROW, buffer, writer)?;
    }
    Ok(())
}

/// A copy of the text, cut from the piece that is being filled, or from a new one where it doesn't fit.
fn cut(piece: &mut BytesMut, text: &[u8]) -> Result<Bytes, NoMemory>
    ensures { IfOk result (λ copy. copy ≡ text.now) }
{
    piece.clear();
    if piece.capacity() < text.len() {
        piece.reserve(PIECE.max(text.len()))?;
    }
    piece.extend_from_slice(text)?;
    Ok(piece.freeze_to(text.len())?)
}

impl FoldedText {
    /// This text, of whose empty rows the number is kept.
    fn folded(alloc: Global, text: &[u8]) -> Result<FoldedText, NoMemory>
        ensures { IfOk result (λ folded. folded ≡ text.now) }
    {
        let mut bytes = Vec::new(alloc);
        let mut runs = Vec::new(alloc);
        let mut before = 0;
        let mut rest = text;
        while !rest.is_empty() {
            let (rows, behind) = split_rows(rest);
            let (line, behind) = behind.split_at(line_size(behind));
            if rows > 0 {
                runs.push(EmptyRows {
                    bytes: bytes.len() - before,
                    rows,
                })?;
                before = bytes.len();
            }
            bytes.extend_from_slice(line)?;
            rest = behind;
        }
        bytes.shrink_to_fit();
        runs.shrink_to_fit();
        Ok(FoldedText {
            bytes: Bytes::from_vec(bytes)?,
            runs,
        })
    }

    /// A copy of `text`, cut from `piece`.
    pub(crate) fn copied(
        alloc: Global,
        piece: &mut BytesMut,
        text: &[u8],
    ) -> Result<FoldedText, NoMemory>
        ensures { IfOk result (λ kept. kept ≡ text.now) }
    {
        Ok(FoldedText {
            bytes: cut(piece, text)?,
            runs: Vec::new(alloc),
        })
    }

    /// What `buffer` holds: folded, copied to `piece`, or from `WHOLE` bytes on in the buffer itself, in whose place there is
    /// an empty one then.
    pub(crate) fn of(
        alloc: Global,
        piece: &mut BytesMut,
        buffer: &mut Vec<u8>,
        folds: bool,
    ) -> Result<FoldedText, NoMemory>
        ensures { IfOk result (λ kept. kept ≡ buffer.old.items) }
    {
        if folds {
            return FoldedText::folded(alloc, buffer);
        }
        if buffer.len() < WHOLE {
            return FoldedText::copied(alloc, piece, buffer);
        }
        let next = Vec::with_capacity(alloc, buffer.len())?;
        Ok(FoldedText {
            bytes: Bytes::from_vec(mem::replace(buffer, next))?,
            runs: Vec::new(alloc),
        })
    }

    /// Adds the text to the buffer, or writes what doesn't fit there. After a failure a prefix of both was written.
    fn write_to<W: Write>(&self, buffer: &mut Vec<u8>, writer: &mut W) -> Result<(), WriteFailed>
        ensures ok { OnOk result (Joins (W.contents writer.old) (W.contents writer.new)
            buffer.old.items buffer.new.items self.now) }
        ensures err { OnErr result (WritesFront (W.contents writer.old) (W.contents writer.new)
            (buffer.old.items ++ self.now)) }
    {
        let mut rest = self.bytes.as_slice();
        for run in &self.runs {
            let (before, behind) = rest.split_at(run.bytes);
            write_joined(before, buffer, writer)?;
            write_empty_rows(run.rows, buffer, writer)?;
            rest = behind;
        }
        write_joined(rest, buffer, writer)
    }
}

/// What is listed of one block, and the cycles of its schedule.
#[derive(Drop)]
pub struct ScheduleEntry {
    pub text: FoldedText,
    pub cycles: u32,
}

/// The entries of blocks, and an ending.
#[derive(Drop)]
pub struct Listing {
    entries: Vec<ScheduleEntry>,
    ending: Vec<u8>,
    /// By which short texts are joined.
    buffer: Vec<u8>,
}

impl Model for Listing {
    ghost use Rattle.std.specs.Prelude.{ℕ, ◌++◌, List};
    ghost use Rattle.std.specs.List.{flat_map};

    ghost Value = { List ℕ };

    ghost view = { λ l. flat_map (λ entry. entry.text) l.entries.items ++ l.ending.items };
}

impl Listing {
    /// The listing that is this text alone.
    pub fn of_text(alloc: Global, text: Vec<u8>) -> Listing
        ensures { result ≡ text.items }
    {
        Listing {
            entries: Vec::new(alloc),
            ending: text,
            buffer: Vec::new(alloc),
        }
    }

    /// The listing of `entries`, and `ending`. The buffer by which they are written is made now, so that writing takes
    /// no memory.
    pub fn of_entries(
        alloc: Global,
        entries: Vec<ScheduleEntry>,
        ending: Vec<u8>,
    ) -> Result<Listing, NoMemory>
        ensures { IfOk result (λ listing.
            listing ≡ flat_map (λ entry. entry.text) entries.items ++ ending.items) }
    {
        Ok(Listing {
            entries,
            ending,
            buffer: Vec::with_capacity(alloc, MOST_JOINED)?,
        })
    }

    /// Writes the whole listing, then flushes. After a failure a prefix of it was written.
    pub fn write_to<W: Write>(self, writer: &mut W) -> Result<(), WriteFailed>
        ensures ok { OnOk result (Appends (W.contents writer.old) (W.contents writer.new) self) }
        ensures err { OnErr result (WritesFront (W.contents writer.old) (W.contents writer.new) self) }
    {
        let Listing {
            entries,
            ending,
            mut buffer,
        } = self;
        buffer.clear();
        for entry in &entries {
            entry.text.write_to(&mut buffer, writer)?;
        }
        write_joined(&ending, &mut buffer, writer)?;
        write_text(writer, &buffer)
    }
}

//! An input that may be kept while it is read, or watched: whether a comment in it gives words, as graders read it.
ghost use Rattle.std.specs.Prelude.{◌≡◌, IfErr, IfOk, take};
ghost use Rattle.std.specs.Io.KnownBytes.{ReadConsumes};
ghost use Rattle.std.specs.Io.{ReadsAtMost};
ghost use Rattle.iloc_farm.specs.Reason.{KeepsAlso, bytes_of};

use memchr::memchr_iter;
use std::alloc::Global;
use std::io::{self, Read};
/// What begins a comment that says with which words its block is to start.
const SIM_INPUT: &[u8] = b"//SIM INPUT:";

/// A reader of which what it gives may be kept, or watched for comments that give words.
///
/// Promise: it gives just what `reader` gives.
#[derive(Drop)]
pub struct Watched<R: Drop> {
    reader: R,
    /// What was read since it is kept, unless memory was refused.
    kept: Option<Vec<u8>>,
    is_watched: bool,
    /// How much of `SIM_INPUT` the line has so far, if it may begin such a comment.
    matched: Option<usize>,
    gives_words: bool,
}

impl<R: Read + Drop> Watched<R> {
    /// This reader, which nobody watches yet, and of which nothing is kept.
    pub fn new(reader: R) -> Watched<R>
        ensures { result.reader ≡ reader }
    {
        Watched {
            reader,
            kept: None,
            is_watched: false,
            matched: Some(0),
            gives_words: false,
        }
    }

    /// Watches it from now on, or doesn't.
    pub(crate) fn watch(&mut self, is_watched: bool)
        ensures { self.new.reader ≡ self.old.reader }
    {
        self.is_watched = is_watched;
    }

    /// Keeps what is read from now on, or doesn't.
    pub(crate) fn keep(&mut self, alloc: Global, keeps: bool)
        ensures { self.new.reader ≡ self.old.reader }
    {
        self.kept = if keeps { Some(Vec::new(alloc)) } else { None };
    }

    /// Keeps `bytes` too, where something is kept.
    fn keep_also(&mut self, bytes: &[u8])
        ensures reader { self.new.reader ≡ self.old.reader }
        ensures kept { KeepsAlso self.old.kept self.new.kept bytes.now }
    {
        let Some(kept) = &mut self.kept else { return };
        if kept.extend_from_slice(bytes).is_err() {
            self.kept = None;
        }
    }

    /// What was kept of what was read.
    pub(crate) fn kept(&self) -> &[u8]
        ensures { result.now ≡ bytes_of self.now.kept }
    {
        match &self.kept {
            Some(kept) => kept,
            None => &[],
        }
    }

    /// Whether nothing was read since it is kept.
    pub(crate) fn is_empty(&self) -> bool {
        matches!(&self.kept, Some(kept) if kept.is_empty())
    }

    /// Whether a comment was seen that gives words.
    pub(crate) fn gives_words(&self) -> bool {
        self.gives_words
    }

    /// Notes what comes of a line, up to its end or to where it can't begin such a comment.
    fn note_line(&mut self, bytes: &[u8])
        ensures { (self.new.reader ≡ self.old.reader) × (self.new.kept ≡ self.old.kept) }
    {
        for byte in bytes {
            let Some(count) = self.matched else {
                return;
            };
            self.matched = match *byte {
                b' ' | b'\t' if matches!(count, 0 | 2) => Some(count),
                _ if SIM_INPUT.get(count) == Some(byte) => Some(count + 1),
                _ => None,
            };
            self.gives_words |= self.matched == Some(SIM_INPUT.len());
        }
    }

    /// Notes a piece of the input: the rest of a line, and the beginning of each line after it.
    fn note(&mut self, bytes: &[u8])
        ensures { (self.new.reader ≡ self.old.reader) × (self.new.kept ≡ self.old.kept) }
    {
        self.note_line(bytes);
        for end in memchr_iter(b'\n', bytes) {
            if let Some([_, line @ ..]) = bytes.get(end..) {
                self.matched = Some(0);
                self.note_line(line);
            }
        }
    }
}

impl<R: Read + Drop> Read for Watched<R> {
    ghost remaining = { λ watched. R.remaining watched.reader };

    fn read(&mut self, buf: &mut [u8]) -> io::Result<usize>
        ensures bound { ReadsAtMost result buf.new }
        ensures bytes { ReadConsumes (R.remaining self.old.reader) (R.remaining self.new.reader) result buf.new }
        ensures kept { IfOk result (λ count. KeepsAlso self.old.kept self.new.kept (take count buf.new)) }
        ensures kept_at_err { IfErr result (λ _. self.new.kept ≡ self.old.kept) }
    {
        let count = self.reader.read(buf)?;
        let bytes = &buf[..count];
        self.keep_also(bytes);
        if self.is_watched {
            self.note(bytes);
        }
        Ok(count)
    }
}

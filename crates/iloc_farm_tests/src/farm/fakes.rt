//! Readers and writers that are slow or fail.
use iloc_driver::Texts;
use std::alloc::Global;
use std::io::{Error, ErrorKind, Read, Result as IoResult, Write};

/// Gives its bytes, at most `at_once` a turn, and then fails or is at its end.
#[derive(Drop)]
pub(crate) struct Source<'a> {
    pub bytes: &'a [u8],
    pub at_once: usize,
    pub end: Option<ErrorKind>,
    /// How often it was read.
    pub turns: usize,
}

impl<'a> Read for Source<'a> {
    fn read(&mut self, buf: &mut [u8]) -> IoResult<usize> {
        self.turns = self.turns.saturating_add(1);
        if let (true, Some(kind)) = (self.bytes.is_empty(), self.end) {
            return Err(Error::from(kind));
        }
        let count = self.at_once.min(buf.len()).min(self.bytes.len());
        let (taken, left) = self.bytes.split_at(count);
        buf[..count].copy_from_slice(taken);
        self.bytes = left;
        Ok(count)
    }
}

/// Gives the bytes whole.
pub(crate) fn giving(bytes: &[u8]) -> Source<'_> {
    Source {
        bytes,
        at_once: usize::MAX,
        end: None,
        turns: 0,
    }
}

/// Holds one text. Whoever asks for any is given it.
#[derive(Drop)]
pub(crate) struct Shelf<'a> {
    pub text: &'a [u8],
    /// How it ends.
    pub end: Option<ErrorKind>,
}

impl<'a> Texts for Shelf<'a> {
    ghost use Rattle.std.specs.Prelude.{None};

    type Text = Source<'a>;

    ghost held = { λ _ _. None };

    fn open_text(&self, _name: &str) -> IoResult<Source<'a>> {
        Ok(Source {
            end: self.end,
            ..giving(self.text)
        })
    }
}

/// Holds an empty text.
pub(crate) const EMPTY_SHELF: Shelf = Shelf {
    text: b"",
    end: None,
};

/// Takes all that comes, at most `at_once` bytes a turn.
#[derive(Drop)]
pub(crate) struct Sink {
    pub taken: Vec<u8>,
    pub at_once: usize,
    /// Whether a flush works.
    pub flushes: bool,
    /// How many bytes were taken when it was flushed last.
    pub flushed: Option<usize>,
}

impl Write for Sink {
    fn write(&mut self, buf: &[u8]) -> IoResult<usize> {
        let count = self.at_once.min(buf.len());
        self.taken.extend_from_slice(&buf[..count])?;
        Ok(count)
    }

    fn flush(&mut self) -> IoResult<()> {
        if !self.flushes {
            return Err(Error::from(ErrorKind::BrokenPipe));
        }
        self.flushed = Some(self.taken.len());
        Ok(())
    }
}

/// Takes all that comes.
pub(crate) fn taking_all(alloc: Global) -> Sink {
    Sink {
        taken: Vec::new(alloc),
        at_once: usize::MAX,
        flushes: true,
        flushed: None,
    }
}

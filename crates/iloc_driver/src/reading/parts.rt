//! Threads that read parts of a text.
ghost use Rattle.std.specs.Prelude.{◌≡◌, IfErr, IfOk, List, ℕ};
ghost use Rattle.iloc_text.specs.Files.{AreWithinLimits, Denotes};
ghost use Rattle.iloc_text.specs.Parts.{IsReadApart};
ghost use Rattle.iloc_text.specs.Streams.{EndsStream, ReadsText};

use iloc_ops::{IlocFile, NoMemory};
use iloc_text::{ReadParts, StreamFault, TextPart, read_file_in_parts};
use std::alloc::Global;
use std::collections::VecDeque;
use std::io::Read;
use std::snapshot::Snapshot;
use std::thread;
use std::thread::{Promise, PromisedHandle, Threads};

// A thread's promise: the part that it read has this text.
#[derive(Drop)]
struct HasText(Snapshot<Vec<u8>>);

impl Promise<TextPart> for HasText {
    ghost use Rattle.std.specs.Prelude.{◌≡◌};
    ghost use Rattle.iloc_text.specs.Parts.{IsReadApart};

    ghost kept_by = { λ p part. (part.text ≡ p.0.value) × IsReadApart part };
}

/// Threads that read parts of a text, one each. When it is dropped, it waits for those that still run.
struct PartThreads<'h, H: Threads> {
    rt: &'h H,
    parts: VecDeque<PromisedHandle<TextPart, HasText>>,
}

impl<'h, H: Threads> ReadParts for PartThreads<'h, H> {
    ghost use Rattle.std.specs.Prelude.{map};

    ghost texts = { λ threads. map (λ part. part.promise.0.value.items) threads.parts.items };

    fn len(&self) -> usize {
        self.parts.len()
    }

    fn start(&mut self, alloc: Global, text: Vec<u8>) -> Result<Option<TextPart>, NoMemory> {
        self.parts.reserve(1)?;
        let promise = HasText(Snapshot::of(&text));
        match thread::spawn_with(
            self.rt,
            promise,
            move || -> TextPart
                ensures text { result.text ≡ text }
                ensures found { IsReadApart result }
            { TextPart::read(alloc, text) },
        ) {
            Ok(part) => {
                self.parts.push_back_reserved(part);
                Ok(None)
            }
            Err(refused) => Ok(Some((refused.value)())),
        }
    }

    fn next(&mut self) -> Option<TextPart> {
        let part = self.parts.pop_front()?;
        Some(part.join(self.rt))
    }
}

impl<'h, H: Threads> Drop for PartThreads<'h, H> {
    fn drop(self) {
        let Self { rt, parts } = self;
        for part in parts {
            part.join(rt);
        }
    }
}

/// The file that `stream` gives. At most `most` threads read parts of it while the rest comes; all have ended then.
pub(crate) fn read_by_threads<H: Threads, R: Read>(
    rt: &H,
    alloc: Global,
    stream: &mut R,
    most: usize,
) -> Result<IlocFile, StreamFault>
    ensures ok { IfOk result (λ file. (text : List ℕ) ×
        ReadsText (R.remaining stream.old) (R.remaining stream.new) text × Denotes text file.blocks) }
    ensures limits { IfOk result (λ file. AreWithinLimits file.blocks) }
    ensures err { IfErr result (EndsStream (R.remaining stream.old) (R.remaining stream.new)) }
{
    let parts = VecDeque::new(alloc);
    read_file_in_parts(alloc, stream, PartThreads { rt, parts }, most)
}

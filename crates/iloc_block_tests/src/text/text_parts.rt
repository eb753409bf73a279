ghost use Rattle.std.specs.Prelude.{◌≡◌, []};

use super::diary::Diary;
use super::stream::giving;
use crate::asserted::assert_list;
use iloc_ops::NoMemory;
use iloc_text::{ReadParts, StreamFault, TextPart, read_file_in_parts};
use std::alloc::Global;
use std::collections::VecDeque;
use std::test::Fail;

/// Reads each part when it is wanted.
#[derive(Drop)]
struct Queue {
    alloc: Global,
    texts: VecDeque<Vec<u8>>,
}

impl Queue {
    /// No part has begun.
    fn new(alloc: Global) -> Queue
        ensures { result.texts.items ≡ [] }
    {
        Queue {
            alloc,
            texts: VecDeque::new(alloc),
        }
    }
}

impl ReadParts for Queue {
    ghost use Rattle.std.specs.Prelude.{map};

    ghost texts = { λ queue. map (λ text. text.items) queue.texts.items };

    fn len(&self) -> usize {
        self.texts.len()
    }

    fn start(&mut self, _: Global, text: Vec<u8>) -> Result<Option<TextPart>, NoMemory> {
        self.texts.push_back(text)?;
        Ok(None)
    }

    fn next(&mut self) -> Option<TextPart> {
        let text = self.texts.pop_front()?;
        Some(TextPart::read(self.alloc, text))
    }
}

/// Reads each part at once.
#[derive(Drop)]
struct AtOnce;

impl ReadParts for AtOnce {
    ghost use Rattle.std.specs.Prelude.{[]};

    ghost texts = { λ _. [] };

    fn len(&self) -> usize {
        0
    }

    fn start(&mut self, alloc: Global, text: Vec<u8>) -> Result<Option<TextPart>, NoMemory> {
        Ok(Some(TextPart::read(alloc, text)))
    }

    fn next(&mut self) -> Option<TextPart> {
        None
    }
}

/// The blocks of a text, written down.
fn read_by<P: ReadParts + Drop>(
    alloc: Global,
    text: &[u8],
    readers: P,
    most: usize,
) -> Result<Vec<u8>, StreamFault>
    requires { P.texts readers ≡ [] }
{
    let file = read_file_in_parts(alloc, &mut giving(text, 32_768), readers, most)?;
    let mut diary = Diary::new(alloc, 0);
    diary.write_all(file.blocks.as_slice())?;
    Ok(diary.lines)
}

/// A text that begins with the lines `parts`, each in a part of its own, for comments after them make them long enough.
fn long_text(alloc: Global, parts: &[&[u8]], rest: &[u8]) -> Result<Vec<u8>, Fail> {
    let mut text = Vec::new(alloc);
    for part in parts {
        text.extend_from_slice(*part)?;
        text.extend_from_slice(b"\n//")?;
        let blanks = 520_000_usize.saturating_sub(part.len());
        text.resize(text.len().saturating_add(blanks), b' ')?;
        text.push(b'\n')?;
    }
    text.extend_from_slice(rest)?;
    Ok(text)
}

/// Lines in parts of their own, the rest of the text, and its blocks.
const READ: &[(&[&[u8]], &[u8], &[u8])] = &[
    (
        &[b"nop\nA:\nnop", b"B: output 0"],
        b"C:\noutput 4",
        b"-; nop\nA; nop\nB; output 0\nC; output 4\n",
    ),
    (&[b"// no block", b"A:"], b"B:\nnop", b"A\nB; nop\n"),
];

#[test]
fn takes_parts_in_order(rt: HostRuntime) -> Result<(), Fail> {
    let alloc = rt.alloc();
    for (parts, rest, lines) in READ {
        let text = long_text(alloc, parts, rest)?;
        assert_list(&rt, &read_by(alloc, &text, AtOnce, 1)?, lines);
        for most in 0..4 {
            assert_list(&rt, &read_by(alloc, &text, Queue::new(alloc), most)?, lines);
        }
    }
    Ok(())
}

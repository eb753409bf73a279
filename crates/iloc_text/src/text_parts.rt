//! Parts of a text that are read apart, by several threads for example.
ghost use Rattle.std.specs.Prelude.{◌≡◌, ◌++◌, ◌∷◌, IfOk, IfSome, IsTrue};
ghost use Rattle.iloc_text.specs.Parts.{BeginsLabelled, IsCounted};

use crate::fault::ReadFault;
use crate::line::one_pass::fast_line;
use crate::reader::copies::Copies;
use crate::reader::read_blocks;
use iloc_ops::IlocFile;
use memchr::memrchr;
use std::alloc::Global;

/// At so many lines with a colon a label is looked for.
const MOST_TRIED: u32 = 64;

/// Whether the first line is found to have a label.
pub(crate) fn begins_labelled(text: &[u8]) -> bool
    ensures { IsTrue result → BeginsLabelled text.now }
{
    match fast_line(text) {
        Some((line, _)) => line.label.is_some(),
        None => false,
    }
}

/// The two parts before and after the last line end that a label is found to follow, whose colon is not before this place.
pub(crate) fn split_before_label(text: &[u8], place: usize) -> Option<(&[u8], &[u8])>
    ensures { IfSome result (λ parts. text.now ≡ parts.0.now ++ 10 ∷ parts.1.now) }
{
    let mut end = text.len();
    for _ in 0..MOST_TRIED {
        let place = place.min(end);
        let colon = memrchr(b':', &text[place..end])?;
        let start = memrchr(b'\n', &text[..place + colon])?;
        let back = &text[start + 1..];
        if begins_labelled(back) {
            return Some((&text[..start], back));
        }
        end = start;
    }
    None
}

/// A file, and how many lines its text has.
#[derive(Drop)]
pub(crate) struct Counted {
    pub file: IlocFile,
    pub lines: u32,
}

/// A part of a text, and what it denotes where it stands alone, or why it is refused.
#[derive(Drop)]
pub struct TextPart {
    pub(crate) text: Vec<u8>,
    pub(crate) found: Result<Counted, ReadFault>,
}

/// The file that the text denotes, with its lines counted.
fn read_file_counted(alloc: Global, text: &[u8]) -> Result<Counted, ReadFault>
    ensures { IfOk result (IsCounted text.now) }
{
    let mut copies = Copies::new(alloc);
    let lines = read_blocks(alloc, text, &mut copies)?;
    let file = copies.into_file(alloc)?;
    Ok(Counted { file, lines })
}

impl TextPart {
    ghost use Rattle.iloc_text.specs.Parts.{IsReadApart};

    /// Reads a part of a text apart.
    ///
    /// Promise: the part has this text, and what it was read as, it denotes.
    pub fn read(alloc: Global, text: Vec<u8>) -> TextPart
        ensures text { result.text ≡ text }
        ensures found { IsReadApart result }
    {
        let found = read_file_counted(alloc, &text);
        TextPart { text, found }
    }
}

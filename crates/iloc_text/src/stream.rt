//! Texts and files that are read from a stream.
ghost use Rattle.std.specs.Prelude.{IfErr, IfOk, List, ℕ};
ghost use Rattle.iloc_ops.specs.declared.file.Block.{Block};
ghost use Rattle.iloc_text.specs.Files.{AreWithinLimits, Denotes};
ghost use Rattle.iloc_text.specs.Streams.{EndsStream, ReadsText};

pub mod parts;
pub mod pieces;
pub mod text_reader;

use crate::fault::{InputFault, StreamFault};
use crate::reader::copies::Copies;
use crate::reader::taker::TakeBlocks;
use crate::stream::pieces::read_pieces;
use crate::stream::text_reader::TextReader;
use iloc_ops::IlocFile;
use std::alloc::Global;
use std::io::Read;

/// Reads a text from a stream.
///
/// Promise: the text is what the stream had to its end, or its first 16,777,217 bytes.
///
/// Any error of a read ends it.
pub fn read_text_from<R: Read>(alloc: Global, stream: &mut R) -> Result<Vec<u8>, InputFault>
    ensures { IfOk result (λ text. ReadsText (R.remaining stream.old) (R.remaining stream.new) text.items) }
{
    let mut text = Vec::new(alloc);
    read_pieces(alloc, stream, &mut text)?;
    Ok(text)
}

/// Reads a file from a stream and hands each block to the taker as soon as its last line has come, as `read_blocks` does.
///
/// Promise: the taker gets exactly the blocks that the text denotes, in order, or the text is refused as it denotes; the
/// text is what the stream had to its end, or its first 16,777,217 bytes.
///
/// Any error of a read ends it. The text isn't kept.
pub fn read_blocks_from<R: Read, T: TakeBlocks + Drop>(
    alloc: Global,
    stream: &mut R,
    taker: T,
) -> Result<T, StreamFault>
    ensures ok { IfOk result (λ given. (text : List ℕ) ×
        ReadsText (R.remaining stream.old) (R.remaining stream.new) text ×
        (blocks : List Block) × Denotes text blocks × T.took taker blocks given) }
    ensures err { IfErr result (EndsStream (R.remaining stream.old) (R.remaining stream.new)) }
{
    let mut text = TextReader::new(alloc, taker);
    read_pieces(alloc, stream, &mut text)?;
    Ok(text.finish(alloc)?)
}

/// Reads a file from a stream, as `read_blocks_from` does.
///
/// Promise: exactly the file that the text denotes, of at most 65,535 blocks, each of at most 10,000 operations, or the
/// refusal that it denotes; the text is what the stream had to its end, or its first 16,777,217 bytes.
pub fn read_file_from<R: Read>(alloc: Global, stream: &mut R) -> Result<IlocFile, StreamFault>
    ensures ok { IfOk result (λ file. (text : List ℕ) ×
        ReadsText (R.remaining stream.old) (R.remaining stream.new) text × Denotes text file.blocks) }
    ensures limits { IfOk result (λ file. AreWithinLimits file.blocks) }
    ensures err { IfErr result (EndsStream (R.remaining stream.old) (R.remaining stream.new)) }
{
    let copies = read_blocks_from(alloc, stream, Copies::new(alloc))?;
    Ok(copies.into_file(alloc)?)
}

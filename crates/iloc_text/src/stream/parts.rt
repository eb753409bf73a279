//! A text that comes from a stream, and that several read, each a part, while the rest comes.
ghost use Rattle.std.specs.Prelude.{◌≡◌, ◌≢◌, ◌<◌, ◌++◌, ◌∷◌, [], List, ℕ, length, IfErr, IfNone, IfOk, IfSome, OnOk};
ghost use Rattle.iloc_text.specs.declared.fault.ReadFault.TheVariants.{NoMemory as no_memory};
ghost use Rattle.iloc_text.specs.Files.{AreWithinLimits, Denotes, IsRefused};
ghost use Rattle.iloc_text.specs.Parts.{IsReadApart, IsStarted};
ghost use Rattle.iloc_text.specs.Streams.{EndsStream, ReadsText};

use crate::fault::{ReadFault, StreamFault};
use crate::reader::copies::Copies;
use crate::stream::pieces::{PIECE, TakePieces, read_pieces};
use crate::stream::text_reader::TextReader;
use crate::text_parts::{TextPart, split_before_label};
use iloc_ops::{IlocFile, NoMemory};
use std::alloc::Global;
use std::io::Read;
use std::mem;

/// As soon as so many bytes have come, a part is cut off them. Four threads that read parts save `counts` 20 to 40 % of its wall
/// time on texts of 7 to 14 MB, and add up to 14 % to its processor time.
const PART: usize = 524_288;

/// Reads parts of a text, several at a time for example, and gives them back in order.
pub trait ReadParts {
    // The texts of the parts that it was given and has not given back.
    ghost texts: { Self → List (List ℕ) };

    /// How many parts it was given and has not given back.
    fn len(&self) -> usize
        ensures { result ≡ length (texts self.now) };

    /// Begins to read a part with this text, or reads it at once and gives it back.
    fn start(&mut self, alloc: Global, text: Vec<u8>) -> Result<Option<TextPart>, NoMemory>
        ensures { IfOk result (λ back. IsStarted (texts self.old) text.items (texts self.new) back) };

    /// Waits until the first part is read, and gives it back, if one is left.
    fn next(&mut self) -> Option<TextPart>
        ensures some { IfSome result (λ part.
            (texts self.old ≡ part.text.items ∷ texts self.new) × IsReadApart part) }
        ensures none { IfNone result ((texts self.old ≡ []) × (texts self.new ≡ [])) };
}

/// Cuts parts off a text, and takes them in order as they were read.
#[derive(Drop)]
struct PartedText<P> {
    /// At most so many parts are read at a time.
    most: usize,
    /// Those who read them.
    readers: P,
    /// What was read before them.
    reader: TextReader<Copies>,
    /// What came behind them.
    rest: Vec<u8>,
    /// In so many first bytes of it no label is found.
    searched: usize,
    /// A buffer for the next part.
    spare: Vec<u8>,
}

impl<P: ReadParts + Drop> PartedText<P> {
    ghost use Rattle.iloc_text.specs.Steps.PartReads.{HasBegun, HasCome};

    /// Nothing has come.
    fn new(alloc: Global, readers: P, most: usize) -> PartedText<P>
        requires { P.texts readers ≡ [] }
        ensures { HasCome P.texts result [] }
    {
        PartedText {
            most,
            readers,
            reader: TextReader::new(alloc, Copies::new(alloc)),
            rest: Vec::new(alloc),
            searched: 0,
            spare: Vec::new(alloc),
        }
    }

    /// Takes the first part that is being read.
    fn take_first(&mut self, alloc: Global) -> Result<(), NoMemory>
        ensures rest { self.new.rest ≡ self.old.rest }
        ensures fewer { 0 < length (P.texts self.old.readers) →
            length (P.texts self.new.readers) < length (P.texts self.old.readers) }
        ensures begun { (text : List ℕ) → HasBegun P.texts self.old text → OnOk result (HasBegun P.texts self.new text) }
    {
        let Some(part) = self.readers.next() else {
            return Ok(());
        };
        self.spare = self.reader.take_part(alloc, part)?;
        Ok(())
    }

    /// Takes all parts that are being read.
    fn take_all(&mut self, alloc: Global) -> Result<(), NoMemory>
        ensures rest { self.new.rest ≡ self.old.rest }
        ensures none { OnOk result (P.texts self.new.readers ≡ []) }
        ensures begun { (text : List ℕ) → HasBegun P.texts self.old text → OnOk result (HasBegun P.texts self.new text) }
    {
        while self.readers.len() > 0 {
            self.take_first(alloc)?;
        }
        Ok(())
    }

    /// Has a part read.
    fn start(&mut self, alloc: Global, text: Vec<u8>) -> Result<(), NoMemory>
        ensures rest { self.new.rest ≡ self.old.rest }
        ensures begun { (front : List ℕ) → HasBegun P.texts self.old front →
            OnOk result (HasBegun P.texts self.new (front ++ text.items ++ 10 ∷ [])) }
    {
        if self.readers.len() >= self.most {
            self.take_first(alloc)?;
        }
        let Some(part) = self.readers.start(alloc, text)? else {
            return Ok(());
        };
        self.take_all(alloc)?;
        self.spare = self.reader.take_part(alloc, part)?;
        Ok(())
    }

    /// Cuts a part off before a label, where one is found.
    fn cut(&mut self, alloc: Global) -> Result<(), NoMemory>
        ensures { (text : List ℕ) → HasCome P.texts self.old text → OnOk result (HasCome P.texts self.new text) }
    {
        let Some((front, back)) = split_before_label(&self.rest, self.searched) else {
            self.searched = self.rest.len();
            return Ok(());
        };
        let mut rest = mem::replace(&mut self.spare, Vec::new(alloc));
        rest.clear();
        rest.reserve(PART + PIECE)?;
        rest.extend_from_slice(back)?;
        let length = front.len();
        let mut text = mem::replace(&mut self.rest, rest);
        text.truncate(length);
        self.searched = 0;
        self.start(alloc, text)?;
        Ok(())
    }

    /// Ends the text, which came whole.
    fn finish(mut self, alloc: Global) -> Result<IlocFile, ReadFault>
        ensures ok { (text : List ℕ) → HasCome P.texts self text → IfOk result (λ file. Denotes text file.blocks) }
        ensures err { (text : List ℕ) → HasCome P.texts self text →
            IfErr result (λ fault. fault ≢ no_memory → IsRefused text fault) }
    {
        if self.readers.len() > 0 {
            self.cut(alloc)?;
        }
        self.take_all(alloc)?;
        let PartedText {
            mut reader,
            rest,
            ..
        } = self;
        reader.read(alloc, &rest)?;
        Ok(reader.finish(alloc)?.into_file(alloc)?)
    }
}

impl<P: ReadParts + Drop> TakePieces for PartedText<P> {
    ghost use Rattle.std.specs.Prelude.{[]};
    ghost use Rattle.iloc_text.specs.Steps.PartReads.{HasCome};

    ghost took = { λ start text now. HasCome P.texts start [] → HasCome P.texts now text };

    fn take(&mut self, alloc: Global, piece: &[u8]) -> Result<(), NoMemory> {
        self.rest.extend_from_slice(piece)?;
        if self.rest.len() < PART {
            return Ok(());
        }
        self.cut(alloc)?;
        Ok(())
    }

    ghost took_none = { λ _ come. come };
}

/// Reads a file from a stream, as `read_file_from` does, and has parts of a long text read apart while the rest comes, at
/// most `most` at a time.
///
/// Promise: exactly the file that the text denotes, of at most 65,535 blocks, each of at most 10,000 operations, or the
/// refusal that it denotes; the text is what the stream had to its end, or its first 16,777,217 bytes.
pub fn read_file_in_parts<R: Read, P: ReadParts + Drop>(
    alloc: Global,
    stream: &mut R,
    readers: P,
    most: usize,
) -> Result<IlocFile, StreamFault>
    requires { P.texts readers ≡ [] }
    ensures ok { IfOk result (λ file. (text : List ℕ) ×
        ReadsText (R.remaining stream.old) (R.remaining stream.new) text × Denotes text file.blocks) }
    ensures limits { IfOk result (λ file. AreWithinLimits file.blocks) }
    ensures err { IfErr result (EndsStream (R.remaining stream.old) (R.remaining stream.new)) }
{
    let mut text = PartedText::new(alloc, readers, most);
    read_pieces(alloc, stream, &mut text)?;
    Ok(text.finish(alloc)?)
}

//! A reader of a text that comes piece by piece.
ghost use Rattle.std.specs.Prelude.{◌≡◌, ◌≢◌, ◌+◌, ◌≤◌, ◌++◌, ◌∷◌, [], List, ℕ, length, vec_len, IfOk, IfErr, IsTrue, OnOk};
ghost use Rattle.iloc_ops.specs.Limits.{MAX_INPUT};
ghost use Rattle.iloc_ops.specs.declared.file.Block.{Block as block_value};
ghost use Rattle.iloc_text.specs.declared.fault.ReadFault.TheVariants.{NoMemory as no_memory};
ghost use Rattle.iloc_text.specs.Files.{Denotes, IsRefused};

use crate::fault::ReadFault;
use crate::reader::copies::Copies;
use crate::reader::open_block::OpenBlock;
use crate::reader::read_lines;
use crate::reader::taker::TakeBlocks;
use crate::stream::pieces::TakePieces;
use crate::text_parts::{Counted, TextPart, begins_labelled};
use iloc_ops::{IlocFile, MAX_BLOCKS, MAX_INPUT, NoMemory};
use memchr::{memchr, memrchr};
use std::alloc::Global;

/// Reads a text that comes piece by piece, and hands each block over as soon as its last line has come. Of the text it
/// keeps no more than the line that is cut off.
#[derive(Drop)]
pub struct TextReader<T> {
    taker: T,
    open_block: OpenBlock,
    // How many lines were read.
    number: u32,
    // What came after them.
    rest: Vec<u8>,
    // How many bytes came.
    length: usize,
    // The first fault of the text.
    fault: Option<ReadFault>,
    ghost few: { number + vec_len rest ≤ length },
}

impl<T: TakeBlocks + Drop> TextReader<T> {
    ghost use Rattle.iloc_text.specs.Lines.{lines_of};
    ghost use Rattle.iloc_text.specs.Steps.Open.{HasTaken};
    ghost use Rattle.iloc_text.specs.Steps.TextReads.{GoesOn, HasFault, HasRead};
    ghost use Rattle.iloc_text.specs.Steps.Verdicts.{Answered, answer_from};

    /// A reader to which nothing has come, and which hands blocks to this taker.
    pub fn new(alloc: Global, taker: T) -> TextReader<T>
        ensures { HasRead T.took taker result [] }
    {
        TextReader {
            taker,
            open_block: OpenBlock::none(alloc),
            number: 0,
            rest: Vec::new(alloc),
            length: 0,
            fault: None,
        }
    }

    /// Keeps bytes that no line end follows yet.
    fn keep(&mut self, bytes: &[u8]) -> Result<(), NoMemory>
        requires { self.old.number + vec_len self.old.rest + length bytes.now ≤ self.old.length }
        ensures taker { self.new.taker ≡ self.old.taker }
        ensures open_block { self.new.open_block ≡ self.old.open_block }
        ensures number { self.new.number ≡ self.old.number }
        ensures length { self.new.length ≡ self.old.length }
        ensures fault { self.new.fault ≡ self.old.fault }
        ensures rest { OnOk result (self.new.rest.items ≡ self.old.rest.items ++ bytes.now) }
    {
        self.rest.extend_from_slice(bytes)?;
        Ok(())
    }

    /// Reads the lines that were kept, and answers how many were read then.
    fn read_kept(&mut self, alloc: Global) -> Result<u32, ReadFault>
        requires { self.old.length ≤ MAX_INPUT }
        ensures kept { self.new.rest ≡ self.old.rest }
        ensures before { self.new.number ≡ self.old.number }
        ensures length { self.new.length ≡ self.old.length }
        ensures fault { self.new.fault ≡ self.old.fault }
        ensures number { IfOk result (λ number. number ≡ self.old.number + length (lines_of self.old.rest.items)) }
        ensures blocks { (start : T) (blocks : List block_value) →
            HasTaken T.took start self.old.taker self.old.open_block blocks →
            Answered (HasTaken T.took start self.new.taker self.new.open_block)
            (answer_from blocks (self.old.number + 1) (lines_of self.old.rest.items)) result }
    {
        read_lines(
            alloc,
            &self.rest,
            self.number,
            &mut self.open_block,
            &mut self.taker,
        )
    }

    /// Reads the lines of `bytes` after what was kept, and answers how many bytes were read then.
    fn read_behind(&mut self, alloc: Global, bytes: &[u8]) -> Result<u32, ReadFault>
        requires counted { self.old.number + vec_len self.old.rest + length bytes.now ≤ self.old.length }
        requires short { self.old.length ≤ MAX_INPUT }
        ensures kept { OnOk result (self.new.rest.items ≡ []) }
        ensures len { OnOk result (vec_len self.new.rest ≡ 0) }
        ensures before { OnOk result (self.new.number ≡ self.old.number) }
        ensures length { self.new.length ≡ self.old.length }
        ensures fault { self.new.fault ≡ self.old.fault }
        ensures number { IfOk result (λ number. number ≡ self.old.number + length (lines_of (self.old.rest.items ++ bytes.now))) }
        ensures blocks { (start : T) (blocks : List block_value) →
            HasTaken T.took start self.old.taker self.old.open_block blocks →
            Answered (HasTaken T.took start self.new.taker self.new.open_block)
            (answer_from blocks (self.old.number + 1) (lines_of (self.old.rest.items ++ bytes.now))) result }
    {
        if self.rest.is_empty() {
            return read_lines(
                alloc,
                bytes,
                self.number,
                &mut self.open_block,
                &mut self.taker,
            );
        }
        self.keep(bytes)?;
        let read = self.read_kept(alloc);
        self.rest.clear();
        read
    }

    /// Reads the lines that end in the piece, and keeps what follows them.
    fn read_ended(&mut self, alloc: Global, piece: &[u8]) -> Result<(), ReadFault>
        requires counted { self.old.number + vec_len self.old.rest + length piece.now ≤ self.old.length }
        requires short { self.old.length ≤ MAX_INPUT }
        ensures length { self.new.length ≡ self.old.length }
        ensures fault { self.new.fault ≡ self.old.fault }
        ensures counted { OnOk result (self.new.number + vec_len self.new.rest ≤ self.old.number + vec_len self.old.rest + length piece.now) }
        ensures ok { (start : T) (text : List ℕ) → GoesOn T.took start self.old text →
            OnOk result (GoesOn T.took start self.new (text ++ piece.now)) }
        ensures err { (start : T) (text : List ℕ) → GoesOn T.took start self.old text →
            IfErr result (λ fault. fault ≢ no_memory → HasFault (text ++ piece.now) fault) }
    {
        let Some(end) = memrchr(b'\n', piece) else {
            self.keep(piece)?;
            return Ok(());
        };
        let number = self.read_behind(alloc, &piece[..end])?;
        self.number = number;
        self.keep(&piece[end + 1..])?;
        Ok(())
    }

    /// The same, in which only the first line that ends is read behind what was kept, and the others where they stand. Where all
    /// are copied, all commands execute 20 instructions more for each line.
    fn read_piece(&mut self, alloc: Global, piece: &[u8]) -> Result<(), ReadFault>
        requires counted { self.old.number + vec_len self.old.rest + length piece.now ≤ self.old.length }
        requires short { self.old.length ≤ MAX_INPUT }
        ensures length { self.new.length ≡ self.old.length }
        ensures fault { self.new.fault ≡ self.old.fault }
        ensures ok { (start : T) (text : List ℕ) → GoesOn T.took start self.old text →
            OnOk result (GoesOn T.took start self.new (text ++ piece.now)) }
        ensures err { (start : T) (text : List ℕ) → GoesOn T.took start self.old text →
            IfErr result (λ fault. fault ≢ no_memory → HasFault (text ++ piece.now) fault) }
    {
        let Some(first) = memchr(b'\n', piece) else {
            return self.read_ended(alloc, piece);
        };
        self.read_ended(alloc, &piece[..first + 1])?;
        self.read_ended(alloc, &piece[first + 1..])
    }

    /// Reads the next piece of the text. What is wrong with the text is reported at its end.
    pub fn read(&mut self, alloc: Global, piece: &[u8]) -> Result<(), NoMemory>
        ensures { (start : T) (text : List ℕ) → HasRead T.took start self.old text →
            OnOk result (HasRead T.took start self.new (text ++ piece.now)) }
    {
        self.length = self.length.saturating_add(piece.len());
        if self.length > MAX_INPUT || self.fault.is_some() {
            return Ok(());
        }
        let Err(fault) = self.read_piece(alloc, piece) else {
            return Ok(());
        };
        match fault {
            ReadFault::NoMemory => Err(NoMemory),
            _ => {
                self.fault = Some(fault);
                Ok(())
            }
        }
    }

    /// Ends the text, which came whole: answers the taker, to which exactly the blocks that it denotes were handed, or
    /// the refusal that it denotes, as `read_blocks` says.
    pub fn finish(mut self, alloc: Global) -> Result<T, ReadFault>
        ensures ok { (start : T) (text : List ℕ) → HasRead T.took start self text →
            IfOk result (λ taker. (blocks : List block_value) × Denotes text blocks × T.took start blocks taker) }
        ensures err { (start : T) (text : List ℕ) → HasRead T.took start self text →
            IfErr result (λ fault. fault ≢ no_memory → IsRefused text fault) }
    {
        if self.length > MAX_INPUT {
            return Err(ReadFault::InputTooLong);
        }
        if let Some(fault) = self.fault {
            return Err(fault);
        }
        self.read_kept(alloc)?;
        let TextReader {
            mut taker,
            open_block,
            ..
        } = self;
        open_block.hand_over(alloc, &mut taker)?;
        Ok(taker)
    }
}

impl TextReader<Copies> {
    ghost use Rattle.iloc_text.specs.Parts.{IsCounted, IsReadApart};
    ghost use Rattle.iloc_text.specs.Steps.Copied.{has_copied};
    ghost use Rattle.iloc_text.specs.Steps.TextReads.{CanTake, HasRead};

    /// Whether a part's blocks can be taken over: it begins where a line does, opens a block of its own, and keeps all
    /// within the limits.
    fn can_take(&self, text: &[u8], file: &IlocFile) -> bool
        ensures { IsTrue result → CanTake self.now text.now file.now.blocks }
    {
        let count = self.open_block.count();
        self.rest.is_empty()
            && self.fault.is_none()
            && self.length.saturating_add(text.len()) < MAX_INPUT
            && file.blocks.as_slice().len() <= MAX_BLOCKS - count
            && (count == 0 && self.number == 0 || begins_labelled(text))
    }

    /// Takes the blocks of a part over, as they were read.
    fn take_blocks(&mut self, alloc: Global, text: &[u8], part: Counted) -> Result<(), NoMemory>
        requires can_take { CanTake self.old text.now part.file.blocks }
        requires counted { IsCounted text.now part }
        ensures { (start : Copies) (before : List ℕ) → HasRead has_copied start self.old before →
            OnOk result (HasRead has_copied start self.new (before ++ text.now ++ 10 ∷ [])) }
    {
        self.open_block
            .hand_on(alloc, &mut self.taker, part.file.blocks)?;
        self.length += text.len() + 1;
        self.number += part.lines;
        Ok(())
    }

    /// Takes a part of the text that was read apart, and the line end behind it, and gives its buffer back. What can't
    /// be taken over as it was read, as where a line is refused, is read again.
    pub fn take_part(&mut self, alloc: Global, part: TextPart) -> Result<Vec<u8>, NoMemory>
        requires { IsReadApart part }
        ensures { (start : Copies) (before : List ℕ) → HasRead has_copied start self.old before →
            IfOk result (λ _. HasRead has_copied start self.new (before ++ part.text.items ++ 10 ∷ [])) }
    {
        let TextPart { text, found } = part;
        match found {
            Ok(counted) => {
                if self.can_take(&text, &counted.file) {
                    self.take_blocks(alloc, &text, counted)?;
                    return Ok(text);
                }
            }
            Err(ReadFault::NoMemory) => return Err(NoMemory),
            Err(_fault) => {}
        }
        self.read(alloc, &text)?;
        self.read(alloc, b"\n")?;
        Ok(text)
    }
}

impl<T: TakeBlocks + Drop> TakePieces for TextReader<T> {
    ghost use Rattle.std.specs.Prelude.{[]};
    ghost use Rattle.iloc_text.specs.Steps.TextReads.{HasRead};

    ghost took = { λ start text now.
        (taker : T) → HasRead T.took taker start [] → HasRead T.took taker now text };

    fn take(&mut self, alloc: Global, piece: &[u8]) -> Result<(), NoMemory> {
        self.read(alloc, piece)?;
        Ok(())
    }

    ghost took_none = { λ _ _ read. read };
}

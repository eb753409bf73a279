//! A taker that writes down what it is handed.
use iloc_ops::{Block, NoMemory, push_number, push_op};
use iloc_text::TakeBlocks;
use std::alloc::Global;

/// Writes down what it is handed, a line for each block: its number, its name and its operations.
#[derive(Drop)]
pub(crate) struct Diary {
    /// For so many blocks it has room.
    room: usize,
    /// The number of the last block, taken or refused.
    pub(crate) asked: usize,
    pub(crate) lines: Vec<u8>,
}

impl Diary {
    /// Has room for `room` blocks.
    pub(crate) fn new(alloc: Global, room: usize) -> Diary {
        Diary {
            room,
            asked: 0,
            lines: Vec::new(alloc),
        }
    }

    /// Writes a block down.
    fn write(&mut self, block: &Block) -> Result<(), NoMemory> {
        let name = block.name.as_ref().map_or("-", |name| name.as_str());
        self.lines.extend_from_slice(name.as_bytes())?;
        for op in block.ops.as_slice() {
            self.lines.extend_from_slice(b"; ")?;
            push_op(&mut self.lines, op)?;
        }
        self.lines.push(b'\n')?;
        Ok(())
    }

    /// Writes `blocks` down.
    pub(crate) fn write_all(&mut self, blocks: &[Block]) -> Result<(), NoMemory> {
        for block in blocks {
            self.write(block)?;
        }
        Ok(())
    }
}

impl TakeBlocks for Diary {
    ghost took = { λ _ _ _. Unit {0} };

    fn take(&mut self, _alloc: Global, number: usize, block: &Block) -> Result<(), NoMemory> {
        self.asked = number;
        if number > self.room {
            return Err(NoMemory);
        }
        push_number(&mut self.lines, number as i64)?;
        self.lines.push(b' ')?;
        self.write(block)
    }

    ghost took_none = { λ _. tt };
}

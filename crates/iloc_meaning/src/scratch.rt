//! A memory whose writes can be undone.
ghost use Rattle.std.specs.Prelude.{◌≡◌, ◌/◌, pos, length, slice_set, OnOk, OnErr, IsTrue};
ghost use Rattle.iloc_meaning.specs.Address.{is_good};

use crate::memory::{Memory, WORDS};
use iloc_ops::NoMemory;
use std::alloc::Global;
use std::marker::Model;

/// A word that was written over.
#[derive(Clone, Copy, Debug)]
struct Replaced {
    address: u32,
    word: i32,
}

/// A memory that can be restored to the words that were first passed in. It keeps what each write replaced, and no
/// second memory.
#[derive(Debug, Drop)]
pub struct Scratch {
    memory: Memory,
    // What each write since the last restoring replaced, in order.
    replaced: Vec<Replaced>,
}

impl Model for Scratch {
    ghost use Rattle.iloc_meaning.specs.Memory.{ScratchView};
    ghost use Rattle.iloc_meaning.specs.Steps.Scratch.{put_back, AreReplaced};

    ghost Value = { ScratchView };

    ghost view = { λ s. record { first = put_back s.replaced.items s.memory; words = s.memory } };

    ghost invariant = { λ s. AreReplaced s.replaced.items };
}

impl Scratch {
    /// Promise: this memory, with nothing written yet.
    pub fn new(alloc: Global, memory: Memory) -> Scratch
        ensures { result ≡ record { first = memory; words = memory } }
    {
        Scratch {
            memory,
            replaced: Vec::new(alloc),
        }
    }

    /// Promise: lends the memory with all that was written.
    pub fn memory(&self) -> &Memory
        ensures { result.now ≡ self.now.words }
    {
        &self.memory
    }

    /// Promise: writes the word at a good address and changes no other; after a refusal of memory nothing is written.
    pub fn set(&mut self, address: u32, word: i32) -> Result<(), NoMemory>
        requires { IsTrue (is_good (pos address)) }
        ensures first { self.new.first ≡ self.old.first }
        ensures ok { OnOk result (self.new.words ≡ slice_set self.old.words (address / 4) word) }
        ensures err { OnErr result (self.new.words ≡ self.old.words) }
        ensures size { length self.old.words ≡ WORDS }
    {
        let replaced = self.memory.get(address);
        self.replaced.push(Replaced {
            address,
            word: replaced,
        })?;
        self.memory.set(address, word);
        Ok(())
    }

    /// Promise: restores all words to the ones that were first passed in.
    ///
    /// It costs a step for each write.
    pub fn put_back(&mut self)
        ensures { self.new ≡ record { first = self.old.first; words = self.old.first } }
    {
        while let Some(replaced) = self.replaced.pop() {
            self.memory.set(replaced.address, replaced.word);
        }
    }

    /// Promise: the memory with all that was written.
    pub fn into_memory(self) -> Memory
        ensures { result ≡ self.words }
    {
        self.memory
    }
}

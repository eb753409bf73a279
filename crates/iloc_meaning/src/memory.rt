//! The memory of a block: 16,384 words at the addresses 0, 4, .., 65,532.
ghost use Rattle.std.specs.Prelude.{◌≡◌, ◌≤◌, ◌+◌, ◌*◌, ◌/◌, ◌%◌, pos, length, slice_set, IfOk, IsTrue};
ghost use Rattle.iloc_meaning.specs.Address.{is_good};
ghost use Rattle.iloc_meaning.specs.Memory.{words_from, zeros, word_at};

use iloc_ops::NoMemory;
use std::alloc::Global;
use std::marker::Model;

/// How many words a memory has.
pub const WORDS: usize = 16_384;

/// The address of the last word.
pub const LAST_ADDRESS: u32 = 65_532;

/// A memory of 16,384 words.
#[derive(Debug, Drop)]
pub struct Memory {
    words: Vec<i32>,
}

impl Model for Memory {
    ghost use Rattle.std.specs.Prelude.{◌≡◌, List, ℤ, vec_len};
    ghost use Rattle.iloc_meaning.specs.Memory.{WORDS};

    ghost Value = { List ℤ };

    ghost view = { λ memory. memory.words.items };

    ghost invariant = { λ memory. vec_len memory.words ≡ WORDS };
}

impl Memory {
    /// Promise: a memory of 16,384 zeros.
    pub fn zero(alloc: Global) -> Result<Memory, NoMemory>
        ensures zeros { IfOk result (λ memory. memory ≡ zeros) }
        ensures size { IfOk result (λ memory. length memory ≡ WORDS) }
    {
        Ok(Memory {
            words: vec![in alloc; 0; WORDS]?,
        })
    }

    /// Promise: the memory with these words, as patterns of 32 bits, from the address `at` on, and zeros elsewhere.
    pub fn with_words(alloc: Global, at: u32, words: &[u32]) -> Result<Memory, NoMemory>
        requires aligned { at % 4 ≡ 0 }
        requires start { at ≤ LAST_ADDRESS }
        requires fits { at + 4 * length words.now ≤ 4 * WORDS }
        ensures { IfOk result (λ memory. memory ≡ words_from at words.now) }
    {
        let mut memory = Memory::zero(alloc)?;
        for (index, word) in words.iter().enumerate() {
            memory.set(at + 4 * index as u32, word.cast_signed());
        }
        Ok(memory)
    }

    /// Promise: a second memory with the same words.
    pub fn copy(&self) -> Result<Memory, NoMemory>
        ensures equal { IfOk result (λ memory. memory ≡ self.now) }
        ensures size { length self.now ≡ WORDS }
    {
        Ok(Memory {
            words: self.words.clone()?,
        })
    }

    /// Promise: how many words a memory has: 16,384, whichever memory it is.
    pub fn word_count(&self) -> usize
        ensures count { result ≡ length self.now }
        ensures size { result ≡ WORDS }
    {
        self.words.len()
    }

    /// Promise: whether an address has a word: a multiple of 4 from 0 to 65,532.
    pub fn is_good(address: i32) -> bool
        ensures { result ≡ is_good address }
    {
        (0..=LAST_ADDRESS as i32).contains(&address) && address % 4 == 0
    }

    /// Promise: the word at a good address.
    pub fn get(&self, address: u32) -> i32
        requires { IsTrue (is_good (pos address)) }
        ensures word { result ≡ word_at self.now address }
        ensures size { length self.now ≡ WORDS }
    {
        self.words[address as usize / 4]
    }

    /// Promise: writes the word at a good address, and changes no other word.
    pub fn set(&mut self, address: u32, word: i32)
        requires { IsTrue (is_good (pos address)) }
        ensures written { self.new ≡ slice_set self.old (address / 4) word }
        ensures size { length self.old ≡ WORDS }
    {
        self.words[address as usize / 4] = word;
    }
}

impl PartialEq for Memory {
    ghost use Rattle.std.proofs.Common.{rules};
    ghost use Rattle.std.specs.Ordering.{int_eq};
    ghost use Rattle.std.specs.Cmp.Lexicographic.{pointwise};
    ghost use Rattle.std.specs.Cmp.Rules.{comparing};

    ghost eq = { pointwise int_eq };

    ghost laws = { Prim.search (comparing, rules) };

    fn eq(&self, other: &Memory) -> bool {
        self.words == other.words
    }
}

impl Eq for Memory {
    ghost use Rattle.std.proofs.Common.{rules};
    ghost use Rattle.std.specs.Cmp.Rules.{comparing};

    ghost laws = { Prim.search (comparing, rules) };
}

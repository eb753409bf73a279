//! Memories that the judge makes up.
ghost use Rattle.std.specs.Prelude.{◌≡◌, ◌+◌, ◌*◌, ◌%◌, ◌≤◌, ◌<◌, length};
ghost use Rattle.iloc_meaning.specs.Address.{LAST_ADDRESS};

use iloc_meaning::WORDS;
use iloc_ops::NoMemory;
use std::alloc::Global;

/// A word of a memory, by its number.
#[derive(Clone, Copy)]
pub(crate) struct Cell {
    pub(crate) place: u32,
    pub(crate) word: u32,
}

/// A memory that the judge makes up: these words from the address `at` on, and all else 0.
#[derive(Debug, Drop, PartialEq, Eq)]
pub struct Probe {
    /// The address of the first word, a multiple of 4.
    pub at: u32,
    /// The words from there on, as 32-bit patterns.
    pub words: Vec<u32>,
    ghost aligned: { at % 4 ≡ 0 },
    ghost in_memory: { at ≤ LAST_ADDRESS },
    ghost fits: { at + 4 * length words.items ≤ LAST_ADDRESS + 4 },
}

impl Probe {
    /// The memory with the words of `cells`, and 0 elsewhere.
    pub(crate) fn of(alloc: Global, cells: &[Cell]) -> Result<Probe, NoMemory> {
        let first = cells.iter().map(|cell| cell.place).min().unwrap_or(0) % WORDS as u32;
        let last = cells.iter().map(|cell| cell.place).max().unwrap_or(0);
        let count = last.saturating_sub(first).min(WORDS as u32 - 1 - first) + 1;
        let mut words = vec![in alloc; 0; count as usize]?;
        for cell in cells {
            if let Some(word) = words.get_mut(cell.place.wrapping_sub(first) as usize) {
                *word = cell.word;
            }
        }
        Ok(Probe {
            at: 4 * first,
            words,
        })
    }

    /// Which of its words aren't 0.
    pub(crate) fn used(&self, alloc: Global) -> Result<Vec<usize>, NoMemory> {
        let mut used = Vec::new(alloc);
        for (index, word) in self.words.iter().enumerate() {
            if *word != 0 {
                used.push(index)?;
            }
        }
        Ok(used)
    }

    /// The same memory, but those of its words with `indices` that are above `most` are `most`, as patterns of 32 bits.
    pub(crate) fn lowered(
        &self,
        alloc: Global,
        indices: &[usize],
        most: u32,
    ) -> Result<Probe, NoMemory> {
        let mut words = Vec::from_slice(alloc, &self.words)?;
        for index in indices {
            if let Some(word) = words.get_mut(*index) {
                *word = (*word).min(most);
            }
        }
        Ok(Probe { at: self.at, words })
    }

    /// The same memory, from its first word that isn't 0 to its last.
    pub(crate) fn trimmed(&self, alloc: Global) -> Result<Probe, NoMemory> {
        let mut first = 0;
        let mut end = 0;
        for place in 0..self.words.len() {
            if self.words[place] != 0 {
                first = if end == 0 { place } else { first };
                end = place + 1;
            }
        }
        let words = Vec::from_slice(alloc, &self.words[first..end])?;
        Ok(Probe {
            at: self.at + 4 * first as u32,
            words,
        })
    }
}

//! Patterns of made-up memories.

use crate::refutation::clues::Clues;
use crate::refutation::probe::Cell;
use iloc_ops::NoMemory;
use std::alloc::Global;

/// How the words of a made-up memory follow one another.
#[derive(Clone, Copy, PartialEq, Eq)]
pub(crate) enum Pattern {
    /// 1, 2, 3 and so on.
    Small,
    /// Distinct words all over the 32 bits.
    Large,
    /// Each word is its own address.
    OwnAddresses,
    /// The known addresses in turn.
    Addresses,
    /// The known constants in turn.
    Constants,
    /// One known address.
    OneAddress,
    /// A known address and a known constant in turn.
    AddressesAndConstants,
    /// A known constant and a known address in turn.
    ConstantsAndAddresses,
    /// The bases in turn, from the second on.
    Bases,
    /// The bases in turn, from the third on.
    LaterBases,
    /// The known addresses in turn, from the fourth on.
    LaterAddresses,
    /// As far below one known address as the second offset says.
    OneBase,
}

/// An odd number, so that its multiples modulo 2^32 are distinct.
pub(crate) const STRIDE: u32 = 0x9E37_79B9;

/// The word with this number in a list that is repeated without end; of an empty one 0.
fn in_turn(words: &[u32], number: u32) -> u32 {
    let index = number as usize % words.len().max(1);
    words.get(index).copied().unwrap_or(0)
}

impl Pattern {
    pub(crate) const ALL: [Pattern; 12] = [
        Pattern::Small,
        Pattern::Large,
        Pattern::OwnAddresses,
        Pattern::Addresses,
        Pattern::Constants,
        Pattern::OneAddress,
        Pattern::AddressesAndConstants,
        Pattern::ConstantsAndAddresses,
        Pattern::Bases,
        Pattern::LaterBases,
        Pattern::LaterAddresses,
        Pattern::OneBase,
    ];

    /// The words of the memory.
    pub(crate) fn cells(self, alloc: Global, clues: &Clues) -> Result<Vec<Cell>, NoMemory> {
        let mut cells = Vec::with_capacity(alloc, clues.places.len())?;
        for (number, place) in (0..u32::MAX).zip(&clues.places) {
            let word = self.word(clues, *place, number);
            cells.push(Cell {
                place: *place,
                word,
            })?;
        }
        Ok(cells)
    }

    /// The word at `place` of a made-up memory; it is number `number` of the memory's places, counted from 0.
    fn word(self, clues: &Clues, place: u32, number: u32) -> u32 {
        let address = |number: u32| in_turn(&clues.mentions.addresses, number);
        let constant = |number: u32| in_turn(&clues.mentions.constants, number);
        let base = |number: u32| in_turn(&clues.bases, number);
        let is_even = number % 2 == 0;
        match self {
            Pattern::Small => number.wrapping_add(1),
            Pattern::Large => number.wrapping_add(1).wrapping_mul(STRIDE),
            Pattern::OwnAddresses => place.wrapping_mul(4),
            Pattern::Addresses => address(number),
            Pattern::OneAddress => address(0),
            Pattern::Constants => constant(number),
            Pattern::Bases => base(number.wrapping_add(1)),
            Pattern::LaterBases => base(number.wrapping_add(2)),
            Pattern::LaterAddresses => address(number.wrapping_add(3)),
            Pattern::OneBase => address(0).wrapping_sub(in_turn(&clues.mentions.offsets, 1)),
            Pattern::AddressesAndConstants if is_even => address(number / 2),
            Pattern::ConstantsAndAddresses if !is_even => address(number / 2),
            Pattern::AddressesAndConstants | Pattern::ConstantsAndAddresses => constant(number / 2),
        }
    }
}

//! Memories whose words lead to chosen addresses.

use crate::refutation::clues::Clues;
use crate::refutation::pattern::STRIDE;
use crate::refutation::probe::Cell;
use iloc_meaning::WORDS;
use iloc_ops::NoMemory;
use iloc_terms::{MentionedAddress, Mentions};
use std::alloc::Global;

/// How many memories are aimed, at most.
pub(crate) const MOST_AIMS: usize = MOST_MEETINGS + 2 * MOST_EDGES + MOST_STARTS;

/// How many memories are aimed at no good address, or at a known or another unknown one, at most.
const MOST_MEETINGS: usize = 20;

/// How many of `MOST_MEETINGS` aren't aimed at known addresses, at most.
const MOST_UNKNOWN: usize = 12;

/// How many places are put at either edge of memory, at most.
const MOST_EDGES: usize = 4;

/// The addresses just off either edge of memory.
const EDGES: [u32; 2] = [0_u32.wrapping_sub(4), 4 * WORDS as u32];

/// Words at which shifts, sums and products of others differ, in which no address is: all bits, the highest amount of a
/// shift, the highest number and the lowest, and 1.
const EXTREMES: [u32; 5] = [u32::MAX, 31, u32::MAX >> 1, 1 << 31, 1];

/// How many memories have such words: one from each of them on, and the others none but distinct ones.
const MOST_STARTS: usize = EXTREMES.len() + 4;

/// How many places at which something is done aims are made of, at most.
const MOST_REACHED: usize = 8;

/// How many words such a memory has, at most.
pub(crate) const MOST_CELLS: usize = 64;

/// What some word that is loaded leads to. All others are good addresses, apart from one another.
#[derive(Clone, Copy)]
pub(crate) enum Aim {
    /// The word with this number, to no good address.
    Bad(Option<usize>),
    /// The word below `moved`, there where `still` is.
    Meeting {
        moved: MentionedAddress,
        still: MentionedAddress,
    },
    /// The words that no address is above, to no address: they are `EXTREMES` in turn, from the one with this number on, or
    /// distinct ones, others for each number.
    Extremes(usize),
}

/// How many words lie between good addresses, at least.
const APART: usize = 8;

/// The number of the first word after the known addresses.
fn first_after(addresses: &[u32]) -> usize {
    let highest = addresses.iter().copied().max().unwrap_or(0) / 4;
    highest as usize + 1
}

/// The address of `place`, where the loaded words are `words`.
fn address(words: &[u32], place: MentionedAddress) -> u32 {
    let base = match place.base {
        Some(number) => words.get(number).copied().unwrap_or(0),
        None => 0,
    };
    base.wrapping_add(place.offset)
}

/// Adds, for each of the first `count` places of `reached`, that it and `place` are one address, if they can be: the
/// later word is moved.
fn add_meetings(
    aims: &mut Vec<Aim>,
    place: MentionedAddress,
    reached: &[MentionedAddress],
    count: usize,
) -> Result<(), NoMemory> {
    for other in reached.iter().take(count) {
        let (moved, still) = if other.base < place.base {
            (place, *other)
        } else {
            (*other, place)
        };
        if moved.base != still.base {
            aims.push(Aim::Meeting { moved, still })?;
        }
    }
    Ok(())
}

/// Adds that places are known addresses, each another one in turn, while there is room.
fn add_known(aims: &mut Vec<Aim>, mentions: &Mentions) -> Result<(), NoMemory> {
    let places = mentions.reached.len().min(MOST_REACHED).max(1);
    let addresses = mentions.addresses.len().max(1);
    let room = MOST_MEETINGS.saturating_sub(aims.len());
    for number in 0..room.min(places.saturating_mul(addresses)) {
        let address = (number % places).wrapping_add(number / places);
        let place = mentions.reached.get(number % places);
        let address = mentions.addresses.get(address % addresses);
        if let (Some(place), Some(address)) = (place, address) {
            let (moved, offset) = (*place, *address);
            let still = MentionedAddress { base: None, offset };
            aims.push(Aim::Meeting { moved, still })?;
        }
    }
    Ok(())
}

/// Adds that the first places of `reached` are just off either edge of memory, while what is above or below them may be
/// in it.
fn add_edges(aims: &mut Vec<Aim>, reached: &[MentionedAddress]) -> Result<(), NoMemory> {
    for place in reached.iter().take(MOST_EDGES) {
        for offset in EDGES {
            let still = MentionedAddress { base: None, offset };
            aims.push(Aim::Meeting {
                moved: *place,
                still,
            })?;
        }
    }
    Ok(())
}

/// The word with this number where `Aim::Extremes(start)` has one.
fn extreme(start: usize, number: usize) -> u32 {
    let turn = start.wrapping_add(number) % EXTREMES.len();
    match start.checked_sub(EXTREMES.len()) {
        None => EXTREMES[turn],
        Some(more) => {
            let factor = (2 * (more % MOST_STARTS) as u32 + 1).wrapping_mul(STRIDE);
            ((number % MOST_CELLS) as u32 + 1).wrapping_mul(factor)
        }
    }
}

impl Aim {
    /// The memories that are made for what two runs mention.
    pub(crate) fn all(alloc: Global, mentions: &Mentions) -> Result<Vec<Aim>, NoMemory> {
        let mut aims = Vec::new(alloc);
        for (count, place) in mentions.reached.iter().take(MOST_REACHED).enumerate() {
            let mut before = mentions.reached.iter().take(count);
            if !before.any(|other| other.base == place.base) {
                aims.push(Aim::Bad(place.base))?;
            }
            add_meetings(&mut aims, *place, &mentions.reached, count)?;
        }
        aims.truncate(MOST_UNKNOWN);
        add_known(&mut aims, mentions)?;
        add_edges(&mut aims, &mentions.reached)?;
        for start in 0..MOST_STARTS {
            aims.push(Aim::Extremes(start))?;
        }
        Ok(aims)
    }

    /// The word that is loaded with this number, after `words`, where `free` is a word after the known addresses.
    fn word(self, free: usize, clues: &Clues, words: &[u32], number: usize) -> u32 {
        match self {
            Aim::Bad(base) if base == Some(number) => 1,
            Aim::Meeting { moved, still } if moved.base == Some(number) => {
                address(words, still).wrapping_sub(moved.offset)
            }
            Aim::Extremes(start) if !clues.is_base(number) => extreme(start, number),
            _ => {
                let place = free.wrapping_add(number.wrapping_mul(APART)) % WORDS;
                4 * place as u32
            }
        }
    }

    /// The words of the memory, as far as it may span them.
    pub(crate) fn cells(self, alloc: Global, clues: &Clues) -> Result<Vec<Cell>, NoMemory> {
        let free = first_after(&clues.mentions.addresses);
        let mut words = Vec::with_capacity(alloc, MOST_CELLS)?;
        let mut cells = Vec::with_capacity(alloc, MOST_CELLS)?;
        let loaded = clues.mentions.loaded.iter().take(MOST_CELLS);
        for (number, place) in loaded.enumerate() {
            let word = self.word(free, clues, &words, number);
            if let Some(place) = clues.place(address(&words, *place)) {
                cells.push(Cell { place, word })?;
            }
            words.push(word)?;
        }
        Ok(cells)
    }
}

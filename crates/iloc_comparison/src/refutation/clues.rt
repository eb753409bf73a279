//! What memories are made up of.

use crate::refutation::aim::{Aim, MOST_CELLS};
use crate::refutation::pattern::Pattern;
use crate::refutation::probe::Cell;
use iloc_meaning::WORDS;
use iloc_ops::NoMemory;
use iloc_terms::Mentions;
use std::alloc::Global;

/// What two runs mention, and what follows from it.
#[derive(Drop)]
pub(crate) struct Clues {
    pub(crate) mentions: Mentions,
    /// The addresses that are mentioned, and as far below each as an offset says, rising: what an unknown word would be to
    /// meet one.
    pub(crate) bases: Vec<u32>,
    /// The numbers of the words that memories are made up of: round those addresses and those bases, rising.
    pub(crate) places: Vec<u32>,
    // The first and the last word, plus 1, that may be made up.
    bounds: (u32, u32),
    // Of the first words that are loaded, whether addresses are above them.
    are_bases: Vec<bool>,
    aims: Vec<Aim>,
}

/// How many addresses and how many offsets make bases, at most.
const MOST_ADDRESSES: usize = 64;

const MOST_OFFSETS: usize = 8;

/// What an unknown word would be so that one of `offsets` from it is one of `addresses`; and `addresses` themselves.
/// Rising.
fn bases(alloc: Global, addresses: &[u32], offsets: &[u32]) -> Result<Vec<u32>, NoMemory> {
    let mut bases = Vec::new(alloc);
    for address in addresses.iter().take(MOST_ADDRESSES) {
        bases.push(*address)?;
        for offset in offsets.iter().take(MOST_OFFSETS) {
            bases.push(address.wrapping_sub(*offset))?;
        }
    }
    bases.sort_unstable();
    Ok(bases)
}

/// How many words of a memory are made up at most.
pub(crate) const MOST_PLACES: usize = 64;

/// The number of the word at an address, if there is one within bounds.
fn place_within(bounds: (u32, u32), address: u32) -> Option<u32> {
    let place = address / 4;
    if bounds.0 <= place && place < bounds.1 && address % 4 == 0 {
        Some(place)
    } else {
        None
    }
}

/// Adds to `places`, while there is room, the words within `bounds` that are `behind` bytes after each of `addresses`.
fn add_places(
    places: &mut Vec<u32>,
    bounds: (u32, u32),
    addresses: &[u32],
    behind: u32,
) -> Result<(), NoMemory> {
    for address in addresses {
        if places.len() == MOST_PLACES {
            break;
        }
        match place_within(bounds, address.wrapping_add(behind)) {
            Some(place) if !places.contains(&place) => places.push(place)?,
            _ => {}
        }
    }
    Ok(())
}

/// The first and the last word, plus 1, that may be made up: all, or as many as a memory may span from the lowest address on.
fn bounds(addresses: &[u32], span: usize) -> (u32, u32) {
    let lowest = addresses.iter().copied().min().unwrap_or(0) / 4;
    let end = (lowest as usize).saturating_add(span);
    if span < WORDS {
        (lowest, end.min(WORDS) as u32)
    } else {
        (0, WORDS as u32)
    }
}

/// The words at `addresses` and `bases`, then the words after them, and so on, within `bounds`. Rising.
fn places(
    alloc: Global,
    addresses: &[u32],
    bases: &[u32],
    bounds: (u32, u32),
) -> Result<Vec<u32>, NoMemory> {
    let mut places = Vec::with_capacity(alloc, MOST_PLACES)?;
    for words in 0..MOST_PLACES as u32 {
        add_places(&mut places, bounds, addresses, 4 * words)?;
        add_places(&mut places, bounds, bases, 4 * words)?;
    }
    places.sort_unstable();
    Ok(places)
}

/// Of the first words that `mentions` says are loaded, whether addresses are above them.
fn are_bases(alloc: Global, mentions: &Mentions) -> Result<Vec<bool>, NoMemory> {
    let mut are_bases = vec![in alloc; false; MOST_CELLS]?;
    for place in mentions.reached.iter().chain(&mentions.loaded) {
        let number = place.base.unwrap_or(MOST_CELLS);
        if let Some(is_base) = are_bases.get_mut(number) {
            *is_base = true;
        }
    }
    Ok(are_bases)
}

impl Clues {
    /// What follows from `mentions`, what two runs mention, for memories that span `span` words.
    pub(crate) fn of(alloc: Global, mentions: Mentions, span: usize) -> Result<Clues, NoMemory> {
        let bounds = bounds(&mentions.addresses, span);
        let bases = bases(alloc, &mentions.addresses, &mentions.offsets)?;
        let places = places(alloc, &mentions.addresses, &bases, bounds)?;
        let are_bases = are_bases(alloc, &mentions)?;
        let aims = Aim::all(alloc, &mentions)?;
        Ok(Clues {
            mentions,
            bases,
            places,
            bounds,
            are_bases,
            aims,
        })
    }

    /// The number of the word at an address, if it may be made up.
    pub(crate) fn place(&self, address: u32) -> Option<u32> {
        place_within(self.bounds, address)
    }

    /// Whether addresses are above the word that is loaded with this number.
    pub(crate) fn is_base(&self, number: usize) -> bool {
        self.are_bases.get(number).copied().unwrap_or(true)
    }

    /// The words of made-up memory `number`, if there is one: first the aimed ones, then the patterns.
    pub(crate) fn cells(
        &self,
        alloc: Global,
        number: usize,
    ) -> Result<Option<Vec<Cell>>, NoMemory> {
        if let Some(aim) = self.aims.get(number) {
            return Ok(Some(aim.cells(alloc, self)?));
        }
        match Pattern::ALL.get(number.saturating_sub(self.aims.len())) {
            Some(pattern) => Ok(Some(pattern.cells(alloc, self)?)),
            None => Ok(None),
        }
    }
}

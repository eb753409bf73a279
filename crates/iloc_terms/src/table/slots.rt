//! Where the terms of a table are, by a hash of their keys.

use crate::table::node::Node;
use iloc_ops::NoMemory;
use std::alloc::Global;
use std::collections::BTreeMap;

/// In how many slots a term may be. A term that finds others in all of them is in a sorted map; by chance fewer than one
/// in a thousand does. Whoever knows the hash can choose terms that share their slots, but no look-up takes longer than
/// `PROBES` slots and a search of the map.
const PROBES: usize = 16;

/// How many slots there are at first.
const FIRST_SLOTS: usize = 64;

/// How many slots there are for each term, at least.
const SLOTS_PER_TERM: usize = 2;

/// In a slot without a term.
const FREE: u32 = u32::MAX;

/// Odd numbers, whose bits look drawn.
const ONE_FACTOR: u64 = 0x9E37_79B9_7F4A_7C15;

const OTHER_FACTOR: u64 = 0xD6E8_FEB8_6659_FD93;

/// The numbers of terms, by their hashes or else by their keys. They are hints.
#[derive(Drop)]
pub(super) struct Slots {
    // As many as a power of two, or none.
    numbers: Vec<u32>,
    others: BTreeMap<u128, u32>,
}

/// A number whose lowest bits depend on all bits of `key`.
fn hash(key: u128) -> u64 {
    let high = (key >> 64) as u64;
    let low = (key & u128::from(u64::MAX)) as u64;
    let sum = high.wrapping_mul(ONE_FACTOR).wrapping_add(low);
    let mixed = (sum ^ sum >> 32).wrapping_mul(OTHER_FACTOR);
    mixed ^ mixed >> 32
}

impl Slots {
    /// No terms.
    pub(super) fn new(alloc: Global) -> Slots {
        Slots {
            numbers: Vec::new(alloc),
            others: BTreeMap::new(alloc),
        }
    }

    /// The first slot of a term that has its number or is free, and what it has; `None` where others have them all.
    fn slot(&self, nodes: &[Node], node: Node) -> Option<(usize, u32)> {
        let mask = self.numbers.len().wrapping_sub(1);
        let first = hash(node.key()) as usize;
        for probe in 0..PROBES {
            let slot = first.wrapping_add(probe) & mask;
            let number = self.numbers.get(slot).copied()?;
            if number == FREE || nodes.get(number as usize) == Some(&node) {
                return Some((slot, number));
            }
        }
        None
    }

    /// Notes that a term is at `here` unless it is noted elsewhere. Answers where.
    fn note(&mut self, nodes: &[Node], node: Node, here: u32) -> Result<u32, NoMemory> {
        let Some((slot, number)) = self.slot(nodes, node) else {
            return Ok(*self.others.entry(node.key())?.or_insert(here));
        };
        if number != FREE {
            return Ok(number);
        }
        if let Some(free) = self.numbers.get_mut(slot) {
            *free = here;
        }
        Ok(here)
    }

    /// Makes more slots, and notes `nodes` in them.
    fn widen(&mut self, nodes: &[Node]) -> Result<(), NoMemory> {
        let count = self.numbers.len().saturating_mul(4).max(FIRST_SLOTS);
        self.numbers.clear();
        self.numbers.resize(count, FREE)?;
        for (number, node) in (0..FREE).zip(nodes) {
            self.note(nodes, *node, number)?;
        }
        Ok(())
    }

    /// Where a term is noted to be in a table of `nodes`; where it isn't noted, it is noted at `here`.
    pub(super) fn noted(&mut self, nodes: &[Node], node: Node, here: u32) -> Result<u32, NoMemory> {
        if self.numbers.len() / SLOTS_PER_TERM <= nodes.len() {
            self.widen(nodes)?;
        }
        self.note(nodes, node, here)
    }
}

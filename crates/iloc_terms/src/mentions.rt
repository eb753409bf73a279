//! What the runs of two schedules mention.

use crate::agreement::{is_marked, marks};
use crate::table::Table;
use crate::table::node::Node;
use iloc_meaning::Memory;
use iloc_ops::NoMemory;
use std::alloc::Global;

/// An address: `offset` bytes above a loaded word, or above 0.
#[derive(Clone, Copy, Debug, PartialEq, Eq)]
pub struct MentionedAddress {
    /// The number of the word among the loaded words; `None` above 0.
    pub base: Option<usize>,
    /// In bytes, modulo 2^32.
    pub offset: u32,
}

/// The known words of two runs, as patterns of 32 bits, and how they get to unknown addresses.
#[derive(Debug, Drop)]
pub struct Mentions {
    /// The good addresses at which something is done.
    pub addresses: Vec<u32>,
    /// The other words.
    pub constants: Vec<u32>,
    /// The offsets from unknown words at which something is done.
    pub offsets: Vec<u32>,
    /// Where words are loaded from, each above one before it or above 0.
    pub loaded: Vec<MentionedAddress>,
    /// The places above such words at which something is done, first those of one run alone.
    pub reached: Vec<MentionedAddress>,
}

/// The number of a word that isn't loaded.
const NONE: usize = usize::MAX;

/// Where `address` is, if it is known, or is above a loaded word; `loads` has the terms of the loaded words.
fn place_of(table: &Table, loads: &[usize], address: u32) -> Option<MentionedAddress> {
    let (base, offset) = match table.node(address)? {
        Node::Known(word) => {
            return Some(MentionedAddress {
                base: None,
                offset: word.cast_unsigned(),
            });
        }
        Node::Offset { base, constant } => (base, constant.cast_unsigned()),
        _ => (address, 0),
    };
    let base = *loads.get(base as usize)?;
    if base == NONE {
        return None;
    }
    Some(MentionedAddress {
        base: Some(base),
        offset,
    })
}

impl Mentions {
    /// The known words of `table`, whose `addresses` and `other_addresses` are used.
    pub(crate) fn of(
        alloc: Global,
        table: &Table,
        addresses: &[u32],
        other_addresses: &[u32],
    ) -> Result<Mentions, NoMemory> {
        let one = marks(alloc, addresses, table.len())?;
        let other = marks(alloc, other_addresses, table.len())?;
        let mut mentions = Mentions {
            addresses: Vec::new(alloc),
            constants: Vec::new(alloc),
            offsets: Vec::new(alloc),
            loaded: Vec::new(alloc),
            reached: Vec::new(alloc),
        };
        let mut loads = vec![in alloc; NONE; table.len()]?;
        let mut reached_by_both = Vec::new(alloc);
        for (number, node) in (0..u32::MAX).zip(table.nodes()) {
            let (is_in_one, is_in_other) = (is_marked(&one, number), is_marked(&other, number));
            mentions.add(node, is_in_one || is_in_other)?;
            mentions.add_loaded(table, &mut loads, number, node)?;
            match place_of(table, &loads, number) {
                Some(place) if place.base.is_some() && is_in_one && is_in_other => {
                    reached_by_both.push(place)?;
                }
                Some(place) if place.base.is_some() && (is_in_one || is_in_other) => {
                    mentions.reached.push(place)?;
                }
                _ => {}
            }
        }
        mentions.reached.extend_from_slice(&reached_by_both)?;
        Ok(mentions)
    }

    /// Adds from where the word `number`, whose node is `node`, is loaded, and adds it to `loads`.
    fn add_loaded(
        &mut self,
        table: &Table,
        loads: &mut Vec<usize>,
        number: u32,
        node: &Node,
    ) -> Result<(), NoMemory> {
        if let Node::Word { address, .. } = *node {
            if let (Some(place), Some(load)) = (
                place_of(table, loads, address),
                loads.get_mut(number as usize),
            ) {
                *load = self.loaded.len();
                self.loaded.push(place)?;
            }
        }
        Ok(())
    }

    /// Adds what a node says.
    fn add(&mut self, node: &Node, is_address: bool) -> Result<(), NoMemory> {
        match *node {
            Node::Known(word) if is_address && Memory::is_good(word) => {
                self.addresses.push(word.cast_unsigned())?;
            }
            Node::Known(word) => self.constants.push(word.cast_unsigned())?,
            Node::Offset { constant, .. } if is_address => {
                self.offsets.push(constant.cast_unsigned())?;
            }
            _ => {}
        }
        Ok(())
    }
}

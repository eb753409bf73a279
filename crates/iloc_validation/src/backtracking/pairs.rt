//! Pairs of operations, as far as they are found.

use crate::numbers::{NONE, at, put};
use crate::pairing::Pairing;
use iloc_ops::NoMemory;
use std::alloc::Global;

/// Pairs of operations, as far as they are found.
#[derive(Drop)]
pub(crate) struct Pairs {
    pairing: Pairing,
    // The operations of the block that are paired, in the order in which they were.
    paired: Vec<usize>,
}

impl Pairs {
    /// No pair, of `block` operations of a block and `rows` operations of rows.
    pub(crate) fn none(alloc: Global, block: usize, rows: usize) -> Result<Pairs, NoMemory> {
        Ok(Pairs {
            pairing: Pairing {
                origin: vec![in alloc; NONE; rows]?,
                partner: vec![in alloc; NONE; block]?,
            },
            paired: Vec::new(alloc),
        })
    }

    /// How many there are.
    pub(crate) fn len(&self) -> usize {
        self.paired.len()
    }

    /// The operation of the block in the pair with this number, in the order in which they were made.
    pub(crate) fn paired(&self, number: usize) -> Option<usize> {
        self.paired.get(number).copied()
    }

    /// What operation i of the block is paired with, or `NONE`.
    pub(crate) fn partner(&self, i: usize) -> usize {
        at(&self.pairing.partner, i)
    }

    /// What operation k of the rows is paired with, or `NONE`.
    pub(crate) fn origin(&self, k: usize) -> usize {
        at(&self.pairing.origin, k)
    }

    /// Pairs two operations.
    pub(crate) fn pair(&mut self, i: usize, k: usize) -> Result<(), NoMemory> {
        put(&mut self.pairing.partner, i, k);
        put(&mut self.pairing.origin, k, i);
        self.paired.push(i)?;
        Ok(())
    }

    /// Takes back all pairs but the first `kept`.
    pub(crate) fn take_back(&mut self, kept: usize) {
        for _ in kept..self.paired.len() {
            if let Some(i) = self.paired.pop() {
                put(&mut self.pairing.origin, at(&self.pairing.partner, i), NONE);
                put(&mut self.pairing.partner, i, NONE);
            }
        }
    }

    /// They as a pairing.
    pub(crate) fn into_pairing(self) -> Pairing {
        self.pairing
    }
}

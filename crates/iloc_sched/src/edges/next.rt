//! The next operation, into which edges are added.

use crate::edges::lasts::Lasts;
use crate::registers::Uses;
use iloc_ops::Op;
use iloc_timed::{Kind, Latencies};

/// The next of some renamed operations, with what the edges into it are made of.
#[derive(Clone, Copy)]
pub struct Next<'a> {
    /// All operations.
    pub ops: &'a [Op],
    /// By operation its latency.
    pub own: &'a [u32],
    /// The latencies of the machine.
    pub latencies: &'a Latencies,
    /// The last operations before this one.
    pub lasts: &'a Lasts,
    pub kind: Kind,
    /// The registers that it uses.
    pub uses: Uses,
    /// Its number.
    pub j: usize,
}

//! Operations with the order in which they are chosen.
ghost use Rattle.std.specs.Prelude.{◌≡◌, ◌<◌, length, map};
ghost use Rattle.iloc_timed.specs.Kinds.{kind};

use crate::tables::Tables;
use iloc_timed::Kind;

/// The tables of a graph, a priority for each operation, and the order of choice by them.
#[derive(Clone, Copy)]
pub struct Plan<'a> {
    pub tables: &'a Tables,
    pub priorities: &'a [u32],
    /// The operations by rank.
    pub order: &'a [u32],
    /// By operation its rank.
    pub ranks: &'a [u32],
    /// Whether one word a set of the calendar is enough. Nothing is written beside it while a schedule is made, so the compiler
    /// tests it once in a cycle: if each step asked the calendar, an operation of a block of ten would take 16 instructions more,
    /// and one of a block of fifteen 6.
    pub short: bool,
}

impl<'a> Plan<'a> {
    ghost use Rattle.iloc_meaning.specs.Trace.{op_at};

    /// The kind of an operation.
    #[inline(always)]
    pub fn kind_of(&self, i: u32) -> Kind
        requires there { i < length self.now.tables.now.ops.items }
        requires kinds { self.now.tables.now.kinds.items ≡ map kind self.now.tables.now.ops.items }
        ensures { result ≡ kind (op_at self.now.tables.now.ops.items i) }
    {
        self.tables.kinds[i as usize]
    }
}

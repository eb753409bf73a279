//! Facts of rows, which say why they aren't issued as their block asks for.

use crate::lawfulness::{Added, Issue, LeftOut};
use iloc_ops::{Op, Reg};

/// A fact of rows, that they aren't issued as their block asks for. Cycles count from 0.
#[derive(Clone, Copy, Debug, PartialEq, Eq)]
pub enum Fact {
    /// A load or an output is issued while a store is under way, which is over at the cycle `due`.
    UnderWay {
        issue: Issue,
        store: Issue,
        due: usize,
    },
    /// An operation reads a register before the cycle `due` at which `late`, issued by then, brings its result there.
    Brings {
        issue: Issue,
        register: Reg,
        late: Issue,
        due: usize,
    },
    /// An operation reads in a register the result of `from`, and no longer that of `lost`, which has arrived too; `None`
    /// for the register as it was at the start.
    Replaced {
        issue: Issue,
        register: Reg,
        from: Issue,
        lost: Option<Issue>,
    },
    /// No operation reads the result of one that defines a register.
    NeverRead {
        issue: Issue,
    },
    /// An operation is issued before another one, or after it, or in its row, that memory or outputs keep in order with it, and
    /// the block has two that differ from them in registers alone in the other order.
    Order {
        issue: Issue,
        other: Issue,
    },
    /// An operation stands for the one of the block of this number, which differs from it in registers alone, but computes
    /// something else.
    For {
        issue: Issue,
        number: usize,
        op: Op,
    },
    /// No operation of the block computes what this one does.
    LikeNone {
        issue: Issue,
    },
    /// An operation doesn't read what its counterpart in the block reads, where the first of those that differ in registers
    /// alone stands for the block's first, and so on.
    See {
        issue: Issue,
    },
}

/// The most facts that are listed.
pub const MOST_FACTS: usize = 8;

/// Why rows aren't issued as their block asks for.
#[derive(Debug, Drop)]
pub struct Reasons {
    /// The operations of the block that have no counterpart.
    pub left_out: Option<LeftOut>,
    /// The operations of the rows that have none.
    pub added: Option<Added>,
    /// Facts of the rows, by row, at most `MOST_FACTS`, each once.
    pub facts: Vec<Fact>,
    /// How many more were found. What is counted isn't promised.
    pub more: usize,
}

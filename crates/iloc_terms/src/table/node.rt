//! The terms of symbolic runs.
ghost use Rattle.std.specs.Prelude.{◌≡◌};

/// An operation on two words.
#[derive(Clone, Copy, PartialEq, Eq)]
pub(crate) enum Binary {
    /// The product, wrapped to 32 bits.
    Product,
    /// The first shifted left by the second modulo 32.
    ShiftLeft,
    /// The first shifted right by the second modulo 32, the sign kept.
    ShiftRight,
}

/// A term: a word, a memory, or a trie, which has words at some keys. A term names others by their
/// numbers in a table.
#[derive(Clone, Copy, PartialEq, Eq)]
pub(crate) enum Node {
    /// This word.
    Known(i32),
    /// The sum of a word and a constant, wrapped to 32 bits.
    Offset {
        base: u32,
        constant: i32,
    },
    /// The sum of a word, 0 if there is none, and the product of another and a constant, wrapped to 32 bits.
    Sum {
        rest: Option<u32>,
        atom: u32,
        by: i32,
    },
    /// What an operation makes of two words.
    Combined {
        by: Binary,
        left: u32,
        right: u32,
    },
    /// The word at an address of a memory.
    Word {
        address: u32,
        memory: u32,
    },
    /// The memory handed in.
    Start,
    /// A memory with the words of a trie written over it, each as far above the base as its key says,
    /// modulo 2^32; with no base, above 0.
    Epoch {
        memory: u32,
        base: Option<u32>,
        trie: u32,
    },
    /// The trie without words.
    Empty,
    /// The trie with one word.
    Leaf {
        at: u32,
        value: u32,
    },
    /// The trie with the words of two at twice their keys, those of the second one above.
    Fork {
        even: u32,
        odd: u32,
    },
}

/// Two numbers in one, the first of them above the other.
fn joined(first: u32, second: u32) -> u64 {
    u64::from(first) << 32 | u64::from(second)
}

/// Four numbers in one, the first two of them above the others.
fn keyed(first: u32, second: u32, third: u32, fourth: u32) -> u128 {
    u128::from(joined(first, second)) << 64 | u128::from(joined(third, fourth))
}

impl Binary {
    /// Its part of the key of a term, another one for each operation.
    fn key(self) -> u32 {
        match self {
            Binary::Product => 0,
            Binary::ShiftLeft => 1,
            Binary::ShiftRight => 2,
        }
    }
}

impl Node {
    ghost use Rattle.iloc_terms.specs.Steps.Order.{names_below};

    /// Whether it names numbers below this one alone.
    pub(crate) fn names_below(&self, number: usize) -> bool
        ensures { result ≡ names_below number self.now }
    {
        let below = |named: u32| (named as usize) < number;
        match *self {
            Node::Known(_) | Node::Start | Node::Empty => true,
            Node::Offset { base, .. } => below(base),
            Node::Sum { rest, atom, .. } => rest.is_none_or(below) && below(atom),
            Node::Combined { left, right, .. } => below(left) && below(right),
            Node::Word { address, memory } => below(address) && below(memory),
            Node::Epoch { memory, base, trie } => below(memory)
                && base.is_none_or(below)
                && below(trie),
            Node::Leaf { value, .. } => below(value),
            Node::Fork { even, odd } => below(even) && below(odd),
        }
    }

    /// A number by which terms are kept in order, another one for each term: two numbers are compared at
    /// once, two terms field by field.
    pub(crate) fn key(&self) -> u128 {
        match *self {
            Node::Known(word) => keyed(0, 0, 0, word.cast_unsigned()),
            Node::Offset { base, constant } => keyed(1, base, 0, constant.cast_unsigned()),
            Node::Sum {
                rest: None,
                atom,
                by,
            } => keyed(2, atom, 0, by.cast_unsigned()),
            Node::Sum {
                rest: Some(rest),
                atom,
                by,
            } => keyed(11, atom, rest, by.cast_unsigned()),
            Node::Combined { by, left, right } => keyed(3, by.key(), left, right),
            Node::Word { address, memory } => keyed(4, address, 0, memory),
            Node::Start => keyed(5, 0, 0, 0),
            Node::Epoch {
                memory,
                base: None,
                trie,
            } => keyed(6, 0, memory, trie),
            Node::Epoch {
                memory,
                base: Some(base),
                trie,
            } => keyed(7, base, memory, trie),
            Node::Empty => keyed(8, 0, 0, 0),
            Node::Leaf { at, value } => keyed(9, at, 0, value),
            Node::Fork { even, odd } => keyed(10, even, 0, odd),
        }
    }
}

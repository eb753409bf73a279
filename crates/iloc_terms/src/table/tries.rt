//! The tries of a table: words at keys of 32 bits, the lowest bit first.
ghost use Rattle.std.specs.Prelude.{◌≡◌, true, List, ℕ, ℤ, Some, None, IfOk};
ghost use Rattle.iloc_terms.specs.Steps.Terms.{Adds, PutsAt, AreHalves, HasNoOther, IsSameBut, IsUnion, Meaning, IsMeaning, IsFound};

use crate::table::Table;
use crate::table::node::Node;
use iloc_ops::NoMemory;

/// How many bits a key has.
pub(crate) const KEY_BITS: u32 = 32;

/// The first key that has no double of so many bits.
const FIRST_LONG_KEY: u32 = 1 << 31;

/// What stands at a key.
#[derive(Clone, Copy, PartialEq, Eq)]
pub(crate) enum Found {
    /// The word with this number.
    Term(u32),
    /// No word.
    Nothing,
    /// It isn't known.
    Untold,
}

impl Table {
    /// The tries of the even and of the odd keys of a trie, by half of these keys; `None` where it is
    /// no trie.
    fn halves(&mut self, trie: u32) -> Result<Option<(u32, u32)>, NoMemory>
        ensures { IfOk result (λ halves. Adds self.old self.new (λ memory d. AreHalves d trie halves)) }
    {
        match self.node(trie) {
            Some(Node::Empty) => Ok(Some((trie, trie))),
            Some(Node::Leaf { at, value }) => {
                let half = self.intern(Node::Leaf { at: at / 2, value })?;
                let empty = self.intern(Node::Empty)?;
                Ok(Some(if at % 2 == 0 {
                    (half, empty)
                } else {
                    (empty, half)
                }))
            }
            Some(Node::Fork { even, odd }) => Ok(Some((even, odd))),
            _ => Ok(None),
        }
    }

    /// Whether a trie has no word at another key than this.
    fn is_at_most_at(&self, trie: u32, key: u32) -> bool
        ensures { result ≡ true → (memory : List ℤ) (d : Meaning) → IsMeaning memory self.now d
            → HasNoOther d trie key }
    {
        match self.node(trie) {
            Some(Node::Empty) => true,
            Some(Node::Leaf { at, .. }) => at == key,
            _ => false,
        }
    }

    /// The trie with a word put at a key of so many bits; `None` where it is no trie of such keys.
    fn put_within(
        &mut self,
        trie: u32,
        key: u32,
        value: u32,
        bits: u32,
    ) -> Result<Option<u32>, NoMemory>
        ensures { IfOk result (λ new. Adds self.old self.new (λ memory d. PutsAt d trie key value new)) }
    {
        if self.is_at_most_at(trie, key) {
            return Ok(Some(self.intern(Node::Leaf { at: key, value })?));
        }
        if bits == 0 {
            return Ok(None);
        }
        let Some((even, odd)) = self.halves(trie)? else {
            return Ok(None);
        };
        let is_even = key % 2 == 0;
        let half = if is_even { even } else { odd };
        let Some(new) = self.put_within(half, key / 2, value, bits - 1)? else {
            return Ok(None);
        };
        let (even, odd) = if is_even { (new, odd) } else { (even, new) };
        Ok(Some(self.intern(Node::Fork { even, odd })?))
    }

    /// The trie with a word put at a key; `None` where it is no trie.
    pub(crate) fn put(&mut self, trie: u32, key: u32, value: u32) -> Result<Option<u32>, NoMemory>
        ensures { IfOk result (λ new. Adds self.old self.new (λ memory d. PutsAt d trie key value new)) }
    {
        self.put_within(trie, key, value, KEY_BITS)
    }

    /// What `trie` has at `key`, a key of `bits` bits.
    fn found_within(&self, trie: u32, key: u32, bits: u32) -> Found
        ensures { (memory : List ℤ) (d : Meaning) → IsMeaning memory self.now d → IsFound d trie key result }
    {
        match self.node(trie) {
            Some(Node::Empty) => Found::Nothing,
            Some(Node::Leaf { at, value }) => {
                if at == key {
                    Found::Term(value)
                } else {
                    Found::Nothing
                }
            }
            Some(Node::Fork { even, odd }) if bits > 0 => {
                let half = if key % 2 == 0 { even } else { odd };
                self.found_within(half, key / 2, bits - 1)
            }
            _ => Found::Untold,
        }
    }

    /// What a trie has at a key.
    pub(crate) fn found(&self, trie: u32, key: u32) -> Found
        ensures { (memory : List ℤ) (d : Meaning) → IsMeaning memory self.now d → IsFound d trie key result }
    {
        self.found_within(trie, key, KEY_BITS)
    }

    /// Whether a trie has a word at a key.
    pub(crate) fn has(&self, trie: u32, key: u32) -> bool {
        match self.found(trie, key) {
            Found::Term(_) => true,
            _ => false,
        }
    }

    /// Whether a trie has no word.
    pub(crate) fn is_empty(&self, trie: u32) -> bool
        ensures { result ≡ true → (memory : List ℤ) (d : Meaning) → IsMeaning memory self.now d
            → (key : ℕ) → d.entry trie key ≡ None }
    {
        match self.node(trie) {
            Some(Node::Empty) => true,
            _ => false,
        }
    }

    /// The trie with the words of `even` at twice their keys, and the words of `odd` one above.
    fn fork(&mut self, even: u32, odd: u32) -> Result<u32, NoMemory>
        ensures { IfOk result (λ new. Adds self.old self.new (λ _ d. AreHalves d new (Some (even, odd)))) }
    {
        match (self.node(even), self.node(odd)) {
            (Some(Node::Empty), Some(Node::Empty)) => Ok(even),
            (Some(Node::Leaf { at, value }), Some(Node::Empty)) if at < FIRST_LONG_KEY => {
                self.intern(Node::Leaf { at: at * 2, value })
            }
            (Some(Node::Empty), Some(Node::Leaf { at, value })) if at < FIRST_LONG_KEY => {
                self.intern(Node::Leaf {
                    at: at * 2 + 1,
                    value,
                })
            }
            _ => self.intern(Node::Fork { even, odd }),
        }
    }

    /// A trie that differs from `trie` at most at `key`, a key of `bits` bits: the word there is left out.
    fn removed_within(&mut self, trie: u32, key: u32, bits: u32) -> Result<u32, NoMemory>
        ensures { IfOk result (λ new. Adds self.old self.new (λ _ d. IsSameBut d trie key new)) }
    {
        match self.node(trie) {
            Some(Node::Leaf { at, .. }) if at == key => self.intern(Node::Empty),
            Some(Node::Fork { even, odd }) if bits > 0 => {
                if key % 2 == 0 {
                    let even = self.removed_within(even, key / 2, bits - 1)?;
                    self.fork(even, odd)
                } else {
                    let odd = self.removed_within(odd, key / 2, bits - 1)?;
                    self.fork(even, odd)
                }
            }
            _ => Ok(trie),
        }
    }

    /// A trie that may differ from another at a key alone: the word there is left out.
    pub(crate) fn removed(&mut self, trie: u32, key: u32) -> Result<u32, NoMemory>
        ensures { IfOk result (λ new. Adds self.old self.new (λ _ d. IsSameBut d trie key new)) }
    {
        self.removed_within(trie, key, KEY_BITS)
    }

    /// The trie with the words of two at keys of so many bits, those of the second where both have one;
    /// `None` where steps are missing, or one is no trie of such keys.
    fn union_within(&mut self, under: u32, over: u32, bits: u32) -> Result<Option<u32>, NoMemory>
        ensures { IfOk result (λ new. Adds self.old self.new (λ _ d. IsUnion d under over new)) }
    {
        if self.is_empty(under) {
            return Ok(Some(over));
        }
        match self.node(over) {
            Some(Node::Leaf { at, value }) => self.put_within(under, at, value, bits),
            Some(Node::Fork { even, odd }) if bits > 0 => {
                if !self.spends() {
                    return Ok(None);
                }
                let Some((under_even, under_odd)) = self.halves(under)? else {
                    return Ok(None);
                };
                let Some(even) = self.union_within(under_even, even, bits - 1)? else {
                    return Ok(None);
                };
                let Some(odd) = self.union_within(under_odd, odd, bits - 1)? else {
                    return Ok(None);
                };
                Ok(Some(self.intern(Node::Fork { even, odd })?))
            }
            _ => Ok(None),
        }
    }

    /// The trie with the words of two, those of the second where both have one; `None` where steps are
    /// missing, or one is no trie.
    pub(crate) fn union(&mut self, under: u32, over: u32) -> Result<Option<u32>, NoMemory>
        ensures { IfOk result (λ new. Adds self.old self.new (λ _ d. IsUnion d under over new)) }
    {
        self.union_within(under, over, KEY_BITS)
    }
}

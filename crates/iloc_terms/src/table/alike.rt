//! Writes of one word, which may change places wherever they go.
ghost use Rattle.std.specs.Prelude.{◌≡◌, true, List, ℤ, IfOk, IfSome};
ghost use Rattle.iloc_terms.specs.Steps.Terms.{Adds, Meaning, IsMeaning, HasOnly, IsOver};

use crate::table::Table;
use crate::table::memories::LoadSource;
use crate::table::node::Node;
use iloc_ops::NoMemory;

/// In how many of their lowest bits the keys of an epoch may differ that is seen to write one word alone.
const MOST_BITS: u32 = 6;

/// Whether a base goes before another: the older one does, and none comes last.
fn goes_before(base: Option<u32>, other: Option<u32>) -> bool {
    base.unwrap_or(u32::MAX) < other.unwrap_or(u32::MAX)
}

impl Table {
    /// Whether `trie` has no other word than `value`, at keys that differ in the lowest `bits` bits alone, as far as steps
    /// suffice to see it.
    fn has_only(&mut self, trie: u32, value: u32, bits: u32) -> bool
        ensures only { result ≡ true → (memory : List ℤ) (d : Meaning) → IsMeaning memory self.old d
            → HasOnly d trie value }
        ensures kept { self.new ≡ self.old }
    {
        match self.node(trie) {
            Some(Node::Empty) => true,
            Some(Node::Leaf { value: word, .. }) => word == value,
            Some(Node::Fork { even, odd }) if bits > 0 => {
                self.spends()
                    && self.has_only(even, value, bits - 1)
                    && self.has_only(odd, value, bits - 1)
            }
            _ => false,
        }
    }

    /// The word that a trie has alone, at one key.
    fn only_word(&self, trie: u32) -> Option<u32>
        ensures { IfSome result (λ value. (memory : List ℤ) (d : Meaning) → IsMeaning memory self.now d
            → HasOnly d trie value) }
    {
        match self.node(trie) {
            Some(Node::Leaf { value, .. }) => Some(value),
            _ => None,
        }
    }

    /// A memory with an epoch of a trie's words over it.
    pub(super) fn epoch(
        &mut self,
        memory: u32,
        base: Option<u32>,
        trie: u32,
    ) -> Result<u32, NoMemory>
        ensures { IfOk result (λ n. Adds self.old self.new (λ _ d. IsOver d memory base trie n)) }
    {
        self.intern(Node::Epoch { memory, base, trie })
    }

    /// A memory with the words of a trie over it that has this word alone. They go before the last epochs, so many at
    /// most, that have it alone as well: to the one of their base, or before a newer base. `None` where there is none.
    #[tactic(auto, using(crate::proofs::Terms::Epochs::alike_exchanged))]
    fn over_before(
        &mut self,
        memory: u32,
        base: Option<u32>,
        trie: u32,
        value: u32,
        epochs: usize,
    ) -> Result<Option<u32>, NoMemory>
        ensures { IfOk result (λ new. Adds self.old self.new (λ _ d.
            HasOnly d trie value → IfSome new (IsOver d memory base trie))) }
    {
        let Some(
            Node::Epoch {
                memory: before,
                base: last,
                trie: later,
            },
        ) = self.node(memory)
        else {
            return Ok(None);
        };
        if last == base {
            return self.over_in_last(memory, base, trie);
        }
        if epochs == 0 || !self.has_only(later, value, MOST_BITS) || !self.spends() {
            return Ok(None);
        }
        if let Some(first) = self.over_before(before, base, trie, value, epochs - 1)? {
            return Ok(Some(self.epoch(first, last, later)?));
        }
        if !goes_before(base, last) {
            return Ok(None);
        }
        let first = self.epoch(before, base, trie)?;
        Ok(Some(self.epoch(first, last, later)?))
    }

    /// A memory with the words of a trie over it, above a base, that go before the last epochs; `None` where they
    /// aren't one word alone, or there is no such epoch.
    pub(super) fn over_alike(
        &mut self,
        memory: u32,
        base: Option<u32>,
        trie: u32,
    ) -> Result<Option<u32>, NoMemory>
        ensures { IfOk result (λ new. Adds self.old self.new (λ _ d. IfSome new (IsOver d memory base trie))) }
    {
        let Some(value) = self.only_word(trie) else {
            return Ok(None);
        };
        let reach = self.reach();
        self.over_before(memory, base, trie, value, reach)
    }

    /// The word at `address` of `memory`, if it is written there, and the epochs since then, at most `epochs`, have it
    /// alone, as far as steps suffice to see it.
    pub(super) fn stored(&mut self, memory: u32, address: u32, epochs: usize) -> Option<u32>
        ensures is { IfSome result (λ word. (words : List ℤ) (d : Meaning) → IsMeaning words self.old d
            → d.words memory (d.word address) ≡ d.word word) }
        ensures kept { self.new ≡ self.old }
    {
        if let LoadSource::Written(word) = self.seen(memory, address) {
            return Some(word);
        }
        let Some(
            Node::Epoch {
                memory: before,
                trie,
                ..
            },
        ) = self.node(memory)
        else {
            return None;
        };
        if epochs == 0 || !self.spends() {
            return None;
        }
        let Some(word) = self.stored(before, address, epochs - 1) else {
            return None;
        };
        if !self.has_only(trie, word, MOST_BITS) {
            return None;
        }
        Some(word)
    }
}

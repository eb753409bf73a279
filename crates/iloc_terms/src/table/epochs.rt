//! Epochs of writes over a memory: writes that are overwritten leave it, and for a load those that don't
//! matter to it.
ghost use Rattle.std.specs.Prelude.{◌≡◌, ◌==◌, true, ℤ, IfOk, IfSome};
ghost use Rattle.iloc_terms.specs.Steps.Terms.{Adds, IsOver, IsOverSame, IsSameElsewhere, IsSameAt, base_word, key_of};

use crate::table::Table;
use crate::table::memories::Location;
use crate::table::node::Node;
use crate::table::tries::{Found, KEY_BITS};
use iloc_ops::NoMemory;

impl Table {
    /// A memory with the words of a trie in its last epoch; `None` where that has another base.
    pub(super) fn over_in_last(
        &mut self,
        memory: u32,
        base: Option<u32>,
        trie: u32,
    ) -> Result<Option<u32>, NoMemory>
        ensures { IfOk result (λ new. Adds self.old self.new (λ _ d. IfSome new (IsOver d memory base trie))) }
    {
        let Some(
            Node::Epoch {
                memory: before,
                base: last,
                trie: under,
            },
        ) = self.node(memory)
        else {
            return Ok(None);
        };
        if last != base {
            return Ok(None);
        }
        let Some(trie) = self.union(under, trie)? else {
            return Ok(None);
        };
        Ok(Some(self.intern(Node::Epoch {
            memory: before,
            base,
            trie,
        })?))
    }

    /// A memory with the words of a trie over it, above a base.
    pub(crate) fn over(
        &mut self,
        memory: u32,
        base: Option<u32>,
        trie: u32,
    ) -> Result<u32, NoMemory>
        ensures { IfOk result (λ n. Adds self.old self.new (λ _ d. IsOver d memory base trie n)) }
    {
        if self.is_empty(trie) {
            return Ok(memory);
        }
        if let Some(number) = self.over_in_last(memory, base, trie)? {
            return Ok(number);
        }
        if let Some(number) = self.over_alike(memory, base, trie)? {
            return Ok(number);
        }
        self.epoch(memory, base, trie)
    }

    /// A trie to be written over a memory, without a word that is there already.
    fn less(
        &mut self,
        memory: u32,
        base: Option<u32>,
        trie: u32,
        value: u32,
    ) -> Result<u32, NoMemory>
        ensures { IfOk result (λ new. Adds self.old self.new (λ _ d. IsOverSame d memory base trie new)) }
    {
        let Some(Node::Word { address, .. }) = self.node(value) else {
            return Ok(trie);
        };
        let at = self.location(address);
        if at.base != base {
            return Ok(trie);
        }
        match self.found(trie, at.key) {
            Found::Term(word) if word == value => {}
            _ => return Ok(trie),
        }
        if !self.is_there(memory, address, value)? {
            return Ok(trie);
        }
        let new = self.removed(trie, at.key)?;
        match self.found(new, at.key) {
            Found::Nothing => Ok(new),
            _ => Ok(trie),
        }
    }

    /// A trie to be written over `memory`: `trie` without the words of its `part`, with keys of `bits` bits, that
    /// `memory` has already.
    fn less_within(
        &mut self,
        memory: u32,
        base: Option<u32>,
        trie: u32,
        part: u32,
        bits: u32,
    ) -> Result<u32, NoMemory>
        ensures { IfOk result (λ new. Adds self.old self.new (λ _ d. IsOverSame d memory base trie new)) }
    {
        if !self.spends() {
            return Ok(trie);
        }
        match self.node(part) {
            Some(Node::Leaf { value, .. }) => self.less(memory, base, trie, value),
            Some(Node::Fork { even, odd }) if bits > 0 => {
                let trie = self.less_within(memory, base, trie, even, bits - 1)?;
                self.less_within(memory, base, trie, odd, bits - 1)
            }
            _ => Ok(trie),
        }
    }

    /// A memory that differs from `memory` at most at `at`: its last write there is left out, if it is in the last
    /// `epochs` epochs.
    pub(crate) fn without(
        &mut self,
        memory: u32,
        at: Location,
        epochs: usize,
    ) -> Result<u32, NoMemory>
        ensures { IfOk result (λ n. Adds self.old self.new (λ _ d. IsSameElsewhere d at.base at.key memory n)) }
    {
        let Some(
            Node::Epoch {
                memory: before,
                base,
                trie,
            },
        ) = self.node(memory)
        else {
            return Ok(memory);
        };
        if epochs == 0 || !self.spends() {
            return Ok(memory);
        }
        if base == at.base && self.has(trie, at.key) {
            let trie = self.removed(trie, at.key)?;
            return self.over(before, base, trie);
        }
        let kept = self.without(before, at, epochs - 1)?;
        if kept == before {
            return Ok(memory);
        }
        let trie = self.less_within(kept, base, trie, trie, KEY_BITS)?;
        self.over(kept, base, trie)
    }

    /// The memory with nothing but a word at a location.
    fn alone(&mut self, at: Location, value: u32) -> Result<u32, NoMemory>
        ensures { IfOk result (λ n. Adds self.old self.new (λ _ d.
            (z : ℤ) → (key_of (base_word d at.base) z == at.key) ≡ true → d.words n z ≡ d.word value)) }
    {
        let memory = self.start()?;
        let trie = self.intern(Node::Leaf { at: at.key, value })?;
        self.intern(Node::Epoch {
            memory,
            base: at.base,
            trie,
        })
    }

    /// A memory with the word of `memory` at `at`: of the last `epochs` epochs, writes that are known to be elsewhere
    /// are left out, and all that is overwritten there.
    pub(crate) fn narrowed(
        &mut self,
        memory: u32,
        at: Location,
        epochs: usize,
    ) -> Result<u32, NoMemory>
        ensures { IfOk result (λ n. Adds self.old self.new (λ _ d. IsSameAt d at.base at.key memory n)) }
    {
        let Some(
            Node::Epoch {
                memory: before,
                base,
                trie,
            },
        ) = self.node(memory)
        else {
            return Ok(memory);
        };
        if epochs == 0 || !self.spends() {
            return Ok(memory);
        }
        if base == at.base {
            return match self.found(trie, at.key) {
                Found::Term(value) => self.alone(at, value),
                Found::Nothing => self.narrowed(before, at, epochs - 1),
                Found::Untold => Ok(memory),
            };
        }
        let kept = self.narrowed(before, at, epochs - 1)?;
        if kept == before {
            return Ok(memory);
        }
        if !self.spends() {
            return Ok(memory);
        }
        self.over(kept, base, trie)
    }
}

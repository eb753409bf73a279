//! The memories of a table: the memory handed in, and epochs of writes whose addresses have one base.
ghost use Rattle.std.specs.Prelude.{◌≡◌, true, List, ℤ, FitsSigned, IfOk};
ghost use Rattle.std.specs.Int.{w32};
ghost use Rattle.iloc_terms.specs.Steps.Terms.{Adds, Meaning, IsMeaning, IsSeen, IsLocationOf, word_or_zero, with_word};

use crate::table::Table;
use crate::table::node::Node;
use crate::table::tries::Found;
use iloc_ops::NoMemory;

/// What the last epoch of a memory says of an address.
#[derive(Clone, Copy)]
pub(crate) enum LoadSource {
    /// The word with this number stands there.
    Written(u32),
    /// What this memory has.
    In(u32),
}

/// Where an address is: so far above a base, modulo 2^32; with no base, above 0.
#[derive(Clone, Copy)]
pub(crate) struct Location {
    pub(crate) base: Option<u32>,
    pub(crate) key: u32,
}

impl Table {
    /// Where an address is.
    pub(crate) fn location(&self, address: u32) -> Location
        ensures { (memory : List ℤ) (d : Meaning) → IsMeaning memory self.now d
            → IsLocationOf d address result.base result.key }
    {
        let parts = self.parts(address);
        Location {
            base: parts.base,
            key: parts.constant.cast_unsigned(),
        }
    }

    /// The memory handed in.
    pub(crate) fn start(&mut self) -> Result<u32, NoMemory>
        ensures { IfOk result (λ n. Adds self.old self.new (λ memory d. (z : ℤ)
            → d.words n z ≡ word_or_zero memory z)) }
    {
        self.intern(Node::Start)
    }

    /// What the last epoch of a memory says of an address.
    pub(super) fn seen(&self, memory: u32, address: u32) -> LoadSource
        ensures { (words : List ℤ) (d : Meaning) → IsMeaning words self.now d → IsSeen d memory address result }
    {
        let Some(
            Node::Epoch {
                memory: before,
                base: last,
                trie,
            },
        ) = self.node(memory)
        else {
            return LoadSource::In(memory);
        };
        let Location { base, key } = self.location(address);
        if last != base {
            return LoadSource::In(memory);
        }
        match self.found(trie, key) {
            Found::Term(value) => LoadSource::Written(value),
            Found::Nothing => LoadSource::In(before),
            Found::Untold => LoadSource::In(memory),
        }
    }

    /// The word at an address of a memory. What is known not to matter there is left out of the memory.
    pub(crate) fn word(&mut self, memory: u32, address: u32) -> Result<u32, NoMemory>
        ensures { IfOk result (λ n. Adds self.old self.new (λ _ d. d.word n ≡ d.words memory (d.word address))) }
    {
        let reach = self.reach();
        if let Some(word) = self.stored(memory, address, reach) {
            return Ok(word);
        }
        match self.seen(memory, address) {
            LoadSource::Written(value) => Ok(value),
            LoadSource::In(memory) => {
                let at = self.location(address);
                let memory = self.narrowed(memory, at, reach)?;
                self.intern(Node::Word { address, memory })
            }
        }
    }

    /// Whether a word was read at an address.
    fn is_from(&self, value: u32, address: u32) -> bool {
        match self.node(value) {
            Some(Node::Word { address: from, .. }) => from == address,
            _ => false,
        }
    }

    /// Whether a word is the one at an address of a memory.
    pub(crate) fn is_there(
        &mut self,
        memory: u32,
        address: u32,
        value: u32,
    ) -> Result<bool, NoMemory>
        ensures { IfOk result (λ yes. Adds self.old self.new (λ _ d.
            yes ≡ true → d.word value ≡ d.words memory (d.word address))) }
    {
        let reach = self.reach();
        if let Some(word) = self.stored(memory, address, reach) {
            return Ok(word == value);
        }
        if !self.is_from(value, address) {
            return Ok(false);
        }
        let word = self.word(memory, address)?;
        Ok(word == value)
    }

    /// A memory with a word written at an address, which isn't the one there.
    fn changed(&mut self, memory: u32, address: u32, value: u32) -> Result<u32, NoMemory>
        ensures { IfOk result (λ n. Adds self.old self.new (λ _ d. (z : ℤ) → FitsSigned w32 z
            → d.words n z ≡ with_word (d.words memory) (d.word address) (d.word value) z)) }
    {
        let Location { base, key } = self.location(address);
        let trie = self.intern(Node::Leaf { at: key, value })?;
        self.over(memory, base, trie)
    }

    /// A memory with a word written at an address. A word written back is no change, and what is overwritten
    /// is dropped.
    pub(crate) fn written(&mut self, memory: u32, address: u32, value: u32) -> Result<u32, NoMemory>
        ensures { IfOk result (λ n. Adds self.old self.new (λ _ d. (z : ℤ) → FitsSigned w32 z
            → d.words n z ≡ with_word (d.words memory) (d.word address) (d.word value) z)) }
    {
        let reach = self.reach();
        if reach == 0 {
            return self.changed(memory, address, value);
        }
        if self.is_there(memory, address, value)? {
            return Ok(memory);
        }
        let at = self.location(address);
        let kept = self.without(memory, at, reach)?;
        if self.is_there(kept, address, value)? {
            return Ok(kept);
        }
        self.changed(kept, address, value)
    }
}

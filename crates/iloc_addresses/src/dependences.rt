//! On which earlier operations one depends by memory and outputs, where loads and outputs don't wait for stores that are
//! apart from them, nor stores for them.
ghost use Rattle.std.specs.Prelude.{◌≡◌, ◌+◌, ◌≤◌, ◌++◌, length, List, OnOk, OnErr};
ghost use Rattle.iloc_ops.specs.declared.op.Op.{Op};
ghost use Rattle.iloc_rules.specs.Apart.{by_address};
ghost use Rattle.iloc_addresses.specs.Dependences.{AreSources};
ghost use Rattle.std.specs.Option.{option_to_list};

mod accesses;
mod by_constant;
mod last_by_constant;
mod stores;

use accesses::Accesses;
use iloc_ops::NoMemory;
use iloc_rules::Word;
use iloc_timed::Kind;
use std::alloc::Global;
use stores::Stores;

/// The operations on which a later one may depend by memory and outputs.
#[derive(Drop)]
pub struct MemoryDependences {
    // The stores, by what they reach.
    stores: Stores,
    // The loads and outputs for which no store has waited yet.
    accesses: Accesses,
    // The last output.
    output: Option<u32>,
}

impl MemoryDependences {
    ghost use Rattle.iloc_addresses.specs.Steps.Dependences.{IsBefore, IsNext, waiting};

    /// Promise: Before the first operation of a list.
    pub fn new(alloc: Global) -> MemoryDependences
        ensures before { (ops : List Op) → IsBefore ops result 0 }
        ensures waiting { waiting result ≡ 0 }
    {
        MemoryDependences {
            stores: Stores::new(alloc),
            accesses: Accesses::new(alloc),
            output: None,
        }
    }

    /// Promise: Before the first operation of another list.
    pub fn clear(&mut self)
        ensures before { (ops : List Op) → IsBefore ops self.new 0 }
        ensures waiting { waiting self.new ≡ 0 }
    {
        self.stores.clear();
        self.accesses.clear();
        self.output = None;
    }

    /// Promise: Takes operation `j`, and fills `sources` with the operations that it has to wait for by memory and
    /// outputs, if none between takes their place. Stores wait for each other; else what is apart doesn't. After a
    /// refusal `self` is as before the first operation of a list.
    ///
    /// At each moment the operations found so far and the ones that wait for a store are at most three for each
    /// operation taken. All together take time of order n log n.
    pub fn take(
        &mut self,
        kind: Kind,
        address: Option<Word>,
        j: u32,
        sources: &mut Vec<u32>,
    ) -> Result<(), NoMemory>
        ensures sources { OnOk result ((ops : List Op) → IsNext ops kind address j → IsBefore ops self.old j
            → AreSources (by_address ops) ops j sources.new.items) }
        ensures before { OnOk result ((ops : List Op) → IsNext ops kind address j → IsBefore ops self.old j
            → IsBefore ops self.new (j + 1)) }
        ensures few { OnOk result (length sources.new.items + waiting self.new ≤ waiting self.old + 3) }
        ensures refused { OnErr result ((ops : List Op) → IsBefore ops self.new 0) }
        ensures refused_waiting { OnErr result (waiting self.new ≡ 0) }
    {
        let taken = self.fill(kind, address, j, sources);
        if taken.is_err() {
            self.clear();
        }
        taken
    }

    /// The same, but for what is left after a refusal.
    fn fill(
        &mut self,
        kind: Kind,
        address: Option<Word>,
        j: u32,
        sources: &mut Vec<u32>,
    ) -> Result<(), NoMemory>
        ensures sources { OnOk result ((ops : List Op) → IsNext ops kind address j → IsBefore ops self.old j
            → AreSources (by_address ops) ops j sources.new.items) }
        ensures before { OnOk result ((ops : List Op) → IsNext ops kind address j → IsBefore ops self.old j
            → IsBefore ops self.new (j + 1)) }
        ensures few { OnOk result (length sources.new.items + waiting self.new ≤ waiting self.old + 3) }
    {
        sources.clear();
        let Some(address) = address else {
            return Ok(());
        };
        match kind {
            Kind::Load => {
                push_some(sources, self.stores.last_for(address))?;
                self.accesses.note(j, address)
            }
            Kind::Output => {
                push_some(sources, self.stores.last_for(address))?;
                push_some(sources, self.output)?;
                self.output = Some(j);
                self.accesses.note(j, address)
            }
            Kind::Store => {
                push_some(sources, self.stores.last())?;
                self.accesses.find(address, sources)?;
                self.stores.note(j, address)
            }
            Kind::Mult | Kind::Other => Ok(()),
        }
    }
}

/// Adds an operation to a list, if there is one.
fn push_some(ops: &mut Vec<u32>, op: Option<u32>) -> Result<(), NoMemory>
    ensures { OnOk result (ops.new.items ≡ ops.old.items ++ option_to_list op) }
{
    if let Some(i) = op {
        ops.push(i)?;
    }
    Ok(())
}

//! The operations after another that may have to wait for it by memory and outputs.
ghost use Rattle.std.specs.Prelude.{◌≡◌, ◌+◌, ◌<◌, ◌≤◌, ◌^◌, if◌then◌else◌, Some, OnOk};
ghost use Rattle.iloc_timed.specs.declared.kind.Kind.{Kind};
ghost use Rattle.iloc_rules.specs.declared.word.Word.{Word};

use super::address_counts::AddressCounts;
use iloc_ops::NoMemory;
use iloc_rules::Word;
use iloc_timed::Kind;
use std::alloc::Global;

/// How many operations that memory and outputs order come later, by what they reach.
#[derive(Drop)]
pub(crate) struct Later {
    stores: AddressCounts,
    // The loads and outputs.
    reads: AddressCounts,
    outputs: u32,
}

impl Later {
    ghost use Rattle.iloc_addresses.specs.Steps.Dependences.{IsShort, constant_of};
    ghost use Rattle.iloc_addresses.specs.Steps.Successors.{AreCounts, noted, waiting_for, waits_by_memory};

    /// No operation comes later.
    pub(crate) fn new(alloc: Global) -> Later
        ensures waiting { (k : Kind) (w : Word) → waiting_for k w result ≡ 0 }
        ensures noted { noted result ≡ 0 }
        ensures counts { AreCounts result }
    {
        Later {
            stores: AddressCounts::new(alloc),
            reads: AddressCounts::new(alloc),
            outputs: 0,
        }
    }

    /// How many of them wait for an operation of this kind at this address.
    pub(crate) fn waiting_for(&self, kind: Kind, address: Word) -> u32
        requires few { noted self.now < 2 ^ 32 }
        requires counts { AreCounts self.now }
        ensures waiting { result ≡ waiting_for kind address self.now }
        ensures short { IsShort (constant_of address) }
    {
        match kind {
            Kind::Load => self.stores.count_near(address),
            Kind::Store => self.stores.len() + self.reads.count_near(address),
            Kind::Output => self.stores.count_near(address) + self.outputs,
            Kind::Mult | Kind::Other => 0,
        }
    }

    /// An operation of this kind at this address is one of them from now on.
    pub(crate) fn note(&mut self, kind: Kind, address: Word) -> Result<(), NoMemory>
        requires few { noted self.old + 2 < 2 ^ 32 }
        requires counts { AreCounts self.old }
        ensures waiting { OnOk result ((k : Kind) (w : Word) → IsShort (constant_of w)
            → waiting_for k w self.new
            ≡ waiting_for k w self.old + (if waits_by_memory k (Some w) kind (Some address) then 1 else 0)) }
        ensures noted { OnOk result (noted self.new ≤ noted self.old + 2) }
        ensures counts { OnOk result (AreCounts self.new) }
    {
        match kind {
            Kind::Load => self.reads.note(address),
            Kind::Store => self.stores.note(address),
            Kind::Output => {
                self.outputs += 1;
                self.reads.note(address)
            }
            Kind::Mult | Kind::Other => Ok(()),
        }
    }
}

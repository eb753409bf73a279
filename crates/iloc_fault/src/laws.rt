//! Laws of places at which blocks fault, as contracts of functions that do nothing.
ghost use Rattle.iloc_fault.specs.Place.{BlocksFaultAtOnePlace};

/// Promise: a block faults on a memory at one place at most, and only where its outcome is a fault.
pub fn blocks_fault_at_one_place()
    ensures { BlocksFaultAtOnePlace }
{}

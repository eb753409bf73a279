//! Laws of operations and limits, as contracts of functions that do nothing.
ghost use Rattle.iloc_ops.specs.Laws.{LimitsAreThese, RenamingMapsUses, RenamingReplacesTheDefinition};

/// Promise: an operation with other registers uses the new ones, in the order of its own.
pub fn renaming_maps_uses()
    ensures { RenamingMapsUses }
{}

/// Promise: an operation with other registers defines the new one if it defines a register, and otherwise none.
pub fn renaming_replaces_the_definition()
    ensures { RenamingReplacesTheDefinition }
{}

/// Promise: the limits that the code uses are the numbers that the definitions state.
pub fn limits_are_these()
    ensures { LimitsAreThese }
{}

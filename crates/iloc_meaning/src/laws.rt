//! Laws of the meaning, as contracts of functions that do nothing.
ghost use Rattle.iloc_meaning.specs.Laws.{ResultsGoToRegisters, EffectsDependOnUses, RenamingKeepsEffects};

/// Promise: an operation gives a result only if it defines a register, and one that defines a register gives a result
/// or faults.
pub fn results_go_to_registers()
    ensures { ResultsGoToRegisters }
{}

/// Promise: what an operation does depends on the values of the registers that it uses and on the words at good
/// addresses, and on nothing else.
pub fn effects_depend_on_uses()
    ensures { EffectsDependOnUses }
{}

/// Promise: an operation with other registers does what the operation itself does when its own registers have the
/// values of the new ones.
pub fn renaming_keeps_effects()
    ensures { RenamingKeepsEffects }
{}

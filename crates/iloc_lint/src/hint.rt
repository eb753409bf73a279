//! Hints as they are listed.
ghost use Rattle.std.specs.Prelude.{◌≡◌, ◌++◌, List, ℕ, OnOk, flat_map};
ghost use Rattle.iloc_lint.specs.Listing.{hint_line};

use crate::shown::push_shown;
use iloc_ops::NoMemory;
use std::alloc::Global;

/// What is worth a look, with the numbers of a line and a register.
#[derive(Clone, Copy, Drop)]
pub enum Hint {
    /// A register is used that has no value.
    Unset(u32, u32),
    /// Nothing uses a value of a register.
    Unused(u32, u32),
    /// A line that may be another file's first goes on with a block.
    GoesOn(u32),
    /// Each operation has a label.
    AllHeaded,
    /// There are so many more hints.
    More(u32),
}

impl Hint {
    /// What is said.
    fn said(self, alloc: Global) -> Result<String, NoMemory> {
        match self {
            Hint::Unset(line, register) => Ok(format!(in alloc;
                "line {line} uses r{register}, to which nothing before it in the block gives a value: it is 0"
            )?),
            Hint::Unused(line, register) => {
                Ok(format!(in alloc; "line {line}: nothing uses this value of r{register}")?)
            }
            Hint::GoesOn(line) => Ok(format!(in alloc;
                "line {line} goes on with the block above it: only a label starts a block"
            )?),
            Hint::AllHeaded => Ok(format!(in alloc;
                "each operation has a label, so each is a block of its own"
            )?),
            Hint::More(count) => Ok(format!(in alloc; "and {count} more like these")?),
        }
    }
}

/// Appends a hint that says this.
fn push_hint(text: &mut Vec<u8>, said: &[u8]) -> Result<(), NoMemory>
    ensures { OnOk result (text.new.items ≡ text.old.items ++ hint_line said.now) }
{
    text.extend_from_slice(b"hint: ")?;
    push_shown(text, said)?;
    Ok(text.push(b'\n')?)
}

/// Appends the hints.
pub fn push_hints(alloc: Global, text: &mut Vec<u8>, hints: &[Hint]) -> Result<(), NoMemory>
    ensures { OnOk result ((said : List (List ℕ)) × (text.new.items ≡ text.old.items ++ flat_map hint_line said)) }
{
    for hint in hints {
        let said = hint.said(alloc)?;
        push_hint(text, said.as_bytes())?;
    }
    Ok(())
}

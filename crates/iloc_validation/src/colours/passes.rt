//! One pass over operations: new colours with those of what they read, or of what reads them.
ghost use Rattle.std.specs.Prelude.{◌≡◌, ◌<◌, ◌+◌, ◌%◌, ◌^◌, ℕ, length, slice_index, IfOk};
ghost use Rattle.iloc_validation.specs.Steps.Colours.{said, heard_of, AreForwards, AreBackwards};

use super::mixing::{mix, with_told};
use iloc_facts::Sources;
use iloc_ops::NoMemory;
use std::alloc::Global;

/// Each with the new colours of what it reads.
pub(crate) fn forwards(
    alloc: Global,
    sources: &[Sources],
    colours: &[u64],
) -> Result<Vec<u64>, NoMemory>
    requires sized { length colours.now ≡ length sources.now }
    ensures size { IfOk result (λ new. length new.items ≡ length sources.now) }
    ensures each { IfOk result (λ new. AreForwards sources.now colours.now new.items) }
{
    let mut new = Vec::with_capacity(alloc, sources.len())?;
    for (k, reads) in sources.iter().enumerate() {
        let colour = with_told(colours[k], &new, *reads);
        new.push(colour)?;
    }
    Ok(new)
}

/// Adds the voice of a reader to what the operation that it reads hears.
fn say(heard: &mut Vec<u64>, source: Option<usize>, voice: u64)
    ensures size { length heard.new.items ≡ length heard.old.items }
    ensures each { (s : ℕ) → s < length heard.old.items → slice_index heard.new.items s
        ≡ (slice_index heard.old.items s + said voice s source) % 2 ^ 64 }
{
    if let Some(j) = source
        && j < heard.len()
    {
        heard[j] = heard[j].wrapping_add(voice);
    }
}

/// The same for all that a reader of this colour reads: its voice says at which use that is.
fn say_all(heard: &mut Vec<u64>, sources: Sources, colour: u64)
    ensures size { length heard.new.items ≡ length heard.old.items }
    ensures each { (s : ℕ) → s < length heard.old.items → slice_index heard.new.items s
        ≡ (slice_index heard.old.items s + heard_of colour s sources) % 2 ^ 64 }
{
    match sources {
        Sources::Nothing => {}
        Sources::One(only) => say(heard, only, mix(colour, 1)),
        Sources::Two(left, right) => {
            say(heard, left, mix(colour, 1));
            say(heard, right, mix(colour, 2));
        }
    }
}

/// Each with the new colours of what reads it, and at which use; a sum, as readers have no order.
pub(crate) fn backwards(
    alloc: Global,
    sources: &[Sources],
    colours: &[u64],
) -> Result<Vec<u64>, NoMemory>
    requires sized { length colours.now ≡ length sources.now }
    ensures size { IfOk result (λ new. length new.items ≡ length sources.now) }
    ensures each { IfOk result (λ new. AreBackwards sources.now colours.now new.items) }
{
    let mut heard = vec![in alloc; 0; sources.len()]?;
    let mut new = vec![in alloc; 0; sources.len()]?;
    let mut k = sources.len();
    while k > 0 {
        k -= 1;
        new[k] = mix(colours[k], heard[k]);
        say_all(&mut heard, sources[k], new[k]);
    }
    Ok(new)
}

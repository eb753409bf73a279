//! Made-up memories with no more words than are found to matter, and small ones where they do.
ghost use Rattle.std.specs.Prelude.{IfOk};
ghost use Rattle.iloc_comparison.specs.Memory.{memory_of};
ghost use Rattle.iloc_comparison.specs.Steps.Refuting.{DiffersAt};

use crate::refutation::{Refutation, Trial, refutation_on};
use iloc_ops::NoMemory;
use std::alloc::Global;

/// How many words at a time are made how low, one round after another: 0 for halves of the 64 that are made up at most,
/// down to single ones, then small words.
const ROUNDS: [(usize, u32); 9] = [
    (32, 0),
    (16, 0),
    (8, 0),
    (4, 0),
    (2, 0),
    (1, 0),
    (1, 1),
    (1, 2),
    (1, 4),
];

/// Makes words of `used`, as many at a time as `round` says, no higher than it says, where that leaves a difference.
fn lowered(
    alloc: Global,
    trial: &Trial<'_>,
    found: Refutation,
    used: &[usize],
    round: (usize, u32),
    reruns: &mut usize,
) -> Result<Refutation, NoMemory>
    requires differs { DiffersAt trial.now (memory_of found.probe) found.difference }
    ensures { IfOk result (λ it. DiffersAt trial.now (memory_of it.probe) it.difference) }
{
    let mut kept = found;
    let (at_a_time, most) = round;
    for part in used.chunks(at_a_time.max(1)) {
        let probe = kept.probe.lowered(alloc, part, most)?;
        if *reruns == 0 || probe == kept.probe {
            continue;
        }
        *reruns -= 1;
        if let Some(shorter) = refutation_on(alloc, trial, probe)? {
            kept = shorter;
        }
    }
    Ok(kept)
}

/// A difference on a memory with no more words than are found to matter. Halves of the words, then quarters and so on down
/// to single words are made 0 where there is a difference still, and what is left is made 1, 2 or 4; then the zeros at both
/// ends are left out.
///
/// For each word that matters block and rows are run again some 15 times.
pub(crate) fn shortened(
    alloc: Global,
    trial: &Trial<'_>,
    found: Refutation,
    most_reruns: usize,
) -> Result<Refutation, NoMemory>
    requires { DiffersAt trial.now (memory_of found.probe) found.difference }
    ensures { IfOk result (λ it. DiffersAt trial.now (memory_of it.probe) it.difference) }
{
    let mut kept = found;
    let mut reruns = most_reruns;
    let used = kept.probe.used(alloc)?;
    for round in ROUNDS {
        kept = lowered(alloc, trial, kept, &used, round, &mut reruns)?;
    }
    let probe = kept.probe.trimmed(alloc)?;
    match refutation_on(alloc, trial, probe)? {
        Some(trimmed) => Ok(trimmed),
        None => Ok(kept),
    }
}

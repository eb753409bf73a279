//! Of which operations of rows the results are read.
ghost use Rattle.std.specs.Prelude.{IfOk, OnOk, ◌≢◌, None, ℕ};
ghost use Rattle.std.specs.BTreeMap.{get};
ghost use Rattle.std.specs.Ordering.{nat_cmp};
ghost use Rattle.iloc_reasons.specs.Steps.Sides.{AreNoted, IsNoted};

use crate::claim::source_at;
use iloc_facts::Reading;
use iloc_ops::NoMemory;
use std::alloc::Global;
use std::collections::BTreeMap;

/// Notes that the result of an operation is read by operation k.
fn note(read: &mut BTreeMap<usize, usize>, source: Option<usize>, k: usize) -> Result<(), NoMemory>
    ensures own { OnOk result (IsNoted read.new source) }
    ensures others { OnOk result ((j : ℕ) → get nat_cmp read.old j ≢ None → get nat_cmp read.new j ≢ None) }
{
    if let Some(j) = source {
        read.insert(j, k)?;
    }
    Ok(())
}

/// The operations of rows whose results are read, each with one that reads it.
pub(crate) fn read_by_some(
    alloc: Global,
    readings: &[Reading],
) -> Result<BTreeMap<usize, usize>, NoMemory>
    ensures { IfOk result (AreNoted readings.now) }
{
    let mut read = BTreeMap::new(alloc);
    for (k, reading) in readings.iter().enumerate() {
        note(&mut read, source_at(reading.sources, 0), k)?;
        note(&mut read, source_at(reading.sources, 1), k)?;
    }
    Ok(read)
}

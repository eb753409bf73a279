//! The longest chain of delays through each operation: what is left to the longest of all is the operation's slack.
ghost use Rattle.std.specs.Prelude.{ℕ, ◌≡◌, ◌<◌, ◌+◌, ◌^◌, length, map, slice_index, OnOk};
ghost use Rattle.std.specs.List.{range_with_len};
ghost use Rattle.iloc_rules.specs.Heuristics.{through_where};
ghost use Rattle.iloc_rules.specs.Rule.{counts_by};
ghost use Rattle.iloc_sched.specs.Steps.Edges.SoundGraph.{IsSound};

use crate::ranking::priority::fill_chains;
use crate::ranking::starts::fill_starts;
use crate::tables::Tables;
use iloc_ops::NoMemory;
use std::alloc::Global;

/// Adds to each number of `sums` the number of `others` in its place.
fn add_each(sums: &mut Vec<u32>, others: &[u32])
    requires size { length others.now ≡ length sums.old.items }
    requires small { (i : ℕ) → i < length others.now
        → slice_index sums.old.items i + slice_index others.now i < 2 ^ 32 }
    ensures each { (i : ℕ) → i < length others.now
        → slice_index sums.new.items i ≡ slice_index others.now i + slice_index sums.old.items i }
    ensures size { length sums.new.items ≡ length sums.old.items }
{
    for i in 0..others.len() {
        sums[i] += others[i];
    }
}

/// Fills a list with the longest chain through each operation: its start and the longest chain from it together.
pub(crate) fn fill_through(
    found: &mut Vec<u32>,
    alloc: Global,
    tables: &Tables,
) -> Result<(), NoMemory>
    requires { IsSound tables.now }
    ensures { OnOk result (found.new.items
        ≡ map (through_where (counts_by tables.now.rule tables.now.ops.items) tables.now.latencies tables.now.ops.items)
        (range_with_len 0 (length tables.now.ops.items))) }
{
    let mut starts = Vec::new(alloc);
    fill_starts(&mut starts, tables)?;
    fill_chains(found, tables)?;
    add_each(found, &starts);
    Ok(())
}

//! How many operations depend on each.
ghost use Rattle.std.specs.Prelude.{ℕ, ◌≡◌, ◌<◌, ◌+◌, ◌^◌, length, map, slice_index, replicate, count_ones, OnOk};
ghost use Rattle.std.specs.Int.{bit_at};
ghost use Rattle.std.specs.List.{range_with_len};
ghost use Rattle.iloc_rules.specs.Heuristics.{descendants_where};
ghost use Rattle.iloc_rules.specs.Rule.{counts_by};
ghost use Rattle.iloc_sched.specs.Steps.Ranking.Dependents.{AreMarked};
ghost use Rattle.iloc_sched.specs.Steps.Edges.SoundGraph.{IsSound};

use crate::tables::Tables;
use iloc_ops::NoMemory;
use std::alloc::Global;

/// An operation before the 64 from `base` on, or among them, as a set: empty where it is none of them.
fn own(to: u32, base: u32) -> u64
    requires { to < base + 64 }
    ensures only { (b : ℕ) → b < 64 → bit_at result b ≡ 1 → to ≡ base + b }
    ensures all { (b : ℕ) → b < 64 → to ≡ base + b → bit_at result b ≡ 1 }
{
    if base <= to { 1 << (to - base) } else { 0 }
}

/// Finds for each operation which of the 64 from `base` on depend on it.
fn mark(masks: &mut Vec<u64>, tables: &Tables, base: u32)
    requires sound { IsSound tables.now }
    requires zeros { masks.old.items ≡ replicate (length tables.now.edges.heads.items) 0 }
    ensures { AreMarked (counts_by tables.now.rule tables.now.ops.items) tables.now.latencies tables.now.ops.items base masks.new.items }
{
    let edges = &tables.edges;
    // No operation after them depends on one of them.
    let end = edges.op_count().min(base as usize + 64);
    for x in (0..edges.start(end) as usize).rev() {
        let edge = edges.get(x);
        let behind = masks[edge.to as usize] | own(edge.to, base);
        let source = edge.from as usize;
        masks[source] = masks[source] | behind;
    }
}

/// Adds to each number how many bits are set in the word in its place.
fn add_counts(counts: &mut Vec<u32>, masks: &[u64])
    requires size { length masks.now ≡ length counts.old.items }
    requires small { (i : ℕ) → i < length masks.now → slice_index counts.old.items i + 64 < 2 ^ 32 }
    ensures each { (i : ℕ) → i < length masks.now → (slice_index masks.now i < 2 ^ 64)
        × (slice_index counts.new.items i ≡ slice_index counts.old.items i + count_ones (slice_index masks.now i)) }
    ensures size { length counts.new.items ≡ length counts.old.items }
{
    for i in 0..masks.len() {
        counts[i] += masks[i].count_ones();
    }
}

/// Fills a list with how many operations depend on each: 64 operations at a time are followed along all edges, so that it
/// takes time in n * n / 64 and memory in n.
pub(crate) fn count_descendants(
    found: &mut Vec<u32>,
    alloc: Global,
    tables: &Tables,
) -> Result<(), NoMemory>
    requires { IsSound tables.now }
    ensures { OnOk result (found.new.items
        ≡ map (descendants_where (counts_by tables.now.rule tables.now.ops.items) tables.now.latencies tables.now.ops.items)
        (range_with_len 0 (length tables.now.ops.items))) }
{
    let count = tables.edges.op_count();
    found.clear();
    found.resize(count, 0)?;
    let mut masks = Vec::new(alloc);
    for chunk in 0..count.div_ceil(64) {
        masks.clear();
        masks.resize(count, 0)?;
        mark(&mut masks, tables, 64 * chunk as u32);
        add_counts(found, &masks);
    }
    Ok(())
}

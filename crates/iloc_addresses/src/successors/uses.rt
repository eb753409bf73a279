//! The operations that use the results of others.
ghost use Rattle.std.specs.Prelude.{ℕ, ◌≡◌, ◌+◌, ◌*◌, ◌<◌, ◌≤◌, ◌&&◌, if◌then◌else◌, not, length, map, true, slice_index, IfOk};
ghost use Rattle.std.specs.List.{range_with_len};
ghost use Rattle.iloc_rules.specs.Apart.{apart_if_both};
ghost use Rattle.iloc_rules.specs.Renaming.{IsRenamed};
ghost use Rattle.iloc_addresses.specs.Steps.Successors.{is_by_memory, is_number, uses_before, waits_by_memory};

use super::definers::Definers;
use crate::words::are_apart;
use iloc_ops::{MAX_OPS, NoMemory, Op};
use iloc_rules::Word;
use iloc_timed::Kind;
use std::alloc::Global;

/// Whether the addresses of two operations are apart.
fn apart_if_both(first: Option<Word>, second: Option<Word>) -> bool
    ensures { result ≡ apart_if_both first second }
{
    match (first, second) {
        (Some(first), Some(second)) => are_apart(first, second),
        (None, _) | (Some(_), None) => false,
    }
}

/// Whether an operation of kind `second` at the address `other` waits for an earlier one of kind `first` at `address`,
/// by memory or outputs.
fn waits_by_memory(first: Kind, address: Option<Word>, second: Kind, other: Option<Word>) -> bool
    ensures { result ≡ waits_by_memory first address second other }
{
    match (first, second) {
        (Kind::Store, Kind::Store) | (Kind::Output, Kind::Output) => true,
        (Kind::Load | Kind::Output, Kind::Store) | (Kind::Store, Kind::Load | Kind::Output) => {
            !apart_if_both(address, other)
        }
        _ => false,
    }
}

/// Counts operation j as one that waits for its source, if it has one and doesn't wait for that by memory anyway.
fn count_use(
    found: &mut Vec<u32>,
    source: Option<u32>,
    ops: &[Op],
    addresses: &[Option<Word>],
    j: usize,
)
    requires there { j < length ops.now }
    requires source { (i : ℕ) → is_number i source ≡ true → i < j }
    requires reached { length addresses.now ≡ length ops.now }
    requires size { length found.old.items ≡ length ops.now }
    requires small { (i : ℕ) → slice_index found.old.items i ≤ 2 * MAX_OPS }
    ensures each { (i : ℕ) → slice_index found.new.items i ≡ slice_index found.old.items i
        + (if is_number i source && not (is_by_memory ops.now addresses.now i j) then 1 else 0) }
    ensures size { length found.new.items ≡ length found.old.items }
{
    if let Some(i) = source {
        let i = i as usize;
        if !waits_by_memory(
            Kind::of(&ops[i]),
            addresses[i],
            Kind::of(&ops[j]),
            addresses[j],
        ) {
            found[i] += 1;
        }
    }
}

/// By operation how many later ones use its result, and don't wait for it by memory anyway.
pub(crate) fn count_uses(
    alloc: Global,
    ops: &[Op],
    addresses: &[Option<Word>],
) -> Result<Vec<u32>, NoMemory>
    requires renamed { IsRenamed ops.now }
    requires few { length ops.now ≤ MAX_OPS }
    requires reached { length addresses.now ≡ length ops.now }
    ensures { IfOk result (λ found. found.items
        ≡ map (λ i. uses_before ops.now addresses.now i (length ops.now)) (range_with_len 0 (length ops.now))) }
{
    let mut definers = Definers::new(alloc);
    let mut found = vec![in alloc; 0; ops.len()]?;
    for (j, op) in ops.iter().enumerate() {
        let (first, second) = definers.sources(op);
        count_use(&mut found, first, ops, addresses, j);
        count_use(&mut found, second, ops, addresses, j);
        definers.take(op, j as u32)?;
    }
    Ok(found)
}

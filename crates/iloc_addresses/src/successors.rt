//! How many operations wait for each directly, by a rule of memory.
ghost use Rattle.std.specs.Prelude.{◌≡◌, ◌≤◌, length, map, IfOk};
ghost use Rattle.std.specs.List.{range_with_len};
ghost use Rattle.iloc_timed.specs.Kinds.{kind};
ghost use Rattle.iloc_timed.specs.declared.latencies.Latencies.{Latencies};
ghost use Rattle.iloc_rules.specs.Heuristics.{successors_where};
ghost use Rattle.iloc_rules.specs.Renaming.{IsRenamed};
ghost use Rattle.iloc_rules.specs.Rule.{counts_by};
ghost use Rattle.iloc_addresses.specs.Steps.Successors.{AreReached, one_address};

mod address_counts;
mod definers;
mod later;
mod uses;

use crate::known_addresses;
use iloc_ops::{MAX_OPS, NoMemory, Op};
use iloc_rules::{MemoryRule, Word};
use iloc_timed::Kind;
use later::Later;
use std::alloc::Global;
use uses::count_uses;

/// The one address that is taken for all, where `kind` is ordered by memory or outputs.
fn one_address(kind: Kind) -> Option<Word>
    ensures { result ≡ one_address kind }
{
    match kind {
        Kind::Load | Kind::Store | Kind::Output => Some(Word::Known(0)),
        Kind::Mult | Kind::Other => None,
    }
}

/// By operation of `ops` the one address that is taken for all, where memory or outputs order it.
fn one_address_each(alloc: Global, ops: &[Op]) -> Result<Vec<Option<Word>>, NoMemory>
    ensures { IfOk result (λ reached. reached.items ≡ map (λ op. one_address (kind op)) ops.now) }
{
    let mut reached = Vec::new(alloc);
    for op in ops {
        reached.push(one_address(Kind::of(op)))?;
    }
    Ok(reached)
}

/// The addresses of `ops` by which they wait for each other as by `rule`: the known ones, or by the book one for all.
fn reached_by(alloc: Global, rule: MemoryRule, ops: &[Op]) -> Result<Vec<Option<Word>>, NoMemory>
    requires { length ops.now ≤ MAX_OPS }
    ensures { IfOk result (λ reached. AreReached (counts_by rule ops.now) ops.now reached.items) }
{
    match rule {
        MemoryRule::Address => known_addresses(alloc, ops),
        MemoryRule::Book => one_address_each(alloc, ops),
    }
}

/// Promise: By operation how many later ones have to wait for it directly, whatever the latencies, by `rule`.
///
/// It takes time of order n log n.
pub fn count_successors(alloc: Global, rule: MemoryRule, ops: &[Op]) -> Result<Vec<u32>, NoMemory>
    requires renamed { IsRenamed ops.now }
    requires few { length ops.now ≤ MAX_OPS }
    ensures { IfOk result (λ found. (lat : Latencies) → found.items
        ≡ map (successors_where (counts_by rule ops.now) lat ops.now) (range_with_len 0 (length ops.now))) }
{
    let addresses = reached_by(alloc, rule, ops)?;
    let mut found = count_uses(alloc, ops, addresses.as_slice())?;
    let mut later = Later::new(alloc);
    for j in (0..ops.len()).rev() {
        if let Some(address) = addresses[j] {
            let kind = Kind::of(&ops[j]);
            found[j] += later.waiting_for(kind, address);
            later.note(kind, address)?;
        }
    }
    Ok(found)
}

//! What is known of the addresses that operations reach.
ghost use Rattle.std.specs.Prelude.{◌≡◌, ◌≤◌, length, map, IfOk};
ghost use Rattle.std.specs.List.{range_with_len};
ghost use Rattle.iloc_rules.specs.Apart.{address_at};

use crate::registers::KnownRegisters;
use iloc_ops::{MAX_OPS, NoMemory, Op};
use iloc_rules::Word;
use std::alloc::Global;

/// Promise: By operation what is known of its address, if it has one, where `ops` are executed in order and all
/// registers are 0 at first.
///
/// It takes time of order n log n.
pub fn known_addresses(alloc: Global, ops: &[Op]) -> Result<Vec<Option<Word>>, NoMemory>
    requires { length ops.now ≤ MAX_OPS }
    ensures { IfOk result (λ found. found.items ≡ map (address_at ops.now) (range_with_len 0 (length ops.now))) }
{
    let mut registers = KnownRegisters::new(alloc);
    registers.clear(3 * ops.len());
    let mut found = Vec::new(alloc);
    for (i, op) in ops.iter().enumerate() {
        found.push(registers.address_of(op))?;
        registers.take(op, i as u32)?;
    }
    Ok(found)
}

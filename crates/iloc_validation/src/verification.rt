//! Whether rows are a schedule of a block under a pairing of their operations.
ghost use Rattle.std.specs.Prelude.{◌≡◌, ◌<◌, ◌↔◌, length, slice_index, IsTrue, IfOk};
ghost use Rattle.iloc_validation.specs.Steps.Pairing.{IsKept, IsUnder};

mod waits;

use crate::numbers::{are_same, by_numbers};
use crate::pairing::Pairing;
use iloc_facts::{Sides, have_one_label};
use iloc_ops::NoMemory;
use std::alloc::Global;
use waits::waits_of;

/// Whether operation k of the rows has the label of the one that it is paired with, reads what that one reads, and waits
/// for what memory and outputs make it wait for.
fn is_kept(sides: &Sides, pairing: &Pairing, waits: &[usize], k: usize) -> bool
    requires there { k < length sides.now.readings.items }
    requires origins { length pairing.now.origin.items ≡ length sides.now.schedule.now.ops }
    requires known { slice_index pairing.now.origin.items k < length sides.now.block.items }
    requires waits { length waits.now ≡ length sides.now.block.items }
    ensures { IsTrue result ↔ IsKept sides.now waits.now pairing.now.origin.items k }
{
    let i = pairing.origin[k];
    let reading = sides.readings[k];
    have_one_label(&sides.schedule.ops()[k], &sides.block[i])
        && are_same(
            by_numbers(reading.sources, &pairing.origin),
            sides.givens[i],
        )
        && waits[i] <= reading.cycle
}

/// Whether rows are a schedule of a block by the book under this pairing.
pub(crate) fn is_schedule_under(
    alloc: Global,
    sides: &Sides,
    pairing: &Pairing,
) -> Result<bool, NoMemory>
    requires origins { length pairing.now.origin.items ≡ length sides.now.schedule.now.ops }
    requires partners { length pairing.now.partner.items ≡ length sides.now.block.items }
    ensures { IfOk result (λ are. IsTrue are ↔ IsUnder sides.now
        (slice_index pairing.now.origin.items) (slice_index pairing.now.partner.items)) }
{
    if !pairing.is_one_to_one() {
        return Ok(false);
    }
    let waits = waits_of(
        alloc,
        &sides.block,
        &pairing.partner,
        &sides.readings,
        sides.latencies,
    )?;
    for k in 0..sides.readings.len() {
        if !is_kept(sides, pairing, &waits, k) {
            return Ok(false);
        }
    }
    Ok(true)
}

//! The slots that operations are in.
ghost use Rattle.std.specs.Prelude.{ℕ, ◌≡◌, ◌+◌, ◌<◌, min, length, slice_index, count_by, option_to_list, ◌==◌, MatchOption, IfOk, IfSome};
ghost use Rattle.iloc_timed.specs.Rows.{times_issued};
ghost use Rattle.iloc_timed.specs.Schedule.{AreSound, AreInRange, AreOnce, IsFirstBadRow, IsFirstNotOnce};

use crate::row::Row;
use iloc_ops::Op;
use std::alloc::{AllocError, Global};

/// The first row with a number that isn't an operation's or with a broken rule of the units.
pub(crate) fn first_bad_row(ops: &[Op], rows: &[Row]) -> Option<usize>
    ensures { MatchOption result (AreSound ops.now rows.now) (IsFirstBadRow ops.now rows.now) }
{
    rows.iter().position(|row| !row.is_sound(ops))
}

/// Counts the operation in a slot, up to 255.
fn count_slot(times: &mut [u8], slot: Option<usize>)
    requires { IfSome slot (λ i. i < length times.old) }
    ensures { (i : ℕ) → i < length times.new
        → slice_index times.new i ≡
        min 255 (slice_index times.old i + count_by (λ j. i == j) (option_to_list slot)) }
{
    if let Some(i) = slot {
        times[i] = times[i].saturating_add(1);
    }
}

/// Counts the operations in the slots of rows, each up to 255.
fn count_rows(times: &mut [u8], rows: &[Row])
    requires { AreInRange (length times.old) rows.now }
    ensures { (i : ℕ) → i < length times.new
        → slice_index times.new i ≡ min 255 (slice_index times.old i + times_issued rows.now i) }
{
    for row in rows {
        count_slot(times, row.zero);
        count_slot(times, row.one);
    }
}

/// The first of `op_count` operations that isn't in exactly one slot.
pub(crate) fn first_not_once(
    alloc: Global,
    op_count: usize,
    rows: &[Row],
) -> Result<Option<usize>, AllocError>
    requires { AreInRange op_count rows.now }
    ensures { IfOk result (λ found. MatchOption found (AreOnce op_count rows.now) (IsFirstNotOnce op_count rows.now)) }
{
    let mut times = vec![in alloc; 0; op_count]?;
    count_rows(&mut times, rows);
    Ok(times.iter().position(|&times| times != 1))
}

//! The cycles at which operations are issued.
ghost use Rattle.std.specs.Prelude.{◌≡◌, ◌<◌, ℕ, length, IfOk, IfSome, slice_index};
ghost use Rattle.iloc_timed.specs.Rows.{issue_cycle};
ghost use Rattle.iloc_explain.specs.Steps.Issued.{with_slot};

use iloc_ops::NoMemory;
use iloc_timed::Schedule;
use std::alloc::Global;

/// Notes the cycle of what a slot holds.
fn note(cycles: &mut Vec<usize>, slot: Option<usize>, cycle: usize)
    requires { IfSome slot (λ i. i < length cycles.old.items) }
    ensures { cycles.new.items ≡ with_slot cycles.old.items slot cycle }
{
    if let Some(i) = slot {
        cycles[i] = cycle;
    }
}

/// By operation of a schedule the cycle at which it is issued.
pub(crate) fn issue_cycles(alloc: Global, schedule: &Schedule) -> Result<Vec<usize>, NoMemory>
    ensures size { IfOk result (λ cycles. length cycles.items ≡ length schedule.now.ops) }
    ensures each { IfOk result (λ cycles. (i : ℕ) → i < length schedule.now.ops
        → slice_index cycles.items i ≡ issue_cycle schedule.now.rows i) }
{
    let ops = schedule.ops();
    let mut cycles = vec![in alloc; 0; ops.len()]?;
    for (cycle, row) in schedule.rows().iter().enumerate() {
        note(&mut cycles, row.zero, cycle);
        note(&mut cycles, row.one, cycle);
    }
    Ok(cycles)
}

//! What takes the rows of a schedule.
ghost use Rattle.std.specs.Prelude.{ℤ, ◌≡◌, ◌+◌, ◌^◌, ◌<◌, ◌≤◌, List, [], ◌∷◌, ◌++◌, length, map, get_or, unwrap_or, option_map, IfSome, OnOk};
ghost use Rattle.iloc_ops.specs.declared.op.Op.{Op as op_value};
ghost use Rattle.iloc_timed.specs.declared.latencies.Latencies.{Latencies};
ghost use Rattle.iloc_timed.specs.declared.row.Row.{Row as row_value};
ghost use Rattle.iloc_timed.specs.Latency.{latency};

use iloc_ops::{NoMemory, Op};
use iloc_timed::{MAX_ROWS, Machine, Row};

/// Takes the rows of a schedule, one after another.
pub trait TakeRows {
    // With latencies and a schedule's operations: from the first state to the second one it took the rows between the two.
    ghost took: { Latencies → List op_value → Self → List row_value → Self → Type 0 };

    // What no row changes, whether or not it is taken.
    ghost kept: { Self → List ℤ };

    /// Takes the row of the cycle `cycle`. The schedule's operations are `ops`, and `own` has the latency of each.
    ///
    /// Promise: after it the taker has taken this row after all earlier ones.
    fn take(&mut self, ops: &[Op], own: &[u32], row: Row, cycle: u32) -> Result<(), NoMemory>
        requires zero { IfSome row.zero (λ i. i < length ops.now) }
        requires one { IfSome row.one (λ i. i < length ops.now) }
        requires own { (lat : Latencies) × (own.now ≡ map (latency lat) ops.now) }
        requires early { cycle ≤ MAX_ROWS }
        ensures kept { kept self.new ≡ kept self.old }
        ensures took { (lat : Latencies) (start : Self) (rows : List row_value) → own.now ≡ map (latency lat) ops.now
            → took lat ops.now start rows self.old → length rows ≡ cycle
            → OnOk result (took lat ops.now start (rows ++ row ∷ []) self.new) };

    // At first it took none.
    ghost took_none: { (lat : Latencies) (ops : List op_value) (start : Self) → took lat ops start [] start };
}

impl TakeRows for Vec<Row> {
    ghost use Rattle.std.specs.Prelude.{◌≡◌, [], ◌++◌};
    ghost use Rattle.std.proofs.Common.{sym, append-nil};

    ghost took = { λ _ _ start rows now. now.items ≡ start.items ++ rows };

    ghost kept = { λ _. [] };

    #[inline(always)]
    fn take(&mut self, _ops: &[Op], _own: &[u32], row: Row, _cycle: u32) -> Result<(), NoMemory> {
        Ok(self.push(row)?)
    }

    ghost took_none = { λ _ _ start. sym (append-nil start.items) };
}

/// When the result of what is issued in a slot arrives; 0 for an empty slot.
#[inline(always)]
fn arrival(own: &[u32], slot: Option<usize>, cycle: u32) -> u32
    requires issued { IfSome slot (λ i. i < length own.now) }
    requires early { IfSome slot (λ i. cycle + get_or own.now i 0 < 2 ^ 32) }
    ensures { result ≡ unwrap_or (option_map (λ i. cycle + get_or own.now i 0) slot) 0 }
{
    match slot {
        Some(i) => cycle + own[i],
        None => 0,
    }
}

/// How many cycles the rows take that it has taken.
#[derive(Drop)]
pub struct CountCycles {
    pub cycles: u32,
}

impl TakeRows for CountCycles {
    ghost use Rattle.std.specs.Prelude.{[]};
    ghost use Rattle.iloc_sched.specs.Counted.{IsLatest, none_later};

    ghost took = { λ lat ops start rows now. IsLatest lat ops start.cycles rows now.cycles };

    ghost kept = { λ _. [] };

    #[inline(always)]
    fn take(&mut self, _ops: &[Op], own: &[u32], row: Row, cycle: u32) -> Result<(), NoMemory> {
        let zero = arrival(own, row.zero, cycle);
        let one = arrival(own, row.one, cycle);
        self.cycles = self.cycles.max(zero).max(one);
        Ok(())
    }

    ghost took_none = { λ lat ops start. none_later lat ops start.cycles };
}

impl TakeRows for Machine {
    ghost use Rattle.std.specs.Prelude.{[]};
    ghost use Rattle.iloc_timed.specs.RowByRow.{HasRun};

    ghost took = { λ lat ops start rows now. HasRun lat ops [] start → HasRun lat ops rows now };

    ghost kept = { λ machine. machine.state.memory.first };

    #[inline(always)]
    fn take(&mut self, ops: &[Op], own: &[u32], row: Row, cycle: u32) -> Result<(), NoMemory> {
        self.take_row(ops, own, row, cycle as usize)
    }

    ghost took_none = { λ _ _ _ begun. begun };
}

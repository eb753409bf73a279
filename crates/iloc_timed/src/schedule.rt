//! Schedules: operations, and the rows in which they are issued.
ghost use Rattle.std.specs.Prelude.{◌≡◌, ◌≤◌, length, vec_len, IfOk, OnOk, IfErr};
ghost use Rattle.iloc_timed.specs.Rows.{IsTable};
ghost use Rattle.iloc_timed.specs.Schedule.{IsReason};

mod slots;

use crate::build_fault::BuildFault;
use crate::row::Row;
use iloc_ops::Op;
use slots::{first_bad_row, first_not_once};
use std::alloc::{AllocError, Global};
use std::marker::Model;

/// The most rows that a schedule may have.
pub const MAX_ROWS: usize = 4_000_000_000;

/// Operations, and the rows in which they are issued, the first in cycle 0.
///
/// Promise: each number in a row is an operation's, each operation is in exactly one slot, and each row keeps the rules of
/// the units: loads and stores on unit 0, products on unit 1, at most one output.
#[derive(Debug, Drop)]
pub struct Schedule {
    ops: Vec<Op>,
    rows: Vec<Row>,
}

impl Model for Schedule {
    ghost use Rattle.std.specs.Prelude.{◌≤◌, vec_len};
    ghost use Rattle.iloc_timed.specs.Rows.{IsTable};
    ghost use Rattle.iloc_timed.specs.Limits.{MAX_ROWS};
    ghost use Rattle.iloc_timed.specs.Schedule.{Table};

    ghost Value = { Table };

    ghost view = { λ schedule. record { ops = schedule.ops.items; rows = schedule.rows.items } };

    ghost invariant = { λ schedule. IsTable schedule.ops.items schedule.rows.items × (vec_len schedule.rows ≤ MAX_ROWS) };
}

impl Schedule {
    /// The schedule of these operations in these rows, of which there are at most `MAX_ROWS`.
    ///
    /// Promise: a schedule comes only of rows that keep the rules, and has just these operations and rows; a fault names
    /// the first row that breaks a rule, or else the first operation that isn't in exactly one slot.
    ///
    /// The rows are visited twice and the operations once. After a fault, as after a refusal of memory, both lists are
    /// dropped.
    pub fn new(alloc: Global, ops: Vec<Op>, rows: Vec<Row>) -> Result<Schedule, BuildFault>
        requires { vec_len rows ≤ MAX_ROWS }
        ensures table { OnOk result (IsTable ops.items rows.items) }
        ensures ops { IfOk result (λ schedule. schedule.ops ≡ ops.items) }
        ensures rows { IfOk result (λ schedule. schedule.rows ≡ rows.items) }
        ensures reason { IfErr result (IsReason ops.items rows.items) }
    {
        if let Some(c) = first_bad_row(&ops, &rows) {
            return Err(BuildFault::BadRow(c));
        }
        if let Some(i) = first_not_once(alloc, ops.len(), &rows)? {
            return Err(BuildFault::NotOnce(i));
        }
        Ok(Schedule { ops, rows })
    }

    /// Promise: the schedule of `ops` in `rows`, which are known to keep the rules.
    pub fn of_table(ops: Vec<Op>, rows: Vec<Row>) -> Schedule
        requires table { IsTable ops.items rows.items }
        requires few { vec_len rows ≤ MAX_ROWS }
        ensures ops { result.ops ≡ ops.items }
        ensures rows { result.rows ≡ rows.items }
    {
        Schedule { ops, rows }
    }

    /// Promise: gives back the operations and the rows, which keep the rules.
    pub fn into_parts(self) -> (Vec<Op>, Vec<Row>)
        ensures ops { result.0.items ≡ self.ops }
        ensures rows { result.1.items ≡ self.rows }
        ensures table { IsTable result.0.items result.1.items }
    {
        (self.ops, self.rows)
    }

    /// Promise: lends the operations, by their numbers.
    pub fn ops(&self) -> &[Op]
        ensures ops { result.now ≡ self.now.ops }
        ensures table { IsTable self.now.ops self.now.rows }
    {
        self.ops.as_slice()
    }

    /// Promise: lends the rows, by their cycles, 4,000,000,000 at most.
    pub fn rows(&self) -> &[Row]
        ensures rows { result.now ≡ self.now.rows }
        ensures few { length self.now.rows ≤ MAX_ROWS }
    {
        self.rows.as_slice()
    }
}

impl Clone for Schedule {
    ghost is_clone = { λ schedule copy. copy ≡ schedule };

    fn clone(&self) -> Result<Schedule, AllocError> {
        let alloc = *self.ops.allocator();
        Ok(Schedule {
            ops: Vec::from_slice(alloc, &self.ops)?,
            rows: Vec::from_slice(alloc, &self.rows)?,
        })
    }
}

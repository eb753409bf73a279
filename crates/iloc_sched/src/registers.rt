//! The registers of an operation.
ghost use Rattle.std.specs.Prelude.{◌≡◌};
ghost use Rattle.iloc_ops.specs.Registers.{used};
ghost use Rattle.iloc_sched.specs.Steps.Renaming.Registers.{listed};

use iloc_ops::{Op, Reg, defines, uses};

/// The registers that an operation uses, left to right.
#[derive(Clone, Copy)]
pub enum Uses {
    Nothing,
    One(Reg),
    Two(Reg, Reg),
}

/// The registers that an operation uses and the one that it defines.
#[derive(Clone, Copy)]
pub struct OperandRegisters {
    pub uses: Uses,
    pub defines: Option<Reg>,
}

/// The registers that an operation uses.
fn uses_of(op: &Op) -> Uses
    ensures { listed result ≡ used op.now }
{
    match uses(op).as_slice() {
        [] => Uses::Nothing,
        [register] => Uses::One(*register),
        [left, right, ..] => Uses::Two(*left, *right),
    }
}

impl OperandRegisters {
    ghost use Rattle.iloc_sched.specs.Steps.Renaming.Registers.{AreRegistersOf};

    /// The registers of an operation.
    pub fn of(op: &Op) -> OperandRegisters
        ensures { AreRegistersOf op.now result }
    {
        OperandRegisters {
            uses: uses_of(op),
            defines: defines(op),
        }
    }
}

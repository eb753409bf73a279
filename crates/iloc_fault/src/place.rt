//! A place at which a block faults.
ghost use Rattle.std.specs.Prelude.{◌≡◌};
ghost use Rattle.iloc_meaning.specs.Registers.{value_of};
ghost use Rattle.iloc_fault.specs.Place.{reached};

use iloc_meaning::Registers;
use iloc_meaning::arithmetic::{constant, sum};
use iloc_ops::{Op, Reg};

/// Where a block faults.
#[derive(Clone, Copy, Debug, PartialEq, Eq)]
pub struct FaultPlace {
    /// How many operations precede the one that faults.
    pub operation: usize,
    /// The address that it reaches.
    pub address: i32,
}

/// The address that `op` reaches with `registers`, if it reaches one.
pub(crate) fn reached(op: &Op, registers: &Registers) -> Option<i32>
    ensures { result ≡ reached op.now (value_of registers.now) }
{
    let read = |register: Reg| registers.get(register);
    match *op {
        Op::Load { addr, .. } | Op::Store { addr, .. } => Some(read(addr)),
        Op::LoadAI { addr, offset, .. } | Op::StoreAI { addr, offset, .. } => {
            Some(sum(read(addr), constant(offset)))
        }
        Op::Output { addr } => Some(constant(addr)),
        _ => None,
    }
}

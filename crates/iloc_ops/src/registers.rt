//! The registers that an operation uses and the one that it defines.
ghost use Rattle.std.specs.Prelude.{◌≡◌};
ghost use Rattle.iloc_ops.specs.Registers.{used, defined};

use crate::forms::{Operands, form_of};
use crate::op::{Op, Reg};
use arrayvec::ArrayVec;

/// Promise: the registers whose values an operation uses, left to right as written; one that is written twice
/// comes twice.
pub fn uses(op: &Op) -> ArrayVec<Reg, 2>
    ensures { result.items ≡ used op.now }
{
    let mut registers = ArrayVec::new();
    match form_of(op).1 {
        Operands::Nothing | Operands::Constant(_) | Operands::Immediate(..) => {}
        Operands::Copied(source, _) => registers.push(source),
        Operands::WithConstant(left, ..) => registers.push(left),
        Operands::Stored(value, addr) | Operands::StoredAt(value, addr, _) => {
            registers.push(value);
            registers.push(addr);
        }
        Operands::Sources(left, right, _) => {
            registers.push(left);
            registers.push(right);
        }
    }
    registers
}

/// Promise: the register that an operation defines, or none if it defines none.
pub fn defines(op: &Op) -> Option<Reg>
    ensures { result ≡ defined op.now }
{
    match form_of(op).1 {
        Operands::Immediate(_, dest)
        | Operands::Copied(_, dest)
        | Operands::Sources(_, _, dest)
        | Operands::WithConstant(_, _, dest) => Some(dest),
        Operands::Nothing | Operands::Constant(_) | Operands::Stored(..) | Operands::StoredAt(..) =>
            None,
    }
}

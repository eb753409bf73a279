//! Operations without their registers.
ghost use Rattle.std.specs.Prelude.{◌≡◌, ◌↔◌, IsTrue};
ghost use Rattle.iloc_ops.specs.Forms.{opcode};
ghost use Rattle.iloc_ops.specs.Operands.{operands_in};
ghost use Rattle.iloc_facts.specs.Labels.{label, constant, constant_among, label_key};
ghost use Rattle.iloc_facts.specs.Counts.{count_like};

use iloc_ops::{Op, Opcode, Operands, form_of, op_of};

/// The constant in operands, 0 where there is none.
fn constant_in(operands: Operands) -> u32
    ensures { result ≡ constant_among (operands_in operands) }
{
    match operands {
        Operands::Constant(value)
        | Operands::Immediate(value, _)
        | Operands::WithConstant(_, value, _)
        | Operands::StoredAt(_, _, value) => value,
        _ => 0,
    }
}

/// Promise: the opcode of an operation and its constant, 0 where it has none. Operations that differ in registers alone share
/// both.
pub fn opcode_and_constant(op: &Op) -> (Opcode, u32)
    ensures opcode { result.0 ≡ opcode op.now }
    ensures constant { result.1 ≡ constant op.now }
{
    let (opcode, operands) = form_of(op);
    (opcode, constant_in(operands))
}

/// An operation with its constant, or 0, in place of each register: operations that differ in registers alone share it.
pub(crate) fn label_key(op: &Op) -> Op
    ensures { result ≡ label_key op.now }
{
    let (opcode, constant) = opcode_and_constant(op);
    op_of(opcode, &[constant, constant, constant])
}

/// Promise: whether two operations differ in registers alone.
pub fn have_one_label(one: &Op, other: &Op) -> bool
    ensures { IsTrue result ↔ (label one.now ≡ label other.now) }
{
    label_key(one) == label_key(other)
}

/// How many operations have the label of this one.
pub(crate) fn count_like(op: &Op, ops: &[Op]) -> usize
    ensures { result ≡ count_like op.now ops.now }
{
    let mut count = 0;
    for other in ops {
        if have_one_label(op, other) {
            count += 1;
        }
    }
    count
}

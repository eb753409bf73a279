//! The operation of a line, scanned so that numbers above the limit count as `ABOVE_LIMIT`.
ghost use Rattle.std.specs.Prelude.{◌≡◌, option_map};
ghost use Rattle.iloc_ops.specs.Forms.{op_of};
ghost use Rattle.iloc_text.specs.Steps.Scan.{called_at, operation_at, optional_operation_at};

use crate::line::opcode::{opcode_of, shape_of};
use crate::line::operand::{
    number_behind_blank, number_behind_comma, register_behind_arrow, register_behind_blank,
    register_behind_comma,
};
use crate::line::scan::{is_word_byte, word_at};
use iloc_ops::{Op, Opcode, Operands, op_of};

/// The numbers after an opcode by their places, with 0 in each place that it doesn't have.
#[tactic(auto, using(crate::proofs::Zeros::zero_stands_for_none, crate::proofs::Zeros::zeros_stand_for_none, crate::proofs::Zeros::all_zeros_stand_for_none), unfolding(crate::specs::Steps::Scan::called_at, crate::specs::Steps::Scan::operand_then))]
fn numbers_at(opcode: Opcode, bytes: &[u8]) -> Option<([u32; 3], &[u8])>
    ensures { option_map (λ found. (op_of opcode found.0, found.1.now)) result ≡ called_at opcode bytes.now }
{
    match shape_of(opcode) {
        Operands::Nothing => Some(([0, 0, 0], bytes)),
        Operands::Constant(_) => {
            let (value, rest) = number_behind_blank(bytes)?;
            Some(([value, 0, 0], rest))
        }
        Operands::Immediate(..) => {
            let (value, rest) = number_behind_blank(bytes)?;
            let (dest, rest) = register_behind_arrow(rest)?;
            Some(([value, dest, 0], rest))
        }
        Operands::Copied(..) | Operands::Stored(..) => {
            let (source, rest) = register_behind_blank(bytes)?;
            let (target, rest) = register_behind_arrow(rest)?;
            Some(([source, target, 0], rest))
        }
        Operands::Sources(..) => {
            let (left, rest) = register_behind_blank(bytes)?;
            let (right, rest) = register_behind_comma(rest)?;
            let (dest, rest) = register_behind_arrow(rest)?;
            Some(([left, right, dest], rest))
        }
        Operands::WithConstant(..) => {
            let (left, rest) = register_behind_blank(bytes)?;
            let (value, rest) = number_behind_comma(rest)?;
            let (dest, rest) = register_behind_arrow(rest)?;
            Some(([left, value, dest], rest))
        }
        Operands::StoredAt(..) => {
            let (value, rest) = register_behind_blank(bytes)?;
            let (addr, rest) = register_behind_arrow(rest)?;
            let (offset, rest) = number_behind_comma(rest)?;
            Some(([value, addr, offset], rest))
        }
    }
}

/// The operation of an opcode and of the operands that follow it.
fn called_at(opcode: Opcode, bytes: &[u8]) -> Option<(Op, &[u8])>
    ensures { option_map (λ found. (found.0, found.1.now)) result ≡ called_at opcode bytes.now }
{
    let (numbers, rest) = numbers_at(opcode, bytes)?;
    Some((op_of(opcode, &numbers), rest))
}

/// An opcode and its operands.
#[tactic(auto, unfolding(crate::specs::Steps::Scan::operation_at))]
pub fn operation_at(bytes: &[u8]) -> Option<(Op, &[u8])>
    ensures { option_map (λ found. (found.0, found.1.now)) result ≡ operation_at bytes.now }
{
    let (word, rest) = word_at(bytes);
    called_at(opcode_of(word)?, rest)
}

/// An operation, or none if there is no word.
#[tactic(auto, unfolding(crate::specs::Steps::Scan::optional_operation_at))]
pub fn optional_operation_at(bytes: &[u8]) -> Option<(Option<Op>, &[u8])>
    ensures { option_map (λ found. (found.0, found.1.now)) result ≡ optional_operation_at bytes.now }
{
    match bytes {
        [first, ..] if is_word_byte(*first) => {
            let (op, rest) = operation_at(bytes)?;
            Some((Some(op), rest))
        }
        _ => Some((None, bytes)),
    }
}

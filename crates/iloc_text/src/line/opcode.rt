//! Opcodes as they are read.
ghost use Rattle.std.specs.Prelude.{◌≡◌, ◌≤◌, ◌++◌, IfSome, length, drop};
ghost use Rattle.iloc_ops.specs.Forms.{opcode_text};
ghost use Rattle.iloc_ops.specs.Operands.{operands_in};
ghost use Rattle.iloc_text.specs.Steps.Opcodes.{opcode_of, operands_of};

use crate::line::fast_path::word_from;
use crate::line::shape::Shape;
use iloc_ops::{OPCODES, Opcode, Operands, form_of, op_of};

/// The operands of an opcode, with 0 for each number.
#[inline(always)]
pub fn shape_of(opcode: Opcode) -> Operands
    ensures { operands_in result ≡ operands_of opcode }
{
    form_of(&op_of(opcode, &[])).1
}

/// The opcode that is written as `word`.
pub fn opcode_of(word: &[u8]) -> Option<Opcode>
    ensures { result ≡ opcode_of word.now }
{
    OPCODES.iter().copied().find(|opcode| opcode.text() == word)
}

/// The opcodes by their places in `opcode_by_letters`.
const BY_LETTERS: &[Opcode; 32] = &[
    Opcode::Nop,
    Opcode::Nop,
    Opcode::Store,
    Opcode::Nop,
    Opcode::Mult,
    Opcode::Nop,
    Opcode::Nop,
    Opcode::Nop,
    Opcode::Nop,
    Opcode::SubI,
    Opcode::Lshift,
    Opcode::LshiftI,
    Opcode::Nop,
    Opcode::Sub,
    Opcode::Output,
    Opcode::AddI,
    Opcode::Nop,
    Opcode::Nop,
    Opcode::Add,
    Opcode::Nop,
    Opcode::Nop,
    Opcode::LoadI,
    Opcode::StoreAI,
    Opcode::Nop,
    Opcode::Rshift,
    Opcode::RshiftI,
    Opcode::Load,
    Opcode::Nop,
    Opcode::LoadAI,
    Opcode::Nop,
    Opcode::Nop,
    Opcode::MultI,
];

/// The only opcode whose text may be the letters at the start of a line with `front` as its first eight bytes. By the
/// factor each opcode has a place of its own.
#[inline(always)]
fn opcode_by_letters(front: u64) -> Opcode {
    // The bytes without the bit that each letter has are no letters.
    let others = !front & 0x4040_4040_4040_4040;
    let letters = front & ((others ^ others.wrapping_sub(1)) >> 7);
    BY_LETTERS[(letters.wrapping_mul(0xbe3e_dc0a_1ef2_a4f1) >> 59) as usize]
}

/// The opcode at the front of the bytes, and the place after it.
///
/// Bytes are compared at once, and nothing jumps by the opcode: where the first letter picked a few opcodes to compare, `run`
/// mispredicted 1.6 branches more for each operation.
#[inline(always)]
pub fn opcode_at(bytes: &[u8]) -> Option<(Opcode, usize)>
    requires { 8 ≤ length bytes.now }
    ensures is { IfSome result (λ found. bytes.now ≡ opcode_text found.0 ++ drop found.1 bytes.now) }
    ensures near { IfSome result (λ found. found.1 ≤ 7) }
{
    let front = word_from(bytes, 0);
    let opcode = opcode_by_letters(front);
    let text = &Shape::of(opcode).text;
    if front & text.mask == text.word {
        Some((opcode, text.length))
    } else {
        None
    }
}

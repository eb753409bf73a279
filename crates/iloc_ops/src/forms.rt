//! The table of forms: the opcode and the operands of each operation, and the operation of an opcode and numbers.
ghost use Rattle.std.specs.Prelude.{◌≡◌, ◌≤◌, ◌<◌, length, get_or};
ghost use Rattle.std.specs.List.{AllByRecursion};
ghost use Rattle.iloc_ops.specs.Forms.{opcode, operands, opcode_text, op_of};
ghost use Rattle.iloc_ops.specs.Operands.{operands_in};
ghost use Rattle.iloc_ops.specs.Spelling.{word_text};

use crate::op::{Op, Reg};
use crate::spelling::{LAYOUTS, Word};

/// What an operation is called.
#[derive(Clone, Copy, Debug, PartialEq, Eq)]
pub enum Opcode {
    Load,
    LoadI,
    Store,
    Add,
    Sub,
    Mult,
    Lshift,
    Rshift,
    Output,
    Nop,
    AddI,
    SubI,
    MultI,
    LshiftI,
    RshiftI,
    LoadAI,
    StoreAI,
}

/// All opcodes.
pub const OPCODES: [Opcode; 17] = [
    Opcode::LoadI,
    Opcode::Load,
    Opcode::Store,
    Opcode::Add,
    Opcode::Sub,
    Opcode::Mult,
    Opcode::Lshift,
    Opcode::Rshift,
    Opcode::Output,
    Opcode::Nop,
    Opcode::AddI,
    Opcode::SubI,
    Opcode::MultI,
    Opcode::LshiftI,
    Opcode::RshiftI,
    Opcode::LoadAI,
    Opcode::StoreAI,
];

/// The operands of an operation: what follows its opcode.
#[derive(Clone, Copy)]
pub enum Operands {
    /// None.
    Nothing,
    /// `constant`.
    Constant(u32),
    /// `constant => defined`.
    Immediate(u32, Reg),
    /// `used => defined`.
    Copied(Reg, Reg),
    /// `used => used`.
    Stored(Reg, Reg),
    /// `used, used => defined`.
    Sources(Reg, Reg, Reg),
    /// `used, constant => defined`.
    WithConstant(Reg, u32, Reg),
    /// `used => used, constant`.
    StoredAt(Reg, Reg, u32),
}

impl Opcode {
    /// Promise: the text of an opcode as a word, of seven bytes at most.
    #[inline(always)]
    pub fn word(self) -> &'static Word
        ensures text { word_text result.now ≡ opcode_text self }
        ensures short { (0 < result.now.length) × (result.now.length ≤ 7) }
        ensures bytes { (length result.now.bytes ≡ 8) × AllByRecursion (λ b. b < 256) result.now.bytes }
    {
        &LAYOUTS[self as usize].opcode
    }

    /// Promise: the text of an opcode, of seven bytes at most.
    #[inline(always)]
    pub fn text(self) -> &'static [u8]
        ensures text { result.now ≡ opcode_text self }
        ensures short { length result.now ≤ 7 }
    {
        let word = self.word();
        &word.bytes[8 - word.length..]
    }
}

/// Promise: the opcode of an operation, and its operands from left to right.
#[inline(always)]
pub fn form_of(op: &Op) -> (Opcode, Operands)
    ensures opcode { result.0 ≡ opcode op.now }
    ensures operands { operands_in result.1 ≡ operands op.now }
{
    use Operands::{Constant, Copied, Immediate, Nothing, Sources, Stored, StoredAt, WithConstant};
    match *op {
        Op::Load { addr, dest } => (Opcode::Load, Copied(addr, dest)),
        Op::LoadI { value, dest } => (Opcode::LoadI, Immediate(value, dest)),
        Op::Store { value, addr } => (Opcode::Store, Stored(value, addr)),
        Op::Add { left, right, dest } => (Opcode::Add, Sources(left, right, dest)),
        Op::Sub { left, right, dest } => (Opcode::Sub, Sources(left, right, dest)),
        Op::Mult { left, right, dest } => (Opcode::Mult, Sources(left, right, dest)),
        Op::Lshift { left, right, dest } => (Opcode::Lshift, Sources(left, right, dest)),
        Op::Rshift { left, right, dest } => (Opcode::Rshift, Sources(left, right, dest)),
        Op::Output { addr } => (Opcode::Output, Constant(addr)),
        Op::Nop => (Opcode::Nop, Nothing),
        Op::AddI { left, value, dest } => (Opcode::AddI, WithConstant(left, value, dest)),
        Op::SubI { left, value, dest } => (Opcode::SubI, WithConstant(left, value, dest)),
        Op::MultI { left, value, dest } => (Opcode::MultI, WithConstant(left, value, dest)),
        Op::LshiftI { left, value, dest } => (Opcode::LshiftI, WithConstant(left, value, dest)),
        Op::RshiftI { left, value, dest } => (Opcode::RshiftI, WithConstant(left, value, dest)),
        Op::LoadAI { addr, offset, dest } => (Opcode::LoadAI, WithConstant(addr, offset, dest)),
        Op::StoreAI {
            value,
            addr,
            offset,
        } => (Opcode::StoreAI, StoredAt(value, addr, offset)),
    }
}

/// The number at a place, or 0 where there is none.
#[inline(always)]
fn number_at(numbers: &[u32], place: usize) -> u32
    ensures { result ≡ get_or numbers.now place 0 }
{
    numbers.get(place).copied().unwrap_or(0)
}

/// Promise: the operation that has `opcode` and `numbers`, from left to right, with 0 for each missing number.
#[inline(always)]
pub fn op_of(opcode: Opcode, numbers: &[u32]) -> Op
    ensures { result ≡ op_of opcode numbers.now }
{
    let first = number_at(numbers, 0);
    let value = number_at(numbers, 1);
    let third = number_at(numbers, 2);
    let (left, right, dest) = (Reg(first), Reg(value), Reg(third));
    match opcode {
        Opcode::Load => Op::Load {
            addr: left,
            dest: right,
        },
        Opcode::LoadI => Op::LoadI {
            value: first,
            dest: right,
        },
        Opcode::Store => Op::Store {
            value: left,
            addr: right,
        },
        Opcode::Add => Op::Add { left, right, dest },
        Opcode::Sub => Op::Sub { left, right, dest },
        Opcode::Mult => Op::Mult { left, right, dest },
        Opcode::Lshift => Op::Lshift { left, right, dest },
        Opcode::Rshift => Op::Rshift { left, right, dest },
        Opcode::Output => Op::Output { addr: first },
        Opcode::Nop => Op::Nop,
        Opcode::AddI => Op::AddI { left, value, dest },
        Opcode::SubI => Op::SubI { left, value, dest },
        Opcode::MultI => Op::MultI { left, value, dest },
        Opcode::LshiftI => Op::LshiftI { left, value, dest },
        Opcode::RshiftI => Op::RshiftI { left, value, dest },
        Opcode::LoadAI => Op::LoadAI {
            addr: left,
            offset: value,
            dest,
        },
        Opcode::StoreAI => Op::StoreAI {
            value: left,
            addr: right,
            offset: third,
        },
    }
}

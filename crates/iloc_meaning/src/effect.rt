//! What one operation does.
ghost use Rattle.std.specs.Prelude.{◌≡◌};
ghost use Rattle.iloc_meaning.specs.Address.{good_address};
ghost use Rattle.iloc_meaning.specs.Memory.{word_at};

use crate::arithmetic::{constant, difference, product, shifted_left, shifted_right, sum};
use crate::memory::Memory;
use crate::registers::Registers;
use iloc_ops::{Op, Reg};

/// The effect of an operation: at most one result, one written word or one emitted word.
#[derive(Clone, Copy, Debug, PartialEq, Eq)]
pub enum Effect {
    /// Its address isn't good.
    Faults,
    /// The register that it defines becomes this value.
    Gives(i32),
    /// The word at this good address becomes this one.
    Writes { address: u32, word: i32 },
    /// This word is emitted.
    Emits(i32),
    /// Nothing is done.
    Nothing,
}

/// The address that a register's value or a constant denotes, if it is good.
fn good_address(value: i32) -> Option<u32>
    ensures { result ≡ good_address value }
{
    Memory::is_good(value).then_some(value.cast_unsigned())
}

impl Effect {
    ghost use Rattle.iloc_meaning.specs.Effect.{effect, at_address};
    ghost use Rattle.iloc_meaning.specs.Registers.{value_of};

    /// Promise: what `op` does with the values of `registers` and `memory`.
    #[inline(always)]
    pub fn of(op: &Op, registers: &Registers, memory: &Memory) -> Effect
        ensures { result ≡ effect op.now (value_of registers.now) (word_at memory.now) }
    {
        let read = |register: Reg| registers.get(register);
        match *op {
            Op::Load { addr, .. } => Effect::load(read(addr), memory),
            Op::LoadI { value, .. } => Effect::Gives(constant(value)),
            Op::Store { value, addr } => Effect::store(read(value), read(addr)),
            Op::Add { left, right, .. } => Effect::Gives(sum(read(left), read(right))),
            Op::Sub { left, right, .. } => Effect::Gives(difference(read(left), read(right))),
            Op::Mult { left, right, .. } => Effect::Gives(product(read(left), read(right))),
            Op::Lshift { left, right, .. } => Effect::Gives(shifted_left(read(left), read(right))),
            Op::Rshift { left, right, .. } => Effect::Gives(shifted_right(read(left), read(right))),
            Op::Output { addr } => Effect::output(constant(addr), memory),
            Op::Nop => Effect::Nothing,
            Op::AddI { left, value, .. } => Effect::Gives(sum(read(left), constant(value))),
            Op::SubI { left, value, .. } => Effect::Gives(difference(read(left), constant(value))),
            Op::MultI { left, value, .. } => Effect::Gives(product(read(left), constant(value))),
            Op::LshiftI { left, value, .. } => {
                Effect::Gives(shifted_left(read(left), constant(value)))
            }
            Op::RshiftI { left, value, .. } => {
                Effect::Gives(shifted_right(read(left), constant(value)))
            }
            Op::LoadAI { addr, offset, .. } => {
                Effect::load(sum(read(addr), constant(offset)), memory)
            }
            Op::StoreAI {
                value,
                addr,
                offset,
            } => Effect::store(read(value), sum(read(addr), constant(offset))),
        }
    }

    /// A load from the address that a value denotes.
    fn load(address: i32, memory: &Memory) -> Effect
        ensures { result ≡
            at_address (good_address address) (λ a. Effect.Gives (word_at memory.now a)) }
    {
        good_address(address).map_or(Effect::Faults, |address| Effect::Gives(memory.get(address)))
    }

    /// A store of a word at the address that a value denotes.
    fn store(word: i32, address: i32) -> Effect
        ensures { result ≡ at_address (good_address address) (λ a. Effect.Writes a word) }
    {
        good_address(address).map_or(Effect::Faults, |address| Effect::Writes { address, word })
    }

    /// An output from the address that a value denotes.
    fn output(address: i32, memory: &Memory) -> Effect
        ensures { result ≡
            at_address (good_address address) (λ a. Effect.Emits (word_at memory.now a)) }
    {
        good_address(address).map_or(Effect::Faults, |address| Effect::Emits(memory.get(address)))
    }
}

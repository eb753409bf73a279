//! What one operation does, in terms.
ghost use Rattle.std.specs.Prelude.{◌≡◌, pos, IfOk};
ghost use Rattle.iloc_meaning.specs.declared.effect.Effect.TheVariants as E;
ghost use Rattle.iloc_meaning.specs.Address.{good_address};
ghost use Rattle.iloc_meaning.specs.Effect.{effect, at_address};
ghost use Rattle.iloc_terms.specs.Steps.Terms.{Adds, Meaning};
ghost use Rattle.iloc_terms.specs.Steps.Symbols.{number_in, effect_of};

use crate::symbols::registers::TermRegisters;
use crate::table::Table;
use iloc_meaning::arithmetic::constant;
use iloc_ops::{NoMemory, Op, Reg};

/// What an operation does, by the numbers of terms. What is done at an address is a fault where that
/// isn't good.
#[derive(Clone, Copy)]
pub(crate) enum Action {
    /// The register that it defines gets this word.
    Gives(u32),
    /// The register that it defines gets the word at this address, which is this one.
    Loads { address: u32, value: u32 },
    /// The word at this address becomes this one.
    Stores { address: u32, value: u32 },
    /// The word at this address, which is this one, is emitted.
    Emits { address: u32, value: u32 },
    /// Nothing is done.
    Nothing,
}

impl Action {
    /// What `op` does with `registers` and `memory`.
    pub(crate) fn of(
        op: &Op,
        registers: &TermRegisters,
        memory: u32,
        table: &mut Table,
    ) -> Result<Action, NoMemory>
        ensures { IfOk result (λ action. Adds table.old table.new (λ _ d.
            effect op.now (λ r. d.word (number_in registers.now r)) (λ a. d.words memory (pos a))
            ≡ effect_of d action)) }
    {
        let read = |register: Reg| registers.get(register);
        let result = match *op {
            Op::Load { addr, .. } => return Action::load(read(addr), memory, table),
            Op::LoadI { value, .. } => table.known(constant(value))?,
            Op::Store { value, addr } => return Ok(Action::store(read(value), read(addr))),
            Op::Add { left, right, .. } => table.sum(read(left), read(right))?,
            Op::Sub { left, right, .. } => table.difference(read(left), read(right))?,
            Op::Mult { left, right, .. } => table.product(read(left), read(right))?,
            Op::Lshift { left, right, .. } => table.shifted_left(read(left), read(right))?,
            Op::Rshift { left, right, .. } => table.shifted_right(read(left), read(right))?,
            Op::Output { addr } => return Action::output(constant(addr), memory, table),
            Op::Nop => return Ok(Action::Nothing),
            Op::AddI { left, value, .. } => table.raised(read(left), constant(value))?,
            Op::SubI { left, value, .. } => table.lowered(read(left), constant(value))?,
            Op::MultI { left, value, .. } => table.scaled(read(left), constant(value))?,
            Op::LshiftI { left, value, .. } => table.shifted_left_by(read(left), constant(value))?,
            Op::RshiftI { left, value, .. } => table.shifted_right_by(read(left), constant(value))?,
            Op::LoadAI { addr, offset, .. } => {
                let address = table.raised(read(addr), constant(offset))?;
                return Action::load(address, memory, table);
            }
            Op::StoreAI {
                value,
                addr,
                offset,
            } => {
                let address = table.raised(read(addr), constant(offset))?;
                return Ok(Action::store(read(value), address));
            }
        };
        Ok(Action::Gives(result))
    }

    /// A load from an address.
    fn load(address: u32, memory: u32, table: &mut Table) -> Result<Action, NoMemory>
        ensures { IfOk result (λ action. Adds table.old table.new (λ _ d.
            at_address (good_address (d.word address)) (λ a. E.Gives (d.words memory (pos a)))
            ≡ effect_of d action)) }
    {
        let value = table.word(memory, address)?;
        Ok(Action::Loads { address, value })
    }

    /// A store of a word at an address.
    fn store(value: u32, address: u32) -> Action
        ensures { (d : Meaning) → effect_of d result
            ≡ at_address (good_address (d.word address)) (λ a. E.Writes a (d.word value)) }
    {
        Action::Stores { address, value }
    }

    /// An output from a known address.
    fn output(address: i32, memory: u32, table: &mut Table) -> Result<Action, NoMemory>
        ensures { IfOk result (λ action. Adds table.old table.new (λ _ d.
            at_address (good_address address) (λ a. E.Emits (d.words memory (pos a)))
            ≡ effect_of d action)) }
    {
        let address = table.known(address)?;
        let value = table.word(memory, address)?;
        Ok(Action::Emits { address, value })
    }
}

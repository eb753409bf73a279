//! Renaming: each definition of a block gets a register of its own, and each use the register of its value.
ghost use Rattle.std.specs.Prelude.{◌≡◌, ◌+◌, ◌-◌, ◌^◌, ◌<◌, ◌≤◌, List, ℤ, [], ◌∷◌, ◌++◌, length, IfOk, OnOk};
ghost use Rattle.iloc_ops.specs.declared.op.Op.{Op};
ghost use Rattle.iloc_meaning.specs.Outcome.{outcome};
ghost use Rattle.iloc_rules.specs.Renaming.{is_nop, renamed, IsRenamed};

use crate::by_register::ByRegister;
use crate::registers::{OperandRegisters, Uses};
use iloc_ops::{Block, MAX_OPS, NoMemory, Op, Operands, Reg, form_of, op_of};
use std::alloc::Global;

/// The new names of registers in a walk through a block.
#[derive(Drop)]
pub(crate) struct Names {
    // By register the number of its name at this point, where it has one.
    current: ByRegister,
    // How many names were given: the number of the next one.
    given: u32,
}

impl Names {
    ghost use Rattle.std.specs.Prelude.{None, Some};
    ghost use Rattle.iloc_ops.specs.declared.op.Reg.{Reg};
    ghost use Rattle.iloc_sched.specs.Steps.Renaming.NamingWalk.{NamesNext, NamesUse, NamesDefinition, NamesAll, Named, next_renamed};
    ghost use Rattle.iloc_sched.specs.Steps.Renaming.CurrentNames.{current_of};
    ghost use Rattle.iloc_sched.specs.Steps.Renaming.Registers.{AreRegistersOf};

    /// Names for blocks, one after another.
    pub(crate) fn new(alloc: Global) -> Names
        ensures { (r : Reg) → current_of result r ≡ None }
    {
        Names {
            current: ByRegister::new(alloc),
            given: 0,
        }
    }

    /// Forgets all names, as a block of `ops` operations begins.
    pub(crate) fn clear(&mut self, ops: usize)
        requires { ops ≤ MAX_OPS }
        ensures none { (r : Reg) → current_of self.new r ≡ None }
        ensures count { self.new.given ≡ 0 }
    {
        self.given = 0;
        self.current.clear(3 * ops);
    }

    /// Gives a register the next name.
    fn give(&mut self, register: Reg) -> Result<(), NoMemory>
        requires { self.old.given < 2 ^ 32 - 1 }
        ensures { OnOk result
            (NamesNext register self.old.given (current_of self.old) self.new.given (current_of self.new)) }
    {
        self.current.set(register, self.given)?;
        self.given += 1;
        Ok(())
    }

    /// The name of a register that is used: the one that it has, or else the next.
    fn of_use(&mut self, register: Reg) -> Result<Reg, NoMemory>
        requires { self.old.given < 2 ^ 32 - 1 }
        ensures name { IfOk result (λ name.
            NamesUse register name self.old.given (current_of self.old) self.new.given (current_of self.new)) }
        ensures count { OnOk result (self.new.given ≤ self.old.given + 1) }
    {
        match self.current.get(register) {
            Some(name) => Ok(Reg(name)),
            None => {
                let name = Reg(self.given);
                self.give(register)?;
                Ok(name)
            }
        }
    }

    /// The name of a register that is defined: the next.
    #[inline(always)]
    fn of_definition(&mut self, register: Reg) -> Result<Reg, NoMemory>
        requires { self.old.given < 2 ^ 32 - 1 }
        ensures { IfOk result (λ name. NamesDefinition register name
            self.old.given (current_of self.old) self.new.given (current_of self.new)) }
    {
        let name = Reg(self.given);
        self.give(register)?;
        Ok(name)
    }

    /// The names of a register that is used and of one that is defined.
    #[inline(always)]
    fn of_copied(&mut self, source: Reg, dest: Reg) -> Result<(Reg, Reg), NoMemory>
        requires { self.old.given < 2 ^ 32 - 2 }
        ensures names { IfOk result (λ names. NamesAll (source ∷ []) (Some dest) (names.0 ∷ []) names.1
            self.old.given (current_of self.old) self.new.given (current_of self.new)) }
        ensures count { OnOk result (self.new.given ≤ self.old.given + 2) }
    {
        let source = self.of_use(source)?;
        let dest = self.of_definition(dest)?;
        Ok((source, dest))
    }

    /// The names of two registers that are used.
    #[inline(always)]
    fn of_stored(&mut self, value: Reg, addr: Reg) -> Result<(Reg, Reg), NoMemory>
        requires { self.old.given < 2 ^ 32 - 2 }
        ensures names { IfOk result (λ names. (own : Reg) → NamesAll (value ∷ addr ∷ []) None (names.0 ∷ names.1 ∷ []) own
            self.old.given (current_of self.old) self.new.given (current_of self.new)) }
        ensures count { OnOk result (self.new.given ≤ self.old.given + 2) }
    {
        let value = self.of_use(value)?;
        let addr = self.of_use(addr)?;
        Ok((value, addr))
    }

    /// The names of two registers that are used and of one that is defined.
    #[inline(always)]
    fn of_sources(&mut self, left: Reg, right: Reg, dest: Reg) -> Result<(Reg, Reg, Reg), NoMemory>
        requires { self.old.given < 2 ^ 32 - 3 }
        ensures names { IfOk result (λ names.
            NamesAll (left ∷ right ∷ []) (Some dest) (names.0 ∷ names.1 ∷ []) names.2
            self.old.given (current_of self.old) self.new.given (current_of self.new)) }
        ensures count { OnOk result (self.new.given ≤ self.old.given + 3) }
    {
        let left = self.of_use(left)?;
        let right = self.of_use(right)?;
        let dest = self.of_definition(dest)?;
        Ok((left, right, dest))
    }

    /// `op` with the names of its registers, uses first, left to right; and the names themselves, so that no caller has
    /// to look up again which registers it has. Registers go by value, so no call can change the opcode, and the
    /// branches by it are taken once: with references into the operation it takes 70 to 88 instructions and 0.3 to 0.4
    /// mispredicted branches more for each operation.
    #[inline(always)]
    pub(crate) fn rename(&mut self, op: &Op) -> Result<(Op, OperandRegisters), NoMemory>
        requires { self.old.given < 2 ^ 32 - 3 }
        ensures next { IfOk result (λ renamed. (done : List Op) →
            Named done self.old.given (current_of self.old) →
            Named (done ++ op.now ∷ []) self.new.given (current_of self.new)
            × (renamed.0 ≡ next_renamed done op.now)) }
        ensures count { OnOk result (self.new.given ≤ self.old.given + 3) }
        ensures registers { IfOk result (λ renamed. AreRegistersOf renamed.0 renamed.1) }
    {
        let (opcode, operands) = form_of(op);
        let (renamed, uses, defines) = match operands {
            Operands::Nothing => (op_of(opcode, &[]), Uses::Nothing, None),
            Operands::Constant(value) => (op_of(opcode, &[value]), Uses::Nothing, None),
            Operands::Immediate(value, dest) => {
                let dest = self.of_definition(dest)?;
                (op_of(opcode, &[value, dest.0]), Uses::Nothing, Some(dest))
            }
            Operands::Copied(source, dest) => {
                let (source, dest) = self.of_copied(source, dest)?;
                let numbers = [source.0, dest.0];
                (op_of(opcode, &numbers), Uses::One(source), Some(dest))
            }
            Operands::WithConstant(left, value, dest) => {
                let (left, dest) = self.of_copied(left, dest)?;
                let numbers = [left.0, value, dest.0];
                (op_of(opcode, &numbers), Uses::One(left), Some(dest))
            }
            Operands::Stored(value, addr) => {
                let (value, addr) = self.of_stored(value, addr)?;
                let numbers = [value.0, addr.0];
                (op_of(opcode, &numbers), Uses::Two(value, addr), None)
            }
            Operands::StoredAt(value, addr, offset) => {
                let (value, addr) = self.of_stored(value, addr)?;
                let numbers = [value.0, addr.0, offset];
                (op_of(opcode, &numbers), Uses::Two(value, addr), None)
            }
            Operands::Sources(left, right, dest) => {
                let (left, right, dest) = self.of_sources(left, right, dest)?;
                let numbers = [left.0, right.0, dest.0];
                (op_of(opcode, &numbers), Uses::Two(left, right), Some(dest))
            }
        };
        Ok((renamed, OperandRegisters { uses, defines }))
    }

    /// Fills a list with the operations of a block, as `rename` has them.
    pub(crate) fn rename_block(&mut self, ops: &mut Vec<Op>, block: &Block) -> Result<(), NoMemory>
        requires { length block.now.ops ≤ MAX_OPS }
        ensures renamed { OnOk result (ops.new.items ≡ renamed block.now.ops) }
        ensures size { OnOk result (length ops.new.items ≤ length block.now.ops) }
        ensures once { OnOk result (IsRenamed ops.new.items) }
        ensures outcome { OnOk result ((memory : List ℤ) →
            outcome ops.new.items memory ≡ outcome block.now.ops memory) }
    {
        self.clear(block.ops.len());
        ops.clear();
        ops.reserve(block.ops.len())?;
        for op in block.ops.as_slice() {
            if !is_nop(op) {
                ops.push(self.rename(op)?.0)?;
            }
        }
        Ok(())
    }
}

/// Whether the operation is a `nop`.
pub(crate) fn is_nop(op: &Op) -> bool
    ensures { result ≡ is_nop op.now }
{
    matches!(op, Op::Nop)
}

/// Promise: The operations of the block without its `nop`s, with each definition in a register of its own: registers are
/// numbered from 0 in the order in which they are named first.
///
/// The block has at most `MAX_OPS` operations.
pub fn rename(alloc: Global, block: &Block) -> Result<Vec<Op>, NoMemory>
    requires { length block.now.ops ≤ MAX_OPS }
    ensures renamed { IfOk result (λ ops. ops.items ≡ renamed block.now.ops) }
    ensures size { IfOk result (λ ops. length ops.items ≤ length block.now.ops) }
    ensures once { IfOk result (λ ops. IsRenamed ops.items) }
    ensures outcome { IfOk result (λ ops. (memory : List ℤ) →
        outcome ops.items memory ≡ outcome block.now.ops memory) }
{
    let mut ops = Vec::new(alloc);
    Names::new(alloc).rename_block(&mut ops, block)?;
    Ok(ops)
}

//! The tables of a dependence graph.
ghost use Rattle.std.specs.Prelude.{ℕ, false, ◌≡◌, ◌+◌, ◌-◌, ◌^◌, ◌<◌, ◌≤◌, List, [], ◌∷◌, ◌++◌, length, OnOk};
ghost use Rattle.iloc_ops.specs.declared.op.Op.{Op};
ghost use Rattle.iloc_rules.specs.Renaming.{is_nop, renamed, without_nops, IsRenamed};

use crate::edges::Edges;
use crate::edges::by_address::LastsByAddress;
use crate::edges::kinds::fill_kinds;
use crate::edges::lasts::Lasts;
use crate::edges::next::Next;
use crate::ranking::priority::fill_latencies;
use crate::registers::OperandRegisters;
use crate::renaming::{Names, is_nop};
use iloc_ops::{Block, MAX_OPS, NoMemory, Op};
use iloc_rules::MemoryRule;
use iloc_timed::{Kind, Latencies};
use std::alloc::Global;

/// Renamed operations, with their kinds and latencies and the edges between them.
#[derive(Drop)]
pub struct Tables {
    pub ops: Vec<Op>,
    pub kinds: Vec<Kind>,
    pub latencies: Latencies,
    /// By what the operations wait for each other by memory.
    pub rule: MemoryRule,
    pub edges: Edges,
    /// By operation its latency.
    pub own: Vec<u32>,
    // By which edges by address are found.
    by_address: LastsByAddress,
}

impl Tables {
    ghost use Rattle.iloc_rules.specs.declared.memory_rule.MemoryRule.TheVariants.{Book, Address};
    ghost use Rattle.iloc_sched.specs.Steps.Edges.Filling.{CanHold, IsFilling, IsGathered};
    ghost use Rattle.iloc_sched.specs.Steps.Renaming.Registers.{AreRegistersOf};
    ghost use Rattle.iloc_sched.specs.Steps.Edges.SoundGraph.{IsByTheBook, IsSound};
    ghost use Rattle.iloc_sched.specs.Steps.Views.{IsEmptied};

    /// The tables of no operation, by the book.
    pub fn new(alloc: Global) -> Tables
        ensures ops { result.ops.items ≡ [] }
        ensures kinds { result.kinds.items ≡ [] }
        ensures own { result.own.items ≡ [] }
        ensures edges { IsEmptied result.edges }
        ensures rule { result.rule ≡ Book }
    {
        Tables {
            ops: Vec::new(alloc),
            kinds: Vec::new(alloc),
            latencies: Latencies::usual(),
            rule: MemoryRule::Book,
            edges: Edges::new(alloc),
            own: Vec::new(alloc),
            by_address: LastsByAddress::new(alloc),
        }
    }

    /// No operation, by the book.
    pub fn forget(&mut self)
        ensures ops { self.new.ops.items ≡ [] }
        ensures kinds { self.new.kinds.items ≡ [] }
        ensures own { self.new.own.items ≡ [] }
        ensures edges { IsEmptied self.new.edges }
        ensures rule { self.new.rule ≡ Book }
    {
        self.ops.clear();
        self.kinds.clear();
        self.own.clear();
        self.edges.forget();
        self.rule = MemoryRule::Book;
    }

    /// No operation, with capacity for `count` and the edges between them. Where each push tests whether it has to grow, `counts`
    /// takes 3 to 4 % more processor time on blocks of some ten operations and of a hundred.
    fn clear(&mut self, lasts: &mut Lasts, count: usize) -> Result<(), NoMemory>
        requires { count ≤ MAX_OPS }
        ensures filling { OnOk result (IsFilling self.new lasts.new) }
        ensures ops { OnOk result (self.new.ops.items ≡ []) }
        ensures latencies { self.new.latencies ≡ self.old.latencies }
        ensures capacity { OnOk result (CanHold self.new count) }
    {
        self.ops.clear();
        self.ops.reserve(count)?;
        self.kinds.clear();
        self.kinds.reserve(count)?;
        self.own.clear();
        self.own.reserve(count)?;
        self.edges.empty(count)?;
        lasts.clear(3 * count);
        Ok(())
    }

    /// Adds an operation, the next of renamed ones, with the edges into it.
    #[inline(always)]
    fn push(
        &mut self,
        lasts: &mut Lasts,
        op: Op,
        registers: OperandRegisters,
    ) -> Result<(), NoMemory>
        requires filling { IsFilling self.old lasts.old }
        requires registers { AreRegistersOf op registers }
        requires renamed { IsRenamed (self.old.ops.items ++ op ∷ []) }
        requires few { length self.old.ops.items < MAX_OPS }
        requires capacity { CanHold self.old (length self.old.ops.items + 1) }
        ensures filling { OnOk result (IsFilling self.new lasts.new) }
        ensures ops { OnOk result (self.new.ops.items ≡ self.old.ops.items ++ op ∷ []) }
        ensures latencies { self.new.latencies ≡ self.old.latencies }
        ensures capacity { (n : ℕ) → CanHold self.old n → CanHold self.new n }
    {
        let j = self.ops.len();
        let kind = Kind::of(&op);
        self.ops.push_reserved(op);
        self.kinds.push_reserved(kind);
        self.own.push_reserved(self.latencies.of(kind));
        self.edges.grow();
        let next = Next {
            ops: &self.ops,
            own: &self.own,
            latencies: &self.latencies,
            lasts,
            kind,
            uses: registers.uses,
            j,
        };
        self.edges.add_all(&next);
        lasts.note(kind, registers.defines, j)?;
        Ok(())
    }

    /// Adds the next operation of a block, renamed.
    #[inline(always)]
    fn push_renamed(
        &mut self,
        names: &mut Names,
        lasts: &mut Lasts,
        op: &Op,
    ) -> Result<(), NoMemory>
        requires gathered { (past : List Op) × IsGathered (without_nops past) self.old lasts.old names.old }
        requires counts { is_nop op.now ≡ false }
        requires given { names.old.given < 2 ^ 32 - 3 }
        requires few { length self.old.ops.items < MAX_OPS }
        requires capacity { CanHold self.old (length self.old.ops.items + 1) }
        ensures gathered { OnOk result ((done : List Op) → IsGathered done self.old lasts.old names.old
            → IsGathered (done ++ op.now ∷ []) self.new lasts.new names.new) }
        ensures given { OnOk result (names.new.given ≤ names.old.given + 3) }
        ensures size { OnOk result (length self.new.ops.items ≡ length self.old.ops.items + 1) }
        ensures latencies { self.new.latencies ≡ self.old.latencies }
        ensures capacity { (n : ℕ) → CanHold self.old n → CanHold self.new n }
    {
        let (renamed, registers) = names.rename(op)?;
        self.push(lasts, renamed, registers)?;
        Ok(())
    }

    /// The same, in which operations of each shape and kind have compiled code of their own, so that no branch by their
    /// registers or their kind is left in it. In code that all share `counts` executes 4 % more instructions and mispredicts
    /// 0.3 to 0.4 branches more for each operation, in blocks of ten and of a hundred.
    #[inline(always)]
    fn push_by_shape(
        &mut self,
        names: &mut Names,
        lasts: &mut Lasts,
        op: &Op,
    ) -> Result<(), NoMemory>
        requires gathered { (past : List Op) × IsGathered (without_nops past) self.old lasts.old names.old }
        requires counts { is_nop op.now ≡ false }
        requires given { names.old.given < 2 ^ 32 - 3 }
        requires few { length self.old.ops.items < MAX_OPS }
        requires capacity { CanHold self.old (length self.old.ops.items + 1) }
        ensures gathered { OnOk result ((done : List Op) → IsGathered done self.old lasts.old names.old
            → IsGathered (done ++ op.now ∷ []) self.new lasts.new names.new) }
        ensures given { OnOk result (names.new.given ≤ names.old.given + 3) }
        ensures size { OnOk result (length self.new.ops.items ≡ length self.old.ops.items + 1) }
        ensures latencies { self.new.latencies ≡ self.old.latencies }
        ensures capacity { (n : ℕ) → CanHold self.old n → CanHold self.new n }
    {
        match op {
            Op::Load { .. } => self.push_renamed(names, lasts, op),
            Op::LoadAI { .. } => self.push_renamed(names, lasts, op),
            Op::LoadI { .. } => self.push_renamed(names, lasts, op),
            Op::Store { .. } => self.push_renamed(names, lasts, op),
            Op::StoreAI { .. } => self.push_renamed(names, lasts, op),
            Op::Output { .. } => self.push_renamed(names, lasts, op),
            Op::Mult { .. } => self.push_renamed(names, lasts, op),
            Op::MultI { .. } => self.push_renamed(names, lasts, op),
            Op::Add { .. } | Op::Sub { .. } | Op::Lshift { .. } | Op::Rshift { .. } =>
                self.push_renamed(names, lasts, op),
            Op::AddI { .. } | Op::SubI { .. } | Op::LshiftI { .. } | Op::RshiftI { .. } =>
                self.push_renamed(names, lasts, op),
            Op::Nop => self.push_renamed(names, lasts, op),
        }
    }

    /// Takes the operations of a block. Each is renamed and gets the edges into it at once: the branch on its shape is
    /// seldom predicted, so it is taken once. With a loop for each `counts` takes 5 to 9 % more processor time.
    fn gather(
        &mut self,
        names: &mut Names,
        lasts: &mut Lasts,
        block: &Block,
    ) -> Result<(), NoMemory>
        requires { length block.now.ops ≤ MAX_OPS }
        ensures book { OnOk result (IsByTheBook self.new) }
        ensures ops { OnOk result (self.new.ops.items ≡ renamed block.now.ops) }
        ensures latencies { OnOk result (self.new.latencies ≡ self.old.latencies) }
    {
        let ops = block.ops.as_slice();
        self.clear(lasts, ops.len())?;
        names.clear(ops.len());
        for op in ops {
            if !is_nop(op) {
                self.push_by_shape(names, lasts, op)?;
            }
        }
        Ok(())
    }

    /// Takes the operations of a block, as `gather` does, for these latencies, by the book.
    pub fn open(
        &mut self,
        names: &mut Names,
        lasts: &mut Lasts,
        block: &Block,
        latencies: &Latencies,
    ) -> Result<(), NoMemory>
        requires { length block.now.ops ≤ MAX_OPS }
        ensures sound { OnOk result (IsSound self.new) }
        ensures rule { OnOk result (self.new.rule ≡ Book) }
        ensures latencies { OnOk result (self.new.latencies ≡ latencies.now) }
        ensures ops { OnOk result (self.new.ops.items ≡ renamed block.now.ops) }
    {
        self.latencies = *latencies;
        self.gather(names, lasts, block)?;
        self.rule = MemoryRule::Book;
        Ok(())
    }

    /// Takes the operations of `block` for `latencies`, by address.
    pub fn open_by_address(
        &mut self,
        names: &mut Names,
        lasts: &mut Lasts,
        block: &Block,
        latencies: &Latencies,
    ) -> Result<(), NoMemory>
        requires { length block.now.ops ≤ MAX_OPS }
        ensures sound { OnOk result (IsSound self.new) }
        ensures rule { OnOk result (self.new.rule ≡ Address) }
        ensures latencies { OnOk result (self.new.latencies ≡ latencies.now) }
        ensures ops { OnOk result (self.new.ops.items ≡ renamed block.now.ops) }
    {
        self.latencies = *latencies;
        names.rename_block(&mut self.ops, block)?;
        fill_kinds(&mut self.kinds, &self.ops)?;
        fill_latencies(&mut self.own, &self.kinds, latencies)?;
        self.edges.fill_by_address(lasts, &mut self.by_address, &self.ops, &self.own, latencies)?;
        self.rule = MemoryRule::Address;
        Ok(())
    }

    /// Takes renamed operations, as `open` does.
    pub fn open_renamed(
        &mut self,
        lasts: &mut Lasts,
        ops: &[Op],
        latencies: &Latencies,
    ) -> Result<(), NoMemory>
        requires renamed { IsRenamed ops.now }
        requires few { length ops.now ≤ MAX_OPS }
        ensures sound { OnOk result (IsSound self.new) }
        ensures rule { OnOk result (self.new.rule ≡ Book) }
        ensures latencies { OnOk result (self.new.latencies ≡ latencies.now) }
        ensures ops { OnOk result (self.new.ops.items ≡ ops.now) }
    {
        self.latencies = *latencies;
        self.clear(lasts, ops.len())?;
        for op in ops {
            self.push(lasts, *op, OperandRegisters::of(op))?;
        }
        self.rule = MemoryRule::Book;
        Ok(())
    }
}

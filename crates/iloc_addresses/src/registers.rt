//! What is known of the registers.
ghost use Rattle.std.specs.Prelude.{ℕ, ◌≡◌, ◌+◌, ◌<◌, ◌≤◌, length, List, None, OnOk};
ghost use Rattle.std.specs.Ordering.{nat_cmp};
ghost use Rattle.std.specs.BTreeMap.{get};
ghost use Rattle.iloc_ops.specs.declared.op.Op.{Op as Operation};
ghost use Rattle.iloc_meaning.specs.Trace.{op_at};
ghost use Rattle.iloc_rules.specs.Apart.{address_of, result_word};

use crate::words::{difference, own, plus, product, shifted_left, shifted_right, sum};
use iloc_meaning::arithmetic::constant;
use iloc_ops::{NoMemory, Op, Reg, defines};
use iloc_rules::Word;
use std::alloc::Global;
use std::collections::BTreeMap;

/// What is known of the registers before an operation.
#[derive(Drop)]
pub struct KnownRegisters {
    // Of the registers below its length. It grows as registers below the limit are defined. With a map alone `counts
    // --disambiguate` executes 29 % more instructions on blocks of some ten operations, and 72 % on blocks of some hundred.
    words: Vec<Word>,
    limit: usize,
    // Of all others that an operation before defines; every other is 0.
    others: BTreeMap<u32, Word>,
    ghost apart: { (r : ℕ) → r < limit → get nat_cmp others r ≡ None },
}

impl KnownRegisters {
    ghost use Rattle.iloc_addresses.specs.Steps.Registers.{word_at, word_in, ChangesOnly, AreBefore};

    /// Promise: Before the first operation of a list.
    pub fn new(alloc: Global) -> KnownRegisters
        ensures { (ops : List Operation) → AreBefore ops 0 result }
    {
        KnownRegisters {
            words: Vec::new(alloc),
            limit: 0,
            others: BTreeMap::new(alloc),
        }
    }

    /// Promise: Before the first operation of another list. From now on registers below the limit are looked up fastest.
    pub fn clear(&mut self, limit: usize)
        ensures { (ops : List Operation) → AreBefore ops 0 self.new }
    {
        self.words.clear();
        self.others.clear();
        self.limit = limit;
    }

    /// What is known of a register.
    fn get(&self, register: Reg) -> Word
        ensures { result ≡ word_in self.now register }
    {
        match self.words.get(register.0 as usize) {
            Some(word) => *word,
            None => self.other(register),
        }
    }

    /// The same for a register that the list doesn't reach.
    #[cold]
    fn other(&self, register: Reg) -> Word
        requires { length self.now.words.items ≤ register.0 }
        ensures { result ≡ word_in self.now register }
    {
        self.others
            .get(&register.0)
            .copied()
            .unwrap_or(Word::Known(0))
    }

    /// Has another word be known of a register.
    fn set(&mut self, register: Reg, word: Word) -> Result<(), NoMemory>
        ensures { OnOk result (ChangesOnly self.old self.new register word) }
    {
        let place = register.0 as usize;
        if place < self.words.len() {
            self.words[place] = word;
            return Ok(());
        }
        if place == self.words.len() {
            self.words.push(word)?;
            return Ok(());
        }
        self.set_behind(register, word)
    }

    /// The same for a register that isn't the next of the list.
    #[cold]
    fn set_behind(&mut self, register: Reg, word: Word) -> Result<(), NoMemory>
        requires { length self.old.words.items < register.0 }
        ensures { OnOk result (ChangesOnly self.old self.new register word) }
    {
        let place = register.0 as usize;
        if place < self.limit {
            self.words.resize(place, Word::Known(0))?;
            self.words.push(word)?;
        } else {
            self.others.insert(register.0, word)?;
        }
        Ok(())
    }

    /// Promise: What is known of the address of an operation, if it has one.
    pub fn address_of(&self, op: &Op) -> Option<Word>
        ensures { result ≡ address_of op.now (word_in self.now) }
    {
        match *op {
            Op::Load { addr, .. } | Op::Store { addr, .. } => Some(self.get(addr)),
            Op::LoadAI { addr, offset, .. } | Op::StoreAI { addr, offset, .. } => {
                Some(plus(self.get(addr), constant(offset)))
            }
            Op::Output { addr } => Some(Word::Known(constant(addr))),
            _ => None,
        }
    }

    /// What is known of the result of operation i.
    fn result_of(&self, op: &Op, i: u32) -> Word
        ensures { result ≡ result_word i op.now (word_in self.now) }
    {
        let read = |register: Reg| self.get(register);
        let written = |value: u32| Word::Known(constant(value));
        match *op {
            Op::LoadI { value, .. } => written(value),
            Op::Add { left, right, .. } => sum(i, read(left), read(right)),
            Op::Sub { left, right, .. } => difference(i, read(left), read(right)),
            Op::Mult { left, right, .. } => product(i, read(left), read(right)),
            Op::Lshift { left, right, .. } => shifted_left(i, read(left), read(right)),
            Op::Rshift { left, right, .. } => shifted_right(i, read(left), read(right)),
            Op::AddI { left, value, .. } => sum(i, read(left), written(value)),
            Op::SubI { left, value, .. } => difference(i, read(left), written(value)),
            Op::MultI { left, value, .. } => product(i, read(left), written(value)),
            Op::LshiftI { left, value, .. } => shifted_left(i, read(left), written(value)),
            Op::RshiftI { left, value, .. } => shifted_right(i, read(left), written(value)),
            _ => own(i),
        }
    }

    /// Promise: Takes operation i: what is known after it is known before the next.
    pub fn take(&mut self, op: &Op, i: u32) -> Result<(), NoMemory>
        ensures { OnOk result ((ops : List Operation) → op_at ops i ≡ op.now → AreBefore ops i self.old
            → AreBefore ops (i + 1) self.new) }
    {
        match defines(op) {
            Some(register) => {
                let word = self.result_of(op, i);
                self.set(register, word)
            }
            None => Ok(()),
        }
    }
}

//! Numbers by register.
ghost use Rattle.std.specs.Prelude.{ℕ, ◌≡◌, ◌≤◌, ◌<◌, length, None, OnOk, All};
ghost use Rattle.iloc_sched.specs.declared.by_register.Slot.{Slot};
ghost use Rattle.std.specs.Ordering.{nat_cmp};
ghost use Rattle.std.specs.BTreeMap.{get};

use iloc_ops::{NoMemory, Reg};
use std::alloc::Global;
use std::collections::BTreeMap;

// How many registers more than twice as many a table that grows is made for, so that it grows once in a short block.
const MORE: usize = 16;

/// A number, and at which turn a register got it.
#[derive(Clone, Copy)]
struct Slot {
    turn: u32,
    number: u32,
}

/// A number for each of some registers. With a map alone `counts` executes 41 % more instructions on 65,535 blocks of some
/// ten operations, and almost twice as many on blocks of a hundred.
#[derive(Drop)]
pub struct ByRegister {
    // Of the registers below its length: those that got a number at this turn have it. It grows as registers below the limit
    // get numbers. Where each clear takes numbers back slot by slot, `counts` executes 3 % more instructions on blocks of some
    // ten operations, and mispredicts 0.3 branches more for each operation.
    table: Vec<Slot>,
    turn: u32,
    limit: usize,
    // Of all others.
    others: BTreeMap<u32, u32>,
    ghost apart: { (r : ℕ) → r < limit → get nat_cmp others r ≡ None },
    ghost begun: { 1 ≤ turn },
    ghost past: { All (λ (slot : Slot). slot.turn ≤ turn) table.items },
}

impl ByRegister {
    ghost use Rattle.iloc_sched.specs.Steps.Renaming.ByRegister.{number_at, Sets};

    /// No register has a number.
    pub fn new(alloc: Global) -> ByRegister
        ensures { (r : ℕ) → number_at result r ≡ None }
    {
        ByRegister {
            table: Vec::new(alloc),
            turn: 1,
            limit: 0,
            others: BTreeMap::new(alloc),
        }
    }

    /// Forgets all numbers. From now on registers below `limit` are looked up fastest.
    pub fn clear(&mut self, limit: usize)
        ensures { (r : ℕ) → number_at self.new r ≡ None }
    {
        if self.turn == u32::MAX {
            self.table.clear();
            self.turn = 1;
        } else {
            self.turn += 1;
        }
        self.others.clear();
        self.limit = limit;
    }

    /// The number of a register, if it has one.
    pub fn get(&self, register: Reg) -> Option<u32>
        ensures { result ≡ number_at self.now register.0 }
    {
        match self.table.get(register.0 as usize) {
            Some(slot) if slot.turn == self.turn => Some(slot.number),
            Some(_) => None,
            None => self.other(register),
        }
    }

    /// The same for a register that the table doesn't reach. Within `get` it has `counts` mispredict a quarter of a branch
    /// more for each operation.
    #[cold]
    fn other(&self, register: Reg) -> Option<u32>
        ensures { result ≡ get nat_cmp self.now.others register.0 }
    {
        self.others.get(&register.0).copied()
    }

    /// Gives a register a number, in place of the one that it had.
    pub fn set(&mut self, register: Reg, number: u32) -> Result<(), NoMemory>
        ensures { OnOk result (Sets self.old self.new register.0 number) }
    {
        let place = register.0 as usize;
        if place < self.table.len() {
            self.table[place] = Slot {
                turn: self.turn,
                number,
            };
            return Ok(());
        }
        if place < self.limit {
            return self.set_behind(register, number);
        }
        self.set_other(register, number)
    }

    /// The same for a register below the limit that the table doesn't reach yet.
    #[cold]
    fn set_behind(&mut self, register: Reg, number: u32) -> Result<(), NoMemory>
        requires behind { length self.old.table.items ≤ register.0 }
        requires within { register.0 < self.old.limit }
        ensures { OnOk result (Sets self.old self.new register.0 number) }
    {
        let place = register.0 as usize;
        let enough = self.table.len() + place + MORE;
        let unset = Slot { turn: 0, number: 0 };
        self.table.resize(enough.min(self.limit), unset)?;
        self.table[place] = Slot {
            turn: self.turn,
            number,
        };
        Ok(())
    }

    /// The same for a register that isn't below the limit.
    #[cold]
    fn set_other(&mut self, register: Reg, number: u32) -> Result<(), NoMemory>
        requires behind { length self.old.table.items ≤ register.0 }
        requires past { self.old.limit ≤ register.0 }
        ensures { OnOk result (Sets self.old self.new register.0 number) }
    {
        self.others.insert(register.0, number)?;
        Ok(())
    }
}

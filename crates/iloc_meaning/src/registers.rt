//! The registers of a running block.
ghost use Rattle.std.specs.Prelude.{◌≡◌, ◌≤◌, vec_len, pos, unwrap_or, IfOk, OnOk, OnErr};
ghost use Rattle.iloc_ops.specs.declared.op.Reg.{Reg as Register};
ghost use Rattle.iloc_meaning.specs.Registers.{value_of, ChangesOnly};
ghost use Rattle.iloc_meaning.specs.Steps.Table.{values};
ghost use Rattle.std.specs.Map.{lookup};
ghost use Rattle.std.specs.Ordering.{nat_cmp, eq_by_cmp};

use iloc_ops::{NoMemory, Reg};
use std::alloc::Global;
use std::collections::BTreeMap;
use std::marker::Model;

/// How many registers may have a place in the table: those with numbers below this. With a map alone `run` takes 54 to 93 % more
/// processor time.
const TABLED: usize = 16_384;

/// The table grows by so many places at least.
const STEP: usize = 16;

/// How many places stay when all registers become 0. Where the table begins anew it grows once or twice in a block: in blocks of
/// ten `simulate` mispredicts 0.15 branches more for each operation, and `run` executes 1.4 % more instructions.
const KEPT: usize = 64;

/// The values of the registers of a block, by their numbers.
#[derive(Debug, Drop)]
pub struct Registers {
    // The values of the registers with a place in the table, which grows as the block needs it. With 16,384 places, and a list
    // of those to be cleared, `run` executes 4.8 to 7.6 % more instructions, and mispredicts up to 0.15 branches more for each
    // operation.
    table: Vec<i32>,
    // The other registers that were given a value; every other is 0.
    others: BTreeMap<u32, i32>,
}

/// The value of a register without a place in the table.
// As `set_apart`, it isn't inlined, so that what is done at each operation stays short.
#[cold]
#[inline(never)]
fn value_among(others: &BTreeMap<u32, i32>, register: Reg) -> i32
    ensures { result ≡ unwrap_or (lookup (eq_by_cmp nat_cmp register.0) others.now.entries) (pos 0) }
{
    others.get(&register.0).copied().unwrap_or(0)
}

/// Sets a register without a place in the table, and gives it one where it may have one.
#[cold]
#[inline(never)]
fn set_apart(
    table: &mut Vec<i32>,
    others: &mut BTreeMap<u32, i32>,
    register: Reg,
    value: i32,
) -> Result<(), NoMemory>
    requires { vec_len table.old ≤ register.0 }
    ensures ok { OnOk result
        (ChangesOnly (values table.old.items others.old.entries) (values table.new.items others.new.entries) register value) }
    ensures err { OnErr result
        ((r : Register) → value_of (values table.new.items others.new.entries) r ≡ value_of (values table.old.items others.old.entries) r) }
{
    let place = register.0 as usize;
    if place >= TABLED || !others.is_empty() {
        others.insert(register.0, value)?;
        return Ok(());
    }
    table.resize(place / STEP * STEP + STEP, 0)?;
    table[place] = value;
    Ok(())
}

impl Model for Registers {
    ghost use Rattle.std.specs.Prelude.{ℤ};
    ghost use Rattle.std.specs.Ordering.{nat_cmp};
    ghost use Rattle.std.specs.Coded.{coded_ℕ, coded_ℤ};
    ghost use Rattle.std.specs.FinMap as map;
    ghost use Rattle.iloc_meaning.specs.Steps.Table.{values};

    ghost Value = { map.FinMap nat_cmp ℤ };

    ghost coded = { map.code coded_ℕ coded_ℤ };

    ghost view = { λ r. values r.table.items r.others.entries };
}

impl Registers {
    /// Promise: registers that are all 0.
    pub fn new(alloc: Global) -> Result<Registers, NoMemory>
        ensures { IfOk result (λ registers. (r : Register) → value_of registers r ≡ pos 0) }
    {
        Ok(Registers {
            table: Vec::new(alloc),
            others: BTreeMap::new(alloc),
        })
    }

    /// Promise: the value of a register.
    #[inline(always)]
    pub fn get(&self, register: Reg) -> i32
        ensures { result ≡ value_of self.now register }
    {
        match self.table.get(register.0 as usize) {
            Some(value) => *value,
            None => value_among(&self.others, register),
        }
    }

    /// Promise: sets one register to a value and keeps all others; after a refusal of memory all registers are as before.
    #[inline(always)]
    pub fn set(&mut self, register: Reg, value: i32) -> Result<(), NoMemory>
        ensures ok { OnOk result (ChangesOnly self.old self.new register value) }
        ensures err { OnErr result ((r : Register) → value_of self.new r ≡ value_of self.old r) }
    {
        let place = register.0 as usize;
        if place >= self.table.len() {
            return set_apart(&mut self.table, &mut self.others, register, value);
        }
        self.table[place] = value;
        Ok(())
    }

    /// Promise: sets all registers to 0.
    ///
    /// What is set afterwards costs a step for each place up to the highest.
    pub fn clear(&mut self)
        ensures { (r : Register) → value_of self.new r ≡ pos 0 }
    {
        self.table.truncate(KEPT);
        self.table.fill(0);
        self.others.clear();
    }
}

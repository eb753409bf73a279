//! The last store by constant.
ghost use Rattle.std.specs.Prelude.{◌≡◌, ◌≤◌, ◌==◌, ◌&&◌, ◌||◌, not, false, ℤ, None, Some, All, OnOk, length};
ghost use Rattle.std.specs.Ordering.{int_cmp, int_eq};
ghost use Rattle.std.specs.BTreeMap.{get};
ghost use Rattle.iloc_addresses.specs.declared.dependences.last_by_constant.Slot.{Slot};

use iloc_ops::NoMemory;
use std::alloc::Global;
use std::collections::BTreeMap;

/// How many constants have slots of their own: as many words that follow one another.
const SLOTS: usize = 256;

/// A constant, and the last store there at a turn.
#[derive(Clone, Copy)]
struct Slot {
    turn: u32,
    constant: i32,
    op: u32,
}

impl Slot {
    /// Whether it has the last store at a constant at a turn.
    fn is_for(&self, constant: i32, turn: u32) -> bool
        ensures { result ≡ ((self.now.turn == turn) && int_eq self.now.constant constant) }
    {
        self.turn == turn && self.constant == constant
    }

    /// Whether it may take the last store at a constant at a turn.
    fn is_free(&self, constant: i32, turn: u32) -> bool
        ensures { result ≡ (not (self.now.turn == turn) || int_eq self.now.constant constant) }
    {
        self.turn != turn || self.constant == constant
    }
}

/// By constant the last store.
#[derive(Drop)]
pub(crate) struct LastByConstant {
    // `SLOTS` of them once a store is noted, each for the first constant of this turn that belongs there. With a map alone
    // `counts --disambiguate` executes 4 % more instructions on blocks of some ten operations, and 6 % on blocks of some hundred.
    slots: Vec<Slot>,
    turn: u32,
    // Of all other constants.
    others: BTreeMap<i32, u32>,
    ghost begun: { 1 ≤ turn },
    ghost past: { All (λ (slot : Slot). slot.turn ≤ turn) slots.items },
}

impl LastByConstant {
    ghost use Rattle.iloc_addresses.specs.Steps.LastByConstant.{last_at, place_of, Notes};

    /// None.
    pub(crate) fn new(alloc: Global) -> LastByConstant
        ensures { (c : ℤ) → last_at result c ≡ None }
    {
        LastByConstant {
            slots: Vec::new(alloc),
            turn: 1,
            others: BTreeMap::new(alloc),
        }
    }

    /// None from now on.
    pub(crate) fn clear(&mut self)
        ensures { (c : ℤ) → last_at self.new c ≡ None }
    {
        if self.turn == u32::MAX {
            self.slots.clear();
            self.turn = 1;
        } else {
            self.turn += 1;
        }
        self.others.clear();
    }

    /// The place of the slot where a constant belongs.
    fn place_of(constant: i32) -> usize
        ensures { result ≡ place_of constant }
    {
        (constant.cast_unsigned() / 4) as usize % SLOTS
    }

    /// What the slots don't have at a constant.
    fn other(&self, constant: i32) -> Option<u32>
        ensures { result ≡ get int_cmp self.now.others constant }
    {
        self.others.get(&constant).copied()
    }

    /// The last store at a constant, if there is one.
    pub(crate) fn get(&self, constant: i32) -> Option<u32>
        ensures { result ≡ last_at self.now constant }
    {
        match self.slots.get(LastByConstant::place_of(constant)) {
            Some(slot) if slot.is_for(constant, self.turn) => Some(slot.op),
            Some(_) => self.other(constant),
            None => self.other(constant),
        }
    }

    /// Makes the slots, of which none is for a constant yet.
    #[cold]
    fn open(&mut self) -> Result<(), NoMemory>
        requires { length self.old.slots.items ≡ 0 }
        ensures { OnOk result ((c : ℤ) → last_at self.new c ≡ last_at self.old c) }
    {
        let unset = Slot {
            turn: 0,
            constant: 0,
            op: 0,
        };
        self.slots.resize(SLOTS, unset)?;
        Ok(())
    }

    /// Store j is the last at a constant from now on.
    pub(crate) fn set(&mut self, constant: i32, j: u32) -> Result<(), NoMemory>
        ensures { OnOk result (Notes self.old self.new constant j) }
    {
        if self.slots.is_empty() {
            self.open()?;
        }
        self.note(constant, j)
    }

    /// The same where there are slots.
    fn note(&mut self, constant: i32, j: u32) -> Result<(), NoMemory>
        ensures { OnOk result (Notes self.old self.new constant j) }
    {
        let place = LastByConstant::place_of(constant);
        if place >= self.slots.len() {
            return self.note_other(constant, j);
        }
        let slot = self.slots[place];
        if !slot.is_free(constant, self.turn) {
            return self.note_other(constant, j);
        }
        self.slots[place] = Slot {
            turn: self.turn,
            constant,
            op: j,
        };
        Ok(())
    }

    /// The same for a constant to which the slots give no place.
    #[cold]
    fn note_other(&mut self, constant: i32, j: u32) -> Result<(), NoMemory>
        ensures noted { OnOk result (get int_cmp self.new.others constant ≡ Some j) }
        ensures rest { OnOk result ((c : ℤ) → int_eq constant c ≡ false
            → get int_cmp self.new.others c ≡ get int_cmp self.old.others c) }
        ensures slots { self.new.slots ≡ self.old.slots }
        ensures turn { self.new.turn ≡ self.old.turn }
    {
        self.others.insert(constant, j)?;
        Ok(())
    }
}

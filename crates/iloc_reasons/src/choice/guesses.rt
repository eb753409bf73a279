//! What an operation may have been meant to read.

use super::data_flow::DataFlow;
use super::lines::Lines;
use crate::claim::{What, source_at};
use crate::terms::{Values, at, value};
use iloc_facts::{Sides, Sources};
use iloc_ops::{NoMemory, Op, Reg, uses};
use std::alloc::Global;

/// How many results are thought of, of those under way and of those that were there.
const MOST: usize = 3;

/// What a use may have been meant to read.
#[derive(Clone, Copy)]
pub(crate) struct Guess {
    /// The number of it.
    pub value: u64,
    /// How unlikely it is.
    pub cost: u32,
    /// What is said if it is so.
    pub what: Option<What>,
}

/// The first use of an operation that reads the register of a use.
fn first_use(op: &Op, place: usize) -> Option<(usize, Reg)> {
    let registers = uses(op);
    let register = registers.get(place).copied()?;
    let first = registers.iter().position(|r| *r == register)?;
    Some((first, register))
}

/// What is known while an operation's uses are looked at.
#[derive(Clone, Copy)]
pub(crate) struct Looking<'a> {
    pub sides: &'a Sides<'a>,
    /// By register the operations that defined it so far, the last first.
    pub definers: &'a Lines,
    /// By operation of the rows what it is meant to bring.
    pub meant: &'a [u64],
}

/// The start of a register, where an operation reads a result at a place.
fn push_start(guesses: &mut Vec<Guess>, place: usize, read: Option<usize>) -> Result<(), NoMemory> {
    if read.is_some() {
        guesses.push(Guess {
            value: 0,
            cost: 4,
            what: Some(What::ReadsOver { place, lost: None }),
        })?;
    }
    Ok(())
}

impl Looking<'_> {
    /// The guess that the result of an operation was meant.
    fn guess(&self, u: usize, cost: u32, what: What) -> Guess {
        Guess {
            value: at(self.meant, u).wrapping_add(1),
            cost,
            what: Some(what),
        }
    }

    /// What operation k of the rows may have been meant to read at a place, where it reads this.
    pub(crate) fn guesses(
        &self,
        alloc: Global,
        k: usize,
        place: usize,
        read: Option<usize>,
    ) -> Result<Vec<Guess>, NoMemory> {
        let mut guesses = Vec::new(alloc);
        guesses.push(Guess {
            value: value(self.meant, read),
            cost: 0,
            what: None,
        })?;
        if let Some(op) = self.sides.schedule.ops().get(k)
            && let Some((place, register)) = first_use(op, place)
        {
            let last = self.definers.first_few(alloc, u64::from(register.0))?;
            self.push_later(&mut guesses, &last, k, place)?;
            for (_, u) in self.older(alloc, &last, k, read)?.iter().rev().take(MOST) {
                let lost = Some(*u);
                guesses.push(self.guess(*u, 3, What::ReadsOver { place, lost }))?;
            }
            push_start(&mut guesses, place, read)?;
        }
        Ok(guesses)
    }

    /// Pushes the operations of `last` that are under way when operation `k` is issued.
    fn push_later(
        &self,
        guesses: &mut Vec<Guess>,
        last: &[usize],
        k: usize,
        place: usize,
    ) -> Result<(), NoMemory> {
        let Some(here) = self.sides.issue(k) else {
            return Ok(());
        };
        let mut count: usize = 0;
        for u in last {
            if let Some(there) = self.sides.issue(*u)
                && let Some(due) = self.sides.due(*u)
                && *u != k
                && here.cycle < due
                && count < MOST
            {
                let cost = if there.cycle < here.cycle { 1 } else { 2 };
                guesses.push(self.guess(*u, cost, What::ReadsBefore { place, late: *u }))?;
                count = count.saturating_add(1);
            }
        }
        Ok(())
    }

    /// The operations of `last` that have arrived when operation `k` is issued, but for `read`, which it reads, each after the
    /// cycle in which it arrives; rising.
    fn older(
        &self,
        alloc: Global,
        last: &[usize],
        k: usize,
        read: Option<usize>,
    ) -> Result<Vec<(usize, usize)>, NoMemory> {
        let mut older = Vec::new(alloc);
        let Some(here) = self.sides.issue(k) else {
            return Ok(older);
        };
        for u in last {
            if let Some(due) = self.sides.due(*u)
                && due <= here.cycle
                && Some(*u) != read
            {
                older.push((due, *u))?;
            }
        }
        older.sort_unstable();
        Ok(older)
    }
}

/// What an operation may have been meant to read, left to right.
#[derive(Drop)]
pub(crate) struct Guesses {
    left: Vec<Guess>,
    right: Vec<Guess>,
}

/// What is said of the first of `guesses` that has the value `wanted` and says anything.
fn what_of(guesses: &[Guess], wanted: u64) -> Option<What> {
    for guess in guesses {
        if guess.what.is_some() && guess.value == wanted {
            return guess.what;
        }
    }
    None
}

impl Guesses {
    /// What is said where this was meant at a place.
    pub(crate) fn what(&self, place: usize, wanted: u64) -> Option<What> {
        if place == 0 {
            what_of(&self.left, wanted)
        } else {
            what_of(&self.right, wanted)
        }
    }
}

impl Looking<'_> {
    /// What operation k of the rows may have been meant to read, at each use apart.
    pub(crate) fn both(
        &self,
        alloc: Global,
        flow: &DataFlow,
        k: usize,
    ) -> Result<Guesses, NoMemory> {
        let sources = flow.sources(k);
        let left = self.guesses(alloc, k, 0, source_at(sources, 0))?;
        let right = self.guesses(alloc, k, 1, source_at(sources, 1))?;
        Ok(Guesses { left, right })
    }
}

/// What an operation may have been meant to read at all its uses.
#[derive(Clone, Copy)]
pub(crate) struct Pick {
    pub values: Values,
    pub cost: u32,
    /// What is said if it is so, of each use.
    pub said: [Option<What>; 2],
}

impl Looking<'_> {
    /// What operation k of the rows may have been meant to read.
    pub(crate) fn picks(
        &self,
        alloc: Global,
        flow: &DataFlow,
        k: usize,
    ) -> Result<Vec<Pick>, NoMemory> {
        let mut picks = Vec::new(alloc);
        match flow.sources(k) {
            Sources::Nothing => picks.push(Pick {
                values: Values::Nothing,
                cost: 0,
                said: [None, None],
            })?,
            Sources::One(only) => {
                for guess in &self.guesses(alloc, k, 0, only)? {
                    picks.push(Pick {
                        values: Values::One(guess.value),
                        cost: guess.cost,
                        said: [guess.what, None],
                    })?;
                }
            }
            Sources::Two(left, right) => {
                let left = self.guesses(alloc, k, 0, left)?;
                let right = self.guesses(alloc, k, 1, right)?;
                push_pairs(&mut picks, &left, &right)?;
                push_astray(&mut picks, &left, &right)?;
            }
        }
        Ok(picks)
    }
}

/// Pushes each guess of `left` with each of `right`.
fn push_pairs(picks: &mut Vec<Pick>, left: &[Guess], right: &[Guess]) -> Result<(), NoMemory> {
    for one in left {
        for other in right {
            picks.push(Pick {
                values: Values::Two(one.value, other.value),
                cost: one.cost.saturating_add(other.cost),
                said: [one.what, other.what],
            })?;
        }
    }
    Ok(())
}

/// What is read where `guess`, one of `guesses`, was there before.
fn read_over(guesses: &[Guess], guess: &Guess) -> Option<u64> {
    match guess.what {
        Some(What::ReadsOver { .. }) => Some(guesses.first()?.value),
        _ => None,
    }
}

/// Pushes that what is read at one place, where it came over another result, was meant at the other place: it was brought in
/// the wrong register.
fn push_astray(picks: &mut Vec<Pick>, left: &[Guess], right: &[Guess]) -> Result<(), NoMemory> {
    for one in left {
        if let Some(read) = read_over(left, one) {
            picks.push(Pick {
                values: Values::Two(one.value, read),
                cost: one.cost,
                said: [one.what, None],
            })?;
        }
    }
    for other in right {
        if let Some(read) = read_over(right, other) {
            picks.push(Pick {
                values: Values::Two(read, other.value),
                cost: other.cost,
                said: [None, other.what],
            })?;
        }
    }
    Ok(())
}

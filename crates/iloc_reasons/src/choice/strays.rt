//! Results that are in another register than they are wanted in.

use super::data_flow::DataFlow;
use crate::claim::source_at;
use iloc_ops::{NoMemory, Op, Reg, defines, uses};
use std::alloc::Global;
use std::collections::BTreeMap;

/// What was brought so far, and registers that are known.
#[derive(Drop)]
pub(crate) struct Strays<'a> {
    ops: &'a [Op],
    // How many operations define each register, of those that some do, or that one with a counterpart reads as it was at the
    // start.
    known: BTreeMap<u32, usize>,
    // By what it is meant to bring, an operation whose result is never read, and one whose result is.
    unread: BTreeMap<u64, usize>,
    brought: BTreeMap<u64, usize>,
    // The operations whose results are read.
    read: &'a BTreeMap<usize, usize>,
}

/// An operation that brings what is wanted, in another register.
#[derive(Clone, Copy)]
pub(crate) enum Stray {
    /// Nobody reads it.
    NeverRead(usize),
    /// Nobody reads it, but the register where it is wanted is known.
    Astray(usize),
    /// Others read it.
    Read(usize),
}

/// Notes the registers that operation k of the rows reads as they were at the start.
fn note_starts(
    known: &mut BTreeMap<u32, usize>,
    rows: &DataFlow,
    op: &Op,
    k: usize,
) -> Result<(), NoMemory> {
    for (place, register) in uses(op).iter().enumerate() {
        if source_at(rows.sources(k), place).is_none() && known.get(&register.0).is_none() {
            known.insert(register.0, 0)?;
        }
    }
    Ok(())
}

impl<'a> Strays<'a> {
    /// None so far.
    pub(crate) fn none(
        alloc: Global,
        rows: &DataFlow<'a>,
        counterparts: &[Option<usize>],
        read: &'a BTreeMap<usize, usize>,
    ) -> Result<Strays<'a>, NoMemory> {
        let mut known: BTreeMap<u32, usize> = BTreeMap::new(alloc);
        for (k, op) in rows.ops.iter().enumerate() {
            if let Some(register) = defines(op) {
                let count = known.get(&register.0).copied().unwrap_or(0);
                known.insert(register.0, count.saturating_add(1))?;
            }
            if counterparts.get(k).copied().flatten().is_some() {
                note_starts(&mut known, rows, op, k)?;
            }
        }
        Ok(Strays {
            ops: rows.ops,
            known,
            unread: BTreeMap::new(alloc),
            brought: BTreeMap::new(alloc),
            read,
        })
    }

    /// Whether operation k shares its register with others.
    fn shares(&self, k: usize) -> bool {
        if let Some(op) = self.ops.get(k)
            && let Some(register) = defines(op)
        {
            return self.known.get(&register.0).copied().unwrap_or(0) > 1;
        }
        false
    }

    /// Operation k is meant to bring this. Of several, one that shares its register stays.
    pub(crate) fn note(&mut self, k: usize, meant: u64) -> Result<(), NoMemory> {
        let is_read = self.read.get(&k).is_some();
        let noted = if is_read {
            self.brought.get(&meant).copied()
        } else {
            self.unread.get(&meant).copied()
        };
        if let Some(other) = noted
            && self.shares(other)
            && !self.shares(k)
        {
            return Ok(());
        }
        if is_read {
            self.brought.insert(meant, k)?;
        } else {
            self.unread.insert(meant, k)?;
        }
        Ok(())
    }

    /// The operation that is meant to bring `wanted`, and whose result is never read.
    pub(crate) fn unread(&self, wanted: u64) -> Option<usize> {
        self.unread.get(&wanted).copied()
    }

    /// Whether operation k defines a register.
    fn brings_in(&self, k: usize, register: Reg) -> bool {
        match self.ops.get(k) {
            Some(op) => defines(op) == Some(register),
            None => false,
        }
    }

    /// An operation that brings this in another register than the one where it is wanted. If that is known, of a reader that is
    /// near only one that others read or that shares its register, and else only one that nobody reads.
    pub(crate) fn instead(&self, register: Reg, wanted: u64, is_near: bool) -> Option<Stray> {
        let is_known = self.known.get(&register.0).is_some();
        let unread = self.unread(wanted);
        let k = unread.or(self.brought.get(&wanted).copied())?;
        if self.brings_in(k, register) {
            return None;
        }
        match (unread, is_known) {
            (None, true) if !is_near => None,
            (None, _) => Some(Stray::Read(k)),
            (Some(_), false) => Some(Stray::NeverRead(k)),
            (Some(_), true) if is_near && !self.shares(k) => None,
            (Some(_), true) => Some(Stray::Astray(k)),
        }
    }
}

//! The operations of rows one after another, each with what it is meant to be.

use super::RowClaims;
use super::data_flow::put;
use super::doubts::{Cause, Causes, Doubt, undoubted};
use super::guesses::{Guesses, Looking, Pick};
use super::known::Known;
use super::lines::Lines;
use super::missing::{Missing, Wanted};
use super::orders::with_orders;
use super::side::Side;
use super::strays::{Stray, Strays};
use crate::claim::{Claim, What, source_at};
use crate::terms::{Values, at, mix};
use iloc_facts::Sides;
use iloc_ops::{NoMemory, defines, uses};
use iloc_timed::{Kind, Row};
use std::alloc::Global;

/// A change that is as unlikely isn't thought of.
const DEAR: u32 = 6;

/// Of how many missing operations of its label it is looked for causes why an operation isn't one of them, and how many claims
/// are looked at where no other is a fact.
const FEW: usize = 8;

/// How much less likely it is that an operation is in another place.
const MOVED: u32 = 2;

/// Whether one is known.
fn are_known(causes: Causes) -> bool {
    causes.0.is_some() || causes.1.is_some()
}

/// The cheapest change that makes an operation one that is missing.
#[derive(Clone, Copy)]
struct Change {
    cost: u32,
    /// The operation of the block that it is then.
    i: usize,
    said: [Option<What>; 2],
    moved: bool,
}

/// The rows, as far as they were gone through.
#[derive(Drop)]
pub(crate) struct Walk<'a> {
    pub alloc: Global,
    pub sides: &'a Sides<'a>,
    pub block: &'a Side<'a>,
    pub rows: &'a Side<'a>,
    pub missing: Missing,
    pub strays: Strays<'a>,
    pub found: Found,
    /// The last store that is one of the block.
    pub store: Option<usize>,
    pub said: Said,
}

/// What is found of the operations of rows so far.
#[derive(Drop)]
pub(crate) struct Found {
    /// By operation its counterpart of its term.
    counterparts: Vec<Option<usize>>,
    /// By operation which one of the block it is found to be.
    partners: Vec<Option<usize>>,
    /// By operation what it is meant to bring.
    meant: Vec<u64>,
    /// By register the operations that defined it so far, the last first.
    definers: Lines,
}

impl Found {
    /// Nothing but counterparts.
    pub(crate) fn of(
        alloc: Global,
        rows: &Side,
        counterparts: Vec<Option<usize>>,
    ) -> Result<Found, NoMemory> {
        let count = rows.terms.len();
        Ok(Found {
            partners: vec![in alloc; None; count]?,
            meant: Vec::from_slice(alloc, &rows.terms)?,
            definers: Lines::new(alloc, count)?,
            counterparts,
        })
    }

    /// Operation k is meant to be operation i of the block, and to bring this.
    fn note(&mut self, k: usize, i: Option<usize>, term: u64) {
        put(&mut self.partners, k, i);
        put(&mut self.meant, k, term);
    }
}

/// What is said so far.
#[derive(Drop)]
pub(crate) struct Said {
    claims: Vec<Claim>,
    doubts: Vec<Doubt>,
    /// The operations that are found to be in another place than in the block.
    moved: Vec<usize>,
    /// The first operation that is like none of the block.
    unlike: Option<usize>,
}

impl Said {
    /// Nothing.
    pub(crate) fn nothing(alloc: Global) -> Said {
        Said {
            claims: Vec::new(alloc),
            doubts: Vec::new(alloc),
            moved: Vec::new(alloc),
            unlike: None,
        }
    }

    /// Something may be a fact of operation k.
    fn claim(&mut self, k: usize, what: What) -> Result<(), NoMemory> {
        Ok(self.claims.push(Claim { k, what })?)
    }

    /// All that a change makes of operation k.
    fn change(&mut self, k: usize, change: &Change) -> Result<(), NoMemory> {
        for said in change.said {
            if let Some(what) = said {
                self.claim(k, what)?;
            }
        }
        if change.moved {
            self.moved.push(k)?;
        }
        Ok(())
    }

    /// Operation k stands for operation i of the block: says why or, where nothing is known, that it does.
    fn stand_for(&mut self, k: usize, i: usize, causes: Causes) -> Result<(), NoMemory> {
        let what = What::For { op: i };
        if !are_known(causes) {
            return self.claim(k, what);
        }
        self.put_down(Claim { k, what }, 0, causes.0)?;
        self.put_down(Claim { k, what }, 1, causes.1)
    }

    /// What an operation reads at a place is put down to a cause: says it, or doubts what is claimed of the operation.
    fn put_down(
        &mut self,
        claim: Claim,
        place: usize,
        cause: Option<Cause>,
    ) -> Result<(), NoMemory> {
        match cause {
            None => Ok(()),
            Some(Cause::Said(said)) => self.claim(said.k, said.what),
            Some(cause) => Ok(
                self.doubts.push(Doubt {
                    claim,
                    place,
                    cause,
                })?,
            ),
        }
    }
}

impl Walk<'_> {
    /// Operation k is meant to be operation i of the block.
    fn take(&mut self, k: usize, i: usize) {
        self.missing.take(i);
        let term = at(&self.block.terms, i);
        self.found.note(k, Some(i), term);
    }

    /// The place of operation k as a number.
    fn place(&self, k: usize) -> u64 {
        at(&self.rows.places, k)
    }

    /// Notes what is issued in a slot as the last that defines its register.
    fn define(&mut self, slot: Option<usize>) -> Result<(), NoMemory> {
        if let Some(k) = slot
            && let Some(op) = self.sides.schedule.ops().get(k)
            && let Some(register) = defines(op)
        {
            self.found.definers.put_first(u64::from(register.0), k)?;
        }
        Ok(())
    }

    /// Goes on to what is issued in a slot.
    fn pass_slot(&mut self, slot: Option<usize>) -> Result<(), NoMemory> {
        if let Some(k) = slot {
            self.wait(k)?;
            self.step(k)?;
            self.note(k)?;
        }
        Ok(())
    }

    /// Goes on to what is issued in a row.
    pub(crate) fn pass(&mut self, row: &Row) -> Result<(), NoMemory> {
        self.define(row.zero)?;
        self.define(row.one)?;
        self.pass_slot(row.zero)?;
        self.pass_slot(row.one)
    }

    /// Whether a store is under way when operation k is issued.
    fn is_under_way(&self, store: usize, k: usize) -> bool {
        match (self.sides.due(store), self.sides.issue(k)) {
            (Some(due), Some(issue)) => issue.cycle < due,
            _ => false,
        }
    }

    /// Says it if load or output k is issued while the last store is under way.
    fn wait(&mut self, k: usize) -> Result<(), NoMemory> {
        if let Some(store) = self.store
            && matches!(self.rows.flow.kind(k), Kind::Load | Kind::Output)
            && self.is_under_way(store, k)
        {
            self.said.claim(k, What::While { store })?;
        }
        Ok(())
    }

    /// Notes what is found of operation k. Nothing has to wait for a store that is like none of the block.
    fn note(&mut self, k: usize) -> Result<(), NoMemory> {
        if self.rows.flow.kind(k) == Kind::Store && self.known().partner(k).is_some() {
            self.store = Some(k);
        }
        self.strays.note(k, at(&self.found.meant, k))
    }

    /// Finds what operation k is meant to be, and what is said of it.
    fn step(&mut self, k: usize) -> Result<(), NoMemory> {
        let values = Values::of(&self.found.meant, self.rows.flow.sources(k));
        let own = self.rows.term(k, self.place(k), values);
        let counterpart = self.found.counterparts.get(k).copied().flatten();
        if own == at(&self.rows.terms, k) && counterpart.is_some() {
            self.found.note(k, counterpart, own);
            return Ok(());
        }
        if let Some(i) = self.missing.of_term(own, at(&self.rows.readers, k))? {
            self.take(k, i);
            return Ok(());
        }
        self.explain(k, values, own)
    }

    /// Finds what operation `k` is meant to be, whose term `own` no missing operation has, and says why.
    fn explain(&mut self, k: usize, values: Values, own: u64) -> Result<(), NoMemory> {
        if let Some(change) = self.cheapest(k)? {
            self.said.change(k, &change)?;
            self.take(k, change.i);
        } else if let Some((i, causes)) = self.counterpart(k, values)? {
            self.said.stand_for(k, i, causes)?;
            self.take(k, i);
        } else {
            self.said.unlike = self.said.unlike.or(Some(k));
            self.said.claim(k, What::LikeNone)?;
            put(&mut self.found.meant, k, mix(own, own));
        }
        Ok(())
    }

    /// The missing operation that operation k is if its operands are exchanged.
    fn exchanged(&mut self, k: usize, values: Values) -> Result<Option<usize>, NoMemory> {
        match values {
            Values::Two(left, right) if left != right => {
                let values = Values::Two(right, left);
                let term = self.rows.term(k, self.place(k), values);
                self.missing.of_term(term, at(&self.rows.readers, k))
            }
            _ => Ok(None),
        }
    }

    /// Whether operation k reads one register twice.
    fn reads_twice(&self, k: usize) -> bool {
        let Some(op) = self.sides.schedule.ops().get(k) else {
            return false;
        };
        let registers = uses(op);
        match (registers.get(0), registers.get(1)) {
            (Some(left), Some(right)) => left == right,
            _ => false,
        }
    }

    /// What operation k is meant to be, besides its label.
    fn wanted(&self, k: usize, values: Values) -> Wanted {
        Wanted {
            place: self.place(k),
            values,
            is_twice: false,
            readers: at(&self.rows.readers, k),
        }
    }

    /// The missing operation that operation `k` is if its operands are exchanged; else the nearest one of its label;
    /// else one for which the causes are known why `k` reads otherwise; else the nearest one if `k` reads one register
    /// twice. With the causes.
    fn counterpart(
        &mut self,
        k: usize,
        values: Values,
    ) -> Result<Option<(usize, Causes)>, NoMemory> {
        if let Some(i) = self.exchanged(k, values)? {
            return Ok(Some((i, (None, None))));
        }
        let (alloc, rows) = (self.alloc, self.rows);
        let guesses = self.looking().both(alloc, rows.flow, k)?;
        let these = self.missing.of_label(alloc, at(&rows.flow.labels, k))?;
        let wanted = self.wanted(k, values);
        if let Some(i) = self.missing.nearest(self.block, &these, &wanted) {
            return Ok(Some((i, self.causes(k, values, i, &guesses, true))));
        }
        if let Some(found) = self.by_causes(k, values, &these, &guesses) {
            return Ok(Some(found));
        }
        let is_twice = self.reads_twice(k);
        match self
            .missing
            .nearest(self.block, &these, &Wanted { is_twice, ..wanted })
        {
            Some(i) => Ok(Some((i, self.causes(k, values, i, &guesses, true)))),
            None => Ok(None),
        }
    }

    /// The first of the first `FEW` of `these` that has the place of operation `k` and known causes.
    fn by_causes(
        &self,
        k: usize,
        values: Values,
        these: &[usize],
        guesses: &Guesses,
    ) -> Option<(usize, Causes)> {
        for i in these.iter().take(FEW) {
            let causes = self.causes(k, values, *i, guesses, false);
            if at(&self.block.places, *i) == self.place(k) && are_known(causes) {
                return Some((*i, causes));
            }
        }
        None
    }

    /// Why operation k reads otherwise than operation i of the block, which is near it or not; nothing unless it is known at
    /// each place where it does.
    fn causes(
        &self,
        k: usize,
        values: Values,
        i: usize,
        guesses: &Guesses,
        is_near: bool,
    ) -> Causes {
        let theirs = Values::of(&self.block.terms, self.block.flow.sources(i));
        let mut causes = (None, None);
        for place in 0..2 {
            if let Some(wanted) = theirs.at(place)
                && values.at(place) != Some(wanted)
            {
                let what = guesses.what(place, wanted);
                let cause = match what {
                    Some(what) => Some(Cause::Said(Claim { k, what })),
                    None => self.elsewhere(k, place, i, is_near),
                };
                if cause.is_none() {
                    return (None, None);
                }
                if place == 0 {
                    causes.0 = cause;
                } else {
                    causes.1 = cause;
                }
            }
        }
        causes
    }

    /// That what operation k was to read at a place, if it is operation i of the block, is brought elsewhere.
    fn elsewhere(&self, k: usize, place: usize, i: usize, is_near: bool) -> Option<Cause> {
        let op = self.sides.schedule.ops().get(k)?;
        let register = uses(op).get(place).copied()?;
        let source = source_at(self.block.flow.sources(i), place)?;
        let wanted = at(&self.block.terms, source);
        Some(match self.strays.instead(register, wanted, is_near)? {
            Stray::NeverRead(u) => {
                let what = What::NeverRead;
                Cause::Said(Claim { k: u, what })
            }
            Stray::Astray(u) => Cause::Astray(u),
            Stray::Read(u) => Cause::Elsewhere(u),
        })
    }

    /// What is known while operations' uses are looked at.
    fn looking(&self) -> Looking<'_> {
        Looking {
            sides: self.sides,
            definers: &self.found.definers,
            meant: &self.found.meant,
        }
    }

    /// The cheapest change that makes operation k one that is missing.
    fn cheapest(&mut self, k: usize) -> Result<Option<Change>, NoMemory> {
        let (alloc, rows) = (self.alloc, self.rows);
        let picks = self.looking().picks(alloc, rows.flow, k)?;
        let mut best = None;
        for pick in &picks {
            best = self.cheaper(k, pick, best)?;
        }
        Ok(best)
    }

    /// `best`, or the change by which operation `k` reads the values of `pick`, if that is cheaper.
    fn cheaper(
        &mut self,
        k: usize,
        pick: &Pick,
        best: Option<Change>,
    ) -> Result<Option<Change>, NoMemory> {
        let most = match best {
            Some(change) => change.cost,
            None => DEAR,
        };
        if pick.cost >= most {
            return Ok(best);
        }
        let term = self.rows.term(k, self.place(k), pick.values);
        if let Some(i) = self.missing.of_term(term, at(&self.rows.readers, k))? {
            return Ok(Some(Change {
                cost: pick.cost,
                i,
                said: pick.said,
                moved: false,
            }));
        }
        let cost = pick.cost.saturating_add(MOVED);
        let reads = self.rows.term(k, 0, pick.values);
        match self.missing.of_reads(reads)? {
            Some(i) if cost < most && at(&self.block.places, i) != self.place(k) => {
                Ok(Some(Change {
                    cost,
                    i,
                    said: pick.said,
                    moved: true,
                }))
            }
            _ => Ok(best),
        }
    }

    /// What is known of all operations.
    fn known(&self) -> Known<'_> {
        Known {
            sides: self.sides,
            block: self.block,
            rows: self.rows,
            partners: &self.found.partners,
            meant: &self.found.meant,
        }
    }

    /// What is claimed of all operations: by row, then what stands for others, and last what is less likely.
    fn all_claims(&self) -> Result<Vec<Claim>, NoMemory> {
        let known = self.known();
        let undoubted = undoubted(self.alloc, &known, &self.said.doubts, &self.said.claims)?;
        let claims = with_orders(self.alloc, &known, &self.said.moved, &undoubted.claims)?;
        let mut listed = self.telling(self.by_row(&claims)?)?;
        let unlikely = self.by_row(&undoubted.unlikely)?;
        listed.extend_from_slice(&unlikely)?;
        Ok(listed)
    }

    /// What is claimed, by row, each once; last what stands for others.
    fn by_row(&self, all: &[Claim]) -> Result<Vec<Claim>, NoMemory> {
        let mut order = Vec::with_capacity(self.alloc, all.len())?;
        for (place, claim) in all.iter().enumerate() {
            let cycle = self.sides.issue(claim.k).map_or(0, |issue| issue.cycle);
            let is_for = matches!(claim.what, What::For { .. });
            order.push((is_for, cycle, claim.k, place))?;
        }
        order.sort_unstable();
        let mut claims: Vec<Claim> = Vec::with_capacity(self.alloc, order.len())?;
        for (_, _, _, place) in &order {
            if let Some(claim) = all.get(*place)
                && claims.last() != Some(claim)
            {
                claims.push(*claim)?;
            }
        }
        Ok(claims)
    }

    /// Whether it is claimed that an operation stands for one that is spelled alike.
    fn is_spelled_alike(&self, claim: &Claim) -> bool {
        match claim.what {
            What::For { op } => self.sides.block.get(op) == self.sides.schedule.ops().get(claim.k),
            _ => false,
        }
    }

    /// The `claims` that say more than that an operation stands for one that is spelled alike; all, if there is none.
    fn telling(&self, claims: Vec<Claim>) -> Result<Vec<Claim>, NoMemory> {
        let mut telling = Vec::new(self.alloc);
        for claim in &claims {
            if !self.is_spelled_alike(claim) {
                telling.push(*claim)?;
            }
        }
        Ok(if telling.is_empty() { claims } else { telling })
    }

    /// An operation that nobody reads, and that brings what operation `k` was to read at `place` if it is operation `i` of the
    /// block.
    fn unread(&self, k: usize, place: usize, i: usize) -> Option<Claim> {
        if self.known().reads_rightly(k, place) {
            return None;
        }
        let source = source_at(self.block.flow.sources(i), place)?;
        let what = What::NeverRead;
        let k = self.strays.unread(at(&self.block.terms, source))?;
        Some(Claim { k, what })
    }

    /// What is claimed where none of `all` is a fact: of each of its first operations that stand for another one, that it doesn't
    /// read what the other one reads, and that nobody reads what it was to read. It may read an older load, which differs from the
    /// block's in its memory alone.
    fn otherwise(&self, all: &[Claim]) -> Result<Vec<Claim>, NoMemory> {
        let mut claims = Vec::new(self.alloc);
        for claim in all {
            if let What::For { op } = claim.what
                && claims.len() < FEW
            {
                let k = claim.k;
                let what = What::See { op };
                claims.push(Claim { k, what })?;
                for place in 0..2 {
                    if let Some(unread) = self.unread(k, place, op) {
                        claims.push(unread)?;
                    }
                }
            }
        }
        Ok(claims)
    }

    /// What is claimed. Of the operations that are left out, the first of which the rows have too few is named.
    pub(crate) fn choice(&self) -> Result<RowClaims, NoMemory> {
        let claims = self.all_claims()?;
        Ok(RowClaims {
            otherwise: self.otherwise(&claims)?,
            claims,
            left_out: self.missing.first_short(),
            added: self.said.unlike,
        })
    }
}

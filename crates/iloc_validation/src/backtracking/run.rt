//! The search in mid-run.

use super::pairs::Pairs;
use super::readers::{Reader, Readers};
use crate::numbers::NONE;
use crate::pairing::Pairing;
use iloc_ops::NoMemory;
use std::alloc::Global;

/// What the search does next.
#[derive(Clone, Copy)]
enum Step {
    /// Makes a pair that follows.
    Follow,
    /// Looks at a reader.
    Look,
    /// Tries a candidate.
    Try,
    /// Nothing: all operations are paired, or not.
    End { found: bool },
}

/// How far the search has looked for readers without a partner.
#[derive(Clone, Copy)]
struct Looked {
    /// How many pairs have none.
    pairs: usize,
    /// How many readers of the next pair have one.
    readers: usize,
}

/// A partner for a reader, which can be taken back.
#[derive(Clone, Copy)]
struct PartnerChoice {
    /// What the partner is to be like; the operation is the reader of the block.
    wanted: Reader,
    /// How many pairs there were before, and how far the search had looked.
    pairs: usize,
    looked: Looked,
    /// The candidates between these indices among the readers of the rows were tried.
    below: usize,
    above: usize,
}

/// A search in mid-run.
#[derive(Drop)]
pub(crate) struct Search<'a> {
    block: &'a Readers<'a>,
    rows: &'a Readers<'a>,
    pairs: Pairs,
    // Operations that have to be paired too.
    following: Vec<(usize, usize)>,
    // The choices since pairs were last kept.
    choices: Vec<PartnerChoice>,
    looked: Looked,
    // How many operations of the block, in order of colours, have pairs that are kept.
    kept: usize,
    // The operation of the block that was the first to be paired since pairs were last kept.
    root: usize,
}

impl<'a> Search<'a> {
    /// No pair.
    pub(crate) fn new(
        alloc: Global,
        block: &'a Readers<'a>,
        rows: &'a Readers<'a>,
    ) -> Result<Search<'a>, NoMemory> {
        Ok(Search {
            block,
            rows,
            pairs: Pairs::none(alloc, block.len(), rows.len())?,
            following: Vec::new(alloc),
            choices: Vec::new(alloc),
            looked: Looked {
                pairs: 0,
                readers: 0,
            },
            kept: 0,
            root: 0,
        })
    }

    /// Whether operation i of the block and operation k of the rows have no partner and may be partners.
    fn may_be_paired(&self, i: usize, k: usize) -> bool {
        let [left, right] = self.block.sources(i);
        let [left_there, right_there] = self.rows.sources(k);
        self.pairs.partner(i) == NONE
            && self.pairs.origin(k) == NONE
            && self.block.colour(i) == self.rows.colour(k)
            && left.is_some() == left_there.is_some()
            && right.is_some() == right_there.is_some()
    }

    /// Makes a pair that follows.
    fn follow(&mut self) -> Result<Step, NoMemory> {
        let Some((i, k)) = self.following.pop() else {
            return Ok(Step::Look);
        };
        if self.pairs.partner(i) == k {
            return Ok(Step::Follow);
        }
        if !self.may_be_paired(i, k) {
            self.following.clear();
            return Ok(Step::Try);
        }
        self.pairs.pair(i, k)?;
        let (sources, sources_there) = (self.block.sources(i), self.rows.sources(k));
        for (source, source_there) in sources.iter().zip(sources_there.iter()) {
            if let (Some(i), Some(k)) = (*source, *source_there) {
                self.following.push((i, k))?;
            }
        }
        Ok(Step::Follow)
    }

    /// The choice of a partner for a reader with this number.
    fn choice(&self, reader: Reader, number: usize) -> PartnerChoice {
        let source = reader.source.map(|i| self.pairs.partner(i));
        let index = self.rows.index(source, number);
        PartnerChoice {
            wanted: Reader { source, ..reader },
            pairs: self.pairs.len(),
            looked: self.looked,
            below: index,
            above: index,
        }
    }

    /// Looks at a reader of the first pair that may have one without a partner, or else at the next operation.
    fn look(&mut self) -> Result<Step, NoMemory> {
        let source = self.pairs.paired(self.looked.pairs);
        if source.is_none() {
            self.choices.clear();
        }
        let number = if source.is_some() {
            self.looked.readers
        } else {
            self.kept
        };
        match (self.block.reader(source, number), source) {
            (Some(reader), _) if self.pairs.partner(reader.op) == NONE => {
                if source.is_none() {
                    self.root = reader.op;
                }
                let choice = self.choice(reader, number);
                self.choices.push(choice)?;
                return Ok(Step::Try);
            }
            (Some(_), Some(_)) => self.looked.readers = number.saturating_add(1),
            (Some(_), None) => self.kept = number.saturating_add(1),
            (None, Some(_)) => {
                self.looked = Looked {
                    pairs: self.looked.pairs.saturating_add(1),
                    readers: 0,
                }
            }
            (None, None) => return Ok(Step::End { found: true }),
        }
        Ok(Step::Look)
    }

    /// Tries the next candidate of the last choice.
    fn try_next(&mut self) -> Result<Step, NoMemory> {
        let Some(mut choice) = self.choices.pop() else {
            return Ok(Step::End { found: false });
        };
        self.pairs.take_back(choice.pairs);
        self.looked = choice.looked;
        let Some(k) = self.candidate(&mut choice) else {
            return Ok(Step::Try);
        };
        self.choices.push(choice)?;
        if self.pairs.origin(k) != NONE {
            return Ok(Step::Try);
        }
        self.following.push((choice.wanted.op, k))?;
        Ok(Step::Follow)
    }

    /// The next candidate of `choice`: first the ones at the reader's place and above it, then the ones below.
    fn candidate(&self, choice: &mut PartnerChoice) -> Option<usize> {
        if let Some(k) = self.rows.like(choice.wanted, choice.above) {
            choice.above = choice.above.saturating_add(1);
            return Some(k);
        }
        choice.below = choice.below.checked_sub(1)?;
        self.rows.like(choice.wanted, choice.below)
    }

    /// Pairs all operations; answers whether `steps` steps were enough.
    pub(crate) fn run(&mut self, steps: usize) -> Result<bool, NoMemory> {
        let mut step = Step::Look;
        for _ in 0..steps {
            step = match step {
                Step::Follow => self.follow()?,
                Step::Look => self.look()?,
                Step::Try => self.try_next()?,
                Step::End { found } => return Ok(found),
            };
        }
        Ok(false)
    }

    /// Where not all are paired, an operation of the block for which no partner was found.
    pub(crate) fn root(&self) -> usize {
        self.root
    }

    /// The pairs that were found.
    pub(crate) fn into_pairing(self) -> Pairing {
        self.pairs.into_pairing()
    }
}

//! What is known of the operations of rows once all of them were gone through.

use super::side::Side;
use crate::claim::{Claim, What, source_at};
use crate::terms::value;
use iloc_facts::Sides;

/// What is known of operations once all of them were gone through.
#[derive(Clone, Copy)]
pub(crate) struct Known<'a> {
    pub sides: &'a Sides<'a>,
    pub block: &'a Side<'a>,
    pub rows: &'a Side<'a>,
    /// By operation of the rows which one of the block it is found to be.
    pub partners: &'a [Option<usize>],
    /// By operation of the rows what it is meant to bring.
    pub meant: &'a [u64],
}

impl Known<'_> {
    /// The operation of the block that operation k is found to be.
    pub(crate) fn partner(&self, k: usize) -> Option<usize> {
        self.partners.get(k).copied().flatten()
    }

    /// The cycle in which operation k is issued.
    pub(crate) fn issued(&self, k: usize) -> Option<usize> {
        Some(self.sides.issue(k)?.cycle)
    }

    /// What is claimed if operation k and another one aren't in the block's order.
    pub(crate) fn against(&self, k: usize, other: usize) -> Option<Claim> {
        let (i, o) = (self.partner(k)?, self.partner(other)?);
        let (here, there) = (self.issued(k)?, self.issued(other)?);
        if o < i && here <= there || i < o && there < here {
            let what = What::Beside { other, i, o };
            return Some(Claim { k, what });
        }
        None
    }

    /// Whether operation k reads at a place what it is meant to read there.
    pub(crate) fn reads_rightly(&self, k: usize, place: usize) -> bool {
        let Some(i) = self.partner(k) else {
            return false;
        };
        let here = source_at(self.rows.flow.sources(k), place);
        let there = source_at(self.block.flow.sources(i), place);
        value(self.meant, here) == value(&self.block.terms, there)
    }
}

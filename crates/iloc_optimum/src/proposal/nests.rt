//! Cycles within others that too many windows are in.
ghost use Rattle.std.specs.Prelude.{◌≡◌, length};

use crate::nests::Nest;
use crate::proposal::{Span, Window, ends_before, take_windows};
use iloc_bound::Share;
use iloc_ops::NoMemory;
use iloc_timed::Kind;
use std::alloc::Global;

/// The shares that one unit alone takes.
const ONE_UNIT: [Share; 2] = [Share::Memory, Share::Products];

/// Cycles, and by how many the windows within them are more than one in a row.
#[derive(Clone, Copy)]
struct Inner {
    span: Span,
    excess: u32,
}

/// What is known of a cycle while the ends of nests rise.
#[derive(Clone, Copy)]
struct Begin {
    /// How many of the windows that end by now begin here: of the share, and others.
    members: u32,
    others: u32,
    /// Of the cycles from here or later on those that most others are too many for.
    inner: Inner,
}

/// Proposes nests, in buffers of its own.
#[derive(Drop)]
pub(crate) struct NestProposer {
    windows: Vec<Window>,
    begins: Vec<Begin>,
    /// What is proposed.
    pub nests: Vec<Nest>,
}

impl NestProposer {
    /// One that has no memory yet.
    pub fn new(alloc: Global) -> NestProposer {
        NestProposer {
            windows: Vec::new(alloc),
            begins: Vec::new(alloc),
            nests: Vec::new(alloc),
        }
    }

    /// Proposes for each share of one unit a nest that more windows are in than it holds, if there is one.
    pub fn propose(&mut self, kinds: &[Kind], firsts: &[u32], lasts: &[u32]) -> Result<(), NoMemory>
        requires firsts { length firsts.now ≡ length kinds.now }
        requires lasts { length lasts.now ≡ length kinds.now }
    {
        let horizon = take_windows(&mut self.windows, kinds, firsts, lasts, Share::All)?;
        let nowhere = Inner {
            span: Span { from: 0, to: 0 },
            excess: 0,
        };
        let empty = Begin {
            members: 0,
            others: 0,
            inner: nowhere,
        };
        self.nests.clear();
        for share in ONE_UNIT {
            self.begins.clear();
            self.begins.resize(horizon, empty)?;
            if let Some(nest) = overfull(&self.windows, &mut self.begins, share) {
                self.nests.push(nest)?;
            }
        }
        Ok(())
    }
}

/// The first nest that too many of the windows that end by `to`, `total` in all, are in.
fn sweep(begins: &mut [Begin], share: Share, to: u32, total: u32) -> Option<Nest> {
    let (mut rows, mut members, mut others): (u32, u32, u32) = (0, 0, 0);
    let mut best = Inner {
        span: Span { from: to, to },
        excess: 0,
    };
    for from in (0..to.saturating_add(1)).rev() {
        rows = rows.saturating_add(1);
        if total < rows {
            return None;
        }
        if let Some(begin) = begins.get_mut(from as usize) {
            members = members.saturating_add(begin.members);
            others = others.saturating_add(begin.others);
            let span = Span { from, to };
            let excess = others.saturating_sub(rows);
            best = greater(greater(best, Inner { span, excess }), begin.inner);
            begin.inner = best;
            if rows < members.saturating_add(best.excess) {
                return Some(Nest {
                    share,
                    outer: span,
                    inner: best.span,
                });
            }
        }
    }
    None
}

/// Of two the one that more windows are too many for.
fn greater(one: Inner, other: Inner) -> Inner {
    if one.excess < other.excess {
        other
    } else {
        one
    }
}

/// The nest of the first end that too many windows are in.
fn overfull(windows: &[Window], begins: &mut [Begin], share: Share) -> Option<Nest> {
    let mut total: u32 = 0;
    for k in 0..windows.len() {
        let window = windows[k];
        total = total.saturating_add(1);
        if let Some(begin) = begins.get_mut(window.from as usize) {
            if share.has(window.kind) {
                begin.members = begin.members.saturating_add(1);
            } else {
                begin.others = begin.others.saturating_add(1);
            }
        }
        if ends_before(window, windows.get(k + 1)) {
            let found = sweep(begins, share, window.to, total);
            if found.is_some() {
                return found;
            }
        }
    }
    None
}

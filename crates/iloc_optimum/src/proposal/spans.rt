//! Spans that windows of a share fill.
ghost use Rattle.std.specs.Prelude.{◌≡◌, length};

use crate::proposal::{Span, Window, ends_before, take_windows};
use iloc_bound::Share;
use iloc_ops::NoMemory;
use iloc_timed::Kind;
use std::alloc::Global;

/// What is known of a cycle while the ends of spans rise.
#[derive(Clone, Copy)]
struct Begin {
    /// How many of the windows that end by now begin here, and how many of the later ones.
    ended: u32,
    open: u32,
    /// How many windows end here.
    ends: u32,
    /// The last end of a span from here that windows fill while another one ends in it.
    last: Option<u32>,
}

/// Proposes spans, one share after another, in buffers of its own.
#[derive(Drop)]
pub(crate) struct SpanProposer {
    windows: Vec<Window>,
    begins: Vec<Begin>,
    /// What is proposed.
    pub spans: Vec<Span>,
}

impl SpanProposer {
    /// One that has no memory yet.
    pub fn new(alloc: Global) -> SpanProposer {
        SpanProposer {
            windows: Vec::new(alloc),
            begins: Vec::new(alloc),
            spans: Vec::new(alloc),
        }
    }

    /// Proposes spans that windows of the share fill while another one begins or ends in them, or that more windows are in
    /// than they hold: for each end the earliest begin, for each begin the last end.
    pub fn propose(
        &mut self,
        kinds: &[Kind],
        firsts: &[u32],
        lasts: &[u32],
        share: Share,
    ) -> Result<(), NoMemory>
        requires firsts { length firsts.now ≡ length kinds.now }
        requires lasts { length lasts.now ≡ length kinds.now }
    {
        let horizon = take_windows(&mut self.windows, kinds, firsts, lasts, share)?;
        let empty = Begin {
            ended: 0,
            open: 0,
            ends: 0,
            last: None,
        };
        self.begins.clear();
        self.begins.resize(horizon, empty)?;
        note_windows(&mut self.begins, &self.windows);
        self.spans.clear();
        push_by_ends(
            &mut self.spans,
            &self.windows,
            &mut self.begins,
            share.width(),
        )?;
        push_by_begins(&mut self.spans, &self.begins)
    }
}

/// Notes where each window begins and ends.
fn note_windows(begins: &mut [Begin], windows: &[Window]) {
    for window in windows {
        if let Some(begin) = begins.get_mut(window.from as usize) {
            begin.open = begin.open.saturating_add(1);
        }
        if let Some(begin) = begins.get_mut(window.to as usize) {
            begin.ends = begin.ends.saturating_add(1);
        }
    }
}

/// Notes from which cycles the windows that end by `to`, `total` in all, fill theirs up to there, and answers the first one
/// where another window begins in them, or one from which there are too many.
fn sweep(begins: &mut [Begin], to: u32, total: u32, width: u32) -> Option<u32> {
    let (mut room, mut inside, mut open, mut ends): (u32, u32, u32, u32) = (0, 0, 0, 0);
    let mut lowest = None;
    for from in (0..to.saturating_add(1)).rev() {
        room = room.saturating_add(width);
        if total < room {
            return lowest;
        }
        if let Some(begin) = begins.get_mut(from as usize) {
            inside = inside.saturating_add(begin.ended);
            open = open.saturating_add(begin.open);
            ends = ends.saturating_add(begin.ends);
            if room < inside {
                return Some(from);
            }
            if room == inside && 0 < open {
                lowest = Some(from);
            }
            if room == inside && inside < ends {
                begin.last = Some(to);
            }
        }
    }
    lowest
}

/// Proposes for each end of a window the earliest begin.
fn push_by_ends(
    spans: &mut Vec<Span>,
    windows: &[Window],
    begins: &mut [Begin],
    width: u32,
) -> Result<(), NoMemory> {
    let mut total: u32 = 0;
    for k in 0..windows.len() {
        let window = windows[k];
        total = total.saturating_add(1);
        if let Some(begin) = begins.get_mut(window.from as usize) {
            begin.ended = begin.ended.saturating_add(1);
            begin.open = begin.open.saturating_sub(1);
        }
        if ends_before(window, windows.get(k + 1)) {
            if let Some(from) = sweep(begins, window.to, total, width) {
                spans.push(Span {
                    from,
                    to: window.to,
                })?;
            }
        }
    }
    Ok(())
}

/// Proposes for each begin the last end.
fn push_by_begins(spans: &mut Vec<Span>, begins: &[Begin]) -> Result<(), NoMemory> {
    for from in 0..begins.len() {
        if let Some(to) = begins[from].last {
            if let Ok(from) = u32::try_from(from) {
                spans.push(Span { from, to })?;
            }
        }
    }
    Ok(())
}

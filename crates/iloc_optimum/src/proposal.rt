//! Which cycles are worth counting. Nothing rests on it: where cycles are named in vain, the count says so.
ghost use Rattle.std.specs.Prelude.{◌≡◌, length};

pub(crate) mod nests;
pub(crate) mod spans;

use crate::proposal::nests::NestProposer;
use crate::proposal::spans::SpanProposer;
use iloc_bound::Share;
use iloc_ops::NoMemory;
use iloc_timed::Kind;
use std::alloc::Global;

/// The cycles from the first to the last.
#[derive(Clone, Copy)]
pub(crate) struct Span {
    pub from: u32,
    pub to: u32,
}

/// Proposes what to count.
#[derive(Drop)]
pub(crate) struct Proposer {
    pub spans: SpanProposer,
    pub nests: NestProposer,
}

impl Proposer {
    /// One that has no memory yet.
    pub fn new(alloc: Global) -> Proposer {
        Proposer {
            spans: SpanProposer::new(alloc),
            nests: NestProposer::new(alloc),
        }
    }
}

/// The window of an operation of this kind.
#[derive(Clone, Copy)]
struct Window {
    from: u32,
    to: u32,
    kind: Kind,
}

/// Fills a list with the windows of a share, by rising last cycles, and answers by which cycle all have ended.
fn take_windows(
    windows: &mut Vec<Window>,
    kinds: &[Kind],
    firsts: &[u32],
    lasts: &[u32],
    share: Share,
) -> Result<usize, NoMemory>
    requires firsts { length firsts.now ≡ length kinds.now }
    requires lasts { length lasts.now ≡ length kinds.now }
{
    windows.clear();
    for i in 0..kinds.len() {
        if share.has(kinds[i]) {
            windows.push(Window {
                from: firsts[i],
                to: lasts[i],
                kind: kinds[i],
            })?;
        }
    }
    windows.sort_unstable_by_key(|window| window.to);
    Ok(match windows.last() {
        Some(window) => window.to as usize + 1,
        None => 0,
    })
}

/// Whether a window ends before the next one, if there is one.
fn ends_before(window: Window, next: Option<&Window>) -> bool {
    match next {
        Some(next) => window.to < next.to,
        None => true,
    }
}

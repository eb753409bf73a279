//! What delays and shares leave of windows.
ghost use Rattle.std.specs.Prelude.{ℕ, ◌≤◌, length, IsTrue, IfOk};
ghost use Rattle.iloc_optimum.specs.Timing.{Within, FitsShares, IsTiming, IsSized, AreSized};

use crate::crowds::hold_each;
use crate::nests::has_overfull;
use crate::proposal::Proposer;
use crate::waits::wait;
use crate::windows::{Windows, has_empty};
use iloc_bound::Share;
use iloc_ops::{MAX_OPS, NoMemory};
use iloc_sched::Edge;
use iloc_timed::Kind;

/// The operations that share slots.
const SHARES: [Share; 4] = [Share::Memory, Share::Products, Share::Outputs, Share::All];

/// After so many rounds windows are narrow enough, also where another round would narrow them further.
const MOST_ROUNDS: u32 = 100;

/// The first cycles together, and the last ones.
fn sums(windows: &Windows) -> (u64, u64) {
    let mut sums: (u64, u64) = (0, 0);
    for first in &windows.firsts {
        sums.0 = sums.0.saturating_add(u64::from(*first));
    }
    for last in &windows.lasts {
        sums.1 = sums.1.saturating_add(u64::from(*last));
    }
    sums
}

/// Whether each window has a cycle, and no nest that is proposed is overfull; false only if no cycles of issue are within
/// them.
fn fits(proposer: &mut Proposer, kinds: &[Kind], windows: &Windows) -> Result<bool, NoMemory>
    requires few { length kinds.now ≤ MAX_OPS }
    requires sized { AreSized kinds.now windows.now }
    ensures { IfOk result (λ some. (t : ℕ → ℕ) → FitsShares kinds.now t
        → Within windows.now.firsts.items windows.now.lasts.items t → IsTrue some) }
{
    let (firsts, lasts) = (&windows.firsts, &windows.lasts);
    if has_empty(firsts, lasts) {
        return Ok(false);
    }
    proposer.nests.propose(kinds, firsts, lasts)?;
    let overfull = has_overfull(kinds, firsts, lasts, &proposer.nests.nests);
    Ok(!overfull)
}

/// Narrows windows by the edges, and by what cycles hold of each share, until they stay; false if no cycles of issue are
/// within them.
pub(crate) fn narrow(
    proposer: &mut Proposer,
    edges: &[Edge],
    kinds: &[Kind],
    windows: &mut Windows,
) -> Result<bool, NoMemory>
    requires sized { IsSized edges.now kinds.now }
    requires windows { AreSized kinds.now windows.old }
    ensures sized { AreSized kinds.now windows.new }
    ensures kept { IfOk result (λ some. (t : ℕ → ℕ) → IsTiming edges.now kinds.now t
        → Within windows.old.firsts.items windows.old.lasts.items t
        → IsTrue some × Within windows.new.firsts.items windows.new.lasts.items t) }
{
    for _ in 0..MOST_ROUNDS {
        let before = sums(windows);
        let some = wait(edges, windows);
        if !some {
            return Ok(false);
        }
        for share in SHARES {
            proposer
                .spans
                .propose(kinds, &windows.firsts, &windows.lasts, share)?;
            let some = hold_each(
                kinds,
                &mut windows.firsts,
                &mut windows.lasts,
                share,
                &proposer.spans.spans,
            );
            if !some {
                return Ok(false);
            }
        }
        if sums(windows) == before {
            break;
        }
    }
    fits(proposer, kinds, windows)
}

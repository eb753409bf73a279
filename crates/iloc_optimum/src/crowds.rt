//! What is left of windows where other operations of a share fill cycles.
ghost use Rattle.std.specs.Prelude.{ℕ, ◌≡◌, ◌+◌, ◌-◌, ◌*◌, ◌<◌, ◌≤◌, ◌&&◌, ◌⊎◌, nat_le, length, IsTrue};
ghost use Rattle.iloc_bound.specs.Shares.{width};
ghost use Rattle.iloc_optimum.specs.Timing.{Within, FitsShares, belongs};
ghost use Rattle.iloc_optimum.specs.Steps.Inside.{count_inside};

use crate::proposal::Span;
use iloc_bound::Share;
use iloc_ops::MAX_OPS;
use iloc_timed::Kind;

/// Whether operation i belongs to the share.
fn belongs(kinds: &[Kind], share: Share, i: usize) -> bool
    requires { i < length kinds.now }
    ensures { result ≡ belongs kinds.now share i }
{
    share.has(kinds[i])
}

/// Whether a window is within the cycles `from` to `to`.
fn is_between(first: u32, last: u32, from: u32, to: u32) -> bool
    ensures { result ≡ (nat_le from first && nat_le last to) }
{
    from <= first && last <= to
}

/// How many operations of `share` have their windows within the cycles `from` to `to`.
pub(crate) fn count_inside(
    kinds: &[Kind],
    firsts: &[u32],
    lasts: &[u32],
    share: Share,
    from: u32,
    to: u32,
) -> u32
    requires firsts { length firsts.now ≡ length kinds.now }
    requires lasts { length lasts.now ≡ length kinds.now }
    requires few { length kinds.now ≤ MAX_OPS }
    ensures { result ≡ count_inside kinds.now firsts.now lasts.now share from to (length kinds.now) }
{
    let mut count: u32 = 0;
    for i in 0..kinds.len() {
        let member = belongs(kinds, share, i);
        let inside = is_between(firsts[i], lasts[i], from, to);
        if member && inside {
            count += 1;
        }
    }
    count
}

/// The window without the full cycles, from `from` to `to`, unless it is within them.
fn narrowed(first: u32, last: u32, from: u32, to: u32) -> (u32, u32)
    ensures { (t : ℕ) → first ≤ t → t ≤ last → (((from ≤ first) × (last ≤ to)) ⊎ (t < from) ⊎ (to < t))
        → (result.0 ≤ t) × (t ≤ result.1) }
{
    if from <= first && first <= to && to < last {
        (to + 1, last)
    } else if first < from && from <= last && last <= to {
        (first, from - 1)
    } else {
        (first, last)
    }
}

/// Takes full cycles from the windows of the other operations of the share.
fn keep_out(kinds: &[Kind], firsts: &mut [u32], lasts: &mut [u32], share: Share, from: u32, to: u32)
    requires firsts { length firsts.old ≡ length kinds.now }
    requires lasts { length lasts.old ≡ length kinds.now }
    requires full { width share * (to + 1 - from)
        ≤ count_inside kinds.now firsts.old lasts.old share from to (length kinds.now) }
    ensures { (t : ℕ → ℕ) → FitsShares kinds.now t → Within firsts.old lasts.old t → Within firsts.new lasts.new t }
{
    for i in 0..kinds.len() {
        if belongs(kinds, share, i) {
            let window = narrowed(firsts[i], lasts[i], from, to);
            firsts[i] = window.0;
            lasts[i] = window.1;
        }
    }
}

/// Narrows windows by what the cycles `from` to `to` hold of `share`; false if that is less than have their windows
/// there.
fn hold(
    kinds: &[Kind],
    firsts: &mut [u32],
    lasts: &mut [u32],
    share: Share,
    from: u32,
    to: u32,
) -> bool
    requires firsts { length firsts.old ≡ length kinds.now }
    requires lasts { length lasts.old ≡ length kinds.now }
    requires few { length kinds.now ≤ MAX_OPS }
    requires order { from ≤ to }
    ensures { (t : ℕ → ℕ) → FitsShares kinds.now t → Within firsts.old lasts.old t
        → IsTrue result × Within firsts.new lasts.new t }
{
    let count = u64::from(count_inside(kinds, firsts, lasts, share, from, to));
    let width = u64::from(share.width());
    let room = width * (u64::from(to) + 1 - u64::from(from));
    if count == room {
        keep_out(kinds, firsts, lasts, share, from, to);
    }
    count <= room
}

/// Narrows windows by what each of `spans` holds of `share`; false if no cycles of issue are within them.
pub(crate) fn hold_each(
    kinds: &[Kind],
    firsts: &mut [u32],
    lasts: &mut [u32],
    share: Share,
    spans: &[Span],
) -> bool
    requires firsts { length firsts.old ≡ length kinds.now }
    requires lasts { length lasts.old ≡ length kinds.now }
    requires few { length kinds.now ≤ MAX_OPS }
    ensures { (t : ℕ → ℕ) → FitsShares kinds.now t → Within firsts.old lasts.old t
        → IsTrue result × Within firsts.new lasts.new t }
{
    for span in spans {
        if span.from <= span.to {
            let some = hold(kinds, firsts, lasts, share, span.from, span.to);
            if !some {
                return false;
            }
        }
    }
    true
}

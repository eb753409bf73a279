//! Nests: cycles within others that hold only so many operations of both together.
//!
//! Loads and stores go on one unit alone, and so do products. Where more operations of such a share have their windows
//! within the outer cycles than the rows around the inner ones can hold, they take slots of the inner ones from all others.
ghost use Rattle.std.specs.Prelude.{ℕ, ◌≡◌, ◌≤◌, ◌*◌, ◌^◌, length, IsTrue};
ghost use Rattle.iloc_bound.specs.Shares.{width};
ghost use Rattle.iloc_optimum.specs.Timing.{Within, FitsShares};

use crate::crowds::count_inside;
use crate::proposal::Span;
use iloc_bound::Share;
use iloc_ops::MAX_OPS;
use iloc_timed::Kind;

/// Outer cycles for operations of a share, and inner ones for all others.
#[derive(Clone, Copy)]
pub(crate) struct Nest {
    pub share: Share,
    pub outer: Span,
    pub inner: Span,
}

/// How many operations of `share` a number of `rows` can hold.
pub(crate) fn room_of(share: Share, rows: u64) -> u64
    requires { rows ≤ 2 ^ 32 }
    ensures value { result ≡ width share * rows }
    ensures small { result ≤ 2 * rows }
{
    u64::from(share.width()) * rows
}

/// Whether more operations have their windows within a nest than it holds.
fn is_overfull(kinds: &[Kind], firsts: &[u32], lasts: &[u32], nest: Nest) -> bool
    requires firsts { length firsts.now ≡ length kinds.now }
    requires lasts { length lasts.now ≡ length kinds.now }
    requires few { length kinds.now ≤ MAX_OPS }
    ensures { IsTrue result → (t : ℕ → ℕ) → FitsShares kinds.now t → Within firsts.now lasts.now t → ⊥ }
{
    let Nest {
        share,
        outer,
        inner,
    } = nest;
    let members = count_inside(kinds, firsts, lasts, share, outer.from, outer.to);
    let all = count_inside(kinds, firsts, lasts, Share::All, inner.from, inner.to);
    let twice = count_inside(kinds, firsts, lasts, share, inner.from, inner.to);
    let before = u64::from(inner.from).saturating_sub(u64::from(outer.from));
    let after = u64::from(outer.to).saturating_sub(u64::from(inner.to));
    let within = (u64::from(inner.to) + 1).saturating_sub(u64::from(inner.from));
    let room = room_of(share, before) + room_of(share, after) + room_of(Share::All, within);
    room + u64::from(twice) < u64::from(members) + u64::from(all)
}

/// Whether more operations have their windows within one of `nests` than it holds.
pub(crate) fn has_overfull(kinds: &[Kind], firsts: &[u32], lasts: &[u32], nests: &[Nest]) -> bool
    requires firsts { length firsts.now ≡ length kinds.now }
    requires lasts { length lasts.now ≡ length kinds.now }
    requires few { length kinds.now ≤ MAX_OPS }
    ensures { IsTrue result → (t : ℕ → ℕ) → FitsShares kinds.now t → Within firsts.now lasts.now t → ⊥ }
{
    for nest in nests {
        if is_overfull(kinds, firsts, lasts, *nest) {
            return true;
        }
    }
    false
}

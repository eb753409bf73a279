//! What delays leave of windows.
ghost use Rattle.std.specs.Prelude.{◌≡◌, ◌<◌, ℕ, List, length, IsTrue};
ghost use Rattle.iloc_optimum.specs.Timing.{Within, WaitsFor, LeadsBetween};

use crate::windows::{Windows, has_empty};
use iloc_sched::Edge;

/// Raises the first cycles by the edges.
fn raise_firsts(firsts: &mut Vec<u32>, edges: &[Edge])
    requires there { LeadsBetween (length firsts.old.items) edges.now }
    ensures size { length firsts.new.items ≡ length firsts.old.items }
    ensures kept { (lasts : List ℕ) (t : ℕ → ℕ) → WaitsFor edges.now t → Within firsts.old.items lasts t
        → Within firsts.new.items lasts t }
{
    for edge in edges {
        let arrival = firsts[edge.from as usize].saturating_add(edge.delay);
        let target = edge.to as usize;
        firsts[target] = firsts[target].max(arrival);
    }
}

/// Lowers the last cycles by the edges, from the last edge to the first.
fn lower_lasts(lasts: &mut Vec<u32>, edges: &[Edge])
    requires there { LeadsBetween (length lasts.old.items) edges.now }
    ensures size { length lasts.new.items ≡ length lasts.old.items }
    ensures kept { (firsts : List ℕ) (t : ℕ → ℕ) → WaitsFor edges.now t → Within firsts lasts.old.items t
        → Within firsts lasts.new.items t }
{
    for x in (0..edges.len()).rev() {
        let edge = edges[x];
        let limit = lasts[edge.to as usize].saturating_sub(edge.delay);
        let source = edge.from as usize;
        lasts[source] = lasts[source].min(limit);
    }
}

/// Narrows windows by the edges; false if no cycles of issue are within them.
pub(crate) fn wait(edges: &[Edge], windows: &mut Windows) -> bool
    requires there { LeadsBetween (length windows.old.firsts.items) edges.now }
    requires sized { length windows.old.lasts.items ≡ length windows.old.firsts.items }
    ensures firsts { length windows.new.firsts.items ≡ length windows.old.firsts.items }
    ensures lasts { length windows.new.lasts.items ≡ length windows.old.lasts.items }
    ensures kept { (t : ℕ → ℕ) → WaitsFor edges.now t → Within windows.old.firsts.items windows.old.lasts.items t
        → IsTrue result × Within windows.new.firsts.items windows.new.lasts.items t }
{
    raise_firsts(&mut windows.firsts, edges);
    lower_lasts(&mut windows.lasts, edges);
    let empty = has_empty(&windows.firsts, &windows.lasts);
    !empty
}

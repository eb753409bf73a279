//! From which to which cycle each operation can be issued.
ghost use Rattle.std.specs.Prelude.{◌≡◌, ◌<◌, ◌⊎◌, ℕ, length, IsTrue, IfOk, slice_index};
ghost use Rattle.iloc_optimum.specs.Timing.{Within};

use iloc_ops::NoMemory;
use std::alloc::Global;

/// By operation the first and the last cycle of its window.
#[derive(Debug, Drop)]
pub struct Windows {
    pub firsts: Vec<u32>,
    pub lasts: Vec<u32>,
}

/// Whether some operation has no cycle left.
pub(crate) fn has_empty(firsts: &[u32], lasts: &[u32]) -> bool
    requires { length lasts.now ≡ length firsts.now }
    ensures { IsTrue result → (t : ℕ → ℕ) → Within firsts.now lasts.now t → ⊥ }
{
    for i in 0..firsts.len() {
        if lasts[i] < firsts[i] {
            return true;
        }
    }
    false
}

/// Splits windows at the first cycle of operation i's: it is issued there, or within the windows that are handed out.
pub(crate) fn split(alloc: Global, windows: &mut Windows, i: usize) -> Result<Windows, NoMemory>
    requires open { (i < length windows.old.firsts.items)
        × (slice_index windows.old.firsts.items i < slice_index windows.old.lasts.items i) }
    requires sized { length windows.old.lasts.items ≡ length windows.old.firsts.items }
    ensures firsts { length windows.new.firsts.items ≡ length windows.old.firsts.items }
    ensures lasts { length windows.new.lasts.items ≡ length windows.old.lasts.items }
    ensures late { IfOk result (λ late. (length late.firsts.items ≡ length windows.old.firsts.items)
        × (length late.lasts.items ≡ length windows.old.lasts.items)) }
    ensures all { IfOk result (λ late. (t : ℕ → ℕ) → Within windows.old.firsts.items windows.old.lasts.items t
        → Within windows.new.firsts.items windows.new.lasts.items t ⊎ Within late.firsts.items late.lasts.items t) }
{
    let at = windows.firsts[i];
    let mut firsts = Vec::new(alloc);
    firsts.extend_from_slice(&windows.firsts)?;
    let mut lasts = Vec::new(alloc);
    lasts.extend_from_slice(&windows.lasts)?;
    firsts[i] = at.saturating_add(1);
    windows.lasts[i] = at;
    Ok(Windows { firsts, lasts })
}

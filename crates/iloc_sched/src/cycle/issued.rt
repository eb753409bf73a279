//! When operations were issued: a history that only proofs read.
ghost use Rattle.std.specs.Prelude.{ℕ, ◌≡◌, List, replicate, slice_set};
ghost use Rattle.std.specs.declared.option.Option.{Option};
ghost use Rattle.std.specs.Borrow.{ftrue};

use std::marker::Model;

/// By operation the cycle at which it was issued, for the proofs alone: it takes no memory, and its methods do nothing at run
/// time.
#[derive(Drop)]
pub struct Issued {
    pub ghost cycles: { List (Option ℕ) },
}

impl Model for Issued {
    ghost also_owns = { λ _. ftrue };
}

// It owns nothing.
unsafe impl Send for Issued {}

// A `&` to it shows nothing.
unsafe impl Sync for Issued {}

impl Issued {
    ghost use Rattle.std.specs.Prelude.{None, Some};

    /// Of `count` operations, none is issued.
    pub fn none(count: usize) -> Issued
        ensures { result.cycles ≡ replicate count None }
    {
        Issued {}
    }

    /// Operation i is issued at this cycle.
    pub fn and(&self, i: usize, cycle: u32) -> Issued
        ensures { result.cycles ≡ slice_set self.now.cycles i (Some cycle) }
    {
        Issued {}
    }
}

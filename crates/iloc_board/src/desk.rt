//! Where workers make their answers.
ghost use Rattle.std.specs.Prelude.{◌<◌, IfOk};

use crate::fault::NoMemory;
use crate::jobs::Jobs;
use std::alloc::Global;

/// Jobs whose answers can be made at a desk: scratch space that a worker has for itself and keeps from one answer to the next.
/// No fact is kept of a desk.
pub trait AtDesk<D>: Jobs {
    /// An answer to the job `i`, made at this desk.
    ///
    /// Promise: whatever the desk holds, the answer fits the job.
    fn answer_at(&self, desk: &mut D, alloc: Global, i: u32) -> Result<Self::Answer, NoMemory>
        requires { i < Self.number self.now }
        ensures { IfOk result (λ a. Self.fits self.now i a) };
}

/// No desk: the answer is made without one.
#[derive(Clone, Copy)]
pub struct NoDesk;

impl<J: Jobs> AtDesk<NoDesk> for J {
    fn answer_at(&self, _desk: &mut NoDesk, alloc: Global, i: u32) -> Result<J::Answer, NoMemory> {
        self.answer(alloc, i)
    }
}

//! Laws of the bound, as contracts of functions that do nothing.
ghost use Rattle.iloc_bound.specs.Laws.{LeastBoundsTheCycles, LeastBoundsTheCyclesByRule, BoundsProveTheOptimum};

/// Promise: No lawful schedule of a block takes fewer cycles than its `least`.
pub fn least_bounds_the_cycles()
    ensures { LeastBoundsTheCycles }
{}

/// Promise: So by any rule of memory: no schedule of a block that is lawful by it takes fewer cycles than its least by it.
pub fn least_bounds_the_cycles_by_rule()
    ensures { LeastBoundsTheCyclesByRule }
{}

/// Promise: A lawful schedule that takes as many cycles as its block's `least` is optimal among the lawful schedules of the
/// block: none takes fewer.
pub fn bounds_prove_the_optimum()
    ensures { BoundsProveTheOptimum }
{}

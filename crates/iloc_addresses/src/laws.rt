//! Laws of pairs of operations, as contracts of functions that do nothing.
ghost use Rattle.iloc_addresses.specs.Laws.{NearPairsImplyAll};

/// Promise: Whichever pairs have delays by memory, rows that wait for the near pairs wait for all.
pub fn near_pairs_imply_all()
    ensures { NearPairsImplyAll }
{}

//! Laws of dependence graphs, as contracts of functions that do nothing.
ghost use Rattle.iloc_graph.specs.Laws.{BlocksHaveOneCluster, ChainsRunAlongNearestPairs, NearestPairsImplyAll};

/// Promise: By either rule of memory, rows wait for the nearest pairs of some operations exactly if they wait for all delay pairs of them.
pub fn nearest_pairs_imply_all()
    ensures { NearestPairsImplyAll }
{}

/// Promise: A longest chain of delays runs along nearest pairs, so marking it marks edges that are drawn.
pub fn chains_run_along_nearest_pairs()
    ensures { ChainsRunAlongNearestPairs }
{}

/// Promise: Two texts that draw one block are equal.
pub fn one_cluster()
    ensures { BlocksHaveOneCluster }
{}

//! What is explained.
ghost use Rattle.std.specs.Prelude.{◌≡◌};
ghost use Rattle.iloc_rules.specs.Renaming.{renamed};
ghost use Rattle.iloc_explain.specs.Waiting.{WaitsForAll};

use crate::measures::Measures;
use iloc_ops::Block;
use iloc_timed::Schedule;

/// A schedule of a block that waits for all delays, and what is measured of the block's operations.
#[derive(Drop)]
pub struct Subject<'a> {
    pub block: &'a Block,
    pub measures: &'a Measures<'a>,
    pub schedule: &'a Schedule,
    pub ghost names: { schedule.now.ops ≡ renamed block.now.ops },
    pub ghost measured: { measures.now.delays.ops.now ≡ schedule.now.ops },
    pub ghost waits: { WaitsForAll measures.now.delays.rule measures.now.delays.latencies.now schedule.now.ops schedule.now.rows },
}

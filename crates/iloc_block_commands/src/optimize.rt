//! `optimize`: the best schedules that are found, with a bound on the cycles of every one.
ghost use Rattle.std.specs.Prelude.{◌≡◌, ◌≤◌, length, IfOk};
ghost use Rattle.iloc_ops.specs.Limits.{MAX_BLOCKS};

use iloc_args::Request;
use iloc_driver::{FarmedLister, Job};
use iloc_listing::{EntryMaker, Listing, ScheduleEntry, with_total};
use iloc_ops::{Blocks, NoMemory};
use iloc_optimum::Optimizer;
use iloc_sched::Graph;
use std::alloc::Global;

/// Searches for the best schedule of each block, and lists it.
#[derive(Drop)]
pub struct OptimizeLister {
    graph: Graph,
    optimizer: Optimizer,
    entries: EntryMaker,
}

impl FarmedLister for OptimizeLister {
    ghost use Rattle.iloc_args.specs.Rule.{memory_rule};
    ghost use Rattle.iloc_block_commands.specs.Optimize.{IsOptimizeEntry, IsOptimizeListing};
    ghost use Rattle.iloc_listing.specs.Listing.{listing_of_entries};
    ghost use Rattle.iloc_driver.specs.Entries.{AreListed};
    ghost use Rattle.iloc_driver.specs.Priorities.{Own};
    ghost use Rattle.iloc_driver.specs.Work.{by_own};

    type Answer = ScheduleEntry;

    ghost answers = { λ request _ k block entry.
        IsOptimizeEntry (memory_rule request) request.latencies k block entry.text entry.cycles };

    ghost cycles_in = { λ entry. entry.cycles };

    ghost made_of = { λ _ _ entries. listing_of_entries entries };

    ghost lists = { IsOptimizeListing };

    fn new(alloc: Global) -> OptimizeLister {
        OptimizeLister {
            graph: Graph::new(alloc),
            optimizer: Optimizer::new(alloc),
            entries: EntryMaker::new(alloc),
        }
    }

    fn answer(
        &mut self,
        _alloc: Global,
        request: &Request,
        job: &Job<'_>,
    ) -> Result<ScheduleEntry, NoMemory> {
        let (block, latencies) = (job.block, &request.latencies);
        let nodes = request.nodes.unwrap_or(0);
        self.graph.refill(request.memory_rule(), block, latencies)?;
        let optimum = self.optimizer.optimize(block, &self.graph, nodes)?;
        let bound = Some(optimum.bound);
        let entry = self
            .entries
            .entry(latencies, job.number, block, &optimum.schedule, bound)?;
        self.optimizer.take_back(optimum.schedule);
        Ok(entry)
    }

    fn cycles(entry: &ScheduleEntry) -> u32 {
        entry.cycles
    }

    fn listing(
        alloc: Global,
        _request: &Request,
        blocks: Blocks,
        entries: Vec<ScheduleEntry>,
    ) -> Result<Listing, NoMemory>
        requires few { length blocks ≤ MAX_BLOCKS }
        requires many { length entries.items ≡ length blocks }
        ensures made { IfOk result (λ text. text ≡ listing_of_entries entries.items) }
        ensures right { IfOk result (λ text. (own : Own)
            → AreListed (by_own (λ _ k block entry.
            IsOptimizeEntry (memory_rule _request.now) _request.now.latencies k block entry.text entry.cycles) own)
            blocks entries.items → IsOptimizeListing _request.now own blocks text) }
    {
        drop(blocks);
        with_total(alloc, entries)
    }
}

//! `counts`: how many cycles blocks' schedules take.
ghost use Rattle.std.specs.Prelude.{◌≡◌, ◌≤◌, ◌<◌, ◌++◌, length, IfOk, OnOk};
ghost use Rattle.iloc_ops.specs.Limits.{MAX_BLOCKS};
ghost use Rattle.iloc_listing.specs.Listing.{count_ending};

use crate::schedule::feed;
use iloc_args::{Flag, Request};
use iloc_driver::{FarmedLister, Job};
use iloc_listing::{Listing, push_count, push_opening, push_total_of};
use iloc_ops::{Blocks, NoMemory};
use iloc_sched::{CountCycles, Graph, Scheduler};
use std::alloc::Global;

/// What a table begins with.
const HEADER: &[u8] = b"block,name,cycles\n";

/// Appends the line with the sum of `cycles`, but not in a table.
fn push_ending(text: &mut Vec<u8>, csv: bool, cycles: &[u32]) -> Result<(), NoMemory>
    requires { length cycles.now ≤ MAX_BLOCKS }
    ensures { OnOk result (text.new.items ≡ text.old.items ++ count_ending csv cycles.now) }
{
    if csv {
        return Ok(());
    }
    push_total_of(text, cycles)
}

/// Schedules each block, and answers how many cycles its schedule takes.
#[derive(Drop)]
pub struct CountLister {
    graph: Graph,
    scheduler: Scheduler,
}

impl FarmedLister for CountLister {
    ghost use Rattle.iloc_args.specs.Flags.{has};
    ghost use Rattle.iloc_args.specs.declared.flag.Flag.TheVariants.{Csv};
    ghost use Rattle.iloc_block_commands.specs.Counts.{IsCountListing};
    ghost use Rattle.iloc_driver.specs.Entries.{AreListed};
    ghost use Rattle.iloc_driver.specs.Priorities.{Own};
    ghost use Rattle.iloc_args.specs.Rule.{memory_rule};
    ghost use Rattle.iloc_listing.specs.Listing.{listing_of_counts};
    ghost use Rattle.iloc_listing.specs.Schedules.{IsCountUnder, ranks_under};
    ghost use Rattle.iloc_driver.specs.Work.{by_own};

    type Answer = u32;

    ghost answers = { λ request own _ block cycles.
        IsCountUnder (memory_rule request) (ranks_under (memory_rule request) request.priority request.latencies own)
        request.latencies block cycles };

    ghost cycles_in = { λ cycles. cycles };

    ghost made_of = { λ request. listing_of_counts (has request.flags Csv) };

    ghost lists = { IsCountListing };

    fn new(alloc: Global) -> CountLister {
        CountLister {
            graph: Graph::new(alloc),
            scheduler: Scheduler::new(alloc),
        }
    }

    fn answer(
        &mut self,
        _alloc: Global,
        request: &Request,
        job: &Job<'_>,
    ) -> Result<u32, NoMemory> {
        self.graph
            .refill(request.memory_rule(), job.block, &request.latencies)?;
        let mut counted = CountCycles { cycles: 0 };
        feed(
            &mut self.scheduler,
            &self.graph,
            job.own,
            request.priority,
            &mut counted,
        )?;
        Ok(counted.cycles)
    }

    fn cycles(cycles: &u32) -> u32 {
        *cycles
    }

    fn listing(
        alloc: Global,
        request: &Request,
        blocks: Blocks,
        cycles: Vec<u32>,
    ) -> Result<Listing, NoMemory>
        requires few { length blocks ≤ MAX_BLOCKS }
        requires many { length cycles.items ≡ length blocks }
        ensures made { IfOk result (λ text. text ≡ listing_of_counts (has request.now.flags Csv) blocks cycles.items) }
        ensures right { IfOk result (λ text. (own : Own)
            → AreListed (by_own (λ own _ block count. IsCountUnder (memory_rule request.now)
            (ranks_under (memory_rule request.now) request.now.priority request.now.latencies own)
            request.now.latencies block count) own) blocks cycles.items → IsCountListing request.now own blocks text) }
    {
        let csv = request.flags.has(Flag::Csv);
        let mut text = Vec::new(alloc);
        push_opening(&mut text, csv, HEADER)?;
        for (index, block) in blocks.as_slice().iter().enumerate() {
            let count = u64::from(cycles[index]);
            let name = block.name.as_ref();
            push_count(&mut text, csv, index + 1, name, count)?;
        }
        push_ending(&mut text, csv, &cycles)?;
        Ok(Listing::of_text(alloc, text))
    }
}

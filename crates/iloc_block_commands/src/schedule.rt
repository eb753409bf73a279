//! `schedule`: blocks' schedules, a line a row.
ghost use Rattle.std.specs.Prelude.{◌≡◌, ◌≤◌, List, length, option_copied, IfOk, OnOk, IfSome};
ghost use Rattle.iloc_ops.specs.Limits.{MAX_BLOCKS};
ghost use Rattle.iloc_ops.specs.declared.op.Op.{Op};
ghost use Rattle.iloc_timed.specs.declared.latencies.Latencies.{Latencies as latencies_value};
ghost use Rattle.iloc_timed.specs.declared.row.Row.{Row};
ghost use Rattle.iloc_rules.specs.declared.memory_rule.MemoryRule.{MemoryRule as rule_value};
ghost use Rattle.iloc_sched.specs.Graph.GraphOf.{of_block};
ghost use Rattle.iloc_sched.specs.Scheduled.{AreRowsBy, IsTheScheduleBy};
ghost use Rattle.iloc_listing.specs.Schedules.{ranks_under};

use iloc_args::Request;
use iloc_driver::{FarmedLister, Job};
use iloc_listing::{EntryMaker, Listing, ScheduleEntry, with_total};
use iloc_ops::{Blocks, NoMemory};
use iloc_rules::Heuristic;
use iloc_sched::{Graph, Scheduler, TakeRows};
use iloc_timed::Schedule;
use std::alloc::Global;

/// The schedule of the block of `graph`, by its rule of memory, that is greedy by its `own` numbers if it has some,
/// else by `heuristic`.
pub(crate) fn lend(
    scheduler: &mut Scheduler,
    graph: &Graph,
    own: Option<&[u32]>,
    heuristic: Heuristic,
) -> Result<Schedule, NoMemory>
    requires { IfSome (option_copied own) (λ numbers. length numbers ≡ length graph.now.ops) }
    ensures { IfOk result (λ s. (rule : rule_value) (lat : latencies_value) (block : List Op)
        → graph.now ≡ of_block rule lat block
        → IsTheScheduleBy rule (ranks_under rule heuristic lat (option_copied own.entry)) lat block s) }
{
    match own {
        Some(numbers) => scheduler.lend(graph, numbers),
        None => scheduler.lend_as(graph, heuristic),
    }
}

/// Hands `taker` the rows of the schedule that `lend` lends.
pub(crate) fn feed<T: TakeRows>(
    scheduler: &mut Scheduler,
    graph: &Graph,
    own: Option<&[u32]>,
    heuristic: Heuristic,
    taker: &mut T,
) -> Result<(), NoMemory>
    requires { IfSome (option_copied own) (λ numbers. length numbers ≡ length graph.now.ops) }
    ensures kept { T.kept taker.new ≡ T.kept taker.old }
    ensures took { OnOk result ((rows : List Row) × T.took graph.now.latencies graph.now.ops taker.old rows taker.new
        × AreRowsBy (λ rule lat. ranks_under rule heuristic lat (option_copied own.entry)) graph.now rows) }
{
    match own {
        Some(numbers) => scheduler.feed(graph, numbers, taker),
        None => scheduler.feed_as(graph, heuristic, taker),
    }
}

/// Schedules each block, and lists its schedule.
#[derive(Drop)]
pub struct ScheduleLister {
    graph: Graph,
    scheduler: Scheduler,
    entries: EntryMaker,
}

impl FarmedLister for ScheduleLister {
    ghost use Rattle.iloc_block_commands.specs.Schedule.{IsScheduleEntry, IsScheduleListing};
    ghost use Rattle.iloc_listing.specs.Listing.{listing_of_entries};
    ghost use Rattle.iloc_driver.specs.Entries.{AreListed};
    ghost use Rattle.iloc_driver.specs.Priorities.{Own};
    ghost use Rattle.iloc_driver.specs.Work.{by_own};

    type Answer = ScheduleEntry;

    ghost answers = { λ request own k block entry. IsScheduleEntry request own k block entry.text entry.cycles };

    ghost cycles_in = { λ entry. entry.cycles };

    ghost made_of = { λ _ _ entries. listing_of_entries entries };

    ghost lists = { IsScheduleListing };

    fn new(alloc: Global) -> ScheduleLister {
        ScheduleLister {
            graph: Graph::new(alloc),
            scheduler: Scheduler::new(alloc),
            entries: EntryMaker::new(alloc),
        }
    }

    fn answer(
        &mut self,
        _alloc: Global,
        request: &Request,
        job: &Job<'_>,
    ) -> Result<ScheduleEntry, NoMemory> {
        let (block, latencies) = (job.block, &request.latencies);
        self.graph.refill(request.memory_rule(), block, latencies)?;
        let schedule = lend(&mut self.scheduler, &self.graph, job.own, request.priority)?;
        let entry = self
            .entries
            .entry(latencies, job.number, block, &schedule, None)?;
        self.scheduler.take_back(schedule);
        Ok(entry)
    }

    fn cycles(entry: &ScheduleEntry) -> u32 {
        entry.cycles
    }

    fn listing(
        alloc: Global,
        _request: &Request,
        blocks: Blocks,
        entries: Vec<ScheduleEntry>,
    ) -> Result<Listing, NoMemory>
        requires few { length blocks ≤ MAX_BLOCKS }
        requires many { length entries.items ≡ length blocks }
        ensures made { IfOk result (λ text. text ≡ listing_of_entries entries.items) }
        ensures right { IfOk result (λ text. (own : Own)
            → AreListed (by_own (λ own k block entry. IsScheduleEntry _request.now own k block entry.text entry.cycles) own)
            blocks entries.items → IsScheduleListing _request.now own blocks text) }
    {
        drop(blocks);
        with_total(alloc, entries)
    }
}

//! The farm: the blocks of a file, scheduled by several workers.
ghost use Rattle.std.specs.Prelude.{◌≡◌, ◌≤◌, IfOk};
ghost use Rattle.iloc_text.specs.Files.{AreWithinLimits};
ghost use Rattle.iloc_farm.specs.Headline.{Headline, KeepsItsBlock};
ghost use Rattle.iloc_listing.specs.Listing.{cycles_of};
ghost use Rattle.iloc_listing.specs.Schedules.{AreGreedyAs, AreTheOnlyGreedyAs, KeepOutcomes};

use iloc_board::{Done, Gate, Jobs, NoDesk, NoMemory};
use iloc_driver::{FarmFault, farm_out};
use iloc_ops::{Block, IlocFile};
use iloc_rules::Heuristic;
use iloc_sched::schedule_as;
use iloc_timed::{Latencies, MAX_ROWS, Schedule, cycles};
use std::alloc::Global;
use std::marker::Model;
use std::sync::Wait;
use std::thread::Threads;

/// Blocks to be scheduled for a machine with its latencies, by its heuristic. The answer to job i is the schedule of
/// block i, and costs its cycles.
#[derive(Drop)]
pub struct BlockJobs<'f> {
    blocks: &'f [Block],
    latencies: Latencies,
    heuristic: Heuristic,
}

impl<'f> Model for BlockJobs<'f> {
    ghost use Rattle.std.specs.Prelude.{◌≤◌, length};
    ghost use Rattle.std.specs.List.{All};
    ghost use Rattle.iloc_ops.specs.Limits.{MAX_BLOCKS, MAX_OPS};
    ghost use Rattle.iloc_listing.specs.Schedules.{ToSchedule};

    ghost Value = { ToSchedule };

    ghost view = { λ jobs. record {
      blocks = jobs.blocks.now;
      latencies = jobs.latencies;
      heuristic = jobs.heuristic;
    } };

    ghost invariant = { λ jobs. (length jobs.blocks.now ≤ MAX_BLOCKS)
        × All (λ b. length b.ops ≤ MAX_OPS) jobs.blocks.now };
}

impl<'f> BlockJobs<'f> {
    /// The blocks of `file`.
    ///
    /// Promise: the jobs are the file's blocks, to be scheduled by `heuristic` with `latencies`.
    pub fn new(file: &'f IlocFile, latencies: &Latencies, heuristic: Heuristic) -> BlockJobs<'f>
        requires { AreWithinLimits file.now.blocks }
        ensures { result
            ≡ record { blocks = file.now.blocks; latencies = latencies.now; heuristic = heuristic } }
    {
        BlockJobs {
            blocks: file.blocks.as_slice(),
            latencies: *latencies,
            heuristic,
        }
    }
}

impl<'f> Jobs for BlockJobs<'f> {
    ghost use Rattle.std.specs.Prelude.{length};
    ghost use Rattle.iloc_listing.specs.Listing.{cycles_of};
    ghost use Rattle.iloc_listing.specs.Schedules.{IsScheduleOf};

    type Answer = Schedule;

    ghost number = { λ jobs. length jobs.blocks };

    ghost fits = { λ jobs i schedule. IsScheduleOf jobs.heuristic jobs.latencies jobs.blocks i schedule };

    ghost price = { λ jobs schedule. cycles_of jobs.latencies schedule };

    fn count(&self) -> u32 {
        self.blocks.len() as u32
    }

    fn cost(&self, schedule: &Schedule) -> u64 {
        prove!(schedule.rows().len() <= MAX_ROWS);
        cycles(schedule, &self.latencies)
    }

    fn answer(&self, alloc: Global, i: u32) -> Result<Schedule, NoMemory> {
        let block = &self.blocks[i as usize];
        schedule_as(alloc, block, &self.latencies, self.heuristic).map_err(|_| NoMemory)
    }
}

/// Schedules the blocks of a file by `workers` threads, which take them from one board.
///
/// Promise: the answer is the schedule of each block that is greedy by the heuristic, in the order of the file, and no other
/// list of schedules is. On every memory each schedule has its block's outcome. What the workers did, `farm_out` and
/// `schedules_of` say.
///
/// # Errors
///
/// `NoThread` where a thread could not be started, `NoMemory` where memory was refused. After either every thread that was
/// started has ended.
pub fn schedule_all<R: Threads + Wait + Sync, G: Gate + Sync>(
    rt: &R,
    alloc: Global,
    file: &IlocFile,
    latencies: &Latencies,
    heuristic: Heuristic,
    workers: u32,
    gate: &G,
) -> Result<Vec<Schedule>, FarmFault>
    requires some_worker { 1 ≤ workers }
    requires limits { AreWithinLimits file.now.blocks }
    ensures greedy { IfOk result (λ schedules.
        AreGreedyAs heuristic latencies.now file.now.blocks schedules.items) }
    ensures only { IfOk result (λ schedules.
        AreTheOnlyGreedyAs heuristic latencies.now file.now.blocks schedules.items) }
    ensures outcomes { IfOk result (λ schedules.
        KeepOutcomes latencies.now file.now.blocks schedules.items) }
{
    let jobs = BlockJobs::new(file, latencies, heuristic);
    let desks = vec![in alloc; NoDesk; workers as usize]?;
    Ok(schedules_of(farm_out(rt, alloc, &jobs, desks, gate)?))
}

/// The schedules that workers made, in the order of the file.
///
/// Promise: what the workers did, by the journals of the receipt, is one legal history of a board of one thread, in
/// which each block is taken once and its schedule handed back once, at its cycles. The result has the schedules that
/// were handed back: each is the greedy one, keeps the rules of units and latencies, and has its block's outcome on
/// every memory.
pub fn schedules_of<'j, 'f>(done: Done<'j, BlockJobs<'f>>) -> Vec<Schedule>
    ensures answers { result.items ≡ done.entry.receipt.answers }
    ensures headline { let jobs = done.entry.jobs in
        Headline (λ _ b s. KeepsItsBlock jobs.latencies b s) (cycles_of jobs.latencies) jobs.blocks done.entry.receipt }
    ensures greedy { let jobs = done.entry.jobs in
        AreGreedyAs jobs.heuristic jobs.latencies jobs.blocks result.items }
{
    let (schedules, _) = done.into_parts();
    schedules
}

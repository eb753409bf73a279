//! The best schedule of a block.
ghost use Rattle.std.specs.Prelude.{◌≡◌, ◌≤◌, ◌<◌, ◌+◌, ◌-◌, ◌^◌, ◌⊎◌, length, map, replicate, IfOk, OnOk};
ghost use Rattle.iloc_rules.specs.Renaming.{renamed};
ghost use Rattle.iloc_bound.specs.Bound.{least_of_under, tails_under};
ghost use Rattle.iloc_optimum.specs.Optimum.{AreOrders, IsCountOf, IsOptimumOf, IsSoughtIf, cycles_of};
ghost use Rattle.iloc_optimum.specs.Steps.Improving.{IsShortened};

use crate::search::{Found, search_windows};
use crate::windows::Windows;
use iloc_bound::{fill_tails, least_of};
use iloc_ops::{Block, NoMemory};
use iloc_rules::{HEURISTIC_COUNT, HEURISTICS, Heuristic, MOST_NODES, Sought};
use iloc_sched::{Graph, Scheduler};
use iloc_timed::{Latencies, MAX_ROWS, Schedule, cycles};
use std::alloc::Global;
use std::mem;

/// Blocks with more operations aren't searched: a node of 500 operations takes some 0.4 ms.
pub const MOST_SEARCHED: usize = 300;

/// The best schedule that was found for a block.
#[derive(Debug, Drop)]
pub struct Optimum {
    pub schedule: Schedule,
    /// No schedule of the block that is lawful by the same rule takes fewer cycles.
    pub bound: u64,
}

/// A block's greedy schedules by each heuristic.
#[derive(Debug, Drop)]
pub struct Orders {
    /// How many cycles they take, in the order in which the heuristics are listed.
    pub cycles: [u32; HEURISTIC_COUNT],
    /// The shortest, with the least for the bound.
    pub best: Optimum,
}

/// How many cycles a schedule takes, which 32 bits hold.
fn count_of(schedule: &Schedule, latencies: &Latencies) -> u64
    ensures value { result ≡ cycles_of latencies.now schedule.now }
    ensures small { result < 2 ^ 32 }
{
    prove!(schedule.rows().len() <= MAX_ROWS);
    cycles(schedule, latencies)
}

/// Puts the other schedule in the place of the best one, whose cycles are handed in too, if it takes fewer, and answers how many
/// it takes. The scheduler takes back the buffers of the one that is left over.
fn keep_shorter(
    scheduler: &mut Scheduler,
    latencies: &Latencies,
    best: &mut Schedule,
    fewest: &mut u32,
    mut other: Schedule,
) -> u32
    requires { fewest.old ≡ cycles_of latencies.now best.old }
    ensures fewest { fewest.new ≡ cycles_of latencies.now best.new }
    ensures counted { result ≡ cycles_of latencies.now other }
    ensures one { (best.new ≡ best.old) ⊎ (best.new ≡ other) }
    ensures fewer { cycles_of latencies.now best.new ≤ cycles_of latencies.now best.old }
    ensures few { cycles_of latencies.now best.new ≤ cycles_of latencies.now other }
{
    let cycles = count_of(&other, latencies) as u32;
    if cycles < *fewest {
        mem::swap(best, &mut other);
        *fewest = cycles;
    }
    scheduler.take_back(other);
    cycles
}

/// Puts the schedule that is greedy by a heuristic in the place of the best one if it takes fewer cycles, and answers how many
/// it takes.
fn try_order(
    scheduler: &mut Scheduler,
    block: &Block,
    graph: &Graph,
    best: &mut Schedule,
    fewest: &mut u32,
    heuristic: Heuristic,
) -> Result<u32, NoMemory>
    requires graph { graph.now.ops ≡ renamed block.now.ops }
    requires fewest { fewest.old ≡ cycles_of graph.now.latencies best.old }
    ensures fewest { OnOk result (fewest.new ≡ cycles_of graph.now.latencies best.new) }
    ensures counted { IfOk result (IsCountOf graph.now.rule heuristic graph.now.latencies block.now.ops) }
    ensures shorter { OnOk result (IsShortened graph.now.rule graph.now.latencies block.now.ops heuristic best.old best.new) }
{
    let other = scheduler.lend_as(graph, heuristic)?;
    Ok(keep_shorter(scheduler, graph.latencies(), best, fewest, other))
}

/// What each number leaves of the limit.
fn rests_of(alloc: Global, numbers: &[u32], limit: u32) -> Result<Vec<u32>, NoMemory>
    ensures { IfOk result (λ rests. rests.items ≡ map (λ n. limit - n) numbers.now) }
{
    let mut rests = Vec::new(alloc);
    for number in numbers {
        rests.push(limit.saturating_sub(*number))?;
    }
    Ok(rests)
}

/// The windows that `limit` cycles leave of the operations of `graph`.
fn windows_within(alloc: Global, graph: &Graph, limit: u32) -> Result<Windows, NoMemory>
    ensures firsts { IfOk result (λ w. w.firsts.items ≡ replicate (length graph.now.ops) 0) }
    ensures lasts { IfOk result (λ w.
        w.lasts.items ≡ map (λ tail. limit - tail) (tails_under graph.now.rule graph.now.latencies graph.now.ops)) }
{
    let mut firsts = Vec::new(alloc);
    firsts.resize(graph.ops().len(), 0)?;
    let mut tails = Vec::new(alloc);
    fill_tails(alloc, &mut tails, graph)?;
    let lasts = rests_of(alloc, &tails, limit)?;
    Ok(Windows { firsts, lasts })
}

/// Finds the best schedules of blocks, one after another.
#[derive(Drop)]
pub struct Optimizer {
    alloc: Global,
    // Whose buffers the best schedule has. Where one lends all, they are allocated anew for each block, and `compare` executes 2 %
    // more instructions on blocks of some ten operations.
    first: Scheduler,
    scheduler: Scheduler,
}

impl Optimizer {
    /// An optimizer that has no memory yet.
    pub fn new(alloc: Global) -> Optimizer {
        Optimizer {
            alloc,
            first: Scheduler::new(alloc),
            scheduler: Scheduler::new(alloc),
        }
    }

    /// How many cycles a block's greedy schedules by each heuristic take, and the shortest of them, by the block's dependence graph
    /// and its least by the graph's rule of memory.
    ///
    /// Promise: The cycles are those of the schedules that are greedy by the rule, and `optimize` promises as much of the best.
    pub fn orders(&mut self, block: &Block, graph: &Graph, least: u64) -> Result<Orders, NoMemory>
        requires graph { graph.now.ops ≡ renamed block.now.ops }
        requires least { least ≡ least_of_under graph.now.rule graph.now.latencies graph.now.ops }
        ensures { IfOk result (AreOrders graph.now.rule graph.now.latencies block.now.ops) }
    {
        let mut best = self.first.lend_as(graph, Heuristic::Chain)?;
        let mut fewest = count_of(&best, graph.latencies()) as u32;
        let mut cycles = [fewest; HEURISTIC_COUNT];
        for place in 1..HEURISTIC_COUNT {
            cycles[place] = try_order(
                &mut self.scheduler,
                block,
                graph,
                &mut best,
                &mut fewest,
                HEURISTICS[place],
            )?;
        }
        Ok(Orders {
            cycles,
            best: Optimum {
                schedule: best,
                bound: least,
            },
        })
    }

    /// Improves `optimum`, what is known of `block`, by a search with `nodes` nodes for a schedule of at most `limit` cycles, and
    /// answers whether cycles of issue were found.
    fn try_limit(
        &mut self,
        block: &Block,
        graph: &Graph,
        optimum: &mut Optimum,
        limit: u32,
        nodes: u32,
    ) -> Result<bool, NoMemory>
        requires graph { graph.now.ops ≡ renamed block.now.ops }
        requires known { IsOptimumOf graph.now.rule graph.now.latencies block.now.ops optimum.old }
        requires above { optimum.old.bound ≤ limit }
        ensures known { OnOk result (IsOptimumOf graph.now.rule graph.now.latencies block.now.ops optimum.new) }
        ensures above { OnOk result (optimum.new.bound ≤ limit + 1) }
    {
        let windows = windows_within(self.alloc, graph, limit)?;
        match search_windows(self.alloc, graph.edges(), graph.kinds(), windows, nodes)? {
            Found::Nothing => {
                optimum.bound = u64::from(limit) + 1;
                Ok(false)
            }
            Found::Cycles(cycles) => {
                let ranks = rests_of(self.alloc, &cycles, limit)?;
                let schedule = self.scheduler.lend(graph, &ranks)?;
                let mut fewest = count_of(&optimum.schedule, graph.latencies()) as u32;
                keep_shorter(
                    &mut self.scheduler,
                    graph.latencies(),
                    &mut optimum.schedule,
                    &mut fewest,
                    schedule,
                );
                Ok(true)
            }
            Found::Unknown => Ok(false),
        }
    }

    /// Improves what is known of a block by a search with `nodes` nodes, at most `MOST_NODES`, for each number of cycles from the
    /// bound up, until cycles of issue are found or the best schedule's are reached. A block of more than `MOST_SEARCHED`
    /// operations isn't searched.
    fn improve(
        &mut self,
        block: &Block,
        graph: &Graph,
        known: Optimum,
        nodes: u32,
    ) -> Result<Optimum, NoMemory>
        requires graph { graph.now.ops ≡ renamed block.now.ops }
        requires known { IsOptimumOf graph.now.rule graph.now.latencies block.now.ops known }
        ensures { IfOk result (IsOptimumOf graph.now.rule graph.now.latencies block.now.ops) }
    {
        let mut optimum = known;
        if block.ops.len() > MOST_SEARCHED {
            return Ok(optimum);
        }
        let nodes = nodes.min(MOST_NODES);
        for limit in optimum.bound..count_of(&optimum.schedule, graph.latencies()) {
            if self.try_limit(block, graph, &mut optimum, limit as u32, nodes)? {
                break;
            }
        }
        Ok(optimum)
    }

    /// The best schedule that is found for a block, by its dependence graph and the graph's rule of memory, and a bound on the
    /// cycles of the schedules that are lawful by the rule: the shortest of the greedy schedules by each heuristic, or one that a
    /// search finds with so many nodes, at most `MOST_NODES`, for each number of cycles that is tried. A block of more than
    /// `MOST_SEARCHED` operations isn't searched. After a refusal the next block is scheduled as after any other.
    ///
    /// Promise: The schedule is lawful by the rule, with the block's outcome on every memory, and takes at most as many cycles as
    /// each greedy one. No schedule that is lawful by it takes fewer cycles than the bound, which is at least that of
    /// `iloc_bound::least_of`.
    pub fn optimize(
        &mut self,
        block: &Block,
        graph: &Graph,
        nodes: u32,
    ) -> Result<Optimum, NoMemory>
        requires { graph.now.ops ≡ renamed block.now.ops }
        ensures { IfOk result (IsOptimumOf graph.now.rule graph.now.latencies block.now.ops) }
    {
        let least = least_of(self.alloc, graph)?;
        let orders = self.orders(block, graph, least)?;
        self.improve(block, graph, orders.best, nodes)
    }

    /// How many cycles the schedule takes that a search with so many nodes finds from the best of a block's greedy schedules, and
    /// the bound beside it, if there is to be a search.
    ///
    /// Promise: They are the numbers of a schedule and a bound of which `optimize` promises as much.
    pub fn seek_from(
        &mut self,
        block: &Block,
        graph: &Graph,
        best: Optimum,
        nodes: Option<u32>,
    ) -> Result<Option<Sought>, NoMemory>
        requires graph { graph.now.ops ≡ renamed block.now.ops }
        requires best { IsOptimumOf graph.now.rule graph.now.latencies block.now.ops best }
        ensures { IfOk result (IsSoughtIf nodes graph.now.rule graph.now.latencies block.now.ops) }
    {
        let Some(nodes) = nodes else {
            self.take_back(best.schedule);
            return Ok(None);
        };
        let optimum = self.improve(block, graph, best, nodes)?;
        let sought = Sought {
            best: count_of(&optimum.schedule, graph.latencies()) as u32,
            bound: optimum.bound as u32,
        };
        self.take_back(optimum.schedule);
        Ok(Some(sought))
    }

    /// What a search with `nodes` nodes finds of the cycles of `block`, whose bound is `least`; nothing without
    /// `nodes`. Greedy schedules are made for a search alone.
    pub fn seek_if(
        &mut self,
        block: &Block,
        graph: &Graph,
        least: u64,
        nodes: Option<u32>,
    ) -> Result<Option<Sought>, NoMemory>
        requires graph { graph.now.ops ≡ renamed block.now.ops }
        requires least { least ≡ least_of_under graph.now.rule graph.now.latencies graph.now.ops }
        ensures { IfOk result (IsSoughtIf nodes graph.now.rule graph.now.latencies block.now.ops) }
    {
        match nodes {
            Some(_) => {
                let orders = self.orders(block, graph, least)?;
                self.seek_from(block, graph, orders.best, nodes)
            }
            None => Ok(None),
        }
    }

    /// Takes back the buffers of a schedule, for the next block.
    pub fn take_back(&mut self, schedule: Schedule) {
        self.first.take_back(schedule);
    }
}

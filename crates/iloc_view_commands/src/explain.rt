//! `explain`: why blocks' schedules take their cycles.
ghost use Rattle.std.specs.Prelude.{ℕ, ◌≡◌, ◌≤◌, ◌<◌, ◌^◌, ◌++◌, List, [], ◌∷◌, true, false, length, option_copied, IfOk, OnOk};
ghost use Rattle.iloc_ops.specs.Limits.{MAX_BLOCKS};
ghost use Rattle.iloc_explain.specs.Listing.{AreTableRows};
ghost use Rattle.iloc_explain.specs.Measures.{AreMeasures};
ghost use Rattle.iloc_listing.specs.Schedules.{ranks_under};
ghost use Rattle.iloc_args.specs.Flags.{has};
ghost use Rattle.iloc_args.specs.declared.flag.Flag.TheVariants.{Csv, Cycles};
ghost use Rattle.iloc_view_commands.specs.Explain.{AreSaid, IsSaid, listing_of_explained, with_block};

use iloc_args::{Flag, Request};
use iloc_driver::{FarmedLister, Job};
use iloc_explain::{Subject, push_explanation, push_ready_list, push_table};
use iloc_graph::measure;
use iloc_listing::{
    EntryMaker, Listing, ScheduleEntry, count_of, push_block_head, push_head, with_total,
};
use iloc_ops::{Blocks, NoMemory};
use iloc_rules::Heuristic;
use iloc_sched::{Graph, Scheduler};
use std::alloc::Global;

/// What a table begins with.
const HEADER: &[u8] =
    b"block,name,number,cycle,unit,ready,after,priority,earliest,slack,held,operation,issued\n";

/// The numbers that rank the operations of `graph`: its `own`, if it has some, else the ones of `heuristic` by its
/// rule.
pub(crate) fn ranks_of(
    alloc: Global,
    graph: &Graph,
    own: Option<&[u32]>,
    heuristic: Heuristic,
) -> Result<Vec<u32>, NoMemory>
    ensures { IfOk result (λ ranks. ranks.items
        ≡ ranks_under graph.now.rule heuristic graph.now.latencies (option_copied own.entry) graph.now.ops) }
{
    let mut ranks = Vec::new(alloc);
    match own {
        Some(numbers) => ranks.extend_from_slice(numbers)?,
        None => graph.rank(heuristic, &mut ranks)?,
    }
    Ok(ranks)
}

/// Appends what is said of a schedule: cycle by cycle or operation by operation.
fn push_said(
    alloc: Global,
    text: &mut Vec<u8>,
    explained: &Subject<'_>,
    by_cycle: bool,
) -> Result<(), NoMemory>
    requires { AreMeasures explained.now.measures.now.delays.latencies.now explained.now.schedule.now.ops explained.now.measures.now }
    ensures { OnOk result ((said : List ℕ)
        × IsSaid by_cycle explained.now.measures.now.ranks.items explained.now.measures.now.delays.rule
        explained.now.measures.now.delays.latencies.now explained.now.measures.now.least explained.now.block.now.ops explained.now.schedule.now said
        × (text.new.items ≡ text.old.items ++ said)) }
{
    if by_cycle {
        return push_ready_list(alloc, text, explained);
    }
    push_explanation(alloc, text, explained, explained.schedule.ops())
}

/// Appends the rows of block `number` in a table.
fn push_rows(
    alloc: Global,
    text: &mut Vec<u8>,
    number: usize,
    explained: &Subject<'_>,
) -> Result<(), NoMemory>
    requires number { number < 2 ^ 63 }
    requires measured { AreMeasures explained.now.measures.now.delays.latencies.now explained.now.schedule.now.ops explained.now.measures.now }
    ensures { OnOk result ((table : List (List ℕ))
        × AreTableRows explained.now.measures.now.ranks.items explained.now.measures.now.delays.rule
        explained.now.measures.now.delays.latencies.now explained.now.block.now.ops explained.now.schedule.now.ops
        explained.now.schedule.now.rows table
        × (text.new.items ≡ text.old.items ++ with_block true number explained.now.block.now.name table)) }
{
    let mut head = Vec::new(alloc);
    push_head(&mut head, true, number, explained.block.name.as_ref())?;
    push_table(alloc, text, &head, explained)
}

/// Appends the head of block `number`, and what is said of its schedule.
fn push_text(
    alloc: Global,
    text: &mut Vec<u8>,
    number: usize,
    explained: &Subject<'_>,
    by_cycle: bool,
) -> Result<(), NoMemory>
    requires number { number < 2 ^ 63 }
    requires measured { AreMeasures explained.now.measures.now.delays.latencies.now explained.now.schedule.now.ops explained.now.measures.now }
    ensures { OnOk result ((said : List ℕ)
        × IsSaid by_cycle explained.now.measures.now.ranks.items explained.now.measures.now.delays.rule
        explained.now.measures.now.delays.latencies.now explained.now.measures.now.least explained.now.block.now.ops explained.now.schedule.now said
        × (text.new.items ≡ text.old.items ++ with_block false number explained.now.block.now.name (said ∷ []))) }
{
    push_block_head(text, number, explained.block.name.as_ref())?;
    text.push(b'\n')?;
    push_said(alloc, text, explained, by_cycle)
}

/// Appends the entry of block `number`, as `request` asks for it.
fn push_entry(
    alloc: Global,
    text: &mut Vec<u8>,
    request: &Request,
    number: usize,
    explained: &Subject<'_>,
) -> Result<(), NoMemory>
    requires number { number < 2 ^ 63 }
    requires measured { AreMeasures explained.now.measures.now.delays.latencies.now explained.now.schedule.now.ops explained.now.measures.now }
    ensures { OnOk result ((said : List (List ℕ))
        × AreSaid (has request.now.flags Csv) (has request.now.flags Cycles) explained.now.measures.now.ranks.items
        explained.now.measures.now.delays.rule explained.now.measures.now.delays.latencies.now explained.now.measures.now.least
        explained.now.block.now.ops explained.now.schedule.now said
        × (text.new.items
        ≡ text.old.items ++ with_block (has request.now.flags Csv) number explained.now.block.now.name said)) }
{
    let csv = request.flags.has(Flag::Csv);
    let by_cycle = request.flags.has(Flag::Cycles);
    if csv {
        push_rows(alloc, text, number, explained)
    } else {
        push_text(alloc, text, number, explained, by_cycle)
    }
}

/// The table of `entries`.
fn table_of(alloc: Global, mut entries: Vec<ScheduleEntry>) -> Result<Listing, NoMemory>
    ensures { IfOk result (λ text. text ≡ listing_of_explained true entries.items) }
{
    let header = EntryMaker::new(alloc).entry_of(HEADER, 0)?;
    entries.insert(0, header)?;
    Listing::of_entries(alloc, entries, Vec::new(alloc))
}

/// The listing of `entries`, as a table or with the cycles of all at the end.
fn listing_of(alloc: Global, csv: bool, entries: Vec<ScheduleEntry>) -> Result<Listing, NoMemory>
    requires { length entries.items ≤ MAX_BLOCKS }
    ensures { IfOk result (λ text. text ≡ listing_of_explained csv entries.items) }
{
    if csv {
        return table_of(alloc, entries);
    }
    with_total(alloc, entries)
}

/// Schedules each block, and lists why its schedule takes its cycles.
#[derive(Drop)]
pub struct ExplainLister {
    graph: Graph,
    scheduler: Scheduler,
    entries: EntryMaker,
    /// The entry of a block, until it is kept.
    text: Vec<u8>,
}

impl FarmedLister for ExplainLister {
    ghost use Rattle.iloc_view_commands.specs.Explain.{IsExplainEntry, IsExplainListing};
    ghost use Rattle.iloc_driver.specs.Entries.{AreListed};
    ghost use Rattle.iloc_driver.specs.Priorities.{Own};
    ghost use Rattle.iloc_driver.specs.Work.{by_own};

    type Answer = ScheduleEntry;

    ghost answers = { λ request own k block entry. IsExplainEntry request own k block entry.text entry.cycles };

    ghost cycles_in = { λ entry. entry.cycles };

    ghost made_of = { λ request _ entries. listing_of_explained (has request.flags Csv) entries };

    ghost lists = { IsExplainListing };

    fn new(alloc: Global) -> ExplainLister {
        ExplainLister {
            graph: Graph::new(alloc),
            scheduler: Scheduler::new(alloc),
            entries: EntryMaker::new(alloc),
            text: Vec::new(alloc),
        }
    }

    fn answer(
        &mut self,
        alloc: Global,
        request: &Request,
        job: &Job<'_>,
    ) -> Result<ScheduleEntry, NoMemory> {
        let (block, latencies) = (job.block, &request.latencies);
        self.graph.refill(request.memory_rule(), block, latencies)?;
        let ranks = ranks_of(alloc, &self.graph, job.own, request.priority)?;
        let measures = measure(alloc, &self.graph, ranks)?;
        let schedule = self.scheduler.lend(&self.graph, &measures.ranks)?;
        let cycles = count_of(&schedule, latencies);
        let explained = Subject {
            block,
            measures: &measures,
            schedule: &schedule,
        };
        self.text.clear();
        push_entry(alloc, &mut self.text, request, job.number, &explained)?;
        let entry = self.entries.entry_of(&self.text, cycles)?;
        self.scheduler.take_back(schedule);
        Ok(entry)
    }

    fn cycles(entry: &ScheduleEntry) -> u32 {
        entry.cycles
    }

    fn listing(
        alloc: Global,
        request: &Request,
        blocks: Blocks,
        entries: Vec<ScheduleEntry>,
    ) -> Result<Listing, NoMemory>
        requires few { length blocks ≤ MAX_BLOCKS }
        requires many { length entries.items ≡ length blocks }
        ensures made { IfOk result (λ text. text ≡ listing_of_explained (has request.now.flags Csv) entries.items) }
        ensures right { IfOk result (λ text. (own : Own)
            → AreListed (by_own (λ own k block entry. IsExplainEntry request.now own k block entry.text entry.cycles) own)
            blocks entries.items → IsExplainListing request.now own blocks text) }
    {
        drop(blocks);
        let csv = request.flags.has(Flag::Csv);
        listing_of(alloc, csv, entries)
    }
}

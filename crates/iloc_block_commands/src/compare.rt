//! `compare`: the bound on blocks' cycles, and the cycles of their schedules by each heuristic and by their own priorities.
ghost use Rattle.std.specs.Prelude.{◌≡◌, ◌≤◌, ◌<◌, ◌^◌, ◌++◌, false, length, nat_le, sum_by, IfOk, IfSome, OnOk};
ghost use Rattle.std.specs.List.{list_all};
ghost use Rattle.std.specs.Option.{option_copied};
ghost use Rattle.iloc_ops.specs.Limits.{MAX_BLOCKS};
ghost use Rattle.iloc_ops.specs.declared.file.Block.{Block as block_value};
ghost use Rattle.iloc_timed.specs.declared.latencies.Latencies.{Latencies as latencies_value};
ghost use Rattle.iloc_rules.specs.declared.memory_rule.MemoryRule.{MemoryRule as rule_value};
ghost use Rattle.iloc_sched.specs.Graph.GraphOf.{of_block};
ghost use Rattle.iloc_rules.specs.Heuristics.Listed.{heuristics};
ghost use Rattle.iloc_rules.specs.declared.heuristic.Heuristic.{Heuristic as heuristic_value};
ghost use Rattle.iloc_block_commands.specs.Compare as compare;
ghost use Rattle.iloc_block_commands.specs.Compare.{IsOwnCount};
ghost use Rattle.iloc_listing.specs.Schedules.{IsCountUnder};
ghost use Rattle.iloc_block_commands.specs.Steps.Tallies.{added, counted};

use iloc_args::{Flag, Request, priority_name};
use iloc_bound::least_of;
use iloc_driver::{FarmedLister, Job};
use iloc_listing::{Listing, count_of, push_field, push_head, push_numbered};
use iloc_ops::{Blocks, Name, NoMemory};
use iloc_optimum::Optimizer;
use iloc_rules::{HEURISTIC_COUNT, HEURISTICS, Sought};
use iloc_sched::{Graph, Scheduler};
use std::alloc::Global;

/// The bound on a block's cycles, and the cycles of its schedules by each heuristic and by its own priorities.
#[derive(Clone, Copy, Drop)]
pub struct ComparedCycles {
    /// How many cycles a schedule takes at least that is lawful by the rule of memory.
    pub least: u32,
    /// What a search finds of them, if there is one.
    pub sought: Option<Sought>,
    /// How many each schedule takes, in the order in which the heuristics are listed.
    pub cycles: [u32; HEURISTIC_COUNT],
    /// How many that by the block's own priorities takes, if it has some.
    pub own: Option<u32>,
}

/// How many cycles a lawful schedule is known to take at least.
fn bound_of(comparison: &ComparedCycles) -> u32
    ensures { result ≡ compare.bound_of comparison.now }
{
    match &comparison.sought {
        Some(sought) => sought.bound,
        None => comparison.least,
    }
}

/// How many the best schedule takes that a search finds, if there is one.
fn best_of(comparison: &ComparedCycles) -> u32
    ensures { result ≡ compare.best_of comparison.now }
{
    match &comparison.sought {
        Some(sought) => sought.best,
        None => 0,
    }
}

/// Whether the schedule by no heuristic takes fewer.
fn is_fewest_by_name(cycles: u32, comparison: &ComparedCycles) -> bool
    ensures { result ≡ list_all (nat_le cycles) comparison.now.cycles }
{
    comparison.cycles.iter().all(|other| cycles <= *other)
}

/// Whether none of the schedules takes fewer.
fn is_fewest(cycles: u32, comparison: &ComparedCycles) -> bool
    ensures { result ≡ compare.is_fewest cycles comparison.now }
{
    let by_name = is_fewest_by_name(cycles, comparison);
    match comparison.own {
        Some(own) => by_name && cycles <= own,
        None => by_name,
    }
}

/// What is summed over blocks.
#[derive(Clone, Copy)]
enum Tally {
    /// The cycles of their schedules.
    Cycles,
    /// In how many no other schedule takes fewer.
    Fewest,
    /// In how many the schedule takes as many as the bound that is known.
    Optimal,
}

impl Tally {
    /// What the block of `comparison` adds to the tally for a schedule of `cycles` cycles.
    fn of(self, cycles: u32, comparison: &ComparedCycles) -> u32
        ensures { result ≡ counted self cycles comparison.now }
    {
        match self {
            Tally::Cycles => cycles,
            Tally::Fewest => u32::from(is_fewest(cycles, comparison)),
            Tally::Optimal => u32::from(cycles == bound_of(comparison)),
        }
    }

    /// What one block adds for the heuristic at this place.
    fn at(self, place: usize, comparison: &ComparedCycles) -> u32
        requires { place < length heuristics }
        ensures { (h : heuristic_value) → place ≡ compare.place h
            → result ≡ compare.counted_by (counted self) h comparison.now }
    {
        self.of(comparison.cycles[place], comparison)
    }

    /// What one block adds for its own priorities, if it has some.
    fn of_own(self, comparison: &ComparedCycles) -> u32
        ensures { result ≡ compare.counted_own (counted self) comparison.now }
    {
        match comparison.own {
            Some(cycles) => self.of(cycles, comparison),
            None => 0,
        }
    }

    /// What all add for the heuristic at this place.
    fn sum(self, place: usize, found: &[ComparedCycles]) -> u64
        requires there { place < length heuristics }
        requires few { length found.now ≤ MAX_BLOCKS }
        ensures { (h : heuristic_value) → place ≡ compare.place h
            → result ≡ sum_by (compare.counted_by (counted self) h) found.now }
    {
        let mut sum = 0;
        for comparison in found {
            sum += u64::from(self.at(place, comparison));
        }
        sum
    }
}

/// What is summed over blocks, whatever the heuristic.
#[derive(Clone, Copy)]
enum Total {
    /// The bounds by the formula.
    Least,
    /// The bounds that are known.
    Bound,
    /// The cycles of the best schedules that are found.
    Best,
    /// This, of the schedules by the blocks' own priorities.
    Own(Tally),
}

impl Total {
    /// What one block adds.
    fn of(self, comparison: &ComparedCycles) -> u32
        ensures { result ≡ added self comparison.now }
    {
        match self {
            Total::Least => comparison.least,
            Total::Bound => bound_of(comparison),
            Total::Best => best_of(comparison),
            Total::Own(tally) => tally.of_own(comparison),
        }
    }

    /// What all add.
    fn sum(self, found: &[ComparedCycles]) -> u64
        requires { length found.now ≤ MAX_BLOCKS }
        ensures { result ≡ sum_by (added self) found.now }
    {
        let mut sum = 0;
        for comparison in found {
            sum += u64::from(self.of(comparison));
        }
        sum
    }
}

/// Appends for each heuristic the cycles of its schedule.
fn push_cycles(text: &mut Vec<u8>, csv: bool, comparison: &ComparedCycles) -> Result<(), NoMemory>
    ensures { OnOk result (text.new.items ≡ text.old.items
        ++ compare.columns csv (λ heuristic. compare.cycles_by heuristic comparison.now) heuristics) }
{
    for (place, heuristic) in HEURISTICS.iter().enumerate() {
        let cycles = comparison.cycles[place];
        push_field(text, csv, priority_name(*heuristic), u64::from(cycles))?;
    }
    Ok(())
}

/// Appends the cycles by the block's own priorities, if it has some.
fn push_own(text: &mut Vec<u8>, csv: bool, own: Option<u32>) -> Result<(), NoMemory>
    ensures { OnOk result (text.new.items ≡ text.old.items ++ compare.own_column csv own) }
{
    if let Some(cycles) = own {
        push_field(text, csv, "own", u64::from(cycles))?;
    }
    Ok(())
}

/// Appends for each heuristic what is summed over all blocks.
fn push_sums_by(text: &mut Vec<u8>, tally: Tally, found: &[ComparedCycles]) -> Result<(), NoMemory>
    requires { length found.now ≤ MAX_BLOCKS }
    ensures { OnOk result (text.new.items ≡ text.old.items ++ compare.columns false
        (λ heuristic. sum_by (compare.counted_by (counted tally) heuristic) found.now) heuristics) }
{
    for (place, heuristic) in HEURISTICS.iter().enumerate() {
        let sum = tally.sum(place, found);
        push_field(text, false, priority_name(*heuristic), sum)?;
    }
    Ok(())
}

/// Appends for each heuristic what is summed over all blocks, and for their own priorities, if they have some.
fn push_sums(
    text: &mut Vec<u8>,
    own: bool,
    tally: Tally,
    found: &[ComparedCycles],
) -> Result<(), NoMemory>
    requires { length found.now ≤ MAX_BLOCKS }
    ensures { OnOk result (text.new.items ≡ text.old.items ++ compare.sums_of own (counted tally) found.now) }
{
    push_sums_by(text, tally, found)?;
    if own {
        push_field(text, false, "own", Total::Own(tally).sum(found))?;
    }
    Ok(())
}

/// Appends the bound and the cycles that a search finds, if there is one.
fn push_sought(text: &mut Vec<u8>, csv: bool, sought: &Option<Sought>) -> Result<(), NoMemory>
    ensures { OnOk result (text.new.items ≡ text.old.items ++ compare.sought_columns csv sought.now) }
{
    if let Some(sought) = sought {
        push_field(text, csv, "bound", u64::from(sought.bound))?;
        push_field(text, csv, "best", u64::from(sought.best))?;
    }
    Ok(())
}

/// Appends the line of the block with this number, counted from 1, or its row in a table.
fn push_comparison(
    text: &mut Vec<u8>,
    csv: bool,
    number: usize,
    name: Option<&Name>,
    comparison: &ComparedCycles,
) -> Result<(), NoMemory>
    requires { number < 2 ^ 63 }
    ensures { OnOk result (text.new.items ≡ text.old.items
        ++ compare.compare_line csv number (option_copied name.entry) comparison.now) }
{
    push_head(text, csv, number, name)?;
    push_field(text, csv, "least", u64::from(comparison.least))?;
    push_sought(text, csv, &comparison.sought)?;
    push_cycles(text, csv, comparison)?;
    push_own(text, csv, comparison.own)?;
    text.push(b'\n')?;
    Ok(())
}

/// Appends the bounds and the cycles that a search finds of all blocks together, if there is one.
fn push_sought_sums(
    text: &mut Vec<u8>,
    nodes: Option<u32>,
    found: &[ComparedCycles],
) -> Result<(), NoMemory>
    requires { length found.now ≤ MAX_BLOCKS }
    ensures { OnOk result (text.new.items ≡ text.old.items ++ compare.sought_sums nodes found.now) }
{
    if nodes.is_some() {
        push_field(text, false, "bound", Total::Bound.sum(found))?;
        push_field(text, false, "best", Total::Best.sum(found))?;
    }
    Ok(())
}

/// Appends the line of the bounds and the cycles of all blocks together.
fn push_sums_line(
    text: &mut Vec<u8>,
    nodes: Option<u32>,
    own: bool,
    found: &[ComparedCycles],
) -> Result<(), NoMemory>
    requires { length found.now ≤ MAX_BLOCKS }
    ensures { OnOk result (text.new.items ≡ text.old.items ++ compare.sums_line nodes own found.now) }
{
    push_numbered(text, b"total least ", Total::Least.sum(found), b"")?;
    push_sought_sums(text, nodes, found)?;
    push_sums(text, own, Tally::Cycles, found)?;
    text.push(b'\n')?;
    Ok(())
}

/// Appends the line of what is counted of all blocks, after this label.
fn push_tally_line(
    text: &mut Vec<u8>,
    label: &[u8],
    own: bool,
    tally: Tally,
    found: &[ComparedCycles],
) -> Result<(), NoMemory>
    requires { length found.now ≤ MAX_BLOCKS }
    ensures { OnOk result
        (text.new.items ≡ text.old.items ++ compare.tally_line label.now own (counted tally) found.now) }
{
    text.extend_from_slice(label)?;
    push_sums(text, own, tally, found)?;
    push_numbered(text, b" of ", found.len() as u64, b"\n")
}

/// Appends what all blocks add up to, but in a table.
fn push_totals(
    text: &mut Vec<u8>,
    request: &Request,
    found: &[ComparedCycles],
) -> Result<(), NoMemory>
    requires { length found.now ≤ MAX_BLOCKS }
    ensures { OnOk result (text.new.items ≡ text.old.items ++ compare.ending_for request.now found.now) }
{
    if request.flags.has(Flag::Csv) {
        return Ok(());
    }
    let own = request.priorities_file.is_some();
    push_sums_line(text, request.nodes, own, found)?;
    push_tally_line(text, b"fewest", own, Tally::Fewest, found)?;
    push_tally_line(text, b"optimal", own, Tally::Optimal, found)
}

/// Appends the name of each heuristic, with a comma before it.
fn push_names(text: &mut Vec<u8>) -> Result<(), NoMemory>
    ensures { OnOk result (text.new.items ≡ text.old.items ++ compare.names) }
{
    for heuristic in HEURISTICS.iter() {
        text.push(b',')?;
        text.extend_from_slice(priority_name(*heuristic).as_bytes())?;
    }
    Ok(())
}

/// What a table begins with before the heuristics' names.
fn heading(nodes: Option<u32>) -> &'static [u8]
    ensures { result.now ≡ compare.heading nodes }
{
    match nodes {
        Some(_) => b"block,name,least,bound,best",
        None => b"block,name,least",
    }
}

/// What follows them where the request names priorities.
fn own_name(own: bool) -> &'static [u8]
    ensures { result.now ≡ compare.own_name own }
{
    if own { b",own" } else { b"" }
}

/// Appends what a table begins with, if one is asked for.
fn push_opening(text: &mut Vec<u8>, request: &Request) -> Result<(), NoMemory>
    ensures { OnOk result (text.new.items ≡ text.old.items ++ compare.opening_for request.now) }
{
    if !request.flags.has(Flag::Csv) {
        return Ok(());
    }
    text.extend_from_slice(heading(request.nodes))?;
    push_names(text)?;
    text.extend_from_slice(own_name(request.priorities_file.is_some()))?;
    Ok(text.push(b'\n')?)
}

/// Schedules each block by each heuristic and its own priorities, and answers how many cycles the schedules take.
#[derive(Drop)]
pub struct CompareLister {
    graph: Graph,
    scheduler: Scheduler,
    optimizer: Optimizer,
}

/// How many cycles the schedule of the block of `graph` takes that is greedy by `numbers`.
fn count_by(scheduler: &mut Scheduler, graph: &Graph, numbers: &[u32]) -> Result<u32, NoMemory>
    requires { length numbers.now ≡ length graph.now.ops }
    ensures { IfOk result (λ cycles. (rule : rule_value) (lat : latencies_value) (block : block_value)
        → graph.now ≡ of_block rule lat block.ops → IsCountUnder rule (λ _. numbers.now) lat block cycles) }
{
    let schedule = scheduler.lend(graph, numbers)?;
    let cycles = count_of(&schedule, graph.latencies());
    scheduler.take_back(schedule);
    Ok(cycles)
}

/// The same, if there are some.
fn own_count(
    scheduler: &mut Scheduler,
    graph: &Graph,
    own: Option<&[u32]>,
) -> Result<Option<u32>, NoMemory>
    requires { IfSome (option_copied own) (λ numbers. length numbers ≡ length graph.now.ops) }
    ensures { IfOk result (λ count. (rule : rule_value) (lat : latencies_value) (block : block_value)
        → graph.now ≡ of_block rule lat block.ops → IsOwnCount rule lat (option_copied own.entry) block count) }
{
    match own {
        Some(numbers) => Ok(Some(count_by(scheduler, graph, numbers)?)),
        None => Ok(None),
    }
}

impl FarmedLister for CompareLister {
    ghost use Rattle.iloc_args.specs.Rule.{memory_rule};
    ghost use Rattle.iloc_rules.specs.declared.heuristic.Heuristic.TheVariants.{Chain};
    ghost use Rattle.iloc_block_commands.specs.Compare.{IsCompareListing, IsComparedCycles, cycles_by, listing_of_compared};
    ghost use Rattle.iloc_driver.specs.Entries.{AreListed};
    ghost use Rattle.iloc_driver.specs.Priorities.{Own};
    ghost use Rattle.iloc_driver.specs.Work.{by_own};

    type Answer = ComparedCycles;

    ghost answers = { λ request own _ block found.
        IsComparedCycles (memory_rule request) request.latencies request.nodes own block found };

    ghost cycles_in = { λ found. cycles_by Chain found };

    ghost made_of = { listing_of_compared };

    ghost lists = { IsCompareListing };

    fn new(alloc: Global) -> CompareLister {
        CompareLister {
            graph: Graph::new(alloc),
            scheduler: Scheduler::new(alloc),
            optimizer: Optimizer::new(alloc),
        }
    }

    fn answer(
        &mut self,
        alloc: Global,
        request: &Request,
        job: &Job<'_>,
    ) -> Result<ComparedCycles, NoMemory> {
        let block = job.block;
        self.graph
            .refill(request.memory_rule(), block, &request.latencies)?;
        let least = least_of(alloc, &self.graph)?;
        let orders = self.optimizer.orders(block, &self.graph, least)?;
        let cycles = orders.cycles;
        let sought = self
            .optimizer
            .seek_from(block, &self.graph, orders.best, request.nodes)?;
        let own = own_count(&mut self.scheduler, &self.graph, job.own)?;
        Ok(ComparedCycles {
            least: least as u32,
            sought,
            cycles,
            own,
        })
    }

    fn cycles(found: &ComparedCycles) -> u32 {
        found.cycles[0]
    }

    fn listing(
        alloc: Global,
        request: &Request,
        blocks: Blocks,
        found: Vec<ComparedCycles>,
    ) -> Result<Listing, NoMemory>
        requires few { length blocks ≤ MAX_BLOCKS }
        requires many { length found.items ≡ length blocks }
        ensures made { IfOk result (λ text. text ≡ listing_of_compared request.now blocks found.items) }
        ensures right { IfOk result (λ text. (own : Own)
            → AreListed (by_own (λ own _ block each.
            IsComparedCycles (memory_rule request.now) request.now.latencies request.now.nodes own block each) own)
            blocks found.items → IsCompareListing request.now own blocks text) }
    {
        let csv = request.flags.has(Flag::Csv);
        let mut text = Vec::new(alloc);
        push_opening(&mut text, request)?;
        for (index, block) in blocks.as_slice().iter().enumerate() {
            let name = block.name.as_ref();
            push_comparison(&mut text, csv, index + 1, name, &found[index])?;
        }
        push_totals(&mut text, request, &found)?;
        Ok(Listing::of_text(alloc, text))
    }
}

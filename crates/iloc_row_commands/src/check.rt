//! `check`: what is said of the schedules that others proposed for blocks.
ghost use Rattle.std.specs.Prelude.{◌≡◌, ◌<◌, ◌≤◌, ◌^◌, ◌++◌, length, IfOk, OnOk};
ghost use Rattle.std.specs.List.{All};
ghost use Rattle.std.specs.Option.{option_copied};
ghost use Rattle.iloc_row_commands.specs.Check as listed;
ghost use Rattle.iloc_row_commands.specs.Check.{form_of, options_of, IsSmall as IsSmallCheck};
ghost use Rattle.iloc_ops.specs.Limits.{MAX_BLOCKS, MAX_OPS};
ghost use Rattle.iloc_rules.specs.declared.heuristic.Heuristic.TheVariants.{Chain};
ghost use Rattle.iloc_rules.specs.Greedy.{IsGreedy, IsGreedyWhere};
ghost use Rattle.iloc_rules.specs.Rule.{counts_by};
ghost use Rattle.iloc_rules.specs.Heuristics.{priorities_under};

use crate::json::push_json_head;
use crate::totals::Totals;
use iloc_args::{Flag, Request};
use iloc_bound::least_of;
use iloc_comparison::{CheckOptions, Form, JudgedBlock, Judging};
use iloc_driver::{Finding, Job, RowLister, initial_memory};
use iloc_judge::push_check;
use iloc_listing::push_head;
use iloc_meaning::Memory;
use iloc_ops::{Block, Name, NoMemory};
use iloc_optimum::Optimizer;
use iloc_rows::Proposal;
use iloc_rules::{Heuristic, MemoryRule};
use iloc_sched::{Graph, Scheduler};
use iloc_timed::{Latencies, MAX_ROWS, Schedule, cycles};
use iloc_verdict::Checked;
use std::alloc::Global;

/// What a table begins with.
const HEADER: &[u8] = b"block,name,verdict,cycles,ours,least,claimed\n";

/// What it begins with where schedules are searched for.
const SEARCHED_HEADER: &[u8] = b"block,name,verdict,cycles,ours,best,bound,least,claimed\n";

/// Judges what is proposed for each block, beside our schedule of it.
#[derive(Drop)]
pub struct CheckLister {
    graph: Graph,
    scheduler: Scheduler,
    optimizer: Optimizer,
    memory: Memory,
    /// How many blocks are judged.
    blocks: usize,
}

/// What a table begins with, by the nodes that a search has.
fn header(nodes: Option<u32>) -> &'static [u8]
    ensures { result.now ≡ listed.check_header nodes }
{
    match nodes {
        Some(_) => SEARCHED_HEADER,
        None => HEADER,
    }
}

/// The form of the listing that a request asks for.
fn form_of(request: &Request) -> Form
    ensures { result ≡ form_of request.now }
{
    match (request.flags.has(Flag::Csv), request.flags.has(Flag::Json)) {
        (_, true) => Form::Json,
        (true, false) => Form::Table,
        (false, false) => Form::Lines,
    }
}

/// What a request asks of rows.
fn options_of(request: &Request) -> CheckOptions
    ensures { result ≡ options_of request.now }
{
    CheckOptions {
        lawful: request.flags.has(Flag::Lawful),
        operations: request.flags.has(Flag::Operations),
        outputs_alone: request.flags.has(Flag::Outputs),
        form: form_of(request),
    }
}

/// Appends how the entry of a block begins.
fn push_check_head(
    text: &mut Vec<u8>,
    form: Form,
    number: usize,
    name: Option<&Name>,
) -> Result<(), NoMemory>
    requires { number < 2 ^ 63 }
    ensures { OnOk result
        (text.new.items ≡ text.old.items ++ listed.check_head form number (option_copied name.entry)) }
{
    match form {
        Form::Lines => push_head(text, false, number, name),
        Form::Table => push_head(text, true, number, name),
        Form::Json => push_json_head(text, number, name),
    }
}

/// Appends the header of a table.
fn push_check_opening(text: &mut Vec<u8>, form: Form, nodes: Option<u32>) -> Result<(), NoMemory>
    ensures { OnOk result (text.new.items ≡ text.old.items ++ listed.check_opening form nodes) }
{
    match form {
        Form::Lines | Form::Json => Ok(()),
        Form::Table => Ok(text.extend_from_slice(header(nodes))?),
    }
}

/// Appends the totals, where lines are listed.
fn push_check_ending(
    text: &mut Vec<u8>,
    form: Form,
    nodes: Option<u32>,
    found: &[Checked],
) -> Result<(), NoMemory>
    requires few { length found.now ≤ MAX_BLOCKS }
    requires small { All IsSmallCheck found.now }
    ensures { OnOk result (text.new.items ≡ text.old.items ++ listed.check_ending form nodes found.now) }
{
    match form {
        Form::Lines => Totals::of(found).push_line(text, nodes),
        Form::Table | Form::Json => Ok(()),
    }
}

/// The greedy schedule of a block by the book, of which this one is by a rule of memory.
fn by_the_book(
    graph: &mut Graph,
    scheduler: &mut Scheduler,
    rule: MemoryRule,
    block: &Block,
    latencies: &Latencies,
    ruled: Schedule,
) -> Result<Schedule, NoMemory>
    requires short { length block.now.ops ≤ MAX_OPS }
    requires ruled { IsGreedyWhere (counts_by rule ruled.ops) (priorities_under rule Chain latencies.now ruled.ops) latencies.now
        block.now.ops ruled.ops ruled.rows }
    ensures { IfOk result (λ s. IsGreedy latencies.now block.now.ops s.ops s.rows) }
{
    match rule {
        MemoryRule::Book => Ok(ruled),
        MemoryRule::Address => {
            scheduler.take_back(ruled);
            graph.refill(MemoryRule::Book, block, latencies)?;
            scheduler.lend_as(graph, Heuristic::Chain)
        }
    }
}

impl RowLister for CheckLister {
    ghost use Rattle.iloc_row_commands.specs.Check.{IsCheckEntry, check_ending, check_opening, form_of, options_of, IsSmall};
    ghost use Rattle.iloc_args.specs.Flags.{has};
    ghost use Rattle.iloc_args.specs.Rule.{memory_rule};
    ghost use Rattle.iloc_args.specs.declared.flag.Flag.TheVariants.{Lawful};
    ghost use Rattle.iloc_driver.specs.Command.{initial_memory};
    ghost use Rattle.iloc_verdict.specs.Checked.{passes};

    type Found = Checked;

    ghost lists = { λ request.
        IsCheckEntry (options_of request) request.nodes (memory_rule request) request.latencies (initial_memory request) };

    ghost opening = { λ request. check_opening (form_of request) request.nodes };

    ghost ending = { λ request. check_ending (form_of request) request.nodes };

    ghost passes = { λ request. passes (has request.flags Lawful) };

    ghost fits = { IsSmall };

    ghost memory = { λ _ lister. lister.memory };

    fn new(alloc: Global, request: &Request, blocks: usize) -> Result<CheckLister, NoMemory> {
        Ok(CheckLister {
            graph: Graph::new(alloc),
            scheduler: Scheduler::new(alloc),
            optimizer: Optimizer::new(alloc),
            memory: initial_memory(alloc, request)?,
            blocks,
        })
    }

    fn push_opening(request: &Request, text: &mut Vec<u8>) -> Result<(), NoMemory> {
        push_check_opening(text, form_of(request), request.nodes)
    }

    fn list(
        &mut self,
        alloc: Global,
        request: &Request,
        job: &Job<'_>,
        proposal: Proposal,
        text: &mut Vec<u8>,
    ) -> Result<Checked, NoMemory> {
        let (block, latencies) = (job.block, &request.latencies);
        prove!(proposal.rows().len() <= MAX_ROWS);
        let rule = request.memory_rule();
        self.graph.refill(rule, block, latencies)?;
        let least = least_of(alloc, &self.graph)?;
        let sought = self
            .optimizer
            .seek_if(block, &self.graph, least, request.nodes)?;
        let ruled = self.scheduler.lend_as(&self.graph, Heuristic::Chain)?;
        let cycles = cycles(&ruled, latencies);
        let ours = by_the_book(
            &mut self.graph,
            &mut self.scheduler,
            rule,
            block,
            latencies,
            ruled,
        )?;
        push_check_head(text, form_of(request), job.number, block.name.as_ref())?;
        let judging = Judging {
            options: options_of(request),
            memory: &self.memory,
            blocks: self.blocks,
        };
        let task = JudgedBlock {
            block,
            ours: &ours,
            cycles,
            sought,
            least,
            latencies,
        };
        let checked = push_check(alloc, text, &judging, &task, proposal)?;
        self.scheduler.take_back(ours);
        Ok(checked)
    }

    fn push_ending(
        request: &Request,
        text: &mut Vec<u8>,
        found: &[Checked],
    ) -> Result<(), NoMemory> {
        push_check_ending(text, form_of(request), request.nodes, found)
    }

    fn finding(request: &Request, found: &[Checked]) -> Finding {
        let lawful = request.flags.has(Flag::Lawful);
        Finding::of(found.iter().all(|checked| checked.passes(lawful)))
    }
}

//! `explain --task`: why the rows that others proposed for blocks take their cycles.
ghost use Rattle.std.specs.Prelude.{◌≡◌, ◌≤◌, ◌<◌, ◌^◌, length, sum_by};
ghost use Rattle.std.specs.List.{All};
ghost use Rattle.iloc_ops.specs.Limits.{MAX_BLOCKS};
ghost use Rattle.iloc_row_commands.specs.declared.explain.explained.ExplainedRows.{ExplainedRows as explained_rows};
ghost use Rattle.iloc_listing.specs.Limits.{most_proposed_cycles};

mod departure;
mod explained;

use explained::{ExplainedRows, KnownBlock, push_rows_explanation};
use iloc_args::Request;
use iloc_driver::{Finding, Job, RowLister};
use iloc_listing::{push_block_head, push_total};
use iloc_ops::NoMemory;
use iloc_rows::Proposal;
use iloc_rules::MemoryRule;
use iloc_sched::{Graph, Scheduler};
use iloc_timed::MAX_ROWS;
use std::alloc::Global;

/// Lists why what is proposed for each block takes its cycles.
#[derive(Drop)]
pub struct RowsExplainer {
    graph: Graph,
    scheduler: Scheduler,
    blocks: usize,
}

/// The sum of the cycles of `found`.
fn cycles_of_all(found: &[ExplainedRows]) -> u64
    requires few { length found.now ≤ MAX_BLOCKS }
    requires small { All (λ (one : explained_rows). one.cycles ≤ most_proposed_cycles) found.now }
    ensures sum { result ≡ sum_by (λ one. one.cycles) found.now }
    ensures small { result < 2 ^ 63 }
{
    let mut cycles = 0;
    for one in found {
        cycles += one.cycles;
    }
    cycles
}

impl RowLister for RowsExplainer {
    ghost use Rattle.std.specs.Prelude.{◌≤◌, []};
    ghost use Rattle.iloc_row_commands.specs.Explain.{IsRowsEntry, rows_total};
    ghost use Rattle.iloc_driver.specs.Command.{initial_memory};
    ghost use Rattle.iloc_listing.specs.Limits.{most_proposed_cycles};

    type Found = ExplainedRows;

    ghost lists = { λ request. IsRowsEntry request.priority request.latencies };

    ghost opening = { λ _. [] };

    ghost ending = { λ _. rows_total };

    ghost passes = { λ _ found. found.is_lawful };

    ghost fits = { λ found. found.cycles ≤ most_proposed_cycles };

    ghost memory = { λ request _. initial_memory request };

    fn new(alloc: Global, _request: &Request, blocks: usize) -> Result<RowsExplainer, NoMemory> {
        Ok(RowsExplainer {
            graph: Graph::new(alloc),
            scheduler: Scheduler::new(alloc),
            blocks,
        })
    }

    fn push_opening(_request: &Request, _text: &mut Vec<u8>) -> Result<(), NoMemory> {
        Ok(())
    }

    fn list(
        &mut self,
        alloc: Global,
        request: &Request,
        job: &Job<'_>,
        proposal: Proposal,
        text: &mut Vec<u8>,
    ) -> Result<ExplainedRows, NoMemory> {
        let (latencies, priority) = (&request.latencies, request.priority);
        let block = job.block;
        prove!(proposal.rows().len() <= MAX_ROWS);
        self.graph.refill(MemoryRule::Book, block, latencies)?;
        let ours = self.scheduler.lend_as(&self.graph, priority)?;
        push_block_head(text, job.number, block.name.as_ref())?;
        text.push(b'\n')?;
        let known = KnownBlock {
            block,
            graph: &self.graph,
            heuristic: priority,
            ours: &ours,
            latencies,
            blocks: self.blocks,
        };
        let found = push_rows_explanation(alloc, text, &known, proposal)?;
        self.scheduler.take_back(ours);
        Ok(found)
    }

    fn push_ending(
        _request: &Request,
        text: &mut Vec<u8>,
        found: &[ExplainedRows],
    ) -> Result<(), NoMemory> {
        push_total(text, cycles_of_all(found))
    }

    fn finding(_request: &Request, found: &[ExplainedRows]) -> Finding {
        Finding::of(found.iter().all(|one| one.is_lawful))
    }
}

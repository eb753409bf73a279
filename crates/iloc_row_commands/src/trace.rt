//! `trace --task`: what the rows that others proposed for blocks do on the timed machine.
ghost use Rattle.std.specs.Prelude.{ℕ, ◌≡◌, ◌++◌, List, IfOk};
ghost use Rattle.iloc_row_commands.specs.Trace.{IsTraceOf};

use iloc_args::Request;
use iloc_driver::{Finding, Job, RowLister, initial_memory};
use iloc_judge::obstacle_of;
use iloc_listing::push_block_head;
use iloc_ops::NoMemory;
use iloc_rows::Proposal;
use iloc_timed::Latencies;
use iloc_trace::Tracer;
use iloc_verdict::push_obstacle;
use std::alloc::Global;

/// Runs what is proposed for each block, and lists what happens.
#[derive(Drop)]
pub struct RowsTracer(Tracer);

/// Appends what a proposal does, and answers `true`; of one that is no schedule, it appends the line that `check` has for what keeps
/// it from being one.
fn push_traced(
    alloc: Global,
    text: &mut Vec<u8>,
    tracer: &mut Tracer,
    proposal: Proposal,
    latencies: &Latencies,
) -> Result<bool, NoMemory>
    ensures memory { tracer.new ≡ tracer.old }
    ensures listed { IfOk result (λ traced. (entry : List ℕ)
        × IsTraceOf traced latencies.now tracer.old proposal entry
        × (text.new.items ≡ text.old.items ++ entry)) }
{
    if let Some(obstacle) = obstacle_of(alloc, &proposal)? {
        push_obstacle(text, proposal.ops(), proposal.rows(), &obstacle)?;
        return Ok(false);
    }
    tracer.push_trace(text, &proposal.into_schedule(), latencies)?;
    Ok(true)
}

impl RowLister for RowsTracer {
    ghost use Rattle.std.specs.Prelude.{[]};
    ghost use Rattle.iloc_driver.specs.Command.{initial_memory};
    ghost use Rattle.iloc_row_commands.specs.Trace.{IsRowsTraceEntry};

    type Found = bool;

    ghost lists = { λ request. IsRowsTraceEntry request.latencies (initial_memory request) };

    ghost opening = { λ _. [] };

    ghost ending = { λ _ _. [] };

    ghost passes = { λ _ traced. traced };

    ghost fits = { λ _. Unit {0} };

    ghost memory = { λ _ lister. lister.0 };

    fn new(alloc: Global, request: &Request, _blocks: usize) -> Result<RowsTracer, NoMemory> {
        let memory = initial_memory(alloc, request)?;
        Ok(RowsTracer(Tracer::new(alloc, memory)?))
    }

    fn push_opening(_request: &Request, _text: &mut Vec<u8>) -> Result<(), NoMemory> {
        Ok(())
    }

    fn list(
        &mut self,
        alloc: Global,
        request: &Request,
        job: &Job<'_>,
        proposal: Proposal,
        text: &mut Vec<u8>,
    ) -> Result<bool, NoMemory> {
        push_block_head(text, job.number, job.block.name.as_ref())?;
        text.push(b'\n')?;
        push_traced(alloc, text, &mut self.0, proposal, &request.latencies)
    }

    fn push_ending(
        _request: &Request,
        _text: &mut Vec<u8>,
        _found: &[bool],
    ) -> Result<(), NoMemory> {
        Ok(())
    }

    fn finding(_request: &Request, found: &[bool]) -> Finding {
        Finding::of(found.iter().all(|traced| *traced))
    }
}

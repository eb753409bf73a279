//! `trace`: what blocks' schedules do on the timed machine, cycle by cycle.
use crate::explain::ranks_of;
use iloc_args::Request;
use iloc_driver::{Job, Lister, initial_memory};
use iloc_listing::push_block_head;
use iloc_ops::NoMemory;
use iloc_sched::{Graph, Scheduler};
use iloc_trace::Tracer;
use std::alloc::Global;

/// Runs each block's schedule, and lists what happens.
#[derive(Drop)]
pub struct TraceLister {
    graph: Graph,
    scheduler: Scheduler,
    tracer: Tracer,
}

impl Lister for TraceLister {
    ghost use Rattle.iloc_driver.specs.Entries.{no_ending};
    ghost use Rattle.iloc_view_commands.specs.Trace.{IsTraceEntry};

    type Found = ();

    ghost lists = { IsTraceEntry };

    ghost ending = { no_ending };

    ghost memory = { λ _ lister. lister.tracer };

    fn new(alloc: Global, request: &Request) -> Result<TraceLister, NoMemory> {
        let memory = initial_memory(alloc, request)?;
        Ok(TraceLister {
            graph: Graph::new(alloc),
            scheduler: Scheduler::new(alloc),
            tracer: Tracer::new(alloc, memory)?,
        })
    }

    fn list(
        &mut self,
        alloc: Global,
        request: &Request,
        job: &Job<'_>,
        text: &mut Vec<u8>,
    ) -> Result<(), NoMemory> {
        self.graph
            .refill(request.memory_rule(), job.block, &request.latencies)?;
        let ranks = ranks_of(alloc, &self.graph, job.own, request.priority)?;
        let schedule = self.scheduler.lend(&self.graph, &ranks)?;
        push_block_head(text, job.number, job.block.name.as_ref())?;
        text.push(b'\n')?;
        self.tracer.push_trace(text, &schedule, &request.latencies)?;
        self.scheduler.take_back(schedule);
        Ok(())
    }

    fn push_ending(_text: &mut Vec<u8>, _found: &[()]) -> Result<(), NoMemory> {
        Ok(())
    }
}

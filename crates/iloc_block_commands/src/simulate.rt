//! `simulate`: what comes of blocks' schedules on the timed machine.
use crate::schedule::feed;
use iloc_args::Request;
use iloc_driver::{Job, Lister, initial_memory};
use iloc_listing::push_outcome;
use iloc_ops::NoMemory;
use iloc_sched::{Graph, Scheduler};
use iloc_timed::Machine;
use std::alloc::Global;

/// Runs each block's schedule, and lists what comes of it.
#[derive(Drop)]
pub struct SimulateLister {
    graph: Graph,
    scheduler: Scheduler,
    machine: Machine,
}

impl Lister for SimulateLister {
    ghost use Rattle.iloc_driver.specs.Entries.{no_ending};
    ghost use Rattle.iloc_block_commands.specs.Simulate.{IsSimulateEntry};

    type Found = ();

    ghost lists = { IsSimulateEntry };

    ghost ending = { no_ending };

    ghost memory = { λ _ lister. lister.machine.state.memory.first };

    fn new(alloc: Global, request: &Request) -> Result<SimulateLister, NoMemory> {
        let memory = initial_memory(alloc, request)?;
        Ok(SimulateLister {
            graph: Graph::new(alloc),
            scheduler: Scheduler::new(alloc),
            machine: Machine::new(alloc, memory)?,
        })
    }

    fn list(
        &mut self,
        _alloc: Global,
        request: &Request,
        job: &Job<'_>,
        text: &mut Vec<u8>,
    ) -> Result<(), NoMemory> {
        self.graph
            .refill(request.memory_rule(), job.block, &request.latencies)?;
        self.machine.begin();
        feed(
            &mut self.scheduler,
            &self.graph,
            job.own,
            request.priority,
            &mut self.machine,
        )?;
        let name = job.block.name.as_ref();
        push_outcome(text, job.number, name, self.machine.outputs())
    }

    fn push_ending(_text: &mut Vec<u8>, _found: &[()]) -> Result<(), NoMemory> {
        Ok(())
    }
}

//! `graph`: which operation of each block waits for which, drawn.
ghost use Rattle.std.specs.Prelude.{◌≡◌, ◌++◌, OnOk};
ghost use Rattle.iloc_view_commands.specs.Graph.{opening_at};

use iloc_args::Request;
use iloc_driver::{Job, Lister};
use iloc_graph::{push_closing, push_cluster, push_opening};
use iloc_ops::NoMemory;
use iloc_sched::Graph;
use std::alloc::Global;

/// Draws each block.
#[derive(Drop)]
pub struct GraphLister {
    graph: Graph,
}

/// Appends what comes before the block with this number: the first opens the drawing.
fn push_opening_at(text: &mut Vec<u8>, number: usize) -> Result<(), NoMemory>
    ensures { OnOk result (text.new.items ≡ text.old.items ++ opening_at number) }
{
    if number == 1 {
        push_opening(text)
    } else {
        Ok(())
    }
}

impl Lister for GraphLister {
    ghost use Rattle.iloc_view_commands.specs.Graph.{IsGraphEntry, drawing_end};
    ghost use Rattle.iloc_driver.specs.Command.{initial_memory};

    type Found = ();

    ghost lists = { λ request _. IsGraphEntry request };

    ghost ending = { drawing_end };

    ghost memory = { λ request _. initial_memory request };

    fn new(alloc: Global, _request: &Request) -> Result<GraphLister, NoMemory> {
        Ok(GraphLister {
            graph: Graph::new(alloc),
        })
    }

    fn list(
        &mut self,
        alloc: Global,
        request: &Request,
        job: &Job<'_>,
        text: &mut Vec<u8>,
    ) -> Result<(), NoMemory> {
        self.graph
            .refill(request.memory_rule(), job.block, &request.latencies)?;
        push_opening_at(text, job.number)?;
        push_cluster(alloc, text, job.number, job.block, &self.graph)
    }

    fn push_ending(text: &mut Vec<u8>, found: &[()]) -> Result<(), NoMemory> {
        if found.is_empty() {
            push_opening(text)?;
        }
        push_closing(text)
    }
}

//! `run`: what comes of blocks, one operation after another.
ghost use Rattle.std.specs.Option.{option_copied};
ghost use Rattle.std.specs.Prelude.{◌&&◌, is_none, ◌≡◌, ◌≤◌, ◌<◌, ◌+◌, ◌++◌, length, IfOk, OnOk, codes};
ghost use Rattle.iloc_args.specs.Flags.{has};
ghost use Rattle.iloc_args.specs.declared.flag.Flag.TheVariants.{Where};
ghost use Rattle.iloc_fault.specs.Place.{IsFaultPlace};
ghost use Rattle.iloc_fault.specs.declared.place.FaultPlace.{FaultPlace as place_value};
ghost use Rattle.iloc_meaning.specs.Outcome.{outcome};
ghost use Rattle.iloc_meaning.specs.declared.outcome.Outcome.TheVariants.{Fault};
ghost use Rattle.iloc_ops.specs.Limits.{MAX_OPS};
ghost use Rattle.iloc_block_commands.specs.Run.{faulting_told, place_line};
ghost use Rattle.iloc_driver.specs.Command.{initial_memory};
ghost use Rattle.iloc_meaning.specs.Trace.{op_at};
ghost use Rattle.iloc_listing.specs.Listing.{block_head};

use iloc_args::{Flag, Request};
use iloc_driver::{Job, Lister, initial_memory};
use iloc_fault::{FaultFinder, FaultPlace};
use iloc_listing::{push_block_head, push_outcome};
use iloc_meaning::Interpreter;
use iloc_ops::{Block, NoMemory, Op, push_number, push_op};
use std::alloc::Global;

/// Where a block faults that does so on the request's memory.
fn fault_place(alloc: Global, request: &Request, block: &Block) -> Result<FaultPlace, NoMemory>
    requires { outcome block.now.ops (initial_memory request.now) ≡ Fault }
    ensures { IfOk result (IsFaultPlace block.now.ops (initial_memory request.now)) }
{
    let memory = initial_memory(alloc, request)?;
    let mut finder = FaultFinder::new(alloc, memory)?;
    let Some(place) = finder.find(block)? else {
        unreachable!()
    };
    Ok(place)
}

/// Operation i.
fn op_at(ops: &[Op], i: usize) -> Op
    ensures { result ≡ op_at ops.now i }
{
    ops.get(i).copied().unwrap_or(Op::Nop)
}

/// Appends that operation i faults.
fn push_operation(text: &mut Vec<u8>, ops: &[Op], i: usize) -> Result<(), NoMemory>
    requires { i < MAX_OPS }
    ensures { OnOk result (text.new.items ≡ text.old.items ++ faulting_told ops.now i) }
{
    text.extend_from_slice(b"fault at ")?;
    push_number(text, i as u64 + 1)?;
    text.extend_from_slice(b": ")?;
    push_op(text, &op_at(ops, i))
}

/// Appends where a block faults.
fn push_place(text: &mut Vec<u8>, block: &Block, place: FaultPlace) -> Result<(), NoMemory>
    requires short { length block.now.ops ≤ MAX_OPS }
    requires within { place.operation < length block.now.ops }
    ensures { OnOk result (text.new.items ≡ text.old.items ++ place_line block.now.ops place) }
{
    push_operation(text, block.ops.as_slice(), place.operation)?;
    text.extend_from_slice(b": word ")?;
    push_number(text, place.address)?;
    Ok(text.extend_from_slice(b"\n")?)
}

/// Appends the entry of a block that faults on the request's memory, with the place.
fn push_faulting(
    alloc: Global,
    text: &mut Vec<u8>,
    request: &Request,
    job: &Job<'_>,
) -> Result<(), NoMemory>
    requires { outcome job.now.block.now.ops (initial_memory request.now) ≡ Fault }
    ensures { OnOk result ((place : place_value) × IsFaultPlace job.now.block.now.ops (initial_memory request.now) place
        × (text.new.items ≡ text.old.items
        ++ (block_head job.now.number job.now.block.now.name ++ codes "\n" ++ place_line job.now.block.now.ops place))) }
{
    let place = fault_place(alloc, request, job.block)?;
    push_block_head(text, job.number, job.block.name.as_ref())?;
    text.extend_from_slice(b"\n")?;
    push_place(text, job.block, place)
}

/// Whether it is listed where a block faults that emitted `words`, or faulted where there are none.
fn is_placed(request: &Request, words: Option<&[i32]>) -> bool
    ensures { result ≡ (has request.now.flags Where && is_none (option_copied words.entry)) }
{
    request.flags.has(Flag::Where) && words.is_none()
}

/// Runs each block, and lists what comes of it.
#[derive(Drop)]
pub struct RunLister(Interpreter);

impl Lister for RunLister {
    ghost use Rattle.iloc_block_commands.specs.Run.{IsRunEntry};
    ghost use Rattle.iloc_driver.specs.Entries.{no_ending};

    type Found = ();

    ghost lists = { λ request _. IsRunEntry request };

    ghost ending = { no_ending };

    ghost memory = { λ _ lister. lister.0.memory };

    fn new(alloc: Global, request: &Request) -> Result<RunLister, NoMemory> {
        let memory = initial_memory(alloc, request)?;
        Ok(RunLister(Interpreter::new(alloc, memory)?))
    }

    fn list(
        &mut self,
        alloc: Global,
        request: &Request,
        job: &Job<'_>,
        text: &mut Vec<u8>,
    ) -> Result<(), NoMemory> {
        self.0.run(job.block)?;
        let words = self.0.outputs();
        if is_placed(request, words) {
            return push_faulting(alloc, text, request, job);
        }
        push_outcome(text, job.number, job.block.name.as_ref(), words)
    }

    fn push_ending(_text: &mut Vec<u8>, _found: &[()]) -> Result<(), NoMemory> {
        Ok(())
    }
}

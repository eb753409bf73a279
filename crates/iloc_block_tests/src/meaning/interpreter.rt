use crate::written::block_of;
use iloc_meaning::{Interpreter, Memory};
use iloc_ops::{Block, NoMemory};
use std::alloc::Global;
use std::process::Abort;
use std::test::Fail;

/// A text, and what it emits.
type Run<'a> = (&'a [u8], &'a [i32]);

/// Runs each text as one block after another, and asserts what it emits.
fn assert_runs(
    rt: &impl Abort,
    alloc: Global,
    interpreter: &mut Interpreter,
    runs: &[Run],
) -> Result<(), Fail> {
    for (text, outputs) in runs {
        interpreter.run(&block_of(alloc, text)?)?;
        assert!(rt; interpreter.outputs() == Some(*outputs), "{text:?}");
    }
    Ok(())
}

/// A memory with 7 at 8.
fn memory(alloc: Global) -> Result<Memory, NoMemory> {
    let mut memory = Memory::zero(alloc)?;
    memory.set(8, 7);
    Ok(memory)
}

/// On that memory.
fn interpreter(alloc: Global) -> Result<Interpreter, NoMemory> {
    Interpreter::new(alloc, memory(alloc)?)
}

const READ: &[u8] = b"output 8\noutput 12\n";

const FAR_REGISTER: &[u8] =
    b"output 8\nloadI 8 => r1\nloadI 9 => r5000\nstore r5000 => r1\noutput 8\n";

const AGAIN: &[Run] = &[(READ, &[7, 0]), (FAR_REGISTER, &[7, 9])];

/// How the run of `block` ended, after which `runs` were run.
fn run_before(
    rt: &impl Abort,
    alloc: Global,
    interpreter: &mut Interpreter,
    block: &Block,
    runs: &[Run],
) -> Result<(), Fail> {
    let first = interpreter.run(block);
    assert_runs(rt, alloc, interpreter, runs)?;
    Ok(first?)
}

/// To be run with each growth refused in turn, also in mid-run. It ends with the refusal.
#[test]
fn a_refused_run_can_be_repeated(rt: HostRuntime) -> Result<(), Fail> {
    let block = block_of(rt.alloc(), FAR_REGISTER)?;
    let mut interpreter = interpreter(rt.alloc())?;
    run_before(&rt, rt.alloc(), &mut interpreter, &block, AGAIN)
}

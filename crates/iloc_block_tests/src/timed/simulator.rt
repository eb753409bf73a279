use crate::written::{Issue, block_of, build};
use iloc_meaning::Memory;
use iloc_ops::NoMemory;
use iloc_timed::{Latencies, Schedule, Simulator};
use std::alloc::{AllocError, Global};
use std::process::Abort;
use std::test::Fail;

/// `count` operations on unit 0, one every five rows.
fn every_fifth(alloc: Global, count: usize) -> Result<Vec<Issue>, AllocError> {
    let mut issues = Vec::new(alloc);
    for i in 0..count {
        issues.push((i.saturating_mul(5), Some(i), None))?;
    }
    Ok(issues)
}

/// The operations of a text on unit 0, one every five rows, so that each has the results of the one before.
fn spaced(alloc: Global, text: &[u8]) -> Result<Schedule, Fail> {
    let block = block_of(alloc, text)?;
    Ok(build(
        alloc,
        block.ops.as_slice(),
        &every_fifth(alloc, block.ops.len())?,
    )?)
}

/// A text, and what it emits.
type Run<'a> = (&'a [u8], &'a [i32]);

/// Runs each text as one schedule after another, and asserts what it emits.
fn assert_runs(
    rt: &impl Abort,
    alloc: Global,
    simulator: &mut Simulator,
    runs: &[Run],
) -> Result<(), Fail> {
    for (text, outputs) in runs {
        simulator.run(&spaced(alloc, text)?, &Latencies::usual())?;
        assert!(rt; simulator.outputs() == Some(*outputs), "{text:?}");
    }
    Ok(())
}

/// A memory with 7 at 8.
fn memory(alloc: Global) -> Result<Memory, NoMemory> {
    let mut memory = Memory::zero(alloc)?;
    memory.set(8, 7);
    Ok(memory)
}

/// On that memory.
fn simulator(alloc: Global) -> Result<Simulator, NoMemory> {
    Simulator::new(alloc, memory(alloc)?)
}

const READ: &[u8] = b"store r2 => r0\noutput 0\noutput 8\n";

const FAR_REGISTER: &[u8] =
    b"output 8\nloadI 8 => r1\nloadI 9 => r5000\nstore r5000 => r1\noutput 8\n";

const AGAIN: &[Run] = &[(READ, &[0, 7]), (FAR_REGISTER, &[7, 9])];

/// How the run of `schedule` ended, after which `runs` were run.
fn run_before(
    rt: &impl Abort,
    alloc: Global,
    simulator: &mut Simulator,
    schedule: &Schedule,
    runs: &[Run],
) -> Result<(), Fail> {
    let first = simulator.run(schedule, &Latencies::usual());
    assert_runs(rt, alloc, simulator, runs)?;
    Ok(first?)
}

/// To be run with each growth refused in turn, also in mid-run. It ends with the refusal.
#[test]
fn a_refused_run_can_be_repeated(rt: HostRuntime) -> Result<(), Fail> {
    let schedule = spaced(rt.alloc(), FAR_REGISTER)?;
    let mut simulator = simulator(rt.alloc())?;
    run_before(&rt, rt.alloc(), &mut simulator, &schedule, AGAIN)
}

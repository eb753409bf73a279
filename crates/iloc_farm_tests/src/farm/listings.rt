//! Listings of what is there already: to be run with each growth refused in turn.
use crate::asserted::assert_list;
use iloc_listing::{counts_text, outcomes_text, schedules_text};
use iloc_meaning::{Memory, run_block};
use iloc_ops::IlocFile;
use iloc_text::read_file;
use iloc_timed::{Latencies, Row, Schedule, cycles};
use std::alloc::Global;
use std::slice::from_ref;
use std::test::Fail;

const EMPTY: Row = Row {
    zero: None,
    one: None,
};

/// Both operations on unit 1, with an empty row between them and two at the end.
const APART: [Row; 5] = [
    Row {
        zero: None,
        one: Some(0),
    },
    EMPTY,
    Row {
        zero: None,
        one: Some(1),
    },
    EMPTY,
    EMPTY,
];

/// The listings of a file of one block with its schedule, and with the cycles of this.
fn listed(alloc: Global, file: &IlocFile, schedule: &Schedule) -> Result<(Vec<u8>, Vec<u8>), Fail> {
    let usual = Latencies::usual();
    if file.blocks.as_slice().len() != 1 || cycles(schedule, &usual) > 1_000 {
        return Err(Fail::from("not one small block"));
    }
    let schedules = from_ref(schedule);
    let rows = schedules_text(alloc, file, &usual, schedules)?;
    Ok((rows, counts_text(alloc, file, &usual, schedules)?))
}

/// The schedule of the first block of `file` with the rows `APART`.
fn apart(alloc: Global, file: &IlocFile) -> Result<Schedule, Fail> {
    let block = file.blocks.as_slice().first().ok_or("no block")?;
    let ops = Vec::from_slice(alloc, block.ops.as_slice())?;
    Ok(Schedule::new(alloc, ops, Vec::from_slice(alloc, &APART)?)?)
}

const ROWS: &[u8] = b"block 1 -
[ nop ; output 0 ]
[ nop ; nop ]
[ nop ; output 4 ]
cycles 3
total 3
";

const CYCLES: &[u8] = b"block 1 - cycles 3\ntotal 3\n";

#[test]
fn lists_schedules_up_to_their_last_operation(rt: HostRuntime) -> Result<(), Fail> {
    let alloc = rt.alloc();
    let file = read_file(alloc, b"output 0\noutput 4\n")?;
    let (rows, counts) = listed(alloc, &file, &apart(alloc, &file)?)?;
    assert_list(&rt, &rows, ROWS);
    assert_list(&rt, &counts, CYCLES);
    Ok(())
}

#[test]
fn lists_outcomes(rt: HostRuntime) -> Result<(), Fail> {
    let alloc = rt.alloc();
    let file = read_file(alloc, b"output 0\nodd: output 3\n")?;
    let mut outcomes = Vec::new(alloc);
    for block in file.blocks.as_slice() {
        outcomes.push(run_block(alloc, block, Memory::zero(alloc)?)?)?;
    }
    assert!(rt; outcomes.len() == file.blocks.as_slice().len());
    let text = outcomes_text(alloc, &file, &outcomes)?;
    assert_list(&rt, &text, b"block 1 -\n0\nblock 2 odd\nfault\n");
    Ok(())
}

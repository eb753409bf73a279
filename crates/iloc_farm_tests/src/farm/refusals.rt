//! The run of each command, where a growth is refused: it answers want of memory or of a thread, nothing is written, and a
//! second try ends well. To be run with each growth refused in turn: each test ends with the refusal.
use super::fakes::{EMPTY_SHELF, Sink, giving, taking_all};
use crate::asserted::assert_list;
use iloc_args::{Request, parse_line};
use iloc_driver::{FarmFault, Finding, RunFault};
use iloc_farm::run;
use iloc_ops::push_number;
use std::alloc::{AllocError, Global};
use std::process::Abort;
use std::sync::Wait;
use std::test::Fail;
use std::thread::Threads;

const SMALL: &[u8] = b"loadI 4 => r1\nstore r1 => r1\nB: output 4\n";

const BLOCK: &[u8] =
    b"B:\nloadI 4 => r1\nload r1 => r2\nmult r1, r2 => r3\nstore r3 => r1\noutput 4\n";

/// A writer with room for any listing here, so that it takes no memory itself.
fn roomy(alloc: Global) -> Result<Sink, AllocError> {
    let mut writer = taking_all(alloc);
    writer.taken.reserve(1 << 16)?;
    Ok(writer)
}

/// What a run lists, at its second try where a growth was refused at the first, and how the first ended.
fn listed<H: Abort + AllocGlobal + Threads + Wait + Sync>(
    rt: &H,
    request: &Request,
    input: &[u8],
) -> Result<(Vec<u8>, Result<Finding, RunFault>), Fail> {
    let alloc = rt.alloc();
    let mut writer = roomy(alloc)?;
    let first = run(
        rt,
        alloc,
        &EMPTY_SHELF,
        &mut giving(input),
        &mut writer,
        request,
    );
    if let Err(fault) = first {
        assert!(rt;
            matches!(
                fault,
                RunFault::Farm(FarmFault::NoMemory | FarmFault::NoThread)
            )
        );
        assert!(rt; writer.taken.is_empty());
        run(
            rt,
            alloc,
            &EMPTY_SHELF,
            &mut giving(input),
            &mut writer,
            request,
        )?;
    }
    Ok((writer.taken, first))
}

/// Words, and what they list.
type Case<'a> = (&'a [&'a str], &'a [u8]);

/// Asserts what each task lists of the input, and answers the refusal.
fn assert_listed<H: Abort + AllocGlobal + Threads + Wait + Sync>(
    rt: &H,
    cases: &[Case],
    input: &[u8],
) -> Result<(), Fail> {
    for (words, listing) in cases {
        let request = parse_line(rt.alloc(), words)?;
        let (found, first) = listed(rt, &request, input)?;
        assert_list(rt, &found, listing);
        first?;
    }
    Ok(())
}

const OUTCOMES: &[u8] = b"block 1 -\nblock 2 B\n9\n";

const SCHEDULES: &[u8] = b"block 1 -
[ loadI 4 => r0 ; nop ]
[ store r0 => r0 ; nop ]
cycles 6
block 2 B
[ output 4 ; nop ]
cycles 1
total 7
";

const COUNTS: &[u8] = b"block 1 - cycles 6\nblock 2 B cycles 1\ntotal 7\n";

const CASES: &[Case] = &[
    (&["run", "--at", "4", "9"], OUTCOMES),
    (&["simulate", "--at", "4", "9"], OUTCOMES),
    (&["schedule", "--workers", "1"], SCHEDULES),
    (&["counts", "--workers", "8"], COUNTS),
];

#[test]
fn lists_a_small_file(rt: HostRuntime) -> Result<(), Fail> {
    assert_listed(&rt, CASES, SMALL)
}

/// Blocks, and what somebody proposes for them: nothing, more than there is, all words in one register in place of
/// three, nothing but the output, an output too many, and nothing for blocks that are nothing.
const PROPOSED: &[u8] = b"loadI 4 => r1
B: output 4
C: loadI 1024 => r1
loadAI r1, 4 => r2
mult r2, r2 => r3
storeAI r3 => r1, 8
output 1032
D: loadI 1024 => r1
loadAI r1, 4 => r2
mult r2, r2 => r3
storeAI r3 => r1, 8
output 1032
a: loadI 4 => r1
load r1 => r2
output 4
b:
c: nop
block 1 -
block 2 B
[ output 4 ; loadI 4 => r1 ]
cycles 7
block 3 C
[ loadI 1028 => r1 ; nop ]
[ load r1 => r1 ; nop ]
[ nop ; nop ]
[ nop ; nop ]
[ nop ; nop ]
[ nop ; nop ]
[ loadI 1032 => r2 ; mult r1, r1 => r1 ]
[ nop ; nop ]
[ nop ; nop ]
[ store r1 => r2 ; nop ]
[ nop ; nop ]
[ nop ; nop ]
[ nop ; nop ]
[ nop ; nop ]
[ output 1032 ; nop ]
cycles 15
block 4 D
[ output 1032 ; nop ]
block 5 a
[ loadI 4 => r0 ; nop ]
[ load r0 => r1 ; output 8 ]
[ nop ; nop ]
[ nop ; output 4 ]
cycles 6
block 6 b
cycles 0
block 7 c
[ nop ; nop ]
cycles 3
total 6
";

const CHECKED: &[u8] = b"block 1 - void cycles 0 ours 1 least 1
  no rows
  the block shows nothing
  left out 1: loadI 4 => r1
block 2 B same cycles 1 ours 1 least 1 claimed 7
  added 1: row 0: loadI 4 => r1
  row 0: loadI 4 => r1 like none of the block
block 3 C same cycles 15 ours 15 least 15
  left out 3: loadI 1024 => r1
  added 4: row 0: loadI 1028 => r1
  row 0: loadI 1028 => r1 like none of the block
  row 1: load r1 => r1 like none of the block
  row 6: loadI 1032 => r2 like none of the block
  row 9: store r1 => r2 like none of the block
  row 6: mult r1, r1 => r1 for operation 2: mult r2, r2 => r3
block 4 D differs cycles 1 ours 15 least 15
  output 1: 0 for 81
  left out 4: loadI 1024 => r1
block 5 a differs cycles 6 ours 6 least 6
  output 2: 0 for none
  added 1: row 1: output 8
  row 1: output 8 like none of the block
block 6 b lawful cycles 0 ours 0 least 0
block 7 c lawful cycles 0 ours 0 least 0 claimed 3
total 23 ours 38 least 38
";

#[test]
fn judges_small_rows(rt: HostRuntime) -> Result<(), Fail> {
    assert_listed(&rt, &[(&["check", "--at", "1028", "9"], CHECKED)], PROPOSED)
}

/// The cycles of 40 such blocks, and their sum.
fn counted(alloc: Global) -> Result<Vec<u8>, Fail> {
    let mut text = Vec::new(alloc);
    for number in 1..41 {
        text.extend_from_slice(b"block ")?;
        push_number(&mut text, number)?;
        text.extend_from_slice(b" B cycles 15\n")?;
    }
    text.extend_from_slice(b"total 600\n")?;
    Ok(text)
}

const THREE: &[&str] = &["counts", "--workers", "3"];

#[test]
fn schedules_a_middling_file(rt: HostRuntime) -> Result<(), Fail> {
    let input = BLOCK.repeat(rt.alloc(), 40)?;
    let listing = counted(rt.alloc())?;
    assert_listed(&rt, &[(THREE, &listing)], &input)
}

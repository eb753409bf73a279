use super::fakes::{EMPTY_SHELF, Sink, Source, giving, taking_all};
use crate::asserted::assert_list;
use iloc_args::{Request, parse_line};
use iloc_driver::{Finding, RunFault};
use iloc_farm::run;
use std::io::ErrorKind;
use std::process::Abort;
use std::sync::Wait;
use std::test::Fail;
use std::thread::Threads;

/// Stores a word and reads it back.
const STORES_7: &[u8] = b"loadI 1024 => r0\nloadI 7 => r1\nstore r1 => r0\noutput 1024\n";

/// What `run` lists of it.
const GIVES_7: &[u8] = b"block 1 -\n7\n";

/// How many bytes are read a turn, and how the text ends; then the answer, how often it was read, and what was written.
type Reading<'a> = (
    usize,
    Option<ErrorKind>,
    Result<Finding, RunFault>,
    usize,
    &'a [u8],
);

const ALL: usize = usize::MAX;

const INTERRUPTED: Option<ErrorKind> = Some(ErrorKind::Interrupted);

/// Nothing is judged.
const DONE: Result<Finding, RunFault> = Ok(Finding::Passed);

const UNREAD: Result<Finding, RunFault> = Err(RunFault::ReadFailed);

const READINGS: &[Reading] = &[
    (1, None, DONE, 58 + 1, GIVES_7),
    (ALL, INTERRUPTED, UNREAD, 2, b""),
];

/// Asserts what comes of such a reader.
fn assert_read<H: Abort + AllocGlobal + Threads + Wait + Sync>(
    rt: &H,
    request: &Request,
    reading: &Reading,
) {
    let (at_once, end, answer, turns, written) = *reading;
    let mut reader = Source {
        at_once,
        end,
        ..giving(STORES_7)
    };
    let mut writer = taking_all(rt.alloc());
    let found = run(
        rt,
        rt.alloc(),
        &EMPTY_SHELF,
        &mut reader,
        &mut writer,
        request,
    );
    assert!(rt; (found, reader.turns) == (answer, turns));
    assert_list(rt, &writer.taken, written);
}

#[test]
fn reads_to_the_end_or_to_a_fault(rt: HostRuntime) -> Result<(), Fail> {
    let request = parse_line(rt.alloc(), &["run"])?;
    for reading in READINGS {
        assert_read(&rt, &request, reading);
    }
    Ok(())
}

#[test]
fn reads_no_further_than_the_end(rt: HostRuntime) -> Result<(), Fail> {
    let request = parse_line(rt.alloc(), &["run"])?;
    let input = vec![in rt.alloc(); b'\n'; 80_000]?;
    let mut reader = giving(&input);
    let mut writer = taking_all(rt.alloc());
    run(
        &rt,
        rt.alloc(),
        &EMPTY_SHELF,
        &mut reader,
        &mut writer,
        &request,
    )?;
    assert!(rt; reader.turns == 4);
    Ok(())
}

/// How many bytes are taken a turn, and whether a flush works; then the answer, what was written, and how much of it was
/// flushed.
type Writing<'a> = (
    usize,
    bool,
    Result<Finding, RunFault>,
    &'a [u8],
    Option<usize>,
);

const UNWRITTEN: Result<Finding, RunFault> = Err(RunFault::WriteFailed);

const WRITINGS: &[Writing] = &[
    (1, true, DONE, GIVES_7, Some(12)),
    (0, true, UNWRITTEN, b"", None),
    (ALL, false, UNWRITTEN, GIVES_7, None),
];

/// Asserts what comes of such a writer.
fn assert_written<H: Abort + AllocGlobal + Threads + Wait + Sync>(
    rt: &H,
    request: &Request,
    writing: &Writing,
) {
    let (at_once, flushes, answer, written, flushed) = *writing;
    let mut writer = Sink {
        at_once,
        flushes,
        ..taking_all(rt.alloc())
    };
    let found = run(
        rt,
        rt.alloc(),
        &EMPTY_SHELF,
        &mut giving(STORES_7),
        &mut writer,
        request,
    );
    assert!(rt; (found, writer.flushed) == (answer, flushed));
    assert_list(rt, &writer.taken, written);
}

#[test]
fn writes_and_flushes_or_tells_what_failed(rt: HostRuntime) -> Result<(), Fail> {
    let request = parse_line(rt.alloc(), &["run"])?;
    for writing in WRITINGS {
        assert_written(&rt, &request, writing);
    }
    Ok(())
}

//! Checks of rows for the blocks of a text of their own: which of the two is read.
use super::fakes::{Shelf, Source, giving, taking_all};
use iloc_args::parse_line;
use iloc_driver::{FileFault, Finding, RunFault, TaskFault};
use iloc_farm::run;
use std::io::ErrorKind;
use std::process::Abort;
use std::sync::Wait;
use std::test::Fail;
use std::thread::Threads;

/// How the task ends, and how the rows do; the answer; how often rows are read.
type Case = (
    Option<ErrorKind>,
    Option<ErrorKind>,
    Result<Finding, RunFault>,
    usize,
);

const TASK: &[u8] = b"output 4\n";

const BROKEN: Option<ErrorKind> = Some(ErrorKind::BrokenPipe);

const ROWS: &[u8] = b"[ output 4 ; nop ]\n";

const UNREAD: RunFault = RunFault::Task(TaskFault::Unread(FileFault::ReadFailed));

const CASES: &[Case] = &[
    (None, None, Ok(Finding::Passed), 2),
    (BROKEN, None, Err(UNREAD), 0),
    (None, BROKEN, Err(RunFault::ReadFailed), 2),
];

/// Asserts how such a check ends.
fn assert_case<H: Abort + AllocGlobal + Threads + Wait + Sync>(
    rt: &H,
    case: &Case,
) -> Result<(), Fail> {
    let (end, rows_end, answer, turns) = *case;
    let request = parse_line(rt.alloc(), &["check", "--task", "any"])?;
    let shelf = Shelf { text: TASK, end };
    let mut reader = Source {
        end: rows_end,
        ..giving(ROWS)
    };
    let mut writer = taking_all(rt.alloc());
    let found = run(rt, rt.alloc(), &shelf, &mut reader, &mut writer, &request);
    assert!(rt; (found, reader.turns) == (answer, turns));
    assert!(rt; found.is_ok() || writer.taken.is_empty());
    Ok(())
}

#[test]
fn reads_the_task_before_the_rows(rt: HostRuntime) -> Result<(), Fail> {
    for case in CASES {
        assert_case(&rt, case)?;
    }
    Ok(())
}

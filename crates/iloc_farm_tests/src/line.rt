//! Requests of command lines. How faults are told is seen of the built program.
use crate::asserted::assert_list;
use iloc_args::{Request, Task, parse_line};
use std::process::Abort;
use std::test::Fail;

/// Words, with the task, the workers, the start, the words of memory, and the latencies of loads, stores and products.
type Asked<'a> = (&'a [&'a str], Task, u32, u32, &'a [u32], (u32, u32, u32));

const ASKED: &[Asked] = &[
    (
        &[
            "simulate", "--store", "16", "6", "--at", "4", "--load=1", "--mult", "2",
        ],
        Task::Simulate,
        2,
        4,
        &[6],
        (1, 16, 2),
    ),
    (
        &["counts", "--workers", "1"],
        Task::Counts,
        1,
        1024,
        &[],
        (5, 5, 3),
    ),
    (
        &["run", "7", "--at=8", "0", "+5", "4294967294"],
        Task::Run,
        2,
        8,
        &[7, 0, 5, 4_294_967_294],
        (5, 5, 3),
    ),
];

/// Asserts that the request asks for this.
fn assert_asked(rt: &impl Abort, request: &Request, wanted: &Asked) {
    let (_, task, workers, at, memory, times) = *wanted;
    let latencies = request.latencies;
    assert!(rt; (request.task, request.workers, request.at) == (task, workers, at));
    assert!(rt; (latencies.load, latencies.store, latencies.mult) == times);
    assert_list(rt, &request.words, memory);
}

#[test]
fn words_ask_for_a_task_with_its_options(rt: HostRuntime) -> Result<(), Fail> {
    for wanted in ASKED {
        let request = parse_line(rt.alloc(), wanted.0)?;
        assert_asked(&rt, &request, wanted);
    }
    Ok(())
}

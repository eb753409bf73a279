//! The farm's threads: that all of them work, and that what they find does not depend on them.
ghost use Rattle.std.specs.Prelude.{◌<◌, ◌≤◌};

use iloc_board::{FreeGate, Gate, NoDesk};
use iloc_driver::farm_out;
use iloc_farm::{BlockJobs, schedule_all, schedules_of};
use iloc_rules::Heuristic;
use iloc_text::laws::files_are_within_limits;
use iloc_text::read_file;
use iloc_timed::{Latencies, Schedule};
use std::alloc::Global;
use std::process::Abort;
use std::sync::Wait;
use std::sync::atomic::{AtomicU64, Ordering};
use std::test::Fail;
use std::thread::{Threads, yield_now};

/// For how many turns a worker waits for the others.
const TURNS: u32 = 100_000_000;

/// Where workers wait for one another, but not forever.
#[derive(Drop)]
struct Meeting {
    all: u64,
    marks: AtomicU64,
    /// How many workers waited in vain.
    in_vain: AtomicU64,
}

impl Meeting {
    fn new(workers: u32) -> Meeting
        requires { workers < 64 }
    {
        Meeting {
            all: (1 << workers) - 1,
            marks: AtomicU64::new(0),
            in_vain: AtomicU64::new(0),
        }
    }

    /// Marks the worker at its first call, and holds it until all workers have that mark.
    fn meet(&self, worker: u32) {
        if worker >= 64 {
            return;
        }
        let mark = 1 << worker;
        if self.marks.load(Ordering::SeqCst) & mark != 0 {
            return;
        }
        self.marks.fetch_add(mark, Ordering::SeqCst);
        for _ in 0..TURNS {
            if self.marks.load(Ordering::SeqCst) == self.all {
                return;
            }
            yield_now();
        }
        self.in_vain.fetch_add(1, Ordering::SeqCst);
    }

    /// Whether all workers have the mark, and none waited in vain.
    fn have_met(&self) -> bool {
        self.marks.load(Ordering::SeqCst) == self.all && self.in_vain.load(Ordering::SeqCst) == 0
    }
}

/// Workers meet at their first look and at their first take, and each take is counted.
#[derive(Drop)]
struct Meetings {
    looks: Meeting,
    takes: Meeting,
    taken: AtomicU64,
}

impl Meetings {
    fn new(workers: u32) -> Meetings
        requires { workers < 64 }
    {
        Meetings {
            looks: Meeting::new(workers),
            takes: Meeting::new(workers),
            taken: AtomicU64::new(0),
        }
    }
}

impl Gate for Meetings {
    fn after_look(&self, worker: u32, _block: u32) {
        self.looks.meet(worker);
    }

    fn after_take(&self, worker: u32, _block: u32) {
        self.taken.fetch_add(1, Ordering::SeqCst);
        self.takes.meet(worker);
    }
}

/// The schedules of a text's blocks.
fn schedules<R: Threads + Wait + Sync, G: Gate + Sync>(
    rt: &R,
    alloc: Global,
    text: &[u8],
    workers: u32,
    gate: &G,
) -> Result<Vec<Schedule>, Fail>
    requires { (1 ≤ workers) × (workers ≤ 8) }
{
    files_are_within_limits();
    let file = read_file(alloc, text)?;
    let latencies = Latencies::usual();
    Ok(schedule_all(
        rt,
        alloc,
        &file,
        &latencies,
        Heuristic::Chain,
        workers,
        gate,
    )?)
}

/// Blocks of one output, of two, and so on: no two have one schedule.
fn stairs(alloc: Global, count: u32) -> Result<Vec<u8>, Fail> {
    let mut text = Vec::new(alloc);
    for k in 0..count {
        text.extend_from_slice(b"A:\n")?;
        for _ in 0..=k {
            text.extend_from_slice(b"output 0\n")?;
        }
    }
    Ok(text)
}

/// Asserts that `schedules` are the ones of `count` blocks of stairs.
fn assert_stairs(rt: &impl Abort, schedules: &[Schedule], count: u32) {
    assert!(rt; schedules.len() == count as usize);
    for (k, schedule) in schedules.iter().enumerate() {
        assert!(rt; (schedule.ops().len(), schedule.rows().len()) == (k + 1, k + 1));
    }
}

/// Asserts that all `workers` met at `gate`, and took a block each.
fn assert_met(rt: &impl Abort, gate: &Meetings, workers: u32) {
    assert!(rt; gate.looks.have_met() && gate.takes.have_met());
    assert!(rt; gate.taken.load(Ordering::SeqCst) == u64::from(workers));
}

/// Asserts that of `workers` workers and as many blocks each takes one.
fn assert_each_takes_one<H: Abort + AllocGlobal + Threads + Wait + Sync>(
    rt: &H,
    workers: u32,
) -> Result<(), Fail>
    requires { (1 ≤ workers) × (workers ≤ 8) }
{
    let gate = Meetings::new(workers);
    let text = stairs(rt.alloc(), workers)?;
    let found = schedules(rt, rt.alloc(), &text, workers, &gate)?;
    assert_met(rt, &gate, workers);
    assert_stairs(rt, &found, workers);
    Ok(())
}

#[test]
fn workers_take_a_block_each_at_once(rt: HostRuntime) -> Result<(), Fail> {
    for workers in 2..9 {
        assert_each_takes_one(&rt, workers)?;
    }
    Ok(())
}

#[test]
fn blocks_are_jobs_to_be_farmed_out(rt: HostRuntime) -> Result<(), Fail> {
    files_are_within_limits();
    let file = read_file(rt.alloc(), &stairs(rt.alloc(), 5)?)?;
    let jobs = BlockJobs::new(&file, &Latencies::usual(), Heuristic::Slack);
    let desks = vec![in rt.alloc(); NoDesk; 3]?;
    let done = farm_out(&rt, rt.alloc(), &jobs, desks, &FreeGate)?;
    assert_stairs(&rt, &schedules_of(done), 5);
    Ok(())
}

/// Counts the workers that are at a look, where each stays for a while.
#[derive(Drop)]
struct Crowd {
    inside: AtomicU64,
    looks: AtomicU64,
}

impl Crowd {
    fn new() -> Crowd {
        Crowd {
            inside: AtomicU64::new(0),
            looks: AtomicU64::new(0),
        }
    }
}

impl Gate for Crowd {
    fn after_look(&self, _worker: u32, _block: u32) {
        self.inside.fetch_add(1, Ordering::SeqCst);
        stay(1_000);
        self.looks.fetch_add(1, Ordering::SeqCst);
        self.inside.fetch_sub(1, Ordering::SeqCst);
    }

    fn after_take(&self, _worker: u32, _block: u32) {}
}

fn stay(turns: u32) {
    for _ in 0..turns {
        yield_now();
    }
}

/// Asserts that no worker is at a look or comes to one, and answers how many looks there were.
fn looks_of_all(rt: &impl Abort, gate: &Crowd) -> u64 {
    assert!(rt; gate.inside.load(Ordering::SeqCst) == 0);
    let looks = gate.looks.load(Ordering::SeqCst);
    stay(10_000);
    assert!(rt; gate.looks.load(Ordering::SeqCst) == looks);
    looks
}

/// Whatever is answered: to be run with each allocation refused in turn, also at a thread's start.
#[test]
fn leaves_no_thread_behind(rt: HostRuntime) -> Result<(), Fail> {
    let gate = Crowd::new();
    let found = schedules(
        &rt,
        rt.alloc(),
        b"A:\nA:\nA:\nA:\nA:\nA:\nA:\nA:\n",
        8,
        &gate,
    );
    let looks = looks_of_all(&rt, &gate);
    assert!(rt; found?.len() == 8);
    assert!(rt; looks >= 8);
    Ok(())
}

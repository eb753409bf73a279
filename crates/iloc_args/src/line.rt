//! Reading a command line.
ghost use Rattle.std.specs.Prelude.{◌≡◌, ◌≤◌, ◌&&◌, IfErr, IfNone, IfOk, MatchOption, OnOk, [], codes, false, is_some, map, option_map, true};
ghost use Rattle.std.specs.Option.{ForSome};
ghost use Rattle.std.specs.String.{string_bytes};
ghost use Rattle.clap.specs.Words.{first_of, found_of, has_subcommand, rows_of, subcommand_of};
ghost use Rattle.clap.specs.Words.{subcommand_rows_of};
ghost use Rattle.iloc_args.specs.Asked.{asked_as, asked_in, number_if, number_or, numbers_in, priorities_in, text_or};
ghost use Rattle.iloc_args.specs.Command.{farm_app};
ghost use Rattle.iloc_args.specs.Due.{Asks, IsDue, faults_in};
ghost use Rattle.iloc_args.specs.Exclusions.{excludes, first_excluded, shows_rows};
ghost use Rattle.iloc_args.specs.Flags.{has};
ghost use Rattle.iloc_args.specs.Priority.{IsNoPriority, priority_word};
ghost use Rattle.iloc_args.specs.Ranking.{ranks_by_own};
ghost use Rattle.iloc_args.specs.Steps.Refusing.{IsOutOfRange};
ghost use Rattle.iloc_args.specs.Steps.Taken.{HoldValues, HoldsIn};
ghost use Rattle.iloc_args.specs.declared.fault.Exclusion.{Exclusion as exclusion_value};
ghost use Rattle.iloc_timed.specs.Latency.{IsLatency};

use crate::command::{farm_command, task_of};
use crate::fault::{Exclusion, LineFault};
use crate::flag::{Flag, Flags, flags_in};
use crate::priority::heuristic_of;
use crate::request::{Request, Task};
use clap::ArgMatches;
use iloc_meaning::{LAST_ADDRESS, WORDS};
use iloc_rules::Heuristic;
use iloc_timed::{LONGEST_LATENCY, Latencies};
use std::alloc::{AllocError, AllocFailed, Global};
use std::convert::AsStr;

/// The address of the first word where the command does not take the option.
const DEFAULT_START: u32 = 1024;

/// How many workers share the blocks where the command does not take the option.
const DEFAULT_WORKERS: u32 = 2;

/// The priority where the command does not take the option.
const DEFAULT_PRIORITY: &str = "chain";

/// The request that the words after the program's name ask for.
///
/// Promise: the words are taken as the one request that they ask for, or refused for a fault that they have.
///
/// # Errors
///
/// `Help` or `Refused` with the parser's text where it gives no matches, `BadStart` where the words
/// would not start at a multiple of 4, else `TooManyWords` where they would end beyond the memory,
/// else `NoSuchPriority` where no heuristic has the name, else `Excluded` where options are given that exclude each other, and
/// `NoMemory` where a growth was refused.
pub fn parse_line<S: AsStr>(alloc: Global, words: &[S]) -> Result<Request, LineFault>
    ensures ok { IfOk result (λ request. Asks (map S.text words.now) (asked_in request)) }
    ensures err { IfErr result (IsDue (map S.text words.now)) }
{
    let matches = matches_of(alloc, words)?;
    let Some((name, given)) = matches.subcommand() else {
        unreachable!()
    };
    let Some(task) = task_of(name) else {
        unreachable!()
    };
    request_in(alloc, task, given)
}

/// What the parser makes of the words.
fn matches_of<'a, S: AsStr>(alloc: Global, words: &'a [S]) -> Result<ArgMatches<'a>, LineFault>
    ensures met { IfOk result (λ matches. has_subcommand matches ≡ true) }
    ensures rows { IfOk result (λ matches.
        subcommand_rows_of matches ≡ subcommand_of farm_app (map S.text words.now)) }
    ensures taken { OnOk result (faults_in (map S.text words.now) ≡ []) }
    ensures err { IfErr result (IsDue (map S.text words.now)) }
{
    match farm_command(alloc)?.try_get_matches_from(words) {
        Ok(matches) => Ok(matches),
        Err(error) => {
            let command = words.first().map_or("", |word| word.as_str());
            Err(LineFault::of_parser(alloc, &error, command)?)
        }
    }
}

/// The request for a task, by the matches of the command's arguments.
fn request_in(alloc: Global, task: Task, given: &ArgMatches<'_>) -> Result<Request, LineFault>
    requires { HoldValues (rows_of (found_of given.now)) }
    ensures ok { IfOk result (λ request.
        asked_in request ≡ asked_as task (rows_of (found_of given.now))) }
    ensures err { IfErr result (IsOutOfRange (asked_as task (rows_of (found_of given.now)))) }
{
    let at = start_in(given);
    let words = words_in(alloc, given)?;
    if at % 4 != 0 {
        return Err(LineFault::BadStart(at));
    }
    if u64::from(at) + 4 * (words.len() as u64) > 4 * WORDS as u64 {
        return Err(LineFault::TooManyWords);
    }
    let Some(priority) = priority_in(given) else {
        return Err(LineFault::NoSuchPriority);
    };
    let flags = flags_in(given);
    let priorities_file = priorities_in(alloc, task, given)?;
    let task_file = file_in(alloc, given, "task")?;
    let priority_given = is_priority_given(given);
    let files = (priorities_file.is_some(), task_file.is_some());
    if let Some(exclusion) = excluded(task, flags, priority_given, files.0, files.1) {
        return Err(LineFault::Excluded(exclusion));
    }
    Ok(Request {
        task,
        workers: workers_in(given),
        at,
        words,
        latencies: latencies_in(given),
        priority,
        priority_given,
        priorities_file,
        nodes: nodes_in(given),
        task_file,
        flags,
    })
}

/// Whether the rows that others made are shown by a task, with `--task`.
fn shows_rows(task: Task) -> bool
    ensures { result ≡ shows_rows task }
{
    matches!(task, Task::Trace | Task::Explain)
}

/// Whether both are given, without a branch: a proof would look at every combination.
fn both(one: bool, other: bool) -> bool
    ensures { result ≡ (one && other) }
{
    one && other
}

/// The first options that exclude each other of which a command is given both, by its flags, and whether it is `named` a
/// `--priority`, `ranked` by `--priorities` and has its blocks `apart`, by `--task`.
fn excluded(task: Task, flags: Flags, named: bool, ranked: bool, apart: bool) -> Option<Exclusion>
    ensures first { result ≡ first_excluded task (has flags) named ranked apart }
    ensures none { IfNone result ((exclusion : exclusion_value)
        → excludes task (has flags) named ranked apart exclusion ≡ false) }
{
    let by_address = flags.has(Flag::Disambiguate);
    let rows = both(apart, shows_rows(task));
    let traced = both(apart, task == Task::Trace);
    if both(flags.has(Flag::Csv), flags.has(Flag::Json)) {
        Some(Exclusion::CsvAndJson)
    } else if both(named, ranked) {
        Some(Exclusion::PriorityAndPriorities)
    } else if both(ranked, apart) {
        Some(Exclusion::PrioritiesAndTask)
    } else if both(flags.has(Flag::Lawful), by_address) {
        Some(Exclusion::LawfulAndDisambiguate)
    } else if both(traced, named) {
        Some(Exclusion::TaskAndPriority)
    } else if both(rows, by_address) {
        Some(Exclusion::TaskAndDisambiguate)
    } else if both(rows, flags.has(Flag::Cycles)) {
        Some(Exclusion::TaskAndCycles)
    } else if both(rows, flags.has(Flag::Csv)) {
        Some(Exclusion::TaskAndCsv)
    } else if both(flags.has(Flag::Csv), flags.has(Flag::Cycles)) {
        Some(Exclusion::CsvAndCycles)
    } else {
        None
    }
}

/// How many workers share the blocks.
fn workers_in(given: &ArgMatches<'_>) -> u32
    requires { HoldValues (rows_of (found_of given.now)) }
    ensures value { result ≡ number_or 2 (codes "workers") (rows_of (found_of given.now)) }
    ensures some { 1 ≤ result }
    ensures few { result ≤ 8 }
{
    given.get_one("workers").unwrap_or(DEFAULT_WORKERS)
}

/// How many nodes a search has for each number of cycles that is tried, if there is one.
fn nodes_in(given: &ArgMatches<'_>) -> Option<u32>
    requires { HoldValues (rows_of (found_of given.now)) }
    ensures { result ≡ number_if (codes "nodes") (rows_of (found_of given.now)) }
{
    given.get_one("nodes")
}

/// The latencies of loads, stores and products.
fn latencies_in(given: &ArgMatches<'_>) -> Latencies
    requires { HoldValues (rows_of (found_of given.now)) }
    ensures load { result.load ≡ number_or 5 (codes "load") (rows_of (found_of given.now)) }
    ensures store { result.store ≡ number_or 5 (codes "store") (rows_of (found_of given.now)) }
    ensures mult { result.mult ≡ number_or 3 (codes "mult") (rows_of (found_of given.now)) }
{
    let usual = Latencies::usual();
    let load = latency_in(given, "load", usual.load);
    let store = latency_in(given, "store", usual.store);
    let mult = latency_in(given, "mult", usual.mult);
    Latencies::new(load, store, mult).unwrap()
}

/// The latency that an option sets, the usual one where the command does not take it.
fn latency_in(given: &ArgMatches<'_>, option: &str, usual: u32) -> u32
    requires held { HoldsIn 1 LONGEST_LATENCY option.now (rows_of (found_of given.now)) }
    requires known { IsLatency usual }
    ensures value { result ≡ number_or usual option.now (rows_of (found_of given.now)) }
    ensures within { IsLatency result }
{
    given.get_one(option).unwrap_or(usual)
}

/// The address of the first word.
fn start_in(given: &ArgMatches<'_>) -> u32
    requires { HoldValues (rows_of (found_of given.now)) }
    ensures value { result ≡ number_or 1024 (codes "at") (rows_of (found_of given.now)) }
    ensures in_memory { result ≤ LAST_ADDRESS }
{
    given.get_one("at").unwrap_or(DEFAULT_START)
}

/// The words themselves.
fn words_in(alloc: Global, given: &ArgMatches<'_>) -> Result<Vec<u32>, AllocFailed<u32>>
    requires { HoldValues (rows_of (found_of given.now)) }
    ensures { IfOk result (λ words.
        words.items ≡ numbers_in (codes "words") (rows_of (found_of given.now))) }
{
    let mut words = Vec::new(alloc);
    if let Some(values) = given.get_many::<u32>("words") {
        for value in values {
            words.push(value.unwrap())?;
        }
    }
    Ok(words)
}

/// By what the ready operations are ranked, if a heuristic has the name that is given.
fn priority_in(given: &ArgMatches<'_>) -> Option<Heuristic>
    ensures { MatchOption result
        (IsNoPriority (text_or (codes "chain") (codes "priority") (rows_of (found_of given.now))))
        (λ heuristic. priority_word heuristic
        ≡ text_or (codes "chain") (codes "priority") (rows_of (found_of given.now))) }
{
    heuristic_of(given.get_str("priority").unwrap_or(DEFAULT_PRIORITY))
}

/// Whether `--priority` is given.
fn is_priority_given(given: &ArgMatches<'_>) -> bool
    ensures { result ≡ is_some (first_of (codes "priority") (rows_of (found_of given.now))) }
{
    given.get_str("priority").is_some()
}

/// Whether a task can rank by somebody's own numbers.
fn ranks_by_own(task: Task) -> bool
    ensures { result ≡ ranks_by_own task }
{
    match task {
        Task::Simulate | Task::Trace | Task::Schedule => true,
        Task::Counts | Task::Compare | Task::Explain => true,
        Task::Run | Task::Optimize | Task::Check | Task::Graph | Task::Lint => false,
    }
}

/// The name of the file of priorities, if the task can rank by it and it is given.
fn priorities_in(
    alloc: Global,
    task: Task,
    given: &ArgMatches<'_>,
) -> Result<Option<String>, AllocError>
    ensures value { IfOk result (λ name.
        option_map string_bytes name ≡ priorities_in task (rows_of (found_of given.now))) }
    ensures ranks { IfOk result (λ name. ForSome name (λ _. ranks_by_own task ≡ true)) }
{
    if ranks_by_own(task) {
        file_in(alloc, given, "priorities")
    } else {
        Ok(None)
    }
}

/// The name of the file that an option names, if it is given.
fn file_in(
    alloc: Global,
    given: &ArgMatches<'_>,
    option: &str,
) -> Result<Option<String>, AllocError>
    ensures { IfOk result (λ name.
        option_map string_bytes name ≡ first_of option.now (rows_of (found_of given.now))) }
{
    match given.get_str(option) {
        Some(name) => Ok(Some(String::from_str(alloc, name)?)),
        None => Ok(None),
    }
}

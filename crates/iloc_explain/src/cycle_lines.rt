//! The ready list as it is listed, a line for each cycle.
ghost use Rattle.std.specs.Prelude.{ℕ, ◌≡◌, ◌==◌, ◌&&◌, ◌++◌, ◌<◌, List, length, OnOk, IfSome};
ghost use Rattle.iloc_pieces.specs.Pieces.{piece_text};
ghost use Rattle.iloc_rules.specs.declared.memory_rule.MemoryRule.{MemoryRule as rule_value};
ghost use Rattle.iloc_rules.specs.Steps.Members.{In};
ghost use Rattle.iloc_explain.specs.CycleLines as listed;
ghost use Rattle.iloc_explain.specs.CycleLines.{ready_listing};
ghost use Rattle.iloc_explain.specs.Explained.{AreExplained};
ghost use Rattle.iloc_explain.specs.Measures.{AreMeasures};
ghost use Rattle.iloc_explain.specs.Steps.CycleParts.{front_by, last_by, taken_by};
ghost use Rattle.iloc_explain.specs.Steps.Queue.{IsInOrder, IsKnown, Place};

use crate::explanation::{Explained, explain};
use crate::holding::{held_by, keeper};
use crate::listing::{held, push_cycles};
use crate::ready_list::{MOST_LISTED, ReadyList};
use crate::subject::Subject;
use crate::under_way::under_way;
use Piece::{Number, Text};
use iloc_ops::{NoMemory, Op};
use iloc_pieces::{Piece, push_all};
use iloc_timed::{Row, cycles};
use std::alloc::Global;

/// Appends `pairs` with commas between them, each with `mark` between its numbers; `-` where there are none.
fn push_pairs(text: &mut Vec<u8>, mark: &str, pairs: &[(usize, u64)]) -> Result<(), NoMemory>
    ensures { OnOk result (text.new.items ≡ text.old.items ++ listed.pairs_text mark.now pairs.now) }
{
    match pairs {
        [] => Ok(text.push(b'-')?),
        [first, rest @ ..] => {
            push_all(text, &[Number(first.0 as u64), Text(mark), Number(first.1)])?;
            for pair in rest {
                let (left, right) = (Number(pair.0 as u64), Number(pair.1));
                push_all(text, &[Text(","), left, Text(mark), right])?;
            }
            Ok(())
        }
    }
}

/// Appends how many ready operations aren't listed: `more`, if there are any.
fn push_more(text: &mut Vec<u8>, more: usize) -> Result<(), NoMemory>
    ensures { OnOk result (text.new.items ≡ text.old.items ++ listed.more_text more) }
{
    if more == 0 {
        return Ok(());
    }
    push_all(text, &[Text(",+"), Number(more as u64)])
}

/// The number in a slot, `-` for none.
fn slot_number(slot: Option<usize>) -> Piece<'static>
    ensures { piece_text result ≡ listed.slot_text slot }
{
    match slot {
        Some(i) => Number(i as u64),
        None => Text("-"),
    }
}

/// Appends what is left out of a row, with what keeps it out; where nothing is, what is ready next, after the cycle at which it is.
fn push_next(
    text: &mut Vec<u8>,
    ops: &[Op],
    row: Row,
    left_out: Option<usize>,
    coming: Option<(usize, usize)>,
) -> Result<(), NoMemory>
    requires zero { IfSome row.zero (λ i. i < length ops.now) }
    requires one { IfSome row.one (λ i. i < length ops.now) }
    requires known { IfSome left_out (λ j. j < length ops.now) }
    ensures { OnOk result (text.new.items ≡ text.old.items ++ listed.next_text ops.now row left_out coming) }
{
    match (left_out, coming) {
        (Some(j), _) => {
            let holder = held(held_by(keeper(ops, row, j)));
            push_all(text, &[Number(j as u64), Text(" held "), holder])
        }
        (None, Some((cycle, j))) => push_all(
            text,
            &[Number(j as u64), Text(" at "), Number(cycle as u64)],
        ),
        (None, None) => Ok(text.push(b'-')?),
    }
}

/// The last cycle of the line that begins with this one.
fn last_cycle(list: &ReadyList, cycle: usize, rows: usize) -> usize
    ensures { result ≡ last_by cycle rows list.now }
{
    if list.len() > 0 {
        return cycle;
    }
    match list.next() {
        Some((busy, _)) => busy.saturating_sub(1),
        None => rows.saturating_sub(1),
    }
}

/// Appends the first part of a line: its cycles, and what is ready.
fn push_front(
    alloc: Global,
    text: &mut Vec<u8>,
    list: &ReadyList,
    cycle: usize,
    rows: usize,
) -> Result<(), NoMemory>
    ensures { OnOk result (text.new.items ≡ text.old.items ++ front_by cycle rows list.now) }
{
    push_all(text, &[Text("cycle "), Number(cycle as u64)])?;
    let last = last_cycle(list, cycle, rows);
    if last != cycle {
        push_all(text, &[Text("-"), Number(last as u64)])?;
    }
    text.extend_from_slice(b" ready ")?;
    push_pairs(text, ":", &list.first_ranked(alloc)?)?;
    push_more(text, list.len().saturating_sub(MOST_LISTED))
}

/// Appends the second part: what the row takes, and what is left out of it.
fn push_taken_from(
    text: &mut Vec<u8>,
    list: &ReadyList,
    ops: &[Op],
    row: Row,
) -> Result<(), NoMemory>
    requires zero { IfSome row.zero (λ i. i < length ops.now) }
    requires one { IfSome row.one (λ i. i < length ops.now) }
    requires known { (p : Place) → In list.now.ready.keys p → p.1 < length ops.now }
    ensures { OnOk result (text.new.items ≡ text.old.items ++ taken_by ops.now row list.now) }
{
    let (zero, one) = (slot_number(row.zero), slot_number(row.one));
    push_all(
        text,
        &[Text(" takes "), zero, Text(" ; "), one, Text(" next ")],
    )?;
    push_next(text, ops, row, list.left_out(row), list.next())
}

/// Appends the line that begins with a cycle.
fn push_cycle(
    alloc: Global,
    text: &mut Vec<u8>,
    list: &ReadyList,
    subject: &Subject<'_>,
    cycle: usize,
) -> Result<(), NoMemory>
    requires order { IsInOrder list.now }
    requires within { cycle < length subject.now.schedule.now.rows }
    requires known { (prios : List ℕ) × (rule : rule_value)
        × IsKnown prios rule subject.now.measures.now.delays.latencies.now subject.now.schedule.now.ops subject.now.schedule.now.rows cycle list.now }
    ensures { OnOk result ((prios : List ℕ) (rule : rule_value)
        → IsKnown prios rule subject.now.measures.now.delays.latencies.now subject.now.schedule.now.ops subject.now.schedule.now.rows cycle list.now
        → text.new.items ≡ text.old.items ++ listed.cycle_line prios rule subject.now.measures.now.delays.latencies.now
        subject.now.schedule.now.ops subject.now.schedule.now.rows cycle) }
{
    let (ops, rows) = (subject.schedule.ops(), subject.schedule.rows());
    push_front(alloc, text, list, cycle, rows.len())?;
    push_taken_from(text, list, ops, rows[cycle])?;
    text.extend_from_slice(b" active ")?;
    push_pairs(text, "@", &under_way(alloc, subject, cycle)?)?;
    Ok(text.extend_from_slice(b"\n")?)
}

/// Whether no line begins with a cycle, since nothing is ready then, as in the cycle before.
fn is_skipped(list: &ReadyList, was_idle: bool) -> bool
    ensures skipped { result ≡ (was_idle && (length list.now.ready.keys == 0)) }
    ensures order { IsInOrder list.now }
{
    let is_idle = list.len() == 0;
    was_idle && is_idle
}

/// Appends the lines of all cycles of a schedule, of which this is explained: where nothing is ready, as in the cycle before, no
/// line begins.
fn push_cycles_of(
    alloc: Global,
    text: &mut Vec<u8>,
    subject: &Subject<'_>,
    explained: &[Explained],
) -> Result<(), NoMemory>
    requires { (prios : List ℕ) × (rule : rule_value)
        × AreExplained prios rule subject.now.measures.now.delays.latencies.now subject.now.schedule.now.ops subject.now.schedule.now.rows explained.now }
    ensures { OnOk result ((prios : List ℕ) (rule : rule_value)
        → AreExplained prios rule subject.now.measures.now.delays.latencies.now subject.now.schedule.now.ops subject.now.schedule.now.rows explained.now
        → text.new.items ≡ text.old.items ++ listed.cycle_lines prios rule subject.now.measures.now.delays.latencies.now
        subject.now.schedule.now.ops subject.now.schedule.now.rows) }
{
    // Whose numbers are those of operations.
    let _ops = subject.schedule.ops();
    let mut list = ReadyList::new(alloc, explained)?;
    let mut was_idle = false;
    for (cycle, row) in subject.schedule.rows().iter().enumerate() {
        list.release(cycle)?;
        if !is_skipped(&list, was_idle) {
            push_cycle(alloc, text, &list, subject, cycle)?;
        }
        was_idle = list.len() == 0;
        list.issue(explained, *row);
    }
    Ok(())
}

/// Appends the ready list of a schedule by a rule of memory: for each cycle what is ready, by rank, what the row takes, what keeps
/// the next one out, and what is under way; then the cycles with their lower bound (`least`).
///
/// Promise: Just that is appended.
pub fn push_ready_list(
    alloc: Global,
    text: &mut Vec<u8>,
    subject: &Subject<'_>,
) -> Result<(), NoMemory>
    requires { AreMeasures subject.now.measures.now.delays.latencies.now subject.now.schedule.now.ops subject.now.measures.now }
    ensures { OnOk result (text.new.items ≡ text.old.items
        ++ ready_listing subject.now.measures.now.ranks.items subject.now.measures.now.delays.rule
        subject.now.measures.now.delays.latencies.now subject.now.measures.now.least subject.now.schedule.now.ops subject.now.schedule.now.rows) }
{
    let explained = explain(alloc, subject)?;
    push_cycles_of(alloc, text, subject, &explained)?;
    let measures = subject.measures;
    let taken = cycles(subject.schedule, measures.delays.latencies);
    push_cycles(text, taken, measures.least)
}

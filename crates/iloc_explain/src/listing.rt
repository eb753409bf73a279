//! The listing of what explains a schedule.
ghost use Rattle.std.specs.Prelude.{◌≡◌, ◌++◌, List, ℕ, length, option_copied, OnOk};
ghost use Rattle.std.specs.List.{flat_map};
ghost use Rattle.std.specs.Fmt.{decimal};
ghost use Rattle.iloc_pieces.specs.Pieces.{piece_text};
ghost use Rattle.iloc_rules.specs.Renaming.{without_nops};
ghost use Rattle.iloc_explain.specs.Listing as listed;
ghost use Rattle.iloc_explain.specs.Listing.{AreTableRows, IsExplanation};
ghost use Rattle.iloc_explain.specs.Measures.{AreMeasures};

use crate::chain::longest_chain;
use crate::explanation::{Explained, Unit, explain};
use crate::holding::Holder;
use crate::path::{Stretch, path_of};
use crate::subject::Subject;
use Piece::{Number, Operation, Text};
use iloc_ops::{NoMemory, Op, push_column, push_number};
use iloc_pieces::{Piece, push_all};
use iloc_timed::cycles;
use std::alloc::Global;

/// Appends each of `numbers` after `mark`.
fn push_marked(text: &mut Vec<u8>, mark: &str, numbers: &[usize]) -> Result<(), NoMemory>
    ensures { OnOk result (text.new.items
        ≡ text.old.items ++ flat_map (λ n. mark.now ++ decimal n) numbers.now) }
{
    for number in numbers {
        push_all(text, &[Text(mark), Number(*number as u64)])?;
    }
    Ok(())
}

/// Appends `numbers` with `mark` between them, `-` where there are none.
fn push_separated(text: &mut Vec<u8>, mark: &str, numbers: &[usize]) -> Result<(), NoMemory>
    ensures { OnOk result (text.new.items ≡ text.old.items ++ listed.separated mark.now numbers.now) }
{
    match numbers {
        [] => Ok(text.push(b'-')?),
        [first, rest @ ..] => {
            push_number(text, *first)?;
            push_marked(text, mark, rest)
        }
    }
}

/// The number of a unit.
fn unit_number(unit: Unit) -> u64
    ensures { result ≡ listed.unit_number unit }
{
    match unit {
        Unit::Zero => 0,
        Unit::One => 1,
    }
}

/// What kept an operation out of a row: `-` for delays, the number of an operation, `free` for nothing.
pub(crate) fn held(holder: Holder) -> Piece<'static>
    ensures { piece_text result ≡ listed.holder_text holder }
{
    match holder {
        Holder::Delays => Text("-"),
        Holder::Operation(i) => Number(i as u64),
        Holder::Nothing => Text("free"),
    }
}

/// Appends the priority of an operation, its start, its slack, and what kept it out of the row before.
fn push_measures(text: &mut Vec<u8>, explained: &Explained) -> Result<(), NoMemory>
    ensures { OnOk result (text.new.items ≡ text.old.items ++ listed.measures explained.now) }
{
    push_column(text, "priority", explained.priority)?;
    push_column(text, "earliest", explained.earliest)?;
    push_column(text, "slack", explained.slack)?;
    push_all(text, &[Text(" held "), held(explained.held)])
}

/// Appends the line of operation `j`; `ops` are it as the block has it and as it is issued.
fn push_line(
    text: &mut Vec<u8>,
    j: usize,
    explained: &Explained,
    ops: (Op, Op),
) -> Result<(), NoMemory>
    ensures { OnOk result (text.new.items
        ≡ text.old.items ++ listed.explained_line j explained.now ops.0 ops.1) }
{
    push_number(text, j)?;
    push_column(text, "cycle", explained.cycle as u64)?;
    push_column(text, "unit", unit_number(explained.unit))?;
    push_column(text, "ready", explained.ready as u64)?;
    text.extend_from_slice(b" after ")?;
    push_separated(text, ",", &explained.after)?;
    push_measures(text, explained)?;
    let (op, issued) = (Operation(ops.0), Operation(ops.1));
    push_all(text, &[Text(" "), op, Text(" ; "), issued, Text("\n")])
}

/// Appends the fields of a row that say which operation is issued where, and when it was ready.
fn push_place_fields(text: &mut Vec<u8>, j: usize, explained: &Explained) -> Result<(), NoMemory>
    ensures { OnOk result (text.new.items ≡ text.old.items ++ listed.place_fields j explained.now) }
{
    let (cycle, ready) = (
        Number(explained.cycle as u64),
        Number(explained.ready as u64),
    );
    let (number, unit) = (Number(j as u64), Number(unit_number(explained.unit)));
    let comma = Text(",");
    push_all(
        text,
        &[comma, number, comma, cycle, comma, unit, comma, ready],
    )
}

/// Appends the fields of a row that have the priority of an operation, its start, its slack, and what kept it out of the row
/// before.
fn push_measure_fields(text: &mut Vec<u8>, explained: &Explained) -> Result<(), NoMemory>
    ensures { OnOk result (text.new.items ≡ text.old.items ++ listed.measure_fields explained.now) }
{
    let (priority, earliest) = (Number(explained.priority), Number(explained.earliest));
    let (slack, holder) = (Number(explained.slack), held(explained.held));
    let comma = Text(",");
    push_all(
        text,
        &[
            comma, priority, comma, earliest, comma, slack, comma, holder,
        ],
    )
}

/// Appends the row of operation `j` of a table, after its block; `ops` are it as the block has it and as it is issued.
fn push_row(
    text: &mut Vec<u8>,
    j: usize,
    explained: &Explained,
    ops: (Op, Op),
) -> Result<(), NoMemory>
    ensures { OnOk result (text.new.items
        ≡ text.old.items ++ listed.explained_row j explained.now ops.0 ops.1) }
{
    push_place_fields(text, j, explained)?;
    text.push(b',')?;
    push_separated(text, " ", &explained.after)?;
    push_measure_fields(text, explained)?;
    let (op, issued) = (Operation(ops.0), Operation(ops.1));
    push_all(
        text,
        &[Text(",\""), op, Text("\",\""), issued, Text("\"\n")],
    )
}

/// Appends the line of operation `j` or, after what a table has of its `block`, its row; `ops` are it as the block has it and
/// as it is issued.
fn push_explained(
    text: &mut Vec<u8>,
    block: Option<&[u8]>,
    j: usize,
    explained: &Explained,
    ops: (Op, Op),
) -> Result<(), NoMemory>
    ensures { OnOk result (text.new.items ≡ text.old.items ++ (listed.beginning (option_copied block.entry)
        ++ listed.line_after (option_copied block.entry) j explained.now ops.0 ops.1)) }
{
    match block {
        None => push_line(text, j, explained, ops),
        Some(head) => {
            text.extend_from_slice(head)?;
            push_row(text, j, explained, ops)
        }
    }
}

/// Appends the line of a chain.
fn push_chain(text: &mut Vec<u8>, chain: &[usize]) -> Result<(), NoMemory>
    ensures { OnOk result (text.new.items ≡ text.old.items ++ listed.chain_line chain.now) }
{
    if chain.is_empty() {
        return Ok(text.extend_from_slice(b"chain -\n")?);
    }
    text.extend_from_slice(b"chain")?;
    push_marked(text, " ", chain)?;
    Ok(text.extend_from_slice(b"\n")?)
}

/// Appends the lines of those of `ops` that are no `nop`, as they are and as they are `issued`, or their rows in a table,
/// each after what it has of their `block`.
fn push_lines(
    text: &mut Vec<u8>,
    block: Option<&[u8]>,
    ops: &[Op],
    explained: &[Explained],
    issued: &[Op],
) -> Result<(), NoMemory>
    requires all { length explained.now ≡ length issued.now }
    requires same { length (without_nops ops.now) ≡ length issued.now }
    ensures { OnOk result (text.new.items ≡ text.old.items ++ listed.each_after (listed.beginning (option_copied block.entry))
        (listed.explained_lines (listed.line_after (option_copied block.entry)) 0 explained.now (without_nops ops.now) issued.now)) }
{
    let mut j = 0;
    for op in ops {
        match op {
            Op::Nop => {}
            _ => {
                push_explained(text, block, j, &explained[j], (*op, issued[j]))?;
                j += 1;
            }
        }
    }
    Ok(())
}

/// Appends the line of the cycles of a schedule and their lower bound.
pub(crate) fn push_cycles(text: &mut Vec<u8>, cycles: u64, least: u64) -> Result<(), NoMemory>
    ensures { OnOk result (text.new.items ≡ text.old.items ++ listed.cycles_line cycles least) }
{
    push_all(
        text,
        &[
            Text("cycles "),
            Number(cycles),
            Text(" least "),
            Number(least),
            Text(if cycles == least { " optimal" } else { "" }),
            Text("\n"),
        ],
    )
}

/// Appends `stretch`, of a path.
fn push_stretch(text: &mut Vec<u8>, stretch: Stretch) -> Result<(), NoMemory>
    ensures { OnOk result (text.new.items ≡ text.old.items ++ listed.stretch_text stretch) }
{
    match stretch {
        Stretch::Delay(operation, cycles) => {
            let (operation, cycles) = (Number(operation as u64), Number(cycles as u64));
            push_all(text, &[Text(" "), operation, Text(" +"), cycles])
        }
        Stretch::Held(operation) => {
            push_all(text, &[Text(" "), Number(operation as u64), Text(" =1")])
        }
        Stretch::Free(cycles) => push_all(text, &[Text(" ~"), Number(cycles as u64)]),
    }
}

/// Appends the line of a path.
fn push_path(text: &mut Vec<u8>, path: &[Stretch]) -> Result<(), NoMemory>
    ensures { OnOk result (text.new.items ≡ text.old.items ++ listed.path_line path.now) }
{
    if path.is_empty() {
        return Ok(text.extend_from_slice(b"path -\n")?);
    }
    text.extend_from_slice(b"path")?;
    for stretch in path {
        push_stretch(text, *stretch)?;
    }
    Ok(text.push(b'\n')?)
}

/// Appends what explains a schedule of the block by a rule of memory: a line for each operation, the cycles with their lower bound
/// (`least`), a longest chain of delays, and what binds in this schedule. The lines show each operation as it is `issued`.
///
/// Promise: What is appended is a text that explains the schedule.
pub fn push_explanation(
    alloc: Global,
    text: &mut Vec<u8>,
    subject: &Subject<'_>,
    issued: &[Op],
) -> Result<(), NoMemory>
    requires measured { AreMeasures subject.now.measures.now.delays.latencies.now subject.now.schedule.now.ops subject.now.measures.now }
    requires issued { length issued.now ≡ length subject.now.schedule.now.ops }
    ensures { OnOk result ((entry : List ℕ)
        × IsExplanation subject.now.measures.now.ranks.items subject.now.measures.now.delays.rule
        subject.now.measures.now.delays.latencies.now subject.now.measures.now.least subject.now.block.now.ops
        subject.now.schedule.now.ops subject.now.schedule.now.rows issued.now entry
        × (text.new.items ≡ text.old.items ++ entry)) }
{
    let explained = explain(alloc, subject)?;
    let (measures, schedule) = (subject.measures, subject.schedule);
    let delays = &measures.delays;
    push_lines(text, None, subject.block.ops.as_slice(), &explained, issued)?;
    push_cycles(text, cycles(schedule, delays.latencies), measures.least)?;
    push_chain(text, &longest_chain(alloc, delays, &measures.chains)?)?;
    push_path(
        text,
        &path_of(alloc, schedule, delays.latencies, &explained)?,
    )
}

/// Appends a row of a table for each operation of a schedule, each after `head`, which is what the table has of its block.
///
/// Promise: Each row has what explains the cycle in which the schedule issues its operation.
pub fn push_table(
    alloc: Global,
    text: &mut Vec<u8>,
    head: &[u8],
    subject: &Subject<'_>,
) -> Result<(), NoMemory>
    requires { AreMeasures subject.now.measures.now.delays.latencies.now subject.now.schedule.now.ops subject.now.measures.now }
    ensures { OnOk result ((table : List (List ℕ))
        × AreTableRows subject.now.measures.now.ranks.items subject.now.measures.now.delays.rule
        subject.now.measures.now.delays.latencies.now subject.now.block.now.ops subject.now.schedule.now.ops
        subject.now.schedule.now.rows table
        × (text.new.items ≡ text.old.items ++ listed.each_after head.now table)) }
{
    let explained = explain(alloc, subject)?;
    let (ops, issued) = (subject.block.ops.as_slice(), subject.schedule.ops());
    push_lines(text, Some(head), ops, &explained, issued)
}

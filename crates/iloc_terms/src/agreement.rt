//! Whether two runs in terms end with the same.
ghost use Rattle.std.specs.Prelude.{◌≡◌, true, false, List, ℕ, ℤ, slice_index_or, IfOk};
ghost use Rattle.iloc_terms.specs.Steps.Terms.{Meaning, IsMeaning};
ghost use Rattle.iloc_terms.specs.Steps.Agreement.{AreMarks, IsSurelyGood, IsGoodWith, IsBadWith, BadThere, AreSame};

use crate::spans::{Span, is_between, spans};
use crate::symbols::Symbols;
use crate::table::Table;
use crate::table::node::Node;
use iloc_meaning::Memory;
use iloc_ops::NoMemory;
use std::alloc::Global;

/// Whether an address is known and good.
fn is_known(table: &Table, address: u32) -> bool
    ensures { result ≡ true → IsSurelyGood table.now address }
{
    match table.node(address) {
        Some(Node::Known(word)) => Memory::is_good(word),
        _ => false,
    }
}

/// For each number below `count` whether it is among `numbers`.
pub(crate) fn marks(alloc: Global, numbers: &[u32], count: usize) -> Result<Vec<bool>, NoMemory>
    ensures { IfOk result (λ marks. AreMarks numbers.now marks.items) }
{
    let mut marks = vec![in alloc; false; count]?;
    for number in numbers {
        if let Some(mark) = marks.get_mut(*number as usize) {
            *mark = true;
        }
    }
    Ok(marks)
}

/// Whether a number is marked.
pub(crate) fn is_marked(marks: &[bool], number: u32) -> bool
    ensures { result ≡ slice_index_or marks.now number false }
{
    marks.get(number as usize).copied().unwrap_or(false)
}

/// Whether an address is good wherever two others are, since it is between them.
fn is_within(table: &Table, span: Span, address: u32) -> bool
    ensures { result ≡ true → IsGoodWith table.now span.low span.high address }
{
    let at = table.parts(address);
    let low = table.parts(span.low);
    let high = table.parts(span.high);
    if low.base != at.base {
        return false;
    }
    if high.base != at.base {
        return false;
    }
    is_between(low.constant, at.constant, high.constant)
}

/// Whether an address is between two that are marked.
fn is_between_marked(table: &Table, marks: &[bool], spans: &[Option<Span>], address: u32) -> bool
    ensures { result ≡ true → (those : List ℕ) → AreMarks those marks.now → IsBadWith table.now those address }
{
    let Some(base) = table.parts(address).base else {
        return false;
    };
    let Some(Some(span)) = spans.get(base as usize).copied() else {
        return false;
    };
    if !is_marked(marks, span.low) {
        return false;
    }
    if !is_marked(marks, span.high) {
        return false;
    }
    is_within(table, span, address)
}

/// Whether an address is marked, known and good, or between two that are marked.
fn is_settled(table: &Table, marks: &[bool], spans: &[Option<Span>], address: u32) -> bool
    ensures { result ≡ true → (those : List ℕ) → AreMarks those marks.now → IsBadWith table.now those address }
{
    if is_marked(marks, address) {
        return true;
    }
    if is_known(table, address) {
        return true;
    }
    is_between_marked(table, marks, spans, address)
}

/// Whether each of `these` addresses is surely good, is among `those` or is between two of them. Then, if one of
/// `these` is bad, one of `those` is.
fn is_bad_there(
    alloc: Global,
    table: &Table,
    these: &[u32],
    those: &[u32],
) -> Result<bool, NoMemory>
    ensures { IfOk result (λ yes. yes ≡ true → BadThere table.now these.now those.now) }
{
    let marks = marks(alloc, those, table.len())?;
    let spans = spans(alloc, table, those)?;
    for address in these {
        if !is_settled(table, &marks, &spans, *address) {
            return Ok(false);
        }
    }
    Ok(true)
}

/// Whether two runs end with the same outputs and, where not outputs alone are compared, memory, and do something at the same
/// addresses but for known good ones. Of a block that is known to fault, too, the rows have to do all else alike.
pub(crate) fn agree(
    alloc: Global,
    outputs_alone: bool,
    table: &Table,
    one: &Symbols,
    other: &Symbols,
) -> Result<bool, NoMemory>
    ensures { IfOk result (λ yes. yes ≡ true → (memory : List ℤ) (d : Meaning) →
        IsMeaning memory table.now d → AreSame outputs_alone d one.now other.now) }
{
    Ok(
        one.outputs == other.outputs
            && (outputs_alone || one.memory == other.memory)
            && is_bad_there(alloc, table, &one.addresses, &other.addresses)?
            && is_bad_there(alloc, table, &other.addresses, &one.addresses)?,
    )
}

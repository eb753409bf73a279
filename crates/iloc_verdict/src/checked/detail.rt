//! The lines that tell where rows go wrong.
ghost use Rattle.std.specs.Prelude.{◌≡◌, ◌++◌, OnOk};
ghost use Rattle.iloc_verdict.specs.Entry.Listing as listed;
ghost use Rattle.iloc_verdict.specs.Counted.{CanBeCompared, CanBeListed};

use super::reason::push_reasons;
use crate::obstacle::push_obstacle;
use crate::remark::comparison::{push_difference, push_void};
use crate::verdict::Verdict;
use Piece::{Number, Text};
use iloc_comparison::{Comparison, Form, Probe};
use iloc_ops::{NoMemory, Op};
use iloc_pieces::{Piece, push_all};
use iloc_timed::Row;

/// Appends the arguments with which the command `run` starts with a memory.
fn push_probe(text: &mut Vec<u8>, probe: &Probe) -> Result<(), NoMemory>
    ensures { OnOk result (text.new.items ≡ text.old.items ++ listed.probe_told probe.now) }
{
    push_all(text, &[Text(" with --at "), Number(u64::from(probe.at))])?;
    for word in &probe.words {
        push_all(text, &[Text(" "), Number(u64::from(*word))])?;
    }
    Ok(())
}

/// Appends the line of how rows compare with their block.
fn push_comparison(text: &mut Vec<u8>, comparison: &Comparison) -> Result<(), NoMemory>
    requires { CanBeCompared comparison.now }
    ensures { OnOk result (text.new.items ≡ text.old.items ++ listed.comparison_told comparison.now) }
{
    match comparison {
        Comparison::Void(why) => push_void(text, Form::Lines, why)?,
        Comparison::Same | Comparison::Prints | Comparison::Agrees => return Ok(()),
        Comparison::Differs(difference) => push_difference(text, Form::Lines, difference)?,
        Comparison::DiffersOn(probe, difference) => {
            push_difference(text, Form::Lines, difference)?;
            push_probe(text, probe)?;
        }
    }
    Ok(text.push(b'\n')?)
}

/// Appends that a proposal has no rows, if it has none.
fn push_no_rows(text: &mut Vec<u8>, rows: &[Row]) -> Result<(), NoMemory>
    ensures { OnOk result (text.new.items ≡ text.old.items ++ listed.no_rows_told rows.now) }
{
    if rows.is_empty() {
        text.extend_from_slice(b"  no rows\n")?;
    }
    Ok(())
}

/// Appends what is said of the operations `ops` in `rows` below the line of their verdict.
pub(crate) fn push_detail(
    text: &mut Vec<u8>,
    ops: &[Op],
    rows: &[Row],
    verdict: &Verdict<'_>,
) -> Result<(), NoMemory>
    requires { CanBeListed rows.now verdict.now }
    ensures { OnOk result (text.new.items ≡ text.old.items ++ listed.detail ops.now rows.now verdict.now) }
{
    match verdict {
        Verdict::Refused(obstacle, _) => push_obstacle(text, ops, rows, obstacle),
        Verdict::Lawful => Ok(()),
        Verdict::Unlawful(reasons, comparison) => {
            push_no_rows(text, rows)?;
            push_comparison(text, comparison)?;
            push_reasons(text, reasons)
        }
        Verdict::Undecided(comparison) => {
            push_no_rows(text, rows)?;
            push_comparison(text, comparison)?;
            Ok(text.extend_from_slice(b"  undecided\n")?)
        }
    }
}

//! How rows compare with their block, in JSON.
ghost use Rattle.std.specs.Prelude.{◌≡◌, ◌++◌, OnOk, codes};
ghost use Rattle.std.specs.List.{flat_map};
ghost use Rattle.std.specs.Fmt.{decimal};
ghost use Rattle.iloc_verdict.specs.Entry.Json as json;
ghost use Rattle.iloc_verdict.specs.Counted.{CanBeCompared, CanBeNumbered};

use crate::remark::comparison::{push_difference, push_void};
use Piece::{Number, Text};
use iloc_comparison::{Comparison, Difference, Form, Probe};
use iloc_ops::{NoMemory, push_number};
use iloc_pieces::{Piece, push_all};

/// Appends each number after a comma.
fn push_rest(text: &mut Vec<u8>, numbers: &[u32]) -> Result<(), NoMemory>
    ensures { OnOk result (text.new.items
        ≡ text.old.items ++ flat_map (λ n. codes "," ++ decimal n) numbers.now) }
{
    for number in numbers {
        push_all(text, &[Text(","), Number(u64::from(*number))])?;
    }
    Ok(())
}

/// Appends numbers with commas between them.
fn push_numbers(text: &mut Vec<u8>, numbers: &[u32]) -> Result<(), NoMemory>
    ensures { OnOk result (text.new.items ≡ text.old.items ++ json.numbers numbers.now) }
{
    match numbers {
        [] => Ok(()),
        [first, rest @ ..] => {
            push_number(text, *first)?;
            push_rest(text, rest)
        }
    }
}

/// Appends a memory that is made up.
fn push_memory(text: &mut Vec<u8>, probe: &Probe) -> Result<(), NoMemory>
    ensures { OnOk result (text.new.items ≡ text.old.items ++ json.memory_value probe.now) }
{
    let at = Number(u64::from(probe.at));
    push_all(text, &[Text("{\"at\":"), at, Text(",\"words\":[")])?;
    push_numbers(text, &probe.words)?;
    Ok(text.extend_from_slice(b"]}")?)
}

/// Appends that nothing is compared, or no difference found.
pub(crate) fn push_no_difference(text: &mut Vec<u8>) -> Result<(), NoMemory>
    ensures { OnOk result (text.new.items ≡ text.old.items ++ json.no_difference) }
{
    Ok(text.extend_from_slice(b",\"void\":null,\"difference\":null,\"memory\":null")?)
}

/// Appends where rows differ from their block.
fn push_difference_member(text: &mut Vec<u8>, difference: &Difference) -> Result<(), NoMemory>
    requires { CanBeNumbered difference.now }
    ensures { OnOk result (text.new.items ≡ text.old.items ++ json.difference_member difference.now) }
{
    text.extend_from_slice(b",\"void\":null,\"difference\":")?;
    push_difference(text, Form::Json, difference)
}

/// Appends how rows compare with their block.
pub(crate) fn push_comparison(text: &mut Vec<u8>, comparison: &Comparison) -> Result<(), NoMemory>
    requires { CanBeCompared comparison.now }
    ensures { OnOk result (text.new.items ≡ text.old.items ++ json.comparison_members comparison.now) }
{
    match comparison {
        Comparison::Void(why) => {
            text.extend_from_slice(b",\"void\":")?;
            push_void(text, Form::Json, why)?;
            Ok(text.extend_from_slice(b",\"difference\":null,\"memory\":null")?)
        }
        Comparison::Same | Comparison::Prints | Comparison::Agrees => push_no_difference(text),
        Comparison::Differs(difference) => {
            push_difference_member(text, difference)?;
            Ok(text.extend_from_slice(b",\"memory\":null")?)
        }
        Comparison::DiffersOn(probe, difference) => {
            push_difference_member(text, difference)?;
            text.extend_from_slice(b",\"memory\":")?;
            push_memory(text, probe)
        }
    }
}

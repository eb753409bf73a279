//! How operations and numbers are written.
ghost use Rattle.std.specs.Prelude.{◌≡◌, [], ◌∷◌, ◌++◌, Any, IfNone, IfSome, IsSomeAnd, OnOk, OnErr, drop, vec_len, vec_capacity, length, slice_get, ◌+◌, ◌<◌, ◌≤◌};
ghost use Rattle.iloc_ops.specs.Forms.{numbers};
ghost use Rattle.iloc_ops.specs.Spelling.{spelling};
ghost use Rattle.iloc_ops.specs.Steps.Laid.{IsShort, laid_out, operand_text};
ghost use Rattle.iloc_ops.specs.declared.spelling.TheConstants.{LONGEST_OPERATION};
ghost use Rattle.iloc_ops.specs.declared.spelling.digits.TheConstants.{SHORT};

mod digits;
mod layout;

use crate::forms::{Operands, form_of};
use crate::no_memory::NoMemory;
use crate::op::Op;
use digits::{SHORT, write_short_number};
use itoa::{Buffer, Integer, write_digits};
pub(crate) use layout::LAYOUTS;
use layout::{Layout, layout_of};
pub use layout::{Word, write_word};

/// An operation is spelled in at most so many bytes.
pub const LONGEST_OPERATION: usize = 64;

/// Promise: appends a number in decimal, with a `-` before a negative one and no other sign; after a refusal of memory,
/// which comes only where the text must grow, the text is as before.
pub fn push_number<N: Integer>(text: &mut Vec<u8>, number: N) -> Result<(), NoMemory>
    ensures ok { OnOk result (text.new.items ≡ text.old.items ++ N.text number) }
    ensures err { OnErr result (text.new.items ≡ text.old.items) }
    ensures full { OnErr result
        (vec_capacity text.old < vec_len text.old + length (N.text number)) }
{
    let mut buffer = Buffer::new();
    text.extend_from_slice(buffer.format(number).as_bytes())?;
    Ok(())
}

/// Appends the spelling of `op`: one space after the opcode, `, ` between two sources and ` => ` before the target.
///
/// Promise: appends the operation as it is spelled; after a refusal of memory, which comes only where the text must
/// grow, the text is as before.
pub fn push_op(text: &mut Vec<u8>, op: &Op) -> Result<(), NoMemory>
    ensures ok { OnOk result (text.new.items ≡ text.old.items ++ spelling op.now) }
    ensures err { OnErr result (text.new.items ≡ text.old.items) }
    ensures full { OnErr result
        (vec_capacity text.old < vec_len text.old + length (spelling op.now)) }
{
    let mut line = [0; LONGEST_OPERATION];
    let start = write_op(&mut line, LONGEST_OPERATION, op);
    text.extend_from_slice(&line[start..])?;
    Ok(())
}

/// Writes the spelling of `op`, as `push_op` has it, and gives where it starts.
///
/// Promise: the operation is spelled out just before `end`, in at most `LONGEST_OPERATION` bytes; the bytes after `end` stay.
#[inline(always)]
pub fn write_op(line: &mut [u8], end: usize, op: &Op) -> usize
    requires { (LONGEST_OPERATION ≤ end) × (end ≤ length line.old) }
    ensures space { (result ≤ end) × (end ≤ result + LONGEST_OPERATION) }
    ensures length { length line.new ≡ length line.old }
    ensures written { drop result line.new ≡ spelling op.now ++ drop end line.old }
{
    write_laid_out(line, end, op, layout_of(op))
}

/// Writes an operation as its layout has it, and gives where it starts.
///
/// Inlined together with `layout_of` it jumps by the opcode, and mispredicts 0.2 to 0.3 branches more for each operation. Numbers of
/// five digits and more are out of its way: if they were called for in it, it would save registers, 12 instructions for each operation.
#[inline(never)]
fn write_laid_out(line: &mut [u8], end: usize, op: &Op, layout: &Layout) -> usize
    requires { (LONGEST_OPERATION ≤ end) × (end ≤ length line.old) × IsShort layout.now }
    ensures space { (result ≤ end) × (end ≤ result + LONGEST_OPERATION) }
    ensures length { length line.new ≡ length line.old }
    ensures written { drop result line.new ≡ laid_out layout.now op.now ++ drop end line.old }
{
    match write_with_short_numbers(line, end, op, layout) {
        Some(start) => start,
        None => write_with_any_numbers(line, end, op, layout),
    }
}

/// Writes an operation as its layout has it, if each of its numbers is short; `None` if one is not. The bytes after `end` stay.
#[inline(always)]
#[tactic(auto, using(crate::proofs::ShortOperands::any_at))]
fn write_with_short_numbers(line: &mut [u8], end: usize, op: &Op, layout: &Layout) -> Option<usize>
    requires { (LONGEST_OPERATION ≤ end) × (end ≤ length line.old) × IsShort layout.now }
    ensures space { IfSome result (λ start. (start ≤ end) × (end ≤ start + LONGEST_OPERATION)) }
    ensures length { length line.new ≡ length line.old }
    ensures written { IfSome result (λ start. drop start line.new ≡ laid_out layout.now op.now ++ drop end line.old) }
    ensures kept { IfNone result (drop end line.new ≡ drop end line.old) }
    ensures long { IfNone result (Any (λ n. SHORT ≤ n) (numbers op.now)) }
{
    let [first, second, third] = numbers(op);
    let end = write_short_operand(line, end, &layout.third, third)?;
    let end = write_short_operand(line, end, &layout.second, second)?;
    let end = write_short_operand(line, end, &layout.first, first)?;
    Some(write_word(line, end, &layout.opcode))
}

/// Writes an operation as its layout has it, whatever its numbers are.
#[cold]
#[inline(never)]
fn write_with_any_numbers(line: &mut [u8], end: usize, op: &Op, layout: &Layout) -> usize
    requires { (LONGEST_OPERATION ≤ end) × (end ≤ length line.old) × IsShort layout.now }
    ensures space { (result ≤ end) × (end ≤ result + LONGEST_OPERATION) }
    ensures length { length line.new ≡ length line.old }
    ensures written { drop result line.new ≡ laid_out layout.now op.now ++ drop end line.old }
{
    let [first, second, third] = numbers(op);
    let end = write_operand(line, end, &layout.third, third);
    let end = write_operand(line, end, &layout.second, second);
    let end = write_operand(line, end, &layout.first, first);
    write_word(line, end, &layout.opcode)
}

/// The numbers of an operation, from left to right.
#[inline(always)]
fn numbers(op: &Op) -> [Option<u32>; 3]
    ensures { result ≡ slice_get (numbers op.now) 0 ∷ slice_get (numbers op.now) 1 ∷ slice_get (numbers op.now) 2 ∷ [] }
{
    match form_of(op).1 {
        Operands::Nothing => [None, None, None],
        Operands::Constant(value) => [Some(value), None, None],
        Operands::Immediate(value, dest) => [Some(value), Some(dest.0), None],
        Operands::Copied(source, dest) => [Some(source.0), Some(dest.0), None],
        Operands::Stored(value, addr) => [Some(value.0), Some(addr.0), None],
        Operands::Sources(left, right, dest) => [Some(left.0), Some(right.0), Some(dest.0)],
        Operands::WithConstant(left, value, dest) => [Some(left.0), Some(value), Some(dest.0)],
        Operands::StoredAt(value, addr, offset) => [Some(value.0), Some(addr.0), Some(offset)],
    }
}

/// Writes `lead` and the number, if there is one, so that they end at `end`, and gives where they start; `None`, with nothing written,
/// if the number is not short.
#[inline(always)]
fn write_short_operand(
    line: &mut [u8],
    end: usize,
    lead: &Word,
    number: Option<u32>,
) -> Option<usize>
    requires { (12 ≤ end) × (end ≤ length line.old) × (lead.now.length ≤ 8) }
    ensures space { IfSome result (λ start. (start ≤ end) × (end ≤ start + 12)) }
    ensures length { length line.new ≡ length line.old }
    ensures written { IfSome result (λ start. drop start line.new ≡ operand_text lead.now number ++ drop end line.old) }
    ensures kept { IfNone result (line.new ≡ line.old) }
    ensures long { IfNone result (IsSomeAnd number (λ n. SHORT ≤ n)) }
{
    let Some(number) = number else {
        return Some(end);
    };
    if number >= SHORT {
        return None;
    }
    let end = write_short_number(line, end, number);
    Some(write_word(line, end, lead))
}

/// Writes `lead` and the number, if there is one, so that they end at `end`, and gives where they start.
#[inline(always)]
#[tactic(auto, using(crate::proofs::ShortNumbers::decimal_is_short))]
fn write_operand(line: &mut [u8], end: usize, lead: &Word, number: Option<u32>) -> usize
    requires { (18 ≤ end) × (end ≤ length line.old) × (lead.now.length ≤ 8) }
    ensures space { (result ≤ end) × (end ≤ result + 18) }
    ensures length { length line.new ≡ length line.old }
    ensures written { drop result line.new ≡ operand_text lead.now number ++ drop end line.old }
{
    match number {
        Some(number) => {
            let end = write_digits(u64::from(number), line, end);
            write_word(line, end, lead)
        }
        None => end,
    }
}

/// Writes the text, and gives where it starts.
///
/// Promise: the text is written just before `end`; the bytes after `end` stay.
#[inline(always)]
pub fn write_text(line: &mut [u8], end: usize, text: &[u8]) -> usize
    requires { (length text.now ≤ end) × (end ≤ length line.old) }
    ensures start { result + length text.now ≡ end }
    ensures length { length line.new ≡ length line.old }
    ensures written { drop result line.new ≡ text.now ++ drop end line.old }
{
    let start = end - text.len();
    line[start..end].copy_from_slice(text);
    start
}

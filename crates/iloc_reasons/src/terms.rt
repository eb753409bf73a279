//! Terms: numbers for what operations have in common, equal for what is equal, and hardly ever for anything else.
ghost use Rattle.std.specs.Prelude.{◌≡◌, slice_index};
ghost use Rattle.iloc_reasons.specs.Steps.Terms.{label_number, mixed, opcode_number, value_of};

use iloc_facts::{Sources, opcode_and_constant};
use iloc_ops::{Op, Opcode};

/// A number for two numbers in order.
pub(crate) fn mix(one: u64, other: u64) -> u64
    ensures { result ≡ mixed one other }
{
    let sum = one
        .wrapping_mul(0x9E37_79B9_7F4A_7C15)
        .wrapping_add(other.wrapping_mul(0xD6E8_FEB8_6659_FD93));
    // Odd numbers and their cubes go one to one.
    let odd = sum.wrapping_mul(2).wrapping_add(1);
    odd.wrapping_mul(odd).wrapping_mul(odd)
}

/// A number for an opcode.
fn opcode_number(opcode: Opcode) -> u64
    ensures { result ≡ opcode_number opcode }
{
    opcode
        .text()
        .iter()
        .fold(0, |number, byte| mix(number, u64::from(*byte)))
}

/// A number for the label of an operation.
pub(crate) fn label_number(op: &Op) -> u64
    ensures { result ≡ label_number op.now }
{
    let (opcode, constant) = opcode_and_constant(op);
    mix(opcode_number(opcode), u64::from(constant))
}

/// The number of what is read, where each operation has one; 0 for the start of a register.
pub(crate) fn value(numbers: &[u64], source: Option<usize>) -> u64
    ensures { result ≡ value_of numbers.now source }
{
    match source {
        Some(s) => at(numbers, s).wrapping_add(1),
        None => 0,
    }
}

/// A number at a place, or 0 where there is none.
pub(crate) fn at(numbers: &[u64], place: usize) -> u64
    ensures { result ≡ slice_index numbers.now place }
{
    numbers.get(place).copied().unwrap_or(0)
}

/// The numbers of what an operation reads, left to right; 0 for the start of a register.
#[derive(Clone, Copy)]
pub(crate) enum Values {
    Nothing,
    One(u64),
    Two(u64, u64),
}

impl Values {
    ghost use Rattle.iloc_reasons.specs.Steps.Terms.{behind, values_of};

    /// The numbers of what an operation reads, where each operation has one.
    pub(crate) fn of(numbers: &[u64], sources: Sources) -> Values
        ensures { result ≡ values_of numbers.now sources }
    {
        match sources {
            Sources::Nothing => Values::Nothing,
            Sources::One(only) => Values::One(value(numbers, only)),
            Sources::Two(left, right) => Values::Two(value(numbers, left), value(numbers, right)),
        }
    }

    /// A number, with them behind it.
    pub(crate) fn behind(self, number: u64) -> u64
        ensures { result ≡ behind self number }
    {
        match self {
            Values::Nothing => number,
            Values::One(only) => mix(number, only),
            Values::Two(left, right) => mix(mix(number, left), right),
        }
    }

    /// The number at a place, left to right.
    pub(crate) fn at(self, place: usize) -> Option<u64> {
        match (self, place) {
            (Values::One(only), 0) => Some(only),
            (Values::Two(left, _), 0) => Some(left),
            (Values::Two(_, right), 1) => Some(right),
            _ => None,
        }
    }

    /// Whether one value is read at both of two places.
    pub(crate) fn is_one(self) -> bool {
        match self {
            Values::Two(left, right) => left == right,
            _ => false,
        }
    }

    /// At how many places they differ from others.
    pub(crate) fn differing(self, others: Values) -> u32 {
        match (self, others) {
            (Values::One(only), Values::One(other)) => one_if(only != other),
            (Values::Two(left, right), Values::Two(other, another)) => {
                one_if(left != other).saturating_add(one_if(right != another))
            }
            _ => 0,
        }
    }
}

/// 1 if it holds, else 0.
pub(crate) fn one_if(holds: bool) -> u32 {
    if holds { 1 } else { 0 }
}

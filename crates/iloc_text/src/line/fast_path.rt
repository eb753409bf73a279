//! The fast path of reading an operation: numbers of few digits, and few bytes before each, as most lines have them. They
//! are looked at by places in a text that is long enough for all of them, so its length is tested once.
ghost use Rattle.std.specs.Prelude.{◌≡◌, ◌<◌, ◌≤◌, ◌+◌, ◌++◌, ℕ, List, [], ◌∷◌, true, nat_lt, Some, IfSome, length, get_or, drop};
ghost use Rattle.std.specs.Simd.Lanes.{number_l};
ghost use Rattle.iloc_text.specs.declared.line.scan.TheConstants.{ABOVE_LIMIT};
ghost use Rattle.iloc_text.specs.Steps.Digits.{IsMask, IsNumber};
ghost use Rattle.iloc_text.specs.Steps.FastPath.{lead_of, IsBehind, IsMaskOf, IsRead};
ghost use Rattle.iloc_text.specs.Steps.Scan.{called_at, is_within_limit};

use crate::line::numbers::fast_number_at;
use crate::line::scan::{arrow_at, comma_at, some_blanks_at};
use crate::line::shape::{Kind, Lead, Shape};
use iloc_ops::{Op, Opcode, op_of};

/// At most so many bytes are passed before a number: enough for a text in columns.
const MOST_PASSED: usize = 20;

/// What follows an opcode on the fast path is no longer.
pub const LONGEST: usize = 128;

/// Eight bytes from a place on, the first of them the lowest.
#[inline(always)]
pub fn word_from(bytes: &[u8], at: usize) -> u64
    requires { at + 8 ≤ length bytes.now }
    ensures { result ≡ number_l 256 (get_or bytes.now at 0 ∷ get_or bytes.now (at + 1) 0 ∷ get_or bytes.now (at + 2) 0
        ∷ get_or bytes.now (at + 3) 0 ∷ get_or bytes.now (at + 4) 0 ∷ get_or bytes.now (at + 5) 0
        ∷ get_or bytes.now (at + 6) 0 ∷ get_or bytes.now (at + 7) 0 ∷ []) }
{
    u64::from_le_bytes([
        bytes[at],
        bytes[at + 1],
        bytes[at + 2],
        bytes[at + 3],
        bytes[at + 4],
        bytes[at + 5],
        bytes[at + 6],
        bytes[at + 7],
    ])
}

/// What follows the letter of a register at the front.
#[inline(always)]
fn behind_letter(bytes: &[u8]) -> Option<&[u8]>
    ensures is { IfSome result (λ rest. bytes.now ≡ 114 ∷ rest.now) }
{
    match bytes {
        [b'r', rest @ ..] => Some(rest),
        _ => None,
    }
}

/// The bytes from a number on, if what precedes one of this kind is at the front.
#[inline(always)]
fn behind_kind(kind: Kind, bytes: &[u8]) -> Option<&[u8]>
    ensures is { IfSome result (λ rest. (found : ℕ × List ℕ) → IsBehind kind rest.now found → IsRead kind bytes.now found) }
    ensures inside { IfSome result (λ rest. (front : List ℕ) × (bytes.now ≡ front ++ rest.now)) }
{
    match kind {
        Kind::Nothing => None,
        Kind::BlankRegister => behind_letter(some_blanks_at(bytes)?),
        Kind::BlankConstant => some_blanks_at(bytes),
        Kind::CommaRegister => behind_letter(comma_at(bytes)?),
        Kind::CommaConstant => comma_at(bytes),
        Kind::ArrowRegister => behind_letter(arrow_at(bytes)?),
    }
}

/// The place after what precedes a number; 0 if there is nothing of this kind, or too much.
#[cold]
#[inline(never)]
fn place_behind_kind(kind: Kind, bytes: &[u8], at: usize) -> usize
    requires { at ≤ length bytes.now }
    ensures is { 0 < result → (found : ℕ × List ℕ) → IsBehind kind (drop result bytes.now) found → IsRead kind (drop at bytes.now) found }
    ensures near { result ≤ at + MOST_PASSED }
{
    match behind_kind(kind, &bytes[at..]) {
        Some(rest) if bytes.len() - rest.len() <= at + MOST_PASSED => bytes.len() - rest.len(),
        _ => 0,
    }
}

/// As `place_behind_kind`, which need not look for what stands without blanks. It is out of the way of what is written as usual.
#[inline(never)]
fn place_behind(lead: &Lead, bytes: &[u8], at: usize) -> usize
    requires lead { lead.now ≡ lead_of lead.now.kind }
    requires long { at + 8 ≤ length bytes.now }
    ensures is { 0 < result → (found : ℕ × List ℕ) → IsBehind lead.now.kind (drop result bytes.now) found → IsRead lead.now.kind (drop at bytes.now) found }
    ensures near { result ≤ at + MOST_PASSED }
{
    if word_from(bytes, at) & lead.tight.mask == lead.tight.word {
        return at + lead.tight.length;
    }
    place_behind_kind(lead.kind, bytes, at)
}

/// The number at a place, and the place after it; by a mask of 0 some number, and the place itself.
#[inline(always)]
fn number_from(bytes: &[u8], at: usize, mask: usize) -> Option<(u32, usize)>
    requires long { at + 8 ≤ length bytes.now }
    requires mask { IsMask mask }
    ensures is { IfSome result (λ found. IsNumber mask (drop at bytes.now) (found.0, drop found.1 bytes.now)) }
    ensures small { IfSome result (λ found. nat_lt found.0 ABOVE_LIMIT ≡ true) }
    ensures near { IfSome result (λ found. found.1 ≤ at + 10) }
{
    let (value, count) = fast_number_at(&bytes[at..], mask)?;
    Some((value, at + count))
}

/// What mostly precedes a number, or anything else that may, and the number; by a mask of 0 some number, and the place itself.
#[inline(always)]
fn operand_from(lead: &Lead, mask: usize, bytes: &[u8], at: usize) -> Option<(u32, usize)>
    requires lead { lead.now ≡ lead_of lead.now.kind }
    requires mask { IsMaskOf lead.now.kind mask }
    requires long { at + MOST_PASSED + 8 ≤ length bytes.now }
    ensures is { IfSome result (λ found. IsRead lead.now.kind (drop at bytes.now) (found.0, drop found.1 bytes.now)) }
    ensures small { IfSome result (λ found. nat_lt found.0 ABOVE_LIMIT ≡ true) }
    ensures near { IfSome result (λ found. found.1 ≤ at + MOST_PASSED + 11) }
{
    let front = word_from(bytes, at) & lead.usual.mask;
    if front == lead.usual.word || front == lead.tabbed {
        return number_from(bytes, at + lead.usual.length, mask);
    }
    let place = place_behind(lead, bytes, at);
    if place == 0 {
        return None;
    }
    number_from(bytes, place, mask)
}

/// The operation of an opcode and of the operands at a place, and the place after these.
///
/// Nothing jumps by the opcode, and where two operands are read, a third one is, by a mask of 0 if it is nothing: where the
/// operands of each shape were read by themselves, `run` mispredicted 0.8 branches more for each operation, and 0.4 with a test
/// of how many there are. The two opcodes of fewer are told apart, so that `op_of` needs no jump.
#[inline(always)]
pub fn fast_called_at(opcode: Opcode, bytes: &[u8], start: usize) -> Option<(Op, usize)>
    requires { start + LONGEST ≤ length bytes.now }
    ensures is { IfSome result (λ found. called_at opcode (drop start bytes.now) ≡ Some (found.0, drop found.1 bytes.now)) }
    ensures small { IfSome result (λ found. is_within_limit found.0 ≡ true) }
    ensures near { IfSome result (λ found. found.1 ≤ start + LONGEST) }
{
    let shape = Shape::of(opcode);
    if matches!(opcode, Opcode::Nop | Opcode::Output) {
        if matches!(opcode, Opcode::Nop) {
            return Some((Op::Nop, start));
        }
        let (addr, at) = operand_from(&shape.first, usize::MAX, bytes, start)?;
        return Some((Op::Output { addr }, at));
    }
    // A mask of its lead would do for each: with a constant `run` executes 4 % fewer instructions.
    let (first, at) = operand_from(&shape.first, usize::MAX, bytes, start)?;
    let (second, at) = operand_from(&shape.second, usize::MAX, bytes, at)?;
    let (third, at) = operand_from(&shape.third, shape.third.usual.mask as usize, bytes, at)?;
    Some((op_of(opcode, &[first, second, third]), at))
}

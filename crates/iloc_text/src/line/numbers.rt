//! Numbers. Those of few digits, as most are, are read without a branch for each digit, since how many digits a number
//! has is hard to predict: with one `run` takes 11 % more processor time on blocks of outputs. Some bytes follow them, so
//! the end of the text needs no test.
ghost use Rattle.std.specs.Prelude.{◌≡◌, ◌≤◌, ◌<◌, ◌-◌, ◌+◌, ◌*◌, ◌++◌, ℕ, List, [], ◌∷◌, true, nat_lt, option_map, Some, IsSome, IfSome, length, take, drop};
ghost use Rattle.std.specs.List.{AllByRecursion};
ghost use Rattle.std.specs.Simd.Lanes.{number_l};
ghost use Rattle.iloc_text.specs.Steps.Digits.{digits_first, number_by, IsMask, IsNumber};
ghost use Rattle.iloc_text.specs.Steps.Scan.{capped, digits_after, number_at};

use crate::line::scan::ABOVE_LIMIT;
use iloc_ops::MAX_NUMBER;

/// How many digits the longest number within the limit has.
const MOST_DIGITS: usize = 10;

/// The number that `digit` makes when it is appended to `value`, up to the limit.
#[cold]
#[inline(never)]
fn with_digit(value: u32, digit: u8) -> u32
    requires { (48 ≤ digit) × (digit ≤ 57) }
    ensures { result ≡ capped (value * 10 + (digit - 48)) }
{
    let wide = u64::from(value) * 10 + u64::from(digit - b'0');
    wide.min(u64::from(ABOVE_LIMIT)) as u32
}

/// The number that `value` becomes when the digits at the front are appended, and how many they are. Digits that can't lead
/// above the limit are appended without a test: with one `counts` takes 16 % more processor time on a number of 16 MB.
#[cold]
#[inline(never)]
fn with_digits(value: u32, bytes: &[u8]) -> (u32, usize)
    ensures found { digits_after value bytes.now ≡ (result.0, drop result.1 bytes.now) }
    ensures inside { result.1 ≤ length bytes.now }
{
    let mut value = value;
    let mut count = 0;
    while let Some(digit) = bytes.get(count)
        && digit.is_ascii_digit()
    {
        value = if value < MAX_NUMBER / 10 {
            value * 10 + u32::from(*digit - b'0')
        } else {
            with_digit(value, *digit)
        };
        count += 1;
    }
    (value, count)
}

/// A number, which counts as `ABOVE_LIMIT` if it is greater.
pub fn number_at(bytes: &[u8]) -> Option<(u32, &[u8])>
    ensures { option_map (λ found. (found.0, found.1.now)) result ≡ number_at bytes.now }
{
    match bytes {
        [first, ..] if first.is_ascii_digit() => {
            let (value, count) = with_digits(0, bytes);
            Some((value, &bytes[count..]))
        }
        _ => None,
    }
}

/// A number within the limit and how many digits it has, at most `MOST_DIGITS`; 0 if there is none, or one that is longer.
///
/// A pair comes in registers, and an `Option` of it doesn't: with that `run` executes 2 % more instructions.
#[cold]
#[inline(never)]
fn long_number_at(bytes: &[u8]) -> (u32, usize)
    ensures is { 0 < result.1 → number_at bytes.now ≡ Some (result.0, drop result.1 bytes.now) }
    ensures small { 0 < result.1 → nat_lt result.0 ABOVE_LIMIT ≡ true }
    ensures near { result.1 ≤ MOST_DIGITS }
{
    let front = &bytes[..bytes.len().min(MOST_DIGITS + 1)];
    let (value, count) = with_digits(0, front);
    if 0 < count && count <= MOST_DIGITS && value < ABOVE_LIMIT {
        (value, count)
    } else {
        (0, 0)
    }
}

/// How many of the lowest bytes are below 10 before one that isn't.
#[inline(always)]
fn count_digits(digits: u64) -> usize
    ensures is { (bytes : List ℕ) → AllByRecursion (λ d. d < 256) bytes → length bytes ≡ 8 → digits ≡ number_l 256 bytes
        → result ≡ digits_first bytes }
    ensures few { result ≤ 8 }
{
    // The highest bit of the first byte that is 10 or more. None of the bytes before it carries, and what those after it give
    // doesn't matter.
    let others = (digits.wrapping_add(0x7676_7676_7676_7676) | digits) & 0x8080_8080_8080_8080;
    (others.trailing_zeros() >> 3) as usize
}

/// The number of `count` digits, the lowest bytes of `digits`, the lowest first; some number where they are no digits.
#[inline(always)]
fn number_of(digits: u64, count: usize) -> u32
    requires { count ≤ 4 }
    ensures is { 1 ≤ count → (a b c d rest : ℕ) → AllByRecursion (λ x. x < 10) (take count (a ∷ b ∷ c ∷ d ∷ []))
        → AllByRecursion (λ x. x < 256) (a ∷ b ∷ c ∷ d ∷ []) → digits ≡ number_l 256 (a ∷ b ∷ c ∷ d ∷ rest ∷ [])
        → result ≡ number_by 0 (take count (a ∷ b ∷ c ∷ d ∷ [])) }
    ensures small { result < 100000 }
{
    let last = (digits & 0xffff_ffff) as u32;
    // Each of the four bytes, and ten times the one below it.
    let twos = last
        .wrapping_shl(32 - 8 * count as u32)
        .wrapping_mul(10 * 256 + 1);
    ((twos >> 8) & 0xff) * 100 + (twos >> 24)
}

/// A number of one digit to four, which are read at once, and how many they are: no more have most numbers. By a mask of 0
/// there are none.
#[inline(always)]
fn short_number_at(bytes: &[u8], mask: usize) -> Option<(u32, usize)>
    requires long { 8 ≤ length bytes.now }
    requires mask { IsMask mask }
    ensures is { IfSome result (λ found. IsNumber mask bytes.now (found.0, drop found.1 bytes.now)) }
    ensures some { mask ≡ 0 → IsSome result }
    ensures small { IfSome result (λ found. nat_lt found.0 ABOVE_LIMIT ≡ true) }
    ensures near { IfSome result (λ found. found.1 ≤ 4) }
{
    let front = u64::from_le_bytes([
        bytes[0], bytes[1], bytes[2], bytes[3], bytes[4], bytes[5], bytes[6], bytes[7],
    ]);
    let digits = front ^ 0x3030_3030_3030_3030;
    let count = count_digits(digits);
    if count.wrapping_sub(1) & mask > 3 {
        return None;
    }
    let counted = count & mask;
    Some((number_of(digits, counted), counted))
}

/// A number within the limit and of up to `MOST_DIGITS` digits, and how many these are. By a mask of 0 it is some number, of
/// none.
#[inline(always)]
pub fn fast_number_at(bytes: &[u8], mask: usize) -> Option<(u32, usize)>
    requires long { 8 ≤ length bytes.now }
    requires mask { IsMask mask }
    ensures is { IfSome result (λ found. IsNumber mask bytes.now (found.0, drop found.1 bytes.now)) }
    ensures small { IfSome result (λ found. nat_lt found.0 ABOVE_LIMIT ≡ true) }
    ensures near { IfSome result (λ found. found.1 ≤ MOST_DIGITS) }
{
    if let Some(found) = short_number_at(bytes, mask) {
        return Some(found);
    }
    let (value, count) = long_number_at(bytes);
    if count > 0 {
        Some((value, count))
    } else {
        None
    }
}

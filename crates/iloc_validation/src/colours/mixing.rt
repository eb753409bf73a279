//! Colours mixed of colours.
ghost use Rattle.std.specs.Prelude.{◌≡◌, ◌%◌, ◌^◌, slice_index, sum_by};
ghost use Rattle.iloc_validation.specs.Steps.Colours.{mixed, stirred, told, with_told};

use iloc_facts::Sources;

/// The colour of the start of a register, and of no operation but by chance.
pub(crate) const START: u64 = 1 << 63;

/// Half of a colour's bits.
const HALF: u64 = 1 << 32;

/// A number for each: a polynomial that goes one to one modulo 2⁶⁴, with its halves exchanged.
fn stirred(number: u64) -> u64
    ensures { result ≡ stirred number }
{
    let product = number.wrapping_mul(number.wrapping_mul(2).wrapping_add(1));
    product.wrapping_mul(HALF).wrapping_add(product / HALF)
}

/// The colour that is made of `one` and `other`, which can't be exchanged. It isn't linear, so a sum of colours tells
/// more than sums of their parts.
pub(crate) fn mix(one: u64, other: u64) -> u64
    ensures { result ≡ mixed one other }
{
    let sum = one
        .wrapping_mul(0x9E37_79B9_7F4A_7C15)
        .wrapping_add(other.wrapping_mul(0xD6E8_FEB8_6659_FD93));
    stirred(stirred(sum))
}

/// The colour of what is read; the start of a register has one of its own.
fn told(colours: &[u64], source: Option<usize>) -> u64
    ensures { result ≡ told (slice_index colours.now) source }
{
    match source {
        Some(j) => colours.get(j).copied().unwrap_or(0),
        None => START,
    }
}

/// `colour` mixed with the `colours` of its `sources`, left to right.
pub(crate) fn with_told(colour: u64, colours: &[u64], sources: Sources) -> u64
    ensures { result ≡ with_told (slice_index colours.now) colour sources }
{
    match sources {
        Sources::Nothing => colour,
        Sources::One(only) => mix(colour, told(colours, only)),
        Sources::Two(left, right) => { mix(mix(colour, told(colours, left)), told(colours, right)) }
    }
}

/// The sum of `colours`, each mixed once more, modulo 2⁶⁴.
pub(crate) fn total(colours: &[u64]) -> u64
    ensures { result ≡ sum_by (λ c. mixed c 1) colours.now % 2 ^ 64 }
{
    let mut total: u64 = 0;
    for colour in colours {
        total = total.wrapping_add(mix(*colour, 1));
    }
    total
}

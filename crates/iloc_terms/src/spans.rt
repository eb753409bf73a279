//! Between which addresses from each base a run does something.
ghost use Rattle.std.specs.Prelude.{◌≡◌, true, ℤ, pos, ◌+ℤ◌, IfSome};
ghost use Rattle.iloc_meaning.specs.Address.{is_good};
ghost use Rattle.iloc_meaning.specs.Arithmetic.{wrapped};

use crate::table::Table;
use crate::table::words::Parts;
use iloc_ops::NoMemory;
use std::alloc::Global;

/// How many bytes a memory has.
const BYTES: u32 = 65_536;

/// The numbers of the lowest and the highest address from a base.
#[derive(Clone, Copy)]
pub(crate) struct Span {
    pub(crate) low: u32,
    pub(crate) high: u32,
}

impl Span {
    /// The span, with one more address that is so far above the base.
    fn widened(self, table: &Table, address: u32, constant: i32) -> Span {
        Span {
            low: if constant < table.parts(self.low).constant {
                address
            } else {
                self.low
            },
            high: if constant > table.parts(self.high).constant {
                address
            } else {
                self.high
            },
        }
    }
}

/// The spans of `addresses`, by the numbers of their bases. They are hints: a caller tests whether they hold.
pub(crate) fn spans(
    alloc: Global,
    table: &Table,
    addresses: &[u32],
) -> Result<Vec<Option<Span>>, NoMemory> {
    let mut spans: Vec<Option<Span>> = vec![in alloc; None; table.len()]?;
    for address in addresses {
        let Parts {
            base: Some(base),
            constant,
        } = table.parts(*address)
        else {
            continue;
        };
        if let Some(span) = spans.get_mut(base as usize) {
            *span = Some(match *span {
                Some(span) => span.widened(table, *address, constant),
                None => Span {
                    low: *address,
                    high: *address,
                },
            });
        }
    }
    Ok(spans)
}

/// How far a constant is above another, if it is.
fn distance(low: i32, high: i32) -> Option<u32>
    ensures { IfSome result (λ n. high ≡ low +ℤ pos n) }
{
    if low <= high {
        Some(high.abs_diff(low))
    } else {
        None
    }
}

/// Whether what is so far above a base is good wherever what is so far below and what is so far above it are.
pub(crate) fn is_between(low: i32, constant: i32, high: i32) -> bool
    ensures { result ≡ true → (base : ℤ) → is_good (wrapped (base +ℤ low)) ≡ true
        → is_good (wrapped (base +ℤ high)) ≡ true → is_good (wrapped (base +ℤ constant)) ≡ true }
{
    let (Some(part), Some(whole)) = (distance(low, constant), distance(low, high)) else {
        return false;
    };
    part % 4 == 0 && part <= whole && whole < BYTES
}

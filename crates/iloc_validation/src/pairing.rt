//! Pairings of the operations of rows with those of a block.
ghost use Rattle.std.specs.Prelude.{◌≡◌, ◌<◌, ◌↔◌, ℕ, length, slice_index, option_map, IsTrue, IfOk};
ghost use Rattle.iloc_validation.specs.Steps.Pairing.{LeadsBack};

use crate::numbers::at;
use iloc_ops::NoMemory;
use std::alloc::Global;

/// Which operation of a block, `nop`s left out, each of the rows is, and the other way round.
#[derive(Debug, Drop)]
pub struct Pairing {
    /// By operation of the rows that of the block.
    pub origin: Vec<usize>,
    /// By operation of the block that of the rows.
    pub partner: Vec<usize>,
}

/// Whether each number leads to a place from which another list leads back.
pub(crate) fn leads_back(there: &[usize], back: &[usize]) -> bool
    ensures { IsTrue result ↔ LeadsBack there.now back.now }
{
    for (k, i) in there.iter().enumerate() {
        if *i >= back.len() || back[*i] != k {
            return false;
        }
    }
    true
}

/// The numbers below a count, in order.
fn numbers(alloc: Global, count: usize) -> Result<Vec<usize>, NoMemory>
    ensures size { IfOk result (λ numbers. length numbers.items ≡ count) }
    ensures each { IfOk result (λ numbers. (k : ℕ) → k < count → slice_index numbers.items k ≡ k) }
{
    let mut numbers = Vec::with_capacity(alloc, count)?;
    for k in 0..count {
        numbers.push(k)?;
    }
    Ok(numbers)
}

impl Pairing {
    /// Each operation is paired with the one of its number.
    pub(crate) fn in_order(alloc: Global, count: usize) -> Result<Pairing, NoMemory>
        ensures origins { IfOk result (λ it. length it.origin.items ≡ count) }
        ensures partners { IfOk result (λ it. length it.partner.items ≡ count) }
        ensures origin { IfOk result (λ it. (k : ℕ) → k < count → slice_index it.origin.items k ≡ k) }
        ensures partner { IfOk result (λ it. (i : ℕ) → i < count → slice_index it.partner.items i ≡ i) }
    {
        Ok(Pairing {
            origin: numbers(alloc, count)?,
            partner: numbers(alloc, count)?,
        })
    }

    /// The partner of an operation of the block, if there is an operation.
    pub(crate) fn partner_of(&self, i: Option<usize>) -> Option<usize>
        ensures { result ≡ option_map (slice_index self.now.partner.items) i }
    {
        match i {
            Some(i) => Some(at(&self.partner, i)),
            None => None,
        }
    }

    /// Whether it is one to one.
    pub(crate) fn is_one_to_one(&self) -> bool
        ensures { IsTrue result ↔ (LeadsBack self.now.origin.items self.now.partner.items
            × LeadsBack self.now.partner.items self.now.origin.items) }
    {
        leads_back(&self.origin, &self.partner) && leads_back(&self.partner, &self.origin)
    }
}

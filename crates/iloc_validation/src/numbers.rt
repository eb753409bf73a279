//! Numbers of operations by place, and what operations read by other numbers.
ghost use Rattle.std.specs.Prelude.{◌≡◌, ◌↔◌, IsTrue, slice_index};
ghost use Rattle.iloc_validation.specs.Steps.Sources.{by_numbers};

use iloc_facts::Sources;

/// In place of a number where there is none.
pub(crate) const NONE: usize = usize::MAX;

/// The number at a place, or 0 where there is none.
pub(crate) fn at(numbers: &[usize], place: usize) -> usize
    ensures { result ≡ slice_index numbers.now place }
{
    numbers.get(place).copied().unwrap_or(0)
}

/// Puts a number at a place, if there is one.
pub(crate) fn put(numbers: &mut Vec<usize>, place: usize, number: usize) {
    if place < numbers.len() {
        numbers[place] = number;
    }
}

/// They, at the places of two.
pub(crate) fn both(sources: Sources) -> [Option<usize>; 2] {
    match sources {
        Sources::Nothing => [None, None],
        Sources::One(only) => [only, None],
        Sources::Two(left, right) => [left, right],
    }
}

/// The same operations by other numbers.
pub(crate) fn by_numbers(sources: Sources, numbers: &[usize]) -> Sources
    ensures { result ≡ by_numbers (slice_index numbers.now) sources }
{
    match sources {
        Sources::Nothing => Sources::Nothing,
        Sources::One(only) => Sources::One(only.map(|i| at(numbers, i))),
        Sources::Two(left, right) => {
            Sources::Two(left.map(|i| at(numbers, i)), right.map(|i| at(numbers, i)))
        }
    }
}

/// Whether two operations read the same.
pub(crate) fn are_same(one: Sources, other: Sources) -> bool
    ensures { IsTrue result ↔ (one ≡ other) }
{
    one == other
}

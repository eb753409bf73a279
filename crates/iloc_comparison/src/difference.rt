//! Where two outcomes differ.
ghost use Rattle.std.specs.Prelude.{◌≡◌, MatchOption};
ghost use Rattle.iloc_comparison.specs.Difference.{IsDifference};
ghost use Rattle.iloc_terms.specs.Agreement.{AreAlike};
ghost use Rattle.iloc_comparison.specs.Steps.Difference.{IsOutput, IsWord};

use iloc_meaning::{Memory, Outcome};

/// Where an outcome differs from the one that was wanted: in an output, else in a word of memory, or one
/// of them is a fault.
#[derive(Clone, Copy, Debug, PartialEq, Eq)]
pub enum Difference {
    /// The first output that differs, from 0, with both words; `None` where there is none.
    Output {
        index: usize,
        got: Option<i32>,
        wanted: Option<i32>,
    },
    /// The lowest address whose words differ, with both.
    Word {
        address: u32,
        got: i32,
        wanted: i32,
    },
    /// It is a fault, and none was wanted.
    Fault,
    /// It isn't the fault that was wanted.
    NoFault,
}

/// The first output that differs.
fn first_output(got: &[i32], wanted: &[i32]) -> Option<Difference>
    ensures { MatchOption result (got.now ≡ wanted.now) (IsOutput got.now wanted.now) }
{
    for index in 0..got.len().max(wanted.len()) {
        let one = got.get(index).copied();
        let other = wanted.get(index).copied();
        if one != other {
            return Some(Difference::Output {
                index,
                got: one,
                wanted: other,
            });
        }
    }
    None
}

/// The lowest word that differs.
fn lowest_word(got: &Memory, wanted: &Memory) -> Option<Difference>
    ensures { MatchOption result (got.now ≡ wanted.now) (IsWord got.now wanted.now) }
{
    let count = got.word_count();
    prove_eq!(wanted.word_count(), count);
    for number in 0..count {
        let address = 4 * number as u32;
        let one = got.get(address);
        let other = wanted.get(address);
        if one != other {
            return Some(Difference::Word {
                address,
                got: one,
                wanted: other,
            });
        }
    }
    None
}

/// Where an outcome differs from the one that was wanted: in more than a word of memory, where outputs alone are compared.
pub(crate) fn first_difference(
    outputs_alone: bool,
    got: &Outcome,
    wanted: &Outcome,
) -> Option<Difference>
    ensures { MatchOption result (AreAlike outputs_alone got.now wanted.now)
        (IsDifference outputs_alone got.now wanted.now) }
{
    match (got, wanted) {
        (Outcome::Fault, Outcome::Fault) => None,
        (Outcome::Fault, Outcome::Finished { .. }) => Some(Difference::Fault),
        (Outcome::Finished { .. }, Outcome::Fault) => Some(Difference::NoFault),
        (
            Outcome::Finished { outputs, memory },
            Outcome::Finished {
                outputs: wanted_outputs,
                memory: wanted_memory,
            },
        ) => match first_output(outputs.as_slice(), wanted_outputs.as_slice()) {
            Some(difference) => Some(difference),
            None if outputs_alone => None,
            None => lowest_word(memory, wanted_memory),
        },
    }
}

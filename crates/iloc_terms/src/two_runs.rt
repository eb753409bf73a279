//! Whether two schedules do the same on every memory.
ghost use Rattle.std.specs.Prelude.{◌≡◌, true, length, List, ℤ, IfOk};
ghost use Rattle.iloc_timed.specs.Timed.{issued_before};
ghost use Rattle.iloc_terms.specs.Agreement.{IsAgreement};
ghost use Rattle.iloc_terms.specs.Steps.Agreement.{SeenSame};
ghost use Rattle.iloc_terms.specs.Steps.Terms.{Meaning, IsMeaning};
ghost use Rattle.iloc_terms.specs.Steps.Tracking.{Ends};

use crate::agreement::agree;
use crate::mentions::Mentions;
use crate::symbols::Symbols;
use crate::table::{STEPS_OF_A_TERM, Table};
use iloc_ops::NoMemory;
use iloc_timed::{Latencies, Schedule};
use std::alloc::Global;

/// How many steps terms may take to be put in order, for each term of the plain runs: four such terms cost as much.
const STEPS_PER_TERM: usize = 4 * STEPS_OF_A_TERM;

/// How many more they may take for each pair of schedules.
const FIRST_STEPS: usize = 4096 * STEPS_OF_A_TERM;

/// How many more they may take for all pairs of a request together, each as many as the others: some 0.2 s, and 40 MB if
/// there is one pair.
const SHARED_STEPS: usize = 1_048_576 * STEPS_OF_A_TERM;

/// What is seen of two schedules by their runs in terms.
#[derive(Debug, Drop)]
pub enum Agreement {
    /// On every memory of 16,384 words of 32 bits they have the same outcome.
    Same,
    /// On every such memory they show the same. This is said where outputs alone are compared.
    Prints,
    /// Neither is seen. This is what the runs mention.
    Unseen(Mentions),
}

/// The ends of two runs in terms, with the table of the terms.
#[derive(Drop)]
struct TwoRuns {
    table: Table,
    one: Symbols,
    other: Symbols,
}

impl TwoRuns {
    /// The runs of the schedules `one` and `other`; normalising their terms may take `steps` steps.
    fn of(
        alloc: Global,
        steps: usize,
        one: &Schedule,
        other: &Schedule,
        latencies: &Latencies,
    ) -> Result<TwoRuns, NoMemory>
        ensures { IfOk result (λ runs. (memory : List ℤ) (d : Meaning) → IsMeaning memory runs.table d
            → Ends memory d (issued_before latencies.now memory one.now.ops one.now.rows (length one.now.rows)) runs.one
            × Ends memory d (issued_before latencies.now memory other.now.ops other.now.rows (length other.now.rows))
            runs.other) }
    {
        let mut table = Table::new(alloc, steps);
        let one = Symbols::of(alloc, &mut table, one, latencies)?;
        let other = Symbols::of(alloc, &mut table, other, latencies)?;
        Ok(TwoRuns { table, one, other })
    }

    /// Whether the two ends are seen to agree, whatever their terms mean: in all, or in outputs and faults alone.
    fn agree(&self, alloc: Global, outputs_alone: bool) -> Result<bool, NoMemory>
        ensures { IfOk result (λ yes. yes ≡ true → SeenSame outputs_alone self.now.table self.now.one self.now.other) }
    {
        Ok(
            self.table.is_ordered()
                && agree(alloc, outputs_alone, &self.table, &self.one, &self.other)?,
        )
    }

    /// What the two runs mention.
    fn mentions(&self, alloc: Global) -> Result<Mentions, NoMemory> {
        Mentions::of(
            alloc,
            &self.table,
            &self.one.addresses,
            &self.other.addresses,
        )
    }
}

/// What is seen of the schedules `one` and `other` by runs that may take `steps` steps to normalise terms; and how many
/// terms they have.
fn seen(
    alloc: Global,
    steps: usize,
    outputs_alone: bool,
    one: &Schedule,
    other: &Schedule,
    latencies: &Latencies,
) -> Result<(Agreement, usize), NoMemory>
    ensures { IfOk result (λ seen. IsAgreement outputs_alone latencies.now one.now other.now seen.0) }
{
    let runs = TwoRuns::of(alloc, steps, one, other, latencies)?;
    let terms = runs.table.len();
    if runs.agree(alloc, false)? {
        return Ok((Agreement::Same, terms));
    }
    if outputs_alone && runs.agree(alloc, true)? {
        return Ok((Agreement::Prints, terms));
    }
    Ok((Agreement::Unseen(runs.mentions(alloc)?), terms))
}

/// Compares the schedules `one` and `other`, one of `pairs` pairs, by their runs in terms: by outcomes, or with
/// `outputs_alone` by outputs. The first terms stay as they are made; second ones are normalised, which costs more, and may
/// run out of steps, the sooner the more pairs there are.
///
/// Promise: Schedules that are found to agree do so on every memory.
pub fn compare(
    alloc: Global,
    pairs: usize,
    outputs_alone: bool,
    one: &Schedule,
    other: &Schedule,
    latencies: &Latencies,
) -> Result<Agreement, NoMemory>
    ensures { IfOk result (IsAgreement outputs_alone latencies.now one.now other.now) }
{
    let (plain, terms) = seen(alloc, 0, outputs_alone, one, other, latencies)?;
    if let Agreement::Same = plain {
        return Ok(Agreement::Same);
    }
    let steps = terms
        .saturating_mul(STEPS_PER_TERM)
        .saturating_add(FIRST_STEPS)
        .saturating_add(SHARED_STEPS / pairs.max(1));
    let (ordered, _) = seen(alloc, steps, outputs_alone, one, other, latencies)?;
    match ordered {
        Agreement::Same => Ok(Agreement::Same),
        Agreement::Prints => Ok(Agreement::Prints),
        Agreement::Unseen(_) => Ok(plain),
    }
}

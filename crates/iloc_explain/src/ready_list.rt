//! What is ready, cycle by cycle.
ghost use Rattle.std.specs.Prelude.{ℕ, ◌≡◌, ◌<◌, ◌+◌, List, length, map, take, slice_get, not, find, IfNone, IfOk, IfSome, OnOk};
ghost use Rattle.std.specs.BTreeSet.{IsOrdered};
ghost use Rattle.iloc_timed.specs.Rows.{holds};
ghost use Rattle.iloc_explain.specs.declared.explanation.Explained.{Explained as explained_value};
ghost use Rattle.iloc_explain.specs.Steps.CycleParts.{next_by};
ghost use Rattle.iloc_explain.specs.Steps.Queue.{IsKept, IsReadyList, number, shown, IsRowAt, AreLater, IsInOrder, IsReleased, place_at, place_cmp, without};

use crate::explanation::Explained;
use iloc_ops::NoMemory;
use iloc_timed::Row;
use std::alloc::Global;
use std::cmp::Reverse;
use std::collections::BTreeSet;

/// How many of the ready operations are listed for a cycle.
pub(crate) const MOST_LISTED: usize = 16;

/// The place of an operation in the order of choice: by falling priority, then by number.
type Place = (Reverse<u64>, usize);

/// What is ready at a cycle, and what becomes ready later.
#[derive(Drop)]
pub(crate) struct ReadyList {
    /// What is ready and not issued yet.
    ready: BTreeSet<Place>,
    /// What isn't ready yet, each after the cycle at which it is.
    coming: BTreeSet<(usize, Place)>,
}

/// Whether a row holds operation i.
fn holds(row: Row, i: usize) -> bool
    ensures { result ≡ holds row i }
{
    row.zero == Some(i) || row.one == Some(i)
}

/// The place of operation j.
fn place(explained: &[Explained], j: usize) -> Place
    requires { j < length explained.now }
    ensures { IfSome (slice_get explained.now j) (λ own. result ≡ place_at own j) }
{
    (Reverse(explained[j].priority), j)
}

/// Takes out what is in a slot.
fn drop_slot(ready: &mut BTreeSet<Place>, explained: &[Explained], slot: Option<usize>)
    requires { IfSome slot (λ i. i < length explained.now) }
    ensures order { IsOrdered place_cmp ready.old }
    ensures keys { ready.new.keys ≡ without explained.now slot ready.old.keys }
{
    // Whose keys are in order.
    let _count = ready.len();
    if let Some(i) = slot {
        ready.remove(&place(explained, i));
    }
}

impl ReadyList {
    /// Before cycle 0. What is issued before it is ready, as in rows that aren't lawful, is left out.
    pub(crate) fn new(alloc: Global, explained: &[Explained]) -> Result<ReadyList, NoMemory>
        ensures { IfOk result (IsKept explained.now 0) }
    {
        let mut coming = BTreeSet::new(alloc);
        for (j, own) in explained.iter().enumerate() {
            if own.ready <= own.cycle {
                coming.insert((own.ready, place(explained, j)))?;
            }
        }
        Ok(ReadyList {
            ready: BTreeSet::new(alloc),
            coming,
        })
    }

    /// The next of what is coming, if it is ready by this cycle.
    fn released(&mut self, cycle: usize) -> Option<Place>
        ensures ready { self.new.ready ≡ self.old.ready }
        ensures popped { IfSome result (λ p. IsReleased cycle p self.old.coming.keys self.new.coming.keys) }
        ensures none { IfNone result (AreLater cycle self.old.coming.keys × (self.new.coming ≡ self.old.coming)) }
    {
        // Whose keys are in order.
        let _count = self.coming.len();
        let (ready, _) = self.coming.first()?;
        if *ready > cycle {
            return None;
        }
        let (_, place) = self.coming.pop_first()?;
        Some(place)
    }

    /// Takes in what becomes ready at this cycle.
    pub(crate) fn release(&mut self, cycle: usize) -> Result<(), NoMemory>
        ensures { OnOk result ((es : List explained_value) → IsKept es cycle self.old → IsReadyList es cycle self.new) }
    {
        while let Some(place) = self.released(cycle) {
            self.ready.insert(place)?;
        }
        Ok(())
    }

    /// Takes out what a row issues.
    pub(crate) fn issue(&mut self, explained: &[Explained], row: Row)
        requires zero { IfSome row.zero (λ i. i < length explained.now) }
        requires one { IfSome row.one (λ i. i < length explained.now) }
        ensures { (c : ℕ) → IsReadyList explained.now c self.old → IsRowAt explained.now row c
            → IsKept explained.now (c + 1) self.new }
    {
        drop_slot(&mut self.ready, explained, row.zero);
        drop_slot(&mut self.ready, explained, row.one);
    }

    /// How many operations are ready.
    pub(crate) fn len(&self) -> usize
        ensures count { result ≡ length self.now.ready.keys }
        ensures order { IsInOrder self.now }
    {
        // The keys of both sets are in order.
        let _coming = self.coming.len();
        self.ready.len()
    }

    /// The first operations that are ready, by rank, at most `MOST_LISTED`, each with its priority.
    pub(crate) fn first_ranked(&self, alloc: Global) -> Result<Vec<(usize, u64)>, NoMemory>
        ensures { IfOk result (λ first. first.items ≡ take MOST_LISTED (map shown self.now.ready.keys)) }
    {
        let mut first = Vec::new(alloc);
        for place in &self.ready {
            if first.len() == MOST_LISTED {
                break;
            }
            first.push((place.1, place.0.0))?;
        }
        Ok(first)
    }

    /// The first that is ready and that a row doesn't hold.
    pub(crate) fn left_out(&self, row: Row) -> Option<usize>
        ensures { result ≡ find (λ j. not (holds row j)) (map number self.now.ready.keys) }
    {
        for place in &self.ready {
            if !holds(row, place.1) {
                return Some(place.1);
            }
        }
        None
    }

    /// What becomes ready next, after the cycle at which it does.
    pub(crate) fn next(&self) -> Option<(usize, usize)>
        ensures { result ≡ next_by self.now }
    {
        let (cycle, place) = self.coming.first()?;
        Some((*cycle, place.1))
    }
}

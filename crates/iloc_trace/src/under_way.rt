//! Results on their way to where they are written.
ghost use Rattle.std.specs.Prelude.{◌≡◌, ◌++◌, ◌∷◌, [], fold, All, OnOk, None};
ghost use Rattle.iloc_trace.specs.Events as defined;
ghost use Rattle.iloc_trace.specs.Steps.Arrivals.{CanArrive, due_later, first_for};

use crate::event::Place;
use iloc_ops::NoMemory;
use std::alloc::Global;
use std::marker::Model;

/// A result on its way.
#[derive(Clone, Copy, PartialEq, Eq)]
pub(crate) struct Arrival {
    /// Where it goes: a register, or the word at a good address.
    pub(crate) place: Place,
    /// The result.
    pub(crate) value: i32,
    /// The cycle at whose start it is written.
    pub(crate) due: u64,
    /// The cycle in which its operation was issued.
    pub(crate) issued: u64,
}

/// The earlier of two cycles, if there are any.
fn sooner(due: u64, first: Option<u64>) -> u64
    ensures { result ≡ defined.sooner due first }
{
    match first {
        Some(other) => due.min(other),
        None => due,
    }
}

/// When the first result for a place is due, if this one is looked at too.
pub(crate) fn first_for(place: Place, first: Option<u64>, arrival: Arrival) -> Option<u64>
    ensures { result ≡ first_for place first arrival }
{
    if place.is_same(arrival.place) {
        Some(sooner(arrival.due, first))
    } else {
        first
    }
}

/// The results under way, in order of issue: at most two for each cycle that a latency may have.
#[derive(Drop)]
pub(crate) struct UnderWay {
    arrivals: Vec<Arrival>,
}

impl Model for UnderWay {
    ghost use Rattle.std.specs.Prelude.{List};
    ghost use Rattle.std.specs.List.{All};
    ghost use Rattle.iloc_trace.specs.declared.under_way.Arrival.{Arrival as arrival};
    ghost use Rattle.iloc_trace.specs.Steps.Arrivals.{CanArrive};

    ghost Value = { List arrival };

    ghost view = { λ it. it.arrivals.items };

    ghost invariant = { λ it. All CanArrive it.arrivals.items };
}

impl UnderWay {
    /// Nothing is under way.
    pub(crate) fn new(alloc: Global) -> UnderWay
        ensures { result ≡ [] }
    {
        UnderWay {
            arrivals: Vec::new(alloc),
        }
    }

    /// All of it, in order of issue.
    pub(crate) fn as_slice(&self) -> &[Arrival]
        ensures arrivals { result.now ≡ self.now }
        ensures can_arrive { All CanArrive result.now }
    {
        self.arrivals.as_slice()
    }

    /// Adds a result that was issued last.
    pub(crate) fn push(&mut self, arrival: Arrival) -> Result<(), NoMemory>
        requires { CanArrive arrival }
        ensures { OnOk result (self.new ≡ self.old ++ arrival ∷ []) }
    {
        Ok(self.arrivals.push(arrival)?)
    }

    /// Removes what is due by a cycle.
    pub(crate) fn remove_due(&mut self, cycle: u64)
        ensures { self.new ≡ due_later cycle self.old }
    {
        self.arrivals.retain(|arrival| cycle < arrival.due);
    }

    /// Removes everything.
    pub(crate) fn clear(&mut self)
        ensures { self.new ≡ [] }
    {
        self.arrivals.clear();
    }

    /// When the first result for a place is due.
    pub(crate) fn next_due(&self, place: Place) -> Option<u64>
        ensures { result ≡ fold (first_for place) None self.now }
    {
        let mut first = None;
        for arrival in &self.arrivals {
            first = first_for(place, first, *arrival);
        }
        first
    }
}

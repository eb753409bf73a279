//! Classes of operations, by which of them the units let be issued together.
ghost use Rattle.std.specs.Prelude.{◌≡◌, ◌<◌};

use iloc_timed::Kind;

/// A class of operations. Of a class that isn't the rest at most one is issued in a cycle.
#[derive(Clone, Copy)]
pub enum Class {
    /// Loads and stores, which need unit 0.
    Memory,
    /// Products, which need unit 1.
    Product,
    /// Outputs.
    Output,
    /// What can go on either unit beside any other.
    Rest,
}

impl Class {
    ghost use Rattle.iloc_sched.specs.Steps.Cycle.Classes.{class_of, excludes, place_of};

    /// The class of a kind of operations.
    pub fn of(kind: Kind) -> Class
        ensures { result ≡ class_of kind }
    {
        match kind {
            Kind::Load | Kind::Store => Class::Memory,
            Kind::Mult => Class::Product,
            Kind::Output => Class::Output,
            Kind::Other => Class::Rest,
        }
    }

    /// Whether at most one operation of this class is issued in a cycle.
    #[inline(always)]
    pub fn is_limited(self) -> bool
        ensures { result ≡ excludes self self }
    {
        match self {
            Class::Memory | Class::Product | Class::Output => true,
            Class::Rest => false,
        }
    }

    /// The place of the class among all.
    #[inline(always)]
    pub fn place(self) -> usize
        ensures place { result ≡ place_of self }
        ensures bound { result < 4 }
    {
        match self {
            Class::Memory => 0,
            Class::Product => 1,
            Class::Output => 2,
            Class::Rest => 3,
        }
    }
}

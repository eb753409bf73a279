//! What happens on the timed machine.
ghost use Rattle.std.specs.Prelude.{◌≡◌};

use iloc_ops::Reg;

/// A register, or the word at an address.
#[derive(Clone, Copy, PartialEq, Eq)]
pub(crate) enum Place {
    /// This register.
    Register(Reg),
    /// The word at this good address.
    Word(u32),
}

impl Place {
    ghost use Rattle.iloc_trace.specs.Places.{is_same};

    /// Whether it is the same place.
    pub(crate) fn is_same(self, other: Place) -> bool
        ensures { result ≡ is_same self other }
    {
        match (self, other) {
            (Place::Register(register), Place::Register(second)) => register.0 == second.0,
            (Place::Word(address), Place::Word(second)) => address == second,
            _ => false,
        }
    }
}

impl Default for Place {
    fn default() -> Place {
        Place::Register(Reg(0))
    }
}

/// What was read, and the cycle at which the next result for it is due, if one is under way.
#[derive(Clone, Copy, Default, PartialEq, Eq)]
pub(crate) struct Read {
    /// What was read.
    pub place: Place,
    /// What was there.
    pub value: i32,
    /// When the next result for it is due.
    pub until: Option<u64>,
}

/// A result arrives.
#[derive(Clone, Copy, PartialEq, Eq)]
pub(crate) struct Write {
    /// When.
    pub cycle: u64,
    /// Where.
    pub place: Place,
    /// The result.
    pub value: i32,
    /// What was there before.
    pub was: i32,
    /// The cycle in which its operation was issued.
    pub issued: u64,
}

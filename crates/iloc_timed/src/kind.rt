//! The kinds of operations that the machine tells apart.
ghost use Rattle.std.specs.Prelude.{◌≡◌};
ghost use Rattle.iloc_timed.specs.Kinds.{kind};

use iloc_ops::Op;

/// What an operation is to the units and to the memory.
#[derive(Clone, Copy, Debug, PartialEq, Eq)]
pub enum Kind {
    /// `load` and `loadAI`.
    Load,
    /// `store` and `storeAI`.
    Store,
    /// `mult` and `multI`.
    Mult,
    /// `output`.
    Output,
    /// Every other, `nop` among them.
    Other,
}

impl Kind {
    ghost use Rattle.iloc_timed.specs.Units.{needs_zero, needs_one, stands_alone};

    /// Promise: the kind of an operation.
    pub fn of(op: &Op) -> Kind
        ensures { result ≡ kind op.now }
    {
        match op {
            Op::Load { .. } | Op::LoadAI { .. } => Kind::Load,
            Op::Store { .. } | Op::StoreAI { .. } => Kind::Store,
            Op::Mult { .. } | Op::MultI { .. } => Kind::Mult,
            Op::Output { .. } => Kind::Output,
            _ => Kind::Other,
        }
    }

    /// Promise: whether operations of this kind run on unit 0 only.
    pub fn needs_zero(self) -> bool
        ensures { result ≡ needs_zero self }
    {
        matches!(self, Kind::Load | Kind::Store)
    }

    /// Promise: whether operations of this kind run on unit 1 only.
    pub fn needs_one(self) -> bool
        ensures { result ≡ needs_one self }
    {
        self == Kind::Mult
    }

    /// Promise: whether a row has at most one operation of this kind, on whichever unit.
    pub fn stands_alone(self) -> bool
        ensures { result ≡ stands_alone self }
    {
        self == Kind::Output
    }
}

//! Operations that share slots.
ghost use Rattle.std.specs.Prelude.{◌≡◌};
ghost use Rattle.iloc_bound.specs.Shares.{shares, width};

use iloc_timed::Kind;

/// Operations that share slots.
#[derive(Clone, Copy, Debug, PartialEq, Eq)]
pub enum Share {
    /// Loads and stores, one in a row.
    Memory,
    /// Products, one in a row.
    Products,
    /// Outputs, one in a row.
    Outputs,
    /// All operations, two in a row.
    All,
}

impl Share {
    /// Promise: whether operations of this kind belong to it.
    pub fn has(self, kind: Kind) -> bool
        ensures { result ≡ shares self kind }
    {
        match self {
            Share::Memory => matches!(kind, Kind::Load | Kind::Store),
            Share::Products => kind == Kind::Mult,
            Share::Outputs => kind == Kind::Output,
            Share::All => true,
        }
    }

    /// Promise: how many of its operations a row can hold.
    pub fn width(self) -> u32
        ensures { result ≡ width self }
    {
        match self {
            Share::Memory | Share::Products | Share::Outputs => 1,
            Share::All => 2,
        }
    }
}

//! Terms on their way to where they are written.

use iloc_ops::Reg;
use iloc_timed::Lands;

/// A term on its way.
#[derive(Clone, Copy)]
pub(crate) enum Sent {
    /// To a register.
    Register { register: Reg, value: u32 },
    /// To the word at the address that a term says.
    Word { address: u32, value: u32 },
}

impl Lands for Sent {
    ghost can_land = { λ _. Unit {0} };
}

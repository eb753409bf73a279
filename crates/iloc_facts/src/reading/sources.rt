//! What operations read.

/// The operations whose results an operation reads in its registers, left to right; `None` for a register as it was at
/// the start.
#[derive(Clone, Copy, Debug, PartialEq, Eq)]
pub enum Sources {
    /// It has no register to read.
    Nothing,
    /// It has one.
    One(Option<usize>),
    /// It has two.
    Two(Option<usize>, Option<usize>),
}

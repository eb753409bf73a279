//! Verdicts by the word that is listed.
ghost use Rattle.std.specs.Prelude.{◌≡◌};
ghost use Rattle.iloc_verdict.specs.Entry.Listing as listed;

/// What is found of rows, by the word that is listed.
#[derive(Clone, Copy, Debug, PartialEq, Eq)]
pub enum VerdictKind {
    /// One can't be read.
    Unread,
    /// One breaks the rules of the units.
    Units,
    /// They are a schedule of the block by the book.
    Lawful,
    /// It is asked whether they are, and isn't decided.
    Undecided,
    /// The block's outcome on the memory handed in says nothing.
    Void,
    /// On every memory of 16,384 words of 32 bits they have the block's outcome.
    Same,
    /// On every such memory they fault where the block does, and else emit its words.
    Prints,
    /// On some memory they don't have its outcome or, where outputs alone are compared, don't show what it shows.
    Differs,
    /// On the memory handed in they do.
    Agrees,
}

impl VerdictKind {
    /// Promise: the word that is listed.
    pub fn word(self) -> &'static str
        ensures { result.now ≡ listed.kind_word self }
    {
        match self {
            VerdictKind::Unread => "unread",
            VerdictKind::Units => "units",
            VerdictKind::Lawful => "lawful",
            VerdictKind::Undecided => "undecided",
            VerdictKind::Void => "void",
            VerdictKind::Same => "same",
            VerdictKind::Prints => "prints",
            VerdictKind::Differs => "differs",
            VerdictKind::Agrees => "agrees",
        }
    }
}

//! Flags: options without a value.
ghost use Rattle.std.specs.Prelude.{◌≡◌};
ghost use Rattle.clap.specs.Words.{found_of, rows_of};
ghost use Rattle.iloc_args.specs.Asked.{flag_in};
ghost use Rattle.iloc_args.specs.Flags.{flag_word, has};

use clap::ArgMatches;

/// An option without a value: it is given or not.
#[derive(Clone, Copy)]
pub enum Flag {
    /// The listing is a table of comma-separated values.
    Csv,
    /// The listing has a value of JSON for each block, on a line of its own; never beside `Csv`.
    Json,
    /// Nothing passes but rows that are a schedule of their block.
    Lawful,
    /// Nothing passes that leaves operations of its block out or adds some, up to registers.
    Operations,
    /// Rows are compared with their block by what is emitted alone, whatever they leave in memory.
    Outputs,
    /// A row that breaks the rules of the units, and keeps them with its operations exchanged, is read so.
    EitherSlot,
    /// It is listed where a block faults.
    Where,
    /// A schedule is explained cycle by cycle.
    Cycles,
    /// Blocks are scheduled by address: loads and outputs don't wait for stores that are known to go elsewhere.
    Disambiguate,
}

/// How many flags there are.
const FLAG_COUNT: usize = 9;

/// The flags, in their order.
const FLAGS: [Flag; FLAG_COUNT] = [
    Flag::Csv,
    Flag::Json,
    Flag::Lawful,
    Flag::Operations,
    Flag::Outputs,
    Flag::EitherSlot,
    Flag::Where,
    Flag::Cycles,
    Flag::Disambiguate,
];

impl Flag {
    /// The word that gives it.
    pub(crate) fn word(self) -> &'static str
        ensures { result.now ≡ flag_word self }
    {
        match self {
            Flag::Csv => "csv",
            Flag::Json => "json",
            Flag::Lawful => "lawful",
            Flag::Operations => "operations",
            Flag::Outputs => "outputs",
            Flag::EitherSlot => "either-slot",
            Flag::Where => "where",
            Flag::Cycles => "cycles",
            Flag::Disambiguate => "disambiguate",
        }
    }

    /// What the help says of it.
    pub(crate) fn help(self) -> &'static str {
        match self {
            Flag::Csv => "Print a table of comma-separated values, a row for each block",
            Flag::Json => "Print a line of JSON for each block",
            Flag::Lawful => "Pass only lawful schedules",
            Flag::Operations => "Fail schedules that leave out or add operations",
            Flag::Outputs => "Compare only emitted words and faults, not memory",
            Flag::EitherSlot => "Accept rows whose operations fit only when swapped",
            Flag::Where => "Print which operation faults, and the address that it reaches",
            Flag::Cycles =>
                "Print for each cycle what is ready, what is taken, and what is under way",
            Flag::Disambiguate =>
                "Compare addresses: loads and outputs pass stores that go elsewhere",
        }
    }
}

/// The flags that are given.
#[derive(Clone, Copy, Debug, PartialEq, Eq)]
pub struct Flags {
    /// Whether each is, in their order.
    given: [bool; FLAG_COUNT],
}

impl Flags {
    /// Promise: whether a flag is given.
    #[tactic(auto, unfolding(crate::specs::Flags::has))]
    pub fn has(self, flag: Flag) -> bool
        ensures { result ≡ has self flag }
    {
        self.given[flag as usize]
    }
}

/// Whether a flag is given.
///
/// Where its text is neither `true` nor `false`, `get_flag` promises nothing.
fn is_given(given: &ArgMatches<'_>, flag: Flag) -> bool
    ensures { result ≡ flag_in (rows_of (found_of given.now)) flag }
{
    given
        .get_str(flag.word())
        .is_some_and(|text| text == "true")
}

/// Which flags are given.
pub(crate) fn flags_in(given: &ArgMatches<'_>) -> Flags
    ensures { has result ≡ flag_in (rows_of (found_of given.now)) }
{
    Flags {
        given: FLAGS.map(|flag| is_given(given, flag)),
    }
}

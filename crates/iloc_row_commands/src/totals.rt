//! What was found of several proposals together.
ghost use Rattle.std.specs.Prelude.{◌≡◌, ◌≤◌, ◌++◌, length, OnOk};
ghost use Rattle.std.specs.List.{All};
ghost use Rattle.iloc_ops.specs.Limits.{MAX_BLOCKS};
ghost use Rattle.iloc_row_commands.specs.Check as said;
ghost use Rattle.iloc_row_commands.specs.Check.{IsSmall};
ghost use Rattle.iloc_row_commands.specs.Steps.Checking.{sought_text, totals_of, totals_text};

use Piece::{Number, Text};
use iloc_ops::NoMemory;
use iloc_pieces::{Piece, push_all};
use iloc_verdict::Checked;

/// What was found of the proposals for some blocks.
#[derive(Clone, Copy)]
pub(crate) struct Totals {
    /// The cycles of the proposals together.
    pub cycles: u64,
    /// The cycles of our schedules together.
    pub ours: u64,
    /// Those of the best schedules together that a search finds.
    pub best: u64,
    /// The bounds together that it proves.
    pub bound: u64,
    /// The least cycles together.
    pub least: u64,
}

/// The cycles of the best schedule that a search finds, if there is one.
fn best_of(checked: &Checked) -> u32
    ensures { result ≡ said.best_of checked.now }
{
    match &checked.sought {
        Some(sought) => sought.best,
        None => 0,
    }
}

/// The bound that it proves.
fn bound_of(checked: &Checked) -> u32
    ensures { result ≡ said.bound_of checked.now }
{
    match &checked.sought {
        Some(sought) => sought.bound,
        None => 0,
    }
}

impl Totals {
    /// The totals of `found`, what was found of each proposal.
    pub(crate) fn of(found: &[Checked]) -> Totals
        requires few { length found.now ≤ MAX_BLOCKS }
        requires small { All IsSmall found.now }
        ensures { result ≡ totals_of found.now }
    {
        let mut totals = Totals {
            cycles: 0,
            ours: 0,
            best: 0,
            bound: 0,
            least: 0,
        };
        for checked in found {
            totals.cycles += checked.cycles;
            totals.ours += checked.ours;
            totals.best += u64::from(best_of(checked));
            totals.bound += u64::from(bound_of(checked));
            totals.least += checked.least;
        }
        totals
    }

    /// Appends ` best C bound B`, where a search has nodes.
    fn push_sought(self, text: &mut Vec<u8>, nodes: Option<u32>) -> Result<(), NoMemory>
        ensures { OnOk result (text.new.items ≡ text.old.items ++ sought_text nodes self) }
    {
        if nodes.is_none() {
            return Ok(());
        }
        let (best, bound) = (Number(self.best), Number(self.bound));
        push_all(text, &[Text(" best "), best, Text(" bound "), bound])
    }

    /// Appends `total C ours O least L`, with what was sought before the least.
    pub(crate) fn push_line(self, text: &mut Vec<u8>, nodes: Option<u32>) -> Result<(), NoMemory>
        ensures { OnOk result (text.new.items ≡ text.old.items ++ totals_text nodes self) }
    {
        let (cycles, ours) = (Number(self.cycles), Number(self.ours));
        push_all(text, &[Text("total "), cycles, Text(" ours "), ours])?;
        self.push_sought(text, nodes)?;
        push_all(text, &[Text(" least "), Number(self.least), Text("\n")])
    }
}

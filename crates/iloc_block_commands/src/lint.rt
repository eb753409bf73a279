//! `lint`: what is wrong with a text.
ghost use Rattle.std.specs.Prelude.{IfErr, IfOk};
ghost use Rattle.iloc_block_commands.specs.Lint.{ListsLinted};
ghost use Rattle.iloc_driver.specs.Run.{Lists};
ghost use Rattle.iloc_driver.specs.Run.Causes.{IsCaused, of_reading};

use iloc_driver::{Finding, Listed, RunFault};
use iloc_lint::report_of;
use iloc_listing::Listing;
use iloc_text::read_text_from;
use std::alloc::Global;
use std::io::Read;

/// Every fault of what the reader gives. A text that is refused is what this command is for, and no fault of it.
pub fn linted<R: Read>(alloc: Global, reader: &mut R) -> Result<Listed, RunFault>
    ensures ok { IfOk result (λ listed.
        Lists ListsLinted (R.remaining reader.old) (R.remaining reader.new) listed.finding listed.text) }
    ensures err { IfErr result (IsCaused of_reading) }
{
    let input = read_text_from(alloc, reader)?;
    let report = report_of(alloc, &input)?;
    Ok(Listed {
        text: Listing::of_text(alloc, report.text),
        finding: Finding::of_text(report.reads),
    })
}

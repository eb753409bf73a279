//! What a command lists of the rows that others proposed for blocks.
ghost use Rattle.std.specs.Prelude.{◌≡◌, ◌≢◌, ℕ, ◌≤◌, ◌++◌, Bool, List, length, ℤ, IfErr, IfOk, OnOk};
ghost use Rattle.std.specs.List.{All, list_all};
ghost use Rattle.iloc_ops.specs.Limits.{MAX_BLOCKS};
ghost use Rattle.iloc_ops.specs.declared.file.Block.{Block as block_value};
ghost use Rattle.iloc_text.specs.declared.fault.ReadFault.TheVariants.{NoMemory as no_memory};
ghost use Rattle.iloc_rows.specs.Laws.{AreWithinLimits};
ghost use Rattle.iloc_rows.specs.Submissions as submissions;
ghost use Rattle.iloc_rows.specs.declared.fault.RowsFault.TheVariants.{Read as read};
ghost use Rattle.iloc_rows.specs.declared.proposal.Proposed.{Proposed};
ghost use Rattle.iloc_args.specs.declared.request.Request.{Request as request_value};
ghost use Rattle.iloc_driver.specs.Run.Causes.{IsCaused, of_rows_apart, of_submission};
ghost use Rattle.iloc_driver.specs.Command.{initial_memory};
ghost use Rattle.iloc_driver.specs.Fault.{finding_of};
ghost use Rattle.iloc_driver.specs.Rows.{ListsProposed};
ghost use Rattle.iloc_driver.specs.Run.{Lists, ListsApart, ListsSubmission};
ghost use Rattle.iloc_driver.specs.Entries.{AppendsEntry};

use crate::commands::{Finding, Listed};
use crate::fault::RunFault;
use crate::job::Job;
use crate::reading::task::submission_apart;
use crate::reading::texts::Texts;
use iloc_args::{Flag, Request};
use iloc_listing::Listing;
use iloc_ops::NoMemory;
use iloc_rows::laws::{placed_rows_are_within_limits, submissions_are_within_limits};
use iloc_rows::{Proposal, RowsFault, Submission, read_submission};
use iloc_text::read_text_from;
use std::alloc::Global;
use std::io::Read;

/// Lists what is proposed for one block after another, as a command has it. A listing is an opening, the entries of the blocks,
/// and an ending.
pub trait RowLister: Drop {
    /// What is found of what is proposed for a block.
    type Found: Copy + Drop;

    // for the request, this is the entry of the block with this number, counted from 1, and of what is proposed for it, and this
    // is found of that
    ghost lists: { request_value → ℕ → block_value × Proposed → List ℕ → Self.Found → Type 0 };

    // what the listing for the request begins with
    ghost opening: { request_value → List ℕ };

    // the ending where this was found
    ghost ending: { request_value → List Self.Found → List ℕ };

    // whether that passes
    ghost passes: { request_value → Self.Found → Bool };

    // it is small enough to be added up
    ghost fits: { Self.Found → Type 0 };

    // the memory with which it starts each block for this request; what runs no block has the request's
    ghost memory: { request_value → Self → List ℤ };

    /// One that is ready to list what is proposed for `blocks` blocks.
    fn new(alloc: Global, request: &Request, blocks: usize) -> Result<Self, NoMemory>
        ensures { IfOk result (λ lister. memory request.now lister ≡ initial_memory request.now) };

    /// Appends what the listing begins with.
    fn push_opening(request: &Request, text: &mut Vec<u8>) -> Result<(), NoMemory>
        ensures { OnOk result (text.new.items ≡ text.old.items ++ opening request.now) };

    /// Appends the entry of the block of `job` and of what is proposed for it, and answers what is found of `proposal`. After
    /// a refusal a part of the entry may follow the text.
    fn list(
        &mut self,
        alloc: Global,
        request: &Request,
        job: &Job<'_>,
        proposal: Proposal,
        text: &mut Vec<u8>,
    ) -> Result<Self::Found, NoMemory>
        requires { memory request.now self.old ≡ initial_memory request.now }
        ensures starts { memory request.now self.new ≡ initial_memory request.now }
        ensures listed { IfOk result (AppendsEntry
            (lists request.now job.now.number (job.now.block.now, proposal)) text.old.items text.new.items) }
        ensures small { IfOk result fits };

    /// Appends the ending.
    fn push_ending(
        request: &Request,
        text: &mut Vec<u8>,
        found: &[Self::Found],
    ) -> Result<(), NoMemory>
        requires few { length found.now ≤ MAX_BLOCKS }
        requires small { All fits found.now }
        ensures { OnOk result (text.new.items ≡ text.old.items ++ ending request.now found.now) };

    /// Whether all that was found passes.
    fn finding(request: &Request, found: &[Self::Found]) -> Finding
        ensures { result ≡ finding_of (list_all (passes request.now) found.now) };
}

/// What a request lists of what is proposed for some blocks.
fn listed_rows<L: RowLister>(
    alloc: Global,
    submission: Submission,
    request: &Request,
) -> Result<Listed, NoMemory>
    requires { AreWithinLimits submission.blocks submission.proposals }
    ensures { IfOk result (λ listed. ListsProposed L.lists L.opening L.ending L.passes request.now
        submission.blocks submission.proposals listed.finding listed.text) }
{
    placed_rows_are_within_limits();
    let blocks = submission.blocks.into_vec();
    let either_slot = request.flags.has(Flag::EitherSlot);
    let proposals = submission.proposals.placed(either_slot).into_vec();
    let mut lister = L::new(alloc, request, blocks.len())?;
    let mut text = Vec::new(alloc);
    let mut found = Vec::new(alloc);
    L::push_opening(request, &mut text)?;
    for (block, proposal) in blocks.into_iter().zip(proposals) {
        let number = found.len() + 1;
        let job = Job {
            number,
            block: &block,
            own: None,
        };
        let one = lister.list(alloc, request, &job, proposal, &mut text)?;
        found.push(one)?;
    }
    L::push_ending(request, &mut text, &found)?;
    let finding = L::finding(request, &found);
    Ok(Listed {
        text: Listing::of_text(alloc, text),
        finding,
    })
}

/// The blocks and proposals that the input denotes; the input is let go.
fn submission_of(alloc: Global, input: Vec<u8>) -> Result<Submission, RowsFault>
    ensures ok { IfOk result (λ found. submissions.Denotes input.items found.blocks found.proposals
        × AreWithinLimits found.blocks found.proposals) }
    ensures err { IfErr result (λ fault.
        fault ≢ read no_memory → submissions.IsRefused input.items fault) }
{
    submissions_are_within_limits();
    read_submission(alloc, &input)
}

/// What is listed of the rows that an input proposes for its blocks.
pub(crate) fn listed_whole<L: RowLister, R: Read>(
    alloc: Global,
    reader: &mut R,
    request: &Request,
) -> Result<Listed, RunFault>
    ensures ok { IfOk result (λ listed.
        Lists (ListsSubmission (ListsProposed L.lists L.opening L.ending L.passes request.now))
        (R.remaining reader.old) (R.remaining reader.new) listed.finding listed.text) }
    ensures err { IfErr result (IsCaused (of_submission (R.remaining reader.old) (R.remaining reader.new))) }
{
    let submission = submission_of(alloc, read_text_from(alloc, reader)?)?;
    Ok(listed_rows::<L>(alloc, submission, request)?)
}

/// What is listed of the rows that an input proposes for the blocks of the task with this name.
pub(crate) fn listed_apart<L: RowLister, T: Texts, R: Read>(
    alloc: Global,
    texts: &T,
    name: &str,
    reader: &mut R,
    request: &Request,
) -> Result<Listed, RunFault>
    ensures ok { IfOk result (λ listed. ListsApart (ListsProposed L.lists L.opening L.ending L.passes request.now)
        (T.held texts.now name.now) (R.remaining reader.old) (R.remaining reader.new) listed.finding listed.text) }
    ensures err { IfErr result
        (IsCaused (of_rows_apart (T.held texts.now name.now) (R.remaining reader.old) (R.remaining reader.new))) }
{
    let submission = submission_apart(alloc, texts, name, reader)?;
    Ok(listed_rows::<L>(alloc, submission, request)?)
}

//! What a command lists of a file, block by block as the file is read.
ghost use Rattle.std.specs.Prelude.{◌≡◌, ℕ, ◌≤◌, ◌++◌, List, None, Option, length, option_copied, ℤ, IfErr, IfOk, OnOk};
ghost use Rattle.iloc_ops.specs.Limits.{MAX_BLOCKS};
ghost use Rattle.iloc_ops.specs.declared.file.Block.{Block as block_value};
ghost use Rattle.iloc_args.specs.declared.request.Request.{Request as request_value};
ghost use Rattle.iloc_text.specs.Files.{AreWithinLimits};
ghost use Rattle.iloc_driver.specs.Command.{initial_memory};
ghost use Rattle.iloc_driver.specs.Entries.{IsListingOf, ListsRead, AppendsEntry};
ghost use Rattle.iloc_driver.specs.Priorities.{AreFor, AreIn, own_of};
ghost use Rattle.iloc_driver.specs.Run.Causes.{IsCaused, of_file, of_ranked_file};

use crate::fault::RunFault;
use crate::job::Job;
use crate::reading::priorities::Priorities;
use crate::reading::read_ranked;
use crate::reading::texts::Texts;
use iloc_args::Request;
use iloc_listing::Listing;
use iloc_meaning::Memory;
use iloc_ops::{Block, Blocks, NoMemory};
use iloc_text::laws::files_are_within_limits;
use iloc_text::{TakeBlocks, read_blocks_from};
use std::alloc::Global;
use std::io::Read;
use std::sync::Wait;
use std::thread::Threads;

/// Lists one block of a file after another, as a command has it. A listing is the entries of the blocks, and an ending.
pub trait Lister: Drop {
    /// What is found of a block, for the ending.
    type Found: Copy + Drop;

    // for the request, with its own priorities if it has some, this is the entry of the block with this number, counted from 1, and
    // this is found of it
    ghost lists: { request_value → Option (List ℕ) → ℕ → block_value → List ℕ → Self.Found → Type 0 };

    // the ending where this was found of the blocks
    ghost ending: { List Self.Found → List ℕ };

    // the memory with which it starts each block for this request; what runs no block has the request's
    ghost memory: { request_value → Self → List ℤ };

    /// One that is ready to list for this request.
    fn new(alloc: Global, request: &Request) -> Result<Self, NoMemory>
        ensures { IfOk result (λ lister. memory request.now lister ≡ initial_memory request.now) };

    /// Appends the entry of the block of `job`, and answers what is found of it. After a refusal a part of the entry may
    /// follow the text.
    fn list(
        &mut self,
        alloc: Global,
        request: &Request,
        job: &Job<'_>,
        text: &mut Vec<u8>,
    ) -> Result<Self::Found, NoMemory>
        requires { memory request.now self.old ≡ initial_memory request.now }
        ensures starts { memory request.now self.new ≡ initial_memory request.now }
        ensures listed { IfOk result (AppendsEntry
            (lists request.now (option_copied job.now.own) job.now.number job.now.block.now) text.old.items text.new.items) };

    /// Appends the ending.
    fn push_ending(text: &mut Vec<u8>, found: &[Self::Found]) -> Result<(), NoMemory>
        requires { length found.now ≤ MAX_BLOCKS }
        ensures { OnOk result (text.new.items ≡ text.old.items ++ ending found.now) };
}

/// The memory that a request has each block start with.
///
/// Promise: it has the request's words from its start on, and 0 at every other address.
pub fn initial_memory(alloc: Global, request: &Request) -> Result<Memory, NoMemory>
    ensures { IfOk result (λ memory. memory ≡ initial_memory request.now) }
{
    Memory::with_words(alloc, request.at, &request.words)
}

/// Lists each block that it is handed; it has no priorities of its own.
#[derive(Drop)]
struct AsRead<'q, L: Lister> {
    request: &'q Request,
    lister: L,
    text: Vec<u8>,
    /// What was found of each block.
    found: Vec<L::Found>,
    ghost starts: { L.memory request.now lister ≡ initial_memory request.now },
}

impl<'q, L: Lister> TakeBlocks for AsRead<'q, L> {
    ghost use Rattle.std.specs.Prelude.{◌≡◌, [], None};
    ghost use Rattle.std.proofs.Common.{append-nil, refl, sym};
    ghost use Rattle.iloc_driver.specs.Steps.Listed.{Grows};

    ghost took = { λ start blocks now. (now.request.now ≡ start.request.now)
        × Grows (L.lists start.request.now None) blocks start.text.items now.text.items start.found.items now.found.items };

    fn take(&mut self, alloc: Global, number: usize, block: &Block) -> Result<(), NoMemory> {
        let job = Job {
            number,
            block,
            own: None,
        };
        let found = self.lister.list(alloc, self.request, &job, &mut self.text)?;
        Ok(self.found.push(found)?)
    }

    ghost took_none = { λ start. (
      refl,
      record {
        entries = [];
        next = [];
        right = refl;
        added = sym (append-nil start.text.items);
        kept = sym (append-nil start.found.items);
      },
    ) };
}

/// The listing of the file that the reader gives, each block listed as soon as it is read.
fn listed_as_read<L: Lister, R: Read>(
    alloc: Global,
    reader: &mut R,
    request: &Request,
) -> Result<Listing, RunFault>
    ensures ok { IfOk result
        (ListsRead (λ own. IsListingOf (λ k. L.lists request.now (own_of own k) k) L.ending) (λ _ own. own ≡ None)
        (R.remaining reader.old) (R.remaining reader.new)) }
    ensures err { IfErr result (IsCaused (of_file (R.remaining reader.old) (R.remaining reader.new))) }
{
    files_are_within_limits();
    let lister = L::new(alloc, request)?;
    let start = AsRead {
        request,
        lister,
        text: Vec::new(alloc),
        found: Vec::new(alloc),
    };
    let read = read_blocks_from(alloc, reader, start)?;
    let AsRead {
        mut text,
        found,
        ..
    } = read;
    L::push_ending(&mut text, &found)?;
    Ok(Listing::of_text(alloc, text))
}

/// The listing of `blocks`, each ranked by its own `priorities` if there are some.
fn listed_ranked<L: Lister>(
    alloc: Global,
    request: &Request,
    blocks: &Blocks,
    priorities: &Priorities,
) -> Result<Listing, NoMemory>
    requires few { AreWithinLimits blocks.now }
    requires each { AreFor priorities.now blocks.now }
    ensures { IfOk result
        (IsListingOf (λ k. L.lists request.now (own_of priorities.now k) k) L.ending blocks.now) }
{
    let mut lister = L::new(alloc, request)?;
    let mut text = Vec::new(alloc);
    let mut found = Vec::new(alloc);
    for block in blocks.as_slice() {
        let number = found.len() + 1;
        let own = priorities.of(number);
        let job = Job { number, block, own };
        found.push(lister.list(alloc, request, &job, &mut text)?)?;
    }
    L::push_ending(&mut text, &found)?;
    Ok(Listing::of_text(alloc, text))
}

/// The listing of the file that the reader gives: of each block as soon as it is read or, where the request names a file of
/// priorities, once all are.
pub(crate) fn listed_alone<L: Lister, H: Threads + Wait + Sync, T: Texts, R: Read>(
    rt: &H,
    alloc: Global,
    texts: &T,
    reader: &mut R,
    request: &Request,
) -> Result<Listing, RunFault>
    ensures ok { IfOk result
        (ListsRead (λ own. IsListingOf (λ k. L.lists request.now (own_of own k) k) L.ending)
        (AreIn request.now.priorities_file (T.held texts.now)) (R.remaining reader.old) (R.remaining reader.new)) }
    ensures err { IfErr result (IsCaused
        (of_ranked_file request.now.priorities_file (T.held texts.now) (R.remaining reader.old) (R.remaining reader.new))) }
{
    match &request.priorities_file {
        None => listed_as_read::<L, R>(alloc, reader, request),
        Some(_) => {
            let (blocks, priorities) = read_ranked(rt, alloc, texts, reader, request)?;
            Ok(listed_ranked::<L>(alloc, request, &blocks, &priorities)?)
        }
    }
}

//! What a command lists of a file whose blocks several workers share.
ghost use Rattle.std.specs.Prelude.{◌≡◌, ℕ, ◌≤◌, List, Option, length, option_copied, IfErr, IfOk};
ghost use Rattle.iloc_ops.specs.Limits.{MAX_BLOCKS};
ghost use Rattle.iloc_ops.specs.declared.file.Block.{Block as block_value};
ghost use Rattle.iloc_args.specs.declared.request.Request.{Request as request_value};
ghost use Rattle.iloc_text.specs.Files.{AreWithinLimits};
ghost use Rattle.iloc_driver.specs.Entries.{AreListed, OfBlock};
ghost use Rattle.iloc_driver.specs.Run.Causes.{IsCaused, of_shared_file};
ghost use Rattle.iloc_driver.specs.Work.{AreFarmed, ListsFarmed, by_own};
ghost use Rattle.iloc_driver.specs.Priorities.{AreFor, AreIn, Own};

use crate::fault::{FarmFault, RunFault};
use crate::job::Job;
use crate::reading::priorities::Priorities;
use crate::reading::read_ranked;
use crate::reading::texts::Texts;
use crate::workers::farm_out;
use iloc_args::Request;
use iloc_board::{AtDesk, FreeGate, Jobs, NoMemory, Receipt};
use iloc_listing::Listing;
use iloc_ops::{Block, Blocks, NoMemory as NoText};
use std::alloc::Global;
use std::io::Read;
use std::marker::{Model, PhantomData};
use std::sync::Wait;
use std::thread::Threads;

/// Makes of each block that a worker takes an answer, and of all answers the listing. Whatever a lister holds, its next
/// answer is right: so each worker has one of its own.
pub trait FarmedLister: Drop {
    /// What is to be listed of a block.
    type Answer: Drop;

    // for the request, with its own priorities if it has some, this is the answer for the block with this number, counted from 1
    ghost answers: { request_value → Option (List ℕ) → ℕ → block_value → Self.Answer → Type 0 };

    // the cycles of the block's schedule
    ghost cycles_in: { Self.Answer → ℕ };

    // for the request, what is made of these blocks and these answers
    ghost made_of: { request_value → List block_value → List Self.Answer → List ℕ };

    // for the request, this is the listing of these blocks, with their own priorities if there are some
    ghost lists: { request_value → Own → List block_value → List ℕ → Type 0 };

    /// A lister.
    fn new(alloc: Global) -> Self;

    /// The answer for the block of `job`.
    fn answer(
        &mut self,
        alloc: Global,
        request: &Request,
        job: &Job<'_>,
    ) -> Result<Self::Answer, NoText>
        ensures { IfOk result (answers request.now (option_copied job.now.own) job.now.number job.now.block.now) };

    /// The cycles of the block's schedule.
    fn cycles(answer: &Self::Answer) -> u32
        ensures { result ≡ cycles_in answer.now };

    /// The listing of `blocks`, for which the answers are `found`.
    fn listing(
        alloc: Global,
        request: &Request,
        blocks: Blocks,
        found: Vec<Self::Answer>,
    ) -> Result<Listing, NoText>
        requires few { length blocks ≤ MAX_BLOCKS }
        requires many { length found.items ≡ length blocks }
        ensures made { IfOk result (λ text. text ≡ made_of request.now blocks found.items) }
        ensures right { IfOk result (λ text. (own : Own) → AreListed (by_own (answers request.now) own) blocks found.items
            → lists request.now own blocks text) };
}

/// Blocks that are to be listed for a request. The answer to job i is what is to be listed of block i, and costs the cycles
/// of its schedule.
#[derive(Drop)]
pub struct ListedJobs<'f, L: FarmedLister> {
    blocks: &'f [Block],
    request: &'f Request,
    priorities: &'f Priorities,
    lister: PhantomData<L>,
}

impl<'f, L: FarmedLister> Model for ListedJobs<'f, L> {
    ghost use Rattle.std.specs.Prelude.{◌≤◌, length};
    ghost use Rattle.std.specs.List.{All};
    ghost use Rattle.iloc_ops.specs.Limits.{MAX_BLOCKS, MAX_OPS};
    ghost use Rattle.iloc_driver.specs.Priorities.{AreFor};
    ghost use Rattle.iloc_driver.specs.Steps.Listed.{ToList};

    ghost Value = { ToList };

    ghost view = { λ jobs. record {
      blocks = jobs.blocks.now;
      request = jobs.request.now;
      own = jobs.priorities.now;
    } };

    ghost invariant = { λ jobs. (length jobs.blocks.now ≤ MAX_BLOCKS)
        × All (λ b. length b.ops ≤ MAX_OPS) jobs.blocks.now
        × AreFor jobs.priorities.now jobs.blocks.now };
}

impl<'f, L: FarmedLister> ListedJobs<'f, L> {
    /// The jobs of `blocks` for `request`, with their own `priorities` if there are some.
    fn new(
        blocks: &'f [Block],
        request: &'f Request,
        priorities: &'f Priorities,
    ) -> ListedJobs<'f, L>
        requires few { AreWithinLimits blocks.now }
        requires each { AreFor priorities.now blocks.now }
        ensures { result ≡ record { blocks = blocks.now; request = request.now; own = priorities.now } }
    {
        ListedJobs {
            blocks,
            request,
            priorities,
            lister: PhantomData,
        }
    }
}

impl<'f, L: FarmedLister> Jobs for ListedJobs<'f, L> {
    ghost use Rattle.std.specs.Prelude.{length};
    ghost use Rattle.iloc_driver.specs.Entries.{OfBlock};
    ghost use Rattle.iloc_driver.specs.Work.{by_own};

    type Answer = L::Answer;

    ghost number = { λ jobs. length jobs.blocks };

    ghost fits = { λ jobs i answer. OfBlock (by_own (L.answers jobs.request) jobs.own) jobs.blocks i answer };

    ghost price = { λ _ answer. L.cycles_in answer };

    fn count(&self) -> u32 {
        self.blocks.len() as u32
    }

    fn cost(&self, answer: &L::Answer) -> u64 {
        u64::from(L::cycles(answer))
    }

    fn answer(&self, alloc: Global, i: u32) -> Result<L::Answer, NoMemory> {
        let mut desk = L::new(alloc);
        self.answer_at(&mut desk, alloc, i)
    }
}

impl<'f, L: FarmedLister> AtDesk<L> for ListedJobs<'f, L> {
    fn answer_at(&self, desk: &mut L, alloc: Global, i: u32) -> Result<L::Answer, NoMemory> {
        let block = &self.blocks[i as usize];
        let number = i as usize + 1;
        let own = self.priorities.of(number);
        let job = Job { number, block, own };
        desk.answer(alloc, self.request, &job).map_err(|_| NoMemory)
    }
}

/// A lister for each worker of the request.
fn desks<L: FarmedLister>(alloc: Global, request: &Request) -> Result<Vec<L>, NoText>
    ensures { IfOk result (λ desks. length desks.items ≡ request.now.workers) }
{
    let mut desks = Vec::with_capacity(alloc, request.workers as usize)?;
    for _ in 0..request.workers {
        desks.push(L::new(alloc))?;
    }
    Ok(desks)
}

/// The answers for the blocks, which the request's workers make, and the receipt for their work.
fn answers_of<H: Threads + Wait + Sync, L: FarmedLister + Send + Sync>(
    rt: &H,
    alloc: Global,
    blocks: &[Block],
    request: &Request,
    priorities: &Priorities,
) -> Result<(Vec<L::Answer>, Receipt<L::Answer>), FarmFault>
where
    L::Answer: Send,
    requires few { AreWithinLimits blocks.now }
    requires each { AreFor priorities.now blocks.now }
    ensures kept { IfOk result (λ done. done.0.items ≡ done.1.answers) }
    ensures farmed { IfOk result (λ done. AreFarmed (length blocks.now)
        (OfBlock (by_own (L.answers request.now) priorities.now) blocks.now) L.cycles_in request.now.workers done.1) }
{
    let jobs = ListedJobs::<L>::new(blocks, request, priorities);
    let desks = desks::<L>(alloc, request)?;
    let (answers, receipt) = farm_out(rt, alloc, &jobs, desks, &FreeGate)?.into_parts();
    Ok((answers, receipt))
}

/// The listing of the file that the reader gives, for whose blocks the request's workers make the answers, and the receipt for
/// their work.
#[tactic(auto, using(crate::proofs::Streamed::shared_causes))]
pub(crate) fn listed_by_workers<
    L: FarmedLister + Send + Sync,
    H: Threads + Wait + Sync,
    T: Texts,
    R: Read,
>(
    rt: &H,
    alloc: Global,
    texts: &T,
    reader: &mut R,
    request: &Request,
) -> Result<(Listing, Receipt<L::Answer>), RunFault>
where
    L::Answer: Send,
    ensures ok { IfOk result (λ listed.
        ListsFarmed (L.answers request.now) L.cycles_in (L.made_of request.now) (L.lists request.now)
        (AreIn request.now.priorities_file (T.held texts.now)) request.now.workers
        (R.remaining reader.old) (R.remaining reader.new) listed.0 listed.1) }
    ensures err { IfErr result (IsCaused
        (of_shared_file request.now.priorities_file (T.held texts.now) (R.remaining reader.old) (R.remaining reader.new))) }
{
    let (blocks, priorities) = read_ranked(rt, alloc, texts, reader, request)?;
    let (answers, receipt) = answers_of::<H, L>(
        rt,
        alloc,
        blocks.as_slice(),
        request,
        &priorities,
    )?;
    let text = L::listing(alloc, request, blocks, answers)?;
    Ok((text, receipt))
}

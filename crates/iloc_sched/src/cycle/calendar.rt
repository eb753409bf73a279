//! Operations by the cycle at which they become ready, and those that are ready, as sets of ranks.
//!
//! A rank is an operation's place in the order of choice, so the first of a set is its lowest bit, and no branch goes by how
//! priorities compare: in blocks of a hundred operations heaps take 40 instructions and 3 mispredicted branches more for each
//! operation, with ranking. Sets stand side by side: words w of all sets follow each other.
ghost use Rattle.std.specs.Prelude.{ℕ, ◌≡◌, ◌≢◌, ◌==◌, ◌+◌, ◌*◌, ◌/◌, ◌%◌, ◌<◌, ◌≤◌, nat_lt, length, OnOk};
ghost use Rattle.iloc_sched.specs.Steps.Cycle.RankSets.{IsSummary, IsFirstWithin};

use crate::cycle::class::Class;
use crate::cycle::words::{
    add_if, fill_zeros, first_of_block, first_of_word, move_summary, move_word, move_words,
    take_out_if,
};
use iloc_ops::{MAX_OPS, NoMemory};
use iloc_rules::LONGEST_DELAY;
use std::alloc::Global;

// More than the longest delay, so the operations of one bucket become ready at the same cycle.
const BUCKETS: usize = 2 * LONGEST_DELAY;

// The set of what is ready comes after the buckets.
pub const READY: usize = BUCKETS;

// After it there is a set for each class: what an operation of the class keeps out of its row.
pub const KEPT_OUT: usize = READY + 1;

/// For fewer operations one word a set is enough.
pub const SHORT: usize = 64;

/// How many sets there are.
pub const SETS: usize = KEPT_OUT + 4;

// The last is empty, since the rest keeps nothing out. Its summary says which words may have what is ready.
const OF_REST: usize = SETS - 1;

/// Sets of ranks. Where one word a set is enough there is no summary: with one, blocks of fifteen operations take 64 instructions
/// more for each of them.
#[derive(Drop)]
pub struct Calendar {
    words: Vec<u64>,
    /// By bucket a bit for each of its words: whether it has any. By class a bit for each word that may have what is ready and
    /// not kept out: it is set with what becomes ready, and cleared where a choice finds that the word has none, and that of
    /// the rest where it takes the last. If each choice passed over such words anew, 10,000 loads would take 1,400
    /// instructions each, and not 315.
    summary: Vec<u64>,
    /// How many words the summary of a set has.
    blocks: usize,
    ghost summarised: { blocks ≢ 0 → IsSummary summary.items words.items },
    ghost sized: { length summary.items ≡ blocks * 37 },
    ghost single: { blocks ≡ 0 → length words.items ≤ 37 },
    ghost few: { blocks ≤ 3 },
    ghost whole: { (w : ℕ) → w * 37 < length words.items → w * 37 + 37 ≤ length words.items },
}

impl Calendar {
    ghost use Rattle.std.specs.Prelude.{◌||◌, true, false};
    ghost use Rattle.iloc_sched.specs.Steps.Cycle.Classes.{excludes, place_of};
    ghost use Rattle.iloc_sched.specs.Steps.Cycle.Calendar.{has, offers, IsWithin, HasRoom, KeepsRoom, HasSameSets, Puts, Releases, Takes, IsFirst};

    /// No rank, and capacity for none.
    pub fn new(alloc: Global) -> Calendar
        ensures { (s r : ℕ) → has result s r ≡ false }
    {
        Calendar {
            words: Vec::new(alloc),
            summary: Vec::new(alloc),
            blocks: 0,
        }
    }

    /// Takes out all ranks, and has capacity for those below `count`.
    pub fn clear(&mut self, count: usize) -> Result<(), NoMemory>
        requires { count ≤ MAX_OPS }
        ensures empty { OnOk result ((s r : ℕ) → has self.new s r ≡ false) }
        ensures room { OnOk result (HasRoom self.new count) }
        ensures short { OnOk result ((self.new.blocks == 0) ≡ nat_lt count SHORT) }
    {
        let blocks = if count < SHORT { 0 } else { count / 4096 + 1 };
        self.words.clear();
        self.blocks = 0;
        fill_zeros(&mut self.summary, blocks * SETS)?;
        self.blocks = blocks;
        fill_zeros(&mut self.words, (count / 64 + 1) * SETS)?;
        Ok(())
    }

    /// Whether one word a set is enough.
    #[inline(always)]
    pub fn is_short(&self) -> bool
        ensures { result ≡ (self.now.blocks == 0) }
    {
        self.blocks == 0
    }

    /// Takes a rank out of what is ready.
    #[inline(always)]
    fn remove(&mut self, rank: u32)
        requires { IsWithin self.old rank }
        ensures puts { Puts self.old self.new 32 rank false }
        ensures room { KeepsRoom self.old self.new }
    {
        take_out_if(&mut self.words, true, READY, rank as usize);
    }

    /// A word in which nothing is ready leaves the summary of the rest, so the first beside the rest is in the first word that
    /// is looked at: that saves 1.0 mispredicted branches for each of 10,000 products in a chain, and 0.2 to 0.4 for each
    /// operation of longer blocks, for at most 11 instructions.
    #[inline(always)]
    fn close_if_empty(&mut self, word: usize)
        requires some { self.old.blocks ≢ 0 }
        requires word { word * 37 + 37 ≤ length self.old.words.items }
        requires block { word / 64 < self.old.blocks }
        ensures same { HasSameSets self.old self.new }
    {
        let empty = self.words[word * SETS + READY] == 0;
        take_out_if(&mut self.summary, empty, OF_REST, word);
    }

    /// Puts a rank into the bucket of a cycle, if it is ready then.
    #[inline(always)]
    pub fn put_if(&mut self, short: bool, ready: bool, rank: u32, cycle: u32)
        requires short { short ≡ (self.old.blocks == 0) }
        requires within { IsWithin self.old rank }
        ensures puts { Puts self.old self.new (cycle % 32) rank (ready || has self.old (cycle % 32) rank) }
        ensures room { KeepsRoom self.old self.new }
    {
        let rank = rank as usize;
        let bucket = cycle as usize % BUCKETS;
        if short {
            // A rank is its bit, and no word has to be found.
            add_if(&mut self.words, ready, bucket, rank % 64);
        } else {
            add_if(&mut self.words, ready, bucket, rank);
            add_if(&mut self.summary, ready, bucket, rank / 64);
        }
    }

    /// A rank. Where there is one word it is its bit, and no word has to be found: that saves 4 instructions for each operation.
    #[inline(always)]
    fn bit_of(&self, short: bool, rank: u32) -> usize
        requires short { short ≡ (self.now.blocks == 0) }
        requires within { IsWithin self.now rank }
        ensures { result ≡ rank }
    {
        if short {
            rank as usize % 64
        } else {
            rank as usize
        }
    }

    /// Notes a rank of this class: an operation of the class keeps it out, but for the rest, which keeps nothing out.
    #[inline(always)]
    pub fn keep_out(&mut self, short: bool, class: Class, rank: u32)
        requires short { short ≡ (self.old.blocks == 0) }
        requires within { IsWithin self.old rank }
        ensures puts { Puts self.old self.new (33 + place_of class) rank (excludes class class || has self.old (33 + place_of class) rank) }
        ensures room { KeepsRoom self.old self.new }
    {
        let rank = self.bit_of(short, rank);
        add_if(
            &mut self.words,
            class.is_limited(),
            KEPT_OUT + class.place(),
            rank,
        );
    }

    /// Makes ready what `bucket` has in word `block` of the summary and in the words below it. A word of the summary
    /// that is 0 is skipped: on a chain of 10,000 products that saves 130 instructions an operation. The first word
    /// isn't tested: whether it is 0 is seldom predicted, and most blocks have no other.
    #[inline(always)]
    fn release_block(&mut self, bucket: usize, block: usize)
        requires bucket { bucket < 32 }
        requires block { block < self.old.blocks }
        requires room { HasRoom self.old 0 }
        ensures released { (r : ℕ) → r / 4096 ≡ block → (has self.new 32 r ≡ (has self.old 32 r || has self.old bucket r)) }
        ensures emptied { (r : ℕ) → r / 4096 ≡ block → has self.new bucket r ≡ false }
        ensures others { (s r : ℕ) → s < 37 → (r / 4096 ≡ block → (s ≢ 32) × (s ≢ bucket)) → has self.new s r ≡ has self.old s r }
        ensures room { KeepsRoom self.old self.new }
    {
        let some = self.summary[block * SETS + bucket];
        if block > 0 && some == 0 {
            return;
        }
        move_words(&mut self.words, some, block, bucket);
        move_summary(&mut self.summary, some, block, bucket);
    }

    /// What is in a bucket becomes ready, block after block. The first stands by itself, here and where the first rank is found:
    /// most have no other, and where its number is known the compiler finds words by less. In one loop with the others blocks of
    /// a hundred operations take 25 instructions more for each of them.
    #[inline(always)]
    fn release_blocks(&mut self, bucket: usize)
        requires bucket { bucket < 32 }
        requires some { self.old.blocks ≢ 0 }
        requires room { HasRoom self.old 0 }
        ensures releases { Releases self.old self.new bucket }
        ensures room { KeepsRoom self.old self.new }
    {
        self.release_block(bucket, 0);
        for block in 1..self.blocks {
            self.release_block(bucket, block);
        }
    }

    /// What is in the bucket of a cycle becomes ready.
    #[inline(always)]
    pub fn release(&mut self, short: bool, cycle: u32)
        requires short { short ≡ (self.old.blocks == 0) }
        requires room { HasRoom self.old 0 }
        ensures releases { Releases self.old self.new (cycle % 32) }
        ensures room { KeepsRoom self.old self.new }
    {
        let bucket = cycle as usize % BUCKETS;
        if short {
            move_word(&mut self.words, 0, bucket);
        } else {
            self.release_blocks(bucket);
        }
    }

    /// The first of what is ready and not kept out, of the words that one word of the summary is for.
    #[inline(always)]
    fn first_in_block(&mut self, beside: Class, block: usize) -> Option<u32>
        requires block { block < self.old.blocks }
        ensures first { IsFirstWithin self.old.words.items (place_of beside) (λ r. r / 64 / 64 ≡ block) result }
        ensures same { HasSameSets self.old self.new }
    {
        let class = beside.place();
        let at = block * SETS + (KEPT_OUT + class);
        // Where nothing is ready any more, nothing is open: if such words were gone through, `counts` would mispredict 0.2 branches
        // more for each operation of a block of a hundred.
        let some = self.summary[at] & self.summary[block * SETS + OF_REST];
        let (first, left) = first_of_block(&self.words, some, block, class);
        self.summary[at] = left;
        first
    }

    /// The first of what is ready and not kept out, block after block.
    #[inline(always)]
    fn first_of_blocks(&mut self, beside: Class) -> Option<u32>
        requires some { self.old.blocks ≢ 0 }
        ensures first { IsFirst (offers self.old beside) result }
        ensures same { HasSameSets self.old self.new }
    {
        if let Some(rank) = self.first_in_block(beside, 0) {
            return Some(rank);
        }
        for block in 1..self.blocks {
            if let Some(rank) = self.first_in_block(beside, block) {
                return Some(rank);
            }
        }
        None
    }

    /// Takes the first of what is ready and what an operation of the class doesn't keep out. The rest keeps nothing out. One test
    /// serves both steps: with one for each, an operation of a block of fifteen has 0.14 mispredicted branches and 5
    /// instructions more.
    #[inline(always)]
    pub fn take_first(&mut self, short: bool, beside: Class) -> Option<u32>
        requires short { short ≡ (self.old.blocks == 0) }
        requires room { HasRoom self.old 0 }
        requires within { (r : ℕ) → offers self.old beside r ≡ true → IsWithin self.old r }
        ensures first { IsFirst (offers self.old beside) result }
        ensures takes { Takes self.old self.new result }
    {
        if short {
            let rank = first_of_word(&self.words, 0, beside.place())?;
            self.remove(rank);
            Some(rank)
        } else {
            let rank = self.first_of_blocks(beside)?;
            self.remove(rank);
            self.close_if_empty(rank as usize / 64);
            Some(rank)
        }
    }
}

//! What commands list of what is read, and what they find.
ghost use Rattle.std.specs.Prelude.{◌≡◌};
ghost use Rattle.std.specs.Thread.{IsSync};
ghost use Rattle.iloc_args.specs.declared.request.Task.{Task as task_value};
ghost use Rattle.iloc_driver.specs.Command.{Command as command_value, of_files, of_files_or_rows, of_rows, shared_by};
ghost use Rattle.iloc_driver.specs.Entries.{IsListingOf};
ghost use Rattle.iloc_driver.specs.Fault.{finding_of, finding_of_text, status_of_finding};
ghost use Rattle.iloc_driver.specs.Rows.{ListsProposed};
ghost use Rattle.iloc_driver.specs.Coming.{ComesTo};
ghost use Rattle.iloc_driver.specs.Priorities.{own_of};
ghost use Rattle.iloc_driver.specs.Work.{ReceiptOf};

use crate::farmed::{FarmedLister, listed_by_workers};
use crate::fault::RunFault;
use crate::lister::{Lister, listed_alone};
use crate::reading::texts::Texts;
use crate::rows::{RowLister, listed_apart, listed_whole};
use iloc_args::Request;
use iloc_board::Receipt;
use iloc_listing::Listing;
use std::alloc::Global;
use std::io::Read;
use std::sync::Wait;
use std::thread::Threads;

/// What a run found out about the schedules that it judged.
#[derive(Clone, Copy, Debug, Drop, PartialEq, Eq)]
pub enum Finding {
    /// Nothing was judged, or all that was passed.
    Passed,
    /// Something that was judged didn't pass.
    Failed,
    /// The text that was searched for faults has some.
    Unread,
}

impl Finding {
    /// What is found where all passes, or not all.
    pub fn of(all_pass: bool) -> Finding
        ensures { result ≡ finding_of all_pass }
    {
        if all_pass {
            Finding::Passed
        } else {
            Finding::Failed
        }
    }

    /// What is found of a text that reads or doesn't.
    pub fn of_text(reads: bool) -> Finding
        ensures { result ≡ finding_of_text reads }
    {
        if reads {
            Finding::Passed
        } else {
            Finding::Unread
        }
    }

    /// The exit status of a program that found this.
    pub(crate) fn status(self) -> u8
        ensures { result ≡ status_of_finding self }
    {
        match self {
            Finding::Passed => 0,
            Finding::Failed => 5,
            Finding::Unread => 1,
        }
    }
}

/// What is listed of an input, and what was found.
#[derive(Drop)]
pub struct Listed {
    pub text: Listing,
    pub finding: Finding,
}

impl Listed {
    /// A listing of a file, of which nothing is judged.
    fn of_file(text: Listing) -> Listed
        ensures { result ≡ record { text = text; finding = Finding.Passed } }
    {
        Listed {
            text,
            finding: Finding::Passed,
        }
    }
}

/// All commands of a program.
pub trait Commands {
    /// The receipt for the work of the workers who made a listing's entries.
    type Receipt: Drop;

    // what each task asks for
    ghost command_of: { task_value → command_value };

    // the receipt for what workers listed for a task keeps this
    ghost is_receipt: { (t : task_value) → ReceiptOf (command_of t).listers → Self.Receipt → Type 0 };

    /// What `request` lists of what `reader` gives and, where it names a file of blocks, of that text; and the receipt
    /// for the work of the workers who made its entries, if workers did.
    fn list<H: Threads + Wait + Sync, T: Texts, R: Read>(
        rt: &H,
        alloc: Global,
        texts: &T,
        reader: &mut R,
        request: &Request,
    ) -> Result<(Listed, Option<Self::Receipt>), RunFault>
        requires { IsSync H.row }
        ensures { ComesTo (command_of request.now.task) (is_receipt request.now.task) (T.held texts.now) request.now
            (R.remaining reader.old) (R.remaining reader.new) result };
}

/// What a command that shares no block lists of the file that the reader gives, with the priorities in the file that the request
/// may name.
pub fn alone<L: Lister, H: Threads + Wait + Sync, T: Texts, R: Read, K>(
    rt: &H,
    alloc: Global,
    texts: &T,
    reader: &mut R,
    request: &Request,
) -> Result<(Listed, Option<K>), RunFault>
    ensures { ComesTo (of_files (λ asked own. IsListingOf (λ k. L.lists asked (own_of own k) k) L.ending)) (λ _ _. ⊥)
        (T.held texts.now) request.now (R.remaining reader.old) (R.remaining reader.new) result }
{
    let text = listed_alone::<L, H, T, R>(rt, alloc, texts, reader, request)?;
    Ok((Listed::of_file(text), None))
}

/// What a command whose blocks workers share lists of the file that the reader gives, with the priorities in the file that the
/// request may name, and the receipt for their work.
pub fn shared<
    L: FarmedLister + Send + Sync,
    H: Threads + Wait + Sync,
    T: Texts,
    R: Read,
    K: From<Receipt<L::Answer>>,
>(
    rt: &H,
    alloc: Global,
    texts: &T,
    reader: &mut R,
    request: &Request,
) -> Result<(Listed, Option<K>), RunFault>
where
    L::Answer: Send,
    ensures { ComesTo (shared_by L.answers L.cycles_in L.made_of L.lists) K.from_gives (T.held texts.now) request.now
        (R.remaining reader.old) (R.remaining reader.new) result }
{
    let (text, receipt) = listed_by_workers::<L, H, T, R>(rt, alloc, texts, reader, request)?;
    Ok((Listed::of_file(text), Some(K::from(receipt))))
}

/// What a command lists of the reader's rows: for their own blocks or, where the request names a file, for that file's.
pub fn of_rows<L: RowLister, T: Texts, R: Read, K>(
    alloc: Global,
    texts: &T,
    reader: &mut R,
    request: &Request,
) -> Result<(Listed, Option<K>), RunFault>
    ensures { ComesTo (of_rows (ListsProposed L.lists L.opening L.ending L.passes)) (λ _ _. ⊥) (T.held texts.now) request.now
        (R.remaining reader.old) (R.remaining reader.new) result }
{
    match &request.task_file {
        None => Ok((listed_whole::<L, R>(alloc, reader, request)?, None)),
        Some(name) => {
            let listed = listed_apart::<L, T, R>(alloc, texts, name.as_str(), reader, request)?;
            Ok((listed, None))
        }
    }
}

/// What a command lists of the reader's file or, where the request names a file, of rows for that file's blocks.
pub fn of_file_or_rows<F: Lister, L: RowLister, H: Threads + Wait + Sync, T: Texts, R: Read, K>(
    rt: &H,
    alloc: Global,
    texts: &T,
    reader: &mut R,
    request: &Request,
) -> Result<(Listed, Option<K>), RunFault>
    ensures { ComesTo (of_files_or_rows (of_files (λ asked own. IsListingOf (λ k. F.lists asked (own_of own k) k) F.ending))
        (ListsProposed L.lists L.opening L.ending L.passes)) (λ _ _. ⊥) (T.held texts.now) request.now
        (R.remaining reader.old) (R.remaining reader.new) result }
{
    if request.task_file.is_some() {
        of_rows::<L, T, R, K>(alloc, texts, reader, request)
    } else {
        alone::<F, H, T, R, K>(rt, alloc, texts, reader, request)
    }
}

/// What a command whose blocks workers share lists of the reader's file or, where the request names a file, of rows for that
/// file's blocks; with the receipt for their work, if they were workers.
pub fn shared_or_rows<
    F: FarmedLister + Send + Sync,
    L: RowLister,
    H: Threads + Wait + Sync,
    T: Texts,
    R: Read,
    K: From<Receipt<F::Answer>>,
>(
    rt: &H,
    alloc: Global,
    texts: &T,
    reader: &mut R,
    request: &Request,
) -> Result<(Listed, Option<K>), RunFault>
where
    F::Answer: Send,
    ensures { ComesTo (of_files_or_rows (shared_by F.answers F.cycles_in F.made_of F.lists)
        (ListsProposed L.lists L.opening L.ending L.passes)) K.from_gives (T.held texts.now) request.now
        (R.remaining reader.old) (R.remaining reader.new) result }
{
    match &request.task_file {
        None => shared::<F, H, T, R, K>(rt, alloc, texts, reader, request),
        Some(_) => of_rows::<L, T, R, K>(alloc, texts, reader, request),
    }
}

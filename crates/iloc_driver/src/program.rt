//! The whole program but its commands and its real streams: from bytes to bytes, and from words to exit status.
ghost use Rattle.std.specs.Prelude.{◌≡◌, IfErr, IfOk, IfSome, List, drop, ℕ};
ghost use Rattle.std.specs.Io.KnownBytes.{Appends};
ghost use Rattle.std.specs.Vec.Iter.{into_iter_items};
ghost use Rattle.iloc_args.specs.Asked.{asked_in};
ghost use Rattle.iloc_driver.specs.Program.{Ends, IsWritten, IsStopped, MakeNone, Says, named_line, words_line};
ghost use Rattle.iloc_driver.specs.Words.{AskFor};
ghost use Rattle.iloc_driver.specs.Work.{HasReceipt};
ghost use Rattle.iloc_driver.specs.Run.{EndsRun, ListsFrom};

use crate::commands::{Commands, Finding, Listed};
use crate::fault::{RunFault, run_status};
use crate::reading::texts::Texts;
use arrayvec::ArrayString;
use iloc_args::{LineFault, Request, line_status, parse_line};
use iloc_listing::{WriteFailed, write_text};
use std::alloc::{AllocError, Global};
use std::env::Args;
use std::fmt::{Display, Write as _};
use std::io::{self, ErrorKind, Read, Write};
use std::sync::Wait;
use std::thread::Threads;

/// What is said of words that aren't UTF-8.
const NO_TEXT: &str = "error: invalid UTF-8 was detected in one or more arguments\n";

/// At most so many bytes are said of a fault that the parser didn't find.
const MOST_SAID: usize = 128;

/// What the program reads and writes.
#[derive(Drop)]
pub struct Streams<R, W, F> {
    /// Gives its input.
    pub reader: R,
    /// Takes its listing.
    pub writer: W,
    /// Takes what is said of a fault.
    pub faults: F,
}

/// How the program ended.
#[derive(Clone, Copy, Debug, Drop, PartialEq, Eq)]
pub struct Ending {
    /// The exit status.
    pub status: u8,
    /// Whether what stopped the program was said whole. `Ok` where nothing did.
    pub told: Result<(), WriteFailed>,
}

/// What stops the program.
#[derive(Drop)]
enum Fault {
    /// The words make no request.
    Line(LineFault),
    /// The request was not done, or the help not written.
    Run(RunFault),
}

impl Fault {
    ghost use Rattle.iloc_driver.specs.Program.{fault_line, status_of};

    /// The exit status of a program that this fault stops.
    fn status(&self) -> u8
        ensures { result ≡ status_of self.now }
    {
        match self {
            Fault::Line(fault) => line_status(fault),
            Fault::Run(fault) => run_status(fault),
        }
    }

    /// Says what stopped the program. This takes no memory.
    fn tell<F: Write>(&self, faults: &mut F) -> Result<(), WriteFailed>
        ensures { Says (F.contents faults.old) (F.contents faults.new) result (fault_line self.now) }
    {
        match self {
            Fault::Line(fault) => tell_line(faults, fault),
            Fault::Run(fault) => tell_named(faults, fault),
        }
    }
}

impl From<RunFault> for Fault {
    ghost use Rattle.iloc_driver.specs.declared.program.Fault.TheVariants.{Run};

    ghost from_gives = { λ fault given. given ≡ Run fault };

    fn from(fault: RunFault) -> Fault {
        Fault::Run(fault)
    }
}

impl From<WriteFailed> for Fault {
    ghost use Rattle.iloc_driver.specs.declared.fault.RunFault.TheVariants.{WriteFailed as write_failed};
    ghost use Rattle.iloc_driver.specs.declared.program.Fault.TheVariants.{Run};

    ghost from_gives = { λ _ given. given ≡ Run write_failed };

    fn from(_: WriteFailed) -> Fault {
        Fault::Run(RunFault::WriteFailed)
    }
}

/// Runs the program of these commands on its words, the first of which is its own name. An error in place of the words means that
/// one of them isn't UTF-8, or that memory was refused. `texts` opens the file of blocks that they may name.
///
/// Promise: the program does what its words ask for and ends with the status of what was found. Or a fault stops it: then it says
/// which on one line of `streams.faults`, or in the parser's own words, and ends with that fault's status.
pub fn run_words<C: Commands, H: Threads + Wait + Sync, T: Texts, R: Read, W: Write, F: Write>(
    rt: &H,
    alloc: Global,
    words: io::Result<Args>,
    texts: &T,
    streams: &mut Streams<R, W, F>,
) -> Ending
    ensures { Ends C.command_of (T.held texts.now) words (R.remaining streams.old.reader) (R.remaining streams.new.reader)
        (W.contents streams.old.writer) (W.contents streams.new.writer)
        (F.contents streams.old.faults) (F.contents streams.new.faults) result }
{
    let (reader, writer) = (&mut streams.reader, &mut streams.writer);
    match serve::<C, H, T, R, W>(rt, alloc, words, texts, reader, writer) {
        Ok(finding) => Ending {
            status: finding.status(),
            told: Ok(()),
        },
        Err(fault) => Ending {
            status: fault.status(),
            told: fault.tell(&mut streams.faults),
        },
    }
}

/// Reads an input, writes what the request lists of it, and answers what was found, with the receipt for the work of those who
/// made its entries, if they were workers.
///
/// Promise: at `Ok` the listing of just this input was written, whole, and the receipt is the one for what it lists. After
/// `WriteFailed` a prefix of the listing was written, and after any other fault nothing.
pub fn run_request<C: Commands, H: Threads + Wait + Sync, T: Texts, R: Read, W: Write>(
    rt: &H,
    alloc: Global,
    texts: &T,
    reader: &mut R,
    writer: &mut W,
    request: &Request,
) -> Result<(Finding, Option<C::Receipt>), RunFault>
    ensures ok { IfOk result (λ done. (text : List ℕ) ×
        ListsFrom C.command_of (T.held texts.now) request.now (R.remaining reader.old) (R.remaining reader.new) done.0 text ×
        HasReceipt (C.command_of request.now.task) (C.is_receipt request.now.task) (T.held texts.now) request.now (R.remaining reader.old) (R.remaining reader.new) text done.1 ×
        Appends (W.contents writer.old) (W.contents writer.new) text) }
    ensures err { IfErr result (EndsRun C.command_of (T.held texts.now) request.now
        (R.remaining reader.old) (R.remaining reader.new)
        (W.contents writer.old) (W.contents writer.new)) }
{
    let (Listed { text, finding }, receipt) = C::list(rt, alloc, texts, reader, request)?;
    text.write_to(writer)?;
    Ok((finding, receipt))
}

/// Does what the words ask for, and answers what was found.
fn serve<C: Commands, H: Threads + Wait + Sync, T: Texts, R: Read, W: Write>(
    rt: &H,
    alloc: Global,
    words: io::Result<Args>,
    texts: &T,
    reader: &mut R,
    writer: &mut W,
) -> Result<Finding, Fault>
    ensures ok { IfOk result (IsWritten C.command_of (T.held texts.now) words (R.remaining reader.old) (R.remaining reader.new)
        (W.contents writer.old) (W.contents writer.new)) }
    ensures err { IfErr result (IsStopped C.command_of (T.held texts.now) words (R.remaining reader.old) (R.remaining reader.new)
        (W.contents writer.old) (W.contents writer.new)) }
{
    match request_of(alloc, words) {
        Ok(request) => {
            let (finding, _) = run_request::<C, H, T, R, W>(
                rt, alloc, texts, reader, writer, &request,
            )?;
            Ok(finding)
        }
        Err(LineFault::Help(text)) => {
            write_text(writer, text.as_bytes())?;
            Ok(Finding::Passed)
        }
        Err(fault) => Err(Fault::Line(fault)),
    }
}

/// The request that the words make.
fn request_of(alloc: Global, words: io::Result<Args>) -> Result<Request, LineFault>
    ensures ok { IfOk result (λ request. AskFor words (asked_in request)) }
    ensures err { IfErr result (MakeNone words) }
{
    match words {
        Ok(words) => parse_line(alloc, &without_name(alloc, words)?),
        Err(error) if error.kind() == ErrorKind::OutOfMemory => Err(LineFault::NoMemory),
        Err(_) => Err(LineFault::Refused(String::from_str(alloc, NO_TEXT)?)),
    }
}

/// The words after the program's name. Memory for all is asked for at once.
fn without_name(alloc: Global, words: Args) -> Result<Vec<String>, AllocError>
    ensures { IfOk result (λ after. after.items ≡ drop 1 (into_iter_items words)) }
{
    let mut after = Vec::with_capacity(alloc, words.len())?;
    for word in words.skip(1) {
        after.push(word)?;
    }
    Ok(after)
}

/// Says why the words make no request. A refusal of the parser is in its own words.
fn tell_line<F: Write>(faults: &mut F, fault: &LineFault) -> Result<(), WriteFailed>
    ensures { Says (F.contents faults.old) (F.contents faults.new) result (words_line fault.now) }
{
    match fault {
        LineFault::Refused(text) => write_text(faults, text.as_bytes()),
        _ => tell_named(faults, fault),
    }
}

/// Says this on a line that begins with the program's name. The line is made on the stack, so that
/// want of memory can be told, and written in one piece.
fn tell_named<F: Write, D: Display>(faults: &mut F, fault: &D) -> Result<(), WriteFailed>
    ensures { IfSome (D.output fault.now) (λ text.
        Says (F.contents faults.old) (F.contents faults.new) result (named_line text)) }
{
    let mut line = ArrayString::<MOST_SAID>::new();
    match writeln!(line, "ilocfarm: {fault}") {
        Ok(()) => write_text(faults, line.as_bytes()),
        Err(_) => Err(WriteFailed),
    }
}

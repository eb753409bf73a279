//! The program where somebody may sit at a terminal.
ghost use Rattle.std.specs.Prelude.{◌≡◌, false, []};
ghost use Rattle.iloc_farm.specs.Commands.{command_of};
ghost use Rattle.iloc_farm.specs.Reason.{Explains, bytes_of};
ghost use Rattle.iloc_farm.specs.Talking.{EndsTalking};
ghost use Rattle.iloc_farm.specs.Theorem.{Status0Tells};

use crate::program::run_program;
use crate::reason::reason_of;
use crate::watched::Watched;
use iloc_args::{Request, Task, parse_line};
use iloc_driver::{Ending, Streams, Texts};
use iloc_listing::write_text;
use std::alloc::Global;
use std::env::Args;
use std::io::{self, Read, Write};
use std::sync::Wait;
use std::thread::Threads;

/// Which streams are terminals.
#[derive(Clone, Copy)]
pub struct Terminals {
    /// Nothing else shows on a terminal that the program waits for its input.
    pub input: bool,
    /// Where standard error isn't a terminal, it has a fault's line and, but for `run`, `simulate`, `schedule` and `counts`, the
    /// reason; nothing else.
    pub faults: bool,
}

/// The commands that say in one line what they don't understand, unless a terminal looks, and `lint`, which lists it.
const TERSE: [&str; 5] = ["run", "simulate", "schedule", "counts", "lint"];

/// Whether `words` begin with one of `TERSE`, or memory is refused to a look at them.
fn are_terse(words: &io::Result<Args>) -> bool {
    let Ok(words) = words else { return false };
    let Ok(mut words) = words.clone() else {
        return true;
    };
    let (_, command) = (words.next(), words.next());
    match &command {
        Some(command) => TERSE.iter().any(|name| *name == command.as_str()),
        None => false,
    }
}

/// What the words ask for, if they make a request.
fn request_of(alloc: Global, words: &io::Result<Args>) -> Option<Request> {
    let words = words.as_ref().ok()?.clone().ok()?;
    let mut after = Vec::with_capacity(alloc, words.len()).ok()?;
    for word in words.skip(1) {
        after.push(word).ok()?;
    }
    parse_line(alloc, &after).ok()
}

/// What a terminal shows of a run that waits for its input.
fn waiting(request: &Request) -> &'static [u8] {
    match request.task {
        _ if request.task_file.is_some() => {
            b"ilocfarm: reading rows from the terminal; Ctrl-D on a line of its own ends them\n"
        }
        Task::Check => {
            b"ilocfarm: reading blocks and rows from the terminal; Ctrl-D on a line of its own ends them\n"
        }
        _ => b"ilocfarm: reading blocks from the terminal; Ctrl-D on a line of its own ends them\n",
    }
}

/// Whether blocks are run that start with no words, whatever a comment says.
fn gets_no_words(request: &Option<Request>) -> bool {
    match request {
        Some(request) => {
            matches!(request.task, Task::Run | Task::Simulate) && request.words.is_empty()
        }
        None => false,
    }
}

/// What helps where a block starts with no words.
const WORDS: &[u8] =
    b"ilocfarm: //SIM INPUT: isn't read here; give its words, as in ilocfarm run --at 1024 3 4\n";

/// What is said of an input without a byte.
const EMPTY: &[u8] = b"ilocfarm: the input was empty\n";

/// What a terminal shows before a run of this request; nothing if the input comes from elsewhere.
fn opening(terminals: Terminals, request: &Option<Request>) -> &'static [u8]
    ensures { terminals.input ≡ false → result.now ≡ [] }
{
    match request {
        Some(request) if terminals.input => waiting(request),
        _ => b"",
    }
}

/// What helps after a run that is or isn't done; nothing if faults don't go to a terminal.
fn hint<R: Read + Drop>(terminals: Terminals, is_done: bool, reader: &Watched<R>) -> &'static [u8]
    ensures { terminals.faults ≡ false → result.now ≡ [] }
{
    if !terminals.faults {
        b""
    } else if is_done && reader.is_empty() {
        EMPTY
    } else if reader.gives_words() {
        WORDS
    } else {
        b""
    }
}

/// Says `text`, if it isn't empty. Faults that aren't taken change nothing.
fn say<F: Write>(text: &[u8], faults: &mut F)
    ensures { text.now ≡ [] → F.contents faults.new ≡ F.contents faults.old }
{
    if !text.is_empty() {
        let _ = faults.write_all(text);
    }
}

/// Says why a text wasn't understood, if something is to be said of a request. Faults that aren't taken change nothing.
fn explain<T: Texts, F: Write>(
    alloc: Global,
    texts: &T,
    request: Option<&Request>,
    kept: &[u8],
    faults: &mut F,
)
    ensures { Explains (T.held texts.now) kept.now (F.contents faults.old) (F.contents faults.new) }
{
    if let Some(request) = request
        && let Ok(reason) = reason_of(alloc, texts, request, kept)
    {
        let _ = write_text(faults, &reason);
    }
}

/// Does what `run_program` does, and says more: before, what is read, where the input is a terminal; after, why a text wasn't
/// understood, and where faults go to a terminal, what helps.
///
/// Promise: how the program ends, and what status 0 tells, is as `run_program` has it. Where neither is a terminal, nothing more
/// is said but a reason of what was kept of the input, or of a named text: what `lint` lists first of it, or what is wrong with
/// one of its lines as a row, or that a line is one, or that it has no blocks.
pub fn run_talking<H: Threads + Wait + Sync, T: Texts, R: Read + Drop, W: Write, F: Write>(
    rt: &H,
    alloc: Global,
    words: io::Result<Args>,
    texts: &T,
    streams: &mut Streams<Watched<R>, W, F>,
    terminals: Terminals,
) -> Ending
    ensures ends { EndsTalking command_of (T.held texts.now) words terminals (bytes_of streams.new.reader.kept)
        (R.remaining streams.old.reader.reader) (R.remaining streams.new.reader.reader)
        (W.contents streams.old.writer) (W.contents streams.new.writer)
        (F.contents streams.old.faults) (F.contents streams.new.faults) result }
    ensures status_0 { result.status ≡ 0 → Status0Tells (T.held texts.now) words
        (R.remaining streams.old.reader.reader) (R.remaining streams.new.reader.reader)
        (W.contents streams.old.writer) (W.contents streams.new.writer) }
{
    let explains = terminals.faults || !are_terse(&words);
    let request = if terminals.input || explains {
        request_of(alloc, &words)
    } else {
        None
    };
    say(opening(terminals, &request), &mut streams.faults);
    streams.reader.keep(alloc, explains);
    streams
        .reader
        .watch(terminals.faults && gets_no_words(&request));
    let ending = run_program(rt, alloc, words, texts, streams);
    let unread = if explains && ending.status == 1 && ending.told.is_ok() {
        request.as_ref()
    } else {
        None
    };
    let kept = streams.reader.kept();
    explain(alloc, texts, unread, kept, &mut streams.faults);
    let is_done = request.is_some() && ending.status == 0;
    let text = hint(terminals, is_done, &streams.reader);
    say(text, &mut streams.faults);
    ending
}

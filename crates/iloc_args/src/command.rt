//! The program's command line, as the parser reads it.
ghost use Rattle.std.specs.Prelude.{◌≡◌, IfOk, find, map, pos};
ghost use Rattle.clap.specs.declared.builder.value_parser.ValueParser.TheVariants.{Signed};
ghost use Rattle.clap.specs.Simple.{new_shape};
ghost use Rattle.std.specs.Str.{bytes_eq};
ghost use Rattle.iloc_args.specs.declared.command.Entry.{Entry as entry_value};
ghost use Rattle.iloc_args.specs.Asked.{task_among, task_named};
ghost use Rattle.iloc_args.specs.Command.{at_rule, bare_rule, farm_app, latency_rule, nodes_rule, search_rule};
ghost use Rattle.iloc_args.specs.Command.{text_rule, top_shape, words_rule, workers_rule};
ghost use Rattle.iloc_args.specs.Steps.Building.{HasApp, HasRule, alone, default_rule, option_rule, rule_for, app_for, app_with, subcommand_for};

use crate::flag::Flag;
use crate::priority::HELP;
use crate::request::Task;
use clap::builder::ValueParser;
use clap::{Arg, ArgAction, Command, value_parser};
use iloc_meaning::LAST_ADDRESS;
use iloc_rules::MOST_NODES;
use iloc_timed::LONGEST_LATENCY;
use std::alloc::{AllocError, Global};

/// The version of the program, as the first heading of CHANGELOG.md has it.
const VERSION: &str = "1.0.0 (unreleased)";

/// What stands below the list of commands: limits, exit statuses, and where the manual is.
const MANUAL: &str = "\
Limits:
  16777216 bytes, 65535 blocks, 10000 operations in a block, numbers up to 2147483647
  Only latencies can be changed, by --load, --store and --mult; docs/CHANGING.md says where the rules are

Exit status:
  0  done; a block that faults is listed as fault
  1  the text is refused; ilocfarm lint says what is wrong in it
  2  a mistake in the command line
  3  no memory, or a worker could not be started
  4  reading or writing failed
  5  check, explain --task, trace --task: the rows for a block do not pass

Manual:
  man ilocfarm; in the repository man/ilocfarm.1 and docs/LANGUAGE.md";

/// What stands above the list of commands.
const ABOUT: &str = "\
List scheduler and simulator for ILOC blocks, which it reads from standard input:

  ilocfarm run 3 4 < task.iloc";

/// `--NAME N`, a number that this parser takes.
fn number_arg<'a>(
    alloc: Global,
    name: &'a str,
    help: &'a str,
    parser: ValueParser<'a>,
    usual: &'a str,
) -> Arg<'a>
    ensures { HasRule (default_rule name.entry.now usual.entry.now parser.entry) result }
{
    option_arg(alloc, name, help, parser).default_value(usual)
}

/// `--NAME N`, such a number, which may be left out.
fn option_arg<'a>(alloc: Global, name: &'a str, help: &'a str, parser: ValueParser<'a>) -> Arg<'a>
    ensures { HasRule (option_rule name.entry.now parser.entry) result }
{
    Arg::new(alloc, name)
        .long(name)
        .value_name("N")
        .help(help)
        .value_parser(parser)
}

/// `--NAME`
fn flag_arg<'a>(alloc: Global, name: &'a str, help: &'a str) -> Arg<'a>
    ensures { HasRule (bare_rule name.entry.now) result }
{
    Arg::new(alloc, name)
        .long(name)
        .help(help)
        .action(ArgAction::SetTrue)
}

/// `--NAME VALUE`, any text.
fn text_arg<'a>(alloc: Global, name: &'a str, value: &'a str, help: &'a str) -> Arg<'a>
    ensures { HasRule (text_rule name.entry.now) result }
{
    Arg::new(alloc, name)
        .long(name)
        .value_name(value)
        .help(help)
}

/// `--at N`
fn at_arg<'a>(alloc: Global) -> Arg<'a>
    ensures { HasRule at_rule result }
{
    number_arg(
        alloc,
        "at",
        "Address of the first WORD, a multiple of 4 up to 65532",
        value_parser!(u32).range(0..=LAST_ADDRESS as i64),
        "1024",
    )
}

/// `[WORD]...`
fn words_arg<'a>(alloc: Global) -> Arg<'a>
    ensures { HasRule words_rule result }
{
    Arg::new(alloc, "words")
        .value_name("WORD")
        .help("Memory words from --at on; write -1 as 4294967295; others are 0")
        .num_args(0..)
        .action(ArgAction::Append)
        .value_parser(value_parser!(u32))
}

/// `--workers N`
fn workers_arg<'a>(alloc: Global) -> Arg<'a>
    ensures { HasRule workers_rule result }
{
    number_arg(
        alloc,
        "workers",
        "How many workers share the blocks, 1 to 8",
        value_parser!(u32).range(1..=8),
        "2",
    )
}

/// `--NAME N`, a latency.
fn latency_arg<'a>(alloc: Global, name: &'a str, help: &'a str, usual: &'a str) -> Arg<'a>
    ensures { HasRule (latency_rule name.entry.now usual.entry.now) result }
{
    number_arg(
        alloc,
        name,
        help,
        value_parser!(u32).range(1..=LONGEST_LATENCY as i64),
        usual,
    )
}

/// How many nodes a search may have.
fn nodes_parser<'a>() -> ValueParser<'a>
    ensures { result ≡ Signed (pos 0) (pos 100000) }
{
    value_parser!(u32).range(0..=MOST_NODES as i64)
}

/// `--nodes N`
fn nodes_arg<'a>(alloc: Global) -> Arg<'a>
    ensures { HasRule nodes_rule result }
{
    number_arg(
        alloc,
        "nodes",
        "Visit at most N nodes for each number of cycles, 0 to 100000",
        nodes_parser(),
        "1000",
    )
}

/// `--nodes N`, which may be left out.
fn search_arg<'a>(alloc: Global) -> Arg<'a>
    ensures { HasRule search_rule result }
{
    option_arg(
        alloc,
        "nodes",
        "Also search for the best schedule, with at most N nodes for each number of cycles, 0 to 100000",
        nodes_parser(),
    )
}

/// An argument of a command.
#[derive(Clone, Copy)]
enum Argument {
    At,
    Words,
    Workers,
    /// A latency: the option, its help, and what it is where it isn't given.
    Latency(&'static str, &'static str, &'static str),
    Nodes,
    /// `--nodes` of a command that searches only where it is given.
    NodesIfGiven,
    /// An option that takes any text, what its value is called, and its help.
    Valued(&'static str, &'static str, &'static str),
    Flag(Flag),
    /// A flag with the command's own help.
    FlagSaying(Flag, &'static str),
}

const LOAD: Argument = Argument::Latency("load", "Cycles that load and loadAI take, 1 to 16", "5");

const STORE: Argument = Argument::Latency(
    "store",
    "Cycles that store and storeAI take, 1 to 16",
    "5",
);

const MULT: Argument = Argument::Latency("mult", "Cycles that mult and multI take, 1 to 16", "3");

const PRIORITY: Argument = Argument::Valued("priority", "NAME", HELP);

const PRIORITIES: Argument = Argument::Valued(
    "priorities",
    "FILE",
    "Rank operations by the numbers in FILE, a line for each block, instead of --priority",
);

/// `--priorities` of a command that compares them with others.
const PRIORITIES_TOO: Argument = Argument::Valued(
    "priorities",
    "FILE",
    "Rank operations by the numbers in FILE too, a line for each block",
);

const TASK: Argument = Argument::Valued(
    "task",
    "FILE",
    "Read the blocks from FILE, and only rows from standard input",
);

/// `--either-slot` of a command that reads rows with `--task` alone.
const EITHER_SLOT_WITH_TASK: Argument = Argument::FlagSaying(
    Flag::EitherSlot,
    "With --task, accept rows whose operations fit only when swapped",
);

/// `--csv` of a command whose table has a row for each operation.
const CSV_OF_OPERATIONS: Argument = Argument::FlagSaying(
    Flag::Csv,
    "Print a table of comma-separated values, a row for each operation",
);

/// A command: the task that it asks for, its name, what it is about, how it is used, and its arguments.
#[derive(Clone, Copy)]
struct Entry {
    task: Task,
    name: &'static str,
    about: &'static str,
    usage: &'static str,
    arguments: &'static [Argument],
}

/// The commands, in the order in which the help lists them.
const COMMANDS: [Entry; 11] = [
    Entry {
        task: Task::Run,
        name: "run",
        about: "Run each block, one operation after the other",
        usage: "ilocfarm run [OPTIONS] [WORD]... < BLOCKS",
        arguments: &[Argument::At, Argument::Words, Argument::Flag(Flag::Where)],
    },
    Entry {
        task: Task::Simulate,
        name: "simulate",
        about: "Schedule each block, and run the schedule",
        usage: "ilocfarm simulate [OPTIONS] [WORD]... < BLOCKS",
        arguments: &[
            Argument::At,
            Argument::Words,
            LOAD,
            STORE,
            MULT,
            PRIORITY,
            PRIORITIES,
            Argument::Flag(Flag::Disambiguate),
        ],
    },
    Entry {
        task: Task::Trace,
        name: "trace",
        about: "Schedule each block, run the schedule, and print what happens in each cycle",
        usage: "ilocfarm trace [OPTIONS] [WORD]... < BLOCKS",
        arguments: &[
            Argument::At,
            Argument::Words,
            LOAD,
            STORE,
            MULT,
            PRIORITY,
            PRIORITIES,
            TASK,
            EITHER_SLOT_WITH_TASK,
            Argument::Flag(Flag::Disambiguate),
        ],
    },
    Entry {
        task: Task::Schedule,
        name: "schedule",
        about: "Schedule each block, and print the schedule",
        usage: "ilocfarm schedule [OPTIONS] < BLOCKS",
        arguments: &[
            Argument::Workers,
            LOAD,
            STORE,
            MULT,
            PRIORITY,
            PRIORITIES,
            Argument::Flag(Flag::Disambiguate),
        ],
    },
    Entry {
        task: Task::Counts,
        name: "counts",
        about: "Schedule each block, and print how many cycles the schedule takes",
        usage: "ilocfarm counts [OPTIONS] < BLOCKS",
        arguments: &[
            Argument::Workers,
            LOAD,
            STORE,
            MULT,
            PRIORITY,
            PRIORITIES,
            Argument::Flag(Flag::Disambiguate),
            Argument::Flag(Flag::Csv),
        ],
    },
    Entry {
        task: Task::Compare,
        name: "compare",
        about: "Schedule each block by each priority, and print the cycles beside their bound",
        usage: "ilocfarm compare [OPTIONS] < BLOCKS",
        arguments: &[
            Argument::NodesIfGiven,
            Argument::Workers,
            LOAD,
            STORE,
            MULT,
            PRIORITIES_TOO,
            Argument::Flag(Flag::Disambiguate),
            Argument::Flag(Flag::Csv),
        ],
    },
    Entry {
        task: Task::Optimize,
        name: "optimize",
        about: "Search for the best schedule of each block, and print it with a bound on the cycles",
        usage: "ilocfarm optimize [OPTIONS] < BLOCKS",
        arguments: &[
            Argument::Nodes,
            Argument::Workers,
            LOAD,
            STORE,
            MULT,
            Argument::Flag(Flag::Disambiguate),
        ],
    },
    Entry {
        task: Task::Explain,
        name: "explain",
        about: "Schedule each block, and print why the schedule takes its cycles",
        usage: "ilocfarm explain [OPTIONS] < BLOCKS",
        arguments: &[
            Argument::Workers,
            LOAD,
            STORE,
            MULT,
            PRIORITY,
            PRIORITIES,
            TASK,
            EITHER_SLOT_WITH_TASK,
            Argument::Flag(Flag::Disambiguate),
            Argument::Flag(Flag::Cycles),
            CSV_OF_OPERATIONS,
        ],
    },
    Entry {
        task: Task::Check,
        name: "check",
        about: "Judge schedules that others made, given after their blocks",
        usage: "ilocfarm check [OPTIONS] [WORD]... < BLOCKS_AND_ROWS",
        arguments: &[
            Argument::At,
            Argument::Words,
            LOAD,
            STORE,
            MULT,
            Argument::NodesIfGiven,
            TASK,
            Argument::Flag(Flag::EitherSlot),
            Argument::Flag(Flag::Disambiguate),
            Argument::Flag(Flag::Lawful),
            Argument::Flag(Flag::Operations),
            Argument::Flag(Flag::Outputs),
            Argument::Flag(Flag::Csv),
            Argument::Flag(Flag::Json),
        ],
    },
    Entry {
        task: Task::Graph,
        name: "graph",
        about: "Print the dependence graph of each block, for Graphviz",
        usage: "ilocfarm graph [OPTIONS] < BLOCKS",
        arguments: &[LOAD, STORE, MULT, Argument::Flag(Flag::Disambiguate)],
    },
    Entry {
        task: Task::Lint,
        name: "lint",
        about: "Print every fault of the text, and what was expected there",
        usage: "ilocfarm lint < BLOCKS",
        arguments: &[],
    },
];

impl Argument {
    /// The argument as the parser reads it.
    fn arg<'a>(self, alloc: Global) -> Arg<'a>
        ensures { HasRule (rule_for self) result }
    {
        match self {
            Argument::At => at_arg(alloc),
            Argument::Words => words_arg(alloc),
            Argument::Workers => workers_arg(alloc),
            Argument::Latency(name, help, usual) => latency_arg(alloc, name, help, usual),
            Argument::Nodes => nodes_arg(alloc),
            Argument::NodesIfGiven => search_arg(alloc),
            Argument::Valued(name, value, help) => text_arg(alloc, name, value, help),
            Argument::Flag(flag) => flag_arg(alloc, flag.word(), flag.help()),
            Argument::FlagSaying(flag, help) => flag_arg(alloc, flag.word(), help),
        }
    }
}

/// `NAME`, with what it is about and how it is used.
fn bare_command<'a>(alloc: Global, name: &'a str, about: &'a str, usage: &'a str) -> Command<'a>
    ensures { HasApp (alone (new_shape name.entry.now)) result }
{
    Command::new(alloc, name).about(about).override_usage(usage)
}

impl Entry {
    /// The command as the parser reads it.
    fn command<'a>(&self, alloc: Global) -> Result<Command<'a>, AllocError>
        ensures { IfOk result (HasApp (app_for self.now)) }
    {
        let mut command = bare_command(alloc, self.name, self.about, self.usage);
        for argument in self.arguments {
            command = command.arg(argument.arg(alloc))?;
        }
        Ok(command)
    }
}

/// The program without its commands.
fn top_command<'a>(alloc: Global) -> Result<Command<'a>, AllocError>
    ensures { IfOk result (HasApp (alone top_shape)) }
{
    Ok(
        bare_command(alloc, "ilocfarm", ABOUT, "ilocfarm <COMMAND> < BLOCKS")
            .bin_name("ilocfarm")?
            .no_binary_name(true)
            .subcommand_required(true)
            .version(VERSION)
            .after_help(MANUAL),
    )
}

/// The program with `commands`.
fn with_commands<'a>(alloc: Global, entries: &[Entry]) -> Result<Command<'a>, AllocError>
    ensures { IfOk result (HasApp (app_with entries.now)) }
{
    let mut farm = top_command(alloc)?;
    for entry in entries {
        farm = farm.subcommand(entry.command(alloc)?)?;
    }
    Ok(farm)
}

/// The whole command line, whose words stand after the program's name.
pub(crate) fn farm_command<'a>(alloc: Global) -> Result<Command<'a>, AllocError>
    ensures { IfOk result (HasApp farm_app) }
{
    with_commands(alloc, &COMMANDS)
}

/// The first of the commands that has `name`.
fn entry_named(entries: &[Entry], name: &str) -> Option<Entry>
    ensures { result ≡ find (λ (e : entry_value). bytes_eq e.name.now name.now) entries.now }
{
    entries.iter().copied().find(|entry| entry.name == name)
}

/// The task of the first of the commands that has `name`.
fn task_in(entries: &[Entry], name: &str) -> Option<Task>
    ensures { result ≡ task_among (map subcommand_for entries.now) name.now }
{
    entry_named(entries, name).map(|entry| entry.task)
}

/// The task of the command of this name.
pub(crate) fn task_of(name: &str) -> Option<Task>
    ensures { result ≡ task_named name.now }
{
    task_in(&COMMANDS, name)
}

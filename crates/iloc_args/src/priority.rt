//! What the ready operations are ranked by, as the command line names it.
ghost use Rattle.std.specs.Prelude.{◌≡◌, find};
ghost use Rattle.std.specs.Str.{bytes_eq};
ghost use Rattle.iloc_args.specs.Priority.{priority_word};
ghost use Rattle.iloc_rules.specs.Heuristics.Listed.{heuristics};
ghost use Rattle.iloc_rules.specs.declared.heuristic.Heuristic.{Heuristic as heuristic_value};

use iloc_rules::{HEURISTICS, Heuristic};

/// What the help says of `--priority`: their names in this order, from which the completions have them, and the default. The
/// parser has none, so that it tells whether the option is given.
pub(crate) const HELP: &str =
    "What goes first: chain, slack, descendants, successors, latency or order [default: chain]";

/// What is said where a name is none of these.
pub(crate) const NO_SUCH_PRIORITY: &str =
    "--priority is none of chain, slack, descendants, successors, latency, order";

/// The name of a heuristic.
///
/// Promise: a heuristic is listed under the name by which the command line asks for it.
pub fn priority_name(heuristic: Heuristic) -> &'static str
    ensures { result.now ≡ priority_word heuristic }
{
    match heuristic {
        Heuristic::Chain => "chain",
        Heuristic::Slack => "slack",
        Heuristic::Descendants => "descendants",
        Heuristic::Successors => "successors",
        Heuristic::Latency => "latency",
        Heuristic::Order => "order",
    }
}

/// The heuristic of this name.
pub(crate) fn heuristic_of(name: &str) -> Option<Heuristic>
    ensures { result ≡ find (λ (h : heuristic_value). bytes_eq (priority_word h) name.now) heuristics }
{
    HEURISTICS
        .iter()
        .copied()
        .find(|heuristic| priority_name(*heuristic) == name)
}

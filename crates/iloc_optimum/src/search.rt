//! The search for cycles of issue within windows.
ghost use Rattle.std.specs.Prelude.{IfOk};
ghost use Rattle.iloc_optimum.specs.Timing.{IsSized, AreSized};
ghost use Rattle.iloc_optimum.specs.Found.{IsFound};

use crate::choice::first_open;
use crate::narrowing::narrow;
use crate::proposal::Proposer;
use crate::windows::{Windows, split};
use iloc_ops::NoMemory;
use iloc_sched::Edge;
use iloc_timed::Kind;
use std::alloc::Global;

/// What a search finds.
#[derive(Debug, Drop)]
pub enum Found {
    /// No cycles of issue are within the windows.
    Nothing,
    /// By operation a cycle for which nothing was found to be wrong.
    Cycles(Vec<u32>),
    /// Neither, with the nodes that it was given.
    Unknown,
}

/// Searches the windows of `root` for cycles in which operations of `kinds`, with `edges`, can be issued, by at most
/// `nodes` nodes.
///
/// Promise: Where it finds nothing, no cycles of issue within the windows keep the edges and the units.
pub fn search_windows(
    alloc: Global,
    edges: &[Edge],
    kinds: &[Kind],
    root: Windows,
    nodes: u32,
) -> Result<Found, NoMemory>
    requires sized { IsSized edges.now kinds.now }
    requires windows { AreSized kinds.now root }
    ensures { IfOk result (IsFound edges.now kinds.now root) }
{
    let mut proposer = Proposer::new(alloc);
    let mut stack = Vec::new(alloc);
    stack.push(root)?;
    for _ in 0..nodes {
        let Some(mut windows) = stack.pop() else {
            return Ok(Found::Nothing);
        };
        if narrow(&mut proposer, edges, kinds, &mut windows)? {
            let Some(i) = first_open(&windows) else {
                return Ok(Found::Cycles(windows.firsts));
            };
            let late = split(alloc, &mut windows, i)?;
            stack.push(late)?;
            stack.push(windows)?;
        }
    }
    if stack.is_empty() {
        Ok(Found::Nothing)
    } else {
        Ok(Found::Unknown)
    }
}

//! A table of terms.
ghost use Rattle.std.specs.Prelude.{◌≡◌, [], length, true, IfSome, IfOk};

mod alike;
mod epochs;
mod memories;
pub(crate) mod node;
mod products;
mod shifts;
mod slots;
mod sums;
mod tries;
pub(crate) mod words;

use iloc_ops::NoMemory;
use node::Node;
use slots::Slots;
use std::alloc::Global;
use std::marker::Model;

/// How many epochs of a memory are looked at, at most.
const REACH: usize = 64;

/// How many steps it costs to make or find a term.
pub(crate) const STEPS_OF_A_TERM: usize = 8;

/// Terms by their numbers. Equal terms share a number.
#[derive(Drop)]
pub(crate) struct Table {
    nodes: Vec<Node>,
    // Where each term is. They are hints: a caller tests whether the term is there.
    slots: Slots,
    // How many steps it may still take before products, long sums and memories are no longer put in order: each epoch and
    // each fork that is looked at takes one, and each term that is made or found as many as that costs.
    steps: usize,
}

impl Model for Table {
    ghost use Rattle.std.specs.Prelude.{List};
    ghost use Rattle.iloc_terms.specs.declared.table.node.Node.{Node};

    ghost Value = { List Node };

    ghost view = { λ table. table.nodes.items };
}

impl Table {
    ghost use Rattle.iloc_terms.specs.Steps.Terms.{IsNode, Means, Adds};
    ghost use Rattle.iloc_terms.specs.Steps.Order.{IsOrdered};

    /// The table without terms. It takes at most `steps` steps to normalise products, long sums and memories.
    pub(crate) fn new(alloc: Global, steps: usize) -> Table
        ensures { result ≡ [] }
    {
        Table {
            nodes: Vec::new(alloc),
            slots: Slots::new(alloc),
            steps,
        }
    }

    /// How many epochs of a memory may be looked at.
    fn reach(&self) -> usize {
        self.steps.min(REACH)
    }

    /// Whether it has a step left.
    fn has_steps(&self) -> bool {
        self.steps > 0
    }

    /// Takes a step, if there is one more.
    fn spends(&mut self) -> bool
        ensures { self.new ≡ self.old }
    {
        if self.steps == 0 {
            return false;
        }
        self.steps -= 1;
        true
    }

    /// How many terms it has.
    pub(crate) fn len(&self) -> usize
        ensures { result ≡ length self.now }
    {
        self.nodes.len()
    }

    /// The terms, by their numbers.
    pub(crate) fn nodes(&self) -> &[Node]
        ensures { result.now ≡ self.now }
    {
        self.nodes.as_slice()
    }

    /// The term with this number.
    pub(crate) fn node(&self, number: u32) -> Option<Node>
        ensures { IfSome result (IsNode self.now number) }
    {
        self.nodes.get(number as usize).copied()
    }

    /// The number of a term, which is added where it isn't there.
    pub(crate) fn intern(&mut self, node: Node) -> Result<u32, NoMemory>
        ensures { IfOk result (λ number. Adds self.old self.new (λ memory d. Means memory d number node)) }
    {
        let Ok(next) = u32::try_from(self.nodes.len()) else {
            return Err(NoMemory);
        };
        self.steps = self.steps.saturating_sub(STEPS_OF_A_TERM);
        let number = self.slots.noted(&self.nodes, node, next)?;
        if self.node(number) == Some(node) {
            return Ok(number);
        }
        self.nodes.push(node)?;
        Ok(next)
    }

    /// Whether each term names numbers below its own alone.
    pub(crate) fn is_ordered(&self) -> bool
        ensures { result ≡ true → IsOrdered self.now }
    {
        self.nodes
            .iter()
            .enumerate()
            .all(|(number, node)| node.names_below(number))
    }
}

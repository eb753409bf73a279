//! The text that draws blocks, in the language of Graphviz.
ghost use Rattle.std.specs.Prelude.{◌≡◌, [], ◌++◌, List, ℕ, length, OnOk};
ghost use Rattle.std.specs.List.{flat_map};
ghost use Rattle.std.specs.Option.{option_copied};
ghost use Rattle.iloc_rules.specs.Renaming.{renamed, without_nops};
ghost use Rattle.iloc_graph.specs.Listing as listed;
ghost use Rattle.iloc_graph.specs.Listing.{IsCluster};

use crate::nearest::nearest_pairs;
use Piece::{Number, Operation, Text};
use iloc_explain::{Delays, longest_chain};
use iloc_ops::{Block, Name, NoMemory, Op};
use iloc_pieces::{Piece, push_all};
use iloc_rules::Pair;
use iloc_sched::Graph;
use iloc_timed::Kind;
use std::alloc::Global;

/// Promise: Appends what comes before the first block, with the colours of the page.
pub fn push_opening(text: &mut Vec<u8>) -> Result<(), NoMemory>
    ensures { OnOk result (text.new.items ≡ text.old.items ++ listed.opening) }
{
    push_all(
        text,
        &[
            Text("strict digraph blocks {\n"),
            Text(
                "    bgcolor=\"transparent\"; fontname=\"monospace\"; fontcolor=\"#59636e\"; color=\"#7d8590\";\n",
            ),
            Text(
                "    node [shape=box, style=\"filled,rounded\", fontname=\"monospace\", fontcolor=\"#0b0f14\", color=\"transparent\"];\n",
            ),
            Text("    edge [fontname=\"monospace\", fontcolor=\"#59636e\", color=\"#7d8590\"];\n"),
        ],
    )
}

/// Promise: Appends what comes after the last block.
pub fn push_closing(text: &mut Vec<u8>) -> Result<(), NoMemory>
    ensures { OnOk result (text.new.items ≡ text.old.items ++ listed.closing) }
{
    Ok(text.extend_from_slice(b"}\n")?)
}

/// The colour of the box of an operation of this kind.
fn colour(kind: Kind) -> &'static str
    ensures { result.now ≡ listed.colour kind }
{
    match kind {
        Kind::Load => "#6cb6ff",
        Kind::Store => "#b392f0",
        Kind::Mult => "#f0a35e",
        Kind::Output => "#6fce7c",
        Kind::Other => "#b9c0c8",
    }
}

/// Appends a text as it is written in quotes, with `\` before each `"` and `\`.
fn push_escaped(text: &mut Vec<u8>, name: &[u8]) -> Result<(), NoMemory>
    ensures { OnOk result (text.new.items ≡ text.old.items ++ flat_map listed.escaped_byte name.now) }
{
    for byte in name {
        if matches!(*byte, b'"' | b'\\') {
            text.push(b'\\')?;
        }
        text.push(*byte)?;
    }
    Ok(())
}

/// Appends the name of a block in quotes, `-` where it has none.
fn push_name(text: &mut Vec<u8>, name: Option<&Name>) -> Result<(), NoMemory>
    ensures { OnOk result
        (text.new.items ≡ text.old.items ++ listed.escaped_name (option_copied name.entry)) }
{
    match name {
        Some(name) => push_escaped(text, name.as_str().as_bytes()),
        None => Ok(text.push(b'-')?),
    }
}

/// Appends the lines before the operations of block `number`.
fn push_head(text: &mut Vec<u8>, number: usize, name: Option<&Name>) -> Result<(), NoMemory>
    ensures { OnOk result
        (text.new.items ≡ text.old.items ++ listed.head_lines number (option_copied name.entry)) }
{
    let block = Number(number as u64);
    push_all(
        text,
        &[
            Text("    subgraph cluster_"),
            block,
            Text(" {\n        label=\"block "),
            block,
            Text(" "),
        ],
    )?;
    push_name(text, name)?;
    Ok(text.extend_from_slice(b"\";\n")?)
}

/// Appends the line of operation `i` of block `number`.
fn push_operation(
    text: &mut Vec<u8>,
    number: usize,
    i: usize,
    op: &Op,
    priority: u64,
) -> Result<(), NoMemory>
    ensures { OnOk result (text.new.items ≡ text.old.items ++ listed.node_line number i op.now priority) }
{
    let (block, i) = (Number(number as u64), Number(i as u64));
    push_all(
        text,
        &[
            Text("        b"),
            block,
            Text("_"),
            i,
            Text(" [label=\""),
            i,
            Text(": "),
            Operation(*op),
            Text("\\npriority "),
            Number(priority),
            Text("\", fillcolor=\""),
            Text(colour(Kind::of(op))),
            Text("\"];\n"),
        ],
    )
}

/// Appends the lines of all operations of a block that are no `nop`.
fn push_operations(
    text: &mut Vec<u8>,
    number: usize,
    block: &[Op],
    priorities: &[u32],
) -> Result<(), NoMemory>
    requires { length (without_nops block.now) ≡ length priorities.now }
    ensures { OnOk result (text.new.items ≡ text.old.items
        ++ listed.node_lines number 0 (without_nops block.now) priorities.now) }
{
    let mut i = 0;
    for op in block {
        match op {
            Op::Nop => {}
            _ => {
                push_operation(text, number, i, op, u64::from(priorities[i]))?;
                i += 1;
            }
        }
    }
    Ok(())
}

/// Appends the lines of all edges.
fn push_edges(text: &mut Vec<u8>, number: usize, pairs: &[Pair]) -> Result<(), NoMemory>
    ensures { OnOk result (text.new.items ≡ text.old.items ++ flat_map (listed.edge_line number) pairs.now) }
{
    for pair in pairs {
        let block = Number(number as u64);
        push_all(
            text,
            &[
                Text("        b"),
                block,
                Text("_"),
                Number(pair.first as u64),
                Text(" -> b"),
                block,
                Text("_"),
                Number(pair.second as u64),
                Text(" [label=\""),
                Number(pair.delay),
                Text("\"];\n"),
            ],
        )?;
    }
    Ok(())
}

/// Appends each node of `chain`, as the end of an edge.
fn push_links(text: &mut Vec<u8>, number: usize, chain: &[usize]) -> Result<(), NoMemory>
    ensures { OnOk result (text.new.items ≡ text.old.items ++ flat_map (listed.link number) chain.now) }
{
    for i in chain {
        let (block, i) = (Number(number as u64), Number(*i as u64));
        push_all(text, &[Text(" -> b"), block, Text("_"), i])?;
    }
    Ok(())
}

/// Appends the line that marks operation `first` or, where `rest` isn't empty, the edges from it along `rest`.
fn push_path(
    text: &mut Vec<u8>,
    number: usize,
    first: usize,
    rest: &[usize],
) -> Result<(), NoMemory>
    ensures { OnOk result (text.new.items ≡ text.old.items ++ listed.path_line number first rest.now) }
{
    let (block, i) = (Number(number as u64), Number(first as u64));
    push_all(text, &[Text("        b"), block, Text("_"), i])?;
    push_links(text, number, rest)?;
    Ok(text.extend_from_slice(b" [color=\"#e5484d\", penwidth=2];\n")?)
}

/// Appends the lines that mark the nodes of `chain`.
fn push_marked(text: &mut Vec<u8>, number: usize, chain: &[usize]) -> Result<(), NoMemory>
    ensures { OnOk result (text.new.items ≡ text.old.items ++ flat_map (λ j. listed.path_line number j []) chain.now) }
{
    for i in chain {
        push_path(text, number, *i, &[])?;
    }
    Ok(())
}

/// Appends the lines that mark the edges and the nodes of a chain.
fn push_chain(text: &mut Vec<u8>, number: usize, chain: &[usize]) -> Result<(), NoMemory>
    ensures { OnOk result (text.new.items ≡ text.old.items ++ listed.chain_lines number chain.now) }
{
    match chain {
        [] => Ok(()),
        [first, rest @ ..] => {
            push_path(text, number, *first, rest)?;
            push_marked(text, number, chain)
        }
    }
}

/// Appends what draws the block of `graph` by its rule of memory, whose `number` is counted from 1: a cluster with a node for
/// each operation, an edge for each nearest pair, labelled with its delay, and a longest chain of delays, which is marked.
/// After a refusal of memory a part of it may have been appended.
///
/// Promise: What is appended is a text that draws the block.
pub fn push_cluster(
    alloc: Global,
    text: &mut Vec<u8>,
    number: usize,
    block: &Block,
    graph: &Graph,
) -> Result<(), NoMemory>
    requires { graph.now.ops ≡ renamed block.now.ops }
    ensures { OnOk result ((cluster : List ℕ)
        × IsCluster graph.now.rule graph.now.latencies number block.now.name block.now.ops cluster
        × (text.new.items ≡ text.old.items ++ cluster)) }
{
    let mut chains = Vec::new(alloc);
    graph.chains(&mut chains)?;
    let delays = Delays::of(alloc, graph.ops(), graph.latencies(), graph.rule())?;
    let pairs = nearest_pairs(alloc, graph, &delays)?;
    let chain = longest_chain(alloc, &delays, &chains)?;
    push_head(text, number, block.name.as_ref())?;
    push_operations(text, number, block.ops.as_slice(), &chains)?;
    push_edges(text, number, &pairs)?;
    push_chain(text, number, &chain)?;
    Ok(text.extend_from_slice(b"    }\n")?)
}

//! The control-flow graph, in the language of Graphviz. `AllocError`: out of memory for the text.

use crate::control::{block_starts, target_at};
use crate::lines::ListingInput;
use crate::steps::Step;
use bpf_text::write_insn;
use insn_codec::{Insn, Successors};
use log_facts::write_verdict;
use std::alloc::{AllocError, Global};
use std::fmt::Write;
use verifier::VerifyFault;

/// The style of an edge that no run takes, and of a block that no run reaches.
const UNREACHED: &str = "style=dashed, color=gray50, fontcolor=gray50";

/// The first lines of a graph.
const HEAD: &str =
    "digraph program {\n    node [shape=box, fontname=\"monospace\"];\n    edge [fontname=\"monospace\"];\n";

/// What is known of an edge.
#[derive(Clone, Copy)]
enum Edge<'a> {
    /// Nothing: there was no pass, since the program's shape has a fault.
    Unknown,
    /// A run may take it; the text is what is new on it, empty if nothing is.
    Taken(&'a str),
    /// No run takes it.
    Dead,
}

/// What is known of an edge. If a run may take the edge, `seen` is the text of what is new on it, and the result is `Taken` with this text.
/// If `seen` is `None`, the result is `Dead`: no run takes the edge. But if there was no pass over the program (`has_pass` of `input` is
/// false), since its shape has a fault, the result is `Unknown`: nothing is known of the edge.
fn edge_of<'a>(input: &ListingInput<'_>, seen: Option<&'a String>) -> Edge<'a> {
    match seen {
        Some(text) => Edge::Taken(text.as_str()),
        None if input.has_pass => Edge::Dead,
        None => Edge::Unknown,
    }
}

/// The block that is being written.
#[derive(Drop)]
struct Block {
    /// Its first slot.
    first: usize,
    /// Whether a run may reach it.
    is_reached: bool,
    /// Whether an instruction of it is rejected.
    is_refused: bool,
}

/// Writes the attributes of an edge in the language of Graphviz, by what is known of it (`edge`). An edge that no run takes (`Dead`) gets
/// the style `UNREACHED` and no label. Any other edge, one that a run may take (`Taken`) or of which nothing is known (`Unknown`), gets the
/// label `name`, followed by what is new on the edge (`seen`), if anything is. `name` is `taken` or `not taken` after a conditional jump.
/// Otherwise it is empty and nothing is new, so such an edge has no label. `AllocError`: out of memory for the text.
fn write_style(text: &mut String, name: &str, edge: Edge<'_>) -> Result<(), AllocError> {
    match edge {
        Edge::Dead => write!(text, " [{UNREACHED}]"),
        Edge::Taken(seen) if !seen.is_empty() => write!(text, " [label=\"{name}:\\n{seen}\"]"),
        _ if name.is_empty() => Ok(()),
        _ => write!(text, " [label=\"{name}\"]"),
    }
}

/// Writes the edge from the block with the first slot `from` to the block with the first slot `to`. `edge` is what is known of this edge.
/// If no run takes the edge (`Dead`), its style is dashed and gray. Any other edge has a label if it leaves a conditional jump: `name`,
/// which is then `taken` or `not taken`, and after it what is new on the edge, if anything is. For other edges `name` is empty and nothing
/// is new, so they have no label.
fn write_edge(
    text: &mut String,
    from: usize,
    to: usize,
    name: &str,
    edge: Edge<'_>,
) -> Result<(), AllocError> {
    write!(text, "    block_{from} -> block_{to}")?;
    write_style(text, name, edge)?;
    text.push_str(";\n")
}

/// Writes the edges out of the block with the first slot `first`: those of its last instruction, `insn`, which is at `slot`. The two edges
/// of a conditional jump are named `not taken` and `taken`. `step` has what is new on each edge, and `None` for an edge that no run takes.
/// `step` is itself `None` if the pass did not reach `insn`, or if an instruction of the block is rejected: then each edge is written as
/// one that no run takes or, if there was no pass (`has_pass` of `input`), as one of which nothing is known. No edge is written to a slot
/// at which no instruction begins: only a program whose shape has a fault has such edges.
fn write_edges(
    text: &mut String,
    input: &ListingInput<'_>,
    first: usize,
    slot: usize,
    insn: &Insn,
    step: Option<&Step>,
) -> Result<(), AllocError> {
    let program = input.program;
    let successors = insn.profile().successors;
    let (not_taken, taken) = match successors {
        Successors::NextOrJump(_) => ("not taken", "taken"),
        Successors::Next | Successors::Jump(_) | Successors::Nothing => ("", ""),
    };
    let next = slot.saturating_add(insn.slots());
    if successors.falls() && program.is_first(next) {
        let seen = step.and_then(|step| step.falling.as_ref());
        write_edge(text, first, next, not_taken, edge_of(input, seen))?;
    }
    match target_at(program, slot) {
        Some(to) if program.is_first(to) => {
            let seen = step.and_then(|step| step.jumping.as_ref());
            write_edge(text, first, to, taken, edge_of(input, seen))
        }
        _ => Ok(()),
    }
}

/// Appends `lines`, the lines of a verdict, to the label that is being written in `text`. Each line ends with `\l` instead of its line
/// feed: so Graphviz aligns it to the left. Nothing is escaped, since a verdict has neither a quote nor a backslash. `AllocError`: out of
/// memory.
fn write_label(text: &mut String, lines: &str) -> Result<(), AllocError> {
    for line in lines.lines() {
        write!(text, "{line}\\l")?;
    }
    Ok(())
}

/// The graph that is being written.
#[derive(Drop)]
struct Graph<'a> {
    alloc: Global,
    input: &'a ListingInput<'a>,
    /// The slot and the reason of the rejection; `None` if the program is accepted.
    fault: Option<VerifyFault>,
    /// The fault in words, as lines; empty if there is none.
    why: &'a str,
    /// For each slot whether a block begins there.
    starts: &'a [bool],
    /// The index in the steps of `input` of the next step.
    next: usize,
    block: Block,
}

impl<'a> Graph<'a> {
    /// Whether a basic block begins at `slot`. `write_slot` also calls this for the slot after an instruction: the block ends with the
    /// instruction if another begins there. So the result is true past the program's last slot, at which the last block ends.
    fn is_start(&self, slot: usize) -> bool {
        self.starts.get(slot).copied().unwrap_or(true)
    }

    /// Returns the step of the instruction at `slot`, with what is new before it and on its edges; `None` if the pass did not reach it.
    /// Only the step of index `next` is compared with `slot`; if it is returned, `next` becomes the index of the step after it. This is
    /// enough, since the steps are in ascending order of their slots, and `write_blocks` asks for slots in that order.
    fn step_at(&mut self, slot: usize) -> Option<&'a Step> {
        let step = self.input.steps.get(self.next)?;
        if step.slot != slot {
            return None;
        }
        self.next = self.next.saturating_add(1);
        Some(step)
    }

    /// Writes the beginning of the block whose first slot is `slot`: its name, and its attributes up to the quote that opens its label.
    /// Makes it the block that is being written (`block`), of which no instruction is rejected so far: `write_fault` sets `is_refused`.
    /// `is_reached` is whether the pass over the facts reached the block, so that a run may reach it. It is false of every block if there
    /// was no pass, since the program's shape has a fault.
    fn begin(
        &mut self,
        text: &mut String,
        slot: usize,
        is_reached: bool,
    ) -> Result<(), AllocError> {
        self.block = Block {
            first: slot,
            is_reached,
            is_refused: false,
        };
        write!(text, "    block_{slot} [label=\"")
    }

    /// If the instruction at `slot`, which was written last, is the rejected one: writes the verdict after it, into the label of the block
    /// that is being written, and sets `is_refused` of this block, so that `end` makes it red. Else, also if the program is accepted, does
    /// nothing.
    fn write_fault(&mut self, text: &mut String, slot: usize) -> Result<(), AllocError> {
        match self.fault {
            Some(fault) if fault.slot == slot => {
                let mut lines = String::new(self.alloc);
                write_verdict(&mut lines, Err(fault), self.why)?;
                self.block.is_refused = true;
                write_label(text, lines.as_str())
            }
            _ => Ok(()),
        }
    }

    /// Writes the end of the basic block that is being written (`block`), in the language of Graphviz: the quote that closes its label, and
    /// its style. The block is red if it has the rejected instruction. Else it is dashed if the pass over the facts did not reach it
    /// (`is_reached` is false): no run does, or the pass has ended before it, at the rejected instruction. If there was no pass, since the
    /// program's shape has a fault (`has_pass` is false), no block is dashed. `AllocError`: out of memory for the text.
    fn end(&self, text: &mut String) -> Result<(), AllocError> {
        text.push_str("\"")?;
        if self.block.is_refused {
            text.push_str(", color=red, penwidth=2")?;
        } else if self.input.has_pass && !self.block.is_reached {
            write!(text, ", {UNREACHED}")?;
        }
        text.push_str("];\n")
    }

    /// Writes a line with `slot` and the instruction there, `insn`, into the label of the block that is being written. If it is the
    /// rejected instruction, the lines of the verdict follow in the label, and the block is recorded as rejected (`write_fault`).
    fn write_line(
        &mut self,
        text: &mut String,
        slot: usize,
        insn: &Insn,
    ) -> Result<(), AllocError> {
        write!(text, "{slot}: ")?;
        write_insn(text, insn)?;
        // In a label `\l` ends a line that Graphviz aligns to the left.
        text.push_str("\\l")?;
        self.write_fault(text, slot)
    }

    /// Writes the instruction `insn`, which is at `slot`, as a line in the label of its block; the verdict follows if `insn` is the
    /// rejected instruction. If a block begins at `slot`, its beginning is written first. If the block ends with `insn`, the end of the
    /// block and the edges out of it follow. `insn` has a step (`step_at`) if the pass over the facts reached `insn`, and so its block; the
    /// step has what is new on each edge that a run may take. Without a step, or if an instruction of the block is rejected, the edges are
    /// written as edges that no run takes. But if there was no pass (`has_pass`), since the program's shape has a fault, they are written
    /// as edges of which nothing is known. Slots are passed in ascending order, since `step_at` compares only the next step.
    fn write_slot(
        &mut self,
        text: &mut String,
        slot: usize,
        insn: &Insn,
    ) -> Result<(), AllocError> {
        let step = self.step_at(slot);
        if self.is_start(slot) {
            self.begin(text, slot, step.is_some())?;
        }
        self.write_line(text, slot, insn)?;
        if self.is_start(slot.saturating_add(insn.slots())) {
            self.end(text)?;
            let step = step.filter(|_| !self.block.is_refused);
            write_edges(text, self.input, self.block.first, slot, insn, step)?;
        }
        Ok(())
    }
}

/// Writes the basic blocks of the program of `graph`, in the order of their slots, as nodes in the language of Graphviz, and after each
/// block the edges out of it. `graph` also keeps how far the writing is: the current block, and the next step, an instruction that a run
/// may reach. `write_slot` writes an instruction, before it the beginning of a block, if one begins there, and after it the end of a block,
/// if one ends there. A slot at which no instruction begins, the second one of a wide instruction, is skipped.
fn write_blocks(text: &mut String, mut graph: Graph<'_>) -> Result<(), AllocError> {
    let program = graph.input.program;
    for slot in 0..program.slots() {
        if let Some(insn) = program.get(slot) {
            graph.write_slot(text, slot, insn)?;
        }
    }
    Ok(())
}

/// The control flow of the program of `input` as text in the language of Graphviz: a node for each basic block, with its instructions, and
/// the edges between the blocks, those of a conditional jump with the facts that are new on each. Blocks that the verifier's pass did not
/// reach, and edges that it did not follow, are dashed. If the program's shape has a fault, there was no pass, and nothing is dashed.
/// `fault` is the rejection, `None` if the program is accepted; `why` is its reason in words, empty for an accepted program. The block of
/// the rejected instruction is red, and has the verdict and `why` after this instruction. `AllocError`: out of memory.
pub(crate) fn graph_of(
    alloc: Global,
    input: &ListingInput<'_>,
    fault: Option<VerifyFault>,
    why: &str,
) -> Result<String, AllocError> {
    let starts = block_starts(alloc, input.program)?;
    let graph = Graph {
        alloc,
        input,
        fault,
        why,
        starts: &starts,
        next: 0,
        block: Block {
            first: 0,
            is_reached: false,
            is_refused: false,
        },
    };
    let mut text = String::from_str(alloc, HEAD)?;
    write_blocks(&mut text, graph)?;
    text.push_str("}\n")?;
    Ok(text)
}

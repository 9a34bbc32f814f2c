//! What is new before each instruction and on its edges, as text. `AllocError`: out of memory for the text.

use crate::known::write_known;
use insn_codec::{Insn, Program, Successors};
use log_facts::{Edges, KnownFacts};
use reg_kinds::Facts;
use std::alloc::{AllocError, Global};
use tagged_model::Named;

/// An instruction that a run may reach, with the texts of its notes.
#[derive(Drop)]
pub(crate) struct Step {
    pub slot: usize,
    /// What is new before it, or all that is known (`is_whole` of `steps_of`).
    pub known: String,
    /// What is new on the edge to the next instruction; `None` if there is none, or no run takes it.
    pub falling: Option<String>,
    /// What is new on the edge of its jump; `None` if it has none, or no run takes it.
    pub jumping: Option<String>,
}

/// Makes the steps of a program from the facts before its instructions, if descriptors name the objects of `named`.
#[derive(Drop)]
struct StepMaker<'a> {
    alloc: Global,
    program: &'a Program,
    named: &'a [Named],
    /// A buffer for the facts on the edges of an instruction.
    edges: Edges,
}

impl StepMaker<'_> {
    /// What is known in the facts `new` and not in `old`, and what is known in `old` and not any more in `new`, as text: notes with a
    /// semicolon between them. Empty if `old` and `new` are equal.
    fn news(&self, old: &Facts, new: &Facts) -> Result<String, AllocError> {
        let mut text = String::new(self.alloc);
        // The text is empty, so its first note begins at offset 0.
        write_known(&mut text, 0, old, new)?;
        Ok(text)
    }

    /// The text for one edge of a conditional jump (`branch`): what is new in `new`, the facts on the edge, against `old`, the facts before
    /// the jump; empty if both are equal. `taken` is whether a run may take the edge. If it is false, the result is `None`.
    fn edge(&self, old: &Facts, taken: bool, new: &Facts) -> Result<Option<String>, AllocError> {
        if taken {
            Ok(Some(self.news(old, new)?))
        } else {
            Ok(None)
        }
    }

    /// Adds to `step` what is new on each edge of the conditional jump `insn` against `facts`, the facts before it: `falling` for the edge
    /// to the next instruction, `jumping` for the edge to the target. An edge that no run takes gets `None`; if the jump is rejected, both
    /// edges do. For this, `edges.leave` writes into the buffer `edges` whether a run may take each edge (`falls`, `jumps`), and the facts
    /// on it (`falling`, `jumping`).
    fn branch(&mut self, step: &mut Step, insn: &Insn, facts: &Facts) -> Result<(), AllocError> {
        self.edges.leave(facts, self.named, step.slot, insn);
        let Edges {
            falls,
            ref falling,
            jumps,
            ref jumping,
        } = self.edges;
        step.falling = self.edge(facts, falls, falling)?;
        step.jumping = self.edge(facts, jumps, jumping)?;
        Ok(())
    }

    /// Sets the texts of the edges out of the instruction `insn` in `step`, the texts of this instruction: `falling` for the edge to the
    /// next instruction, `jumping` for the edge to the target of its jump. Both are `None` before, and remain so for an edge that `insn`
    /// does not have; an exit has neither. `facts` are those before `insn`. The text of an edge of a conditional jump (`branch`) is what is
    /// new on this edge; it is `None` if no run takes the edge, and for both edges if the jump is rejected. Any other instruction has one
    /// edge, and its text is empty, also if the instruction is rejected: what it changes is in the step of the next instruction (`known`).
    fn leave(&mut self, step: &mut Step, insn: &Insn, facts: &Facts) -> Result<(), AllocError> {
        match insn.profile().successors {
            Successors::Next => step.falling = Some(String::new(self.alloc)),
            Successors::Jump(_) => step.jumping = Some(String::new(self.alloc)),
            Successors::NextOrJump(_) => self.branch(step, insn, facts)?,
            Successors::Nothing => {}
        }
        Ok(())
    }

    /// The step of the instruction at the slot of `known`, which has the facts before it. The step has what is new in these facts against
    /// `shown`, and each edge out of the instruction with the text of what is new on it (`leave`). `shown` are the facts before the
    /// instruction of the preceding step; for the first step, and for every step if steps have all that is known (`is_whole` of
    /// `steps_of`), the facts in which nothing is known. An instruction begins at each slot with facts, so `get` finds it. `AllocError`:
    /// out of memory.
    fn step(&mut self, shown: &Facts, known: &KnownFacts) -> Result<Step, AllocError> {
        let KnownFacts { slot, facts } = known;
        let mut step = Step {
            slot: *slot,
            known: self.news(shown, facts)?,
            falling: None,
            jumping: None,
        };
        if let Some(insn) = self.program.get(*slot) {
            self.leave(&mut step, insn, facts)?;
        }
        Ok(step)
    }
}

/// The steps of a program, in the order of `known`: an element of `known` has a slot and the facts before the instruction there, and
/// becomes one step, which is what the log shows of this instruction. `named` lists the open descriptors and their objects. The field
/// `known` of a step is, if `is_whole` (the log shows all facts), the text of all these facts; else only what is new in them, or no longer
/// known, against the facts of the element before, and for the first element all. The fields `falling` and `jumping` are the texts for the
/// two edges, and `None` for an edge that the instruction does not have. For a conditional jump the text is what is new on the edge against
/// the facts before the jump; it is `None` if no run takes the edge, and for both edges if the jump is rejected. For any other instruction
/// it is empty, since what the instruction changes is new before the next one. `AllocError`: out of memory.
pub(crate) fn steps_of(
    alloc: Global,
    program: &Program,
    named: &[Named],
    known: &[KnownFacts],
    is_whole: bool,
) -> Result<Vec<Step>, AllocError> {
    let nothing = Facts::nothing_known();
    let mut maker = StepMaker {
        alloc,
        program,
        named,
        edges: Edges::none(&nothing),
    };
    let mut steps = Vec::new(alloc);
    let mut shown = &nothing;
    for here in known {
        steps.push(maker.step(shown, here)?)?;
        if !is_whole {
            shown = &here.facts;
        }
    }
    Ok(steps)
}

//! Control flow: the jumps of a program by their targets, and its basic blocks. `AllocError`: out of memory.

use crate::steps::Step;
use insn_codec::{Insn, MAX_SLOTS, Program, Successors};
use std::alloc::{AllocError, Global};

/// The edge of a jump, by the slots of its target and of the jump. Edges are ordered by their targets.
#[derive(Clone, Copy, PartialEq, Eq, PartialOrd, Ord)]
pub(crate) struct JumpEdge {
    pub to: usize,
    pub from: usize,
}

/// The target of the jump, conditional or not, that begins at a slot; it may be past the program's end if the program's shape has a fault.
/// `None` if no instruction begins at the slot, the instruction is no jump, or the target is below slot 0. An instruction of a program
/// begins at a slot below `MAX_SLOTS`, so the test of `MAX_SLOTS` never fails; the contract of `target` needs it.
pub(crate) fn target_at(program: &Program, slot: usize) -> Option<usize> {
    let insn = program.get(slot)?;
    if slot > MAX_SLOTS {
        return None;
    }
    insn.profile().successors.target(slot)
}

/// The jumping edges that a run may take, for the notes of a listing that say from which slots control comes to a line. `steps` has the
/// instructions that a run may reach. A step's `jumping` is `None` if the instruction does not jump, is a rejected conditional jump, or
/// never takes its jump by the facts; each other step gives one edge. A jump to below slot 0 is omitted. The edges are in the order of
/// their targets, and those of one target in that of the jumps' slots. `AllocError`: out of memory.
pub(crate) fn live_jumps(
    alloc: Global,
    program: &Program,
    steps: &[Step],
) -> Result<Vec<JumpEdge>, AllocError> {
    let mut jumps = Vec::new(alloc);
    for step in steps {
        if step.jumping.is_some()
            && let Some(to) = target_at(program, step.slot)
        {
            let from = step.slot;
            jumps.push(JumpEdge { to, from })?;
        }
    }
    jumps.sort()?;
    Ok(jumps)
}

/// Whether an instruction ends a basic block: a jump or an exit does, a call does not.
fn ends_block(insn: &Insn) -> bool {
    insn.profile().successors != Successors::Next
}

/// Records in `flags`, which has a flag for each slot of a program, that a basic block begins at `slot`. If `slot` is past the end of the
/// program, nothing is done: it is the slot after the last instruction, or the target of a jump in a rejected program.
fn mark_start(flags: &mut [bool], slot: usize) {
    if let Some(flag) = flags.get_mut(slot) {
        *flag = true;
    }
}

/// For each slot whether a basic block begins there: at slot 0, at the target of a jump, and after a jump or an exit. A target past the end
/// of the program is left out. `AllocError`: out of memory.
pub(crate) fn block_starts(alloc: Global, program: &Program) -> Result<Vec<bool>, AllocError> {
    let slots = program.slots();
    let mut starts = vec![in alloc; false; slots]?;
    mark_start(&mut starts, 0);
    for slot in 0..slots {
        if let Some(insn) = program.get(slot) {
            if let Some(to) = target_at(program, slot) {
                mark_start(&mut starts, to);
            }
            if ends_block(insn) {
                mark_start(&mut starts, slot.saturating_add(insn.slots()));
            }
        }
    }
    Ok(starts)
}

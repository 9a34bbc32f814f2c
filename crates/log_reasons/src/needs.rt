//! Why a program is rejected: what is known, and what is required. `AllocError`: out of memory for the text.

pub(crate) mod access;
pub(crate) mod arithmetic;
pub(crate) mod calls;
pub(crate) mod registers;
pub(crate) mod shape;

use crate::reasons::reason_words;
use insn_codec::{Insn, Program};
use log_facts::{Judged, KnownFacts, is_of_shape};
use reg_kinds::{Facts, Reason};
use std::alloc::{AllocError, Global};
use tagged_model::Named;
use verifier::VerifyFault;

/// A rejected program, if descriptors name the objects of `named`; with what is known before each instruction that the pass reached, and
/// the facts before the last of them, the rejected one. Of a program that is rejected for its shape nothing is known.
#[derive(Clone, Copy)]
pub(crate) struct RefusedProgram<'a> {
    pub alloc: Global,
    pub program: &'a Program,
    pub named: &'a [Named],
    pub fault: VerifyFault,
    pub known: &'a [KnownFacts],
    pub facts: &'a Facts,
}

/// Writes what was known at the rejected instruction `insn`, and what is required. Faults of the shape and unreadable registers are tested
/// first, since instructions of many kinds can have them. The last arm is for accesses to memory. Unconditional jumps and wide loads would
/// also take it, but are rejected only for faults of the shape. The reason is never `Memory`, the verifier out of memory, for which no arm
/// has a text: `judge` of `log_facts` then returns an error, and no verdict.
fn write_need(
    text: &mut String,
    refusal: &RefusedProgram<'_>,
    insn: &Insn,
) -> Result<(), AllocError> {
    if is_of_shape(refusal.fault.reason) {
        return shape::write_shape_fault(text, refusal, insn);
    }
    if refusal.fault.reason == Reason::UnreadableRegister {
        return registers::write_unreadable(text, refusal, insn);
    }
    match *insn {
        Insn::Alu { wide, op, dst, src } => {
            arithmetic::write_need(text, refusal, wide, op, dst, src)
        }
        Insn::Movsx(ref moved) => {
            arithmetic::write_number_needed(text, refusal, moved.src.number())
        }
        Insn::Neg { dst, .. } | Insn::End { dst, .. } => {
            arithmetic::write_number_needed(text, refusal, dst.number())
        }
        Insn::Jump { dst, src, .. } => registers::write_comparison(text, refusal, dst, src),
        Insn::Exit => registers::write_result(text, refusal),
        Insn::Call { id } => calls::write_need(text, refusal, id),
        _ => access::write_need(text, refusal, insn),
    }
}

/// The text on a rejection: the reason in words, then `between` (in the log a colon, and a space or a line feed), then what is known and
/// what is required (`write_need`), and a line feed. Each fault is at a slot at which an instruction begins, so `get` finds the
/// instruction, and nothing of this is ever left out. The fault `Memory`, which concerns no instruction, does not occur here: if the
/// verifier is out of memory, `judge` of `log_facts` returns an error, and no verdict. `AllocError`: out of memory for the text.
fn reason_line(refusal: &RefusedProgram<'_>, between: &str) -> Result<String, AllocError> {
    let mut line = String::from_str(refusal.alloc, reason_words(refusal.fault.reason))?;
    if let Some(insn) = refusal.program.get(refusal.fault.slot) {
        line.push_str(between)?;
        write_need(&mut line, refusal, insn)?;
    }
    line.push_str("\n")?;
    Ok(line)
}

/// The facts before the last instruction that the verifier's pass reached; `known` has those before each, in the order of the slots. If the
/// pass rejects an instruction, that is the last, since the pass ends at it. If the shape of the program has a fault, there is no pass, and
/// `known` is empty: the result is the facts in which nothing is known, and the text on that fault (`write_shape_fault`) reads no facts.
fn last_facts(known: &[KnownFacts]) -> Facts {
    match known.last() {
        Some(last) => last.facts,
        None => Facts::nothing_known(),
    }
}

/// Why a program is rejected, by the verdict in `judged`, as a text for its log; empty if the program is accepted. `named` has the open
/// descriptors, each with the object that it names. The text is the reason in words, then `between`, then what was known at the rejected
/// instruction and what is required, and a line feed. `log_of` of `log_core` gives as `between` a colon, and then a space in a log of lines
/// or a line feed in a graph.
///
/// # Errors
///
/// `AllocError`: out of memory for the text.
pub fn rejection_text(
    alloc: Global,
    program: &Program,
    named: &[Named],
    judged: &Judged,
    between: &str,
) -> Result<String, AllocError> {
    let Judged { known, verdict } = judged;
    let Err(fault) = *verdict else {
        return Ok(String::new(alloc));
    };
    // The pass ends at the rejected instruction, so the last facts are those before it. A program that is rejected for its shape has none.
    let facts = last_facts(known);
    let refusal = RefusedProgram {
        alloc,
        program,
        named,
        fault,
        known,
        facts: &facts,
    };
    reason_line(&refusal, between)
}

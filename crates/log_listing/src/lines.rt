//! The log: a line for each instruction. `AllocError`: out of memory for the text.

ghost use Rattle.std.specs.Prelude.{OnOk, string_bytes};
ghost use Rattle.log_facts.specs.Said.{AreLines};

use crate::control::{JumpEdge, target_at};
use crate::steps::Step;
use bpf_text::write_insn;
use insn_codec::{Insn, Program, Successors};
use std::alloc::AllocError;
use std::fmt::Write;

/// The width in bytes to which spaces fill up a line's slot and instruction, so that the notes are aligned. Few instructions are longer.
const CODE_WIDTH: usize = 40;

/// What is to be written of a program.
#[derive(Clone, Copy)]
pub(crate) struct ListingInput<'a> {
    pub program: &'a Program,
    /// The steps of the pass: the instructions that it reached, in the order of their slots.
    pub steps: &'a [Step],
    /// The jumps that a run may take, in the order of their targets.
    pub jumps: &'a [JumpEdge],
    /// Whether there was a pass over the program: not if its shape has a fault.
    pub has_pass: bool,
}

/// How far the lines have been written: what the next line needs.
#[derive(Drop)]
struct Cursor {
    /// The index in `steps` of the next step.
    step: usize,
    /// The index in `jumps` of the next jump.
    jump: usize,
    /// The slot of the instruction on the line before, if a run may fall through from it; else `None`.
    falls_from: Option<usize>,
}

/// A line: the offsets in the text of its beginning and of the end of its instruction, after which its notes begin.
#[derive(Clone, Copy)]
struct Line {
    begin: usize,
    end: usize,
}

/// Writes what separates a note on `line` from the text before it; the caller then writes the note. `text` ends in this line. If `text`
/// ends at `line.end`, the end of the line's instruction, the note is the line's first: spaces fill the line up to `CODE_WIDTH` bytes (a
/// longer line gets none), and ` // ` follows. If `text` is longer, the line has a note already, and `; ` is written.
fn begin_note(text: &mut String, line: Line) -> Result<(), AllocError> {
    if text.len() > line.end {
        return text.push_str("; ");
    }
    for _ in line.end.saturating_sub(line.begin)..CODE_WIDTH {
        text.push_str(" ")?;
    }
    text.push_str(" // ")
}

/// Writes `note` at the end of `line`, the last line of `text`. Before the note is a separator (`begin_note`): before the first note of the
/// line spaces, which align the notes, and ` // `, and before a later one `; `. If `note` is empty, nothing is written, also no separator.
fn write_note(text: &mut String, line: Line, note: &str) -> Result<(), AllocError> {
    if note.is_empty() {
        return Ok(());
    }
    begin_note(text, line)?;
    text.push_str(note)
}

/// Writes a note at the end of `text`, whose last line is that of the instruction at `slot` (`line`: the offsets at which the line begins
/// and its instruction ends). It has the slots of the instructions from which control comes, as `from 3, 7, 8`: first the jumps that a run
/// may take, in the order of their slots, last the instruction on the line before, if a run may fall through from it (`falls_from` of the
/// cursor). Nothing is written if no such jump leads to `slot`. The jumps of `input` are in the order of their targets, and the lines in
/// the order of slots, so the jumps to `slot` are the next ones at the cursor, which is moved past them.
fn write_sources(
    text: &mut String,
    line: Line,
    input: &ListingInput<'_>,
    cursor: &mut Cursor,
    slot: usize,
) -> Result<(), AllocError> {
    let mut are_more = false;
    for index in cursor.jump..input.jumps.len() {
        let JumpEdge { to, from } = input.jumps[index];
        if to != slot {
            break;
        }
        if are_more {
            write!(text, ", {from}")?;
        } else {
            begin_note(text, line)?;
            write!(text, "from {from}")?;
        }
        are_more = true;
        cursor.jump = index + 1;
    }
    match cursor.falls_from {
        Some(before) if are_more => write!(text, ", {before}"),
        _ => Ok(()),
    }
}

/// Writes the note on the edges of a conditional jump, the instruction of `step`, at the end of its line (`line`: the offsets in `text` at
/// which the line begins and the instruction ends). `falling` and `jumping` of `step` have what is new on each edge, and are `None` if no
/// run takes the edge. With only the jumping edge the note is `always jumps`, with only the falling edge `never jumps`; a rejected jump has
/// no edges, and nothing is written. With both edges it is the target and what is new on the jumping edge, if anything; what is new on the
/// falling edge is left to the next line. A target is always found: a program with steps has no fault of its shape.
fn write_edges(
    text: &mut String,
    line: Line,
    program: &Program,
    step: &Step,
) -> Result<(), AllocError> {
    match (&step.falling, &step.jumping) {
        (None, None) => Ok(()),
        (None, Some(_)) => write_note(text, line, "always jumps"),
        (Some(_), None) => write_note(text, line, "never jumps"),
        (Some(_), Some(seen)) => {
            match target_at(program, step.slot) {
                Some(to) if !seen.is_empty() => {
                    begin_note(text, line)?;
                    write!(text, "to {to}: {seen}")
                }
                _ => Ok(()),
            }
        }
    }
}

/// Writes the notes on `insn`, an instruction that a run may reach, at the end of its line: the slots from which control comes, if a run
/// may jump to it; `known` of its `step`, which is what is new before it or, if the log has the whole facts (`is_whole` of `steps_of`), all
/// that is known; and for a conditional jump the note on its edges (`write_edges`). `line` has the offsets in `text` at which the line
/// begins and the instruction ends. `cursor` is moved past the jumps of `input` to this instruction. Its `falls_from`, for the next line,
/// becomes the slot of this instruction if a run may fall through from it, else `None`. The caller moves `cursor` past `step`.
fn write_step(
    text: &mut String,
    line: Line,
    input: &ListingInput<'_>,
    cursor: &mut Cursor,
    insn: &Insn,
    step: &Step,
) -> Result<(), AllocError> {
    write_sources(text, line, input, cursor, step.slot)?;
    write_note(text, line, &step.known)?;
    cursor.falls_from = step.falling.as_ref().map(|_| step.slot);
    match insn.profile().successors {
        Successors::NextOrJump(_) => write_edges(text, line, input.program, step),
        Successors::Next | Successors::Jump(_) | Successors::Nothing => Ok(()),
    }
}

/// Writes the notes on `insn`, the instruction at `slot`, at the end of its line. `line` has the offsets in `text` at which the line begins
/// and the instruction ends. `steps` of `input` has a step for each instruction that the verifier's pass reached, in the order of the
/// slots, and `cursor.step` is the index of the first step whose notes are not yet written. If this is the step of `slot`, `write_step`
/// writes its notes, and the cursor moves to the next step. Otherwise the pass did not reach the instruction, and `not reached` is its
/// note. If there was no pass (`has_pass`), since the program's shape has a fault, it has no note. In both cases `falls_from` of the cursor
/// becomes `None`, so that the next line does not name this instruction as one from which control comes.
fn write_notes(
    text: &mut String,
    input: &ListingInput<'_>,
    cursor: &mut Cursor,
    insn: &Insn,
    slot: usize,
    line: Line,
) -> Result<(), AllocError> {
    match input.steps.get(cursor.step) {
        Some(step) if step.slot == slot => {
            write_step(text, line, input, cursor, insn, step)?;
            cursor.step = cursor.step.saturating_add(1);
            Ok(())
        }
        _ => {
            cursor.falls_from = None;
            if input.has_pass {
                write_note(text, line, "not reached")
            } else {
                Ok(())
            }
        }
    }
}

/// Writes the line of `insn`, the instruction at `slot`: the slot, the instruction, its notes (`write_notes`), and a line feed. So the text
/// then ends with a line feed, whatever it was before (`AreLines`). Among the notes are what is new before `insn`, or all that is known,
/// and, if a run may jump to it, the slots from which control comes. For them `input` has a step for each instruction that the verifier's
/// pass reached, in the order of the slots, and the jumps that a run may take, in the order of their targets. `cursor` has the index of the
/// next step and that of the next jump, and in `falls_from` the slot of the line before, if a run may fall through from it, so that control
/// comes from there, too. If the pass reached `insn`, the cursor is moved past its step and the jumps to `slot`. For the next line, if one
/// follows, `falls_from` is then `slot` if a run may fall through from `insn`, else `None`.
fn write_line(
    text: &mut String,
    input: &ListingInput<'_>,
    cursor: &mut Cursor,
    insn: &Insn,
    slot: usize,
) -> Result<(), AllocError>
    ensures { OnOk result (AreLines (string_bytes text.new)) }
{
    let begin = text.len();
    write!(text, "{slot}: ")?;
    write_insn(text, insn)?;
    let end = text.len();
    write_notes(text, input, cursor, insn, slot, Line { begin, end })?;
    text.push_str("\n")
}

/// Appends the line of each instruction that begins at a slot from 0 to `last`, in their order. `last` is the slot of the rejected
/// instruction; for an accepted program it is past the end, and all lines are written. The second slot of a wide instruction has no line.
/// `cursor` has what the next line needs. For the note of what is new before its instruction, or of all that is known, that is the index of
/// the next step in `input` (a step is an instruction that the pass reached). For the note of the slots from which control comes, if a run
/// may jump to the instruction, it is the index of the next jump in `input`, whose jumps are in the order of their targets, and the slot of
/// the line before if a run may fall through from it (`falls_from`), so `None` for the first line. By the contract `text`, which `lines_of`
/// passes empty, is empty or ends with a line feed, before the call and after it (`AreLines`).
pub(crate) fn write_lines(
    text: &mut String,
    input: &ListingInput<'_>,
    last: usize,
) -> Result<(), AllocError>
    requires { AreLines (string_bytes text.old) }
    ensures { OnOk result (AreLines (string_bytes text.new)) }
{
    let mut cursor = Cursor {
        step: 0,
        jump: 0,
        falls_from: None,
    };
    for slot in 0..input.program.slots() {
        if slot <= last
            && let Some(insn) = input.program.get(slot)
        {
            write_line(text, input, &mut cursor, insn, slot)?;
        }
    }
    Ok(())
}

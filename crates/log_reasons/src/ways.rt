//! The path on which something is missing that an instruction needs. `AllocError`: out of memory.

use crate::needs::RefusedProgram;
use crate::needs::registers::kind_of;
use insn_codec::{Insn, MAX_SLOTS, Program};
use log_facts::Edges;
use reg_kinds::{Facts, Kind, Slot};
use std::alloc::{AllocError, Global};
use std::fmt::Write;
use tagged_model::Named;
use words::STACK_SLOTS;

/// What an instruction needs: a readable value.
#[derive(Clone, Copy)]
pub(crate) enum Wanted {
    /// In the register of this number.
    Register(u8),
    /// In these bytes of the stack, both included, by their offsets from its upper end.
    Stack { first: i64, last: i64 },
}

/// Whether the stack byte at the offset `byte` counts as written in `facts`: then it is written on each path to the instruction, or to the
/// edge, that has these facts. The offset counts from the stack's upper end, so -1 is the highest byte; the result is false outside the
/// stack. In the mask of a stack slot (`Bytes`), bit 0 is the lowest byte. Each byte of a spill counts as written.
pub(crate) fn is_written(facts: &Facts, byte: i64) -> bool {
    let Ok(byte_index) = usize::try_from(byte.saturating_add(8 * STACK_SLOTS as i64)) else {
        return false;
    };
    if byte_index >= 8 * STACK_SLOTS {
        return false;
    }
    match facts.slots[byte_index / 8] {
        Slot::Bytes(mask) => mask & (1 << (byte_index % 8)) != 0,
        Slot::Spill(_) => true,
    }
}

impl Wanted {
    /// Whether an instruction may read this value by these facts: the kind of the register is not `Unreadable`, or each of the stack bytes
    /// at the offsets `first` to `last`, both included, is written on each path (`is_written`). Offsets count from the stack's upper end;
    /// the result is false if one of these bytes is outside the stack.
    fn is_readable_by(self, facts: &Facts) -> bool {
        match self {
            Wanted::Register(register) => kind_of(facts, register) != Kind::Unreadable,
            Wanted::Stack { first, last } => {
                for byte in first..=last {
                    if !is_written(facts, byte) {
                        return false;
                    }
                }
                true
            }
        }
    }
}

/// Why the value that the rejected instruction needs is missing before an instruction, the rejected one or an earlier one.
#[derive(Clone, Copy)]
enum Cause {
    /// The value was never written.
    Never,
    /// The value is missing on the edge from this slot, and present on another edge to the same instruction.
    OnEdge(usize),
    /// The instruction at this slot destroys the value.
    Destroyed(usize),
    /// The value is present on each edge to this slot, and the join of the edges loses it.
    Joined(usize),
}

/// Whether the value is present on the edges to a slot, of those that have been followed so far.
#[derive(Clone, Copy)]
struct Arrival {
    /// Whether the value is present on some edge.
    is_present: bool,
    /// Of the first edge on which the value is missing, the slot from which it leads, and why the value is missing; `None` if there is no
    /// such edge.
    lack: Option<(usize, Cause)>,
}

/// Follows what the rejected instruction needs through a program, from the entry on, one instruction after another by their slots.
#[derive(Drop)]
struct Finder<'a> {
    program: &'a Program,
    named: &'a [Named],
    wanted: Wanted,
    /// For each slot of the program, what is known of the edges to it that have been followed.
    arrivals: Vec<Arrival>,
    /// Why the value is missing before the last instruction that was followed; `None` if it is present.
    cause: Option<Cause>,
}

impl Finder<'_> {
    /// Why the value that the rejected instruction needs (`wanted`) is missing before the instruction at `slot`; `None` if the value is
    /// present there, by `facts`, the facts before this instruction. The cause depends on the edges to the slot (`arrivals`). If the value
    /// is present on some and missing on others, the cause is the first edge on which it is missing (`OnEdge`). If it is missing on all of
    /// them, the cause is why it is missing on the first. If it is present on all, the cause is that their join loses it (`Joined`). Slot
    /// 0, to which no edge leads, has the cause `Never` from the start (`first_arrivals`).
    fn cause_at(&self, slot: usize, facts: &Facts) -> Option<Cause> {
        if self.wanted.is_readable_by(facts) {
            return None;
        }
        match self.arrivals.get(slot) {
            Some(
                Arrival {
                    is_present: true,
                    lack: Some((from, _)),
                },
            ) => Some(Cause::OnEdge(*from)),
            Some(
                Arrival {
                    is_present: false,
                    lack: Some((_, cause)),
                },
            ) => Some(*cause),
            _ => Some(Cause::Joined(slot)),
        }
    }

    /// Records in `arrivals`, for the slot `to`, whether the value that the rejected instruction needs (`wanted`) is present on the edge
    /// from slot `from` to slot `to`: whether an instruction may read it by `facts`, those on this edge. If the value is missing, `from`
    /// and a cause are stored in `lack`, unless those of another edge to `to` are stored already. The cause is why the value is missing
    /// before the instruction at `from` (`cause`) or, if it is present there, that this instruction destroys it (`Destroyed`). If `to` is
    /// past the end of the program, which is a fault of the shape and does not occur here, nothing is recorded.
    fn arrive(&mut self, from: usize, to: usize, facts: &Facts) {
        let is_present = self.wanted.is_readable_by(facts);
        let cause = self.cause.unwrap_or(Cause::Destroyed(from));
        if let Some(arrival) = self.arrivals.get_mut(to) {
            if is_present {
                arrival.is_present = true;
            } else if arrival.lack.is_none() {
                arrival.lack = Some((from, cause));
            }
        }
    }

    /// Follows each edge out of `insn`, the instruction at `slot`, that a run may take; `facts` are those before `insn`. By the transfer
    /// function `Edges::leave` sets which edges these are, and the facts on them. There are none if `insn` may not be run with `facts`, so
    /// none for the rejected instruction. `Edges::none` has no edges yet, and its argument only fills the fields. For the slot to which an
    /// edge leads, `arrive` records whether the value that the rejected instruction needs (`wanted`) is present on this edge. For the first
    /// edge to that slot on which it is missing, `arrive` also records why: the value is missing before `insn` for the cause that `follow`
    /// has stored in `cause`, or, if that is `None`, `insn` destroys it. The test of `slot` against `MAX_SLOTS` always holds, since a
    /// program has no more slots; the contract of `target` needs it.
    fn leave(&mut self, slot: usize, insn: &Insn, facts: &Facts) {
        let mut edges = Edges::none(facts);
        edges.leave(facts, self.named, slot, insn);
        if edges.falls {
            self.arrive(slot, slot.saturating_add(insn.slots()), &edges.falling);
        }
        if slot <= MAX_SLOTS
            && edges.jumps
            && let Some(to) = insn.profile().successors.target(slot)
        {
            self.arrive(slot, to, &edges.jumping);
        }
    }

    /// Follows the instruction at `slot`, before which `facts` are known. The rejected instruction needs the value of a register or of
    /// stack bytes. By facts that allow an instruction to read it this value is present, by others it is missing. Sets `cause` to why it is
    /// missing before the instruction at `slot`; `None` if it is present there. Then records for each edge out of this instruction that a
    /// run may take whether the value is present or missing on the edge: in `arrivals`, under the slot to which the edge leads. At each
    /// slot with facts an instruction begins, so the `if` always holds.
    fn follow(&mut self, slot: usize, facts: &Facts) {
        self.cause = self.cause_at(slot, facts);
        if let Some(insn) = self.program.get(slot) {
            self.leave(slot, insn, facts);
        }
    }
}

/// The arrivals before any edge is followed, one for each slot of a program of `slots` slots. No edge to the slot is known on which the
/// value that the rejected instruction needs is present (`is_present` is false), and none on which it is missing (`lack` is `None`). Slot
/// 0, at which a run begins, is the exception: its `lack` says that the value was never written. `cause_at` reads it only if the value is
/// missing there, so not for registers 1 and 10, which have a value from the start. No edge leads to slot 0, so the number in this `lack`,
/// the slot from which an edge leads, is never used.
fn first_arrivals(alloc: Global, slots: usize) -> Result<Vec<Arrival>, AllocError> {
    let nothing = Arrival {
        is_present: false,
        lack: None,
    };
    let mut arrivals = vec![in alloc; nothing; slots]?;
    if let Some(arrival) = arrivals.get_mut(0) {
        arrival.lack = Some((0, Cause::Never));
    }
    Ok(arrivals)
}

/// Why the value `wanted`, that of a register or of stack bytes, is missing before the rejected instruction; `None` if it is present there.
/// It is missing if an instruction may not read it by the facts there: the register is unreadable, or one of the bytes may be unwritten.
/// `known` has the facts before each instruction that the verifier's pass reached, in the order of the slots. For each of them `follow`
/// sets `cause` to why the value is missing before it, or to `None`. It also records in `arrivals`, for each slot, whether the value is
/// present on the edges to it. The rejected instruction is the last, so its `cause` is the result. The error is out of memory.
fn cause_of(refusal: &RefusedProgram<'_>, wanted: Wanted) -> Result<Option<Cause>, AllocError> {
    let (alloc, program, named) = (refusal.alloc, refusal.program, refusal.named);
    let mut finder = Finder {
        program,
        named,
        wanted,
        arrivals: first_arrivals(alloc, program.slots())?,
        cause: None,
    };
    for here in refusal.known {
        finder.follow(here.slot, &here.facts);
    }
    Ok(finder.cause)
}

/// The verbs of a sentence on what is missing, in the singular or in the plural.
#[derive(Clone, Copy)]
struct Verbs {
    was: &'static str,
    is: &'static str,
    holds: &'static str,
}

/// The verbs of the sentence in which `write_way` writes why `wanted` is missing: in the singular for a register, in the plural for stack
/// bytes.
fn verbs_of(wanted: Wanted) -> Verbs {
    match wanted {
        Wanted::Register(_) => Verbs {
            was: "was",
            is: "is",
            holds: "holds",
        },
        Wanted::Stack { .. } => Verbs {
            was: "were",
            is: "are",
            holds: "hold",
        },
    }
}

/// Appends to `text` why the value `wanted`, which the rejected instruction of `refusal` needs, is missing before this instruction. Either
/// it was never written (`Never`), or the instruction at a slot destroys it (`Destroyed`), or it is present on each edge to a slot, but
/// their join loses it (`Joined`), or it is present on some edges to an instruction and missing on others (`OnEdge`): then the text has the
/// slot from which the first of these others leads. The text is a sentence without its subject, the register or the stack bytes, which the
/// caller has written. The caller knows that the value is missing, so `cause_of` finds a cause; the default of `unwrap_or` is not used.
pub(crate) fn write_way(
    text: &mut String,
    refusal: &RefusedProgram<'_>,
    wanted: Wanted,
) -> Result<(), AllocError> {
    let Verbs { was, is, holds } = verbs_of(wanted);
    match cause_of(refusal, wanted)?.unwrap_or(Cause::Never) {
        Cause::Never => write!(text, "{was} never written"),
        Cause::OnEdge(slot) => write!(text, "may not be written yet on the way from slot {slot}"),
        Cause::Destroyed(slot) => write!(text, "{is} lost at slot {slot}"),
        Cause::Joined(slot) => {
            write!(
                text,
                "{holds} values of different kinds on the ways to slot {slot}"
            )
        }
    }
}

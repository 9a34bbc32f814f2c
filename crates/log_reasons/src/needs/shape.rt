//! Faults of a program's shape. `AllocError`: out of memory for the text.

use crate::needs::RefusedProgram;
use insn_codec::{Insn, Reference};
use reg_kinds::Reason;
use std::alloc::AllocError;
use std::fmt::Write;
use tagged_model::{MapKind, Named, shape_of};

/// The target slot of `insn`, a jump at `slot`, for the text of why the jump is refused. It is signed, as it may lie outside the program,
/// also below slot 0. The sums never saturate: a slot is at most `MAX_SLOTS`, and a distance, counted from the next slot, has 32 bits.
fn signed_target(insn: &Insn, slot: usize) -> i64 {
    let from = i64::try_from(slot).unwrap_or(i64::MAX);
    from.saturating_add(1)
        .saturating_add(i64::from(insn.profile().successors.offset()))
}

/// Writes the target of the rejected jump `insn`: a slot that the program does not have, or the second half of a wide instruction. No other
/// target is possible, since the reason is `JumpOutside`: no instruction begins at the target. `slots - 1` can't overflow, since a program
/// has at least one slot.
fn write_wrong_target(
    text: &mut String,
    refusal: &RefusedProgram<'_>,
    insn: &Insn,
) -> Result<(), AllocError> {
    let (target, slots) = (
        signed_target(insn, refusal.fault.slot),
        refusal.program.slots(),
    );
    if target < 0 || target >= slots as i64 {
        let last = slots - 1;
        write!(
            text,
            "it leads to slot {target}, and the slots are 0 to {last}"
        )
    } else {
        write!(text, "it leads to slot {target}, a second half")
    }
}

/// Writes the target of the jump `insn`, which is rejected because it does not go forward (`JumpBackward`), and that jumps go forward only.
/// The jump is at the slot of the fault of `refusal`. Its target is this slot or a lower one of the program: a target outside the program
/// is another fault (`JumpOutside`).
fn write_backward(
    text: &mut String,
    refusal: &RefusedProgram<'_>,
    insn: &Insn,
) -> Result<(), AllocError> {
    let target = signed_target(insn, refusal.fault.slot);
    write!(text, "it leads to slot {target}, and jumps go forward only")
}

/// The descriptor by which the rejected instruction names a map. 0 if it names none, which can't occur: the callers write about a load of a
/// map, or of the address of a value in a map, and each such load names a descriptor.
fn fd_of(insn: &Insn) -> u32 {
    insn.profile().reference.descriptor().unwrap_or(0)
}

/// Writes that a map is needed: `insn` loads a map, or the address of a byte in a map's value, and its descriptor names no map. `what` is
/// what this descriptor names: `nothing` if it is not open, else `a program`.
fn write_no_map(text: &mut String, insn: &Insn, what: &str) -> Result<(), AllocError> {
    let fd = fd_of(insn);
    write!(text, "descriptor {fd} names {what}, and a map is needed")
}

/// Writes why `FallsOff` rejects a program: control can pass from the last instruction to a slot `next`, which the program does not have.
/// Slots count from 0, so `next` is how many the program has. The text asks for an exit or a jump instead.
fn write_falls_off(text: &mut String, refusal: &RefusedProgram<'_>) -> Result<(), AllocError> {
    let next = refusal.program.slots();
    write!(
        text,
        "there is no slot {next}: an exit is needed, or a jump"
    )
}

/// Writes that no helper has the number that the call `insn` names, and lists the numbers of the four helpers. The arm `_`, which writes
/// nothing, can't occur: only a call is rejected for `UnknownHelper`, the reason for which the caller calls this.
fn write_unknown_helper(text: &mut String, insn: &Insn) -> Result<(), AllocError> {
    match insn.profile().reference {
        Reference::Helper(id) => {
            write!(
                text,
                "there is no helper {id}, and those are 1, 2, 3 and 26"
            )
        }
        _ => Ok(()),
    }
}

/// Writes why `insn` can't load the address of a byte in a map's value directly, that is, without a call (`NoDirectValue`): the map is a
/// hash map, has not exactly one element, or the offset is not in its value. `named` has the open descriptors, each with the object that it
/// names. The `else` of the `let` can't occur: only a load of such an address, a `Reference::Value`, has this reason, and a descriptor that
/// names no map is rejected for another reason first.
fn write_no_value(text: &mut String, named: &[Named], insn: &Insn) -> Result<(), AllocError> {
    let fd = fd_of(insn);
    let reference = insn.profile().reference;
    let (Some(shape), Reference::Value(_, off)) = (shape_of(named, fd), reference) else {
        return write!(text, "descriptor {fd} names no map");
    };
    let (size, entries) = (shape.value_size, shape.max_entries);
    if shape.kind == MapKind::Hash {
        write!(
            text,
            "map {fd} is a hash map, and an array of one element is needed"
        )
    } else if entries != 1 {
        write!(
            text,
            "map {fd} is an array of {entries} elements, and one is needed"
        )
    } else {
        write!(
            text,
            "offset {off} is not in a value of {size} bytes (map {fd})"
        )
    }
}

/// Writes what is wrong with the rejected instruction `insn`, for example to which slot its jump leads. The log has this text after the
/// reason in words (`reason_words`). For `Unreachable` these are `no path leads to the instruction`, so `none` in its arm means no path.
/// The third argument of `write_no_map` is what the descriptor names instead of a map. The reason of `refusal` is one of the nine of a
/// program's shape: the eight that have arms of their own, and `NoDirectValue`, which is the arm `_`. None of them depends on what the
/// registers hold. The only caller, `write_need`, has tested the reason (`is_of_shape`); any other would get the text for `NoDirectValue`.
pub(crate) fn write_shape_fault(
    text: &mut String,
    refusal: &RefusedProgram<'_>,
    insn: &Insn,
) -> Result<(), AllocError> {
    let slot = refusal.fault.slot;
    match refusal.fault.reason {
        Reason::JumpOutside => write_wrong_target(text, refusal, insn),
        Reason::JumpBackward => write_backward(text, refusal, insn),
        Reason::FallsOff => write_falls_off(text, refusal),
        Reason::Unreachable => write!(text, "none leads from slot 0 to slot {slot}"),
        Reason::UnknownHelper => write_unknown_helper(text, insn),
        Reason::FramePointerWritten => text.push_str("r10 may be read only"),
        Reason::DescriptorNotOpen => write_no_map(text, insn, "nothing"),
        Reason::DescriptorNotMap => write_no_map(text, insn, "a program"),
        _ => write_no_value(text, refusal.named, insn),
    }
}

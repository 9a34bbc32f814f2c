//! Arithmetic on pointers. `AllocError`: out of memory for the text.

use crate::needs::RefusedProgram;
use crate::needs::registers::{kind_of, write_maybe_null, write_register};
use insn_codec::{AluOp, Operand, Reg};
use reg_kinds::{Kind, Reason};
use std::alloc::AllocError;
use std::fmt::Write;
use tagged_model::FARTHEST_OFFSET;

/// Appends to `text` what is known of the operands of a rejected arithmetic instruction, as `r2 is stack - 8 and the constant is 4`: the
/// kind of the register `dst`, and for `src` the kind of the register or the value of the constant. For a move (`op`) it is only what is
/// known of `src`, as a move does not read `dst`. It begins a sentence that the caller ends with the rule that the operands break.
/// `refusal` has the facts before the instruction. `AllocError`: out of memory for the text.
fn write_operands(
    text: &mut String,
    refusal: &RefusedProgram<'_>,
    op: AluOp,
    dst: Reg,
    src: Operand,
) -> Result<(), AllocError> {
    if op != AluOp::Mov {
        write_register(text, refusal.facts, dst.number())?;
        text.push_str(" and ")?;
    }
    match src {
        Operand::Reg(reg) => write_register(text, refusal.facts, reg.number()),
        Operand::Imm(imm) => write!(text, "the constant is {imm}"),
    }
}

/// The number of the register that may be null, for the text on a sum or a difference that is rejected for `MaybeNull`: one operand is a
/// look-up's result without a null test yet (`MaybeValue`). It is `dst` if that has this kind, else the register of `src`. The last arm
/// can't occur: in it neither `dst` nor `src`, a constant, is such a result.
fn maybe_null(refusal: &RefusedProgram<'_>, dst: Reg, src: Operand) -> u8 {
    match (kind_of(refusal.facts, dst.number()), src) {
        (Kind::MaybeValue { .. }, _) => dst.number(),
        (_, Operand::Reg(reg)) => reg.number(),
        _ => dst.number(),
    }
}

/// What an operator of 64 bits (`wide`) or 32 allows of pointers, as the end of a sentence that `write_operands` begins with what is known
/// of the operands. `write_need` writes it for the reason `PointerArithmetic`. A 64-bit sum or difference may move a pointer by a number,
/// and a 64-bit move, which takes any value, never has this reason; all other operators take only numbers.
fn rule(wide: bool, op: AluOp) -> &'static str {
    match op {
        AluOp::Add if wide => {
            ", and a pointer is moved by a number: one into the stack by a constant, one into a value by any"
        }
        AluOp::Sub if wide => {
            ", and a number is taken from a pointer: a constant from one into the stack, any from one into a value"
        }
        _ if wide => ", and this operator takes numbers alone",
        _ => ", and 32-bit operators take numbers alone",
    }
}

/// Writes why the operator `op` of 64 bits (`wide`) or 32 is rejected on the operands `dst` and `src`: what is known of them, and what the
/// operator needs. The reason of the rejection is one of three, since the caller writes faults of the shape and unreadable registers. For
/// `MaybeNull` the text names the register that may be null, which the program has to test first; for `OffsetTooLarge` it has the bounds of
/// a pointer's offset; for `PointerArithmetic`, the last arm, it says what the operator allows of pointers.
pub(crate) fn write_need(
    text: &mut String,
    refusal: &RefusedProgram<'_>,
    wide: bool,
    op: AluOp,
    dst: Reg,
    src: Operand,
) -> Result<(), AllocError> {
    match refusal.fault.reason {
        Reason::MaybeNull => write_maybe_null(text, maybe_null(refusal, dst, src)),
        Reason::OffsetTooLarge => {
            write_operands(text, refusal, op, dst, src)?;
            write!(
                text,
                ", and offsets stay from -{FARTHEST_OFFSET} to {FARTHEST_OFFSET}"
            )
        }
        _ => {
            write_operands(text, refusal, op, dst, src)?;
            text.push_str(rule(wide, op))
        }
    }
}

/// Writes why a negation, a byte-order conversion or a move with sign extension is rejected: what is known of its only operand, as
/// `r1 is context`, and that this operator takes only numbers. `register` is the number of the operand, 0 to 10, and `refusal` has the
/// facts before the instruction. `AllocError`: out of memory for the text.
pub(crate) fn write_number_needed(
    text: &mut String,
    refusal: &RefusedProgram<'_>,
    register: u8,
) -> Result<(), AllocError> {
    write_register(text, refusal.facts, register)?;
    text.push_str(", and this operator takes numbers alone")
}

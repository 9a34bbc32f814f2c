//! Registers that are unreadable or may be null, results and comparisons. `AllocError`: out of memory for the text.

use crate::needs::RefusedProgram;
use crate::needs::calls::helper_reads;
use crate::ways::{Wanted, write_way};
use insn_codec::{Insn, Operand, Reference, Reg};
use log_facts::write_kind;
use reg_kinds::{Facts, Kind};
use std::alloc::AllocError;
use std::fmt::Write;
use words::REGISTERS;

/// The kind of the register with this number, 0 to 10. The test is needed since a `u8` may be greater: such a number does not occur, and
/// counts as an unreadable register.
pub(crate) fn kind_of(facts: &Facts, register: u8) -> Kind {
    let number = usize::from(register);
    if number < REGISTERS {
        facts.registers[number]
    } else {
        Kind::Unreadable
    }
}

/// Appends a register and its kind to `text`, as `r1 is context`, for the text on a rejected instruction. `register` is the number of the
/// register, 0 to 10; `facts` are those before the instruction. `AllocError`: out of memory for the text.
pub(crate) fn write_register(
    text: &mut String,
    facts: &Facts,
    register: u8,
) -> Result<(), AllocError> {
    write!(text, "r{register} is ")?;
    write_kind(text, kind_of(facts, register))
}

/// Writes why a program is rejected for `MaybeNull`, as `r1 may be null: test it first`: `register` is the number of the register, 0 to 10,
/// that has the result of a look-up before a null test. An access, an operator or a call may have this reason.
pub(crate) fn write_maybe_null(text: &mut String, register: u8) -> Result<(), AllocError> {
    write!(text, "r{register} may be null: test it first")
}

/// The number of the register `src`: the second operand of a comparison, or the source of a store, whose value goes to memory. `None` if
/// `src` is a constant. The text on why the instruction is rejected may name this register.
pub(crate) fn register_of(src: Operand) -> Option<u8> {
    match src {
        Operand::Reg(reg) => Some(reg.number()),
        Operand::Imm(_) => None,
    }
}

/// The number of the unreadable register that an instruction reads: `first` if that is unreadable, else `second`. Each of the two is the
/// number of a register, or `None` if the instruction reads no such register. The instruction was rejected for the reason
/// `UnreadableRegister`, so one of the two is unreadable: `second` needs no test, and the result is not `None`.
fn unreadable_of(facts: &Facts, first: Option<u8>, second: Option<u8>) -> Option<u8> {
    match first {
        Some(register) if kind_of(facts, register) == Kind::Unreadable => first,
        _ => second,
    }
}

/// The lowest of registers 1 to 5 that has an argument of the helper with the number `id` and is unreadable by `facts`, those before a
/// rejected call. `None` if each argument is readable, or if no helper has this number, which is a fault of the shape.
fn unreadable_argument(facts: &Facts, id: i32) -> Option<u8> {
    for register in 1..=5 {
        if helper_reads(id, register) && kind_of(facts, register) == Kind::Unreadable {
            return Some(register);
        }
    }
    None
}

/// The number of the unreadable register that the rejected instruction reads; of the first one if several are unreadable. The caller calls
/// this only if the reason of the rejection is `UnreadableRegister`, so there is one, and the result is not `None`. The profile of an
/// instruction lists the registers that it reads, but not the arguments of a helper, in registers 1 to 5, which a call reads;
/// `unreadable_argument` finds these.
fn unreadable_in(facts: &Facts, insn: &Insn) -> Option<u8> {
    let row = insn.profile();
    match row.reference {
        Reference::Helper(id) => unreadable_argument(facts, id),
        Reference::Nothing | Reference::Map(_) | Reference::Value(_, _) => unreadable_of(
            facts,
            row.first_read.map(|register| register.number()),
            row.second_read.map(|register| register.number()),
        ),
    }
}

/// Writes which unreadable register the rejected instruction `insn` reads, of several the first, and why the register has no readable value
/// (`write_way`), as `r2 was never written`. The reason of the rejection is `UnreadableRegister`, so `unreadable_in` finds a register, and
/// the arm `None`, which writes nothing, can't occur.
pub(crate) fn write_unreadable(
    text: &mut String,
    refusal: &RefusedProgram<'_>,
    insn: &Insn,
) -> Result<(), AllocError> {
    match unreadable_in(refusal.facts, insn) {
        Some(register) => {
            write!(text, "r{register} ")?;
            write_way(text, refusal, Wanted::Register(register))
        }
        None => Ok(()),
    }
}

/// Writes why an exit is rejected, as `r0 is context, and a number is needed`: the kind of register 0 before the exit, and that the result
/// of a program has to be a number. An exit whose register 0 is unreadable gets another text (`write_unreadable`).
pub(crate) fn write_result(
    text: &mut String,
    refusal: &RefusedProgram<'_>,
) -> Result<(), AllocError> {
    write_register(text, refusal.facts, 0)?;
    text.push_str(", and a number is needed")
}

/// Writes what is known of the operands of a rejected conditional jump, `dst` and, if it is a register, `src`, and then which comparison of
/// a pointer is allowed: a 64-bit == or != with the constant 0.
pub(crate) fn write_comparison(
    text: &mut String,
    refusal: &RefusedProgram<'_>,
    dst: Reg,
    src: Operand,
) -> Result<(), AllocError> {
    write_register(text, refusal.facts, dst.number())?;
    if let Some(register) = register_of(src) {
        text.push_str(" and ")?;
        write_register(text, refusal.facts, register)?;
    }
    text.push_str(", and a pointer is compared by == or != with the constant 0 alone, by 64 bits")
}

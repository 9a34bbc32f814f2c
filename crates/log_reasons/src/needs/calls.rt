//! Arguments of helpers. `AllocError`: out of memory for the text.

use crate::needs::RefusedProgram;
use crate::needs::access::{
    touched, value_size_of, write_outside_stack, write_outside_value, write_part_of_spill,
    write_unwritten,
};
use crate::needs::registers::{kind_of, write_maybe_null, write_register};
use log_facts::write_range;
use reg_kinds::{Facts, Kind, Reason, check_read};
use std::alloc::AllocError;
use std::fmt::Write;
use tagged_model::{Helper, Named, known_helper, shape_of};
use transfer::LENGTHS_END;
use words::STACK_SIZE;

/// What an argument of a helper has to be.
#[derive(Clone, Copy, PartialEq, Eq)]
enum Role {
    Map,
    Context,
    /// Any number.
    Number,
    /// A number of bytes, above 0 and below `LENGTHS_END`.
    Length,
    /// A pointer to the bytes of a key, which are read.
    Key,
    /// A pointer to the bytes of a value, which are read.
    Value,
    /// A pointer to bytes that the helper writes; the argument of the role `Length` says how many.
    Room,
}

/// An argument: its register and its role.
#[derive(Clone, Copy)]
struct Argument {
    register: u8,
    role: Role,
}

/// The map of a look-up, an update or a delete.
const MAP: Argument = Argument {
    register: 1,
    role: Role::Map,
};

/// The key of a look-up, an update or a delete.
const KEY: Argument = Argument {
    register: 2,
    role: Role::Key,
};

/// The new value of an update.
const VALUE: Argument = Argument {
    register: 3,
    role: Role::Value,
};

/// The flags of an update.
const FLAGS: Argument = Argument {
    register: 4,
    role: Role::Number,
};

/// The context, whose packet `LoadBytes` reads.
const CONTEXT: Argument = Argument {
    register: 1,
    role: Role::Context,
};

/// The offset in the packet from which `LoadBytes` reads.
const OFFSET: Argument = Argument {
    register: 2,
    role: Role::Number,
};

/// The bytes to which `LoadBytes` writes.
const ROOM: Argument = Argument {
    register: 3,
    role: Role::Room,
};

/// How many bytes `LoadBytes` reads and writes.
const LENGTH: Argument = Argument {
    register: 4,
    role: Role::Length,
};

/// The arguments of a helper, each a register and its role, in the order in which the verifier checks them: so the first that breaks its
/// rule is the rejected one. A length comes before the bytes that it counts: for `LoadBytes`, register 4 before register 3.
fn arguments_of(helper: Helper) -> &'static [Argument] {
    match helper {
        Helper::LookUp | Helper::Delete => &[MAP, KEY],
        Helper::Update => &[MAP, KEY, VALUE, FLAGS],
        Helper::LoadBytes => &[CONTEXT, OFFSET, LENGTH, ROOM],
    }
}

/// Whether the helper with the number `id` has an argument in the register with the number `register`. By this `unreadable_argument` finds
/// which unreadable register a rejected call reads. False if no helper has the number: such a call is a fault of the program's shape.
pub(crate) fn helper_reads(id: i32, register: u8) -> bool {
    match known_helper(id) {
        Some(helper) => arguments_of(helper)
            .iter()
            .any(|argument| argument.register == register),
        None => false,
    }
}

/// How many bytes a helper may read, or in the role `Room` write, at the address in an argument of this role: for `Key` or `Value` the size
/// of a key or a value of the map in register 1, for `Room` the greatest length that register 4 may have. `named` has the open descriptors
/// with their objects, and `facts` are those before the call. 0 for any other role, which points to no bytes. Also 0 if for `Key` or
/// `Value` register 1 is no map, or for `Room` register 4 is no number or may be 2^32 or more: then that register is itself rejected, and
/// checked first.
fn byte_count(named: &[Named], facts: &Facts, role: Role) -> u32 {
    let (map, length) = (kind_of(facts, 1), kind_of(facts, 4));
    match (role, map, length) {
        (Role::Key, Kind::MapRef(fd), _) => shape_of(named, fd).map_or(0, |shape| shape.key_size),
        (Role::Value, Kind::MapRef(fd), _) => value_size_of(named, fd),
        (Role::Room, _, Kind::Scalar(range)) => u32::try_from(range.hi).unwrap_or(0),
        _ => 0,
    }
}

/// Whether some of the bytes from `first` to `last`, both included, lie outside the stack. Both are offsets in bytes from the stack's upper
/// end: the stack has those from -`STACK_SIZE` to -1. `bytes_reason` calls this only for stack bytes that a helper writes (`Role::Room`),
/// of which nothing else is required. Those that a helper reads must also be written and touch no spill: `check_read` tests all of this.
fn is_outside_stack(first: i64, last: i64) -> bool {
    first < -(STACK_SIZE as i64) || last > -1
}

/// Why a helper may not read the bytes to which an argument of `kind` points, or, if `role` is `Room`, not write them; `None` if it may.
/// `role` is `Key`, `Value` or `Room`. `facts` are those before the call; `named` has what each open descriptor names. The helper begins 0
/// bytes from the pointer, and reads or writes at most `count` bytes (`byte_count`): `first` is the first byte, `last` the last one, as
/// offsets from the stack's upper end or from the start of a value (`touched`). For a pointer into the stack the reason is `OutsideStack`
/// if not all of them lie in it. For a read it is otherwise `PartOfSpill` if they touch a spill, else `UnwrittenStack` if one may be
/// unwritten; a write may overwrite both. `OutsideValue` if some may lie outside a value, `MaybeNull` for a look-up's result that may be
/// null, `HelperArgument` for any other kind.
fn bytes_reason(named: &[Named], facts: &Facts, role: Role, kind: Kind) -> Option<Reason> {
    let count = byte_count(named, facts, role);
    let (first, last) = touched(kind, 0, i64::from(count));
    match kind {
        Kind::Stack(_) if role == Role::Room && is_outside_stack(first, last) => {
            Some(Reason::OutsideStack)
        }
        Kind::Stack(_) if role == Role::Room => None,
        Kind::Stack(offset) => check_read(facts, offset, count).err(),
        Kind::Value(pointer) => {
            if first < 0 || last >= i64::from(value_size_of(named, pointer.map)) {
                Some(Reason::OutsideValue)
            } else {
                None
            }
        }
        Kind::MaybeValue { .. } => Some(Reason::MaybeNull),
        _ => Some(Reason::HelperArgument),
    }
}

/// Why `argument`, a register and its role in a call of a helper, is rejected; `None` if it is allowed. By this `refused_argument` finds
/// the argument of a rejected call about which the log writes. `facts` are those before the call, and `named` has what each open descriptor
/// names. `HelperArgument` if the register has not the kind that its role needs: a map for `Map`, the context for `Context`, a number for
/// `Number` and `Length`, a pointer to bytes for `Key` and `Value`, which the helper reads, and for `Room`, to which it writes.
/// `bytes_reason` tests such a pointer, and has other reasons too. `LengthUnbounded` if a number for `Length` may be 0, or `LENGTHS_END`
/// (2^29) or more.
fn argument_reason(named: &[Named], facts: &Facts, argument: Argument) -> Option<Reason> {
    let kind = kind_of(facts, argument.register);
    match (argument.role, kind) {
        (Role::Map, Kind::MapRef(_)) => None,
        (Role::Context, Kind::Ctx) => None,
        (Role::Number, Kind::Scalar(_)) => None,
        (Role::Length, Kind::Scalar(range)) if range.lo == 0 || range.hi >= LENGTHS_END => {
            Some(Reason::LengthUnbounded)
        }
        (Role::Length, Kind::Scalar(_)) => None,
        (Role::Map | Role::Context | Role::Number | Role::Length, _) => {
            Some(Reason::HelperArgument)
        }
        (role, kind) => bytes_reason(named, facts, role, kind),
    }
}

/// The first rejected argument of a rejected call of `helper`, on which the log then writes what is known and needed; `None` if all
/// arguments are allowed. `refusal` has what each open descriptor names, and the facts before the call. The order is that in which the
/// verifier checks the arguments (`arguments_of`): a length before the bytes that it counts.
fn refused_argument(refusal: &RefusedProgram<'_>, helper: Helper) -> Option<Argument> {
    for argument in arguments_of(helper) {
        if argument_reason(refusal.named, refusal.facts, *argument).is_some() {
            return Some(*argument);
        }
    }
    None
}

/// The end of the sentence on a rejected argument that is of the wrong kind: what an argument in this role has to be. `write_argument` has
/// written the start, what is known of the argument's register. `Room` is bytes that the helper writes.
fn needed(role: Role) -> &'static str {
    match role {
        Role::Map => ", and a map is needed",
        Role::Context => ", and the context is needed",
        Role::Number | Role::Length => ", and a number is needed",
        Role::Key => ", and a pointer to a key in the stack or in a value is needed",
        Role::Value => ", and a pointer to a value in the stack or in a value is needed",
        Role::Room => ", and a pointer to room in the stack or in a value is needed",
    }
}

/// Writes what is known of register 4, the length argument of `LoadBytes`, and what is needed: its range, from its `kind`, and that a
/// length is from 1 to `LENGTHS_END` - 1. Writes nothing if the kind is no number, which can't occur: then the reason would be
/// `HelperArgument`, and this function is called for `LengthUnbounded`.
fn write_length(text: &mut String, kind: Kind) -> Result<(), AllocError> {
    let Kind::Scalar(range) = kind else {
        return Ok(());
    };
    let greatest = LENGTHS_END - 1;
    text.push_str("r4 is ")?;
    write_range(text, range)?;
    write!(text, ", and a length is from 1 to {greatest}")
}

/// Writes, by the reason of the fault, what is known of the rejected argument and what the helper needs in its role (`Role`), for example a
/// map or a length. `refusal` has the fault of the rejected call, and the facts before it. If the argument points into the stack or into a
/// value, `first` and `last` are the first and the last byte that the helper may read, or write if the role is `Room`: offsets from the
/// stack's upper end, or from the start of the value. The helper begins at the byte to which the argument points, so `touched` gets the
/// offset 0. For any other kind `first` and `last` are not used. In the last arm the reason is `HelperArgument`: an argument of this role
/// may not have this kind. `AllocError`: out of memory.
fn write_argument(
    text: &mut String,
    refusal: &RefusedProgram<'_>,
    argument: Argument,
) -> Result<(), AllocError> {
    let (register, role, facts) = (argument.register, argument.role, refusal.facts);
    let kind = kind_of(facts, register);
    let count = byte_count(refusal.named, facts, role);
    let (first, last) = touched(kind, 0, i64::from(count));
    let verb = if role == Role::Room {
        "writes"
    } else {
        "reads"
    };
    match (refusal.fault.reason, kind) {
        (Reason::LengthUnbounded, _) => write_length(text, kind),
        (Reason::MaybeNull, _) => write_maybe_null(text, register),
        (Reason::OutsideStack, _) => write_outside_stack(text, verb, first, last),
        (Reason::UnwrittenStack, _) => write_unwritten(text, refusal, first, last),
        (Reason::PartOfSpill, _) => write_part_of_spill(text, facts, verb, first, last),
        (Reason::OutsideValue, Kind::Value(pointer)) => {
            write_outside_value(text, refusal.named, verb, pointer.map, first, last)
        }
        _ => {
            write_register(text, facts, register)?;
            text.push_str(needed(role))
        }
    }
}

/// Appends to `text` what is known of the rejected argument in a call of the helper with the number `id`, and what is required of it.
/// `refusal` has the rejected program, and the facts before the call. The caller has handled faults of the shape and unreadable registers
/// before. So the helper is known, its arguments are readable, and one of them breaks another rule: `refused_argument` finds the first one
/// that does. If the helper were unknown, or no argument rejected, nothing would be written. `AllocError`: out of memory for the text.
pub(crate) fn write_need(
    text: &mut String,
    refusal: &RefusedProgram<'_>,
    id: i32,
) -> Result<(), AllocError> {
    match known_helper(id).and_then(|helper| refused_argument(refusal, helper)) {
        Some(argument) => write_argument(text, refusal, argument),
        None => Ok(()),
    }
}

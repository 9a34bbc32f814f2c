//! Accesses to the stack, to the context and to maps' values. `AllocError`: out of memory for the text.
//!
//! A `verb` is what the instruction does with bytes: it `reads`, `writes` or `changes` them. `first` and `last`, both included, are
//! offsets: of stack bytes from the stack's upper end, of others from the start of their object.

use crate::needs::RefusedProgram;
use crate::needs::registers::{kind_of, register_of, write_maybe_null, write_register};
use crate::ways::{Wanted, is_written, write_way};
use insn_codec::{AccessSize, Insn, Reg};
use log_facts::{write_byte_range, write_kind};
use reg_kinds::{Facts, Kind, Reason, Slot, ValuePointer};
use std::alloc::AllocError;
use std::fmt::Write;
use tagged_model::{CONTEXT_WORDS, Named, shape_of};
use words::{STACK_SIZE, STACK_SLOTS};

/// What an access does.
#[derive(Clone, Copy, PartialEq, Eq)]
enum AccessKind {
    Load,
    /// A load that extends the sign.
    SignedLoad,
    Store,
    /// An atomic operation, which reads bytes and writes them.
    Change,
}

impl AccessKind {
    /// What the instruction does with the bytes, as the verb of a sentence whose subject is the instruction: a load `reads` them, a store
    /// `writes` them, and an atomic operation (`Change`), which does both, `changes` them.
    fn verb(self) -> &'static str {
        match self {
            AccessKind::Load | AccessKind::SignedLoad => "reads",
            AccessKind::Store => "writes",
            AccessKind::Change => "changes",
        }
    }
}

/// The memory access of an instruction.
#[derive(Clone, Copy)]
struct Access {
    /// The number of the base register.
    base: u8,
    /// The distance in bytes of the accessed bytes from the address in the base register.
    offset: i64,
    /// How many bytes the instruction accesses.
    bytes: i64,
    /// The number of the register whose value a store writes, or with which an atomic operation computes; `None` for a load, and for a
    /// store of a constant.
    given: Option<u8>,
    access_kind: AccessKind,
}

/// Makes the `Access` of a load, a store or an atomic operation, from which the log says why the instruction is rejected. The instruction
/// accesses `size` bytes, at the address in register `base` plus `off` bytes. `given` is the number of the register whose value a store
/// writes, or with which an atomic operation computes; it is `None` for a load, and for a store of a constant. `access_kind` is what the
/// instruction does with the bytes: it loads them, loads them with sign extension, stores them, or changes them by an atomic operation.
fn access_at(
    base: Reg,
    off: i16,
    size: AccessSize,
    given: Option<u8>,
    access_kind: AccessKind,
) -> Access {
    Access {
        base: base.number(),
        offset: i64::from(off),
        bytes: i64::from(size.bytes()),
        given,
        access_kind,
    }
}

/// The kind of access of a load: `SignedLoad` if the load extends the sign of the number that it reads (`is_signed`), else `Load`. The two
/// differ only in the text on a refused access to the context, which says of a `SignedLoad` that it reads bytes with their sign
/// (`write_context`).
fn load_access_kind(is_signed: bool) -> AccessKind {
    if is_signed {
        AccessKind::SignedLoad
    } else {
        AccessKind::Load
    }
}

/// The memory access of a load, a store or an atomic operation; `None` for any other instruction, also for a call. From the access
/// `write_need` writes why the instruction is rejected. The fourth argument of `access_at` is the number of the register whose value a
/// store writes, or with which an atomic operation computes; `None` for a load, and for a store of a constant.
fn access_of(insn: &Insn) -> Option<Access> {
    match *insn {
        Insn::Load(ref load) => Some(access_at(
            load.src,
            load.off,
            load.size,
            None,
            load_access_kind(load.signed),
        )),
        Insn::Store {
            size,
            dst,
            src,
            off,
        } => Some(access_at(dst, off, size, register_of(src), AccessKind::Store)),
        Insn::Atomic {
            size,
            dst,
            src,
            off,
            ..
        } => Some(access_at(
            dst,
            off,
            size.access(),
            Some(src.number()),
            AccessKind::Change,
        )),
        _ => None,
    }
}

/// The first and the last byte that an access of `bytes` bytes may touch, `offset` bytes from a pointer of this kind. Both are offsets from
/// the start of the object, or from the stack's upper end. A pointer into a value may have any offset of a range: the first byte is for the
/// least offset, the last byte for the greatest. For a kind that is no pointer into the stack or into a value, the pointer's offset is
/// taken as 0; no caller uses the result then. The sums saturate, but not with the numbers of the callers, which have at most 32 bits.
pub(crate) fn touched(kind: Kind, offset: i64, bytes: i64) -> (i64, i64) {
    let (low, high) = match kind {
        Kind::Stack(offset) => (offset, offset),
        Kind::Value(pointer) => (pointer.lo, pointer.hi),
        _ => (0, 0),
    };
    let first = i64::from(low).saturating_add(offset);
    let last = i64::from(high)
        .saturating_add(offset)
        .saturating_add(bytes)
        .saturating_sub(1);
    (first, last)
}

/// Writes which bytes the instruction, or the helper that it calls, reads, writes or changes: as `it reads bytes -8 to -1`, or as `it reads
/// byte -1` if `first` and `last` are equal. `verb` is the word after `it`. `first` and `last` are the first and the last of the bytes,
/// both included, as offsets from the stack's upper end or from the start of a value; the caller then writes of which of the two.
/// `AllocError`: out of memory.
fn write_touched(text: &mut String, verb: &str, first: i64, last: i64) -> Result<(), AllocError> {
    write!(text, "it {verb} ")?;
    write_byte_range(text, first, last)
}

/// Writes that the instruction reads, writes or changes (`verb`) the bytes from `first` to `last`, both included, by their offsets from the
/// stack's upper end; and which bytes the stack has, since not all bytes from `first` to `last` lie in the stack.
pub(crate) fn write_outside_stack(
    text: &mut String,
    verb: &str,
    first: i64,
    last: i64,
) -> Result<(), AllocError> {
    write_touched(text, verb, first, last)?;
    write!(text, " of the stack, whose bytes are -{STACK_SIZE} to -1")
}

/// The first and the last of the stack bytes from `first` to `last` that may be unwritten, since not each path to the instruction writes
/// them. Both are offsets from the stack's upper end (-1 is the highest byte). Bytes between the two results may be written on each path.
/// If no byte may be unwritten, which the reason `UnwrittenStack` excludes, both arguments are returned.
fn unwritten_ends(facts: &Facts, first: i64, last: i64) -> (i64, i64) {
    let mut lowest = None;
    let mut highest = last;
    for byte in first..=last {
        if !is_written(facts, byte) {
            highest = byte;
            if lowest.is_none() {
                lowest = Some(byte);
            }
        }
    }
    (lowest.unwrap_or(first), highest)
}

/// Writes why the rejected instruction of `refusal`, or the helper that it calls, may not read the stack bytes from `first` to `last`,
/// offsets from the stack's upper end: by the facts before this instruction some of them count as unwritten (`UnwrittenStack`). The text
/// begins with the range from the first such byte to the last one, as `bytes -8 to -5 of the stack`; bytes between the two may be written.
/// Then follows why bytes of this range count as unwritten (`write_way`), as `were never written`, or as `are lost at slot 4`: a write
/// there ends a spill, a pointer or a map that is whole in a stack slot, and the bytes of the spill that are not certainly overwritten
/// count as unwritten.
pub(crate) fn write_unwritten(
    text: &mut String,
    refusal: &RefusedProgram<'_>,
    first: i64,
    last: i64,
) -> Result<(), AllocError> {
    let (first, last) = unwritten_ends(refusal.facts, first, last);
    write_byte_range(text, first, last)?;
    text.push_str(" of the stack ")?;
    write_way(text, refusal, Wanted::Stack { first, last })
}

/// The lowest spill in `facts`, a pointer or a map that is whole in eight bytes of the stack, that overlaps the stack bytes from `first` to
/// `last`. Both are offsets from the stack's upper end, and included. Returns the offset of the spill's lowest byte, and its kind; `None`
/// if no spill overlaps these bytes. The text on a read that is rejected for `PartOfSpill` names this spill.
fn spill_among(facts: &Facts, first: i64, last: i64) -> Option<(i64, Kind)> {
    for index in 0..STACK_SLOTS {
        let lowest = 8 * index as i64 - 8 * STACK_SLOTS as i64;
        if let Slot::Spill(kind) = facts.slots[index]
            && lowest <= last
            && first <= lowest + 7
        {
            return Some((lowest, kind));
        }
    }
    None
}

/// Writes the end of a sentence: the eight stack bytes from the offset `lowest` on are a spilled pointer, with its kind (`kind`), and only
/// a load of all eight reads it. A spilled map is called a pointer too. `lowest` is negative, so the addition never saturates.
fn write_spill(text: &mut String, lowest: i64, kind: Kind) -> Result<(), AllocError> {
    let highest = lowest.saturating_add(7);
    write!(
        text,
        ", and bytes {lowest} to {highest} are a spilled pointer ("
    )?;
    write_kind(text, kind)?;
    text.push_str("), which a load of these 8 bytes alone reads")
}

/// Writes which stack bytes the instruction, or the helper that it calls, `reads` or `changes` (`verb`): those from `first` to `last`, both
/// included, by their offsets from the stack's upper end. Then writes which spill of `facts`, those before the instruction, overlaps these
/// bytes, the lowest if several do (`spill_among`), and that only a load of all eight bytes of the spill reads it. A spill is a pointer or
/// a map that is whole in a stack slot; the text says `spilled pointer` of a map, too. Some spill overlaps the bytes, since the reason of
/// the rejection is `PartOfSpill`; so the arm `None` can't occur.
pub(crate) fn write_part_of_spill(
    text: &mut String,
    facts: &Facts,
    verb: &str,
    first: i64,
    last: i64,
) -> Result<(), AllocError> {
    write_touched(text, verb, first, last)?;
    text.push_str(" of the stack")?;
    match spill_among(facts, first, last) {
        Some((lowest, kind)) => write_spill(text, lowest, kind),
        None => Ok(()),
    }
}

/// Writes why a store of register `register` (its number) to the stack is rejected, as `r2 is context, and is stored by 8 bytes, not by 4`:
/// the kind of the register is a pointer or a map, which only a store of 8 bytes may store, and this store has `bytes` bytes, fewer than 8.
/// The caller calls this only for the reason `PartOfSpill`, which no store of a number has.
fn write_store_size(
    text: &mut String,
    facts: &Facts,
    register: u8,
    bytes: i64,
) -> Result<(), AllocError> {
    write_register(text, facts, register)?;
    write!(text, ", and is stored by 8 bytes, not by {bytes}")
}

/// The size in bytes of a value of the map with descriptor `fd`, which bounds the accesses to the value. `named` lists the open
/// descriptors, each with what it names. 0 if `fd` names no map, which can't occur: callers have `fd` from the `Kind` of a register or a
/// spill, and the descriptor in a kind is that of a map.
pub(crate) fn value_size_of(named: &[Named], fd: u32) -> u32 {
    match shape_of(named, fd) {
        Some(shape) => shape.value_size,
        None => 0,
    }
}

/// Writes which bytes of a map's value the instruction, or the helper that it calls, reads, writes or changes (`verb`), and the size of the
/// value, since not all these bytes lie in it, as `it reads bytes 4 to 11 of a value of 8 bytes (map 3)`. `first` and `last` count from the
/// start of the value. `map` is the descriptor of the map; `named` has the open descriptors with their objects, and so the size.
pub(crate) fn write_outside_value(
    text: &mut String,
    named: &[Named],
    verb: &str,
    map: u32,
    first: i64,
    last: i64,
) -> Result<(), AllocError> {
    write_touched(text, verb, first, last)?;
    let size = value_size_of(named, map);
    write!(text, " of a value of {size} bytes (map {map})")
}

/// Writes what is wrong with an access to the context, which was rejected for the reason `ContextAccess`. A load has to read one aligned
/// word, four bytes, and may not extend the sign: for any other load the text has the number of bytes, the sign extension and the offset,
/// and then which loads are allowed. A store or an atomic operation (the arm `_`) is never allowed.
fn write_context(text: &mut String, access: Access) -> Result<(), AllocError> {
    let (verb, bytes, offset) = (access.access_kind.verb(), access.bytes, access.offset);
    let sign = match access.access_kind {
        AccessKind::Load => "",
        AccessKind::SignedLoad => " with their sign",
        _ => return write!(text, "it {verb} the context, which may be read only"),
    };
    let many = if bytes == 1 { "byte" } else { "bytes" };
    write!(
        text,
        "it {verb} {bytes} {many}{sign} at offset {offset} of the context, "
    )?;
    let last = 4 * (CONTEXT_WORDS - 1);
    write!(text, "where words of 4 bytes are read at 0, 4, .. {last}")
}

/// Writes why a register's value is rejected: the register and its kind in `facts`, those before the rejected instruction, and then
/// `needed`, which says that a number is required, as `r2 is context, and numbers alone are stored in a value`. The register has the number
/// `given`: the instruction is a store into a map's value, which writes the register's value there, or an atomic operation, which computes
/// with it. `given` is `None` if a store writes a constant; then nothing is written to `text`. `None` can't occur here: the instruction is
/// rejected because what is stored, or computed with, is no number.
fn write_given(
    text: &mut String,
    facts: &Facts,
    given: Option<u8>,
    needed: &str,
) -> Result<(), AllocError> {
    match given {
        Some(register) => {
            write_register(text, facts, register)?;
            text.push_str(needed)
        }
        None => Ok(()),
    }
}

/// Writes why the offset of `access`, an atomic operation in a map's value, is rejected. `pointer` is what is known of the operation's base
/// register: the descriptor of the map, which is written too, and the least and the greatest offset in bytes from the start of a value. The
/// instruction's own offset is added to both. The sum has to be one known number, a multiple of the operation's size. If both sums are
/// equal, the offset is known, and the text is that it is no multiple. Else the text has the range of the offset, and that one offset has
/// to be known.
fn write_unaligned_atomic(
    text: &mut String,
    access: Access,
    pointer: ValuePointer,
) -> Result<(), AllocError> {
    let (map, bytes) = (pointer.map, access.bytes);
    let low = i64::from(pointer.lo).saturating_add(access.offset);
    let high = i64::from(pointer.hi).saturating_add(access.offset);
    write!(text, "it changes {bytes} bytes at offset {low}")?;
    if low == high {
        write!(text, " of a value (map {map}), no multiple of {bytes}")
    } else {
        write!(
            text,
            " to {high} of a value (map {map}), and one offset has to be known"
        )
    }
}

/// Writes why an access to the stack bytes from `first` to `last`, offsets from the stack's upper end, is rejected: what the access does,
/// and which rule forbids it. The caller passes four reasons: a byte outside the stack (`OutsideStack`), a `first` that is no multiple of
/// the number of bytes (`UnalignedStack`), a byte that may be unwritten (`UnwrittenStack`), and `PartOfSpill`, the reason of the last two
/// arms. A store breaks that rule if it stores only a part of the pointer or map in its register (`access.given`). A load or an atomic
/// operation breaks it if it reads a spilled pointer or map, and is not a load of all its bytes.
fn write_stack_need(
    text: &mut String,
    refusal: &RefusedProgram<'_>,
    access: Access,
    first: i64,
    last: i64,
) -> Result<(), AllocError> {
    let (verb, bytes) = (access.access_kind.verb(), access.bytes);
    match (refusal.fault.reason, access.given) {
        (Reason::OutsideStack, _) => write_outside_stack(text, verb, first, last),
        (Reason::UnalignedStack, _) => {
            write!(
                text,
                "it {verb} {bytes} bytes at {first} of the stack, no multiple of {bytes}"
            )
        }
        (Reason::UnwrittenStack, _) => write_unwritten(text, refusal, first, last),
        (_, Some(register)) if access.access_kind == AccessKind::Store => {
            write_store_size(text, refusal.facts, register, bytes)
        }
        _ => write_part_of_spill(text, refusal.facts, verb, first, last),
    }
}

/// Appends to `text`, by the reason of the refusal, what is known of `access`, the access of the rejected instruction, and what the broken
/// rule requires. `refusal` has the reason, the facts before the instruction, and in `named` the open descriptors with their objects, and
/// so the size of a map's value. `first` and `last` are the first and the last byte that the access may touch, as offsets from the stack's
/// upper end or from the start of a value. They are used only if the base register points into the stack or into a value; `touched` also
/// returns two numbers for any other kind. `access.given` is the register whose value a store writes, or with which an atomic operation
/// computes. The reasons `UnalignedAtomic` and `OutsideValue` are only those of accesses to a map's value, so the base register then points
/// into a value. The last arm has the four reasons of an access to the stack: `OutsideStack`, `UnalignedStack`, `UnwrittenStack` and
/// `PartOfSpill`. `AllocError`: out of memory for the text.
fn write_access_need(
    text: &mut String,
    refusal: &RefusedProgram<'_>,
    access: Access,
) -> Result<(), AllocError> {
    let facts = refusal.facts;
    let kind = kind_of(facts, access.base);
    let (first, last) = touched(kind, access.offset, access.bytes);
    match (refusal.fault.reason, kind) {
        (Reason::MaybeNull, _) => write_maybe_null(text, access.base),
        (Reason::ContextAccess, _) => write_context(text, access),
        (Reason::PointerStored, _) => {
            write_given(
                text,
                facts,
                access.given,
                ", and numbers alone are stored in a value",
            )
        }
        (Reason::PointerArithmetic, _) => {
            write_given(
                text,
                facts,
                access.given,
                ", and an atomic operation takes a number",
            )
        }
        (Reason::UnalignedAtomic, Kind::Value(pointer)) => {
            write_unaligned_atomic(text, access, pointer)
        }
        (Reason::OutsideValue, Kind::Value(pointer)) => {
            write_outside_value(
                text,
                refusal.named,
                access.access_kind.verb(),
                pointer.map,
                first,
                last,
            )
        }
        (Reason::NotPointer, _) => {
            write_register(text, facts, access.base)?;
            text.push_str(", and a pointer to the stack, to the context or into a value is needed")
        }
        _ => write_stack_need(text, refusal, access, first, last),
    }
}

/// Writes what is known of the memory access of the rejected instruction `insn`, and what the access needs. `write_need` of `needs.rt`
/// calls this function in the last arm of its `match`, after its tests for faults of the shape and for unreadable registers. Loads, stores
/// and atomic operations reach that arm. Unconditional jumps and wide loads would too, but they are rejected only for faults of the shape.
/// So `insn` always accesses memory, and the arm `None`, which writes nothing, can't occur.
pub(crate) fn write_need(
    text: &mut String,
    refusal: &RefusedProgram<'_>,
    insn: &Insn,
) -> Result<(), AllocError> {
    match access_of(insn) {
        Some(access) => write_access_need(text, refusal, access),
        None => Ok(()),
    }
}

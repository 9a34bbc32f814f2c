//! Kinds as text.

use interval::Range;
use reg_kinds::{Kind, ValuePointer};
use std::alloc::AllocError;
use std::fmt::Write;

/// Writes `number` in decimal. If it is 2^63 or more, its value as a signed number follows in parentheses: `18446744073709551615 (-1)`. The
/// error is out of memory.
fn write_number(text: &mut String, number: u64) -> Result<(), AllocError> {
    let signed = number.cast_signed();
    if signed < 0 {
        write!(text, "{number} ({signed})")
    } else {
        write!(text, "{number}")
    }
}

/// Writes a range: its number if it has only one, and after a number of 2^63 or more its signed value in parentheses; `any number` for all
/// of 64 bits; else the least and the greatest number, as `0 to 9`.
///
/// # Errors
///
/// `AllocError`: out of memory for the text.
pub fn write_range(text: &mut String, range: Range) -> Result<(), AllocError> {
    let (lo, hi) = (range.lo, range.hi);
    if lo == hi {
        write_number(text, lo)
    } else if lo == 0 && hi == u64::MAX {
        text.push_str("any number")
    } else {
        write!(text, "{lo} to {hi}")
    }
}

/// Writes `name` and an offset in bytes from what it names, as `stack - 8`; only `name` if the offset is 0. The error is out of memory.
fn write_offset_from(text: &mut String, name: &str, offset: i32) -> Result<(), AllocError> {
    let distance = offset.unsigned_abs();
    if offset == 0 {
        text.push_str(name)
    } else if offset < 0 {
        write!(text, "{name} - {distance}")
    } else {
        write!(text, "{name} + {distance}")
    }
}

/// Writes a pointer into a map's value, as `value of map 3, offset 0 to 7`: the map's descriptor, and the offset in bytes from the start of
/// the value, or the least and the greatest that it may have, both included. The error is out of memory.
fn write_value_pointer(text: &mut String, pointer: ValuePointer) -> Result<(), AllocError> {
    let (map, lo, hi) = (pointer.map, pointer.lo, pointer.hi);
    write!(text, "value of map {map}, offset {lo}")?;
    if lo == hi {
        Ok(())
    } else {
        write!(text, " to {hi}")
    }
}

/// Writes the kind of a register or a stack slot, by the values that it admits: `not readable`, `any number` or a range as `5 to 9`,
/// `context`, `map 3` (the descriptor), `stack - 8` (bytes from the stack's upper end), or `value of map 3, offset 0` (bytes from the
/// value's start). The result of a look-up that no null test has settled has `or null` and the slot of the look-up too.
///
/// # Errors
///
/// `AllocError`: out of memory for the text.
pub fn write_kind(text: &mut String, kind: Kind) -> Result<(), AllocError> {
    match kind {
        Kind::Unreadable => text.push_str("not readable"),
        Kind::Scalar(range) => write_range(text, range),
        Kind::MapRef(map) => write!(text, "map {map}"),
        Kind::Stack(offset) => write_offset_from(text, "stack", offset),
        Kind::Ctx => text.push_str("context"),
        Kind::Value(pointer) => write_value_pointer(text, pointer),
        Kind::MaybeValue { map, site } => {
            write!(
                text,
                "value of map {map}, offset 0, or null (look-up at slot {site})"
            )
        }
    }
}

/// Writes a range of bytes of an object by the offsets of the first and the last byte, both included: as `bytes 0 to 3`, or as `byte 3` if
/// the two are equal. Offsets count from the start of the object, or from the stack's upper end. The caller names the object.
///
/// # Errors
///
/// `AllocError`: out of memory for the text.
pub fn write_byte_range(text: &mut String, first: i64, last: i64) -> Result<(), AllocError> {
    if first == last {
        write!(text, "byte {first}")
    } else {
        write!(text, "bytes {first} to {last}")
    }
}

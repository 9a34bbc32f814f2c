//! Facts as text: what is known of registers and of the stack, as far as it differs from earlier facts.
//!
//! `start` is the offset in the text at which the notes begin: each but the first one follows a semicolon. `AllocError`: out of memory for
//! the text.

ghost use Rattle.std.specs.Prelude.{◌<◌};

use log_facts::write_kind;
use reg_kinds::{Facts, Kind, Slot};
use std::alloc::AllocError;
use std::fmt::Write;
use words::{REGISTERS, STACK_SLOTS};

/// The notes of `write_stack_bytes` are on bytes that are written in the new facts and were not in the old ones.
const WRITTEN: bool = false;

/// The notes of `write_stack_bytes` are on bytes that were readable in the old facts and are not in the new ones.
const LOST: bool = true;

/// Separates the note that the caller writes next from the notes before it, by a semicolon and a space. Writes nothing before the first
/// note, that is, if the text ends at the offset `start`, at which notes begin.
pub(crate) fn separate_note(text: &mut String, start: usize) -> Result<(), AllocError> {
    if text.len() > start {
        text.push_str("; ")
    } else {
        Ok(())
    }
}

/// Writes a note, as `r1 = any number`, with the kind that a register has in the facts `new`: for each register that is readable in `new`,
/// and in `old` is not readable or has another kind. A register that is readable only in `old` gets its note from `write_lost_registers`. A
/// note that begins at offset `start` of the text is the first; each other note has a semicolon and a space before it.
fn write_registers(
    text: &mut String,
    start: usize,
    old: &Facts,
    new: &Facts,
) -> Result<(), AllocError> {
    for number in 0..REGISTERS {
        let kind = new.registers[number];
        if kind != Kind::Unreadable && kind != old.registers[number] {
            separate_note(text, start)?;
            write!(text, "r{number} = ")?;
            write_kind(text, kind)?;
        }
    }
    Ok(())
}

/// Appends one note on the registers that are lost, as `r1, r3 lost`; nothing if there are none. The log shows how the facts `new` differ
/// from the facts `old`: a register is lost if it is readable in `old` and not in `new`. `start` is the offset in the text at which the
/// notes on these facts begin. Each of them but the first has a semicolon and a space before it (`separate_note`). `AllocError`: out of
/// memory for the text.
fn write_lost_registers(
    text: &mut String,
    start: usize,
    old: &Facts,
    new: &Facts,
) -> Result<(), AllocError> {
    let mut are_more = false;
    for number in 0..REGISTERS {
        if new.registers[number] == Kind::Unreadable && old.registers[number] != Kind::Unreadable {
            if are_more {
                text.push_str(", ")?;
            } else {
                separate_note(text, start)?;
            }
            write!(text, "r{number}")?;
            are_more = true;
        }
    }
    if are_more {
        text.push_str(" lost")
    } else {
        Ok(())
    }
}

/// The mask of the bytes of a stack slot that a note lists as newly written; bit 0 is the lowest byte. `old` is the slot in the earlier
/// facts, `new` in the later ones. A spill is a pointer or a map that is stored whole. If neither slot is a spill, the bytes are those that
/// are written in `new` and not in `old`. If only `old` is a spill, they are all bytes that are written in `new`, since the kind that was
/// known of the whole slot no longer holds. If `new` is a spill, the mask is 0: a new spill has a note of its own (`write_spills`).
fn written(old: Slot, new: Slot) -> u8 {
    match (old, new) {
        (Slot::Bytes(before), Slot::Bytes(after)) => after & !before,
        (Slot::Spill(_), Slot::Bytes(after)) => after,
        (_, Slot::Spill(_)) => 0,
    }
}

/// The mask of the bytes of a stack slot that the log lists as lost; bit 0 is the lowest byte. They are readable in `old`, the slot in the
/// earlier facts, and not in `new`, the slot in the later ones. The mask in `Bytes` has the bytes that are written, and so readable. Of a
/// spill, a pointer or a map that is stored whole, all eight bytes are readable, so the result is 0 if `new` is a spill.
fn lost(old: Slot, new: Slot) -> u8 {
    match (old, new) {
        (Slot::Bytes(before), Slot::Bytes(after)) => before & !after,
        (Slot::Spill(_), Slot::Bytes(after)) => !after,
        (_, Slot::Spill(_)) => 0,
    }
}

/// The offset of a stack slot's lowest byte from the stack's upper end: -8 for the highest stack slot. `index` is the number of the stack
/// slot, from 0 for the lowest, and is below `STACK_SLOTS`.
fn lowest_byte(index: usize) -> i64
    requires { index < STACK_SLOTS }
{
    8 * index as i64 - 8 * STACK_SLOTS as i64
}

/// Consecutive bytes of the stack that are still to be written into the text, by their offsets from the stack's upper end.
#[derive(Drop)]
struct Row {
    /// The offset in the text at which notes begin, the first without a semicolon.
    start: usize,
    /// The first byte.
    first: i64,
    /// The byte after the last; equal to the first if there is no byte.
    end: i64,
}

impl Row {
    /// Writes a note on the consecutive stack bytes that this `Row` has, as `stack -8 to -5 written`, or `stack -8 written` for a single
    /// byte: the offsets of the first and the last byte from the stack's upper end, and the word `what`, which is `written` or `lost`.
    /// Writes nothing if the `Row` has no byte. A note that does not begin at the offset `start` of the text is not the first, so a
    /// semicolon separates it from the one before (`separate_note`). `AllocError`: out of memory for the text.
    fn write(&self, text: &mut String, what: &str) -> Result<(), AllocError> {
        if self.first == self.end {
            return Ok(());
        }
        let (first, last) = (self.first, self.end.saturating_sub(1));
        separate_note(text, self.start)?;
        if first == last {
            write!(text, "stack {first} {what}")
        } else {
            write!(text, "stack {first} to {last} {what}")
        }
    }

    /// Adds the stack byte at `byte`, an offset from the stack's upper end, to this row of consecutive bytes. If `byte` does not follow the
    /// last byte of the row, the row ends: it is written into `text`, as a note with the word `what` (`written` or `lost`), unless it is
    /// empty, and a new row begins at `byte`.
    fn add_byte(&mut self, text: &mut String, what: &str, byte: i64) -> Result<(), AllocError> {
        if byte != self.end {
            self.write(text, what)?;
            self.first = byte;
        }
        self.end = byte.saturating_add(1);
        Ok(())
    }

    /// Adds bytes of a stack slot to this row of consecutive stack bytes. The slot has the number `index`, 0 for the lowest slot. Its bytes
    /// whose bit in `mask` is 1 are added; bit 0 is that of the lowest byte. If a byte does not follow the last byte of the row, the row,
    /// if it has bytes, is first written into `text` as a note, for example `stack -8 to -5 lost`, and begins anew at this byte
    /// (`add_byte`). `what` is the last word of the note: `written` or `lost`. The bytes that the row has at the return are not yet
    /// written: the caller does that after the last stack slot. `AllocError`: out of memory for the text.
    fn add_slot_bytes(
        &mut self,
        text: &mut String,
        what: &str,
        index: usize,
        mask: u8,
    ) -> Result<(), AllocError>
        requires { index < STACK_SLOTS }
    {
        let lowest = lowest_byte(index);
        for bit in 0..8_u8 {
            if mask & (1 << bit) != 0 {
                self.add_byte(text, what, lowest.saturating_add(i64::from(bit)))?;
            }
        }
        Ok(())
    }
}

/// Appends a note for each row of consecutive stack bytes that changed from the facts `old` to the facts `new`, as `stack -8 to -5 lost`.
/// If `are_lost`, these are the bytes that are readable in `old` and not in `new`, with the word `lost`; all bytes of a spill are readable.
/// Else they are the bytes that are written in `new`, and in `old` were unwritten or in a slot with a spill, with the word `written`. In
/// both cases a stack slot with a spill in `new` has none of these bytes: a new spill has a note of its own (`write_spills`). `start` is
/// the offset in the text at which the first note begins, which an earlier call may have written; each other note has a semicolon before it
/// (`separate_note`). `AllocError`: out of memory for the text.
fn write_stack_bytes(
    text: &mut String,
    start: usize,
    old: &Facts,
    new: &Facts,
    are_lost: bool,
) -> Result<(), AllocError> {
    let what = if are_lost { "lost" } else { "written" };
    // A row without bytes, since `first` is `end`. No stack byte has offset 0, so the first byte that is added begins a row.
    let mut row = Row {
        start,
        first: 0,
        end: 0,
    };
    for index in 0..STACK_SLOTS {
        let (before, after) = (old.slots[index], new.slots[index]);
        let mask = if are_lost {
            lost(before, after)
        } else {
            written(before, after)
        };
        if mask != 0 {
            row.add_slot_bytes(text, what, index, mask)?;
        }
    }
    row.write(text, what)
}

/// Appends a note for each stack slot that has a spill in `new`, unless it has the same spill in `old`: the offsets of the slot's first and
/// last byte from the stack's upper end, and the kind of what is spilled. `start` is the offset in the text at which the first note begins;
/// each other note has a semicolon before it (`separate_note`).
fn write_spills(
    text: &mut String,
    start: usize,
    old: &Facts,
    new: &Facts,
) -> Result<(), AllocError> {
    for index in 0..STACK_SLOTS {
        let slot = new.slots[index];
        if let Slot::Spill(kind) = slot
            && slot != old.slots[index]
        {
            let first = lowest_byte(index);
            let last = first.saturating_add(7);
            separate_note(text, start)?;
            write!(text, "stack {first} to {last} = ")?;
            write_kind(text, kind)?;
        }
    }
    Ok(())
}

/// Appends notes on what is known in the facts `new` and was not in `old`, as `r1 = any number`, and on what is not known any more, as
/// `r1 lost`. For an edge of a conditional jump, `new` are the facts on the edge, and `old` those before the jump. For an instruction,
/// `new` are the facts before it, and `old` those before the instruction that the pass reached last before it. If there is none, or if the
/// log shows all facts before each instruction (`is_whole` of `steps_of`), `old` are facts in which nothing is known, so that the notes
/// have all of `new`. `start` is the offset in the text at which the first note begins; each other note has a semicolon and a space before
/// it (`separate_note`). `AllocError`: out of memory.
pub(crate) fn write_known(
    text: &mut String,
    start: usize,
    old: &Facts,
    new: &Facts,
) -> Result<(), AllocError> {
    write_registers(text, start, old, new)?;
    write_lost_registers(text, start, old, new)?;
    if old.slots == new.slots {
        return Ok(());
    }
    write_spills(text, start, old, new)?;
    write_stack_bytes(text, start, old, new, WRITTEN)?;
    write_stack_bytes(text, start, old, new, LOST)
}

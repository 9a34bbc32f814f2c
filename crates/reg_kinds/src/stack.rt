//! Loads from the stack, and stores to it.

ghost use Rattle.std.specs.Prelude.{◌≡◌, ◌<◌, ◌*◌, ◌%◌, MatchResult, IfOk, IsOk, Some};
ghost use Rattle.interval.specs.Ranges.{full};
ghost use Rattle.words.specs.Stack.{stack_slots, bytes_of};
ghost use Rattle.reg_kinds.specs.Stack.{byte_bits, touched, loaded, read_slot, stack_read};
ghost use Rattle.reg_kinds.specs.Stack.{bytes_over, slot_written, stack_write, ChangesAtMost};

use crate::facts::Facts;
use crate::kind::{Kind, Slot};
use crate::reason::Reason;
use interval::Range;
use words::{AccessSize, BITS_32, BITS_64, STACK_SIZE};

/// The offset of the stack's lowest byte from its upper end: -512.
pub(crate) const LOWEST: i32 = -(STACK_SIZE as i32);

/// The kind of the value that a load of `size` bytes at `offset` from the stack's upper end gives. A spill, a stack slot that holds a
/// pointer or a map whole, gives the kind of that; other bytes give any number of `size` bytes, or any of 64 bits if the load extends the
/// sign (`signed`). The error is the first that applies: the load is not in the stack (`OutsideStack`), it is not aligned to its size
/// (`UnalignedStack`), it reads only some bytes of a spill (`PartOfSpill`), a byte may be unwritten (`UnwrittenStack`).
pub fn read_stack(
    facts: &Facts,
    offset: i32,
    size: AccessSize,
    signed: bool,
) -> Result<Kind, Reason>
    ensures { result ≡ stack_read facts.now offset size signed }
{
    let (index, bits) = touched(offset, size)?;
    read_slot(facts.slot(index), bits, size, signed)
}

/// The kind of the value that a load of this size from `slot` gives; `bits` is the mask of the slot's bytes that are loaded. A spill gives
/// the kind of the spilled value, but only to a load of all eight bytes, else `PartOfSpill`. Other bytes give any number of this size, or
/// of 64 bits if the load extends the sign (`signed`), but only if all that are loaded are written, else `UnwrittenStack`.
fn read_slot(slot: Slot, bits: u8, size: AccessSize, signed: bool) -> Result<Kind, Reason>
    ensures { result ≡ read_slot slot bits size signed }
{
    match slot {
        Slot::Spill(kind) if size.is_double() => Ok(kind),
        Slot::Spill(_) => Err(Reason::PartOfSpill),
        Slot::Bytes(mask) if mask & bits == bits => Ok(loaded(size, signed)),
        Slot::Bytes(_) => Err(Reason::UnwrittenStack),
    }
}

/// Changes the facts to those after a store of `size` bytes at `offset` from the stack's upper end, of a value of the kind `value`
/// (`facts`: as `stack_write` defines). A number makes the bytes written, and a spill in the stack slot is lost; a pointer or a map is
/// spilled, whole. Returns the index of the stack slot of the store, 0 to 63 from the lowest. By `slot` only this stack slot may change
/// (`Some i`; `None` would allow none), so that after a store the verifier gives a new number only to the group with this slot. The error
/// is the first that applies, and then nothing changes: the value is unreadable (`UnreadableRegister`), the store is not in the stack
/// (`OutsideStack`), it is not aligned to its size (`UnalignedStack`), it stores only some bytes of a pointer or a map (`PartOfSpill`).
pub fn write_stack(
    facts: &mut Facts,
    offset: i32,
    size: AccessSize,
    value: Kind,
) -> Result<usize, Reason>
    ensures facts { MatchResult (stack_write facts.old offset size value)
        (λ after. IsOk result × (facts.new ≡ after))
        (λ reason. (result ≡ Err reason) × (facts.new ≡ facts.old)) }
    ensures slot { IfOk result (λ i. ChangesAtMost (Some i) facts.old facts.new) }
{
    if let Kind::Unreadable = value {
        return Err(Reason::UnreadableRegister);
    }
    let (index, bits) = touched(offset, size)?;
    let slot = slot_written(facts.slot(index), bits, size, value)?;
    facts.set_slot(index, slot);
    Ok(index)
}

/// The stack slot that an access of `size` at `offset` touches, and the mask of the bytes that it touches there: bit k for byte k of the
/// slot. `offset` counts bytes from the stack's upper end; the stack has the offsets `LOWEST` to -1. Stack slots are numbered from the
/// lowest byte on, and the returned number is one of them (`bound`). `OutsideStack` if not all bytes of the access are in the stack, else
/// `UnalignedStack` if `offset` is no multiple of the size. All bytes of an aligned access are in one slot.
fn touched(offset: i32, size: AccessSize) -> Result<(usize, u8), Reason>
    ensures value { result ≡ touched offset size }
    ensures bound { IfOk result (λ t. t.0 < stack_slots) }
{
    let bytes = i32::from(size.bytes());
    if offset < LOWEST || offset > -bytes {
        return Err(Reason::OutsideStack);
    }
    let start = (offset - LOWEST) as usize;
    if start % usize::from(size.bytes()) != 0 {
        return Err(Reason::UnalignedStack);
    }
    Ok((start / 8, byte_bits(start, size)))
}

/// The mask of the bytes that an access of `size` at byte index `start`, counted from the stack's lowest byte, has in its stack slot: bit k
/// for byte k of this slot, from 0. The access has to be aligned to its size, so all its bytes lie in one slot: the only caller, `touched`,
/// has tested this.
fn byte_bits(start: usize, size: AccessSize) -> u8
    requires { start % bytes_of size ≡ 0 }
    ensures { result ≡ byte_bits start (bytes_of size) }
{
    match size {
        AccessSize::Byte => 1 << (start % 8),
        AccessSize::Half => 3 << (start % 8),
        AccessSize::Word => 0xf << (start % 8),
        AccessSize::Double => 0xff,
    }
}

/// The kind of what is loaded from a map's value, or from stack bytes that are no spill: any number of `size` bytes, or any 64-bit number
/// if the load extends the sign (`signed`). As words the negative numbers are the greatest, so the least range with them and 0 has all
/// 64-bit numbers.
pub fn loaded(size: AccessSize, signed: bool) -> Kind
    ensures { result ≡ loaded size signed }
{
    if signed {
        Kind::Scalar(Range::full(BITS_64))
    } else {
        Kind::Scalar(zero_extended(size))
    }
}

/// The range of all numbers of `size` bytes, from 0 on: what a load that zero-extends can give. In the contract `full` is given a number of
/// bits. In the code `Range::full` is the range of 64 bits if its argument is true, else that of 32 bits.
fn zero_extended(size: AccessSize) -> Range
    ensures { result ≡ full (8 * bytes_of size) }
{
    match size {
        AccessSize::Byte => Range { lo: 0, hi: 0xff },
        AccessSize::Half => Range { lo: 0, hi: 0xffff },
        AccessSize::Word => Range::full(BITS_32),
        AccessSize::Double => Range::full(BITS_64),
    }
}

/// What is known of `slot`, a stack slot, after a store of a value of kind `value` to its bytes of the mask `bits` (bit k for byte k),
/// `size` bytes. A number makes these bytes written (`bytes_over`). The slot's other bytes are as before, except if the slot was a spill:
/// that is lost, and they count as unwritten. A pointer, the result of a look-up before its null test, or a map (`is_pointer`) is spilled:
/// the slot is then a spill of this kind. That takes a store of eight bytes; for fewer the error is `PartOfSpill`. The contract allows an
/// unreadable value, too, which would count as a number, but `write_stack` has rejected it before.
fn slot_written(slot: Slot, bits: u8, size: AccessSize, value: Kind) -> Result<Slot, Reason>
    ensures { result ≡ slot_written slot bits size value }
{
    if !value.is_pointer() {
        Ok(bytes_over(slot, bits))
    } else if size.is_double() {
        Ok(Slot::Spill(value))
    } else {
        Err(Reason::PartOfSpill)
    }
}

/// What is known of `slot`, a stack slot, after a write of numbers to its bytes of the mask `bits` (bit k for byte k). These bytes are
/// written. If `slot` was no spill, its other bytes are as before, written or not. A spill, which is a pointer or a map in all eight bytes,
/// is lost: its bytes that are not in `bits` count as unwritten, so that no load reads the rest of a pointer as a number. Of a write whose
/// length is not known, `bits` has only the bytes that are certainly written (`filled_slot`), so it may be 0.
pub(crate) fn bytes_over(slot: Slot, bits: u8) -> Slot
    ensures { result ≡ bytes_over slot bits }
{
    match slot {
        Slot::Bytes(mask) => Slot::Bytes(mask | bits),
        Slot::Spill(_) => Slot::Bytes(bits),
    }
}

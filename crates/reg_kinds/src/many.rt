//! Byte ranges of the stack that may span many slots, and the facts after a call. A start is a byte index, which counts from the
//! stack's lowest byte; a mask has bit k for byte k of a slot. `start_of` checks that the bytes lie in the stack.

ghost use Rattle.std.specs.Prelude.{◌≡◌, ◌+◌, ◌-◌, ◌*◌, ◌^◌, ◌<◌, ◌≤◌, ◌==◌, nat_le};
ghost use Rattle.std.specs.Prelude.{if◌then◌else◌, IfSome, MatchResult, Ok, Err, Some, None};
ghost use Rattle.words.specs.Stack.{stack_size, stack_slots, is_in_stack, byte_index, touches};
ghost use Rattle.reg_kinds.specs.Kinds.{slot_at, with_slots};
ghost use Rattle.reg_kinds.specs.Stack.{bytes_over};
ghost use Rattle.reg_kinds.specs.Many.{bits_in, is_touched_spill, touches_spill, lacks, has_unwritten_byte, stack_input, stack_filled, called_facts};
ghost use Rattle.reg_kinds.specs.declared.kind.Kind.TheVariants.{Unreadable};

use crate::facts::Facts;
use crate::kind::{Kind, Slot};
use crate::reason::Reason;
use crate::stack::{LOWEST, bytes_over};
use words::{REGISTERS, STACK_SLOTS};

/// Whether `count` bytes of the stack, from byte index `start` on, touch stack slot `index`: one of them is among the slot's eight bytes.
/// The `count` bytes lie in the stack (`within`), and the slot is one of its 64 (`slot`), so no sum overflows. With `count` 0 the result is
/// true for the slot with byte `start`, unless this is the slot's first byte.
fn touches(start: usize, count: usize, index: usize) -> bool
    requires within { start + count ≤ stack_size }
    requires slot { index < stack_slots }
    ensures { result ≡ touches start count index }
{
    start < 8 * index + 8 && 8 * index < start + count
}

/// A mask of bytes of a stack slot, bit k for byte k, in which `count` bits are 1, from bit `from` on, all among its eight bits. `bits_in`
/// returns such a mask for the bytes of the slot that a helper reads or writes. If `count` is 8, 1 is subtracted from 2^8, for which a
/// `u16` has room.
fn ones(count: usize, from: usize) -> u8
    requires { count + from ≤ 8 }
    ensures { result ≡ (2 ^ count - 1) * 2 ^ from }
{
    (((1_u16 << count) - 1) << from) as u8
}

/// The mask of the bytes of stack slot `index` that are among the `count` bytes from byte index `start` on: bit k is 1 if byte k of the
/// slot, from the lowest on, is one of them; so 0 if none is. A helper's read needs these bits in the mask of a slot's written bytes
/// (`lacks`), and its write sets them there (`bytes_over`). The bytes may end past the stack: for a write `count` is the least length, only
/// the greatest is checked to lie in the stack (`start_of`), and no precondition orders the two. The callers have `count` from a `u32`, so
/// `start + count` does not overflow (precondition `count`).
fn bits_in(start: usize, count: usize, index: usize) -> u8
    requires start { start ≤ stack_size }
    requires count { count < 2 ^ 32 }
    requires slot { index < stack_slots }
    ensures { result ≡ bits_in start count index }
{
    let from = start.saturating_sub(8 * index);
    let to = (start + count).saturating_sub(8 * index).min(8);
    if from < to { ones(to - from, from) } else { 0 }
}

/// The byte index at which `count` bytes at `offset` from the stack's upper end start (`value`); `None` if they don't all lie in the stack.
/// By `within` the bytes end at byte index `STACK_SIZE` or below, which is the stack's upper end.
fn start_of(offset: i32, count: u32) -> Option<usize>
    ensures value { result ≡ (if is_in_stack offset count then Some (byte_index offset) else None) }
    ensures within { IfSome result (λ p. p + count ≤ stack_size) }
{
    if offset < LOWEST || i64::from(offset) + i64::from(count) > 0 {
        None
    } else {
        Some((offset - LOWEST) as usize)
    }
}

/// Whether the stack slot is a spill (its eight bytes hold a pointer or a map, whole) that an access touches. `touched` is whether the
/// access touches a byte of the slot. A helper may not read any byte of a spill (`PartOfSpill`), since no single byte of a pointer or a map
/// can be read; `bytes_touch_spill` asks this of each slot with bytes that the helper reads.
fn is_touched_spill(slot: Slot, touched: bool) -> bool
    ensures { result ≡ is_touched_spill slot touched }
{
    match slot {
        Slot::Bytes(_) => false,
        Slot::Spill(_) => touched,
    }
}

/// Whether one of the bytes of a stack slot that are in the mask `bits` (bit k for byte k) may be unwritten, so that a helper may not read
/// them. The mask of `Slot::Bytes` has the bytes that are written. The result is false for a spill, since all its bytes are written;
/// `check_read` has then already rejected a read that touches a spill (`PartOfSpill`).
fn lacks(slot: Slot, bits: u8) -> bool
    ensures { result ≡ lacks slot bits }
{
    match slot {
        Slot::Bytes(mask) => mask & bits != bits,
        Slot::Spill(_) => false,
    }
}

/// The number of the first stack slot that begins at or after the end of the `count` stack bytes from byte index `start` on; `STACK_SLOTS`
/// if no slot does. The bytes touch neither this slot nor a higher one, so a loop over the slots that they touch ends before it.
fn end_of_touched_slots(start: usize, count: usize) -> usize
    requires { start + count ≤ stack_size }
    ensures bytes { start + count ≤ 8 * result }
    ensures slots { result ≤ stack_slots }
{
    (start + count).div_ceil(8)
}

/// Whether the `count` stack bytes from byte index `start` on touch a spill, a stack slot that holds a pointer or a map whole. If so,
/// `check_read` rejects a helper's read of them, since no single byte of a pointer or a map can be read. The contract is about all stack
/// slots (`touches_spill`). The loop leaves out those that end before the bytes or begin after them, since the bytes do not touch these.
/// Helpers read keys and values, of at least one byte. With `count` 0 the stack slot of byte `start` counts as touched, unless this byte is
/// its first: `touches` only compares both ends of the bytes with those of the slot.
fn bytes_touch_spill(facts: &Facts, start: usize, count: usize) -> bool
    requires { start + count ≤ stack_size }
    ensures { result ≡ touches_spill facts.now start count }
{
    for index in start / 8..end_of_touched_slots(start, count) {
        if is_touched_spill(facts.slot(index), touches(start, count, index)) {
            return true;
        }
    }
    false
}

/// Whether at least one of the `count` stack bytes from byte index `start` on may be unwritten: then `check_read` rejects a helper's read
/// of them. All bytes of a spill are written. The contract is about all stack slots (`has_unwritten_byte`). The loop leaves out only slots
/// that have none of these bytes, so that their masks (`bits_in`) are 0.
fn is_any_unwritten(facts: &Facts, start: usize, count: usize) -> bool
    requires { start + count ≤ stack_size }
    ensures { result ≡ has_unwritten_byte facts.now start count }
{
    for index in start / 8..end_of_touched_slots(start, count) {
        if lacks(facts.slot(index), bits_in(start, count, index)) {
            return true;
        }
    }
    false
}

/// Checks a helper's read of `count` stack bytes at `offset` from the stack's upper end. The error is the first that applies: the bytes
/// don't all lie in the stack (`OutsideStack`); they touch a spill, a stack slot that holds a pointer or a map whole, of which a helper may
/// read no byte (`PartOfSpill`); one may be unwritten (`UnwrittenStack`).
pub fn check_read(facts: &Facts, offset: i32, count: u32) -> Result<(), Reason>
    ensures { result ≡ stack_input facts.now offset count }
{
    let Some(start) = start_of(offset, count) else {
        return Err(Reason::OutsideStack);
    };
    if bytes_touch_spill(facts, start, count as usize) {
        Err(Reason::PartOfSpill)
    } else if is_any_unwritten(facts, start, count as usize) {
        Err(Reason::UnwrittenStack)
    } else {
        Ok(())
    }
}

/// Changes the facts to those after a helper's write at `offset` from the stack's upper end. Its length is a register's number, of which
/// only a range is known: at least `least` and at most `most` bytes. The first `least` bytes count as written. A spill is a stack slot that
/// holds a pointer or a map whole; a stored number is no spill, only written bytes. A spill that has one of the first `most` bytes is lost:
/// its bytes that are not among the first `least` count as unwritten. With `most` 0, a spill is lost too if `offset` is one of its bytes
/// but the first. What is known of all other bytes is unchanged. `OutsideStack`, and nothing changes, if `most` bytes don't all lie in the
/// stack. If `least` is above `most`, no write has such a length, and the facts describe no run.
pub fn fill_stack(facts: &mut Facts, offset: i32, least: u32, most: u32) -> Result<(), Reason>
    ensures { MatchResult (stack_filled facts.old offset least most)
        (λ after. (result ≡ Ok tt) × (facts.new ≡ after))
        (λ reason. (result ≡ Err reason) × (facts.new ≡ facts.old)) }
{
    let start = start_of(offset, most).ok_or(Reason::OutsideStack)?;
    fill_slots(facts, start, least as usize, most as usize);
    Ok(())
}

/// What is known of stack slot `index` after a write of at least `least` and at most `most` bytes from byte index `start` on; `slot` is
/// what was known before. The first `most` bytes lie in the stack (`within`). If `touches` is false, none of them is in the stack slot, and
/// the result is `slot`. If it is true, the bytes of the stack slot that are among the first `least` count as written (`bits_in`). Its
/// other bytes are as before, written or not; but a spill is lost, and then they count as unwritten (`bytes_over`). With `most` 0,
/// `touches` is true of the stack slot that has byte `start`, unless `start` is the slot's first byte; so a spill in that slot is lost. If
/// `least` is above `most`, no write has such a length, and the result describes no run. `least` comes from a `u32`, so it is below 2^32,
/// and `start + least` can't overflow.
fn filled_slot(slot: Slot, start: usize, least: usize, most: usize, index: usize) -> Slot
    requires least { least < 2 ^ 32 }
    requires within { start + most ≤ stack_size }
    requires slot { index < stack_slots }
    ensures { result ≡ (if touches start most index then bytes_over slot (bits_in start least index)
        else slot) }
{
    if touches(start, most, index) {
        bytes_over(slot, bits_in(start, least, index))
    } else {
        slot
    }
}

/// Changes the facts to what is known of each stack slot after a helper's write from byte index `start` on. Its length is a register's
/// number, of which only a range is known: at least `least` and at most `most` bytes. A stack slot is unchanged if none of the first `most`
/// bytes is in it (`touches` is false). In any other slot the bytes among the first `least` count as written (`bits_in` is their mask). The
/// rest of its bytes are written or not as before; but if the slot was a spill, a pointer or a map stored whole, the spill is lost, and
/// they count as unwritten (`bytes_over`). With `most` 0 `touches` is true of the slot of byte `start`, unless this is its first byte; so a
/// spill there is lost. `within`: `start_of` has checked that the first `most` bytes lie in the stack. `least` comes from a `u32`, so its
/// sum with `start` can't overflow.
fn fill_slots(facts: &mut Facts, start: usize, least: usize, most: usize)
    requires least { least < 2 ^ 32 }
    requires within { start + most ≤ stack_size }
    ensures { facts.new ≡ with_slots facts.old
        (λ i. if touches start most i then bytes_over (slot_at facts.old i) (bits_in start least i)
        else slot_at facts.old i) }
{
    for i in 0..STACK_SLOTS {
        facts.slots[i] = filled_slot(facts.slot(i), start, least, most, i);
    }
}

/// The kind of `register`, which was `kind`, after a call whose result is of the kind `result_kind`: register 0 has the result, registers 1
/// to 5, which a call clobbers, are unreadable, and the others keep their kinds.
fn called_kind(kind: Kind, result_kind: Kind, register: usize) -> Kind
    ensures { result ≡ (if register == 0 then result_kind
        else (if nat_le register 5 then Unreadable else kind)) }
{
    if register == 0 {
        result_kind
    } else if register <= 5 {
        Kind::Unreadable
    } else {
        kind
    }
}

/// Changes the facts to those after a call whose result is of the kind `given`: register 0 has it, registers 1 to 5, which a call clobbers,
/// are unreadable, and registers 6 to 10 are unchanged. The stack is unchanged too: if a helper writes there, the caller calls `fill_stack`
/// before.
pub fn facts_after_call(facts: &mut Facts, given: Kind)
    ensures { facts.new ≡ called_facts facts.old given }
{
    for r in 0..REGISTERS {
        facts.registers[r] = called_kind(facts.registers[r], given, r);
    }
}

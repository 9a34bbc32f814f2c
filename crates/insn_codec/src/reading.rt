//! Decoding of bytes. An instruction is read into `entry`, its entry in the program's list of instructions, or a variable of `decode`.

ghost use Rattle.std.specs.Prelude.{List, ℕ, ◌≡◌, ◌≢◌, ◌≤◌, ◌%◌, [], ◌∷◌, length, map, IfOk, OnOk, IfErr, IsErrAnd, Ok, Some, None, IsTrue};
ghost use Rattle.std.specs.Option.{option_to_list};
ghost use Rattle.insn_set.specs.Slot.{fields, slot_of};
ghost use Rattle.insn_codec.specs.inside.Code.{IsSecond};
ghost use Rattle.insn_codec.specs.inside.Form.{fields_allowed, form_at};
ghost use Rattle.insn_set.specs.Spelling.{slots, has_two_slots, IsInsn, Begins};
ghost use Rattle.insn_codec.specs.Fault.{HasFault};
ghost use Rattle.insn_codec.specs.inside.FirstFault.{fault_in_form, fault_by_form, IsFaultAt, first_fault, second_fault};
ghost use Rattle.insn_codec.specs.declared.fault.FaultKind.{FaultKind as AnyKind};
ghost use Rattle.insn_codec.specs.inside.OpcodeForm.{Wide};

use crate::by_class::{
    check_fields, read_alu, read_jump, read_load, read_register_store, read_store,
};
use crate::fault::{CodecFault, FaultKind};
use crate::opcode::{SourceBit, is_second_slot};
use insn_set::{Insn, RawSlot, Reg};
use words::{BITS_32, BITS_64};

/// Reads a wide instruction into `entry` (RFC 9669, section 5.4). `slot` is its first slot, which has passed `check_fields`, and `dst` the
/// register in its destination field. The source field of `slot` is 0 for a number of 64 bits, 1 for a map, and 2 for an address in the
/// first value of a map; by the precondition `listed` it is no other, so `_` is 2. The second slot is at the front of `rest`, the bytes
/// after the first slot, and is returned (`next`). The two slots spell `entry` (`slots`), whose numbers fit their fields (`value`). The
/// error is always `SecondSlot` (`fault`). Then `rest` has fewer than eight bytes, or a field of the second slot that has to be 0 is not
/// (`is_second_slot`): all but the immediate, and for a map the immediate too.
fn read_wide(entry: &mut Insn, slot: &RawSlot, dst: Reg, rest: &[u8]) -> Result<RawSlot, FaultKind>
    requires opcode { slot.now.opcode ≡ 0x18 }
    requires listed { IsTrue (fields_allowed Wide (fields slot.now)) }
    requires dst { (fields slot.now).dst ≡ dst }
    requires dst_bound { dst ≤ 10 }
    ensures value { OnOk result (IsInsn entry.new) }
    ensures slots { IfOk result (λ next. slots entry.new ≡ fields slot.now ∷ fields next ∷ []) }
    ensures next { IfOk result (λ next. IsSecond rest.now (Some next)) }
    ensures fault { IfErr result (λ kind. second_fault Wide (fields slot.now).src rest.now
        ≡ Some kind) }
{
    let Some(next) = RawSlot::first(rest) else {
        return Err(FaultKind::SecondSlot);
    };
    if !is_second_slot(slot.src(), &next) {
        return Err(FaultKind::SecondSlot);
    }
    *entry = match slot.src() {
        0 => Insn::Const {
            dst,
            value: u64::from(slot.imm) + u64::from(next.imm) * 0x1_0000_0000,
        },
        1 => Insn::MapFd {
            dst,
            fd: slot.imm.cast_signed(),
        },
        _ => Insn::MapValue {
            dst,
            fd: slot.imm.cast_signed(),
            off: next.imm,
        },
    };
    Ok(next)
}

/// Reads an instruction of class LD (`class`) into `entry`: a wide load, whose opcode is 0x18. `slot` is its first slot, and `rest` the
/// bytes after that, at whose front its second slot has to be (`second`). Returns the second slot, never `None`: the result is an option
/// because instructions of the other classes have no second slot. The two slots spell the instruction (`slots`), whose numbers fit their
/// fields, with a register of 0 to 10 (`value`). The fault is the first that applies (`fault`): `Opcode` if the opcode is not 0x18;
/// `Reserved` if the offset is not 0 or the source field is above 2; `Register` if the destination is above 10; `SecondSlot` if the second
/// slot is missing, or a field of it that has to be 0 is not.
#[tactic(auto, unfolding(crate::specs::inside::Form::form_at))]
fn read_class_ld(
    entry: &mut Insn,
    slot: &RawSlot,
    rest: &[u8],
) -> Result<Option<RawSlot>, FaultKind>
    requires class { slot.now.opcode % 8 ≡ 0 }
    ensures value { OnOk result (IsInsn entry.new) }
    ensures slots { IfOk result (λ second. slots entry.new
        ≡ map fields (slot.now ∷ option_to_list second)) }
    ensures second { IfOk result (λ second. IsSecond rest.now second) }
    ensures fault { IfErr result (λ kind. fault_by_form (form_at slot.now.opcode) (fields slot.now)
        rest.now ≡ Some kind) }
{
    if slot.opcode != 0x18 {
        return Err(FaultKind::Opcode);
    }
    check_fields(slot.offset == 0 && slot.src() <= 2, slot)?;
    let next = read_wide(entry, slot, Reg::new(slot.dst()), rest)?;
    Ok(Some(next))
}

/// Reads the instruction whose first slot is `slot` into `entry`, by its class, the opcode's low three bits (RFC 9669, section 3.3). The
/// classes 0 to 7 are LD, LDX, ST, STX, ALU, JMP, JMP32 and ALU64. Operations and comparisons of JMP and ALU64 are on 64 bits, those of ALU
/// and JMP32 on 32. A store of class ST stores a constant (`Imm`). `rest` has the bytes after `slot`. Returns the second slot, at the front
/// of `rest` (`second`), if the instruction is wide, else `None`. The instruction's numbers are in their ranges (`value`), and these slots
/// spell it (`slots`). The error is the first fault that applies (`fault`): `Opcode` if no instruction has the opcode, `Reserved` for a
/// field's value that the opcode does not allow, `Register` for a register above 10, `SecondSlot` if the second slot is missing or wrong.
#[inline(always)]
#[tactic(auto, unfolding(crate::specs::inside::Form::form_at))]
fn read_slot(entry: &mut Insn, slot: &RawSlot, rest: &[u8]) -> Result<Option<RawSlot>, FaultKind>
    ensures value { OnOk result (IsInsn entry.new) }
    ensures slots { IfOk result (λ second. slots entry.new
        ≡ map fields (slot.now ∷ option_to_list second)) }
    ensures second { IfOk result (λ second. IsSecond rest.now second) }
    ensures fault { IfErr result (λ kind. fault_by_form (form_at slot.now.opcode) (fields slot.now)
        rest.now ≡ Some kind) }
{
    match slot.opcode % 8 {
        0 => read_class_ld(entry, slot, rest),
        1 => read_load(entry, slot),
        2 => read_store(SourceBit::Imm, entry, slot),
        3 => read_register_store(entry, slot),
        4 => read_alu(BITS_32, entry, slot),
        5 => read_jump(BITS_64, entry, slot),
        6 => read_jump(BITS_32, entry, slot),
        _ => read_alu(BITS_64, entry, slot),
    }
}

/// Reads the instruction at the front of the bytes, which are at least eight, into `entry`. More bytes may follow the instruction. `first`
/// is the slot in the first eight bytes (`slot_of`), which the caller has read. By `found` the instruction's numbers are in their ranges
/// (`IsInsn`), and the bytes begin with its spelling (`Begins`). Returns whether the instruction has two slots (`wide`). If no instruction
/// is at the front, `entry` means nothing, and the error is the first that applies (`first_fault`): no instruction has the opcode
/// (`Opcode`), the opcode does not allow the value of a field (`Reserved`), a register is above 10 (`Register`), or the second slot is
/// missing or wrong (`SecondSlot`). `entry` saves a copy: an instruction, as large as two slots, would be copied if returned.
#[inline(always)]
#[tactic(auto, unfolding(crate::specs::inside::FirstFault::first_fault))]
pub(crate) fn read_with_first(
    entry: &mut Insn,
    first: &RawSlot,
    bytes: &[u8],
) -> Result<bool, FaultKind>
    requires long { 8 ≤ length bytes.now }
    requires first { fields first.now ≡ slot_of bytes.now }
    ensures found { OnOk result (IsInsn entry.new × Begins entry.new bytes.now) }
    ensures wide { IfOk result (λ wide. wide ≡ has_two_slots entry.new) }
    ensures fault { IfErr result (λ kind. first_fault bytes.now ≡ Some kind) }
{
    let (_, rest) = bytes.split_at(8);
    let second = read_slot(entry, first, rest)?;
    Ok(second.is_some())
}

/// Reads the instruction at the front of `bytes` into `entry`; more bytes may follow. By `found` the instruction's numbers are in their
/// ranges (`IsInsn`), and `bytes` begin with its spelling (`Begins`). The error is the fault at the front (`fault`), the first that
/// applies: `Ragged` if there are fewer than eight bytes, `Opcode` if no instruction has the opcode, `Reserved` for a field's value that
/// the opcode does not allow, `Register` for a register above 10, `SecondSlot` if the second slot of a wide instruction is missing or
/// wrong. After an error `entry` means nothing. `read_with_first` reads all but the first slot, which it is given.
#[tactic(auto, unfolding(crate::specs::inside::FirstFault::first_fault))]
fn read_front(entry: &mut Insn, bytes: &[u8]) -> Result<(), FaultKind>
    ensures found { OnOk result (IsInsn entry.new × Begins entry.new bytes.now) }
    ensures fault { IfErr result (λ kind. first_fault bytes.now ≡ Some kind) }
{
    let Some(first) = RawSlot::first(bytes) else {
        return Err(FaultKind::Ragged);
    };
    read_with_first(entry, &first, bytes)?;
    Ok(())
}

/// Decodes the instruction at the front of the bytes. Returns it and the number of its slots, 1 or 2. Bytes may follow it.
///
/// # Errors
///
/// The slot of the fault is always 0. Its kind is `Ragged` if there are fewer than eight bytes, else the first of these that applies:
/// `Opcode` if no instruction has the opcode; `Reserved` if a field has a value that the opcode does not allow, for example an unused field
/// that is not zero (RFC 9669, section 3); `Register` if a register's number is above 10; `SecondSlot` if the second slot of a wide
/// instruction is missing, or an unused field of it is not zero.
pub fn decode(bytes: &[u8]) -> Result<(Insn, usize), CodecFault>
    // The bytes begin with the spelling of the instruction that is returned. Its numbers fit their fields (`IsInsn`).
    ensures found { IfOk result (λ found. IsInsn found.0 × Begins found.0 bytes.now
        × (found.1 ≡ length (slots found.0))) }
    // If the bytes begin with the spelling of an instruction, it is returned.
    ensures only { (insn : Insn) → IsInsn insn → Begins insn bytes.now → result
        ≡ Ok (insn, length (slots insn)) }
    // An error is the fault at the front.
    ensures fault { IfErr result (λ e. (e.slot ≡ 0) × HasFault bytes.now e.kind) }
    // The fault at the front is reported.
    ensures faulty { (kind : AnyKind) → HasFault bytes.now kind → IsErrAnd result
        (λ e. e.kind ≡ kind) }
{
    let mut insn = Insn::Exit;
    match read_front(&mut insn, bytes) {
        Ok(()) => {
            let slots = insn.slots();
            Ok((insn, slots))
        }
        Err(kind) => Err(CodecFault { slot: 0, kind }),
    }
}

//! Decoding of a slot by the class of its opcode (RFC 9669, section 3.3). The class and the code determine the form of an instruction; a
//! function for each form checks the fields and writes the instruction into `entry`, its entry in the program's list of instructions (or a
//! variable of `decode`). `wide` is the width: 64 bits if true, 32 if false.
//!
//! Each function returns the second slot of the instruction, as `read_slot` does. None of these instructions has one, so it is `None`.
//! A precondition on the opcode is that the slot's opcode has this form or class: the caller has looked at its class and code.

ghost use Rattle.std.specs.Prelude.{◌≡◌, ◌≢◌, ◌+◌, ◌*◌, ◌/◌, ◌%◌, ◌≤◌, [], ◌∷◌, None, Bool, true, IfSome, IfOk, IfErr, OnOk, IsTrue};
ghost use Rattle.insn_set.specs.Slot.{fields};
ghost use Rattle.insn_set.specs.Spelling.{slots, IsInsn};
ghost use Rattle.insn_set.specs.Numbers.{alu_class, jump_class};
ghost use Rattle.insn_set.specs.OperatorRows.{alu_by_number as alu_by};
ghost use Rattle.insn_set.specs.ConditionRows.{condition_by_number as condition_by};
ghost use Rattle.insn_codec.specs.Spelled.{source_number};
ghost use Rattle.insn_codec.specs.inside.Opcodes.{opcode_of};
ghost use Rattle.insn_codec.specs.inside.OpcodeForm.{OpcodeForm};
ghost use Rattle.insn_codec.specs.inside.OpcodeForm as form;
ghost use Rattle.insn_codec.specs.inside.Form.{fields_allowed, is_form, alu_at, jump_at, load_at, store_at, register_store_at, source_at};
ghost use Rattle.insn_codec.specs.inside.FirstFault.{fault_in_form, IsFaultOf, IsFaultAt};

use crate::fault::FaultKind;
use crate::opcode::{SourceBit, allows_offset, signed_operator, size_at};
use insn_set::{
    AtomicOp, AtomicSize, Insn, Load, Movsx, RawSlot, Reg, alu_by_number, condition_by_number,
    load_by_opcode,
};
use words::{AluOp, BITS_32, BITS_64, ByteOrder, Condition, ExtendedBits, KeptBits};

/// Checks the fields of a first slot, the part of the check that all forms of opcodes share. The caller, which knows the form, has computed
/// `is_listed`: whether the form allows the value of each field (`fields_allowed`), which is 0 for a field that it does not use. That is
/// not about the range of a register that the form uses, so here both register numbers are tested for every form: an unused one is 0. `Ok`
/// if `is_listed` is true (`listed`) and both are at most 10 (`dst`, `src`). The fault is `Reserved` if `is_listed` is false, else
/// `Register`. Since the form is no parameter, `fault` is about each form `f` for which `is_listed` is right: a first slot of form `f` with
/// these fields has this fault, whatever bytes follow the slot (`IsFaultOf`).
#[inline(always)]
#[tactic(auto, unfolding(crate::specs::inside::FirstFault::fault_in_form))]
pub(crate) fn check_fields(is_listed: bool, slot: &RawSlot) -> Result<(), FaultKind>
    ensures listed { OnOk result (IsTrue is_listed) }
    ensures dst { OnOk result ((fields slot.now).dst ≤ 10) }
    ensures src { OnOk result ((fields slot.now).src ≤ 10) }
    ensures fault { IfErr result (λ kind. (f : OpcodeForm)
        → fields_allowed f (fields slot.now) ≡ is_listed → IsFaultOf f (fields slot.now) kind) }
{
    if !is_listed {
        return Err(FaultKind::Reserved);
    }
    if slot.dst() > 10 || slot.src() > 10 {
        return Err(FaultKind::Register);
    }
    Ok(())
}

/// Reads an operation on two operands, of 64 bits (`wide`) or 32, into `entry`, which then is the instruction that the slot spells
/// (`slots`), with its numbers in range (`value`). No second slot is read: the result is `None`. `op` is the operator that the opcode has
/// at offset 0, never a signed division or remainder (`form`); `source` says which field has the second operand. Offset 1 makes a division
/// or a remainder signed. Offset 8, 16 or, if `wide`, 32 of a move of a register is the number of bits from which the sign is extended:
/// `check_fields` rejects any other, so `_` is 32. The fault is `Reserved` if a field has a value that the form of the opcode does not
/// allow, else `Register` if a register is above 10.
#[inline(always)]
fn read_operation(
    wide: bool,
    op: AluOp,
    source: SourceBit,
    entry: &mut Insn,
    slot: &RawSlot,
) -> Result<Option<RawSlot>, FaultKind>
    requires opcode { slot.now.opcode ≡ opcode_of (form.Alu wide op source) }
    requires form { IsTrue (is_form (form.Alu wide op source)) }
    ensures value { OnOk result (IsInsn entry.new) }
    ensures slots { OnOk result (slots entry.new ≡ fields slot.now ∷ []) }
    ensures none { IfOk result (λ second. second ≡ None) }
    ensures fault { IfErr result (IsFaultOf (form.Alu wide op source) (fields slot.now)) }
{
    let is_listed = source.unused_field_is_zero(slot)
        && allows_offset(op, wide, source, slot.offset);
    check_fields(is_listed, slot)?;
    let (dst, src) = (Reg::new(slot.dst()), Reg::new(slot.src()));
    if slot.offset == 0 {
        *entry = Insn::Alu {
            wide,
            op,
            dst,
            src: source.operand(slot, src),
        };
    } else if let AluOp::Mov = op {
        let bits = match slot.offset {
            8 => ExtendedBits::Bits8,
            16 => ExtendedBits::Bits16,
            _ => ExtendedBits::Bits32,
        };
        *entry = Insn::Movsx(Movsx {
            wide,
            bits,
            dst,
            src,
        });
    } else {
        *entry = Insn::Alu {
            wide,
            op: signed_operator(op),
            dst,
            src: source.operand(slot, src),
        };
    }
    Ok(None)
}

/// Reads a negation, of 64 bits (`wide`) or 32, into `entry`. The result is `None` (`none`): a negation has no second slot. The operand is
/// the destination register. The fault is `Reserved` if the source, the offset or the immediate is not 0, else `Register` if the
/// destination is above 10. `value`, `slots`: the numbers of the instruction in `entry` are in their ranges, and `slot` is its only slot.
#[inline(always)]
fn read_negation(wide: bool, entry: &mut Insn, slot: &RawSlot) -> Result<Option<RawSlot>, FaultKind>
    requires opcode { slot.now.opcode ≡ opcode_of (form.Neg wide) }
    ensures value { OnOk result (IsInsn entry.new) }
    ensures slots { OnOk result (slots entry.new ≡ fields slot.now ∷ []) }
    ensures none { IfOk result (λ second. second ≡ None) }
    ensures fault { IfErr result (IsFaultOf (form.Neg wide) (fields slot.now)) }
{
    let is_listed = slot.src() == 0 && slot.offset == 0 && slot.imm == 0;
    check_fields(is_listed, slot)?;
    *entry = Insn::Neg {
        wide,
        dst: Reg::new(slot.dst()),
    };
    Ok(None)
}

/// Reads a byte-order conversion into `entry`: its register is 0 to 10 (`value`), and `slot` is all that spells it (`slots`). So it has no
/// second slot, and the result is `None`. `how` is to little endian, to big endian, or a swap of the bytes. The immediate is the number of
/// bits that the conversion keeps, 16, 32 or 64: `check_fields` rejects any other, so `_` is 64. The fault is `Reserved` if the immediate
/// is another number, or the source or the offset is not 0; else `Register` if the destination is above 10.
#[inline(always)]
fn read_byte_order(
    how: ByteOrder,
    entry: &mut Insn,
    slot: &RawSlot,
) -> Result<Option<RawSlot>, FaultKind>
    requires opcode { slot.now.opcode ≡ opcode_of (form.End how) }
    ensures value { OnOk result (IsInsn entry.new) }
    ensures slots { OnOk result (slots entry.new ≡ fields slot.now ∷ []) }
    ensures none { IfOk result (λ second. second ≡ None) }
    ensures fault { IfErr result (IsFaultOf (form.End how) (fields slot.now)) }
{
    let is_width = slot.imm == 16 || slot.imm == 32 || slot.imm == 64;
    let is_listed = slot.src() == 0 && slot.offset == 0 && is_width;
    check_fields(is_listed, slot)?;
    let bits = match slot.imm {
        16 => KeptBits::Bits16,
        32 => KeptBits::Bits32,
        _ => KeptBits::Bits64,
    };
    *entry = Insn::End {
        how,
        bits,
        dst: Reg::new(slot.dst()),
    };
    Ok(None)
}

/// Reads a negation (code 8, the upper four bits of the opcode) or a byte-order conversion (code 13) into `entry`. `wide` is true of class
/// ALU64, false of ALU (`class`). No operator of two operands has the opcode's code (`code`), as `read_alu` has tested. If `Ok`, the
/// numbers of the instruction fit its fields (`value`), and `slot` is its only slot (`slots`). The result is the second slot, as for each
/// function that reads an instruction, so here it is `None` (`none`). The error is the first that applies, whatever bytes follow the slot
/// (`fault`): `Opcode` if class, source bit and code have no form (`alu_at`), and so no arm here; `Reserved` if a field has a value that
/// the form does not allow; `Register` if a register is above 10.
fn read_one_operand(
    wide: bool,
    entry: &mut Insn,
    slot: &RawSlot,
) -> Result<Option<RawSlot>, FaultKind>
    requires class { slot.now.opcode % 8 ≡ alu_class wide }
    requires code { alu_by (slot.now.opcode / 16) ≡ None }
    ensures value { OnOk result (IsInsn entry.new) }
    ensures slots { OnOk result (slots entry.new ≡ fields slot.now ∷ []) }
    ensures none { IfOk result (λ second. second ≡ None) }
    ensures fault { IfErr result (IsFaultAt
        (alu_at wide (source_at slot.now.opcode) (slot.now.opcode / 16)) (fields slot.now)) }
{
    match (slot.opcode / 16, wide, SourceBit::of(slot.opcode)) {
        (8, _, SourceBit::Imm) => read_negation(wide, entry, slot),
        (13, BITS_32, SourceBit::Imm) => read_byte_order(ByteOrder::Little, entry, slot),
        (13, BITS_32, SourceBit::Reg) => read_byte_order(ByteOrder::Big, entry, slot),
        (13, BITS_64, SourceBit::Imm) => read_byte_order(ByteOrder::Swap, entry, slot),
        _ => Err(FaultKind::Opcode),
    }
}

/// Reads an instruction of class ALU64 (`wide`) or ALU from `slot` into `entry` (RFC 9669, sections 4.1 and 4.2). The slot spells it
/// (`slots`), and its numbers fit their fields (`value`). It has no second slot, so the result is `None` (`none`). The fault is `Opcode` if
/// no instruction has this opcode, else `Reserved` if a field has a value that the form of the opcode (`alu_at`) does not allow, else
/// `Register` if a register is above 10. Each source bit has an arm of its own, so that the inlined `read_operation` has it as a constant.
/// `read_one_operand` reads negations and byte-order conversions.
#[inline(always)]
pub(crate) fn read_alu(
    wide: bool,
    entry: &mut Insn,
    slot: &RawSlot,
) -> Result<Option<RawSlot>, FaultKind>
    requires class { slot.now.opcode % 8 ≡ alu_class wide }
    ensures value { OnOk result (IsInsn entry.new) }
    ensures slots { OnOk result (slots entry.new ≡ fields slot.now ∷ []) }
    ensures none { IfOk result (λ second. second ≡ None) }
    ensures fault { IfErr result (IsFaultAt
        (alu_at wide (source_at slot.now.opcode) (slot.now.opcode / 16)) (fields slot.now)) }
{
    match (alu_by_number(slot.opcode / 16), SourceBit::of(slot.opcode)) {
        (Some(op), SourceBit::Imm) => read_operation(wide, op, SourceBit::Imm, entry, slot),
        (Some(op), SourceBit::Reg) => read_operation(wide, op, SourceBit::Reg, entry, slot),
        (None, _) => read_one_operand(wide, entry, slot),
    }
}

/// Reads a conditional jump on the condition `cond`, of 64 bits (`wide`) or 32, into `entry`. The opcode of `slot` is that of such a jump
/// (`opcode`). `entry` then is the instruction that the slot spells (`slots`), with its numbers in range (`value`). A jump has no second
/// slot, so the result is `None` (`none`). `source` says which field has the second operand of the comparison, the source register or the
/// immediate. The fault is `Reserved` if the other of these two fields is not 0, else `Register` if a register is above 10. The slot
/// has this fault whatever bytes follow it (`fault`).
#[inline(always)]
fn read_branch(
    wide: bool,
    cond: Condition,
    source: SourceBit,
    entry: &mut Insn,
    slot: &RawSlot,
) -> Result<Option<RawSlot>, FaultKind>
    requires opcode { slot.now.opcode ≡ opcode_of (form.Jump wide cond source) }
    ensures value { OnOk result (IsInsn entry.new) }
    ensures slots { OnOk result (slots entry.new ≡ fields slot.now ∷ []) }
    ensures none { IfOk result (λ second. second ≡ None) }
    ensures fault { IfErr result (IsFaultOf (form.Jump wide cond source) (fields slot.now)) }
{
    check_fields(source.unused_field_is_zero(slot), slot)?;
    *entry = Insn::Jump {
        wide,
        cond,
        dst: Reg::new(slot.dst()),
        src: source.operand(slot, Reg::new(slot.src())),
        off: slot.offset.cast_signed(),
    };
    Ok(None)
}

/// Reads an unconditional jump of class JMP (`Ja`) into `entry`; the slot has its opcode (`opcode`). Its distance, in slots from the next
/// instruction, is the offset field. By `value` the distance fits this field, and by `slots` the slot is the spelling of the jump. It has
/// no second slot, so the result is `None`. The registers and the immediate have to be 0, else the fault is `Reserved`, whatever bytes
/// follow the slot (`fault`).
fn read_goto(entry: &mut Insn, slot: &RawSlot) -> Result<Option<RawSlot>, FaultKind>
    requires opcode { slot.now.opcode ≡ opcode_of form.Ja }
    ensures value { OnOk result (IsInsn entry.new) }
    ensures slots { OnOk result (slots entry.new ≡ fields slot.now ∷ []) }
    ensures none { IfOk result (λ second. second ≡ None) }
    ensures fault { IfErr result (IsFaultOf form.Ja (fields slot.now)) }
{
    check_fields(slot.has_zero_registers() && slot.imm == 0, slot)?;
    *entry = Insn::Ja {
        off: slot.offset.cast_signed(),
    };
    Ok(None)
}

/// Reads an unconditional jump of class JMP32 (`gotol` in a text) into `entry`. Its distance in slots is the immediate, a signed number of
/// 32 bits; that of `read_goto` is the offset field, of 16 bits. The registers and the offset have to be 0, else the fault is `Reserved`,
/// whatever follows the slot (`fault`). The instruction is spelled by this slot (`slots`), with numbers in their ranges (`value`); it has
/// no second slot (`None`, by `none`).
fn read_goto_far(entry: &mut Insn, slot: &RawSlot) -> Result<Option<RawSlot>, FaultKind>
    requires opcode { slot.now.opcode ≡ opcode_of form.Jal }
    ensures value { OnOk result (IsInsn entry.new) }
    ensures slots { OnOk result (slots entry.new ≡ fields slot.now ∷ []) }
    ensures none { IfOk result (λ second. second ≡ None) }
    ensures fault { IfErr result (IsFaultOf form.Jal (fields slot.now)) }
{
    check_fields(slot.has_zero_registers() && slot.offset == 0, slot)?;
    *entry = Insn::Jal {
        off: slot.imm.cast_signed(),
    };
    Ok(None)
}

/// Reads a call of a helper (opcode 0x85) into `entry`; it has no second slot (`None`). The immediate is the helper's number, which may be
/// any: whether there is such a helper is not tested here. The registers and the offset have to be 0, else the fault is `Reserved`, the
/// only one. After success `entry` is an instruction whose numbers are in their ranges (`value`), and this slot spells it (`slots`).
fn read_call(entry: &mut Insn, slot: &RawSlot) -> Result<Option<RawSlot>, FaultKind>
    requires opcode { slot.now.opcode ≡ opcode_of form.Call }
    ensures value { OnOk result (IsInsn entry.new) }
    ensures slots { OnOk result (slots entry.new ≡ fields slot.now ∷ []) }
    ensures none { IfOk result (λ second. second ≡ None) }
    ensures fault { IfErr result (IsFaultOf form.Call (fields slot.now)) }
{
    check_fields(slot.has_zero_registers() && slot.offset == 0, slot)?;
    *entry = Insn::Call {
        id: slot.imm.cast_signed(),
    };
    Ok(None)
}

/// Reads the exit into `entry`; the slot has its opcode, 0x95 (`opcode`). It has no second slot, so the result is `None` (`none`). All
/// fields but the opcode have to be 0, else the fault is `Reserved`, whatever bytes follow the slot (`fault`). After success this slot
/// spells the instruction in `entry` (`slots`). An exit has no numbers that could be out of range (`value`).
fn read_exit(entry: &mut Insn, slot: &RawSlot) -> Result<Option<RawSlot>, FaultKind>
    requires opcode { slot.now.opcode ≡ opcode_of form.Exit }
    ensures value { OnOk result (IsInsn entry.new) }
    ensures slots { OnOk result (slots entry.new ≡ fields slot.now ∷ []) }
    ensures none { IfOk result (λ second. second ≡ None) }
    ensures fault { IfErr result (IsFaultOf form.Exit (fields slot.now)) }
{
    check_fields(
        slot.has_zero_registers() && slot.offset == 0 && slot.imm == 0,
        slot,
    )?;
    *entry = Insn::Exit;
    Ok(None)
}

/// Reads an unconditional jump (code 0, the upper four bits of the opcode), a call (code 8) or the exit (code 9) into `entry`. Class JMP
/// (`wide`) has all three, JMP32 (not `wide`) only the jump. No conditional jump has the slot's code (`code`): only then does `read_jump`
/// call this function. The numbers of the instruction fit its fields (`value`), and `slot` is its only slot (`slots`), so the result is
/// `None` (`none`). The fault is `Opcode` for a code that the class does not have, and for every code if the source bit is 1. Else the
/// fault is `Reserved` if a field that the instruction does not use is not 0. `fault`: this is the fault by the form of the opcode
/// (`jump_at`), whatever bytes follow the slot.
fn read_unconditional(
    wide: bool,
    entry: &mut Insn,
    slot: &RawSlot,
) -> Result<Option<RawSlot>, FaultKind>
    requires class { slot.now.opcode % 8 ≡ jump_class wide }
    requires code { condition_by (slot.now.opcode / 16) ≡ None }
    ensures value { OnOk result (IsInsn entry.new) }
    ensures slots { OnOk result (slots entry.new ≡ fields slot.now ∷ []) }
    ensures none { IfOk result (λ second. second ≡ None) }
    ensures fault { IfErr result (IsFaultAt
        (jump_at wide (source_at slot.now.opcode) (slot.now.opcode / 16)) (fields slot.now)) }
{
    match (slot.opcode / 16, wide, SourceBit::of(slot.opcode)) {
        (0, BITS_64, SourceBit::Imm) => read_goto(entry, slot),
        (0, BITS_32, SourceBit::Imm) => read_goto_far(entry, slot),
        (8, BITS_64, SourceBit::Imm) => read_call(entry, slot),
        (9, BITS_64, SourceBit::Imm) => read_exit(entry, slot),
        _ => Err(FaultKind::Opcode),
    }
}

/// Reads an instruction of class JMP (`wide`) or JMP32 into `entry` (RFC 9669, section 4.3); it has no second slot (`None`, by `none`). The
/// caller has found the class in the opcode (`class`). Without a fault the registers of `entry` are 0 to 10 and its numbers fit their
/// fields (`value`), and `slot` is its spelling (`slots`). The fault is the first that applies, whatever bytes follow the slot (`fault`,
/// `IsFaultAt`). It is `Opcode` if the class has no instruction with this source bit and this code, the upper four bits of the opcode (then
/// `jump_at` is `None`); `Reserved` if a field that the instruction does not use is not 0; `Register` if a register is above 10. Each
/// source bit has an arm of its own, so that the inlined `read_branch` has it as a constant.
#[inline(always)]
pub(crate) fn read_jump(
    wide: bool,
    entry: &mut Insn,
    slot: &RawSlot,
) -> Result<Option<RawSlot>, FaultKind>
    requires class { slot.now.opcode % 8 ≡ jump_class wide }
    ensures value { OnOk result (IsInsn entry.new) }
    ensures slots { OnOk result (slots entry.new ≡ fields slot.now ∷ []) }
    ensures none { IfOk result (λ second. second ≡ None) }
    ensures fault { IfErr result (IsFaultAt
        (jump_at wide (source_at slot.now.opcode) (slot.now.opcode / 16)) (fields slot.now)) }
{
    match (
        condition_by_number(slot.opcode / 16),
        SourceBit::of(slot.opcode),
    ) {
        (Some(cond), SourceBit::Imm) => read_branch(wide, cond, SourceBit::Imm, entry, slot),
        (Some(cond), SourceBit::Reg) => read_branch(wide, cond, SourceBit::Reg, entry, slot),
        (None, _) => read_unconditional(wide, entry, slot),
    }
}

/// Reads a load, of class LDX, into `entry` (RFC 9669, sections 5.1 and 5.2). `load_by_opcode` returns whether the load extends the sign
/// (`signed`), and its size. If `Ok`, the numbers of the load fit their fields (`value`), it is spelled by `slot` (`slots`), and the result
/// is `None`, since a load has no second slot (`none`). The fault is the first that applies, whatever follows the slot (`fault`): `Opcode`
/// if no load has the opcode (`load_at` is `None`, else the load's form), `Reserved` if the immediate is not 0, `Register` if a register is
/// above 10.
#[inline(always)]
pub(crate) fn read_load(entry: &mut Insn, slot: &RawSlot) -> Result<Option<RawSlot>, FaultKind>
    ensures value { OnOk result (IsInsn entry.new) }
    ensures slots { OnOk result (slots entry.new ≡ fields slot.now ∷ []) }
    ensures none { IfOk result (λ second. second ≡ None) }
    ensures fault { IfErr result (IsFaultAt (load_at slot.now.opcode) (fields slot.now)) }
{
    let Some((signed, size)) = load_by_opcode(slot.opcode) else {
        return Err(FaultKind::Opcode);
    };
    check_fields(slot.imm == 0, slot)?;
    *entry = Insn::Load(Load {
        size,
        signed,
        dst: Reg::new(slot.dst()),
        src: Reg::new(slot.src()),
        off: slot.offset.cast_signed(),
    });
    Ok(None)
}

/// Reads a store of a constant (class ST, `source` is `Imm`) or of a register (class STX, `Reg`) into `entry` (RFC 9669, section 5.1). The
/// result is `None` (`none`): a store has no second slot. `class`: the low three bits of the opcode are 2 for ST and 3 for STX. `value`,
/// `slots`: the numbers of the instruction in `entry` are in their ranges, and `slot` is its only slot. `fault`: the error is the first
/// that applies, whatever bytes follow the slot: `Opcode` if the mode, the upper three bits of the opcode, is not MEM, which is 3, so that
/// no store has this opcode (`store_at` is `None`, else the store's form); `Reserved` if the field that is not used, the source register
/// with `Imm` and the immediate with `Reg`, is not 0; `Register` if a register is above 10.
#[inline(always)]
pub(crate) fn read_store(
    source: SourceBit,
    entry: &mut Insn,
    slot: &RawSlot,
) -> Result<Option<RawSlot>, FaultKind>
    requires class { slot.now.opcode % 8 ≡ 2 + source_number source }
    ensures value { OnOk result (IsInsn entry.new) }
    ensures slots { OnOk result (slots entry.new ≡ fields slot.now ∷ []) }
    ensures none { IfOk result (λ second. second ≡ None) }
    ensures fault { IfErr result (IsFaultAt (store_at slot.now.opcode source) (fields slot.now)) }
{
    if slot.opcode / 32 != 3 {
        return Err(FaultKind::Opcode);
    }
    check_fields(source.unused_field_is_zero(slot), slot)?;
    *entry = Insn::Store {
        size: size_at(slot.opcode / 8 % 4),
        dst: Reg::new(slot.dst()),
        src: source.operand(slot, Reg::new(slot.src())),
        off: slot.offset.cast_signed(),
    };
    Ok(None)
}

/// Reads an atomic operation on four or eight bytes (`size`) into `entry` (RFC 9669, section 5.3). Returns `None`, since the operation has
/// no second slot. The immediate selects the operation, one without FETCH: `Add` (0x00), `Or` (0x40), `And` (0x50) or `Xor` (0xa0). The
/// fault is `Reserved` if it is another number, which `check_fields` rejects before `op` is taken, else `Register` if a register is above
/// 10. After success `entry` is an instruction whose numbers are in their ranges (`value`), and this slot spells it (`slots`).
fn read_atomic(
    size: AtomicSize,
    entry: &mut Insn,
    slot: &RawSlot,
) -> Result<Option<RawSlot>, FaultKind>
    requires opcode { slot.now.opcode ≡ opcode_of (form.Atomic size) }
    ensures value { OnOk result (IsInsn entry.new) }
    ensures slots { OnOk result (slots entry.new ≡ fields slot.now ∷ []) }
    ensures none { IfOk result (λ second. second ≡ None) }
    ensures fault { IfErr result (IsFaultOf (form.Atomic size) (fields slot.now)) }
{
    let found = AtomicOp::from_number(slot.imm);
    check_fields(found.is_some(), slot)?;
    let Some(op) = found else {
        unreachable!();
    };
    *entry = Insn::Atomic {
        size,
        op,
        dst: Reg::new(slot.dst()),
        src: Reg::new(slot.src()),
        off: slot.offset.cast_signed(),
    };
    Ok(None)
}

/// Reads an instruction of class STX (`class`) into `entry` (RFC 9669, sections 5.1 and 5.3): an atomic operation on four bytes (opcode
/// 0xc3) or eight (0xdb), else a store of a register. If `Ok`, the numbers of the instruction are in their ranges (`value`), `slot` spells
/// it (`slots`), and the result is `None`, since it has no second slot (`none`). The fault is the first of these (`fault`): `Opcode` for
/// any other opcode whose mode, the upper three bits, is not MEM (3), so that no instruction has this opcode (`register_store_at` is
/// `None`, else the opcode's form); `Reserved` if the immediate selects no atomic operation or, in a store, is not 0; `Register` if the
/// destination or the source register is above 10.
#[inline(always)]
pub(crate) fn read_register_store(
    entry: &mut Insn,
    slot: &RawSlot,
) -> Result<Option<RawSlot>, FaultKind>
    requires class { slot.now.opcode % 8 ≡ 3 }
    ensures value { OnOk result (IsInsn entry.new) }
    ensures slots { OnOk result (slots entry.new ≡ fields slot.now ∷ []) }
    ensures none { IfOk result (λ second. second ≡ None) }
    ensures fault { IfErr result (IsFaultAt (register_store_at slot.now.opcode) (fields slot.now)) }
{
    match slot.opcode {
        0xc3 => read_atomic(AtomicSize::Word, entry, slot),
        0xdb => read_atomic(AtomicSize::Double, entry, slot),
        _ => read_store(SourceBit::Reg, entry, slot),
    }
}

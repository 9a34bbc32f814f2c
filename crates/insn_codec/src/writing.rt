//! Encoding of instructions.

ghost use Rattle.std.specs.Prelude.{◌≡◌, ◌+◌, ◌≤◌, ◌<◌, ◌∷◌, ◌++◌, length, drop, map};
ghost use Rattle.std.specs.Option.{option_to_list};
ghost use Rattle.insn_set.specs.Slot.{fields, slot};
ghost use Rattle.insn_set.specs.Spelling.{first as first_slot, second as second_slot};
ghost use Rattle.insn_set.specs.Spelling.{slots as slots_of, spelling, source_bit, src_field, imm_field};
ghost use Rattle.insn_set.specs.Numbers.{opcode as opcode_from, memory_opcode, alu_class, jump_class, size_number, end_opcode};

use insn_set::{Insn, Operand, RawSlot, alu_number, alu_offset, condition_number};
use words::{AccessSize, ByteOrder};

/// The code of a size in an opcode (RFC 9669, section 5): 0 for 32 bits (W), 1 for 16 (H), 2 for 8 (B), 3 for 64 (DW). By `bound` it fits
/// the two bits that the opcode has for it.
fn size_number(size: AccessSize) -> u8
    ensures value { result ≡ size_number size }
    ensures bound { result ≤ 3 }
{
    match size {
        AccessSize::Word => 0,
        AccessSize::Half => 1,
        AccessSize::Byte => 2,
        AccessSize::Double => 3,
    }
}

/// The opcode of a byte-order conversion (RFC 9669, section 4.2), which has code 13: with class ALU (4) and source bit 0 to little-endian,
/// or 1 to big-endian; with class ALU64 (7) and source bit 0 for a swap.
fn end_opcode(how: ByteOrder) -> u8
    ensures { result ≡ end_opcode how }
{
    match how {
        ByteOrder::Little => 0xd4,
        ByteOrder::Big => 0xdc,
        ByteOrder::Swap => 0xd7,
    }
}

/// The source bit of an opcode: 0 if the second operand is a constant, 1 if it is a register (RFC 9669, section 4). The function `opcode`
/// requires `bound`.
fn source_bit(operand: Operand) -> u8
    ensures value { result ≡ source_bit operand }
    ensures bound { result ≤ 1 }
{
    match operand {
        Operand::Imm(_) => 0,
        Operand::Reg(_) => 1,
    }
}

/// The source field of a slot, the high four bits of its byte of registers: the register's number if the source operand is a register, or 0
/// if the operand is a constant (RFC 9669, section 3.1). `bound`: the number fits into four bits, as `raw_slot` requires.
fn src_field(operand: Operand) -> u8
    ensures value { result ≡ src_field operand }
    ensures bound { result < 16 }
{
    match operand {
        Operand::Imm(_) => 0,
        Operand::Reg(register) => register.number(),
    }
}

/// The field of the immediate: the constant in two's complement, or 0 if the operand is a register (RFC 9669, section 3.1).
fn imm_field(operand: Operand) -> u32
    ensures { result ≡ imm_field operand }
{
    match operand {
        Operand::Imm(number) => number.cast_unsigned(),
        Operand::Reg(_) => 0,
    }
}

/// The class of arithmetic: ALU64, 7, if it is of 64 bits (`wide`), else ALU, 4 (RFC 9669, section 3.3). A class has three bits of an
/// opcode (`bound`).
fn arithmetic_class(wide: bool) -> u8
    ensures value { result ≡ alu_class wide }
    ensures bound { result < 8 }
{
    if wide { 7 } else { 4 }
}

/// The class of conditional jumps: JMP (5) if 64 bits are compared (`wide`), JMP32 (6) if 32 are (RFC 9669, section 3.3). It fits the three
/// bits of an opcode that have the class (`bound`), as `opcode` requires.
fn jumping_class(wide: bool) -> u8
    ensures value { result ≡ jump_class wide }
    ensures bound { result < 8 }
{
    if wide { 5 } else { 6 }
}

/// The opcode of arithmetic or of a conditional jump, from the highest bit on: four bits of `code`, which says the operation or the
/// condition, the bit `source`, 1 if the second operand is a register and else 0, and three bits of `class` (RFC 9669, section 4). A
/// byte-order conversion, whose source bit does not say this, has its opcode from `end_opcode`.
fn opcode(code: u8, source: u8, class: u8) -> u8
    requires code { code < 16 }
    requires source { source ≤ 1 }
    requires class { class < 8 }
    ensures { result ≡ opcode_from code source class }
{
    16 * code + 8 * source + class
}

/// The opcode of a load, a store or an atomic operation: from the highest bit on three bits of mode, two of size, three of class (RFC 9669,
/// section 5). `mode` is 3 (MEM), 4 (MEMSX, a load that extends the sign) or 6 (ATOMIC, the greatest mode); `class` is 1 (LDX), 2 (ST) or 3
/// (STX). The bounds keep the sum below 256.
fn sized_opcode(mode: u8, size: AccessSize, class: u8) -> u8
    requires mode { mode ≤ 6 }
    requires class { class < 8 }
    ensures { result ≡ memory_opcode mode size class }
{
    32 * mode + 8 * size_number(size) + class
}

/// The slot with these fields. `dst` and `src` are below 16, since they share one byte: `src` is its upper four bits. Each is a register's
/// number, or 0 if it names none; but `src` of a wide load says what is loaded.
#[inline(always)]
fn raw_slot(opcode: u8, dst: u8, src: u8, offset: u16, imm: u32) -> RawSlot
    requires dst { dst < 16 }
    requires src { src < 16 }
    ensures { fields result ≡ slot opcode dst src offset imm }
{
    RawSlot {
        opcode,
        registers: 16 * src + dst,
        offset,
        imm,
    }
}

/// The first slot of an instruction. `raw_slot` takes the opcode, the destination, the source, the offset and the immediate, of which those
/// that the instruction does not use are 0. The offset of `Alu` is 1 for a signed division or remainder, else 0 (`alu_offset`). Code 11
/// with source bit 1 is a move of a register, here one that extends the sign from the width in its offset field, and code 8 is a negation.
/// A byte-order conversion has its number of bits as immediate. The modes are 3 (MEM), 4 (MEMSX, a load that extends the sign) and 6
/// (ATOMIC), the classes 1 (LDX), 2 (ST, a store of a constant) and 3 (STX, a store of a register, or an atomic operation). Whole opcodes
/// are 0x05, a jump with an offset of 16 bits, 0x06, one with an offset of 32 bits in the immediate, 0x85, a call, with the helper's number
/// as immediate, 0x95, the exit, and 0x18, a wide load: its source field is 0 for a number, whose low half is the immediate here, 1 for a
/// map, 2 for an address in the map's first value. For the last two the immediate is the map's descriptor.
fn first(insn: &Insn) -> RawSlot
    ensures { fields result ≡ first_slot insn.now }
{
    match *insn {
        Insn::Alu { wide, op, dst, src } => {
            let opcode = opcode(alu_number(op), source_bit(src), arithmetic_class(wide));
            raw_slot(
                opcode,
                dst.number(),
                src_field(src),
                alu_offset(op),
                imm_field(src),
            )
        }
        Insn::Movsx(m) => {
            let opcode = opcode(11, 1, arithmetic_class(m.wide));
            raw_slot(opcode, m.dst.number(), m.src.number(), m.bits.count(), 0)
        }
        Insn::Neg { wide, dst } => {
            raw_slot(opcode(8, 0, arithmetic_class(wide)), dst.number(), 0, 0, 0)
        }
        Insn::End { how, bits, dst } => raw_slot(end_opcode(how), dst.number(), 0, 0, bits.count()),
        Insn::Ja { off } => raw_slot(0x05, 0, 0, off.cast_unsigned(), 0),
        Insn::Jal { off } => raw_slot(0x06, 0, 0, 0, off.cast_unsigned()),
        Insn::Jump {
            wide,
            cond,
            dst,
            src,
            off,
        } => {
            let opcode = opcode(condition_number(cond), source_bit(src), jumping_class(wide));
            raw_slot(
                opcode,
                dst.number(),
                src_field(src),
                off.cast_unsigned(),
                imm_field(src),
            )
        }
        Insn::Call { id } => raw_slot(0x85, 0, 0, 0, id.cast_unsigned()),
        Insn::Exit => raw_slot(0x95, 0, 0, 0, 0),
        Insn::Load(l) => {
            let opcode = sized_opcode(if l.signed { 4 } else { 3 }, l.size, 1);
            raw_slot(
                opcode,
                l.dst.number(),
                l.src.number(),
                l.off.cast_unsigned(),
                0,
            )
        }
        Insn::Store {
            size,
            dst,
            src,
            off,
        } => {
            let opcode = sized_opcode(3, size, 2 + source_bit(src));
            raw_slot(
                opcode,
                dst.number(),
                src_field(src),
                off.cast_unsigned(),
                imm_field(src),
            )
        }
        Insn::Atomic {
            size,
            op,
            dst,
            src,
            off,
        } => {
            let opcode = sized_opcode(6, size.access(), 3);
            raw_slot(
                opcode,
                dst.number(),
                src.number(),
                off.cast_unsigned(),
                op.number(),
            )
        }
        Insn::Const { dst, value } => {
            raw_slot(0x18, dst.number(), 0, 0, (value % 0x1_0000_0000) as u32)
        }
        Insn::MapFd { dst, fd } => raw_slot(0x18, dst.number(), 1, 0, fd.cast_unsigned()),
        Insn::MapValue { dst, fd, .. } => raw_slot(0x18, dst.number(), 2, 0, fd.cast_unsigned()),
    }
}

/// The second slot of an instruction; `None` for an instruction of one slot, so for any but `Const`, `MapFd` and `MapValue`. All fields are
/// 0, except for the immediate (RFC 9669, section 5.4): for `Const` the high 32 bits of its number, for `MapFd` 0 too, and for `MapValue`
/// the offset in the map's value. The definition, `second_slot`, is a list of at most one slot, so the contract makes the option a list.
fn second(insn: &Insn) -> Option<RawSlot>
    ensures { second_slot insn.now ≡ map fields (option_to_list result) }
{
    match *insn {
        Insn::Const { dst: _, value } => {
            Some(raw_slot(0, 0, 0, 0, (value / 0x1_0000_0000) as u32))
        }
        Insn::MapFd { .. } => Some(raw_slot(0, 0, 0, 0, 0)),
        Insn::MapValue { off, .. } => Some(raw_slot(0, 0, 0, 0, off)),
        _ => None,
    }
}

/// The slots that spell an instruction: the first, and the second, or `None` if the instruction has one slot. They become slots of a
/// program for runs (`Code::push`). Their fields are those of the definition of the spelling (`slots_of`).
pub(crate) fn slots(insn: &Insn) -> (RawSlot, Option<RawSlot>)
    ensures { map fields (result.0 ∷ option_to_list result.1) ≡ slots_of insn.now }
{
    (first(insn), second(insn))
}

/// Writes the instruction's spelling, 8 or 16 bytes, to the front of `out`, and returns its length. The bytes after it are
/// unchanged. Every instruction can be written, so there is no error.
pub fn encode(insn: &Insn, out: &mut [u8; 16]) -> usize
    ensures length { result ≡ length (spelling insn.now) }
    ensures room { result ≤ 16 }
    ensures bytes { out.new ≡ spelling insn.now ++ drop result out.old }
{
    let first = first(insn);
    let (front, back) = out.split_at_mut(8);
    front.copy_from_slice(&first.bytes());
    match second(insn) {
        None => 8,
        Some(next) => {
            back.copy_from_slice(&next.bytes());
            16
        }
    }
}

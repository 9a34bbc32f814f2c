//! The bit fields of an opcode, and what their codes mean.

ghost use Rattle.std.specs.Prelude.{◌≡◌, ◌≢◌, ◌<◌, ◌≤◌, IsTrue, false};
ghost use Rattle.insn_codec.specs.declared.opcode.SourceBit.TheVariants as source_variant;
ghost use Rattle.insn_codec.specs.inside.Form.{size_at, offset_listed};
ghost use Rattle.insn_codec.specs.inside.FirstFault.{is_second};
ghost use Rattle.insn_set.specs.Slot.{fields};
ghost use Rattle.insn_set.specs.Numbers.{size_number};
ghost use Rattle.insn_set.specs.Operator.{alu_number, alu_offset};

use insn_set::{Operand, RawSlot, Reg};
use words::{AccessSize, AluOp};

/// Which field has the second operand, the immediate or the source register: the source bit, 0 or 1 (RFC 9669, section 4).
#[derive(Clone, Copy, Debug, PartialEq, Eq)]
pub enum SourceBit {
    Imm,
    Reg,
}

impl SourceBit {
    ghost use Rattle.insn_codec.specs.inside.Form.{one_operand, source_at};
    ghost use Rattle.insn_codec.specs.Spelled.{source_number};
    ghost use Rattle.insn_set.specs.Spelling.{source_bit, src_field, imm_field, IsOperand};

    /// The source bit of an opcode of arithmetic or of a jump (RFC 9669, section 4): `Imm` if bit 3 of the opcode, counted from 0, is 0,
    /// else `Reg`. In a load or a store bit 3 is part of the size (section 5), and no caller gives such an opcode.
    pub(crate) fn of(opcode: u8) -> SourceBit
        ensures { result ≡ source_at opcode }
    {
        if opcode / 8 % 2 == 0 {
            SourceBit::Imm
        } else {
            SourceBit::Reg
        }
    }

    /// Whether the operand field that is not used is zero (RFC 9669, section 4): the source register if this is `Imm`, the immediate if it
    /// is `Reg`. If it is not zero, the readers of `by_class.rt` reject the slot as `Reserved`.
    pub(crate) fn unused_field_is_zero(self, slot: &RawSlot) -> bool
        ensures { result ≡ one_operand self (fields slot.now) }
    {
        match self {
            SourceBit::Imm => slot.src() == 0,
            SourceBit::Reg => slot.imm == 0,
        }
    }

    /// The second operand that a slot spells: its immediate if this is `Imm`, the register `src` of its source field if this is `Reg`. The
    /// caller gives `src`, as `read_operation` also needs this register for a move that extends a sign. The caller has tested that the
    /// other of the two fields is 0 (`listed`), and that `src` is at most 10 (`bound`). So the operand determines the source bit (`source`)
    /// and both fields (`src`, `imm`). It is one that an instruction can have, a signed number of 32 bits or a register from 0 to 10
    /// (`value`).
    pub(crate) fn operand(self, slot: &RawSlot, src: Reg) -> Operand
        requires listed { IsTrue (one_operand self (fields slot.now)) }
        requires src { (fields slot.now).src ≡ src }
        requires bound { src ≤ 10 }
        ensures source { source_bit result ≡ source_number self }
        ensures src { src_field result ≡ (fields slot.now).src }
        ensures imm { imm_field result ≡ slot.now.imm }
        ensures value { IsOperand result }
    {
        match self {
            SourceBit::Imm => Operand::Imm(slot.imm.cast_signed()),
            SourceBit::Reg => Operand::Reg(src),
        }
    }
}

/// Whether an operation of 64 bits (`wide`) or 32, with the opcode of `op` and this source bit, may have this value in its offset field
/// (RFC 9669, section 4.1). 0 is always allowed. 1 is allowed for a division or a remainder, and makes it signed. 8, 16 and, if `wide`, 32
/// are allowed for a move of a register, and are the bits from which it extends the sign. For an opcode of two operators, an unsigned and a
/// signed division or remainder, `op` is the unsigned one.
pub(crate) fn allows_offset(op: AluOp, wide: bool, source: SourceBit, offset: u16) -> bool
    ensures { result ≡ offset_listed wide op source offset }
{
    offset == 0 || allows_other_offset(op, wide, source, offset)
}

/// Whether an operation of 64 bits (`wide`) or 32, with the opcode of `op` and this source bit, may have this value, which is not 0, in its
/// offset field. With `Div` or `Mod` only 1 is allowed: then the division or remainder is signed. With `Mov` of a register (`source` is
/// `Reg`), 8, 16 and, if `wide`, 32 are allowed: the number of bits from which the move extends the sign. All other operations, also a move
/// of an immediate, have only offset 0, so the result is `false`.
fn allows_other_offset(op: AluOp, wide: bool, source: SourceBit, offset: u16) -> bool
    requires { offset ≢ 0 }
    ensures { result ≡ offset_listed wide op source offset }
{
    match (op, source) {
        (AluOp::Div, _) | (AluOp::Mod, _) => offset == 1,
        (AluOp::Mov, SourceBit::Reg) => offset == 8 || offset == 16 || (wide && offset == 32),
        _ => false,
    }
}

/// The signed operator that shares the opcode of `op`, and is selected by 1 in the offset field: `SignedMod` for `Mod`, `SignedDiv` for
/// `Div`. By the precondition the opcode of `op` allows offset 1, so `op` is one of these two, and `_` is `Div`. The width and the source
/// in the precondition (`false`: 32 bits; `Imm`) make no difference for offset 1. `number`: the result has the code of `op`, the opcode's
/// upper four bits.
pub(crate) fn signed_operator(op: AluOp) -> AluOp
    requires { IsTrue (offset_listed false op source_variant.Imm 1) }
    ensures number { alu_number result ≡ alu_number op }
    ensures offset { alu_offset result ≡ 1 }
{
    match op {
        AluOp::Mod => AluOp::SignedMod,
        _ => AluOp::SignedDiv,
    }
}

/// The access size with this code, two bits of an opcode and so below 4: 0 is a word (4 bytes), 1 a half word (2), 2 a byte, 3 a double
/// word (8) (RFC 9669, section 5). `number`: an instruction with this size is spelled with this code.
pub(crate) fn size_at(code: u8) -> AccessSize
    requires { code < 4 }
    ensures value { result ≡ size_at code }
    ensures number { size_number result ≡ code }
{
    match code {
        0 => AccessSize::Word,
        1 => AccessSize::Half,
        2 => AccessSize::Byte,
        _ => AccessSize::Double,
    }
}

/// Whether `next` may be the second slot of a wide load whose first slot has the source field `src` (RFC 9669, section 5.4). All fields of
/// `next` have to be 0, except for the immediate, which may be any number in a load of a number (`src` 0), as its upper half, and in a load
/// of an address in a value (2), as the offset in the value. In a load of a map (1) the immediate has to be 0 too. The caller has excluded
/// any other `src`, for which the immediate might be any number.
pub(crate) fn is_second_slot(src: u8, next: &RawSlot) -> bool
    ensures { result ≡ is_second src (fields next.now) }
{
    let number = src != 1 || next.imm == 0;
    next.opcode == 0 && next.has_zero_registers() && next.offset == 0 && number
}

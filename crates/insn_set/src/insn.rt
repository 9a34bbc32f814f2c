//! Instructions, as RFC 9669 defines them: the groups base32, base64, divmul32 and divmul64,
//! and the atomic operations without FETCH.
//!
//! `wide` is the width: 64 bits if true, 32 bits if false (RFC 9669, section 3.3).

ghost use Rattle.std.specs.Prelude.{◌≡◌, ◌≤◌, ◌<◌, ◌^◌, ℕ, IsTrue, not, ◌&&◌, ◌||◌};
ghost use Rattle.words.specs.Stack.{is_double};
ghost use Rattle.words.specs.Operate.{is_short};

use crate::atomic::{AtomicOp, AtomicSize};
use std::marker::Model;
use words::{AccessSize, AluOp, ByteOrder, Condition, ExtendedBits, KeptBits};

/// A register number, 0 to 10 (RFC 9669, section 3.1).
/// Register 10 is the frame pointer. Contracts see the number.
#[derive(Clone, Copy, Debug, PartialEq, Eq)]
pub struct Reg {
    number: u8,
}

impl Model for Reg {
    ghost Value = { ℕ };

    ghost view = { λ r. r.number };

    ghost invariant = { λ r. r.number ≤ 10 };

    ghost inverse = { λ n. record { number = n } };
}

impl Reg {
    /// The register with this number, which is at most 10: a caller that reads the number from a slot or a text has checked it.
    pub fn new(number: u8) -> Reg
        requires { number ≤ 10 }
        ensures { result ≡ number }
    {
        Reg { number }
    }

    /// The register's number, 0 to 10 (`bound`). Contracts see a register as this number (`value`).
    pub fn number(self) -> u8
        ensures value { result ≡ self }
        ensures bound { result ≤ 10 }
    {
        self.number
    }
}

/// The second operand of an operation, or the value that a store writes (RFC 9669, section 4, the source bit).
#[derive(Clone, Copy, Debug, PartialEq, Eq)]
pub enum Operand {
    /// The constant in the immediate field. An operation of 64 bits and a store sign-extend it to 64 bits.
    Imm(i32),
    /// The value of the source register.
    Reg(Reg),
}

/// A move with sign extension, from `bits` to 64 bits (`wide`) or 32 (RFC 9669, section 4.1). Only the wide one may start from 32 bits: the
/// ghost field `listed`, which only contracts see, states that.
///
/// It is a struct of its own, as is `Load`, because enum variants have no ghost fields to state such restrictions.
#[derive(Clone, Copy, Debug, PartialEq, Eq)]
pub struct Movsx {
    pub wide: bool,
    pub bits: ExtendedBits,
    pub dst: Reg,
    pub src: Reg,
    pub ghost listed: { IsTrue (wide || is_short bits) },
}

/// A load into `dst` from the address in `src` plus `off` bytes, with sign extension if `signed` (RFC 9669, sections 5.1 and 5.2). No load
/// of a double word extends the sign: the ghost field `listed`, which only contracts see, states that.
#[derive(Clone, Copy, Debug, PartialEq, Eq)]
pub struct Load {
    pub size: AccessSize,
    pub signed: bool,
    pub dst: Reg,
    pub src: Reg,
    pub off: i16,
    pub ghost listed: { IsTrue (not (signed && is_double size)) },
}

/// An instruction, of one slot or two. Each value of the type has a spelling. `wide`: it works on 64 bits, else on 32.
#[derive(Clone, Copy, Debug, PartialEq, Eq)]
pub enum Insn {
    /// `dst = dst op src`, or `dst = src` for a move (RFC 9669, section 4.1).
    Alu {
        wide: bool,
        op: AluOp,
        dst: Reg,
        src: Operand,
    },
    /// `dst` becomes the low bits of `src`, sign-extended (RFC 9669, section 4.1).
    Movsx(Movsx),
    /// `dst = -dst` (RFC 9669, section 4.1).
    Neg {
        wide: bool,
        dst: Reg,
    },
    /// A byte-order conversion of `dst`, in place: the bytes of its `bits` low bits in the order `how`, and the higher bits 0 (RFC 9669,
    /// section 4.2).
    End {
        how: ByteOrder,
        bits: KeptBits,
        dst: Reg,
    },
    /// A jump of class JMP; its distance `off` counts slots from the next one (RFC 9669, section 4.3).
    Ja {
        off: i16,
    },
    /// A jump of class JMP32, whose distance `off`, in slots from the next one, has 32 bits (RFC 9669, section 4.3).
    Jal {
        off: i32,
    },
    /// A jump by `off` slots from the next one, taken if the condition holds for `dst` and `src` (RFC 9669, section 4.3).
    Jump {
        wide: bool,
        cond: Condition,
        dst: Reg,
        src: Operand,
        off: i16,
    },
    /// A call of a helper by its number (RFC 9669, section 4.3.1).
    Call {
        id: i32,
    },
    /// The end of the program (RFC 9669, section 4.3).
    Exit,
    /// A load from memory (RFC 9669, sections 5.1 and 5.2).
    Load(Load),
    /// A store of `src` to the address in `dst` plus `off` bytes (RFC 9669, section 5.1).
    Store {
        size: AccessSize,
        dst: Reg,
        src: Operand,
        off: i16,
    },
    /// An atomic operation on the bytes at the address in `dst` plus `off` bytes, with `src` as second operand (RFC 9669, section 5.3). It
    /// changes no register: operations with FETCH are no instructions here.
    Atomic {
        size: AtomicSize,
        op: AtomicOp,
        dst: Reg,
        src: Reg,
        off: i16,
    },
    /// Loads a 64-bit number into `dst`: two slots (RFC 9669, section 5.4).
    Const {
        dst: Reg,
        value: u64,
    },
    /// Loads the map with this descriptor into `dst`: two slots (RFC 9669, section 5.4.1).
    MapFd {
        dst: Reg,
        fd: i32,
    },
    /// Loads into `dst` the address of the first value of the map with this descriptor, plus `off` bytes: two
    /// slots (RFC 9669, section 5.4.1).
    MapValue {
        dst: Reg,
        fd: i32,
        off: u32,
    },
}

impl Insn {
    ghost use Rattle.std.specs.Prelude.{length};
    ghost use Rattle.insn_set.specs.Spelling.{slots, has_two_slots, IsInsn};

    /// Whether the instruction takes two slots, as only `Const`, `MapFd` and `MapValue` do (RFC 9669, section 3.2).
    pub fn has_two_slots(&self) -> bool
        ensures { result ≡ has_two_slots self.now }
    {
        self.profile().slots == 2
    }

    /// The number of the instruction's slots: two for `Const`, `MapFd` and `MapValue`, else one. By `count` it is the length of the list
    /// that the definition `slots` has for the instruction. By `some` and `room` it is 1 or 2 for any instruction, so a caller can add it
    /// to a bounded number of slots without overflow.
    pub fn slots(&self) -> usize
        ensures count { result ≡ length (slots self.now) }
        ensures some { 1 ≤ result }
        ensures room { result ≤ 2 }
    {
        self.profile().slots
    }

    /// A law: the numbers of an `Insn` lie in the ranges of its fields (`IsInsn`), which `Program::new` of `insn_codec` needs to promise
    /// `IsProgram`. An arm that names a signed number gives the proof the bound of its type; a register, an operand or an unsigned number
    /// has its bound by the contract of a function that the arm calls. Nothing is done when it runs.
    pub fn in_range(&self)
        ensures { IsInsn self.now }
    {
        match *self {
            Insn::Alu { dst, src, .. } => {
                let _ = (dst.number(), src.in_range());
            }
            Insn::Movsx(Movsx { dst, src, .. }) => {
                let _ = (dst.number(), src.number());
            }
            Insn::Neg { dst, .. } => {
                let _ = dst.number();
            }
            Insn::End { dst, .. } => {
                let _ = dst.number();
            }
            Insn::Ja { off } => {
                let _ = off;
            }
            Insn::Jal { off } => {
                let _ = off;
            }
            Insn::Jump { dst, src, off, .. } => {
                let _ = (dst.number(), src.in_range(), off);
            }
            Insn::Call { id } => {
                let _ = id;
            }
            Insn::Exit => {}
            Insn::Load(Load { dst, src, off, .. }) => {
                let _ = (dst.number(), src.number(), off);
            }
            Insn::Store { dst, src, off, .. } => {
                let _ = (dst.number(), src.in_range(), off);
            }
            Insn::Atomic { dst, src, off, .. } => {
                let _ = (dst.number(), src.number(), off);
            }
            Insn::Const { dst, value } => {
                word_in_range(value);
                let _ = dst.number();
            }
            Insn::MapFd { dst, fd } => {
                let _ = (dst.number(), fd);
            }
            Insn::MapValue { dst, fd, off } => {
                offset_in_range(off);
                let _ = (dst.number(), fd);
            }
        }
    }
}

/// A law: a `u64` is below 2^64. `in_range` of `Insn` calls it for the value of a wide load of a number (`Const`), since naming an unsigned
/// number, unlike a signed one, does not give the proof there its bound. Nothing is done when it runs.
fn word_in_range(value: u64)
    ensures { value < 2 ^ 64 }
{
    let _ = value;
}

/// A law: a `u32` is below 2^32, as the offset of a `MapValue` has to be. `in_range` of `Insn` calls it, since naming an unsigned number,
/// unlike a signed one, does not give the proof there its bound. Nothing is done when it runs.
fn offset_in_range(offset: u32)
    ensures { offset < 2 ^ 32 }
{
    let _ = offset;
}

impl Operand {
    ghost use Rattle.insn_set.specs.Spelling.{IsOperand};

    /// A law: the number of an operand lies in its range (`IsOperand`). That of a register is 0 to 10, by the contract of `number`; a
    /// constant is a signed number of 32 bits, by its type. `in_range` of `Insn` uses the law for the operand `src` of an instruction.
    /// Nothing is done when it runs.
    fn in_range(self)
        ensures { IsOperand self }
    {
        if let Operand::Reg(reg) = self {
            let _ = reg.number();
        }
    }
}

//! The forms of a line: instructions as they are written.

ghost use Rattle.std.specs.Prelude.{◌≡◌, ◌≤◌};

use insn_set::{
    AccessSize, AluOp, AtomicOp, AtomicSize, ByteOrder, Condition, ExtendedBits, KeptBits, Reg,
};

/// A number as it is written: its sign, and its digits in decimal or hexadecimal.
///
/// It may be out of its field's range, which `Form::insn` checks.
#[derive(Clone, Copy, Debug, PartialEq, Eq)]
pub struct Number {
    /// Whether there is a minus before the digits, also before a 0.
    pub negative: bool,
    /// The value of the digits, 0 to 2 ^ 64 - 1; `None` from 2 ^ 64 on, which no field can hold.
    pub magnitude: Option<u64>,
}

/// The second operand as it is written.
#[derive(Clone, Copy, Debug, PartialEq, Eq)]
pub enum SourceOperand {
    /// A constant. Its range in an instruction is -2 ^ 31 to 2 ^ 31 - 1.
    Number(Number),
    /// A register, as wide as the instruction.
    Reg(Reg),
}

/// The target of a jump, as it is written.
#[derive(Clone, Copy, Debug, PartialEq, Eq)]
pub enum JumpTarget {
    /// An offset in slots from the next slot. The range is -2 ^ 15 to 2 ^ 15 - 1, and of a long jump -2 ^ 31 to 2 ^ 31 - 1.
    Number(Number),
    /// A label. `Line::Code` has its name next to the form.
    Label,
}

/// What an operation does with its destination, and its second operand as it is written.
#[derive(Clone, Copy, Debug, PartialEq, Eq)]
pub enum Operation {
    /// An operator of two operands or a move, as `r0 += r10` or `w1 = -2`.
    Binary { op: AluOp, src: SourceOperand },
    /// A move of the low bits of `src` with sign extension, as `r1 = (s32)r2`; `from` is how many, here 32.
    SignExtend { from: ExtendedBits, src: Reg },
    /// A negation, as `r1 = -r1`.
    Neg,
    /// A byte-order conversion, as `r8 = le64 r8`: `how` is its order and `bits` the number of low bits that it keeps.
    End { how: ByteOrder, bits: KeptBits },
}

/// What an access does with the bytes in memory.
#[derive(Clone, Copy, Debug, PartialEq, Eq)]
pub enum Access {
    /// A load, as `r1 = *(u32 *)(r6 + 0)`; `signed` if it extends the sign, as one of `s32` does.
    Load {
        size: AccessSize,
        signed: bool,
        dst: Reg,
    },
    /// A store, as `*(u8 *)(r10 - 4) = 5`.
    Store {
        size: AccessSize,
        src: SourceOperand,
    },
    /// An atomic operation, as `lock *(u64 *)(r10 - 8) += r1`.
    Atomic {
        size: AtomicSize,
        op: AtomicOp,
        src: Reg,
    },
}

/// An address: a register and an offset, whose range is -2 ^ 15 to 2 ^ 15 - 1.
#[derive(Clone, Copy, Debug, PartialEq, Eq)]
pub struct Address {
    pub base: Reg,
    pub offset: Number,
}

/// What a wide load puts into its register. The range of a descriptor is -2 ^ 31 to 2 ^ 31 - 1.
#[derive(Clone, Copy, Debug, PartialEq, Eq)]
pub enum WideValue {
    /// A 64-bit constant, as `r2 = 5 ll`; `None` from 2 ^ 64 on.
    Number(Option<u64>),
    /// A map by its descriptor, as `r1 = map_fd 3 ll`.
    MapFd(Number),
    /// An address in a map's value, as `r1 = map_value 3 + 4 ll`. The range of the offset is 0 to 2 ^ 32 - 1.
    MapValue { fd: Number, off: Option<u64> },
}

/// An instruction as it is written: its numbers may be out of range, and its label unknown.
///
/// `wide` is true of `r` registers (64 bits), false of `w` registers (their low 32 bits). No line is read as a sign
/// extension of 32 bits or a byte-order conversion of a `w` register, or as a load that sign-extends a double word.
#[derive(Clone, Copy, Debug, PartialEq, Eq)]
pub enum Form {
    /// An operation on a register.
    Operation {
        wide: bool,
        dst: Reg,
        op: Operation,
    },
    /// A jump, as `goto -1` or `goto done`, or a long one (`long`), as `gotol +1` or `gotol done`.
    Jump {
        long: bool,
        to: JumpTarget,
    },
    /// A conditional jump, as `if w1 s< -1 goto -2`.
    Branch {
        wide: bool,
        cond: Condition,
        dst: Reg,
        src: SourceOperand,
        to: JumpTarget,
    },
    /// An access to memory.
    Access {
        access: Access,
        address: Address,
    },
    /// A load of a 64-bit value: two slots.
    WideLoad {
        dst: Reg,
        value: WideValue,
    },
    /// A call, as `call 26`. The range of the number is -2 ^ 31 to 2 ^ 31 - 1.
    Call {
        id: Number,
    },
    /// `exit`.
    Exit,
}

/// A line of a text, parsed. Names are borrowed from the line.
#[derive(Clone, Copy, Debug)]
pub enum Line<'a> {
    /// Nothing but blanks and a comment.
    Blank,
    /// A definition of the label of this name, as `done:`.
    Label(&'a str),
    /// An instruction, and the label that its jump names: the empty text if it names none.
    Code(Form, &'a str),
}

impl Form {
    ghost use Rattle.text_line.specs.Form.{form_slots, names_label};

    /// The number of slots of an instruction of this form: 2 for a wide load, else 1. Numbers of the form that are out of range make no
    /// difference, since the assembler counts slots before it checks ranges.
    pub fn slots(self) -> usize
        ensures value { result ≡ form_slots self }
        ensures bound { result ≤ 2 }
        ensures some { 1 ≤ result }
    {
        match self {
            Form::WideLoad { .. } => 2,
            _ => 1,
        }
    }

    /// Whether an instruction of this form names a label: it is a jump or a conditional jump whose target is a label, not a number. No
    /// other form names a label. The assembler asks this, since a named label that no line defines is a fault.
    pub fn names_label(self) -> bool
        ensures { result ≡ names_label self }
    {
        match self {
            Form::Jump { to, .. } | Form::Branch { to, .. } => matches!(to, JumpTarget::Label),
            _ => false,
        }
    }
}

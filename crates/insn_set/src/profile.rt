//! The properties of an instruction that no register value affects: a table with a row for each.

ghost use Rattle.std.specs.Prelude.{◌≡◌, ◌≤◌};
ghost use Rattle.insn_set.specs.Profile.{row, register_of, first_operand};

use crate::MAX_SLOTS;
use crate::insn::{Insn, Load, Movsx, Operand, Reg};
use words::AluOp;

/// The possible successors of an instruction in the control flow graph (RFC 9669, section 4.3).
#[derive(Clone, Copy, Debug, PartialEq, Eq)]
pub enum Successors {
    /// Only the next instruction.
    Next,
    /// The instruction at this distance from the next one, in slots.
    Jump(i32),
    /// The next instruction, or the one at this distance from it, in slots.
    NextOrJump(i32),
    /// None: the program ends.
    Nothing,
}

/// What an instruction names outside the registers.
#[derive(Clone, Copy, Debug, PartialEq, Eq)]
pub enum Reference {
    /// Nothing.
    Nothing,
    /// A helper function, by its number (RFC 9669, section 4.3.1).
    Helper(i32),
    /// A map, by its descriptor, whose 32 bits are read as unsigned (RFC 9669, section 5.4.1).
    Map(u32),
    /// A byte in the first value of a map: the map's descriptor, unsigned too, and the byte's offset in the value (RFC 9669, section
    /// 5.4.1).
    Value(u32, u32),
}

/// The properties of an instruction that no register value affects.
#[derive(Clone, Copy, Debug, PartialEq, Eq)]
pub struct Profile {
    /// The register of its first or only operand, of the address of an access, or of the result (register 0, which an exit reads); `None`
    /// if it reads none of them.
    pub first_read: Option<Reg>,
    /// The register of its second operand, that is, of the value that a store writes, that an atomic operation combines with the bytes in
    /// memory, or that an operator or a condition reads second. `None` if that is a constant, or there is none. A call also reads its
    /// helper's arguments, which are not included here.
    pub second_read: Option<Reg>,
    /// The register that it writes; `None` if there is none, also for an atomic operation, as those with FETCH are no instructions here. A
    /// call's effect on registers 0 to 5 is not included.
    pub written: Option<Reg>,
    /// Its possible successors in the control flow graph.
    pub successors: Successors,
    /// What it names outside the registers: a helper, a map, a byte in the first value of a map, or nothing.
    pub reference: Reference,
    /// The number of its slots: one or two (RFC 9669, section 3.2).
    pub slots: usize,
}

/// The profile with these fields. `first_read` is the register of the first or only operand, of an access's address, or of the exit's
/// result; `second_read` is that of the second operand, or of the value that a store or an atomic operation uses; `written` is the one that
/// the instruction writes. Each is `None` if there is no such register. `successors` are those in the control flow graph, `reference` is
/// what the instruction names outside the registers, and `slots` is the number of its slots. So the table in `Insn::profile` has a short
/// row for each instruction. The definition `row` has the fields in this order too.
#[inline(always)]
fn row(
    first_read: Option<Reg>,
    second_read: Option<Reg>,
    written: Option<Reg>,
    successors: Successors,
    reference: Reference,
    slots: usize,
) -> Profile
    ensures { result ≡ row first_read second_read written successors reference slots }
{
    Profile {
        first_read,
        second_read,
        written,
        successors,
        reference,
        slots,
    }
}

/// The register of an operand; `None` if the operand is a constant. For the second operand of an operation or a comparison, and for the
/// value that a store writes: the field `second_read` of the instruction's `Profile` is the result.
#[inline(always)]
fn register_of(operand: Operand) -> Option<Reg>
    ensures { result ≡ register_of operand }
{
    match operand {
        Operand::Imm(_) => None,
        Operand::Reg(register) => Some(register),
    }
}

/// The register that an operation of two operands reads as its first one: the destination `dst`. `None` for a move, which does not read its
/// destination (RFC 9669, section 4.1).
#[inline(always)]
fn first_operand(op: AluOp, dst: Reg) -> Option<Reg>
    ensures { result ≡ first_operand op dst }
{
    match op {
        AluOp::Mov => None,
        _ => Some(dst),
    }
}

impl Insn {
    ghost use Rattle.insn_set.specs.Profile.{profile};

    /// The properties of the instruction that no register value affects, for the verifier and its log. The `match` is the table of
    /// instructions, with a row for each. The columns are the registers that the instruction reads first and second (`None` for a constant,
    /// for the destination of a move, and if there is none), the register that it writes (`None` also for an atomic operation: those with
    /// FETCH are no instructions here), its successors, what it names outside the registers (a descriptor as an unsigned number), and the
    /// number of its slots. An access reads the register of its address first. An exit reads register 0, the program's result. The row of a
    /// call has neither the arguments of the helper nor registers 0 to 5, which the call changes.
    #[inline(always)]
    pub fn profile(&self) -> Profile
        ensures { result ≡ profile self.now }
    {
        use Reference::Nothing;
        use Successors::{Jump, Next, NextOrJump};
        match *self {
            Insn::Alu { op, dst, src, .. } => row(
                first_operand(op, dst),
                register_of(src),
                Some(dst),
                Next,
                Nothing,
                1,
            ),
            Insn::Movsx(Movsx { dst, src, .. }) => row(
                Some(src),
                None,
                Some(dst),
                Next,
                Nothing,
                1,
            ),
            Insn::Neg { dst, .. } | Insn::End { dst, .. } => row(
                Some(dst),
                None,
                Some(dst),
                Next,
                Nothing,
                1,
            ),
            Insn::Ja { off } => row(None, None, None, Jump(i32::from(off)), Nothing, 1),
            Insn::Jal { off } => row(None, None, None, Jump(off), Nothing, 1),
            Insn::Jump { dst, src, off, .. } => row(
                Some(dst),
                register_of(src),
                None,
                NextOrJump(i32::from(off)),
                Nothing,
                1,
            ),
            Insn::Call { id } => row(None, None, None, Next, Reference::Helper(id), 1),
            Insn::Exit => row(
                Some(Reg::new(0)),
                None,
                None,
                Successors::Nothing,
                Nothing,
                1,
            ),
            Insn::Load(Load { dst, src, .. }) => row(Some(src), None, Some(dst), Next, Nothing, 1),
            Insn::Store { dst, src, .. } => row(
                Some(dst),
                register_of(src),
                None,
                Next,
                Nothing,
                1,
            ),
            Insn::Atomic { dst, src, .. } => row(Some(dst), Some(src), None, Next, Nothing, 1),
            Insn::Const { dst, .. } => row(None, None, Some(dst), Next, Nothing, 2),
            Insn::MapFd { dst, fd } => row(
                None,
                None,
                Some(dst),
                Next,
                Reference::Map(fd.cast_unsigned()),
                2,
            ),
            Insn::MapValue { dst, fd, off } => row(
                None,
                None,
                Some(dst),
                Next,
                Reference::Value(fd.cast_unsigned(), off),
                2,
            ),
        }
    }
}

impl Successors {
    ghost use Rattle.insn_set.specs.Flow.{falls_by, jumps_by, offset_by, target_by};

    /// Whether control may pass to the next instruction (the falling edge): false of an unconditional jump and of the exit, else true.
    #[inline(always)]
    pub fn falls(self) -> bool
        ensures { result ≡ falls_by self }
    {
        match self {
            Successors::Next => true,
            Successors::Jump(_) => false,
            Successors::NextOrJump(_) => true,
            Successors::Nothing => false,
        }
    }

    /// Whether control may pass to the target of a jump (`Jump`, `NextOrJump`). `falls` is for the next instruction.
    #[inline(always)]
    pub fn jumps(self) -> bool
        ensures { result ≡ jumps_by self }
    {
        match self {
            Successors::Next => false,
            Successors::Jump(_) => true,
            Successors::NextOrJump(_) => true,
            Successors::Nothing => false,
        }
    }

    /// The distance from the next instruction to the jump's target, in slots; 0 if there is no jump.
    #[inline(always)]
    pub fn offset(self) -> i32
        ensures { result ≡ offset_by self }
    {
        match self {
            Successors::Next => 0,
            Successors::Jump(off) => off,
            Successors::NextOrJump(off) => off,
            Successors::Nothing => 0,
        }
    }

    /// The slot to which an instruction at `slot` may jump, if these are its successors: the next slot, `slot + 1`, plus the jump's offset
    /// in slots. `None` if there is no jump, or if the target is below slot 0. The target may be past the program's end, which is not
    /// tested here. A slot of a program is below `MAX_SLOTS`, so it meets the precondition, by which `slot + 1` does not overflow.
    #[inline(always)]
    pub fn target(self, slot: usize) -> Option<usize>
        requires { slot ≤ MAX_SLOTS }
        ensures { result ≡ target_by self slot }
    {
        if self.jumps() {
            usize::try_from(slot as isize + 1 + self.offset() as isize).ok()
        } else {
            None
        }
    }
}

impl Reference {
    ghost use Rattle.insn_set.specs.Flow.{descriptor_by};

    /// The descriptor in this reference, that is, in what an instruction names outside its registers: of the map that it names (`Map`), or
    /// of the map in whose first value it names a byte (`Value`, whose second field, the byte's offset, is not used). `None` if it names a
    /// helper or nothing.
    #[inline(always)]
    pub fn descriptor(self) -> Option<u32>
        ensures { result ≡ descriptor_by self }
    {
        match self {
            Reference::Nothing => None,
            Reference::Helper(_) => None,
            Reference::Map(fd) => Some(fd),
            Reference::Value(fd, _) => Some(fd),
        }
    }
}

//! The instruction of a form: written numbers as its fields. `-0` is read as 0: in contracts, `normal` is a number without the minus
//! before a 0.

ghost use Rattle.std.specs.Prelude.{◌≡◌, IfSome, IfNone, Some, true, false};
ghost use Rattle.text_line.specs.declared.form.JumpTarget.TheVariants as target;
ghost use Rattle.text_line.specs.declared.form.Form.TheVariants as form;
ghost use Rattle.text_line.specs.Form.{IsForm, IsSource};
ghost use Rattle.text_line.specs.Ranges.{imm_fits, offset_fits, next_imm_fits, source_fits, target_fits};
ghost use Rattle.text_line.specs.Ranges.{form_fits, normal, normal_source, normal_form, placed, resolved};
ghost use Rattle.text_line.specs.Written.{number_of, source_of, written};

use crate::form::{Access, Address, Form, JumpTarget, Number, Operation, SourceOperand, WideValue};
use insn_set::{Insn, Load, Movsx, Operand, Reg};

impl Number {
    /// The number as an immediate, a signed 32-bit field; -0 is read as 0 (`normal`). `None` if the number is below -2^31 or above 2^31 - 1
    /// (`imm_fits` is false). A number without a `magnitude` is out of this range too: its digits are 2^64 or more. The magnitude is
    /// negated as an `i64`, since 2^31 is no `i32`.
    fn imm(self) -> Option<i32>
        ensures found { IfSome result (λ n. number_of n ≡ normal self) }
        ensures fits { IfSome result (λ _. imm_fits self ≡ true) }
        ensures none { IfNone result (imm_fits self ≡ false) }
    {
        let magnitude = self.magnitude?;
        if self.negative {
            if magnitude > 0x8000_0000 {
                None
            } else {
                Some((0 - magnitude as i64) as i32)
            }
        } else if magnitude > 0x7fff_ffff {
            None
        } else {
            Some(magnitude as i32)
        }
    }

    /// The number as a signed field of 16 bits, the offset of a jump or of an address; -0 becomes 0 (`normal`). `None` if the number is not
    /// from -2 ^ 15 to 2 ^ 15 - 1 (`offset_fits` is false), also if its digits are 2 ^ 64 or more, so that it has no `magnitude`. The
    /// magnitude of a negative number is negated as an `i64`, since 2 ^ 15 is no `i16`.
    fn offset(self) -> Option<i16>
        ensures found { IfSome result (λ n. number_of n ≡ normal self) }
        ensures fits { IfSome result (λ _. offset_fits self ≡ true) }
        ensures none { IfNone result (offset_fits self ≡ false) }
    {
        let magnitude = self.magnitude?;
        if self.negative {
            if magnitude > 0x8000 {
                None
            } else {
                Some((0 - magnitude as i64) as i16)
            }
        } else if magnitude > 0x7fff {
            None
        } else {
            Some(magnitude as i16)
        }
    }
}

/// Returns the offset in a map's value that a wide load has in its field `next_imm` (RFC 9669, section 3.2), here an unsigned number of 32
/// bits. `magnitude` is the written number, which has no sign; it is `None` if the number is 2 ^ 64 or more. The result is this number
/// (`found`), or `None` if it is 2 ^ 32 or more: a number is returned if and only if `next_imm_fits` is true (`fits`, `none`).
fn next_imm(magnitude: Option<u64>) -> Option<u32>
    ensures found { IfSome result (λ n. Some n ≡ magnitude) }
    ensures fits { IfSome result (λ _. next_imm_fits magnitude ≡ true) }
    ensures none { IfNone result (next_imm_fits magnitude ≡ false) }
{
    u32::try_from(magnitude?).ok()
}

impl SourceOperand {
    /// A law: if the operand is a register, its number is 0 to 10 (`IsSource`, which requires nothing of a constant). `Form::is_possible`
    /// calls it for the proof of its contract: by this a form that a line can have has no register above 10 (`IsForm`). The proof of the
    /// law has the bound from the contract of `number`, whose result is not used, so the function does nothing when it runs.
    fn register_is_in_range(self)
        ensures { IsSource self }
    {
        if let SourceOperand::Reg(reg) = self {
            let _ = reg.number();
        }
    }

    /// The second operand of an instruction, or the value that a store writes, from `self`, the operand as a line of text has it: the
    /// register, or the constant as a signed 32-bit number. `found`: written in a line (`source_of`) the result is `self`, with -0 as 0
    /// (`normal_source`). `None` exactly if `self` is a constant that is no such number (`source_fits` is false).
    fn operand(self) -> Option<Operand>
        ensures found { IfSome result (λ src. source_of src ≡ normal_source self) }
        ensures fits { IfSome result (λ _. source_fits self ≡ true) }
        ensures none { IfNone result (source_fits self ≡ false) }
    {
        match self {
            SourceOperand::Number(number) => {
                let imm = number.imm()?;
                Some(Operand::Imm(imm))
            }
            SourceOperand::Reg(reg) => Some(Operand::Reg(reg)),
        }
    }
}

impl JumpTarget {
    /// The offset in slots of a jump to this target, in a signed field of 16 bits. It is the target's number, with -0 as 0, or, if the
    /// target is a label, `distance`: the number of slots from the slot after the jump to the label (`placed`). `None` if the target has a
    /// number that does not fit 16 bits (`target_fits`, in which `false` means that the jump is not long). `long_offset` is for a long
    /// jump, whose field has 32 bits.
    fn offset(self, distance: i16) -> Option<i16>
        ensures found { IfSome result (λ n. target.Number (number_of n) ≡ placed distance self) }
        ensures fits { IfSome result (λ _. target_fits false self ≡ true) }
        ensures none { IfNone result (target_fits false self ≡ false) }
    {
        match self {
            JumpTarget::Number(number) => number.offset(),
            JumpTarget::Label => Some(distance),
        }
    }

    /// The offset in slots, from the next slot, of a long jump to this target: the target's number, with -0 as 0, or `distance` if the
    /// target is a label (`placed`). `distance` is the number of slots from the next slot to the label. It has 16 bits also for a long
    /// jump, since a program has at most `MAX_SLOTS` slots. `None` exactly if the target has a number and this is out of the range of a
    /// signed field of 32 bits (`target_fits true`, in which `true` means a long jump).
    fn long_offset(self, distance: i16) -> Option<i32>
        ensures found { IfSome result (λ n. target.Number (number_of n) ≡ placed distance self) }
        ensures fits { IfSome result (λ _. target_fits true self ≡ true) }
        ensures none { IfNone result (target_fits true self ≡ false) }
    {
        match self {
            JumpTarget::Number(number) => number.imm(),
            JumpTarget::Label => Some(i32::from(distance)),
        }
    }
}

impl Operation {
    /// The instruction of this operation on all 64 bits of `dst` (`wide`) or on the low 32. Its written form is that of the operation, with
    /// -0 as 0 (`found`). `None` if the second operand is a constant that is no signed 32-bit number (`form_fits` is false); nothing else
    /// can be out of range. `Form::insn` has checked that a line can have the form (`IsForm`): so a sign extension is from fewer bits than
    /// the register has, and a byte-order conversion is of an `r` register, so that its instruction needs no `wide`.
    fn insn(self, wide: bool, dst: Reg) -> Option<Insn>
        requires { IsForm (form.Operation wide dst self) }
        ensures found { IfSome result (λ insn. written insn
            ≡ normal_form (form.Operation wide dst self)) }
        ensures fits { IfSome result (λ _. form_fits (form.Operation wide dst self) ≡ true) }
        ensures none { IfNone result (form_fits (form.Operation wide dst self) ≡ false) }
    {
        match self {
            Operation::Binary { op, src } => {
                let src = src.operand()?;
                Some(Insn::Alu { wide, op, dst, src })
            }
            Operation::SignExtend { from, src } => {
                Some(Insn::Movsx(Movsx {
                    wide,
                    bits: from,
                    dst,
                    src,
                }))
            }
            Operation::Neg => Some(Insn::Neg { wide, dst }),
            Operation::End { how, bits } => Some(Insn::End { how, bits, dst }),
        }
    }
}

impl Access {
    /// The instruction of a line with this access, a load, a store or an atomic operation, at `address`, a base register and a written
    /// offset. `found`: the line of the instruction (`written`) is that of the access, with 0 for each number -0 (`normal_form`). `None`
    /// exactly if the offset does not fit 16 bits, or the constant of a store 32 bits, both signed (`form_fits`). It is required that a
    /// line can have this access (`IsForm`); `Form::insn` has tested this. Else a load could sign-extend a double word, which no
    /// instruction does.
    fn insn(self, address: Address) -> Option<Insn>
        requires { IsForm (form.Access self address) }
        ensures found { IfSome result (λ insn. written insn
            ≡ normal_form (form.Access self address)) }
        ensures fits { IfSome result (λ _. form_fits (form.Access self address) ≡ true) }
        ensures none { IfNone result (form_fits (form.Access self address) ≡ false) }
    {
        let base = address.base;
        let off = address.offset.offset()?;
        match self {
            Access::Load { size, signed, dst } => {
                Some(Insn::Load(Load {
                    size,
                    signed,
                    dst,
                    src: base,
                    off,
                }))
            }
            Access::Store { size, src } => {
                let src = src.operand()?;
                Some(Insn::Store {
                    size,
                    dst: base,
                    src,
                    off,
                })
            }
            Access::Atomic { size, op, src } => {
                Some(Insn::Atomic {
                    size,
                    op,
                    dst: base,
                    src,
                    off,
                })
            }
        }
    }
}

impl WideValue {
    /// The instruction of a line that loads this value into `dst`; in contracts `form.WideLoad dst self` is the form of this line. `None`
    /// if a number is out of range (`none`), else each number is in range (`fits`): a 64-bit constant is below 2^64, the descriptor of a
    /// map is a signed number of 32 bits, and an offset in a map's value is an unsigned number of 32 bits. The instruction is written as
    /// this form, with 0 for a descriptor -0 (`found`, `normal_form`).
    fn insn(self, dst: Reg) -> Option<Insn>
        ensures found { IfSome result (λ insn. written insn
            ≡ normal_form (form.WideLoad dst self)) }
        ensures fits { IfSome result (λ _. form_fits (form.WideLoad dst self) ≡ true) }
        ensures none { IfNone result (form_fits (form.WideLoad dst self) ≡ false) }
    {
        match self {
            WideValue::Number(value) => {
                let value = value?;
                Some(Insn::Const { dst, value })
            }
            WideValue::MapFd(fd) => {
                let fd = fd.imm()?;
                Some(Insn::MapFd { dst, fd })
            }
            WideValue::MapValue { fd, off } => {
                let fd = fd.imm()?;
                let off = next_imm(off)?;
                Some(Insn::MapValue { dst, fd, off })
            }
        }
    }
}

impl Form {
    /// Whether a line can have this form: true exactly if `IsForm` holds for it (`yes`, `no`). It is false for a sign extension that is not
    /// from fewer bits than the register has, for a byte-order conversion of a `w` register, of 32 bits, and for a load of a double word
    /// with sign extension: `insn` then makes no instruction. The calls of `number` and `register_is_in_range` do not change the result:
    /// they only give the proof that registers are 0 to 10.
    fn is_possible(&self) -> bool
        ensures yes { result ≡ true → IsForm self.now }
        ensures no { result ≡ false → IsForm self.now → ⊥ }
    {
        match *self {
            Form::Operation { wide, dst, op } => {
                let _ = dst.number();
                match op {
                    Operation::Binary { src, .. } => {
                        src.register_is_in_range();
                        true
                    }
                    Operation::SignExtend { from, src } => {
                        let _ = src.number();
                        wide || from.is_short()
                    }
                    Operation::Neg => true,
                    Operation::End { .. } => wide,
                }
            }
            Form::Branch { dst, src, .. } => {
                let _ = dst.number();
                src.register_is_in_range();
                true
            }
            Form::Access { access, address } => {
                let _ = address.base.number();
                match access {
                    Access::Load { size, signed, dst } => {
                        let _ = dst.number();
                        !(signed && size.is_double())
                    }
                    Access::Store { src, .. } => {
                        src.register_is_in_range();
                        true
                    }
                    Access::Atomic { src, .. } => {
                        let _ = src.number();
                        true
                    }
                }
            }
            Form::WideLoad { dst, .. } => {
                let _ = dst.number();
                true
            }
            Form::Jump { .. } | Form::Call { .. } | Form::Exit => true,
        }
    }

    /// The instruction of this form. A label that its jump names is taken to be `distance` slots from the next slot. `found`: written as a
    /// form, the instruction is `self`, but it has that distance for the label, and 0 for each -0 (`resolved`).
    ///
    /// `None` if a number is out of its field's range (`form_fits` is false), or if no line can have this form (`IsForm`, which
    /// `is_possible` tests), as a byte-order conversion of a `w` register. `fits`, `none`: of a form that a line can have, the result is
    /// `Some` exactly if all its numbers are in range.
    pub fn insn(self, distance: i16) -> Option<Insn>
        ensures found { IfSome result (λ insn. written insn ≡ resolved distance self) }
        ensures fits { IfSome result (λ _. form_fits self ≡ true) }
        ensures none { IfNone result (IsForm self → form_fits self ≡ false) }
    {
        if self.is_possible() {
            self.listed_insn(distance)
        } else {
            None
        }
    }

    /// The instruction of this form, which is listed: a line can have it (`IsForm`). `insn`, the only caller, has tested this precondition
    /// by `is_possible`. If the form is a jump, also a conditional one, to a label, `distance` is the number of slots from the slot after
    /// the jump to the label; for any other form `distance` has no effect. `found`: written as a form, the instruction is `self`, with
    /// `distance` for a label, and with 0 for a number that the line has as `-0` (`resolved`). The result is `None` if a number is out of
    /// the range of its field (`form_fits` is false, by `fits`), and only then (`none`).
    fn listed_insn(self, distance: i16) -> Option<Insn>
        requires { IsForm self }
        ensures found { IfSome result (λ insn. written insn ≡ resolved distance self) }
        ensures fits { IfSome result (λ _. form_fits self ≡ true) }
        ensures none { IfNone result (form_fits self ≡ false) }
    {
        match self {
            Form::Operation { wide, dst, op } => op.insn(wide, dst),
            Form::Jump { long, to } => {
                if long {
                    let off = to.long_offset(distance)?;
                    Some(Insn::Jal { off })
                } else {
                    let off = to.offset(distance)?;
                    Some(Insn::Ja { off })
                }
            }
            Form::Branch {
                wide,
                cond,
                dst,
                src,
                to,
            } => {
                let src = src.operand()?;
                let off = to.offset(distance)?;
                Some(Insn::Jump {
                    wide,
                    cond,
                    dst,
                    src,
                    off,
                })
            }
            Form::Access { access, address } => access.insn(address),
            Form::WideLoad { dst, value } => value.insn(dst),
            Form::Call { id } => {
                let id = id.imm()?;
                Some(Insn::Call { id })
            }
            Form::Exit => Some(Insn::Exit),
        }
    }
}

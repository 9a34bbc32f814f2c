//! Facts: the abstract state before an instruction.

use crate::kind::{Kind, Slot};
use insn_set::Reg;
use words::{REGISTERS, STACK_SLOTS};

/// The kind of each register, and what is known of each stack slot. Stack slot i is the eight bytes from byte index 8 * i on.
#[derive(Clone, Copy, Debug, PartialEq, Eq)]
pub struct Facts {
    pub registers: [Kind; REGISTERS],
    pub slots: [Slot; STACK_SLOTS],
}

impl Facts {
    ghost use Rattle.std.specs.Prelude.{◌≡◌, ◌<◌};
    ghost use Rattle.words.specs.declared.stack.TheConstants.{STACK_SLOTS};
    ghost use Rattle.reg_kinds.specs.Kinds.{nothing_known, entry, kind_at, slot_at, with_kind, with_slot};

    /// The facts in which nothing is known: no register is readable, and no stack byte is written, so the mask of written bytes of each
    /// stack slot is 0 (`Bytes(0)`). The log of a program shows what is new against earlier facts, or against these to show all.
    pub fn nothing_known() -> Facts
        ensures { result ≡ nothing_known }
    {
        Facts {
            registers: [Kind::Unreadable; REGISTERS],
            slots: [Slot::Bytes(0); STACK_SLOTS],
        }
    }

    /// The facts at program entry: register 1 holds the context, register 10 the upper end of the stack, at offset 0 (`Stack(0)`); no other
    /// register is readable, and no stack byte is written, so the mask of written bytes of each stack slot is 0 (`Bytes(0)`).
    pub fn at_entry() -> Facts
        ensures { result ≡ entry }
    {
        let mut registers = [Kind::Unreadable; REGISTERS];
        registers[1] = Kind::Ctx;
        registers[10] = Kind::Stack(0);
        Facts {
            registers,
            slots: [Slot::Bytes(0); STACK_SLOTS],
        }
    }

    /// The kind of a register.
    pub fn kind(&self, reg: Reg) -> Kind
        ensures { result ≡ kind_at self.now reg }
    {
        self.registers[usize::from(reg.number())]
    }

    /// Sets the kind of a register. Nothing else in the facts changes.
    pub fn set_kind(&mut self, reg: Reg, kind: Kind)
        ensures { self.new ≡ with_kind self.old reg kind }
    {
        self.registers[usize::from(reg.number())] = kind;
    }

    /// What is known of stack slot `index`, 0 to 63, of which 0 is the lowest.
    pub(crate) fn slot(&self, index: usize) -> Slot
        requires { index < STACK_SLOTS }
        ensures { result ≡ slot_at self.now index }
    {
        self.slots[index]
    }

    /// Sets what is known of the stack slot with this number, below `STACK_SLOTS`; number 0 is the lowest stack slot. No other facts
    /// change.
    pub(crate) fn set_slot(&mut self, number: usize, slot: Slot)
        requires { number < STACK_SLOTS }
        ensures { self.new ≡ with_slot self.old number slot }
    {
        self.slots[number] = slot;
    }
}

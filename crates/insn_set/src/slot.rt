//! Slots of eight bytes, and their fields (RFC 9669, section 3.1).

ghost use Rattle.std.specs.Prelude.{◌≡◌, ◌≤◌, ◌<◌, ◌==◌, ◌&&◌, length, IfSome, IfNone};

/// The fields of a slot, as bits: no field is read as signed here. The two register numbers have four bits each. Only definitions use this
/// type; the code keeps a [`RawSlot`].
#[derive(Clone, Copy, Debug, PartialEq, Eq)]
pub struct SlotFields {
    pub opcode: u8,
    pub dst: u8,
    pub src: u8,
    pub offset: u16,
    pub imm: u32,
}

/// A slot of a program in eight bytes: the fields of [`SlotFields`], with both registers in one byte, the destination's in its low
/// four bits (RFC 9669, section 3.1). The offset and the immediate are bits: neither is read as signed here.
#[derive(Clone, Copy, Debug, PartialEq, Eq)]
pub struct RawSlot {
    pub opcode: u8,
    pub registers: u8,
    pub offset: u16,
    pub imm: u32,
}

impl RawSlot {
    ghost use Rattle.insn_set.specs.Slot.{fields, slot_bytes, slot_of};

    /// Reads the slot in the first eight of `bytes` (`some`). Later bytes are ignored, so a caller may give all that is left of a program.
    /// `None` exactly if there are fewer than eight (`long`, `none`).
    pub fn first(bytes: &[u8]) -> Option<RawSlot>
        ensures some { IfSome result (λ slot. fields slot ≡ slot_of bytes.now) }
        ensures long { IfSome result (λ slot. 8 ≤ length bytes.now) }
        ensures none { IfNone result (length bytes.now < 8) }
    {
        if bytes.len() < 8 {
            return None;
        }
        Some(RawSlot::in_front(bytes))
    }

    /// Reads the slot in the first eight bytes, without a test. The caller, `first`, has checked that there are eight.
    #[inline(always)]
    #[tactic(auto, unfolding(crate::specs::Slot::slot_of))]
    fn in_front(bytes: &[u8]) -> RawSlot
        requires { 8 ≤ length bytes.now }
        ensures { fields result ≡ slot_of bytes.now }
    {
        // The eight bytes as one word, so that a compiler loads them at once, and stores the word unchanged as the slot.
        let word = u64::from_le_bytes([
            bytes[0], bytes[1], bytes[2], bytes[3], bytes[4], bytes[5], bytes[6], bytes[7],
        ]);
        RawSlot {
            opcode: (word % 0x100) as u8,
            registers: (word / 0x100 % 0x100) as u8,
            offset: (word / 0x1_0000 % 0x1_0000) as u16,
            imm: (word / 0x1_0000_0000) as u32,
        }
    }

    /// The number in the field of the destination register, the low four bits of `registers`: 0 to 15, of which only 0 to 10 are registers.
    #[inline(always)]
    pub fn dst(&self) -> u8
        ensures { result ≡ (fields self.now).dst }
    {
        self.registers % 16
    }

    /// The number in the field of the source register, the high four bits of `registers`: 0 to 15.
    #[inline(always)]
    pub fn src(&self) -> u8
        ensures { result ≡ (fields self.now).src }
    {
        self.registers / 16
    }

    /// Whether the fields of both registers are zero, as they have to be in a slot that uses no register (RFC 9669, section 3.1). True also
    /// of a slot that uses register 0 in both fields.
    #[inline(always)]
    pub fn has_zero_registers(&self) -> bool
        ensures { result ≡ ((fields self.now).dst == 0 && (fields self.now).src == 0) }
    {
        self.registers == 0
    }

    /// The slot's eight bytes: the opcode, the byte of both registers, the offset in two bytes and the immediate in four, both
    /// little-endian.
    pub fn bytes(&self) -> [u8; 8]
        ensures { result ≡ slot_bytes (fields self.now) }
    {
        let [offset_low, offset_high] = self.offset.to_le_bytes();
        let [a, b, c, d] = self.imm.to_le_bytes();
        [
            self.opcode,
            self.registers,
            offset_low,
            offset_high,
            a,
            b,
            c,
            d,
        ]
    }
}

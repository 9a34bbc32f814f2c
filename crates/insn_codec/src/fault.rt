//! Faults of a program's bytes.

ghost use Rattle.std.specs.Prelude.{◌≡◌};

use std::alloc::{AllocError, AllocFailed};

/// Kinds of faults, lowest number first: of several faults of one slot the lowest is reported.
#[derive(Clone, Copy, Debug, PartialEq, Eq)]
pub enum FaultKind {
    /// No instruction has this opcode.
    Opcode = 1,
    /// A field has a value that the form of the opcode does not allow: most often the instruction does not use it, and it is not zero.
    Reserved = 2,
    /// A register's number is above 10.
    Register = 3,
    /// The second slot of a wide instruction is missing, or has a field that is not zero, other than an immediate that the instruction
    /// uses.
    SecondSlot = 4,
    /// The number of bytes of a program is no multiple of eight; for `decode`, it is below eight.
    Ragged = 5,
    /// There is no slot.
    Empty = 6,
    /// There are more slots than a program may have, `MAX_SLOTS`.
    TooLong = 7,
    /// Out of memory: the allocator refused a growth.
    Memory = 8,
}

impl FaultKind {
    ghost use Rattle.insn_codec.specs.Fault.{fault_number};

    /// The number of the kind, its value in the enum. The reason in the reply to a PROG_LOAD that is rejected for this fault is 100 more.
    /// No load is rejected for `Memory`: a load to which memory is refused has the status of ENOMEM, and no reason.
    pub fn number(self) -> u16
        ensures { result ≡ fault_number self }
    {
        self as u16
    }
}

/// A fault and its slot, which is the first slot of a faulty instruction. Of other faults it is 0 for `Empty` and `Memory`, `MAX_SLOTS` for
/// `TooLong`, and the number of whole slots for `Ragged`.
#[derive(Clone, Copy, Debug, PartialEq, Eq)]
pub struct CodecFault {
    pub slot: usize,
    pub kind: FaultKind,
}

impl From<AllocError> for CodecFault {
    ghost use Rattle.insn_codec.specs.ProgramFault.{memory_fault};

    ghost from_gives = { λ _ e. e ≡ memory_fault };

    /// Converts a refusal of memory to a fault of the codec, for the operator `?`: `Memory` at slot 0, as it is no fault of a slot. By
    /// `from_gives` the contracts of functions that use `?` know this fault.
    fn from(_e: AllocError) -> CodecFault {
        CodecFault {
            slot: 0,
            kind: FaultKind::Memory,
        }
    }
}

impl<T: Drop> From<AllocFailed<T>> for CodecFault {
    ghost use Rattle.insn_codec.specs.ProgramFault.{memory_fault};

    ghost from_gives = { λ _ e. e ≡ memory_fault };

    /// Converts the error of a call that gets no memory for a value of type `T`, as `push` of a `Vec`, to a fault of the codec, for the
    /// operator `?`: `Memory`, at slot 0, since no slot is at fault. The error also has that value, which is dropped. By `from_gives` the
    /// contract of a function that uses `?` knows this fault.
    fn from(_e: AllocFailed<T>) -> CodecFault {
        CodecFault {
            slot: 0,
            kind: FaultKind::Memory,
        }
    }
}

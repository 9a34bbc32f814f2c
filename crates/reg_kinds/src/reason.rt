//! Why a program is rejected.

/// The first rule that a program breaks. Each has a number, which a refusal reports.
#[derive(Clone, Copy, Debug, PartialEq, Eq)]
pub enum Reason {
    /// A jump out of the program, or into the second half of a wide instruction.
    JumpOutside,
    /// A jump to the same or to an earlier slot.
    JumpBackward,
    /// The last instruction can go on to the slot after the program.
    FallsOff,
    /// No path leads to the instruction.
    Unreachable,
    /// A call of a helper that is not known.
    UnknownHelper,
    /// An instruction writes register 10, the frame pointer.
    FramePointerWritten,
    /// A map is named by a descriptor that is not open.
    DescriptorNotOpen,
    /// A map is named by a descriptor of something other than a map.
    DescriptorNotMap,
    /// The address of a direct value is loaded for a map that is not an array of one element, or at an offset outside its value.
    NoDirectValue,
    /// A read of a register that may be uninitialized or hold anything.
    UnreadableRegister,
    /// The result at the exit is not a scalar.
    ResultNotScalar,
    /// A load or a store at an address that is not a pointer.
    NotPointer,
    /// Arithmetic on a pointer other than moving it by a scalar.
    PointerArithmetic,
    /// A pointer may be moved farther than `FARTHEST_OFFSET` of `tagged_model`, or by a number whose sign is not known.
    OffsetTooLarge,
    /// An access outside the stack.
    OutsideStack,
    /// A load or a store in the stack that is not aligned to its size.
    UnalignedStack,
    /// A read of a stack byte that may be unwritten.
    UnwrittenStack,
    /// A load of only some bytes of a spilled pointer, a store of only some bytes of a pointer, or a read of a spill by an atomic operation
    /// or a helper.
    PartOfSpill,
    /// An access outside a map's value.
    OutsideValue,
    /// Use of a pointer that may be null.
    MaybeNull,
    /// An access to the context other than a load of one of its words.
    ContextAccess,
    /// A pointer is stored outside the stack.
    PointerStored,
    /// A pointer is compared with something other than null.
    PointerComparison,
    /// A helper's argument is of the wrong kind.
    HelperArgument,
    /// A length that is passed to a helper may be 0, or `LENGTHS_END` of `transfer` or more.
    LengthUnbounded,
    /// An atomic operation in a map's value at an offset that is not known to be a multiple of its size.
    UnalignedAtomic,
    /// The verifier is out of memory.
    Memory,
}

impl Reason {
    ghost use Rattle.std.specs.Prelude.{◌≡◌};
    ghost use Rattle.reg_kinds.specs.Reason.{number};

    /// The number by which a refused load, `verify` and the log report the reason: 1 to 9 for a fault of the program's shape, 20 to 36 for
    /// one of its safety, by the facts. For `Memory`, out of memory, it is 40, which none of them reports.
    pub fn number(self) -> u16
        ensures { result ≡ number self }
    {
        match self {
            Reason::JumpOutside => 1,
            Reason::JumpBackward => 2,
            Reason::FallsOff => 3,
            Reason::Unreachable => 4,
            Reason::UnknownHelper => 5,
            Reason::FramePointerWritten => 6,
            Reason::DescriptorNotOpen => 7,
            Reason::DescriptorNotMap => 8,
            Reason::NoDirectValue => 9,
            Reason::UnreadableRegister => 20,
            Reason::ResultNotScalar => 21,
            Reason::NotPointer => 22,
            Reason::PointerArithmetic => 23,
            Reason::OffsetTooLarge => 24,
            Reason::OutsideStack => 25,
            Reason::UnalignedStack => 26,
            Reason::UnwrittenStack => 27,
            Reason::PartOfSpill => 28,
            Reason::OutsideValue => 29,
            Reason::MaybeNull => 30,
            Reason::ContextAccess => 31,
            Reason::PointerStored => 32,
            Reason::PointerComparison => 33,
            Reason::HelperArgument => 34,
            Reason::LengthUnbounded => 35,
            Reason::UnalignedAtomic => 36,
            Reason::Memory => 40,
        }
    }
}

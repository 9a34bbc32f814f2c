//! The words of reasons.

use reg_kinds::Reason;

/// The reason for which a program is rejected, in words: the phrase with which the log begins to explain the rejection (`reason_line`).
pub(crate) fn reason_words(reason: Reason) -> &'static str {
    match reason {
        Reason::JumpOutside => {
            "a jump out of the program, or into the second half of a wide instruction"
        }
        Reason::JumpBackward => "a jump to the same or an earlier slot",
        Reason::FallsOff => "the last instruction can go on past the end",
        Reason::Unreachable => "no path leads to the instruction",
        Reason::UnknownHelper => "an unknown helper",
        Reason::FramePointerWritten => "arithmetic or a load into the frame pointer",
        Reason::DescriptorNotOpen => "a map's descriptor is not open",
        Reason::DescriptorNotMap => "a map's descriptor is of something else",
        Reason::NoDirectValue => "a value is loaded directly that the map does not have",
        Reason::UnreadableRegister => "an unreadable register is read",
        Reason::ResultNotScalar => "the result at the exit is not a scalar",
        Reason::NotPointer => "an access at what is not a pointer",
        Reason::PointerArithmetic => "arithmetic on a pointer",
        Reason::OffsetTooLarge => "a pointer is moved too far",
        Reason::OutsideStack => "outside the stack",
        Reason::UnalignedStack => "not aligned in the stack",
        Reason::UnwrittenStack => "a stack byte that may not be written is read",
        Reason::PartOfSpill => "a part of a spilled pointer",
        Reason::OutsideValue => "outside a map's value",
        Reason::MaybeNull => "the pointer may be null",
        Reason::ContextAccess => "an access to the context other than a load of one of its words",
        Reason::PointerStored => "a pointer is stored outside the stack",
        Reason::PointerComparison => "a pointer is compared with something other than null",
        Reason::HelperArgument => "a helper's argument of the wrong kind",
        Reason::LengthUnbounded => "a helper's length may be zero or too large",
        Reason::UnalignedAtomic => {
            "an atomic operation in a map's value at an offset that is not known to be a multiple of its size"
        }
        Reason::Memory => "the verifier got no memory",
    }
}

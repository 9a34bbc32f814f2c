//! Why a program is rejected.

ghost use Rattle.std.specs.Prelude.{◌≡◌};

use reg_kinds::Reason;
use std::alloc::AllocError;

/// The reason for which a program is rejected, and the slot; or out of memory.
#[derive(Clone, Copy, Debug, PartialEq, Eq)]
pub struct VerifyFault {
    /// The slot of the instruction; 0 if `reason` is `Memory`: out of memory.
    pub slot: usize,
    pub reason: Reason,
}

impl From<AllocError> for VerifyFault {
    ghost use Rattle.verifier.specs.Verdict.{memory_fault};

    ghost from_gives = { λ _ e. e ≡ memory_fault };

    /// Out of memory, which is reported at slot 0, since it is the fault of no instruction.
    fn from(_error: AllocError) -> VerifyFault {
        VerifyFault {
            slot: 0,
            reason: Reason::Memory,
        }
    }
}

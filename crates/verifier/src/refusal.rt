//! Why slots are rejected: a slot and a number.

ghost use Rattle.std.specs.Prelude.{◌≡◌};

use crate::fault::VerifyFault;
use insn_codec::{CodecFault, FaultKind};
use reg_kinds::Reason;
use std::fmt;

/// What is wrong with slots that are rejected.
#[derive(Clone, Copy, Debug, PartialEq, Eq)]
pub enum Cause {
    /// They are no program: this is the codec's fault, of their number or of one of them.
    Slots(FaultKind),
    /// They are a program that breaks a rule.
    Verdict(Reason),
}

impl Cause {
    ghost use Rattle.verifier.specs.Judgement.{cause_number};

    /// The number that loads, `verify` and the log give for a rejection. For a program that breaks a rule (`Verdict`) it is the number of
    /// the reason, which is below 100; for slots that are no program (`Slots`) it is 100 plus the number of the codec's fault.
    pub fn number(self) -> u16
        ensures { result ≡ cause_number self }
    {
        match self {
            Cause::Slots(kind) => 100 + kind.number(),
            Cause::Verdict(reason) => reason.number(),
        }
    }
}

/// Why slots are rejected, and because of which slot. As text it is the line that `verify` and the log write for it.
#[derive(Clone, Copy, Debug, PartialEq, Eq)]
pub struct Refusal {
    /// The first slot of the instruction at fault. If there is no slot, 0; if there are too many, the first that is too many, `MAX_SLOTS`;
    /// if the bytes end within a slot, the number of whole slots.
    pub slot: usize,
    pub cause: Cause,
}

impl From<CodecFault> for Refusal {
    ghost use Rattle.verifier.specs.Judgement.{refusal_of_slots};

    ghost from_gives = { λ fault refusal. refusal ≡ refusal_of_slots fault };

    /// The refusal of slots that are no program: its slot is that of the codec's fault, and its cause is the kind of this fault.
    fn from(fault: CodecFault) -> Refusal {
        Refusal {
            slot: fault.slot,
            cause: Cause::Slots(fault.kind),
        }
    }
}

impl From<VerifyFault> for Refusal {
    ghost use Rattle.verifier.specs.Judgement.{refusal_of_program};

    ghost from_gives = { λ fault refusal. refusal ≡ refusal_of_program fault };

    /// The refusal of slots that decode to a program, if this program breaks a rule of the verifier. Its slot is that of the verifier's
    /// fault, and its cause is the fault's reason (`Verdict`). Out of memory (`Memory`) is no rule: for this fault `verify_slots` and the
    /// log return an `AllocError`, and no refusal.
    fn from(fault: VerifyFault) -> Refusal {
        Refusal {
            slot: fault.slot,
            cause: Cause::Verdict(fault.reason),
        }
    }
}

impl fmt::Display for Refusal {
    ghost use Rattle.std.specs.Prelude.{Some};
    ghost use Rattle.verifier.specs.Judgement.{refusal_text};

    ghost output = { λ refusal. Some (refusal_text refusal) };

    /// Writes the line that `verify` and the verifier's log write for a rejection, without its line feed. `slot` is the first slot of the
    /// instruction at fault. If there is no slot, it is 0; if the bytes end within a slot, the number of whole slots; if there are too many
    /// slots, `MAX_SLOTS`. `number` is the number of the cause. If a program breaks a rule, it is that of the reason, below 100. If the
    /// slots are no program, it is 100 plus that of the codec's fault.
    fn fmt<W: fmt::Write>(&self, f: &mut fmt::Formatter<W>) -> fmt::Result {
        let (slot, number) = (self.slot, self.cause.number());
        write!(f, "refused: slot {slot} reason {number}")
    }
}

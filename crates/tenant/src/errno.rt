//! Error numbers.

ghost use Rattle.std.specs.Prelude.{◌≡◌, ◌≢◌};
ghost use Rattle.tenant.specs.Machine.{cause_errno, codec_errno, verdict_errno};

use flat_machine::PacketFault;
use insn_codec::FaultKind;
use reg_kinds::Reason;
use tagged_model::MapFault;
use verifier::Cause;

/// The errors of commands, those of bpf(2).
#[derive(Clone, Copy, Debug, PartialEq, Eq)]
pub enum Errno {
    /// EPERM
    NotPermitted,
    /// ENOENT
    NoEntry,
    /// E2BIG
    TooBig,
    /// EBADF
    BadDescriptor,
    /// ENOMEM
    NoMemory,
    /// EACCES
    AccessDenied,
    /// EFAULT, the error of a run that faults, which no run of an accepted program does
    BadAddress,
    /// EEXIST
    Exists,
    /// EINVAL
    Invalid,
    /// EMFILE
    TooManyOpen,
    /// ENOSPC
    NoSpace,
}

/// The error of a load whose slots are no program, by the codec's fault: `TooBig` if it has no slots or too many, as in the kernel, else
/// `Invalid`. The arm `Memory` is not used: `verify_slots` returns `AllocError` if out of memory, and not this fault.
fn errno_of_codec(kind: FaultKind) -> Errno
    ensures { result ≡ codec_errno kind }
{
    match kind {
        FaultKind::Empty | FaultKind::TooLong => Errno::TooBig,
        FaultKind::Opcode
        | FaultKind::Reserved
        | FaultKind::Register
        | FaultKind::SecondSlot
        | FaultKind::Ragged => Errno::Invalid,
        FaultKind::Memory => Errno::NoMemory,
    }
}

/// The error of a load whose program is rejected for this reason. `BadDescriptor`: a descriptor is not open. `AccessDenied`: the program
/// writes the frame pointer or is unsafe, since an instruction may not be run with the facts before it. `Invalid`: any other fault of its
/// shape. `NoMemory`: for `Memory`, the reason of no rule, by which `verify` reports that it was out of memory. No load is rejected for it,
/// since `verify_slots` returns `AllocError` then.
fn errno_of_verdict(reason: Reason) -> Errno
    ensures { result ≡ verdict_errno reason }
{
    match reason {
        Reason::JumpOutside | Reason::JumpBackward | Reason::FallsOff => Errno::Invalid,
        Reason::Unreachable
        | Reason::UnknownHelper
        | Reason::DescriptorNotMap
        | Reason::NoDirectValue => Errno::Invalid,
        Reason::DescriptorNotOpen => Errno::BadDescriptor,
        Reason::FramePointerWritten
        | Reason::UnreadableRegister
        | Reason::ResultNotScalar
        | Reason::NotPointer
        | Reason::PointerArithmetic
        | Reason::OffsetTooLarge
        | Reason::OutsideStack
        | Reason::UnalignedStack
        | Reason::UnwrittenStack
        | Reason::PartOfSpill
        | Reason::OutsideValue
        | Reason::MaybeNull
        | Reason::ContextAccess
        | Reason::PointerStored
        | Reason::PointerComparison
        | Reason::HelperArgument
        | Reason::LengthUnbounded
        | Reason::UnalignedAtomic => Errno::AccessDenied,
        Reason::Memory => Errno::NoMemory,
    }
}

impl Errno {
    ghost use Rattle.tenant.specs.Errno.{status_of, map_errno};
    ghost use Rattle.tenant.specs.Batch.{packet_errno};
    ghost use Rattle.tenant.specs.declared.errno.Errno.TheVariants.{BadAddress};

    /// The error of a command whose call of a map fails for this fault (`map_errno`): the one of the same name, and `NoMemory` for
    /// `Memory`. It is never `BadAddress`, the error of a run that faults (`no_fault`). `write_command_reply` requires that a command's
    /// error is not `BadAddress` (`IsWritable`), so that no reply reports a fault. The commands `create`, `update` and `delete` of `Tenant`
    /// return this error, and need `no_fault` for their clause `writable`, which promises `IsWritable`.
    pub(crate) fn of_map(fault: MapFault) -> Errno
        ensures errno { result ≡ map_errno fault }
        ensures no_fault { result ≢ BadAddress }
    {
        match fault {
            MapFault::NoEntry => Errno::NoEntry,
            MapFault::TooBig => Errno::TooBig,
            MapFault::Memory => Errno::NoMemory,
            MapFault::Exists => Errno::Exists,
            MapFault::Invalid => Errno::Invalid,
            MapFault::NoSpace => Errno::NoSpace,
        }
    }

    /// The error of a batch whose packets are refused for this fault. `TooBig`: a packet is longer than `LONGEST_PACKET` (`TooLong`).
    /// `Invalid`: there is neither one array of context words for all packets nor one for each (`Contexts`), or a packet ends before it
    /// begins, or after the last byte of the buffer in which the packets lie one after another (`Outside`).
    pub(crate) fn of_packet(fault: PacketFault) -> Errno
        ensures { result ≡ packet_errno fault }
    {
        match fault {
            PacketFault::Contexts => Errno::Invalid,
            PacketFault::Outside => Errno::Invalid,
            PacketFault::TooLong => Errno::TooBig,
        }
    }

    /// The error number with which a load is refused for `cause`. If its slots are no program: `TooBig` for no slots or too many, else
    /// `Invalid`. If its program breaks a rule: `BadDescriptor` if a descriptor is not open, `AccessDenied` if the program is unsafe or
    /// writes the frame pointer, else `Invalid`. `NoMemory` if the codec's fault or the reason is `Memory`.
    pub fn of_cause(cause: Cause) -> Errno
        ensures { result ≡ cause_errno cause }
    {
        match cause {
            Cause::Slots(kind) => errno_of_codec(kind),
            Cause::Verdict(reason) => errno_of_verdict(reason),
        }
    }

    /// The status of a reply with this error: the error's number in Linux, negated. Without an error the status is not negative.
    pub fn status(self) -> i32
        ensures { result ≡ status_of self }
    {
        match self {
            Errno::NotPermitted => -1,
            Errno::NoEntry => -2,
            Errno::TooBig => -7,
            Errno::BadDescriptor => -9,
            Errno::NoMemory => -12,
            Errno::AccessDenied => -13,
            Errno::BadAddress => -14,
            Errno::Exists => -17,
            Errno::Invalid => -22,
            Errno::TooManyOpen => -24,
            Errno::NoSpace => -28,
        }
    }
}

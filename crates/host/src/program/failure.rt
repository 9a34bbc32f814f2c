//! Failures of the program.

ghost use Rattle.std.specs.Prelude.{◌≡◌};

use bpf_text::{TextFault, TextFaultKind};
use clap::error::ErrorKind;
use host_core::{ServeFault, ServeFaultKind};
use insn_codec::{CodecFault, FaultKind};
use std::alloc::{AllocError, AllocFailed};
use std::io;
use thiserror::Error;

/// Why the program ends with a fault. Its text is the fault line.
#[derive(Debug, Drop, Error)]
pub enum Failure {
    /// clap rejects the arguments, they name no task, or they could not be read.
    #[error("wrong words")]
    WrongArguments,
    /// The number of the first wrong map argument, from 1.
    #[error("map word {0} is wrong")]
    MapArgument(usize),
    /// The input of `serve` ended inside a frame, after so many whole ones.
    #[error("truncated after {0} frames")]
    Truncated(u32),
    /// In the input of `serve` another byte follows `MOST_FRAMES` frames.
    #[error("too many frames")]
    TooManyFrames,
    /// The input of `asm`, `dis` or `verify` has more than `LONGEST_INPUT` bytes.
    #[error("input too long")]
    TooLong,
    /// A text or hex lines have a fault. Lines are numbered from 1; line 0 is the whole text. `kind` is the fault's number in `bpf_text`.
    #[error("line {line}: fault {kind}")]
    Line { line: usize, kind: u16 },
    /// Slots that are no program. `slot` is the first one with a fault, and `kind` the fault's number in `insn_codec`.
    #[error("slot {slot}: fault {kind}")]
    Slot { slot: usize, kind: u16 },
    /// A call of the input failed.
    #[error("read fault")]
    Read,
    /// A call of the output failed, or took no bytes.
    #[error("write fault")]
    Write,
    /// `serve` has no seed for its hash maps.
    #[error("no random seed")]
    Seed,
    #[error("out of memory")]
    Memory,
}

impl Failure {
    ghost use Rattle.std.specs.Prelude.{◌≢◌};
    ghost use Rattle.std.specs.declared.io.ErrorKind.TheVariants.{OutOfMemory};
    ghost use Rattle.std.specs.IoError.{error_kind};
    ghost use Rattle.host.specs.declared.program.failure.Failure.TheVariants.{WrongArguments, Memory};
    ghost use Rattle.host.specs.program.Statuses.{exit_status};

    /// The failure of the program, a fault line and an exit status, if its arguments could not be read, with this error: `Memory` if out of
    /// memory, else `WrongArguments`, for instance if an argument is not UTF-8.
    pub fn of_unread_arguments(error: &io::Error) -> Failure
        ensures memory { error_kind error.now ≡ OutOfMemory → result ≡ Memory }
        ensures wrong { error_kind error.now ≢ OutOfMemory → result ≡ WrongArguments }
    {
        if error.kind() == io::ErrorKind::OutOfMemory {
            Failure::Memory
        } else {
            Failure::WrongArguments
        }
    }

    /// The exit status of the program: 1 if the input is rejected, 2 if arguments are wrong, 3 if a call of the input or the output failed
    /// or there is no seed, 4 if out of memory.
    pub fn status(&self) -> u8
        ensures { result ≡ exit_status self.now }
    {
        match self {
            Failure::Truncated(_) | Failure::TooManyFrames => 1,
            Failure::TooLong | Failure::Line { .. } | Failure::Slot { .. } => 1,
            Failure::WrongArguments | Failure::MapArgument(_) => 2,
            Failure::Read | Failure::Write | Failure::Seed => 3,
            Failure::Memory => 4,
        }
    }
}

impl From<AllocError> for Failure {
    ghost use Rattle.host.specs.declared.program.failure.Failure.TheVariants.{Memory};

    ghost from_gives = { λ _ failure. failure ≡ Memory };

    /// The failure to which `?` converts a failed allocation: `Memory`, since an allocation fails only if out of memory.
    fn from(_error: AllocError) -> Failure {
        Failure::Memory
    }
}

impl<T: Drop> From<AllocFailed<T>> for Failure {
    ghost use Rattle.host.specs.declared.program.failure.Failure.TheVariants.{Memory};

    ghost from_gives = { λ _ failure. failure ≡ Memory };

    /// By this conversion `?` turns the error of a call that needed memory and got none, as `Vec::push`, into `Memory`. Such an error
    /// (`AllocFailed`) has the value that was not stored; it is dropped.
    fn from(_error: AllocFailed<T>) -> Failure {
        Failure::Memory
    }
}

impl From<clap::Error> for Failure {
    ghost use Rattle.clap.specs.Words.{kind_of};
    ghost use Rattle.host.specs.program.Statuses.{arguments_failure};

    ghost from_gives = { λ error failure. failure ≡ arguments_failure (kind_of error) };

    /// The failure for an error of clap: `Memory` if out of memory, else `WrongArguments`.
    fn from(error: clap::Error) -> Failure {
        match error.kind() {
            ErrorKind::OutOfMemory => Failure::Memory,
            // A request for help or for the version is an error of clap, too, and counts as wrong arguments: `bpfhost` has no such options.
            _ => Failure::WrongArguments,
        }
    }
}

impl From<ServeFault> for Failure {
    ghost use Rattle.host.specs.program.Statuses.{stream_failure};

    ghost from_gives = { λ fault failure. failure ≡ stream_failure fault };

    /// The failure for the fault with which `serve` ended. By the clause `from_gives` it is the failure with the name of the fault's kind
    /// (`stream_failure`). `frames`, how many frames got replies, is kept only in `Truncated`, since no other of these fault lines prints
    /// it.
    fn from(fault: ServeFault) -> Failure {
        match fault.kind {
            ServeFaultKind::Read => Failure::Read,
            ServeFaultKind::Write => Failure::Write,
            ServeFaultKind::Truncated => Failure::Truncated(fault.frames),
            ServeFaultKind::TooManyFrames => Failure::TooManyFrames,
            ServeFaultKind::Memory => Failure::Memory,
        }
    }
}

impl From<TextFault> for Failure {
    ghost use Rattle.host.specs.program.Statuses.{text_failure};

    ghost from_gives = { λ fault failure. failure ≡ text_failure fault };

    /// The failure for the fault of an input that is a program's text (`assemble`) or hex lines (`from_hex_lines`): `Memory` if out of
    /// memory, else `Line` with the line of the fault, 0 for the whole input, and the number of its kind. The contract (`from_gives`) says
    /// this by `text_failure`.
    fn from(fault: TextFault) -> Failure {
        match fault.kind {
            TextFaultKind::Memory => Failure::Memory,
            kind => {
                Failure::Line {
                    line: fault.line,
                    kind: kind.number(),
                }
            }
        }
    }
}

impl From<CodecFault> for Failure {
    ghost use Rattle.host.specs.program.Failure.{codec_failure};

    ghost from_gives = { λ fault failure. failure ≡ codec_failure fault };

    /// The failure for `fault`, why slots are no program: `Memory` if out of memory, else `Slot` with the slot of the fault and the number
    /// of its kind in `insn_codec`. The `?` after `read_program` calls this. The contract is `from_gives` of this impl: the failure is the
    /// one that `codec_failure` defines.
    fn from(fault: CodecFault) -> Failure {
        match fault.kind {
            FaultKind::Memory => Failure::Memory,
            kind => {
                Failure::Slot {
                    slot: fault.slot,
                    kind: kind.number(),
                }
            }
        }
    }
}

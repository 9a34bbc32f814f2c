//! Errors of lines.

use bpf_text::TextFault;
use hex::FromHexError;
use host::BadShape;
use insn_codec::CodecFault;
use std::alloc::AllocError;
use std::num::ParseIntError;
use thiserror::Error;
use verifier::VerifyFault;

/// What is wrong with a line, or with what it names.
#[derive(Debug, Drop, Error)]
pub enum CaseError {
    /// The text does not assemble to a program, or is not made of hex lines.
    #[error("line {} fault {}", .0.line, .0.kind.number())]
    Text(#[from] TextFault),
    /// The slots are no program.
    #[error("slot {} kind {}", .0.slot, .0.kind.number())]
    Slots(#[from] CodecFault),
    /// The verifier rejects the program.
    #[error("slot {} reason {}", .0.slot, .0.reason.number())]
    Refused(#[from] VerifyFault),
    /// The text of a map or of its shape means no map or shape.
    #[error(transparent)]
    Map(#[from] BadShape),
    /// A number is missing, or wrong.
    #[error("no number")]
    Number(#[from] ParseIntError),
    /// A number is out of its range.
    #[error("out of range")]
    OutOfRange,
    /// The line is about a map that is not live, or that no line before has created; or its program does not load exactly one map.
    #[error("no such map")]
    NoMap,
    /// The bytes are fewer or more than those of a key or a value of the map.
    #[error("wrong size")]
    Size,
    /// A character is no hex digit, or the number of digits is odd.
    #[error("no hex digits")]
    Digits(#[from] FromHexError),
    /// The bytes are not UTF-8.
    #[error("no text")]
    NoText,
    /// The notation of the line is wrong.
    #[error("wrong notation")]
    Notation,
    /// No line begins with this word.
    #[error("unknown word")]
    UnknownWord,
    /// Out of memory.
    #[error(transparent)]
    Memory(#[from(alloc)] AllocError),
}

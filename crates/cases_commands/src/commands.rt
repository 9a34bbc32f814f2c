//! Frames and the commands that they carry, as text.

use crate::bytes::shown;
use cases::{CaseError, bytes_of};
use command_frames::{BadFrame, Command, GIVEN_WORDS, HEAD_LENGTH, head, parse};
use std::alloc::{AllocError, Global};

/// A case of `head`: the tenant and the command number of a frame, as `tenant 1, command 5`, or `no head` if the frame has fewer than four
/// bytes. `digits` are the frame's bytes as hex digits in the notation of cases (`bytes_of`): spaces between the digits are left out, and a
/// repetition `{COUNT*PART}`, or the byte of an escape `\xHH`, may give them. `Notation` if a repetition is malformed or its COUNT is too
/// great, or an escape has fewer than two bytes for HH, or two that end within a character; `NoText` if what `digits` gives is not UTF-8;
/// `Digits` if one of its characters is neither a space nor a hex digit, if the number of digits is odd, or if HH are no hex digits. Out of
/// memory is `Digits` in the decoder of the digits, else `Memory`.
pub fn head_line(alloc: Global, digits: &str) -> Result<String, CaseError> {
    let frame = bytes_of(alloc, digits)?;
    let Some(head) = head(&frame) else {
        return Ok("no head".to_string(alloc)?);
    };
    let (tenant, command) = (head.tenant, head.command);
    Ok(format!(in alloc; "tenant {tenant}, command {command}")?)
}

/// The text of the `GIVEN_WORDS` context words that the frame of a test run has: numbers in decimal, with a blank between them. The first
/// word of the context, the packet's length, is not among them, since the host writes it. `AllocError`: out of memory.
fn words_text(alloc: Global, words: [u32; GIVEN_WORDS]) -> Result<String, AllocError> {
    let mut text = String::new(alloc);
    for word in words {
        if !text.is_empty() {
            text.push(' ')?;
        }
        text.push_str(&word.to_string(alloc)?)?;
    }
    Ok(text)
}

/// The text of a command whose fields are one number and bytes, as `lookup 3 [01020304]`. `name` is the command's name. `fd` is the number:
/// a descriptor, or for a load the type of the program. `bytes` are written in brackets as hex digits, of more than 64 only the first 16,
/// with the number of all (`shown`). `AllocError`: out of memory.
fn number_and_bytes(
    alloc: Global,
    name: &str,
    fd: u32,
    bytes: &[u8],
) -> Result<String, AllocError> {
    let bytes = shown(alloc, bytes)?;
    format!(in alloc; "{name} {fd} [{bytes}]")
}

/// The text of a command, for the outcome of a case of `parse`: its name, then its fields in the order of `Command`, as
/// `update 3 0 [01020304 05060708]`. Numbers are in decimal. The context words of a test run are in brackets. So are bytes: they are hex
/// digits, of more than 64 bytes only those of the first 16, with the number of all (`shown`). `AllocError`: out of memory.
fn command_text(alloc: Global, command: Command<'_>) -> Result<String, AllocError> {
    match command {
        Command::MapCreate {
            kind,
            key_size,
            value_size,
            max_entries,
            flags,
        } => { format!(in alloc; "create {kind} {key_size} {value_size} {max_entries} {flags}") }
        Command::MapLookup { fd, key } => number_and_bytes(alloc, "lookup", fd, key),
        Command::MapUpdate {
            fd,
            flags,
            key_and_value,
        } => {
            let bytes = shown(alloc, key_and_value)?;
            format!(in alloc; "update {fd} {flags} [{bytes}]")
        }
        Command::MapDelete { fd, key } => number_and_bytes(alloc, "delete", fd, key),
        Command::MapNextKey { fd, key } => number_and_bytes(alloc, "next key", fd, key),
        Command::ProgLoad { kind, slots } => number_and_bytes(alloc, "load", kind, slots),
        Command::ProgTestRun { fd, words, packet } => {
            let words = words_text(alloc, words)?;
            let packet = shown(alloc, packet)?;
            format!(in alloc; "run {fd} [{words}] [{packet}]")
        }
        Command::Close { fd } => format!(in alloc; "close {fd}"),
    }
}

/// A case of `parse`: the text of the command that a frame has, with its fields, as `close 3`. If `parse` rejects the frame, the text is
/// why: `too long` if it has more than `LONGEST_FRAME` bytes; `unknown` if no command has its number; or `wrong body` if the bytes after
/// the head are too few for the command, or, for MAP_CREATE and CLOSE, too many. A frame of fewer bytes than a head, four, is not parsed:
/// the text is `no head`. `digits` are the frame's bytes in hex digits (`bytes_of`). `Notation` if the notation of cases is wrong in them;
/// `NoText` if what they give is not UTF-8; `Digits` if a character is neither a space nor a hex digit, or the number of digits is odd. If
/// out of memory, `Memory`, or `Digits` from the decoder of the digits.
pub fn parse_line(alloc: Global, digits: &str) -> Result<String, CaseError> {
    let frame = bytes_of(alloc, digits)?;
    if frame.len() < HEAD_LENGTH {
        return Ok("no head".to_string(alloc)?);
    }
    let text = match parse(&frame) {
        Ok(command) => command_text(alloc, command)?,
        Err(BadFrame::TooLong) => "too long".to_string(alloc)?,
        Err(BadFrame::Unknown) => "unknown".to_string(alloc)?,
        Err(BadFrame::Body) => "wrong body".to_string(alloc)?,
    };
    Ok(text)
}

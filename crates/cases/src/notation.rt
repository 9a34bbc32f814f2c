//! Texts and bytes on one line: `;` is a line feed, `\xHH` the byte with these two hex digits, and `{COUNT*PART}` the text
//! PART, COUNT times, in which each `#` is the number of repetitions before, from 0 on.

ghost use Rattle.std.specs.Prelude.{◌≡◌, length, IfOk};

use crate::case_error::CaseError;
use hex::FromHex;
use std::alloc::{AllocError, Global};
use std::fmt::Write;

/// The number of bytes between two blanks, when a frame, a reply, a key or a value is written as hex digits.
pub const GROUP: usize = 4;

/// The greatest COUNT of a repetition `{COUNT*PART}`: as many as the program's longest input has bytes.
const MOST_TIMES: u32 = 1_048_576;

/// The number of repetitions that decimal digits give, the COUNT of `{COUNT*PART}` in the notation of cases. It may be 0, and a `+` before
/// the digits is allowed. `cases_texts` reads COUNT of its line `exits COUNT` by this too, and makes a program of so many exit
/// instructions. `Notation` if `digits` is no such number, or it is above `MOST_TIMES` (1,048,576).
pub fn times(digits: &str) -> Result<u32, CaseError> {
    match digits.parse::<u32>() {
        Ok(times) if times <= MOST_TIMES => Ok(times),
        _ => Err(CaseError::Notation),
    }
}

/// Appends the bytes of `text` to `bytes`, with a line feed for each `;`; other bytes are unchanged. `text` is a piece of a line in the
/// notation of cases that has no escape `\xHH` and no repetition, since the callers have split the line at these. `AllocError`: out of
/// memory.
fn append_characters(bytes: &mut Vec<u8>, text: &str) -> Result<(), AllocError> {
    for byte in text.bytes() {
        bytes.push(if byte == b';' { b'\n' } else { byte })?;
    }
    Ok(())
}

/// Appends the byte that the two hex digits at the front of `text` name, and then the characters after the digits, with `;` as a line feed.
/// In the line, `text` follows a `\x`. `Notation` if `text` can't be split after two bytes, since it has fewer, or a character would be
/// cut; `Digits` if the two bytes are no hex digits, `Memory` if out of memory.
fn append_escaped(bytes: &mut Vec<u8>, text: &str) -> Result<(), CaseError> {
    let (digits, rest) = text.split_at_checked(2).ok_or(CaseError::Notation)?;
    let byte = <[u8; 1] as FromHex>::from_hex(digits)?;
    bytes.extend_from_slice(&byte)?;
    append_characters(bytes, rest)?;
    Ok(())
}

/// Appends the bytes of a text without repetitions: a line feed for `;`, the byte of the two hex digits for `\xHH`, and all others
/// unchanged. The text is split at each `\x`, and each piece but the first has to begin with two hex digits. `Notation` if such a piece
/// can't be split after two bytes, `Digits` if these are no hex digits, `Memory` if out of memory.
fn append_text(bytes: &mut Vec<u8>, text: &str) -> Result<(), CaseError> {
    for (index, piece) in text.split("\\x").enumerate() {
        if index == 0 {
            append_characters(bytes, piece)?;
        } else {
            append_escaped(bytes, piece)?;
        }
    }
    Ok(())
}

/// Appends one repetition of `part`, the PART of `{COUNT*PART}`. Each `#` becomes `digits`, the number of repetitions before this one in
/// decimal digits; the other bytes are unchanged. `AllocError`: out of memory.
fn append_numbered(bytes: &mut Vec<u8>, part: &[u8], digits: &str) -> Result<(), AllocError> {
    for byte in part {
        if *byte == b'#' {
            bytes.extend_from_slice(digits.as_bytes())?;
        } else {
            bytes.push(*byte)?;
        }
    }
    Ok(())
}

/// Appends `part`, the bytes that a repetition repeats, `times` times. Each `#` in `part` becomes the number of repetitions before, from 0
/// on. `AllocError`: out of memory.
fn append_times(
    alloc: Global,
    bytes: &mut Vec<u8>,
    part: &[u8],
    times: u32,
) -> Result<(), AllocError> {
    for time in 0..times {
        let digits = time.to_string(alloc)?;
        append_numbered(bytes, part, digits.as_str())?;
    }
    Ok(())
}

/// Appends the bytes of a repetition, `{COUNT*PART}`, and of the text after its `}`. `text` is what follows the `{`, up to the next `{` or
/// the end. In PART and in the text after the `}`, `;` gives a line feed, and `\xHH` the byte with these two hex digits. The bytes of PART
/// are appended COUNT times, and each `#` in them, even one that `\x23` gives, becomes the number of repetitions before, in decimal digits.
/// `Notation` if the `}` or the `*` is missing, if COUNT is no number or above `MOST_TIMES`, or if two bytes can't be split off after a
/// `\x`, since fewer follow or a character would be cut; `Digits` if the two bytes are no hex digits; `Memory` if out of memory.
fn append_repeated(alloc: Global, bytes: &mut Vec<u8>, text: &str) -> Result<(), CaseError> {
    let (repetition, rest) = text.split_once('}').ok_or(CaseError::Notation)?;
    let (digits, part) = repetition.split_once('*').ok_or(CaseError::Notation)?;
    let mut once = Vec::new(alloc);
    append_text(&mut once, part)?;
    append_times(alloc, bytes, &once, times(digits)?)?;
    append_text(bytes, rest)
}

/// The bytes that a text in the notation of cases gives. `;` gives a line feed, `\xHH` the byte with these two hex digits, and
/// `{COUNT*PART}` the bytes of PART, COUNT times, in which each `#` is the number of repetitions before, in decimal, from 0 on. All other
/// bytes are unchanged. PART may have `;` and `\xHH` but no repetition, since it ends at the first `}`.
///
/// `Notation` if the `}` or the `*` of a repetition is missing, if COUNT is no number of at most `MOST_TIMES`, or if two bytes can't be
/// split off after a `\x`: fewer are left before the next `\x`, the next brace of a repetition or the end, or they end within a character.
/// `Digits` if these two bytes are no hex digits; `Memory` if out of memory.
pub fn written(alloc: Global, text: &str) -> Result<Vec<u8>, CaseError> {
    let mut bytes = Vec::new(alloc);
    for (index, piece) in text.split('{').enumerate() {
        if index == 0 {
            append_text(&mut bytes, piece)?;
        } else {
            append_repeated(alloc, &mut bytes, piece)?;
        }
    }
    Ok(bytes)
}

/// The bytes as text; `NoText` if they are not UTF-8. Callers have the bytes of `written`, in which `\xHH` may give any byte, and need text
/// to parse; or they have what a tested command line has written (as `run_words` of `host`), and need text to print.
pub fn text_of(bytes: &[u8]) -> Result<&str, CaseError> {
    str::from_utf8(bytes).map_err(|_| CaseError::NoText)
}

/// The bytes of the hex digits that `text` gives in the notation of cases. In this notation (`written`), a repetition `{COUNT*PART}` gives
/// PART, COUNT times: so `{2*0a}` gives the digits `0a0a`, two bytes. An escape `\xHH` gives the byte with the hex digits HH: so `\x30`
/// gives the digit `0`. Spaces between the digits are left out. The error is `Notation` if a repetition is malformed or its COUNT is above
/// `MOST_TIMES`, or if an escape has fewer than two bytes for HH, or two that end within a character; and `Digits` if these two are no hex
/// digits. Else it is `NoText` if what `text` gives is not UTF-8; then `Digits` if one of its characters is neither a space nor a hex
/// digit, or if the number of digits is odd. Out of memory is `Digits` in the decoder of the digits (`hex::decode`), else `Memory`.
pub fn bytes_of(alloc: Global, text: &str) -> Result<Vec<u8>, CaseError> {
    let text = written(alloc, text)?;
    let digits = text_of(&text)?;
    let digits: String = digits.chars().filter(|c| *c != ' ').collect(alloc)?;
    let bytes = hex::decode(alloc, digits.as_str())?;
    Ok(bytes)
}

/// The bytes of a map's key or value, `size` bytes, from hex digits in the notation of cases (`bytes_of`): spaces between the digits are
/// left out, and a repetition `{COUNT*PART}`, or the byte of an escape `\xHH`, may give them. `Notation` if a repetition is malformed or
/// its COUNT is too great, or an escape has fewer than two bytes for HH, or two that end within a character; `NoText` if what `text` gives
/// is not UTF-8, which only an escape can cause; `Digits` if a character, also one of HH, is no hex digit, or the number of digits is odd;
/// then `Size` if there are not `size` bytes. Out of memory is `Digits` in the decoder of the digits (`hex::decode`), else `Memory`.
pub fn bytes_of_size(alloc: Global, text: &str, size: u32) -> Result<Vec<u8>, CaseError>
    ensures { IfOk result (λ bytes. length bytes.items ≡ size) }
{
    let bytes = bytes_of(alloc, text)?;
    if bytes.len() != size as usize {
        return Err(CaseError::Size);
    }
    Ok(bytes)
}

/// The hex digits of bytes, in lower case, in groups of `size` bytes with a blank between them; the last group has the bytes that are left,
/// which may be fewer. A `size` of 0, which `chunks` does not take, counts as 1. `AllocError`: out of memory.
pub fn hex_groups(alloc: Global, bytes: &[u8], size: usize) -> Result<String, AllocError> {
    let mut text = String::new(alloc);
    for group in bytes.chunks(size.max(1)) {
        if !text.is_empty() {
            text.push(' ')?;
        }
        text.push_str(&hex::encode(alloc, group)?)?;
    }
    Ok(text)
}

/// Appends `lines`, which are equal, to the text `shown`, with `;` for the line feed at their end, if they have one: one line as it is,
/// more as `{COUNT*PART}` with their number and one of them. The caller passes at least one; for none, `{0*}` is appended, which `written`
/// reads as no byte. `AllocError`: out of memory.
fn append_lines(alloc: Global, shown: &mut String, lines: &[&str]) -> Result<(), AllocError> {
    let line = lines.first().copied().unwrap_or("");
    let line = line.replace(alloc, '\n', ";")?;
    match lines.len() {
        1 => shown.push_str(line.as_str()),
        times => write!(shown, "{{{times}*{line}}}"),
    }
}

/// A text on one line, for the outcome of a case: `;` for each line feed, and equal lines, one after another, as a repetition
/// `{COUNT*PART}`. A `;`, `\`, `#` or brace that the text itself has is not escaped, so two texts may be shown alike. `AllocError`: out of
/// memory.
pub fn shown(alloc: Global, text: &str) -> Result<String, AllocError> {
    let lines: Vec<&str> = text.split_inclusive('\n').collect(alloc)?;
    let mut shown = String::new(alloc);
    for equal in lines.chunk_by(|a, b| a == b) {
        append_lines(alloc, &mut shown, equal)?;
    }
    Ok(shown)
}

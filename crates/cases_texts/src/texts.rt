//! Cases whose text is a program, or hex lines.

use crate::bytes::grouped;
use bpf_text::{assemble, disassemble, from_hex_lines, hex_lines};
use cases::{CaseError, shown, text_of, written};
use insn_codec::{Program, write_program};
use std::alloc::Global;

/// Assembles, for the lines `asm` and `round`, the program whose text `text` represents in the notation of cases (`written`). There `;` is
/// a line feed, `\xHH` the byte with these two hex digits, and `{COUNT*PART}` a repetition. `Notation` if the `*` or the `}` of a
/// repetition is missing, if its COUNT is no number or above `MOST_TIMES` of `cases`, or if a `\x` has no two bytes HH: only one or none
/// comes before the next `\x` or `{`, the `}` of the repetition that it is in, or the end, or the two end inside a character of several
/// bytes. `Digits` if the two bytes are no hex digits; `NoText` if the bytes of the program's text are not UTF-8. `Text` if the text does
/// not assemble, also if memory runs out while it is assembled; `Memory` if memory runs out before.
fn program_of(alloc: Global, text: &str) -> Result<Program, CaseError> {
    let text = written(alloc, text)?;
    let program = assemble(alloc, text_of(&text)?)?;
    Ok(program)
}

/// The outcome of a line `asm`. `text`, the line after this word, gives a program's text in the notation of cases. The program is
/// assembled, and the result is its hex lines, one for each slot, on one line: `;` for each line feed, and equal lines, one after another,
/// as a repetition `{COUNT*PART}` (`shown`). `Notation` if a repetition in `text` is wrong, or the two bytes HH of a `\xHH` are missing or
/// end inside a character of several bytes; `Digits` if these two are no hex digits; `NoText` if the bytes of the program's text are not
/// UTF-8. `Text` if this text does not assemble, also if the assembler is out of memory; `Memory` if memory runs out elsewhere.
pub fn assembled(alloc: Global, text: &str) -> Result<String, CaseError> {
    let program = program_of(alloc, text)?;
    let lines = hex_lines(alloc, &program)?;
    let answer = shown(alloc, lines.as_str())?;
    Ok(answer)
}

/// The outcome of a line `round`: `text`, the line after this word, is a program's text in the notation of cases. The program is assembled
/// and disassembled, and the text of the disassembler is assembled again. If this gives the same slots, the result is that text on one
/// line: `;` for each line feed, and a repetition for equal lines (`shown`). If it gives other slots, the result is `another program`.
/// `Notation` or `Digits` if `text` is not in the notation, `NoText` if its bytes are not UTF-8, `Text` if one of the two texts does not
/// assemble. Out of memory is `Text` in the assembler, else `Memory`.
pub fn printed(alloc: Global, text: &str) -> Result<String, CaseError> {
    let program = program_of(alloc, text)?;
    let text = disassemble(alloc, &program)?;
    let again = assemble(alloc, text.as_str())?;
    if write_program(alloc, &again)? != write_program(alloc, &program)? {
        return Ok("another program".to_string(alloc)?);
    }
    let answer = shown(alloc, text.as_str())?;
    Ok(answer)
}

/// The outcome of a line `hex`. `text`, what follows this word, gives hex lines in the notation of cases. A hex line is the sixteen hex
/// digits of one slot, or empty, and may have blanks at its ends. The result is the bytes of these slots as hex digits, with a blank after
/// each slot but the last. `Notation` if a repetition in `text` is wrong, or the two bytes HH of a `\xHH` are missing or end inside a
/// character of several bytes; `Digits` if these two are no hex digits (both of `written`). `NoText` if the hex lines are not UTF-8; `Text`
/// if one of them has a fault, there is no slot, or `from_hex_lines` is out of memory; `Memory` if out of memory otherwise.
pub fn read_hex_lines(alloc: Global, text: &str) -> Result<String, CaseError> {
    let text = written(alloc, text)?;
    let bytes = from_hex_lines(alloc, text_of(&text)?)?;
    let answer = grouped(alloc, &bytes)?;
    Ok(answer)
}

//! Playing the lines of standard input, one after another.

use crate::case_error::CaseError;
use crate::lines::is_remark;
use std::io;

/// Plays the lines of a file of cases in order. Its state is what earlier lines have made.
pub trait Player {
    /// Plays a line: does what its first word says with the rest. Returns the lines of its outcome as one text, which is empty if it has
    /// none. The error is what is wrong with the line, such as a missing number, or with what it is about, such as a map that is not live
    /// or a program that the verifier rejects; or it is out of memory. `play_lines` calls this for each line that is no remark (empty, or
    /// begun with `#`), and writes the lines or the error below it.
    fn play(&mut self, line: &str) -> Result<String, CaseError>;
}

/// Writes the lines of `answer`, the outcome of a line that was played, to standard output, each indented by two blanks. `rt` is the
/// runtime that `main` was given. Returns an error only if standard output fails.
fn print_indented<R: Print>(rt: &R, answer: &str) -> io::Result<()> {
    for line in answer.lines() {
        println!(rt; "  {line}")?;
    }
    Ok(())
}

/// Plays the lines of standard input: writes each line, and below it, indented, its outcome or its error, which `player` returns. A remark,
/// which is an empty line or one that begins with `#`, is written, but not played. After the error of a line the next line is played.
/// Returns an error only if standard input or output fails: then no further line is played. `rt`, the runtime that `main` was given, has
/// the standard streams and the allocator.
pub fn play_lines<R: AllocGlobal + Input + Print, P: Player>(
    rt: &R,
    player: &mut P,
) -> io::Result<()> {
    for line in rt.lines(rt.alloc()) {
        let line = line?;
        let line = line.as_str();
        println!(rt; "{line}")?;
        if is_remark(line) {
            continue;
        }
        match player.play(line) {
            Ok(answer) => print_indented(rt, answer.as_str())?,
            Err(error) => println!(rt; "  {error}")?,
        }
    }
    Ok(())
}

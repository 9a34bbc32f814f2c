//! How a program ended.

use crate::case_error::CaseError;
use crate::notation::text_of;
use std::alloc::{AllocError, Global};
use std::fmt::Write;

/// Appends a line feed and then lines that are equal: one line unchanged, more as the repetition `{COUNT*LINE;}` of the notation of cases,
/// in which `;` is a line feed, so that the outcome of a case is short. No character of a line is escaped: the text is only printed, and
/// not parsed. There is at least one line, as the caller's `chunk_by` gives no empty slice; without one, `{0*;}` would be appended.
/// `AllocError`: out of memory.
fn append_equal(text: &mut String, lines: &[&str]) -> Result<(), AllocError> {
    let line = lines.first().copied().unwrap_or("");
    match lines.len() {
        1 => write!(text, "\n{line}"),
        times => write!(text, "\n{{{times}*{line};}}"),
    }
}

/// Appends to `text` the lines of `output`, each after a line feed. `output` is what a tested command line, such as that of the host, has
/// written, or hex digits of this. Equal lines that follow each other become one line, a repetition in the notation of cases, so that the
/// outcome of a case is short. If the last line of `output` has no line feed, appends a line that states this. `AllocError`: out of memory.
fn append_output(alloc: Global, text: &mut String, output: &str) -> Result<(), AllocError> {
    let lines: Vec<&str> = output.lines().collect(alloc)?;
    for equal in lines.chunk_by(|a, b| a == b) {
        append_equal(text, equal)?;
    }
    if !output.is_empty() && !output.ends_with('\n') {
        text.push_str("\n(no line feed at the end)")?;
    }
    Ok(())
}

/// The text of how a tested command line ended (`run_words` of `host` or `run_log_words` of `log_text`), which is printed below the case:
/// `status N` with its exit status, then the lines of `output`, then each line of `faults` with `fault: ` before it. Equal lines of
/// `output` that follow each other become one repetition, `{COUNT*LINE;}`, and if the last line of `output` has no line feed, one more line
/// states this. `output` is what the command line wrote, or hex digits of this; `faults` is its fault line, or empty. `NoText` if `faults`
/// are not UTF-8, `Memory` if out of memory.
pub fn outcome(
    alloc: Global,
    status: u8,
    output: &str,
    faults: &[u8],
) -> Result<String, CaseError> {
    let faults = text_of(faults)?;
    let mut text = format!(in alloc; "status {status}")?;
    append_output(alloc, &mut text, output)?;
    for fault in faults.lines() {
        write!(text, "\nfault: {fault}")?;
    }
    Ok(text)
}

//! Cases of the program's arguments.

use cases::{CaseError, input_of, outcome, text_of, written};
use host::{HashSeed, read_shape, run_words};
use std::alloc::Global;

/// Plays a line `program`: calls `run_words`, the command line of `host`, and returns as text how it ended: the exit status, the lines of
/// its output, and its fault line (`outcome`). `case` is the line after its first word: the arguments, separated by blanks, then `<` and
/// the input, a text in the notation of cases (`written`). The seed of the hash maps is always the same. `Notation` if there is no `<`, or
/// the input breaks the notation; `Digits` if two bytes after a `\x` of the input are no hex digits; `NoText` if what `run_words` writes is
/// not UTF-8; `Memory` if out of memory.
pub fn program_ended(alloc: Global, case: &str) -> Result<String, CaseError> {
    let (arguments, text) = input_of(case)?;
    let arguments: Vec<&str> = arguments.split_whitespace().collect(alloc)?;
    let input = written(alloc, text)?;
    let mut output = Vec::new(alloc);
    let mut faults = Vec::new(alloc);
    let status = run_words(
        alloc,
        Some(HashSeed::new(1, 2)),
        &arguments,
        input.as_slice(),
        &mut output,
        &mut faults,
    );
    outcome(alloc, status, text_of(&output)?, &faults)
}

/// Plays a line `map`: reads `argument` as the program `bpfhost` reads the argument for a map (`read_shape` of `host`), a descriptor,
/// `array` or `hash`, the sizes of a key and of a value, and `max_entries`, with colons between them. Returns the descriptor and the shape
/// as Rust prints them for debugging. `Map` if `read_shape` rejects the argument, for its form or for its numbers; `Memory` if out of
/// memory.
pub fn printed_map(alloc: Global, argument: &str) -> Result<String, CaseError> {
    let map = read_shape(argument)?;
    Ok(format!(in alloc; "{map:?}")?)
}

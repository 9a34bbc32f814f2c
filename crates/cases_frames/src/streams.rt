//! Whole streams, and runs of the program.

use crate::player::new_host;
use cases::{CaseError, GROUP, bytes_of, first_word, hex_groups, input_of, outcome};
use host::{
    Counted, Failure, HashSeed, Host, MOST_FRAMES, ServeFault, Sink, Source, run_words, serve,
};
use std::alloc::{AllocError, Global};

/// The size in bytes of the buffer for one call of a reader: small, so that a short case has more bytes than it takes.
const ROOM: usize = 4;

/// How a stream ended, as text. Without a fault it is `ok` and the number of frames that had a reply, for example `ok 3`. With one it is
/// the fault line of `bpfhost` (a `Failure` as text), a colon and this number, as in `write fault: 3 answered`. `AllocError`: out of
/// memory.
fn end_of(alloc: Global, end: Result<u32, ServeFault>) -> Result<String, AllocError> {
    match end {
        Ok(frames) => format!(in alloc; "ok {frames}"),
        Err(fault) => {
            let frames = fault.frames;
            let failure = Failure::from(fault);
            format!(in alloc; "{failure}: {frames} answered")
        }
    }
}

/// How a stream ended, as text (`ok` or the fault line, with the number of frames that had a reply), and in the next line the hex digits of
/// `output`, the bytes that were written, with a blank between groups of `GROUP` bytes. `end` is the result of `serve`: the number of
/// frames that had a reply, or the fault. `AllocError`: out of memory for the text.
fn ended(alloc: Global, end: Result<u32, ServeFault>, output: &[u8]) -> Result<String, AllocError> {
    let end = end_of(alloc, end)?;
    let output = hex_groups(alloc, output, GROUP)?;
    format!(in alloc; "{end}\n{output}")
}

/// Serves the stream `input` on `host`; `limit` has, in decimal digits, the number of frames that are served at most. `Counted` makes the
/// slice `input` a `Source` and a vector a `Sink`, as `serve` takes them. The result is a text of two lines. The first has how `serve`
/// ended: `ok N`, or the fault line and `: N answered`, with the number N of frames that had a reply. The second has the hex digits of what
/// `serve` wrote. So a fault of `serve` is no error of this function. `Number` if `limit` is no number of 32 bits, `OutOfRange` if it is
/// above `MOST_FRAMES`, the greatest that `serve` allows, `Memory` if out of memory for the text.
fn served(alloc: Global, host: &mut Host, limit: &str, input: &[u8]) -> Result<String, CaseError> {
    let limit: u32 = limit.parse()?;
    if limit > MOST_FRAMES {
        return Err(CaseError::OutOfRange);
    }
    let mut reader = Counted::new(input);
    let mut writer = Counted::new(Vec::new(alloc));
    let end = serve(alloc, host, &mut reader, &mut writer, limit);
    Ok(ended(alloc, end, &writer.into_inner())?)
}

/// Serves a stream in a new host. The words of `line` are the number of tenants, the most frames that are served, and the stream's bytes as
/// hex digits. Returns how `serve` ended, `ok` or the fault line, with the number of frames that had a reply, and in the next line the hex
/// digits of what `serve` wrote. A fault of `serve` is no error. `Number` if the first word is no number of 64 bits or the second none of
/// 32, `OutOfRange` if the first is not 1 to `MOST_TENANTS` or the second is above `MOST_FRAMES`, `Notation`, `NoText` or `Digits` if the
/// hex digits are wrong (`bytes_of`). If out of memory for the host, the stream's bytes or the text, `Memory`, or `Digits` from the decoder
/// of the digits.
pub fn stream(alloc: Global, line: &str) -> Result<String, CaseError> {
    let (tenants, rest) = first_word(line);
    let (limit, digits) = first_word(rest);
    let mut host = new_host(alloc, tenants)?;
    let input = bytes_of(alloc, digits)?;
    served(alloc, &mut host, limit, &input)
}

/// Decodes the bytes of a stream from hex digits, and returns the first `count` of them, or all if there are fewer: the stream that `cut`
/// serves. `Notation`, `NoText` or `Digits` if `digits` are not hex digits in the notation of cases (`bytes_of`), then `Number` if `count`
/// is no number in decimal digits that fits a `usize`. Out of memory is `Digits` in the decoder of the digits, else `Memory`.
fn front(alloc: Global, count: &str, digits: &str) -> Result<Vec<u8>, CaseError> {
    let mut input = bytes_of(alloc, digits)?;
    input.truncate(count.parse()?);
    Ok(input)
}

/// Serves the front of a stream in a new host, so that a case can end a stream at any byte. The words of `line` are the number of tenants,
/// the most frames that are served, and how many bytes the front has, in decimal digits, and then the bytes of the whole stream as hex
/// digits; if there are fewer bytes, all are served. Returns how `serve` ended, and in the next line the hex digits of what it wrote
/// (`served`). `Number` if one of the first three words is no number, `OutOfRange` if the tenants are not from 1 to `MOST_TENANTS` or the
/// frames above `MOST_FRAMES`, `Notation`, `NoText` or `Digits` if the hex digits are wrong (`bytes_of`). If out of memory, `Memory`, or
/// `Digits` from the decoder of the digits.
pub fn cut(alloc: Global, line: &str) -> Result<String, CaseError> {
    let (tenants, rest) = first_word(line);
    let (limit, rest) = first_word(rest);
    let (count, digits) = first_word(rest);
    let mut host = new_host(alloc, tenants)?;
    let input = front(alloc, count, digits)?;
    served(alloc, &mut host, limit, &input)
}

/// A case of `Counted`, which has to pass each call on to the reader or writer that it wraps. Reads up to `ROOM` of the bytes of `digits`
/// by one call, writes the bytes read by one call, and flushes. Returns the text `WRITTEN of READ [HEX]`: how many bytes the writer took,
/// how many the reader gave, and all bytes that the writer has, as hex digits. If a call fails, the result is no error, but the text
/// `no read`, `no write` or `no flush`. Here only a write that is out of memory can fail; `failing_io` tests how failures are counted.
/// `Notation`, `NoText` or `Digits` if `digits` are not hex digits in the notation of cases (`bytes_of`). Out of memory elsewhere is
/// `Digits` in the decoder of the digits, else `Memory`.
pub fn relay(alloc: Global, digits: &str) -> Result<String, CaseError> {
    let input = bytes_of(alloc, digits)?;
    let mut reader = Counted::new(input.as_slice());
    let mut writer = Counted::new(Vec::new(alloc));
    let mut buffer = [0; ROOM];
    let Ok(count) = reader.read(&mut buffer) else {
        return Ok("no read".to_string(alloc)?);
    };
    let Ok(written) = writer.write(&buffer[..count]) else {
        return Ok("no write".to_string(alloc)?);
    };
    if writer.flush().is_err() {
        return Ok("no flush".to_string(alloc)?);
    }
    let output = hex_groups(alloc, &writer.into_inner(), GROUP)?;
    Ok(format!(in alloc; "{written} of {count} [{output}]")?)
}

/// The argument that a word of a line represents: the empty one for `""`, since no word between blanks is empty, else the word itself.
fn word_of(word: &str) -> &str {
    if word == "\"\"" { "" } else { word }
}

/// How a call of `run_words`, the command line of `bpfhost`, ends, as text: a line `status N` with the exit status, the bytes of its output
/// as hex digits in groups of `GROUP` bytes, and its fault line, if it wrote one (`outcome`). `words` are the arguments after the name of
/// the program, `input` is its standard input. The seed of hash maps, which only `serve` needs, is a constant. `NoText` if the fault line
/// is not UTF-8, `Memory` if out of memory.
fn ran(alloc: Global, words: &[&str], input: &[u8]) -> Result<String, CaseError> {
    let mut output = Vec::new(alloc);
    let mut faults = Vec::new(alloc);
    let status = run_words(
        alloc,
        Some(HashSeed::new(1, 2)),
        words,
        input,
        &mut output,
        &mut faults,
    );
    let mut output = hex_groups(alloc, &output, GROUP)?;
    if !output.is_empty() {
        output.push('\n')?;
    }
    outcome(alloc, status, &output, &faults)
}

/// Plays a line `program`: calls `run_words`, the host's command line, and returns as text how it ended: the exit status, the output in hex
/// digits, and the fault line, if there is one (`ran`). `line` is the line of the case after its first word: the arguments, separated by
/// blanks, then `<` and the input as hex digits in the notation of cases, in which `{2*0a}` gives `0a0a` (`bytes_of`). The argument `""` is
/// empty. `Notation` if there is no `<`, or if the input has a malformed repetition or no two bytes after a `\x`. `NoText` if what the
/// input gives is not UTF-8, or if the fault line is not. `Digits` if the input gives a character that is neither a hex digit nor a space,
/// or an odd number of digits, or if the two bytes after a `\x` are no hex digits. If out of memory, `Memory`, or `Digits` from the decoder
/// of the digits.
pub fn program(alloc: Global, line: &str) -> Result<String, CaseError> {
    let (words, digits) = input_of(line)?;
    let words: Vec<&str> = words.split_whitespace().map(word_of).collect(alloc)?;
    let input = bytes_of(alloc, digits)?;
    ran(alloc, &words, &input)
}

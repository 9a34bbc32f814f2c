//! The subcommands `asm` and `dis`: a text in, a text out. Contracts require that fewer than 2^64 - 1 calls of a stream have failed
//! before, since they are counted in 64 bits.
//!
//! The contract of a function on an input has four parts. A result is one for this input (`made`, `read`); if there is one for the input,
//! it is returned (`only`); a failure is one for this input (`fault`); if there is one for the input, the call fails with it (`faulty`).
//! A call may always fail out of memory instead.

ghost use Rattle.std.specs.Prelude.{◌≡◌, ◌<◌, ◌-◌, ◌^◌, List, ℕ, length, IfErr, IfOk, IsUtf8, MatchResult, OnOk};
ghost use Rattle.std.specs.String.{string_bytes};
ghost use Rattle.host.specs.inside.program.Outcomes.{Fails, FailsOnly, Gives};
ghost use Rattle.host.specs.program.Texts.{IsProgramText, IsSlotText};
ghost use Rattle.host.specs.inside.program.Rewriting.{streams, WritesWholeOutput, IsAssembly, IsDisassembly};
ghost use Rattle.host.specs.inside.program.Rewriting.{IsNoProgramText, IsNoText, IsUnreadable, ReadsWholeInput};
ghost use Rattle.host.specs.inside.program.Rewriting.{IsInputRefused, IsRewritten, HasNoInput, StopsRewriting};
ghost use Rattle.host.specs.declared.program.failure.Failure.{Failure as AnyFailure};
ghost use Rattle.insn_set.specs.declared.insn.Insn.{Insn as AnyInsn};

use crate::program::failure::Failure;
use bpf_text::{assemble, disassemble, from_hex_lines, hex_lines};
use host_core::{Sink, Source, fill, write_whole};
use insn_codec::{Program, read_program};
use std::alloc::{AllocError, Global};

/// The longest input of `asm`, `dis` and `verify` in bytes, a limit of this project. The hex lines of the longest program, 4,096 slots,
/// take 69,632.
pub(crate) const LONGEST_INPUT: usize = 1_048_576;

/// Which of `asm` and `dis` a run does.
#[derive(Clone, Copy, Debug, PartialEq, Eq)]
pub(crate) enum TextTask {
    /// A program's text to its hex lines.
    Assemble,
    /// A program's hex lines to its text.
    Disassemble,
}

/// The bytes as text, unchanged, if they are UTF-8. If not, the failure is fault 1 (`Syntax` of `bpf_text`) of line 0, which means the
/// whole text (`IsNoText`).
pub(crate) fn text_in(bytes: &[u8]) -> Result<&str, Failure>
    ensures { MatchResult result (λ text. (text.now ≡ bytes.now) × IsUtf8 bytes.now)
        (IsNoText bytes.now) }
{
    match str::from_utf8(bytes) {
        Ok(text) => Ok(text),
        Err(_) => Err(Failure::Line { line: 0, kind: 1 }),
    }
}

/// The output of `asm`: the hex lines of the program whose text is the input. `Line` if the input is not UTF-8, a line has a fault or there
/// is no instruction; `Memory` if out of memory. Lines that are returned are those of the input's program (`made`); if the input is the
/// text of a program, its lines are returned (`only`), unless out of memory (`Gives`). A failure other than `Memory` is the one for which
/// `asm` rejects this input (`fault`); if `asm` rejects the input, the call fails, with that failure or with `Memory` (`faulty`).
fn assembled(alloc: Global, input: &[u8]) -> Result<String, Failure>
    ensures made { IfOk result (λ lines. IsAssembly input.now (string_bytes lines)) }
    ensures only { (output : List ℕ) → IsAssembly input.now output
        → Gives string_bytes result output }
    ensures fault { FailsOnly result (IsInputRefused TextTask.Assemble input.now) }
    ensures faulty { (refusal : AnyFailure) → IsInputRefused TextTask.Assemble input.now refusal
        → Fails result (λ failure. failure ≡ refusal) }
{
    let program = assemble(alloc, text_in(input)?)?;
    let lines = hex_lines(alloc, &program)?;
    Ok(lines)
}

/// The bytes of the slots on the hex lines of the input, in order, eight for each slot. There is at least one; whether the slots are a
/// program is not checked. `dis`, `verify` and `verifier_log` read hex lines by this function. If the input is rejected (`IsUnreadable`),
/// the failure is `Line`, with the line and its fault: a line has a fault, or, at line 0, the input is not UTF-8 or no line has a slot.
/// `Memory` if out of memory. Returned slots are those of the input (`read`), any failure but `Memory` is that of the input (`fault`). If
/// the input has slots, they are returned (`only`); if it is rejected, the call fails with `Line` (`faulty`), unless out of memory.
pub(crate) fn slots_on(alloc: Global, input: &[u8]) -> Result<Vec<u8>, Failure>
    ensures read { IfOk result (λ slots. IsSlotText input.now slots.items) }
    ensures only { (slots : List ℕ) → IsSlotText input.now slots
        → Gives (λ seen. seen.items) result slots }
    ensures fault { FailsOnly result (IsUnreadable input.now) }
    ensures faulty { (refusal : AnyFailure) → IsUnreadable input.now refusal
        → Fails result (λ failure. failure ≡ refusal) }
{
    let slots = from_hex_lines(alloc, text_in(input)?)?;
    Ok(slots)
}

/// Reads the program that `dis` prints, from the hex lines of its slots. A program that is returned is the one on these lines (`read`); if
/// the lines have a program, it is returned unless out of memory (`only`). The failures: `Line` if the input is not UTF-8, a line has a
/// fault or no line has a slot; `Slot` if the slots are no program; `Memory` if out of memory. A failure other than `Memory` is that of
/// this input (`fault`); if the input has one, the call fails with it or with `Memory` (`faulty`).
pub(crate) fn program_on(alloc: Global, input: &[u8]) -> Result<Program, Failure>
    ensures read { IfOk result (λ program. IsProgramText input.now program) }
    ensures only { (insns : List AnyInsn) → IsProgramText input.now insns
        → Gives (λ program. program) result insns }
    ensures fault { FailsOnly result (IsNoProgramText input.now) }
    ensures faulty { (refusal : AnyFailure) → IsNoProgramText input.now refusal
        → Fails result (λ failure. failure ≡ refusal) }
{
    let slots = slots_on(alloc, input)?;
    let program = read_program(alloc, &slots)?;
    Ok(program)
}

/// The output of `dis`: the text of the program whose hex lines are the input. A returned text is this one (`made`); if the input has one,
/// it is returned, unless out of memory (`only`). The failures: `Line` if the input is not UTF-8, a line has a fault or no line has a slot;
/// `Slot` if the slots are no program; `Memory` if out of memory. A failure other than `Memory` is that of this input (`fault`); if the
/// input has one, the call fails with it or with `Memory` (`faulty`).
fn disassembled(alloc: Global, input: &[u8]) -> Result<String, Failure>
    ensures made { IfOk result (λ text. IsDisassembly input.now (string_bytes text)) }
    ensures only { (output : List ℕ) → IsDisassembly input.now output
        → Gives string_bytes result output }
    ensures fault { FailsOnly result (IsInputRefused TextTask.Disassemble input.now) }
    ensures faulty { (refusal : AnyFailure) → IsInputRefused TextTask.Disassemble input.now refusal
        → Fails result (λ failure. failure ≡ refusal) }
{
    let program = program_on(alloc, input)?;
    let text = disassemble(alloc, &program)?;
    Ok(text)
}

/// The output of `asm` (`Assemble`), a program's hex lines from its text, or of `dis` (`Disassemble`), its text from its hex lines. `Line`
/// if the input is not UTF-8, a line has a fault, or there is no instruction (`asm`) or slot (`dis`); `Slot` if the slots (`dis`) are no
/// program; `Memory` if out of memory. A returned text is the output that `IsRewritten` gives this input (`made`); if it gives one, the
/// call returns it (`only`). A failure is one that `IsInputRefused` gives this input (`fault`); if it gives one, the call fails with it
/// (`faulty`). The last three clauses allow `Memory` instead.
fn rewritten(alloc: Global, task: TextTask, input: &[u8]) -> Result<String, Failure>
    ensures made { IfOk result (λ output. IsRewritten task input.now (string_bytes output)) }
    ensures only { (output : List ℕ) → IsRewritten task input.now output
        → Gives string_bytes result output }
    ensures fault { FailsOnly result (IsInputRefused task input.now) }
    ensures faulty { (refusal : AnyFailure) → IsInputRefused task input.now refusal
        → Fails result (λ failure. failure ≡ refusal) }
{
    match task {
        TextTask::Assemble => assembled(alloc, input),
        TextTask::Disassemble => disassembled(alloc, input),
    }
}

/// A buffer of `size` zero bytes, into which `read_input` reads the input. The contract has only the number of bytes: `read_input` keeps
/// only the bytes that it has read into the buffer, so nothing depends on the zeros. `AllocError`: out of memory.
fn buffer(alloc: Global, size: usize) -> Result<Vec<u8>, AllocError>
    ensures { IfOk result (λ bytes. length bytes.items ≡ size) }
{
    vec![in alloc; 0; size]
}

/// Reads the whole input, at most `LONGEST_INPUT` bytes (`input`); then no call of the reader has failed (`sound`). Otherwise the failure
/// is one of three (`fault`): `TooLong` if the input has more bytes, of which `LONGEST_INPUT + 1` are then read; `Read` if a call of the
/// reader failed, after at most `LONGEST_INPUT` bytes; `Memory` if out of memory, before anything is read. `remaining` has the bytes that
/// are still to be read, if they are known, and `failures` is how many calls of the reader have failed: fewer than 2^64 - 1 before, since
/// they are counted in 64 bits.
pub(crate) fn read_input<S: Source>(alloc: Global, reader: &mut S) -> Result<Vec<u8>, Failure>
    requires { S.failures reader.old < 2 ^ 64 - 1 }
    ensures input { IfOk result (λ input.
        ReadsWholeInput (S.remaining reader.old) (S.remaining reader.new) input.items) }
    ensures sound { OnOk result (S.failures reader.new ≡ S.failures reader.old) }
    ensures fault { IfErr result (λ failure.
        HasNoInput failure (S.remaining reader.old) (S.remaining reader.new)
        (S.failures reader.old) (S.failures reader.new)) }
{
    // One byte more, by which a longer input is noticed.
    let mut input = buffer(alloc, LONGEST_INPUT + 1)?;
    // `fill` fails only if a call of the reader does.
    let Ok(count) = fill(reader, &mut input) else {
        return Err(Failure::Read);
    };
    if count > LONGEST_INPUT {
        return Err(Failure::TooLong);
    }
    input.truncate(count);
    Ok(input)
}

/// Reads the input, and writes the whole output (`done`) that `asm` (`Assemble`) or `dis` (`Disassemble`) makes of it (`IsRewritten`). The
/// failures (`fault`): `TooLong` if the input has more than `LONGEST_INPUT` bytes; `Read` if a call of the reader failed; `Line`, or for
/// `dis` also `Slot`, if the input is rejected (`IsInputRefused`); `Memory` if out of memory. After each of these, nothing is written.
/// `Write` if a call of the writer failed: then a prefix of the output may be written. `streams` has the bytes of both streams, and the
/// number of failed calls of each. `Counted` counts these in 64 bits, so fewer than 2^64 - 1 may have failed before (`reads`, `writes`).
pub(crate) fn rewrite<S: Source, O: Sink>(
    alloc: Global,
    task: TextTask,
    reader: &mut S,
    writer: &mut O,
) -> Result<(), Failure>
    requires reads { S.failures reader.old < 2 ^ 64 - 1 }
    requires writes { O.failures writer.old < 2 ^ 64 - 1 }
    ensures done { OnOk result (WritesWholeOutput (IsRewritten task)
        (streams S.remaining S.failures O.contents O.failures reader.old writer.old)
        (streams S.remaining S.failures O.contents O.failures reader.new writer.new)) }
    ensures fault { IfErr result (λ failure. StopsRewriting (IsRewritten task) (IsInputRefused task)
        (streams S.remaining S.failures O.contents O.failures reader.old writer.old)
        (streams S.remaining S.failures O.contents O.failures reader.new writer.new)
        failure) }
{
    let input = read_input(alloc, reader)?;
    let output = rewritten(alloc, task, &input)?;
    match write_whole(writer, output.as_bytes()) {
        Ok(()) => Ok(()),
        Err(_) => Err(Failure::Write),
    }
}

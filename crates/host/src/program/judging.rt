//! The subcommand `verify`: hex lines in, the verdict on their program out. Contracts require that fewer than 2^64 - 1 calls of a stream
//! have failed before, since they are counted in 64 bits.
//!
//! The contract of `refusal_of_input` has four parts. The result is the judgement of the input (`judged`); if it has one, this is returned
//! (`only`); a failure is one for this input (`fault`); if there is one for the input, the call fails with it (`faulty`). A call may always
//! fail out of memory instead.

ghost use Rattle.std.specs.Prelude.{◌≡◌, ◌∷◌, ◌++◌, ◌<◌, ◌-◌, ◌^◌, [], Option, IfErr, IfOk, string_bytes};
ghost use Rattle.host.specs.program.Judging.{IsJudgement};
ghost use Rattle.host.specs.inside.program.Judgements.{judgement_status, judgement_text, IsLineOfAnyVerdict, IsJudgementLine};
ghost use Rattle.host.specs.inside.program.Outcomes.{Fails, FailsOnly, Gives};
ghost use Rattle.host.specs.inside.program.Rewriting.{streams, IsUnreadable, WritesWholeOutput, StopsRewriting};
ghost use Rattle.host.specs.declared.program.failure.Failure.{Failure as AnyFailure};
ghost use Rattle.verifier.specs.declared.refusal.Refusal.{Refusal as AnyRefusal};

use crate::program::failure::Failure;
use crate::program::texts::{read_input, slots_on};
use host_core::{Sink, Source, write_whole};
use std::alloc::{AllocError, Global};
use tagged_model::Named;
use verifier::{Refusal, WorkingMemory, laws, verify_slots};

/// Returns why the slots on the input's hex lines are rejected, if the descriptors of `maps` are open; `None` if their program is accepted.
/// Fails with `Line` if the input is not UTF-8, a line has a fault or no line has a slot (`IsUnreadable`); with `Memory` if out of memory.
/// The result is the verdict on the input's slots, as defined by `IsJudgement` (`judged`). If the input has a verdict, the call returns it
/// (`only`, `Gives`). If the call fails, the failure is that of this input (`fault`). If the input has a failure, the call fails with it
/// (`faulty`). By the last three clauses the call may fail with `Memory` instead.
fn refusal_of_input(alloc: Global, maps: &[Named], input: &[u8]) -> Result<Option<Refusal>, Failure>
    ensures judged { IfOk result (λ refusal. IsJudgement maps.now input.now refusal) }
    ensures only { (refusal : Option AnyRefusal) → IsJudgement maps.now input.now refusal
        → Gives (λ seen. seen) result refusal }
    ensures fault { FailsOnly result (IsUnreadable input.now) }
    ensures faulty { (failure : AnyFailure) → IsUnreadable input.now failure
        → Fails result (λ seen. seen ≡ failure) }
{
    // A law, which does nothing when it runs: slots have at most one judgement. So the one found is that of `only`.
    laws::one_judgement();
    let slots = slots_on(alloc, input)?;
    match verify_slots(alloc, &slots, maps, &mut WorkingMemory::new(alloc))? {
        Ok(_) => Ok(None),
        Err(refusal) => Ok(Some(refusal)),
    }
}

/// The line that `verify` writes for a verdict: `accepted` if there is no refusal (`None`), else the refusal's text, `refused: slot S
/// reason R`. S is the first slot of the instruction at fault, if there is one (`slot` of `Refusal`). R is the number of its cause: below
/// 100 for a rule that the program breaks, above 100 for slots that are no program. The line ends with a line feed, the byte 10;
/// `judgement_text` is the line without it. `AllocError`: out of memory.
fn verdict_line(alloc: Global, refusal: Option<Refusal>) -> Result<String, AllocError>
    ensures { IfOk result (λ line. string_bytes line ≡ judgement_text refusal ++ 10 ∷ []) }
{
    match refusal {
        None => String::from_str(alloc, "accepted\n"),
        Some(refusal) => format!(in alloc; "{refusal}\n"),
    }
}

/// The exit status of `verify` after a verdict is written: 0 if the program is accepted (`refusal` is `None`), 1 if the slots are rejected.
pub(crate) fn verdict_status(refusal: Option<Refusal>) -> u8
    ensures { result ≡ judgement_status refusal }
{
    match refusal {
        None => 0,
        Some(_) => 1,
    }
}

/// Reads the input, verifies the slots on its hex lines, and writes a line with the verdict. `maps` are the descriptors that count as open,
/// with their maps. Returns why the slots are rejected; `None` if their program is accepted. `done`: the input was read to its end, the
/// line of this verdict is written whole, and no call failed. `streams` has the bytes left to read and those written, if they are known,
/// and how many calls of the reader and of the writer have failed. Fewer than 2^64 - 1 calls of each have failed before (`reads`,
/// `writes`), so that the count does not overflow. `fault` has the failures. `TooLong` if the input has more than `LONGEST_INPUT` bytes,
/// `Read` if a call of the reader failed, `Line` if the input is not UTF-8, a line has a fault or no line has a slot (`IsUnreadable`),
/// `Memory` if out of memory; then nothing is written. `Write` if a call of the writer failed; then a prefix of the line of a verdict on
/// this input (`IsLineOfAnyVerdict`) may be written.
pub(crate) fn judge<S: Source, O: Sink>(
    alloc: Global,
    maps: &[Named],
    reader: &mut S,
    writer: &mut O,
) -> Result<Option<Refusal>, Failure>
    requires reads { S.failures reader.old < 2 ^ 64 - 1 }
    requires writes { O.failures writer.old < 2 ^ 64 - 1 }
    ensures done { IfOk result (λ refusal. WritesWholeOutput (IsJudgementLine maps.now refusal)
        (streams S.remaining S.failures O.contents O.failures reader.old writer.old)
        (streams S.remaining S.failures O.contents O.failures reader.new writer.new)) }
    ensures fault { IfErr result (λ failure.
        StopsRewriting (IsLineOfAnyVerdict maps.now) IsUnreadable
        (streams S.remaining S.failures O.contents O.failures reader.old writer.old)
        (streams S.remaining S.failures O.contents O.failures reader.new writer.new)
        failure) }
{
    let input = read_input(alloc, reader)?;
    let refusal = refusal_of_input(alloc, maps, &input)?;
    let line = verdict_line(alloc, refusal)?;
    match write_whole(writer, line.as_bytes()) {
        Ok(()) => Ok(refusal),
        Err(_) => Err(Failure::Write),
    }
}

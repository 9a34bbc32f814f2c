//! The verdict as text.

ghost use Rattle.std.specs.Prelude.{◌≡◌, ◌++◌, Ok, Err, OnOk, string_bytes};
ghost use Rattle.log_facts.specs.Said.{AddsVerdict, cost_line, refusal_line};

use reg_kinds::Reason;
use std::alloc::AllocError;
use std::fmt::Write;
use verifier::{Cost, Refusal, VerifyFault};

/// Whether `reason`, for which a program is rejected, concerns the program's shape: such reasons have the numbers 1 to 9. A reason of
/// safety, for which an instruction may not be run with the facts before it, has a number from 20 to 36; `Memory`, out of memory, has 40.
/// Of a program that is rejected for its shape no facts are known, since the verifier tests the shape before the pass that computes facts.
pub fn is_of_shape(reason: Reason) -> bool {
    reason.number() < 20
}

/// Appends to `text` the first line of a refusal (`refusal_line`), `refused: slot SLOT reason NUMBER`, with its line feed: the slot of
/// `fault` and the number of its reason. `write_refusal` then appends the reason in words. The error is out of memory.
fn write_fault(text: &mut String, fault: VerifyFault) -> Result<(), AllocError>
    ensures { OnOk result (string_bytes text.new ≡ string_bytes text.old ++ refusal_line fault) }
{
    let refusal = Refusal::from(fault);
    writeln!(text, "{refusal}")
}

/// Appends the verdict on a rejected program: the line of `fault` (its slot and the number of its reason), with a line feed, and then
/// `why`, the reason in words, unchanged. The contract (`AddsVerdict`) allows any text after that line, so it does not depend on `why`. The
/// error is out of memory.
fn write_refusal(text: &mut String, fault: VerifyFault, why: &str) -> Result<(), AllocError>
    ensures { OnOk result (AddsVerdict (Err fault) (string_bytes text.old)
        (string_bytes text.new)) }
{
    write_fault(text, fault)?;
    text.push_str(why)
}

/// Appends to `text` the line of what an accepted program costs, with its line feed (`cost_line`): `cost: instructions I, calls C`. I is
/// the most instructions, C the most calls of helpers, on a path from slot 0 to an exit; the two may be of different paths. The error is
/// out of memory; nothing is promised of `text` then.
fn write_cost(text: &mut String, cost: Cost) -> Result<(), AllocError>
    ensures { OnOk result (string_bytes text.new ≡ string_bytes text.old ++ cost_line cost) }
{
    let Cost {
        instructions,
        calls,
    } = cost;
    writeln!(text, "cost: instructions {instructions}, calls {calls}")
}

/// Writes the verdict on an accepted program: the line `cost: instructions I, calls C`, with the most instructions and the most calls of
/// helpers on a path, and the line `accepted`. These two lines are all that `text` gets (`AddsVerdict` for `Ok`). The error is out of
/// memory; then `text` may have got a front of them.
fn write_acceptance(text: &mut String, cost: Cost) -> Result<(), AllocError>
    ensures { OnOk result (AddsVerdict (Ok cost) (string_bytes text.old) (string_bytes text.new)) }
{
    write_cost(text, cost)?;
    text.push_str("accepted\n")
}

/// Appends the verdict on a program to `text`, a listing or the lines of a graph's label. For an accepted program these are the lines
/// `cost: instructions I, calls C`, with the most of each on a path, and `accepted`; `why` is then not read. For a rejected one it is the
/// line `refused: slot S reason N`, and then `why`, the reason in words, unchanged. By the contract (`AddsVerdict`) any text may follow
/// that line.
///
/// # Errors
///
/// `AllocError`: out of memory for the text.
pub fn write_verdict(
    text: &mut String,
    verdict: Result<Cost, VerifyFault>,
    why: &str,
) -> Result<(), AllocError>
    ensures { OnOk result (AddsVerdict verdict (string_bytes text.old) (string_bytes text.new)) }
{
    match verdict {
        Ok(cost) => write_acceptance(text, cost),
        Err(fault) => write_refusal(text, fault, why),
    }
}

//! The listing of a program with its verdict, or its graph.

ghost use Rattle.std.specs.Prelude.{◌≢◌, IfOk, string_bytes};
ghost use Rattle.log_facts.specs.Said.{EndsInVerdict};

use crate::control::live_jumps;
use crate::graph::graph_of;
use crate::lines::{ListingInput, write_lines};
use crate::steps::steps_of;
use insn_codec::Program;
use log_facts::{Judged, LogStyle, is_of_shape, write_verdict};
use std::alloc::{AllocError, Global};
use tagged_model::Named;
use verifier::{Cost, VerifyFault};

/// The text of a listing as lines: one for each instruction, then the verdict. `input` has the program, and for each instruction that the
/// pass reached the facts as text: what is new before it (style `New`) or all that is known there (style `Whole`). If the program is
/// rejected (`verdict` is `Err`), the last line before the verdict is that of the rejected instruction, and `why`, the reason in words,
/// follows the verdict; for an accepted program `why` is not used. By the clause the text is whole lines, and then the lines of the cost
/// and `accepted`, or the line of the refusal and any text after it. `AllocError`: out of memory.
fn lines_of(
    alloc: Global,
    input: &ListingInput<'_>,
    verdict: Result<Cost, VerifyFault>,
    why: &str,
) -> Result<String, AllocError>
    ensures { IfOk result (λ text. EndsInVerdict verdict (string_bytes text)) }
{
    let last = verdict.map_or_else(|fault| fault.slot, |_| input.program.slots());
    let mut text = String::new(alloc);
    write_lines(&mut text, input, last)?;
    write_verdict(&mut text, verdict, why)?;
    Ok(text)
}

/// The listing of `program`, which was verified while descriptors named the objects of `named`. `judged` has the verdict, and the facts
/// before each instruction that the pass reached; a program whose shape has a fault (`is_of_shape`) has no pass, and so no facts. `style`
/// selects lines with what is new before each instruction (`New`), lines with all facts before it (`Whole`), or a graph (`Graph`). `why`
/// has the reason of a rejection in words and a line feed, and is empty for an accepted program. Lines end with the verdict and then `why`;
/// a graph has both only after a rejection, in the block of the rejected instruction. Of lines the contract says that they are whole lines,
/// then the verdict, and after that of a rejection any text (`EndsInVerdict`); of a graph it says nothing.
///
/// # Errors
///
/// `AllocError`: out of memory for the text.
pub fn listing_of(
    alloc: Global,
    program: &Program,
    named: &[Named],
    judged: &Judged,
    style: LogStyle,
    why: &str,
) -> Result<String, AllocError>
    ensures { style ≢ LogStyle.Graph
        → IfOk result (λ text. EndsInVerdict judged.now.verdict (string_bytes text)) }
{
    let Judged { known, verdict } = judged;
    let steps = steps_of(alloc, program, named, known, style == LogStyle::Whole)?;
    let jumps = live_jumps(alloc, program, &steps)?;
    let input = ListingInput {
        program,
        steps: &steps,
        jumps: &jumps,
        has_pass: !verdict.is_err_and(|fault| is_of_shape(fault.reason)),
    };
    match style {
        LogStyle::New | LogStyle::Whole => lines_of(alloc, &input, *verdict, why),
        LogStyle::Graph => graph_of(alloc, &input, verdict.err(), why),
    }
}

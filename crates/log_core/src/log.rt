//! The log of a program, with its verdict and why.

ghost use Rattle.std.specs.Prelude.{◌≢◌, ◌↔◌, IfOk, IsTrue, string_bytes};
ghost use Rattle.log_facts.specs.Known.{IsLogged};
ghost use Rattle.log_facts.specs.Said.{SaysVerdict};
ghost use Rattle.verifier.specs.Verdict.{IsAccepted};

use insn_codec::Program;
use log_facts::{Log, LogStyle, judge};
use log_listing::listing_of;
use log_reasons::rejection_text;
use std::alloc::{AllocError, Global};
use tagged_model::Named;

/// The text between the reason of a rejection and what is known and required, which `rejection_text` writes after it: a colon, and then a
/// space in a log of lines (`New`, `Whole`), or a line feed in a graph (`Graph`).
fn separator(style: LogStyle) -> &'static str {
    match style {
        LogStyle::New | LogStyle::Whole => ": ",
        LogStyle::Graph => ":\n",
    }
}

/// The log of a program, verified with the open descriptors and their objects, which are listed in `named`. It has three parts. The first
/// is whether the program is accepted (`verdict`). The second is the facts before each instruction that a run may reach (`facts`): if these
/// do not allow an instruction, only up to those before this one; if the program's shape has a fault, none. The third is a text: lines with
/// what is new before each instruction (`style` is `New`) or with all facts before it (`Whole`), or a graph (`Graph`). Lines end with the
/// verdict (`said`): a line with the cost and the line `accepted`, or the line of the refusal and then the reason in words. A graph has the
/// verdict only if it is a refusal, in the block of the rejected instruction.
///
/// # Errors
///
/// `AllocError`: out of memory for the verdict, for the facts or for the text.
pub fn log_of(
    alloc: Global,
    program: &Program,
    named: &[Named],
    style: LogStyle,
) -> Result<Log, AllocError>
    ensures verdict { IfOk result (λ log.
        IsTrue log.is_accepted ↔ IsAccepted program.now named.now) }
    ensures facts { IfOk result (λ log.
        IsLogged program.now named.now log.is_accepted log.facts.items) }
    ensures said { style ≢ LogStyle.Graph → IfOk result (λ log.
        SaysVerdict program.now named.now log.is_accepted (string_bytes log.text)) }
{
    let judged = judge(alloc, program, named)?;
    let why = rejection_text(alloc, program, named, &judged, separator(style))?;
    let text = listing_of(alloc, program, named, &judged, style, &why)?;
    Ok(judged.into_log(text))
}

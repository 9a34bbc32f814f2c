//! The log of the bytes of slots.

ghost use Rattle.std.specs.Prelude.{IfOk, string_bytes};
ghost use Rattle.log_core.specs.Slots.{IsLogOfSlots, IsLogOfProgram, SaysNoProgram};

use crate::log::log_of;
use insn_codec::{CodecFault, FaultKind, Program, read_program};
use log_facts::{Log, LogStyle};
use std::alloc::{AllocError, Global};
use tagged_model::Named;
use verifier::Refusal;

/// The log of the bytes of slots.
#[derive(Debug, Drop)]
pub struct SlotsLog {
    /// Its lines, or the graph.
    pub text: String,
    /// Whether the slots are a program that is accepted.
    pub is_accepted: bool,
}

/// The log of slots that are no program, in which `fault` is why the codec rejects them. Its text, in each style of a log, is the line of
/// their refusal with a line feed, and `is_accepted` is false (`SaysNoProgram`). `log_of_slots` does not call this function for the fault
/// `Memory`, but that is not required here. `AllocError`: out of memory for the text.
fn refused(alloc: Global, fault: CodecFault) -> Result<SlotsLog, AllocError>
    ensures { IfOk result (λ log. SaysNoProgram fault log.is_accepted (string_bytes log.text)) }
{
    let refusal = Refusal::from(fault);
    Ok(SlotsLog {
        text: format!(in alloc; "{refusal}\n")?,
        is_accepted: false,
    })
}

/// The log of a program as `log_of` makes it, but without its list of facts, which no `SlotsLog` has: the text, as lines or as a graph
/// (`style`), and whether the program is accepted. `named` lists the open descriptors and the objects that they name. The contract
/// (`IsLogOfProgram`): `is_accepted` is true exactly if the verifier accepts the program, and the text ends in the verdict, unless it is a
/// graph. `AllocError`: out of memory.
fn log_without_facts(
    alloc: Global,
    program: &Program,
    named: &[Named],
    style: LogStyle,
) -> Result<SlotsLog, AllocError>
    ensures { IfOk result (λ log. IsLogOfProgram program.now named.now style log.is_accepted
        (string_bytes log.text)) }
{
    let Log {
        text,
        is_accepted,
        facts: _,
    } = log_of(alloc, program, named, style)?;
    Ok(SlotsLog { text, is_accepted })
}

/// The log of the program that the bytes `slots` spell, as lines or as a graph (`style`). `named` lists the open descriptors with the
/// objects that they name. If the bytes spell no program, `is_accepted` is false, and the text is the line of their refusal, in each style.
/// Otherwise `is_accepted` is the verdict, and the lines end with the verdict; of the text of a graph, nothing is promised
/// (`IsLogOfSlots`). If decoding runs out of memory (the fault `Memory`), that is an error, no refusal.
///
/// # Errors
///
/// `AllocError`: out of memory for the program, for the verdict, for the facts or for the text.
pub fn log_of_slots(
    alloc: Global,
    slots: &[u8],
    named: &[Named],
    style: LogStyle,
) -> Result<SlotsLog, AllocError>
    ensures { IfOk result (λ log. IsLogOfSlots slots.now named.now style log.is_accepted
        (string_bytes log.text)) }
{
    match read_program(alloc, slots) {
        Ok(program) => log_without_facts(alloc, &program, named, style),
        Err(fault) if fault.kind == FaultKind::Memory => Err(AllocError),
        Err(fault) => refused(alloc, fault),
    }
}

//! The facts of the pass over a program, kept as they are received.

ghost use Rattle.std.specs.Prelude.{IfOk};
ghost use Rattle.log_facts.specs.Known.{IsJudged};

use insn_codec::Program;
use reg_kinds::{Facts, Reason};
use std::alloc::{AllocError, Global};
use tagged_model::Named;
use verifier::{Cost, VerifyFault, Watcher, verify_watched};

/// What the verifier knows before an instruction that a run may reach.
#[derive(Clone, Copy, Debug, PartialEq, Eq)]
pub struct KnownFacts {
    /// The slot at which the instruction begins.
    pub slot: usize,
    /// The facts before it.
    pub facts: Facts,
}

/// A watcher of the pass, which keeps the facts before each instruction that the pass reaches, in order.
#[derive(Drop)]
struct Recorder {
    known: Vec<KnownFacts>,
}

impl Watcher for Recorder {
    ghost use Rattle.std.specs.Prelude.{Some};
    ghost use Rattle.log_facts.specs.Known.{facts_by_slot};

    // What contracts see of a recorder: the slots and facts that it keeps.
    ghost seen = { λ r. Some (facts_by_slot r.known.items) };

    /// Appends `slot`, and a copy of the facts before the instruction there, to the list of the recorder. The pass calls this for each
    /// instruction that it reaches, once and in the order of the slots. `AllocError`: out of memory for the list; then the pass ends.
    fn before(&mut self, slot: usize, facts: &Facts) -> Result<(), AllocError> {
        let facts = *facts;
        self.known.push(KnownFacts { slot, facts })?;
        Ok(())
    }
}

/// A program's verdict, with the facts that it depends on.
#[derive(Debug, Drop)]
pub struct Judged {
    /// What is known before each instruction that the pass reached, in order.
    pub known: Vec<KnownFacts>,
    /// What the program costs if it is accepted; otherwise why it is rejected.
    pub verdict: Result<Cost, VerifyFault>,
}

/// Verifies a program for the log, with the open descriptors `named`, each with the object that it names. Returns the verdict, which is the
/// program's cost or the fault for which it is rejected, and in `known` the facts before instructions, in the order of the slots
/// (`IsJudged`). If the program is accepted, `known` has the facts before each instruction that a run may reach. If a rule on the facts
/// rejects an instruction, they end with the facts before this instruction. If the program's shape has a fault, `known` is empty.
///
/// # Errors
///
/// `AllocError`: out of memory for the verdict or for the facts.
pub fn judge(alloc: Global, program: &Program, named: &[Named]) -> Result<Judged, AllocError>
    ensures { IfOk result (λ seen. IsJudged program.now named.now seen.known.items seen.verdict) }
{
    let mut recorder = Recorder {
        known: Vec::new(alloc),
    };
    let verdict = verify_watched(alloc, program, named, &mut recorder);
    let Recorder { known } = recorder;
    match verdict {
        Err(fault) if fault.reason == Reason::Memory => Err(AllocError),
        _ => Ok(Judged { known, verdict }),
    }
}

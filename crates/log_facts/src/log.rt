//! A log, and what its verdict and its facts are.

ghost use Rattle.std.specs.Prelude.{◌≡◌, ◌↔◌, IsTrue, List, string_bytes};
ghost use Rattle.insn_set.specs.declared.insn.Insn.{Insn};
ghost use Rattle.log_facts.specs.Known.{IsJudged, IsLogged};
ghost use Rattle.log_facts.specs.Said.{EndsInVerdict, SaysVerdict};
ghost use Rattle.tagged_model.specs.declared.shape.Named.{Named};
ghost use Rattle.verifier.specs.Verdict.{IsAccepted};

use crate::recorder::{Judged, KnownFacts};
use verifier::laws;

/// What a log shows.
#[derive(Clone, Copy, Debug, PartialEq, Eq)]
pub enum LogStyle {
    /// A line for each instruction, with what is new in the facts before it since the line above.
    New,
    /// A line for each instruction, with all facts before it.
    Whole,
    /// The control-flow graph, in the language of Graphviz.
    Graph,
}

/// The log of a program.
#[derive(Debug, Drop)]
pub struct Log {
    /// Its lines, or the graph.
    pub text: String,
    /// Whether the program is accepted.
    pub is_accepted: bool,
    /// The facts from which its lines are written: those before each instruction that a run may reach, in order. Of a program that
    /// is rejected for its safety, those up to the rejected instruction; of one that is rejected for its shape, none.
    pub facts: Vec<KnownFacts>,
}

impl Judged {
    /// Makes the log with this text (`text`), and with the facts and the verdict of `self`. The other clauses are about each program
    /// `code`, with the open descriptors `named`, for which `self` has the facts and the verdict of the verifier (`IsJudged`). Then
    /// `is_accepted` is whether this program is accepted (`verdict`), and the facts of the log are those of its verification (`facts`).
    /// `said`: if `text` ends in the verdict of `self` (`EndsInVerdict`), as a listing does and a graph does not, the log's text ends in
    /// the verdict on this program (`SaysVerdict`): its cost if it is accepted, else the slot and the reason of its rejection.
    pub fn into_log(self, text: String) -> Log
        ensures text { result.text ≡ text }
        ensures verdict { (code : List Insn) (named : List Named)
            → IsJudged code named self.known.items self.verdict
            → IsTrue result.is_accepted ↔ IsAccepted code named }
        ensures facts { (code : List Insn) (named : List Named)
            → IsJudged code named self.known.items self.verdict
            → IsLogged code named result.is_accepted result.facts.items }
        ensures said { (code : List Insn) (named : List Named)
            → IsJudged code named self.known.items self.verdict
            → EndsInVerdict self.verdict (string_bytes text)
            → SaysVerdict code named result.is_accepted (string_bytes result.text) }
    {
        // A law, which does nothing when it runs: an accepted program is not rejected.
        laws::accepted_is_not_refused();
        let Judged { known, verdict } = self;
        Log {
            text,
            is_accepted: verdict.is_ok(),
            facts: known,
        }
    }
}

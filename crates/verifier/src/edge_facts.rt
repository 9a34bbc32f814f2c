//! The facts on an edge.

ghost use Rattle.verifier.specs.inside.Numbers.{IsJoinedBy};

use crate::numbered_facts::NumberedFacts;
use std::marker::Model;

/// The facts on an edge, if there are any. Facts are large, so they are not moved in and out of an
/// `Option`: a flag says whether they are valid.
///
/// Contracts see `Some` facts if they are valid, else `None`.
#[derive(Drop)]
pub(crate) struct EdgeFacts {
    /// Whether `known` is valid.
    pub(crate) is_known: bool,
    /// The facts on the edge; if `is_known` is false, they mean nothing.
    pub(crate) known: NumberedFacts,
}

impl Model for EdgeFacts {
    ghost use Rattle.std.specs.Prelude.{Option, Some, None, if◌then◌else◌};
    ghost use Rattle.verifier.specs.declared.numbered_facts.NumberedFacts.{NumberedFacts as AnyFacts};

    ghost Value = { Option AnyFacts };

    ghost view = { λ e. if e.is_known then Some e.known else None };
}

impl EdgeFacts {
    /// Joins `edge`, the facts on the jumps to a slot, into these, the facts on the falling edge to the same slot. If there are none here
    /// (`is_known` is false), `edge` is copied with the numbers of its groups, and `fresh` is not used. Else each group of eight stack
    /// slots that the join changes gets `fresh`, a number that the pass gives for no other change. So groups with the same index and number
    /// are equal, and by the numbers a later join that would change nothing is recognized, and left out. `IsJoinedBy` has both cases.
    pub(crate) fn join(&mut self, edge: &NumberedFacts, fresh: usize)
        ensures { IsJoinedBy fresh self.old edge.now self.new }
    {
        if self.is_known {
            self.known.join(edge, fresh);
        } else {
            self.known = *edge;
            self.is_known = true;
        }
    }
}

//! Watchers, which receive the facts before each instruction.

ghost use Rattle.std.specs.Prelude.{◌≡◌, ◌⊎◌, ◌∷◌, [], ℕ, List, None, OnErr, OnOk, Option};
ghost use Rattle.reg_kinds.specs.declared.facts.Facts.{Facts as AnyFacts};
ghost use Rattle.verifier.specs.Seen.{with_more};

use reg_kinds::Facts;
use std::alloc::AllocError;

/// A receiver of the facts before each instruction that a run may reach, in the pass over a program, each slot once and in order.
pub trait Watcher {
    // The slots and facts that it has received so far; `None` of a watcher that does not say which, as one that only counts.
    ghost seen: { Self → Option (List (ℕ × AnyFacts)) } = { λ _. None };

    /// Receives the facts before the instruction at `slot`, which are borrowed from the pass. `with_more` appends the slot and these facts
    /// to `seen`, the list of what was received (`ok`); a `seen` of `None` is unchanged, as the watcher does not say what it receives.
    ///
    /// # Errors
    ///
    /// `AllocError`: out of memory, whether or not the facts were received, and so appended to `seen` (`err`). The pass ends there.
    fn before(&mut self, slot: usize, facts: &Facts) -> Result<(), AllocError>
        ensures ok { OnOk result
            (seen self.new ≡ with_more (seen self.old) ((slot, facts.now) ∷ [])) }
        ensures err { OnErr result ((seen self.new ≡ seen self.old)
            ⊎ (seen self.new ≡ with_more (seen self.old) ((slot, facts.now) ∷ []))) };
}

/// A watcher that ignores what it receives.
#[derive(Clone, Copy, Debug, Drop)]
pub(crate) struct Unwatched;

impl Watcher for Unwatched {
    /// Ignores the facts, and never fails: `verify` and `verify_slots` use this watcher, since they return no facts. In contracts, `seen`
    /// is the list of the slots and facts that a watcher has received, or `None` if it keeps no such list, as here. The contract of
    /// `before` in the trait `Watcher` appends the slot and the facts to this list; of `None` it requires only that it is still `None`.
    #[inline(always)]
    fn before(&mut self, _slot: usize, _facts: &Facts) -> Result<(), AllocError> {
        Ok(())
    }
}

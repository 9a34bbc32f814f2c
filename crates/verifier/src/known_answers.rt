//! Known results of the watched verdict and of the private types, proved only from their contracts. Nothing calls these functions.

ghost use Rattle.std.specs.Prelude.{◌≡◌, ◌≢◌, ◌<◌, ℕ, slice_index_or, None, IfOk, OnOk};
ghost use Rattle.insn_set.specs.Program.{slot_count};
ghost use Rattle.verifier.specs.Maps.{shapes_of};
ghost use Rattle.verifier.specs.Seen.{reached};

use crate::fault::VerifyFault;
use crate::numbered_facts::NumberedFacts;
use crate::target_facts::TargetFacts;
use crate::verified::verify_watched;
use crate::watcher::Watcher;
use insn_codec::{MAX_SLOTS, Program};
use reg_kinds::Facts;
use std::alloc::{AllocError, Global};
use tagged_model::Named;

/// A known result: nothing calls this function, and its proof shows what follows from the contract of `TargetFacts::put`, which joins
/// `facts`, those on a jump to `slot`, into the facts that `entries` has for this slot. If `entries` has facts for no other slot before
/// (`alone`), it has facts for no other slot after, unless the call fails (`OnOk`): facts are kept once for each target, however many jumps
/// lead to it. `None` is the entry of a slot without facts. `slot` is less than `MAX_SLOTS` (`within`). `put` gives each group of eight
/// stack slots that the join changes the new number `fresh`, since groups with the same index and number are equal in all facts of a pass
/// (`NumberedFacts`). The error is out of memory.
fn one_entry(
    entries: &mut TargetFacts,
    slot: usize,
    facts: &NumberedFacts,
    fresh: usize,
) -> Result<(), AllocError>
    requires within { slot < MAX_SLOTS }
    requires alone { (i : ℕ) → i ≢ slot → slice_index_or entries.old i None ≡ None }
    ensures { OnOk result ((i : ℕ) → i ≢ slot → slice_index_or entries.new i None ≡ None) }
{
    entries.put(slot, facts, fresh)
}

/// A watcher that keeps all that it receives, in order.
#[derive(Drop)]
struct Notes {
    notes: Vec<(usize, Facts)>,
}

impl Watcher for Notes {
    ghost use Rattle.std.specs.Prelude.{Some};

    ghost seen = { λ n. Some n.notes.items };

    /// Receives the facts before the instruction at `slot` from the pass of `verify_watched`, which calls this function once for each slot
    /// that a run may reach. Appends the slot and the facts to `notes`, by which contracts see what was received (`seen`). `AllocError`:
    /// out of memory.
    fn before(&mut self, slot: usize, facts: &Facts) -> Result<(), AllocError> {
        self.notes.push((slot, *facts))?;
        Ok(())
    }
}

/// Verifies a program with the open descriptors `named`, and returns what `verify_watched` passes to a watcher if the program is accepted:
/// each slot that a run may reach, in order, with the facts before its instruction. The contract lists them by `reached`, with the shapes
/// of the maps that the program names (`shapes_of`), for the slots below the program's number of slots (`slot_count`). The error is why the
/// program is rejected, or out of memory. Nothing calls this function; its proof shows that the contract of `verify_watched` determines
/// what a watcher receives.
fn all_notes(
    alloc: Global,
    program: &Program,
    named: &[Named],
) -> Result<Vec<(usize, Facts)>, VerifyFault>
    ensures { IfOk result (λ notes. notes.items
        ≡ reached (shapes_of program.now named.now) program.now (slot_count program.now)) }
{
    let mut watcher = Notes {
        notes: Vec::new(alloc),
    };
    verify_watched(alloc, program, named, &mut watcher)?;
    let Notes { notes } = watcher;
    Ok(notes)
}

//! The facts on jumps to later slots.

ghost use Rattle.std.specs.Prelude.{◌≡◌, ◌<◌, ◌≤◌, ◌++◌, ◌∷◌, [], length, map, option_map, box_value, IfSome, IfOk, OnOk, ℕ};
ghost use Rattle.verifier.specs.inside.Numbers.{IsJoinedBy, IsPut, IsSent, IsTaken, entry_of};

use crate::edge_facts::EdgeFacts;
use crate::numbered_facts::NumberedFacts;
use insn_codec::MAX_SLOTS;
use std::alloc::{AllocError, Global};
use std::marker::Model;

/// For each slot, the join of the facts on the jumps to it, so far.
///
/// Contracts see the list of these facts by slot, up to the last slot that a jump has led to.
#[derive(Drop)]
pub(crate) struct TargetFacts {
    /// An entry for each slot up to the last one that a jump has led to: the facts on the jumps there, or `None` if no jump has led there
    /// or the pass has taken the facts.
    facts: Vec<Option<Box<NumberedFacts>>>,
    /// Boxes of entries whose facts the pass has taken, for reuse; what they hold means nothing.
    spare: Vec<Box<NumberedFacts>>,
}

impl Model for TargetFacts {
    ghost use Rattle.std.specs.Prelude.{List, Option, map, option_map, box_value};
    ghost use Rattle.verifier.specs.declared.numbered_facts.NumberedFacts.{NumberedFacts as AnyFacts};

    ghost Value = { List (Option AnyFacts) };

    ghost view = { λ e. map (option_map box_value) e.facts.items };
}

/// A box with a copy of `facts`: the last box of `spare`, whose old facts are lost, or a new one if `spare` is empty. The reuse saves an
/// allocation. The error is out of memory for a new box.
fn boxed(
    spare: &mut Vec<Box<NumberedFacts>>,
    alloc: Global,
    facts: &NumberedFacts,
) -> Result<Box<NumberedFacts>, AllocError>
    ensures { IfOk result (λ entry. entry.value ≡ facts.now) }
{
    match spare.pop() {
        Some(mut entry) => {
            *entry = *facts;
            Ok(entry)
        }
        None => Ok(Box::new(alloc, *facts)?),
    }
}

/// Appends `entry`, a box whose facts are no longer needed, to the list `spare`, from which `boxed` takes a box for new facts before it
/// allocates one. The error is out of memory for the list; the box is then freed.
fn keep(spare: &mut Vec<Box<NumberedFacts>>, entry: Box<NumberedFacts>) -> Result<(), AllocError>
    ensures { OnOk result (spare.new.items ≡ spare.old.items ++ entry ∷ []) }
{
    spare.push(entry)?;
    Ok(())
}

/// Joins `facts`, those on a jump, into `entry`, which has the join of the facts on the earlier jumps to the same target (`IsJoinedBy`, on
/// the facts in the boxes, which `box_value` gives). If there were none, `entry` is `None`, and gets a copy of `facts` and their numbers,
/// in a box of `spare` or else in a new one. Otherwise each group of eight stack slots in `entry` that the join changes gets the new number
/// `fresh`, since groups with the same index and number have to be equal in all facts of a pass. The error is out of memory for a new box.
fn join_entry(
    entry: &mut Option<Box<NumberedFacts>>,
    facts: &NumberedFacts,
    fresh: usize,
    spare: &mut Vec<Box<NumberedFacts>>,
    alloc: Global,
) -> Result<(), AllocError>
    ensures { OnOk result (IsJoinedBy fresh (option_map box_value entry.old) facts.now
        (option_map box_value entry.new)) }
{
    match entry {
        Some(known) => known.join(facts, fresh),
        None => *entry = Some(boxed(spare, alloc, facts)?),
    }
    Ok(())
}

/// Appends empty entries (`None`) to `facts` until it has at least `slots` entries (`within`); a longer list is unchanged. The entry at
/// index `i` is that of slot `i` of the program: the facts on the jumps to this slot, `None` if the list has none. A slot past the end of
/// the list counts as one with `None` (`entry_of`), so no slot's entry changes (`entries`). In the contract, `map (option_map box_value)`
/// takes the facts of each entry out of its box. The error is out of memory.
fn append_empty(facts: &mut Vec<Option<Box<NumberedFacts>>>, slots: usize) -> Result<(), AllocError>
    ensures within { OnOk result (slots ≤ length (map (option_map box_value) facts.new.items)) }
    ensures entries { OnOk result ((i : ℕ) → entry_of i (map (option_map box_value) facts.new.items)
        ≡ entry_of i (map (option_map box_value) facts.old.items)) }
{
    for at in facts.len()..slots {
        facts.push(None)?;
    }
    Ok(())
}

/// Removes the facts from `facts`, which has an entry for each slot up to the last one that a jump has led to: the facts on the jumps to
/// this slot, in a box, or `None`. Afterwards each entry is `None`, and `keep` has appended the boxes to `spare`, from which later facts
/// get theirs. If `spare` cannot grow for a box, since memory is refused, this box is freed, which is no error: it only costs an allocation
/// later.
fn keep_all(facts: &mut [Option<Box<NumberedFacts>>], spare: &mut Vec<Box<NumberedFacts>>) {
    for entry in facts {
        if let Some(entry) = entry.take() {
            let _kept = keep(spare, entry);
        }
    }
}

impl TargetFacts {
    /// No facts for any slot, since no jump has led to one yet: the list, which will have an entry with the facts on the jumps to each
    /// slot, is empty. So is `spare`, the list of the boxes of earlier entries, for reuse. Allocates nothing; the first `put` of facts
    /// does.
    pub(crate) fn new(alloc: Global) -> TargetFacts
        ensures { result ≡ [] }
    {
        TargetFacts {
            facts: Vec::new(alloc),
            spare: Vec::new(alloc),
        }
    }

    /// Removes the facts of all slots, such as those that a rejected program leaves: the list is then empty. Their boxes are kept in
    /// `spare`, for later facts; a box for which that list cannot grow is freed.
    pub(crate) fn clear(&mut self)
        ensures { self.new ≡ [] }
    {
        keep_all(&mut self.facts, &mut self.spare);
        self.facts.clear();
    }

    /// Joins the facts on the jumps to `slot`, its entry, into `known`, the facts on the falling edge to `slot` (`IsTaken`). If `known` has
    /// no facts, it gets those of the entry. Nothing is done if there is no entry, or an empty one. Each group of eight stack slots that
    /// the join changes gets the number `fresh`, which the caller has given for no earlier change: in all facts of a pass, two groups with
    /// the same index and the same number have to be equal (`NumberedFacts`). Then the entry is empty, and its box is kept for reuse. The
    /// entries of later slots are unchanged; the pass does not read those of earlier slots again. The error is out of memory for the list
    /// of spare boxes; nothing is promised then.
    pub(crate) fn join_at(
        &mut self,
        slot: usize,
        known: &mut EdgeFacts,
        fresh: usize,
    ) -> Result<(), AllocError>
        ensures { OnOk result (IsTaken slot fresh self.old self.new known.old known.new) }
    {
        if slot >= self.facts.len() || self.facts[slot].is_none() {
            return Ok(());
        }
        // There is one, as tested above.
        if let Some(entry) = self.facts[slot].take() {
            known.join(&entry, fresh);
            keep(&mut self.spare, entry)?;
        }
        Ok(())
    }

    /// Appends empty entries (`None`), of slots without facts on jumps to them, until the list has an entry for `slot` (`within`); a list
    /// that is long enough is unchanged. No slot's facts change (`entries`), since a slot past the end of the list has an empty entry too
    /// (`entry_of`). `slot` is a slot of a program, below `MAX_SLOTS`, so `slot + 1` can't overflow. The error is out of memory.
    fn reach(&mut self, slot: usize) -> Result<(), AllocError>
        requires { slot < MAX_SLOTS }
        ensures within { OnOk result (slot < length self.new) }
        ensures entries { OnOk result ((i : ℕ) → entry_of i self.new ≡ entry_of i self.old) }
    {
        append_empty(&mut self.facts, slot + 1)
    }

    /// Joins `facts`, those on a jump to the slot `target`, into the facts on the earlier jumps to this slot, or copies them if there are
    /// none; those of other slots are unchanged (`IsSent`). `target` is a slot of the program, so below `MAX_SLOTS`, since the program's
    /// shape has no fault. `None` is a target below slot 0, which would be such a fault; nothing is done then. Facts have a number for each
    /// group of eight stack slots (`NumberedFacts`). In all facts of a pass, groups of the same stack slots with the same number are equal,
    /// so a join that would change nothing is recognized by the numbers. Each group that this join changes therefore gets the number
    /// `fresh`, which is new in the pass. The error is out of memory.
    pub(crate) fn send(
        &mut self,
        target: Option<usize>,
        facts: &NumberedFacts,
        fresh: usize,
    ) -> Result<(), AllocError>
        requires { IfSome target (λ slot. slot < MAX_SLOTS) }
        ensures { OnOk result (IsSent target fresh facts.now self.old self.new) }
    {
        if let Some(slot) = target {
            self.put(slot, facts, fresh)?;
        }
        Ok(())
    }

    /// Joins `facts`, those on a jump to `slot`, into the entry of this slot, which has the join of the facts on the jumps there so far; an
    /// empty entry gets a copy of `facts`. No other slot's entry changes (`IsPut`). `slot` is a slot of a program, so less than
    /// `MAX_SLOTS`; the list grows until it has an entry for it. Each group of eight stack slots that the join changes gets the number
    /// `fresh`, which is new in the pass. So groups with the same index and the same number are equal in all facts of the pass
    /// (`NumberedFacts`). If a group in `facts` has the number of the group that was joined last into the entry's group of this index, it
    /// equals the group that was joined then, so a second join would change nothing, and is left out. The error is out of memory.
    pub(crate) fn put(
        &mut self,
        slot: usize,
        facts: &NumberedFacts,
        fresh: usize,
    ) -> Result<(), AllocError>
        requires { slot < MAX_SLOTS }
        ensures { OnOk result (IsPut slot fresh facts.now self.old self.new) }
    {
        self.reach(slot)?;
        self.put_within(slot, facts, fresh)
    }

    /// Joins `facts`, those on a jump to `slot`, into the entry of this slot: the join of the facts on the earlier jumps to it. If there
    /// are none (`None`), the entry gets a copy of `facts`, in a box that an earlier entry no longer needs (`spare`) or else in a new one.
    /// The caller `put` has lengthened the list, so that it has an entry for the slot. Each group of eight stack slots that the join
    /// changes gets the number `fresh`, which is new in the pass: if two facts of a pass have one number for the group of the same index,
    /// the group has to be equal in both (`NumberedFacts`). Entries of other slots are unchanged (`IsPut`). The error is out of memory for
    /// a new box.
    fn put_within(
        &mut self,
        slot: usize,
        facts: &NumberedFacts,
        fresh: usize,
    ) -> Result<(), AllocError>
        requires { slot < length self.old }
        ensures { OnOk result (IsPut slot fresh facts.now self.old self.new) }
    {
        let alloc = *self.facts.allocator();
        join_entry(&mut self.facts[slot], facts, fresh, &mut self.spare, alloc)
    }
}

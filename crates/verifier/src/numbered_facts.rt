//! Facts, with a number for each group of eight stack slots.

ghost use Rattle.std.specs.Prelude.{◌≡◌, ◌<◌};
ghost use Rattle.words.specs.Stack.{stack_slots};
ghost use Rattle.reg_kinds.specs.Join.{stack_groups};
ghost use Rattle.verifier.specs.inside.Numbers.{IsInStack, IsJoin, IsGroupJoin, at_entry, writes_renumbered, group_renumbered, renumbered};

use reg_kinds::laws::facts_have_all_slots;
use reg_kinds::{Facts, GROUP_SLOTS, STACK_GROUPS, StackGroup, join_group, join_registers};
use transfer::Flow;

/// Facts, with a number for what is known of each group of eight stack slots (a `StackGroup`). Groups with the same index and number are
/// the same in all facts of a pass, so that a join that would change nothing can be recognized, and is left out.
#[derive(Clone, Copy, Debug, Drop)]
pub(crate) struct NumberedFacts {
    pub(crate) facts: Facts,
    /// The number of each group of eight stack slots, never 0.
    pub(crate) numbers: [usize; STACK_GROUPS],
    /// For each group, the number of the one that was joined into it last: a second join with that one would change nothing. 0 if none has
    /// been joined into it since it was last written.
    pub(crate) includes: [usize; STACK_GROUPS],
}

impl NumberedFacts {
    /// The facts at program entry, with which a pass over a program begins. Each group of eight stack slots has number 1. Groups with the
    /// same index and number have to be equal in all facts of a pass, so that a join that would change nothing is recognized by the
    /// numbers, and left out. A group that changes later in the pass gets a number above 1, so groups with number 1 are unchanged since
    /// program entry. `includes`, the number of the group that was joined last into each group, is 0, since none has been.
    pub(crate) fn at_entry() -> NumberedFacts
        ensures { result ≡ at_entry }
    {
        NumberedFacts {
            facts: Facts::at_entry(),
            numbers: [1; STACK_GROUPS],
            includes: [0; STACK_GROUPS],
        }
    }

    /// Gives all groups of eight stack slots the new number `fresh`, since an instruction or a null test may have changed any of them: in
    /// all facts of a pass, two groups with the same index and the same number have to be equal. Also sets `includes` of each group, the
    /// number of the group that was joined into it last, to 0: none has been joined into it since the change.
    pub(crate) fn renumber(&mut self, fresh: usize)
        ensures { self.new ≡ renumbered self.old fresh }
    {
        self.numbers = [fresh; STACK_GROUPS];
        self.includes = [0; STACK_GROUPS];
    }

    /// Gives the group of eight stack slots that has stack slot `slot`, 0 to 63, the new number `fresh`, since the slot may have changed:
    /// groups with the same index and number have to be equal in all facts of a pass. The group's `includes`, the number of the group that
    /// was joined into it last, becomes 0: none has been joined into it since the change. No fact and no other group changes
    /// (`group_renumbered`).
    #[inline(always)]
    fn renumber_group(&mut self, slot: usize, fresh: usize)
        requires { slot < stack_slots }
        ensures { self.new ≡ group_renumbered self.old slot fresh }
    {
        let group = slot / GROUP_SLOTS;
        self.numbers[group] = fresh;
        self.includes[group] = 0;
    }

    /// Gives the new number `fresh` to each group of eight stack slots into which an instruction may have written. `flow` has the edges
    /// after the instruction, and which stack slots it may have changed: for `WritesSlot` only that one, of 64 (`IsInStack`), so its group
    /// gets the number; for `Writes` any, so all groups get it. For any other flow nothing changes (`writes_renumbered`); a null test
    /// changes the stack only on its edges, for which `leave_null_test` gives new numbers. In all facts of a pass, groups with the same
    /// index and the same number have to be equal. No clause requires that `fresh` is new: the only caller passes 8 * n + 3 for the
    /// instruction at slot n, which no other change of a group gives. The group's `includes`, the number of the group that was joined into
    /// it last, becomes 0: none has been joined into it since the write.
    #[inline(always)]
    pub(crate) fn renumber_written(&mut self, flow: &Flow, fresh: usize)
        requires { IsInStack flow.now }
        ensures { self.new ≡ writes_renumbered flow.now fresh self.old }
    {
        match flow {
            Flow::WritesSlot(slot) => self.renumber_group(*slot, fresh),
            Flow::Writes => self.renumber(fresh),
            Flow::Falls => {}
            Flow::Ends => {}
            Flow::Jumps => {}
            Flow::Either => {}
            Flow::Compares { .. } => {}
            Flow::Settles { .. } => {}
        }
    }

    /// Joins the group of eight stack slots of index `group` in `edge`, the facts on another edge to the same instruction, into the group
    /// of this index in `self`. The registers and the other groups in `self` are unchanged (`IsGroupJoin`). If the join may change the
    /// group, it gets the new number `fresh`: groups with the same index and number have to be equal in all facts of a pass. In any case
    /// its `includes` becomes the number of the group in `edge`. By `includes` the only caller, `join_stack_group`, leaves out a second
    /// join with that group, which would change nothing. The caller is inlined, and this function is not, so that the loop of `join`
    /// contains only the caller's test. The contract is that of the caller, so it also allows a join that is left out.
    #[inline(never)]
    fn join_other_group(&mut self, edge: &NumberedFacts, fresh: usize, group: usize)
        requires { group < stack_groups }
        ensures { IsGroupJoin fresh group self.old edge.now self.new }
    {
        if join_group(&mut self.facts, &edge.facts, StackGroup { number: group }) {
            self.numbers[group] = fresh;
        }
        self.includes[group] = edge.numbers[group];
    }

    /// Joins the group of eight stack slots of index `group` in `edge`, the facts on another edge to the same instruction, into the group
    /// of this index in `self`. If the join changes the latter, it gets the number `fresh`, which is new in the pass: two groups with the
    /// same index and number have to be equal in all facts of a pass. `self.includes[group]` is the number of the group that was joined
    /// last into that of `self`, or 0 if none was since that was written; no group has number 0. If the group in `edge` has this number, it
    /// equals the group that was joined then, so a second join would change nothing, and is left out. By `IsGroupJoin` the registers and
    /// the other groups in `self` are unchanged.
    #[inline(always)]
    fn join_stack_group(&mut self, edge: &NumberedFacts, fresh: usize, group: usize)
        requires { group < stack_groups }
        ensures { IsGroupJoin fresh group self.old edge.now self.new }
    {
        if self.includes[group] != edge.numbers[group] {
            self.join_other_group(edge, fresh, group);
        }
    }

    /// Joins `edge`, the facts on another edge to the same instruction, into these (`IsJoin`): the kind of each register, and each group of
    /// eight stack slots. Each group that the join changes gets the new number `fresh`, since groups with the same index and number have to
    /// be equal in all facts of a pass. For each group of these facts, `includes` has the number of the group that was joined into it last.
    /// If the group of this index in `edge` has this number, it equals the group that was joined then. So a second join would change
    /// nothing, and is left out.
    pub(crate) fn join(&mut self, edge: &NumberedFacts, fresh: usize)
        ensures { IsJoin fresh self.old edge.now self.new }
    {
        join_registers(&mut self.facts, &edge.facts);
        for group in 0..STACK_GROUPS {
            self.join_stack_group(edge, fresh, group);
        }
        // For the proof: a law, which does nothing.
        facts_have_all_slots(&self.facts);
    }
}

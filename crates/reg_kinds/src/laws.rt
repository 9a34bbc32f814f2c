//! Laws of the joins, for proofs that use them. Each is the contract of a function that does nothing.

ghost use Rattle.std.specs.Prelude.{◌≡◌, length};
ghost use Rattle.words.specs.Stack.{stack_slots};
ghost use Rattle.reg_kinds.specs.Laws.{KindsCommute, KindsAssociate, SlotsCommute};
ghost use Rattle.reg_kinds.specs.Laws.{SlotsAssociate, SlotsAbsorb, FactsCommute, FactsAssociate};

use crate::facts::Facts;

/// A law: the joins of kinds (`kinds`), of stack slots (`slots`) and of facts (`facts`) are commutative. So if two edges merge, the facts
/// of either may be joined into those of the other. The proofs of `join_admits` of `abstraction` and of `check_safety` of `verifier` use
/// this. Nothing is done when it runs.
pub fn joins_commute()
    ensures kinds { KindsCommute }
    ensures slots { SlotsCommute }
    ensures facts { FactsCommute }
{
    interval::laws::hull_is_a_join();
}

/// A law: the joins of kinds (`kinds`), of stack slots (`slots`) and of facts (`facts`) are associative: for all a, b and c the join of a
/// and b, joined with c, equals a joined with the join of b and c. The proof of `check_safety` of `verifier` needs `facts`: its pass joins
/// the facts that arrive at a slot in another order than the definition (`facts_before`). Nothing is done when it runs.
pub fn joins_associate()
    ensures kinds { KindsAssociate }
    ensures slots { SlotsAssociate }
    ensures facts { FactsAssociate }
{
    interval::laws::hull_is_a_join();
}

/// A law for s and t, each of them what is known of a stack slot (`Slot`): once t has been joined into s, a second join with t changes
/// nothing (`SlotsAbsorb`). So the pass of `verifier` over a program leaves out the join of a group of eight stack slots with the group
/// that was joined into it last (`NumberedFacts`). For two spilled values the law needs that the join of kinds is associative
/// (`joins_associate`). Nothing is done when it runs.
pub fn slots_absorb()
    ensures { SlotsAbsorb }
{
    joins_associate();
}

/// A law, for accesses by the number of a stack slot: the list `slots` of facts has the length 64. Nothing is done when it runs.
#[inline(always)]
pub fn facts_have_all_slots(facts: &Facts)
    ensures { length facts.now.slots ≡ stack_slots }
{}

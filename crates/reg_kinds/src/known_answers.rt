//! Known answers, proved only from the contracts. Nothing calls these functions. Proofs about registers unfold `tabulate`, by which
//! the lists in facts are defined.

use crate::{Facts, Kind, Reason, Slot, join, read_stack, settle, write_stack};
use insn_set::Reg;
use interval::Range;
use std::mem::size_of;
use words::{AccessSize, UNSIGNED};

/// Facts take at most 3,072 bytes, a bound with some room: they are copied for the first jump to a target and for a null test.
const _: () = prove!(size_of::<Facts>() <= 3072);

/// A test that is proved, only from contracts, and never called. In the facts at program entry (`at_entry`) register 1 is the pointer to
/// the context (`Ctx`). The proof unfolds `tabulate`, which makes the list of the registers' kinds from a function.
#[tactic(auto, unfolding(crate::specs::Kinds::tabulate))]
fn registers_at_entry() {
    let facts = Facts::at_entry();
    let context = facts.kind(Reg::new(1));
    let is_context = matches!(context, Kind::Ctx);
    prove!(is_context);
}

/// A proved test of contracts, never called. In the join of two stack slots, as masks of written bytes, a bit is 1 if it is 1 in both. In
/// the join of facts `a` and `b` register 2 has the hull of its two ranges, the least that includes both.
#[tactic(auto, unfolding(crate::specs::Kinds::tabulate))]
fn joins() {
    let both = Slot::Bytes(0x0f).join(Slot::Bytes(0x3c));
    let is_common = matches!(both, Slot::Bytes(0x0c));
    prove!(is_common);
    let mut a = Facts::at_entry();
    let mut b = a;
    a.set_kind(Reg::new(2), Kind::Scalar(Range { lo: 0, hi: 3 }));
    b.set_kind(Reg::new(2), Kind::Scalar(Range { lo: 5, hi: 9 }));
    let facts = join(&a, &b);
    let either = facts.kind(Reg::new(2));
    let is_hull = matches!(either, Kind::Scalar(r) if r.lo == 0 && r.hi == 9);
    prove!(is_hull);
}

/// A pointer, here `Stack(0)`, to the stack's upper end, can be stored whole, with its eight bytes, into the highest stack slot (offset -8
/// from this end). A load of only some of its bytes, here two from offset -6, without sign extension, is then rejected: `PartOfSpill`.
fn a_pointer_is_spilled_whole() {
    let mut facts = Facts::at_entry();
    let stored = write_stack(&mut facts, -8, AccessSize::Double, Kind::Stack(0));
    let is_stored = stored.is_ok();
    prove!(is_stored);
    let part = read_stack(&facts, -6, AccessSize::Half, UNSIGNED);
    let is_refused = matches!(part, Err(Reason::PartOfSpill));
    prove!(is_refused);
}

/// If a null test has found that the result of the look-up at slot 5, in the map of descriptor 3, is not null, a register with this result,
/// here register 6, is known to be a pointer into a value.
#[tactic(auto, unfolding(crate::specs::Kinds::tabulate))]
fn a_null_test_settles() {
    let mut facts = Facts::at_entry();
    facts.set_kind(Reg::new(6), Kind::MaybeValue { map: 3, site: 5 });
    let is_null = false;
    settle(&mut facts, 5, is_null);
    let settled = facts.kind(Reg::new(6));
    let is_value = matches!(settled, Kind::Value(_));
    prove!(is_value);
}

/// A test that is proved, only from contracts, and never called. The number of the reason `Memory`, out of memory, is 40. The kind of a
/// pointer to the context (`Ctx`) counts as a pointer (`is_pointer`): a store puts it into the stack whole, with its eight bytes, or is
/// rejected.
fn numbers_of_reasons() {
    let number = Reason::Memory.number();
    prove!(number == 40);
    let is_pointer = Kind::Ctx.is_pointer();
    prove!(is_pointer);
}

//! The facts after a null test of a look-up's result.

ghost use Rattle.std.specs.Prelude.{◌≡◌, not};
ghost use Rattle.reg_kinds.specs.Kinds.{kind_at, slot_at, with_registers, with_slots};
ghost use Rattle.reg_kinds.specs.Settle.{kind_settled, slot_settled, facts_settled};

use crate::facts::Facts;
use crate::kind::{Kind, Slot, ValuePointer};
use interval::Range;
use words::{REGISTERS, STACK_SLOTS};

/// Settles, in the facts on one edge of a null test, all copies of the result of the look-up at program slot `site`. `null` is whether the
/// result is null on this edge. If `null`, a copy in a register becomes the number 0, one in the stack eight written bytes; else each
/// becomes a pointer to the start of a value. No other kind changes. The log calls this function for each edge; the verifier's pass uses
/// `settle_both`.
pub fn settle(facts: &mut Facts, site: usize, null: bool)
    ensures { facts.new ≡ facts_settled site null facts.old }
{
    settle_registers(facts, site, null);
    settle_stack(facts, site, null);
}

/// Settles the kind of each register that has the result of the look-up at slot `site`, after a test that found this result null (`null`)
/// or not null (false): the kind becomes the number 0 if `null`, else a pointer to the start of a value. All other kinds, and the stack
/// slots, are unchanged.
fn settle_registers(facts: &mut Facts, site: usize, null: bool)
    ensures { facts.new ≡ with_registers facts.old
        (λ r. kind_settled site null (kind_at facts.old r)) }
{
    for r in 0..REGISTERS {
        settle_kind(&mut facts.registers[r], site, null);
    }
}

/// Settles each stack slot with a spilled copy of the result of the look-up at program slot `site`, after a test that found the result null
/// (`null`) or not. If `null`, the stack slot has eight written bytes, as after a store of a number; else it has a pointer to the start of
/// a value. Any other stack slot is unchanged.
fn settle_stack(facts: &mut Facts, site: usize, null: bool)
    ensures { facts.new ≡ with_slots facts.old (λ i. slot_settled site null (slot_at facts.old i)) }
{
    for i in 0..STACK_SLOTS {
        settle_slot(&mut facts.slots[i], site, null);
    }
}

/// Settles the kind of a register after a null test of the result of the look-up at slot `site`. `null` is whether the test found this
/// result null. If the register has the result, its kind becomes that of the number 0 if `null`, else that of a pointer to the start of a
/// value of the map: its least and its greatest offset are 0. Any other kind, also that of another look-up's result, is unchanged.
#[inline(always)]
fn settle_kind(kind: &mut Kind, site: usize, null: bool)
    ensures { kind.new ≡ kind_settled site null kind.old }
{
    match *kind {
        Kind::MaybeValue { map, site: carried } if carried == site => {
            *kind = if null {
                Kind::Scalar(Range::constant(0))
            } else {
                Kind::Value(ValuePointer::new(map, 0, 0))
            };
        }
        _ => {}
    }
}

/// Settles a stack slot, if it has a spilled copy of the result of the look-up at program slot `site`, after a test that found the result
/// null (`null`) or not. If `null`, the stack slot has eight written bytes (the mask 0xff), as after a store of a number; else it has a
/// pointer to the start of a value: its least and its greatest offset are 0. Any other stack slot, also with the result of another look-up,
/// is unchanged.
#[inline(always)]
fn settle_slot(slot: &mut Slot, site: usize, null: bool)
    ensures { slot.new ≡ slot_settled site null slot.old }
{
    match *slot {
        Slot::Spill(Kind::MaybeValue { map, site: carried }) if carried == site => {
            *slot = if null {
                Slot::Bytes(0xff)
            } else {
                Slot::Spill(Kind::Value(ValuePointer::new(map, 0, 0)))
            };
        }
        _ => {}
    }
}

/// Splits the facts before a null test of the look-up at slot `site`: `taken`, whose old facts are lost, gets those on the jumping edge,
/// `facts` those on the falling edge. `null` is whether the result is null on the jumping edge; on the falling edge it is the opposite.
/// On the edge with the null result, each copy in a register becomes the number 0, and each in the stack eight written bytes; on the other
/// edge each copy becomes a pointer to the start of a value. One pass over the facts serves both edges.
pub fn settle_both(facts: &mut Facts, taken: &mut Facts, site: usize, null: bool)
    ensures taken { taken.new ≡ facts_settled site null facts.old }
    ensures falls { facts.new ≡ facts_settled site (not null) facts.old }
{
    settle_both_registers(facts, taken, site, null);
    settle_both_stacks(facts, taken, site, null);
}

/// Settles the registers for both edges of a null test of the look-up at slot `site`. Before the call `facts` has the registers before the
/// test; afterwards `facts` has those on the falling edge, and `taken` those on the jumping edge. `null`: whether the look-up's result is
/// null on the jumping edge; on the falling edge the opposite holds. A copy of the result becomes the number 0 on the edge with null, on
/// the other a pointer to the start of a value; other registers keep their kinds of `facts` on both. No stack slot changes.
fn settle_both_registers(facts: &mut Facts, taken: &mut Facts, site: usize, null: bool)
    ensures taken { taken.new ≡ with_registers taken.old
        (λ r. kind_settled site null (kind_at facts.old r)) }
    ensures falls { facts.new ≡ with_registers facts.old
        (λ r. kind_settled site (not null) (kind_at facts.old r)) }
{
    taken.registers = facts.registers;
    for r in 0..REGISTERS {
        settle_both_kinds(&mut facts.registers[r], &mut taken.registers[r], site, null);
    }
}

/// Settles the stack for both edges of a null test of the look-up at slot `site` of the program. Before the call `facts` has the stack
/// slots before the test; afterwards it has those on the falling edge (`falls`), and `taken` has those on the jumping edge. `null` is
/// whether the look-up's result is null on the jumping edge; on the falling edge the opposite holds. A stack slot with the spilled result
/// becomes eight written bytes on the edge with null, and a spilled pointer to the start of a value on the other edge (`slot_settled`). Any
/// other stack slot is on both edges as it was in `facts`. No register changes, neither in `facts` nor in `taken`.
fn settle_both_stacks(facts: &mut Facts, taken: &mut Facts, site: usize, null: bool)
    ensures taken { taken.new ≡ with_slots taken.old
        (λ i. slot_settled site null (slot_at facts.old i)) }
    ensures falls { facts.new ≡ with_slots facts.old
        (λ i. slot_settled site (not null) (slot_at facts.old i)) }
{
    taken.slots = facts.slots;
    for i in 0..STACK_SLOTS {
        settle_both_slots(&mut facts.slots[i], &mut taken.slots[i], site, null);
    }
}

/// Settles a register's kind for both edges of a null test of the look-up at slot `site`: `kind` for the falling edge (`falls`), and
/// `taken`, a copy of it, for the jumping edge. If it is the kind of the look-up's result, it becomes the number 0 on the edge with the
/// null result, and a pointer to the start of a value on the other edge. The result is null on the jumping edge if `null`, else on the
/// falling edge. Any other kind, also of the result of another look-up, is unchanged in both.
#[inline(always)]
fn settle_both_kinds(kind: &mut Kind, taken: &mut Kind, site: usize, null: bool)
    requires { taken.now ≡ kind.now }
    ensures taken { taken.new ≡ kind_settled site null kind.old }
    ensures falls { kind.new ≡ kind_settled site (not null) kind.old }
{
    match *kind {
        Kind::MaybeValue { site: carried, .. } if carried == site => {
            settle_kind(taken, site, null);
            settle_kind(kind, site, !null);
        }
        _ => {}
    }
}

/// Settles a stack slot for both edges of a null test of the look-up at `site`, a slot of the program. Afterwards `slot` is as on the
/// falling edge, and `taken`, before the call a copy of it, is as on the jumping edge. `null` is whether the look-up's result is null on
/// the jumping edge; on the falling edge the opposite holds. If the stack slot has the spilled result, it becomes eight written bytes on
/// the edge with null, and a spilled pointer to the start of a value on the other. Any other stack slot is unchanged in both.
#[inline(always)]
fn settle_both_slots(slot: &mut Slot, taken: &mut Slot, site: usize, null: bool)
    requires { taken.now ≡ slot.now }
    ensures taken { taken.new ≡ slot_settled site null slot.old }
    ensures falls { slot.new ≡ slot_settled site (not null) slot.old }
{
    match *slot {
        Slot::Spill(Kind::MaybeValue { site: carried, .. }) if carried == site => {
            settle_slot(taken, site, null);
            settle_slot(slot, site, !null);
        }
        _ => {}
    }
}

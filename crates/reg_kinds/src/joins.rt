//! The joins of kinds, stack slots and facts, for edges that merge.

ghost use Rattle.std.specs.Prelude.{◌≡◌, ◌<◌, true, false, bit_and};
ghost use Rattle.reg_kinds.specs.Kinds.{kind_at, slot_at, with_kind, with_registers, with_slots};
ghost use Rattle.reg_kinds.specs.Pointers.{offsets_hull};
ghost use Rattle.reg_kinds.specs.declared.kind.Slot.TheVariants.{Spill};
ghost use Rattle.interval.specs.Ranges.{hull};
ghost use Rattle.reg_kinds.specs.Join.{kind_join, spilled, slot_join, facts_join, stack_groups, group_joined};

use crate::facts::Facts;
use crate::kind::{Kind, Slot, ValuePointer};
use interval::{Range, hull};
use words::{REGISTERS, STACK_SLOTS};

/// The number of stack slots in a group. The verifier numbers what is known of each group, and does not join one (`join_group`) if this is
/// known to change nothing.
pub const GROUP_SLOTS: usize = 8;

/// The number of groups of stack slots, of `GROUP_SLOTS` each.
pub const STACK_GROUPS: usize = STACK_SLOTS / GROUP_SLOTS;

/// A group of stack slots: the `GROUP_SLOTS` of them from stack slot `GROUP_SLOTS * number` on.
#[derive(Clone, Copy, Debug, PartialEq, Eq)]
pub struct StackGroup {
    pub number: usize,
    /// For contracts: `number` is below the number of groups.
    pub ghost within: { number < stack_groups },
}

impl Kind {
    /// The join of two kinds. Of two ranges, or of two ranges of offsets into values of one map, it is the hull, the least range that
    /// includes both; else, if both kinds are the same, this kind; otherwise `Unreadable`.
    pub fn join(self, other: Kind) -> Kind
        ensures { result ≡ kind_join self other }
    {
        match (self, other) {
            (Kind::Scalar(a), Kind::Scalar(b)) => Kind::Scalar(hull(a, b)),
            (Kind::MapRef(m), Kind::MapRef(n)) if m == n => self,
            (Kind::Stack(x), Kind::Stack(y)) if x == y => self,
            (Kind::Ctx, Kind::Ctx) => Kind::Ctx,
            (Kind::Value(p), Kind::Value(q)) if p.map == q.map => Kind::Value(offsets_hull(p, q)),
            (Kind::MaybeValue { map: m, site: s }, Kind::MaybeValue { map: n, site: t })
                if m == n && s == t => self,
            _ => Kind::Unreadable,
        }
    }
}

impl Slot {
    /// The join of two stack slots (`slot_join`), for edges that merge. Of two masks of written bytes (`Bytes`, bit j for byte j), it has
    /// the bytes that are written in both. Of two spills, slots that hold a pointer or a map whole, it is a spill with the join of their
    /// kinds, or a slot without a written byte (`Bytes(0)`) if that join is `Unreadable`. If only one slot is a spill, no byte of the join
    /// counts as written, since no single byte of a pointer or a map can be read.
    pub fn join(self, other: Slot) -> Slot
        ensures { result ≡ slot_join self other }
    {
        match (self, other) {
            (Slot::Bytes(x), Slot::Bytes(y)) => Slot::Bytes(x & y),
            (Slot::Spill(j), Slot::Spill(k)) => spilled(j.join(k)),
            _ => Slot::Bytes(0),
        }
    }
}

/// The join of two pointers into values of one map: a pointer into a value of this map with the least range of offsets, in bytes, that
/// includes both ranges. Each caller has tested that `p` and `q` have one map. The contract does not require it: for two maps the result
/// has the map of `p`, and is not the join of the two kinds, which is `Unreadable`.
fn offsets_hull(p: ValuePointer, q: ValuePointer) -> ValuePointer
    ensures { result ≡ offsets_hull p q }
{
    ValuePointer::new(p.map, p.lo.min(q.lo), p.hi.max(q.hi))
}

/// What is known of a stack slot with a spill on both edges, if the join of the two spilled kinds is `kind`: a spill of this kind. If
/// `kind` is `Unreadable`, the two values have no kind in common: then no byte of the slot counts as written (`Bytes(0)`), so a read of the
/// slot is rejected.
fn spilled(kind: Kind) -> Slot
    ensures { result ≡ spilled kind }
{
    match kind {
        Kind::Unreadable => Slot::Bytes(0),
        known => Slot::Spill(known),
    }
}

/// The join of the facts on two edges to one instruction, as new facts: each register has the join of its two kinds, and each stack slot
/// the join of what is known of it on the two edges. Only `known_answers.rt` and the worked cases of joins call it: the verifier joins
/// registers and groups of stack slots by themselves (`join_registers`, `join_group`).
pub fn join(a: &Facts, b: &Facts) -> Facts
    ensures { result ≡ facts_join a.now b.now }
{
    let mut both = *a;
    join_into(&mut both, b);
    both
}

/// Joins `edge`, the facts on another edge to the same instruction, into `facts`.
pub fn join_into(facts: &mut Facts, edge: &Facts)
    ensures { facts.new ≡ facts_join facts.old edge.now }
{
    join_registers(facts, edge);
    join_stack(facts, edge);
}

/// Whether the range `a` includes the range `b`. If it does, a join of `b` into `a` changes nothing, since `hull`, the least range that
/// includes both, is `a`: so `join_kind` tests this first, and then writes nothing. If the result is false, the contract claims nothing,
/// and `join_kind` has the join computed.
#[tactic(auto, using(crate::proofs::Absorption::hull_holds))]
#[inline(always)]
fn holds_range(a: &Range, b: &Range) -> bool
    ensures { result ≡ true → hull a.now b.now ≡ a.now }
{
    a.lo <= b.lo && b.hi <= a.hi
}

/// Joins the kind `edge` into `known`, for any two kinds. For two ranges, and for two pointers into values of one map, it writes only the
/// bounds of the least range that includes both (`hull`, `offsets_hull`). `join_out_of_line` makes all other joins, so that this function
/// need not save machine registers on the machine's stack. The only caller, `join_kind`, is inlined: it finds the joins that change
/// nothing, and calls this function, which is not inlined, only for the others.
#[inline(never)]
fn join_other_kind(known: &mut Kind, edge: &Kind)
    ensures { known.new ≡ kind_join known.old edge.now }
{
    match (&mut *known, edge) {
        (Kind::Scalar(range), Kind::Scalar(other)) => *range = hull(*range, *other),
        (Kind::Value(p), Kind::Value(q)) if p.map == q.map => *p = offsets_hull(*p, *q),
        _ => join_out_of_line(known, edge),
    }
}

/// Joins the kind `edge` into `known`, for any two kinds; `join_other_kind` calls it unless both are ranges, or pointers into values of one
/// map. It is not inlined, so that `join_other_kind` need not save machine registers on the machine's stack.
#[inline(never)]
fn join_out_of_line(known: &mut Kind, edge: &Kind)
    ensures { known.new ≡ kind_join known.old edge.now }
{
    *known = known.join(*edge);
}

/// Joins `edge`, the kind of a register on another edge to the same instruction, into `known`, its kind on the edges so far. Nothing is
/// written if that changes nothing, which is tested first. There are three such cases: `known` is `Unreadable`; both kinds are the same;
/// both are ranges, or ranges of offsets into values of one map, and the range in `known` includes that in `edge`. `join_other_kind` makes
/// all other joins.
#[inline(always)]
fn join_kind(known: &mut Kind, edge: &Kind)
    ensures { known.new ≡ kind_join known.old edge.now }
{
    match (&mut *known, edge) {
        (Kind::Scalar(range), Kind::Scalar(other)) if holds_range(range, other) => {}
        (Kind::Unreadable, _) => {}
        (Kind::Value(p), Kind::Value(q)) if p.map == q.map && includes_offsets(p, q) => {}
        (kind, other) if are_same(kind, other) => {}
        _ => join_other_kind(known, edge),
    }
}

/// Joins the kind of register `r`, 0 to 10, in `edge`, the facts on another edge to the same instruction, into the kind that this register
/// has in `facts`, those of the edges so far. All else in `facts` is unchanged.
#[inline(always)]
fn join_register(facts: &mut Facts, edge: &Facts, r: usize)
    requires { r < REGISTERS }
    ensures { facts.new
        ≡ with_kind facts.old r (kind_join (kind_at facts.old r) (kind_at edge.now r)) }
{
    join_kind(&mut facts.registers[r], &edge.registers[r]);
}

/// Joins the kind of each register in `edge`, the facts on another edge to the same instruction, into its kind in `facts`. No stack slot
/// changes. There is a call for each register, since the compiler does not unroll a loop of such a length.
pub fn join_registers(facts: &mut Facts, edge: &Facts)
    ensures { facts.new ≡ with_registers facts.old
        (λ r. kind_join (kind_at facts.old r) (kind_at edge.now r)) }
{
    join_register(facts, edge, 0);
    join_register(facts, edge, 1);
    join_register(facts, edge, 2);
    join_register(facts, edge, 3);
    join_register(facts, edge, 4);
    join_register(facts, edge, 5);
    join_register(facts, edge, 6);
    join_register(facts, edge, 7);
    join_register(facts, edge, 8);
    join_register(facts, edge, 9);
    join_register(facts, edge, 10);
}

/// Whether the range of offsets of `p` includes that of `q`. Then the least range with both (`offsets_hull`) is that of `p`, so `join_kind`
/// and `join_slot` have nothing to write. They ask only if both point into values of one map, but that is not required: neither the result
/// nor `offsets_hull`, which has the map of `p`, depends on the map of `q`.
#[inline(always)]
fn includes_offsets(p: &ValuePointer, q: &ValuePointer) -> bool
    ensures { result ≡ true → offsets_hull p.now q.now ≡ p.now }
{
    p.lo <= q.lo && q.hi <= p.hi
}

/// Whether `known` and `edge`, two kinds that are joined, are both the context, pointers to the same stack offset, the same map, or results
/// of the same look-up: then their join is `known`, so nothing has to be written. This holds for the kinds of a register (`kinds`) and for
/// those of spilled values in a stack slot (`spills`). False for two numbers, pointers into values or unreadable kinds, even if they are
/// equal: the callers test or join these themselves.
#[inline(always)]
fn are_same(known: &Kind, edge: &Kind) -> bool
    ensures kinds { result ≡ true → kind_join known.now edge.now ≡ known.now }
    ensures spills { result ≡ true
        → slot_join (Spill known.now) (Spill edge.now) ≡ Spill known.now }
{
    match (known, edge) {
        (Kind::Ctx, Kind::Ctx) => true,
        (Kind::Stack(x), Kind::Stack(y)) => *x == *y,
        (Kind::MapRef(m), Kind::MapRef(n)) => *m == *n,
        (Kind::MaybeValue { map: m, site: s }, Kind::MaybeValue { map: n, site: t }) => *m == *n
            && *s == *t,
        _ => false,
    }
}

/// Joins `other`, the mask of the written bytes of a stack slot on another edge, into `mask`: a byte counts as written only if its bit is 1
/// in both masks. Returns whether this changes `mask`. The contract promises only that after `false` it is unchanged (`stays`), which is
/// all that the contract of the caller `join_slot` needs.
#[inline(always)]
fn keep_common(mask: &mut u8, other: u8) -> bool
    ensures mask { mask.new ≡ bit_and mask.old other }
    ensures stays { result ≡ false → mask.new ≡ mask.old }
{
    let common = *mask & other;
    if common == *mask {
        return false;
    }
    *mask = common;
    true
}

/// Joins `edge`, what is known of a stack slot on another edge to the same instruction, into `known`. The join of two masks of written
/// bytes is the mask of the bytes in both; that of two spills, slots that hold a pointer or a map whole, is a spill with the join of their
/// kinds. If that join is `Unreadable`, or only one side is a spill, no byte counts as written (`Bytes(0)`). Returns false only if `known`
/// is unchanged (`stays`); if it is false for all slots of a group, `join_group` returns false too. The two arms with a condition find
/// spills whose join is `known`. All other spills in `known` go to `join_spill`, which is not inlined and does not return whether it
/// changes anything; so the result is then true.
#[inline(always)]
fn join_slot(known: &mut Slot, edge: &Slot) -> bool
    ensures slot { known.new ≡ slot_join known.old edge.now }
    ensures stays { result ≡ false → known.new ≡ known.old }
{
    match (&mut *known, edge) {
        (Slot::Bytes(mask), Slot::Bytes(other)) => keep_common(mask, *other),
        (Slot::Spill(Kind::Value(p)), Slot::Spill(Kind::Value(q)))
            if p.map == q.map && includes_offsets(p, q) => false,
        (Slot::Spill(kind), Slot::Spill(other)) if are_same(kind, other) => false,
        (Slot::Bytes(mask), Slot::Spill(_)) => {
            let changes = *mask != 0;
            *mask = 0;
            changes
        }
        _ => {
            join_spill(known, edge);
            true
        }
    }
}

/// Joins the stack slot `edge` into `known`. The contract is for any two slots, but the only caller, `join_slot`, has found that `known` is
/// a spill, a slot that holds a pointer or a map whole, and that the join may change it. Two spilled pointers into values of one map give
/// the least range of offsets that includes both (`offsets_hull`), and a spill with an `edge` that is no spill gives a slot without a
/// written byte (`Bytes(0)`). A program can force these two joins in many slots at many of its jumps, so they are done here, in place.
/// `join_any_slots`, which is not inlined and takes more machine instructions, joins in all other cases.
#[inline(never)]
fn join_spill(known: &mut Slot, edge: &Slot)
    ensures { known.new ≡ slot_join known.old edge.now }
{
    match (&mut *known, edge) {
        (Slot::Spill(Kind::Value(p)), Slot::Spill(Kind::Value(q))) if p.map == q.map => {
            *p = offsets_hull(*p, *q);
        }
        (Slot::Spill(_), Slot::Bytes(_)) => *known = Slot::Bytes(0),
        _ => join_any_slots(known, edge),
    }
}

/// Joins `edge`, what is known of a stack slot on another edge to the same instruction, into `known` (`Slot::join`): afterwards `known` is
/// what is known whichever of the two edges is taken. The contract is for any two stack slots. The only caller, `join_spill`, calls this
/// function for two spills that are not both pointers into values of one map. The cases that a program can force in many slots `join_spill`
/// joins by itself. This function is out of line, so that `join_spill` need not save machine registers on the machine's stack.
#[inline(never)]
fn join_any_slots(known: &mut Slot, edge: &Slot)
    ensures { known.new ≡ slot_join known.old edge.now }
{
    *known = known.join(*edge);
}

/// Joins the `GROUP_SLOTS` stack slots of `group` in `edge`, the facts on another edge to the same instruction, into those in `facts`; no
/// other slot and no register changes (clause `facts`). After false no slot has changed (`stack`); after true one may have. After true the
/// verifier gives what is known of the group a new number (`NumberedFacts` of `verifier`), by which it recognizes a join that would change
/// nothing. That is not `group.number`, the position of the group in the stack.
pub fn join_group(facts: &mut Facts, edge: &Facts, group: StackGroup) -> bool
    ensures facts { facts.new ≡ with_slots facts.old
        (group_joined group.number facts.old edge.now) }
    ensures stack { result ≡ false → facts.new.slots ≡ facts.old.slots }
{
    let mut changes = false;
    let first = GROUP_SLOTS * group.number;
    for i in first..first + GROUP_SLOTS {
        if join_slot(&mut facts.slots[i], &edge.slots[i]) {
            changes = true;
        }
    }
    changes
}

/// Joins each stack slot in `edge`, the facts on another edge to the same instruction, into that slot in `facts`, by `slot_join`, the join
/// of two slots. No register changes. Whether a slot has changed, which `join_slot` returns, is not used: the caller `join_into` does not
/// return it.
fn join_stack(facts: &mut Facts, edge: &Facts)
    ensures { facts.new ≡ with_slots facts.old
        (λ i. slot_join (slot_at facts.old i) (slot_at edge.now i)) }
{
    for i in 0..STACK_SLOTS {
        let _ = join_slot(&mut facts.slots[i], &edge.slots[i]);
    }
}

//! Whether each instruction may be run with the facts before it. The facts *in hand* are first these, and then those on its falling edge.
//!
//! A group of eight stack slots that changes gets a new number (`NumberedFacts`). The new numbers at a slot are `8 * slot + 2` for the join
//! before the instruction, `+ 3` for its writes, `+ 4` and `+ 5` for the two edges of a null test, and `+ 6` for the join at the jump's
//! target.

ghost use Rattle.std.specs.Prelude.{◌≡◌, ◌⊎◌, ◌+◌, ◌*◌, ◌<◌, ℕ, [], option_map, if◌then◌else◌, Some, None, IfSome, IfOk, IfErr, OnOk};
ghost use Rattle.tagged_model.specs.Named.{shapes_named};
ghost use Rattle.interval.specs.Refine.{RangePair};
ghost use Rattle.reg_kinds.specs.Laws.{SlotsAbsorb};
ghost use Rattle.verifier.specs.inside.Edges.{falling_from, jumping_from, MayRun};
ghost use Rattle.verifier.specs.inside.Arriving.{Brings, arriving_at};
ghost use Rattle.verifier.specs.inside.Jumps.{JumpsLand};
ghost use Rattle.verifier.specs.inside.Numbers.{facts_on, with_ranges, at_entry, falls_settled, jumps_settled};
ghost use Rattle.verifier.specs.inside.Numbers.{on_falling_edge, on_jumping_edge, IsSent, IsSentIf, IsPast, IsPastIf, AreNumbered};
ghost use Rattle.verifier.specs.inside.Watching.{SeesFault, SeesFirstFault, StopsWatching};
ghost use Rattle.insn_set.specs.Flow.{jump_target};
ghost use Rattle.insn_set.specs.Program.{slot_count};
ghost use Rattle.verifier.specs.Seen.{known_at, with_more, SeesBelow};
ghost use Rattle.verifier.specs.Verdict.{HasNoFault, safety_fault};

use crate::edge_facts::EdgeFacts;
use crate::fault::VerifyFault;
use crate::numbered_facts::NumberedFacts;
use crate::target_facts::TargetFacts;
use crate::watcher::Watcher;
use insn_codec::{Insn, MAX_SLOTS, Operand, Program, Reg};
use interval::Range;
use reg_kinds::{laws, settle_both};
use std::alloc::{AllocError, Global};
use tagged_model::Named;
use transfer::{Flow, apply, set_ranges};

/// The facts during the pass over a program. Their memory is reused by the pass over the next one.
#[derive(Drop)]
pub(crate) struct Pass {
    /// The facts on the falling edge into the next instruction of the pass.
    falling: EdgeFacts,
    /// The facts on the jumps to later slots, joined for each target.
    entries: TargetFacts,
    /// Space for the facts on the jumping edge of a null test.
    taken: NumberedFacts,
}

/// Passes the facts in `hand`, those before a comparison of `dst` with `src`, along its jumping edge. `jumps` has the ranges of `dst` and
/// of `src` on this edge; if it is `None`, the edge can't be taken, and nothing is done. Else the operands in `hand` get these ranges, and
/// `hand` is joined into the facts that `entries` has for the slot `target` (`sent`). Each group of eight stack slots that the join changes
/// there gets the number `fresh`, which is new in the pass: groups with the same index and number have equal facts (`NumberedFacts`), so a
/// later join that would change nothing is recognized. `target` is below `MAX_SLOTS` (`lands`), as each slot of a program. `None` is a jump
/// to below slot 0, a fault of the program's shape, which a program in the pass does not have; nothing is joined then. By the clause `hand`
/// only the ranges of the operands have changed in `hand`: once they are set to any pair `q` (`with_ranges`), the facts are the same as if
/// `q` had been set before the call. The caller then sets those of the falling edge. The error is out of memory.
#[inline(always)]
fn send_compared(
    hand: &mut NumberedFacts,
    entries: &mut TargetFacts,
    target: Option<usize>,
    fresh: usize,
    dst: Reg,
    src: Operand,
    jumps: Option<(Range, Range)>,
) -> Result<(), AllocError>
    requires lands { IfSome target (λ to. to < MAX_SLOTS) }
    ensures hand { OnOk result ((q : RangePair)
        → with_ranges hand.new dst src q ≡ with_ranges hand.old dst src q) }
    ensures sent { OnOk result (IsSentIf target fresh
        (option_map (with_ranges hand.old dst src) jumps) entries.old entries.new) }
{
    match jumps {
        Some(ranges) => {
            set_ranges(&mut hand.facts, dst, &src, ranges);
            entries.send(target, hand, fresh)
        }
        // The jump is never taken.
        None => Ok(()),
    }
}

/// The two operands of a comparison, as one parameter.
struct Compared {
    dst: Reg,
    src: Operand,
}

/// Passes the facts in `hand`, those before a jump that compares the operands `compared`, along the two edges of the jump. `falls` and
/// `jumps` are for the falling and the jumping edge: `None` if the edge can't be taken, else the range of `dst` on it and then that of
/// `src`. The facts on an edge are those before the jump with these ranges (`with_ranges`). Those on the jumping edge are joined into the
/// facts that `entries` has for `target` (clause `sent`); nothing is joined if the edge can't be taken, or if `target` is `None`, for a
/// jump to below slot 0. Each group of eight stack slots that the join changes gets the number `fresh`, which is new in the pass: two
/// groups with the same index and number are equal, so a join that would change nothing is recognized by the numbers. `target` is a slot of
/// the program, so below `MAX_SLOTS` (`lands`). Returns whether the falling edge can be taken (clause `falls`): if so, `hand` then has the
/// facts on it; if not, nothing is promised of `hand`. The error is out of memory.
#[inline(always)]
fn leave_comparison(
    hand: &mut NumberedFacts,
    entries: &mut TargetFacts,
    target: Option<usize>,
    fresh: usize,
    compared: Compared,
    falls: Option<(Range, Range)>,
    jumps: Option<(Range, Range)>,
) -> Result<bool, AllocError>
    requires lands { IfSome target (λ to. to < MAX_SLOTS) }
    ensures falls { IfOk result (λ falling. (if falling then Some hand.new else None)
        ≡ option_map (with_ranges hand.old compared.dst compared.src) falls) }
    ensures sent { OnOk result (IsSentIf target fresh
        (option_map (with_ranges hand.old compared.dst compared.src) jumps)
        entries.old entries.new) }
{
    let Compared { dst, src } = compared;
    send_compared(hand, entries, target, fresh, dst, src, jumps)?;
    match falls {
        Some(ranges) => {
            set_ranges(&mut hand.facts, dst, &src, ranges);
            Ok(true)
        }
        None => Ok(false),
    }
}

/// Passes the facts in `hand`, those before the null test at `slot`, along its two edges. The test settles the look-up at slot `site`: if
/// `jumps_on_null`, its result is null on the jumping edge and not null on the falling edge, else the opposite. Then `hand` has the facts
/// on the falling edge (`falls`). Those on the jumping edge are made in `taken`, a buffer whose old facts mean nothing, and joined into the
/// facts that `entries` has for `target` (`sent`); for `None`, a jump to below slot 0, nothing is joined. A target is a slot of the program
/// (`lands`), since the program's shape has no fault. A null test may change any group of eight stack slots, so all get a new number:
/// `8 * slot + 4` on the jumping edge, `+ 5` on the falling edge. Groups that the join changes at the target get `+ 6`. In all facts of a
/// pass, groups with the same index and number are equal: by this a later join that would change nothing is recognized, and left out. The
/// error is out of memory.
fn leave_null_test(
    hand: &mut NumberedFacts,
    entries: &mut TargetFacts,
    taken: &mut NumberedFacts,
    target: Option<usize>,
    slot: usize,
    site: usize,
    jumps_on_null: bool,
) -> Result<(), AllocError>
    requires room { slot < MAX_SLOTS }
    requires lands { IfSome target (λ to. to < MAX_SLOTS) }
    ensures falls { OnOk result (hand.new ≡ falls_settled site jumps_on_null slot hand.old) }
    ensures sent { OnOk result (IsSent target (8 * slot + 6)
        (jumps_settled site jumps_on_null slot hand.old) entries.old entries.new) }
{
    settle_both(&mut hand.facts, &mut taken.facts, site, jumps_on_null);
    taken.renumber(8 * slot + 4);
    hand.renumber(8 * slot + 5);
    entries.send(target, taken, 8 * slot + 6)
}

/// Passes `hand`, the facts after the instruction at `slot`, along its edges. `flow` says which of them control may take, and what holds on
/// only one. Returns whether the falling edge can be taken: `false` after an exit, a jump that is always taken, and a comparison that
/// always holds. Afterwards `hand` has the facts on this edge (`falls`), or means nothing if the result is `false`. The facts on the
/// jumping edge are joined into those that `entries` has for `target` (`sent`); nothing is joined if `target` is `None` or this edge is
/// never taken. `target` is a slot of the program, so below `MAX_SLOTS` (`lands`), as the program's shape has no fault. `taken` is space
/// for the facts on the jumping edge of a null test. Groups of eight stack slots that may change get new numbers, by which a join that
/// would change nothing is recognized (`NumberedFacts`): `8 * slot + 4` on the jumping and `+ 5` on the falling edge of a null test, `+ 6`
/// by a join at `target`. By `room` these do not overflow. The error is out of memory.
#[inline(always)]
fn leave_by(
    hand: &mut NumberedFacts,
    entries: &mut TargetFacts,
    taken: &mut NumberedFacts,
    flow: &Flow,
    target: Option<usize>,
    slot: usize,
) -> Result<bool, AllocError>
    requires room { slot < MAX_SLOTS }
    requires lands { IfSome target (λ to. to < MAX_SLOTS) }
    ensures falls { IfOk result (λ falling. (if falling then Some hand.new else None)
        ≡ on_falling_edge flow.now (8 * slot + 5) hand.old) }
    ensures sent { OnOk result (IsSentIf target (8 * slot + 6)
        (on_jumping_edge flow.now (8 * slot + 4) hand.old) entries.old entries.new) }
{
    match *flow {
        Flow::Ends => Ok(false),
        Flow::Falls => Ok(true),
        Flow::WritesSlot(_) => Ok(true),
        Flow::Writes => Ok(true),
        Flow::Jumps => {
            entries.send(target, hand, 8 * slot + 6)?;
            Ok(false)
        }
        Flow::Either => {
            entries.send(target, hand, 8 * slot + 6)?;
            Ok(true)
        }
        Flow::Compares {
            dst,
            src,
            falls,
            jumps,
        } => {
            let compared = Compared { dst, src };
            leave_comparison(hand, entries, target, 8 * slot + 6, compared, falls, jumps)
        }
        Flow::Settles {
            site,
            jumps_on_null,
        } => {
            leave_null_test(hand, entries, taken, target, slot, site, jumps_on_null)?;
            Ok(true)
        }
    }
}

/// Passes the facts after `insn`, the instruction at `slot`, along its edges. `flow` says which edges control may take, and what holds on
/// only one. At the call `hand` has the facts after the instruction. Afterwards it has those on the falling edge, if the result is `true`;
/// if `false`, this edge can't be taken, and `hand` means nothing (`falls`). The facts on the jumping edge are joined into those that
/// `entries` has for the jump's target (`sent`), a slot of the program, as the program's shape has no fault (`lands`). `taken` is space for
/// the facts on the jumping edge of a null test. Each group of eight stack slots has a number that identifies what is known of it, so that
/// a repeated join is left out (`NumberedFacts`). New numbers are `8 * slot + 4` for all groups on the jumping and `+ 5` on the falling
/// edge of a null test, and `+ 6` for those that the join at the target changes. A flow that has only the falling edge needs no target, so
/// none is computed. The error is out of memory.
#[inline(always)]
fn leave(
    hand: &mut NumberedFacts,
    entries: &mut TargetFacts,
    taken: &mut NumberedFacts,
    flow: &Flow,
    insn: &Insn,
    slot: usize,
) -> Result<bool, AllocError>
    requires room { slot < MAX_SLOTS }
    requires lands { IfSome (jump_target insn.now slot) (λ to. to < MAX_SLOTS) }
    ensures falls { IfOk result (λ falling. (if falling then Some hand.new else None)
        ≡ on_falling_edge flow.now (8 * slot + 5) hand.old) }
    ensures sent { OnOk result (IsSentIf (jump_target insn.now slot) (8 * slot + 6)
        (on_jumping_edge flow.now (8 * slot + 4) hand.old) entries.old entries.new) }
{
    match flow {
        Flow::Falls => Ok(true),
        Flow::WritesSlot(_) => Ok(true),
        Flow::Writes => Ok(true),
        _ => leave_by(
            hand,
            entries,
            taken,
            flow,
            insn.profile().successors.target(slot),
            slot,
        ),
    }
}

/// Passes the facts before the instruction at `slot`, which are in `hand`, to the watcher, and then changes `hand`, by the transfer
/// function (`apply`), to the facts on the falling edge. The facts on the jumping edge, if it can be taken, are joined into those that
/// `entries` has for the jump's target, a slot of the program (`lands`). Both changes are in `past`. Groups of eight stack slots into which
/// the instruction may have written get the new number `8 * slot + 3`: groups with the same index and number have to be equal in all facts
/// of a pass. `leave` gives further numbers on the edges. By `room` none overflows. `taken` is space for the facts on the jumping edge of a
/// null test, and `named` lists the objects that descriptors name. Returns whether the falling edge can be taken; if not, nothing is
/// promised of `hand`. Without an error the instruction may be run with the facts before it (`ok`), and the watcher has received these
/// (`seen`). The error (`refused`) is why the instruction may not be run, after the watcher has received the facts, or out of memory,
/// whether it has received them or not.
#[inline(always)]
fn run_past<W: Watcher>(
    hand: &mut NumberedFacts,
    entries: &mut TargetFacts,
    taken: &mut NumberedFacts,
    named: &[Named],
    insn: &Insn,
    slot: usize,
    watcher: &mut W,
) -> Result<bool, VerifyFault>
    requires room { slot < MAX_SLOTS }
    requires lands { IfSome (jump_target insn.now slot) (λ to. to < MAX_SLOTS) }
    ensures ok { OnOk result (MayRun (shapes_named named.now) slot insn.now (Some hand.old.facts)) }
    ensures past { IfOk result (λ falling. IsPast (shapes_named named.now) slot insn.now hand.old
        entries.old (if falling then Some hand.new else None) entries.new) }
    ensures seen { OnOk result (W.seen watcher.new
        ≡ with_more (W.seen watcher.old) (known_at slot (Some hand.old.facts))) }
    ensures refused { IfErr result (λ e. StopsWatching (W.seen watcher.old) (W.seen watcher.new)
        slot (Some hand.old.facts) e
        ⊎ SeesFault (shapes_named named.now) slot insn.now (Some hand.old.facts)
        (W.seen watcher.old) (W.seen watcher.new) e) }
{
    watcher.before(slot, &hand.facts)?;
    match apply(&mut hand.facts, named, slot, insn) {
        Ok(flow) => {
            hand.renumber_written(&flow, 8 * slot + 3);
            Ok(leave(hand, entries, taken, &flow, insn, slot)?)
        }
        Err(reason) => Err(VerifyFault { slot, reason }),
    }
}

impl Pass {
    /// A pass that has not begun: its facts mean nothing before the call of `begin`. Allocates nothing.
    pub(crate) fn new(alloc: Global) -> Pass {
        Pass {
            falling: EdgeFacts {
                is_known: false,
                known: NumberedFacts::at_entry(),
            },
            entries: TargetFacts::new(alloc),
            taken: NumberedFacts::at_entry(),
        }
    }

    /// Begins a pass over a program: the facts before slot 0 are those at program entry (`falling`), and no jump has brought facts to a
    /// later slot (`entries`). `end` empties `entries`. `judge` calls `end` after each pass, but no contract promises that `entries` is
    /// empty before the next one; so `begin` calls it again.
    fn begin(&mut self)
        ensures falling { self.new.falling ≡ Some at_entry }
        ensures entries { self.new.entries ≡ [] }
    {
        self.end();
        self.falling.known = NumberedFacts::at_entry();
        self.falling.is_known = true;
    }

    /// Ends a pass: removes the facts on jumps that are left in `entries` if a program is rejected before the targets of these jumps. Their
    /// memory is kept for later passes.
    pub(crate) fn end(&mut self)
        ensures { self.new.entries ≡ [] }
    {
        self.entries.clear();
    }

    /// Takes the pass past `insn`, the instruction at `slot`. Before, `step` has joined the facts on the jumps to `slot` into `falling`, so
    /// `falling` has those before the instruction. If it has none, no run reaches the instruction, and nothing is done. Otherwise the
    /// watcher gets these facts (`seen`). Then `falling` has the facts on the falling edge, or none if this edge can't be taken. Those on
    /// the jumping edge, if it can be taken, are joined into those that `entries` has for the jump's target (`past`), a slot of the
    /// program, as its shape has no fault, and so below `MAX_SLOTS` (`lands`). `taken` is space for the facts on the jumping edge of a null
    /// test; no clause is about it. `Ok`: the instruction may be run with the facts before it (`ok`). The error (`refused`) is why it may
    /// not, after the watcher got the facts (`SeesFault`), or out of memory, whether the watcher got them or not (`StopsWatching`). `named`
    /// lists the descriptors of the program's maps, each with the shape of its map, and no other open descriptor. Each group of eight stack
    /// slots that changes gets a new number, at most `8 * slot + 6`, by which a join finds equal groups. By `room` the number does not
    /// overflow.
    #[inline(always)]
    fn run_past_if_reached<W: Watcher>(
        &mut self,
        named: &[Named],
        insn: &Insn,
        slot: usize,
        watcher: &mut W,
    ) -> Result<(), VerifyFault>
        requires room { slot < MAX_SLOTS }
        requires lands { IfSome (jump_target insn.now slot) (λ to. to < MAX_SLOTS) }
        ensures ok { OnOk result
            (MayRun (shapes_named named.now) slot insn.now (facts_on self.old.falling)) }
        ensures past { OnOk result (IsPastIf (shapes_named named.now) slot insn.now
            self.old.falling self.old.entries self.new.falling self.new.entries) }
        ensures seen { OnOk result (W.seen watcher.new
            ≡ with_more (W.seen watcher.old) (known_at slot (facts_on self.old.falling))) }
        ensures refused { IfErr result (λ e. StopsWatching (W.seen watcher.old) (W.seen watcher.new)
            slot (facts_on self.old.falling) e
            ⊎ SeesFault (shapes_named named.now) slot insn.now (facts_on self.old.falling)
            (W.seen watcher.old) (W.seen watcher.new) e) }
    {
        if self.falling.is_known {
            self.falling.is_known = run_past(
                &mut self.falling.known,
                &mut self.entries,
                &mut self.taken,
                named,
                insn,
                slot,
                watcher,
            )?;
        }
        Ok(())
    }

    /// Takes the pass past `insn`, the instruction at `slot`. First the facts on jumps to `slot` are joined into `falling`, which has the
    /// facts on the falling edge to `slot`. Then `run_past_if_reached` passes the joined facts (`arriving_at`) to the watcher (`seen`),
    /// replaces them in `falling` by those on the falling edge out of `insn`, if any (clause `falling`), and joins those on the jumping
    /// edge into the facts that `entries` has for the jump's target, a slot of the program, so below `MAX_SLOTS` (`lands`); those of no
    /// other later slot change (`sent`). Without joined facts no run reaches `insn`, and nothing is done. If there is no error, `insn` may
    /// be run with the joined facts (`ok`). The error (`refused`) is why it may not, after the watcher got the joined facts, or out of
    /// memory, before or after that. `named` lists the open descriptors of the program's maps, each with its object, and no other
    /// descriptor. By `numbered`, groups of eight stack slots with the same index and number are equal in all these facts
    /// (`NumberedFacts`), and all numbers are below `8 * slot + 2`. So the numbers that this step gives, from that one on, are new. They
    /// are below the bound of the next slot, for which the clause holds again. For each group, `includes` has the number of the group that
    /// was joined into it last, or 0, which no group has, if none was since an instruction may have changed the group. A join leaves out a
    /// group with the number in `includes`: by `absorb`, a second join of a stack slot with what was joined into it last changes nothing.
    fn step<W: Watcher>(
        &mut self,
        named: &[Named],
        insn: &Insn,
        slot: usize,
        watcher: &mut W,
    ) -> Result<(), VerifyFault>
        requires room { slot < MAX_SLOTS }
        requires lands { IfSome (jump_target insn.now slot) (λ to. to < MAX_SLOTS) }
        requires absorb { SlotsAbsorb }
        requires numbered { AreNumbered slot (8 * slot + 2) self.old.falling self.old.entries }
        ensures ok { OnOk result
            (MayRun (shapes_named named.now) slot insn.now (arriving_at slot self.old)) }
        ensures falling { OnOk result (facts_on self.new.falling
            ≡ falling_from (shapes_named named.now) slot insn.now (arriving_at slot self.old)) }
        ensures sent { OnOk result ((i : ℕ) → slot < i → Brings (jump_target insn.now slot)
            (jumping_from (shapes_named named.now) slot insn.now (arriving_at slot self.old))
            self.old.entries self.new.entries i) }
        ensures numbered { OnOk result
            (AreNumbered (slot + 1) (8 * slot + 10) self.new.falling self.new.entries) }
        ensures seen { OnOk result (W.seen watcher.new
            ≡ with_more (W.seen watcher.old) (known_at slot (arriving_at slot self.old))) }
        ensures refused { IfErr result (λ e. StopsWatching (W.seen watcher.old) (W.seen watcher.new)
            slot (arriving_at slot self.old) e
            ⊎ SeesFault (shapes_named named.now) slot insn.now (arriving_at slot self.old)
            (W.seen watcher.old) (W.seen watcher.new) e) }
    {
        self.entries.join_at(slot, &mut self.falling, 8 * slot + 2)?;
        self.run_past_if_reached(named, insn, slot, watcher)
    }
}

/// Finds the first instruction that may not be run with the facts before it, in one pass over the slots. `Ok` if there is none, so no slot
/// has a fault of safety (`sound`). The error is the slot of this instruction with the reason, or out of memory, at slot 0. `named` has the
/// objects that the descriptors of the program's maps name, and `pass` is memory for the facts. The second slot of a wide instruction is
/// passed with it. The watcher receives the facts before each instruction that a run may reach, by slot, in addition to what it had
/// (`W.seen`). After `Ok` it has received all of them (`seen`); after a fault those up to the slot of the fault, with this one; if out of
/// memory, those below some slot (`refused`). No jump leads past the end (`JumpsLand`): the caller has checked the shape. The three laws do
/// nothing when they run; the proof needs them.
pub(crate) fn check_safety<W: Watcher>(
    program: &Program,
    named: &[Named],
    watcher: &mut W,
    pass: &mut Pass,
) -> Result<(), VerifyFault>
    requires { JumpsLand program.now }
    ensures sound { OnOk result (HasNoFault (safety_fault (shapes_named named.now) program.now)) }
    ensures seen { OnOk result (SeesBelow (slot_count program.now) (shapes_named named.now)
        program.now (W.seen watcher.old) (W.seen watcher.new)) }
    ensures refused { IfErr result (λ e. SeesFirstFault (shapes_named named.now) program.now
        (W.seen watcher.old) (W.seen watcher.new) e) }
{
    laws::joins_commute();
    laws::joins_associate();
    laws::slots_absorb();
    let slots = program.slots();
    let code = program.code();
    pass.begin();
    let mut slot = 0;
    while slot < slots {
        let insn = &code[slot];
        pass.step(named, insn, slot, watcher)?;
        slot += insn.slots();
    }
    Ok(())
}

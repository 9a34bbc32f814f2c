//! The shape of a program.

ghost use Rattle.std.specs.Prelude.{◌≡◌, ◌⊎◌, ◌≤◌, ◌<◌, nat_le, not, [], ◌∷◌, List, length, true, false, None, Some, IsTrue, IfErr, IfOk, OnOk};
ghost use Rattle.reg_kinds.specs.declared.reason.Reason.TheVariants.{JumpOutside, JumpBackward, FallsOff, Unreachable};
ghost use Rattle.reg_kinds.specs.declared.reason.Reason.TheVariants.{FramePointerWritten, DescriptorNotOpen, DescriptorNotMap};
ghost use Rattle.reg_kinds.specs.declared.reason.Reason.TheVariants.{NoDirectValue};
ghost use Rattle.insn_set.specs.Profile.{profile};
ghost use Rattle.insn_set.specs.Program.{slot_count};
ghost use Rattle.insn_set.specs.Flow.{falls_to, falls, jumps, jump_target, descriptor, descriptor_by, is_number};
ghost use Rattle.tagged_model.specs.declared.shape.Named.{Named as AnyNamed};
ghost use Rattle.verifier.specs.declared.cost.Counts.{Counts as AnyCounts};
ghost use Rattle.verifier.specs.Cost.{IsCostOf};
ghost use Rattle.verifier.specs.Shape.{is_reachable, names_unknown_helper, is_not_open, is_not_map, lacks_direct_value};
ghost use Rattle.verifier.specs.Shape.{first_reason, shape_reason, structure_fault};
ghost use Rattle.verifier.specs.inside.Jumps.{target_reason, JumpsLand};
ghost use Rattle.verifier.specs.inside.Longest.{AreFew, IsAdded, IsSimple, LeadTo};
ghost use Rattle.verifier.specs.Verdict.{IsFirstFault, HasNoFault, memory_fault};

use crate::cost::{Cost, Counts, NO_COUNTS, Paths};
use crate::fault::VerifyFault;
use insn_codec::{Insn, MAX_SLOTS, Profile, Program, Reference, Reg, Successors};
use reg_kinds::Reason;
use tagged_model::{Named, Target, known_helper, shape_of, target_of};

/// The number of the register that is the frame pointer.
const FRAME_POINTER: u8 = 10;

/// Whether an instruction writes the frame pointer, register 10, which a program may only read: if so, it is rejected
/// (`FramePointerWritten`). `written` is the register that the instruction writes; if it writes none (`None`), the result is `false`.
fn writes_frame_pointer(written: Option<Reg>) -> bool
    ensures { result ≡ is_number written 10 }
{
    match written {
        Some(register) => register.number() == FRAME_POINTER,
        None => false,
    }
}

/// Whether an instruction calls a helper, and there is none with this number (`known_helper`). `reference` is what the instruction names;
/// only a call names a helper. `shape_fault_of` needs this for the fault `UnknownHelper`.
fn names_unknown_helper(reference: Reference) -> bool
    ensures { result ≡ names_unknown_helper reference }
{
    match reference {
        Reference::Helper(id) => known_helper(id).is_none(),
        Reference::Nothing => false,
        Reference::Map(_) => false,
        Reference::Value(_, _) => false,
    }
}

/// Whether an instruction loads the address of a byte in a map's value directly, that is, without a call, and may not: the map is no array
/// of one element, or the offset is outside its value (`has_direct_value` is false). `named` lists what descriptors name, and `reference`
/// is what the instruction names. `false` for an instruction that loads no such address, and also if the descriptor names no map, which is
/// another fault.
fn lacks_direct_value(named: &[Named], reference: Reference) -> bool
    ensures { result ≡ lacks_direct_value named.now reference }
{
    match reference {
        Reference::Value(fd, off) => match shape_of(named, fd) {
            Some(shape) => !shape.has_direct_value(off),
            None => false,
        },
        Reference::Nothing => false,
        Reference::Helper(_) => false,
        Reference::Map(_) => false,
    }
}

/// Why the descriptor that an instruction names is at fault; `None` if there is no fault, or the instruction names no descriptor. `named`
/// has the open descriptors with their objects. The fault is the first that applies (`first_reason`): the descriptor is not open, it names
/// a program and no map, or the instruction loads the address of a byte in the map's value, and the map is no array of one element, or its
/// value has no byte at the offset.
fn descriptor_reason(named: &[Named], reference: Reference) -> Option<Reason>
    ensures { result ≡ first_reason
        ((is_not_open named.now (descriptor_by reference), DescriptorNotOpen)
        ∷ (is_not_map named.now (descriptor_by reference), DescriptorNotMap)
        ∷ (lacks_direct_value named.now reference, NoDirectValue) ∷ []) }
{
    match target_of(named, reference.descriptor()?) {
        None => Some(Reason::DescriptorNotOpen),
        Some(Target::Program) => Some(Reason::DescriptorNotMap),
        Some(Target::Map(_)) if lacks_direct_value(named, reference) => Some(Reason::NoDirectValue),
        Some(Target::Map(_)) => None,
    }
}

/// The slot to which `insn`, an instruction at `slot` that may jump (`jumps`), jumps. It is a slot of the program (`lands`), and has no fault
/// (`none`). The error is the fault of the target: `JumpOutside` if it is below slot 0 or no instruction begins there, else `JumpBackward`
/// if it is `slot` or an earlier slot. Such a fault is the first of the instruction, whatever descriptors are open (`refused`). `row` has
/// the properties of `insn` (`profile`). By `room` the sum `slot + 1`, from which the jump counts, does not overflow.
#[tactic(auto, using(crate::proofs::Reached::first_within, crate::proofs::Reached::target_fault_is_first))]
fn landing_of(program: &Program, insn: &Insn, row: &Profile, slot: usize) -> Result<usize, Reason>
    requires room { slot ≤ MAX_SLOTS }
    requires row { row.now ≡ profile insn.now }
    requires jumps { jumps insn.now ≡ true }
    ensures lands { IfOk result (λ to.
        (jump_target insn.now slot ≡ Some to) × (to < slot_count program.now)) }
    ensures none { OnOk result (target_reason program.now insn.now slot ≡ None) }
    ensures refused { (named : List AnyNamed) → IfErr result (λ reason.
        shape_reason program.now named insn.now slot ≡ Some reason) }
{
    match row.successors.target(slot) {
        Some(to) if !program.is_first(to) => Err(Reason::JumpOutside),
        Some(to) if to <= slot => Err(Reason::JumpBackward),
        Some(to) => Ok(to),
        None => Err(Reason::JumpOutside),
    }
}

/// Whether an instruction is simple, which excludes all faults of shape, so that `check_and_add` makes no other check of it. `row` is its
/// profile, `next` the slot after it, and `slots` the number of the program's slots. `paths` has the most instructions on a path to it,
/// without itself. It is simple if this number is not 0, so that it can be reached; if its only successor is the next instruction, and
/// `next` is a slot of the program; if it names no helper and no descriptor; and if it does not write the frame pointer. Only `true`
/// promises something (`IsSimple`): after `false`, as always at slot 0, to which the only path has no instruction, the caller makes all
/// checks, which may find no fault either.
#[inline(always)]
fn is_simple(row: &Profile, next: usize, slots: usize, paths: &Paths) -> bool
    ensures { IsTrue result → IsSimple row.now next slots paths.now }
{
    match (row.successors, row.reference) {
        (Successors::Next, Reference::Nothing) => {
            next < slots && paths.have_instructions() && !writes_frame_pointer(row.written)
        }
        _ => false,
    }
}

/// The first fault of shape of `insn`, an instruction at `slot` that does not jump (`stays`), in this order; `None` if it has none.
/// `FallsOff`: it can fall past the program's end. `Unreachable`: no path leads to it (`is_reached` is false). `UnknownHelper`: it calls a
/// helper by a number that none has. `FramePointerWritten`: it writes register 10. `DescriptorNotOpen`, `DescriptorNotMap`: its descriptor
/// is not open, or names a program. `NoDirectValue`: it loads the address of a value's byte, and the map is no array of one element or its
/// value has no such byte. `named` has the open descriptors with their objects, `row` the properties of `insn` (`profile`). By `room` no
/// sum overflows.
#[inline(always)]
fn shape_fault_of(
    program: &Program,
    named: &[Named],
    insn: &Insn,
    row: &Profile,
    slot: usize,
    is_reached: bool,
) -> Option<Reason>
    requires room { slot ≤ MAX_SLOTS }
    requires row { row.now ≡ profile insn.now }
    requires reached { is_reached ≡ is_reachable program.now slot }
    requires stays { jumps insn.now ≡ false }
    ensures { result ≡ shape_reason program.now named.now insn.now slot }
{
    if row.successors.falls() && slot + row.slots >= program.slots() {
        Some(Reason::FallsOff)
    } else if !is_reached {
        Some(Reason::Unreachable)
    } else if names_unknown_helper(row.reference) {
        Some(Reason::UnknownHelper)
    } else if writes_frame_pointer(row.written) {
        Some(Reason::FramePointerWritten)
    } else {
        descriptor_reason(named, row.reference)
    }
}

/// Checks `insn`, an instruction at `slot` that does not jump (`stays`), by all rules of shape. `check_and_add` calls this unless a shorter
/// test (`is_simple`) has found that the instruction has no fault. `named` has the open descriptors with their objects. The error is the
/// first fault (`refused`). `paths` has the most instructions and calls on the paths to `slot`, neither above `MAX_SLOTS` (`few`), so no
/// count overflows, and by `room` no number of a slot; `slot` is reachable exactly if it is 0 or these paths have an instruction
/// (`reached`). Without a fault (`fine`) the instruction is added to these counts (`added`). If it is an exit, the new counts are joined
/// into those at the exits, which `paths` has too: of each count the greater is kept. Then `paths` has the counts along the falling edge,
/// or 0 for both (`NO_COUNTS`) after an exit. The counts on the jumps to each slot, `jumping` of the clause, stay as they are.
#[inline(always)]
fn check_and_count(
    program: &Program,
    named: &[Named],
    insn: &Insn,
    slot: usize,
    paths: &mut Paths,
) -> Result<(), Reason>
    requires room { slot ≤ MAX_SLOTS }
    requires stays { jumps insn.now ≡ false }
    requires reached { LeadTo program.now slot paths.old }
    requires few { AreFew paths.old }
    ensures fine { OnOk result (shape_reason program.now named.now insn.now slot ≡ None) }
    ensures added { (jumping : List AnyCounts) → OnOk result
        (IsAdded insn.now slot paths.old paths.new jumping jumping) }
    ensures refused { IfErr result (λ reason.
        shape_reason program.now named.now insn.now slot ≡ Some reason) }
{
    let row = insn.profile();
    match shape_fault_of(program, named, insn, &row, slot, paths.lead_to(slot)) {
        Some(reason) => Err(reason),
        None => {
            paths.add(insn, &row, slot);
            Ok(())
        }
    }
}

/// Checks `insn`, an instruction at `slot` that may jump (`jumps`), by all rules of shape. It calls no helper, names no descriptor and
/// writes no register, so it can have only these faults, in this order: one of its target (`landing_of`), `FallsOff`, and `Unreachable`.
/// The error is the first, whatever descriptors are open (`refused`). `paths` has the most instructions and calls on the paths to `slot`,
/// neither above `MAX_SLOTS` (`few`), so no count overflows, and by `room` no number of a slot; `slot` is reachable exactly if it is 0 or
/// these paths have an instruction (`reached`). `jumping` has, for each slot of the program (`long`), the most on the paths that end with a
/// jump there. Without a fault (`fine`) the instruction is added to these counts (`added`): the new ones are joined into those of its
/// target in `jumping` (of each count the greater is kept), and `paths` has them along the falling edge, or 0 for both (`NO_COUNTS`) if
/// there is none.
#[inline(always)]
fn check_jump(
    program: &Program,
    insn: &Insn,
    slot: usize,
    jumping: &mut [Counts],
    paths: &mut Paths,
) -> Result<(), Reason>
    requires room { slot ≤ MAX_SLOTS }
    requires jumps { jumps insn.now ≡ true }
    requires long { length jumping.old ≡ slot_count program.now }
    requires reached { LeadTo program.now slot paths.old }
    requires few { AreFew paths.old }
    ensures fine { (named : List AnyNamed) →
        OnOk result (shape_reason program.now named insn.now slot ≡ None) }
    ensures added { OnOk result
        (IsAdded insn.now slot paths.old paths.new jumping.old jumping.new) }
    ensures refused { (named : List AnyNamed) → IfErr result (λ reason.
        shape_reason program.now named insn.now slot ≡ Some reason) }
{
    let row = insn.profile();
    let to = landing_of(program, insn, &row, slot)?;
    if row.successors.falls() && slot + row.slots >= program.slots() {
        Err(Reason::FallsOff)
    } else if !paths.lead_to(slot) {
        Err(Reason::Unreachable)
    } else {
        paths.add_jump(jumping, insn, &row, slot, to);
        Ok(())
    }
}

/// Checks the shape of `insn`, the instruction at `slot` (at most `MAX_SLOTS`: `room`), whose profile is `row`. `named` has the open
/// descriptors with their objects. The error is the first fault of shape (`refused`). `paths` has the most instructions and calls on the
/// paths to `slot`, neither above `MAX_SLOTS` (`few`); `slot` is reachable exactly if it is 0 or these paths have an instruction
/// (`reached`). `jumping` has, for each slot (`long`), the most on the paths that end with a jump there. Without a fault (`fine`) `insn` is
/// added to the paths to `slot` (`added`): `paths` then has the counts on the falling edge, both 0 if there is no such edge, and those at
/// the exits; `jumping` has those of a jump for its target. Of the counts of several paths the greater one is kept. A simple instruction
/// (`is_simple`) can be reached, has only the next slot of the program as its successor, names no helper and no descriptor and does not
/// write `FRAME_POINTER`; so it has no fault, and is added unchecked.
#[inline(always)]
fn check_and_add(
    program: &Program,
    named: &[Named],
    insn: &Insn,
    row: &Profile,
    slot: usize,
    jumping: &mut [Counts],
    paths: &mut Paths,
) -> Result<(), Reason>
    requires room { slot ≤ MAX_SLOTS }
    requires row { row.now ≡ profile insn.now }
    requires long { length jumping.old ≡ slot_count program.now }
    requires reached { LeadTo program.now slot paths.old }
    requires few { AreFew paths.old }
    ensures fine { OnOk result (shape_reason program.now named.now insn.now slot ≡ None) }
    ensures added { OnOk result
        (IsAdded insn.now slot paths.old paths.new jumping.old jumping.new) }
    ensures refused { IfErr result (λ reason.
        shape_reason program.now named.now insn.now slot ≡ Some reason) }
{
    if is_simple(row, slot + row.slots, program.slots(), paths) {
        paths.add_simple();
        Ok(())
    } else if row.successors.jumps() {
        check_jump(program, insn, slot, jumping, paths)
    } else {
        check_and_count(program, named, insn, slot, paths)
    }
}

/// Checks a program's shape in one pass, and returns the program's cost (`cost`): the most instructions, and the most calls of helpers, on
/// a path from slot 0 to an exit. On success no slot has a fault of the shape (`sound`), and each jump leads to a slot of the program
/// (`lands`), as `check_safety` requires. The error is the fault at the lowest slot that has one, or out of memory, at slot 0 (`refused`).
/// `named` lists the open descriptors and their objects. `jumping` is a buffer, whose old contents mean nothing: by slot, the most
/// instructions and calls on the paths that end with a jump there.
#[inline(never)]
pub(crate) fn check_shape(
    program: &Program,
    named: &[Named],
    jumping: &mut Vec<Counts>,
) -> Result<Cost, VerifyFault>
    ensures sound { OnOk result (HasNoFault (structure_fault program.now named.now)) }
    ensures lands { OnOk result (JumpsLand program.now) }
    ensures cost { IfOk result (λ cost. IsCostOf cost program.now) }
    ensures refused { IfErr result (λ e. (e ≡ memory_fault)
        ⊎ IsFirstFault (structure_fault program.now named.now) e.slot e.reason) }
{
    let slots = program.slots();
    jumping.clear();
    jumping.resize(slots, NO_COUNTS)?;
    let jumping = jumping.as_mut_slice();
    let code = program.code();
    let mut paths = Paths::new();
    let mut slot = 0;
    while slot < slots {
        let insn = &code[slot];
        paths.join(jumping[slot]);
        let row = insn.profile();
        if let Err(reason) = check_and_add(program, named, insn, &row, slot, jumping, &mut paths) {
            return Err(VerifyFault { slot, reason });
        }
        slot += row.slots;
    }
    Ok(paths.cost())
}

//! Laws of the verdict and of accepted programs, for the proofs that use them. Each law is the contract
//! of a function that does nothing.

ghost use Rattle.std.specs.Prelude.{◌≡◌, ◌≢◌, ℕ, List};
ghost use Rattle.insn_set.specs.declared.insn.Insn.{Insn};
ghost use Rattle.reg_kinds.specs.declared.reason.Reason.{Reason};
ghost use Rattle.reg_kinds.specs.declared.reason.Reason.TheVariants.{Memory};
ghost use Rattle.tagged_model.specs.declared.shape.Named.{Named};
ghost use Rattle.verifier.specs.Fits.{SameShapesAreAccepted};
ghost use Rattle.verifier.specs.Laws.{LoadedMapsHaveShapes, MapsAreListed, OneJudgement, SafetyFollowsShape};
ghost use Rattle.verifier.specs.Runs.{AcceptedRunsArePaths};
ghost use Rattle.verifier.specs.Sound.{StepIsSound, StepsGoOn, NeverFaults};
ghost use Rattle.verifier.specs.Verdict.{IsAccepted, IsRefused};

/// A law: a rejected program has one slot and one reason for which it is rejected. The contract: if it is rejected at slot `m` for reason
/// `a`, and at slot `n` for `b`, with the open descriptors and objects in `named` both times, then `m` is `n`, and `a` is `b`.
/// `one_judgement` uses it: the bytes of a program have at most one judgement.
pub fn one_refusal()
    ensures { (code : List Insn) (named : List Named) (m n : ℕ) (a b : Reason)
        → IsRefused code named m a → IsRefused code named n b → (m ≡ n) × (a ≡ b) }
{}

/// A law: if descriptors name the objects of `named`, an accepted program is not rejected, at any slot for any reason. It is used for
/// `one_judgement`: slots have at most one judgement, an accepted program or a refusal.
pub fn accepted_is_not_refused()
    ensures { (code : List Insn) (named : List Named) (slot : ℕ) (reason : Reason)
        → IsAccepted code named → ¬ IsRefused code named slot reason }
{}

/// A law: the reason for which a program is rejected at a slot (`IsRefused`), with the objects in `named`, is a rule of the program's shape
/// or safety, never `Memory`, which `verify` returns only if it is out of memory. The law is used for `refusals_are_reported` of `tenant`:
/// a load that rejects its program does not have the status of refused memory.
pub fn refused_by_a_rule()
    ensures { (code : List Insn) (named : List Named) (slot : ℕ) (reason : Reason)
        → IsRefused code named slot reason → reason ≢ Memory }
{
    transfer::laws::effects_need_no_memory();
}

/// A law: with given objects of the open descriptors (`named`), the bytes of slots have at most one judgement (`Judges`). This is the
/// program that they spell, if it is accepted, or else their refusal: a slot, and the fault of the codec or the rule that is broken there.
/// `tenant` uses the law for the result of a load, and `host` for the verdict of `verify`.
pub fn one_judgement()
    ensures { OneJudgement }
{
    insn_codec::laws::one_program();
    insn_codec::laws::at_most_one_fault();
    one_refusal();
    accepted_is_not_refused();
}

/// A law: if the shape of a program has no fault, no instruction is rejected for safety (`safety_fault`) because it calls an unknown helper
/// (`UnknownHelper`), loads a map or an address in a map's first value by a descriptor that names no map (`DescriptorNotMap`), or loads
/// such an address if the map is no array of one element, or its value has no byte at the offset (`NoDirectValue`). The transfer function
/// tests these conditions again, but the check of the shape has excluded them, so a verdict gives these three reasons only for a fault of
/// the shape.
pub fn safety_follows_shape()
    ensures { SafetyFollowsShape }
{
    transfer::laws::transfer_reasons();
}

/// A law: each descriptor by which an accepted program loads a map, or an address in a map's first value, names a map, and so has a shape.
/// The list of all open descriptors and their objects with which the program was accepted gives this shape (`named`). The function
/// `shapes_of` gives one too (`kept`): it looks only at the items of this list for the program's own maps. The program keeps these items,
/// each a descriptor with its object. A load (`loaded` of `tenant`) needs the law to find each map of the program.
pub fn loaded_maps_have_shapes()
    ensures { LoadedMapsHaveShapes }
{}

/// A law on `maps_of`, the list of the descriptors of a program's maps. If an instruction loads the map of a descriptor, or the address of
/// a byte in this map's first value, the list has the descriptor (`each`); and it has no descriptor twice (`once`). `shapes_of`, the shapes
/// of the program's maps by descriptor, gives none to a descriptor that is not in the list (`shaped`). A tenant finds the handles of a
/// program's maps by this list.
pub fn maps_are_listed()
    ensures { MapsAreListed }
{}

/// A law: a program that is accepted with one list of descriptors and their objects is accepted with another list too, if in both each
/// descriptor of its maps names a map of the same shape. So `Verified::replace_objects` need not verify the program again.
pub fn same_shapes_are_accepted()
    ensures { SameShapesAreAccepted }
{}

/// A law, the soundness of one step. Take a program whose shape has no fault with the open descriptors and objects in `named`, a state at a
/// slot at which an instruction begins, and the facts before this slot. The facts describe the state (`Describes`): they admit it, its
/// bytes are below 256, its eleven context words are below 2^32, and by each descriptor of the program's maps it has a map of the shape
/// that `named` gives. They also allow the instruction: the transfer function (`effect`) returns the facts on its edges, no error. Then the
/// machine has a step. If this ends the run, the result has 32 bits; else the facts on the edge that the step takes describe the next
/// state, maybe by another witness. The proof of `steps_go_on` applies this to each step.
pub fn step_is_sound()
    ensures { StepIsSound }
{
    transfer::laws::transfer_is_sound();
    transfer::laws::transfer_keeps_well_formed();
}

/// A law, for an accepted program: if the facts before a state's slot describe the state (`IsAdmitted`), its step is no fault. Facts
/// describe a state if they admit it by some witness, its bytes are below 256, its eleven context words are below 2^32, and by each
/// descriptor of the program's maps it has a map of the shape with which the program is accepted. After the step either the run has ended
/// with a result of 32 bits, or the next state is at a later slot, and the facts before that slot describe it.
/// `accepted_programs_never_fault` applies this to one step after another. The body calls the laws from which it follows.
pub fn steps_go_on()
    ensures { StepsGoOn }
{
    transfer::laws::transfer_is_sound();
    transfer::laws::transfer_keeps_well_formed();
    abstraction::laws::join_admits();
}

/// A law: no run of an accepted program faults, that is, its outcome on tagged values is never `Fault`. The run may be on any maps of the
/// shapes with which the program is accepted, and on any context and packet. It begins in a state that the facts before its slot describe,
/// and by `steps_go_on` each step from such a state ends the run without a fault, or leads to another one. `Verified::never_faults` is this
/// law for one accepted program.
pub fn accepted_programs_never_fault()
    ensures { NeverFaults }
{
    steps_go_on();
}

/// A law: a run of an accepted program executes a path, one instruction in each step, on maps of the shapes with which the program is
/// accepted, and on any context and packet. The path begins at slot 0, follows edges between instructions, and ends at an exit. The cost of
/// the program is the most instructions, and the most calls of helpers, that such a path has, so no run executes more of either.
pub fn accepted_runs_are_paths()
    ensures { AcceptedRunsArePaths }
{
    transfer::laws::transfer_is_sound();
    transfer::laws::transfer_keeps_well_formed();
    abstraction::laws::join_admits();
}

//! Laws of the transfer function. Each law is the contract of a function that does nothing.

ghost use Rattle.std.specs.Prelude.{◌≡◌, ◌≢◌, ℕ, Err};
ghost use Rattle.tagged_model.specs.Named.{Shapes};
ghost use Rattle.insn_set.specs.declared.insn.Insn.{Insn};
ghost use Rattle.reg_kinds.specs.declared.facts.Facts.{Facts};
ghost use Rattle.reg_kinds.specs.declared.reason.Reason.{Reason};
ghost use Rattle.reg_kinds.specs.declared.reason.Reason.TheVariants.{Memory};
ghost use Rattle.transfer.specs.Effects.{effect};
ghost use Rattle.transfer.specs.Reasons.{TransferReasons};
ghost use Rattle.transfer.specs.Sound.{TransferIsSound, TransferKeepsWellFormed, CallsAreSound};

/// A law, soundness. Take an instruction, the facts before it, well formed at its slot (`AreWellFormedAt`: ranges end below 2^64, masks of
/// stack slots have eight bits, look-ups whose results may be null were at lower slots), and a state at this slot. The facts describe the
/// state (`Describes`): they admit it, its bytes are below 256, its eleven context words are below 2^32, and each descriptor for which the
/// transfer function is given a shape has a map of this shape. If the transfer function allows the instruction, its step on tagged values
/// is no fault: the facts on the edge that it takes admit the state after it, or the run ends with a result of 32 bits. A jump to before
/// slot 0, which is a fault, is excluded: the transfer function does not test the target, but the rules for a program's shape do.
/// `verifier` applies this law to each step of a run, so no run of an accepted program faults.
pub fn transfer_is_sound()
    ensures { TransferIsSound }
{
    interval::laws::edges_are_words();
    interval::laws::edges_keep_members();
    interval::laws::results_are_members();
    interval::laws::results_are_words();
    abstraction::laws::null_test_admits();
    abstraction::laws::stack_read_admits();
    abstraction::laws::stack_write_admits();
    abstraction::laws::value_load_admits();
    abstraction::laws::value_store_admits();
    abstraction::laws::map_calls_keep();
    abstraction::laws::site_admits();
    calls_are_sound();
}

/// A law: if the facts before an instruction are well formed at its slot, those on its edges are well formed at each higher slot. Facts are
/// well formed at a slot if their ranges end below 2^64, the masks, which say which bytes of a stack slot are written, have eight bits, and
/// the look-ups whose results may be null were at lower slots. Soundness (`transfer_is_sound`) requires this of the facts before an
/// instruction, so by this law it can be applied to the next step.
pub fn transfer_keeps_well_formed()
    ensures { TransferKeepsWellFormed }
{
    interval::laws::edges_are_words();
    interval::laws::results_are_words();
}

/// A law: the transfer function (`effect`) rejects an instruction for `UnknownHelper` only if it calls an unknown helper, for
/// `DescriptorNotMap` only if its descriptor names no map (has no shape), and for `NoDirectValue` only if it loads the address of a direct
/// value and the map has none at the offset. It rejects none for the other reasons of a program's shape (`JumpOutside`, `JumpBackward`,
/// `FallsOff`, `Unreachable`, `FramePointerWritten`, `DescriptorNotOpen`), nor for `Memory`. So in a program without a fault of its shape,
/// an instruction is rejected only for safety (`safety_follows_shape` of `verifier`).
pub fn transfer_reasons()
    ensures { TransferReasons }
{}

/// A law: if the transfer function (`effect`) rejects instruction `i` at slot `at` with the facts `f` before it, the reason is never
/// `Memory`. `shapes` has, by descriptor, the shapes of the maps. So a verifier that returns `Memory` is itself out of memory.
pub fn effects_need_no_memory()
    ensures { (shapes : Shapes) (at : ℕ) (i : Insn) (f : Facts) (reason : Reason)
        → effect shapes at i f ≡ Err reason → reason ≢ Memory }
{
    transfer_reasons();
}

/// A law, soundness of calls, which `transfer_is_sound` uses. Suppose that facts describe a state (`Describes`: they admit it, its numbers
/// are in range, and it has the maps of the shapes), that they allow a call of a helper, and that their sites, the slots of look-ups, are
/// all below the state's slot. Then the call is no fault in this state, and the facts after the call describe the state after it, by a
/// witness that may be another one: after a look-up it also has the look-up's result, at the state's slot. As no site is that slot, what
/// the facts say of older results still holds.
pub fn calls_are_sound()
    ensures { CallsAreSound }
{
    abstraction::laws::stack_input_admits();
    abstraction::laws::stack_output_admits();
    abstraction::laws::value_read_is_no_fault();
    abstraction::laws::object_write_admits();
    abstraction::laws::map_calls_keep();
    abstraction::laws::map_change_admits();
    abstraction::laws::call_admits();
    abstraction::laws::site_admits();
}

//! Laws by which a run on words and bytes simulates the run on tagged values. A law does nothing when it runs.

ghost use Rattle.std.specs.Prelude.{◌<◌, ℕ, slice_index};
ghost use Rattle.flat_machine.specs.inside.Laws.{RunLaws};
ghost use Rattle.flat_machine.specs.inside.Steps.{StepsFollow, StepsStayInside, AreWords};
ghost use Rattle.flat_machine.specs.inside.Flat.{run_maps};
ghost use Rattle.flat_machine.specs.inside.Turns.{HasNext, any, with_maps, in_memory, with_both};

use crate::execution::Registers;
use crate::map_words::BoundMaps;
use arena::Arena;
use insn_codec::RawSlot;

/// A law: the value of each register is less than 2^64 (`AreWords`). A run calls it before each step, since the laws of a step require it
/// (`StepsFollow`, `StepsStayInside`). The body reads a register only so that the proof has what holds of the type: each register is a
/// `u64`.
#[inline(always)]
pub(crate) fn words_fit(registers: &Registers)
    ensures { AreWords registers.now }
{
    let _ = registers[0];
}

/// A law: each number in `bytes` is less than 256; at an index `k` past the end, `slice_index` is 0. The proof of a run needs this of the
/// tenant's part, whose bytes are natural numbers without a bound in the definitions.
#[inline(always)]
pub(crate) fn bytes_fit(bytes: &[u8])
    ensures { (k : ℕ) → slice_index bytes.now k < 256 }
{
    let _ = bytes.len();
}

/// A law. `HasNext rest registers of` means: the slots `rest` begin with an instruction that has a step with these registers, and with some
/// maps and some memory for which `of` holds. By the precondition the instruction has a step with the maps of the run (`run_maps`: their
/// descriptors, and the addresses of their first values) and with the memory of `arena` (`with_both`). Each clause requires less of maps
/// and memory: nothing (`some`, `any`), that the memory is this one (`within`, `in_memory`), or that the maps are these (`among`,
/// `with_maps`). So each inline function for a group of opcodes may require only the clause for what its step reads. `maps.entry` is the
/// value of `maps` at the call.
#[inline(always)]
pub(crate) fn has_some_next(maps: BoundMaps, rest: &[RawSlot], registers: &Registers, arena: &Arena)
    requires { HasNext rest.now registers.now
        (with_both (run_maps maps.fds.now maps.table.now.values) arena.now) }
    ensures some { HasNext rest.now registers.now any }
    ensures within { HasNext rest.now registers.now (in_memory arena.now) }
    ensures among { HasNext rest.now registers.now
        (with_maps (run_maps maps.entry.fds.now maps.entry.table.now.values)) }
{
    let _ = (maps.fds.len(), rest.len(), registers[0]);
    let _ = arena;
}

/// A law. Suppose that words and bytes represent a state of the tagged machine. If an instruction, which names no map but those of the run,
/// has a step from this state, its step on the words and bytes leads to words and bytes that represent the next state, or both steps end
/// the run with equal numbers (`StepsFollow`). A call of a helper is not included: of calls, the clause `follows` of `call` and
/// `call_in_run` of `bpf_helpers` promises this. `run_premises` gives the law to the proof that a run returns what the tagged run returns
/// (`runs` of `run_with`).
fn steps_follow()
    ensures { StepsFollow }
{
    bpf_helpers::laws::object_addresses_are_bounded();
    bpf_helpers::laws::loads_give_words();
    bpf_helpers::laws::stores_keep_simulation();
}

/// A law: if words and bytes represent a state (`Simulates`) from which the tagged machine has a step, each address range that the step on
/// words and bytes accesses lies in the part of the run's tenant. This law counts no range of a call of a helper: the clause `asks` of
/// `call` and `call_in_run` of `bpf_helpers` promises that these lie in the part. `run_premises` gives the law to the proof that a run
/// accesses no other part (`ranges` of `run_with`), although its loads and stores test no address.
fn steps_stay_inside()
    ensures { StepsStayInside }
{
    bpf_helpers::laws::loads_give_words();
    bpf_helpers::laws::stores_keep_simulation();
}

/// A law with all premises of the proofs of runs and batches, so that each proof takes them by one call. A step on words and bytes that is
/// no call simulates that of the tagged machine (`steps_follow`), and accesses only the tenant's part (`steps_stay_inside`). If the
/// machine's call of a helper is no fault, the call's words name all maps and bytes that the helper needs (`calls_name_all`). At the start
/// of a run, words and bytes represent the machine's first state (`runs_begin`). After a run, the bound maps have the keys and values of
/// the machine's maps (`runs_end`), and other maps have their values from before it (`others_stay`). The list of a program's maps has each
/// map that the program loads, once (`maps_are_listed`). Elements keep their offsets if the areas are unchanged.
pub(crate) fn run_premises()
    ensures { RunLaws }
{
    steps_follow();
    steps_stay_inside();
    bpf_helpers::laws::calls_name_all();
    bpf_helpers::laws::runs_begin();
    bpf_helpers::laws::runs_end();
    bpf_helpers::laws::others_stay();
    verifier::laws::maps_are_listed();
    bpf_maps::laws::areas_keep_elements();
}

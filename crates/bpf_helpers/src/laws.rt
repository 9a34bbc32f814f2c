//! Laws of the words and bytes that represent a state. Each law is the contract of a function that does nothing.

ghost use Rattle.bpf_helpers.specs.Accesses.{LoadsGiveWords, StoresKeepSimulation, ObjectAddressesAreBounded};
ghost use Rattle.bpf_helpers.specs.Calls.{CallsNameAll};
ghost use Rattle.bpf_helpers.specs.Runs.{RunsBegin, RunsEnd, OthersStay};
ghost use Rattle.bpf_helpers.specs.inside.Below.{LawsBelow};
ghost use Rattle.bpf_helpers.specs.inside.Laws.{ReturnsKeepSimulation};

/// The laws of the memory and of maps on which the proofs of `call` and `call_in_run` depend, as one contract (`LawsBelow`). Bytes written
/// in a part change no other part. A map of elements and the map of their values return the same and change alike. The value of an element
/// keeps its offset if the areas are unchanged. A deletion in a run frees no element: that of the deleted key is kept apart.
pub(crate) fn call_premises()
    ensures { LawsBelow }
{
    arena::laws::writes_stay_inside();
    tagged_model::laws::calls_refine_values();
    bpf_maps::laws::areas_keep_elements();
    bpf_maps::laws::deletes_keep_elements();
}

/// A law. Suppose that words and bytes represent a state (`Simulates`), in a part of the size for runs, and that the tagged machine loads a
/// value in this state. Then the bytes at the address of the load lie in the tenant's part. The word that they make, widened to 64 bits as
/// the load requires (with the sign or with zeros), represents the value. So the loads of an accepted program need no bounds check.
pub fn loads_give_words()
    ensures { LoadsGiveWords }
{}

/// A law. Suppose that words and bytes represent a state (`Simulates`), in a part of `PART` bytes of an arena of at most 2^28 bytes
/// (`IsRoom`), and that the tagged machine stores a value in this state. Then the bytes at the address of the store, as many as its size,
/// lie in the tenant's part. Once that many low bytes of the word that represents the value are written there, words and bytes represent
/// the state after the store. So a run stores without a bounds check. The law allows any natural number as the word that represents a
/// number, since only its low bytes are stored. The word of a pointer or a map has to be less than 2^64 (`PointerFits`), as a register's
/// word always is, so that the eight bytes that are stored represent the pointer or the map. The proof needs the law that the body calls:
/// bytes written in one part change no other part.
pub fn stores_keep_simulation()
    ensures { StoresKeepSimulation }
{
    arena::laws::writes_stay_inside();
}

/// A law. Suppose that words and bytes represent a state (`Simulates`), that the part has `PART` bytes and the arena at most 2^28, so that
/// no address wraps (`IsRoom`), and that the tagged machine's call of a helper in this state is no fault. Then the words of registers 1 to
/// 5 name all that the helper needs (`NamesAll`): a map that is bound to the run and bytes of the tenant's part for a key, for an update
/// also bytes for a value; or, for a load of packet bytes, the bytes of the part to which it writes. So the calls of an accepted program
/// need no test of these words. The proof needs the law that the body calls: bytes written in one part change no other part.
pub fn calls_name_all()
    ensures { CallsNameAll }
{
    arena::laws::writes_stay_inside();
}

/// A law. If words and bytes represent a state (`Simulates`), in a part of `PART` bytes of an arena of at most 2^28 bytes (`IsRoom`), the
/// address of each object (the stack, the context or a value of a map) is at least 2^32, the first address of the arena, and at most 2^32 +
/// 2^28. So it is neither near null nor near 2^64. A pointer is at most 2^29 bytes from this address (`farthest_offset`), so its word is
/// never 0 and does not wrap. The proof that a step of `flat_machine` simulates one of the tagged machine needs this.
pub fn object_addresses_are_bounded()
    ensures { ObjectAddressesAreBounded }
{}

/// A law for the end of each helper's call (`call`, `call_in_run`). Suppose that words and bytes represent a state (`Simulates`), and that
/// a word represents the value that the helper returns. With this word in register 0, words and bytes represent the state after the call:
/// in that state, register 0 has the value, and registers 1 to 5 have none, so these may hold any words.
pub(crate) fn returns_keep_simulation()
    ensures { ReturnsKeepSimulation }
{}

/// A law for the start of a run, which the proofs of runs and batches of `flat_machine` need: words, bytes and live maps represent the
/// state in which the tagged machine starts (`Simulates`), with the keys and values that the bound maps have. This requires that the part
/// has the size for runs (`IsRoom`) and the run's context (`HasContext`), and that registers 1 and 10 have the address at which the stack
/// ends and the context begins (`AreFirst`). It also requires that each bound map is live and keeps no element apart, that no map is bound
/// twice, and that the values of live maps do not overlap (`AreReady`).
pub fn runs_begin()
    ensures { RunsBegin }
{}

/// A law for the end of a run, by which the proof of `run_with` of `flat_machine` knows what the run leaves in its maps (`runs`). Each
/// descriptor that the program loads is bound to one live map. Suppose that words and bytes represent a state of the tagged machine
/// (`Simulates`), and that then the elements kept apart in a live map bound to the run become free (`after_run`), while no shape or area of
/// a map changes (`SameAreas`). Then this live map has the keys, with the values in the tenant's part, that the tagged machine's map of its
/// descriptor has if the run ends in this state (`map_after_run`).
pub fn runs_end()
    ensures { RunsEnd }
{
    bpf_maps::laws::areas_keep_elements();
}

/// A law: in each state of a run that words and bytes represent (`Simulates`), the values of the live maps that are not bound to the run
/// have the bytes that they had at the start of the run. So a run changes no value of a map that its program does not load, as `run_with`
/// of `flat_machine` promises (`values`).
pub fn others_stay()
    ensures { OthersStay }
{}

//! Laws of facts, and of the states that facts admit. Each law is the contract of a function that does nothing.

ghost use Rattle.abstraction.specs.Laws.{JoinAdmits, StackReadAdmits, StackWriteAdmits, StackInputAdmits};
ghost use Rattle.abstraction.specs.Laws.{StackOutputAdmits, ObjectReadAdmits, ObjectWriteAdmits, ValueLoadAdmits};
ghost use Rattle.abstraction.specs.Laws.{ValueStoreAdmits, MapCallsKeep, MapChangeAdmits, CallAdmits, SiteAdmits, NullTestAdmits};

/// A law, for edges that merge: if the facts on one of two edges admit a state by a witness, the join of the facts on both edges admits the
/// state by this witness. The two laws that are called are for the proof: a hull of ranges has the members of both, and the join of facts
/// is commutative, so that a proof for the first of the two edges is enough.
pub fn join_admits()
    ensures { JoinAdmits }
{
    interval::laws::hull_is_a_join();
    reg_kinds::laws::joins_commute();
}

/// A law, for the soundness of loads. Take facts that admit a state in range (`IsInRange`: its bytes are below 256), and a load from the
/// stack that these facts allow: `stack_read` returns a kind for it. In this state the load is no fault, and gives a value of that kind.
pub fn stack_read_admits()
    ensures { StackReadAdmits }
{}

/// A law, for the soundness of stores to the stack. Take facts that admit a state in range (`IsInRange`: its bytes are below 256, its
/// context words below 2^32), and a value of a kind of which the facts allow a store into the stack. Then the store of this value is no
/// fault, and the facts after the store admit the state after the store, by the same witness; that state is in range too.
pub fn stack_write_admits()
    ensures { StackWriteAdmits }
{}

/// A law: if facts admit a state in range (`IsInRange`: its bytes are below 256, its context words below 2^32) and allow a helper to read n
/// bytes at an offset of the stack (`stack_input` is `Ok`), in one stack slot or in several, these n bytes lie in the stack, and each is a
/// number from 0 to 255 in the state. So the helper's read is no fault.
pub fn stack_input_admits()
    ensures { StackInputAdmits }
{}

/// A law, for helpers that write to the stack. A state is in range (`IsInRange`) if its bytes are below 256, and its context has
/// `context_words` words of 32 bits. If facts admit such a state, and allow a write of `lo` to `hi` bytes at an offset of the stack
/// (`stack_filled`), then a write of any bytes there, at least `lo` and at most `hi` of them, is no fault. The facts after the write, which
/// `stack_filled` gives, admit the state after the write by the same witness, and this state is in range.
pub fn stack_output_admits()
    ensures { StackOutputAdmits }
{}

/// A law, for helpers that read a key or a value from a value of a map: if a state is in range (`IsInRange`: among others, its bytes are
/// below 256), a read of n bytes within one value of a map is no fault, and gives n bytes, each below 256. The value is any that the map
/// has had, also that of a deleted key. No facts are needed, unlike for a read of the stack: a value has no unwritten byte.
pub fn value_read_is_no_fault()
    ensures { ObjectReadAdmits }
{}

/// A law, for the helper that loads packet bytes into a buffer (`LoadBytes`, number 26), if the buffer lies in a value of a map. Take a
/// state in range (`IsInRange`: its bytes are below 256, its context words below 2^32) that has, at each descriptor of which a shape is
/// given, a map of this shape (`HasMaps`). A write of bytes within one value of a map, which may be that of a deleted key, is no fault in
/// this state. The state after the write is in range too, has maps of these shapes too, and is at the same slot. Facts that admit the state
/// before the write also admit the state after it, by the same witness, since facts know nothing of the bytes of values.
pub fn object_write_admits()
    ensures { ObjectWriteAdmits }
{}

/// A law, for instructions that load from a map's value: in a state whose bytes are below 256 (`IsInRange`), a load of bytes that all lie
/// in one value of a map is no fault. It gives a number of the kind that facts predict for it (`loaded`): any number of as many bits as are
/// loaded, or any number of 64 bits if the load extends the sign. The value may be that of a deleted key. No facts are needed.
pub fn value_load_admits()
    ensures { ValueLoadAdmits }
{}

/// A law, for the soundness of stores to a value of a map. If all bytes of the store lie in one value, which may be that of a deleted key,
/// and a number is stored, the store is no fault. Facts that describe the state before the store by a witness (`Describes`: they admit it,
/// its numbers are in range, and its maps have their shapes) also describe the state after it, by the same witness: facts know nothing of
/// the bytes of values. The store does not change `at`, which in a state is the slot of the next instruction, here still that of the store.
/// After the store the step adds 1 to `at`, so it leads to the slot that soundness requires, that of the falling edge.
pub fn value_store_admits()
    ensures { ValueStoreAdmits }
{}

/// A law, for the soundness of calls and of accesses to values. The objects of a map are its values, also those of deleted keys, and its
/// count is the number of objects that it has had. Let all bytes of the objects be below 256. A delete (`removed`), and an update
/// (`updated`) with a value of the map's value size, whose bytes are below 256 too, then keep the map's shape, do not lower its count, and
/// leave all bytes of the objects below 256. The object that a look-up finds has a number below the count (`owned`). So has that of the
/// direct value (`direct`): the one value of an array with one entry, whose address an instruction loads without a call.
pub fn map_calls_keep()
    ensures { MapCallsKeep }
{}

/// A law, for the calls by which a helper changes the keys of a map or its values. Take facts that describe a state by a witness
/// (`Describes`: they admit it, its numbers are in range, and its maps have their shapes), and replace a map of the state by one of equal
/// shape with at least as many objects, whose bytes are below 256 (`KeepsShapeAndObjects`). The facts also describe the state with the new
/// map, by the same witness. The objects of a map are its values, those of deleted keys included.
pub fn map_change_admits()
    ensures { MapChangeAdmits }
{}

/// A law of the return from a helper, which the law `calls_are_sound` of `transfer` needs. Let facts describe a state by a witness: they
/// admit it, its numbers are in range, and it has a map of the given shape for each descriptor with a shape (`Describes`). If the helper
/// returns a value that is of some kind by this witness (`IsOfKind`), the facts after the call describe the state after it. The return
/// changes only registers: register 0 gets the value, in facts its kind, and registers 1 to 5 become empty, in facts unreadable. What the
/// helper has written to the stack or changed in a map is in the state and the facts before the return; other laws are about that.
pub fn call_admits()
    ensures { CallAdmits }
{}

/// A law of a look-up: take facts that describe a state by a witness (`Describes`), and a slot above all sites in the facts, so that no
/// fact is about a look-up there. Then the facts also describe the state by the witness that has, in addition, a look-up at this slot with
/// any result, and counts all objects that the state's maps have had (`witness_at`). The proof that calls are sound takes this witness
/// after a look-up.
pub fn site_admits()
    ensures { SiteAdmits }
{}

/// A law of null tests, which the proof that the transfer function is sound needs for conditional jumps. Let facts admit a state by a
/// witness. If the look-up at a site gave null in this witness, the state is also admitted by the facts in which the copies of its result
/// are settled as null (`null`): a register has the number 0, and a stack slot has eight written bytes, all that facts say of a number in
/// the stack. If the look-up did not give null, the state is also admitted by the facts in which the copies are settled as pointers to the
/// start of a value (`value`).
pub fn null_test_admits()
    ensures { NullTestAdmits }
{}

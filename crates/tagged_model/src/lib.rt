//! The machine of tagged values, which defines what a run of a program means. There are no addresses: a value (`Tagged`) is a
//! number, a map, or a pointer, that is, an object and an offset in bytes.
//!
//! The objects are the stack, the context, and the values of maps, which are named by their map and a number that is given once
//! in a run. A state has the slot of the next instruction; eleven registers, each empty or with a value; 64 cells of eight
//! stack bytes, each with a whole pointer or with bytes that may each be absent; the maps by their descriptors; the eleven
//! words of the context; and the packet. A map of a run (`RunMap`) is a list of keys with the numbers of their objects, and the
//! bytes of each object, also of a deleted one.
//!
//! `act` defines the step of each instruction, by the equations of `words`, and `called` that of each helper. If
//! they are undefined, the run faults: on reading an empty register, on an access outside its object, an absent byte, a part of
//! a pointer, a stack access that is not aligned, or a pointer instead of a number, and on a pointer that is stored
//! outside the stack, truncated, or moved farther than 2^29 bytes. `run` is one recursion with the outcome, the steps and the
//! final state; it takes at most as many steps as the program has slots. It knows nothing of memory: a map has all that it can
//! need from its creation.
//!
//! What an analysis knows of states is not here: which states facts admit is defined in `abstraction`.
//!
//! # What is proved
//!
//! - Whatever the objects of a map represent, as their elements or their bytes, the replies are those of the map of what they
//!   represent, which changes as the definition says: `calls_refine_values`.
//! - A key that an update finds present is in the map, a new one is not, and no verdict is out of memory:
//!   `map_verdicts_match_look_ups`.
//! - A map's shape is created exactly if its fields are in their limits and its values take at most 65,536 bytes; otherwise the
//!   fault is returned: `made`, `listed`, `fault` of `MapShape::new`.
//!
//! # Decisions
//!
//! - An object is named by its map and a number in that map, given once in a run, so a new object of one map touches no other
//!   map.
//! - An instruction of 32 bits reads a constant modulo 2^32; one of 64 bits, or a store, sign-extends it to 64 bits.
//! - A value can be loaded directly if the kernel's maps have an address for it: of an array of one element, at an offset in
//!   its value (`has_direct_value`; in the kernel `map_direct_value_addr` of array maps). RFC 9669 says "the first value in a
//!   given map" and leaves open which maps have one. For other maps the instruction is undefined, and a program with such a
//!   load is rejected by its shape (reason 9), whether or not a run reaches it.
//! - A step of an atomic operation exists only at an offset that its size divides, in a value as on the stack
//!   (`is_aligned_at`). The machine here could do without; a processor's atomic operations could not, and a kernel rejects
//!   unaligned ones. Soundness depends on the verifier's test: without reason 36 an accepted program could fault.
//! - A move does not read its destination: its first operand is 0 in the definition.
//! - Registers and cells of a state are functions of their number, so that no definition needs lengths.
//! - A run is one recursion: its outcome, its steps and its final state come together, so that each statement is proved once.
//! - Stack bytes that a helper reads or writes are numbered over all cells; cells remain the unit of loads and stores.
//! - There is no second machine on tagged values. Vectors (`proofs/RunVectors.antt`) show what a run returns: the definition
//!   computes on programs that were worked out by hand, including those that fault. That the machine which runs returns the
//!   same is the contract of `run` in `flat_machine`.
#![tactic(auto)]

mod fault;
mod helper;
pub mod laws;
mod named;
mod shape;
mod value;

pub use fault::MapFault;
pub use helper::{Helper, known_helper};
pub use named::{shape_of, target_of};
pub use shape::{
    LARGEST_AREA, LONGEST_KEY, LONGEST_VALUE, MOST_ENTRIES, MapKind, MapShape, Named, ShapeFault,
    Target,
};
pub use value::{CONTEXT_WORDS, FARTHEST_OFFSET, Object, Outcome, Tagged};

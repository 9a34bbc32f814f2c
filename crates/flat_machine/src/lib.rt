//! The machine that runs accepted programs, on words and bytes: words in registers, bytes in the arena, one instruction at a
//! time, as the slots spell it. A load or a store accesses the arena at an address, without checking the bounds of the object
//! there.
//!
//! # What is proved
//!
//! - A run of an accepted program returns what the tagged machine returns on the same maps, context and packet, and leaves the
//!   same pairs in the maps that are bound to it, whatever else is in memory. The flag of refused memory stays: `runs` of `run`.
//! - It never faults: `no_fault` of `run`.
//! - It takes as many steps as the tagged machine, which are at most as many as the program has slots: `runs`, `few` of `run`.
//! - Each range of addresses that it requests is in its tenant's part: `ranges` of `run`.
//! - All live maps stay, with their areas and reference counts. Maps that are not bound keep their keys and all bytes of their
//!   values; those that are bound have no deleted element left at the end: `maps`, `values` of `run`.
//! - Every other part is unchanged, and so are the sizes: `memory` of `run`.
//! - `run_with`, which a tenant calls, promises what `run` does. It is given room for the table of the program's maps, which
//!   means nothing afterwards.
//! - Runs on many packets are those of `run` one after another, each on the maps that the previous one leaves (`RunsOnEach`).
//!   The results are at the front of the room, whose rest is unchanged; packets for whose results there is no room are not run;
//!   the statements above on steps, ranges, memory and maps hold for all of them together: `runs`, `few`, `ranges`, `memory`,
//!   `maps` of `run_packets`.
//! - The packets of a batch are consecutive in their bytes, and none is longer than a test run accepts; they have the same words of
//!   context, or each its own (`inputs_of`). Otherwise the fault is the number of contexts, or the first packet that is outside the
//!   bytes or too long: `packets`, `fault` of `Packets::new`.
//!
//! Preconditions of a call: the tenant is one of the arena's parts, which have the size that live maps need; and for each
//! descriptor that the program loads, in order, the handle of a live map of the verified shape is bound, no map twice, and none
//! with a deleted element.
//!
//! A definition of `bpf_helpers` says which words and bytes simulate a tagged state. It is for proofs, and no contract of `run`
//! names it.
//!
//! A step is one executed instruction. `Trace` (of `arena`), a type without bytes that exists for proofs, counts steps: its
//! data is what its calls say. That the loop counts a step when it takes one is read in the code; that the counts add up to
//! those of the tagged run is proved.
//!
//! # Decisions
//!
//! - A step is defined by instruction (`flat_act`), so nothing above this crate knows slots. The loop executes the slots as
//!   they are spelled: the opcode is one byte with the operation, its width and the kind of its operand.
//! - Each turn leads ahead: after the instruction, or at its jump target, another instruction begins (`Verified::goes_ahead`).
//!   So the loop has no counter and no bounds check of the slot, and it terminates because fewer slots are left.
//! - Nothing is checked twice: no access checks its address, no jump its slot, and no step is counted in machine code. The
//!   definition takes a jump's slot modulo 2^64; that this never happens in an accepted program is proved, and costs no
//!   instruction.
//! - A constant has its sign extended to 64 bits in both widths; an operator on 32 bits reads only the low half.
//! - There is no thread next to a program, so an atomic operation is a load, the operation and a store: a run takes the arena
//!   out of the host's variable, and one thread serves all frames. It requests two ranges, one for the load and one for the store.
//! - In a program that is built with its proofs, an `unreachable!()`, and so each unwrap, is still a comparison and a jump to a
//!   trap, since the compiler does not see what was proved. So code that runs often has a `requires` and no arm for the rest, or
//!   reads an element of an array that has none in that arm: a load of a map returns a word and no `Option`. If an `Option` passes
//!   through several inline functions, the compiler of the proved program also keeps its tag and tests it again at the end: with an
//!   `Option` a look-up in an array took 48 machine instructions, and 30 in a build without proofs. So measure the proved program.
//! - What an immediate or a register field names is compared by `<` or `>`, the most frequent value first: the atomic operation
//!   (the addition), and what a load of two slots loads (an address in a value). Equalities with several constants would become
//!   one switch, which the compiler tests in an order of its own. Each operation and each width of a byte order has code of its
//!   own, with the operation as a constant: as a value of an enum, the width was composed from the immediate and decomposed
//!   again, eleven of 17 machine instructions. An arm sets the next slot before it works, or two of its paths share one
//!   dispatch. Together this took the program "globals" of the bench from 14.9 to 13.7 machine instructions for each
//!   instruction, "globals, atomic" from 18.1 to 15.4, and "parser" from 14.9 to 14.3.
//! - Compared with plain C, the programs of the bench need 0 to 4.4 machine instructions more for each instruction, "parser" 2.4
//!   (11.7 and 9.3), since registers and constant are decoded from the slot each time; the plain interpreter keeps decoded
//!   entries of sixteen bytes. On average they take 1.01 times as long (bench/FIGURES.md). Decoded entries would be a second
//!   form of each program, kept next to the slots and proved to be the same. A look-up costs at most 1.5 times that of plain C: one in a
//!   hash map has the multiplications of the hasher. A load of bytes has the two tests of its offset, and up to four comparisons of its
//!   length for a copy by its ends; its address and its length are not tested.
#![tactic(auto)]

mod batch;
mod calls;
mod dispatch;
mod execution;
mod fetch;
mod given;
pub mod laws;
mod map_words;
mod ops;
mod packets;
mod running;

pub use batch::run_packets;
pub use given::BoundProgram;
pub use map_words::TableRoom;
pub use packets::{LONGEST_PACKET, PacketFault, Packets};
pub use running::{context_words, run, run_with};
pub use words::GIVEN_WORDS;

//! The verifier: a program is accepted, or rejected at its first faulty slot for a reason. No run of an accepted program
//! faults.
//!
//! The shape is checked first: the control flow, and what is wrong with an instruction whatever the registers hold. Then
//! each instruction is checked against the facts before it. Each check is one pass over the slots.
//!
//! The definitions are `Shape` (the shape of a program), `Before` (the facts before each slot, a recursion over the slots
//! below), `Maps` (the maps that a program loads), `Verdict`, `Seen` (the facts that a watcher gets), `Cost` (paths, and what a
//! program costs), and `Runs` (what a run executes).
//!
//! # What is proved
//!
//! - A program is accepted, or rejected at the first slot and reason of the written rules, shape before safety. The only other
//!   result is out of memory: `accepted`, `refused` of `verify`.
//! - Slots are an accepted program, or are rejected: as no program, with the fault of the codec, or as a program that breaks a
//!   rule, with the reason of the verdict. The slot is one of theirs or the one after them. The only other result is out of
//!   memory, and only for as many slots as a program may have: `accepted`, `refused`, `slot`, `memory` of `verify_slots`.
//! - Slots have one judgement: one accepted program, or one rejection: `one_judgement`.
//! - A rejection has one number, that of the reason, or 100 plus that of the codec's fault, and one text: `Cause::number`; the
//!   output of `Refusal`.
//! - A watcher gets the facts of the definition before each slot that a run may reach, each slot once and in order (`reached`):
//!   for an accepted program before all of them; up to the slot of a fault of safety; for a fault of shape before none; out of
//!   memory, up to some slot. The verdict is that of `verify`: `seen`, `seen_refused`, `accepted`, `refused` of
//!   `verify_watched`.
//! - A `Verified` is an accepted program, the one that was passed in, with the shapes that its descriptors named: `accepted` of
//!   `verify`; `accepted`, `objects` of `verify_slots`; `verified` of `Verified::program`.
//! - It can be used with other objects exactly if each descriptor of its maps names a map of the same shape among them (`Fits`): it
//!   is accepted with these too, and is then what `verify_slots` gives for its slots and these objects: `fits`, `judged`, `objects`,
//!   `shapes` of `Verified::replace_objects`; `same_shapes_are_accepted`.
//! - It lists the descriptors of its loads of maps and of values of maps, in the order of first use, each once:
//!   `Verified::maps`.
//! - A program has at most one rejection, an accepted program has none, and no rule has out of memory as its reason:
//!   `one_refusal`, `accepted_is_not_refused`, `refused_by_a_rule`.
//! - Safety follows shape: in a program without a fault of shape, no instruction is rejected for safety because its helper is
//!   unknown, its descriptor is no map, or the map does not have the value that it loads directly: `safety_follows_shape`.
//! - Each map that an accepted program loads, itself or a value of it, has a shape: `loaded_maps_have_shapes`.
//! - The list of a program's maps has each map that its instructions load, once; no other descriptor has a shape: `maps_are_listed`.
//! - Soundness of one step: take a program without a fault of shape, and a state at a slot that has a map of each shape, such
//!   that the facts before the slot admit the state and allow the instruction. Then the machine has a step, the next state has
//!   a map of each shape, and the facts on the edge that is taken admit it: `step_is_sound`.
//! - Each step of an accepted program preserves this: the facts before the next slot admit the state after it: `steps_go_on`.
//! - Every successor of an instruction of an accepted program is the beginning of an instruction at a higher slot: the next
//!   one, unless the instruction is an exit or always jumps, and the target of its jump: `Verified::goes_ahead`.
//! - No run of an accepted program faults, on any maps of the shapes, any context and packet:
//!   `accepted_programs_never_fault`, `Verified::never_faults`.
//! - What such a run executes is a path from slot 0 to an exit along the edges, an instruction in each step:
//!   `accepted_runs_are_paths`, `Verified::runs_are_paths`.
//! - The cost of an accepted program is the most instructions, and the most calls of helpers, on such a path: no path has more, and
//!   one has as many: `most` of `Verified::cost`, `cost` of `verify_watched`. So no run executes more: `runs` of `Verified::cost`.
//!
//! # Decisions
//!
//! - `transfer` has one instruction, `verifier` a program: the verdict, and why no run of an accepted program faults. Each is
//!   proved by itself.
//! - The cost is found in the pass over the shape. For each slot that pass has the most instructions and the most calls on the jumps
//!   there (`Counts`), which also say whether it is reached, and one pair for the falling edge. The two numbers may be of
//!   different paths. An instruction that has no fault, names nothing and only goes on to the next one (`is_simple`) adds one to a
//!   number, and nothing else of it is looked at.
//! - Facts before a jump target are on the heap, one entry for each target that a taken edge has reached; all other facts are
//!   changed in place. That a target has at most one entry is part of the type: there is an option for each slot.
//! - Facts are not moved: they have 2.3 KB, and a local of that size is cleared each time its block is entered. The facts on
//!   the falling edge are in one variable with a flag. `apply` copies nothing for a jump: it returns the ranges of a comparison
//!   on each edge, or that a look-up is settled. The pass sets the ranges of the jumping edge in the facts, joins the facts into
//!   the target's entry in place, and then sets the ranges of the falling edge; only a null test copies the facts. The box of
//!   a finished entry is reused. If the list of these boxes cannot grow, the verdict is out of memory. A join writes
//!   only registers and slots that change; kinds that differ are joined out of line. With facts moved by value, a load of straight
//!   arithmetic took 26 times as many machine instructions, and one of diamonds 15 times.
//! - The stack in facts has eight groups of eight slots, each with a number (`NumberedFacts`). Groups with the same index and number are
//!   the same. A store gives the group of its slot a new number; a call or a null test all groups; a join the groups that it changes. Each
//!   group also has the number of the last group that was joined into it, and a second join with that group is skipped, since it would
//!   change nothing. New numbers are computed from the slot of the instruction, so no counter is needed. bench/FIGURES.md has the costs.
//!   With one number for the whole stack, a byte stored before each jump cost a join of all slots (1,075 machine instructions a slot, now
//!   670). Not used: copying and joining the stack only from its lowest written slot on (half the cost with few slots written, 3 to 15%
//!   more with all 64).
//! - What most instructions pass through is inlined by attributes (`apply` and four functions of `transfer`, `leave_by`): LLVM inlines a
//!   large function by itself only if it has one caller, and in the library the log calls these too. Without the attributes a load there
//!   takes a fifth to a third more machine instructions. `check_shape` has one caller, and is kept out of it by an attribute: in one
//!   function the two loops over the slots share too few registers, and a load takes up to 6% more.
//! - The list of entries ends with the last target so far, so a program without jumps has none.
//! - A caller that verifies many programs, as a host does, lends the memory for it (`WorkingMemory`), which it keeps from one program to
//!   the next. Without it a program with 1,900 targets that wait had 1,060 page faults, and took five times as long. What a rejected
//!   program leaves in it is removed at the end (`judge`), so that the next program, which may be another tenant's, does not take longer.
//!   The next pass begins without entries all the same: `begin` of `Pass`. An entry for whose box the list of spare ones cannot grow is
//!   freed.
//! - Edges are joined in the order of the pass, which is not that of the definition; joins commute and associate.
//! - The verdict uses the shapes of the descriptors that the program loads, and keeps only these with a `Verified`. `verify`
//!   accepts any list of names: the first entry of a descriptor counts.
//! - The pass takes a watcher by a type parameter, to which the facts are lent in place. `verify` and `verify_slots` pass one
//!   that does nothing (`Unwatched`), which costs no instruction more than before there were watchers.
//! - A load, the subcommand `verify` and the log share one type of rejection, `Refusal`: a slot, and a cause, which is the
//!   codec's fault or the verdict's reason. Its number and its text are defined here, and nowhere else is 100 added.
//!   `verify_slots` returns it to the first two, or the program that it has read, without a copy; out of memory is an error of
//!   its own. The log already has a program, which may come from a text, and uses `verify_watched`, the verdict without a
//!   `Verified`, so it copies no program either. `verify` is for callers that have a program and keep it.
//! - What a watcher got is an option in contracts, like the bytes of a reader: a watcher that only counts does not say which
//!   facts it got; one that keeps the facts does, as that of the log (`all_notes`).
//! - A descriptor names a `Target::Map` or a `Target::Program`.
//! - The law of one step is about each witness (`Describes`): what each look-up gave, and how many objects each map has had, or
//!   fewer. That is more than the existence of a witness (`Admits`, which no law cites).
#![tactic(auto)]

mod cost;
mod edge_facts;
mod fault;
mod fitting;
mod judging;
mod known_answers;
pub mod laws;
mod maps;
mod numbered_facts;
mod pass;
mod refusal;
mod shape;
mod target_facts;
mod verified;
mod watcher;
mod working_memory;

pub use cost::Cost;
pub use fault::VerifyFault;
pub use fitting::ReplaceFault;
pub use refusal::{Cause, Refusal};
pub use reg_kinds::Reason;
pub use tagged_model::Named;
pub use verified::{Verified, verify, verify_slots, verify_watched};
pub use watcher::Watcher;
pub use working_memory::WorkingMemory;

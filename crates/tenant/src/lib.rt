//! One tenant: its open objects, its live maps, and the effects of its commands.
//!
//! A definition (`Machine` in the specs) is the machine of one tenant: one equation for each command gives the status, the
//! payload and the next state. A state (`TenantState`) is what the 64 descriptors name, the live maps under 16 handles with the
//! bytes of their values, and whether memory was ever refused to the tenant. Memory may be refused to MAP_CREATE and PROG_LOAD,
//! and no other command takes any; otherwise the machine is deterministic.
//!
//! # What is proved
//!
//! - Each command has the status, the payload and the next state of the machine, from the state that the tenant and its part of
//!   the arena represent; the result bytes of a test run are those of the tagged machine: `answer` of `create`, `look_up`,
//!   `update`, `delete`, `next_key`, `load`, `test_run` and `close` of `Tenant`. `saving` calls them for the frames.
//! - A program that was verified elsewhere is opened as the load of its slots would, if each descriptor of its maps names a map of the
//!   shape with which it was accepted; else it is given back, and nothing has changed: `loaded`, `fits`, `stale` of
//!   `Tenant::install`.
//! - No test run faults: `writable` of these (`IsWritable`).
//! - A test run leaves every other part of the arena unchanged: `others` of `Tenant::test_run`. The other commands are lent the
//!   tenant's part only.
//! - The open objects, the live maps and their entries in their order can be read: `object`, `is_live`, `map_shape`,
//!   `map_entry` of `Tenant`.
//! - How many maps are live, how many keys they have, how many bytes their values take, and how many descriptors are open and name
//!   programs: `Tenant::counts`. What a descriptor names: `Tenant::describe`; all of them, as the verifier sees them: `Tenant::targets`.
//! - A new tenant has nothing open: `Tenant::new`.
//! - A command to which memory is refused has one result, and so has one to which it is not; likewise a frame has one reply.
//!   Without refusals a tenant's frames have one list of replies and lead to one state: `one_command_result`, `one_reply`,
//!   `one_reply_list`.
//! - A refusal of memory changes only what a creation or a load does, which then has the status -12, and changes only the
//!   flag. Nothing else has this status or sets the flag: `refusals_are_reported`, `only_creations_and_loads_are_refused`.
//! - If none of a tenant's replies has the status -12, they are those of its machine without refusals, whatever its flag was:
//!   `unrefused_replies_mean_alone`. The same holds if its flag is clear at the end: `clear_flag_means_no_refusal`,
//!   `clear_flag_means_alone`.
//! - A reply with the status of a fault has no payload: `faults_have_no_payload`.
//! - A program is run on many packets, with one context for all or one for each: the machine carries out the test-run command of
//!   each, one after another, with its result (`RunsInOrder`). The results are at the front of the room, whose rest is
//!   unchanged: `runs` of `Tenant::run_packets`.
//! - Or the batch is rejected before its first packet, by the first of these: the descriptor names no program; there is room
//!   for fewer results than packets; there is neither one context nor one for each packet; or, packet by packet, one is outside
//!   the bytes or is too long. Then nothing has changed: `refusal`, `unchanged` of `Tenant::run_packets`.
//! - How many packets a bound on executed instructions allows a batch follows from the cost of the program, in which each call of a helper
//!   counts as `CALL_WEIGHT` instructions more (`IsAllowed`): `Tenant::allowed_packets`. The cost of the program of a descriptor is
//!   that of its instructions: `Tenant::program_cost`.
//! - The runs of a batch are the test-run frames of its packets, with replies that have its results; a run is rejected with the
//!   status of its frame; there are as many results as packets: `batch_is_its_frames`, `refused_as_its_frame`,
//!   `one_result_each`.
//!
//! # Decisions
//!
//! - That no test run faults is a statement about replies: none has the status -14, which the machine gives only for a fault.
//! - What the open descriptors name is listed for the verdict number by number from 3 to 66, by `get`: the table of descriptors
//!   does not show its handles.
//! - Whether a program that was verified elsewhere fits is tested map by map, before anything is allocated: so the result says that
//!   it does not fit, and never that this could not be found out. Its list of objects is then replaced by that of a load.
//! - A program keeps the handles of its maps in the form that a run takes, so a run makes no list of them; a list of sixteen,
//!   cleared and copied in each run, took 34 machine instructions.
//! - A reply with a number is written at once (`write_number`), sixteen bytes of known length; written as head and payload it
//!   took 55 machine instructions more. With both, and the context written in pairs, a frame with a run of two instructions
//!   took 542 machine instructions instead of 658 (builds without proofs); 142 of them read the frame's length and the frame,
//!   one call of the reader each.
//! - Each arm of `write_command_reply` writes its own reply: a reply borrows its value from the tenant's part or its key from the
//!   maps, and no contract can describe both the borrowed bytes and their owner after the `match`; so a value would have to be
//!   copied or looked up again.
#![tactic(auto)]

mod batch;
mod counts;
mod described;
mod errno;
mod installing;
pub mod laws;
mod loading;
mod object;
mod readers;
mod reply;
mod shape;
mod tenant;
mod test_run;

pub use batch::Batch;
pub use counts::Counts;
pub use described::{Described, MAP_THERE, NOTHING_THERE, PROGRAM_THERE, type_number};
pub use errno::Errno;
pub use object::{LoadedProgram, OpenObject};
pub use readers::MapEntry;
pub use reply::{Reply, write_command_reply};
pub use shape::asked_shape;
pub use tenant::Tenant;
pub use verifier::{Cost, Verified, WorkingMemory};

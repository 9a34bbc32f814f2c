//! A tenant that can be saved: its frames are handled, and it is saved as frames that make a new tenant reply as this one does.
//!
//! A state does not record in which order its objects were created, so a `SavableTenant` also has a list of births (`Birth`): a
//! map was created, or a program loaded, at a descriptor. Contracts see the latest first. A state and its births give the
//! commands that restore the state (`restored`). All 64 descriptors are kept open, by a program of two instructions if there is
//! nothing else, so that the next object gets the descriptor that was closed last. Two states are alike (`IsAlike`) if they
//! have the same open objects and the same live maps, possibly under other handles; the flag of refused memory may differ.
//!
//! # What is proved
//!
//! Frames:
//!
//! - A frame gets the reply of one step of the machine of `tenant`, from the state that the tenant and its part of the arena
//!   represent to the next one; the result bytes of a test run are those of the tagged machine: `replied` of
//!   `SavableTenant::handle`.
//! - No test run faults, and every other part of the arena is unchanged: `no_fault`, `others` of `SavableTenant::handle`.
//! - The births after a frame are those after its command (`births_after`): `recorded` of `SavableTenant::handle`. There is room
//!   for all of them from the start, so no command is refused memory for a birth. They are always those of the state:
//!   the invariant `IsRecorded`.
//! - A program that was verified elsewhere is opened as by the frame that loads it, with the reply and the births after this frame; or
//!   it does not fit and is given back: `replied`, `recorded`, `no_fault`, `fits`, `stale` of `SavableTenant::install`.
//! - Many packets are run as `Tenant::run_packets` promises, and the births are unchanged: `runs`, `refusal`, `births`,
//!   `unchanged` of `SavableTenant::run_packets`.
//! - Counts, descriptors and their objects, the cost of a program, and the packets that a bound allows a batch are those of `Tenant`, and
//!   nothing changes: `counts`, `describe`, `targets`, `program_cost`, `allowed_packets` of `SavableTenant`.
//!
//! Saves:
//!
//! - A save has parts: the frames that fill all descriptors; for each birth, the oldest first, those that create the map or load the
//!   program, and then those that put the keys of the map, at most 1,024 in each part (`KEYS_PER_SAVE_PART`); and those that close the
//!   descriptors that are not open. The bytes of a part are exactly the frames of its commands, each with its length before it; there is
//!   none after the last part. Nothing changes: `SavableTenant::save_part`.
//! - The parts together are the commands that restore the state: `parts_are_whole`.
//!
//! Laws of the machine:
//!
//! - Exactly the maps that an open object names are live, in a new tenant and after each command: `maps_are_held`.
//! - Alike states give each command the same status and payload, and stay alike; so they give each list of frames the same
//!   replies, whether memory is refused or not: `alike_is_bisimulation`, `alike_states_reply_alike`.
//! - The births of a new tenant's objects remain those of its live maps and open programs, and are at most 80:
//!   `births_are_kept`.
//! - The precondition of restoring a state holds for a new tenant, and after each command, whatever memory is refused:
//!   `restorable_is_kept`.
//! - If no memory is refused, a new tenant carries out the commands that restore a state, and is then alike to it; so it does
//!   by frames: `restored_is_alike`, `restored_by_frames`.
//! - Each test run that fits into a frame has one: `test_runs_have_frames`.
//! - Whatever frames a tenant had, and whatever memory was refused to it: a new tenant to which no memory is refused carries
//!   out the frames that restore its state, and then gives each list of frames exactly the replies of the old one, while no
//!   memory is refused: `histories_are_restored`.
//!
//! # Decisions
//!
//! - A save consists of frames of the protocol, and has no format of its own: whatever serves a stream can restore a tenant, and
//!   what a frame does is proved already. It costs bytes: a load and a close for each descriptor, some 2.6 KB for an empty
//!   tenant.
//! - Parts have numbers, and there is no cursor: `save_part` changes nothing, so a caller may ask for a part again, stop, and
//!   serve other tenants in between. The caller has to see to it that the tenant does not change between its first part and its
//!   last.
//! - The keys of a map are put by several parts, so that a part takes less time than a frame may: in one part, 4,096 keys of 512 bytes
//!   took more than a millisecond. A part finds its first key by the number of keys before it, which it passes one by one: some 80 machine
//!   instructions each; a frame takes 500. So nothing has to be kept between two parts.
//! - The births are kept in a layer above the tenant: the machine of a tenant has no order of births, and no reply shows one.
//!   Only MAP_CREATE, PROG_LOAD and CLOSE touch the list. A creation or a load, with its close, takes 100 machine instructions
//!   more for it, and other frames none (builds without proofs).
//! - The flag of refused memory is not saved: it is about the memory of a host, and not about the tenant.
#![tactic(auto)]

mod birth;
mod frame_writer;
mod handling;
mod inspection;
mod installing;
pub mod laws;
mod savable;
mod save_parts;

pub use birth::Birth;
pub use savable::SavableTenant;

//! The abstract domain of the verifier: what it knows of a program's registers and stack before an instruction.
//!
//! # What is proved
//!
//! - Joins of kinds, slots and facts are those of the definition: `Kind::join`, `Slot::join`, `join`, `join_into`. They are
//!   commutative and associative: `joins_commute`, `joins_associate`. The joins of the registers and of a group of stack slots are
//!   `join_registers` and `join_group`. A second join with the same slot changes nothing: `slots_absorb`.
//! - A load from the stack gives the kind of the definition, a store the facts, or each the first reason against it:
//!   `read_stack`, `write_stack`. A store changes only the slot that it returns. The same holds for what a helper reads and
//!   writes over many slots: `check_read`, `fill_stack`.
//! - The facts after a call are those of the definition: `facts_after_call`.
//! - A null test settles each copy of the result of one look-up and no other: `settle`, and `settle_both` for both edges at once.
//!
//! # Decisions
//!
//! - Stack accesses have no precondition. `read_stack` and `write_stack` return the reason themselves if an access leaves the
//!   stack or is not aligned, so the order of the reasons is defined in one place.
//! - Only its slot identifies a look-up, so `settle` takes no map; each copy keeps its own. The slot is a whole number: it
//!   makes a kind no larger than a range does, and `apply` of `transfer` has no precondition on it.
//! - A helper's write takes any two counts: if the least is above the most, no write has such a length, so there is no
//!   precondition on the two, and the facts after it describe no run.
//! - A group of stack slots is a type, `StackGroup`, whose number is below that of the groups, so `join_group` has no precondition.
//! - `join_registers` has a call for each register. A join that changes nothing is found inline; only other kinds are joined out of
//!   line. As a loop, which the compiler does not unroll, it takes 50 machine instructions more.
//! - Joins that extend a pointer's range of offsets, or replace a spill by bytes, are done in place, and the general join is out of line.
//!   A program can force such a join in all slots of the stack at most of its jumps. One takes 59 machine instructions, and took 93 before.
//! - `settle_both` copies the facts and finds the copies of a look-up's result once for both edges of a null test.
//! - Alignment is that of a byte index; the offset from the frame pointer differs from it by 512, a multiple of each size, so it
//!   has the same alignment.
#![tactic(auto)]

mod facts;
mod joins;
mod kind;
mod known_answers;
pub mod laws;
mod many;
mod null_tests;
mod reason;
mod stack;

pub use facts::Facts;
pub use joins::{
    GROUP_SLOTS, STACK_GROUPS, StackGroup, join, join_group, join_into, join_registers,
};
pub use kind::{Kind, Slot, ValuePointer};
pub use many::{check_read, facts_after_call, fill_stack};
pub use null_tests::{settle, settle_both};
pub use reason::Reason;
pub use stack::{loaded, read_stack, write_stack};

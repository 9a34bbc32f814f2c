//! The verdict of a log, and the facts that it is made of. The crates above it write them as text: `log_listing` as lines and
//! as a graph, and `log_reasons` why a program is rejected.
//!
//! # What is proved
//!
//! - The facts that are kept are those of the definition (`reached`), before each instruction that a run may reach, in the order
//!   of the slots and no others, with the verdict of the definition: for an accepted program before all of its instructions; for
//!   one that is rejected for its safety up to the slot of the fault; for one that is rejected for its shape none: `judge`. An
//!   accepted program's cost is that of the definition.
//! - The verdict as text is a line with the cost of the program and the line `accepted`; or the line of the rejection, with its
//!   slot and the number of its reason, and some text after it: `write_verdict`.
//! - A log of a judged program says that it is accepted exactly if it is, has its facts, and its text says the verdict, and of an
//!   accepted program the cost, if it ends with it: `Judged::into_log`.
//!
//! # Decisions
//!
//! - The facts are stored as the pass reports them, and the log is written after the pass: if memory is refused, there is no
//!   partial log, and the contract can say which facts it is written from. For 4,092 instructions the facts take 9.5 MB while a
//!   log is made, and the system some 5 ms to provide them, next to 7 ms for the log; machine instructions are within 2% of
//!   those before this form.
//! - What a comparison refines on its edges is computed again from the facts before it (`Edges`, by `apply`), as the pass only
//!   reports facts before instructions.
//! - Wording is in other crates, so a sentence may change without a new proof of what a log is made of.
#![tactic(auto)]

mod edges;
mod kinds;
mod log;
mod recorder;
mod verdict;

pub use edges::Edges;
pub use kinds::{write_byte_range, write_kind, write_range};
pub use log::{Log, LogStyle};
pub use recorder::{Judged, KnownFacts, judge};
pub use verdict::{is_of_shape, write_verdict};

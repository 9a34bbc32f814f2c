//! The log of a program: its lines or its graph, with the verdict and why. `log_text` has the command line of the program that
//! writes it, and `bpfhost_c` the call for C.
//!
//! # What is proved
//!
//! - The log says that a program is accepted exactly if it is, by the definition of the verdict: `verdict` of `log_of`.
//! - The facts of the log are those of the definition (`reached`), before each instruction that a run may reach, in the order
//!   of the slots and no others: for an accepted program before all of them; for one that is rejected for its safety up to the
//!   slot of the fault; for one that is rejected for its shape none: `facts` of `log_of`.
//! - As lines, it ends with the verdict: a line with the cost of the program, by the definition, and the line `accepted`; or the
//!   line of the rejection, with the slot and the number of the reason of the definition, and some text after it. Before it are
//!   whole lines: `said` of `log_of`.
//! - The log of the bytes of slots is that of the program that they spell; if they spell none, it is the line of their rejection,
//!   with the slot and the number of the codec's fault: `log_of_slots`.
//!
//! How the facts are written, the text after a rejection, and the graph are only tested (`cases_logs`).
//!
//! # Decisions
//!
//! - Four crates make a log. `log_facts` has the verdict, the facts, and the definitions that the clauses of `log_of` cite; `log_listing`
//!   writes lines and graphs, and `log_reasons` why a program is rejected, side by side. This crate puts the three together. It needs
//!   neither the command line nor the host, so the library for C has the log without them.
#![tactic(auto)]

mod log;
mod slots;

pub use log::log_of;
pub use log_facts::{KnownFacts, Log, LogStyle};
pub use slots::{SlotsLog, log_of_slots};

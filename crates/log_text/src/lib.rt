//! The program of the verifier's log, and its command line. `log_core` makes the log.
//!
//! # What is proved
//!
//! - Each function ends and is safe. What the log says is proved in `log_core`; how it is written is only tested.
//!
//! # Decisions
//!
//! - The log is a program of its own, so the subcommands and statuses of `bpfhost` stay.
//! - Only this crate of the log uses `host`, so a change of the host proves no wording again.
#![tactic(auto)]

mod arguments;
mod running;

pub use log_core::{KnownFacts, Log, LogStyle, log_of};
pub use running::run_log_words;

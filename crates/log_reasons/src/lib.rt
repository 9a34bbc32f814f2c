//! Why a program is rejected, in words: the reason, what the verifier knows, and what the instruction requires.
//!
//! The wording is only tested (`cases_logs`); proved is that each function ends and is safe.
//!
//! # Decisions
//!
//! - The path on which something is missing is found by a second pass over the stored facts, only if a register or stack bytes
//!   may not be read: it carries along each edge whether the thing is present, and if not, why.
#![tactic(auto)]

mod needs;
mod reasons;
mod ways;

pub use needs::rejection_text;

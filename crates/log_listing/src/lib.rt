//! A program with what the verifier knows of it, as text: a line for each instruction, or its control flow as a graph.
//!
//! # What is proved
//!
//! - Lines end with the verdict that they are written from; before it are whole lines: `listing_of`.
//!
//! How the facts are written, and the graph, are only tested (`cases_logs`).
//!
//! # Decisions
//!
//! - A line shows what differs from the line above, also after a jump: so a line needs only the facts of the line before it,
//!   and all that is known at a line follows from those above it.
//! - The time of a listing grows with its slots: the jumps are sorted once by target.
#![tactic(auto)]

mod control;
mod graph;
mod known;
mod lines;
mod listing;
mod steps;

pub use listing::listing_of;

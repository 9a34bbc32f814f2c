//! The interval domain: ranges of unsigned numbers, and how operators and comparisons on words transform them.
//!
//! # What is proved
//!
//! - The range of an operator's results is that of the table, and contains the result of every two members: `exact`, `sound` of
//!   `alu64`, `alu32`.
//! - The refinement of a comparison's operands is that of the table: `exact` of `refine`. It loses no pair of members that
//!   takes an edge, and excludes no edge that a pair takes: `taken`, `not_taken` of `refine`.
//! - The same holds for the tables themselves: results of members are members, members that take an edge are members there, and
//!   ranges of words give ranges of words: `results_are_members`, `edges_keep_members`, `results_are_words`, `edges_are_words`.
//! - The hull is the least range that contains both, and is commutative and associative: `hull`, `hull_is_a_join`.
//!
//! # Decisions
//!
//! Ranges in definitions are total: `span lo hi` is only `lo` if `hi` is below it, so a line of a table needs no proof inside.
//! The code never constructs such a range.
#![tactic(auto)]

mod alu;
mod arithmetic;
mod bitwise;
mod edges;
mod hulls;
mod known_answers;
pub mod laws;
mod range;
mod shifts;

pub use alu::{alu32, alu64};
pub use edges::{Edge, refine};
pub use hulls::hull;
pub use range::Range;

//! Descriptors: a table of the open objects, numbered from 3 to 66. A new object gets the lowest free number, which a bit mask
//! finds.
//!
//! # What is proved
//!
//! Contracts see the open objects as a list of 64 entries, descriptor 3 first (`Table` in its specs). A bit mask marks the
//! entries that are taken; that the two agree is the invariant of the type, and no contract names the mask.
//!
//! - An object is opened at the lowest free descriptor, from 3 to 66; if none is free, it is returned and nothing changes:
//!   `placed`, `bounds` of `place`.
//! - Whether all descriptors are taken: `is_full`.
//! - A descriptor names the object that was opened at it, and no other number names anything: `get`.
//! - Closing a descriptor returns the object that it named, and frees it; closing a descriptor that is not open changes
//!   nothing: `named`, `closed` of `close`.
//! - A new table has nothing open: `new`.
//!
//! `new` is the only call with an allocator, and allocates for all descriptors. That no other call allocates is seen in the
//! code and not proved, since the list of entries keeps its allocator.
//!
//! # Decisions
//!
//! - The open objects are seen as a table of 64 numbers and not as a list of pairs, which would have an order that no reply
//!   shows.
//! - The bit mask gives the lowest free descriptor by one count of trailing ones, so `place` and `is_full` never walk over the
//!   64 entries.
#![tactic(auto)]

mod table;

pub use table::{FIRST, FdTable, MOST};

//! The memory of all tenants: one list of bytes, in parts of one size, one for each tenant. Addresses begin at 2^32, and the
//! parts follow one another.
//!
//! # What is proved
//!
//! - A load returns the little-endian number of the bytes at an address, and `None` exactly if they are not in the memory:
//!   `value` of `load`.
//! - A store and a copy change only the bytes of their range, and nothing if a range is not in the memory: `found`, `bytes` of
//!   `store`, `copy`.
//! - If the bytes are known to be in the memory, a load, a store and a copy do the same without a bounds check: `value` of
//!   `load_inside`, `bytes` of `store_inside`, `copy_inside`. So any bytes are written: `bytes` of `write_inside`.
//! - A memory that is taken is the one that was there, and an empty one is left: `taken`, `left` of `take`.
//! - The bytes of a part are lent, and only its range can change: `bytes` of `part`; `bytes`, `lends` of `part_mut`.
//! - Each requested range is recorded, also if it is not in the memory: `ranges` of `load`, `store`, `copy`, `load_inside`,
//!   `store_inside`, `write_inside`, `copy_inside`.
//! - A store, a copy or a write through a lent part within one part leaves the other parts unchanged: `writes_stay_inside`,
//!   `parts_are_apart`.
//! - A write within a part, through the memory or through the lent part, is a write in the part's bytes: `writes_are_in_parts`.
//! - A load, a store or a copy at addresses within a part is one in its bytes, and the other parts are unchanged:
//!   `accesses_are_in_parts`.
#![tactic(auto)]

mod contract_clients;
mod copying;
mod known_answers;
pub mod laws;
mod memory;
mod numbers;
mod trace;

pub use memory::{Arena, BASE};
pub use trace::Trace;

//! Keys in the order in which they were added, each with an element of its own (`BoundedKeys`), for any type of keys and any hash
//! function. An element is a number below a bound: that of the key's value in a map. A removal costs as much as an insertion.
//!
//! The implementation has a table of the keys in any order, the index of each element's key in it, and the order of the elements
//! (`ElementOrder`), a ring of links. That they agree is the invariant of the type.
//!
//! # What is proved
//!
//! - A key's element is found, and none for an absent key: `get` of `OrderedMap`.
//! - The key after a key is the next one of the order, and after an absent key the first: `key_after`, `first` of `OrderedMap`. So is the
//!   entry after that of an element, and without an element it is the first: `entry_after`.
//! - A new key goes to the end with its element: `added` of `insert`. All memory is taken when the map is made, so neither `insert` nor
//!   `remove` can run out of it.
//! - A removal returns the element of the key, and the others keep their order: `element`, `left` of `remove`. Or all keys are removed:
//!   `entries` of `clear`.
//!
//! A caller may look up with another type than that of the keys (`Equivalent`, whose laws say that all keys which it is equivalent to
//! are equal). That a removal costs as much as an insertion is seen in the code, but for the removal that fills the
//! table anew, and is measured; no contract is about steps.
//!
//! # Decisions
//!
//! - The order of the keys is a ring of links over elements, and not the order of the index map. The keys of a map already have
//!   elements: numbers below the map's size, one for each key, that never move. So the order is one of small numbers, with two
//!   links for each element and for the ends of the ring. The index map has its keys in any order: a delete swaps its last key
//!   into the gap. Keeping the order in the index map itself, a delete would move all later keys, as it did before.
//! - Now each operation costs the same for any number of keys, and nothing is deferred to a later sweep. A delete and an update of the
//!   oldest key together took 2,076 machine instructions with 64 keys and 52,114 with 4,096, and then took 1,207 to 1,283 with either
//!   (bench/FIGURES.md).
//! - The links take 12 bytes for each element and 8 more, 48 KiB for 4,096 elements, all of it allocated when the map is created: a
//!   new key takes the memory that it took before, and a delete none.
//! - Alternatives: entries that are freed in place, which the index map does not allow; a log of deleted keys, which has to be
//!   swept in one long step, and until then slows down the next key; two generations, with two look-ups each time; a tree by
//!   number of birth, whose deletes take some hundred machine instructions more and whose numbers run out.
//! - The table is made with room for four times the bound, and keeps room for the bound from then on, so a new key is never refused memory
//!   and the table never grows. The index map promises room for the next key while it has a slot to spare; but a removal from a group
//!   of slots that was once full gives up a slot. So a removal first looks at the table's capacity. While that is more than the bound,
//!   one slot can be given up. Else the second half of the entries is copied out, taken out and put back: if at least half of the entries
//!   go, the index map keeps its capacity by contract, and in fact has its full room again. The rows for that copy are allocated and not
//!   written until then. With random keys in a full map of 4,096, a table of twice the bound was filled anew once in some 150,000 deletes
//!   with inserts, one of four times the bound not once in 300,000; it takes 64 KiB more (bench/FIGURES.md).
//! - A table that grows was used before. The longest step in a fill with 4,096 keys took 353,239 machine instructions, and the longest
//!   of 24,000 deletes and updates after it 622,103; they now take some 2,000 and 1,700.
//! - A map of 4,096 elements without a key has 128 KiB of slots. Keys and rows are written only as keys come.
#![tactic(auto)]

mod element_order;
mod ordered_map;

pub use indexmap::Equivalent;
pub use ordered_map::OrderedMap;

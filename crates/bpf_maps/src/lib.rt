//! The two kinds of map, and a tenant's live maps. A map finds the element of a key; it does not look at the value there.
//!
//! A map is an ordered list of keys with their objects (`Table` of `tagged_model`), whatever an object is; here it is an element
//! for a value. Both kinds of map have this one definition. The values of a tenant's live maps are in its part of the memory,
//! in which each element of a map has bytes of its own.
//!
//! # Words
//!
//! - A *key* is the bytes by which a caller finds a value in a map; an *entry* is a key with its element.
//! - An *element* is the bytes of one value in a map's area, and their number in the map, from 0 to one less than `max_entries`.
//! - A map *handle* (`MapKey`) says which of a tenant's live maps is meant, 0 to 15.
//! - The *area* of a map is the bytes of all its values, in the tenant's *part* of the memory.
//!
//! # What is proved
//!
//! Calls of one map:
//!
//! - A look-up, an update, a delete and a request for the next key return and leave what the definition says, with errors in
//!   its order, and none of them is refused memory: a map takes all memory that it can ever need when it is created. This holds for
//!   the calls of `ValueMap`, for `ArrayMap` and `HashMap`.
//! - The address of a key's value is that of its element in the part, modulo 2^64, at which the whole value is, and 0 if the map has
//!   no such key: `address`, `inside` of `Maps::address_of`. In an array it is found from the number of its elements, their distance
//!   and the address of the first: `Elements::of`, `Elements::address_of`.
//! - A key is the list of its bytes, whether it is stored as a number or as bytes: `entries_of`, in the calls of `KeyIndex` and
//!   the model of `HashMap`.
//! - The next key is the one of the definition, and has the size of the map's keys: `given`, `size` of `key_after`. Or it is
//!   written at the front of a buffer for the longest key, with nothing changed after it; nothing is written if no key follows:
//!   `given` of `next_key`. After the key of an element, it comes with its element: `entry` of `Maps::entry_after`.
//! - Seen as maps, new maps, new keys, deletes and ends of runs are those of the definition: `calls_are_those_of_a_map`.
//! - Writing a value at a key's element gives the key that value; values that agree on the elements in use give one map:
//!   `writes_refine_values`, `values_agree`.
//! - No two keys have the same element, an array has all its indices, and the element of a deleted key is given to no key before
//!   the run ends: `sound` or `rest` of each call, `claimed` of `claim`.
//!
//! The live maps of a tenant:
//!
//! - A tenant has at most sixteen live maps, and at most 262,144 bytes of values. A new map gets the lowest free handle; if
//!   there is none, or there are too many bytes, no map is created; out of memory, only the flag changes: `created` of
//!   `Maps::create`, `maps`, `bytes` of `maps_are_laid`.
//! - A new map adds its area to the sum of their bytes, its last release subtracts it, and no other call changes the sum:
//!   `more` of `create`, `freed`, `room` of `release`, `room` or `rest` of the other calls, `maps`, `bytes` of `new`.
//! - The values of all live maps are in the tenant's part after the stack and the context, begin at multiples of eight and do
//!   not overlap: `laid` or `rest` of each call, `inside` of `value_at`.
//! - The bytes of a value, written at the element of a key, are the value of that key, and of no other key of any live map:
//!   `values_are_written`.
//! - With the bytes of its values a live map changes as its elements do: a delete, the end of a run, and a claim with the write
//!   of its value are those of the definition: `live_maps_refine_values`.
//! - A new hash map has no key, and the values of a new array are zero; every other live map keeps its keys and values:
//!   `fresh`, `cleared`, `values`, `maps` of `create`, `values`, `maps`, `kept` of `release`.
//! - A claim, a delete and the end of a run only change the keys of one map: it keeps its shape, its area and its references,
//!   and the other maps and the flag of refused memory are unchanged: `rest` of `claim`, `remove` and `end_run`
//!   (`OnlyKeysChange`).
//! - The areas of live maps do not overlap and leave no gap: they take as many bytes after the stack and the context as all
//!   their values, each rounded up to a multiple of eight: `packed` of `maps_are_laid`.
//! - A new map comes after the others and leaves them unchanged. The last release of a map moves each later map down by its
//!   area, with its values, and changes nothing else of the others. No other call moves an area: `last`, `older` of `create`,
//!   `moved`, `values`, `areas` of `release`, `areas` or `rest` of the other calls.
//! - The values of live maps do not overlap and no two keys of a map have one element; the same areas keep the address of each value; a
//!   delete keeps the other elements: `maps_are_laid`, `areas_keep_elements`, `deletes_keep_elements`.
//! - A key and a value of any map are no longer than a part: `sizes_fit_in_parts`.
//! - A map is freed at its last release, and no other map: `less`, `gone`, `others` of `release`.
//! - How many maps are live, how many keys one has and all have, and how many bytes their values take: `live_count`, `key_count`,
//!   `key_sum`, `value_bytes` of `Maps`.
//!
//! What a caller can derive only from these, such as a whole update, a whole delete, or a map in the area of another, is
//! proved in `contract_clients.rt`. The keys of a hash map are in an `OrderedMap` of `ordered_keys`, and hashed with a seed
//! that no clause names.
//!
//! # Decisions
//!
//! - An array is a map that has all its indices from the start, so an index out of range is a key that is not there.
//! - Keys of at most eight bytes are stored as numbers, the lowest byte first, in an index of their own (`WordIndex`): such a
//!   key is hashed and compared as one number, and takes no memory but its entry. Keys of four and of eight bytes are one load;
//!   others are padded with zeros out of line. Contracts see the bytes of keys. A look-up takes half the machine instructions
//!   that it took with all keys as bytes.
//! - A longer key is in an array of 64 or of 512 bytes (`InlineKey`), in an index for each of the two lengths (`MiddleIndex`,
//!   `LongIndex`), so that a map takes all memory for its keys when it is created: with a `Vec` for each key, a new key took memory.
//!   The arrays are allocated and not written until their key comes. One length for both would take eight times the memory for keys of
//!   9 to 64 bytes. The two indices are the same code: an index for any length would have to show that the array's length is small
//!   at each use of a key.
//! - Such a key is hashed in one write of all its bytes, which the hasher takes sixteen at a time, and is looked up by borrowed bytes
//!   (`KeyBytes`). The look-up of a key of 64 bytes took 598 machine instructions before and 218 after this change.
//! - A look-up in a hash map is three functions in the machine code: one that checks how the keys are stored and ends in a jump
//!   to one for numbers or one for longer keys. As one function, a look-up of a number saved and restored the registers that
//!   only longer keys need. The map's part of an update is inlined: its `Result` went through memory. bench/FIGURES.md has the
//!   cost before and after. A separate end of the hash function for keys of at most sixteen bytes was tried with it, and took
//!   five machine instructions more.
//! - The next key is borrowed or returned by value (`KeyRef`): a key that is stored as a number is spelled in eight bytes, a
//!   longer one is borrowed from the map. So no request clears and fills room for the longest key, 512 bytes.
//! - Memory is allocated in advance: a hash map allocates its list of elements, their order and its table of keys when it is created, and
//!   `Maps` room for sixteen maps, so an update, a delete and the end of a run allocate nothing.
//! - A hash map that is freed keeps its memory for a later one of this tenant, of the same size of keys and as many entries
//!   (`SpareMaps`): so the last release gives no memory back, and such a new map takes none. Whenever a map takes memory, the spare maps
//!   and the live ones have at most 32,768 entries, as many as only live ones can have. If there would be more, a spare one that suffices
//!   is freed, the one with the least memory; if none does, those with the most entries, until one does. Freed in the order in which they
//!   were closed, a full map went before a smaller one that suffices. No contract mentions the spare maps.
//! - The elements that no key has are one list: first those of keys that were deleted in this run, then the free ones. An element of
//!   the first part counts as an entry until the run ends. The end of a run only sets the length of that part to 0, so it takes
//!   the same time however many keys were deleted.
//! - The refinement between a map of objects and the map of what they represent is one record for any two kinds of object. No
//!   clause can range over all kinds, so `calls_refine_values` states it for numbers that represent numbers and bytes.
//! - A tenant's maps keep the allocator with which they were created, so `create` takes none: a new map uses it.
//! - The areas of a tenant's maps follow one another after the stack and the context, in order of creation, without a gap. So a
//!   part takes 262,720 bytes; an area of the largest size for each of sixteen maps would take 1,049,152. When a map is freed,
//!   the bytes of all later maps move down by its area: at most 262,136 bytes, by at most 65,536. A program's run closes
//!   nothing, so no map moves between looking up an address and using it; addresses of a later run may differ, and no reply
//!   shows one.
//! - Each fact of a live map is stored once, in the slab (`StoredMap`): its kind and shape, its keys, the start of its area, the
//!   distance of its values, and the number of references. So an access needs no sum over earlier maps; when a map is freed,
//!   the starts of the later ones are reduced. A run without calls reads none of it.
//! - A map of a tenant has one name, its handle, 0 to 15, and a new map gets the lowest free one. Descriptors, programs and runs
//!   use it. The slab chooses keys of its own, about which nothing is known; they are in a list by handle (`SlabKeys`), and stay
//!   inside `Maps`.
//! - A key in this list is one word, of which the largest value means none. With an `Option<usize>`, of two words, a look-up in
//!   an array or an update of one takes one machine instruction more.
//! - An array's shape is at the offset of a hash map's, so reading it tests no kind (`align` of `ArrayMap`).
#![tactic(auto)]

mod array_map;
mod bpf_map;
mod contract_clients;
mod counting;
mod elements;
mod hash_map;
mod inline_key;
mod key_index;
mod key_ref;
pub mod laws;
mod long_index;
mod maps;
mod middle_index;
mod part;
mod slab_keys;
mod spare_maps;
mod stored_map;
mod value_map;
mod word_index;

pub use array_map::{ArrayMap, INDEX_SIZE};
pub use bpf_map::BpfMap;
pub use elements::Elements;
pub use hash_map::HashMap;
/// Another name of `HashMap`.
pub use hash_map::HashMap as HashMapIx;
pub use key_ref::{KeyRef, ShortKey};
pub use maps::{MapKey, Maps};
pub use part::{KEY_ROOM, LARGEST_SUM, MAPS, PART, STACK_AND_CONTEXT};
pub use tagged_model::MapFault;
pub use value_map::{ANY, EXIST, NOEXIST, ValueMap};

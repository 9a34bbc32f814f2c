//! The index of a hash map: the elements of keys of one size.

ghost use Rattle.std.specs.Prelude.{◌≡◌, ℕ, ◌<◌, ◌≤◌, None, IfOk, [], length, option_map};
ghost use Rattle.std.specs.Map.{values_of};
ghost use Rattle.ordered_keys.specs.Orders.{next_entry};
ghost use Rattle.tagged_model.specs.Table.{found, with_key, without, key_after};
ghost use Rattle.bpf_maps.specs.declared.long_index.TheConstants.{LONGEST_LONG};
ghost use Rattle.bpf_maps.specs.KeyRef.{key_bytes, shown_entry};
ghost use Rattle.bpf_maps.specs.KeyTable.{occurrences};
ghost use Rattle.bpf_maps.specs.Index.{entries_of, bound_of, TakesKeys};

use crate::key_ref::KeyRef;
use crate::long_index::{LONGEST_LONG, LongIndex};
use crate::middle_index::{LONGEST_MIDDLE, MiddleIndex};
use crate::word_index::{LONGEST_WORD, WordIndex};
use seeded_hash::HashSeed;
use std::alloc::{AllocError, Global};

/// The keys of a hash map, each with its element, in the order in which they were added. Keys of at most 8 bytes are kept as numbers
/// (`Words`), those of at most 64 bytes in arrays of 64 (`Middle`), and longer ones in arrays of 512 (`Long`).
#[derive(Drop)]
pub enum KeyIndex {
    Words(WordIndex),
    Middle(MiddleIndex),
    Long(LongIndex),
}

impl KeyIndex {
    /// Makes an index without keys (`entries`), into which keys of `key_size` bytes (`takes`) and elements less than `bound`, the map's
    /// `max_entries`, can be inserted. It is `Words` for keys of at most `LONGEST_WORD` bytes, `Middle` for at most `LONGEST_MIDDLE`, else
    /// `Long`; no shape has a `key_size` above `LONGEST_LONG`. Only `Words` is given the size: it keeps a key as a number, which does not
    /// have the key's length. Allocates memory for `bound` keys, which are hashed with the seed. `AllocError`: out of memory.
    pub(crate) fn new(
        alloc: Global,
        key_size: usize,
        bound: u32,
        seed: HashSeed,
    ) -> Result<KeyIndex, AllocError>
        requires { key_size ≤ LONGEST_LONG }
        ensures entries { IfOk result (λ index. entries_of index ≡ []) }
        ensures takes { IfOk result (λ index. TakesKeys index key_size) }
        ensures bound { IfOk result (λ index. bound_of index ≡ bound) }
    {
        if key_size <= LONGEST_WORD {
            Ok(KeyIndex::Words(WordIndex::new(alloc, key_size, bound, seed)?))
        } else if key_size <= LONGEST_MIDDLE {
            Ok(KeyIndex::Middle(MiddleIndex::new(alloc, bound, seed)?))
        } else {
            Ok(KeyIndex::Long(LongIndex::new(alloc, bound, seed)?))
        }
    }

    /// The size, in bytes, of the number or of the array in which an index keeps a key of `key_size` bytes. It is the least of
    /// `LONGEST_WORD` (8), `LONGEST_MIDDLE` (64) and `LONGEST_LONG` (512) that is not below `key_size`; no key is longer than 512 bytes.
    /// With this size `key_memory` computes the memory for the keys of a map. The contract bounds the size, so that its product with a
    /// 32-bit number of keys does not overflow 64 bits.
    pub(crate) fn room_of(key_size: usize) -> usize
        ensures { result ≤ LONGEST_LONG }
    {
        if key_size <= LONGEST_WORD {
            LONGEST_WORD
        } else if key_size <= LONGEST_MIDDLE {
            LONGEST_MIDDLE
        } else {
            LONGEST_LONG
        }
    }

    /// Returns the element of a key; `None` if the index does not have the key. The precondition (`TakesKeys`) is that this variant of the
    /// index can have keys of this size; the callers pass a key of the size of the map's keys.
    #[inline(always)]
    pub(crate) fn get(&self, key: &[u8]) -> Option<u32>
        requires { TakesKeys self.now (length key.now) }
        ensures { result ≡ found key.now (entries_of self.now) }
    {
        match self {
            KeyIndex::Words(words) => words.get(key),
            KeyIndex::Middle(bytes) => bytes.get(key),
            KeyIndex::Long(bytes) => bytes.get(key),
        }
    }

    /// Returns the key that was added next after `key`, or the first key if `key` is absent or has another size; MAP_GET_NEXT_KEY replies
    /// with it. `None` after the last key, and if there are no keys. A key of at most eight bytes, which `Words` keeps as a number, is
    /// returned by value (`Short`), a longer one is borrowed from the index (`Lent`). `key_bytes` is the bytes of either.
    pub(crate) fn key_after(&self, key: &[u8]) -> Option<KeyRef<'_>>
        ensures { option_map key_bytes result ≡ key_after key.now (entries_of self.now) }
    {
        match self {
            KeyIndex::Words(words) => Some(KeyRef::Short(words.key_after(key)?)),
            KeyIndex::Middle(bytes) => Some(KeyRef::Lent(bytes.key_after(key)?)),
            KeyIndex::Long(bytes) => Some(KeyRef::Lent(bytes.key_after(key)?)),
        }
    }

    /// Returns a key and its element: those of the key that was added next after the key of `element`, or of the first key if `element` is
    /// `None`. `None` after the last key, if no key has `element`, and if there are no keys. A save reads a map's keys in turn by this
    /// function: it passes the element that the call before returned. No key is hashed or searched for, unlike in `key_after`.
    pub(crate) fn entry_after(&self, element: Option<u32>) -> Option<(KeyRef<'_>, u32)>
        ensures { option_map shown_entry result ≡ next_entry element (entries_of self.now) }
    {
        match self {
            KeyIndex::Words(words) => {
                let (key, element) = words.entry_after(element)?;
                Some((KeyRef::Short(key), element))
            }
            KeyIndex::Middle(bytes) => {
                let (key, element) = bytes.entry_after(element)?;
                Some((KeyRef::Lent(key), element))
            }
            KeyIndex::Long(bytes) => {
                let (key, element) = bytes.entry_after(element)?;
                Some((KeyRef::Lent(key), element))
            }
        }
    }

    /// Adds a key with its element, as the last in the order of the keys (`added`). `entries_of` is the list of all keys with their
    /// elements, in this order. The caller, `HashMap::add`, has found the key absent (`absent`), and gives it an element that no key has
    /// (`free`) and that is less than the index's bound, the map's `max_entries` (`within`). The key has the size of the map's keys, and
    /// this variant of the index can have keys of this size before and after (`takes`). The index has fewer keys than its bound (`few`),
    /// which does not change (`bound`). The call allocates nothing: `new` made room for `bound` keys.
    pub(crate) fn insert(&mut self, key: &[u8], element: u32)
        requires takes { TakesKeys self.old (length key.now) }
        requires absent { found key.now (entries_of self.old) ≡ None }
        requires within { element < bound_of self.old }
        requires free { occurrences element (values_of (entries_of self.old)) ≡ 0 }
        requires few { length (entries_of self.old) < bound_of self.old }
        ensures added { entries_of self.new ≡ with_key key.now element (entries_of self.old) }
        ensures takes { TakesKeys self.new (length key.now) }
        ensures bound { bound_of self.new ≡ bound_of self.old }
    {
        match self {
            KeyIndex::Words(words) => words.insert(key, element),
            KeyIndex::Middle(bytes) => bytes.insert(key, element),
            KeyIndex::Long(bytes) => bytes.insert(key, element),
        }
    }

    /// Removes all keys (`entries`), and keeps the memory, so that a new map can use it (`HashMap::renew`). The index can still have keys
    /// of each size that it could have before (`takes`), and elements less than the same bound as before (`bound`).
    pub(crate) fn clear(&mut self)
        ensures entries { entries_of self.new ≡ [] }
        ensures takes { (size : ℕ) → TakesKeys self.old size → TakesKeys self.new size }
        ensures bound { bound_of self.new ≡ bound_of self.old }
    {
        match self {
            KeyIndex::Words(words) => words.clear(),
            KeyIndex::Middle(bytes) => bytes.clear(),
            KeyIndex::Long(bytes) => bytes.clear(),
        }
    }

    /// Removes a key, which has the size of the map's keys, and returns its element (`element`); `None` if the key is absent, and then
    /// nothing changes. The other keys keep their elements and their order (`left`). As before the removal, the index can have keys of this
    /// size (`takes`), and elements less than its bound, the map's `max_entries` (`bound`).
    pub(crate) fn remove(&mut self, key: &[u8]) -> Option<u32>
        requires { TakesKeys self.old (length key.now) }
        ensures element { result ≡ found key.now (entries_of self.old) }
        ensures left { entries_of self.new ≡ without key.now (entries_of self.old) }
        ensures takes { TakesKeys self.new (length key.now) }
        ensures bound { bound_of self.new ≡ bound_of self.old }
    {
        match self {
            KeyIndex::Words(words) => words.remove(key),
            KeyIndex::Middle(bytes) => bytes.remove(key),
            KeyIndex::Long(bytes) => bytes.remove(key),
        }
    }
}

//! The elements of keys of at most 512 bytes.

ghost use Rattle.std.specs.Prelude.{◌≡◌, ◌<◌, ◌≤◌, None, IfOk, [], length, option_map};
ghost use Rattle.std.specs.Map.{values_of};
ghost use Rattle.ordered_keys.specs.Orders.{lent_entry, next_entry};
ghost use Rattle.tagged_model.specs.Table.{found, with_key, without, key_after};
ghost use Rattle.bpf_maps.specs.KeyTable.{occurrences};
ghost use Rattle.bpf_maps.specs.inside.Keys.{lent_key};

use crate::inline_key::{InlineKey, KeyBytes};
use ordered_keys::OrderedMap;
use seeded_hash::HashSeed;
use std::alloc::{AllocError, Global};
use std::marker::Model;

/// The length of the longest key of a `LongIndex`, in bytes: that of the longest key of any map, `LONGEST_KEY` of `tagged_model`.
pub(crate) const LONGEST_LONG: usize = 512;

/// Keys of at most 512 bytes, each with its element, in the order in which they were added. Each is kept in an array of 512 bytes.
/// Contracts see the keys' bytes with their elements.
#[derive(Drop)]
pub struct LongIndex {
    map: OrderedMap<InlineKey<LONGEST_LONG>, HashSeed>,
}

impl Model for LongIndex {
    ghost use Rattle.std.specs.Prelude.{ℕ, List};
    ghost use Rattle.std.specs.Coded.{coded_list, coded_ℕ};
    ghost use Rattle.ordered_keys.specs.Orders.{BoundedKeys, bounded_keys_code};

    ghost Value = { BoundedKeys (List ℕ) };

    ghost coded = { bounded_keys_code (coded_list coded_ℕ) };

    ghost view = { λ b. b.map };
}

impl LongIndex {
    /// Makes an index without keys (`entries`), which gives the element of each key of a hash map. It keeps a key in an array of 512 bytes;
    /// `KeyIndex` uses it for keys of more than 64 bytes. All elements are less than `bound`, the map's `max_entries`. Allocates memory for
    /// `bound` keys, which are hashed with the seed. `AllocError`: out of memory.
    pub(crate) fn new(alloc: Global, bound: u32, seed: HashSeed) -> Result<LongIndex, AllocError>
        ensures bound { IfOk result (λ index. index.bound ≡ bound) }
        ensures entries { IfOk result (λ index. index.entries ≡ []) }
    {
        let map = OrderedMap::new(alloc, bound, seed)?;
        Ok(LongIndex { map })
    }

    /// Returns the element of a key; `None` if the key is absent. It is not inlined: else its caller, the look-up of a key of any size
    /// (`KeyIndex::get`), would push registers to the machine's stack, which the look-up of a key of at most `LONGEST_WORD` bytes
    /// (`WordIndex`) does not need.
    #[inline(never)]
    pub(crate) fn get(&self, key: &[u8]) -> Option<u32>
        ensures { result ≡ found key.now self.now.entries }
    {
        self.map.get(KeyBytes { bytes: key })
    }

    /// Returns the key after `key` in the order in which the keys were added; `None` if `key` is the last, or the index has no keys. If the
    /// index does not have `key`, which may also be of another size, the result is the first key, so a caller can go through all keys. By
    /// the contract, the bytes of the returned key (`lent_key`) are those that the definition `key_after` gives for the entries of the
    /// index.
    pub(crate) fn key_after(&self, key: &[u8]) -> Option<&[u8]>
        ensures { option_map lent_key result ≡ key_after key.now self.now.entries }
    {
        let following = self.map.key_after(KeyBytes { bytes: key })?;
        Some(following.bytes())
    }

    /// The key that follows the key of `element` in the order in which the keys were added, or the first key if `element` is `None`; and
    /// the element of the returned key, by which the next call continues. So a save lists all keys. The result is `None` (`next_entry`) if
    /// no key follows, if no key has `element`, or if there are no keys. The returned key is borrowed; `lent_entry` has its bytes.
    pub(crate) fn entry_after(&self, element: Option<u32>) -> Option<(&[u8], u32)>
        ensures { option_map lent_entry result ≡ next_entry element self.now.entries }
    {
        let (key, element) = self.map.entry_after(element)?;
        Some((key.bytes(), element))
    }

    /// Adds a key of at most `LONGEST_LONG` bytes (`short`), with its element, after all other keys. The key is absent, the element is less
    /// than the index's bound (`within`), no key has this element (`free`), and there are fewer keys than the bound (`few`): `HashMap::add`
    /// provides that. No memory is allocated: `new` made room for `bound` keys.
    pub(crate) fn insert(&mut self, key: &[u8], element: u32)
        requires short { length key.now ≤ LONGEST_LONG }
        requires absent { found key.now self.old.entries ≡ None }
        requires within { element < self.old.bound }
        requires free { occurrences element (values_of self.old.entries) ≡ 0 }
        requires few { length self.old.entries < self.old.bound }
        ensures added { self.new.entries ≡ with_key key.now element self.old.entries }
        ensures bound { self.new.bound ≡ self.old.bound }
    {
        self.map.insert(InlineKey::copy_of(key), element);
    }

    /// Removes all keys, and keeps the memory for the keys of a new map (`HashMap::renew`). The bound of the elements, which was given to
    /// `new`, is unchanged (`bound`).
    pub(crate) fn clear(&mut self)
        ensures entries { self.new.entries ≡ [] }
        ensures bound { self.new.bound ≡ self.old.bound }
    {
        self.map.clear();
    }

    /// Removes a key and returns its element; `None` if the key is absent. The other keys keep their order. The number that was given to
    /// `new` (`bound`), which is greater than each element, is unchanged.
    pub(crate) fn remove(&mut self, key: &[u8]) -> Option<u32>
        ensures element { result ≡ found key.now self.old.entries }
        ensures left { self.new.entries ≡ without key.now self.old.entries }
        ensures bound { self.new.bound ≡ self.old.bound }
    {
        self.map.remove(KeyBytes { bytes: key })
    }
}

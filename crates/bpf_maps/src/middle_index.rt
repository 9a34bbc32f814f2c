//! The elements of keys of at most 64 bytes.

ghost use Rattle.std.specs.Prelude.{◌≡◌, ◌<◌, ◌≤◌, None, IfOk, [], length, option_map};
ghost use Rattle.std.specs.Map.{values_of};
ghost use Rattle.ordered_keys.specs.Orders.{lent_entry, next_entry};
ghost use Rattle.tagged_model.specs.Table.{found, with_key, without, key_after};
ghost use Rattle.bpf_maps.specs.KeyTable.{occurrences};
ghost use Rattle.bpf_maps.specs.inside.Keys.{lent_key};

use crate::inline_key::{InlineKey, KeyBytes};
use ordered_keys::OrderedMap;
use seeded_hash::HashSeed;
use std::alloc::{AllocError, Global};
use std::marker::Model;

/// The length of the longest key of a `MiddleIndex`, in bytes. In a `LongIndex`, keys of 9 to 64 bytes would take eight times the memory.
pub(crate) const LONGEST_MIDDLE: usize = 64;

/// Keys of at most 64 bytes, each with its element, in the order in which they were added. Each is kept in an array of 64 bytes. Contracts
/// see the keys' bytes with their elements.
#[derive(Drop)]
pub struct MiddleIndex {
    map: OrderedMap<InlineKey<LONGEST_MIDDLE>, HashSeed>,
}

impl Model for MiddleIndex {
    ghost use Rattle.std.specs.Prelude.{ℕ, List};
    ghost use Rattle.std.specs.Coded.{coded_list, coded_ℕ};
    ghost use Rattle.ordered_keys.specs.Orders.{BoundedKeys, bounded_keys_code};

    ghost Value = { BoundedKeys (List ℕ) };

    ghost coded = { bounded_keys_code (coded_list coded_ℕ) };

    ghost view = { λ b. b.map };
}

impl MiddleIndex {
    /// Makes an index without keys, for elements less than `bound`. Allocates memory for `bound` keys, one for each element, so that
    /// `insert` needs none. The keys are hashed with `seed`. `AllocError`: out of memory.
    pub(crate) fn new(alloc: Global, bound: u32, seed: HashSeed) -> Result<MiddleIndex, AllocError>
        ensures bound { IfOk result (λ index. index.bound ≡ bound) }
        ensures entries { IfOk result (λ index. index.entries ≡ []) }
    {
        let map = OrderedMap::new(alloc, bound, seed)?;
        Ok(MiddleIndex { map })
    }

    /// Returns the element of the key that has these bytes (`found`); `None` if the key is absent. A key of more than `LONGEST_MIDDLE`
    /// bytes is always absent, as the index can't have one. The function is not inlined. Else the look-up of a key of any size
    /// (`KeyIndex::get`), which calls it, would save machine registers on the machine's stack, and a key of at most `LONGEST_WORD` bytes
    /// (`WordIndex`) does not need that.
    #[inline(never)]
    pub(crate) fn get(&self, key: &[u8]) -> Option<u32>
        ensures { result ≡ found key.now self.now.entries }
    {
        self.map.get(KeyBytes { bytes: key })
    }

    /// Returns the key that follows `key` in the order in which the keys were added; `None` if `key` is the last, or `self` has no keys.
    /// After an absent key, also one of another size, the result is the first key. The result is borrowed from `self`: `lent_key` is its
    /// bytes. MAP_GET_NEXT_KEY replies with it.
    pub(crate) fn key_after(&self, key: &[u8]) -> Option<&[u8]>
        ensures { option_map lent_key result ≡ key_after key.now self.now.entries }
    {
        let following = self.map.key_after(KeyBytes { bytes: key })?;
        Some(following.bytes())
    }

    /// Returns the key that follows the key of `element` in the order of insertion, or the first key if `element` is `None`, with the
    /// element of the returned key. So a save lists all keys, by one call for each. `None` if no key follows, if no key has `element`, or
    /// if the index has no keys. In the contract, `lent_entry` takes the borrowed key as its bytes.
    pub(crate) fn entry_after(&self, element: Option<u32>) -> Option<(&[u8], u32)>
        ensures { option_map lent_entry result ≡ next_entry element self.now.entries }
    {
        let (key, element) = self.map.entry_after(element)?;
        Some((key.bytes(), element))
    }

    /// Adds a key of at most `LONGEST_MIDDLE` bytes, with its element, after all other keys. The key is absent (`absent`), the element is
    /// less than the index's bound (`within`), no key has this element (`free`), and the index has fewer keys than its bound (`few`):
    /// `HashMap::add` provides that. No memory is allocated: `new` made room for `bound` keys.
    pub(crate) fn insert(&mut self, key: &[u8], element: u32)
        requires short { length key.now ≤ LONGEST_MIDDLE }
        requires absent { found key.now self.old.entries ≡ None }
        requires within { element < self.old.bound }
        requires free { occurrences element (values_of self.old.entries) ≡ 0 }
        requires few { length self.old.entries < self.old.bound }
        ensures added { self.new.entries ≡ with_key key.now element self.old.entries }
        ensures bound { self.new.bound ≡ self.old.bound }
    {
        self.map.insert(InlineKey::copy_of(key), element);
    }

    /// Removes all keys. The memory that `new` allocated is kept, since a new map takes it over (`HashMap::renew`): as before the call, the
    /// index has room for `bound` keys, each with an element less than `bound`.
    pub(crate) fn clear(&mut self)
        ensures entries { self.new.entries ≡ [] }
        ensures bound { self.new.bound ≡ self.old.bound }
    {
        self.map.clear();
    }

    /// Removes a key and returns its element; `None`, and nothing changes, if the key is absent. The other keys keep their order. The
    /// number that was given to `new` (`bound`), which is greater than each element, is unchanged.
    pub(crate) fn remove(&mut self, key: &[u8]) -> Option<u32>
        ensures element { result ≡ found key.now self.old.entries }
        ensures left { self.new.entries ≡ without key.now self.old.entries }
        ensures bound { self.new.bound ≡ self.old.bound }
    {
        self.map.remove(KeyBytes { bytes: key })
    }
}

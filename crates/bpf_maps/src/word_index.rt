//! The elements of keys of at most eight bytes.

ghost use Rattle.std.specs.Prelude.{◌≡◌, ◌<◌, ◌≤◌, None, IfOk, [], length};
ghost use Rattle.std.specs.Map.{values_of};
ghost use Rattle.words.specs.Bytes.{number_of};
ghost use Rattle.ordered_keys.specs.Orders.{next_entry};
ghost use Rattle.tagged_model.specs.Table.{found, with_key, without, key_after};
ghost use Rattle.bpf_maps.specs.KeyTable.{occurrences};

use crate::key_ref::ShortKey;
use ordered_keys::OrderedMap;
use seeded_hash::HashSeed;
use std::alloc::{AllocError, Global};
use std::marker::Model;

/// The length of the longest key that is kept as a number, in bytes.
pub(crate) const LONGEST_WORD: usize = 8;

/// Keys of one size, at most eight bytes, each with its element, in the order in which they were added. A key is kept as the number
/// that its bytes make, little-endian. Contracts see the size and the keys' bytes with their elements.
#[derive(Drop)]
pub struct WordIndex {
    // The size of each key, in bytes.
    size: usize,
    map: OrderedMap<u64, HashSeed>,
}

impl Model for WordIndex {
    ghost use Rattle.bpf_maps.specs.KeyLists.{SizedKeys};

    ghost Value = { SizedKeys };

    ghost use Rattle.bpf_maps.specs.Words.{words_shown, IsWellFormedWords};

    ghost view = { words_shown };

    ghost invariant = { IsWellFormedWords };
}

impl WordIndex {
    /// Makes an index without keys, for keys of `size` bytes, at most eight, and elements less than `bound`. Allocates memory for `bound`
    /// keys, which are hashed with the seed. `AllocError`: out of memory.
    pub(crate) fn new(
        alloc: Global,
        size: usize,
        bound: u32,
        seed: HashSeed,
    ) -> Result<WordIndex, AllocError>
        requires { size ≤ LONGEST_WORD }
        ensures size { IfOk result (λ index. index.size ≡ size) }
        ensures bound { IfOk result (λ index. index.bound ≡ bound) }
        ensures entries { IfOk result (λ index. index.entries ≡ []) }
    {
        let map = OrderedMap::new(alloc, bound, seed)?;
        Ok(WordIndex { size, map })
    }

    /// Returns the element of a key, which is as long as the keys of this index; `None` if the key is absent. The function is not inlined:
    /// if the look-ups of short and of longer keys (`MiddleIndex`, `LongIndex`) were in one function, a look-up of a short key would also
    /// save the machine registers that only a longer key needs.
    #[inline(never)]
    pub(crate) fn get(&self, key: &[u8]) -> Option<u32>
        requires { length key.now ≡ self.now.size }
        ensures { result ≡ found key.now self.now.entries }
    {
        self.map.get(&word_of(key))
    }

    /// Returns the key that follows `key` in the order in which the keys were added; `None` if `key` is the last one, or the index has no
    /// keys. If `key` is absent, the result is the first key, with which a walk over all keys begins. A key of another size is absent. It
    /// is not looked up by its number (`word_of`), which a key of this index may have too, as 5 is the number of both [5] and [5, 0].
    pub(crate) fn key_after(&self, key: &[u8]) -> Option<ShortKey>
        ensures { result ≡ key_after key.now self.now.entries }
    {
        if key.len() != self.size {
            let word = self.map.first()?;
            return Some(ShortKey::of_word(*word, self.size));
        }
        let word = self.map.key_after(&word_of(key))?;
        Some(ShortKey::of_word(*word, self.size))
    }

    /// Returns the key that follows the key of `element` in the order of insertion, or the first key if `element` is `None`; and the
    /// element of the returned key. `None` if no key follows, if no key has `element`, or if the index has no keys. A save reads a map's
    /// keys in turn by this function: it passes the element of each result to the next call. Unlike `key_after`, this hashes no key.
    pub(crate) fn entry_after(&self, element: Option<u32>) -> Option<(ShortKey, u32)>
        ensures { result ≡ next_entry element self.now.entries }
    {
        let (word, element) = self.map.entry_after(element)?;
        Some((ShortKey::of_word(*word, self.size), element))
    }

    /// Adds a key, which has the size of this index's keys, after all its other keys (`added`). The key is absent: `HashMap::add`, which
    /// calls this function through `KeyIndex`, requires that. The element of the key is one that no key has (`free`). It is less than the
    /// index's bound (`within`), and so is the number of keys (`few`), so there is room: `new` allocated memory for `bound` keys, and
    /// nothing is allocated here.
    pub(crate) fn insert(&mut self, key: &[u8], element: u32)
        requires size { length key.now ≡ self.old.size }
        requires absent { found key.now self.old.entries ≡ None }
        requires within { element < self.old.bound }
        requires free { occurrences element (values_of self.old.entries) ≡ 0 }
        requires few { length self.old.entries < self.old.bound }
        ensures added { self.new.entries ≡ with_key key.now element self.old.entries }
        ensures size { self.new.size ≡ self.old.size }
        ensures bound { self.new.bound ≡ self.old.bound }
    {
        self.map.insert(word_of(key), element);
    }

    /// Removes all keys, and keeps the memory, so that a new hash map can use it (`HashMap::renew`). The index is as after `new`: for keys
    /// of `size` bytes, with room for `bound` keys, whose elements are less than `bound`.
    pub(crate) fn clear(&mut self)
        ensures entries { self.new.entries ≡ [] }
        ensures size { self.new.size ≡ self.old.size }
        ensures bound { self.new.bound ≡ self.old.bound }
    {
        self.map.clear();
    }

    /// Removes a key, which has the size of this index's keys, and returns its element (`element`); `None`, and nothing changes, if the key
    /// is absent. The other keys keep their elements and their order (`left`). The size of the index's keys (`size`), and the bound below
    /// which their elements are (`bound`), do not change.
    pub(crate) fn remove(&mut self, key: &[u8]) -> Option<u32>
        requires { length key.now ≡ self.old.size }
        ensures element { result ≡ found key.now self.old.entries }
        ensures left { self.new.entries ≡ without key.now self.old.entries }
        ensures size { self.new.size ≡ self.old.size }
        ensures bound { self.new.bound ≡ self.old.bound }
    {
        self.map.remove(&word_of(key))
    }
}

/// The number that the bytes of a key make, little-endian: `WordIndex` stores the key as this number. The key has at most `LONGEST_WORD`
/// bytes, so the number fits into 64 bits. A key of four or eight bytes is read by one load; the bytes of any other are first filled up
/// with zeros.
#[inline(always)]
fn word_of(key: &[u8]) -> u64
    requires { length key.now ≤ LONGEST_WORD }
    ensures { result ≡ number_of key.now }
{
    match key.len() {
        4 => u64::from(four_bytes(key)),
        8 => eight_bytes(key),
        _ => filled_word(key),
    }
}

/// The number that the four bytes of a key make, little-endian, by one load.
#[inline(always)]
fn four_bytes(key: &[u8]) -> u32
    requires { length key.now ≡ 4 }
    ensures { result ≡ number_of key.now }
{
    u32::from_le_bytes([key[0], key[1], key[2], key[3]])
}

/// The number that eight bytes make, little-endian (`number_of`), by one load of the machine. `word_of` passes the bytes of a key, and
/// `filled_word` those of a shorter key, filled up with zeros.
#[inline(always)]
fn eight_bytes(key: &[u8]) -> u64
    requires { length key.now ≡ 8 }
    ensures { result ≡ number_of key.now }
{
    u64::from_le_bytes([
        key[0], key[1], key[2], key[3], key[4], key[5], key[6], key[7],
    ])
}

/// The number that the bytes of a key make, little-endian: zeros fill them up to eight. `word_of` calls it for a key of neither four nor
/// eight bytes. It is out of line, so that `word_of`, which is inlined, has one load for a key of four or eight bytes.
#[cold]
#[inline(never)]
fn filled_word(key: &[u8]) -> u64
    requires { length key.now ≤ LONGEST_WORD }
    ensures { result ≡ number_of key.now }
{
    let mut bytes = [0; LONGEST_WORD];
    bytes[..key.len()].copy_from_slice(key);
    eight_bytes(&bytes)
}

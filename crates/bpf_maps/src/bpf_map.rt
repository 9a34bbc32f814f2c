//! The two kinds of map as one type.

ghost use Rattle.std.specs.Prelude.{◌≡◌, ◌<◌, ◌⊎◌, length, [], option_map, IfOk, IfSome};
ghost use Rattle.ordered_keys.specs.Orders.{next_entry};
ghost use Rattle.tagged_model.specs.Table.{look_up, verdict, removal, next_of};
ghost use Rattle.bpf_maps.specs.KeyTable.{KeyTable, table_of, IsSound, Claims, Removes, new_keys, after_run};
ghost use Rattle.bpf_maps.specs.KeyRef.{key_bytes, shown_entry};
ghost use Rattle.bpf_maps.specs.BpfMap.{keys_in};

use crate::array_map::ArrayMap;
use crate::hash_map::HashMap;
use crate::key_ref::KeyRef;
use crate::spare_maps::{HashMapTotals, SpareMaps};
use crate::value_map::ValueMap;
use seeded_hash::HashSeed;
use std::alloc::{AllocError, Global};
use tagged_model::{MapFault, MapKind, MapShape};

/// A map of either kind.
#[derive(Drop)]
pub enum BpfMap {
    Array(ArrayMap),
    Hash(HashMap),
}

impl BpfMap {
    /// Makes a map of this shape: an array has all its indices as keys, a hash map has no keys (`new_keys`). A hash map takes new memory,
    /// and the seed to hash its keys; an array takes neither. The map belongs to no tenant, so that worked cases can test a single map
    /// (`cases_maps`). `Maps`, a tenant's live maps, calls `with_spares` instead, which may reuse the memory of a hash map that is no
    /// longer live. `AllocError`: out of memory for a hash map.
    pub fn new(alloc: Global, shape: MapShape, seed: HashSeed) -> Result<BpfMap, AllocError>
        ensures { IfOk result (λ map. keys_in map ≡ new_keys shape) }
    {
        match shape.kind {
            MapKind::Array => Ok(BpfMap::Array(ArrayMap::new(shape))),
            MapKind::Hash => Ok(BpfMap::Hash(HashMap::new(alloc, shape, seed)?)),
        }
    }

    /// Makes a map of this shape: an array with all its indices, or a hash map without keys (`new_keys`). A hash map takes the memory of
    /// one of `spares`, the tenant's hash maps that are no longer live, if one has its key size and `max_entries`. The new map then has the
    /// spare map's seed, which equals `seed`, since `Maps` has one seed for all. Otherwise the new map takes new memory, and `seed`. Before
    /// that, spare maps are freed until those left, the live hash maps and the new one are at most `MAPS`, and the sum of their
    /// `max_entries` is at most `MOST_ENTRIES_TOGETHER`, or none is left. Live hash maps can't exceed these bounds, so a tenant takes no
    /// more memory than one whose hash maps are all live. If the new map is a hash map, `live` is the number of the live hash maps, and the
    /// sum of their `max_entries`; it is read only for these bounds. An array takes neither memory nor seed. `AllocError`: out of memory
    /// for a hash map.
    pub(crate) fn with_spares(
        alloc: Global,
        shape: MapShape,
        seed: HashSeed,
        spares: &mut SpareMaps,
        live: HashMapTotals,
    ) -> Result<BpfMap, AllocError>
        ensures { IfOk result (λ map. keys_in map ≡ new_keys shape) }
    {
        match shape.kind {
            MapKind::Array => Ok(BpfMap::Array(ArrayMap::new(shape))),
            MapKind::Hash => Ok(BpfMap::Hash(spares.hash_map(alloc, shape, seed, live)?)),
        }
    }

    /// The map's shape: its kind, the sizes in bytes of a key and of a value, and `max_entries`. In the contract it is the shape of the
    /// map's table of keys (`keys_in`).
    pub fn shape(&self) -> MapShape
        ensures { result ≡ (keys_in self.now).shape }
    {
        match self {
            BpfMap::Array(map) => map.shape(),
            BpfMap::Hash(map) => map.shape(),
        }
    }

    /// How many keys the map has; an array always has `max_entries`.
    pub(crate) fn key_count(&self) -> u32
        ensures { result ≡ length (keys_in self.now).entries }
    {
        match self {
            BpfMap::Array(map) => map.key_count(),
            BpfMap::Hash(map) => map.key_count(),
        }
    }

    /// The key after that of `element`, or the first key if `element` is `None`, with the element of the returned key; so a save reads all
    /// entries. The order is that of the indices in an array, and that of insertion in a hash map. `None` if no key follows, or if no key
    /// has `element`. The contract sees the key as its bytes (`shown_entry`).
    pub(crate) fn entry_after(&self, element: Option<u32>) -> Option<(KeyRef<'_>, u32)>
        ensures { option_map shown_entry result ≡ next_entry element (keys_in self.now).entries }
    {
        match self {
            BpfMap::Array(map) => map.entry_after(element),
            BpfMap::Hash(map) => map.entry_after(element),
        }
    }
}

// `ValueMap` says what each function does. Here it calls the function of this name of the map's kind, array or hash.
impl ValueMap for BpfMap {
    ghost keys = { keys_in };

    // The element of a key, which has the size of the map's keys; `None` if the key is absent. Calls `find` of the array or the hash map.
    #[inline(always)]
    fn find(&self, key: &[u8]) -> Option<u32> {
        match self {
            BpfMap::Array(map) => map.find(key),
            BpfMap::Hash(map) => map.find(key),
        }
    }

    // Claims an element for a key of the size of the map's keys, and returns it; the caller then writes the value there. A present key
    // keeps its element; an absent key of a hash map gets a free one, and becomes the last. The error, with which nothing changes, is
    // `Invalid` for unknown flags, `Exists` for a present key with `NOEXIST`, `NoEntry` for an absent key of a hash map with `EXIST`, and
    // `TooBig` for an index out of range, or if no element is free for an absent key.
    #[inline(always)]
    fn claim(&mut self, key: &[u8], flags: u64) -> Result<u32, MapFault> {
        match self {
            BpfMap::Array(map) => map.claim(key, flags),
            BpfMap::Hash(map) => map.claim(key, flags),
        }
    }

    // Removes a key of the size of the map's keys, and keeps its element apart until `end_run`. The error, with which nothing changes, is
    // `Invalid` for an array, which has all its keys at any time, and `NoEntry` for a hash map without the key.
    fn remove(&mut self, key: &[u8]) -> Result<(), MapFault> {
        match self {
            BpfMap::Array(map) => map.remove(key),
            BpfMap::Hash(map) => map.remove(key),
        }
    }

    // The key that follows `key`: of an array the next index, in four bytes, and of a hash map the key that was added next after `key`. The
    // first key if `key` is absent or has another size, so that a caller can go through all keys. `None` after the last key, and in a map
    // without keys. A key of at most eight bytes is returned by value, a longer one is borrowed from the map (`KeyRef`). The contract is
    // that of this function in the trait `ValueMap`.
    fn key_after(&self, key: &[u8]) -> Option<KeyRef<'_>> {
        match self {
            BpfMap::Array(map) => map.key_after(key),
            BpfMap::Hash(map) => map.key_after(key),
        }
    }

    // Ends a run on the map: the elements of deleted keys, which were kept apart, become free. No key of an array can be deleted, so an
    // array is unchanged.
    fn end_run(&mut self) {
        match self {
            BpfMap::Array(map) => map.end_run(),
            BpfMap::Hash(map) => map.end_run(),
        }
    }
}

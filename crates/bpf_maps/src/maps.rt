//! A tenant's live maps, each with a handle.

ghost use Rattle.std.specs.Prelude.{◌≡◌, ◌≢◌, ℕ, ◌+◌, ◌-◌, ◌<◌, ◌≤◌, ◌^◌, ◌⊎◌, true, false, [], length, take};
ghost use Rattle.std.specs.Prelude.{replicate, option_map, Some, None, is_some, IfSome, IfOk, OnErr, IsSome};
ghost use Rattle.ordered_keys.specs.Orders.{next_entry};
ghost use Rattle.tagged_model.specs.declared.shape.MapKind.TheVariants.{Array};
ghost use Rattle.tagged_model.specs.Table.{look_up, verdict, removal, next_of, new_table, shape_area};
ghost use Rattle.bpf_maps.specs.declared.part.TheConstants.{PART, STACK_AND_CONTEXT};
ghost use Rattle.bpf_maps.specs.Limits.{most_maps, most_bytes};
ghost use Rattle.bpf_maps.specs.KeyTable.{table_of, IsSound, Claims, Removes, GivesKey, after_run};
ghost use Rattle.bpf_maps.specs.Elements.{elements_at, word_of};
ghost use Rattle.bpf_maps.specs.KeyRef.{key_bytes, shown_entry};
ghost use Rattle.bpf_maps.specs.Live.{live_at, keys_at, shape_at, references_at, without_area_at, offset_at, value_in, map_in, value_address};
ghost use Rattle.bpf_maps.specs.Live.{LiesInPart, IsLaid, IsPacked, ClosesUp, start_at, AreSound, SameAreas, SameValues, KeepsMap};
ghost use Rattle.bpf_maps.specs.Live.{KeepsMaps, KeepsOthers, areas, OnlyKeysChange, create_fault, Creates, one_more, one_less};
ghost use Rattle.bpf_maps.specs.InMaps.{live_of};

use crate::bpf_map::BpfMap;
use crate::elements::Elements;
use crate::key_ref::KeyRef;
use crate::part::{KEY_ROOM, LARGEST_SUM, MAPS, PART, STACK_AND_CONTEXT, clear};
use crate::slab_keys::SlabKeys;
use crate::spare_maps::SpareMaps;
use crate::stored_map::{StoredMap, close_gap};
use crate::value_map::ValueMap;
use seeded_hash::HashSeed;
use slab::Slab;
use std::alloc::{AllocError, Global};
use std::marker::Model;
use tagged_model::{MapFault, MapShape};

// A map with this number of references is freed when one of them is dropped.
const LAST: u32 = 1;

/// A handle, the number of one of a tenant's live maps, 0 to 15. Once the map is freed, the handle has no map until a new one gets it.
/// Contracts see the number.
#[derive(Clone, Copy, Debug, PartialEq, Eq)]
pub struct MapKey {
    pub(crate) handle: usize,
}

impl Model for MapKey {
    ghost Value = { ℕ };

    ghost view = { λ k. k.handle };

    ghost inverse = { λ n. record { handle = n } };
}

/// A tenant's live maps. Contracts see the map of each of `MAPS` handles, and the offsets of its values in the tenant's part.
#[derive(Drop)]
pub struct Maps {
    // With these, new maps are allocated and the keys of hash maps are hashed.
    alloc: Global,
    seed: HashSeed,
    // The live maps, by keys that the slab chooses.
    maps: Slab<StoredMap>,
    // The slab's key of the map of each handle.
    keys: SlabKeys,
    // Hash maps that are no longer live: their memory is for new ones.
    spares: SpareMaps,
    // The number of bytes that the areas of all maps take. The areas lie one after another, in order of creation, after the stack
    // and the context.
    pub(crate) bytes: usize,
    // Whether memory was ever refused to a new map.
    refused: bool,
}

impl Model for Maps {
    ghost use Rattle.bpf_maps.specs.Live.{LiveMaps};

    ghost Value = { LiveMaps };

    ghost use Rattle.bpf_maps.specs.InMaps.{as_live_maps, IsWellFormedMaps};

    ghost view = { as_live_maps };

    ghost invariant = { IsWellFormedMaps };
}

impl Maps {
    /// Makes `Maps` without a live map: none of the `MAPS` handles has a map (`maps`, `none`), the areas take 0 bytes (`bytes`), and no new
    /// map was ever refused memory (`refused`). The keys of its hash maps will be hashed with `seed`. Allocates room for `MAPS` live maps
    /// and for `MAPS` spare ones (`spares`), hash maps that are no longer live, whose memory new ones reuse, but not for their keys. Later,
    /// only `create` allocates memory, for a hash map. `AllocError`: out of memory.
    pub fn new(alloc: Global, seed: HashSeed) -> Result<Maps, AllocError>
        ensures maps { IfOk result (λ new. new.maps ≡ replicate most_maps None) }
        ensures none { IfOk result (λ maps. (k : ℕ) → live_at maps k ≡ None) }
        ensures bytes { IfOk result (λ maps. areas maps ≡ 0) }
        ensures refused { IfOk result (λ maps. maps.refused ≡ false) }
    {
        let maps = Slab::with_capacity(alloc, MAPS)?;
        let spares = SpareMaps::with_room(alloc)?;
        Ok(Maps {
            alloc,
            seed,
            maps,
            keys: SlabKeys::new(),
            spares,
            bytes: 0,
            refused: false,
        })
    }

    /// A law of what holds of the live maps at any time. The values of all of them lie in the part and don't overlap (`laid`). Their areas
    /// lie without gaps after the stack and the context (`packed`), and take at most `LARGEST_SUM` bytes together, the number `most_bytes`
    /// of the contract (`bytes`). The table of keys of each is sound (`sound`): its elements are less than `max_entries`, each belongs to
    /// one key or is kept apart, its keys have the map's key size, and in an array each index is its own element. There are `MAPS` handles,
    /// `most_maps` in the contract (`maps`). It does nothing when it runs: only the proofs of its callers use it.
    #[inline(always)]
    pub fn maps_are_laid(&self)
        ensures laid { IsLaid self.now }
        ensures packed { IsPacked self.now }
        ensures sound { AreSound self.now }
        ensures maps { length self.now.maps ≡ most_maps }
        ensures bytes { areas self.now ≤ most_bytes }
    {
        let _ = &self.maps;
    }

    /// The live map of a handle, as the slab `maps` stores it. The contract requires that the handle has a live map; `live_of` is what
    /// contracts see of a stored map. The slab finds the map not by the handle, but by a key that the slab chose for it (`SlabKeys`). Such
    /// a key has nothing to do with the keys by which programs find values.
    #[inline(always)]
    pub(crate) fn stored(&self, map: MapKey) -> &StoredMap
        requires { IsSome (live_at self.now map) }
        ensures { live_at self.now map ≡ Some (live_of result.now) }
    {
        let key = self.keys.key(map.handle);
        &self.maps[key]
    }

    /// The offset in bytes of an element's value in the tenant's part. `element` is less than `max_entries` of its map, which is live.
    /// `stored` is this map, with the start of its area and the distance from one value to the next (`stride`). The callers have found it
    /// by its handle, `map`, which is here only for the contract, so a map is not looked up twice. The value lies in the part after the
    /// stack and the context, and the offset is a multiple of eight (`inside`). By `laid` the values of all live maps lie in the part and
    /// do not overlap.
    #[inline(always)]
    fn offset_in(&self, map: MapKey, stored: &StoredMap, element: u32) -> usize
        requires stored { live_at self.now map ≡ Some (live_of stored.now) }
        requires element { element < (shape_at self.now map).max_entries }
        ensures offset { result ≡ offset_at self.now map element }
        ensures inside { LiesInPart result (shape_at self.now map).value_size }
        ensures laid { IsLaid self.now }
    {
        self.maps_are_laid();
        stored.start + element as usize * stored.stride
    }

    /// Creates a map with one reference and the lowest free handle, which is returned (`created`). In `part`, the tenant's part of `PART`
    /// bytes, the map gets its own area after the areas of the live maps (`last`); the number of bytes of all areas (`areas`) grows by that
    /// of the new one (`more`). The new map is `new_table` (`fresh`): a hash map has no keys, and an array has a value of zero bytes for
    /// each index (for its elements, `cleared`). The maps that were live are unchanged (`older`), and so are the values of all their
    /// elements (`values`) and of all their keys (`maps`), and the stack and the context before the areas (`front`). The values of all live
    /// maps do not overlap (`laid`).
    ///
    /// # Errors
    ///
    /// `NoSpace` if no handle is free, or if the areas of all live maps and the new one would take more than `LARGEST_SUM` bytes together
    /// (`create_fault`); else `Memory` if out of memory for a hash map: then the flag `refused` is set. On an error no map and no byte of
    /// `part` has changed (`unchanged`).
    pub fn create(&mut self, shape: MapShape, part: &mut [u8]) -> Result<MapKey, MapFault>
        requires { length part.old ≡ PART }
        ensures created { Creates (create_fault self.old shape) self.old shape result self.new }
        ensures older { (map : ℕ) → IsSome (live_at self.old map) → live_at self.new map
            ≡ live_at self.old map }
        ensures last { IfOk result (λ k. start_at self.new k ≡ STACK_AND_CONTEXT + areas self.old) }
        ensures laid { IsLaid self.new }
        ensures cleared { IfOk result (λ k. shape.kind ≡ Array → (p : ℕ) → p < shape.max_entries
            → value_in part.new self.new k p ≡ replicate shape.value_size 0) }
        ensures fresh { IfOk result (λ k. map_in part.new self.new k ≡ new_table
            (λ i. replicate shape.value_size 0) shape) }
        ensures values { SameValues self.old part.old self.new part.new }
        ensures maps { KeepsMaps self.old part.old self.new part.new }
        ensures more { IfOk result (λ k. areas self.new ≡ areas self.old + shape_area shape) }
        ensures front { take STACK_AND_CONTEXT part.new ≡ take STACK_AND_CONTEXT part.old }
        ensures length { length part.new ≡ PART }
        ensures unchanged { OnErr result (part.new ≡ part.old) }
    {
        let size = shape.area() as usize;
        let Some(handle) = self.keys.free_handle() else {
            return Err(MapFault::NoSpace);
        };
        if self.bytes + size > LARGEST_SUM {
            return Err(MapFault::NoSpace);
        }
        // A hash map gets the memory of a spare map, one that is no longer live, if one fits. Else it takes new memory, and spare maps are
        // freed first while they, the new map and the live hash maps are too many, or the sum of their `max_entries` is too large. `live`
        // has the number of the live hash maps and the sum of their `max_entries`; for a new array, which takes no memory, both are 0.
        let live = self.live_hash_maps_for(shape.kind);
        let spares = &mut self.spares;
        let Ok(map) = BpfMap::with_spares(self.alloc, shape, self.seed, spares, live) else {
            self.refused = true;
            return Err(MapFault::Memory);
        };
        let start = STACK_AND_CONTEXT + self.bytes;
        clear(part, start, size);
        let stored = StoredMap {
            map,
            start,
            stride: shape.value_size.next_multiple_of(8) as usize,
            elements: Elements::of(shape).word(),
            holds: 1,
        };
        // For the proof: by the contract of `capacity` the slab's key is less than it, and so is not `NO_KEY`.
        let _capacity = self.maps.capacity();
        // The slab has had room for a map of each handle from its beginning, so the insertion takes no memory.
        let key = self.maps.insert_reserved(stored);
        self.keys.put(handle, key);
        self.bytes += size;
        Ok(MapKey { handle })
    }

    /// Adds one reference to a live map, for a program that is opened and names the map. Only the number of references to this map changes
    /// (`more`, `holds`): the other maps (`others`), all areas (`areas`, `room`) and the flag `refused` do not, and the values of all live
    /// maps still lie in the part and don't overlap (`laid`). By `few` the map has fewer than 2^32 - 1 references, so the sum fits in 32
    /// bits; callers know this, since each open object of a tenant refers to a map at most once.
    pub fn hold(&mut self, map: MapKey)
        requires live { IsSome (live_at self.old map) }
        requires few { references_at self.old map < 2 ^ 32 - 1 }
        ensures more { live_at self.new map ≡ option_map one_more (live_at self.old map) }
        ensures live { IsSome (live_at self.new map) }
        ensures holds { references_at self.new map ≡ references_at self.old map + 1 }
        ensures keys { keys_at self.new map ≡ keys_at self.old map }
        ensures shape { shape_at self.new map ≡ shape_at self.old map }
        ensures others { (other : ℕ) → other ≢ map → live_at self.new other
            ≡ live_at self.old other }
        ensures areas { SameAreas self.old self.new }
        ensures room { areas self.new ≡ areas self.old }
        ensures refused { self.new.refused ≡ self.old.refused }
        ensures laid { IsLaid self.new }
    {
        let key = self.keys.key(map.handle);
        let stored = &mut self.maps[key];
        stored.holds += 1;
    }

    /// Drops one reference to a live map (`less`). If that was the last, the map, its handle and its area are freed (`gone`): a live map
    /// has at least one reference, so the clauses ask whether their number (`references_at`) was at most 1. The memory of a freed hash map
    /// is kept for new ones (`spares`). In `part`, the tenant's part of `PART` bytes, the areas after the freed one move down by its size
    /// (`moved`), and all areas together (`areas`) have so many bytes less (`freed`). If the map has more references, it stays live
    /// (`stays`) and keeps its shape (`shape`), elements, keys and values (`less`, `kept`), and no area changes (clause `areas`, `room`).
    /// In both cases the other maps keep their elements, keys and values (`others`, `values`, `maps`), and the values of all live maps
    /// still lie in the part and do not overlap (`laid`). The stack, the context (`front`) and the flag of refused memory (`refused`) do
    /// not change. `without_area_at` is what a live map has besides its area: its table of keys, and its number of references; `None` if
    /// the handle has no map.
    pub fn release(&mut self, map: MapKey, part: &mut [u8])
        requires live { IsSome (live_at self.old map) }
        requires length { length part.old ≡ PART }
        ensures less { without_area_at self.new map ≡ one_less (without_area_at self.old map) }
        ensures stays { 1 < references_at self.old map → IsSome (live_at self.new map) }
        ensures shape { 1 < references_at self.old map
            → shape_at self.new map ≡ shape_at self.old map }
        ensures gone { references_at self.old map ≤ 1 → live_at self.new map ≡ None }
        ensures others { (other : ℕ) → other ≢ map → without_area_at self.new other
            ≡ without_area_at self.old other }
        ensures refused { self.new.refused ≡ self.old.refused }
        ensures moved { references_at self.old map ≤ 1 → ClosesUp map self.old self.new }
        ensures areas { 1 < references_at self.old map → SameAreas self.old self.new }
        ensures laid { IsLaid self.new }
        ensures values { SameValues self.old part.old self.new part.new }
        ensures maps { KeepsOthers map self.old part.old self.new part.new }
        ensures kept { 1 < references_at self.old map
            → KeepsMap map self.old part.old self.new part.new }
        ensures room { 1 < references_at self.old map → areas self.new ≡ areas self.old }
        ensures freed { references_at self.old map ≤ 1
            → areas self.old ≡ areas self.new + shape_area (shape_at self.old map) }
        ensures front { take STACK_AND_CONTEXT part.new ≡ take STACK_AND_CONTEXT part.old }
        ensures length { length part.new ≡ PART }
    {
        let key = self.keys.key(map.handle);
        let stored = &mut self.maps[key];
        if stored.holds > LAST {
            stored.holds -= 1;
            return;
        }
        let gone = self.maps.remove(key);
        self.keys.clear(map.handle);
        let size = gone.map.shape().area() as usize;
        let end = gone.start + size;
        part.copy_within(end..STACK_AND_CONTEXT + self.bytes, gone.start);
        close_gap(&self.keys, &mut self.maps, end, size);
        self.bytes -= size;
        self.spares.keep(gone.map);
    }

    /// Whether memory was ever refused to a new map: `create` returned `Memory` for a hash map. Once true, this is never false again. The
    /// tenant's replies may then differ from those of its machine without refusals, so the crate `tenant` reads this
    /// (`memory_was_refused`).
    pub fn refused(&self) -> bool
        ensures { result ≡ self.now.refused }
    {
        self.refused
    }

    /// Whether the handle has a live map. It has none before its first map is created, and from the release that frees its map until a new
    /// map gets the handle.
    #[inline(always)]
    pub fn is_live(&self, map: MapKey) -> bool
        ensures { result ≡ is_some (live_at self.now map) }
    {
        // `keys` has, for each handle with a map, a key: the number that the slab `maps` chose for the map, and by which it finds the map.
        // This read of `maps` does nothing when it runs. The proof gets from it what holds of each `Maps` (`IsWellFormedMaps`): the slab
        // has a map for each key.
        let _ = &self.maps;
        self.keys.get(map.handle).is_some()
    }

    /// The shape of a live map, by its handle: its kind, the sizes of its keys and of its values in bytes, and its maximum of entries.
    #[inline(always)]
    pub fn shape(&self, map: MapKey) -> MapShape
        requires { IsSome (live_at self.now map) }
        ensures { result ≡ shape_at self.now map }
    {
        self.stored(map).map.shape()
    }

    /// Returns what a run's table of maps has of a map: the offset of its first value in the tenant's part, in bytes and at most `PART`
    /// (`inside`), and its `Elements` as one number (`Elements::word`). The low 32 bits of the number are how many elements a run finds
    /// without reading the map: `max_entries` of an array, 0 of a hash map, as only that map itself finds the element of a key. The high 32
    /// bits are the distance in bytes from the start of one value to that of the next. `None` exactly if the map is not live (`live`,
    /// `none`).
    #[inline(always)]
    pub fn first_and_elements(&self, map: MapKey) -> Option<(usize, u64)>
        ensures live { IsSome (live_at self.now map)
            → result ≡ Some (offset_at self.now map 0, word_of (elements_at self.now map)) }
        ensures none { live_at self.now map ≡ None → result ≡ None }
        ensures inside { IfSome result (λ row. row.0 ≤ PART) }
    {
        if !self.is_live(map) {
            return None;
        }
        let key = self.keys.key(map.handle);
        let stored = &self.maps[key];
        Some((stored.start, stored.elements))
    }

    /// The offset of an element's value in the tenant's part, in bytes. The map is live, and `element` is below its `max_entries`, as are
    /// the elements that `find`, `claim` and `entry_after` return. The value lies in the part, after the stack and the context, at a
    /// multiple of eight (`inside`). So do the values of all live maps, and they don't overlap (`laid`).
    #[inline(always)]
    pub fn value_at(&self, map: MapKey, element: u32) -> usize
        requires live { IsSome (live_at self.now map) }
        requires element { element < (shape_at self.now map).max_entries }
        ensures offset { result ≡ offset_at self.now map element }
        ensures inside { LiesInPart result (shape_at self.now map).value_size }
        ensures laid { IsLaid self.now }
    {
        self.offset_in(map, self.stored(map), element)
    }

    /// The element of `key` in the live map of the handle `map`; `None` if the map doesn't have the key. The caller has checked that the
    /// key has the size of the map's keys (`size`). The element is less than `max_entries` (`within`), as `value_at` requires, and no two
    /// keys of the map have the same element (`sound`).
    #[inline(always)]
    pub fn find(&self, map: MapKey, key: &[u8]) -> Option<u32>
        requires live { IsSome (live_at self.now map) }
        requires size { length key.now ≡ (shape_at self.now map).key_size }
        ensures element { result ≡ look_up (table_of (keys_at self.now map)) key.now }
        ensures within { IfSome result (λ element. element < (shape_at self.now map).max_entries) }
        ensures sound { IsSound (keys_at self.now map) }
    {
        self.stored(map).map.find(key)
    }

    /// The address of a key's value in a live map, modulo 2^64, if the tenant's part begins at address `part`; 0 if the map doesn't have
    /// the key. A look-up by a run returns this word. The key has the size of the map's keys (`size`). By `inside` the value lies in the
    /// part, after the stack and the context, at a multiple of eight bytes.
    #[inline(always)]
    pub fn address_of(&self, map: MapKey, key: &[u8], part: u64) -> u64
        requires live { IsSome (live_at self.now map) }
        requires size { length key.now ≡ (shape_at self.now map).key_size }
        ensures address { result ≡ value_address part self.now map
            (look_up (table_of (keys_at self.now map)) key.now) }
        ensures inside { IfSome (look_up (table_of (keys_at self.now map)) key.now) (λ element.
            LiesInPart (offset_at self.now map element) (shape_at self.now map).value_size) }
    {
        let stored = self.stored(map);
        match stored.map.find(key) {
            Some(element) => part.wrapping_add(self.offset_in(map, stored, element) as u64),
            None => 0,
        }
    }

    /// Claims an element of a live map for a key, which has the size of the map's keys, and returns it, as the first step of an update: the
    /// caller then writes the value there. A present key keeps its element. A new key becomes the last of the map's entries, and gets any
    /// element that is not in use. The result and the new keys follow from the `verdict` on the update (`claimed`). The element is one of
    /// the map (`within`). Only this map's keys and their elements may change (`rest`), not the flag of refused memory (`refused`).
    ///
    /// # Errors
    ///
    /// Those of an update (bpf(2), BPF_MAP_UPDATE_ELEM): `Invalid` if `flags` is none of `ANY`, `NOEXIST` and `EXIST`, 0 to 2; for a
    /// present key, `Exists` if `flags` is `NOEXIST`; for an absent key of an array, an index that is too large, `TooBig`; for an absent
    /// key of a hash map, `NoEntry` if `flags` is `EXIST`, else `TooBig` if the map is full. An element that is kept apart counts as in
    /// use. On an error no map has changed. Takes no memory.
    #[inline(always)]
    pub fn claim(&mut self, map: MapKey, key: &[u8], flags: u64) -> Result<u32, MapFault>
        requires live { IsSome (live_at self.old map) }
        requires size { length key.now ≡ (shape_at self.old map).key_size }
        ensures claimed { Claims (verdict (table_of (keys_at self.old map)) key.now flags) key.now
            (keys_at self.old map) result (keys_at self.new map) }
        ensures within { IfOk result (λ element. element < (shape_at self.new map).max_entries) }
        ensures rest { OnlyKeysChange map self.old self.new }
        ensures refused { self.new.refused ≡ self.old.refused }
    {
        self.maps_are_laid();
        let at = self.keys.key(map.handle);
        let stored = &mut self.maps[at];
        stored.map.claim(key, flags)
    }

    /// Removes a key, which has the size of the map's keys, from the live map of the handle `map`. `removed`: `removal` is the element of
    /// the key in the table of keys before the call (`keys_at`), or the fault; from it follow the result and the table after the call. The
    /// element is kept apart: no key gets it until the caller calls `end_run`, at the end of the run, or at once if no run is in progress.
    /// `rest`: the other maps, and this map's area and references, are unchanged. The call takes no memory, so `refused`, the flag that
    /// memory was refused to a new map, is unchanged too.
    ///
    /// # Errors
    ///
    /// Those of a deletion (bpf(2), BPF_MAP_DELETE_ELEM): `Invalid` for an array, `NoEntry` if the key is absent. Then nothing has
    /// changed.
    pub fn remove(&mut self, map: MapKey, key: &[u8]) -> Result<(), MapFault>
        requires live { IsSome (live_at self.old map) }
        requires size { length key.now ≡ (shape_at self.old map).key_size }
        ensures removed { Removes (removal (table_of (keys_at self.old map)) key.now) key.now
            (keys_at self.old map) result (keys_at self.new map) }
        ensures rest { OnlyKeysChange map self.old self.new }
        ensures refused { self.new.refused ≡ self.old.refused }
    {
        let at = self.keys.key(map.handle);
        let stored = &mut self.maps[at];
        stored.map.remove(key)
    }

    /// Returns the key that comes after `key` in `map`, or the first key if `key` is absent or has another size. The order is that of the
    /// indices in an array, and that in which the keys were added in a hash map. `None` after the last key, in a map without keys, and if
    /// the map isn't live. `given`: the bytes of the result are those of the definition of MAP_GET_NEXT_KEY (`next_of`). `size`: a returned
    /// key has the size of the map's keys. The result may be borrowed from the map (`KeyRef`); `next_key` copies the key into a buffer.
    pub fn key_after(&self, map: MapKey, key: &[u8]) -> Option<KeyRef<'_>>
        ensures given { option_map key_bytes result
            ≡ next_of (table_of (keys_at self.now map)) key.now }
        ensures size { IfSome result (λ given.
            length (key_bytes given) ≡ (shape_at self.now map).key_size) }
    {
        if !self.is_live(map) {
            return None;
        }
        self.stored(map).map.key_after(key)
    }

    /// The key after that of `element`, or the first key if `element` is `None`; with the element of the returned key, which callers pass
    /// to get the key after it. The order is that of the indices in an array, and that in which the keys were added in a hash map. `None`
    /// if no key follows, if no key has `element`, or if the map isn't live. `entry` sees the returned key as its bytes (`shown_entry`). By
    /// `within` the returned element is below `max_entries`, so it has a value in the map's area.
    pub fn entry_after(&self, map: MapKey, element: Option<u32>) -> Option<(KeyRef<'_>, u32)>
        ensures entry { option_map shown_entry result
            ≡ next_entry element (keys_at self.now map).entries }
        ensures within { IfSome result (λ e. e.1 < (shape_at self.now map).max_entries) }
    {
        if !self.is_live(map) {
            return None;
        }
        self.maps_are_laid();
        self.stored(map).map.entry_after(element)
    }

    /// Writes the key that follows `key` in a live map to the start of `next`, which has room for the longest key; the bytes after it are
    /// unchanged. The order is that of the indices in an array, and that of insertion in a hash map. If `key` is empty, or the map does not
    /// have it, the first key is written. A `key` that is not empty has the size of the map's keys (`size`). By `given` the key is that of
    /// the definition of MAP_GET_NEXT_KEY (`next_of`) for the map's table of keys. `key_after` returns this key, maybe borrowed from the
    /// map; here it is copied.
    ///
    /// # Errors
    ///
    /// `NoEntry` if `key` is the last key, or the map has no keys. Then `next` is unchanged.
    pub fn next_key(
        &self,
        map: MapKey,
        key: &[u8],
        next: &mut [u8; KEY_ROOM],
    ) -> Result<(), MapFault>
        requires live { IsSome (live_at self.now map) }
        requires size { (key.now ≡ []) ⊎ (length key.now ≡ (shape_at self.now map).key_size) }
        ensures given { GivesKey (next_of (table_of (keys_at self.now map)) key.now) next.old
            result next.new }
    {
        self.stored(map).map.next_key(key, next)
    }

    /// Ends a run on a live map: the elements that were kept apart, those of keys that the run deleted, are free again (`ended`). The
    /// delete command, which is outside a run, calls this at once. Takes no memory, and leaves the flag of refused memory as it is
    /// (`refused`). `rest`: no other map changes, and the map is live as before, with the same shape, area and number of references.
    pub fn end_run(&mut self, map: MapKey)
        requires { IsSome (live_at self.old map) }
        ensures ended { keys_at self.new map ≡ after_run (keys_at self.old map) }
        ensures rest { OnlyKeysChange map self.old self.new }
        ensures refused { self.new.refused ≡ self.old.refused }
    {
        let key = self.keys.key(map.handle);
        let stored = &mut self.maps[key];
        stored.map.end_run();
    }
}

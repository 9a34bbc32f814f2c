//! The hash maps that a tenant no longer has, whose memory is for its next ones.

ghost use Rattle.std.specs.Prelude.{◌≡◌, ℕ, ◌<◌, ◌≤◌, true, false, IfOk, IfSome, slice_get, vec_len};
ghost use Rattle.tagged_model.specs.declared.shape.MapKind.TheVariants.{Hash};
ghost use Rattle.bpf_maps.specs.KeyTable.{new_keys};
ghost use Rattle.bpf_maps.specs.inside.Spares.{IsLike, HasEntries};

use crate::bpf_map::BpfMap;
use crate::hash_map::HashMap;
use crate::key_index::KeyIndex;
use crate::part::{LARGEST_SUM, MAPS};
use seeded_hash::HashSeed;
use std::alloc::{AllocError, Global};
use tagged_model::MapShape;

/// The greatest sum that the `max_entries` of a tenant's live hash maps can have: the value of each entry takes at least eight bytes of
/// `LARGEST_SUM`.
const MOST_ENTRIES_TOGETHER: usize = LARGEST_SUM / 8;

/// Of some hash maps of a tenant, its live ones or these and a new one: how many they are (`maps`), and the sum of their `max_entries`
/// (`entries`).
#[derive(Clone, Copy)]
pub(crate) struct HashMapTotals {
    pub(crate) maps: usize,
    pub(crate) entries: usize,
}

/// No live hash maps.
pub(crate) const NO_HASH_MAPS: HashMapTotals = HashMapTotals {
    maps: 0,
    entries: 0,
};

impl HashMapTotals {
    /// Adds a hash map whose `max_entries` is `entries` to these counts: one more map, and a sum of all `max_entries` that is greater by
    /// `entries`. So the live hash maps are counted, one after another (`count_live_hash_maps`), and with them a new one, for which spare
    /// maps may be freed (`SpareMaps::hash_map`). A spare map is a hash map that is no longer live; a new one may take its memory. The
    /// additions saturate, but a tenant has at most `MAPS` live maps, each with a `max_entries` of 32 bits, so its sums never reach the
    /// largest `usize`.
    pub(crate) fn with(self, entries: u32) -> HashMapTotals {
        HashMapTotals {
            maps: self.maps.saturating_add(1),
            entries: self.entries.saturating_add(entries as usize),
        }
    }
}

/// A tenant's hash maps that are no longer live. Whenever a map takes memory, they and the live hash maps are at most `MAPS`, and the sum
/// of their `max_entries` is at most `MOST_ENTRIES_TOGETHER`. So a tenant takes no more memory than one whose hash maps are all live, and
/// there is room for each map that is closed: a close frees none. A new map frees a single spare map, if one suffices. Otherwise all but
/// the last that it frees have together less `max_entries` than the new map, so all that it frees have less than twice the largest
/// `max_entries`.
#[derive(Drop)]
pub struct SpareMaps {
    maps: Vec<HashMap>,
}

impl SpareMaps {
    /// Makes the list of a tenant's spare maps: hash maps that are no longer live, whose memory new maps can take. The list has no maps
    /// yet, and room for `MAPS` (16) of them, so that `keep`, which adds a map when its last reference is released, allocates nothing.
    /// `AllocError`: out of memory.
    pub(crate) fn with_room(alloc: Global) -> Result<SpareMaps, AllocError> {
        let maps = Vec::with_capacity(alloc, MAPS)?;
        Ok(SpareMaps { maps })
    }

    /// Keeps a hash map that is no longer live among the spare maps, so that a new one can reuse its memory. An array is dropped: it has no
    /// memory of its own, since its values lie in the tenant's part. `release` of `Maps` calls this when the last reference to a map is
    /// released. The call allocates nothing, since the list of spare maps has room from the start.
    #[inline(always)]
    pub(crate) fn keep(&mut self, map: BpfMap) {
        if let BpfMap::Hash(map) = map {
            self.keep_hash_map(map);
        }
    }

    /// Keeps a hash map, if the list has room for one more, and else frees it. The list always has room, since it has room for `MAPS` maps,
    /// and the spare and the live hash maps of a tenant are together at most `MAPS`; this is not proved. The function is not inlined, so
    /// that `keep`, if the map is an array, neither makes a call nor copies the map's struct.
    #[cold]
    #[inline(never)]
    fn keep_hash_map(&mut self, map: HashMap) {
        if self.maps.len() < self.maps.capacity() {
            self.maps.push_reserved(map);
        }
    }

    /// Makes a hash map of this shape, without keys (`new_keys`); the shape's kind has to be `Hash`. If a spare map, a hash map that is no
    /// longer live, has the same key size and `max_entries`, the new map takes its memory and its seed. Otherwise the new map is allocated,
    /// with `seed`. Before that, spare maps are freed until there is room (`has_room`), or none is left. There is room if the spare maps,
    /// the live hash maps, which `live` counts, and the new map are at most `MAPS`, and the sum of their `max_entries` is at most
    /// `MOST_ENTRIES_TOGETHER`. So a tenant takes no more memory than one whose hash maps are all live. The function is not inlined, since
    /// a new hash map is rare. `AllocError`: out of memory.
    #[cold]
    #[inline(never)]
    pub(crate) fn hash_map(
        &mut self,
        alloc: Global,
        shape: MapShape,
        seed: HashSeed,
        live: HashMapTotals,
    ) -> Result<HashMap, AllocError>
        requires { shape.kind ≡ Hash }
        ensures { IfOk result (λ map. map ≡ new_keys shape) }
    {
        if let Some(at) = self.position(shape) {
            let mut map = self.maps.swap_remove(at);
            map.renew(shape);
            return Ok(map);
        }
        self.make_room(live.with(shape.max_entries));
        HashMap::new(alloc, shape, seed)
    }

    /// The index of the first spare map, a hash map that is no longer live, with this shape's key size and `max_entries` (`IsLike`); `None`
    /// if there is none. A new map of this shape can take the memory of that spare map, whatever the size of its values. Past the end of
    /// the list `slice_get` gives `None`, of which `IsLike` is false: so by the clause `at` is within the list, which `hash_map` needs.
    fn position(&self, shape: MapShape) -> Option<usize>
        ensures { IfSome result (λ at. IsLike shape (slice_get self.now.maps.items at)) }
    {
        for at in 0..self.maps.len() {
            if self.maps[at].is_like(shape) {
                return Some(at);
            }
        }
        None
    }

    /// The sum of the `max_entries` of the spare maps, the tenant's hash maps that are no longer live, whose memory new ones reuse.
    /// `has_room` and `excess` add the `max_entries` of the live hash maps and of a new one, and compare the total with
    /// `MOST_ENTRIES_TOGETHER`, the bound for all of these. The additions saturate, but there are at most `MAPS` spare maps (`SpareMaps`),
    /// each with a `max_entries` of 32 bits, so the sum never reaches the largest `usize`; this is not proved.
    fn max_entries_sum(&self) -> usize {
        let mut sum: usize = 0;
        for at in 0..self.maps.len() {
            sum = sum.saturating_add(self.maps[at].shape().max_entries as usize);
        }
        sum
    }

    /// Whether the spare maps, hash maps that are no longer live, and the hash maps that `live` counts (the live ones, and a new one that
    /// needs memory) are together at most `MAPS`, and the sum of their `max_entries` is at most `MOST_ENTRIES_TOGETHER`. Live hash maps
    /// can't exceed these bounds: a tenant has `MAPS` handles, and each of a map's `max_entries` elements takes at least eight bytes of the
    /// areas, which have at most `LARGEST_SUM` bytes together, eight times `MOST_ENTRIES_TOGETHER`. So within these bounds a tenant takes
    /// no more memory than one whose hash maps are all live. While the result is `false`, `make_room` frees spare maps, if any are left. A
    /// sum that saturates exceeds its bound.
    fn has_room(&self, live: HashMapTotals) -> bool {
        self.maps.len().saturating_add(live.maps) <= MAPS
            && self.max_entries_sum().saturating_add(live.entries) <= MOST_ENTRIES_TOGETHER
    }

    /// By how much the sum of the `max_entries` of a tenant's hash maps exceeds its bound, `MOST_ENTRIES_TOGETHER`; 0 if it does not. The
    /// sum has the spare maps, which are no longer live and whose memory is kept for new maps, and the maps that `live` counts: the live
    /// ones and the new one that needs memory. `make_room` passes the result to `next_to_free`, which chooses the spare map to free: if
    /// possible one whose `max_entries` is at least the result, since without it the sum is within the bound.
    fn excess(&self, live: HashMapTotals) -> usize {
        let entries = self.max_entries_sum().saturating_add(live.entries);
        entries.saturating_sub(MOST_ENTRIES_TOGETHER)
    }

    /// Frees spare maps, hash maps that are no longer live but have memory, before a new hash map takes memory. `live` counts the live
    /// hash maps and the new one. Afterwards these and the spare maps are together at most `MAPS`, and the sum of their `max_entries` is at
    /// most `MOST_ENTRIES_TOGETHER` (`has_room`), or no spare map is left. Until then each turn of the loop frees one map, so as many turns
    /// suffice as there are spare maps. `next_to_free` chooses the map: if possible one whose `max_entries` is at least the `excess`, by
    /// which the sum is too large. The last spare map gets the index of the freed one; the order of the list has no meaning.
    fn make_room(&mut self, live: HashMapTotals) {
        for _ in 0..self.maps.len() {
            if !self.maps.is_empty() && !self.has_room(live) {
                let chosen = self.next_to_free(self.excess(live));
                let _gone = self.maps.swap_remove(chosen);
            }
        }
    }

    /// The index of the spare map, a hash map that is no longer live, which `make_room` frees next for a new hash map. `excess` is by how
    /// much the sum of the `max_entries` of the spare, the live and the new hash maps exceeds `MOST_ENTRIES_TOGETHER`. If it is 0, only the
    /// number of these maps is too large, above `MAPS`. A map suffices if its `max_entries` is at least `excess` (`HasEntries`). Of the
    /// spare maps that suffice, the result is the one whose keys take the least memory when it is full, so that most is left for later
    /// maps; if none suffices, the one with the greatest `max_entries`, so that few are freed. By `suffices`, the result suffices if a
    /// spare map at any index (`at`) does; past the end of the list `slice_get` gives `None`, of which `HasEntries` is false. The caller
    /// has found that there is a spare map.
    fn next_to_free(&self, excess: usize) -> usize
        requires { 0 < vec_len self.now.maps }
        ensures within { result < vec_len self.now.maps }
        ensures suffices { (at : ℕ) → HasEntries excess (slice_get self.now.maps.items at)
            → HasEntries excess (slice_get self.now.maps.items result) }
    {
        let mut chosen = 0;
        for at in 1..self.maps.len() {
            if is_freed_before(self.maps[at].shape(), self.maps[chosen].shape(), excess) {
                chosen = at;
            }
        }
        chosen
    }
}

/// Whether, to make room for a new hash map, a spare map (a hash map that is no longer live) of `shape` is freed rather than one of
/// `other`. `next_to_free` calls this. `excess` is by how much the sum of the `max_entries` of the spare maps, the live hash maps and the
/// new one exceeds `MOST_ENTRIES_TOGETHER`, the greatest sum allowed; 0 if only the number of maps is too large. A map suffices if its
/// `max_entries` is at least `excess`: without it the sum is small enough. If both suffice, the one is freed whose keys take less memory
/// (`key_memory`), so that more is kept for reuse; `other` (false) if they take the same. Otherwise the one with the greater `max_entries`
/// is freed; `other` if these are equal. `freed`: if true, and `other` suffices, `shape` does too. `stays`: if false, and `shape` suffices,
/// `other` does too.
fn is_freed_before(shape: MapShape, other: MapShape, excess: usize) -> bool
    ensures freed { result ≡ true → excess ≤ other.max_entries → excess ≤ shape.max_entries }
    ensures stays { result ≡ false → excess ≤ shape.max_entries → excess ≤ other.max_entries }
{
    let suffices = shape.max_entries as usize >= excess;
    if other.max_entries as usize >= excess {
        suffices && key_memory(shape) < key_memory(other)
    } else {
        shape.max_entries > other.max_entries
    }
}

/// The memory for the keys of a full map of this shape, in bytes: `max_entries` times the size of the number (8 bytes) or of the array (64
/// or 512) in which the map's index keeps a key (`room_of`). A spare map is a hash map that is no longer live, whose memory is kept for new
/// ones. If freeing either of two spare maps makes enough room for a new map, the one with the smaller result is freed (`is_freed_before`),
/// so that more is kept. The product fits in 64 bits, as `max_entries` has 32 bits, and `room_of` is at most `LONGEST_LONG`, 512.
fn key_memory(shape: MapShape) -> u64 {
    KeyIndex::room_of(shape.key_size as usize) as u64 * shape.max_entries as u64
}

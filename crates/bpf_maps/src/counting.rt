//! How many maps of a tenant are live, how many keys they have, and how many bytes their values take.

ghost use Rattle.std.specs.Prelude.{◌≡◌, ◌*◌, ◌≤◌, length};
ghost use Rattle.tagged_model.specs.Shape.{most_entries};
ghost use Rattle.bpf_maps.specs.Limits.{most_bytes, most_maps};
ghost use Rattle.bpf_maps.specs.Live.{keys_at, areas};
ghost use Rattle.bpf_maps.specs.Sum.{total};

use crate::maps::{MapKey, Maps};
use crate::part::MAPS;
use crate::spare_maps::{HashMapTotals, NO_HASH_MAPS};
use tagged_model::MapKind;

impl Maps {
    /// How many keys the map with this handle has: at most `MOST_ENTRIES` of `tagged_model`, and 0 if no map has the handle.
    pub fn key_count(&self, map: MapKey) -> u32
        ensures count { result ≡ length (keys_at self.now map).entries }
        ensures few { result ≤ most_entries }
    {
        if !self.is_live(map) {
            return 0;
        }
        self.maps_are_laid();
        self.stored(map).map.key_count()
    }

    /// How many maps are live, for the counts of a tenant: at most `MAPS` (`few`). What contracts see as `maps` is a list with an item for
    /// each handle: its live map, or `None`. `total` adds up 1 for each map in it, and 0 for `None` (`count`). The call of the law
    /// `maps_are_laid`, which does nothing when it runs, is for the proof: there are `MAPS` handles, so the loop finds every map.
    pub fn live_count(&self) -> u32
        ensures count { result ≡ total (λ l. 1) self.now.maps }
        ensures few { result ≤ most_maps }
    {
        self.maps_are_laid();
        let mut count = 0;
        for handle in 0..MAPS {
            if self.is_live(MapKey { handle }) {
                count += 1;
            }
        }
        count
    }

    /// How many keys all live maps have together, for the counts of a tenant: at most `MAPS` times `MOST_ENTRIES` of `tagged_model`. `sum`
    /// adds up the keys of the live maps by `total`, for which a handle without a map counts 0. The call of the law `maps_are_laid`, which
    /// does nothing, is for the proof: there are `MAPS` handles, so the loop finds every map.
    pub fn key_sum(&self) -> u32
        ensures sum { result ≡ total (λ l. length l.keys.entries) self.now.maps }
        ensures few { result ≤ most_maps * most_entries }
    {
        self.maps_are_laid();
        let mut sum = 0;
        for handle in 0..MAPS {
            sum += self.key_count(MapKey { handle });
        }
        sum
    }

    /// What the creation of a map of this `kind` needs to know of the live hash maps: for a hash map how many they are, and the sum of
    /// their `max_entries`. The number and the sum of the live, the spare and the new hash maps have bounds, so both decide which spare
    /// maps are freed before the new map takes memory (`SpareMaps::hash_map`). A spare map is a hash map that is no longer live, whose
    /// memory a new one may reuse. For an array both are 0, and are not read: an array takes no memory, since its values lie in the
    /// tenant's part.
    pub(crate) fn live_hash_maps_for(&self, kind: MapKind) -> HashMapTotals {
        match kind {
            MapKind::Array => NO_HASH_MAPS,
            MapKind::Hash => self.count_live_hash_maps(),
        }
    }

    /// How many hash maps are live, and the sum of their `max_entries`. Both decide which spare maps are freed before a new hash map takes
    /// memory (`SpareMaps::hash_map`). A spare map is a hash map that is no longer live, whose memory a new one may reuse. Live, spare and
    /// new hash maps together have bounds, so that a tenant's memory is bounded. No contract depends on these numbers, so the function has
    /// none: the proof shows only that each map whose shape is read is live, which `is_live` tests. The body calls a law, which does
    /// nothing when it runs.
    fn count_live_hash_maps(&self) -> HashMapTotals {
        self.maps_are_laid();
        let mut live = NO_HASH_MAPS;
        for handle in 0..MAPS {
            let map = MapKey { handle };
            if self.is_live(map) && self.shape(map).kind == MapKind::Hash {
                live = live.with(self.shape(map).max_entries);
            }
        }
        live
    }

    /// How many bytes the areas of all live maps take together (`sum`): for each of the `max_entries` elements of a map, also one without a
    /// key, the size of a value, rounded up to a multiple of eight. At most `LARGEST_SUM`, the room for areas in a tenant's part,
    /// `most_bytes` in contracts (`few`). The body calls a law, which does nothing when it runs. `Tenant::counts` reports the number.
    pub fn value_bytes(&self) -> usize
        ensures sum { result ≡ areas self.now }
        ensures few { result ≤ most_bytes }
    {
        self.maps_are_laid();
        self.bytes
    }
}

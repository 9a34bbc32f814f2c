//! A tenant's live maps as they are stored, in a slab.

ghost use Rattle.std.specs.Prelude.{◌≡◌, ℕ, ◌≤◌, option_map, None, slice_index_or};
ghost use Rattle.bpf_maps.specs.InMaps.{by_handle, AreKeys, closed_up};

use crate::bpf_map::BpfMap;
use crate::part::MAPS;
use crate::slab_keys::SlabKeys;
use slab::Slab;

/// A live map, its area, and the number of references to it, `holds`.
#[derive(Drop)]
pub(crate) struct StoredMap {
    pub map: BpfMap,
    /// The offset of its area in the part, in bytes.
    pub start: usize,
    /// The distance from the start of one value to the start of the next, in bytes.
    pub stride: usize,
    /// Its elements as a run knows them, as one number (`Elements::word`).
    pub elements: u64,
    pub holds: u32,
}

impl StoredMap {
    /// Lowers the start of this map's area by `size` bytes if the area begins at offset `end` or after it; else nothing changes. It closes
    /// the gap that a freed map leaves, whose area was the `size` bytes before `end`. So `size` is at most `end`, and the new start is not
    /// below 0.
    fn close_up(&mut self, end: usize, size: usize)
        requires { size ≤ end }
        ensures { self.new ≡ closed_up end size self.old }
    {
        if self.start >= end {
            self.start -= size;
        }
    }
}

/// Corrects the starts of the areas after a map was freed, and the later areas were moved down over its area, the `size` bytes before
/// offset `end` of the part. Each start at `end` or after it becomes lower by `size`; nothing else of a map changes (`each`, by handle).
/// `keys` has, by handle, the key under which the slab `maps` has the handle's map; by the clauses `keys` that is so before and after. By
/// `capacity`, the slab has room for as many maps as before.
pub(crate) fn close_gap(keys: &SlabKeys, maps: &mut Slab<StoredMap>, end: usize, size: usize)
    requires size { size ≤ end }
    requires keys { AreKeys keys.now maps.old }
    ensures each { (k : ℕ) → slice_index_or (by_handle keys.now maps.new) k None
        ≡ option_map (closed_up end size) (slice_index_or (by_handle keys.now maps.old) k None) }
    ensures keys { AreKeys keys.now maps.new }
    ensures capacity { maps.new.capacity ≡ maps.old.capacity }
{
    for handle in 0..MAPS {
        if let Some(key) = keys.get(handle) {
            maps[key].close_up(end, size);
        }
    }
}

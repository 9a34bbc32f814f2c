//! The elements of an array, by which a run finds their values without the map.

ghost use Rattle.std.specs.Prelude.{◌≡◌, ◌≢◌, ℕ, ◌+◌, IfSome};
ghost use Rattle.tagged_model.specs.declared.shape.MapShape.{MapShape as AnyShape};
ghost use Rattle.tagged_model.specs.Table.{look_up};
ghost use Rattle.bpf_maps.specs.KeyTable.{table_of};
ghost use Rattle.bpf_maps.specs.Live.{keys_at, shape_at, offset_at, value_address, LiesInPart};
ghost use Rattle.bpf_maps.specs.Elements.{elements_of, AreOfArray, word_of};

use crate::array_map::{INDEX_SIZE, index_of};
use crate::maps::{MapKey, Maps};
use tagged_model::{MapKind, MapShape};

/// The elements of a map: how many there are that a run finds without reading the map, and the distance from the start of one value to the
/// start of the next, in bytes. The count of a hash map is 0, since only the map finds the element of a key. Both numbers stay the same as
/// long as the map is live.
#[derive(Clone, Copy, Debug, PartialEq, Eq)]
pub struct Elements {
    pub count: u32,
    pub stride: u32,
}

impl Elements {
    /// The elements of a map of this shape, for the look-ups of a run. `count` is how many elements a run finds without reading the map:
    /// `max_entries` for an array, whose key is the number of the element, and 0 for a hash map, since only the map finds the element of a
    /// key. `stride`, the bytes from the start of one value to the next, is the value's size, rounded up to a multiple of eight.
    #[inline(always)]
    pub fn of(shape: MapShape) -> Elements
        ensures { result ≡ elements_of shape }
    {
        let count = match shape.kind {
            MapKind::Array => shape.max_entries,
            MapKind::Hash => 0,
        };
        Elements {
            count,
            stride: shape.value_size.next_multiple_of(8),
        }
    }

    /// The `Elements` as one number of 64 bits. `count`, how many elements a run finds without reading the map, is its low 32 bits.
    /// `stride`, the distance from one value to the next in bytes, is its high 32 bits. A run's table of maps (`MapTable`) has one such
    /// number for each map, since two arrays, of counts and of distances, make a run slower. `of_word` is the inverse.
    #[inline(always)]
    pub fn word(self) -> u64
        ensures { result ≡ word_of self }
    {
        u64::from(self.count) + 0x1_0000_0000 * u64::from(self.stride)
    }

    /// The `Elements` that `word` represents, the inverse of `Elements::word` for any number (`word`). The low 32 bits are `count`, and the
    /// high 32 bits are `stride`, the distance from the start of one value to the start of the next in bytes. A run's table of maps has
    /// such a number for each map, made from the map's shape; the result is then the `Elements` of this shape (`elements`). Its `count` is
    /// `max_entries` for an array, in which a run finds the value of a key by the index, without reading the map. It is 0 for a hash map,
    /// which a run has to read. So if `count` is not 0, the map is an array, and its keys have `INDEX_SIZE`, 4, bytes (`size`).
    #[inline(always)]
    pub fn of_word(word: u64) -> Elements
        ensures word { word_of result ≡ word }
        ensures elements { (shape : AnyShape) → word ≡ word_of (elements_of shape)
            → result ≡ elements_of shape }
        ensures size { (shape : AnyShape) → word ≡ word_of (elements_of shape) → result.count ≢ 0
            → shape.key_size ≡ 4 }
    {
        Elements {
            count: (word % 0x1_0000_0000) as u32,
            stride: (word / 0x1_0000_0000) as u32,
        }
    }

    /// The address, modulo 2^64, of the value of `key` in a live array, if `self` is the count and the stride of this array (`AreOfArray`),
    /// and `first` the address of its first value; 0 if the array does not have the key: the index in `key` is out of range, or `key` does
    /// not have `INDEX_SIZE` bytes. So a run's look-up in an array (`look_up_among` of `bpf_helpers`) reads no map: `maps` and `map`, the
    /// array's handle, are only for the contract, and `maps_are_laid` is a law, which does nothing when it runs. In `address`, `part` is
    /// the address of the tenant's part, so `first` is `part` plus the offset of the first value. If `key` has a value, the value lies in
    /// the part, after the stack and the context (`inside`).
    #[inline(always)]
    pub fn address_of(self, maps: &Maps, map: MapKey, key: &[u8], first: u64) -> u64
        ensures address { AreOfArray self maps.now map → (part : ℕ)
            → first ≡ part + offset_at maps.now map 0 → result ≡ value_address part maps.now map
            (look_up (table_of (keys_at maps.now map)) key.now) }
        ensures inside { AreOfArray self maps.now map
            → IfSome (look_up (table_of (keys_at maps.now map)) key.now) (λ element.
            LiesInPart (offset_at maps.now map element) (shape_at maps.now map).value_size) }
    {
        let _ = map;
        maps.maps_are_laid();
        if key.len() != INDEX_SIZE {
            return 0;
        }
        let index = index_of(key);
        if index >= self.count {
            return 0;
        }
        first.wrapping_add(u64::from(index) * u64::from(self.stride))
    }
}

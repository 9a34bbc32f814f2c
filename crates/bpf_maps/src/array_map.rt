//! An array map.

ghost use Rattle.std.specs.Prelude.{◌≡◌, ◌<◌, ◌+◌, false, IfOk, IfSome, Some, None, nat_lt, if◌then◌else◌, length, option_map};
ghost use Rattle.std.specs.Option.{option_map_or};
ghost use Rattle.ordered_keys.specs.Orders.{next_entry};
ghost use Rattle.tagged_model.specs.declared.shape.MapKind.TheVariants.{Array};
ghost use Rattle.tagged_model.specs.Table.{look_up, verdict, next_of, index_key};
ghost use Rattle.bpf_maps.specs.KeyTable.{KeyTable, table_of, IsSound, Claims, new_keys};
ghost use Rattle.bpf_maps.specs.KeyRef.{key_bytes, shown_entry};

use crate::key_ref::{KeyRef, ShortKey};
use crate::value_map::{EXIST, NOEXIST, ValueMap};
use std::marker::Model;
use tagged_model::{MapFault, MapShape};

/// The size of a key of an array, which is an index, in bytes (bpf(2), BPF_MAP_TYPE_ARRAY).
pub const INDEX_SIZE: usize = 4;

/// An array, which has all its indices from the start. The element of an index is the index.
#[derive(Drop)]
pub struct ArrayMap {
    shape: MapShape,
    // Takes no bytes. It gives the shape the offset that it has in a hash map, so that it is read from a map of either kind without a test
    // of the kind.
    align: [u64; 0],
}

impl Model for ArrayMap {
    ghost use Rattle.std.specs.Prelude.{◌≡◌};
    ghost use Rattle.tagged_model.specs.declared.shape.MapKind.TheVariants.{Array};
    ghost use Rattle.bpf_maps.specs.KeyTable.{KeyTable, new_keys};

    ghost Value = { KeyTable };

    ghost view = { λ a. new_keys a.shape };

    ghost invariant = { λ a. a.shape.kind ≡ Array };
}

impl ArrayMap {
    /// Makes an array of this shape. From the start its keys are all its indices, 0 to `max_entries` - 1, each with itself for its element
    /// (`new_keys`), so no table of keys is stored. `BpfMap` has tested that the kind is `Array`. The field `align` takes no bytes, and
    /// gives the field `shape` the offset that it has in a `HashMap`: so the shape of a map is read without a test of the kind.
    #[inline(always)]
    pub(crate) fn new(shape: MapShape) -> ArrayMap
        requires { shape.kind ≡ Array }
        ensures { result ≡ new_keys shape }
    {
        ArrayMap { shape, align: [] }
    }

    /// The shape with which the array was made: its kind, the sizes in bytes of a key and of a value, and `max_entries`.
    pub fn shape(&self) -> MapShape
        ensures { result ≡ self.now.shape }
    {
        self.shape
    }

    /// How many keys the array has: one for each index, so `max_entries`.
    pub(crate) fn key_count(&self) -> u32
        ensures { result ≡ length self.now.entries }
    {
        self.shape.max_entries
    }

    /// A law: the map is an array (`kind`), and its table of keys is always that of a new array (`whole`). So each index below
    /// `max_entries` is a key, of four bytes (`key_size`); its element is the index, and no element is kept apart. The table is sound
    /// (`sound`): no two keys have the same element, and each element is below `max_entries`. The function does nothing when it runs: the
    /// read of a field gives its proof the invariant of the type.
    #[inline(always)]
    fn keys_are_its_indices(&self)
        ensures kind { self.now.shape.kind ≡ Array }
        ensures whole { self.now ≡ new_keys self.now.shape }
        ensures key_size { self.now.shape.key_size ≡ 4 }
        ensures sound { IsSound self.now }
    {
        let _ = &self.shape;
    }

    /// The index that the bytes of `key` give, little-endian (`spelled`). `key` has the size of the map's keys, `INDEX_SIZE` bytes. The
    /// array has the key only if the index is less than `max_entries`, and then the index is also the key's element (`found`).
    /// `element_for`, the caller, tests this.
    #[inline(always)]
    fn index_spelled(&self, key: &[u8]) -> u32
        requires { length key.now ≡ self.now.shape.key_size }
        ensures found { look_up (table_of self.now) key.now
            ≡ (if nat_lt result self.now.shape.max_entries then Some result else None) }
        ensures spelled { index_key result ≡ key.now }
    {
        self.keys_are_its_indices();
        index_of(key)
    }

    /// The element of a key of four bytes, which is the `key_size` of an array: the index in these bytes, little-endian. `None` if this
    /// index is not below `max_entries`, since the array then does not have the key. So the result is that of a look-up in the array's
    /// table of keys (`element`), an element is below `max_entries` (`within`), and its bytes as a key are `key` (`spelled`).
    #[inline(always)]
    fn element_of(&self, key: &[u8]) -> Option<u32>
        requires { length key.now ≡ self.now.shape.key_size }
        ensures element { result ≡ look_up (table_of self.now) key.now }
        ensures within { IfSome result (λ index. index < self.now.shape.max_entries) }
        ensures spelled { IfSome result (λ index. index_key index ≡ key.now) }
    {
        self.keys_are_its_indices();
        let index = index_of(key);
        if index < self.shape.max_entries {
            Some(index)
        } else {
            None
        }
    }

    /// The element that an update of `key` with `flags` claims, for `claim`. Its number is the index that the four bytes of the key spell.
    /// `claimed`: the result is that of the definition of an update (`verdict`), and the table of keys is unchanged, so `self.now` is named
    /// both as the table before the claim and as the one after it. `within`: the element is less than `max_entries`.
    ///
    /// # Errors
    ///
    /// Those of an update: `Invalid` if `flags` is none of `ANY` (0), `NOEXIST` (1) and `EXIST` (2), else `TooBig` if the index is not
    /// below `max_entries`, else `Exists` if `flags` is `NOEXIST`, since an array has each of its indices as a key at any time.
    #[inline(always)]
    fn element_for(&self, key: &[u8], flags: u64) -> Result<u32, MapFault>
        requires size { length key.now ≡ self.now.shape.key_size }
        ensures claimed { Claims (verdict (table_of self.now) key.now flags) key.now self.now result
            self.now }
        ensures within { IfOk result (λ element. element < self.now.shape.max_entries) }
    {
        self.keys_are_its_indices();
        if flags > EXIST {
            return Err(MapFault::Invalid);
        }
        let index = self.index_spelled(key);
        if index < self.shape.max_entries {
            if flags == NOEXIST {
                return Err(MapFault::Exists);
            }
            Ok(index)
        } else {
            Err(MapFault::TooBig)
        }
    }

    /// The index of the key after `key`, for `key_after`: the index of `key` plus 1. After the last key this is `max_entries`, which is no
    /// index of the array, so no key follows. If the array does not have `key`, for example because its size is not `INDEX_SIZE`, the
    /// result is 0, the first index.
    fn index_after(&self, key: &[u8]) -> u32
        ensures next { next_of (table_of self.now) key.now
            ≡ (if nat_lt result self.now.shape.max_entries then Some (index_key result) else None) }
    {
        self.keys_are_its_indices();
        if key.len() != INDEX_SIZE {
            return 0;
        }
        match self.element_of(key) {
            Some(index) => index + 1,
            None => 0,
        }
    }

    /// The key after that of `element`, in the order of the indices, or the first key if `element` is `None`; and the element of the key
    /// that is returned. In an array an element is the index that its key spells, so the result has the element `element` + 1, or 0. `None`
    /// if no key follows, or if no key has `element`: then it is `max_entries` or more. So a save reads all entries of a map.
    pub(crate) fn entry_after(&self, element: Option<u32>) -> Option<(KeyRef<'_>, u32)>
        ensures { option_map shown_entry result ≡ next_entry element self.now.entries }
    {
        self.keys_are_its_indices();
        let index = index_after_element(element);
        if index >= u64::from(self.shape.max_entries) {
            return None;
        }
        let key = ShortKey::of_word(index, INDEX_SIZE);
        Some((KeyRef::Short(key), index as u32))
    }
}

/// The index that follows an element, at which `entry_after` looks for the next key: the element's number and one, since in an array this
/// number is the index that the element's key spells. `None`, no element, gives the first index, 0. From the last key on the result is
/// `max_entries` or more, which is no index of the array. It has 64 bits, since the element may be any number of 32 bits.
fn index_after_element(element: Option<u32>) -> u64
    ensures { result ≡ option_map_or (λ p. p + 1) element 0 }
{
    match element {
        Some(element) => u64::from(element) + 1,
        None => 0,
    }
}

impl ValueMap for ArrayMap {
    ghost keys = { λ m. m };

    // The element of a key is the index in the key's four bytes, little-endian; `None` if this index is not below `max_entries`. The first
    // line calls a law, which does nothing when it runs. By this law the `key_size` of an array is 4; the key has this length, since the
    // clause `size` of `ValueMap::find` requires a key of `key_size` bytes. By the law, too, the table of keys is sound, as the clause
    // `sound` of `ValueMap::find` promises: for example, no two keys have the same element.
    #[inline(always)]
    fn find(&self, key: &[u8]) -> Option<u32> {
        self.keys_are_its_indices();
        self.element_of(key)
    }

    // Returns the index in the four bytes of the key, which is its element. All indices of the array are present, so none is added and
    // nothing changes. The errors, in this order, are `Invalid` if `flags` is none of `ANY`, `NOEXIST` and `EXIST`, `TooBig` if the index
    // is not below `max_entries`, and `Exists` if `flags` is `NOEXIST`. The first line calls a law, which does nothing when it runs. By it
    // no two keys have the same element, as the clause `sound` of `ValueMap::claim` promises.
    #[inline(always)]
    fn claim(&mut self, key: &[u8], flags: u64) -> Result<u32, MapFault> {
        self.keys_are_its_indices();
        self.element_for(key, flags)
    }

    // Rejects the deletion of any key with `Invalid`, as bpf(2) does: an array has all its indices at any time, so nothing changes. The
    // first call is of a law, for the proof.
    fn remove(&mut self, _key: &[u8]) -> Result<(), MapFault> {
        self.keys_are_its_indices();
        Err(MapFault::Invalid)
    }

    // Returns the key that follows `key`: the keys are the indices in ascending order, each as four bytes. `None` if `key` is the last one.
    // If the array does not have `key`, also if `key` has another size, the first key, that of index 0, is returned (`index_after`). The
    // first call is of a law, for the proof.
    fn key_after(&self, key: &[u8]) -> Option<KeyRef<'_>> {
        self.keys_are_its_indices();
        let index = self.index_after(key);
        if index >= self.shape.max_entries {
            return None;
        }
        Some(KeyRef::Short(ShortKey::of_word(u64::from(index), INDEX_SIZE)))
    }

    // The end of a run changes nothing in an array: no key is removed, so no element is kept apart. The call is of a law, for the proof.
    fn end_run(&mut self) {
        self.keys_are_its_indices();
    }
}

/// The index that the four bytes of a key spell, little-endian: by the contract, the key is that of this index (`index_key`). The index may
/// be `max_entries` or more; then the array does not have the key.
#[inline(always)]
pub(crate) fn index_of(key: &[u8]) -> u32
    requires { length key.now ≡ 4 }
    ensures { index_key result ≡ key.now }
{
    u32::from_le_bytes([key[0], key[1], key[2], key[3]])
}

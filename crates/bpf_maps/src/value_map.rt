//! What the two kinds of map have in common.

ghost use Rattle.std.specs.Prelude.{◌≡◌, ◌≤◌, ◌<◌, ◌⊎◌, length, [], ◌++◌, drop, option_map, IfOk, IfSome};
ghost use Rattle.tagged_model.specs.Table.{look_up, verdict, removal, next_of};
ghost use Rattle.bpf_maps.specs.KeyTable.{KeyTable, table_of, IsSound, Claims, Removes, GivesKey, after_run};
ghost use Rattle.bpf_maps.specs.KeyRef.{key_bytes};
ghost use Rattle.bpf_maps.specs.declared.part.TheConstants.{KEY_ROOM};

use crate::key_ref::KeyRef;
use crate::part::KEY_ROOM;
use tagged_model::MapFault;

/// The flag of an update of any key, present or absent.
pub const ANY: u64 = 0;

/// The flag of an update whose key must be absent (bpf(2), BPF_NOEXIST).
pub const NOEXIST: u64 = 1;

/// The flag of an update whose key must be present (bpf(2), BPF_EXIST), the largest flag.
pub const EXIST: u64 = 2;

/// A map from keys, in order, to elements. An element is a number less than the map's `max_entries`, and no two keys have the same
/// element.
pub trait ValueMap {
    /// The keys in order, each with its element, and the elements that are kept apart.
    ghost keys: { Self → KeyTable };

    /// Looks up a key, which has the size of the map's keys (`size`). Returns its element, by which the caller finds the value, or `None`
    /// if the key is absent (`element`; `table_of` is the table of keys as a map from keys to elements). The element is less than
    /// `max_entries` (`within`). `sound` gives callers the invariant of the table (`IsSound`): an element belongs to at most one key, or is
    /// kept apart, not both; each key has the map's key size; an array has all its indices as keys.
    fn find(&self, key: &[u8]) -> Option<u32>
        requires size { length key.now ≡ (keys self.now).shape.key_size }
        ensures element { result ≡ look_up (table_of (keys self.now)) key.now }
        ensures within { IfSome result (λ element. element < (keys self.now).shape.max_entries) }
        ensures sound { IsSound (keys self.now) };

    /// Claims an element for a key, which has the size of the map's keys (`size`), and returns it; the caller then writes the value there.
    /// A present key keeps its element. A new key becomes the last of the map's entries, and gets any element that is not in use.
    /// `claimed`: the result and the new table follow the definition of an update (`verdict` of `tagged_model`), which gives an error
    /// (`Refused`), the element of a present key (`Present`), or `New` for a new key. The element is less than `max_entries` (`within`).
    /// The shape is unchanged (`shape`). Afterwards the keys are sound: for example, no two have the same element (`sound`).
    ///
    /// # Errors
    ///
    /// Those of an update (bpf(2), BPF_MAP_UPDATE_ELEM): `Invalid` if `flags` is none of `ANY`, `NOEXIST` and `EXIST`. Else, for a present
    /// key, `Exists` if `flags` is `NOEXIST`; for an absent key of an array, `TooBig`; for an absent key of a hash map, `NoEntry` if
    /// `flags` is `EXIST`, else `TooBig` if the map is full: its keys, and the elements that are kept apart, are together `max_entries`.
    /// After an error nothing has changed. Takes no memory.
    fn claim(&mut self, key: &[u8], flags: u64) -> Result<u32, MapFault>
        requires size { length key.now ≡ (keys self.old).shape.key_size }
        ensures claimed { Claims (verdict (table_of (keys self.old)) key.now flags) key.now
            (keys self.old) result (keys self.new) }
        ensures within { IfOk result (λ element. element < (keys self.new).shape.max_entries) }
        ensures shape { (keys self.new).shape ≡ (keys self.old).shape }
        ensures sound { IsSound (keys self.new) };

    /// Deletes a key, which has the size of the map's keys (`size`). The other keys keep their order. The key's element is kept apart until
    /// the run ends (`end_run`): until then no key gets it. `removed`: the result and the new table are those of a deletion by definition
    /// (`removal` of `tagged_model`). `sound`: no element belongs to two keys, or to a key while it is kept apart. The shape is unchanged.
    /// Takes no memory.
    ///
    /// # Errors
    ///
    /// Those of a deletion (bpf(2), BPF_MAP_DELETE_ELEM): `Invalid` for an array, `NoEntry` if the key is absent. Then nothing has changed.
    fn remove(&mut self, key: &[u8]) -> Result<(), MapFault>
        requires size { length key.now ≡ (keys self.old).shape.key_size }
        ensures removed { Removes (removal (table_of (keys self.old)) key.now) key.now
            (keys self.old) result (keys self.new) }
        ensures shape { (keys self.new).shape ≡ (keys self.old).shape }
        ensures sound { IsSound (keys self.new) };

    /// Returns the key that follows `key` in the order of the keys, or the first key if `key` is absent or has another size. `None` after
    /// the last key, and in a map without keys. `given`: it is the key that the definition `next_of` gives. `size`: it has the size of the
    /// map's keys, and so at most `KEY_ROOM` bytes (`short`). A key of at most eight bytes is returned by value, a longer one is borrowed
    /// from the map; `next_key` copies the key into a buffer instead.
    fn key_after(&self, key: &[u8]) -> Option<KeyRef<'_>>
        ensures given { option_map key_bytes result
            ≡ next_of (table_of (keys self.now)) key.now }
        ensures size { IfSome result (λ given.
            length (key_bytes given) ≡ (keys self.now).shape.key_size) }
        ensures short { IfSome result (λ given. length (key_bytes given) ≤ KEY_ROOM) };

    /// Writes the key that follows `key` in the map's order (`next_of`) to the start of `next`, which has room for the longest key; the
    /// bytes of `next` after it are unchanged. If `key` is empty or absent from the map, the first key is written. `size`: a `key` that is
    /// not empty has the size of the map's keys, as the command MAP_GET_NEXT_KEY requires too. The body does not need this: for `key_after`
    /// a key of another size is absent.
    ///
    /// # Errors
    ///
    /// `NoEntry` if no key follows: `key` is the last one, or the map has no keys. Then `next` is unchanged. `given` has both cases.
    fn next_key(&self, key: &[u8], next: &mut [u8; KEY_ROOM]) -> Result<(), MapFault>
        requires size { (key.now ≡ []) ⊎ (length key.now ≡ (keys self.now).shape.key_size) }
        ensures given { GivesKey (next_of (table_of (keys self.now)) key.now) next.old result
            next.new }
    {
        let Some(following) = self.key_after(key) else {
            return Err(MapFault::NoEntry);
        };
        put_key(following.bytes(), next);
        Ok(())
    }

    /// Ends a run on this map: the elements that were kept apart, those of deleted keys, become free, so that `claim` may give them to new
    /// keys; keys and shape are unchanged (`ended`). Afterwards the keys are sound: for example, no two have the same element (`sound`). It
    /// is called after a run that has called the helper bpf_map_delete_elem, and at once after a delete command, since no run is in
    /// progress then. Takes no memory.
    fn end_run(&mut self)
        ensures ended { keys self.new ≡ after_run (keys self.old) }
        ensures sound { IsSound (keys self.new) };
}

/// Writes a key to the start of `next`, which gets the key after another one (`next_key`). The bytes of `next` after the key are unchanged.
/// The key has at most `KEY_ROOM` bytes, so it fits: `key_after` promises that (`short`).
fn put_key(key: &[u8], next: &mut [u8; KEY_ROOM])
    requires { length key.now ≤ KEY_ROOM }
    ensures { next.new ≡ key.now ++ drop (length key.now) next.old }
{
    next[..key.len()].copy_from_slice(key);
}

//! A hash map.

ghost use Rattle.std.specs.Prelude.{◌≡◌, ℕ, ◌<◌, ◌≤◌, None, Some, IsTrue, IfOk, IfSome, nat_lt};
ghost use Rattle.std.specs.Prelude.{if◌then◌else◌, vec_len, vec_capacity, length, option_map};
ghost use Rattle.ordered_keys.specs.Orders.{next_entry};
ghost use Rattle.tagged_model.specs.declared.shape.MapKind.TheVariants.{Hash};
ghost use Rattle.tagged_model.specs.Table.{look_up, of_absent, is_full, verdict, removal, next_of};
ghost use Rattle.bpf_maps.specs.KeyRef.{shown_entry};
ghost use Rattle.bpf_maps.specs.inside.Spares.{IsLike};
ghost use Rattle.bpf_maps.specs.KeyTable.{KeyTable, table_of, IsSound, Claims, Removes, new_keys, after_run, occurrences};

use crate::key_index::KeyIndex;
use crate::key_ref::KeyRef;
use crate::value_map::{EXIST, NOEXIST, ValueMap};
use seeded_hash::HashSeed;
use std::alloc::{AllocError, Global};
use std::marker::Model;
use tagged_model::{MapFault, MapShape};

/// A map from keys of any bytes to elements, in the order in which the keys were added.
#[derive(Drop)]
pub struct HashMap {
    shape: MapShape,
    index: KeyIndex,
    // The elements that no key has: first those of keys that were removed in this run, and then those that are free.
    spare: Vec<u32>,
    // The number of elements of keys that were removed in this run.
    kept: usize,
}

impl Model for HashMap {
    ghost use Rattle.bpf_maps.specs.KeyTable.{KeyTable};

    ghost Value = { KeyTable };

    ghost use Rattle.bpf_maps.specs.Index.{shown, IsWellFormedHash};

    ghost view = { shown };

    ghost invariant = { IsWellFormedHash };
}

impl HashMap {
    /// Makes a map of this shape, whose kind is `Hash`, without keys (`new_keys`). Keys are hashed with this seed. Allocates memory for
    /// `max_entries` keys and for the list of free elements, so no later call on the map allocates. The values are not in this memory, but
    /// in the map's area. `AllocError`: out of memory.
    pub(crate) fn new(alloc: Global, shape: MapShape, seed: HashSeed) -> Result<HashMap, AllocError>
        requires { shape.kind ≡ Hash }
        ensures { IfOk result (λ map. map ≡ new_keys shape) }
    {
        let spare = all_elements(alloc, shape.max_entries)?;
        let index = KeyIndex::new(alloc, shape.key_size as usize, shape.max_entries, seed)?;
        Ok(HashMap {
            shape,
            index,
            spare,
            kept: 0,
        })
    }

    /// Whether a new hash map of shape `shape` can reuse the memory of this map (`renew`): this map has the key size and the `max_entries`
    /// of `shape`. The value size may differ, since the values are not in this memory, but in the map's area. `SpareMaps` asks this of hash
    /// maps that are no longer live. The clause: if the result is true, key size and `max_entries` agree (`IsLike`). The second argument of
    /// `IsLike` is an option, since `SpareMaps` also uses it for an index of its list of maps, and past the end there is none.
    pub(crate) fn is_like(&self, shape: MapShape) -> bool
        ensures { IsTrue result → IsLike shape (Some self.now) }
    {
        self.shape.key_size == shape.key_size && self.shape.max_entries == shape.max_entries
    }

    /// Makes this a new hash map, without keys, of another shape. By the three preconditions the shape has the kind, the key size and the
    /// `max_entries` of this map (`is_like`), and only the value size may differ. So `SpareMaps` gives the memory of a map that is no
    /// longer live to a new one. Takes no memory.
    pub(crate) fn renew(&mut self, shape: MapShape)
        requires kind { shape.kind ≡ Hash }
        requires key_size { shape.key_size ≡ self.old.shape.key_size }
        requires max_entries { shape.max_entries ≡ self.old.shape.max_entries }
        ensures { self.new ≡ new_keys shape }
    {
        self.index.clear();
        put_elements(&mut self.spare, shape.max_entries);
        self.kept = 0;
        self.shape = shape;
    }

    /// The map's shape: its kind, `Hash`, the sizes of its keys and its values in bytes, and `max_entries`, the most keys that it may have.
    pub fn shape(&self) -> MapShape
        ensures { result ≡ self.now.shape }
    {
        self.shape
    }

    /// How many keys the map has: one for each element that is not in `spare`, which has the free elements and those kept apart.
    pub(crate) fn key_count(&self) -> u32
        ensures { result ≡ length self.now.entries }
    {
        self.shape.max_entries - self.spare.len() as u32
    }

    /// A law, which does nothing when it runs: the map's kind is `Hash` (`kind`), and its table of keys is sound (`sound`): no two keys
    /// have the same element, no element of a key is also kept apart, each is less than `max_entries`, and each key has the map's key size.
    /// `find` and `claim` call it for their proofs.
    #[inline(always)]
    fn elements_are_distinct(&self)
        ensures kind { self.now.shape.kind ≡ Hash }
        ensures sound { IsSound self.now }
    {
        let _ = &self.shape;
    }

    /// The element of a key, a number below `max_entries` (`within`); `None` if the map does not have the key. By the precondition the key
    /// has the size of the map's keys. The function is inlined into `find` and `claim` of `ValueMap`.
    #[inline(always)]
    fn element_of(&self, key: &[u8]) -> Option<u32>
        requires { length key.now ≡ self.now.shape.key_size }
        ensures element { result ≡ look_up (table_of self.now) key.now }
        ensures within { IfSome result (λ element. element < self.now.shape.max_entries) }
    {
        self.index.get(key)
    }

    /// The key after that of `element` in the order of insertion, or the first key if `element` is `None`. The key is returned with its
    /// element; contracts see the key as its bytes (`shown_entry`). `None` if no key follows, if no key has `element`, or if the map has no
    /// key. A caller that next passes the returned element gets all entries in order, as a save does.
    pub(crate) fn entry_after(&self, element: Option<u32>) -> Option<(KeyRef<'_>, u32)>
        ensures { option_map shown_entry result ≡ next_entry element self.now.entries }
    {
        self.index.entry_after(element)
    }

    /// Adds an absent key as the last one, with a free element, and returns this element. The elements that no key has are in `spare`: the
    /// first `kept` of them are kept apart until the run ends, the others are free, and the last one is taken. `TooBig`, and nothing has
    /// changed, if none is free: then the map is full (`is_full`), since its keys and the elements kept apart are together `max_entries`.
    /// `claimed`: the result and the change are those that an update allows (`Claims`) after its verdict on an absent key (`of_absent`),
    /// which is `Refused TooBig` if the map is full, else `New`. The last argument of `of_absent`, 0, is the flags `ANY`. With `NOEXIST`
    /// the verdict is the same, and `claim`, the caller, has rejected all other flags. `sound`, which `claim` promises too: no element has
    /// two keys, or a key while it is kept apart. Not inlined, unlike `claim`: an update of a present key does not need it.
    #[cold]
    #[inline(never)]
    #[tactic(auto, using(crate::proofs::Kept::sound))]
    fn add(&mut self, key: &[u8]) -> Result<u32, MapFault>
        requires absent { look_up (table_of self.old) key.now ≡ None }
        requires size { length key.now ≡ self.old.shape.key_size }
        ensures claimed { Claims (of_absent Hash (is_full (table_of self.old)) 0) key.now self.old
            result self.new }
        ensures sound { IsSound self.new }
    {
        if self.spare.len() == self.kept {
            return Err(MapFault::TooBig);
        }
        let element = self.spare[self.spare.len() - 1];
        self.index.insert(key, element);
        self.spare.pop();
        Ok(element)
    }
}

impl ValueMap for HashMap {
    ghost keys = { λ m. m };

    // Returns the element of a key; `None` if the key is absent. `elements_are_distinct` is a law, which does nothing when it runs. By it
    // the proof has the clause `sound` of `find` in the trait `ValueMap`: the table of keys is sound (`IsSound`), for example no two keys
    // have one element. The function is not inlined: its machine code selects the index for keys of this size (`KeyIndex`), and ends in a
    // jump to the `get` of this index. So a look-up of a short key does not save and restore the registers that only longer keys need.
    #[inline(never)]
    fn find(&self, key: &[u8]) -> Option<u32> {
        self.elements_are_distinct();
        self.element_of(key)
    }

    // `flags` is `ANY`, 0; `NOEXIST`, 1: the key must be absent, else `Exists`; or `EXIST`, 2: it must be present, else `NoEntry`. Any
    // greater number is `Invalid`. A present key keeps its element, which is returned. Only an absent key needs a free element, which `add`
    // claims; `TooBig` if none is free. After an error nothing has changed. `elements_are_distinct` is a law, for the proof.
    #[inline(always)]
    fn claim(&mut self, key: &[u8], flags: u64) -> Result<u32, MapFault> {
        self.elements_are_distinct();
        if flags > EXIST {
            return Err(MapFault::Invalid);
        }
        match self.element_of(key) {
            Some(element) => {
                if flags == NOEXIST {
                    Err(MapFault::Exists)
                } else {
                    Ok(element)
                }
            }
            None => {
                if flags == EXIST {
                    Err(MapFault::NoEntry)
                } else {
                    self.add(key)
                }
            }
        }
    }

    // Removes a key, which has the size of the map's keys. Its element is kept apart: no key gets it until the run ends (`end_run`).
    // `NoEntry` if the key is absent; then nothing has changed.
    fn remove(&mut self, key: &[u8]) -> Result<(), MapFault> {
        let Some(element) = self.index.remove(key) else {
            return Err(MapFault::NoEntry);
        };
        // The first `kept` elements of `spare` are kept apart until the run ends, and the others are free. The key's element becomes the
        // last one kept apart; the first free element, if any, goes to the end. `spare` has room for all elements of the map.
        let last = self.spare.len();
        self.spare.push_reserved(element);
        self.spare.swap(self.kept, last);
        self.kept += 1;
        Ok(())
    }

    // The key that was added next after `key`; the first key of the map if `key` is absent or has another size. `None` if `key` is the last
    // one, or if the map has no keys.
    fn key_after(&self, key: &[u8]) -> Option<KeyRef<'_>> {
        self.index.key_after(key)
    }

    // Ends a run: the elements of the keys that were removed since the last `end_run`, which were kept apart, become free. `spare` has the
    // elements that no key has. Its first `kept` are those that are kept apart, and `add` gives none of these to a key. Once `kept` is 0,
    // `add` may give any element of `spare`, so no element has to be moved.
    fn end_run(&mut self) {
        self.kept = 0;
    }
}

/// A list of all elements less than `count`, each once (`once`), so `count` of them (`length`): the free elements of a new hash map. It has
/// room for all of them (`room`), so that an element that was taken out can be put back without memory. `AllocError`: out of memory.
fn all_elements(alloc: Global, count: u32) -> Result<Vec<u32>, AllocError>
    ensures once { IfOk result (λ all. (p : ℕ) → occurrences p all.items
        ≡ (if nat_lt p count then 1 else 0)) }
    ensures length { IfOk result (λ all. vec_len all ≡ count) }
    ensures room { IfOk result (λ all. count ≤ vec_capacity all) }
{
    let mut all = Vec::with_capacity(alloc, count as usize)?;
    put_elements(&mut all, count);
    Ok(all)
}

/// Fills the list `all` anew with all elements less than `count`, each once: the free elements of a hash map without keys. The list has
/// room for them, so this takes no memory, and its capacity is unchanged (`room`). `once` counts how often an element `p` occurs: once if
/// `p` is less than `count`, else never.
fn put_elements(all: &mut Vec<u32>, count: u32)
    requires { count ≤ vec_capacity all.old }
    ensures once { (p : ℕ) → occurrences p all.new.items ≡ (if nat_lt p count then 1 else 0) }
    ensures length { vec_len all.new ≡ count }
    ensures room { vec_capacity all.new ≡ vec_capacity all.old }
{
    all.clear();
    for element in 0..count {
        all.push_reserved(element);
    }
}

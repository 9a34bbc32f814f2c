//! The keys under which a slab stores the maps of a tenant.

ghost use Rattle.std.specs.Prelude.{◌≡◌, ◌<◌, position, replicate, is_none, slice_index_or, slice_set, Some, None, IsSome};
ghost use Rattle.bpf_maps.specs.declared.slab_keys.TheConstants.{NO_KEY};
ghost use Rattle.bpf_maps.specs.Limits.{most_maps};
ghost use Rattle.bpf_maps.specs.inside.SlabKeys.{key_in};

use crate::part::MAPS;
use std::marker::Model;

// The word for no key. No key of a slab is this number: each is less than the slab's capacity.
const NO_KEY: usize = usize::MAX;

/// For each handle the key under which the slab has its map, if the handle has a map. Contracts see a list of `MAPS` options.
#[derive(Drop)]
pub(crate) struct SlabKeys {
    // By handle: its key, or `NO_KEY`.
    words: [usize; MAPS],
}

impl Model for SlabKeys {
    ghost use Rattle.std.specs.Prelude.{ℕ, List, Option};
    ghost use Rattle.bpf_maps.specs.inside.SlabKeys.{keys_in};

    ghost Value = { List (Option ℕ) };

    ghost view = { λ k. keys_in k.words };
}

impl SlabKeys {
    /// The keys of a slab that has no map yet: none of the `MAPS` handles has a key. A slab stores a tenant's live maps, and finds each by
    /// a number that the slab chooses, here called its key: neither the handle of the map nor a key in the map. In the clause, `None` is a
    /// handle without a key (`NO_KEY` in `words`).
    pub(crate) fn new() -> SlabKeys
        ensures { result ≡ replicate most_maps None }
    {
        SlabKeys {
            words: [NO_KEY; MAPS],
        }
    }

    /// The key, a number, under which the slab stores the map of a handle; `None` if the handle has no map. It is `None` also if the handle
    /// is `MAPS` or more: for an index past the end of the list `self.now`, `slice_index_or` gives its last argument. Callers use `get` if
    /// the handle may have no map, and `key` if it has one.
    #[inline(always)]
    pub(crate) fn get(&self, handle: usize) -> Option<usize>
        ensures { result ≡ slice_index_or self.now handle None }
    {
        match self.words.get(handle) {
            Some(&word) => key_of(word),
            None => None,
        }
    }

    /// The key, a number, under which the slab stores the map of a handle. By the precondition the handle has a map: so it is less than
    /// `MAPS`, and its number in `words` is this key, not `NO_KEY`, which is for a handle without a map. Contracts see `words` as a list of
    /// options, `self.now`: `slice_index_or self.now handle None` is the key of the handle, or `None` if it has no map. `get` returns this
    /// option, for a caller that does not know whether the handle has a map; here nothing is tested.
    #[inline(always)]
    pub(crate) fn key(&self, handle: usize) -> usize
        requires { IsSome (slice_index_or self.now handle None) }
        ensures { slice_index_or self.now handle None ≡ Some result }
    {
        let words = &self.words;
        words[handle]
    }

    /// The lowest handle that has no map, which a new map gets. `None` if each of the `MAPS` handles has a map. In the contract, `self.now`
    /// has for each handle the number under which the slab stores its map (the slab's key), or `None` if the handle has no map.
    pub(crate) fn free_handle(&self) -> Option<usize>
        ensures { result ≡ position is_none self.now }
    {
        first_without_key(&self.words)
    }

    /// Records `key`, the number under which the slab has stored the map of `handle`, so that `get` and `key` find this map; a number that
    /// was recorded before is replaced. `create` of `Maps` calls this for a new map. `handle`: it is less than `MAPS` (`most_maps` in
    /// contracts). `key`: it is less than `NO_KEY`, the greatest `usize`, which means no key; each number that a slab gives is less than
    /// its capacity.
    pub(crate) fn put(&mut self, handle: usize, key: usize)
        requires handle { handle < most_maps }
        requires key { key < NO_KEY }
        ensures { self.new ≡ slice_set self.old handle (Some key) }
    {
        self.words[handle] = key;
    }

    /// Removes the key of `handle`, the number under which the slab has stored its map: the handle then has no map (`None`), and a new map
    /// can get it. `release` of `Maps` calls this after it has removed the map from the slab. `handle` is less than `MAPS`.
    pub(crate) fn clear(&mut self, handle: usize)
        requires { handle < most_maps }
        ensures { self.new ≡ slice_set self.old handle None }
    {
        self.words[handle] = NO_KEY;
    }
}

/// The key of a handle from `word`, the number that `SlabKeys` has for this handle. A slab stores a tenant's live maps, and finds each by a
/// number that it has chosen, here called its key. The result is `word` itself; or `None` if `word` is `NO_KEY`, which is no key of a slab:
/// then the handle has no map.
#[inline(always)]
fn key_of(word: usize) -> Option<usize>
    ensures { result ≡ key_in word }
{
    if word == NO_KEY { None } else { Some(word) }
}

/// The lowest handle without a map; `None` if each of the `MAPS` handles has a map. `words` has for each handle the key under which the
/// slab has its map, or `NO_KEY` if it has none, so this is the index of the first word that is `NO_KEY`. In the contract, `key_in` is the
/// key of a word, `None` for `NO_KEY`.
fn first_without_key(words: &[usize; MAPS]) -> Option<usize>
    ensures { result ≡ position (λ word. is_none (key_in word)) words.now }
{
    words.iter().position(|&word| key_of(word).is_none())
}

//! A map from keys to elements that keeps its keys in the order in which they were added. A removal costs as much as an insertion.
//!
//! The functions after the methods are given fields of the map: the table of the keys with their elements, and `indices`, which has, by
//! element, the index of its key in the table.

ghost use Rattle.std.specs.Prelude.{◌≡◌, ℕ, ◌+◌, ◌*◌, ◌<◌, ◌≤◌, true, [], ◌∷◌, ◌++◌, length, drop, option_map};
ghost use Rattle.std.specs.Prelude.{slice_get, None, Some, IfSome, IfOk, vec_len, vec_capacity, swap_remove};
ghost use Rattle.std.specs.Option.{option_map_or};
ghost use Rattle.std.specs.Map.{lookup, remove_entry, values_of};
ghost use Rattle.ordered_keys.specs.Orders.{occurrences, first_key_of, key_following, lent_entry, next_entry};
ghost use Rattle.indexmap.specs.IndexMap.{index_map_len, spare};
ghost use Rattle.ordered_keys.specs.inside.Ordered.{IsIndexed, AreApart, HasAllRows, entry_of, is_entry_of, key_of, next_of_elements};

use crate::element_order::ElementOrder;
use indexmap::{Equivalent, IndexMap};
use std::alloc::{AllocError, Global};
use std::hash::{BuildHasher, Hash};
use std::marker::Model;

/// Keys, each with an element of its own less than a bound, in the order in which they were added.
///
/// The table has the keys in any order: the last key takes the index of one that is removed. The order of the keys is that of their
/// elements.
#[derive(Drop)]
pub struct OrderedMap<K: Eq + Hash + Copy, S: BuildHasher> {
    table: IndexMap<K, u32, S>,
    // By element: the index of its key in the table.
    indices: Vec<u32>,
    order: ElementOrder,
    // Empty between calls, with room for half of the entries that the bound allows, rounded up: `rebuild_without` moves entries through it.
    rows: Vec<(K, u32)>,
}

impl<K: Eq + Hash + Copy, S: BuildHasher> Model for OrderedMap<K, S> {
    ghost use Rattle.ordered_keys.specs.Orders.{BoundedKeys, bounded_keys_code};

    ghost Value = { BoundedKeys K };

    ghost coded = { bounded_keys_code K.code };

    ghost use Rattle.std.specs.Prelude.{vec_len, vec_capacity};
    ghost use Rattle.ordered_keys.specs.Orders.{bounded_keys};
    ghost use Rattle.ordered_keys.specs.inside.Ordered.{in_order, IsWhole};

    ghost view = { λ m. bounded_keys m.order.bound
        (in_order m.table.entries m.indices.items m.order.elements) };

    ghost invariant = { λ m. IsWhole m.table m.indices.items m.order (vec_len m.rows) (vec_capacity m.rows) };
}

impl<K: Eq + Hash + Copy, S: BuildHasher> OrderedMap<K, S> {
    /// A map without keys, for elements less than `bound`, whose table hashes keys by `hash_builder`. Allocates all memory that the map
    /// will ever have: the table of the keys, for each element the index of its key in the table (`indices`), the order of the elements
    /// (`order`), and a buffer (`rows`). The table has to keep room for `bound` entries in all, so that `insert` needs no memory. A removal
    /// may lose the room of one entry, but only in a group of the hash table's slots that an insertion once found full. The table has room
    /// for four times `bound` entries at first, so that groups are seldom full if the hashes are spread evenly. When it has room for only
    /// `bound`, a removal keeps that room by copying the second half of the entries to `rows`, which has room for more than half of `bound`
    /// entries, and back (`rebuild_without`). That can take many steps, but is rare, as the room of three times `bound` entries has to be
    /// lost first. `AllocError`: out of memory.
    pub fn new(alloc: Global, bound: u32, hash_builder: S) -> Result<OrderedMap<K, S>, AllocError>
    where
        S: Drop,
        ensures bound { IfOk result (λ map. map.bound ≡ bound) }
        ensures entries { IfOk result (λ map. map.entries ≡ []) }
    {
        let indices = vec![in alloc; 0; bound as usize]?;
        let order = ElementOrder::new(alloc, bound)?;
        let rows = Vec::with_capacity(alloc, bound as usize / 2 + 1)?;
        let room = 4 * bound as usize;
        let table = IndexMap::with_capacity_and_hasher(alloc, room, hash_builder)?;
        Ok(OrderedMap {
            table,
            indices,
            order,
            rows,
        })
    }

    /// The element of a key; `None` if the key is absent. `key` may have another type `Q` than the map's keys, `K`: `KeyBytes` of
    /// `bpf_maps`, for instance, finds the stored key that has its bytes. `Q.equivalent key` is the test that a key of the map has to pass,
    /// and `lookup` gives the element of the first one that does; by the laws of `Equivalent` all keys that do are equal.
    #[inline(always)]
    pub fn get<Q: Equivalent<K>>(&self, key: Q) -> Option<u32>
        ensures { result ≡ lookup (Q.equivalent key) self.now.entries }
    {
        // The keys of the table are distinct: this is in the contract of `len`.
        let _len = self.table.len();
        self.table.get(key).copied()
    }

    /// The key that follows `key` in the order of insertion, or the first key if `key` is absent. `None` if `key` is the last, or there are
    /// no keys. `key` may be of another type than the keys, for example borrowed bytes; `Q.equivalent key` is whether a key is equal to it.
    /// The hash maps of `bpf_maps` find the next key for MAP_GET_NEXT_KEY by this function.
    pub fn key_after<Q: Equivalent<K>>(&self, key: Q) -> Option<&K>
        ensures { option_map (λ k. k.now) result
            ≡ key_following (Q.equivalent key) self.now.entries }
    {
        // The keys of the table are distinct: this is in the contract of `len`.
        let _len = self.table.len();
        let Some(element) = self.table.get(key) else {
            return self.first();
        };
        key_at(&self.table, &self.indices, self.order.after(*element))
    }

    /// The first key in the order of the map: the one that was added before all other keys that the map has now. `None` if the map has no
    /// keys. In the contract, `k.now` is the key that a borrow `k` lends.
    pub fn first(&self) -> Option<&K>
        ensures { option_map (λ k. k.now) result ≡ first_key_of self.now.entries }
    {
        key_at(&self.table, &self.indices, self.order.first())
    }

    /// The key that follows the key of `element` in the order in which keys were added, or the first key if `element` is `None`; and the
    /// element of the key that is returned. `None` if no key follows, if no key has `element`, or if there are no keys. In the contract,
    /// `lent_entry` is this pair with the key itself instead of its borrow. A save goes over the entries of a map by this function. Unlike
    /// `key_after`, it hashes no key.
    pub fn entry_after(&self, element: Option<u32>) -> Option<(&K, u32)>
        ensures { option_map lent_entry result ≡ next_entry element self.now.entries }
    {
        let next = next_element(&self.table, &self.indices, &self.order, element)?;
        let key = key_at(&self.table, &self.indices, Some(next))?;
        Some((key, next))
    }

    /// Adds a key with its element, after all other keys (`added`). The caller has found the key absent, no key has the element (`free`),
    /// and the element (`within`) and the number of keys (`few`) are less than the bound. It allocates nothing: `new` made room for `bound`
    /// keys.
    pub fn insert(&mut self, key: K, element: u32)
        requires absent { lookup (K.eq key) self.old.entries ≡ None }
        requires within { element < self.old.bound }
        requires free { occurrences element (values_of self.old.entries) ≡ 0 }
        requires few { length self.old.entries < self.old.bound }
        ensures added { self.new.entries ≡ self.old.entries ++ (key, element) ∷ [] }
        ensures bound { self.new.bound ≡ self.old.bound }
    {
        let index = self.table.len() as u32;
        put_last(&mut self.table, key, element);
        self.indices[element as usize] = index;
        self.order.push(element);
    }

    /// Removes all keys. Keeps the memory, and the bound that each element has to be less than (`bound`).
    pub fn clear(&mut self)
        ensures entries { self.new.entries ≡ [] }
        ensures bound { self.new.bound ≡ self.old.bound }
    {
        self.table.clear();
        self.order.clear();
    }

    /// Removes the key that is equivalent to `key`, a value of any type that can be compared with keys (`Equivalent`), and returns its
    /// element. `None` if there is no such key (`element`); then nothing changes. The other keys keep their elements and their order
    /// (`left`). The bound that each element has to be less than is unchanged (`bound`).
    pub fn remove<Q: Equivalent<K>>(&mut self, key: Q) -> Option<u32>
        ensures element { result ≡ lookup (Q.equivalent key) self.old.entries }
        ensures left { self.new.entries ≡ remove_entry (Q.equivalent key) self.old.entries }
        ensures bound { self.new.bound ≡ self.old.bound }
    {
        let index = self.table.get_index_of(key)?;
        // Removes the entry at `index`; the last entry gets this index. The third argument is the bound, since `indices` has an item for
        // each element below it. `rows` is a buffer, empty before and after, through which `take_out` may move entries.
        let (_key, element) = take_out(&mut self.table, &mut self.rows, self.indices.len(), index);
        // The element of the entry that is at `index` now. If the removed entry was the last one, there is none, and `moved` is the removed
        // element, whose index now means nothing.
        let moved = element_at(&self.table, index, element);
        self.indices[moved as usize] = index as u32;
        self.order.remove(element);
        Some(element)
    }
}

/// Whether `table` has an entry of `element` at the index that `indices` has for `element`. For the fields of an `OrderedMap` this is
/// whether a key has `element`: for an element without a key the index leads to an entry of another element, or to none. If `indices` has
/// no index for `element`, the entry at index 0 is tested: this is none, or one of an element for which `indices` has an index, so the
/// result is false. `next_element` needs this test, since `ElementOrder::after` requires an element of the order.
fn has_element<K: Eq + Hash, S: BuildHasher>(
    table: &IndexMap<K, u32, S>,
    indices: &[u32],
    element: u32,
) -> bool
    ensures { result ≡ is_entry_of element (entry_of table.now.entries indices.now element) }
{
    let index = indices.get(element as usize).copied().unwrap_or(0);
    match table.get_index(index as usize) {
        Some((_, at)) => *at == element,
        None => false,
    }
}

/// The element that follows `element` in the order, or the first one if `element` is `None`. The result is `None` if `element` is the last,
/// if no key has `element`, or if the order is empty. By the precondition (`IsIndexed`) the order has exactly the elements of the table's
/// entries, and `indices` leads to the entry of each. So `has_element` finds whether the order has `element`, which `after` requires:
/// `entry_after`, the caller, may pass any element.
fn next_element<K: Eq + Hash, S: BuildHasher>(
    table: &IndexMap<K, u32, S>,
    indices: &[u32],
    order: &ElementOrder,
    element: Option<u32>,
) -> Option<u32>
    requires { IsIndexed table.now.entries indices.now order.now }
    ensures { result ≡ next_of_elements element order.now.elements }
{
    match element {
        None => order.first(),
        Some(element) => {
            if has_element(table, indices, element) {
                order.after(element)
            } else {
                None
            }
        }
    }
}

/// The key of `element`: that of the entry of `table` at the index that `indices` has for the element. `table` has the keys with their
/// elements, and `indices` by element the index of its key. `None` if no element is given, or the table has no entry at the index. By the
/// precondition an element that is given is in range: `indices` has an index for it. The callers pass only elements that keys have. For any
/// other element the index means nothing, and the key may be that of another element.
fn key_at<'a, K: Eq + Hash, S: BuildHasher>(
    table: &'a IndexMap<K, u32, S>,
    indices: &[u32],
    element: Option<u32>,
) -> Option<&'a K>
    requires { IfSome element (λ p. p < length indices.now) }
    ensures { option_map (λ k. k.now) result ≡ key_of table.now.entries indices.now element }
{
    let index = indices[element? as usize];
    let (key, _) = table.get_index(index as usize)?;
    Some(key)
}

/// The element of the entry at `index` of the table; an entry is a pair of a key and its element (`e.1`). The result is `otherwise` if no
/// entry has this index. `remove` calls this after a removal, when the last entry has taken the index of the removed one, and then records
/// `index` as that of the result. If the removed entry was itself the last, no entry has its index now; so `remove` passes the removed
/// element as `otherwise`, whose index means nothing any more.
fn element_at<K: Eq + Hash, S: BuildHasher>(
    table: &IndexMap<K, u32, S>,
    index: usize,
    otherwise: u32,
) -> u32
    ensures { result ≡ option_map_or (λ e. e.1) (slice_get table.now.entries index) otherwise }
{
    match table.get_index(index) {
        Some((_, element)) => *element,
        None => otherwise,
    }
}

/// Adds the entry of `key` and `element` at the end of the table (`entries`). The key is absent, and the table has room for one entry more
/// (`spare`, the number of further entries that fit without allocating, is not 0), so the insertion is never refused memory. Afterwards the
/// table has room for at most one entry fewer than before (the second `room`), so `put_all` can call this for each of its entries.
fn put_last<K: Eq + Hash + Copy, S: BuildHasher>(
    table: &mut IndexMap<K, u32, S>,
    key: K,
    element: u32,
)
    requires absent { lookup (K.eq key) table.old.entries ≡ None }
    requires room { 0 < spare table.old }
    ensures entries { table.new.entries ≡ table.old.entries ++ (key, element) ∷ [] }
    ensures room { spare table.old ≤ spare table.new + 1 }
{
    let added = table.insert(key, element);
    let Ok(_) = added else { unreachable!() };
}

/// Removes the entry at `index`, at which the table has one (`within`), and returns it (`entry`); the last entry gets the index
/// (`entries`). The table has at most `bound` entries before (`few`). Before and after, it has room for `bound` entries in all (`room`), so
/// that insertions never need memory. A removal by `take_at` may lose room for one entry, so `take_at` is only called if the table's
/// capacity, its entries and the room for more, is above `bound`. Else `rebuild_without` copies the second half of the entries to `rows`,
/// and puts them back without the entry. `rows` is empty before and after (`empty`), and has room for half of `bound` entries (`buffer`).
fn take_out<K: Eq + Hash + Copy, S: BuildHasher>(
    table: &mut IndexMap<K, u32, S>,
    rows: &mut Vec<(K, u32)>,
    bound: usize,
    index: usize,
) -> (K, u32)
    requires within { index < index_map_len table.old }
    requires few { index_map_len table.old ≤ bound }
    requires room { HasAllRows bound table.old }
    requires empty { vec_len rows.old ≡ 0 }
    requires buffer { bound ≤ 2 * vec_capacity rows.old }
    ensures entry { slice_get table.old.entries index ≡ Some result }
    ensures entries { table.new.entries ≡ swap_remove table.old.entries index result }
    ensures room { HasAllRows bound table.new }
    ensures empty { vec_len rows.new ≡ 0 }
    ensures buffer { bound ≤ 2 * vec_capacity rows.new }
{
    if table.capacity() > bound {
        take_at(table, index)
    } else {
        rebuild_without(table, rows, index)
    }
}

/// Removes the entry at `index`, at which the table has one (`within`), and returns its key and its element. The last entry moves to
/// `index` (`entries`). The capacity of the table, its entries and the further ones for which it has room (`spare`), falls by at most one
/// (`room`). It has to suffice for all entries that the map may have (the map's bound), so that no insertion needs memory. So `take_out`
/// calls this function only if the capacity is above the bound. Otherwise it calls `rebuild_without`, which loses no capacity but takes
/// more steps.
#[inline(always)]
fn take_at<K: Eq + Hash + Copy, S: BuildHasher>(
    table: &mut IndexMap<K, u32, S>,
    index: usize,
) -> (K, u32)
    requires within { index < index_map_len table.old }
    ensures entry { slice_get table.old.entries index ≡ Some result }
    ensures entries { table.new.entries ≡ swap_remove table.old.entries index result }
    ensures room { index_map_len table.old + spare table.old
        ≤ index_map_len table.new + spare table.new + 1 }
{
    let Some(entry) = table.swap_remove_index(index) else {
        unreachable!()
    };
    entry
}

/// Takes out the entry at `index`, at which the table has one, and returns it; the last entry gets this index. The capacity of the table,
/// its entries and the further ones for which it has room (`spare`), does not fall (`room`). `take_at` is quicker, but may lower it by one.
/// The capacity must be at least the map's bound, the most entries that the map can have, so that no insertion needs memory. So `take_out`
/// calls `take_at` if the capacity is above the bound, and else this function. The entry is swapped to the end. Then the second half of the
/// entries is copied to `rows`, removed from the table, and put back without the entry: the table keeps its capacity if `truncate` removes
/// at least half of the entries at once. `rows` is empty before and after, has room for this half (`requires buffer`), and keeps its
/// capacity (`ensures buffer`). A call takes more steps the more entries there are, but is rare: the capacity is at least four times the
/// bound at first, and few removals lower it (`OrderedMap::new`). So the function is out of line.
#[cold]
#[inline(never)]
fn rebuild_without<K: Eq + Hash + Copy, S: BuildHasher>(
    table: &mut IndexMap<K, u32, S>,
    rows: &mut Vec<(K, u32)>,
    index: usize,
) -> (K, u32)
    requires within { index < index_map_len table.old }
    requires empty { vec_len rows.old ≡ 0 }
    requires buffer { index_map_len table.old ≤ 2 * vec_capacity rows.old }
    ensures entry { slice_get table.old.entries index ≡ Some result }
    ensures entries { table.new.entries ≡ swap_remove table.old.entries index result }
    ensures room { index_map_len table.old + spare table.old
        ≤ index_map_len table.new + spare table.new }
    ensures empty { vec_len rows.new ≡ 0 }
    ensures buffer { vec_capacity rows.new ≡ vec_capacity rows.old }
{
    // The keys of the table are distinct: this is in the contract of `len`.
    let len = table.len();
    table.swap_indices(index, len - 1);
    copy_entries(table, len / 2, rows);
    table.truncate(len / 2);
    // The entry to take out was put at the end of the table, so it is the last of the rows.
    let Some(taken) = rows.pop() else {
        unreachable!()
    };
    put_all(table, rows.as_slice());
    rows.clear();
    taken
}

/// Copies the entries of the table from index `start` on to `rows`, in their order (`items`): for `rebuild_without`, which then removes
/// them from the table. `start` is at most the number of entries (`within`); if it is that number, nothing is copied. `rows` is empty
/// before, and has room for these entries (`requires buffer`): no memory is taken, so its capacity does not change (`ensures buffer`).
fn copy_entries<K: Eq + Hash + Copy, S: BuildHasher>(
    table: &IndexMap<K, u32, S>,
    start: usize,
    rows: &mut Vec<(K, u32)>,
)
    requires empty { vec_len rows.old ≡ 0 }
    requires within { start ≤ index_map_len table.now }
    requires buffer { index_map_len table.now ≤ start + vec_capacity rows.old }
    ensures items { rows.new.items ≡ drop start table.now.entries }
    ensures buffer { vec_capacity rows.new ≡ vec_capacity rows.old }
{
    for at in 0..table.len() - start {
        let Some((key, element)) = table.get_index(start + at) else {
            unreachable!()
        };
        rows.push_reserved((*key, *element));
    }
}

/// Adds the entries `rows` at the end of the table, in their order (`entries`). The table has room for them without an allocation (`room`
/// of `requires`), and loses room for no more entries than these (`room` of `ensures`). No two keys of the table and of `rows` are equal
/// (`apart`), so none is replaced. `rebuild_without` puts back entries with it.
fn put_all<K: Eq + Hash + Copy, S: BuildHasher>(table: &mut IndexMap<K, u32, S>, rows: &[(K, u32)])
    requires room { length rows.now ≤ spare table.old }
    requires apart { AreApart K.eq (table.old.entries ++ rows.now) }
    ensures entries { table.new.entries ≡ table.old.entries ++ rows.now }
    ensures room { spare table.old ≤ length rows.now + spare table.new }
{
    for index in 0..rows.len() {
        let (key, element) = rows[index];
        put_last(table, key, element);
    }
}

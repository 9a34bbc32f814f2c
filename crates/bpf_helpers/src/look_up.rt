//! The look-up of a key, on words and bytes.

ghost use Rattle.std.specs.Prelude.{◌≡◌, ◌+◌, ◌-◌, ◌<◌, ◌≤◌, length, slice_index, unwrap_or, Some, IsSome, IfSome};
ghost use Rattle.arena.specs.Memory.{base, part_start};
ghost use Rattle.arena.specs.Ranges.{IsInside};
ghost use Rattle.bpf_maps.specs.declared.part.TheConstants.{MAPS, PART};
ghost use Rattle.bpf_helpers.specs.Named.{bound_map, named_offset};
ghost use Rattle.bpf_helpers.specs.Calls.{AreArrays, AreLive};
ghost use Rattle.bpf_helpers.specs.Parts.{IsPartOf, AsksInside};
ghost use Rattle.bpf_helpers.specs.inside.Flat.{call_of, flat_look_up};

use crate::arrays::Arrays;
use crate::caller::Caller;
use arena::{Arena, Trace};
use bpf_maps::{Elements, INDEX_SIZE, MapKey, Maps, PART, laws};

/// The handle of the map that `word`, the first argument of a helper for maps, names. `bind` has the handles of the maps that are bound to
/// the run. A word `w` names the map at index `w - 1` of them (`listed`), so 1 names the first. `None` if the word is 0 or greater than the
/// number of these maps, and so names none. `bound_named` does not test the word, for calls in which it is known to name a map.
#[inline(always)]
pub(crate) fn bound(bind: &[MapKey], word: u64) -> Option<MapKey>
    ensures value { result ≡ bound_map bind.now word }
    ensures listed { IfSome result (λ map.
        (word - 1 < length bind.now) × (map ≡ slice_index bind.now (word - 1))) }
{
    let index = word.wrapping_sub(1);
    if index >= bind.len() as u64 {
        return None;
    }
    Some(bind[index as usize])
}

/// The handle of the map that `word` names; a helper's call has this word as its map argument. `bind` has the handles of the run's maps,
/// and the word 1 names the first of them. By `named` the word names one of these maps, as it does in each call of an accepted program; so,
/// unlike `bound`, this function does not test it. By `listed` the result is an item of `bind`, so its map is live if the maps of all items
/// are.
#[inline(always)]
pub(crate) fn bound_named(bind: &[MapKey], word: u64) -> MapKey
    requires named { IsSome (bound_map bind.now word) }
    ensures value { bound_map bind.now word ≡ Some result }
    ensures listed { (word - 1 < length bind.now) × (result ≡ slice_index bind.now (word - 1)) }
{
    bind[word.wrapping_sub(1) as usize]
}

/// The offset, in the part of `tenant`, of the `size` bytes at an address, by which helpers test an address that a run passes; `None` if
/// they don't all lie in the part. If the address is before the part, the difference wraps, and so is greater than any offset. The tenant
/// has a part, of `PART` bytes (`part`), and `size` is at most `PART`. By `within` the offset and `size` are together at most the part's
/// size. By `inside` the addresses of the bytes lie in the part, so that the trace may get their range. The body calls a law for the proof:
/// the size of the arena is that of all parts together, at most 2^28.
#[inline(always)]
pub(crate) fn offset_in(arena: &Arena, tenant: usize, size: usize, address: u64) -> Option<usize>
    requires part { IsPartOf tenant arena.now }
    requires size { size ≤ PART }
    ensures value { result ≡ named_offset arena.now tenant size address }
    ensures within { IfSome result (λ at. at + size ≤ arena.now.part) }
    ensures inside { IfSome result (λ at. IsInside arena.now tenant (address, size)) }
{
    arena.memory_is_its_parts();
    let at = address.wrapping_sub(arena.address(tenant));
    if at > (PART - size) as u64 {
        return None;
    }
    Some(at as usize)
}

/// The offset, in the part of `tenant`, of the `size` bytes at `address`; `None` if they don't all lie in the part. By `value` the result
/// is that of the definition `named_offset`. The tenant has a part, of `PART` bytes (`part`). A helper calls this for the bytes of a key or
/// a value, whose `size` is never more than `PART`. If they lie in the part, their range is appended to `trace`; else nothing is. So each
/// range that this call appends lies in the part. It counts no step (`asks`). The `size` bytes from the returned offset on lie in the part
/// (`within`).
#[inline(always)]
pub(crate) fn traced_offset(
    arena: &Arena,
    tenant: usize,
    size: usize,
    address: u64,
    trace: &mut Trace,
) -> Option<usize>
    requires part { IsPartOf tenant arena.now }
    requires size { size ≤ PART }
    ensures value { result ≡ named_offset arena.now tenant size address }
    ensures within { IfSome result (λ at. at + size ≤ arena.now.part) }
    ensures asks { AsksInside arena.now tenant trace.old trace.new }
{
    let at = offset_in(arena, tenant, size, address)?;
    trace.range(address, size as u64);
    Some(at)
}

/// A law, which does nothing when it runs, by which offsets are computed and bytes written without a test. It requires that `size` bytes at
/// an address have an offset in the part of `tenant` (`named_offset`). The part's address is `base`, that of the arena's first byte, plus
/// `part_start`. The bytes begin at this address or after it (`from`), end at the end of the part or before it (`to`), and their offset is
/// `address` less the part's address (`value`).
#[inline(always)]
pub(crate) fn named_bytes_lie_inside(arena: &Arena, tenant: usize, size: usize, address: u64)
    requires { IsSome (named_offset arena.now tenant size address) }
    ensures from { base + part_start arena.now tenant ≤ address }
    ensures to { address + size ≤ base + part_start arena.now tenant + arena.now.part }
    ensures value { named_offset arena.now tenant size address
        ≡ Some (address - (base + part_start arena.now tenant)) }
{
    let _ = arena;
    let _ = (tenant, size, address);
}

/// The offset of the `size` bytes at `address` in the part of `tenant`, which is the number of one of the arena's parts (`part`). The
/// caller knows that the bytes lie in the part (`named`: `named_offset` is not `None`), so this function tests nothing; `traced_offset`
/// does the same with a test. The range of the bytes is appended to `trace`: it lies in the part, and no step is counted (`asks`). `value`:
/// the result is the offset by the definition `named_offset`. `within`: the bytes from the result on end in the part.
#[inline(always)]
pub(crate) fn traced_offset_inside(
    arena: &Arena,
    tenant: usize,
    size: usize,
    address: u64,
    trace: &mut Trace,
) -> usize
    requires part { IsPartOf tenant arena.now }
    requires named { IsSome (named_offset arena.now tenant size address) }
    ensures value { named_offset arena.now tenant size address ≡ Some result }
    ensures within { result + size ≤ arena.now.part }
    ensures asks { AsksInside arena.now tenant trace.old trace.new }
{
    arena.memory_is_its_parts();
    named_bytes_lie_inside(arena, tenant, size, address);
    trace.range(address, size as u64);
    (address - arena.address(tenant)) as usize
}

/// bpf_map_lookup_elem (1): returns the address of the value of a key, or 0 if the map doesn't have the key. `map` is the position of the
/// map among those of the run (`bind` of `caller`), counted from 1, and `key` the address of the key. It also returns 0 if there is no such
/// map, or the key's bytes don't all lie in the tenant's part: then `flat_look_up`, the result by its definition, is `None` (`value`).
/// `call_of` is the record of all inputs of the call but `map` and `key`. All maps of the run are live (`live`). The trace gets at most the
/// range of the key's bytes, in the part, and no step (`asks`). `look_up_among` calls this for a hash map; it finds a value in an array
/// without reading the map.
#[inline(always)]
pub(crate) fn look_up(
    map: u64,
    key: u64,
    caller: Caller<'_>,
    arena: &Arena,
    maps: &Maps,
    trace: &mut Trace,
) -> u64
    requires part { IsPartOf caller.tenant arena.now }
    requires live { AreLive maps.now caller.bind.now }
    ensures value { result
        ≡ unwrap_or (flat_look_up (call_of caller.entry arena.now maps.now) map key) 0 }
    ensures asks { AsksInside arena.now caller.entry.tenant trace.old trace.new }
{
    laws::sizes_fit_in_parts();
    arena.memory_is_its_parts();
    let Some(map) = bound(caller.bind, map) else {
        return 0;
    };
    let size = maps.shape(map).key_size as usize;
    let Some(at) = traced_offset(arena, caller.tenant, size, key, trace) else {
        return 0;
    };
    let part = arena.part(caller.tenant);
    maps.address_of(map, &part[at..at + size], arena.address(caller.tenant))
}

/// bpf_map_lookup_elem (1) in a run that knows its arrays: returns what `look_up` returns (`value`), the address of the key's value, or 0
/// if the map does not have the key, if there is no such map, or if the key's bytes do not lie in the tenant's part. `map` is 1 for the
/// first of the run's maps, which are live (`live`) and have their handles in `bind` of `caller`; `key` is the address of the key. `arrays`
/// has for each of these maps the address of its first value and, as one word, its `Elements`: their count and the distance from one value
/// to the next, so the value of a key is found in an array without reading the map. A hash map has the count 0, and `look_up` reads it. By
/// `few` the run has at most `MAPS` maps, and each list of `arrays` has `MAPS` words, so it has one for each map. `call_of` is the record
/// of all inputs of the call but its two words. The trace gets only address ranges in the tenant's part, and no step (`asks`).
#[inline(always)]
pub(crate) fn look_up_among(
    arrays: Arrays<'_>,
    map: u64,
    key: u64,
    caller: Caller<'_>,
    arena: &Arena,
    maps: &Maps,
    trace: &mut Trace,
) -> u64
    requires part { IsPartOf caller.tenant arena.now }
    requires live { AreLive maps.now caller.bind.now }
    requires few { length caller.bind.now ≤ MAPS }
    requires arrays { AreArrays arrays.elements.now arrays.values.now caller.bind.now
        arena.now caller.tenant maps.now }
    ensures value { result
        ≡ unwrap_or (flat_look_up (call_of caller.entry arena.now maps.now) map key) 0 }
    ensures asks { AsksInside arena.now caller.entry.tenant trace.old trace.new }
{
    laws::sizes_fit_in_parts();
    arena.memory_is_its_parts();
    let Some(handle) = bound(caller.bind, map) else {
        return 0;
    };
    let index = map.wrapping_sub(1) as usize;
    let array = Elements::of_word(arrays.elements[index]);
    if array.count == 0 {
        return look_up(map, key, caller, arena, maps, trace);
    }
    let size = INDEX_SIZE;
    let Some(at) = traced_offset(arena, caller.tenant, size, key, trace) else {
        return 0;
    };
    let part = arena.part(caller.tenant);
    array.address_of(maps, handle, &part[at..at + size], arrays.values[index])
}

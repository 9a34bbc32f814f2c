//! An update of a map, on words and bytes.

ghost use Rattle.std.specs.Prelude.{◌≡◌, ◌+◌, ◌-◌, ◌<◌, ◌≤◌, IsSome};
ghost use Rattle.bpf_maps.specs.declared.part.TheConstants.{PART};
ghost use Rattle.bpf_maps.specs.Live.{live_at, shape_at};
ghost use Rattle.tagged_model.specs.Helpers.{errno, negative};
ghost use Rattle.bpf_helpers.specs.Calls.{AreLive};
ghost use Rattle.bpf_helpers.specs.States.{answers};
ghost use Rattle.bpf_helpers.specs.Named.{pair_named};
ghost use Rattle.bpf_helpers.specs.Parts.{IsPartOf, AsksInside};
ghost use Rattle.bpf_helpers.specs.inside.Flat.{call_of, pair_there, Updates, UpdatesNamed};

use crate::caller::Caller;
use crate::look_up::{bound, bound_named, traced_offset, traced_offset_inside};
use arena::{Arena, Trace};
use bpf_maps::{MapKey, Maps, laws};
use tagged_model::MapFault;

/// The addresses of the key and the value that an update stores, as the words of its arguments give them.
#[derive(Clone, Copy)]
pub(crate) struct Addresses {
    pub key: u64,
    pub value: u64,
}

/// The offsets of a key and a value in the tenant's part, in bytes.
#[derive(Clone, Copy)]
struct Offsets {
    key: usize,
    value: usize,
}

/// The number of an error of bpf(2), as errno(3) has it (`value`): ENOENT is 2, E2BIG 7, ENOMEM 12, EEXIST 17, EINVAL 22, ENOSPC 28. A
/// helper returns it negated modulo 2^64, which `fault_word` computes as `u64::MAX` minus the number, plus 1. That does not overflow, since
/// the number is at least 1 (`some`).
fn errno_of(fault: MapFault) -> u64
    ensures value { result ≡ errno fault }
    ensures some { 1 ≤ result }
{
    match fault {
        MapFault::NoEntry => 2,
        MapFault::TooBig => 7,
        MapFault::Memory => 12,
        MapFault::Exists => 17,
        MapFault::Invalid => 22,
        MapFault::NoSpace => 28,
    }
}

/// What the helpers for an update and a delete return for an error: the number that errno(3) gives it, negated, modulo 2^64.
pub(crate) fn fault_word(fault: MapFault) -> u64
    ensures { result ≡ negative (errno fault) }
{
    u64::MAX - errno_of(fault) + 1
}

/// Stores a value under a key of the live map (`live`) of the handle `map`, and returns 0. If that fails, nothing changes, and it returns
/// the error's number, negated: EINVAL if `flags`, those of bpf(2), are above 2, else EEXIST, ENOENT or E2BIG, as for the command of
/// bpf(2). The key and the value are at the offsets `at` of the tenant's part, of `PART` bytes (`part`). Both lie in it (`key`, `value`),
/// as `update` has tested and `update_inside` requires, so the value is copied without a test. `caller` is the run that calls the helper:
/// the number of its tenant, the handles of its maps, and its packet. `updated`: the result, and the memory and the live maps afterwards
/// (`answers`), are those of an update by definition (`Updates`). Its inputs are `flags`; `caller` with the memory and the live maps before
/// the call (`call_of`); and the map with the key and the value, the bytes at these offsets (`pair_there`). `Updates` takes the offset of
/// the claimed element's value from the live maps before, the code from those after the claim: they are equal, since a claim moves no area
/// (`areas_keep_elements`). `asks`: the trace gets only ranges in the part, and no step.
fn put(
    map: MapKey,
    at: Offsets,
    flags: u64,
    caller: Caller<'_>,
    arena: &mut Arena,
    maps: &mut Maps,
    trace: &mut Trace,
) -> u64
    requires part { IsPartOf caller.tenant arena.old }
    requires live { IsSome (live_at maps.old map) }
    requires key { at.key + (shape_at maps.old map).key_size ≤ PART }
    requires value { at.value + (shape_at maps.old map).value_size ≤ PART }
    ensures updated { Updates (call_of caller.entry arena.old maps.old)
        (pair_there (call_of caller.entry arena.old maps.old) map at.key at.value) flags
        (answers result arena.new maps.new) }
    ensures asks { AsksInside arena.old caller.entry.tenant trace.old trace.new }
{
    arena.memory_is_its_parts();
    laws::areas_keep_elements();
    let shape = maps.shape(map);
    let part = arena.part(caller.tenant);
    match maps.claim(map, &part[at.key..at.key + shape.key_size as usize], flags) {
        Ok(element) => {
            let start = arena.address(caller.tenant);
            let to = start + maps.value_at(map, element) as u64;
            let from = start + at.value as u64;
            arena.copy_inside(to, from, shape.value_size as usize, trace);
            0
        }
        Err(fault) => fault_word(fault),
    }
}

/// bpf_map_update_elem (2) with tests of its arguments: stores a value under a key, and returns 0. `map` is the position of the map among
/// those of the run (`caller.bind`, all live), counted from 1. The key and the value are at the addresses `at`. `flags` are those of
/// bpf(2): any key (0), only an absent one (1), only a present one (2). With an error no byte and no map changes, and the error's number is
/// returned, negated. It is EINVAL for other flags, if there is no such map, or if the bytes of the key or of the value don't lie in the
/// tenant's part (`pair_named` is `None`); else EEXIST, ENOENT or E2BIG, as for the command of bpf(2). `updated`: the result, and the
/// memory and the live maps afterwards, are those of such an update by `caller` with the memory and the live maps before (`call_of`).
/// `asks`: the trace gets only ranges of that part. Only `call` uses this function, since it takes any words as arguments; runs of accepted
/// programs use `update_inside`, which does not test map and addresses.
pub(crate) fn update(
    map: u64,
    at: Addresses,
    flags: u64,
    caller: Caller<'_>,
    arena: &mut Arena,
    maps: &mut Maps,
    trace: &mut Trace,
) -> u64
    requires part { IsPartOf caller.tenant arena.old }
    requires live { AreLive maps.old caller.bind.now }
    ensures updated { UpdatesNamed (call_of caller.entry arena.old maps.old)
        (pair_named (call_of caller.entry arena.old maps.old) map at.key at.value) flags
        (answers result arena.new maps.new) }
    ensures asks { AsksInside arena.old caller.entry.tenant trace.old trace.new }
{
    laws::sizes_fit_in_parts();
    let Some(map) = bound(caller.bind, map) else {
        return fault_word(MapFault::Invalid);
    };
    let shape = maps.shape(map);
    let size = shape.key_size as usize;
    let Some(key) = traced_offset(arena, caller.tenant, size, at.key, trace) else {
        return fault_word(MapFault::Invalid);
    };
    let size = shape.value_size as usize;
    let Some(value) = traced_offset(arena, caller.tenant, size, at.value, trace) else {
        return fault_word(MapFault::Invalid);
    };
    let at = Offsets { key, value };
    put(map, at, flags, caller, arena, maps, trace)
}

/// bpf_map_update_elem (2) without tests of its arguments: stores a value under a key, by `flags`, those of bpf(2), and returns 0. With an
/// error nothing changes, and it returns the error's number, negated. `caller` has the number of the run's tenant, whose part is in the
/// arena (`part`), and the handles of the run's maps (`bind`), all live (`live`). `named`: the arguments name a map, a key and a value
/// (`pair_named`), so `map` is the position of one of these maps, from 1, and the bytes of the key and of the value, at the addresses `at`,
/// lie in the tenant's part. `update` tests this; each call of an accepted program meets it. `updated`: the result, and the memory and the
/// live maps afterwards, are those of an update (`UpdatesNamed`) with these three and the inputs of the call (`call_of`). `asks`: the trace
/// gets only ranges of this part.
#[inline(always)]
pub(crate) fn update_inside(
    map: u64,
    at: Addresses,
    flags: u64,
    caller: Caller<'_>,
    arena: &mut Arena,
    maps: &mut Maps,
    trace: &mut Trace,
) -> u64
    requires part { IsPartOf caller.tenant arena.old }
    requires live { AreLive maps.old caller.bind.now }
    requires named { IsSome (pair_named (call_of caller arena.old maps.old) map at.key at.value) }
    ensures updated { UpdatesNamed (call_of caller.entry arena.old maps.old)
        (pair_named (call_of caller.entry arena.old maps.old) map at.key at.value) flags
        (answers result arena.new maps.new) }
    ensures asks { AsksInside arena.old caller.entry.tenant trace.old trace.new }
{
    let map = bound_named(caller.bind, map);
    let shape = maps.shape(map);
    let size = shape.key_size as usize;
    let key = traced_offset_inside(arena, caller.tenant, size, at.key, trace);
    let size = shape.value_size as usize;
    let value = traced_offset_inside(arena, caller.tenant, size, at.value, trace);
    let at = Offsets { key, value };
    put(map, at, flags, caller, arena, maps, trace)
}

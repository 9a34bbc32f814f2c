//! The deletion of a key, on words and bytes.

ghost use Rattle.std.specs.Prelude.{◌<◌};
ghost use Rattle.bpf_helpers.specs.Calls.{AreLive};
ghost use Rattle.bpf_helpers.specs.Named.{key_named};
ghost use Rattle.bpf_helpers.specs.Parts.{IsPartOf, AsksInside};
ghost use Rattle.bpf_helpers.specs.inside.Flat.{call_of, DeletesNamed};

use crate::caller::Caller;
use crate::look_up::{bound, traced_offset};
use crate::update::fault_word;
use arena::{Arena, Trace};
use bpf_maps::{Maps, laws};
use tagged_model::MapFault;

/// bpf_map_delete_elem (3): deletes a key, whose element is then kept apart, and returns 0. `map` is the position, counted from 1, of the
/// map among those that are bound to the run, and `key` the address of the key. `caller` has the run's tenant and, in `bind`, the handles
/// of these maps. With an error nothing changes, and the result is the error's number, negated, as a word: ENOENT if the map doesn't have
/// the key; EINVAL if the map is an array, if there is no such map, or if the key's bytes don't lie in the tenant's part (`deleted`). In
/// the contract, `call_of` is the inputs of the call as one record, and `key_named` the map's handle with the key's bytes, `None` if there
/// is no such map or the bytes lie outside the part. The trace gets only ranges in the part, and no step (`asks`). The tenant has a part in
/// the arena (`part`), and the bound maps are live (`live`).
pub(crate) fn delete(
    map: u64,
    key: u64,
    caller: Caller<'_>,
    arena: &Arena,
    maps: &mut Maps,
    trace: &mut Trace,
) -> u64
    requires part { IsPartOf caller.tenant arena.now }
    requires live { AreLive maps.old caller.bind.now }
    ensures deleted { DeletesNamed maps.old
        (key_named (call_of caller.entry arena.now maps.old) map key) result maps.new }
    ensures asks { AsksInside arena.now caller.entry.tenant trace.old trace.new }
{
    laws::sizes_fit_in_parts();
    let Some(map) = bound(caller.bind, map) else {
        return fault_word(MapFault::Invalid);
    };
    let size = maps.shape(map).key_size as usize;
    let Some(at) = traced_offset(arena, caller.tenant, size, key, trace) else {
        return fault_word(MapFault::Invalid);
    };
    let part = arena.part(caller.tenant);
    match maps.remove(map, &part[at..at + size]) {
        Ok(()) => 0,
        Err(fault) => fault_word(fault),
    }
}

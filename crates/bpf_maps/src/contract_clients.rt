//! Callers for proofs only, which nothing calls: that each meets its contract follows only from public contracts and laws. They are about
//! live maps with the bytes of their values in the tenant's part.

ghost use Rattle.std.specs.Prelude.{◌≡◌, ◌≢◌, ◌+◌, ◌-◌, ◌^◌, ◌<◌, ◌≤◌, length, Err, IfOk, OnErr, IsSome};
ghost use Rattle.tagged_model.specs.Table.{after_run, with_deleted};
ghost use Rattle.tagged_model.specs.declared.fault.MapFault.TheVariants.{NoSpace};
ghost use Rattle.bpf_maps.specs.declared.part.TheConstants.{PART};
ghost use Rattle.bpf_maps.specs.Live.{live_at, shape_at, references_at, map_in, SameValues, KeepsMap, KeepsMaps, KeepsOthers, create_fault};
ghost use Rattle.bpf_maps.specs.InPart.{updated_in};

use crate::laws;
use crate::maps::{MapKey, Maps};
use seeded_hash::HashSeed;
use std::alloc::Global;
use tagged_model::{MapFault, MapShape};

/// Updates a key of a live map: claims an element for it and writes the value there, in `part`, the bytes of the tenant's part. Nothing
/// calls this function: its proof shows that the contract of a whole update follows from public contracts and laws. In the clauses a map is
/// its keys with their values in the part (`map_in`). `done`: it changes as the verdict on an update with these flags requires
/// (`updated_in`; `verdict` of `tagged_model`): a present key gets the new value, an absent key is added as the last. If `claim` rejects
/// the update, its error is returned (`Invalid` if the flags are above 2, else `Exists`, `NoEntry` or `TooBig`), and the map has the keys
/// and values that it had before (`refused`). In both cases each other live map keeps its own (`others`).
fn update(
    maps: &mut Maps,
    map: MapKey,
    key: &[u8],
    value: &[u8],
    flags: u64,
    part: &mut [u8],
) -> Result<(), MapFault>
    requires live { IsSome (live_at maps.old map) }
    requires key { length key.now ≡ (shape_at maps.old map).key_size }
    requires value { length value.now ≡ (shape_at maps.old map).value_size }
    requires part { length part.old ≡ PART }
    ensures done { IfOk result (λ _. map_in part.new maps.new map
        ≡ updated_in part.old maps.old map key.now value.now flags) }
    ensures refused { OnErr result (KeepsMap map maps.old part.old maps.new part.new) }
    ensures others { KeepsOthers map maps.old part.old maps.new part.new }
{
    laws::values_are_written();
    laws::live_maps_refine_values();
    let element = maps.claim(map, key, flags)?;
    maps.maps_are_laid();
    let start = maps.value_at(map, element);
    part[start..start + value.len()].copy_from_slice(value);
    Ok(())
}

/// Deletes a key outside a run: `remove` keeps the key's element apart, and `end_run`, called at once, makes it free. Nothing calls this
/// function: its proof shows that the contract of a whole deletion follows from public contracts and laws. `done`: the map loses the key
/// (`with_deleted`), and deleted values no longer count against its `max_entries` (`after_run`). `others`: each other live map keeps its
/// keys and values. `refused`: if the deletion is rejected, this map keeps its own too; the error is `Invalid` for an array, `NoEntry` if
/// the key is absent. `part`, the tenant's part, is only for the contract: `map_in` is a map's keys with the bytes of their values there.
fn delete(maps: &mut Maps, map: MapKey, key: &[u8], part: &[u8]) -> Result<(), MapFault>
    requires live { IsSome (live_at maps.old map) }
    requires key { length key.now ≡ (shape_at maps.old map).key_size }
    ensures done { IfOk result (λ _. map_in part.now maps.new map
        ≡ after_run (with_deleted (map_in part.now maps.old map) key.now)) }
    ensures refused { OnErr result (KeepsMap map maps.old part.now maps.new part.now) }
    ensures others { KeepsOthers map maps.old part.now maps.new part.now }
{
    laws::live_maps_refine_values();
    maps.remove(map, key)?;
    maps.end_run(map);
    Ok(())
}

/// Nothing calls this function: its proof shows that its contract follows from public laws. The live map of handle `map`, its keys with
/// their values, is the same in `before` and `after`, two contents of the tenant's part, if the value of each element of each live map has
/// the same bytes in both (`values`). So bytes that belong to no value do not matter. `SameValues` compares the live maps of two states;
/// here both are `maps`, since only the part differs.
fn is_unchanged(maps: &Maps, map: MapKey, before: &[u8], after: &[u8])
    requires live { IsSome (live_at maps.now map) }
    requires values { SameValues maps.now before.now maps.now after.now }
    ensures { map_in after.now maps.now map ≡ map_in before.now maps.now map }
{
    maps.maps_are_laid();
    laws::values_agree();
}

/// Creates a tenant's first map. Nothing calls this function: it shows that the contracts of the functions that it calls imply its own. By
/// these the map has handle 0 (`first`), and there is room for it (`room`), so the only error is `Memory`, out of memory. `part` is the
/// tenant's part, `PART` bytes. The seed of the hash maps has two words 0, since no clause depends on it.
fn make_first(alloc: Global, shape: MapShape, part: &mut [u8]) -> Result<MapKey, MapFault>
    requires { length part.old ≡ PART }
    ensures room { result ≢ Err NoSpace }
    ensures first { IfOk result (λ map. map ≡ 0) }
{
    let Ok(mut maps) = Maps::new(alloc, HashSeed::new(0, 0)) else {
        return Err(MapFault::Memory);
    };
    // The contract of `area` bounds it, so there is room for the first map.
    let _area = shape.area();
    maps.create(shape, part)
}

/// A caller for proofs only. It drops the only reference to a live map (`last`), which frees it, and creates another map of its shape. By
/// the contracts of `release` and `create` and the law `maps_are_laid`, which does nothing, the freed handle and area are enough for the
/// new map (`room`), whose handle is that of the freed map or a lower one (`lowest`). The other live maps keep their keys and values
/// (`others`), although later areas move down in `part`, the tenant's part. The only error is `Memory`: out of memory for a hash map.
fn make_again(maps: &mut Maps, map: MapKey, part: &mut [u8]) -> Result<MapKey, MapFault>
    requires live { IsSome (live_at maps.old map) }
    requires last { references_at maps.old map ≤ 1 }
    requires part { length part.old ≡ PART }
    ensures room { result ≢ Err NoSpace }
    ensures lowest { IfOk result (λ made. made ≤ map) }
    ensures others { KeepsOthers map maps.old part.old maps.new part.new }
{
    maps.maps_are_laid();
    let shape = maps.shape(map);
    maps.release(map, part);
    maps.maps_are_laid();
    maps.create(shape, part)
}

/// Creates a map and, if `create` does not fail, releases it. Its one reference is then dropped, so it is freed. Nothing calls the
/// function: its proof shows what follows from the contracts of `create` and `release`. There is then room for exactly the maps for which
/// there was room before (`room`): for any shape `other`, `create_fault`, which is `NoSpace` if no handle or not enough bytes are free for
/// a map of this shape, else `None`, is what it was. Each map that was live still is, with the same keys and values (`maps`); the values
/// are in `part`, the tenant's part. `maps_are_laid` is a law of the areas and handles of live maps, for the proof.
fn make_and_release(maps: &mut Maps, shape: MapShape, part: &mut [u8])
    requires { length part.old ≡ PART }
    ensures room { (other : MapShape) → create_fault maps.new other ≡ create_fault maps.old other }
    ensures maps { KeepsMaps maps.old part.old maps.new part.new }
{
    maps.maps_are_laid();
    if let Ok(map) = maps.create(shape, part) {
        maps.release(map, part);
        maps.maps_are_laid();
    }
}

/// Shows from the contracts that adding a reference to a live map and dropping one again changes no map: each that was live still is, with
/// the same keys and values (`KeepsMaps`). Nothing calls this function. `references_at` is the number of references. There is at least one
/// before (`held`), so the dropped one is not the last, which would free the map. There are fewer than 2^32 - 1 (`few`), so one more can be
/// counted in 32 bits. `release` needs the tenant's whole part (`part`). By the law `live_maps_refine_values`, a map whose area and table
/// of keys are unchanged, as by `hold`, has the same values.
fn hold_and_release(maps: &mut Maps, map: MapKey, part: &mut [u8])
    requires live { IsSome (live_at maps.old map) }
    requires few { references_at maps.old map < 2 ^ 32 - 1 }
    requires held { 1 ≤ references_at maps.old map }
    requires part { length part.old ≡ PART }
    ensures { KeepsMaps maps.old part.old maps.new part.new }
{
    laws::live_maps_refine_values();
    maps.hold(map);
    maps.release(map, part);
}

//! The state of one tenant, and its commands on maps and descriptors.

ghost use Rattle.std.specs.Prelude.{◌≡◌, ◌≢◌, ◌+◌, ◌<◌, ◌≤◌, ℕ, Bool, false, List, is_none, length, IfOk, IfErr, Some, IsSome};
ghost use Rattle.words.specs.Bytes.{written_at};
ghost use Rattle.bpf_maps.specs.declared.part.TheConstants.{PART};
ghost use Rattle.bpf_maps.specs.Live.{live_at, references_at};
ghost use Rattle.tagged_model.specs.Cells.{and_then};
ghost use Rattle.fd_table.specs.Table.{first_descriptor, most, named, lowest, with_open};
ghost use Rattle.tenant.specs.declared.errno.Errno.TheVariants.{BadAddress};
ghost use Rattle.tenant.specs.State.{new_tenant};
ghost use Rattle.tenant.specs.Machine.{kind_of, asked_shape, created, element_looked_up};
ghost use Rattle.tenant.specs.Machine.{element_updated, element_deleted, given_next, closed, object_target, targets};
ghost use Rattle.tenant.specs.Kept.{times_listed, AreHeld, state_in};
ghost use Rattle.tenant.specs.inside.Leaves.{LeavesHeldMaps};
ghost use Rattle.tenant.specs.Replies.{shown_reply, IsWritable};
ghost use Rattle.tenant.specs.inside.Named.{IsMapOf, map_fault};

use crate::errno::Errno;
use crate::object::OpenObject;
use crate::reply::Reply;
use crate::shape::asked_shape;
use bpf_maps::{MapKey, Maps};
use fd_table::{FIRST, FdTable, MOST};
use flat_machine::TableRoom;
use seeded_hash::HashSeed;
use std::alloc::{AllocError, Global};
use std::marker::Model;
use tagged_model::{Named, Target};

/// The open objects of a tenant, and its live maps. The values of the maps lie in the tenant's part of the memory.
#[derive(Drop)]
pub struct Tenant {
    pub(crate) objects: FdTable<OpenObject>,
    pub(crate) maps: Maps,
    /// Whether memory was ever refused to a load; for new maps, `maps` has this.
    pub(crate) refused: bool,
    /// Room for the table by which a run finds its maps. Each run enters its program's maps, so the contents mean nothing between runs.
    pub(crate) table_room: TableRoom,
}

impl Model for Tenant {
    ghost use Rattle.tenant.specs.Kept.{KeptTenant, IsWellFormedTenant};

    ghost Value = { KeptTenant };

    ghost view = { λ t. record { objects = t.objects; live = t.maps; refused = t.refused } };

    ghost invariant = { λ t. IsWellFormedTenant
        (record { objects = t.objects; live = t.maps; refused = t.refused }) };
}

/// Writes `bytes` into a tenant's part, from offset `start` on, as `update` does with a value. By the precondition they end within the
/// part, so the slice is in bounds. All other bytes of the part are unchanged (`written_at`).
fn write_at(part: &mut [u8], start: usize, bytes: &[u8])
    requires { start + length bytes.now ≤ length part.old }
    ensures { part.new ≡ written_at part.old start bytes.now }
{
    part[start..start + bytes.len()].copy_from_slice(bytes);
}

/// Opens an object at the lowest free descriptor, 3 to 66, and returns this descriptor. By `within` a reply may have it as its status
/// (`IsWritable`). Callers have seen that a descriptor is free, as is required, so the table never returns the object as an error.
pub(crate) fn open(objects: &mut FdTable<OpenObject>, object: OpenObject) -> u32
    requires { is_none (lowest objects.old) ≡ false }
    ensures lowest { lowest objects.old ≡ Some result }
    ensures within { result < first_descriptor + most }
    ensures opened { objects.new ≡ with_open objects.old result object }
{
    match objects.place(object) {
        Ok(fd) => fd,
        Err(_) => unreachable!(),
    }
}

/// Drops one reference to the map of each handle in `held`, the handles of the maps of a program that was closed. `references_at` is how
/// many references a map has, and `times_listed` how often its handle is in `held`. The clause `held` requires that the maps still count
/// these references, so no count falls below 0. `live` requires that each live map has a reference, and that no element is kept apart. A
/// map without references left is freed, and the areas after its own move down in `part`, the tenant's part of `PART` bytes (`whole`). The
/// other maps keep their shapes, keys and values (`left`). Each map loses as many references as its handle is listed (`holds`).
fn release_all(maps: &mut Maps, held: &[MapKey], part: &mut [u8])
    requires live { AreHeld maps.old }
    requires held { (handle : ℕ) → times_listed handle held.now ≤ references_at maps.old handle }
    requires whole { length part.old ≡ PART }
    ensures left { LeavesHeldMaps (record { live = maps.old; part = part.old })
        (record { live = maps.new; part = part.new }) }
    ensures holds { (handle : ℕ) → references_at maps.new handle + times_listed handle held.now
        ≡ references_at maps.old handle }
{
    for map in held {
        maps.release(*map, part);
    }
}

impl Tenant {
    /// A tenant without open objects or maps, to which no memory was refused: with any bytes in its part (`part`) it has the state
    /// `new_tenant`. The keys of its hash maps will be hashed with `seed`. Allocates the tables of its descriptors and maps. `AllocError`:
    /// out of memory.
    pub fn new(alloc: Global, seed: HashSeed) -> Result<Tenant, AllocError>
        ensures { IfOk result (λ tenant. (part : List ℕ) → state_in part tenant ≡ new_tenant) }
    {
        Ok(Tenant {
            objects: FdTable::new(alloc)?,
            maps: Maps::new(alloc, seed)?,
            refused: false,
            table_room: TableRoom::new(),
        })
    }

    /// The handle of the map that a descriptor names (`found`), for a command on a map. The map is live (`live`), as the functions of
    /// `Maps` require. The error (`fault`) is `BadDescriptor` if the descriptor is not open, `Invalid` if it names a program. `no_fault`:
    /// never `BadAddress`, the error of a run that faults, which no command may return (`IsWritable`).
    fn map_named(&self, fd: u32) -> Result<MapKey, Errno>
        ensures found { IfOk result (IsMapOf self.now fd) }
        ensures live { IfOk result (λ map. IsSome (live_at self.now.live map)) }
        ensures fault { IfErr result (λ errno.
            map_fault (named self.now.objects fd) ≡ Some errno) }
        ensures no_fault { IfErr result (λ errno. errno ≢ BadAddress) }
    {
        match self.objects.get(fd) {
            None => Err(Errno::BadDescriptor),
            Some(OpenObject::Program(_)) => Err(Errno::Invalid),
            Some(OpenObject::Map(map)) => Ok(*map),
        }
    }

    /// What the verifier is given of the object that descriptor `fd` names (`object_target`): the shape of a map, or only that it is a
    /// program. `None` if the descriptor is not open. `part` may be any bytes of the tenant's part: a state takes only the values of maps
    /// from them, and the result does not depend on values. `targets` calls this for each descriptor, `shape_at` for the maps of a prepared
    /// program that is installed.
    pub(crate) fn target(&self, fd: u32) -> Option<Target>
        ensures { (part : List ℕ) →
            result ≡ and_then (named self.now.objects fd) (object_target (state_in part self.now)) }
    {
        match self.objects.get(fd)? {
            OpenObject::Map(map) => Some(Target::Map(self.maps.shape(*map))),
            OpenObject::Program(_) => Some(Target::Program),
        }
    }

    /// The open descriptors in ascending order, each with what the verifier needs to know of its object: the shape of a map, or only that
    /// it is a program. A load and an install pass this list to the verifier. `part` may be any bytes, since the list does not depend on
    /// the values of maps. `AllocError`: out of memory.
    pub fn targets(&self, alloc: Global) -> Result<Vec<Named>, AllocError>
        ensures { IfOk result (λ found. (part : List ℕ) →
            found.items ≡ targets (state_in part self.now)) }
    {
        // For the proof: the table has one item for each descriptor. Nothing is done when it runs.
        let _ = &self.objects;
        let mut found = Vec::with_capacity(alloc, MOST)?;
        for fd in FIRST..FIRST + MOST as u32 {
            if let Some(target) = self.target(fd) {
                found.push(Named { fd, target })?;
            }
        }
        Ok(found)
    }

    /// MAP_LOOKUP_ELEM: the reply with the bytes of the value that `key` has in the map of descriptor `fd`, borrowed from the tenant's
    /// part, which has `PART` bytes. `answer`: the reply or the error is that of the tenant's machine, whose state is unchanged.
    /// `writable`: the value fits in the payload of a reply, and no error is `BadAddress`, which no reply may report, since only a run that
    /// faults would have it.
    ///
    /// # Errors
    ///
    /// `BadDescriptor` if the descriptor is not open, `Invalid` if it names no map or the key has the wrong size, `NoEntry` if the key is
    /// absent.
    pub fn look_up<'a>(&self, fd: u32, key: &[u8], part: &'a [u8]) -> Result<Reply<'a>, Errno>
        requires { length part.now ≡ PART }
        ensures answer { shown_reply result (state_in part.now self.now)
            ≡ element_looked_up (state_in part.now self.now) fd key.now }
        ensures writable { IsWritable result }
    {
        tagged_model::laws::calls_refine_values();
        let map = self.map_named(fd)?;
        let shape = self.maps.shape(map);
        if key.len() != shape.key_size as usize {
            return Err(Errno::Invalid);
        }
        let Some(element) = self.maps.find(map, key) else {
            return Err(Errno::NoEntry);
        };
        let start = self.maps.value_at(map, element);
        Ok(Reply::Value(&part[start..start + shape.value_size as usize]))
    }

    /// MAP_CREATE: creates a map of the shape with these fields, opens it, and returns its descriptor. Its values lie in `part`, the
    /// tenant's part, which has `PART` bytes before and after (`length`). `kind` is the type in bpf(2), 1 for a hash map and 2 for an
    /// array; the sizes are in bytes. `answer`: the reply, and the state after it, are those of the tenant's machine (`created`) for one of
    /// the two values of `refused`, which is whether memory is refused to the command. `writable`: the reply can be written; no error is
    /// `BadAddress`, that of a run that faults.
    ///
    /// # Errors
    ///
    /// The first that applies: `Invalid` if `kind` is not 1 or 2, `key_size` is not 4 for an array or 1 to `LONGEST_KEY` for a hash map,
    /// `value_size` is not 1 to `LONGEST_VALUE`, `max_entries` is not 1 to `MOST_ENTRIES`, or a flag is set; `TooBig` if this map's area
    /// would have over `LARGEST_AREA` bytes; `TooManyOpen` if no descriptor is free; `NoSpace` if no handle is free, or all areas would
    /// have over `LARGEST_SUM` bytes; `NoMemory` if out of memory for a hash map. After any error no map and no descriptor has changed;
    /// `NoMemory` only sets the tenant's flag of refused memory.
    pub fn create(
        &mut self,
        kind: u32,
        key_size: u32,
        value_size: u32,
        max_entries: u32,
        flags: u32,
        part: &mut [u8],
    ) -> Result<Reply<'static>, Errno>
        requires { length part.old ≡ PART }
        ensures answer { (refused : Bool)
            × (shown_reply result (state_in part.new self.new)
            ≡ created refused (state_in part.old self.old)
            (asked_shape (kind_of kind) key_size value_size max_entries flags)) }
        ensures writable { IsWritable result }
        ensures length { length part.new ≡ PART }
    {
        let shape = asked_shape(kind, key_size, value_size, max_entries, flags)?;
        if self.objects.is_full() {
            return Err(Errno::TooManyOpen);
        }
        // For the proof: a law of the live maps, which does nothing.
        self.maps.maps_are_laid();
        match self.maps.create(shape, part) {
            Ok(map) => Ok(Reply::Opened(open(&mut self.objects, OpenObject::Map(map)))),
            Err(fault) => Err(Errno::of_map(fault)),
        }
    }

    /// MAP_UPDATE_ELEM: writes the value of a key to `part`, the tenant's part, which has `PART` bytes before and after (`length`). `fd` is
    /// the descriptor of the map. `key_and_value` has the bytes of the key, and then those of the value. The value of a present key is
    /// overwritten; a new key comes last in the order of keys. Takes no memory. The reply, and the state that `self` and `part` then
    /// represent, are those of the tenant's machine (`answer`). `writable`: `write_command_reply` may write the result, since an error is
    /// never `BadAddress`, the error of a run that faults.
    ///
    /// # Errors
    ///
    /// `BadDescriptor` if the descriptor is not open; `Invalid` if the descriptor names no map, if `key_and_value` is not as long as a key
    /// and a value of the map together, or if `flags` is none of 0, 1 (the key must be absent) and 2 (the key must be present); `Exists` if
    /// `flags` is 1 and the key is present; `TooBig` for an index out of range; for an absent key of a hash map `NoEntry` if `flags` is 2,
    /// else `TooBig` if the map is full. After an error nothing has changed.
    pub fn update(
        &mut self,
        fd: u32,
        flags: u64,
        key_and_value: &[u8],
        part: &mut [u8],
    ) -> Result<Reply<'static>, Errno>
        requires { length part.old ≡ PART }
        ensures answer { shown_reply result (state_in part.new self.new)
            ≡ element_updated (state_in part.old self.old) fd flags key_and_value.now }
        ensures writable { IsWritable result }
        ensures length { length part.new ≡ PART }
    {
        tagged_model::laws::calls_refine_values();
        bpf_maps::laws::live_maps_refine_values();
        bpf_maps::laws::values_are_written();
        tagged_model::laws::map_verdicts_match_look_ups();
        let map = self.map_named(fd)?;
        let shape = self.maps.shape(map);
        let key_size = shape.key_size as usize;
        let value_size = shape.value_size as usize;
        if key_and_value.len() != key_size + value_size {
            return Err(Errno::Invalid);
        }
        let (key, value) = key_and_value.split_at(key_size);
        let element = match self.maps.claim(map, key, flags) {
            Ok(element) => element,
            Err(fault) => return Err(Errno::of_map(fault)),
        };
        // For the proof: a law of the live maps, which does nothing.
        self.maps.maps_are_laid();
        let start = self.maps.value_at(map, element);
        write_at(part, start, value);
        Ok(Reply::Done)
    }

    /// MAP_DELETE_ELEM: deletes a key and its value. No run is in progress, so the key's element is free at once (`end_run`). `answer`: the
    /// reply and the state after it are those of the tenant's machine (`element_deleted`), whatever bytes the tenant's part has (`part`): a
    /// deletion reads and writes none of them. `writable`: the result is one that `write_command_reply` accepts (`IsWritable`): no error is
    /// `BadAddress`, the error of a run that faults, which no reply may report.
    ///
    /// # Errors
    ///
    /// `BadDescriptor` if the descriptor is not open; `Invalid` if it names no map, if the key has the wrong size, or if the map is an
    /// array; `NoEntry` if the key is absent. Then nothing has changed.
    pub fn delete(&mut self, fd: u32, key: &[u8]) -> Result<Reply<'static>, Errno>
        ensures answer { (part : List ℕ) → shown_reply result (state_in part self.new)
            ≡ element_deleted (state_in part self.old) fd key.now }
        ensures writable { IsWritable result }
    {
        tagged_model::laws::calls_refine_values();
        bpf_maps::laws::live_maps_refine_values();
        let map = self.map_named(fd)?;
        if key.len() != self.maps.shape(map).key_size as usize {
            return Err(Errno::Invalid);
        }
        if let Err(fault) = self.maps.remove(map, key) {
            return Err(Errno::of_map(fault));
        }
        self.maps.end_run(map);
        Ok(Reply::Done)
    }

    /// MAP_GET_NEXT_KEY: the reply with the key after `key` in the order of the map, or with the map's first key if `key` is empty or
    /// absent. `answer`: the reply is the machine's, whatever bytes the tenant's part has (`part`), since no value is read. `writable`: the
    /// key fits in the payload of a reply, and no error is `BadAddress`, the error of a run that faults.
    ///
    /// # Errors
    ///
    /// `BadDescriptor` if the descriptor is not open; `Invalid` if it names no map, or if `key` is not empty and has not the size of the
    /// map's keys; `NoEntry` if `key` is the last key, or the map has no keys.
    pub fn next_key(&self, fd: u32, key: &[u8]) -> Result<Reply<'_>, Errno>
        ensures answer { (part : List ℕ) → shown_reply result (state_in part self.now)
            ≡ given_next (state_in part self.now) fd key.now }
        ensures writable { IsWritable result }
    {
        tagged_model::laws::calls_refine_values();
        let map = self.map_named(fd)?;
        let size = self.maps.shape(map).key_size as usize;
        if !key.is_empty() && key.len() != size {
            return Err(Errno::Invalid);
        }
        match self.maps.key_after(map, key) {
            Some(following) => Ok(Reply::Key(following)),
            None => Err(Errno::NoEntry),
        }
    }

    /// CLOSE: closes a descriptor. If the descriptor names a map, this drops the descriptor's reference to the map; if it names a program,
    /// this drops all references of the program to maps. A map without references is freed, and the areas after its own move down in
    /// `part`, the tenant's part of `PART` bytes, which keeps its length (`length`). By `answer` the reply and the state after it are those
    /// of the machine (`closed`), for the object that the descriptor names, or for none if it is not open (`named`). `writable`: the reply
    /// has no payload, and no error is `BadAddress`, the error of a run that faults; so `write_command_reply` may write the result.
    ///
    /// # Errors
    ///
    /// `BadDescriptor` if the descriptor is not open. Then nothing has changed.
    pub fn close(&mut self, fd: u32, part: &mut [u8]) -> Result<Reply<'static>, Errno>
        requires { length part.old ≡ PART }
        ensures answer { shown_reply result (state_in part.new self.new)
            ≡ closed (state_in part.old self.old) fd (named self.old.objects fd) }
        ensures writable { IsWritable result }
        ensures length { length part.new ≡ PART }
    {
        let Some(object) = self.objects.close(fd) else {
            return Err(Errno::BadDescriptor);
        };
        match object {
            OpenObject::Map(map) => {
                self.maps.release(map, part);
                Ok(Reply::Done)
            }
            OpenObject::Program(program) => {
                release_all(&mut self.maps, program.maps(), part);
                Ok(Reply::Done)
            }
        }
    }

    /// Whether this tenant was ever refused memory: for a load or an installed program (the field `refused`), or for a new map (`refused`
    /// of `maps`). Its replies may then differ from those of its machine without refusals. By the contract, the result is the flag
    /// `refused` of the tenant's state; the bytes of the tenant's part (`part`), which the state also has, may be any.
    pub fn memory_was_refused(&self) -> bool
        ensures { (part : List ℕ) → result ≡ (state_in part self.now).refused }
    {
        self.refused || self.maps.refused()
    }
}

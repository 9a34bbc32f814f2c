//! Calls of a tenant's live maps.

ghost use Rattle.std.specs.Prelude.{◌≡◌, length, IfOk, IsSome};
ghost use Rattle.bpf_maps.specs.Live.{live_at};

use crate::outcomes::{done, fault_text, key_text, nothing};
use crate::test_run::run_text;
use arena::Arena;
use bpf_maps::{KEY_ROOM, MapFault, MapKey, Maps, PART};
use cases::{CaseError, GROUP, bytes_of, bytes_of_size, first_word, hex_groups, shape_of};
use seeded_hash::HashSeed;
use std::alloc::{AllocError, Global};
use std::marker::Model;
use tagged_model::{MapShape, Outcome};

/// A tenant's live maps, with their values in the one part of a memory. Contracts see the live maps.
#[derive(Drop)]
pub struct LiveMapsPlayer {
    alloc: Global,
    maps: Maps,
    arena: Arena,
    // The handles that maps have had so far, each once. A map's number in the lines is the index of its handle here.
    handles: Vec<MapKey>,
}

impl Model for LiveMapsPlayer {
    ghost use Rattle.bpf_maps.specs.Live.{LiveMaps};
    ghost use Rattle.bpf_helpers.specs.Parts.{IsPartOf};

    ghost Value = { LiveMaps };

    ghost view = { λ p. p.maps };

    ghost invariant = { λ p. IsPartOf 0 p.arena };
}

/// Creates a map with its area in `part`, the tenant's part, and adds `holds` references to the one that a new map has, so that it is still
/// live after as many releases. Returns the handle of the map, which is live, or the fault, after which no live map has changed: `NoSpace`
/// if no handle is free or the areas would take more than `LARGEST_SUM` bytes, else `Memory` if out of memory for a hash map.
fn create_held(
    maps: &mut Maps,
    shape: MapShape,
    holds: u8,
    part: &mut [u8],
) -> Result<MapKey, MapFault>
    requires { length part.old ≡ PART }
    ensures { IfOk result (λ map. IsSome (live_at maps.new map)) }
{
    let map = maps.create(shape, part)?;
    for _ in 0..holds {
        maps.hold(map);
    }
    Ok(map)
}

impl LiveMapsPlayer {
    /// A player, which plays the lines of worked cases that begin with `maps`, as it is before the first of them: no map is live, and
    /// `handles`, by whose indices the lines name maps, is empty. The arena has one part, the tenant's, of `PART` zero bytes. All hash maps
    /// get the same seed, of the words 1 and 2; others would do too, since what a map returns does not depend on its seed. `AllocError`:
    /// out of memory.
    pub fn new(alloc: Global) -> Result<LiveMapsPlayer, AllocError> {
        Ok(LiveMapsPlayer {
            alloc,
            maps: Maps::new(alloc, HashSeed::new(1, 2))?,
            arena: Arena::new(alloc, 1, PART)?,
            handles: Vec::new(alloc),
        })
    }

    /// Plays the line `maps new`: the lines that follow find no live maps, a part whose bytes are all 0, and numbers of maps that begin
    /// again at 0. Returns the empty text, since this line has no output. `Memory` if out of memory.
    fn begin(&mut self) -> Result<String, CaseError> {
        *self = LiveMapsPlayer::new(self.alloc)?;
        Ok(nothing(self.alloc))
    }

    /// The handle of the live map that a line names by `number`: the index of the map's handle in `handles`, in decimal digits. `NoMap` if
    /// `handles` has no such index, or the map is no longer live; `Number` if the text is no number. The contract: if a handle is returned,
    /// its map is live.
    fn live_map(&self, number: &str) -> Result<MapKey, CaseError>
        ensures { IfOk result (λ map. IsSome (live_at self.now map)) }
    {
        let number: usize = number.parse()?;
        match self.handles.get(number) {
            Some(map) if self.maps.is_live(*map) => Ok(*map),
            _ => Err(CaseError::NoMap),
        }
    }

    /// The number by which lines of cases name a map, from 0: the index of its handle in `handles`. If `handles` does not have the handle,
    /// this function appends it; so a new map with the handle of a freed one also has its number. The live maps, which are all that
    /// contracts see, are unchanged. `AllocError`: out of memory.
    fn number_of(&mut self, map: MapKey) -> Result<usize, AllocError>
        ensures { self.new ≡ self.old }
    {
        if let Some(number) = self.handles.iter().position(|handle| *handle == map) {
            return Ok(number);
        }
        self.handles.push(map)?;
        Ok(self.handles.len() - 1)
    }

    /// Makes a new map. The words of `rest` are its shape, as `KIND:KEY:VALUE:MAX`, and how many references are added to the one that each
    /// new map has. Returns the text `map NUMBER at OFFSET`: the number by which later lines name the map, and the offset of its first
    /// value in the tenant's part. If the map can't be created, the text is the name of the `MapFault`. The errors are `Map` if the first
    /// word means no shape, `Number` if the second is no number of 8 bits, and `Memory` if memory is refused to anything but the map.
    fn create(&mut self, rest: &str) -> Result<String, CaseError> {
        let (shape, holds) = first_word(rest);
        let shape = shape_of(self.alloc, shape)?;
        let holds = holds.parse()?;
        // A law, which does nothing when it runs: the size of the memory is that of its part.
        self.arena.memory_is_its_parts();
        match create_held(&mut self.maps, shape, holds, self.arena.part_mut(0)) {
            Ok(map) => {
                let number = self.number_of(map)?;
                Ok(format!(in self.alloc; "map {number} at {}", self.offset(map, 0)?)?)
            }
            Err(fault) => Ok(fault_text(self.alloc, fault)?),
        }
    }

    /// Drops one reference to the map whose number in the lines is `number`, the index of its handle in `handles`. Returns `live` if the
    /// map has another reference, or `gone` if that was the last one. Then the map is freed, and the areas of later maps move down in part
    /// 0, the only part of the arena. `NoMap` if `handles` has no such index, or the map is not live; `Number` if `number` is no number;
    /// `Memory` if out of memory for the text.
    fn release(&mut self, number: &str) -> Result<String, CaseError> {
        let map = self.live_map(number)?;
        // A law, which does nothing when it runs: the size of the memory is that of its part.
        self.arena.memory_is_its_parts();
        self.maps.release(map, self.arena.part_mut(0));
        let text = if self.maps.is_live(map) {
            "live"
        } else {
            "gone"
        };
        Ok(text.to_string(self.alloc)?)
    }

    /// The shape of a live map as text, as `Array 4 8 2`: its kind, the sizes of a key and of a value in bytes, and `max_entries`. `number`
    /// is the number, in decimal digits, by which lines of cases name the map: the index of its handle in `handles`. `NoMap` if no live map
    /// has this number, `Number` if the text is no number, `Memory` if out of memory.
    fn shape(&self, number: &str) -> Result<String, CaseError> {
        let map = self.live_map(number)?;
        let shape = self.maps.shape(map);
        let (kind, key, value, entries) = (
            shape.kind,
            shape.key_size,
            shape.value_size,
            shape.max_entries,
        );
        Ok(format!(in self.alloc; "{kind:?} {key} {value} {entries}")?)
    }

    /// The offset, in bytes from the start of the tenant's part, of the value of `element` in `map`, which is live (the precondition).
    /// `OutOfRange` if `element` is not below the map's `max_entries`.
    fn offset(&self, map: MapKey, element: u32) -> Result<usize, CaseError>
        requires { IsSome (live_at self.now map) }
    {
        if element >= self.maps.shape(map).max_entries {
            return Err(CaseError::OutOfRange);
        }
        Ok(self.maps.value_at(map, element))
    }

    /// The outcome of a line `maps at`: `at ` and the offset of an element's value in the tenant's part, in bytes. The words of `rest` are
    /// the map's number in the lines, which is no handle (`live_map`), and the number of the element in the map, from 0. `NoMap` if no live
    /// map has this number, `OutOfRange` if the map has no such element, `Number` if one of the words is no number, `Memory` if out of
    /// memory.
    fn at(&self, rest: &str) -> Result<String, CaseError> {
        let (number, element) = first_word(rest);
        let map = self.live_map(number)?;
        let offset = self.offset(map, element.parse()?)?;
        Ok(format!(in self.alloc; "at {offset}")?)
    }

    /// The outcome of a line `maps find`: the value of a key in a live map, as hex digits in groups of `GROUP` bytes, with a blank between
    /// them; `absent` if the map does not have the key. `rest` is the map's number in the lines, which is no handle (`live_map`), a blank,
    /// and the key's hex digits in the notation of cases. The arena has only part 0. `Number` if the first word is no number, `NoMap` if no
    /// live map has this number. Then for the key (`bytes_of_size`): `Notation` or `Digits` if the notation is wrong; `NoText` if the bytes
    /// that the notation gives are not UTF-8; `Digits` if one of their characters is neither a blank nor a hex digit, or the number of
    /// digits is odd; `Size` if the key has not the size of the map's keys. If out of memory, `Digits` from the decoder of the hex digits,
    /// else `Memory`.
    fn find(&self, rest: &str) -> Result<String, CaseError> {
        let (number, digits) = first_word(rest);
        let map = self.live_map(number)?;
        let shape = self.maps.shape(map);
        let key = bytes_of_size(self.alloc, digits, shape.key_size)?;
        let Some(element) = self.maps.find(map, &key) else {
            return Ok("absent".to_string(self.alloc)?);
        };
        let start = self.maps.value_at(map, element);
        let value = &self.arena.part(0)[start..start + shape.value_size as usize];
        Ok(hex_groups(self.alloc, value, GROUP)?)
    }

    /// Updates a map: claims an element for a key, and writes the value there. The words of `rest` are the number that `maps create`
    /// printed for the map (`live_map` gives its handle), the flags of BPF_MAP_UPDATE_ELEM (bpf(2)) as a number, and the key and the value
    /// in hex digits. Returns `claimed`, or the name of the `MapFault` for which the update is rejected, as `TooBig`. The errors are
    /// `NoMap` if no live map has the number, `Number` if that or the flags are no number, `Size` if the key or the value does not have the
    /// size that the map's shape gives, and those of `bytes_of`, for example `Digits` if a character is no hex digit.
    fn claim(&mut self, rest: &str) -> Result<String, CaseError> {
        let (number, rest) = first_word(rest);
        let (flags, rest) = first_word(rest);
        let (key, value) = first_word(rest);
        let map = self.live_map(number)?;
        let flags = flags.parse()?;
        let shape = self.maps.shape(map);
        let key = bytes_of_size(self.alloc, key, shape.key_size)?;
        let value = bytes_of_size(self.alloc, value, shape.value_size)?;
        match self.maps.claim(map, &key, flags) {
            Ok(element) => {
                let start = self.maps.value_at(map, element);
                // A law, which does nothing when it runs: the size of the memory is that of its part.
                self.arena.memory_is_its_parts();
                let part = self.arena.part_mut(0);
                part[start..start + value.len()].copy_from_slice(&value);
                Ok("claimed".to_string(self.alloc)?)
            }
            Err(fault) => Ok(fault_text(self.alloc, fault)?),
        }
    }

    /// Removes a key from a live map, for a line `maps remove`. `rest` has the further words of the line: the number by which lines name
    /// the map, which is no handle (`live_map`), and the key in hex digits. The key's element is kept apart, so no key gets it before a
    /// line `maps end` or `maps run` for this map. Returns `removed`, or the name of the map's fault: `Invalid` for an array, `NoEntry` if
    /// the key is absent. The error is `Number` if the first word is no number, `NoMap` if no live map has this number, `Notation`,
    /// `NoText` or `Digits` if the digits are wrong (`bytes_of`), and `Size` if the key has not the size of the map's keys. If out of
    /// memory, it is `Memory`, or `Digits` from the decoder of the digits.
    fn remove(&mut self, rest: &str) -> Result<String, CaseError> {
        let (number, digits) = first_word(rest);
        let map = self.live_map(number)?;
        let key = bytes_of_size(self.alloc, digits, self.maps.shape(map).key_size)?;
        Ok(done(self.alloc, self.maps.remove(map, &key), "removed")?)
    }

    /// The hex digits of the key that follows a key in the order of a map, or `NoEntry`, the name of the fault of `next_key`, if no key
    /// follows. The words of a line are the map's number in the lines, which is no handle (`live_map`), and the key in hex digits. Without
    /// a key, or if the map does not have the key, the result is the map's first key. `Number` if the first word is no number, `NoMap` if
    /// no live map has this number, `Size` if a key is given that is longer or shorter than the map's keys. If the key is not hex digits in
    /// the notation of cases, the error is `Notation`, `NoText` or `Digits` (`bytes_of`). If out of memory, `Memory`, or `Digits` from the
    /// decoder of the digits.
    fn next(&self, rest: &str) -> Result<String, CaseError> {
        let (number, digits) = first_word(rest);
        let map = self.live_map(number)?;
        let size = self.maps.shape(map).key_size;
        let key = bytes_of(self.alloc, digits)?;
        if !key.is_empty() && key.len() != size as usize {
            return Err(CaseError::Size);
        }
        let mut buffer = [0; KEY_ROOM];
        let outcome = self.maps.next_key(map, &key, &mut buffer);
        key_text(self.alloc, outcome, &buffer, size)
    }

    /// Does on a live map what the end of a run does: the elements of the keys that were removed before are free again. `number` is the
    /// map's number in the lines, the index of its handle in `handles`. Returns the empty text. `NoMap` if `handles` has no such index, or
    /// the map is not live; `Number` if the text is no number.
    fn end(&mut self, number: &str) -> Result<String, CaseError> {
        let map = self.live_map(number)?;
        self.maps.end_run(map);
        Ok(nothing(self.alloc))
    }

    /// Verifies a program, runs it on a live map and a packet, and returns the low 32 bits of register 0 at its exit, in decimal digits.
    /// The words of `rest` are the number that `create` returned for the map, the packet as hex digits, and the program's text. The map has
    /// descriptor 3, and no other descriptor is open. Elements of the map that `remove` left kept apart become free before the run, since
    /// `run` of `flat_machine` requires that none is kept apart. `NoMap` if no live map has the number, or if the program names no map: the
    /// run gets this one handle, and requires one for each map that the program names. `Refused` if the verifier rejects the program, for
    /// example since it names another descriptor; `OutOfRange` if the packet is longer than `LONGEST_PACKET`. Other errors are `Number` of
    /// `live_map`; `Notation`, `NoText` and `Digits` of `bytes_of` and `run_text`; `Text` if the text does not assemble. Out of memory is
    /// `Memory`, `Digits`, `Text` or `Refused`.
    fn run(&mut self, rest: &str) -> Result<String, CaseError> {
        let (number, rest) = first_word(rest);
        let (packet, text) = first_word(rest);
        let map = self.live_map(number)?;
        let packet = bytes_of(self.alloc, packet)?;
        match run_text(
            self.alloc,
            text,
            map,
            &mut self.arena,
            &mut self.maps,
            &packet,
        )? {
            Outcome::Value(value) => Ok(value.to_string(self.alloc)?),
            // Never: the run of an accepted program has no fault.
            Outcome::Fault => Ok("fault".to_string(self.alloc)?),
        }
    }

    /// Plays a call on live maps, given by its name (`call`) and further words (`rest`). Returns the outcome as text. `new` drops all maps,
    /// `create` makes one, `release` drops a reference; `shape` returns a map's shape, `at` the offset of an element's value; `find` looks
    /// a key up, `claim` updates, `remove` deletes, `next` returns the next key; `end` frees the elements of removed keys, as the end of a
    /// run does; `run` is a whole test run; `refused` is whether memory was refused to a map since `new`. `UnknownWord` for any other name;
    /// else the errors of the call's function.
    pub fn play(&mut self, call: &str, rest: &str) -> Result<String, CaseError> {
        match call {
            "new" => self.begin(),
            "create" => self.create(rest),
            "release" => self.release(rest),
            "shape" => self.shape(rest),
            "at" => self.at(rest),
            "find" => self.find(rest),
            "claim" => self.claim(rest),
            "remove" => self.remove(rest),
            "next" => self.next(rest),
            "end" => self.end(rest),
            "refused" => Ok(self.maps.refused().to_string(self.alloc)?),
            "run" => self.run(rest),
            _ => Err(CaseError::UnknownWord),
        }
    }
}

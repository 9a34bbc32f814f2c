//! Calls of the trait `ValueMap` on a map of either kind.

ghost use Rattle.std.specs.Prelude.{◌≡◌};

use crate::outcomes::{done, key_text, nothing};
use bpf_maps::{BpfMap, KEY_ROOM, ValueMap};
use cases::{CaseError, bytes_of, bytes_of_size, first_word, shape_of};
use seeded_hash::HashSeed;
use std::alloc::Global;

/// Finds a key in a map. Returns the text `element` with the number of its element, or `absent` if the map does not have the key. `digits`
/// is the key, as hex digits in the notation of cases: blanks may separate them, `{COUNT*PART}` gives the digits PART COUNT times, and
/// `\xHH` the byte with these two hex digits, as `\x61` the digit `a`. `size` is the size of the map's keys in bytes, which
/// `ValueMap::find` requires of a key. `Notation` if a repetition is wrong or a `\x` is cut off, and `Digits` if no two hex digits follow
/// it. Then `NoText` if the text that the notation gives is not UTF-8, `Digits` if a character of it is neither a blank nor a hex digit or
/// the number of digits is odd, and `Size` if the key has more or fewer bytes than `size`. If out of memory, `Memory`, or `Digits` from the
/// decoder of the digits.
fn find<M: ValueMap>(alloc: Global, map: &M, size: u32, digits: &str) -> Result<String, CaseError>
    requires { size ≡ (M.keys map.now).shape.key_size }
{
    let key = bytes_of_size(alloc, digits, size)?;
    match map.find(&key) {
        Some(element) => Ok(format!(in alloc; "element {element}")?),
        None => Ok("absent".to_string(alloc)?),
    }
}

/// Plays a line `map claim`: claims an element of the map for a key. `rest` has the flags of an update in decimal digits (0: any key, 1:
/// only an absent one, 2: only a present one), a blank, and the key as hex digits in the notation of cases: blanks may separate them,
/// `{COUNT*PART}` gives the digits PART COUNT times, and `\xHH` the byte with these two hex digits, as `\x61` the digit `a`. `size` is the
/// size of the map's keys in bytes. Returns the text `claimed`, without the element, or the name of the map's fault. `Number` if the flags
/// are no number of 64 bits. For the key, `Notation` if a repetition is wrong or a `\x` is cut off, `NoText` if the bytes that the notation
/// gives are not UTF-8, `Digits` if a character, also after a `\x`, is no hex digit, or the number of digits is odd, `Size` if the key has
/// more or fewer bytes than `size`. If out of memory, `Memory`, or `Digits` from the decoder of the digits.
fn claim<M: ValueMap>(
    alloc: Global,
    map: &mut M,
    size: u32,
    rest: &str,
) -> Result<String, CaseError>
    requires { size ≡ (M.keys map.old).shape.key_size }
{
    let (flags, digits) = first_word(rest);
    let flags = flags.parse()?;
    let key = bytes_of_size(alloc, digits, size)?;
    Ok(done(alloc, map.claim(&key, flags), "claimed")?)
}

/// Plays a line `map remove`: removes a key from a map. `digits` is the key, as hex digits in the notation of cases: spaces may separate
/// them, and a repetition `{COUNT*PART}` (PART, COUNT times) or a `\xHH`, a byte by its two hex digits, may give them. `size` is the size
/// of the map's keys in bytes. Returns the text `removed`, or the name of the map's fault: `Invalid` for an array, `NoEntry` if the key is
/// absent. `Notation` if a repetition is wrong or a `\x` is cut off; `NoText` if the bytes that `digits` gives are not UTF-8; `Digits` if a
/// character, also after a `\x`, is no hex digit, or the number of digits is odd; `Size` if the key has more or fewer bytes than `size`. If
/// out of memory, `Memory`, or `Digits` from the decoder of the digits.
fn remove<M: ValueMap>(
    alloc: Global,
    map: &mut M,
    size: u32,
    digits: &str,
) -> Result<String, CaseError>
    requires { size ≡ (M.keys map.old).shape.key_size }
{
    let key = bytes_of_size(alloc, digits, size)?;
    Ok(done(alloc, map.remove(&key), "removed")?)
}

/// Returns the key that follows a key in the map, as hex digits, with a blank between groups of `GROUP` (4) bytes; if no key follows, or
/// the map has no key, the name of the map's fault, `NoEntry`. `digits` is the key that it follows, as hex digits in the notation of cases:
/// blanks may separate them, `{COUNT*PART}` gives the digits PART COUNT times, and `\xHH` the byte with these two hex digits, as `\x61` the
/// digit `a`. If it gives no byte, or the map does not have this key, the result is the first key. `size` is the size of the map's keys in
/// bytes, by the precondition. `Notation` if a repetition lacks its `*` or `}`, or its COUNT is no number or too large, or if a `\x` is cut
/// off; `NoText` if the bytes that `digits` gives are not UTF-8; `Digits` if a character, also after a `\x`, is no hex digit, or the number
/// of digits is odd; `Size` if the key is not empty and has more or fewer bytes than `size`. If out of memory, `Memory`, or `Digits` from
/// the decoder of the digits.
fn next<M: ValueMap>(alloc: Global, map: &M, size: u32, digits: &str) -> Result<String, CaseError>
    requires { size ≡ (M.keys map.now).shape.key_size }
{
    let key = bytes_of(alloc, digits)?;
    if !key.is_empty() && key.len() != size as usize {
        return Err(CaseError::Size);
    }
    let mut buffer = [0; KEY_ROOM];
    let outcome = map.next_key(&key, &mut buffer);
    key_text(alloc, outcome, &buffer, size)
}

/// Calls a function of a map, and returns its result as text, which a case compares. `call` is the function, and `rest` has its arguments;
/// a key is written as the hex digits of `size` bytes, the size of the map's keys. `find KEY` gives `element` and the element's number, or
/// `absent`. `claim FLAGS KEY` gives `claimed`; FLAGS are those of an update in decimal digits (0: any key, 1: only an absent one, 2: only
/// a present one). `remove KEY` gives `removed`, and `next KEY`, or `next` for the first key, the next key's digits. A `claim`, `remove` or
/// `next` that fails gives the name of the map's fault, as `NoEntry`. `end` ends a run, so that the elements of removed keys are free
/// again; its text is empty. `UnknownWord` if `call` is another word, `Number` if the flags are no number, `Size` if a key has another
/// size, `Memory` if out of memory, and the errors of `bytes_of` for the key's digits: `Notation`, `NoText` and `Digits`.
fn play_call<M: ValueMap>(
    alloc: Global,
    map: &mut M,
    size: u32,
    call: &str,
    rest: &str,
) -> Result<String, CaseError>
    requires { size ≡ (M.keys map.old).shape.key_size }
{
    match call {
        "find" => find(alloc, map, size, rest),
        "claim" => claim(alloc, map, size, rest),
        "remove" => remove(alloc, map, size, rest),
        "next" => next(alloc, map, size, rest),
        "end" => {
            map.end_run();
            Ok(nothing(alloc))
        }
        _ => Err(CaseError::UnknownWord),
    }
}

/// The map on which the calls of the lines are; `None` before the first `map new`.
#[derive(Drop)]
pub struct OneMapPlayer {
    alloc: Global,
    map: Option<BpfMap>,
}

impl OneMapPlayer {
    /// A player of the lines `map CALL REST`, which test one map (`play`). At first it has no map: until `map new` makes one, any other
    /// line has the error `NoMap`. `alloc` is for the map and for the texts that `play` returns.
    pub fn new(alloc: Global) -> OneMapPlayer {
        OneMapPlayer { alloc, map: None }
    }

    /// Makes a new map, for the calls of the lines that follow. `shape` is the text `KIND:KEY:VALUE:MAX`: `array` or `hash`, the sizes of a
    /// key and of a value in bytes, and `max_entries`. A hash map gets a seed that is always the same, made of the numbers 1 and 2. Returns
    /// the empty text, since the line has no output. `Map` if the text means no shape, `Memory` if out of memory.
    fn begin(&mut self, shape: &str) -> Result<String, CaseError> {
        let shape = shape_of(self.alloc, shape)?;
        self.map = Some(BpfMap::new(self.alloc, shape, HashSeed::new(1, 2))?);
        Ok(nothing(self.alloc))
    }

    /// Plays a line `map CALL REST`, of which it gets `call` and `rest`, the text after it. `new` with a shape `KIND:KEY:VALUE:MAX` makes
    /// the map, which replaces the one before, and the result is the empty text. `find KEY`, `claim FLAGS KEY`, `remove KEY`, `next KEY` (or
    /// `next` for the first key) and `end` call the map's function, and the result is what it returns, as text (`play_call`); a key is hex
    /// digits in the notation of cases. `NoMap` before the first `new`; `UnknownWord` for another `call`; `Map` if `rest` is no shape;
    /// `Number` for wrong flags; `Notation`, `NoText`, `Digits` or `Size` for a wrong key (`bytes_of_size`). If out of memory, `Memory`, or
    /// `Digits` from the decoder of a key's digits.
    pub fn play(&mut self, call: &str, rest: &str) -> Result<String, CaseError> {
        if call == "new" {
            return self.begin(rest);
        }
        match &mut self.map {
            Some(BpfMap::Array(map)) => {
                let size = map.shape().key_size;
                play_call(self.alloc, map, size, call, rest)
            }
            Some(BpfMap::Hash(map)) => {
                let size = map.shape().key_size;
                play_call(self.alloc, map, size, call, rest)
            }
            None => Err(CaseError::NoMap),
        }
    }
}

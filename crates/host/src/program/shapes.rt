//! Map arguments: `FD:KIND:KEY:VALUE:MAX`.

ghost use Rattle.std.specs.Prelude.{◌≡◌, ◌≢◌, ◌↔◌, ◌∷◌, [], ◌<◌, false, length, true, IfNone, IfOk, IfSome, None, Ok, Some};
ghost use Rattle.clap.specs.Walk.{texts};
ghost use Rattle.host.specs.inside.program.Outcomes.{FailsOnly};
ghost use Rattle.host.specs.program.Shapes.{descriptor_number, has_descriptor, kind_name, AreMapArguments, IsMapArgument, IsShapeOf};
ghost use Rattle.host.specs.inside.program.MapFields.{map_fields, IsWrongMapArgument};
ghost use Rattle.tagged_model.specs.declared.shape.MapKind.{MapKind as AnyKind};
ghost use Rattle.tagged_model.specs.declared.shape.MapShape.{MapShape as AnyShape};
ghost use Rattle.tagged_model.specs.declared.shape.Named.{Named as AnyNamed};

use crate::program::decimal::decimal;
use crate::program::failure::Failure;
use fd_table::{FIRST, MOST};
use std::alloc::Global;
use tagged_model::{MapKind, MapShape, Named, Target};
use thiserror::Error;

/// The error for an argument that names no map. It has no reasons, since the fault line has only the number of the argument.
#[derive(Clone, Copy, Debug, PartialEq, Eq, Error)]
#[error("a map is named by FD:KIND:KEY:VALUE:MAX")]
pub struct BadShape;

/// The text before the first colon, and the text after it; `None` if there is no colon. `map_fields` lists the fields of a text, which
/// colons separate. `first`: the first result is the first field, and the fields of the second result are all others. `last`: a text
/// without a colon is its only field.
fn first_field(text: &str) -> Option<(&str, &str)>
    ensures first { IfSome result (λ cut. map_fields text.now ≡ cut.0.now ∷ map_fields cut.1.now) }
    ensures last { IfNone result (map_fields text.now ≡ text.now ∷ []) }
{
    text.split_once(':')
}

/// The texts before the first four colons of a map argument, `FD:KIND:KEY:VALUE:MAX`, and all the text after the fourth colon. `parts`: the
/// first four are fields of the argument (`map_fields` splits at each colon), and the fifth has the other fields. If it has a colon, and so
/// more than one field, it is rejected later, since a colon is no digit. `None` if the argument has fewer than four colons, and so fewer
/// than five fields (`few`).
fn five_fields(argument: &str) -> Option<(&str, &str, &str, &str, &str)>
    ensures parts { IfSome result (λ cut. map_fields argument.now
        ≡ cut.0.now ∷ cut.1.now ∷ cut.2.now ∷ cut.3.now ∷ map_fields cut.4.now) }
    ensures few { IfNone result (length (map_fields argument.now) < 5) }
{
    let (first, rest) = first_field(argument)?;
    let (second, rest) = first_field(rest)?;
    let (third, rest) = first_field(rest)?;
    let (fourth, fifth) = first_field(rest)?;
    Some((first, second, third, fourth, fifth))
}

/// The kind of maps with this name, `array` or `hash`; `None` for another name.
fn kind_named(name: &str) -> Option<MapKind>
    ensures named { IfSome result (λ kind. name.now ≡ kind_name kind) }
    ensures only { IfNone result ((kind : AnyKind) → name.now ≢ kind_name kind) }
{
    match name {
        "array" => Some(MapKind::Array),
        "hash" => Some(MapKind::Hash),
        _ => None,
    }
}

/// The shape that these four fields of a map argument spell (`written`), with flags 0. `None` if they spell none (`only`): if `kind` is
/// neither `array` nor `hash`, if another field is no decimal number below 2^32, or if a number is outside its limits. A key has 4 bytes in
/// an array and 1 to `LONGEST_KEY` in a hash map, a value 1 to `LONGEST_VALUE`; there are 1 to `MOST_ENTRIES` entries, whose values, each
/// rounded up to a multiple of eight bytes, take at most `LARGEST_AREA` bytes (`MapShape::new`).
fn shape_of(kind: &str, key_size: &str, value_size: &str, max_entries: &str) -> Option<MapShape>
    ensures written { IfSome result (λ shape.
        IsShapeOf shape kind.now key_size.now value_size.now max_entries.now) }
    ensures only { IfNone result ((shape : AnyShape)
        → ¬ (IsShapeOf shape kind.now key_size.now value_size.now max_entries.now)) }
{
    let kind = kind_named(kind)?;
    let key_size = decimal(key_size)?;
    let value_size = decimal(value_size)?;
    let max_entries = decimal(max_entries)?;
    MapShape::new(kind, key_size, value_size, max_entries, 0).ok()
}

/// The descriptor that a field of a map argument has in decimal digits. `None` if the field is empty or has another character than a digit,
/// or if the number is not from 3 to 66.
fn descriptor(field: &str) -> Option<u32>
    ensures { result ≡ descriptor_number field.now }
{
    let fd = decimal(field)?;
    if fd >= FIRST && fd < FIRST + MOST as u32 {
        Some(fd)
    } else {
        None
    }
}

/// The map that an argument names: `Some` of this map if `IsMapArgument` holds for it, and only then. An argument has five fields with
/// colons between them: a descriptor, one of the `MOST` numbers from `FIRST` on (3 to 66); `array` or `hash`; the sizes of a key and of a
/// value in bytes; and `max_entries`. Numbers are decimal digits. `None` for any other argument, or if no map may have this shape:
/// `MapShape::new` rejects a size or `max_entries` outside its limits, or values that take more than `LARGEST_AREA` bytes.
fn map_of(argument: &str) -> Option<Named>
    ensures { (map : AnyNamed) → (result ≡ Some map) ↔ IsMapArgument argument.now map }
{
    let (fd, kind, key_size, value_size, max_entries) = five_fields(argument)?;
    let shape = shape_of(kind, key_size, value_size, max_entries)?;
    let fd = descriptor(fd)?;
    Some(Named {
        fd,
        target: Target::Map(shape),
    })
}

/// The map that an argument names (`IsMapArgument`): a descriptor from 3 to 66, `array` or `hash`, the sizes of a key and of a value in
/// bytes, and `max_entries`. Colons separate the five fields; numbers are decimal digits, with or without leading zeros.
///
/// # Errors
///
/// `BadShape` for every other argument, and if no map may have this shape (`MapShape::new`): the key of an array has four bytes, that of a
/// hash map 1 to `LONGEST_KEY`, and a value 1 to `LONGEST_VALUE`; there are 1 to `MOST_ENTRIES` entries, and their values, each rounded up
/// to a multiple of eight bytes, take at most `LARGEST_AREA` bytes.
pub fn read_shape(argument: &str) -> Result<Named, BadShape>
    ensures { (map : AnyNamed) → (result ≡ Ok map) ↔ IsMapArgument argument.now map }
{
    map_of(argument).ok_or(BadShape)
}

/// Whether one of the maps has the descriptor `fd`: no further argument may then name a map at `fd` (`further_map`).
fn has_descriptor(maps: &[Named], fd: u32) -> bool
    ensures { result ≡ has_descriptor fd maps.now }
{
    maps.iter().any(|map| map.fd == fd)
}

/// The map that `argument` names, after arguments that name `maps`. `None` if it names no map, or one at a descriptor that one of `maps`
/// has. `named`: the argument names the map of the result, and none of `maps` has its descriptor. `only`: after `None`, if the argument
/// names a map, one of `maps` has its descriptor. `named_maps` calls this for each argument in turn, and reports the first with `None`.
fn further_map(maps: &[Named], argument: &str) -> Option<Named>
    ensures named { IfSome result (λ map. IsMapArgument argument.now map
        × (has_descriptor map.fd maps.now ≡ false)) }
    ensures only { IfNone result ((map : AnyNamed) → IsMapArgument argument.now map
        → has_descriptor map.fd maps.now ≡ true) }
{
    let map = read_shape(argument).ok()?;
    if has_descriptor(maps, map.fd) {
        None
    } else {
        Some(map)
    }
}

/// The maps that the arguments `FD:KIND:KEY:VALUE:MAX` name, in the order of the arguments (`named`). No two have the same descriptor.
///
/// # Errors
///
/// Only these (`wrong`): `MapArgument` with the number, from 1, of the first argument that names no map, or a map at the descriptor of an
/// earlier map; `Memory` if out of memory.
pub(crate) fn named_maps(alloc: Global, arguments: &[&str]) -> Result<Vec<Named>, Failure>
    ensures named { IfOk result (λ maps. AreMapArguments (texts arguments.now) maps.items) }
    ensures wrong { FailsOnly result (IsWrongMapArgument (texts arguments.now)) }
{
    let mut maps = Vec::new(alloc);
    for (index, argument) in arguments.iter().enumerate() {
        let Some(map) = further_map(&maps, argument) else {
            return Err(Failure::MapArgument(index + 1));
        };
        maps.push(map)?;
    }
    Ok(maps)
}

//! Worked cases of maps, and of the memory in which their values are. The crate `cases` has the notation.
//!
//! One map, by the calls of the trait `ValueMap`:
//!
//! | Line | Output |
//! |---|---|
//! | `map new KIND:KEY:VALUE:MAX` | nothing: a new map, for the lines that follow |
//! | `map find KEY` | the element of a key |
//! | `map claim FLAGS KEY` | whether an element is claimed for the key |
//! | `map remove KEY` | whether the key is removed |
//! | `map next KEY` | the key that follows this one, which may be left out |
//! | `map end` | nothing: the run ends |
//!
//! The live maps of a tenant, by the calls of `Maps`. MAP is a map's number, which `maps create` prints:
//!
//! | Line | Output |
//! |---|---|
//! | `maps new` | nothing: no live maps, in a part of zero bytes, for the lines that follow |
//! | `maps create KIND:KEY:VALUE:MAX HOLDS` | the number of a new map, to which HOLDS references are added, and the offset of its first value |
//! | `maps release MAP` | whether the map is still live |
//! | `maps shape MAP` | the shape of a map |
//! | `maps at MAP ELEMENT` | the offset of the value of an element |
//! | `maps find MAP KEY` | the value of a key |
//! | `maps claim MAP FLAGS KEY VALUE` | whether an element is claimed for the key; the value is written there |
//! | `maps remove MAP KEY`, `maps next MAP KEY`, `maps end MAP` | as for one map |
//! | `maps refused` | whether memory was ever refused to a new map |
//! | `maps run MAP PACKET TEXT` | the result of a test run of a program's text on this packet, with the map at descriptor 3 |
//!
//! A memory, by the calls of `Arena`. ADDRESS is a number, or after `+` the distance from the first address:
//!
//! | Line | Output |
//! |---|---|
//! | `memory new PARTS SIZE` | nothing: a new memory, for the lines that follow |
//! | `memory load ADDRESS SIZE` | the number of SIZE bytes at an address |
//! | `memory store ADDRESS SIZE VALUE` | whether it is stored |
//! | `memory copy TO FROM LENGTH` | whether the bytes are copied |
//! | `memory bytes ADDRESS COUNT` | these bytes, as numbers |
//!
//! The output of a call that fails is its fault.
#![tactic(auto)]

mod live_maps;
mod memory;
mod one_map;
mod outcomes;
mod player;
mod test_run;

use cases::play_lines;
use player::MapPlayer;
use std::io;

/// Plays the lines of standard input: writes each line, and below it its output or its error (`play_lines`). Fails only if memory for the
/// player is refused, or if standard input or output fails.
fn main(rt: HostRuntime) -> io::Result<()> {
    let mut player = MapPlayer::new(rt.alloc())?;
    play_lines(&rt, &mut player)
}

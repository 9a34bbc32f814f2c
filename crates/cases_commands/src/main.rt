//! Worked cases of frames and descriptors. The crate `cases` has the notation.
//!
//! | Line | Outcome |
//! |---|---|
//! | `head HEX` | the tenant and the command of a frame, which is what follows the length field |
//! | `parse HEX` | the command that a frame with a head carries, with its fields, or why it carries none |
//! | `reply TENANT COMMAND STATUS HEX` | the bytes of a reply with this payload, which may be left out |
//! | `place NUMBER..` | the descriptors of these numbers, which it opens |
//! | `get FD..` | what these descriptors name |
//! | `close FD..` | what these descriptors named before it closes them |
//! | `full` | whether no descriptor is free |
//!
//! Of more than 64 bytes an outcome has the first 16 and their number.
#![tactic(auto)]

mod bytes;
mod commands;
mod player;

use cases::play_lines;
use player::CommandPlayer;
use std::io;

/// Plays the lines of standard input: writes each line, and below it its outcome or its error (`play_lines`). Fails only if memory for the
/// player is refused, or if standard input or output fails.
fn main(rt: HostRuntime) -> io::Result<()> {
    let mut player = CommandPlayer::new(rt.alloc())?;
    play_lines(&rt, &mut player)
}

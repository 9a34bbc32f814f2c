//! Worked cases of the verifier's log. The crate `cases` has the notation.
//!
//! | Line | Outcome |
//! |---|---|
//! | `log TEXT` | the log of a program's text |
//! | `all TEXT` | the log of a program's text, with all that is known before each instruction |
//! | `dot TEXT` | the control flow of a program's text, for Graphviz |
//! | `run ARGUMENTS <TEXT` | how the program `verifier_log` ends on these arguments and this input |
//! | `map FD:KIND:KEY:VALUE:MAX` | from here on this descriptor names a map |
//! | `program FD` | from here on this descriptor names a program |
//! | `new` | from here on no descriptor is open |
#![tactic(auto)]

mod player;

use cases::play_lines;
use player::LogPlayer;
use std::io;

/// Plays the lines of standard input: writes each line, and below it its outcome or its error (`play_lines`). Fails only if standard input
/// or output fails.
fn main(rt: HostRuntime) -> io::Result<()> {
    let mut player = LogPlayer::new(rt.alloc());
    play_lines(&rt, &mut player)
}

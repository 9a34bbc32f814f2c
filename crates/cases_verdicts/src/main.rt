//! Worked cases of the verifier's verdicts. The crate `cases` has the notation.
//!
//! | Line | Outcome |
//! |---|---|
//! | `verify TEXT` | the verdict on a program's text |
//! | `start TEXT` | the verdict on a program that begins with this text, and then ends with `r0 = 0; exit` |
//! | `maps TEXT` | the maps that an accepted program loads, and its number of slots |
//! | `jumps AHEAD END` | the verdict on a program of 4,096 slots with a jump in every second one |
//! | `join FACTS \| FACTS` | what is known of register 0 and of the lowest stack slot after a join. FACTS are a kind, in the register and spilled in the slot if it is a pointer, or `bytes` and the mask of the bytes of the slot that are written |
//! | `map FD:KIND:KEY:VALUE:MAX` | from here on this descriptor names a map |
//! | `program FD` | from here on this descriptor names a program |
//! | `new` | from here on no descriptor is open |
#![tactic(auto)]

mod joins;
mod jumps;
mod player;

use cases::play_lines;
use player::VerdictPlayer;
use std::io;

/// Plays the lines of standard input: writes each line, and below it its outcome or its error (`play_lines`). Fails only if standard input
/// or output fails.
fn main(rt: HostRuntime) -> io::Result<()> {
    let mut player = VerdictPlayer::new(rt.alloc());
    play_lines(&rt, &mut player)
}

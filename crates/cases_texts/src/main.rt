//! Worked cases of instructions and programs, as bytes and as text. The crate `cases` has the notation.
//!
//! | Line | Outcome |
//! |---|---|
//! | `codec HEX` | the instruction at the front, the number of its slots, and its bytes as they are encoded |
//! | `dis HEX` | the text of the program |
//! | `places HEX` | what begins at each slot of the program, and after the last one |
//! | `exits COUNT` | the number of slots of a program of so many exits |
//! | `opcodes` | how many opcodes are the first byte of an instruction |
//! | `asm TEXT` | the hex lines of the program |
//! | `round TEXT` | the printed text of the program, if it is read again as the same program |
//! | `hex TEXT` | the slots of the hex lines |
//! | `program ARGUMENTS <TEXT` | how the command line of the host ends on these arguments and this input: status, output, fault |
//! | `map FD:KIND:KEY:VALUE:MAX` | the map that an argument names |
#![tactic(auto)]

mod arguments;
mod bytes;
mod player;
mod texts;

use cases::play_lines;
use player::TextPlayer;
use std::io;

/// Plays the lines of standard input (`play_lines`): writes each line, and below a case its outcome or its error, to standard output. The
/// crate's file `stdout` has the expected output. The error is that of the stream that failed.
fn main(rt: HostRuntime) -> io::Result<()> {
    let mut player = TextPlayer::new(rt.alloc());
    play_lines(&rt, &mut player)
}

//! Worked cases over frames and streams of them. The crate `cases` has the notation.
//!
//! | Line | Outcome |
//! |---|---|
//! | `new TENANTS` | nothing: a new host, for the lines that follow |
//! | `words HEX` | nothing: the context words of the runs that follow; zeros at first |
//! | `frame HEX` | the reply to a frame, which is what follows the length field |
//! | `create TENANT TYPE KEY VALUE MAX FLAGS` | the reply to MAP_CREATE |
//! | `lookup TENANT FD HEX`, `delete TENANT FD HEX`, `next TENANT FD HEX` | the reply to MAP_LOOKUP_ELEM, MAP_DELETE_ELEM and MAP_GET_NEXT_KEY with this key, which may be left out |
//! | `update TENANT FD FLAGS HEX` | the reply to MAP_UPDATE_ELEM with this key and value |
//! | `close TENANT FD` | the reply to CLOSE |
//! | `load TENANT TEXT` | the reply to PROG_LOAD of a program's text |
//! | `slots TENANT HEX` | the reply to PROG_LOAD of these slots |
//! | `run TENANT FD HEX` | the reply to PROG_TEST_RUN with this packet, which may be left out |
//! | `rounds COUNT LINES` | the replies to lines that are played COUNT times, with ` | ` between them, if they are the same each time |
//! | `stream TENANTS LIMIT HEX` | how `serve` ends on these bytes in a new host, and below it what it wrote |
//! | `cut TENANTS LIMIT COUNT HEX` | how `serve` ends on the first COUNT of these bytes in a new host, and below it what it wrote |
//! | `relay HEX` | how many bytes a reader of these gives at once, with room for four, how many of them a writer takes, and what it has then |
//! | `program ARGUMENTS <HEX` | how the program ends on these arguments and this input. The argument `""` is empty |
#![tactic(auto)]

mod player;
mod streams;

use cases::play_lines;
use player::HostPlayer;
use std::io;

/// Runs the worked cases on standard input (the head of this file lists their lines): writes each line, and below it its outcome or its
/// error (`play_lines`). The cases begin with a new host for one tenant, and with zeros as the context words of its test runs. Fails only
/// if out of memory for the host and these words, or if standard input or output fails.
fn main(rt: HostRuntime) -> io::Result<()> {
    let mut player = HostPlayer::new(rt.alloc())?;
    play_lines(&rt, &mut player)
}

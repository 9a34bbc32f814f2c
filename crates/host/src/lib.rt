//! The command line of the host: its subcommands, their arguments and texts. It re-exports `host_core`, the host itself.
//!
//! # What is proved
//!
//! - Arguments that cannot be read end the program with the status of out of memory or of wrong arguments, depending on the
//!   error: `memory`, `wrong` of `refuse_unread_words`.
//! - An argument names a map exactly if it has five fields joined by colons: a descriptor from 3 to 66 and the shape of a map,
//!   with numbers taken by value: `read_shape`.
//! - The exit status is 0 to 4. It is 2 only if the arguments are wrong, which includes an argument that names no map. Wrong
//!   arguments end with 2, or with 4 if memory is refused: `range`, `wrong`, `refused` of `run_words`.
//! - If the bytes of the input are known, `verify` exits with 0 only if they are hex lines of a program that is accepted with
//!   the maps of the arguments: `accepted` of `run_words`.
//! - `serve`: the private `serve_frames`, over readers and writers, serves the frames with the public `serve_new_host`, at most
//!   `most_frames` of them, and the exit status is that of the stream.
//! - `asm` and `dis`: the private `rewrite`, over readers and writers whose bytes contracts see, writes the hex lines of the
//!   program whose text it reads, or the text of the program whose hex lines it reads; its contract defines the failure for
//!   each other input. `run_words` consumes the streams, so its own contract cannot describe the output. That it calls
//!   `rewrite` is read in the code, and worked cases show it.
//! - `verify`: the private `judge` writes `accepted` if the program is accepted with the maps, and otherwise `refused: slot S
//!   reason R` with the first fault of the codec, plus 100, or the reason of the verdict. If the input is too long or is no hex
//!   lines, it writes nothing. Each input has exactly one such line by the contract of `refusal_of_input` and the law
//!   `one_judgement` of `verifier`. `named_maps` returns the number of the first wrong argument, or the maps of all arguments,
//!   no two with the same descriptor.
//!
//! # Decisions
//!
//! - Decimal digits are taken by value, leading zeros included; a sign is wrong. One parser (`decimal`) serves `--tenants` and
//!   map arguments. Options for help and version are wrong arguments.
//! - `asm` and `dis` read one byte more than the longest input, so that a longer one is rejected for its length before it is
//!   rejected for not being text. Each run allocates one mebibyte once. An interrupted read is a read fault, as in a stream.
//! - On a fault nothing is written to the output, except what was written before a write failed.
//! - A verdict of `verify` is output and not a fault: a rejected program is reported on standard output with status 1. Slots
//!   that the codec rejects are reported in the same way, with 100 added to the number of the fault; a line that is no slot is
//!   a fault line, since there is no program.
//! - `verify` applies the limits of one map to each map, and no limit to their number or sum: it verifies one program, and
//!   there is no tenant.
//! - Map arguments are read in order, before the input, and the first wrong one is reported. If two have the same descriptor,
//!   the later one is wrong, so `3:array:4:8:1 003:hash:4:8:1` is wrong at its second argument. Errors of clap are reported
//!   before them. The fault line has only the number of the argument, so `BadShape` has no reasons.
//! - The definition of a map argument is its spelling, five fields joined by colons. Its limits are those of `MapShape` and of
//!   the table of descriptors.
//! - The command line is a crate above `host_core`. `asm`, `dis` and `verify` read and write with the calls that serve frames,
//!   so `fill` and `write_whole` are public there, with the errors `Read` and `Write`.
//! - The program draws the seed of the hash maps when it starts, and `serve` without one ends with `no random seed` before it
//!   reads anything, with the status of other failing system calls. Every other source of a seed can be guessed or seen: the
//!   time, an argument (visible to each user of the machine), an address (which no contract may see). The other subcommands
//!   need no seed.
#![tactic(auto)]

mod program;

pub use host_core::{
    Counted, HashSeed, Host, LONGEST_REPLY, MOST_FRAMES, MOST_TENANTS, ReplyBuf, ServeFault,
    ServeFaultKind, Sink, Source, laws, serve, serve_new_host,
};
pub use program::arguments::{refuse_unread_words, run_words};
pub use program::failure::Failure;
pub use program::inputs::{hex_slots, maps_of_arguments, text_program, whole_input};
pub use program::shapes::{BadShape, read_shape};

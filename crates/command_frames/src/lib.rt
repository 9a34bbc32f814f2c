//! Frames: the tenant of a frame, the command that it carries, and the bytes of replies.
//!
//! # What is proved
//!
//! - The head of a frame is the two numbers in its first four bytes; fewer bytes have no head: `head`.
//! - The command of a frame, with its fields, is that of the table (`specs/Command.antt`, a definition by command number).
//!   Otherwise the error is the first that applies: the frame is too long, no command has its number, its body has another
//!   length: `parse`.
//! - The frame of a command has the bytes from which it is parsed: `write_command`. Encoding inverts parsing, both ways: the frame of a
//!   command is parsed as this command, and a frame that is parsed as a command is the frame of this command to its owner:
//!   `encoding_inverts_parsing`, `frames_have_owners`.
//! - After a reply is written, the buffer holds its bytes, whatever it held before: `write_reply`, `write_number`, `bytes` of
//!   `ReplyBuf`.
//! - A reply has at most 4,108 bytes: `bound` of `bytes` and of `into_vec` of `ReplyBuf`.
//! - Bytes split in exactly one way into a list of frames and a rest that is no whole frame; whole frames in front are the
//!   first of these: `each_is_stream`, `one_stream`, `frames_in_front`.
//! - Bytes begin with at most one reply: they determine its tenant, command, status and payload: `one_reply_in_front`.
//!
//! `cases_commands` has cases of each command, accepted and rejected. The expected results were written from the protocol.
//!
//! # Decisions
//!
//! - The grammar of streams and replies is defined here, next to the code that reads and writes them; the definitions of the
//!   host cite it.
//! - Tenant and command numbers stay 16 bits in a reply, as in the frame. The reply to a frame without a head has 65535 in
//!   both.
//! - The order of the errors of a frame (too long, unknown, body) and the number of CLOSE are this project's own.
//! - `parse` copies only numbers; keys, values, slots and packets are slices of the frame. Contracts see a command as a value
//!   of its own (`Command`), since an enum that borrows has references in it; `shown_command` relates the two.
//! - Numbers of frames are read with `byteorder`; those of replies are written with std's `to_le_bytes`, which need no length
//!   check.
#![tactic(auto)]

mod body;
mod command;
mod encoding;
mod frame;
pub mod laws;
mod reply;

pub use command::{BadFrame, Command, Head};
pub use encoding::write_command;
pub use frame::{HEAD_LENGTH, LONGEST_FRAME, head, parse};
pub use reply::{LONGEST_PAYLOAD, LONGEST_REPLY, ReplyBuf, write_number, write_reply};
pub use words::GIVEN_WORDS;

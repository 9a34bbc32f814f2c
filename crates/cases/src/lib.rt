//! Worked cases as data: the notation of their lines, the error that a line may have, and the loop that plays the lines
//! of standard input.
//!
//! Each line is a case: its first word says what is done with the rest. It is written unchanged, and its outcome below it,
//! indented by two blanks. A line that is empty or begins with `#` is a remark, and has no outcome.
//!
//! | Notation | Means |
//! |---|---|
//! | `;` in a text | a line feed |
//! | `\xHH` in a text | the byte with these two hex digits |
//! | `{COUNT*PART}` | the part COUNT times, in which each `#` is the number of repetitions before, from 0 on |
//! | hex digits | bytes; blanks may separate them |
//! | `FD:KIND:KEY:VALUE:MAX` | a map at a descriptor, as the arguments of `verify` name it; `KIND:KEY:VALUE:MAX` is its shape |
//!
//! Texts in outcomes have this notation too. Of a program that is run, the outcome is its status, and below it the lines of
//! its output and of its fault.
#![tactic(auto)]

mod case_error;
mod descriptors;
mod endings;
mod lines;
mod notation;
mod playing;

pub use case_error::CaseError;
pub use descriptors::{Descriptors, shape_of};
pub use endings::outcome;
pub use lines::{first_word, input_of, is_remark};
pub use notation::{GROUP, bytes_of, bytes_of_size, hex_groups, shown, text_of, times, written};
pub use playing::{Player, play_lines};

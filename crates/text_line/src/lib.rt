//! One line of a program's text: its tokens, the forms that it may have, and the instruction that it represents.
//!
//! # What is proved
//!
//! - A line of a text is parsed as what its tokens spell in the table of forms; it has none of the forms exactly if they spell
//!   none: `read_line`.
//! - A line has one reading; each of its tokens is the longest with which the rest of the line begins (`BeginsWith`):
//!   `one_reading`, `read_line`.
//! - The instruction of a form is the one with this written form, with a distance in place of a label; there is none exactly if
//!   a number is out of its range: `found`, `fits`, `none` of `Form::insn`.
//! - Instructions with the same written form are equal: `one_instruction`.
//! - The written form of an instruction has its numbers in their ranges and names no label: `written_in_range`.
//! - Its text is one line, which is parsed as this instruction: `printed_is_read`.
//!
//! # Decisions
//!
//! - A token is the longest with which the text begins. So the order in which the parser tries symbols, names and numbers is no
//!   part of the grammar.
//! - The grammar of a line and its parser are the larger half of the assembler and depend only on instructions, so they are a
//!   crate of their own.
//! - A form is one of seven groups, by what is written alike, though there are fifteen instructions. So a definition or a
//!   proof has a case for each group.
//! - Numbers from 2^64 on have no value, since no field can hold one: such a number is out of each range.
#![tactic(auto)]

mod blanks;
mod fields;
mod form;
pub mod laws;
mod line;
mod names;
mod parts;
mod reader;
mod token;

pub use blanks::stripped;
pub use form::{
    Access, Address, Form, JumpTarget, Line, Number, Operation, SourceOperand, WideValue,
};
pub use reader::read_line;

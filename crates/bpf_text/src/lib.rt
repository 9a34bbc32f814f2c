//! Programs as text: the assembler, the disassembler, and slots as lines of hex digits.
//!
//! # What is proved
//!
//! - A text is assembled exactly if its lines are a program's instructions, unless memory is refused: `ok`, `only` of
//!   `assemble`. Otherwise the fault is that of the first line that has one, the lowest kind that it has; Empty only if no line
//!   has a fault: `fault`, `faulty` of `assemble`, `program_has_no_fault`, `at_most_one_fault`.
//! - A text has at most one program: `one_program`.
//! - The text of a program is the text of each instruction, in the order of the slots, and a line feed after each:
//!   `disassemble`. This text assembles to this program, so to no other: `program` of `disassemble`,
//!   `printed_text_is_assembled`, `one_program`.
//! - The hex lines of a program are its bytes, a slot on each line: `hex_lines`.
//! - Hex lines are read exactly if a text is hex lines of 1 to 4,096 slots, unless memory is refused: `found`, `only` of
//!   `from_hex_lines`. Otherwise the fault is that of the first line that has one; Empty only if no line has a fault: `fault`,
//!   `faulty` of `from_hex_lines`.
//! - The hex lines of a program are read as its slots, and a text is the hex lines of one list of slots: `hex_lines_are_read`,
//!   `hex_slots_are_read`, `one_hex_text`.
//!
//! # Decisions
//!
//! The definition of a label is kept in a map, so that each jump finds its label with one look-up. A label that is defined twice is
//! the first one; the second definition is a fault.
#![tactic(auto)]

mod assembler;
mod disassembler;
mod fault;
mod hexadecimal;
mod known_answers;
pub mod laws;
mod lines;

pub use assembler::assemble;
pub use disassembler::{disassemble, write_insn};
pub use fault::{TextFault, TextFaultKind};
pub use hexadecimal::{from_hex_lines, hex_lines};

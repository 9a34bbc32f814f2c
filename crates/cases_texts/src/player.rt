//! Plays lines, each by itself.

use crate::arguments::{printed_map, program_ended};
use crate::bytes::{decoded, disassembled, known_opcodes, made_of_exits, places};
use crate::texts::{assembled, printed, read_hex_lines};
use cases::{CaseError, Player, first_word};
use std::alloc::Global;

/// A player of lines that do not depend on each other.
#[derive(Drop)]
pub struct TextPlayer {
    alloc: Global,
}

impl TextPlayer {
    /// A player of this crate's cases. It keeps nothing from one line to the next: its only field is the allocator for all lines.
    pub fn new(alloc: Global) -> TextPlayer {
        TextPlayer { alloc }
    }
}

impl Player for TextPlayer {
    /// Plays a line: the first word selects the function that makes the line's outcome from the text after this word. `codec` decodes an
    /// instruction and encodes it again, and shows it with the number of its slots and its bytes. `dis` disassembles a program, given in
    /// hex digits. The word `places` shows for each slot of such a program, and for the slot after its last one, the
    /// instruction that begins there, or `none`. `exits` makes a program of a number of exits. `opcodes` counts the opcodes that
    /// instructions have, and reads no text. `asm` assembles a program's text to hex lines, each with the sixteen hex digits of a slot.
    /// `round` also disassembles the program, and assembles that text again. `hex` reads hex lines, and shows the bytes of their slots.
    /// `program` runs the command line of `host`, and shows the exit status, the output and the fault line. `map` reads an argument for a
    /// map, and shows the descriptor and the shape. `UnknownWord` for any other word; the other errors are those of the function.
    fn play(&mut self, line: &str) -> Result<String, CaseError> {
        let (word, rest) = first_word(line);
        match word {
            "codec" => decoded(self.alloc, rest),
            "dis" => disassembled(self.alloc, rest),
            "places" => places(self.alloc, rest),
            "exits" => made_of_exits(self.alloc, rest),
            "opcodes" => known_opcodes(self.alloc),
            "asm" => assembled(self.alloc, rest),
            "round" => printed(self.alloc, rest),
            "hex" => read_hex_lines(self.alloc, rest),
            "program" => program_ended(self.alloc, rest),
            "map" => printed_map(self.alloc, rest),
            _ => Err(CaseError::UnknownWord),
        }
    }
}

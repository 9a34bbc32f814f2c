//! Plays lines with the descriptors that are open.

use crate::joins::joined;
use crate::jumps::jumping;
use bpf_text::assemble;
use cases::{CaseError, Descriptors, Player, first_word, text_of, written};
use std::alloc::Global;
use verifier::{Verified, verify};

/// The descriptors that programs are verified with.
#[derive(Drop)]
pub struct VerdictPlayer {
    alloc: Global,
    descriptors: Descriptors,
}

impl VerdictPlayer {
    /// Makes the player of a file of worked cases, which runs one line after another (`play`). No descriptor is open for the programs until
    /// a line `map` or `program` opens one. Programs and texts take memory from `alloc`.
    pub fn new(alloc: Global) -> VerdictPlayer {
        VerdictPlayer {
            alloc,
            descriptors: Descriptors::new(alloc),
        }
    }

    /// The verified program to which `text` assembles, if `text` is in the notation of cases. `Notation` if `text` breaks the rules of this
    /// notation, `Digits` if the two bytes after a `\x` are no hex digits (`written`), `NoText` if the bytes that it gives are not UTF-8,
    /// `Text` if these do not assemble, `Refused` if the program is rejected with the descriptors that earlier lines opened. Out of memory
    /// is `Memory`, but `Text` in the assembler and `Refused` in the verifier.
    fn accepted(&self, text: &str) -> Result<Verified, CaseError> {
        let text = written(self.alloc, text)?;
        let program = assemble(self.alloc, text_of(&text)?)?;
        Ok(verify(self.alloc, &program, self.descriptors.named())?)
    }

    /// The word `accepted` if the program to which `text` assembles is accepted with the open descriptors; `Refused`, with slot and reason,
    /// if it is rejected. `Notation` or `Digits` if `text` is not in the notation of cases, in which `;` is a line feed; `NoText` if the
    /// bytes that `text` gives are not UTF-8, `Text` if they do not assemble. Out of memory is `Text` from the assembler, `Refused` from
    /// the verifier, else `Memory`.
    fn verdict(&self, text: &str) -> Result<String, CaseError> {
        self.accepted(text)?;
        Ok("accepted".to_string(self.alloc)?)
    }

    /// Verifies the program that has the instructions of `text`, in the notation of cases, and then `r0 = 0; exit`, which a case thus need
    /// not have. Returns the word `accepted` if it is accepted; `Refused`, with slot and reason, if it is rejected. `Notation`, `Digits` or
    /// `NoText` if `text` is not in this notation, `Text` if the program does not assemble. Out of memory is `Text` from the assembler,
    /// `Refused` from the verifier, else `Memory`.
    fn verdict_with_exit(&self, text: &str) -> Result<String, CaseError> {
        let whole = format!(in self.alloc; "{text}; r0 = 0; exit")?;
        self.verdict(whole.as_str())
    }

    /// Verifies a program of `MAX_SLOTS` slots, the most that a program may have, so that cases show the verdict on a longest program with
    /// many jumps (`jumping`). The program is a load of a word of the context, 2,047 conditional jumps, each with a move after it, and an
    /// instruction in the last slot. `text` is a number and this instruction, in the notation of cases. Each jump skips this number of
    /// slots, or all slots before the last one if these are fewer. Returns the word `accepted`; `Refused`, with slot and reason, if the
    /// program is rejected; `Number` if the first word of `text` is no number; `Notation`, `Digits` or `NoText` if the instruction is not
    /// in this notation, `Text` if the program does not assemble. Out of memory is `Text` from the assembler, `Refused` from the verifier,
    /// else `Memory`.
    fn verdict_of_longest(&self, text: &str) -> Result<String, CaseError> {
        let (ahead, end) = first_word(text);
        let whole = jumping(self.alloc, ahead.parse()?, end)?;
        self.verdict(whole.as_str())
    }

    /// The maps and the size of the program to which `text` assembles, as `maps [4, 3] slots 8`. The maps are the descriptors by which the
    /// program loads a map or a value of a map, each once, in the order of their first loads; the size is in slots, two for a wide load.
    /// `Refused`, with slot and reason, if the program is rejected with the open descriptors; `Notation` or `Digits` if `text` is not in
    /// the notation of cases, `NoText` if its bytes are not UTF-8, `Text` if it does not assemble, `Memory` if out of memory.
    fn maps(&self, text: &str) -> Result<String, CaseError> {
        let verified = self.accepted(text)?;
        let maps = verified.maps();
        let slots = verified.program().slots();
        Ok(format!(in self.alloc; "maps {maps:?} slots {slots}")?)
    }
}

impl Player for VerdictPlayer {
    // Plays a line by its first word. The outcome of `verify`, `start` and `jumps` is the verdict on a program: the text after the word
    // (`verify`), this text and then `r0 = 0; exit` (`start`), or one of `MAX_SLOTS` slots with a jump in every second one (`jumps`). The
    // outcome of `maps` is the maps and the number of slots of an accepted program, that of `join` a join of facts; `map`, `program` and
    // `new` change the open descriptors. The head of `main.rt` has a table of these lines. The errors are those of the called function, and
    // `UnknownWord` for any other first word.
    fn play(&mut self, line: &str) -> Result<String, CaseError> {
        let (word, rest) = first_word(line);
        match word {
            "verify" => self.verdict(rest),
            "start" => self.verdict_with_exit(rest),
            "jumps" => self.verdict_of_longest(rest),
            "maps" => self.maps(rest),
            "join" => joined(self.alloc, rest),
            // Opens a descriptor, or closes all for the word `new`. `UnknownWord` for any other word.
            _ => self.descriptors.play(line),
        }
    }
}

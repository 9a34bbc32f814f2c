//! Plays lines one after another.

use crate::bytes::shown;
use crate::commands::{head_line, parse_line};
use cases::{CaseError, Player, bytes_of, first_word};
use command_frames::{Head, LONGEST_PAYLOAD, ReplyBuf, write_reply};
use fd_table::FdTable;
use std::alloc::{AllocError, Global};

/// A table of descriptors, each of which names a number, and the buffer for replies.
#[derive(Drop)]
pub struct CommandPlayer {
    alloc: Global,
    numbers: FdTable<u32>,
    room: ReplyBuf,
}

impl CommandPlayer {
    /// Makes the player, which executes the lines of a file of cases. Its table of descriptors (`numbers`) is empty; a line can open
    /// descriptors, which name plain numbers in this table, no maps or programs. `room` is the buffer into which a line's reply is written.
    /// `AllocError`: out of memory.
    pub fn new(alloc: Global) -> Result<CommandPlayer, AllocError> {
        Ok(CommandPlayer {
            alloc,
            numbers: FdTable::new(alloc)?,
            room: ReplyBuf::new(alloc)?,
        })
    }

    /// Plays the line `reply TENANT COMMAND STATUS HEX` of a file of cases; `rest` is what follows `reply`. Returns the bytes of a reply
    /// with these three numbers and the payload HEX (`write_reply`), as hex digits; of more than 64 bytes the first 16 and their number
    /// (`shown`). In HEX, which may be missing, spaces are left out, and digits may be written as a repetition `{COUNT*PART}` or by escapes
    /// `\xHH`. The error is the first that applies: `Number` if the tenant or the command is no number of 16 bits; `Notation` or `Digits`
    /// if a repetition or an escape in HEX is malformed, `NoText` if HEX gives bytes that are not UTF-8, `Digits` if these are not an even
    /// number of hex digits; `OutOfRange` if the payload is longer than `LONGEST_PAYLOAD`; `Number` if the status is no signed number of 32
    /// bits. If out of memory, the error is `Memory`, or `Digits` from the decoder of the digits.
    fn reply(&mut self, rest: &str) -> Result<String, CaseError> {
        let (tenant, rest) = first_word(rest);
        let (command, rest) = first_word(rest);
        let (status, digits) = first_word(rest);
        let head = Head {
            tenant: tenant.parse()?,
            command: command.parse()?,
        };
        let payload = bytes_of(self.alloc, digits)?;
        if payload.len() > LONGEST_PAYLOAD {
            return Err(CaseError::OutOfRange);
        }
        write_reply(head, status.parse()?, &payload, &mut self.room);
        Ok(shown(self.alloc, self.room.bytes())?)
    }

    /// Opens the lowest free descriptor of the player's table (`FdTable`), which then names `number`: in this table descriptors name plain
    /// numbers, no maps or programs. Returns the descriptor as decimal text. If none is free, the table returns `number` as its error, and
    /// the result is this number with the words `is handed back`. `AllocError`: out of memory for the text; the descriptor, if one was
    /// free, is open then, too.
    fn place(&mut self, number: u32) -> Result<String, AllocError> {
        match self.numbers.place(number) {
            Ok(fd) => fd.to_string(self.alloc),
            Err(number) => format!(in self.alloc; "{number} is handed back"),
        }
    }

    /// The number that descriptor `fd` names, as decimal text; the text `nothing` if `fd` is not open. In the table of this player
    /// descriptors name plain numbers, no maps or programs. `AllocError`: out of memory for the text.
    fn get(&self, fd: u32) -> Result<String, AllocError> {
        match self.numbers.get(fd) {
            Some(number) => number.to_string(self.alloc),
            None => "nothing".to_string(self.alloc),
        }
    }

    /// Closes descriptor `fd`, and returns, as decimal text, the number that `fd` named: in the table of this player descriptors name plain
    /// numbers, no maps or programs. Returns the text `nothing` if `fd` was not open. `AllocError`: out of memory for the text; `fd` is
    /// closed then, too.
    fn close(&mut self, fd: u32) -> Result<String, AllocError> {
        match self.numbers.close(fd) {
            Some(number) => number.to_string(self.alloc),
            None => "nothing".to_string(self.alloc),
        }
    }

    /// Calls the function that `word` names for each number in `rest`, and returns the texts that these calls return, with commas between
    /// them. `place` opens a descriptor, which then names the number, and returns the descriptor; if none is free, it returns the text that
    /// the number is handed back. For `get` and `close` the number is a descriptor: both return the number that it names, or `nothing`, and
    /// `close` also closes it. `play` gives only these three words, so the last arm is that of `close`. The error is `Number` if a part of
    /// `rest` between blanks is no number of 32 bits, `Memory` if out of memory. Calls before an error are not undone.
    fn each(&mut self, word: &str, rest: &str) -> Result<String, CaseError> {
        let mut text = String::new(self.alloc);
        for number in rest.split_whitespace() {
            let number = number.parse()?;
            let answer = match word {
                "place" => self.place(number)?,
                "get" => self.get(number)?,
                _ => self.close(number)?,
            };
            if !text.is_empty() {
                text.push_str(", ")?;
            }
            text.push_str(&answer)?;
        }
        Ok(text)
    }
}

impl Player for CommandPlayer {
    // Plays a line and returns its outcome as text. Its first word selects what is called, with the rest of the line. `head` and `parse`
    // take a frame in hex digits: `head` returns the tenant and the command number, `parse` the command with its fields, or why it has
    // none. `reply` takes a tenant, a command number, a status and a payload, and returns the hex digits of this reply. `place` takes
    // numbers: for each it opens the lowest free descriptor, which then names the number, and returns this descriptor, or that the number
    // is handed back. `get` and `close` take descriptors, and return the numbers that these name, or `nothing`; `close` also closes them.
    // `full` returns `true` if no descriptor is free, else `false`, and does not read the rest. `UnknownWord` for any other word; the other
    // errors are those of the function that is called, and out of memory.
    fn play(&mut self, line: &str) -> Result<String, CaseError> {
        let (word, rest) = first_word(line);
        match word {
            "head" => head_line(self.alloc, rest),
            "parse" => parse_line(self.alloc, rest),
            "reply" => self.reply(rest),
            "place" | "get" | "close" => self.each(word, rest),
            "full" => Ok(self.numbers.is_full().to_string(self.alloc)?),
            _ => Err(CaseError::UnknownWord),
        }
    }
}

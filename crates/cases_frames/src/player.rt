//! Plays lines on a host.

use crate::streams::{cut, program, relay, stream};
use bpf_text::assemble;
use cases::{CaseError, GROUP, Player, bytes_of, first_word, hex_groups, text_of, written};
use host::{HashSeed, Host, MOST_TENANTS, ReplyBuf};
use insn_codec::write_program;
use std::alloc::{AllocError, Global};

/// The number of MAP_CREATE in frames, as in bpf(2).
const MAP_CREATE: u16 = 0;

/// The number of MAP_LOOKUP_ELEM in frames, as in bpf(2).
const MAP_LOOKUP_ELEM: u16 = 1;

/// The number of MAP_UPDATE_ELEM in frames, as in bpf(2).
const MAP_UPDATE_ELEM: u16 = 2;

/// The number of MAP_DELETE_ELEM in frames, as in bpf(2).
const MAP_DELETE_ELEM: u16 = 3;

/// The number of MAP_GET_NEXT_KEY in frames, as in bpf(2).
const MAP_GET_NEXT_KEY: u16 = 4;

/// The number of PROG_LOAD in frames, as in bpf(2).
const PROG_LOAD: u16 = 5;

/// The number of PROG_TEST_RUN in frames, as in bpf(2).
const PROG_TEST_RUN: u16 = 10;

/// The number of CLOSE in frames, which is no command of bpf(2).
const CLOSE: u16 = 256;

/// A program type of PROG_LOAD: BPF_PROG_TYPE_SOCKET_FILTER of bpf(2).
const SOCKET_FILTER: u32 = 1;

/// The length in bytes of the context words that a frame of PROG_TEST_RUN has: ten of the eleven, as the host writes the packet's length.
const WORDS: usize = 40;

/// A new host for as many tenants as the decimal number `tenants` says. The two words of the seed of its hash maps are always 1 and 2, so
/// that a case is played alike each time; what a map returns does not depend on them, only the time that it takes does. `Number` if
/// `tenants` is no number, `OutOfRange` if it is not from 1 to `MOST_TENANTS`, 64, `Memory` if out of memory.
pub fn new_host(alloc: Global, tenants: &str) -> Result<Host, CaseError> {
    let tenants: usize = tenants.parse()?;
    if tenants < 1 || tenants > MOST_TENANTS {
        return Err(CaseError::OutOfRange);
    }
    Ok(Host::new(alloc, tenants, HashSeed::new(1, 2))?)
}

/// A frame without its length field, for a command whose body begins with a number: a descriptor, the kind of a map or the type of a
/// program. It has the tenant and the command in two bytes each, `number` in four, all little-endian, and then `rest`, the other bytes of
/// the body. `AllocError`: out of memory.
fn frame(
    alloc: Global,
    tenant: u16,
    command: u16,
    number: u32,
    rest: &[u8],
) -> Result<Vec<u8>, AllocError> {
    let mut frame = Vec::new(alloc);
    frame.extend_from_slice(&tenant.to_le_bytes())?;
    frame.extend_from_slice(&command.to_le_bytes())?;
    frame.extend_from_slice(&number.to_le_bytes())?;
    frame.extend_from_slice(rest)?;
    Ok(frame)
}

/// The bytes of numbers as the body of a frame has them: four bytes for each number, little-endian. `words` has the numbers in decimal
/// digits, with white space between them. `Number` if a word is no number of 32 bits, `Memory` if out of memory.
fn numbers(alloc: Global, words: &str) -> Result<Vec<u8>, CaseError> {
    let mut bytes = Vec::new(alloc);
    for word in words.split_whitespace() {
        let number: u32 = word.parse()?;
        bytes.extend_from_slice(&number.to_le_bytes())?;
    }
    Ok(bytes)
}

/// The bytes of `front`, then those of the hex digits that `digits` gives in the notation of cases (`bytes_of`): spaces are left out, a
/// repetition `{2*0a}` gives `0a0a`, and an escape `\xHH` the byte with the hex digits HH. `front` has the flags of an update, which
/// precede its key and value in the frame, or the context words of a run, which precede its packet. `Notation` if a repetition is wrong or
/// two bytes can't be split off after a `\x`; `NoText` if what `digits` gives is not UTF-8; `Digits` if a character, but for spaces, or one
/// after a `\x` is no hex digit, or the number of digits is odd. Out of memory is `Digits` in the decoder of the digits, else `Memory`.
fn prefixed_bytes(alloc: Global, front: &[u8], digits: &str) -> Result<Vec<u8>, CaseError> {
    let rest = bytes_of(alloc, digits)?;
    let mut bytes = Vec::new(alloc);
    bytes.extend_from_slice(front)?;
    bytes.extend_from_slice(&rest)?;
    Ok(bytes)
}

/// The bytes of a program's slots. `text` is the program's text in the notation of cases, and `written` gives the text that is assembled:
/// it has a line feed for `;`, the byte with these two hex digits for `\xHH`, and for `{COUNT*PART}` PART, COUNT times, in which each `#`
/// is the number of repetitions before. The errors, in this order: `Notation` if a repetition is wrong or two bytes can't be split off
/// after a `\x`, or `Digits` if these are no hex digits; `NoText` if the bytes that `written` returns are not UTF-8; `Text` if the
/// resulting text does not assemble. If out of memory, the error is `Memory`, or `Text` from the assembler.
fn slots_of(alloc: Global, text: &str) -> Result<Vec<u8>, CaseError> {
    let text = written(alloc, text)?;
    let program = assemble(alloc, text_of(&text)?)?;
    Ok(write_program(alloc, &program)?)
}

/// The host on which lines are played, and the bytes of the context words of its runs, as a frame has them.
#[derive(Drop)]
pub struct HostPlayer {
    alloc: Global,
    host: Host,
    words: Vec<u8>,
}

impl HostPlayer {
    /// A player of the lines of a file of cases. It has a new host for one tenant, until a line `new` replaces the host; and zeros as the
    /// `WORDS` bytes of the context words of runs, until a line `words` sets others. The seed of the host's hash maps is always the same,
    /// so the lines are played alike each time. `AllocError`: out of memory.
    pub fn new(alloc: Global) -> Result<HostPlayer, AllocError> {
        Ok(HostPlayer {
            alloc,
            host: Host::new(alloc, 1, HashSeed::new(1, 2))?,
            words: vec![in alloc; 0; WORDS]?,
        })
    }

    /// Lets the host handle a frame, which has no length field here, and returns the reply, with its length field, as hex digits in groups
    /// of `GROUP` bytes. `AllocError`: out of memory for the reply's buffer or for the digits.
    fn reply(&mut self, frame: &[u8]) -> Result<String, AllocError> {
        let mut reply = ReplyBuf::new(self.alloc)?;
        self.host.handle(frame, &mut reply);
        hex_groups(self.alloc, reply.bytes(), GROUP)
    }

    /// The host's reply, as hex digits, to the frame, without its length field, that `digits` has as hex digits in the notation of cases:
    /// spaces may separate the digits, and a repetition `{COUNT*PART}`, or the byte of a `\xHH`, may give them. `Notation` if a repetition
    /// is wrong or a `\x` is cut off; `NoText` if the bytes that `digits` gives are not UTF-8; `Digits` if a character, also after a `\x`,
    /// is no hex digit, or the number of digits is odd. If out of memory, `Memory`, or `Digits` from the decoder of the digits.
    fn reply_to_digits(&mut self, digits: &str) -> Result<String, CaseError> {
        let frame = bytes_of(self.alloc, digits)?;
        Ok(self.reply(&frame)?)
    }

    /// The reply, as hex digits, to a frame of `tenant` with the command number `command`. The body of the frame is `number` in four bytes,
    /// the lowest first, and then `rest`, the bytes of its other fields. `number` is a descriptor, but for MAP_CREATE it is the number of
    /// the map's kind. `tenant` and `number` are words of a line, in decimal digits: `Number` if `tenant` is no number of 16 bits, or
    /// `number` none of 32 bits. `Memory` if out of memory.
    fn command(
        &mut self,
        tenant: &str,
        command: u16,
        number: &str,
        rest: &[u8],
    ) -> Result<String, CaseError> {
        let tenant = tenant.parse()?;
        let frame = frame(self.alloc, tenant, command, number.parse()?, rest)?;
        Ok(self.reply(&frame)?)
    }

    /// The reply, as hex digits, to the command with the number `command`: a look-up, a delete, the next key, or a close. `rest` has a
    /// tenant and the descriptor, in decimal digits, and then the hex digits of the bytes that follow the descriptor in the frame: the key,
    /// or none. In the notation of cases spaces may separate these digits, and a repetition `{COUNT*PART}`, or the byte of a `\xHH`, may
    /// give them. `Notation` if a repetition is wrong or two bytes can't be split off after a `\x`; `NoText` if the bytes that the notation
    /// gives are not UTF-8; `Digits` if a character, but for spaces, or one after a `\x` is no hex digit, or the number of digits is odd;
    /// then `Number` if the tenant is no number of 16 bits, or the descriptor none of 32 bits. Out of memory is `Digits` in the decoder of
    /// the digits, else `Memory`.
    fn on_descriptor(&mut self, command: u16, rest: &str) -> Result<String, CaseError> {
        let (tenant, rest) = first_word(rest);
        let (descriptor, digits) = first_word(rest);
        let bytes = bytes_of(self.alloc, digits)?;
        self.command(tenant, command, descriptor, &bytes)
    }

    /// The reply to MAP_CREATE, as hex digits. `rest` has the words of a line, in decimal digits: a tenant, the number of the map's kind,
    /// the sizes of a key and of a value in bytes, `max_entries`, and the flags. Each word after the tenant becomes four bytes of the
    /// frame, and no word but the first two has to be present, so a case may have a body of a wrong length. `Number` if the tenant is no
    /// number of 16 bits, or another word none of 32 bits; `Memory` if out of memory.
    fn create(&mut self, rest: &str) -> Result<String, CaseError> {
        let (tenant, rest) = first_word(rest);
        let (kind, sizes) = first_word(rest);
        let bytes = numbers(self.alloc, sizes)?;
        self.command(tenant, MAP_CREATE, kind, &bytes)
    }

    /// The reply to MAP_UPDATE_ELEM, as hex digits. `rest` has the words of a line after `update`: a tenant, a descriptor and the flags, in
    /// decimal digits, and then the bytes of the key and of the value, as hex digits in the notation of cases: spaces may separate the
    /// digits, and a repetition `{COUNT*PART}`, or the byte of a `\xHH`, may give them. In the frame the flags follow the descriptor, in
    /// eight bytes. The error is the first that applies: `Number` if the flags are no number of 64 bits; `Notation` if a repetition is
    /// wrong or two bytes can't be split off after a `\x`, or `Digits` if these are no hex digits; `NoText` if the bytes that the notation
    /// gives are not UTF-8; `Digits` if a character of them is neither a space nor a hex digit, or the number of digits is odd; `Number` if
    /// the tenant is no number of 16 bits, or the descriptor none of 32 bits. If out of memory, `Memory`, or `Digits` from the decoder of
    /// the digits (`bytes_of`).
    fn update(&mut self, rest: &str) -> Result<String, CaseError> {
        let (tenant, rest) = first_word(rest);
        let (descriptor, rest) = first_word(rest);
        let (flags, digits) = first_word(rest);
        let flags: u64 = flags.parse()?;
        let bytes = prefixed_bytes(self.alloc, &flags.to_le_bytes(), digits)?;
        self.command(tenant, MAP_UPDATE_ELEM, descriptor, &bytes)
    }

    /// Lets the host handle a PROG_LOAD of `tenant`, for a socket filter with `slots`, the bytes of its slots, and returns the reply as hex
    /// digits. Two lines call this: `load`, with a program's text, and `slots`, with the bytes in hex digits. `AllocError`: out of memory.
    fn load_slots(&mut self, tenant: u16, slots: &[u8]) -> Result<String, AllocError> {
        let frame = frame(self.alloc, tenant, PROG_LOAD, SOCKET_FILTER, slots)?;
        self.reply(&frame)
    }

    /// The reply to PROG_LOAD, as hex digits, for a program that a line has as text; `load_digits` is for its slots in hex digits. `rest`
    /// has a tenant in decimal digits, and the text in the notation of cases (`slots_of`): `;` gives a line feed, `\xHH` the byte with
    /// these two hex digits, and `{COUNT*PART}` gives PART, COUNT times. The error is the first that applies: `Number` if the tenant is no
    /// number of 16 bits; `Notation` if a repetition is wrong or two bytes can't be split off after a `\x`, or `Digits` if these are no hex
    /// digits; `NoText` if the bytes that the notation gives are not UTF-8; `Text` if the text does not assemble. Out of memory is `Text`
    /// in the assembler, else `Memory`.
    fn load(&mut self, rest: &str) -> Result<String, CaseError> {
        let (tenant, text) = first_word(rest);
        let tenant = tenant.parse()?;
        let slots = slots_of(self.alloc, text)?;
        Ok(self.load_slots(tenant, &slots)?)
    }

    /// The reply to PROG_LOAD, as hex digits, for the words of a line: a tenant in decimal digits, and the bytes of the program's slots as
    /// hex digits in the notation of cases (`bytes_of`), in which a repetition `{COUNT*PART}`, or the byte of a `\xHH`, may give digits.
    /// Unlike `load`, which assembles a text, it can also load bytes that are no program. `Number` if the tenant is no number of 16 bits;
    /// else `Notation` if a repetition is wrong or two bytes can't be split off after a `\x`, `NoText` if the bytes that the notation gives
    /// are not UTF-8, and `Digits` if a character, but for spaces, or one after a `\x` is no hex digit, or the number of digits is odd. Out
    /// of memory is `Digits` in the decoder of the digits, else `Memory`.
    fn load_digits(&mut self, rest: &str) -> Result<String, CaseError> {
        let (tenant, digits) = first_word(rest);
        let tenant = tenant.parse()?;
        let slots = bytes_of(self.alloc, digits)?;
        Ok(self.load_slots(tenant, &slots)?)
    }

    /// The reply to PROG_TEST_RUN, as hex digits, for a line `run`. `rest` has the words after `run`: a tenant and the descriptor of a
    /// program, in decimal digits, and the hex digits of a packet in the notation of cases (`bytes_of`). In the frame the packet follows
    /// the bytes of the context words: those that the last line `words` gave, or zeros if there was none. Of the packet, `Notation` if a
    /// repetition is wrong or a `\x` is cut off, `NoText` if the bytes that the notation gives are not UTF-8, `Digits` if a character, but
    /// for spaces, or one after a `\x` is no hex digit, or the number of digits is odd. Then `Number` if the tenant is no number of 16
    /// bits, or the descriptor none of 32 bits. Out of memory is `Digits` in the decoder of the digits, else `Memory`.
    fn run(&mut self, rest: &str) -> Result<String, CaseError> {
        let (tenant, rest) = first_word(rest);
        let (descriptor, packet) = first_word(rest);
        let input = prefixed_bytes(self.alloc, &self.words, packet)?;
        self.command(tenant, PROG_TEST_RUN, descriptor, &input)
    }

    /// The reply of this player's host, as hex digits, to the frame that a line asks for; the line may be one of those that a line `rounds`
    /// repeats. `word` is its first word, `rest` the text after it: for `frame` the frame in hex digits, for any other word the tenant and
    /// the fields of a command. A program is loaded by `load` from its text, by `slots` from its slots in hex digits. `UnknownWord` if a
    /// line with this first word asks for no frame; else `Number` if a decimal number is missing or wrong. For hex digits and a program's
    /// text: `Notation` if a `\x` is cut off or a repetition `{COUNT*PART}` is wrong, `NoText` if what they give is not UTF-8, `Digits` if
    /// a hex digit, also after a `\x`, is wrong or the number of digits is odd, `Text` if the text does not assemble. Out of memory is
    /// `Digits` in the decoder of the digits, `Text` in the assembler, else `Memory`.
    fn reply_to_line(&mut self, word: &str, rest: &str) -> Result<String, CaseError> {
        match word {
            "frame" => self.reply_to_digits(rest),
            "create" => self.create(rest),
            "lookup" => self.on_descriptor(MAP_LOOKUP_ELEM, rest),
            "update" => self.update(rest),
            "delete" => self.on_descriptor(MAP_DELETE_ELEM, rest),
            "next" => self.on_descriptor(MAP_GET_NEXT_KEY, rest),
            "close" => self.on_descriptor(CLOSE, rest),
            "load" => self.load(rest),
            "slots" => self.load_digits(rest),
            "run" => self.run(rest),
            _ => Err(CaseError::UnknownWord),
        }
    }

    /// Plays one round of a line `rounds`, which repeats some lines to show that earlier rounds change no reply. `lines` has these lines,
    /// with `|` between them. Each has a first word and the text after it, and asks for the reply to one frame (`reply_to_line`). Returns
    /// the replies as hex digits, with ` | ` between them. The error is that of the first line that has one, for example `UnknownWord` if
    /// its first word asks for no frame, and no later line is played; also `Memory` if out of memory for the replies' text.
    fn round(&mut self, lines: &str) -> Result<String, CaseError> {
        let mut replies = String::new(self.alloc);
        for line in lines.split('|') {
            let (word, rest) = first_word(line.trim());
            if !replies.is_empty() {
                replies.push_str(" | ")?;
            }
            replies.push_str(&self.reply_to_line(word, rest)?)?;
        }
        Ok(replies)
    }

    /// Plays rounds 1 to `count` - 1, in each all of `lines`, which `|` separates. The caller, `rounds`, has played round 0, with the
    /// replies `first`. Stops at the first round with other replies, and returns `after N rounds: REPLIES`, with the number and the replies
    /// of this round. `None` if no round has others, also for a `count` of 0 or 1. The error is that of `reply_to_line` for the first line
    /// that has one, or out of memory.
    fn other_round(
        &mut self,
        lines: &str,
        count: u32,
        first: &str,
    ) -> Result<Option<String>, CaseError> {
        for number in 1..count {
            let replies = self.round(lines)?;
            if replies.as_str() != first {
                return Ok(Some(format!(in self.alloc; "after {number} rounds: {replies}")?));
            }
        }
        Ok(None)
    }

    /// Plays the lines of a line `rounds` COUNT times, but at least once, on this player's host; each time is a round. So a case shows that
    /// earlier rounds change no reply. `rest` has COUNT, in decimal digits, and then the lines, with `|` between them. Returns `COUNT
    /// rounds: REPLIES` if each round has the replies of the first. Otherwise it stops after the first round with other replies, and
    /// returns `after N rounds: REPLIES`: N is the number of rounds before this one, REPLIES are its replies. The error is `Number` if
    /// COUNT is missing or no number of 32 bits. Else it is the error of the first line that has one (`reply_to_line`): for its first word,
    /// a number, hex digits or a program's text; or it is out of memory.
    fn rounds(&mut self, rest: &str) -> Result<String, CaseError> {
        let (count, lines) = first_word(rest);
        let count: u32 = count.parse()?;
        let first = self.round(lines)?;
        match self.other_round(lines, count, &first)? {
            Some(answer) => Ok(answer),
            None => Ok(format!(in self.alloc; "{count} rounds: {first}")?),
        }
    }

    /// Plays `new TENANTS`: replaces the host by a new one for `tenants` tenants, in decimal digits, on which the lines that follow are
    /// played. The context words are kept. `Number` if `tenants` is no number, `OutOfRange` if it is not from 1 to `MOST_TENANTS`, `Memory`
    /// if out of memory. Returns the empty text, so nothing is written below the line.
    fn begin(&mut self, tenants: &str) -> Result<String, CaseError> {
        self.host = new_host(self.alloc, tenants)?;
        Ok(String::new(self.alloc))
    }

    /// Plays a line `words`: sets the bytes of the context words that the frames of later test runs have. The number of bytes is not
    /// checked, so a case may give too few. `digits` has the bytes as hex digits in the notation of cases: spaces may separate the digits,
    /// and a repetition `{COUNT*PART}`, or the byte of a `\xHH`, may give them. `Notation` if a repetition is wrong or a `\x` is cut off;
    /// `NoText` if the bytes that `digits` gives are not UTF-8; `Digits` if a character, also after a `\x`, is no hex digit, or the number
    /// of digits is odd. If out of memory, `Memory`, or `Digits` from the decoder of the digits. After an error the words are unchanged.
    /// Returns the empty text, since this line has no output.
    fn set_words(&mut self, digits: &str) -> Result<String, CaseError> {
        self.words = bytes_of(self.alloc, digits)?;
        Ok(String::new(self.alloc))
    }
}

impl Player for HostPlayer {
    /// Plays a line of cases and returns its outcome as text. `new` makes a new host for this player, and `words` sets the context words of
    /// later runs, both with an empty outcome; `rounds` plays other lines several times. Four lines do not use this player's host: `stream`
    /// serves the bytes of a stream in a new host, `cut` only the first of them; `relay` passes bytes through `Counted`, which counts
    /// failing calls; `program` runs the host's command line (`run_words`). Any other first word asks for the reply to one frame, or is
    /// unknown (`UnknownWord`). `main.rt` has a table of all lines. The other errors are those of the function that plays the line:
    /// `Number` or `OutOfRange` for a number, `Notation`, `NoText`, `Digits` or `Text` for digits or a text, and `Memory`.
    fn play(&mut self, line: &str) -> Result<String, CaseError> {
        let (word, rest) = first_word(line);
        match word {
            "new" => self.begin(rest),
            "words" => self.set_words(rest),
            "rounds" => self.rounds(rest),
            "stream" => stream(self.alloc, rest),
            "cut" => cut(self.alloc, rest),
            "relay" => relay(self.alloc, rest),
            "program" => program(self.alloc, rest),
            // A word that asks for the reply to one frame, or an unknown one.
            _ => self.reply_to_line(word, rest),
        }
    }
}

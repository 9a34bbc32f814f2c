//! The bodies of commands.

ghost use Rattle.std.specs.Prelude.{◌≡◌, ◌≤◌, ◌+◌, length, drop};
ghost use Rattle.byteorder.specs.Endian.{little_number};
ghost use Rattle.command_frames.specs.Command.{command_in, context_length, word_length, words_in};
ghost use Rattle.command_frames.specs.Shown.{shown_result};
ghost use Rattle.words.specs.Context.{given_words};

use crate::command::{
    BadFrame, CLOSE, Command, MAP_CREATE, MAP_DELETE_ELEM, MAP_GET_NEXT_KEY, MAP_LOOKUP_ELEM,
    MAP_UPDATE_ELEM, PROG_LOAD, PROG_TEST_RUN,
};
use byteorder::{ByteOrder, LittleEndian};
use words::GIVEN_WORDS;

/// The length of a word (a descriptor, a type or a size) in bytes.
const WORD_LENGTH: usize = 4;

/// The length of the body of MAP_CREATE in bytes: five words.
const CREATE_BODY: usize = 20;

/// The number of bytes before the key and the value of MAP_UPDATE: a descriptor and eight bytes of flags.
const BEFORE_KEY_AND_VALUE: usize = 12;

/// The length in bytes of the context words in the body of PROG_TEST_RUN: all but the first, which is the packet's length.
pub(crate) const CONTEXT_LENGTH: usize = GIVEN_WORDS * WORD_LENGTH;

/// The number of bytes before the packet of PROG_TEST_RUN: a descriptor and the context.
const BEFORE_PACKET: usize = WORD_LENGTH + CONTEXT_LENGTH;

/// The number in the four bytes from offset `at` on, little-endian. Each caller has tested that `bytes` is long enough for them.
fn word(bytes: &[u8], at: usize) -> u32
    requires { at + word_length ≤ length bytes.now }
    ensures { result ≡ little_number 4 (drop at bytes.now) }
{
    LittleEndian::read_u32(&bytes[at..])
}

/// Reads the body of MAP_CREATE, command 0: the type of the map, the sizes of a key and of a value in bytes, `max_entries`, and the flags,
/// four bytes each, little-endian. Each may be any number here: `create` of `tenant` tests them. `Body` if the length of the body is not
/// `CREATE_BODY`, 20. By the contract the result, as contracts see it (`shown_result`), is what the definition `command_in` has for command
/// 0 and this body.
fn map_create(body: &[u8]) -> Result<Command<'_>, BadFrame>
    ensures { shown_result result ≡ command_in 0 body.now }
{
    if body.len() != CREATE_BODY {
        return Err(BadFrame::Body);
    }
    Ok(Command::MapCreate {
        kind: word(body, 0),
        key_size: word(body, 4),
        value_size: word(body, 8),
        max_entries: word(body, 12),
        flags: word(body, 16),
    })
}

/// Reads the body of MAP_LOOKUP, command 1 of the definition `command_in`: a descriptor of four bytes (`WORD_LENGTH`), little-endian, and
/// then the key. All bytes after the descriptor are the key, even if there are none, since only the map has the size of its keys: `look_up`
/// of `tenant` tests the length. `Body` if the body is shorter than the descriptor.
fn map_lookup(body: &[u8]) -> Result<Command<'_>, BadFrame>
    ensures { shown_result result ≡ command_in 1 body.now }
{
    if body.len() < WORD_LENGTH {
        return Err(BadFrame::Body);
    }
    Ok(Command::MapLookup {
        fd: word(body, 0),
        key: &body[WORD_LENGTH..],
    })
}

/// Reads the body of MAP_UPDATE, command 2: a descriptor of four bytes and flags of eight, both little-endian, then the key and the value.
/// These two are one slice, since only the map has their lengths. `Body` if the body is too short for the descriptor and the flags. In the
/// contract, `command_in 2 body.now` is the command that has number 2 and this body, or the error.
fn map_update(body: &[u8]) -> Result<Command<'_>, BadFrame>
    ensures { shown_result result ≡ command_in 2 body.now }
{
    if body.len() < BEFORE_KEY_AND_VALUE {
        return Err(BadFrame::Body);
    }
    Ok(Command::MapUpdate {
        fd: word(body, 0),
        flags: LittleEndian::read_u64(&body[WORD_LENGTH..]),
        key_and_value: &body[BEFORE_KEY_AND_VALUE..],
    })
}

/// Reads the body of MAP_DELETE, command 3: a descriptor of four bytes, little-endian, then the key, which is all the rest. The key may
/// have any length here, since only the map has the size of its keys: `delete` of `tenant` tests the length. `Body` if the body has fewer
/// than four bytes.
fn map_delete(body: &[u8]) -> Result<Command<'_>, BadFrame>
    ensures { shown_result result ≡ command_in 3 body.now }
{
    if body.len() < WORD_LENGTH {
        return Err(BadFrame::Body);
    }
    Ok(Command::MapDelete {
        fd: word(body, 0),
        key: &body[WORD_LENGTH..],
    })
}

/// Reads the body of MAP_NEXT_KEY, command 4 (`command_in 4`): a descriptor, four bytes, little-endian, then the key, which is all the
/// rest. `Body` if the body is too short for the descriptor. The length of the key is not checked here: `next_key` of `tenant` does this,
/// and takes an empty key as the request for the map's first key. In the contract, `shown_result` takes the borrowed key as its bytes.
fn map_next_key(body: &[u8]) -> Result<Command<'_>, BadFrame>
    ensures { shown_result result ≡ command_in 4 body.now }
{
    if body.len() < WORD_LENGTH {
        return Err(BadFrame::Body);
    }
    Ok(Command::MapNextKey {
        fd: word(body, 0),
        key: &body[WORD_LENGTH..],
    })
}

/// Reads the body of PROG_LOAD, command 5: the type of the program (`kind`) in the first four bytes, little-endian, then its slots, all
/// bytes after the type. `Body` if the body is too short for the type. The type may be any number here, and the slots any number of bytes:
/// `load` of `tenant` tests both. By the contract the result, with the borrowed slots as a list of bytes (`shown_result`), is what the
/// definition `command_in` has for command 5 and this body.
fn prog_load(body: &[u8]) -> Result<Command<'_>, BadFrame>
    ensures { shown_result result ≡ command_in 5 body.now }
{
    if body.len() < WORD_LENGTH {
        return Err(BadFrame::Body);
    }
    Ok(Command::ProgLoad {
        kind: word(body, 0),
        slots: &body[WORD_LENGTH..],
    })
}

/// Reads the context words that the frame of a test run gives: ten (`GIVEN_WORDS`), all of a context but the first, which is the packet's
/// length. They are the first 40 bytes of `bytes` (`context_length`), four for each word, little-endian. The caller, `prog_test_run`, has
/// tested that `bytes` has so many.
fn read_words(bytes: &[u8]) -> [u32; GIVEN_WORDS]
    requires { context_length ≤ length bytes.now }
    ensures { result ≡ words_in given_words bytes.now }
{
    let mut words = [0; GIVEN_WORDS];
    LittleEndian::read_u32_into(&bytes[..CONTEXT_LENGTH], &mut words);
    words
}

/// Reads the body of PROG_TEST_RUN, command 10: the descriptor of a program, `GIVEN_WORDS` words of the context, then the packet, the rest
/// of the body, which may be empty. The descriptor and each word have four bytes, little-endian. The words are all of the context but the
/// first, the packet's length, which is not in the frame. `Body` if the body is too short for the descriptor and the words.
fn prog_test_run(body: &[u8]) -> Result<Command<'_>, BadFrame>
    ensures { shown_result result ≡ command_in 10 body.now }
{
    if body.len() < BEFORE_PACKET {
        return Err(BadFrame::Body);
    }
    Ok(Command::ProgTestRun {
        fd: word(body, 0),
        words: read_words(&body[WORD_LENGTH..]),
        packet: &body[BEFORE_PACKET..],
    })
}

/// Reads the body of CLOSE, command 256: the descriptor to close, a number of four bytes, little-endian. `Body` if the body has another
/// length. The definition `command_in` has the same command or error for this body; `shown_result` is the result as contracts see it.
fn close(body: &[u8]) -> Result<Command<'_>, BadFrame>
    ensures { shown_result result ≡ command_in 256 body.now }
{
    if body.len() != WORD_LENGTH {
        return Err(BadFrame::Body);
    }
    Ok(Command::Close { fd: word(body, 0) })
}

/// Parses the command of a frame. `number` is the command's number in the head: 0 to 5 and 10 as in bpf(2), and 256 for CLOSE. `body` is
/// the bytes after the head. The error is `Unknown` if no command has this number, else `Body` if the body is too short for the command,
/// or, for MAP_CREATE and CLOSE, too long. In the contract, `shown_result` has the borrowed fields of the command as lists of bytes.
pub(crate) fn command_in(number: u16, body: &[u8]) -> Result<Command<'_>, BadFrame>
    ensures { shown_result result ≡ command_in number body.now }
{
    match number {
        MAP_CREATE => map_create(body),
        MAP_LOOKUP_ELEM => map_lookup(body),
        MAP_UPDATE_ELEM => map_update(body),
        MAP_DELETE_ELEM => map_delete(body),
        MAP_GET_NEXT_KEY => map_next_key(body),
        PROG_LOAD => prog_load(body),
        PROG_TEST_RUN => prog_test_run(body),
        CLOSE => close(body),
        _ => Err(BadFrame::Unknown),
    }
}

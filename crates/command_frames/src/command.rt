//! Heads and commands, and why a frame carries no command.

use words::GIVEN_WORDS;

/// The tenant of a frame, and the number of its command. The reply to the frame repeats both.
#[derive(Clone, Copy, Debug, PartialEq, Eq)]
pub struct Head {
    pub tenant: u16,
    pub command: u16,
}

/// A command with its fields, named as by bpf(2): `fd` is a descriptor, `kind` the type of the map or the program, and sizes are in bytes.
/// No field is checked yet; byte fields are borrowed from the frame.
#[derive(Clone, Copy, Debug)]
pub enum Command<'a> {
    MapCreate {
        kind: u32,
        key_size: u32,
        value_size: u32,
        max_entries: u32,
        flags: u32,
    },
    MapLookup {
        fd: u32,
        key: &'a [u8],
    },
    MapUpdate {
        fd: u32,
        flags: u64,
        /// The key, and the value after it. The map, which has their lengths, is not known yet, so they are not split.
        key_and_value: &'a [u8],
    },
    MapDelete {
        fd: u32,
        key: &'a [u8],
    },
    MapNextKey {
        fd: u32,
        key: &'a [u8],
    },
    ProgLoad {
        kind: u32,
        /// The bytes of the program, eight for each slot.
        slots: &'a [u8],
    },
    ProgTestRun {
        fd: u32,
        /// The context without its first word, which is the packet's length.
        words: [u32; GIVEN_WORDS],
        packet: &'a [u8],
    },
    Close {
        fd: u32,
    },
}

/// The number of this command in linux/bpf.h (bpf_cmd).
pub(crate) const MAP_CREATE: u16 = 0;

/// The number of this command in linux/bpf.h (bpf_cmd).
pub(crate) const MAP_LOOKUP_ELEM: u16 = 1;

/// The number of this command in linux/bpf.h (bpf_cmd).
pub(crate) const MAP_UPDATE_ELEM: u16 = 2;

/// The number of this command in linux/bpf.h (bpf_cmd).
pub(crate) const MAP_DELETE_ELEM: u16 = 3;

/// The number of this command in linux/bpf.h (bpf_cmd).
pub(crate) const MAP_GET_NEXT_KEY: u16 = 4;

/// The number of this command in linux/bpf.h (bpf_cmd).
pub(crate) const PROG_LOAD: u16 = 5;

/// The number of this command in linux/bpf.h (bpf_cmd).
pub(crate) const PROG_TEST_RUN: u16 = 10;

/// The number of the command that closes a descriptor, which is this project's own.
pub(crate) const CLOSE: u16 = 256;

/// Why a frame carries no command: the first of these that applies.
#[derive(Clone, Copy, Debug, PartialEq, Eq)]
pub enum BadFrame {
    /// It is longer than `LONGEST_FRAME`.
    TooLong,
    /// No command has its number.
    Unknown,
    /// Its body is shorter or longer than its command allows.
    Body,
}

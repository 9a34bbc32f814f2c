//! Writing frames of commands, which `parse` reads again.

ghost use Rattle.std.specs.Prelude.{◌≡◌, ◌++◌, OnOk};
ghost use Rattle.std.specs.List.{flat_map};
ghost use Rattle.byteorder.specs.Endian.{little_bytes};
ghost use Rattle.command_frames.specs.Encoded.{frame_of};
ghost use Rattle.command_frames.specs.Shown.{shown_command};

use crate::body::CONTEXT_LENGTH;
use crate::command::{
    CLOSE, Command, MAP_CREATE, MAP_DELETE_ELEM, MAP_GET_NEXT_KEY, MAP_LOOKUP_ELEM,
    MAP_UPDATE_ELEM, PROG_LOAD, PROG_TEST_RUN,
};
use byteorder::{ByteOrder, LittleEndian};
use std::alloc::AllocError;
use words::GIVEN_WORDS;

/// Appends a number in four bytes, little-endian. `AllocError`: out of memory.
#[inline(always)]
fn append(frame: &mut Vec<u8>, number: u32) -> Result<(), AllocError>
    ensures { OnOk result (frame.new.items ≡ frame.old.items ++ little_bytes 4 number) }
{
    frame.extend_from_slice(&number.to_le_bytes())
}

/// Replaces the contents of `frame` by a head: the tenant and the number of the command, two bytes each, little-endian. `AllocError`: out
/// of memory.
#[inline(always)]
fn begin(frame: &mut Vec<u8>, tenant: u16, command: u16) -> Result<(), AllocError>
    ensures { OnOk result (frame.new.items ≡ little_bytes 2 tenant ++ little_bytes 2 command) }
{
    frame.clear();
    frame.extend_from_slice(&tenant.to_le_bytes())?;
    frame.extend_from_slice(&command.to_le_bytes())
}

/// Replaces the contents of `frame` by the frame of a look-up, a delete, a request for the next key, or a load, without the length before
/// it. The head is `tenant` and the number of the command (`command`), two bytes each; then follow `number`, four bytes, and `bytes`: for a
/// load the type of the program and its slots, else a descriptor and a key. The numbers are little-endian. `AllocError`: out of memory.
#[inline(always)]
fn write_with_number(
    frame: &mut Vec<u8>,
    tenant: u16,
    command: u16,
    number: u32,
    bytes: &[u8],
) -> Result<(), AllocError>
    ensures { OnOk result (frame.new.items ≡ little_bytes 2 tenant
        ++ (little_bytes 2 command ++ (little_bytes 4 number ++ bytes.now))) }
{
    begin(frame, tenant, command)?;
    append(frame, number)?;
    frame.extend_from_slice(bytes)
}

/// Appends the `GIVEN_WORDS` words of a context that a frame of a test run has, four bytes each, little-endian. The first word that the run
/// then sees, the packet's length, is not among them. `AllocError`: out of memory.
#[inline(always)]
fn append_words(frame: &mut Vec<u8>, words: [u32; GIVEN_WORDS]) -> Result<(), AllocError>
    ensures { OnOk result (frame.new.items ≡ frame.old.items ++ flat_map (little_bytes 4) words) }
{
    let mut bytes = [0; CONTEXT_LENGTH];
    LittleEndian::write_u32_into(&words, &mut bytes);
    frame.extend_from_slice(&bytes)
}

/// Replaces the contents of `frame` by the frame of a test run (command `PROG_TEST_RUN`, 10 in the contract) to `tenant`, without the
/// length before it. The tenant and the command have two bytes each; then the descriptor of the program and the `GIVEN_WORDS` words of the
/// context have four each, all little-endian. The packet is last. `words` does not have the packet's length, the context's first word.
/// `AllocError`: out of memory.
#[inline(always)]
fn write_run(
    frame: &mut Vec<u8>,
    tenant: u16,
    fd: u32,
    words: [u32; GIVEN_WORDS],
    packet: &[u8],
) -> Result<(), AllocError>
    ensures { OnOk result (frame.new.items ≡ little_bytes 2 tenant
        ++ (little_bytes 2 10
        ++ (little_bytes 4 fd ++ (flat_map (little_bytes 4) words ++ packet.now)))) }
{
    begin(frame, tenant, PROG_TEST_RUN)?;
    append(frame, fd)?;
    append_words(frame, words)?;
    frame.extend_from_slice(packet)
}

/// Replaces the contents of `frame` by the frame of a command to a tenant (`frame_of`): the number of the tenant and that of the command in
/// two bytes each, then the fields of `command` in their order. Of these fields, the flags of an update have eight bytes, and every other
/// number has four. All numbers are little-endian. The length that precedes a frame on a stream is not written. `parse` reads this command
/// from the frame, if the frame has at most `LONGEST_FRAME` bytes, which is not tested here. `saving` calls this function for the frames
/// that restore a tenant. Each of these calls names the variant of `command`, so an inlined call needs only one arm of the `match`.
/// `AllocError`: out of memory; then `frame` may have a part of the frame.
#[inline(always)]
pub fn write_command(
    tenant: u16,
    command: Command<'_>,
    frame: &mut Vec<u8>,
) -> Result<(), AllocError>
    ensures { OnOk result (frame.new.items ≡ frame_of tenant (shown_command command.entry)) }
{
    match command {
        Command::MapCreate {
            kind,
            key_size,
            value_size,
            max_entries,
            flags,
        } => {
            begin(frame, tenant, MAP_CREATE)?;
            append(frame, kind)?;
            append(frame, key_size)?;
            append(frame, value_size)?;
            append(frame, max_entries)?;
            append(frame, flags)
        }
        Command::MapLookup { fd, key } => write_with_number(
            frame,
            tenant,
            MAP_LOOKUP_ELEM,
            fd,
            key,
        ),
        Command::MapUpdate {
            fd,
            flags,
            key_and_value,
        } => {
            begin(frame, tenant, MAP_UPDATE_ELEM)?;
            append(frame, fd)?;
            frame.extend_from_slice(&flags.to_le_bytes())?;
            frame.extend_from_slice(key_and_value)
        }
        Command::MapDelete { fd, key } => write_with_number(
            frame,
            tenant,
            MAP_DELETE_ELEM,
            fd,
            key,
        ),
        Command::MapNextKey { fd, key } => write_with_number(
            frame,
            tenant,
            MAP_GET_NEXT_KEY,
            fd,
            key,
        ),
        Command::ProgLoad { kind, slots } => write_with_number(
            frame, tenant, PROG_LOAD, kind, slots,
        ),
        Command::ProgTestRun { fd, words, packet } => write_run(frame, tenant, fd, words, packet),
        Command::Close { fd } => {
            begin(frame, tenant, CLOSE)?;
            append(frame, fd)
        }
    }
}

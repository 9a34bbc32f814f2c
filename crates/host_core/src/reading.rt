//! Reading frames from a reader.
//!
//! Contracts require that fewer than 2^64 - 1 calls of the reader have failed before: they are counted in 64 bits.

ghost use Rattle.std.specs.Prelude.{◌≡◌, ℕ, ◌+◌, ◌-◌, ◌<◌, ◌≤◌, ◌^◌, [], List, length};
ghost use Rattle.std.specs.Prelude.{take, min, IfOk, IfErr, IfSome, IfNone, Ok, OnOk, OnErr};
ghost use Rattle.std.specs.Io.KnownBytes.{IsAtEnd};
ghost use Rattle.byteorder.specs.Endian.{little_bytes};
ghost use Rattle.command_frames.specs.Frame.{framed, IsFrame};
ghost use Rattle.host_core.specs.declared.reading.TheConstants.{FRAME_BUFFER};
ghost use Rattle.host_core.specs.inside.Reading.{ReadsFewer, ReadsPartial, StopsAt, IsKeptFrontOf};
ghost use Rattle.host_core.specs.Stream.{Takes};

use crate::server::ServeFaultKind;
use crate::stream::Source;
use byteorder::{ByteOrder, LittleEndian};
use command_frames::LONGEST_FRAME;
use std::alloc::{AllocError, Global};

/// The length of the buffer for a frame: that of the longest valid frame and one byte more, so that the front that is kept of a frame
/// that is too long is too long itself, and is rejected.
pub(crate) const FRAME_BUFFER: usize = LONGEST_FRAME + 1;

/// Reads until `buffer` is full or the input ends, and returns how many bytes were read, at most its length (`bound`). These are at its
/// front, and are the next bytes of the input (`bytes`, `Takes`). If they don't fill it, the input has ended (`end`): a read into the rest
/// of the buffer, at least one byte, gave 0 bytes. If the bytes that the reader has left are not known (`S.remaining` is `None`), `Takes`
/// and `IsAtEnd` claim nothing. No call of the reader failed (`sound`). Fewer than 2^64 - 1 calls have failed before, so that the number of
/// failed calls (`S.failures`) fits in 64 bits.
///
/// # Errors
///
/// `Read` (`kind`) if a call of the reader failed (`failed`). The bytes read until then are at the front of `buffer`, and don't fill it
/// (`part`).
pub fn fill<S: Source>(reader: &mut S, buffer: &mut [u8]) -> Result<usize, ServeFaultKind>
    requires { S.failures reader.old < 2 ^ 64 - 1 }
    ensures bytes { IfOk result (λ n. Takes S.remaining reader.old reader.new (take n buffer.new)) }
    ensures bound { IfOk result (λ n. n ≤ length buffer.new) }
    ensures end { IfOk result (λ n. n < length buffer.new → IsAtEnd (S.remaining reader.new)) }
    ensures sound { IfOk result (λ n. S.failures reader.new ≡ S.failures reader.old) }
    ensures kind { IfErr result (λ kind. kind ≡ ServeFaultKind.Read) }
    ensures part { OnErr result ((n : ℕ) × (n < length buffer.new)
        × Takes S.remaining reader.old reader.new (take n buffer.new)) }
    ensures failed { OnErr result (S.failures reader.old < S.failures reader.new) }
{
    let mut at = 0;
    while at < buffer.len() {
        match reader.read(&mut buffer[at..]) {
            Ok(0) => return Ok(at),
            Ok(count) => at += count,
            Err(_) => return Err(ServeFaultKind::Read),
        }
    }
    Ok(at)
}

/// The number whose four bytes, little-endian, are `bytes`. By this function `read_length` reads the length before a frame.
fn number_in(bytes: &[u8]) -> u32
    requires { length bytes.now ≡ 4 }
    ensures { little_bytes 4 result ≡ bytes.now }
{
    LittleEndian::read_u32(bytes)
}

/// Reads the length of a frame, a little-endian number of four bytes, and takes only these bytes from the reader (`some`). `None` if the
/// input is at its end, so that no byte is read (`none`). The error is `Truncated` if the input ends after one to three of the bytes, and
/// `Read` if a call of the reader failed. If the result is no error, no call failed (`sound`). If it is an error, the bytes that were read
/// are no whole frame (`short`), and the error is why no more were read: a call failed, or the input ended and no call failed (`stop`).
/// `S.remaining` are the bytes that a reader has left, if they are known, and `S.failures` is how many of its calls have failed: before
/// this call fewer than 2^64 - 1, so that the count fits in 64 bits.
fn read_length<S: Source>(reader: &mut S) -> Result<Option<u32>, ServeFaultKind>
    requires { S.failures reader.old < 2 ^ 64 - 1 }
    ensures some { IfOk result (λ found.
        IfSome found (λ total. Takes S.remaining reader.old reader.new (little_bytes 4 total))) }
    ensures bound { IfOk result (λ found. IfSome found (λ total. total < 2 ^ 32)) }
    ensures none { IfOk result (λ found. IfNone found (Takes S.remaining reader.old reader.new []
        × IsAtEnd (S.remaining reader.new))) }
    ensures sound { OnOk result (S.failures reader.new ≡ S.failures reader.old) }
    ensures short { IfErr result (λ kind.
        ReadsPartial kind (S.remaining reader.old) (S.remaining reader.new)) }
    ensures stop { IfErr result (λ kind.
        StopsAt S.remaining S.failures kind reader.old reader.new) }
{
    let mut bytes = [0; 4];
    let count = fill(reader, &mut bytes)?;
    if count == 0 {
        return Ok(None);
    }
    if count < 4 {
        return Err(ServeFaultKind::Truncated);
    }
    Ok(Some(number_in(&bytes)))
}

/// Reads and discards `count` bytes: the rest of a frame that is too long, of which `read_long` keeps only the head. Each read overwrites
/// the front of `scratch`, which is not empty, so each read is of at least one byte, and the loop ends. By `failures` one more failed call
/// of the reader can be counted in 64 bits. `Truncated` if the input ends before all are read, `Read` if a call of the reader failed. If
/// the result is no error, `count` bytes were read (`bytes`), and no call failed (`sound`). If it is an error, fewer bytes were read
/// (`short`), and the error is why no more were read (`stop`): for `Truncated` the input is at its end, and no call failed; for `Read` a
/// call failed. `S.remaining` are the bytes that the reader has left, if they are known; if not, the contract claims nothing of the bytes
/// that were read, or of the input's end.
fn skip<S: Source>(reader: &mut S, scratch: &mut [u8], count: usize) -> Result<(), ServeFaultKind>
    requires failures { S.failures reader.old < 2 ^ 64 - 1 }
    requires scratch { 0 < length scratch.old }
    ensures bytes { OnOk result ((bytes : List ℕ) × (length bytes ≡ count)
        × Takes S.remaining reader.old reader.new bytes) }
    ensures sound { OnOk result (S.failures reader.new ≡ S.failures reader.old) }
    ensures short { OnErr result
        (ReadsFewer (S.remaining reader.old) (S.remaining reader.new) count) }
    ensures stop { IfErr result (λ kind.
        StopsAt S.remaining S.failures kind reader.old reader.new) }
{
    let mut left = count;
    while left > 0 {
        let wanted = left.min(scratch.len());
        read_whole(reader, scratch, wanted)?;
        left -= wanted;
    }
    Ok(())
}

/// Reads `count` bytes into the front of `buffer`, which has room for them (`room`). If the result is no error, exactly these bytes were
/// taken from the reader (`bytes`), and no call of it failed (`sound`). `Truncated` if the input ends before all are read, which `fill`
/// does not count as an error; `Read` if a call of the reader failed. After an error, fewer than `count` bytes were read (`short`), and the
/// error is why no more were read (`stop`): for `Truncated` the input is at its end, and no call failed; for `Read` a call failed.
/// `S.remaining` are the bytes that the reader has left, if they are known. Fewer than 2^64 - 1 of its calls have failed before, since 64
/// bits count them (`failures`).
fn read_whole<S: Source>(
    reader: &mut S,
    buffer: &mut [u8],
    count: usize,
) -> Result<(), ServeFaultKind>
    requires failures { S.failures reader.old < 2 ^ 64 - 1 }
    requires room { count ≤ length buffer.old }
    ensures bytes { OnOk result (Takes S.remaining reader.old reader.new (take count buffer.new)) }
    ensures sound { OnOk result (S.failures reader.new ≡ S.failures reader.old) }
    ensures short { OnErr result
        (ReadsFewer (S.remaining reader.old) (S.remaining reader.new) count) }
    ensures stop { IfErr result (λ kind.
        StopsAt S.remaining S.failures kind reader.old reader.new) }
{
    let came = fill(reader, &mut buffer[..count])?;
    if came < count {
        return Err(ServeFaultKind::Truncated);
    }
    Ok(())
}

/// Reads a frame of `total` bytes, which is longer than `buffer` (`long`), and so longer than any valid frame: the length of `buffer`,
/// `FRAME_BUFFER`, is one byte more than that of the longest one (`room`). Only the frame's head, its first four bytes, is kept, at the
/// front of `buffer` (`frame`), since the reply to such a frame depends only on the head. Later bytes of the frame overwrite the rest of
/// `buffer`. `Truncated` if the input ends before all are read, `Read` if a call of the reader failed. If the result is no error, exactly
/// the frame was read (`Takes`), and no call failed (`sound`). If it is an error, fewer than `total` bytes were read (`short`), and the
/// error is why no more were read (`stop`). `S.remaining` are the bytes that the reader has left, if they are known; if not, the contract
/// claims nothing of the bytes that were read, or of the input's end. By `failures` the number of failed calls fits in 64 bits after the
/// call too.
fn read_long<S: Source>(
    reader: &mut S,
    buffer: &mut [u8],
    total: usize,
) -> Result<(), ServeFaultKind>
    requires failures { S.failures reader.old < 2 ^ 64 - 1 }
    requires room { length buffer.old ≡ FRAME_BUFFER }
    requires long { FRAME_BUFFER < total }
    ensures frame { OnOk result ((frame : List ℕ) × (length frame ≡ total)
        × Takes S.remaining reader.old reader.new frame × (take 4 buffer.new ≡ take 4 frame)) }
    ensures sound { OnOk result (S.failures reader.new ≡ S.failures reader.old) }
    ensures short { OnErr result
        (ReadsFewer (S.remaining reader.old) (S.remaining reader.new) total) }
    ensures stop { IfErr result (λ kind.
        StopsAt S.remaining S.failures kind reader.old reader.new) }
{
    read_whole(reader, buffer, FRAME_BUFFER)?;
    skip(reader, &mut buffer[4..], total - FRAME_BUFFER)?;
    Ok(())
}

/// Reads a frame of `total` bytes to the front of `buffer`, and returns how many bytes of the buffer are handled as the frame. These are
/// the `total` bytes, if they fit. Of a longer frame only the head, four bytes, is kept, and the bytes after it may be any
/// (`IsKeptFrontOf`); the result is then the buffer's length, which is too long for a valid frame. Without an error exactly the frame was
/// read (`frame`), and no call of the reader failed (`sound`). `Truncated` if the input ends before all are read, `Read` if a call of the
/// reader failed: `stop` says which of the two it was, and by `short` fewer than `total` bytes were read. `S.remaining` are the bytes that
/// the reader has left, if they are known. `S.failures` counts its failed calls: fewer than 2^64 - 1, so that one more fits in 64 bits
/// (`failures`).
fn read_body<S: Source>(
    reader: &mut S,
    buffer: &mut [u8],
    total: usize,
) -> Result<usize, ServeFaultKind>
    requires failures { S.failures reader.old < 2 ^ 64 - 1 }
    requires room { length buffer.old ≡ FRAME_BUFFER }
    ensures frame { IfOk result (λ kept. (frame : List ℕ) × (length frame ≡ total)
        × Takes S.remaining reader.old reader.new frame
        × IsKeptFrontOf (take kept buffer.new) frame) }
    ensures bound { IfOk result (λ kept. kept ≤ FRAME_BUFFER) }
    ensures sound { OnOk result (S.failures reader.new ≡ S.failures reader.old) }
    ensures short { OnErr result
        (ReadsFewer (S.remaining reader.old) (S.remaining reader.new) total) }
    ensures stop { IfErr result (λ kind.
        StopsAt S.remaining S.failures kind reader.old reader.new) }
{
    if total <= FRAME_BUFFER {
        read_whole(reader, buffer, total)?;
        Ok(total)
    } else {
        read_long(reader, buffer, total)?;
        Ok(FRAME_BUFFER)
    }
}

/// Reads the length of a frame, four bytes, and then the frame, and returns how many bytes at the front of `buffer` are handled as the
/// frame (`kept`). A frame is here any bytes whose length fits in four bytes (`IsFrame`), valid or not. A frame of at most `FRAME_BUFFER`
/// bytes, the length of `buffer`, is kept whole. Of a longer one only the head is kept, four bytes; then `kept` is `FRAME_BUFFER`, too long
/// for a valid frame, and the bytes after the head may be any (`IsKeptFrontOf`). Exactly the length and the frame (`framed`) are read;
/// `Takes` claims this if the bytes that the reader has left (`S.remaining`) are known. `None` if the input ends before the length: then no
/// byte is read. `Truncated` if it ends inside the length or the frame, `Read` if a call of the reader failed. Without an error no call
/// failed (`sound`). After an error, the bytes that were read are no whole frame (`short`), and the error is why no more were read
/// (`stop`). By `failures` the number of failed calls fits in 64 bits.
pub(crate) fn read_frame<S: Source>(
    reader: &mut S,
    buffer: &mut [u8],
) -> Result<Option<usize>, ServeFaultKind>
    requires failures { S.failures reader.old < 2 ^ 64 - 1 }
    requires room { length buffer.old ≡ FRAME_BUFFER }
    ensures frame { IfOk result (λ found. IfSome found (λ kept. (frame : List ℕ) × IsFrame frame
        × Takes S.remaining reader.old reader.new (framed frame)
        × IsKeptFrontOf (take kept buffer.new) frame)) }
    ensures bound { IfOk result (λ found. IfSome found (λ kept. kept ≤ FRAME_BUFFER)) }
    ensures none { IfOk result (λ found. IfNone found (Takes S.remaining reader.old reader.new []
        × IsAtEnd (S.remaining reader.new))) }
    ensures sound { OnOk result (S.failures reader.new ≡ S.failures reader.old) }
    ensures short { IfErr result (λ kind.
        ReadsPartial kind (S.remaining reader.old) (S.remaining reader.new)) }
    ensures stop { IfErr result (λ kind.
        StopsAt S.remaining S.failures kind reader.old reader.new) }
{
    let Some(total) = read_length(reader)? else {
        return Ok(None);
    };
    let kept = read_body(reader, buffer, total as usize)?;
    Ok(Some(kept))
}

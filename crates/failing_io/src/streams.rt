//! Readers and writers that fail, and streams that end anywhere.

use host_core::{Counted, HashSeed, ServeFault, ServeFaultKind, serve_new_host};
use std::alloc::Global;
use std::io::{self, ErrorKind, Read, Write};
use std::process::Abort;
use std::test::*;

/// A frame of PROG_LOAD, `r0 = 1; exit`, and one of PROG_TEST_RUN of that program, without a packet.
const LOAD_AND_RUN: [u8; 80] = [
    0x18, 0, 0, 0, 0, 0, 5, 0, 1, 0, 0, 0, 0xb7, 0, 0, 0, 1, 0, 0, 0, 0x95, 0, 0, 0, 0, 0, 0, 0,
    0x30, 0, 0, 0, 0, 0, 10, 0, 3, 0, 0, 0, 0, 0, 0, 0, 0, 0, 0, 0, 0, 0, 0, 0, 0, 0, 0, 0, 0, 0,
    0, 0, 0, 0, 0, 0, 0, 0, 0, 0, 0, 0, 0, 0, 0, 0, 0, 0, 0, 0, 0, 0,
];

/// The length in bytes of the first frame of `LOAD_AND_RUN`, the load, with its length field.
const FIRST_FRAME: usize = 28;

/// The replies to the frames of `LOAD_AND_RUN`: descriptor 3, and the result 1.
const REPLIES: [u8; 28] = [
    8, 0, 0, 0, 0, 0, 5, 0, 3, 0, 0, 0, 12, 0, 0, 0, 0, 0, 10, 0, 0, 0, 0, 0, 1, 0, 0, 0,
];

/// The length in bytes of the first reply of `REPLIES`, with its length field.
const FIRST_REPLY: usize = 12;

/// A frame of three bytes after its length field, which is too short for a head of four.
const SHORT_FRAME: [u8; 7] = [3, 0, 0, 0, 0xaa, 0xbb, 0xcc];

/// The replies to five times `SHORT_FRAME`: EINVAL (-22), with 65,535 as tenant and as command, since the frame has neither.
const SHORT_REPLIES: [u8; 60] = [
    8, 0, 0, 0, 255, 255, 255, 255, 234, 255, 255, 255, 8, 0, 0, 0, 255, 255, 255, 255, 234, 255,
    255, 255, 8, 0, 0, 0, 255, 255, 255, 255, 234, 255, 255, 255, 8, 0, 0, 0, 255, 255, 255, 255,
    234, 255, 255, 255, 8, 0, 0, 0, 255, 255, 255, 255, 234, 255, 255, 255,
];

/// What a reader does after its bytes: it gives none, fails, or gives them again.
#[derive(Clone, Copy)]
enum Then {
    Ends,
    Fails,
    BeginsAgain,
}

/// A reader that gives `bytes`, at most `at_once` in a call, and after them does as `then` says. `rest` are those not given yet.
#[derive(Drop)]
struct Input<'a> {
    bytes: &'a [u8],
    rest: &'a [u8],
    at_once: usize,
    then: Then,
}

impl Read for Input<'_> {
    /// Copies the next bytes of `rest` to the front of `buf`, at most `at_once` and at most as many as fit, removes them from `rest`, and
    /// returns their number. If `rest` is empty, the call returns 0, the end of the stream (`Ends`), fails (`Fails`), or begins again with
    /// all of `bytes` (`BeginsAgain`), as `then` says.
    fn read(&mut self, buf: &mut [u8]) -> io::Result<usize> {
        if self.rest.is_empty() {
            match self.then {
                // No bytes are left, so the call returns 0, the end.
                Then::Ends => {}
                Then::Fails => return Err(io::Error::from(ErrorKind::Other)),
                Then::BeginsAgain => self.rest = self.bytes,
            }
        }
        let count = self.rest.len().min(self.at_once).min(buf.len());
        let (given, rest) = self.rest.split_at(count);
        buf[..count].copy_from_slice(given);
        self.rest = rest;
        Ok(count)
    }
}

/// A writer with room for `room` more bytes, which takes at most `at_once` in a call. Its flush fails unless `flushes`. It compares what it
/// takes with `expected`, the bytes that have to come next; `differs` is true once it took others. Without room it takes no byte, which
/// ends a stream.
#[derive(Drop)]
struct Output<'a> {
    room: usize,
    at_once: usize,
    flushes: bool,
    expected: &'a [u8],
    differs: bool,
}

impl Write for Output<'_> {
    // Takes the first bytes of `buf`: at most `at_once`, the limit of one call, and at most `room`, all that the writer still has room for.
    // Returns their number, 0 without room, never an error. The bytes are compared with the front of `expected`: if they agree, it loses
    // them; if they do not, or if it has fewer bytes, `differs` becomes true.
    fn write(&mut self, buf: &[u8]) -> io::Result<usize> {
        let count = buf.len().min(self.at_once).min(self.room);
        match self.expected.split_at_checked(count) {
            Some((expected, rest)) if expected == &buf[..count] => self.expected = rest,
            _ => self.differs = true,
        }
        self.room -= count;
        Ok(count)
    }

    // Fails if `flushes` is false, so that a test sees how a stream ends if a flush fails. Else there is nothing to do: the writer keeps no
    // bytes back, since `write` has compared them with `expected` at once.
    fn flush(&mut self) -> io::Result<()> {
        if self.flushes {
            Ok(())
        } else {
            Err(io::Error::from(ErrorKind::Other))
        }
    }
}

/// The first `count` bytes, or all if there are fewer. With it the cases cut the input, and the replies that they expect.
fn front(bytes: &[u8], count: usize) -> &[u8] {
    bytes.get(..count).unwrap_or(bytes)
}

/// A stream of two tenants, at most `limit` frames of which are served; how it has to `end`, and how many calls of the reader and of the
/// writer have to fail.
struct Stream<'a> {
    input: Input<'a>,
    output: Output<'a>,
    limit: u8,
    end: Result<u32, ServeFault>,
    read_failures: u64,
    write_failures: u64,
}

/// Serves at most `limit` frames of the stream on a new host of two tenants. Its seed does not matter, since no frame makes a hash map.
/// Asserts that the result is `end`, that as many calls of the reader and of the writer failed as `read_failures` and `write_failures` say,
/// and that exactly the expected bytes are written: none differs, and `expected`, from which the writer removes the bytes that agree, is
/// empty. If the assertion fails, `rt` ends the test with a message: `case`, the name of a group of streams, and `number`, the length or
/// other number by which the streams of this group differ, for example `room for 12`.
fn assert_ends(rt: &impl Abort, alloc: Global, case: &str, number: usize, stream: Stream<'_>) {
    let Stream {
        input,
        output,
        limit,
        end,
        read_failures,
        write_failures,
    } = stream;
    let mut reader = Counted::new(input);
    let mut writer = Counted::new(output);
    let seed = HashSeed::new(1, 2);
    let found = serve_new_host(alloc, 2, seed, &mut reader, &mut writer, u32::from(limit));
    let is_counted = reader.failures() == read_failures && writer.failures() == write_failures;
    let Output {
        expected,
        differs,
        ..
    } = writer.into_inner();
    let is_written = !differs && expected.is_empty();
    assert!(rt; found == end && is_written && is_counted, "{case} {number}");
}

/// The stream from which each case makes its own, by changing the fields in which it differs. The reader gives `bytes`, all in one call if
/// the buffer has room, and after them ends, fails or gives them again (`then`). The writer has room for all bytes, flushes without an
/// error, and compares the bytes that it takes with `expected`. At most 100 frames are served (`limit`). `serve_new_host` has to return
/// `Ok(2)`, the number of frames that had a reply (`end`), without a failed call of the reader or of the writer.
fn stream_of<'a>(bytes: &'a [u8], then: Then, expected: &'a [u8]) -> Stream<'a> {
    Stream {
        input: Input {
            bytes,
            rest: bytes,
            at_once: usize::MAX,
            then,
        },
        output: Output {
            room: usize::MAX,
            at_once: usize::MAX,
            flushes: true,
            expected,
            differs: false,
        },
        limit: 100,
        end: Ok(2),
        read_failures: 0,
        write_failures: 0,
    }
}

/// How a stream has to end that has only the first `length` bytes of `LOAD_AND_RUN`, two frames of 80 bytes in all, and how many bytes of
/// replies have to be written. The number in `Ok` or in the fault is that of the frames that had a reply. The stream ends without a fault
/// if it has no byte, the first frame, or both frames. If it ends inside the first frame, or inside the second one (`_`: the only caller
/// passes no `length` above 80), the fault is `Truncated`.
fn end_of_cut(length: usize) -> (Result<u32, ServeFault>, usize) {
    match length {
        0 => (Ok(0), 0),
        FIRST_FRAME => (Ok(1), FIRST_REPLY),
        80 => (Ok(2), REPLIES.len()),
        1..FIRST_FRAME => (fault(ServeFaultKind::Truncated, 0), 0),
        _ => (fault(ServeFaultKind::Truncated, 1), FIRST_REPLY),
    }
}

/// Asserts of several streams how `serve_new_host` ends, which bytes it writes, and how many calls of the reader and the writer fail
/// (`assert_ends`; its text and number are for the message of a failed assertion). In the first streams the input, a load and a test run
/// (`LOAD_AND_RUN`), ends after each number of bytes, or fails after some. Then it is whole, but the output has room for only some bytes,
/// takes at most five in a call, or can't be flushed. Then the input has frames without end, one byte in a call, and five frames are
/// allowed. In the last two streams no frame is allowed: an empty input is no fault, but one byte is.
#[test]
fn streams_end_and_fail(rt: HostRuntime) {
    let alloc = rt.alloc();
    for length in 0..=LOAD_AND_RUN.len() {
        let (end, written) = end_of_cut(length);
        let input = front(&LOAD_AND_RUN, length);
        let mut stream = stream_of(input, Then::Ends, front(&REPLIES, written));
        stream.end = end;
        assert_ends(&rt, alloc, "cut after", length, stream);
    }
    // How many bytes are read before the failure, how many frames then have replies, and how many bytes these have.
    for (length, frames, written) in [(0, 0, 0), (5, 0, 0), (28, 1, 12), (40, 1, 12)] {
        let input = front(&LOAD_AND_RUN, length);
        let mut stream = stream_of(input, Then::Fails, front(&REPLIES, written));
        stream.input.at_once = 1;
        stream.end = fault(ServeFaultKind::Read, frames);
        stream.read_failures = 1;
        assert_ends(&rt, alloc, "failure of the reader after", length, stream);
    }
    for room in 0..REPLIES.len() {
        let mut stream = stream_of(&LOAD_AND_RUN, Then::Ends, front(&REPLIES, room));
        stream.output.room = room;
        stream.end = fault(
            ServeFaultKind::Write,
            if room < FIRST_REPLY { 0 } else { 1 },
        );
        stream.write_failures = 1;
        assert_ends(&rt, alloc, "room for", room, stream);
    }
    let mut slow = stream_of(&LOAD_AND_RUN, Then::Ends, &REPLIES);
    slow.output.at_once = 5;
    assert_ends(&rt, alloc, "bytes at once:", 5, slow);

    let mut stuck = stream_of(&LOAD_AND_RUN, Then::Ends, front(&REPLIES, FIRST_REPLY));
    stuck.output.flushes = false;
    stuck.end = fault(ServeFaultKind::Write, 0);
    stuck.write_failures = 1;
    assert_ends(&rt, alloc, "flushes:", 0, stuck);

    let mut endless = stream_of(&SHORT_FRAME, Then::BeginsAgain, &SHORT_REPLIES);
    endless.input.at_once = 1;
    endless.limit = 5;
    endless.end = fault(ServeFaultKind::TooManyFrames, 5);
    assert_ends(&rt, alloc, "endless, frames:", 5, endless);

    let mut empty = stream_of(&[], Then::Ends, &[]);
    empty.limit = 0;
    empty.end = Ok(0);
    assert_ends(&rt, alloc, "no frame is allowed, bytes:", 0, empty);

    // Any byte after the last frame allowed is too much, such as the first one of a length.
    let mut byte = stream_of(&[24], Then::Ends, &[]);
    byte.limit = 0;
    byte.end = fault(ServeFaultKind::TooManyFrames, 0);
    assert_ends(&rt, alloc, "no frame is allowed, bytes:", 1, byte);
}

/// The result that a test expects of `serve_new_host` on a stream on which it fails (the field `end` of `Stream`): a fault of this kind,
/// after `frames` frames had a reply. `fault` never returns `Ok`, which means the end of a stream without a fault, and has the number of
/// frames with a reply.
fn fault(kind: ServeFaultKind, frames: u32) -> Result<u32, ServeFault> {
    Err(ServeFault { kind, frames })
}

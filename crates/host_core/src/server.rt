//! Serving a whole stream.
//!
//! Contracts require that fewer than 2^64 - 1 calls of the reader, and of the writer, have failed before: they are counted in 64 bits.

ghost use Rattle.std.specs.Prelude.{◌≡◌, ℕ, ◌-◌, ◌<◌, ◌≤◌, ◌^◌, [], length, IfOk, IfErr, OnOk, OnErr, true, false};
ghost use Rattle.std.specs.Prelude.{◌∷◌};
ghost use Rattle.std.specs.Io.KnownBytes.{IsAtEnd};
ghost use Rattle.host_core.specs.declared.reading.TheConstants.{FRAME_BUFFER};
ghost use Rattle.std.specs.Prelude.{List};
ghost use Rattle.host_core.specs.Limits.{most_frames, most_tenants};
ghost use Rattle.host_core.specs.Stream.{Takes};
ghost use Rattle.host_core.specs.Served.{stream_state, ServesStream};
ghost use Rattle.host_core.specs.States.{new_host};
ghost use Rattle.host_core.specs.inside.Frame.{ServesFrameOrEnds, StopsInFrame};
ghost use Rattle.tenant.specs.State.{TenantState};

use crate::host::Host;
use crate::laws;
use crate::reading::{FRAME_BUFFER, fill, read_frame};
use crate::stream::{Sink, Source};
use crate::writing::write_whole;
use command_frames::ReplyBuf;
use seeded_hash::HashSeed;
use std::alloc::{AllocError, Global};

/// The greatest `limit` on the frames of one call of `serve`, chosen by this project.
pub const MOST_FRAMES: u32 = 16_777_216;

/// Why a stream was not served to its end.
#[derive(Clone, Copy, Debug, PartialEq, Eq)]
pub enum ServeFaultKind {
    /// A call of the reader failed.
    Read,
    /// A call of the writer failed.
    Write,
    /// The input ended inside a frame, which has no reply and no effect.
    Truncated,
    /// As many frames as the limit allows got replies, and another byte follows.
    TooManyFrames,
    /// Out of memory for the buffers. Nothing was read or written.
    Memory,
}

/// Why a stream was not served to its end, and how many replies were written whole and flushed.
#[derive(Clone, Copy, Debug, PartialEq, Eq)]
pub struct ServeFault {
    pub kind: ServeFaultKind,
    pub frames: u32,
}

/// The buffers for a frame, of `FRAME_BUFFER` bytes, and for a reply.
#[derive(Drop)]
struct Buffers {
    frame: Vec<u8>,
    reply: ReplyBuf,
    ghost long: { length frame.items ≡ FRAME_BUFFER },
}

impl Buffers {
    /// Allocates the two buffers that all frames of a stream use: for a frame `FRAME_BUFFER` zero bytes, one more than the longest valid
    /// frame has, so that what is kept of a longer frame is too long as well; and the buffer for a reply. `AllocError`: out of memory.
    fn new(alloc: Global) -> Result<Buffers, AllocError> {
        Ok(Buffers {
            frame: vec![in alloc; 0; FRAME_BUFFER]?,
            reply: ReplyBuf::new(alloc)?,
        })
    }
}

/// Reads a frame, handles it, writes its reply and flushes, and returns true; or returns false, and changes nothing, if the input ends
/// before a frame (`done`). It fails (`fault`) by `Truncated` if the input ends inside a frame, and by `Read` if a call of the reader
/// failed: then no state has changed, and nothing was written. It fails by `Write` if a call of the writer failed: then the frame was
/// handled, and a prefix of its reply written. A frame that is longer than the buffer is too long for any command, so its reply depends
/// only on its head, the tenant and the command number. For such a frame the whole buffer is handled, which begins with the frame's head
/// and is too long for any command as well. `stream_state` has the tenants' states, the bytes that the reader has left and those that the
/// writer holds, if known, and how many calls of each have failed. Before the call these two numbers are less than 2^64 - 1 (`reader`,
/// `writer`), as they are counted in 64 bits.
fn serve_frame<R: Source, W: Sink>(
    host: &mut Host,
    reader: &mut R,
    writer: &mut W,
    buffers: &mut Buffers,
) -> Result<bool, ServeFaultKind>
    requires reader { R.failures reader.old < 2 ^ 64 - 1 }
    requires writer { W.failures writer.old < 2 ^ 64 - 1 }
    ensures done { IfOk result (ServesFrameOrEnds
        (stream_state R.Source W.Sink host.old.states reader.old writer.old)
        (stream_state R.Source W.Sink host.new.states reader.new writer.new)) }
    ensures fault { IfErr result (StopsInFrame
        (stream_state R.Source W.Sink host.old.states reader.old writer.old)
        (stream_state R.Source W.Sink host.new.states reader.new writer.new)) }
{
    let Some(kept) = read_frame(reader, &mut buffers.frame)? else {
        return Ok(false);
    };
    host.handle(&buffers.frame[..kept], &mut buffers.reply);
    write_whole(writer, buffers.reply.bytes())?;
    Ok(true)
}

/// Whether no byte of the input is left. `serve` calls this after as many frames as its `limit` allows: any byte after them is the fault
/// `TooManyFrames`. `end`: if true, no byte was read (`Takes` with `[]`), and none is left. `more`: if false, one more byte was read, and
/// is lost. `sound`: in both cases no call of the reader failed. The error is `Read` (`kind`): a call of the reader failed, and no byte was
/// read (`failed`). If the reader's bytes are not known (`remaining` is `None`), the clauses claim nothing about bytes. Fewer than 2^64 - 1
/// calls of the reader have failed before: they are counted in 64 bits (`failures`).
fn is_at_end<R: Source>(reader: &mut R) -> Result<bool, ServeFaultKind>
    requires { R.failures reader.old < 2 ^ 64 - 1 }
    ensures end { IfOk result (λ end. end ≡ true → Takes R.remaining reader.old reader.new []
        × IsAtEnd (R.remaining reader.new)) }
    ensures more { IfOk result (λ end. end ≡ false → (byte : ℕ)
        × Takes R.remaining reader.old reader.new (byte ∷ [])) }
    ensures sound { OnOk result (R.failures reader.new ≡ R.failures reader.old) }
    ensures kind { IfErr result (λ kind. kind ≡ ServeFaultKind.Read) }
    ensures failed { OnErr result (Takes R.remaining reader.old reader.new []
        × (R.failures reader.old < R.failures reader.new)) }
{
    let mut byte = [0; 1];
    let count = fill(reader, &mut byte)?;
    Ok(count == 0)
}

/// Serves a stream to the tenants of `host`: reads a frame, handles it, writes and flushes its reply, and so on until the input ends or
/// `limit` frames, at most `MOST_FRAMES`, got replies. Returns the number of these frames. Fewer than 2^64 - 1 calls of the reader, and of
/// the writer, have failed before: they are counted in 64 bits. `ServesStream` is about the states of the stream before and after the call:
/// which frames were read, which bytes were written, and, unless a call of the writer failed, that each tenant to which no memory was
/// refused got the replies of its own machine.
///
/// # Errors
///
/// `frames` of the `ServeFault` counts the replies that were written whole and flushed. `kind`: `Read` or `Write` if a call of the reader
/// or the writer failed; `Truncated` if the input ends inside a frame; `TooManyFrames` if another byte, which is read, follows the last
/// frame allowed; `Memory` if out of memory for the buffers, before anything is read.
pub fn serve<R: Source, W: Sink>(
    alloc: Global,
    host: &mut Host,
    reader: &mut R,
    writer: &mut W,
    limit: u32,
) -> Result<u32, ServeFault>
    requires limit { limit ≤ most_frames }
    requires reader { R.failures reader.old < 2 ^ 64 - 1 }
    requires writer { W.failures writer.old < 2 ^ 64 - 1 }
    ensures { ServesStream limit result
        (stream_state R.Source W.Sink host.old.states reader.old writer.old)
        (stream_state R.Source W.Sink host.new.states reader.new writer.new) }
{
    let Ok(mut buffers) = Buffers::new(alloc) else {
        return Err(ServeFault {
            kind: ServeFaultKind::Memory,
            frames: 0,
        });
    };
    // For the proof of what each tenant gets: a law, which does nothing.
    laws::calls_are_served_alone();
    for frames in 0..limit {
        match serve_frame(host, reader, writer, &mut buffers) {
            Ok(true) => {}
            Ok(false) => return Ok(frames),
            Err(kind) => return Err(ServeFault { kind, frames }),
        }
    }
    match is_at_end(reader) {
        Ok(true) => Ok(limit),
        Ok(false) => Err(ServeFault {
            kind: ServeFaultKind::TooManyFrames,
            frames: limit,
        }),
        Err(kind) => Err(ServeFault {
            kind,
            frames: limit,
        }),
    }
}

/// Serves a stream by `serve`, on a new host for 1 to `MOST_TENANTS` tenants, until the input ends or `limit` frames, at most
/// `MOST_FRAMES`, got replies; then frees the host. Returns the number of these frames. The keys of the host's hash maps are hashed with
/// `seed`. Fewer than 2^64 - 1 calls of the reader, and of the writer, have failed before: they are counted in 64 bits. `ServesStream` has
/// which frames were read, which bytes were written, and, unless a call of the writer failed, that each tenant to which no memory was
/// refused got the replies of its own machine, from the state of a new tenant on. A `stream_state` has the states of the tenants, and what
/// contracts see of the reader (by `R.Source`) and of the writer (by `W.Sink`). The states after the call are only some `states`, since the
/// host is freed.
///
/// # Errors
///
/// `frames` of the `ServeFault` counts the replies that were written whole and flushed. `kind`: `Read` or `Write` if a call of the reader
/// or the writer failed, `Truncated` if the input ends in a frame, `TooManyFrames` if another byte, which is read, follows the last frame
/// allowed, `Memory` if out of memory for host or buffers: then nothing was read or written, and `frames` is 0.
pub fn serve_new_host<R: Source, W: Sink>(
    alloc: Global,
    tenants: usize,
    seed: HashSeed,
    reader: &mut R,
    writer: &mut W,
    limit: u32,
) -> Result<u32, ServeFault>
    requires some { 1 ≤ tenants }
    requires few { tenants ≤ most_tenants }
    requires limit { limit ≤ most_frames }
    requires reader { R.failures reader.old < 2 ^ 64 - 1 }
    requires writer { W.failures writer.old < 2 ^ 64 - 1 }
    ensures { (states : List TenantState) × ServesStream limit result
        (stream_state R.Source W.Sink (new_host tenants).states reader.old writer.old)
        (stream_state R.Source W.Sink states reader.new writer.new) }
{
    let Ok(mut host) = Host::new(alloc, tenants, seed) else {
        return Err(ServeFault {
            kind: ServeFaultKind::Memory,
            frames: 0,
        });
    };
    serve(alloc, &mut host, reader, writer, limit)
}

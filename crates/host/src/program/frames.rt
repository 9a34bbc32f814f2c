//! The subcommand `serve`: frames in, replies out. Its contract requires that fewer than 2^64 - 1 calls of each stream have failed
//! before, since they are counted in 64 bits.

ghost use Rattle.std.specs.Prelude.{◌<◌, ◌≤◌, ◌-◌, ◌^◌, replicate};
ghost use Rattle.host_core.specs.State.{new_tenant};
ghost use Rattle.host_core.specs.Served.{stream_state};
ghost use Rattle.host_core.specs.Limits.{most_tenants};
ghost use Rattle.host.specs.inside.program.Frames.{ServesNewHost};

use crate::program::failure::Failure;
use host_core::{HashSeed, MOST_FRAMES, Sink, Source, serve_new_host};
use std::alloc::Global;

/// Serves the frames of `reader`, at most `MOST_FRAMES`, on a new host of 1 to `MOST_TENANTS` tenants (`some`, `few`), and writes the
/// replies to `writer`. The keys of hash maps are hashed with `seed`. Fewer than 2^64 - 1 calls of each stream have failed before (`reads`,
/// `writes`), so that the count of failed calls fits in 64 bits. By `ServesNewHost` the promise of `serve` (`host_core`) holds from new
/// tenants and the streams before the call (the first `stream_state`) to the streams after it and some `states` of the tenants (the
/// second). These states are not returned, since the host is freed; nor is the number of frames, which no caller needs.
///
/// # Errors
///
/// The failure for a fault of `serve_new_host`: `Read` or `Write` if a call of that stream failed, `Truncated` if the input ends inside a
/// frame, `TooManyFrames` if another byte follows `MOST_FRAMES` frames, `Memory` if out of memory for the host or the buffers.
pub(crate) fn serve_frames<R: Source, W: Sink>(
    alloc: Global,
    tenants: usize,
    seed: HashSeed,
    reader: &mut R,
    writer: &mut W,
) -> Result<(), Failure>
    requires some { 1 ≤ tenants }
    requires few { tenants ≤ most_tenants }
    requires reads { R.failures reader.old < 2 ^ 64 - 1 }
    requires writes { W.failures writer.old < 2 ^ 64 - 1 }
    ensures { ServesNewHost result
        (stream_state R.Source W.Sink (replicate tenants new_tenant) reader.old writer.old)
        (λ states. stream_state R.Source W.Sink states reader.new writer.new) }
{
    serve_new_host(alloc, tenants, seed, reader, writer, MOST_FRAMES)?;
    Ok(())
}

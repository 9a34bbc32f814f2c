//! What a caller can prove of a host and of a stream only from the contracts. Nothing calls these functions; their seeds and limits of
//! frames are arbitrary.

ghost use Rattle.std.specs.Prelude.{◌≡◌, ◌≤◌, ◌<◌, ◌-◌, ◌^◌, ℕ, List, [], ◌∷◌, replicate, slice_get, IfSome};
ghost use Rattle.command_frames.specs.Frame.{owner};
ghost use Rattle.tenant.specs.Alone.{IsRefusedMemory, IsServedAlone};
ghost use Rattle.tenant.specs.State.{TenantState, new_tenant};
ghost use Rattle.host_core.specs.Handled.{Handles};
ghost use Rattle.host_core.specs.Served.{stream_state, ServesAlone};
ghost use Rattle.host_core.specs.Saving.{AreRestored};
ghost use Rattle.host_core.specs.Limits.{most_frames, most_tenants};

use crate::host::{Host, MOST_TENANTS};
use crate::laws::each_stretch_is_served_alone;
use crate::server::{MOST_FRAMES, serve, serve_new_host};
use crate::stream::{Sink, Source};
use command_frames::ReplyBuf;
use seeded_hash::HashSeed;
use std::alloc::Global;

/// Shows what a caller can prove only from the contract of `serve_new_host`; nothing calls this function. If a new host serves a stream to
/// its end, each tenant to which no memory was refused gets exactly the replies that the machine of a new tenant gives to its frames
/// (`ServesAlone`). Returns the number of replies; `None` at a fault, for which this contract promises nothing. A byte after the 100th
/// frame is a fault as well (`TooManyFrames`): the last argument of `serve_new_host`, here 100, is the limit on the frames that get
/// replies. This limit and the seed are arbitrary. A `stream_state` has the states of the tenants, which are new at first and `after` at
/// the end, and what contracts see of reader and writer. `[]` is the list of the bytes after the last whole frame: there are none. The host
/// has 1 to `MOST_TENANTS` tenants (`some`, `few`), and fewer than 2^64 - 1 calls of the reader and of the writer have failed before, as
/// they are counted in 64 bits (`reader`, `writer`).
fn serve_from_the_beginning<R: Source, W: Sink>(
    alloc: Global,
    tenants: usize,
    reader: &mut R,
    writer: &mut W,
) -> Option<u32>
    requires some { 1 ≤ tenants }
    requires few { tenants ≤ most_tenants }
    requires reader { R.failures reader.old < 2 ^ 64 - 1 }
    requires writer { W.failures writer.old < 2 ^ 64 - 1 }
    ensures { IfSome result (λ count. (after : List TenantState) × ServesAlone
        (stream_state R.Source W.Sink (replicate tenants new_tenant) reader.old writer.old)
        (stream_state R.Source W.Sink after reader.new writer.new)
        count []) }
{
    serve_new_host(alloc, tenants, HashSeed::new(0, 0), reader, writer, 100).ok()
}

/// Shows from the contracts that a host can be saved after a stream. Lets a host, which may be in any state, serve a stream, to its end or
/// to a fault. The limit of 100 frames is arbitrary; a byte after the 100th is such a fault (`TooManyFrames`). Then all parts of a save of
/// each tenant, one after another, restore this tenant (`AreRestored`): a new tenant that has handled their frames replies as the saved one
/// does, while no memory is refused to either. `serve` requires `reader` and `writer`: fewer than 2^64 - 1 calls of each have failed
/// before, as they are counted in 64 bits. Nothing calls this function.
fn serve_and_save<R: Source, W: Sink>(
    alloc: Global,
    host: &mut Host,
    reader: &mut R,
    writer: &mut W,
)
    requires reader { R.failures reader.old < 2 ^ 64 - 1 }
    requires writer { W.failures writer.old < 2 ^ 64 - 1 }
    ensures { AreRestored host.new }
{
    let _ = serve(alloc, host, reader, writer, 100);
    host.tenants_are_restored();
}

/// Shows from the contracts that a reply is exact also after memory was refused. Handles the frame `refused`, for which memory may be
/// refused: `first` is its reply, and `between` are the states of all tenants after it. Then handles `next`, so that `reply` has the reply
/// to `next`. Unless the status of this reply is `NoMemory` (`IsRefusedMemory`), it is exactly the one that the machine of the tenant of
/// `next` (`owner`) gives without refusals, from the tenant's state in `between` to that in `host` at the end (`IsServedAlone`), even if
/// memory was refused to this tenant before. This follows from the law `each_stretch_is_served_alone`, which does nothing when it runs.
fn handle_after_a_refusal(host: &mut Host, refused: &[u8], next: &[u8], reply: &mut ReplyBuf)
    ensures { (first : List ℕ) × (between : List TenantState)
        × Handles host.old.states refused.now first between
        × (¬ IsRefusedMemory reply.new → IsServedAlone (slice_get between (owner next.now))
        (next.now ∷ []) (reply.new ∷ []) (slice_get host.new.states (owner next.now))) }
{
    each_stretch_is_served_alone();
    host.handle(refused, reply);
    host.handle(next, reply);
}

/// Shows that a host's limit on tenants is the same in the code (`MOST_TENANTS`, the result) and in the definitions (`most_tenants`).
/// Nothing calls this function: only its contract is of use.
fn tenants_of_the_largest_host() -> usize
    ensures { result ≡ most_tenants }
{
    MOST_TENANTS
}

/// Returns `MOST_FRAMES`, the greatest limit that a call of `serve` may have on its frames. Nothing calls this function: its contract shows
/// that the constant of the code is the number of the definitions (`most_frames`).
fn frames_of_the_longest_call() -> u32
    ensures { result ≡ most_frames }
{
    MOST_FRAMES
}

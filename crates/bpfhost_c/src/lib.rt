//! The host as a library for C: sixteen functions, and handles that are one pointer each. The header is `clients/c/include/bpfhost.h`.
//!
//! A session (`Session`) is a host with its last reply and the last part of a save; a `Handle` owns one or is empty, and contracts see
//! which. The header declares these functions and adds others in C, which are tested and not proved; so is the crate for Rust,
//! `clients/rust`. The header has no `alloc` in these functions: a `Global` has no bytes, and C passes nothing for it.
//!
//! # What is proved
//!
//! - A host with this number of new tenants is created if the number is in range, the handle is empty and there is memory.
//!   Otherwise the code names the first of these conditions that fails, and the handle is unchanged. No clause names the seed:
//!   `made`, `otherwise`, `code`, `memory` of `bpfhost_c_new`.
//! - A frame is handled as `Host::handle` promises (`Handles`): the reply is that of its tenant's machine, no other tenant
//!   changes, no reply has the status of a fault. The reply is at the front of the room, with nothing changed after it: `done`
//!   of `bpfhost_c_handle`.
//! - The same, and the reply is at the returned address, with the returned length: `done` of `bpfhost_c_handle_lent`.
//! - A reply has at most 4,108 bytes: `bound` of both.
//! - The code says whether the room is too small or the handle empty; then host, room and length are unchanged: `code`,
//!   `otherwise`, `room`, `written`, `lent` of both.
//! - Many packets are run as `Host::run_packets` promises (`RunsPackets`): the status is 0 and the results are at the front of
//!   the room, or the status is that of the rejection, and states and room are unchanged. No other tenant changes: `done` of
//!   `bpfhost_c_run_packets`.
//! - A batch with a bound on executed instructions is the batch of its first packets, as many as the bound allows by the cost of the
//!   program, and their number is written (`RunsBounded`, `IsAllowedFor`): `done` of `bpfhost_c_run_packets`.
//! - Contexts of any size are brought to the words that a run is given (`contexts_of`): `done` of `bpfhost_c_run_packets`. The code
//!   says whether the handle is empty, and whether a context is of no size or has a word that is not known and not zero
//!   (`run_code`); then, or out of memory, host, room and status are unchanged: `code`, `memory`, `otherwise`, `results`, `status`
//!   of `bpfhost_c_run_packets`.
//! - The result of asking whether memory was refused to a tenant is that of the headline (`IsUnrefused`), and nothing changes:
//!   `refused`, `unrefused`, `code`, `host`, `otherwise` of `bpfhost_c_memory_refused`.
//! - The frames of a part of a tenant are those of `Host::save`, and are at the returned address, with the returned length; the
//!   code says whether there is such a part (`save_code`), unless out of memory. The parts of each tenant restore it, whatever
//!   calls the host had (`AreRestored`). No tenant changes: `done`, `code`, `restored`, `host`, `lent` of `bpfhost_c_save`.
//! - A program is verified without a host. It is accepted with the objects that its descriptors are to name, and stored; or it is refused,
//!   with the status, the slot and the number of the reason of PROG_LOAD (`Prepares`): `done`, `code`, `memory`, `otherwise`, `refusal` of
//!   `bpfhost_c_prepare`.
//! - A prepared program is installed as `Host::install` promises: what happens is what happens at the frame that loads it, and the status
//!   is that of the reply; then it is used up. Or a descriptor of its maps names no map of its shape, which the code says, and nothing
//!   changes: `done`, `fits`, `stale`, `code`, `there`, `empty`, `otherwise`, `kept`, `status` of `bpfhost_c_install`.
//! - A prepared program that is freed leaves an empty handle: `bpfhost_c_prepared_free`.
//! - A new host has new tenants without births: `made` of `bpfhost_c_new`. The other calls do to states and births what calls of
//!   a host do (`Call`), or nothing: `call` of `bpfhost_c_handle`, `call` of `bpfhost_c_handle_lent`, `call` of
//!   `bpfhost_c_run_packets`, `call` of `bpfhost_c_install`.
//! - The counts of a tenant are those of its state: live maps, their keys, the bytes of their values, programs and descriptors, and
//!   whether memory was refused: `done`, `refused` of `bpfhost_c_status`. What a descriptor names is what the state says, with the
//!   shape and the number of keys of a map: `done` of `bpfhost_c_describe`. What its program costs is the most instructions, and the
//!   most calls, on a path through it: `done` of `bpfhost_c_program_cost`. Nothing changes.
//! - The log of slots is that of `log_core`, for the objects that the tenant's descriptors name: as lines it ends with the verdict of
//!   the definition, and slots that are no program get the line of their refusal. The room has its front, with a zero byte after it;
//!   the length is that of the whole: `done` of `bpfhost_c_verify`. The code says whether the handle is empty or there is no such
//!   style, unless out of memory (`verify_code`); then nothing is written. The host is unchanged.
//! - A host that is freed leaves an empty handle: `bpfhost_c_free`.
//! - The version and the number of the binary interface are the constants of this crate: `bpfhost_c_version`, `bpfhost_c_abi`.
//! - A handle may be sent from thread to thread: `Send` for `Handle`, `Send` for `Prepared`.
//!
//! From `Handles` of each call and `calls_are_served_alone` of `host_core` follows what the headline says of a stream;
//! `batch_is_its_calls` replaces a call with many packets by its frames.
//!
//! An empty handle owns nothing, any other what a box of a session owns (`handle_owns`). So the library frees what it
//! allocated, and an empty handle keeps no memory. For a lent reply a contract only gives the address: the vector of the
//! session has its bytes there (`IsReplyAt`), the handle owns the session, and the owner of the handle may read them until the
//! next call changes it.
//!
//! The caller's obligations in C, which no contract can check: a pointer points to what its type says; a frame, a room and a
//! handle do not overlap; a handle is in one call at a time. The header tests for null, lengths and overlaps, and documents the
//! rest.
//!
//! # Decisions
//!
//! - A handle is one pointer, and empty if it is null. So a second `new` can keep the first host, a second `free` does nothing,
//!   and a call on an empty handle returns a code. The type defines what a handle owns (`handle_owns`), in terms of the kit's
//!   `Box`.
//! - Each call takes the session out of the handle, works on it as on any box, and puts it back. Only three functions of each kind
//!   of handle touch its raw pointer (`empty`, `from_raw_box`, `into_raw_box`), and two of `RawBox`; only the ownership in these is proved
//!   by hand. It costs moves of a pointer.
//! - A lent reply is an address. Three forms were tried. A `&` returned through a parameter, with a lifetime from the handle's
//!   `&mut`: the handle has no value after the call, and a function that stores the reference would need a proof of ownership
//!   by hand. A `&` to a handle that shares its session (`also_shares`): the kit exports no function over such a type. So the
//!   contract gives the address of the bytes, that of the session's vector; that they stay there until the next call follows
//!   from the caller's ownership of the handle. For this the session keeps a vector, and lends its capacity to a `ReplyBuf`
//!   while it handles a frame.
//! - The frames of a part are lent like a reply, since only the library knows their number of bytes. A handle keeps the last
//!   part until the next save frees it.
//! - The library uses `host_core`, tenants and streams without the command line, and `log_core`, the verifier's log without its
//!   command line, so it contains nothing of `clap`. Of the text of programs it has the disassembler, for the log.
//! - Counts and descriptions are structs of a fixed layout, which are those of `tenant`: C reads what is proved there.
//! - The caller passes the seed of the hash maps: so the archive needs nothing of the system except memory, and an embedder may
//!   have a better source. The header reads one from /dev/urandom; the crate for Rust uses the standard library.
//! - A batch is run or rejected as a whole: everything is checked before the first packet runs. A bound on executed instructions makes
//!   it shorter before that: packets after those that the bound allows are not even checked, so a caller with many packets pays for
//!   each once. The number of packets follows only from the cost of the program (`Verified::cost`), and no run is stopped; one packet
//!   is always allowed, so that a caller makes progress with any bound. The order of errors is that of PROG_TEST_RUN, with those that
//!   a frame cannot have in between: the tenant is not served (-1); the descriptor is not open (-9), or names a map (-22); there is
//!   room for fewer results than packets (-22); there is neither one context nor one for each packet (-22); then packet by packet, its
//!   end is before the previous one or after the bytes (-22), or it is too long (-7). An empty batch of what is no program is rejected
//!   too.
//! - Packets are consecutive in one buffer, and each has its end, a number of machine size, since a batch may have more than 4
//!   GiB. All have the same context, or each its own, one after another; the length is that of each packet. A shared context is one
//!   of one, and no second function.
//! - Contexts have a size, in words and once for all of a call, as attributes have one in bpf(2): a program that was compiled for
//!   fewer or more words runs with this library. Those of as many words as a run is given are not copied; others are
//!   copied. Bytes, packets and the seed never grow, and have no size.
//! - The version and the number of the binary interface are functions, since a header is compiled into its caller and can't know which
//!   library it meets. The header makes no host if the numbers differ.
//! - Whether memory was refused is a call of its own, for each tenant, and no part of each reply: replies are those of the
//!   protocol, and the flag is never cleared.
//! - A prepared program is a handle of its own, of the same form: so it can be prepared on one thread and installed on another, and a
//!   second installation, or one after it was freed, returns a code.
//! - A program is prepared for at most 64 descriptors, as many as a tenant can have open. So the list of its objects is short, and its
//!   installation takes little time.
//! - Codes are the library's, statuses the protocol's: the code says whether there is a reply, the status in the reply is the
//!   result of the command.
//! - The archive `libbpfhost.a` has this crate and the kit's three calls of malloc, realloc and free (`tools/library`). `rt ci`
//!   builds no static library, and `rt lib` would prove all crates again, so the gate builds the archive once more over the
//!   libraries that it has proved (`tests/library/run`).
#![tactic(auto)]

mod codes;
mod contexts;
mod costs;
mod handle;
mod inspection;
mod prepared;
mod preparing;
mod raw_box;
mod session;
mod verifying;
mod version;

ghost use Rattle.std.specs.Prelude.{◌≡◌, ◌≢◌, ◌≤◌, ℕ, List, ◌++◌, length, drop, slice_get, true, false, Some, None};
ghost use Rattle.host_core.specs.Frame.{longest_reply};
ghost use Rattle.host_core.specs.Handled.{Handles};
ghost use Rattle.host_core.specs.Saving.{Call, AreRestored, saved_part};
ghost use Rattle.host_core.specs.Served.{IsUnrefused};
ghost use Rattle.host_core.specs.States.{new_host};
ghost use Rattle.bpfhost_c.specs.Calls.{states, host_of, IsReplyAt, SavedAt, new_code, host_code, room_code, run_code, save_code};
ghost use Rattle.bpfhost_c.specs.Contexts.{contexts_of};
ghost use Rattle.bpfhost_c.specs.Packets.{RunsBounded};
ghost use Rattle.bpfhost_c.specs.declared.codes.TheConstants.{DONE, ERR_NO_HOST, ERR_NO_MEMORY};
ghost use Rattle.bpfhost_c.specs.declared.version.TheConstants.{VERSION, ABI};

use codes::{
    DONE, ERR_BUFFER_TOO_SMALL, ERR_HAS_HOST, ERR_NO_HOST, ERR_NO_MEMORY, ERR_NO_PART,
    ERR_TENANT_COUNT,
};
pub use costs::{ProgramCost, bpfhost_c_program_cost};
use handle::Handle;
use host_core::{HashSeed, LONGEST_REPLY, MOST_TENANTS};
pub use inspection::{bpfhost_c_describe, bpfhost_c_status};
pub use preparing::{
    Descriptor, PreparedRefusal, bpfhost_c_install, bpfhost_c_prepare, bpfhost_c_prepared_free,
};
use session::{Session, SizedBatch};
use std::alloc::Global;
pub use verifying::{Logged, bpfhost_c_verify};
use version::{ABI, VERSION};

/// The address and the number of the bytes that a call lends: a reply, or the frames of a part of a save. They lie in the library's own
/// memory, and the caller may read them until the next call with the handle.
#[derive(Drop)]
#[repr(C)]
pub struct Lent {
    pub at: *const u8,
    pub length: usize,
}

/// Creates a host for 1 to `MOST_TENANTS` tenants, and stores it in an empty handle. `first` and `second` are the seed of its hash maps:
/// two words that the caller draws at random and keeps secret from tenants.
///
/// Returns `DONE`; else `ERR_TENANT_COUNT`, `ERR_HAS_HOST` or `ERR_NO_MEMORY`, and the handle is unchanged: a host that `take` finds in it
/// is put back.
#[unsafe(no_mangle)]
pub extern "C" fn bpfhost_c_new(
    alloc: Global,
    handle: &mut Handle,
    tenants: usize,
    first: u64,
    second: u64,
) -> i32
    ensures made { result ≡ DONE → host_of handle.new.session ≡ new_host tenants }
    ensures otherwise { result ≢ DONE → handle.new.session ≡ handle.old.session }
    ensures code { result ≢ ERR_NO_MEMORY → result ≡ new_code handle.old.session tenants }
    ensures memory { result ≡ ERR_NO_MEMORY → new_code handle.old.session tenants ≡ DONE }
{
    if tenants < 1 || MOST_TENANTS < tenants {
        return ERR_TENANT_COUNT;
    }
    if let Some(session) = handle.take(alloc) {
        handle.put(session);
        return ERR_HAS_HOST;
    }
    match Session::new(alloc, tenants, HashSeed::new(first, second)) {
        Ok(session) => {
            handle.put(session);
            DONE
        }
        Err(_) => ERR_NO_MEMORY,
    }
}

/// Copies `bytes` to the front of `room`, whose rest is unchanged (`room`), and returns their number (`count`). The contract requires that
/// they fit: `bpfhost_c_handle`, the only caller, copies a reply, after it has tested that `room` has at least `LONGEST_REPLY` bytes.
fn copy_to_front(bytes: &[u8], room: &mut [u8]) -> usize
    requires { length bytes.now ≤ length room.old }
    ensures count { result ≡ length bytes.now }
    ensures room { room.new ≡ bytes.now ++ drop (length bytes.now) room.old }
{
    let count = bytes.len();
    room[..count].copy_from_slice(bytes);
    count
}

/// Handles a frame (what follows the length field) of any length, copies the reply to the front of `room` and its length to
/// `written`. `room` needs `LONGEST_REPLY` bytes for every frame: how long a reply is, is known only when the frame was handled.
///
/// Returns `DONE`; else `ERR_BUFFER_TOO_SMALL` or `ERR_NO_HOST`, and the host, `room` and `written` are unchanged.
#[unsafe(no_mangle)]
pub extern "C" fn bpfhost_c_handle(
    alloc: Global,
    handle: &mut Handle,
    frame: &[u8],
    room: &mut [u8],
    written: &mut usize,
) -> i32
    ensures done { result ≡ DONE → (reply : List ℕ)
        × Handles (states handle.old.session) frame.now reply (states handle.new.session)
        × (written.new ≡ length reply) × (room.new ≡ reply ++ drop (length reply) room.old) }
    ensures bound { result ≡ DONE → written.new ≤ longest_reply }
    ensures code { result ≡ room_code handle.old.session (length room.old) }
    ensures call { Call (host_of handle.old.session) (host_of handle.new.session) }
    ensures otherwise { result ≢ DONE → handle.new.session ≡ handle.old.session }
    ensures room { result ≢ DONE → room.new ≡ room.old }
    ensures written { result ≢ DONE → written.new ≡ written.old }
{
    if room.len() < LONGEST_REPLY {
        return ERR_BUFFER_TOO_SMALL;
    }
    let Some(mut session) = handle.take(alloc) else {
        return ERR_NO_HOST;
    };
    session.handle(frame);
    *written = copy_to_front(&session.reply, room);
    handle.put(session);
    DONE
}

/// Handles a frame (what follows the length field) of any length, and writes the address and the length of the reply, in the session's own
/// buffer, to `lent`. They are valid until the next call with this handle.
///
/// Returns `DONE`; else `ERR_NO_HOST`, and the handle and `lent` are unchanged.
#[unsafe(no_mangle)]
pub extern "C" fn bpfhost_c_handle_lent(
    alloc: Global,
    handle: &mut Handle,
    frame: &[u8],
    lent: &mut Lent,
) -> i32
    ensures done { result ≡ DONE → (reply : List ℕ)
        × Handles (states handle.old.session) frame.now reply (states handle.new.session)
        × IsReplyAt handle.new.session reply lent.new.at lent.new.length }
    ensures bound { result ≡ DONE → lent.new.length ≤ longest_reply }
    ensures code { result ≡ host_code handle.old.session }
    ensures call { Call (host_of handle.old.session) (host_of handle.new.session) }
    ensures otherwise { result ≢ DONE → handle.new.session ≡ handle.old.session }
    ensures lent { result ≢ DONE → lent.new ≡ lent.old }
{
    let Some(mut session) = handle.take(alloc) else {
        return ERR_NO_HOST;
    };
    session.handle(frame);
    lent.at = session.reply.as_ptr();
    lent.length = session.reply.len();
    handle.put(session);
    DONE
}

/// Runs the program at descriptor `fd` of a tenant on many packets, one after another. The packets lie one after another in `bytes`, and
/// `ends` has for each packet the number of bytes up to its end. `contexts` has one context for all packets, or one for each. Each context
/// has `size` words: if they are fewer than a run is given, the others count as 0; if they are more, the rest have to be 0.
///
/// A `bound` that is not 0 makes the batch shorter. Each run counts for the most instructions of the program, and `CALL_WEIGHT` (of the
/// crate `tenant`) more for each call of a helper. As many of the first packets are run as count for at most `bound` together, but at
/// least one.
///
/// Writes the result of each packet to the front of `results`, 0 to `status` and the number of packets to `ran`; or, if the batch is
/// rejected, the status of the error that its frames would get, and 0 to `ran`, and then no packet was run.
///
/// Returns `DONE`; else `ERR_NO_HOST`, `ERR_SIZE` (`size` is 0 or the last context is cut off), `ERR_TOO_BIG` (a word that has to be 0 is
/// not) or `ERR_NO_MEMORY`, and the host, `results`, `status` and `ran` are unchanged. Contexts of as many words as a run is given take no
/// memory.
#[unsafe(no_mangle)]
pub extern "C" fn bpfhost_c_run_packets(
    alloc: Global,
    handle: &mut Handle,
    tenant: u16,
    fd: u32,
    bound: u64,
    contexts: &[u32],
    size: usize,
    bytes: &[u8],
    ends: &[usize],
    results: &mut [u32],
    status: &mut i32,
    ran: &mut usize,
) -> i32
    ensures done { result ≡ DONE → RunsBounded tenant fd bound (contexts_of size contexts.now)
        bytes.now ends.now results.old results.new status.new ran.new (states handle.old.session)
        (states handle.new.session) }
    ensures code { result ≢ ERR_NO_MEMORY
        → result ≡ run_code handle.old.session size contexts.now }
    ensures memory { result ≡ ERR_NO_MEMORY
        → run_code handle.old.session size contexts.now ≡ DONE }
    ensures call { Call (host_of handle.old.session) (host_of handle.new.session) }
    ensures otherwise { result ≢ DONE → handle.new.session ≡ handle.old.session }
    ensures results { result ≢ DONE → results.new ≡ results.old }
    ensures status { result ≢ DONE → status.new ≡ status.old }
    ensures ran { result ≢ DONE → ran.new ≡ ran.old }
{
    let Some(mut session) = handle.take(alloc) else {
        return ERR_NO_HOST;
    };
    let tenant = usize::from(tenant);
    let given = SizedBatch {
        words: contexts,
        size,
        bytes,
        ends,
    };
    let code = match session.run_sized(tenant, fd, bound, given, results) {
        Ok(batch) => {
            *status = batch.status;
            *ran = batch.packets;
            DONE
        }
        Err(code) => code,
    };
    handle.put(session);
    code
}

/// Makes part `part` of a save of a tenant, counted from 0. Writes to `lent` the address of the part's frames, each of which has its length
/// before it, and the number of all these bytes. They are valid until the next call with this handle. If a new tenant of this number, on
/// this host or another one, is given the frames of all parts in order and no memory is refused to it, it then replies as this one does,
/// whatever calls this host had. Between two parts the tenant must not change.
///
/// Returns `DONE`; else `ERR_NO_PART` after the last part and for a tenant that is not served, `ERR_NO_MEMORY` or `ERR_NO_HOST`,
/// and `lent` is unchanged.
#[unsafe(no_mangle)]
pub extern "C" fn bpfhost_c_save(
    alloc: Global,
    handle: &mut Handle,
    tenant: u16,
    part: usize,
    lent: &mut Lent,
) -> i32
    ensures done { result ≡ DONE → (frames : List ℕ)
        × (saved_part (host_of handle.old.session) tenant part ≡ Some frames)
        × SavedAt handle.new.session frames lent.new.at lent.new.length }
    ensures code { result ≢ ERR_NO_MEMORY → result ≡ save_code handle.old.session tenant part }
    ensures restored { result ≢ ERR_NO_HOST → AreRestored (host_of handle.old.session) }
    ensures host { host_of handle.new.session ≡ host_of handle.old.session }
    ensures lent { result ≢ DONE → lent.new ≡ lent.old }
{
    let Some(mut session) = handle.take(alloc) else {
        return ERR_NO_HOST;
    };
    match session.save(usize::from(tenant), part) {
        Ok(true) => {
            lent.at = session.saved.as_ptr();
            lent.length = session.saved.len();
            handle.put(session);
            DONE
        }
        Ok(false) => {
            handle.put(session);
            ERR_NO_PART
        }
        Err(_) => {
            handle.put(session);
            ERR_NO_MEMORY
        }
    }
}

/// Sets `refused` to whether memory was ever refused to `tenant`; noninterference is promised to tenants to which it was not.
/// False for a number that is not served.
///
/// Returns `DONE`; else `ERR_NO_HOST`, and `refused` is unchanged.
#[unsafe(no_mangle)]
pub extern "C" fn bpfhost_c_memory_refused(
    alloc: Global,
    handle: &mut Handle,
    tenant: u16,
    refused: &mut bool,
) -> i32
    ensures refused { result ≡ DONE → refused.new ≡ true
        → ¬ IsUnrefused (slice_get (states handle.old.session) tenant) }
    ensures unrefused { result ≡ DONE → refused.new ≡ false
        → IsUnrefused (slice_get (states handle.old.session) tenant) }
    ensures code { result ≡ host_code handle.old.session }
    ensures host { handle.new.session ≡ handle.old.session }
    ensures otherwise { result ≢ DONE → refused.new ≡ refused.old }
{
    let Some(session) = handle.take(alloc) else {
        return ERR_NO_HOST;
    };
    *refused = session.host.memory_was_refused(usize::from(tenant));
    handle.put(session);
    DONE
}

/// Frees the host of a handle, which is empty afterwards, also if it was before. The assignment drops what the handle had, which frees it.
#[unsafe(no_mangle)]
pub extern "C" fn bpfhost_c_free(alloc: Global, handle: &mut Handle)
    ensures { handle.new.session ≡ None }
{
    *handle = Handle::empty(alloc);
}

/// The version of the library: its three numbers, each in eight bits, the first in the highest of 24.
#[unsafe(no_mangle)]
pub extern "C" fn bpfhost_c_version() -> u32
    ensures { result ≡ VERSION }
{
    VERSION
}

/// The number of the library's binary interface, which changes with the soname: a caller that was compiled for another one must not
/// call any other function.
#[unsafe(no_mangle)]
pub extern "C" fn bpfhost_c_abi() -> u32
    ensures { result ≡ ABI }
{
    ABI
}

//! What the owner of a host can see of a tenant.

ghost use Rattle.std.specs.Prelude.{◌≡◌, ◌≢◌, ◌↔◌, IsTrue, slice_get};
ghost use Rattle.host_core.specs.Counts.{counts_if_served};
ghost use Rattle.host_core.specs.Described.{described_if_served};
ghost use Rattle.host_core.specs.Served.{IsUnrefused};
ghost use Rattle.bpfhost_c.specs.Calls.{states, host_code};
ghost use Rattle.bpfhost_c.specs.declared.codes.TheConstants.{DONE};

use crate::codes::{DONE, ERR_NO_HOST};
use crate::handle::Handle;
use host_core::{Counts, Described};
use std::alloc::Global;

/// Writes to `counts` how much `tenant` has at this moment, and whether memory was ever refused to it; all are 0, and false, for a number
/// that is not served. Takes no memory.
///
/// Returns `DONE`; else `ERR_NO_HOST`, and `counts` is unchanged. The host is unchanged.
#[unsafe(no_mangle)]
pub extern "C" fn bpfhost_c_status(
    alloc: Global,
    handle: &mut Handle,
    tenant: u16,
    counts: &mut Counts,
) -> i32
    ensures done { result ≡ DONE
        → counts.new ≡ counts_if_served (slice_get (states handle.old.session) tenant) }
    ensures refused { result ≡ DONE → IsTrue counts.new.memory_refused
        ↔ (¬ IsUnrefused (slice_get (states handle.old.session) tenant)) }
    ensures code { result ≡ host_code handle.old.session }
    ensures host { handle.new.session ≡ handle.old.session }
    ensures otherwise { result ≢ DONE → counts.new ≡ counts.old }
{
    let Some(session) = handle.take(alloc) else {
        return ERR_NO_HOST;
    };
    *counts = session.host.counts(usize::from(tenant));
    handle.put(session);
    DONE
}

/// Writes what the descriptor `fd` of `tenant` names at this moment to `described`: nothing, a map with its shape and the number of
/// its keys, or a program with the number of its slots. It is nothing also if `fd` is not from 3 to 66, or the tenant is not served. Takes
/// no memory.
///
/// Returns `DONE`; else `ERR_NO_HOST`, and `described` is unchanged. The host is unchanged.
#[unsafe(no_mangle)]
pub extern "C" fn bpfhost_c_describe(
    alloc: Global,
    handle: &mut Handle,
    tenant: u16,
    fd: u32,
    described: &mut Described,
) -> i32
    ensures done { result ≡ DONE → described.new
        ≡ described_if_served (slice_get (states handle.old.session) tenant) fd }
    ensures code { result ≡ host_code handle.old.session }
    ensures host { handle.new.session ≡ handle.old.session }
    ensures otherwise { result ≢ DONE → described.new ≡ described.old }
{
    let Some(session) = handle.take(alloc) else {
        return ERR_NO_HOST;
    };
    *described = session.host.describe(usize::from(tenant), fd);
    handle.put(session);
    DONE
}

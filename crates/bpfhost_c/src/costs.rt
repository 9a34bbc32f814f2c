//! What a program costs.

ghost use Rattle.std.specs.Prelude.{◌≡◌, ◌≢◌, slice_get};
ghost use Rattle.bpfhost_c.specs.Calls.{states, host_code};
ghost use Rattle.bpfhost_c.specs.Costs.{ShowsCost, shown_cost};
ghost use Rattle.bpfhost_c.specs.declared.codes.TheConstants.{DONE};

use crate::codes::{DONE, ERR_NO_HOST};
use crate::handle::Handle;
use std::alloc::Global;
use tenant::Cost;

/// The most instructions, and the most calls of helpers, on a path through a program; no run executes more.
#[derive(Clone, Copy)]
#[repr(C)]
pub struct ProgramCost {
    pub instructions: u32,
    pub calls: u32,
}

/// The cost of a program for C: the most instructions, and the most calls of helpers, on a path through it. Both numbers are 0 if there is
/// no program (`None`). By this C recognizes that there is none, since the cost of a program has at least one instruction.
fn shown(cost: Option<Cost>) -> ProgramCost
    ensures { result ≡ shown_cost cost }
{
    match cost {
        Some(cost) => ProgramCost {
            instructions: cost.instructions,
            calls: cost.calls,
        },
        None => ProgramCost {
            instructions: 0,
            calls: 0,
        },
    }
}

/// Writes the cost of the program that the descriptor `fd` of `tenant` names to `cost`: 1 to 4,096 instructions, and 0 to 4,095 calls;
/// both 0 if it names no program, and for a tenant that is not served. Takes no memory.
///
/// Returns `DONE`; else `ERR_NO_HOST`, and `cost` is unchanged. The host is unchanged.
#[unsafe(no_mangle)]
pub extern "C" fn bpfhost_c_program_cost(
    alloc: Global,
    handle: &mut Handle,
    tenant: u16,
    fd: u32,
    cost: &mut ProgramCost,
) -> i32
    ensures done { result ≡ DONE
        → ShowsCost (slice_get (states handle.old.session) tenant) fd cost.new }
    ensures code { result ≡ host_code handle.old.session }
    ensures host { handle.new.session ≡ handle.old.session }
    ensures otherwise { result ≢ DONE → cost.new ≡ cost.old }
{
    let Some(session) = handle.take(alloc) else {
        return ERR_NO_HOST;
    };
    *cost = shown(session.host.program_cost(usize::from(tenant), fd));
    handle.put(session);
    DONE
}

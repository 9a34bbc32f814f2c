//! Callers for proofs only, which nothing calls: that each meets its contract, about a tenant's part, follows only from public contracts
//! and laws.

ghost use Rattle.std.specs.Prelude.{◌+◌, ◌<◌, ◌≤◌};
ghost use Rattle.words.specs.Bytes.{low_bytes};
ghost use Rattle.arena.specs.Bytes.{bytes_at};
ghost use Rattle.arena.specs.Memory.{part_bytes};
ghost use Rattle.arena.specs.Apart.{IsWrittenAt};

use crate::laws;
use crate::memory::Arena;
use crate::trace::Trace;

/// A test that the contracts of `Arena` and laws suffice to prove what a store in a tenant's part changes; the function is never called.
/// Stores `value` as eight bytes, the lowest first, at offset `at` of a tenant's part: only these bytes of that part change, and no other
/// part changes (`IsWrittenAt`). The store is never `None`, since the arena has the tenant's part (`tenant`), and the eight bytes lie in it
/// (`room`). The contract states nothing of `trace`, which gets their address range.
fn store_within(arena: &mut Arena, tenant: usize, at: usize, value: u64, trace: &mut Trace)
    requires tenant { tenant < arena.old.parts }
    requires room { at + 8 ≤ arena.old.part }
    ensures { IsWrittenAt arena.old tenant at (low_bytes 8 value) arena.new }
{
    arena.memory_is_its_parts();
    laws::accesses_are_in_parts();
    let address = arena.address(tenant) + at as u64;
    let _ = arena.store(address, 8, value, trace);
}

/// Copies eight bytes from offset `from` to offset `to` of a tenant's part; the two ranges may overlap. At `to` the part then has the bytes
/// that were at `from` before the call, and neither the rest of the part nor another part changes (`IsWrittenAt`). The copy is never
/// `None`, since both ranges are in the part (`to`, `from`). The contract states nothing of `trace`, which gets both ranges. Nothing calls
/// this function: its proof shows that the public contracts and laws of the arena suffice to know what a copy changes.
fn copy_within(arena: &mut Arena, tenant: usize, to: usize, from: usize, trace: &mut Trace)
    requires tenant { tenant < arena.old.parts }
    requires to { to + 8 ≤ arena.old.part }
    requires from { from + 8 ≤ arena.old.part }
    ensures { IsWrittenAt arena.old tenant to (bytes_at (part_bytes arena.old tenant) from 8)
        arena.new }
{
    arena.memory_is_its_parts();
    laws::accesses_are_in_parts();
    let start = arena.address(tenant);
    let _ = arena.copy(start + to as u64, start + from as u64, 8, trace);
}

//! Bytes that a helper writes to a tenant's part.

ghost use Rattle.std.specs.Prelude.{◌≡◌, ◌+◌, ◌<◌, ◌≤◌, ℕ, length, replicate, Some, IsSome};
ghost use Rattle.arena.specs.Memory.{part_start, with_bytes};
ghost use Rattle.bpf_maps.specs.declared.part.TheConstants.{PART};
ghost use Rattle.bpf_maps.specs.Live.{LiveMaps};
ghost use Rattle.bpf_helpers.specs.Named.{named_offset};
ghost use Rattle.bpf_helpers.specs.Parts.{IsPartOf, AsksInside};
ghost use Rattle.bpf_helpers.specs.inside.Flat.{call_of, LoadsAt};

use crate::caller::Caller;
use crate::look_up::{named_bytes_lie_inside, offset_in, traced_offset_inside};
use arena::{Arena, Trace, laws};
use bpf_maps::PART;

// The offset in a packet is a word modulo this number: 32 bits of it are read.
const OFFSETS: u64 = 0x1_0000_0000;

// The greatest offset in a packet: of the 32 bits, the highest is the sign, and an offset may not be negative.
const LAST_OFFSET: u64 = 0x7fff_ffff;

/// The negated error for an offset or a length outside the packet (EFAULT, 14), modulo 2^64.
pub(crate) const OUTSIDE: u64 = 0xffff_ffff_ffff_fff2;

/// Writes `count` zeros at offset `at` of a tenant's part, in which they lie (`room`); all other bytes of the arena are unchanged. The
/// arena has a part for the tenant (`tenant`). A load of packet bytes (bpf_skb_load_bytes) writes the zeros if the packet doesn't have
/// these bytes.
#[inline(always)]
pub(crate) fn write_zeros(arena: &mut Arena, tenant: usize, at: usize, count: usize)
    requires tenant { tenant < arena.old.parts }
    requires room { at + count ≤ arena.old.part }
    ensures { arena.new
        ≡ with_bytes arena.old (part_start arena.old tenant + at) (replicate count 0) }
{
    arena.memory_is_its_parts();
    laws::writes_are_in_parts();
    let part = arena.part_mut(tenant);
    part[at..at + count].fill(0);
}

/// Writes `bytes` at `address`, and appends their range to the trace. The caller knows that this range lies in the part of `tenant`
/// (`named`), so there is no test. The arena changes only by these bytes, at the offset `at` in the part that `named_offset` gives for
/// `address` (`bytes`). The trace gets only ranges in this part, and no step (`asks`). The arena has this part, and each part has `PART`
/// bytes (`part`).
#[inline(always)]
fn write_named(arena: &mut Arena, tenant: usize, address: u64, bytes: &[u8], trace: &mut Trace)
    requires part { IsPartOf tenant arena.old }
    requires named { IsSome (named_offset arena.old tenant (length bytes.now) address) }
    ensures bytes { (at : ℕ) → named_offset arena.old tenant (length bytes.now) address ≡ Some at
        → arena.new ≡ with_bytes arena.old (part_start arena.old tenant + at) bytes.now }
    ensures asks { AsksInside arena.old tenant trace.old trace.new }
{
    arena.memory_is_its_parts();
    named_bytes_lie_inside(arena, tenant, bytes.len(), address);
    // The result is not used: by the contract of `address` the proof knows that the part, and so the range, lies in the memory.
    let _ = arena.address(tenant);
    arena.write_inside(address, bytes, trace);
}

/// bpf_skb_load_bytes (26): copies `count` bytes of the packet, from `offset` on, to the address `to`, and returns 0. Of `offset` the low
/// 32 bits are read, as a signed number. If this number is negative, or the packet doesn't have these bytes, the helper writes `count`
/// zeros to the address and returns EFAULT, negated (`OUTSIDE`). `caller` has the packet and the tenant's number. Required: the arena has a
/// part of this tenant, of `PART` bytes (`part`), and the `count` bytes at `to` lie in it (`named`). `load_bytes` tests the latter before;
/// `call_in_run` requires it too. By `loaded` the result and the arena are those of the definition `LoadsAt`, for any live maps (`maps`),
/// since no map is read. The trace gets only address ranges in the tenant's part, and no step (`asks`).
#[inline(always)]
pub(crate) fn load_bytes_inside(
    offset: u64,
    to: u64,
    count: u64,
    caller: Caller<'_>,
    arena: &mut Arena,
    trace: &mut Trace,
) -> u64
    requires part { IsPartOf caller.tenant arena.old }
    requires named { IsSome (named_offset arena.old caller.tenant count to) }
    ensures loaded { (maps : LiveMaps) → LoadsAt (call_of caller.entry arena.old maps) offset count
        (named_offset arena.old caller.entry.tenant count to) result arena.new }
    ensures asks { AsksInside arena.old caller.entry.tenant trace.old trace.new }
{
    let count = count as usize;
    let from = offset % OFFSETS;
    if from <= LAST_OFFSET && from as usize + count <= caller.packet.len() {
        let from = from as usize;
        let bytes = &caller.packet[from..from + count];
        write_named(arena, caller.tenant, to, bytes, trace);
        0
    } else {
        let at = traced_offset_inside(arena, caller.tenant, count, to, trace);
        write_zeros(arena, caller.tenant, at, count);
        OUTSIDE
    }
}

/// bpf_skb_load_bytes (26), for `call`, which gives it any words: copies `count` bytes of the packet, from `offset` on, to the address
/// `to`, and returns 0. `caller` has the packet, and the tenant whose part is written. Of `offset` the low 32 bits are read, as a signed
/// number. If it is negative, or the packet doesn't have these bytes, the helper writes `count` zeros to `to` and returns EFAULT, negated
/// (`OUTSIDE`). If the `count` bytes at `to` don't lie in the tenant's part (`named_offset` is `None`), as for each `count` above `PART`,
/// it returns EFAULT, negated, and writes nothing. No map is read, so `loaded` holds for any maps. The trace gets only address ranges in
/// the part, and no step (`asks`).
#[inline(always)]
pub(crate) fn load_bytes(
    offset: u64,
    to: u64,
    count: u64,
    caller: Caller<'_>,
    arena: &mut Arena,
    trace: &mut Trace,
) -> u64
    requires part { IsPartOf caller.tenant arena.old }
    ensures loaded { (maps : LiveMaps) → LoadsAt (call_of caller.entry arena.old maps) offset count
        (named_offset arena.old caller.entry.tenant count to) result arena.new }
    ensures asks { AsksInside arena.old caller.entry.tenant trace.old trace.new }
{
    if count > PART as u64 || offset_in(arena, caller.tenant, count as usize, to).is_none() {
        return OUTSIDE;
    }
    load_bytes_inside(offset, to, count, caller, arena, trace)
}

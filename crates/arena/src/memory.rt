//! The arena: the memory of all tenants, with its loads, stores and copies.

ghost use Rattle.std.specs.Prelude.{◌≡◌, ◌+◌, ◌-◌, ◌*◌, ◌^◌, ◌<◌, ◌≤◌, ◌++◌, ◌∷◌, [], length, replicate, Some, IfOk, IsSome, is_some, ◌&&◌};
ghost use Rattle.std.specs.Borrow.{sem};
ghost use Rattle.arena.specs.Bytes.{IsSize};
ghost use Rattle.arena.specs.Memory.{base, offset_of, loaded, stored, copied, with_bytes, part_start, part_bytes, size_of};

use crate::copying;
use crate::numbers::{copy_bytes, read, write};
use crate::trace::Trace;
use std::alloc::{AllocError, Global};
use std::marker::Model;
use std::mem::replace;

/// The first address of the memory, 2^32. So no address is null, and the low 32 bits of an address are its offset in the memory.
pub const BASE: u64 = 0x1_0000_0000;

/// The bytes of all tenants, in parts of one size.
#[derive(Drop)]
pub struct Arena {
    bytes: Vec<u8>,
    // The number of parts.
    parts: usize,
    // The size of one part, in bytes.
    part_size: usize,
}

impl Model for Arena {
    ghost use Rattle.arena.specs.Memory.{Memory, memory_code};
    ghost use Rattle.arena.specs.inside.Whole.{IsWholeMemory};

    ghost Value = { Memory };

    ghost coded = { memory_code };

    ghost view = { λ a. record { bytes = a.bytes.items; parts = a.parts; part = a.part_size } };

    ghost invariant = { IsWholeMemory };
}

/// The offset of `address` in a memory of `memory_size` bytes, for an access without a test, such as that of `load_inside`. By `inside` the
/// `size` bytes at `address` lie in the memory, and so do those at the result (`within`); `offset` tests this instead. The result is the
/// low 32 bits of the address, since addresses begin at 2^32 (`BASE`) and the memory has at most 2^28 bytes (`small`). So the machine code
/// needs no 64-bit constant.
#[inline(always)]
fn offset_inside(memory_size: usize, size: usize, address: u64) -> usize
    requires small { memory_size ≤ 2 ^ 28 }
    requires inside { IsSome (offset_of memory_size size address) }
    ensures value { offset_of memory_size size address ≡ Some result }
    ensures within { result + size ≤ memory_size }
{
    (address % BASE) as usize
}

/// The offset, from the start of the memory, of the `size` bytes from `address` on; `None` if they don't all lie in a memory of
/// `memory_size` bytes, whose first address is `BASE`. By this test `load`, `store` and `copy` take any address; functions whose contract
/// requires that the bytes lie in the memory, as that of `load_inside`, use `offset_inside`. No arena has more than 2^28 bytes
/// (`requires`).
#[inline(always)]
fn offset(memory_size: usize, size: usize, address: u64) -> Option<usize>
    requires { memory_size ≤ 2 ^ 28 }
    ensures { result ≡ offset_of memory_size size address }
{
    let offset = address.checked_sub(BASE)?;
    if size > memory_size || offset > (memory_size - size) as u64 {
        return None;
    }
    Some(offset as usize)
}

impl Arena {
    ghost use Rattle.arena.specs.Lending.{LendsPart};

    /// Creates an arena of `parts` parts of `part_size` zero bytes each. Both are at least 1, as in each host, so only `take`, which moves
    /// the memory out of a variable, leaves an arena without bytes. By `size` the new arena has at most 2^28 bytes. So the addresses of its
    /// bytes do not wrap, and the low 32 bits of an address are its offset in the memory, whose first byte has the address 2^32 (`BASE`) in
    /// programs. The bound is a round number above what a host of the most tenants needs. By `zero` all bytes are 0.
    ///
    /// # Errors
    ///
    /// `AllocError`: out of memory.
    pub fn new(alloc: Global, parts: usize, part_size: usize) -> Result<Arena, AllocError>
        requires parts { 1 ≤ parts }
        requires part_size { 1 ≤ part_size }
        requires size { parts * part_size ≤ 2 ^ 28 }
        ensures parts { IfOk result (λ arena. arena.parts ≡ parts) }
        ensures part { IfOk result (λ arena. arena.part ≡ part_size) }
        ensures zero { IfOk result (λ arena. arena.bytes ≡ replicate (parts * part_size) 0) }
    {
        Ok(Arena {
            bytes: vec![in alloc; 0; parts * part_size]?,
            parts,
            part_size,
        })
    }

    /// Returns the memory and leaves an empty one without parts in `self`; the caller puts the memory back. A run works on the memory in a
    /// variable of its own, so that its address stays in a machine register: from the variable that the host lends, LLVM would read the
    /// address again at each load and store. It would do so too if the run lent its own variable to a call that is not inlined. So for such
    /// a call the run takes the memory from its variable into another one, and lends that.
    #[inline(always)]
    pub fn take(&mut self) -> Arena
        ensures taken { result ≡ self.old }
        ensures left { self.new ≡ record { bytes = []; parts = 0; part = 0 } }
    {
        let none = Arena {
            bytes: Vec::new(*self.bytes.allocator()),
            parts: 0,
            part_size: 0,
        };
        replace(self, none)
    }

    /// A law: the size of the memory in bytes (`size_of`) is the number of parts, `parts`, times the size of one part, `part` (clause
    /// `parts`), and at most 2^28 (`bound`). Proofs of callers need this to show that a tenant's part lies in the memory. The body only
    /// reads a field, so that the proof has the invariant of the type.
    pub fn memory_is_its_parts(&self)
        ensures parts { size_of self.now ≡ self.now.parts * self.now.part }
        ensures bound { size_of self.now ≤ 2 ^ 28 }
    {
        let _ = &self.bytes;
    }

    /// The offset in the memory, in bytes, at which the part of `tenant` begins. Tenants are numbered from 0. `room`: the whole part lies
    /// in the memory. `bound`: the offset is at most 2^28, since the memory has at most 2^28 bytes.
    fn start(&self, tenant: usize) -> usize
        requires { tenant < self.now.parts }
        ensures value { result ≡ part_start self.now tenant }
        ensures room { result + self.now.part ≤ size_of self.now }
        ensures bound { result ≤ 2 ^ 28 }
    {
        tenant * self.part_size
    }

    /// The first address of the part of `tenant`: the first address of the memory (`base`) plus the offset of the part (`part_start`). The
    /// parts have the numbers of the tenants, from 0; `self.now.parts` is how many they are, and `self.now.part` the size of each in bytes.
    /// By `room` the whole part lies in the memory, so a proof knows from this call that each address in the part is one of the memory.
    pub fn address(&self, tenant: usize) -> u64
        requires { tenant < self.now.parts }
        ensures value { result ≡ base + part_start self.now tenant }
        ensures room { part_start self.now tenant + self.now.part ≤ size_of self.now }
    {
        BASE + self.start(tenant) as u64
    }

    /// The bytes of the part of `tenant`, all of them (`length`). Tenants are numbered from 0, and `tenant` has a part: its number is less
    /// than that of the parts.
    pub fn part(&self, tenant: usize) -> &[u8]
        requires { tenant < self.now.parts }
        ensures bytes { result.now ≡ part_bytes self.now tenant }
        ensures length { length result.now ≡ self.now.part }
    {
        let start = self.start(tenant);
        &self.bytes[start..start + self.part_size]
    }

    /// Loads a little-endian number of `size` bytes (1, 2, 4 or 8) at `address`; `None` exactly if these bytes don't all lie in the memory,
    /// whose first address is `BASE` (`value`). The trace gets the range in both cases (`ranges`), and no step (`steps`). Only tests call
    /// this function: a run's loads are known to lie in the memory, so they use `load_inside`, which does not test the address.
    #[inline(always)]
    pub fn load(&self, address: u64, size: usize, trace: &mut Trace) -> Option<u64>
        requires { IsSize size }
        ensures value { result ≡ loaded self.now size (offset_of (size_of self.now) size address) }
        ensures steps { trace.new.steps ≡ trace.old.steps }
        ensures ranges { trace.new.ranges ≡ trace.old.ranges ++ (address, size) ∷ [] }
    {
        trace.range(address, size as u64);
        let at = offset(self.bytes.len(), size, address)?;
        Some(read(&self.bytes, at, size))
    }

    /// Stores the low `size` bytes (1, 2, 4 or 8) of `value` at `address`, little-endian (`bytes`). `None`, and no byte changes, exactly if
    /// the `size` bytes at `address` don't all lie in the memory (`found`), in which they then have no offset (`offset_of` is `None`). In
    /// both cases the trace gets the range, the address with the size (`ranges`), and no step (`steps`). Only tests call this function: a
    /// run's stores are known to lie in the memory, so they use `store_inside`, which does not test the address.
    #[inline(always)]
    pub fn store(&mut self, address: u64, size: usize, value: u64, trace: &mut Trace) -> Option<()>
        requires { IsSize size }
        ensures found { is_some result ≡ is_some (offset_of (size_of self.old) size address) }
        ensures bytes { self.new ≡ stored self.old size value
            (offset_of (size_of self.old) size address) }
        ensures steps { trace.new.steps ≡ trace.old.steps }
        ensures ranges { trace.new.ranges ≡ trace.old.ranges ++ (address, size) ∷ [] }
    {
        trace.range(address, size as u64);
        let at = offset(self.bytes.len(), size, address)?;
        write(&mut self.bytes, at, size, value);
        Some(())
    }

    /// Loads a little-endian number of `size` bytes (1, 2, 4 or 8) at `address`. Unlike `load`, this function has no test of the address:
    /// by `inside` all these bytes are in the memory, as `offset_of` gives them an offset. `value`: the result is the number that they
    /// make. The trace gets the range (`ranges`), and no step (`steps`). Runs call it, as `inside` is proved for each step.
    #[inline(always)]
    pub fn load_inside(&self, address: u64, size: usize, trace: &mut Trace) -> u64
        requires size { IsSize size }
        requires inside { IsSome (offset_of (size_of self.now) size address) }
        ensures value { loaded self.now size (offset_of (size_of self.now) size address)
            ≡ Some result }
        ensures steps { trace.new.steps ≡ trace.old.steps }
        ensures ranges { trace.new.ranges ≡ trace.old.ranges ++ (address, size) ∷ [] }
    {
        trace.range(address, size as u64);
        let start = offset_inside(self.bytes.len(), size, address);
        read(&self.bytes, start, size)
    }

    /// Stores the low `size` bytes (1, 2, 4 or 8) of `value` at `address`, little-endian. The caller has to prove that this range is in the
    /// memory (`inside`): so, unlike `store`, the function has no test and returns nothing. The trace gets the range (`ranges`), and no
    /// step is counted (`steps`).
    #[inline(always)]
    pub fn store_inside(&mut self, address: u64, size: usize, value: u64, trace: &mut Trace)
        requires size { IsSize size }
        requires inside { IsSome (offset_of (size_of self.old) size address) }
        ensures bytes { self.new ≡ stored self.old size value
            (offset_of (size_of self.old) size address) }
        ensures steps { trace.new.steps ≡ trace.old.steps }
        ensures ranges { trace.new.ranges ≡ trace.old.ranges ++ (address, size) ∷ [] }
    {
        trace.range(address, size as u64);
        let start = offset_inside(self.bytes.len(), size, address);
        write(&mut self.bytes, start, size, value);
    }

    /// Writes the slice `bytes`, of any length, at `address`, and changes no other byte. In the clause `bytes`, `address - base` is the
    /// offset in the memory, whose first address is 2^32 (`base`). It is required that the range lies in the memory, so there is no test.
    /// The trace gets the range, as address and length (`ranges`), and no step (`steps`).
    #[inline(always)]
    pub fn write_inside(&mut self, address: u64, bytes: &[u8], trace: &mut Trace)
        requires { IsSome (offset_of (size_of self.old) (length bytes.now) address) }
        ensures bytes { self.new ≡ with_bytes self.old (address - base) bytes.now }
        ensures steps { trace.new.steps ≡ trace.old.steps }
        ensures ranges { trace.new.ranges
            ≡ trace.old.ranges ++ (address, length bytes.now) ∷ [] }
    {
        trace.range(address, bytes.len() as u64);
        let start = offset_inside(self.bytes.len(), bytes.len(), address);
        copying::copy_bytes(&mut self.bytes, start, bytes);
    }

    /// Copies `length` bytes from address `from` to address `to`, like memmove: the ranges may overlap. `length` is at least 1, as is the
    /// size of each map's values. Returns `None`, and changes no byte, exactly if one of the two ranges doesn't lie in the memory (`found`,
    /// `bytes`). In each case the trace gets the range at `from` and then that at `to` (`ranges`), and no step (`steps`). Only tests and
    /// `copy_within` of `contract_clients.rt` call this function: the ranges of a run's copy are known to lie in the memory, so a run calls
    /// `copy_inside`, which does not test them.
    pub fn copy(&mut self, to: u64, from: u64, length: usize, trace: &mut Trace) -> Option<()>
        requires { 1 ≤ length }
        ensures found { is_some result ≡ (is_some (offset_of (size_of self.old) length from)
            && is_some (offset_of (size_of self.old) length to)) }
        ensures bytes { self.new ≡ copied self.old length (offset_of (size_of self.old) length from)
            (offset_of (size_of self.old) length to) }
        ensures steps { trace.new.steps ≡ trace.old.steps }
        ensures ranges { trace.new.ranges ≡ trace.old.ranges ++ (from, length) ∷ [] ++ (to, length)
            ∷ [] }
    {
        trace.range(from, length as u64);
        trace.range(to, length as u64);
        let size = self.bytes.len();
        let source = offset(size, length, from)?;
        let target = offset(size, length, to)?;
        copy_bytes(&mut self.bytes, source, target, length);
        Some(())
    }

    /// Copies `length` bytes from address `from` to `to` like memmove: the ranges may overlap, and that at `to` gets the bytes that the
    /// other had before (`bytes`). `length` is at least 1 (`some`), as is the size of a map's value, which an update in a run copies by
    /// this call (`put` of `bpf_helpers`). The caller knows that both ranges are in the memory (`source`, `target`), so there is no test,
    /// unlike in `copy`. The trace gets the range at `from` and then that at `to` (`ranges`), but no step (`steps`).
    #[inline(always)]
    pub fn copy_inside(&mut self, to: u64, from: u64, length: usize, trace: &mut Trace)
        requires some { 1 ≤ length }
        requires source { IsSome (offset_of (size_of self.old) length from) }
        requires target { IsSome (offset_of (size_of self.old) length to) }
        ensures bytes { self.new ≡ copied self.old length (offset_of (size_of self.old) length from)
            (offset_of (size_of self.old) length to) }
        ensures steps { trace.new.steps ≡ trace.old.steps }
        ensures ranges { trace.new.ranges ≡ trace.old.ranges ++ (from, length) ∷ [] ++ (to, length)
            ∷ [] }
    {
        trace.range(from, length as u64);
        trace.range(to, length as u64);
        let size = self.bytes.len();
        let source = offset_inside(size, length, from);
        let target = offset_inside(size, length, to);
        copy_bytes(&mut self.bytes, source, target, length);
    }

    /// Lends the bytes of the part of `tenant` for writing, as to a command (`reply_to_command` of `saving`). Tenants are numbered from 0,
    /// and each number below `parts` has a part. The slice has the bytes that the part has now (`bytes`). `lends`: when the borrow ends,
    /// the part has the bytes that the slice then has, and all other bytes of the memory are unchanged. That depends on what the caller
    /// will write, so no plain `ensures` can say it: `ensures*` and `sem 𝓛` mark an assertion of separation logic.
    pub fn part_mut(&mut self, tenant: usize) -> &mut [u8]
        requires { tenant < self.old.parts }
        ensures* lends { sem 𝓛 (LendsPart self.entry tenant result) }
        ensures bytes { result.now ≡ part_bytes self.old tenant }
    {
        let start = self.start(tenant);
        let end = start + self.part_size;
        self.bytes.slice_mut(start..end)
    }
}

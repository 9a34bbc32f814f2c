//! A tenant that can be saved.

ghost use Rattle.std.specs.Prelude.{◌≡◌, ◌≢◌, ℕ, ◌≤◌, List, [], length, option_map, slice_get, IfOk, OnOk, OnErr};
ghost use Rattle.std.specs.Result.{result_err};
ghost use Rattle.arena.specs.Memory.{part_bytes};
ghost use Rattle.bpf_helpers.specs.Parts.{IsPartOf};
ghost use Rattle.fd_table.specs.Table.{named};
ghost use Rattle.bpf_maps.specs.declared.part.TheConstants.{PART};
ghost use Rattle.saving.specs.Recorded.{tenant_state};
ghost use Rattle.saving.specs.SaveParts.{parts, frames_of};
ghost use Rattle.tenant.specs.Batch.{RunsBatch, packets_in, inputs_of, batch_refusal, IsAllowed};
ghost use Rattle.tenant.specs.State.{new_tenant};

use crate::birth::Births;
use crate::frame_writer::FrameWriter;
use crate::laws::{births_are_kept, maps_are_held};
use crate::save_parts::part_at;
use arena::Arena;
use bpf_maps::PART;
use seeded_hash::HashSeed;
use std::alloc::{AllocError, Global};
use std::marker::Model;
use tenant::{Batch, Errno, Tenant};

/// A tenant, and the order in which its live maps and open programs were created, by which it can be saved.
#[derive(Drop)]
pub struct SavableTenant {
    pub(crate) tenant: Tenant,
    pub(crate) births: Births,
}

impl Model for SavableTenant {
    ghost use Rattle.saving.specs.Recorded.{RecordedTenant, IsRecorded};

    ghost Value = { RecordedTenant };

    ghost view = { λ t. record { kept = t.tenant; births = t.births } };

    ghost invariant = { λ t. IsRecorded (record { kept = t.tenant; births = t.births }) };
}

impl SavableTenant {
    /// A tenant without open objects, maps and births; the keys of its hash maps will be hashed with this seed. Allocates its tables, and
    /// room for its births. Whatever bytes its part of the arena has (`part`), its state is that of a new tenant, since it has no map yet.
    /// `AllocError`: out of memory.
    pub fn new(alloc: Global, seed: HashSeed) -> Result<SavableTenant, AllocError>
        ensures new { IfOk result (λ tenant. (part : List ℕ) →
            tenant_state part tenant ≡ new_tenant) }
        ensures births { IfOk result (λ tenant. tenant.births ≡ []) }
    {
        // For the proof of the invariant `IsRecorded`: laws, which do nothing. By their clauses `new`, in a new tenant exactly the maps
        // that open objects name are live, and the births, none, are those of the state.
        maps_are_held();
        births_are_kept();
        Ok(SavableTenant {
            tenant: Tenant::new(alloc, seed)?,
            births: Births::new(alloc)?,
        })
    }

    /// Whether this tenant was ever refused memory: for a load, for an installed program, or for a new map. Its replies may then differ
    /// from those of its machine without refusals. The contract: the result is the flag `refused` of the tenant's state, whatever bytes its
    /// part of the arena has (`part`).
    pub fn memory_was_refused(&self) -> bool
        ensures { (part : List ℕ) → result ≡ (tenant_state part self.now).refused }
    {
        self.tenant.memory_was_refused()
    }

    /// The frames of one part of a save, for tenant `number`, each with its length before it. `index` is the number of this part of the
    /// save, from 0; `None` after the last one. `part` has the bytes of the tenant's part of the arena; also `None` if these are not `PART`
    /// bytes. If they are, the contract gives the frames (`frames_of`) of the commands at `index` in the list of the save's parts
    /// (`parts`), for the state that the tenant and these bytes represent (`tenant_state`).
    ///
    /// A new tenant that is given the frames of all parts of the save in their order, and to which no memory is refused, then replies as
    /// this one does. Between two parts nothing may change in this tenant, but other tenants may be served. Part 0 opens a program at each
    /// descriptor of the new tenant, so that none is free. Then each birth has its parts, the oldest birth first. The first of these closes
    /// the birth's descriptor, and creates the map or loads the program, which gets this descriptor, the only free one. For a map, the
    /// others put its keys with their values, at most `KEYS_PER_SAVE_PART` keys each. The last part of the save closes the descriptors that
    /// are not open in this tenant.
    ///
    /// # Errors
    ///
    /// `AllocError`: out of memory.
    pub fn save_part(
        &self,
        alloc: Global,
        number: u16,
        index: usize,
        part: &[u8],
    ) -> Result<Option<Vec<u8>>, AllocError>
        ensures { length part.now ≡ PART → IfOk result (λ saved.
            option_map (λ frames. frames.items) saved ≡ option_map (frames_of number)
            (slice_get (parts (tenant_state part.now self.now) self.now.births) index)) }
    {
        if part.len() != PART {
            return Ok(None);
        }
        let Some(wanted) = part_at(&self.tenant, self.births.oldest_first(), index) else {
            return Ok(None);
        };
        let mut writer = FrameWriter::new(alloc, number);
        writer.write(&self.tenant, alloc, wanted, part)?;
        Ok(Some(writer.frames))
    }

    /// How many of the `packets` packets of a batch may run within `bound`, a number of instructions; the library for C shortens a batch to
    /// these. Each run of the program at the descriptor `fd` counts for the most instructions on a path from slot 0 to an exit, plus
    /// `CALL_WEIGHT` of `tenant` times the most calls of helpers on such a path. The result (`allowed`) is `bound` divided by this count
    /// and rounded down, but at least 1, so that a caller makes progress with any bound, and never more than `packets` (`few`). It is
    /// `packets` if `bound` is 0, which means no bound; also if `fd` names no program, since then the batch is rejected. In the contract,
    /// `self.now.kept` is the tenant without its births, and `named` gives the object that is open at `fd`.
    pub fn allowed_packets(&self, fd: u32, bound: u64, packets: usize) -> usize
        ensures allowed { IsAllowed (named self.now.kept.objects fd) bound packets result }
        ensures few { result ≤ packets }
    {
        self.tenant.allowed_packets(fd, bound, packets)
    }

    /// Runs the program at descriptor `fd` on the packets of a batch, as test runs in their order (`runs`). Writes the result of each run,
    /// the low 32 bits of register 0 at its exit, to the front of `results`, in the order of the packets; the rest of `results` is
    /// unchanged. `batch` has the bytes of all packets, the offset in them at which each packet ends, and the ten context words after the
    /// packet's length, in one array for all packets or in one for each; `inputs_of` gives each packet its words. `tenant` is the number of
    /// this tenant's part of `arena`, a part of `PART` bytes; the other parts are unchanged (`others`), and so are the number (`parts`) and
    /// the size (`part`) of all parts. A run creates no map and loads no program, so no birth is recorded (`births`). In contracts, `kept`
    /// of `self` is the `Tenant` that it wraps.
    ///
    /// # Errors
    ///
    /// By `refusal` the first of these: `BadDescriptor` if `fd` is not open. `Invalid` if `fd` names a map, if `results` has room for fewer
    /// results than packets, or if there is neither one array of context words nor one for each packet. Else that of the first bad packet:
    /// `Invalid` if its end is before its beginning or after the last byte, `TooBig` if it is longer than `LONGEST_PACKET`. Then no packet
    /// was run; nothing has changed (`unchanged`).
    pub fn run_packets(
        &mut self,
        fd: u32,
        batch: Batch<'_>,
        results: &mut [u32],
        tenant: usize,
        arena: &mut Arena,
    ) -> Result<(), Errno>
        requires part { IsPartOf tenant arena.old }
        ensures runs { OnOk result (RunsBatch fd
            (tenant_state (part_bytes arena.old tenant) self.old)
            (inputs_of batch.entry.contexts.now
            (packets_in batch.entry.bytes.now batch.entry.ends.now)) results.old results.new
            (tenant_state (part_bytes arena.new tenant) self.new)) }
        ensures refusal { result_err result ≡ batch_refusal (named self.old.kept.objects fd)
            (length batch.entry.contexts.now) (length batch.entry.bytes.now)
            batch.entry.ends.now (length results.old) }
        ensures births { self.new.births ≡ self.old.births }
        ensures unchanged { OnErr result ((self.new ≡ self.old) × (arena.new ≡ arena.old)
            × (results.new ≡ results.old)) }
        ensures parts { arena.new.parts ≡ arena.old.parts }
        ensures part { arena.new.part ≡ arena.old.part }
        ensures others { (other : ℕ) → other ≢ tenant
            → part_bytes arena.new other ≡ part_bytes arena.old other }
    {
        // For the proof of the invariant `IsRecorded`: laws, which do nothing. The invariant: exactly the maps that open objects name are
        // live, and the births are those of the state. A run creates no map and loads no program, so it records no birth.
        maps_are_held();
        births_are_kept();
        self.tenant.run_packets(fd, batch, results, tenant, arena)
    }
}

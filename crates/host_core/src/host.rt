//! The host of all tenants.

ghost use Rattle.std.specs.Prelude.{◌≡◌, ◌≢◌, ℕ, ◌≤◌, [], length, option_map, replicate, slice_get, IfOk, OnOk, OnErr, true, false};
ghost use Rattle.std.specs.Result.{result_err};
ghost use Rattle.arena.specs.Memory.{Memory};
ghost use Rattle.command_frames.specs.Frame.{owner};
ghost use Rattle.tenant.specs.Alone.{MayReply, IsFault};
ghost use Rattle.tenant.specs.Batch.{packets_in, inputs_of};
ghost use Rattle.tenant.specs.State.{new_tenant};
ghost use Rattle.host_core.specs.Batch.{RunsFor, refusal_for, ChangesTenant};
ghost use Rattle.host_core.specs.Served.{IsUnrefused};
ghost use Rattle.host_core.specs.Saving.{AreRestored, Records, saved_part};
ghost use Rattle.host_core.specs.States.{births_in, new_host, states_from};
ghost use Rattle.host_core.specs.Limits.{most_tenants};

use arena::Arena;
use bpf_maps::PART;
use command_frames::{GIVEN_WORDS, Head, ReplyBuf, head, write_reply};
use saving::SavableTenant;
use seeded_hash::HashSeed;
use std::alloc::{AllocError, Global};
use std::marker::Model;
use tenant::{Batch, Errno, WorkingMemory, laws};

/// What replaces the head in the reply to a frame of fewer than four bytes, which has no head to repeat: 65535 for tenant and command.
const NO_HEAD: Head = Head {
    tenant: u16::MAX,
    command: u16::MAX,
};

/// The most tenants of a host, a limit of this project.
pub const MOST_TENANTS: usize = 64;

/// A host of 1 to `MOST_TENANTS` tenants. Contracts see the list of their states, and the list of the births of their objects, both
/// by tenant number. The invariant: the arena has a part of `PART` bytes for each tenant, and some commands lead a new tenant to each
/// state with its births.
#[derive(Drop)]
pub struct Host {
    pub(crate) tenants: Vec<SavableTenant>,
    /// A part for each tenant: the values of its maps, and the stack and the context of its runs.
    arena: Arena,
    /// The memory in which a load is verified, whichever tenant's it is.
    working: WorkingMemory,
    pub(crate) alloc: Global,
}

impl Model for Host {
    ghost use Rattle.std.specs.Prelude.{◌≡◌, ◌≤◌, vec_len};
    ghost use Rattle.bpf_maps.specs.declared.part.TheConstants.{PART};
    ghost use Rattle.host_core.specs.Limits.{most_tenants};
    ghost use Rattle.host_core.specs.States.{HostState, host_state};
    ghost use Rattle.host_core.specs.inside.Reached.{AreReached};

    ghost Value = { HostState };

    ghost view = { λ h. host_state h.arena h.tenants.items };

    ghost invariant = { λ h. (vec_len h.tenants ≤ most_tenants)
        × (h.arena.parts ≡ vec_len h.tenants) × (h.arena.part ≡ PART)
        × AreReached (host_state h.arena h.tenants.items) };
}

/// Creates `count` tenants with nothing open. The keys of their hash maps will be hashed with `seed`. Each is in the state of a new tenant
/// (`new`), whatever bytes the arena has (`m`) and whatever number the first of them gets (`first`): of a state, only the values of maps
/// are in the arena, and no tenant has a map yet. None has created a map or loaded a program, so the list of each tenant's births is empty
/// (`births`). `AllocError`: out of memory.
fn new_tenants(
    alloc: Global,
    count: usize,
    seed: HashSeed,
) -> Result<Vec<SavableTenant>, AllocError>
    ensures new { IfOk result (λ tenants. (m : Memory) (first : ℕ)
        → states_from m first tenants.items ≡ replicate count new_tenant) }
    ensures births { IfOk result (λ tenants. births_in tenants.items ≡ replicate count []) }
    ensures count { IfOk result (λ tenants. length tenants.items ≡ count) }
{
    let mut tenants = Vec::with_capacity(alloc, count)?;
    for _ in 0..count {
        tenants.push(SavableTenant::new(alloc, seed)?)?;
    }
    Ok(tenants)
}

impl Host {
    /// Creates a host for 1 to `MOST_TENANTS` tenants with nothing open. The keys of its hash maps are hashed with this seed.
    ///
    /// # Errors
    ///
    /// `AllocError`: out of memory.
    pub fn new(alloc: Global, tenants: usize, seed: HashSeed) -> Result<Host, AllocError>
        requires some { 1 ≤ tenants }
        requires few { tenants ≤ most_tenants }
        ensures { IfOk result (λ host. host ≡ new_host tenants) }
    {
        Ok(Host {
            tenants: new_tenants(alloc, tenants, seed)?,
            arena: Arena::new(alloc, tenants, PART)?,
            working: WorkingMemory::new(alloc),
            alloc,
        })
    }

    /// Whether memory was ever refused to the tenant with the number `tenant`: for a load, for an installed program, or for a new map. The
    /// tenant's state has a flag for this. By `unrefused`, false means that the flag is clear, so that the tenant's replies are those of
    /// its machine without refusals, or that the number is not served (`IsUnrefused`). By `refused`, true means that the flag is set: the
    /// replies may differ from those.
    pub fn memory_was_refused(&self, tenant: usize) -> bool
        ensures refused { result ≡ true → ¬ IsUnrefused (slice_get self.now.states tenant) }
        ensures unrefused { result ≡ false → IsUnrefused (slice_get self.now.states tenant) }
    {
        match self.tenants.get(tenant) {
            Some(tenant) => tenant.memory_was_refused(),
            None => false,
        }
    }

    /// Handles a frame (what follows the length field) of any length: writes its reply to `reply`, and changes the state of its tenant
    /// (`owner`: the number in the frame's head; without a head 65535, which no tenant has). Both are what the tenant's machine allows for
    /// the frame, with or without a refusal of memory (`own`). The tenant's births, the record of the maps created and programs loaded,
    /// change as well (`recorded`). All other tenants are unchanged (`others`), and so is their number (`count`). The status of the reply
    /// is that of EINVAL if the frame has fewer than the four bytes of a head, and that of EPERM if its tenant is not served; in both cases
    /// no state changes. It is never EFAULT, the status of a test run that faults (`no_fault`).
    pub fn handle(&mut self, frame: &[u8], reply: &mut ReplyBuf)
        ensures own { MayReply frame.now reply.new
            (slice_get self.old.states (owner frame.now))
            (slice_get self.new.states (owner frame.now)) }
        ensures others { (other : ℕ) → other ≢ owner frame.now
            → slice_get self.new.states other ≡ slice_get self.old.states other }
        ensures count { length self.new.states ≡ length self.old.states }
        ensures recorded { Records frame.now reply.new self.old self.new }
        ensures no_fault { ¬ IsFault reply.new }
    {
        // For the proof of `no_fault`: a law, which does nothing.
        laws::faults_have_no_payload();
        let served = self.tenants.len();
        let Some(head) = head(frame) else {
            write_reply(NO_HEAD, Errno::Invalid.status(), &[], reply);
            return;
        };
        let tenant = usize::from(head.tenant);
        if tenant >= served {
            write_reply(head, Errno::NotPermitted.status(), &[], reply);
            return;
        }
        let (arena, working) = (&mut self.arena, &mut self.working);
        self.tenants[tenant].handle(head, frame, tenant, arena, working, reply);
    }

    /// The frames of one part of a save of `tenant`, each with its length before it (`saved_part`). Parts are counted from 0; `None` after
    /// the last one, and for a tenant that is not served.
    ///
    /// A new tenant of this number, on any host, that is given the frames of all parts in their order then replies as the saved tenant
    /// does, unless it is refused memory. Between two parts `tenant` must not change; others may be served. A part creates one map or
    /// program, puts at most `KEYS_PER_SAVE_PART` keys (`saving`) into a map, or opens or closes descriptors. So a save of any size takes
    /// the memory of one part at a time.
    ///
    /// # Errors
    ///
    /// `AllocError`: out of memory.
    pub fn save(&self, tenant: usize, part: usize) -> Result<Option<Vec<u8>>, AllocError>
        ensures { IfOk result (λ saved. option_map (λ frames. frames.items) saved
            ≡ saved_part self.now tenant part) }
    {
        let Some(kept) = self.tenants.get(tenant) else {
            return Ok(None);
        };
        kept.save_part(self.alloc, tenant as u16, part, self.arena.part(tenant))
    }

    /// A law, which does nothing when it runs: what `save` returns restores a tenant (`AreRestored`). All parts of a save of a tenant, one
    /// after another, are frames of this tenant, each with its length before it. A new tenant to which no memory is refused succeeds at
    /// each of these frames. Then it replies as the saved tenant does, while no memory is refused to either. This holds whatever calls this
    /// host had, and whatever memory was refused to the saved tenant before.
    pub fn tenants_are_restored(&self)
        ensures { AreRestored self.now }
    {
        // For the proof only: by the invariant of the host each tenant has a history, commands that lead a new tenant to its state.
        let _ = &self.tenants;
        saving::laws::histories_are_restored();
        command_frames::laws::frames_have_owners();
        saving::laws::parts_are_whole();
    }

    /// Runs the program at the descriptor `fd` of `tenant` on many packets, in order. The packets lie one after another in `bytes`, from
    /// byte 0 on; `ends` has for each packet the number of bytes up to its end. `contexts` has one context for all packets, or one for
    /// each: the `GIVEN_WORDS` words that follow the packet's length in the context of a run. The result of a packet is the low 32 bits of
    /// register 0 at the exit of its run, as in the reply to a test run. The results are written to the front of `results`, in the order of
    /// the packets; the rest of `results` is unchanged.
    ///
    /// Results and states afterwards are those of the test-run frames of these packets in this order (`runs`). The states of all other
    /// tenants are unchanged (`tenant`), and so are all births, the records of created maps and loaded programs (`births`).
    ///
    /// # Errors
    ///
    /// The first that applies (`refusal`): `NotPermitted` if the tenant is not served; `BadDescriptor` if the descriptor is not open,
    /// `Invalid` if it names a map; `Invalid` if `results` has room for fewer results than packets, or if there is neither one context nor
    /// one for each packet; for the first wrong packet `Invalid` if its end is before the previous packet's end or after the end of
    /// `bytes`, `TooBig` if it has more than `LONGEST_PACKET` bytes. Then no packet was run, and nothing has changed (`unchanged`).
    pub fn run_packets(
        &mut self,
        tenant: usize,
        fd: u32,
        contexts: &[[u32; GIVEN_WORDS]],
        bytes: &[u8],
        ends: &[usize],
        results: &mut [u32],
    ) -> Result<(), Errno>
        ensures runs { OnOk result (RunsFor fd (slice_get self.old.states tenant)
            (inputs_of contexts.now (packets_in bytes.now ends.now)) results.old results.new
            (slice_get self.new.states tenant)) }
        ensures refusal { result_err result ≡ refusal_for (slice_get self.old.states tenant) fd
            (length contexts.now) (length bytes.now) ends.now (length results.old) }
        ensures unchanged { OnErr result ((self.new ≡ self.old) × (results.new ≡ results.old)) }
        ensures tenant { ChangesTenant tenant self.old.states self.new.states }
        ensures births { self.new.births ≡ self.old.births }
    {
        if tenant >= self.tenants.len() {
            return Err(Errno::NotPermitted);
        }
        let batch = Batch {
            contexts,
            bytes,
            ends,
        };
        let arena = &mut self.arena;
        self.tenants[tenant].run_packets(fd, batch, results, tenant, arena)
    }
}

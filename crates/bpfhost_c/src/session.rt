//! A host with its last reply, the last part of a save, and what the calls of C do with them.

ghost use Rattle.std.specs.Prelude.{◌≡◌, ◌≢◌, ◌≤◌, length, slice_get, vec_capacity, IfErr};
ghost use Rattle.std.specs.Prelude.{IfOk, OnErr, OnOk, Some, None, true, false, if◌then◌else◌};
ghost use Rattle.host_core.specs.Batch.{IsAllowedFor};
ghost use Rattle.host_core.specs.Frame.{longest_reply};
ghost use Rattle.host_core.specs.Handled.{Handles};
ghost use Rattle.host_core.specs.Installs.{Installs, FitsTenant};
ghost use Rattle.host_core.specs.Saving.{Records, AreRestored, saved_part};
ghost use Rattle.host_core.specs.States.{new_host};
ghost use Rattle.host_core.specs.Limits.{most_tenants};
ghost use Rattle.host_core.specs.TenantBatch.{are_contexts};
ghost use Rattle.bpfhost_c.specs.Contexts.{contexts_of, contexts_code};
ghost use Rattle.bpfhost_c.specs.Packets.{RunsPackets, RunsBounded, front_contexts};
ghost use Rattle.bpfhost_c.specs.declared.codes.TheConstants.{DONE, ERR_NO_MEMORY};

use crate::contexts::given_contexts;
use host_core::{GIVEN_WORDS, HashSeed, Host, LONGEST_REPLY, MOST_TENANTS, ReplyBuf};
use std::alloc::{AllocError, Global};
use std::mem::replace;
use tenant::Batch;
use verifier::Verified;

/// A host and its last reply, in a vector with the capacity for the longest one, and the last part of a save.
#[derive(Drop)]
pub struct Session {
    pub(crate) host: Host,
    pub(crate) reply: Vec<u8>,
    /// The frames of the part that was saved last; empty before the first save, and after a save that found no part or had no memory.
    pub(crate) saved: Vec<u8>,
    alloc: Global,
    ghost room: { longest_reply ≤ vec_capacity reply },
}

/// The packets of a batch, and contexts of any size.
#[derive(Clone, Copy)]
pub(crate) struct SizedBatch<'a> {
    /// The words of the contexts, one context after another.
    pub words: &'a [u32],
    /// The number of words of each context.
    pub size: usize,
    /// The bytes of the packets, one packet after another.
    pub bytes: &'a [u8],
    /// For each packet, the number of `bytes` up to its end.
    pub ends: &'a [usize],
}

/// What a batch gave: its status, and how many packets were run.
#[derive(Clone, Copy)]
pub(crate) struct Ran {
    /// 0, or the status of the error for which no packet was run.
    pub(crate) status: i32,
    /// 0 if the status is not 0.
    pub(crate) packets: usize,
}

/// The contexts for the first `count` of the `packets` packets of a batch, those that `run_bounded` runs. A context here is the
/// `GIVEN_WORDS` words that follow the packet's length in the context of a run. `count` is the number of packets that a bound on executed
/// instructions allows, at most `packets` (`Session::allowed_packets`). If `contexts` has one for each packet, the result is its first
/// `count` contexts. Else the result is all of `contexts`: a single context is for all packets, and with any other number of contexts
/// `run_packets` rejects the batch. For such a batch `count` is `packets`: with fewer packets, each could have one context, and the batch
/// would be run.
fn front_contexts(
    contexts: &[[u32; GIVEN_WORDS]],
    packets: usize,
    count: usize,
) -> &[[u32; GIVEN_WORDS]]
    requires { count ≤ packets }
    ensures { result.now ≡ front_contexts packets count contexts.now }
{
    if contexts.len() == packets {
        &contexts[..count]
    } else {
        contexts
    }
}

impl Session {
    /// A session with a new host for `tenants` tenants, at least 1 (`some`) and at most `MOST_TENANTS` (`few`), as `bpfhost_c_new` tests.
    /// The keys of the host's hash maps will be hashed with `seed`. `reply` has no reply yet, but room for the longest, which the ghost
    /// field `room` of `Session` requires, so that no reply takes memory later. `saved` has no frames of a save yet. `AllocError`: out of
    /// memory.
    pub(crate) fn new(
        alloc: Global,
        tenants: usize,
        seed: HashSeed,
    ) -> Result<Box<Session>, AllocError>
        requires some { 1 ≤ tenants }
        requires few { tenants ≤ most_tenants }
        ensures { IfOk result (λ session. session.value.host ≡ new_host tenants) }
    {
        let host = Host::new(alloc, tenants, seed)?;
        let reply = Vec::with_capacity(alloc, LONGEST_REPLY)?;
        let saved = Vec::new(alloc);
        let session = Session {
            host,
            reply,
            saved,
            alloc,
        };
        Ok(Box::new(alloc, session)?)
    }

    /// Handles a frame (what follows its length field), whose reply is then in `reply`, with at most `LONGEST_REPLY` bytes (`bound`). The
    /// reply and the next state of the frame's tenant are those of its machine, with or without a refusal of memory; all other tenants are
    /// unchanged, and no test run faults (`handled`). If the frame has no head, or its tenant is not served, the reply is an error, and no
    /// tenant changes. The tenant's births, the record of its live maps and open programs, change as the command says; no other births
    /// change (`recorded`).
    pub(crate) fn handle(&mut self, frame: &[u8])
        ensures handled { Handles self.old.host.states frame.now self.new.reply.items
            self.new.host.states }
        ensures recorded { Records frame.now self.new.reply.items self.old.host self.new.host }
        ensures bound { length self.new.reply.items ≤ longest_reply }
    {
        // `ReplyBuf` takes the vector, and gives it back afterwards. By `room`, the ghost field of `Session`, it has the capacity for the
        // longest reply, so `from_vec` never returns `None`.
        let room = replace(&mut self.reply, Vec::new(self.alloc));
        let Some(mut reply) = ReplyBuf::from_vec(room) else {
            unreachable!()
        };
        self.host.handle(frame, &mut reply);
        self.reply = reply.into_vec();
    }

    /// Makes part `part`, counted from 0, of a save of a tenant. True: the field `saved` has the frames of the part, each after its length
    /// (`saved_part` of `host_core`). False: there is no such part, or the tenant is not served. `AllocError`: out of memory. After false,
    /// and after `AllocError`, the field is empty. The host is unchanged (`host`). The frames of all parts, in order, restore the tenant: a
    /// new tenant that has handled them replies as the saved one does, unless memory is refused to it (`restored`).
    pub(crate) fn save(&mut self, tenant: usize, part: usize) -> Result<bool, AllocError>
        ensures saved { IfOk result (λ found. saved_part self.old.host tenant part
            ≡ (if found then Some self.new.saved.items else None)) }
        ensures restored { AreRestored self.old.host }
        ensures host { self.new.host ≡ self.old.host }
    {
        // For the proof of `restored`: a law, which does nothing.
        self.host.tenants_are_restored();
        // The frames of the part before are freed first, so that two parts are never held at once.
        self.saved = Vec::new(self.alloc);
        match self.host.save(tenant, part)? {
            Some(frames) => {
                self.saved = frames;
                Ok(true)
            }
            None => Ok(false),
        }
    }

    /// Opens a program that was verified without a host, at the lowest free descriptor of `tenant`. `Ok` has the status of the reply to the
    /// frame that would load the program: the descriptor, or the negated number of an error, after which the program is dropped. The host
    /// changes as by this frame (`loaded`). If the tenant is not served, the error is `NotPermitted`. `Err` gives the program back, and the
    /// session is unchanged: a descriptor of the program's maps names no map of the shape with which the program was accepted (`stale`).
    /// `Ok` means that at the call each descriptor of the program's maps names such a map, or that the tenant is not served (`fits`).
    pub(crate) fn install(
        &mut self,
        tenant: u16,
        program: Box<Verified>,
    ) -> Result<i32, Box<Verified>>
        ensures loaded { IfOk result (λ status.
            Installs tenant program.value.code status self.old.host self.new.host) }
        ensures fits { OnOk result
            (FitsTenant program.value (slice_get self.old.host.states tenant)) }
        ensures stale { IfErr result (λ kept. (kept.value ≡ program.value) × (self.new ≡ self.old)
            × ¬ FitsTenant program.value (slice_get self.old.host.states tenant)) }
    {
        self.host.install(tenant, program)
    }

    /// Runs the program at descriptor `fd` of a tenant on the packets of a batch, writes the result of each run, the low 32 bits of
    /// register 0 at the exit, to the front of `results`, and returns 0. In `batch`, the packets lie one after another in `bytes`, `ends`
    /// has for each the number of bytes up to its end, and `contexts` has one context for all packets, or one for each: the words after the
    /// packet's length. For a rejected batch no packet is run, nothing changes, and the function returns the negated number of the first of
    /// these errors: `NotPermitted` (the tenant is not served), `BadDescriptor` (`fd` is not open), `Invalid` (it names a map, `results` is
    /// too short, or `contexts` has another length), and for the first wrong packet `Invalid` (its end is before the previous one or
    /// outside `bytes`) or `TooBig` (it has more than `LONGEST_PACKET` bytes, 65,536). The births for a save never change (`births`).
    pub(crate) fn run_packets(
        &mut self,
        tenant: usize,
        fd: u32,
        batch: Batch<'_>,
        results: &mut [u32],
    ) -> i32
        ensures runs { RunsPackets tenant fd batch.entry.contexts.now batch.entry.bytes.now
            batch.entry.ends.now results.old results.new result self.old.host.states
            self.new.host.states }
        ensures births { self.new.host.births ≡ self.old.host.births }
    {
        let Batch {
            contexts,
            bytes,
            ends,
        } = batch;
        match self
            .host
            .run_packets(tenant, fd, contexts, bytes, ends, results)
        {
            Ok(()) => 0,
            Err(errno) => errno.status(),
        }
    }

    /// How many packets at the front of a batch a `bound` on executed instructions allows. The batch has `contexts` contexts and `packets`
    /// packets, for the program at descriptor `fd` of `tenant`. By `allowed` (`Host::allowed_packets`) the result is `bound` divided by the
    /// weight of a run and rounded down, but 1 if that is 0, so that a caller makes progress with any bound, and `packets` if there are
    /// fewer packets (`few`). The weight is the most instructions that a run executes, plus 128 (`CALL_WEIGHT` of the crate `tenant`) times
    /// the most calls of helpers that a run makes, since a call may take as long as some 128 instructions. The result is `packets` if
    /// `bound` is 0, which is no bound, and also if the batch is rejected as a whole: if `fd` names no program, or `tenant` is not served,
    /// or if the batch has neither one context nor one for each packet (`whole`; `are_contexts` is then false). In this last case no packet
    /// may be left out: with as many packets as contexts the batch could be run.
    fn allowed_packets(
        &self,
        tenant: usize,
        fd: u32,
        bound: u64,
        contexts: usize,
        packets: usize,
    ) -> usize
        ensures allowed { are_contexts contexts packets ≡ true
            → IsAllowedFor (slice_get self.now.host.states tenant) fd bound packets result }
        ensures whole { are_contexts contexts packets ≡ false → result ≡ packets }
        ensures few { result ≤ packets }
    {
        if contexts != 1 && contexts != packets {
            return packets;
        }
        self.host.allowed_packets(tenant, fd, bound, packets)
    }

    /// Runs the program at descriptor `fd` of a tenant on the first packets of a batch, as many as `allowed_packets` returns for `bound`.
    /// `bound` limits the instructions that all these runs together may execute; each call of a helper counts for `CALL_WEIGHT` (of
    /// `tenant`) more. One packet is always allowed, and 0 is no bound. In `batch`, the packets lie one after another in `bytes`, and
    /// `ends` has for each the number of bytes up to its end. A single context is for all packets; if there is one for each, those of the
    /// first packets are taken (`front_contexts`). With any other number of contexts no packet is left out, and `run_packets` rejects the
    /// batch. The number that each run returns is written to the front of `results`, and `Ran` has status 0 and the number of packets that
    /// were run. If `run_packets` rejects the packets, also because `results` is too short for them, `Ran` has the negated number of the
    /// error as its status, and 0 packets; then nothing has changed. The record of births, which a save needs, never changes (`births`).
    pub(crate) fn run_bounded(
        &mut self,
        tenant: usize,
        fd: u32,
        bound: u64,
        batch: Batch<'_>,
        results: &mut [u32],
    ) -> Ran
        ensures runs { RunsBounded tenant fd bound batch.entry.contexts.now batch.entry.bytes.now
            batch.entry.ends.now results.old results.new result.status result.packets
            self.old.host.states self.new.host.states }
        ensures births { self.new.host.births ≡ self.old.host.births }
    {
        let (contexts, ends) = (batch.contexts, batch.ends);
        let packets = self.allowed_packets(tenant, fd, bound, contexts.len(), ends.len());
        let front = Batch {
            contexts: front_contexts(contexts, ends.len(), packets),
            bytes: batch.bytes,
            ends: &ends[..packets],
        };
        let status = self.run_packets(tenant, fd, front, results);
        if status != 0 {
            return Ran { status, packets: 0 };
        }
        Ran { status, packets }
    }

    /// Runs the program at descriptor `fd` of a tenant on the first packets of a batch. In `batch`, the packets lie one after another in
    /// `bytes`, `ends` has for each the number of bytes up to its end, and `words` has one context for all packets, or one for each, of
    /// `size` words. A run is given `GIVEN_WORDS` words of its context: missing ones are 0, and words beyond that number are left out, and
    /// have to be 0 (`contexts_of`). `bound` limits the instructions that these runs together may execute, in which a call of a helper
    /// counts for more than one; one packet is always allowed, and 0 is no bound (`allowed_packets`). Returns `Ran` with status 0 and the
    /// number of packets that were run; their results are at the front of `results`, which needs room only for these. If `run_bounded`
    /// rejects the batch, `Ran` has the negated error number and 0 packets, and nothing has changed. All this is `RunsBounded` (`done`). No
    /// births of the host change, since a run opens nothing (`births`).
    ///
    /// `Err`: the code that C gets. `ERR_SIZE`: the size is 0 or the last context is cut off. `ERR_TOO_BIG`: a context has a word that no
    /// run is given and that is not 0. `ERR_NO_MEMORY`: out of memory, for contexts without these faults. `contexts_code` is the code of
    /// the contexts without regard to memory: `DONE` if they have neither fault, as after `Ok` (`known`) and for `ERR_NO_MEMORY`; any other
    /// error is this code (`code`). After `Err` nothing is changed (`session`, `results`).
    pub(crate) fn run_sized(
        &mut self,
        tenant: usize,
        fd: u32,
        bound: u64,
        batch: SizedBatch<'_>,
        results: &mut [u32],
    ) -> Result<Ran, i32>
        ensures done { IfOk result (λ ran. RunsBounded tenant fd bound
            (contexts_of batch.entry.size batch.entry.words.now) batch.entry.bytes.now
            batch.entry.ends.now results.old results.new ran.status ran.packets
            self.old.host.states self.new.host.states) }
        ensures known { IfOk result (λ ran.
            contexts_code batch.entry.size batch.entry.words.now ≡ DONE) }
        ensures code { IfErr result (λ code. (code ≢ DONE)
            × (code ≢ ERR_NO_MEMORY
            → code ≡ contexts_code batch.entry.size batch.entry.words.now)
            × (code ≡ ERR_NO_MEMORY
            → contexts_code batch.entry.size batch.entry.words.now ≡ DONE)) }
        ensures births { self.new.host.births ≡ self.old.host.births }
        ensures session { OnErr result (self.new ≡ self.old) }
        ensures results { OnErr result (results.new ≡ results.old) }
    {
        let contexts = given_contexts(self.alloc, batch.words, batch.size)?;
        let given = Batch {
            contexts: contexts.as_slice(),
            bytes: batch.bytes,
            ends: batch.ends,
        };
        Ok(self.run_bounded(tenant, fd, bound, given, results))
    }
}

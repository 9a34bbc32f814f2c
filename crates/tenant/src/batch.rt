//! A program on many packets.

ghost use Rattle.std.specs.Prelude.{◌≡◌, ◌≢◌, ℕ, ◌≤◌, length, OnOk, OnErr};
ghost use Rattle.std.specs.Result.{result_err};
ghost use Rattle.arena.specs.Memory.{part_bytes};
ghost use Rattle.bpf_helpers.specs.Parts.{IsPartOf};
ghost use Rattle.fd_table.specs.Table.{named};
ghost use Rattle.tenant.specs.Batch.{packets_in, inputs_of, RunsBatch, batch_refusal, IsAllowed, allowed, run_weight};
ghost use Rattle.tenant.specs.Kept.{state_in};

use crate::errno::Errno;
use crate::object::program_at;
use crate::tenant::Tenant;
use arena::{Arena, Trace};
use flat_machine::{BoundProgram, GIVEN_WORDS, Packets, run_packets};
use verifier::{Cost, laws};

/// The packets of a batch, and the words of context that their runs are given.
#[derive(Clone, Copy)]
pub struct Batch<'a> {
    /// The ten words of context after the packet's length: one array for all packets, or one for each, in the order of the packets.
    pub contexts: &'a [[u32; GIVEN_WORDS]],
    /// The bytes of the packets, one packet after another.
    pub bytes: &'a [u8],
    /// For each packet, how many of these bytes are before its end. The first packet begins at 0, each other
    /// packet at the end of the packet before it.
    pub ends: &'a [usize],
}

/// What a call of a helper counts for in the bound of a batch, in instructions besides its own. The dearest calls copy a value of 4,095
/// bytes or add a key of 512, and take as long as some 128 instructions.
pub const CALL_WEIGHT: u32 = 128;

/// The weight of one run in a batch, in instructions, for a program of this cost: the most instructions that a run executes, plus
/// `CALL_WEIGHT` for each of the most calls of helpers that a run makes, since a call may take as long as many instructions. A batch may
/// have a bound, a number of instructions. It allows as many packets as the bound divided by this weight, rounded down, but at least one
/// and at most all (`allowed`).
fn run_weight(cost: Cost) -> u64
    ensures { result ≡ run_weight cost }
{
    u64::from(cost.instructions) + u64::from(CALL_WEIGHT) * u64::from(cost.calls)
}

/// The number of packets that a bound of `bound` instructions allows, of the `packets` packets of a batch, if a run counts for `cost`
/// instructions (`run_weight`): as many runs as fit into the bound, but at least one, and at most `packets` (`few`). `allowed_packets` has
/// handled a `bound` of 0 before, which means no bound; this is not required, and with 0 the result would be at most 1. `cost` is not 0, as
/// the division requires, since each run executes its exit.
fn allowed(bound: u64, cost: u64, packets: usize) -> usize
    requires { 1 ≤ cost }
    ensures allowed { result ≡ allowed bound cost packets }
    ensures few { result ≤ packets }
{
    let runs = (bound / cost).max(1) as usize;
    packets.min(runs)
}

impl Tenant {
    /// How many of the `packets` of a batch may run within `bound`, a number of instructions; hosts ask this before a batch with a bound. A
    /// run of the program at the descriptor `fd` has a weight: the most instructions that it executes, plus `CALL_WEIGHT` times the most
    /// calls of helpers that it makes. The result (`allowed`) is `bound` divided by the weight and rounded down, but at least 1, and at
    /// most `packets` (`few`). It is `packets` if `bound` is 0, which is no bound; also if the descriptor names no program, since such a
    /// batch is rejected as a whole.
    #[tactic(auto, using(crate::proofs::Bounds::weights_are_positive, crate::proofs::Bounds::all_allowed, crate::proofs::Bounds::allowed_of_program, crate::proofs::Bounds::allowed_otherwise))]
    pub fn allowed_packets(&self, fd: u32, bound: u64, packets: usize) -> usize
        ensures allowed { IsAllowed (named self.now.objects fd) bound packets result }
        ensures few { result ≤ packets }
    {
        if bound == 0 {
            return packets;
        }
        match program_at(&self.objects, fd) {
            Ok(program) => allowed(bound, run_weight(program.program().cost()), packets),
            Err(_) => packets,
        }
    }

    /// Runs the program at the descriptor `fd` on the packets of `batch`, one after another, in this tenant's part of the arena; `tenant`
    /// is the number of this tenant and of its part, which has `PART` bytes. The packets follow one another in `bytes`, and `ends` has the
    /// end of each (`packets_in`). `contexts` has the words of the context without the first, the packet's length: one array for all
    /// packets, or one for each (`inputs_of`). The result of a run is the low 32 bits of register 0 at the exit. The results are written to
    /// the front of `results`, in the order of the packets; the rest of `results` is unchanged.
    ///
    /// Results, maps and state afterwards are those of the test runs of these packets in this order (`runs`). The other parts of the arena
    /// are unchanged (`others`), and so are the number (`parts`) and the size (`part`) of its parts.
    ///
    /// # Errors
    ///
    /// `BadDescriptor` if the descriptor is not open. `Invalid` if it names a map, if `results` has room for fewer results than packets, or
    /// if there is neither one array of context words nor one for each packet. Else the error of the first packet that has one: `Invalid`
    /// if the packet ends before it begins or after the last byte, `TooBig` if the packet has more than `LONGEST_PACKET` bytes. After an
    /// error no packet was run, and nothing has changed (`unchanged`).
    pub fn run_packets(
        &mut self,
        fd: u32,
        batch: Batch<'_>,
        results: &mut [u32],
        tenant: usize,
        arena: &mut Arena,
    ) -> Result<(), Errno>
        requires part { IsPartOf tenant arena.old }
        ensures runs { OnOk result (RunsBatch fd
            (state_in (part_bytes arena.old tenant) self.old)
            (inputs_of batch.entry.contexts.now
            (packets_in batch.entry.bytes.now batch.entry.ends.now)) results.old results.new
            (state_in (part_bytes arena.new tenant) self.new)) }
        ensures refusal { result_err result ≡ batch_refusal (named self.old.objects fd)
            (length batch.entry.contexts.now) (length batch.entry.bytes.now)
            batch.entry.ends.now (length results.old) }
        ensures unchanged { OnErr result ((self.new ≡ self.old) × (arena.new ≡ arena.old)
            × (results.new ≡ results.old)) }
        ensures parts { arena.new.parts ≡ arena.old.parts }
        ensures part { arena.new.part ≡ arena.old.part }
        ensures others { (other : ℕ) → other ≢ tenant
            → part_bytes arena.new other ≡ part_bytes arena.old other }
    {
        laws::maps_are_listed();
        let program = program_at(&self.objects, fd)?;
        let Batch {
            contexts,
            bytes,
            ends,
        } = batch;
        if results.len() < ends.len() {
            return Err(Errno::Invalid);
        }
        match Packets::new(contexts, bytes, ends) {
            // Without packets there is nothing to run, so the program's maps are not entered into the table.
            Ok(_) if ends.is_empty() => Ok(()),
            Ok(packets) => {
                // For the proof: a law, by which no packet is too long.
                packets.packets_are_short();
                // For the contract of the runs only; it takes no space.
                let mut trace = Trace::new();
                let bound = BoundProgram {
                    program: program.program(),
                    bind: program.maps(),
                    tenant,
                };
                run_packets(
                    bound,
                    arena,
                    &mut self.maps,
                    &packets,
                    results,
                    &mut self.table_room,
                    &mut trace,
                );
                Ok(())
            }
            Err(fault) => Err(Errno::of_packet(fault)),
        }
    }
}

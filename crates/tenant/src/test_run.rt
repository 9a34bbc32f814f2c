//! Test runs of loaded programs.

ghost use Rattle.std.specs.Prelude.{◌≡◌, ◌≢◌, ℕ};
ghost use Rattle.arena.specs.Memory.{part_bytes};
ghost use Rattle.bpf_helpers.specs.Parts.{IsPartOf};
ghost use Rattle.fd_table.specs.Table.{named};
ghost use Rattle.tenant.specs.Kept.{state_in};
ghost use Rattle.tenant.specs.Machine.{run_of};
ghost use Rattle.tenant.specs.Replies.{shown_reply, IsWritable};

use crate::errno::Errno;
use crate::object::program_at;
use crate::reply::Reply;
use crate::tenant::Tenant;
use arena::{Arena, Trace};
use flat_machine::{BoundProgram, GIVEN_WORDS, LONGEST_PACKET, context_words, run_with};
use tagged_model::Outcome;
use verifier::laws;

impl Tenant {
    /// PROG_TEST_RUN: runs the program at descriptor `fd` on `packet`, with the maps with which it was loaded, and returns the low 32 bits
    /// of register 0 at its exit. The context is the packet's length and then the ten `words`. `answer`: the reply and the tenant's new
    /// state are those of the definition `run_of`. The run uses only the part of `tenant`, the number of this tenant, in `arena`, and every
    /// other part is unchanged (`others`). It takes no memory, and never faults: so no error is `BadAddress`, that of a run that faults
    /// (`writable`). `parts`, and `part` after the run: the number and the size of the parts are unchanged. Required (`part`): the arena
    /// has a part of this tenant, of `PART` bytes.
    ///
    /// # Errors
    ///
    /// `BadDescriptor` if the descriptor is not open, `Invalid` if it names a map, `TooBig` if the packet has more than `LONGEST_PACKET`
    /// bytes. Then nothing has changed.
    pub fn test_run(
        &mut self,
        fd: u32,
        words: &[u32; GIVEN_WORDS],
        packet: &[u8],
        tenant: usize,
        arena: &mut Arena,
    ) -> Result<Reply<'static>, Errno>
        requires part { IsPartOf tenant arena.old }
        ensures answer { shown_reply result (state_in (part_bytes arena.new tenant) self.new)
            ≡ run_of (state_in (part_bytes arena.old tenant) self.old)
            words.now packet.now (named self.old.objects fd) }
        ensures writable { IsWritable result }
        ensures parts { arena.new.parts ≡ arena.old.parts }
        ensures part { arena.new.part ≡ arena.old.part }
        ensures others { (other : ℕ) → other ≢ tenant
            → part_bytes arena.new other ≡ part_bytes arena.old other }
    {
        laws::maps_are_listed();
        let program = program_at(&self.objects, fd)?;
        if packet.len() > LONGEST_PACKET {
            return Err(Errno::TooBig);
        }
        let context = context_words(packet.len() as u32, words);
        // For the contract of the run only; it takes no space.
        let mut trace = Trace::new();
        let bound = BoundProgram {
            program: program.program(),
            bind: program.maps(),
            tenant,
        };
        let outcome = run_with(
            bound,
            arena,
            &mut self.maps,
            &context,
            packet,
            &mut self.table_room,
            &mut trace,
        );
        match outcome {
            Outcome::Value(value) => Ok(Reply::Number(value)),
            // No run of an accepted program faults.
            Outcome::Fault => unreachable!(),
        }
    }
}

//! Programs that were verified elsewhere.

ghost use Rattle.std.specs.Prelude.{◌≡◌, ◌≢◌, ℕ, List, [], Some, IfOk, IfErr, OnOk};
ghost use Rattle.command_frames.specs.Frame.{reply_to};
ghost use Rattle.tenant.specs.Alone.{MayReply};
ghost use Rattle.tenant.specs.Errno.{status_of};
ghost use Rattle.tenant.specs.Machine.{targets};
ghost use Rattle.tenant.specs.Replies.{IsWritable, shown_reply};
ghost use Rattle.tenant.specs.State.{TenantState};
ghost use Rattle.tenant.specs.declared.errno.Errno.TheVariants.{BadAddress};
ghost use Rattle.verifier.specs.Fits.{Fits};
ghost use Rattle.saving.specs.Installs.{load_frame, load_reply};
ghost use Rattle.saving.specs.Recorded.{RecordsFrame, tenant_state};

use crate::laws::{births_are_kept, maps_are_held};
use crate::savable::SavableTenant;
use std::alloc::Global;
use tenant::{Errno, Reply, Verified};

/// The status of the reply to a command: the new descriptor, if one was opened; the negated number of an error, also of the one for which a
/// load is rejected (`Refused`); else 0. The command promises `IsWritable` of its result, by which a descriptor is at most 66, so the cast
/// keeps it. The contract holds for any state `s` after the command: no status depends on it.
fn status_of(reply: &Result<Reply<'_>, Errno>) -> i32
    requires { IsWritable reply.now }
    ensures { (s : TenantState) → result ≡ (shown_reply reply.now s).status }
{
    match reply {
        Ok(Reply::Done) | Ok(Reply::Value(_)) | Ok(Reply::Key(_)) | Ok(Reply::Number(_)) => 0,
        Ok(Reply::Opened(fd)) => *fd as i32,
        Ok(Reply::Refused(refusal)) => Errno::of_cause(refusal.cause).status(),
        Err(errno) => errno.status(),
    }
}

impl SavableTenant {
    /// Opens a program that was verified without a host, and records its birth, as for a frame that loads the program. Returns the status
    /// of the reply to that frame, which has no payload: the new descriptor, or a negative number if no descriptor is free or memory is
    /// refused. `load_frame` is this frame, of a tenant with any `number`, and `load_reply` its reply. `part` is any bytes of the tenant's
    /// part, which are neither read nor written. `replied`: the tenant's machine may reply so to the frame, and then goes from the state
    /// before to the state after. `recorded`: the births change as by the frame. `no_fault`: the status is never that of `BadAddress`, the
    /// error of a run that faults, as `Host::handle` promises of each reply. `fits`: after `Ok` each descriptor of the program's maps
    /// names, among the open descriptors (`targets`), a map of the shape with which it was accepted.
    ///
    /// # Errors
    ///
    /// The program itself, if a descriptor of its maps names no such map (`stale`). Then nothing has changed.
    pub fn install(&mut self, alloc: Global, program: Box<Verified>) -> Result<i32, Box<Verified>>
        ensures replied { IfOk result (λ status. (number : ℕ) (part : List ℕ) → MayReply
            (load_frame number program.value.code) (load_reply number program.value.code status)
            (Some (tenant_state part self.old)) (Some (tenant_state part self.new))) }
        ensures recorded { IfOk result (λ status. (number : ℕ) (part : List ℕ) → RecordsFrame
            (load_frame number program.value.code) (load_reply number program.value.code status)
            (tenant_state part self.old) (tenant_state part self.new)
            self.old.births self.new.births) }
        ensures no_fault { IfOk result (λ status. (number : ℕ) →
            load_reply number program.value.code status
            ≢ reply_to (load_frame number program.value.code) (status_of BadAddress) []) }
        ensures fits { OnOk result ((part : List ℕ) →
            Fits program.value (targets (tenant_state part self.old))) }
        ensures stale { IfErr result (λ kept. (kept.value ≡ program.value) × (self.new ≡ self.old)
            × ((part : List ℕ) → ¬ Fits program.value (targets (tenant_state part self.old)))) }
    {
        // For the proof: laws, which do nothing.
        command_frames::laws::encoding_inverts_parsing();
        maps_are_held();
        births_are_kept();
        // Called only for its contract: the instructions meet `IsProgram`, so `load_frame` is not too long to be parsed.
        program.program().code();
        match self.tenant.install(alloc, program) {
            Ok(reply) => {
                self.births.note(&self.tenant, &reply);
                Ok(status_of(&reply))
            }
            Err(program) => Err(program),
        }
    }
}

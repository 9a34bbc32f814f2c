//! Programs that were verified elsewhere.

ghost use Rattle.std.specs.Prelude.{◌≡◌, slice_get, IfOk, IfErr, OnOk};
ghost use Rattle.host_core.specs.Installs.{Installs, FitsTenant};

use crate::host::Host;
use tenant::{Errno, Verified, laws};

impl Host {
    /// Opens, for `tenant`, a program that was verified elsewhere, without a host. The host changes as by the frame that would load the
    /// program, and `Ok` has the status of the reply to this frame: a descriptor, or the negated error number (`loaded`). The program is
    /// neither copied nor verified again.
    ///
    /// With which objects it was accepted does not matter, if each descriptor of its maps names a map of the same shape here; after `Ok`
    /// this is known (`fits`). If one does not, `Err` gives the program back, and nothing has changed (`stale`): then its slots have to be
    /// loaded by a frame. For a tenant that is not served the program is dropped, and the status is that of `NotPermitted`, as in the reply
    /// to a frame; `FitsTenant` holds then, as it requires nothing.
    pub fn install(&mut self, tenant: u16, program: Box<Verified>) -> Result<i32, Box<Verified>>
        ensures loaded { IfOk result (λ status.
            Installs tenant program.value.code status self.old self.new) }
        ensures fits { OnOk result
            (FitsTenant program.value (slice_get self.old.states tenant)) }
        ensures stale { IfErr result (λ kept. (kept.value ≡ program.value) × (self.new ≡ self.old)
            × ¬ FitsTenant program.value (slice_get self.old.states tenant)) }
    {
        // For the proof of `loaded` and of the invariant of `Host`: laws, which do nothing when they run. By the first, with the contract
        // of `SavableTenant::install`, the status is never that of a test run that faults, as `Host::handle` promises too (`no_fault`). By
        // the second, the frame that would load the program goes to `tenant`.
        laws::faults_have_no_payload();
        command_frames::laws::frames_have_owners();
        let number = usize::from(tenant);
        if number >= self.tenants.len() {
            return Ok(Errno::NotPermitted.status());
        }
        self.tenants[number].install(self.alloc, program)
    }
}

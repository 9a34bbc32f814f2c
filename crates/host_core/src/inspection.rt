//! What the owner of a host can see of a tenant: how much it has, what its descriptors name, and what its programs cost.

ghost use Rattle.std.specs.Prelude.{◌≡◌, ◌≤◌, ℕ, List, slice_get, option_map, IfOk};
ghost use Rattle.saving.specs.Recorded.{tenant_state};
ghost use Rattle.tenant.specs.Costs.{HasCostAt};
ghost use Rattle.tenant.specs.Counts.{counts_if_served};
ghost use Rattle.tenant.specs.Described.{described_if_served};
ghost use Rattle.host_core.specs.Batch.{IsAllowedFor};
ghost use Rattle.host_core.specs.Targets.{targets_if_served};

use crate::host::Host;
use saving::SavableTenant;
use std::alloc::AllocError;
use tagged_model::Named;
use tenant::{Cost, Counts, Described};

impl Host {
    /// The tenant with the number `tenant` as the host stores it; `None` if the number is not served. The functions of this file, which
    /// only read, call this function. The contract is about the tenant's state, which contracts see in `states` by number: there is one
    /// exactly if the number is served, and the stored tenant (`kept`) represents it (`tenant_state`) with some bytes `part`, those of the
    /// tenant's part of the arena.
    fn kept(&self, tenant: usize) -> Option<&SavableTenant>
        ensures { (part : List ℕ) × (slice_get self.now.states tenant
            ≡ option_map (λ kept. tenant_state part kept.now) result) }
    {
        self.tenants.get(tenant)
    }

    /// How much `tenant` has at this moment, for the owner of the host: how many live maps; how many keys these have together; how many
    /// bytes their areas have; how many descriptors name a program, and how many are open; and whether memory was ever refused to the
    /// tenant. In the contract, `slice_get` gives the tenant's state, or `None` for a number that is not served. Then all counts are 0, and
    /// `memory_refused` is false (`counts_if_served`).
    pub fn counts(&self, tenant: usize) -> Counts
        ensures { result ≡ counts_if_served (slice_get self.now.states tenant) }
    {
        match self.kept(tenant) {
            Some(tenant) => tenant.counts(),
            None => Counts::none(),
        }
    }

    /// What the descriptor `fd` of `tenant` names at this moment: nothing, a map with its shape and its number of keys, or a program with
    /// its number of slots. A tenant that is not served has nothing open.
    pub fn describe(&self, tenant: usize, fd: u32) -> Described
        ensures { result ≡ described_if_served (slice_get self.now.states tenant) fd }
    {
        match self.kept(tenant) {
            Some(tenant) => tenant.describe(fd),
            None => Described::nothing(),
        }
    }

    /// The cost of the program that the descriptor `fd` of `tenant` names: the most instructions on a path from slot 0 to an exit, and the
    /// most calls of helpers on one, perhaps another path. `None` if `fd` names no program, or if the tenant is not served.
    pub fn program_cost(&self, tenant: usize, fd: u32) -> Option<Cost>
        ensures { HasCostAt (slice_get self.now.states tenant) fd result }
    {
        match self.kept(tenant) {
            Some(tenant) => tenant.program_cost(fd),
            None => None,
        }
    }

    /// How many of the `packets` packets of a batch may run within `bound`, a number of instructions. The library for C runs only these by
    /// one call. A run of the program at the descriptor `fd` of `tenant` counts for the most instructions that it executes, and
    /// `CALL_WEIGHT` (of the crate `tenant`) more for each of the most calls of helpers that it makes. The result (`allowed`) is `bound`
    /// divided by this count and rounded down, but 1 if that is 0, so that a caller makes progress with any bound, and `packets` if there
    /// are fewer packets (`few`). It is `packets` too if `bound` is 0, which means no bound; also if the tenant is not served or the
    /// descriptor names no program, since such a batch is rejected as a whole.
    #[tactic(auto, using(crate::proofs::Allowed::no_bound_allows_all))]
    pub fn allowed_packets(&self, tenant: usize, fd: u32, bound: u64, packets: usize) -> usize
        ensures allowed { IsAllowedFor (slice_get self.now.states tenant) fd bound packets result }
        ensures few { result ≤ packets }
    {
        // A batch without a bound: neither the tenant nor a cost is looked up, and nothing is multiplied or divided.
        if bound == 0 {
            return packets;
        }
        match self.kept(tenant) {
            Some(tenant) => tenant.allowed_packets(fd, bound, packets),
            None => packets,
        }
    }

    /// The open descriptors of `tenant` at this moment, from the lowest on, each with its `Target`, which is what the verifier gets of the
    /// object for a load: the shape of a map, or only that it is a program. `bpfhost_c_verify` verifies a program with this list and does
    /// not load it. The list is empty for a number that is not served. `AllocError`: out of memory.
    pub fn targets(&self, tenant: usize) -> Result<Vec<Named>, AllocError>
        ensures { IfOk result (λ named. named.items
            ≡ targets_if_served (slice_get self.now.states tenant)) }
    {
        match self.kept(tenant) {
            Some(tenant) => tenant.targets(self.alloc),
            None => Ok(Vec::new(self.alloc)),
        }
    }
}

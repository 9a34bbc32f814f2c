//! What can be seen of a tenant: how much it has, what its descriptors name, and what its programs cost.

ghost use Rattle.std.specs.Prelude.{◌≡◌, ℕ, List, IfOk};
ghost use Rattle.fd_table.specs.Table.{named};
ghost use Rattle.saving.specs.Recorded.{tenant_state};
ghost use Rattle.tenant.specs.Costs.{HasCost};
ghost use Rattle.tenant.specs.Counts.{counts_of};
ghost use Rattle.tenant.specs.Described.{described};
ghost use Rattle.tenant.specs.Machine.{targets};

use crate::savable::SavableTenant;
use std::alloc::{AllocError, Global};
use tagged_model::Named;
use tenant::{Cost, Counts, Described};

impl SavableTenant {
    /// How many live maps the tenant has at this moment, how many keys these have, and how many bytes their areas take; how many open
    /// programs and open descriptors it has; and whether memory was ever refused to it. This does not depend on the bytes of its part.
    pub fn counts(&self) -> Counts
        ensures { (part : List ℕ) → result ≡ counts_of (tenant_state part self.now) }
    {
        self.tenant.counts()
    }

    /// What the descriptor `fd` names at this moment: nothing, a map with its shape and its number of keys, or a program with its number of
    /// slots. The result's `kind` says which of the three. The result does not depend on the bytes of the tenant's part: by the contract it
    /// is the description (`described`) of the tenant's state with any bytes `part`. The library for C inspects a tenant with it.
    pub fn describe(&self, fd: u32) -> Described
        ensures { (part : List ℕ) → result ≡ described (tenant_state part self.now) fd }
    {
        self.tenant.describe(fd)
    }

    /// The cost of the program that the descriptor `fd` names, which `bpfhost_c_program_cost` writes (`Host::program_cost`): the most
    /// instructions, and the most calls of helpers, on a path from slot 0 to an exit; the two may be of different paths. `None` if `fd`
    /// names a map or is not open. In the contract, `self.now.kept` is the tenant without its births, and `named` gives the object that is
    /// open at `fd`.
    pub fn program_cost(&self, fd: u32) -> Option<Cost>
        ensures { HasCost (named self.now.kept.objects fd) result }
    {
        self.tenant.program_cost(fd)
    }

    /// The open descriptors, from the lowest on, each with its object as the verifier sees it: a map by its shape, or only that it is a
    /// program. `bpfhost_c_verify` gets them by `Host::targets`, and so verifies slots as a load of the tenant does. `part` is any list of
    /// bytes, since the result does not depend on the bytes of the tenant's part. `AllocError`: out of memory.
    pub fn targets(&self, alloc: Global) -> Result<Vec<Named>, AllocError>
        ensures { IfOk result (λ found. (part : List ℕ) →
            found.items ≡ targets (tenant_state part self.now)) }
    {
        self.tenant.targets(alloc)
    }
}

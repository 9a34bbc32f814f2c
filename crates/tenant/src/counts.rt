//! How much a tenant has.

ghost use Rattle.std.specs.Prelude.{◌≡◌, ◌≤◌, ℕ, List, None};
ghost use Rattle.bpf_maps.specs.Sum.{total};
ghost use Rattle.fd_table.specs.Table.{most};
ghost use Rattle.tenant.specs.Counts.{counts_of, counts_if_served, one_program};
ghost use Rattle.tenant.specs.Kept.{state_in};

use crate::object::program_at;
use crate::tenant::Tenant;
use fd_table::{FIRST, MOST};

/// How much a tenant has. A C struct with the same fields has this layout.
#[derive(Clone, Copy, Debug, PartialEq, Eq)]
#[repr(C)]
pub struct Counts {
    /// How many live maps it has, which an open descriptor or a loaded program names: 0 to 16.
    pub maps: u32,
    /// How many keys all its live maps have together. An array has all its indices.
    pub entries: u32,
    /// The bytes that the values of its live maps take, each rounded up to a multiple of eight; at most 262,144 are allowed.
    pub value_bytes: u32,
    /// How many open descriptors name a program.
    pub programs: u32,
    /// How many descriptors are open: 0 to 64.
    pub descriptors: u32,
    /// Whether memory was ever refused to a load, the install of a prepared program, or a new map.
    pub memory_refused: bool,
}

impl Counts {
    /// The counts of a tenant that is not served, for `counts` of `Host`. Such a tenant has no state (`None`), so all counts are 0, and
    /// `memory_refused` is false (`counts_if_served`).
    pub fn none() -> Counts
        ensures { result ≡ counts_if_served None }
    {
        Counts {
            maps: 0,
            entries: 0,
            value_bytes: 0,
            programs: 0,
            descriptors: 0,
            memory_refused: false,
        }
    }
}

impl Tenant {
    /// How many descriptors are open: 0 to 64 (`few`). `count`: each descriptor that names an object counts as 1, a free one as 0.
    fn open_count(&self) -> u32
        ensures count { result ≡ total (λ o. 1) self.now.objects }
        ensures few { result ≤ most }
    {
        // For the proof: the table has one item for each descriptor. Nothing is done when it runs.
        let _ = &self.objects;
        let mut count = 0;
        for fd in FIRST..FIRST + MOST as u32 {
            if self.objects.get(fd).is_some() {
                count += 1;
            }
        }
        count
    }

    /// How many descriptors name a program. `count`: the sum over the open descriptors of 1 for a program and 0 for a map. `few`: at most
    /// `most`, 64, since no more descriptors can be open.
    fn program_count(&self) -> u32
        ensures count { result ≡ total one_program self.now.objects }
        ensures few { result ≤ most }
    {
        // For the proof: the table has one item for each descriptor. Nothing is done when it runs.
        let _ = &self.objects;
        let mut count = 0;
        for fd in FIRST..FIRST + MOST as u32 {
            if program_at(&self.objects, fd).is_ok() {
                count += 1;
            }
        }
        count
    }

    /// How much the tenant has at this moment, for the owner of the host: how many live maps, how many keys these have, and how many bytes
    /// their areas take (`value_bytes`); how many open descriptors name a program, and how many descriptors are open in all; and whether
    /// memory was ever refused to it, for a load, an installed program or a new map. The contract holds for any bytes `part` of the
    /// tenant's part: the counts do not depend on them.
    pub fn counts(&self) -> Counts
        ensures { (part : List ℕ) → result ≡ counts_of (state_in part self.now) }
    {
        // A law: the values take so few bytes that the cast below loses nothing.
        self.maps.maps_are_laid();
        Counts {
            maps: self.maps.live_count(),
            entries: self.maps.key_sum(),
            value_bytes: self.maps.value_bytes() as u32,
            programs: self.program_count(),
            descriptors: self.open_count(),
            memory_refused: self.memory_was_refused(),
        }
    }
}

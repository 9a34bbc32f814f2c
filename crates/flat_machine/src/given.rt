//! What a program is run with.

use crate::map_words::BoundMaps;
use bpf_maps::MapKey;
use insn_codec::RawSlot;
use verifier::Verified;

/// A program with its maps, and the part of the memory in which it runs.
#[derive(Clone, Copy)]
pub struct BoundProgram<'a> {
    pub program: &'a Verified,
    /// The handle of a live map for each descriptor that the program loads, in their order.
    pub bind: &'a [MapKey],
    /// The number of its tenant, and so of the part in which it runs.
    pub tenant: usize,
}

/// What the runs of a program have in common.
#[derive(Clone, Copy)]
pub(crate) struct Given<'a> {
    pub(crate) program: &'a Verified,
    /// Its slots, as `slots_of` returns them.
    pub(crate) slots: &'a [RawSlot],
    /// The opcode of the first of these slots, which is read once for all runs.
    pub(crate) first: usize,
    /// The maps that it loads.
    pub(crate) loaded: BoundMaps<'a>,
    /// The number of the part of the memory in which it runs.
    pub(crate) tenant: usize,
}

//! The caller of a helper.

use crate::arrays::Arrays;
use bpf_maps::MapKey;

/// The inputs of a call from the run that makes it, besides the words of its arguments.
#[derive(Clone, Copy)]
pub(crate) struct Caller<'a> {
    /// The number of the tenant whose run it is, and whose part the run uses.
    pub tenant: usize,
    /// The handles of the bound live maps, in the order of the program's descriptors.
    pub bind: &'a [MapKey],
    /// The packet.
    pub packet: &'a [u8],
}

/// The inputs of a call from a run that knows which of its maps are arrays.
#[derive(Clone, Copy)]
pub struct RunCaller<'a> {
    /// The number of the tenant whose run it is, and whose part the run uses.
    pub tenant: usize,
    /// The handles of the bound live maps, in the order of the program's descriptors.
    pub bind: &'a [MapKey],
    /// What the run knows of these maps, so that it looks a key of an array up without the map.
    pub arrays: Arrays<'a>,
    /// The packet.
    pub packet: &'a [u8],
}

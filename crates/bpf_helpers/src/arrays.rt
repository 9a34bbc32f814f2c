//! What a run knows of the arrays among its maps.

use bpf_maps::MAPS;

/// What a run knows of each map that is bound to it, in the order of the program's descriptors. By it a look-up in an array finds a value
/// without reading the map.
#[derive(Clone, Copy)]
pub struct Arrays<'a> {
    /// The `Elements` of each map, as one number (`Elements::word`). Their count is 0 for a hash map.
    pub elements: &'a [u64; MAPS],
    /// The address of the first value of each map.
    pub values: &'a [u64; MAPS],
}

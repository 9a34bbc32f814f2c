//! Errors of calls of a map.

/// Why a call of a map fails: an error of the kernel, with its number.
#[derive(Clone, Copy, Debug, PartialEq, Eq)]
pub enum MapFault {
    /// ENOENT, 2: the key is absent, or, for a request for the next key, no key follows.
    NoEntry,
    /// E2BIG, 7: a new key for a full hash map, or an index of an array out of range.
    TooBig,
    /// ENOMEM, 12: out of memory for a new map. In this host no other call of a map takes memory.
    Memory,
    /// EEXIST, 17: the key is present, and the update's flag requires an absent one.
    Exists,
    /// EINVAL, 22: an unknown flag, or a call that this kind of map does not support.
    Invalid,
    /// ENOSPC, 28: a tenant has too many live maps for another one, or their values would take too many bytes.
    NoSpace,
}

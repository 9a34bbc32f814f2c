//! The codes that calls return to C. `clients/c/include/bpfhost.h` has the same numbers.

/// The call was carried out. The status of a command, which is written or in its reply, may still be an error.
pub(crate) const DONE: i32 = 0;

/// The handle has no host.
pub(crate) const ERR_NO_HOST: i32 = -1;

/// The handle has a host already.
pub(crate) const ERR_HAS_HOST: i32 = -2;

/// The number of tenants is not from 1 to `MOST_TENANTS`.
pub(crate) const ERR_TENANT_COUNT: i32 = -3;

/// Out of memory.
pub(crate) const ERR_NO_MEMORY: i32 = -4;

/// The room for a reply has fewer than `LONGEST_REPLY` bytes.
pub(crate) const ERR_BUFFER_TOO_SMALL: i32 = -5;

/// A save of the tenant has no part with this number, or the tenant is not served.
pub(crate) const ERR_NO_PART: i32 = -6;

/// A context has a word that no run is given, and that is not zero, as bpf(2) rejects longer attributes (E2BIG).
pub(crate) const ERR_TOO_BIG: i32 = -7;

/// The size of a context is 0, or the words are not whole contexts.
pub(crate) const ERR_SIZE: i32 = -8;

/// A descriptor of the program names no map of the shape with which the program was prepared.
pub(crate) const ERR_STALE: i32 = -9;

/// The handle has no prepared program: none was prepared, or it was refused, installed or freed.
pub(crate) const ERR_NO_PROGRAM: i32 = -10;

/// The handle has a prepared program already.
pub(crate) const ERR_HAS_PROGRAM: i32 = -11;

/// A descriptor is given a map that MAP_CREATE cannot make, or there are more descriptors than a tenant can have open.
pub(crate) const ERR_DESCRIPTORS: i32 = -12;

/// There is no style of a log with this number.
pub(crate) const ERR_STYLE: i32 = -13;

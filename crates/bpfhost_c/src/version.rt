//! The version of the library. `tools/version` writes its three numbers.

const MAJOR: u32 = 0;

const MINOR: u32 = 3;

const PATCH: u32 = 0;

/// The three numbers of the version, each in eight bits: of 24 bits the first number has the highest eight.
pub(crate) const VERSION: u32 = MAJOR * 65_536 + MINOR * 256 + PATCH;

/// The number of the binary interface: it changes whenever the soname does.
pub(crate) const ABI: u32 = 3;

//! The context of a program.

/// The number of words of a program's context that the caller of a test run gives. The context has eleven, of 32 bits each; the first is
/// the packet's length, which is not given.
pub const GIVEN_WORDS: usize = 10;

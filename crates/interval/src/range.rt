//! A range of unsigned numbers.

ghost use Rattle.std.specs.Prelude.{◌≡◌, ◌+◌, ◌^◌, ◌≤◌};
ghost use Rattle.words.specs.Widths.{width};

/// The whole numbers from `lo` to `hi`, both included. There is at least one, by `ordered`, which only contracts see.
#[derive(Clone, Copy, Debug, PartialEq, Eq)]
pub struct Range {
    /// The least member.
    pub lo: u64,
    /// The greatest member.
    pub hi: u64,
    pub ghost ordered: { lo ≤ hi },
}

impl Range {
    ghost use Rattle.std.specs.Prelude.{◌≡◌, ◌≤◌};
    ghost use Rattle.interval.specs.Ranges.{span, constant, is_constant, full};

    /// The numbers from `lo` to `hi`. Callers pass ends in order, so that there is a member.
    pub(crate) fn new(lo: u64, hi: u64) -> Range
        requires { lo ≤ hi }
        ensures { result ≡ span lo hi }
    {
        Range { lo, hi }
    }

    /// The range whose only member is `value`.
    pub fn constant(value: u64) -> Range
        ensures { result ≡ constant value }
    {
        Range {
            lo: value,
            hi: value,
        }
    }

    /// All unsigned numbers of 64 bits (`wide`), 0 to 2^64 - 1, or of 32 bits, 0 to 2^32 - 1: the range of a number of which only the width
    /// is known.
    pub fn full(wide: bool) -> Range
        ensures { result ≡ full (width wide) }
    {
        Range {
            lo: 0,
            hi: greatest(wide),
        }
    }

    /// Whether the range has exactly one member, so that the number is known.
    pub fn is_constant(self) -> bool
        ensures { result ≡ is_constant self }
    {
        self.lo == self.hi
    }
}

/// The greatest number of 64 bits (`wide`), or of 32. By the contract the number after it is 2^64 or 2^32.
pub(crate) fn greatest(wide: bool) -> u64
    ensures { result + 1 ≡ 2 ^ width wide }
{
    if wide { u64::MAX } else { 0xffff_ffff }
}

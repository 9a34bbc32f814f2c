//! The hull of two ranges, their join.

ghost use Rattle.std.specs.Prelude.{◌≡◌};
ghost use Rattle.interval.specs.Ranges.{hull};

use crate::range::Range;

/// The join of two ranges: the least range that includes the members of both.
pub fn hull(a: Range, b: Range) -> Range
    ensures { result ≡ hull a b }
{
    Range {
        lo: a.lo.min(b.lo),
        hi: a.hi.max(b.hi),
    }
}

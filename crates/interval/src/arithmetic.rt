//! The ranges of sums, differences, products, and unsigned quotients and remainders, on 64 bits (`wide`) or 32, for first operands in `a`
//! and second ones in `b`. A number wraps if it is reduced modulo 2^64 or 2^32.

ghost use Rattle.std.specs.Prelude.{◌≡◌, ◌<◌, ◌^◌};
ghost use Rattle.words.specs.Widths.{width};
ghost use Rattle.interval.specs.Table.{sum_range, difference_range, product_range, quotient_range, remainder_range};

use crate::range::{Range, greatest};

/// The range of the sums of a member of `a` and a member of `b`, modulo 2^64 (`wide`) or 2^32: exact if no sum wraps or all do, else all
/// numbers of 64 or 32 bits. The members are numbers of this width (`first`, `second`). No operation overflows. Whether the sum of two ends
/// wraps is tested by comparing one with the greatest number of the width minus the other. If all sums wrap, this difference and then 1 are
/// subtracted from the end of `a`, which gives the sum of the ends minus 2^64 or 2^32.
pub(crate) fn sum(wide: bool, a: Range, b: Range) -> Range
    requires first { a.hi < 2 ^ width wide }
    requires second { b.hi < 2 ^ width wide }
    ensures { result ≡ sum_range (width wide) a b }
{
    let greatest = greatest(wide);
    if a.hi <= greatest - b.hi {
        Range::new(a.lo + b.lo, a.hi + b.hi)
    } else if greatest - b.lo < a.lo {
        Range::new(a.lo - (greatest - b.lo) - 1, a.hi - (greatest - b.hi) - 1)
    } else {
        Range::full(wide)
    }
}

/// The range of the differences, modulo 2^64 (`wide`) or 2^32, of a member of `a` minus a member of `b`. By the preconditions all members
/// are numbers of 64 or of 32 bits. The range is exact if no difference wraps (is below 0) or all do, else it is all numbers of 64 or 32
/// bits. If all wrap, 2^64 or 2^32 is added in two steps, the greatest number of the width first and 1 last, so that no sum overflows.
pub(crate) fn difference(wide: bool, a: Range, b: Range) -> Range
    requires first { a.hi < 2 ^ width wide }
    requires second { b.hi < 2 ^ width wide }
    ensures { result ≡ difference_range (width wide) a b }
{
    let greatest = greatest(wide);
    if b.hi <= a.lo {
        Range::new(a.lo - b.hi, a.hi - b.lo)
    } else if a.hi < b.lo {
        Range::new(greatest - b.hi + a.lo + 1, greatest - b.lo + a.hi + 1)
    } else {
        Range::full(wide)
    }
}

/// The range of the products of a member of `a` and one of `b`, modulo 2^64 (`wide`) or 2^32; the members are below that power (`first`,
/// `second`). If the greatest product, that of both high ends, is below the power too, none wraps, and the range is from the product of the
/// low ends to that of the high ends. Else it is all numbers of this width. `checked_mul` gives `None` for a product of more than 64 bits.
pub(crate) fn product(wide: bool, a: Range, b: Range) -> Range
    requires first { a.hi < 2 ^ width wide }
    requires second { b.hi < 2 ^ width wide }
    ensures { result ≡ product_range (width wide) a b }
{
    match a.hi.checked_mul(b.hi) {
        Some(hi) if hi <= greatest(wide) => Range::new(a.lo * b.lo, hi),
        _ => Range::full(wide),
    }
}

/// The range of the unsigned quotients of a dividend in `a` by a divisor in `b`: from the least dividend by the greatest divisor, to the
/// greatest dividend by the least divisor. If the divisor may be 0, the range is from 0 to the greatest dividend, since a quotient by 0 is
/// 0 and no quotient is above its dividend.
pub(crate) fn quotient(a: Range, b: Range) -> Range
    ensures { result ≡ quotient_range a b }
{
    if b.lo >= 1 {
        Range::new(a.lo / b.hi, a.hi / b.lo)
    } else {
        Range::new(0, a.hi)
    }
}

/// The range of the unsigned remainders of a dividend in `a` and a divisor in `b`, of 64 bits or 32: from 0 to the greatest dividend, and
/// below the greatest divisor if no divisor is 0. A remainder by 0 is the dividend. The range has every remainder, and maybe other numbers.
pub(crate) fn remainder(a: Range, b: Range) -> Range
    ensures { result ≡ remainder_range a b }
{
    if b.lo >= 1 {
        Range::new(0, a.hi.min(b.hi - 1))
    } else {
        Range::new(0, a.hi)
    }
}

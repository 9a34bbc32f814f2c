//! The ranges of the bitwise operators.

ghost use Rattle.std.specs.Prelude.{◌≡◌, ◌≤◌};
ghost use Rattle.interval.specs.Table.{and_range, or_range, xor_range, most_with_digits};

use crate::range::Range;

/// A range that includes each bitwise AND of a member of `a` and one of `b`: from 0 to the lesser of the two high ends, since no AND is
/// above an operand.
pub(crate) fn and(a: Range, b: Range) -> Range
    ensures { result ≡ and_range a b }
{
    Range::new(0, a.hi.min(b.hi))
}

/// A range that includes each bitwise OR of a member of `a` and one of `b`: from the greater of the two low ends, since no OR is below an
/// operand, to the greatest number with as many binary digits as the greater of the two high ends (`most_with_digits`).
pub(crate) fn or(a: Range, b: Range) -> Range
    ensures { result ≡ or_range a b }
{
    Range::new(a.lo.max(b.lo), most_with_digits(a, b))
}

/// A range that includes each bitwise XOR of a member of `a` and one of `b`: from 0 to the greatest number with as many binary digits as
/// the greater of the two high ends (`most_with_digits`).
pub(crate) fn exclusive_or(a: Range, b: Range) -> Range
    ensures { result ≡ xor_range a b }
{
    Range::new(0, most_with_digits(a, b))
}

/// The greatest number with as many binary digits as the greater of `a.hi` and `b.hi`; 0 if both are 0. So no OR or XOR of a member of `a`
/// and one of `b` is above the result. The number 0 has a case of its own, as a shift by 64 bits is not defined. By `first` and `second`
/// the result is not below `a.hi` or `b.hi`, and so not below `a.lo` or `b.lo`. `or` needs this: its range is from the greater of these two
/// to the result.
fn most_with_digits(a: Range, b: Range) -> u64
    ensures value { result ≡ most_with_digits a b }
    ensures first { a.hi ≤ result }
    ensures second { b.hi ≤ result }
{
    let most = a.hi.max(b.hi);
    if most == 0 {
        0
    } else {
        u64::MAX >> most.leading_zeros()
    }
}

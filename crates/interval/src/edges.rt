//! How a conditional jump refines the ranges of its operands.

ghost use Rattle.std.specs.Prelude.{◌≡◌, ℕ, ◌+◌, ◌-◌, IsTrue, IsFalse, Option};
ghost use Rattle.words.specs.Widths.{width};
ghost use Rattle.words.specs.Compare.{compares};
ghost use Rattle.interval.specs.Ranges.{IsMember};
ghost use Rattle.interval.specs.Refine.{except, if_equal, if_different, if_above, if_at_most, refined, IsPairOn, swapped};

use crate::range::{Range, greatest};
use words::Condition;

/// The ranges of the first and the second operand on an edge of a conditional jump; `None` if no two members take the edge.
pub type Edge = Option<(Range, Range)>;

/// Refines the ranges `a` and `b` of the operands of a conditional jump on 64 bits (`wide`) or 32. The first result is the edge that jumps,
/// on which the condition holds; the second is the one that falls through, on which it fails. An edge has the range of each operand on it,
/// and is `None` only if no two members take it. Every two members are in the ranges of the edge that they take (`taken`, `not_taken`). By
/// `exact` a range loses the numbers that take the edge with no number of the other range, as far as the rest is a range. But the ranges
/// are `a` and `b` if the condition is signed or a test of common bits (JSET), or if an operand may be 2^32 or more on 32 bits, as only its
/// low half is compared.
pub fn refine(condition: Condition, wide: bool, a: Range, b: Range) -> (Edge, Edge)
    ensures exact { result ≡ refined (width wide) condition a b }

    ensures taken { (x y : ℕ) → IsMember x a → IsMember y b
        → IsTrue (compares (width wide) condition x y) → IsPairOn result.0 x y }

    ensures not_taken { (x y : ℕ) → IsMember x a → IsMember y b
        → IsFalse (compares (width wide) condition x y) → IsPairOn result.1 x y }
{
    if a.hi > greatest(wide) || b.hi > greatest(wide) {
        return (Some((a, b)), Some((a, b)));
    }
    match condition {
        Condition::Equal => (if_equal(a, b), if_different(a, b)),
        Condition::NotEqual => (if_different(a, b), if_equal(a, b)),
        Condition::Above => (if_above(a, b), if_at_most(a, b)),
        Condition::BelowOrEqual => (if_at_most(a, b), if_above(a, b)),
        Condition::Below => (swapped(if_above(b, a)), swapped(if_at_most(b, a))),
        Condition::AboveOrEqual => (swapped(if_at_most(b, a)), swapped(if_above(b, a))),
        Condition::SignedAbove
        | Condition::SignedAboveOrEqual
        | Condition::SignedBelow
        | Condition::SignedBelowOrEqual
        | Condition::CommonBit => (Some((a, b)), Some((a, b))),
    }
}

/// The edge with the ranges of its two operands swapped. `None`, an edge that no two members of the ranges take, is unchanged. `refine`
/// needs the swap since it refines `a` below `b` as `b` above `a`, and `a` above or equal to `b` as `b` at most `a`.
fn swapped(edge: Edge) -> Edge
    ensures { result ≡ swapped edge }
{
    match edge {
        Some((a, b)) => Some((b, a)),
        None => None,
    }
}

/// The ranges of the operands, the first of range `a` and the second of range `b`, on the edge on which they are equal: both have the
/// intersection of `a` and `b`. `None` if it is empty: then no two members take the edge.
fn if_equal(a: Range, b: Range) -> Edge
    ensures { result ≡ if_equal a b }
{
    let lo = a.lo.max(b.lo);
    let hi = a.hi.min(b.hi);
    if lo > hi {
        return None;
    }
    let both = Range::new(lo, hi);
    Some((both, both))
}

/// The ranges of the operands of a comparison, the first in `a` and the second in `b`, on the edge on which they differ: the jumping edge
/// for `NotEqual`, the falling edge for `Equal`. If one range has only one member, and this is an end of the other range, the other range
/// loses this end; else both ranges are unchanged. `None`, an edge that is never taken, if each range has only one member, and both members
/// are equal.
fn if_different(a: Range, b: Range) -> Edge
    ensures { result ≡ if_different a b }
{
    if b.is_constant() {
        let rest = except(a, b.lo)?;
        Some((rest, b))
    } else if a.is_constant() {
        let rest = except(b, a.lo)?;
        Some((a, rest))
    } else {
        Some((a, b))
    }
}

/// The range `r` without the number `value`. If `value` is an end of `r`, the range loses this end; `None` if no member is left. If `value`
/// is no end of `r`, the result is `r` itself, since a range has no gaps: a number between the ends can't be taken out.
fn except(r: Range, value: u64) -> Option<Range>
    ensures { result ≡ except r value }
{
    if r.lo == value && r.hi == value {
        None
    } else if r.lo == value {
        Some(Range::new(r.lo + 1, r.hi))
    } else if r.hi == value {
        Some(Range::new(r.lo, r.hi - 1))
    } else {
        Some(r)
    }
}

/// The ranges of the operands on the edge on which the first, of range `a`, is above the second, of range `b`. The first keeps the members
/// of `a` that are above the least of `b`, and the second the members of `b` that are below the greatest of `a`. `None` if no member of `a`
/// is above any of `b`: then no two members take the edge.
fn if_above(a: Range, b: Range) -> Edge
    ensures { result ≡ if_above a b }
{
    if a.hi <= b.lo {
        return None;
    }
    let above = Range::new(a.lo.max(b.lo + 1), a.hi);
    let below = Range::new(b.lo, b.hi.min(a.hi - 1));
    Some((above, below))
}

/// The ranges of the operands on the edge on which the first, of range `a`, is at most the second, of range `b`. The first keeps the
/// members of `a` that are at most the greatest of `b`, and the second the members of `b` that are at least the least of `a`. `None` if all
/// members of `a` are above all of `b`: then no two members take the edge.
fn if_at_most(a: Range, b: Range) -> Edge
    ensures { result ≡ if_at_most a b }
{
    if a.lo > b.hi {
        return None;
    }
    let below = Range::new(a.lo, a.hi.min(b.hi));
    let above = Range::new(a.lo.max(b.lo), b.hi);
    Some((below, above))
}

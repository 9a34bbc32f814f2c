//! Known answers, proved only from the contracts. Nothing calls these functions.

use crate::{Range, alu32, alu64, hull, refine};
use words::{AluOp, Condition, Operator};

/// Known ranges of sums, which the contracts of `alu64` and `alu32` determine; nothing calls this function. On 64 bits, the sums of a
/// number from 0 to 7 and a number from 250 to 255 are from 250 to 262. On 32 bits, the sums of 2^32 - 1 and a number from 1 to 2 all wrap,
/// so they are from 0 to 1.
fn ranges_of_sums() {
    let sum = alu64(
        Operator::Binary(AluOp::Add),
        Range::new(0, 7),
        Range::new(250, 255),
    );
    prove!(sum.lo == 250);
    prove!(sum.hi == 262);
    let wrapped = alu32(
        Operator::Binary(AluOp::Add),
        Range::constant(0xffff_ffff),
        Range::new(1, 2),
    );
    prove!(wrapped.lo == 0);
    prove!(wrapped.hi == 1);
}

/// The hull of 1 to 4 and 3 to 9, the least range with the members of both, is 1 to 9.
fn range_of_both() {
    let both = hull(Range::new(1, 4), Range::new(3, 9));
    prove!(both.lo == 1);
    prove!(both.hi == 9);
}

/// `refine` on 64 bits (`true`) returns the edge on which the condition holds, and then the other edge. A number of 0 to 255 is compared
/// with 7: on the edge on which it is above 7, its range is 8 to 255, on the other edge 0 to 7. Then 0 is compared with 1: the edge on
/// which they are equal can't be taken (`None`).
fn edges_of_a_jump() {
    let (above, at_most) = refine(
        Condition::Above,
        true,
        Range::new(0, 255),
        Range::constant(7),
    );
    let is_cut = matches!(above, Some((a, _)) if a.lo == 8 && a.hi == 255);
    prove!(is_cut);
    let is_rest = matches!(at_most, Some((a, _)) if a.lo == 0 && a.hi == 7);
    prove!(is_rest);
    let (equal, _) = refine(
        Condition::Equal,
        true,
        Range::constant(0),
        Range::constant(1),
    );
    let is_lost = equal.is_none();
    prove!(is_lost);
}

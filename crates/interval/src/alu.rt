//! The range of an operator's results, for operands in two ranges. `wide` is the width of an operation: 64 bits if true, 32 if false.

ghost use Rattle.std.specs.Prelude.{◌≡◌, ℕ, ◌<◌, ◌^◌};
ghost use Rattle.words.specs.declared.operator.Operator.TheVariants.{Binary};
ghost use Rattle.words.specs.Widths.{width};
ghost use Rattle.words.specs.Operate.{operate, kept_bits};
ghost use Rattle.interval.specs.Ranges.{IsMember, full};
ghost use Rattle.interval.specs.Table.{are_constants, are_alu_constants, alu_range, general_range, operand_range, range_of};

use crate::arithmetic::{difference, product, quotient, remainder, sum};
use crate::bitwise::{and, exclusive_or, or};
use crate::range::{Range, greatest};
use crate::shifts::{shift_left, shift_right, sign_extend, signed_shift_right};
use words::{AluOp, BITS_32, BITS_64, KeptBits, Operator, words32, words64};

/// The range of the results of `op` on 64 bits, for first operands (destinations) in `a` and second ones (sources) in `b`. By `exact` it is
/// the range that the definition `range_of` gives, and by `sound` it has the result (`operate`) for every member of `a` and every member of
/// `b`. An operand that `op` does not read is ignored: a move and a sign extension read only the second one, a change of sign and a
/// byte-order conversion only the first.
#[inline(always)]
pub fn alu64(op: Operator, a: Range, b: Range) -> Range
    ensures exact { result ≡ range_of 64 op a b }
    ensures sound { (x y : ℕ) → IsMember x a → IsMember y b → IsMember (operate 64 op x y) result }
{
    match op {
        Operator::Binary(op) => binary64(op, a, b),
        _ => unary64(op, a, b),
    }
}

/// The range of the results of `op`, an operator of two operands or a move, on 64 bits, for first operands (destinations) in `a` and second
/// ones (sources) in `b`; a move reads only the second one. The range has one number if the range of each operand that `op` reads has only
/// one, else it is that of `alu_range`. So it is what the definition `range_of` gives (`exact`), and has the result for every member of `a`
/// and every member of `b` (`sound`). `alu64` calls this function for these operators, and `unary64` for those of one operand.
fn binary64(op: AluOp, a: Range, b: Range) -> Range
    ensures exact { result ≡ range_of 64 (Binary op) a b }
    ensures sound { (x y : ℕ) → IsMember x a → IsMember y b
        → IsMember (operate 64 (Binary op) x y) result }
{
    if are_alu_constants(op, a, b) {
        Range::constant(words64::alu(op, a.lo, b.lo))
    } else {
        alu_range(BITS_64, op, a, b)
    }
}

/// The range of the results of `op` on 64 bits, for first operands in `a` and second ones in `b`. By `exact` it is the range that the
/// definition `range_of` gives, and by `sound` it has the result (`operate`) for every member of `a` and every member of `b`. It has one
/// number if the range of each operand that `op` reads has only one, else it is that of `general_range`. The contract holds for each
/// operator, but `alu64` calls this function only for those of one operand: a sign extension, which reads only `b`, a change of sign and a
/// byte-order conversion, which read only `a`. Operators of two operands and moves go to `binary64`, so that their code needs no second
/// match on `Operator` after that of `alu64`.
fn unary64(op: Operator, a: Range, b: Range) -> Range
    ensures exact { result ≡ range_of 64 op a b }
    ensures sound { (x y : ℕ) → IsMember x a → IsMember y b → IsMember (operate 64 op x y) result }
{
    if are_constants(op, a, b) {
        Range::constant(words64::operate(op, a.lo, b.lo))
    } else {
        general_range(BITS_64, op, a, b)
    }
}

/// The range of the results of `op` on 32 bits, for first operands in `a` and second ones in `b`. By `exact` it is the range that the table
/// of ranges (`range_of`) gives, and by `sound` it includes the result for each member of `a` and each of `b`. A move and a sign extension
/// read only `b`, a change of sign and a byte-order conversion only `a`. An operation reads the low 32 bits of an operand, so a range with
/// a member of 2^32 or more is first replaced by a range of the low halves of its members. But a byte-order conversion reads all 64 bits,
/// so its range is that on 64 bits. If each range that `op` reads has one member, the result has one: `operate` computes it.
pub fn alu32(op: Operator, a: Range, b: Range) -> Range
    ensures exact { result ≡ range_of 32 op a b }
    ensures sound { (x y : ℕ) → IsMember x a → IsMember y b → IsMember (operate 32 op x y) result }
{
    if let Operator::End { .. } = op {
        return alu64(op, a, b);
    }
    let a = range_of_low_word(a);
    let b = range_of_low_word(b);
    if are_constants(op, a, b) {
        Range::constant(words32::operate(op, a.lo, b.lo))
    } else {
        general_range(BITS_32, op, a, b)
    }
}

/// The range of the low 32 bits of the members of `r`, which are what an operation on 32 bits reads (`value`): `r` itself if all members
/// are below 2^32, one number if `r` has only one member, else all 32-bit numbers. `bound`: each number of the result is below 2^32, as
/// `general_range` requires of operands of 32 bits.
fn range_of_low_word(r: Range) -> Range
    ensures value { result ≡ operand_range 32 r }
    ensures bound { result.hi < 2 ^ 32 }
{
    if r.hi <= greatest(BITS_32) {
        r
    } else if r.is_constant() {
        Range::constant(words32::move_low(r.lo))
    } else {
        Range::full(BITS_32)
    }
}

/// Whether the range of each operand that `op` reads has only one member: then callers compute the one result of `op`. `a` is the range of
/// the destination, `b` that of the source. A move and a sign extension read only the source, a change of sign and a byte-order conversion
/// only the destination, any other operator both.
fn are_constants(op: Operator, a: Range, b: Range) -> bool
    ensures { result ≡ are_constants op a b }
{
    match op {
        Operator::Binary(op) => are_alu_constants(op, a, b),
        Operator::SignExtend { .. } => b.is_constant(),
        Operator::Neg | Operator::End { .. } => a.is_constant(),
    }
}

/// Whether all operands that `op` reads are constants: the range `a` of the first and the range `b` of the second have one member each. A
/// move reads only the second operand, so for a move `a` does not count. `are_constants` is for all operators, this function for those of
/// `AluOp`.
fn are_alu_constants(op: AluOp, a: Range, b: Range) -> bool
    ensures { result ≡ are_alu_constants op a b }
{
    match op {
        AluOp::Mov => b.is_constant(),
        _ => a.is_constant() && b.is_constant(),
    }
}

/// The range of the results of `op` for first operands in `a` and second ones in `b`, computed from the ends of these ranges. `op` works on
/// 64 bits (`wide`) or 32, and all members of `a` and `b` are numbers of that width (`first`, `second`): on 32 bits `alu32` has truncated
/// them. For a change of sign (`Neg`) the range has all numbers of the width, for a byte-order conversion (`End`) all numbers of as many
/// bits as it keeps. A sign extension reads only `b`. The range includes every result, but may have other numbers too. So if each range
/// that `op` reads has only one member, the callers (`unary64`, `alu32`) compute the one result instead.
fn general_range(wide: bool, op: Operator, a: Range, b: Range) -> Range
    requires first { a.hi < 2 ^ width wide }
    requires second { b.hi < 2 ^ width wide }
    ensures { result ≡ general_range (width wide) op a b }
{
    match op {
        Operator::Binary(op) => alu_range(wide, op, a, b),
        Operator::Neg => Range::full(wide),
        Operator::SignExtend { from } => sign_extend(wide, from, b),
        Operator::End { bits, .. } => all_of_kept_bits(bits),
    }
}

/// The range of the results of an operator of two operands on 64 bits (`wide`) or 32, for first operands in `a` and second ones in `b`,
/// numbers of that width (`first`, `second`). Signed divisions and remainders give all numbers of the width; a move reads only `b`. If the
/// range of each operand that `op` reads has only one number, `binary64` and `alu32` compute the one result, and this function is not
/// called. No precondition excludes such ranges: for them the range includes that result, and maybe other numbers.
fn alu_range(wide: bool, op: AluOp, a: Range, b: Range) -> Range
    requires first { a.hi < 2 ^ width wide }
    requires second { b.hi < 2 ^ width wide }
    ensures { result ≡ alu_range (width wide) op a b }
{
    match op {
        AluOp::Add => sum(wide, a, b),
        AluOp::Sub => difference(wide, a, b),
        AluOp::Mul => product(wide, a, b),
        AluOp::Div => quotient(a, b),
        AluOp::Or => or(a, b),
        AluOp::And => and(a, b),
        AluOp::ShiftLeft => shift_left(wide, a, b),
        AluOp::ShiftRight => shift_right(wide, a, b),
        AluOp::Mod => remainder(a, b),
        AluOp::Xor => exclusive_or(a, b),
        AluOp::Mov => b,
        AluOp::SignedShiftRight => signed_shift_right(wide, a, b),
        AluOp::SignedDiv => Range::full(wide),
        AluOp::SignedMod => Range::full(wide),
    }
}

/// All numbers of 16, 32 or 64 bits, as many as a byte-order conversion keeps of its operand (`bits`): the range of its results.
fn all_of_kept_bits(bits: KeptBits) -> Range
    ensures { result ≡ full (kept_bits bits) }
{
    match bits {
        KeptBits::Bits16 => Range::new(0, 0xffff),
        KeptBits::Bits32 => Range::full(BITS_32),
        KeptBits::Bits64 => Range::full(BITS_64),
    }
}

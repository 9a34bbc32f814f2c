//! The operators and the conditions on the low halves (the low 32 bits) of 64-bit words. The upper half of a result is zero.
//! A signed number is a word in two's complement.

ghost use Rattle.std.specs.Prelude.{◌≡◌, bit_and, bit_or, bit_xor, ◌==◌, not, nat_lt, nat_le, int_lt, int_le};
ghost use Rattle.words.specs.declared.operator.Operator.TheVariants.{Binary};
ghost use Rattle.words.specs.Words.{add, subtract, multiply, negate, divide, remainder, signed_divide};
ghost use Rattle.words.specs.Words.{signed_remainder, shift_left, shift_right, signed_shift_right, sign_extend, signed, low};
ghost use Rattle.words.specs.Operate.{extended_bits, operate};
ghost use Rattle.words.specs.Compare.{compares};

use crate::operator::{AluOp, Condition, ExtendedBits, Operator};
use crate::parts::{low_16_bits, low_byte, low_word};
use crate::words64;

/// The sum of the low halves, modulo 2^32.
#[inline(always)]
pub fn add(a: u64, b: u64) -> u64
    ensures { result ≡ add 32 (low 32 a) (low 32 b) }
{
    u64::from(low_word(a).wrapping_add(low_word(b)))
}

/// The low half of `a` less that of `b`, modulo 2^32, as a word whose upper half is zero: a subtraction of 32 bits (RFC 9669, section 4.1).
#[inline(always)]
pub fn subtract(a: u64, b: u64) -> u64
    ensures { result ≡ subtract 32 (low 32 a) (low 32 b) }
{
    u64::from(low_word(a).wrapping_sub(low_word(b)))
}

/// The product of the low halves, modulo 2^32.
#[inline(always)]
pub fn multiply(a: u64, b: u64) -> u64
    ensures { result ≡ multiply 32 (low 32 a) (low 32 b) }
{
    u64::from(low_word(a).wrapping_mul(low_word(b)))
}

/// The low half of `a` divided by that of `b`, both unsigned, rounded down; 0 if the low half of `b` is 0 (RFC 9669, section 4.1).
#[inline(always)]
pub fn divide(a: u64, b: u64) -> u64
    ensures { result ≡ divide (low 32 a) (low 32 b) }
{
    let divisor = low_word(b);
    if divisor == 0 {
        0
    } else {
        u64::from(low_word(a) / divisor)
    }
}

/// The remainder when the low half of `a` is divided by that of `b`, both unsigned; the low half of `a` if that of `b` is 0.
#[inline(always)]
pub fn remainder(a: u64, b: u64) -> u64
    ensures { result ≡ remainder (low 32 a) (low 32 b) }
{
    let dividend = low_word(a);
    let modulus = low_word(b);
    if modulus == 0 {
        u64::from(dividend)
    } else {
        u64::from(dividend % modulus)
    }
}

/// The signed quotient of the low half of `a` by that of `b`, rounded toward zero, in two's complement of 32 bits; 0 if the low half of `b`
/// is 0. -2^31 divided by -1 is -2^31: 2^31 wraps, as it is no signed number of 32 bits. The upper half of the result is 0.
#[inline(always)]
pub fn signed_divide(a: u64, b: u64) -> u64
    ensures { result ≡ signed_divide 32 (low 32 a) (low 32 b) }
{
    let divisor = low_word(b);
    if divisor == 0 {
        0
    } else {
        u64::from(
            low_word(a)
                .cast_signed()
                .wrapping_div(divisor.cast_signed())
                .cast_unsigned(),
        )
    }
}

/// The remainder when the low half of `a` is divided by that of `b`, both signed, with the sign of the dividend, in two's complement of 32
/// bits; the low half of `a` if that of `b` is 0. -2^31 divided by -1 leaves 0. The upper half of the result is 0.
#[inline(always)]
pub fn signed_remainder(a: u64, b: u64) -> u64
    ensures { result ≡ signed_remainder 32 (low 32 a) (low 32 b) }
{
    let divisor = low_word(b);
    if divisor == 0 {
        u64::from(low_word(a))
    } else {
        u64::from(
            low_word(a)
                .cast_signed()
                .wrapping_rem(divisor.cast_signed())
                .cast_unsigned(),
        )
    }
}

/// The bitwise or of the low halves.
#[inline(always)]
pub fn or(a: u64, b: u64) -> u64
    ensures { result ≡ bit_or (low 32 a) (low 32 b) }
{
    u64::from(low_word(a) | low_word(b))
}

/// The bitwise and of the low halves.
#[inline(always)]
pub fn and(a: u64, b: u64) -> u64
    ensures { result ≡ bit_and (low 32 a) (low 32 b) }
{
    u64::from(low_word(a) & low_word(b))
}

/// The bitwise exclusive or of the low halves.
#[inline(always)]
pub fn exclusive_or(a: u64, b: u64) -> u64
    ensures { result ≡ bit_xor (low 32 a) (low 32 b) }
{
    u64::from(low_word(a) ^ low_word(b))
}

/// The low half of `a` shifted left by `b % 32` bits. The bits that leave the 32 bits are lost.
#[inline(always)]
pub fn shift_left(a: u64, b: u64) -> u64
    ensures { result ≡ shift_left 32 (low 32 a) (low 32 b) }
{
    u64::from(low_word(a) << (low_word(b) % 32))
}

/// The low half of `a`, as an unsigned number, shifted right by `b % 32` bits, with zeros from the left.
#[inline(always)]
pub fn shift_right(a: u64, b: u64) -> u64
    ensures { result ≡ shift_right 32 (low 32 a) (low 32 b) }
{
    u64::from(low_word(a) >> (low_word(b) % 32))
}

/// The low half of `a`, its low 32 bits, as a signed number, shifted right by `b % 32` bits, with copies of its sign bit (bit 31) from the
/// left. The upper half of the result is zero, also for a negative number.
#[inline(always)]
pub fn signed_shift_right(a: u64, b: u64) -> u64
    ensures { result ≡ signed_shift_right 32 (low 32 a) (low 32 b) }
{
    u64::from((low_word(a).cast_signed() >> (low_word(b) % 32)).cast_unsigned())
}

/// The low half of `b`, the second operand: the result of a 32-bit move, which does not read the first operand.
#[inline(always)]
pub fn move_low(b: u64) -> u64
    ensures { result ≡ low 32 b }
{
    u64::from(low_word(b))
}

/// The low half of `a` negated, modulo 2^32.
#[inline(always)]
pub fn negate(a: u64) -> u64
    ensures { result ≡ negate 32 (low 32 a) }
{
    u64::from(0u32.wrapping_sub(low_word(a)))
}

/// The low 8, 16 or 32 bits of `a`, as many as `from` has, sign-extended to 32 bits; the upper half of the result is zero. If `from` has 32
/// bits, nothing is extended: the result is the low half of `a`.
#[inline(always)]
pub fn sign_extend(from: ExtendedBits, a: u64) -> u64
    ensures { result ≡ sign_extend 32 (extended_bits from) (low 32 a) }
{
    match from {
        ExtendedBits::Bits8 => u64::from(i32::from(low_byte(a).cast_signed()).cast_unsigned()),
        ExtendedBits::Bits16 => u64::from(i32::from(low_16_bits(a).cast_signed()).cast_unsigned()),
        ExtendedBits::Bits32 => u64::from(low_word(a)),
    }
}

/// Whether the low halves are equal.
#[inline(always)]
pub fn equal(a: u64, b: u64) -> bool
    ensures { result ≡ (low 32 a == low 32 b) }
{
    low_word(a) == low_word(b)
}

/// Whether the low halves of `a` and `b` differ.
#[inline(always)]
pub fn not_equal(a: u64, b: u64) -> bool
    ensures { result ≡ not (low 32 a == low 32 b) }
{
    low_word(a) != low_word(b)
}

/// Whether the low half of `a` is above that of `b`, both unsigned.
#[inline(always)]
pub fn above(a: u64, b: u64) -> bool
    ensures { result ≡ nat_lt (low 32 b) (low 32 a) }
{
    low_word(b) < low_word(a)
}

/// Whether the low half of `a` is at least that of `b`, both unsigned.
#[inline(always)]
pub fn above_or_equal(a: u64, b: u64) -> bool
    ensures { result ≡ nat_le (low 32 b) (low 32 a) }
{
    low_word(b) <= low_word(a)
}

/// Whether the low half of `a` is below that of `b`, both unsigned.
#[inline(always)]
pub fn below(a: u64, b: u64) -> bool
    ensures { result ≡ nat_lt (low 32 a) (low 32 b) }
{
    low_word(a) < low_word(b)
}

/// Whether the low half of `a` is at most that of `b`, both unsigned.
#[inline(always)]
pub fn below_or_equal(a: u64, b: u64) -> bool
    ensures { result ≡ nat_le (low 32 a) (low 32 b) }
{
    low_word(a) <= low_word(b)
}

/// Whether the low half of `a` is above that of `b`, both signed.
#[inline(always)]
pub fn signed_above(a: u64, b: u64) -> bool
    ensures { result ≡ int_lt (signed 32 (low 32 b)) (signed 32 (low 32 a)) }
{
    low_word(b).cast_signed() < low_word(a).cast_signed()
}

/// Whether the low half of `a` is at least that of `b`, both signed.
#[inline(always)]
pub fn signed_above_or_equal(a: u64, b: u64) -> bool
    ensures { result ≡ int_le (signed 32 (low 32 b)) (signed 32 (low 32 a)) }
{
    low_word(b).cast_signed() <= low_word(a).cast_signed()
}

/// Whether the low half of `a` is below that of `b`, both signed.
#[inline(always)]
pub fn signed_below(a: u64, b: u64) -> bool
    ensures { result ≡ int_lt (signed 32 (low 32 a)) (signed 32 (low 32 b)) }
{
    low_word(a).cast_signed() < low_word(b).cast_signed()
}

/// Whether the low half of `a` is at most that of `b`, both signed.
#[inline(always)]
pub fn signed_below_or_equal(a: u64, b: u64) -> bool
    ensures { result ≡ int_le (signed 32 (low 32 a)) (signed 32 (low 32 b)) }
{
    low_word(a).cast_signed() <= low_word(b).cast_signed()
}

/// Whether some bit is 1 in the low halves of both words, that is, their bitwise and is not 0: the condition `CommonBit` of a 32-bit jump.
#[inline(always)]
pub fn common_bit(a: u64, b: u64) -> bool
    ensures { result ≡ not (bit_and (low 32 a) (low 32 b) == 0) }
{
    low_word(a) & low_word(b) != 0
}

/// The result of an operator of two operands (`Binary` of `Operator`) on the low halves of two words: `a` has the destination's value, `b`
/// the source's, and 32 in the contract is the width. The upper half of the result is zero. A quotient by 0 is 0, and a remainder by 0 is
/// the low half of `a`. The signed quotient of -2^31 by -1 wraps to -2^31, and the remainder is 0. A shift is by `b % 32` bits. A move
/// returns the low half of `b` and does not read `a`.
#[inline(always)]
pub fn alu(op: AluOp, a: u64, b: u64) -> u64
    ensures { result ≡ operate 32 (Binary op) a b }
{
    match op {
        AluOp::Add => add(a, b),
        AluOp::Sub => subtract(a, b),
        AluOp::Mul => multiply(a, b),
        AluOp::Div => divide(a, b),
        AluOp::SignedDiv => signed_divide(a, b),
        AluOp::Or => or(a, b),
        AluOp::And => and(a, b),
        AluOp::ShiftLeft => shift_left(a, b),
        AluOp::ShiftRight => shift_right(a, b),
        AluOp::Mod => remainder(a, b),
        AluOp::SignedMod => signed_remainder(a, b),
        AluOp::Xor => exclusive_or(a, b),
        AluOp::Mov => move_low(b),
        AluOp::SignedShiftRight => signed_shift_right(a, b),
    }
}

/// The result of any operator, of two operands (`alu`) or of one, on the low halves of two words: `a` has the destination's value, `b` the
/// source's. A negation reads only `a`, a sign extension only `b`. The upper half of the result is zero. But a byte-order conversion, which
/// also reads only `a`, has an operand and a result of 64 bits (`words64`). In the contract, 32 is the number of bits of the operation.
#[inline(always)]
pub fn operate(op: Operator, a: u64, b: u64) -> u64
    ensures { result ≡ operate 32 op a b }
{
    match op {
        Operator::Binary(op) => alu(op, a, b),
        Operator::Neg => negate(a),
        Operator::SignExtend { from } => sign_extend(from, b),
        Operator::End { how, bits } => words64::byte_order(how, bits, a),
    }
}

/// Whether a condition holds for the low halves of two words: `a` has the destination's value, `b` the source's, so `Above` means that the
/// low half of `a` is above that of `b`. The conditions with `Signed` in their names compare in two's complement of 32 bits, the other
/// comparisons are unsigned. `CommonBit` means that the bitwise and of the low halves is not 0.
#[inline(always)]
pub fn compares(condition: Condition, a: u64, b: u64) -> bool
    ensures { result ≡ compares 32 condition a b }
{
    match condition {
        Condition::Equal => equal(a, b),
        Condition::NotEqual => not_equal(a, b),
        Condition::Above => above(a, b),
        Condition::AboveOrEqual => above_or_equal(a, b),
        Condition::Below => below(a, b),
        Condition::BelowOrEqual => below_or_equal(a, b),
        Condition::SignedAbove => signed_above(a, b),
        Condition::SignedAboveOrEqual => signed_above_or_equal(a, b),
        Condition::SignedBelow => signed_below(a, b),
        Condition::SignedBelowOrEqual => signed_below_or_equal(a, b),
        Condition::CommonBit => common_bit(a, b),
    }
}

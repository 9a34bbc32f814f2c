//! The operators and the conditions on 64-bit words.

ghost use Rattle.std.specs.Prelude.{◌≡◌, bit_and, bit_or, bit_xor, ◌==◌, not, nat_lt, nat_le, int_lt, int_le};
ghost use Rattle.words.specs.declared.operator.Operator.TheVariants.{Binary};
ghost use Rattle.words.specs.Words.{add, subtract, multiply, negate, divide, remainder, signed_divide};
ghost use Rattle.words.specs.Words.{signed_remainder, shift_left, shift_right, signed_shift_right, sign_extend, signed};
ghost use Rattle.words.specs.Operate.{extended_bits, byte_order, operate};
ghost use Rattle.words.specs.Compare.{compares};

use crate::operator::{AluOp, ByteOrder, Condition, ExtendedBits, KeptBits, Operator};
use crate::parts::{low_16_bits, low_byte, low_word};

/// The sum, modulo 2^64.
#[inline(always)]
pub fn add(a: u64, b: u64) -> u64
    ensures { result ≡ add 64 a b }
{
    a.wrapping_add(b)
}

/// The difference `a` - `b`, modulo 2^64.
#[inline(always)]
pub fn subtract(a: u64, b: u64) -> u64
    ensures { result ≡ subtract 64 a b }
{
    a.wrapping_sub(b)
}

/// The product, modulo 2^64.
#[inline(always)]
pub fn multiply(a: u64, b: u64) -> u64
    ensures { result ≡ multiply 64 a b }
{
    a.wrapping_mul(b)
}

/// The unsigned quotient, rounded down; 0 if `b` is 0 (RFC 9669, section 4.1).
#[inline(always)]
pub fn divide(a: u64, b: u64) -> u64
    ensures { result ≡ divide a b }
{
    if b == 0 { 0 } else { a / b }
}

/// The unsigned remainder; `a` if `b` is 0, as eBPF defines it (RFC 9669, section 4.1).
#[inline(always)]
pub fn remainder(a: u64, b: u64) -> u64
    ensures { result ≡ remainder a b }
{
    if b == 0 { a } else { a % b }
}

/// The signed quotient, rounded toward zero; 0 if `b` is 0. -2^63 divided by -1 is -2^63: 2^63 wraps, as it is no signed number of 64 bits.
#[inline(always)]
pub fn signed_divide(a: u64, b: u64) -> u64
    ensures { result ≡ signed_divide 64 a b }
{
    if b == 0 {
        0
    } else {
        a.cast_signed()
            .wrapping_div(b.cast_signed())
            .cast_unsigned()
    }
}

/// The remainder of the signed division of `a` by `b`, with the sign of `a`; `a` if `b` is 0. -2^63 divided by -1 leaves 0.
#[inline(always)]
pub fn signed_remainder(a: u64, b: u64) -> u64
    ensures { result ≡ signed_remainder 64 a b }
{
    if b == 0 {
        a
    } else {
        a.cast_signed()
            .wrapping_rem(b.cast_signed())
            .cast_unsigned()
    }
}

/// Bitwise or.
#[inline(always)]
pub fn or(a: u64, b: u64) -> u64
    ensures { result ≡ bit_or a b }
{
    a | b
}

/// Bitwise and.
#[inline(always)]
pub fn and(a: u64, b: u64) -> u64
    ensures { result ≡ bit_and a b }
{
    a & b
}

/// Bitwise exclusive or.
#[inline(always)]
pub fn exclusive_or(a: u64, b: u64) -> u64
    ensures { result ≡ bit_xor a b }
{
    a ^ b
}

/// `a` shifted left by `b % 64` bits. The bits that leave the word are lost.
#[inline(always)]
pub fn shift_left(a: u64, b: u64) -> u64
    ensures { result ≡ shift_left 64 a b }
{
    a << (b % 64)
}

/// `a` shifted right by `b % 64` bits, with zeros from the left.
#[inline(always)]
pub fn shift_right(a: u64, b: u64) -> u64
    ensures { result ≡ shift_right 64 a b }
{
    a >> (b % 64)
}

/// `a`, as a signed number, shifted right by `b % 64` bits, with copies of its sign bit (bit 63) from the left.
#[inline(always)]
pub fn signed_shift_right(a: u64, b: u64) -> u64
    ensures { result ≡ signed_shift_right 64 a b }
{
    (a.cast_signed() >> (b % 64)).cast_unsigned()
}

/// `a` negated, modulo 2^64.
#[inline(always)]
pub fn negate(a: u64) -> u64
    ensures { result ≡ negate 64 a }
{
    0u64.wrapping_sub(a)
}

/// The low 8, 16 or 32 bits of `a`, as `from` gives, sign-extended to 64 bits: for sign-extending loads, and for `Movsx` to 64 bits.
#[inline(always)]
pub fn sign_extend(from: ExtendedBits, a: u64) -> u64
    ensures { result ≡ sign_extend 64 (extended_bits from) a }
{
    match from {
        ExtendedBits::Bits8 => i64::from(low_byte(a).cast_signed()).cast_unsigned(),
        ExtendedBits::Bits16 => i64::from(low_16_bits(a).cast_signed()).cast_unsigned(),
        ExtendedBits::Bits32 => i64::from(low_word(a).cast_signed()).cast_unsigned(),
    }
}

/// The low `bits` bits of `a`, converted or swapped (`how`); the higher bits of the result are zero. Loads and stores of a run are
/// little-endian, so to little-endian (`Little`) the low bits are unchanged, and to big-endian (`Big`) their bytes are reversed. A swap
/// (`Swap`) reverses them on a machine of either byte order, so here its result is that of `Big`.
#[inline(always)]
pub fn byte_order(how: ByteOrder, bits: KeptBits, a: u64) -> u64
    ensures { result ≡ byte_order how bits a }
{
    match (how, bits) {
        (ByteOrder::Little, KeptBits::Bits16) => u64::from(low_16_bits(a)),
        (ByteOrder::Little, KeptBits::Bits32) => u64::from(low_word(a)),
        (ByteOrder::Little, KeptBits::Bits64) => a,
        (_, KeptBits::Bits16) => u64::from(low_16_bits(a).swap_bytes()),
        (_, KeptBits::Bits32) => u64::from(low_word(a).swap_bytes()),
        (_, KeptBits::Bits64) => a.swap_bytes(),
    }
}

/// Whether the words are equal.
#[inline(always)]
pub fn equal(a: u64, b: u64) -> bool
    ensures { result ≡ (a == b) }
{
    a == b
}

/// Whether the words differ.
#[inline(always)]
pub fn not_equal(a: u64, b: u64) -> bool
    ensures { result ≡ not (a == b) }
{
    a != b
}

/// Whether `a` is above `b`, both unsigned.
#[inline(always)]
pub fn above(a: u64, b: u64) -> bool
    ensures { result ≡ nat_lt b a }
{
    b < a
}

/// Whether `a` is at least `b`, both unsigned.
#[inline(always)]
pub fn above_or_equal(a: u64, b: u64) -> bool
    ensures { result ≡ nat_le b a }
{
    b <= a
}

/// Whether `a` is below `b`, both unsigned.
#[inline(always)]
pub fn below(a: u64, b: u64) -> bool
    ensures { result ≡ nat_lt a b }
{
    a < b
}

/// Whether `a` is at most `b`, both unsigned.
#[inline(always)]
pub fn below_or_equal(a: u64, b: u64) -> bool
    ensures { result ≡ nat_le a b }
{
    a <= b
}

/// Whether `a` is above `b`, both as signed numbers of 64 bits: the condition `SignedAbove`, JSGT of RFC 9669, section 4.3.
#[inline(always)]
pub fn signed_above(a: u64, b: u64) -> bool
    ensures { result ≡ int_lt (signed 64 b) (signed 64 a) }
{
    b.cast_signed() < a.cast_signed()
}

/// Whether `a` is at least `b`, both signed.
#[inline(always)]
pub fn signed_above_or_equal(a: u64, b: u64) -> bool
    ensures { result ≡ int_le (signed 64 b) (signed 64 a) }
{
    b.cast_signed() <= a.cast_signed()
}

/// Whether `a` is below `b`, both signed.
#[inline(always)]
pub fn signed_below(a: u64, b: u64) -> bool
    ensures { result ≡ int_lt (signed 64 a) (signed 64 b) }
{
    a.cast_signed() < b.cast_signed()
}

/// Whether `a` is at most `b`, both signed.
#[inline(always)]
pub fn signed_below_or_equal(a: u64, b: u64) -> bool
    ensures { result ≡ int_le (signed 64 a) (signed 64 b) }
{
    a.cast_signed() <= b.cast_signed()
}

/// Whether the bitwise and of the words is not 0: some bit is 1 in both. This is the condition of the jump JSET (RFC 9669, section 4.3).
#[inline(always)]
pub fn common_bit(a: u64, b: u64) -> bool
    ensures { result ≡ not (bit_and a b == 0) }
{
    (a & b) != 0
}

/// The result of `op`, an operator of two operands or a move, on 64 bits: `a` is the destination's value, `b` the source's. A move (`Mov`)
/// has the result `b`. A quotient by 0 is 0, a remainder by 0 is `a`, and a shift is by `b` modulo 64 (RFC 9669, section 4.1).
#[inline(always)]
pub fn alu(op: AluOp, a: u64, b: u64) -> u64
    ensures { result ≡ operate 64 (Binary op) a b }
{
    match op {
        AluOp::Add => add(a, b),
        AluOp::Sub => subtract(a, b),
        AluOp::Mul => multiply(a, b),
        AluOp::Div => divide(a, b),
        AluOp::SignedDiv => signed_divide(a, b),
        AluOp::Or => or(a, b),
        AluOp::And => and(a, b),
        AluOp::ShiftLeft => shift_left(a, b),
        AluOp::ShiftRight => shift_right(a, b),
        AluOp::Mod => remainder(a, b),
        AluOp::SignedMod => signed_remainder(a, b),
        AluOp::Xor => exclusive_or(a, b),
        AluOp::Mov => b,
        AluOp::SignedShiftRight => signed_shift_right(a, b),
    }
}

/// The result of an operator on 64 bits: `a` is the destination's value, `b` the source's. A negation and a byte-order conversion ignore
/// `b`; a sign extension ignores `a`, and so does a move.
#[inline(always)]
pub fn operate(op: Operator, a: u64, b: u64) -> u64
    ensures { result ≡ operate 64 op a b }
{
    match op {
        Operator::Binary(op) => alu(op, a, b),
        Operator::Neg => negate(a),
        Operator::SignExtend { from } => sign_extend(from, b),
        Operator::End { how, bits } => byte_order(how, bits, a),
    }
}

/// Whether a condition holds for two 64-bit words: `a` is the destination's value, `b` the source's, so `Below` means that `a` is below
/// `b`. The conditions with `Signed` in their names compare in two's complement, the other comparisons are unsigned. `CommonBit` means that
/// the bitwise and is not 0.
#[inline(always)]
pub fn compares(condition: Condition, a: u64, b: u64) -> bool
    ensures { result ≡ compares 64 condition a b }
{
    match condition {
        Condition::Equal => equal(a, b),
        Condition::NotEqual => not_equal(a, b),
        Condition::Above => above(a, b),
        Condition::AboveOrEqual => above_or_equal(a, b),
        Condition::Below => below(a, b),
        Condition::BelowOrEqual => below_or_equal(a, b),
        Condition::SignedAbove => signed_above(a, b),
        Condition::SignedAboveOrEqual => signed_above_or_equal(a, b),
        Condition::SignedBelow => signed_below(a, b),
        Condition::SignedBelowOrEqual => signed_below_or_equal(a, b),
        Condition::CommonBit => common_bit(a, b),
    }
}

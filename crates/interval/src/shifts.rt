//! The ranges of shifts and of sign extensions, on 64 bits (`wide`) or 32.

ghost use Rattle.std.specs.Prelude.{◌≡◌, ◌<◌, ◌^◌, ◌%◌};
ghost use Rattle.words.specs.Widths.{width};
ghost use Rattle.words.specs.Operate.{extended_bits};
ghost use Rattle.interval.specs.Table.{scaled_range, shift_left_range, shift_right_range, signed_shift_right_range, sign_extend_range};

use crate::range::{Range, greatest};
use words::ExtendedBits;

/// `by` modulo 64 (`wide`) or 32: the number of bits by which a shift by `by` shifts (RFC 9669, section 4.1). It is less than 64 (`bound`),
/// so that a `u64` can be shifted by it.
fn bits_shifted(wide: bool, by: u64) -> u64
    ensures value { result ≡ by % width wide }
    ensures bound { result < 64 }
{
    if wide { by % 64 } else { by % 32 }
}

/// The range of the members of `a`, shifted left by `bits`, as numbers of 64 bits (`wide`) or 32. The members of `a` fit in that width
/// (`first`). If the greatest one, shifted, does not fit, the range has all numbers of the width. `shift_left`, the caller, gives fewer
/// `bits` than the width. The contract requires only fewer than 64 (`bound`), also for 32-bit numbers: a `u64` can be shifted by up to 63.
fn scaled(wide: bool, a: Range, bits: u64) -> Range
    requires first { a.hi < 2 ^ width wide }
    requires bound { bits < 64 }
    ensures { result ≡ scaled_range (width wide) a bits }
{
    if a.hi <= greatest(wide) >> bits {
        Range::new(a.lo << bits, a.hi << bits)
    } else {
        Range::full(wide)
    }
}

/// The range of the results of a left shift on 64 bits (`wide`) or 32. A number in `a`, which has only numbers of this width, is shifted
/// left by `n` modulo the width, for a number `n` in `b`. If `b` is one number, and the greatest number in `a` fits the width after the
/// shift, the ends of the range are those of `a`, shifted. Otherwise the range is all numbers of the width.
pub(crate) fn shift_left(wide: bool, a: Range, b: Range) -> Range
    requires { a.hi < 2 ^ width wide }
    ensures { result ≡ shift_left_range (width wide) a b }
{
    if b.is_constant() {
        scaled(wide, a, bits_shifted(wide, b.lo))
    } else {
        Range::full(wide)
    }
}

/// The range of the members of `a` shifted right, with zeros from the left, by as many bits as a member of `b` modulo 64 (`wide`) or 32
/// (`width wide`). If `b` is a constant, the range is from the least to the greatest member of `a`, both shifted. If `b` is no constant, it
/// is from 0 to the greatest member of `a`, as a shift by 0 leaves a member as it is.
pub(crate) fn shift_right(wide: bool, a: Range, b: Range) -> Range
    ensures { result ≡ shift_right_range (width wide) a b }
{
    if b.is_constant() {
        let bits = bits_shifted(wide, b.lo);
        Range::new(a.lo >> bits, a.hi >> bits)
    } else {
        Range::new(0, a.hi)
    }
}

/// The range of the members of `a`, on 64 bits (`wide`) or 32, shifted right by members of `b` modulo that width, with copies of the sign
/// bit from the left. If a sign bit may be 1 (the greatest member of `a` is above half of `greatest`, the greatest number of the width),
/// the range has all numbers of the width. Else the copies are zeros, and the range is that of `shift_right`.
pub(crate) fn signed_shift_right(wide: bool, a: Range, b: Range) -> Range
    ensures { result ≡ signed_shift_right_range (width wide) a b }
{
    if a.hi <= greatest(wide) / 2 {
        shift_right(wide, a, b)
    } else {
        Range::full(wide)
    }
}

/// The range of the members of `b`, each sign-extended from its low `from` bits to 64 bits (`wide`) or 32. If all members are at most
/// `positive`, the greatest number of these bits with sign bit 0, the extension changes none of them, and the range is `b`. Else the range
/// has all numbers of the width.
pub(crate) fn sign_extend(wide: bool, from: ExtendedBits, b: Range) -> Range
    ensures { result ≡ sign_extend_range (width wide) (extended_bits from) b }
{
    let positive = match from {
        ExtendedBits::Bits8 => 0x7f,
        ExtendedBits::Bits16 => 0x7fff,
        ExtendedBits::Bits32 => 0x7fff_ffff,
    };
    if b.hi <= positive {
        b
    } else {
        Range::full(wide)
    }
}

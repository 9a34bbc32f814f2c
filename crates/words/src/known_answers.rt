//! Known answers, proved only from the contracts. Nothing calls these functions.

use crate::{
    AccessSize, AluOp, ByteOrder, Condition, ExtendedBits, KeptBits, Operator, words32, words64,
};

/// A test of the contracts of `words64`, never called: each `prove!` has to follow from the contract of the call before it. 7 divided by 0
/// has the quotient 0 and the remainder 7; 0 less 1 is 2^64 - 1; the low two bytes of 287454020 (0x11223344) are 17459 (0x4433) in
/// big-endian order, which reverses them; and 0 is above 2^64 - 1, which is -1, if both are signed.
fn words_of_64_bits() {
    let quotient = words64::operate(Operator::Binary(AluOp::Div), 7, 0);
    prove!(quotient == 0);
    let remainder = words64::operate(Operator::Binary(AluOp::Mod), 7, 0);
    prove!(remainder == 7);
    let difference = words64::subtract(0, 1);
    prove!(difference == 0xffff_ffff_ffff_ffff);
    let reversed = words64::byte_order(ByteOrder::Big, KeptBits::Bits16, 287454020);
    prove!(reversed == 17459);
    let above = words64::compares(Condition::SignedAbove, 0, 0xffff_ffff_ffff_ffff);
    prove!(above);
}

/// A test of the contracts of `words32`, never called: each `prove!` has to follow from the contract of the call before it. A remainder by
/// 0 is the low half (32 bits) of the dividend, a shift by 33 is one by 1, 0 less 1 is 2^32 - 1, and words with equal low halves compare as
/// equal.
fn words_of_32_bits() {
    let remainder = words32::operate(Operator::Binary(AluOp::Mod), 0xffff_ffff_0000_0007, 0);
    prove!(remainder == 7);
    let shifted = words32::operate(Operator::Binary(AluOp::ShiftLeft), 1, 33);
    prove!(shifted == 2);
    let difference = words32::subtract(0, 1);
    prove!(difference == 0xffff_ffff);
    let equal = words32::compares(Condition::Equal, 0x1_0000_0005, 5);
    prove!(equal);
}

/// On the sizes of a load or a store (`AccessSize`): a half word has two bytes, and a word, of four bytes, is no double word, of eight.
/// Both are proved from the contracts of the methods that are called.
fn sizes_of_accesses() {
    let bytes = AccessSize::Half.bytes();
    prove!(bytes == 2);
    let is_double = AccessSize::Word.is_double();
    prove!(!is_double);
}

/// A move of 32 bits can extend the sign only from fewer bits (RFC 9669, section 4.1): `is_short` is true for 16 bits, false for 32.
fn sign_extensions_of_32_bits() {
    let from_half = ExtendedBits::Bits16.is_short();
    prove!(from_half);
    let from_word = ExtendedBits::Bits32.is_short();
    prove!(!from_word);
}

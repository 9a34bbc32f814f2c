//! The low bits of a word.

ghost use Rattle.std.specs.Prelude.{◌≡◌};
ghost use Rattle.words.specs.Words.{low};

/// The low 8 bits of a word.
#[inline(always)]
pub(crate) fn low_byte(a: u64) -> u8
    ensures { result ≡ low 8 a }
{
    (a % 0x100) as u8
}

/// The low 16 bits of a word: the word modulo 2^16 (`low 16`). Sign extensions from 16 bits and byte-order conversions of 16 bits read
/// them. They are not what `words32` calls the low half of a word: that is its low 32 bits (`low_word`).
#[inline(always)]
pub(crate) fn low_16_bits(a: u64) -> u16
    ensures { result ≡ low 16 a }
{
    (a % 0x1_0000) as u16
}

/// The low 32 bits of a word, which `words32` calls its low half.
#[inline(always)]
pub(crate) fn low_word(a: u64) -> u32
    ensures { result ≡ low 32 a }
{
    (a % 0x1_0000_0000) as u32
}

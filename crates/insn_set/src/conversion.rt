//! The names of byte-order conversions (RFC 9669, section 4.2) and of sign extensions (section 4.1): a row for each.

ghost use Rattle.std.specs.Prelude.{◌≡◌, IfSome};
ghost use Rattle.insn_set.specs.Conversion.{order_name, extension_name};
ghost use Rattle.insn_set.specs.ConversionRows.{order_by_name, extension_by_name};

use crate::table::named;
use words::{ByteOrder, ExtendedBits, KeptBits};

/// The name that a line of text has for each byte-order conversion: three rows for each `ByteOrder`, one for each `KeptBits`. The rows are
/// in the order of the variants of both, so the two variants determine the index of a row.
const ORDERS: [(&str, (ByteOrder, KeptBits)); 9] = [
    ("le16", (ByteOrder::Little, KeptBits::Bits16)),
    ("le32", (ByteOrder::Little, KeptBits::Bits32)),
    ("le64", (ByteOrder::Little, KeptBits::Bits64)),
    ("be16", (ByteOrder::Big, KeptBits::Bits16)),
    ("be32", (ByteOrder::Big, KeptBits::Bits32)),
    ("be64", (ByteOrder::Big, KeptBits::Bits64)),
    ("bswap16", (ByteOrder::Swap, KeptBits::Bits16)),
    ("bswap32", (ByteOrder::Swap, KeptBits::Bits32)),
    ("bswap64", (ByteOrder::Swap, KeptBits::Bits64)),
];

/// The name that a line of text has for each sign extension. The rows are in the order of the variants, so `bits as usize` is the index of
/// a row.
const EXTENSIONS: [(&str, ExtendedBits); 3] = [
    ("s8", ExtendedBits::Bits8),
    ("s16", ExtendedBits::Bits16),
    ("s32", ExtendedBits::Bits32),
];

/// The name of a byte-order conversion in a line of text, as `le16` for `Little` and `Bits16`: `how` is the order of the bytes, and `bits`
/// the number of low bits that are kept. `ORDERS` has three rows for each `ByteOrder`, one for each `KeptBits`, in the order of the
/// variants.
pub fn order_name(how: ByteOrder, bits: KeptBits) -> &'static str
    ensures { result.now ≡ order_name how bits }
{
    ORDERS[3 * (how as usize) + bits as usize].0
}

/// The byte-order conversion that has this name in a line of text, and the number of low bits that it keeps: to big endian and 16 bits for
/// `be16`. They are found in `ORDERS` (`value`); `None` if no conversion has the name. By `inverse`, `order_name` returns this name for the
/// result. The reader of a line of text (crate `text_line`) calls this function.
pub fn order_by_name(name: &str) -> Option<(ByteOrder, KeptBits)>
    ensures value { result ≡ order_by_name name.now }
    ensures inverse { IfSome result (λ o. order_name o.0 o.1 ≡ name.now) }
{
    named(&ORDERS, name)
}

/// The name that a line of text has for the sign extension from `bits` low bits: `s8`, `s16` or `s32`. `bits as usize` is the index of the
/// row, since `EXTENSIONS` has its rows in the order of the variants.
pub fn extension_name(bits: ExtendedBits) -> &'static str
    ensures { result.now ≡ extension_name bits }
{
    EXTENSIONS[bits as usize].0
}

/// The sign extension that has this name in a line of text, as the number of low bits that it reads as a signed number: 8 for `s8`. It is
/// found in `EXTENSIONS` (`value`); `None` if no sign extension has the name. By `inverse`, `extension_name` returns this name for the
/// result. The reader of a line of text (crate `text_line`) calls this function.
pub fn extension_by_name(name: &str) -> Option<ExtendedBits>
    ensures value { result ≡ extension_by_name name.now }
    ensures inverse { IfSome result (λ b. extension_name b ≡ name.now) }
{
    named(&EXTENSIONS, name)
}

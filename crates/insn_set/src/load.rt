//! The loads from memory (RFC 9669, sections 5.1 and 5.2): a row for each, with its opcode and the name of its size.

ghost use Rattle.std.specs.Prelude.{◌≡◌, IfSome, IsTrue, not, ◌&&◌};
ghost use Rattle.words.specs.Stack.{is_double};
ghost use Rattle.insn_set.specs.Load.{load_opcode, size_name};
ghost use Rattle.insn_set.specs.LoadRows.{load_by_opcode, load_by_name};

use crate::table::{by_number, by_symbol};
use words::{AccessSize, SIGNED, UNSIGNED};

/// A row for each load: whether it extends the sign, and its size; its opcode (RFC 9669, sections 5.1 and 5.2); and the name that a line of
/// text has for its size. No load of a double word extends the sign.
const LOADS: [((bool, AccessSize), u32, &str); 7] = [
    ((UNSIGNED, AccessSize::Byte), 0x71, "u8"),
    ((UNSIGNED, AccessSize::Half), 0x69, "u16"),
    ((UNSIGNED, AccessSize::Word), 0x61, "u32"),
    ((UNSIGNED, AccessSize::Double), 0x79, "u64"),
    ((SIGNED, AccessSize::Byte), 0x91, "s8"),
    ((SIGNED, AccessSize::Half), 0x89, "s16"),
    ((SIGNED, AccessSize::Word), 0x81, "s32"),
];

/// The load with this opcode, found in the table `LOADS` (`value`): whether it extends the sign, and then its size; `None` if no load has
/// the opcode. The decoder of loads (`read_load` of `insn_codec`) calls this function. By `inverse`, `load_opcode` of the load that is
/// found is this opcode. By `listed` a load of a double word does not extend the sign, since `LOADS` has no row for such a load.
pub fn load_by_opcode(opcode: u8) -> Option<(bool, AccessSize)>
    ensures value { result ≡ load_by_opcode opcode }
    ensures inverse { IfSome result (λ l. load_opcode l.0 l.1 ≡ opcode) }
    ensures listed { IfSome result (λ l. IsTrue (not (l.0 && is_double l.1))) }
{
    by_number(&LOADS, u32::from(opcode))
}

/// The load whose size has this name in a line of text: `u8`, `u16`, `u32` or `u64`, or, if the load extends the sign, `s8`, `s16` or
/// `s32`. The result is whether the load extends the sign, and then its access size; `None` if `name` is none of these seven. The parser of
/// a memory operand, as `*(u32 *)(r6 + 0)`, needs this. `inverse`: `size_name` gives `name` for the two values of the result.
pub fn load_by_name(name: &str) -> Option<(bool, AccessSize)>
    ensures value { result ≡ load_by_name name.now }
    ensures inverse { IfSome result (λ l. size_name l.0 l.1 ≡ name.now) }
{
    by_symbol(&LOADS, name)
}

/// The name that a line of text has for a size: with `s` if the access extends the sign (`signed`), else with `u`. No load is an `s64`, but
/// the function is total.
pub fn size_name(signed: bool, size: AccessSize) -> &'static str
    ensures { result.now ≡ size_name signed size }
{
    match (signed, size) {
        (UNSIGNED, AccessSize::Byte) => "u8",
        (UNSIGNED, AccessSize::Half) => "u16",
        (UNSIGNED, AccessSize::Word) => "u32",
        (UNSIGNED, AccessSize::Double) => "u64",
        (SIGNED, AccessSize::Byte) => "s8",
        (SIGNED, AccessSize::Half) => "s16",
        (SIGNED, AccessSize::Word) => "s32",
        (SIGNED, AccessSize::Double) => "s64",
    }
}

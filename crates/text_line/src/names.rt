//! Registers by their names, and the size of an atomic operation by that of its memory operand.

ghost use Rattle.std.specs.Prelude.{◌≡◌};
ghost use Rattle.insn_set.specs.Table.{named};
ghost use Rattle.text_line.specs.inside.Reading.{atomic_size_of, registers};

use insn_set::{AccessSize, AtomicSize, Reg, named};
use words::{BITS_32, BITS_64, UNSIGNED};

/// The size of an atomic operation whose memory operand has the size `size`; `signed` if this is written as signed, as in `*(s32 *)`. An
/// atomic operation is on 4 or 8 bytes (RFC 9669, section 5.3), which are not signed: `None` for any other operand.
pub(crate) fn atomic_size(signed: bool, size: AccessSize) -> Option<AtomicSize>
    ensures { result ≡ atomic_size_of signed size }
{
    match (signed, size) {
        (UNSIGNED, AccessSize::Word) => Some(AtomicSize::Word),
        (UNSIGNED, AccessSize::Double) => Some(AtomicSize::Double),
        _ => None,
    }
}

/// Looks up `name` among the names of registers, and returns a Boolean and the register. The Boolean is `true` if the name is one of all 64
/// bits of the register (`r0` to `r10`), `false` if it is one of the low 32 (`w0` to `w10`). `None` if no register has the name. The table
/// in the code has the rows of that in the definitions (`registers`): by the contract a look-up (`named`) gives the same in both.
pub(crate) fn register_named(name: &str) -> Option<(bool, Reg)>
    ensures { result ≡ named registers name.now }
{
    let (wide, number) = named(
        &[
            ("r0", (BITS_64, 0)),
            ("r1", (BITS_64, 1)),
            ("r2", (BITS_64, 2)),
            ("r3", (BITS_64, 3)),
            ("r4", (BITS_64, 4)),
            ("r5", (BITS_64, 5)),
            ("r6", (BITS_64, 6)),
            ("r7", (BITS_64, 7)),
            ("r8", (BITS_64, 8)),
            ("r9", (BITS_64, 9)),
            ("r10", (BITS_64, 10)),
            ("w0", (BITS_32, 0)),
            ("w1", (BITS_32, 1)),
            ("w2", (BITS_32, 2)),
            ("w3", (BITS_32, 3)),
            ("w4", (BITS_32, 4)),
            ("w5", (BITS_32, 5)),
            ("w6", (BITS_32, 6)),
            ("w7", (BITS_32, 7)),
            ("w8", (BITS_32, 8)),
            ("w9", (BITS_32, 9)),
            ("w10", (BITS_32, 10)),
        ],
        name,
    )?;
    Some((wide, Reg::new(number)))
}

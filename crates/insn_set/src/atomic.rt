//! Atomic operations without FETCH (RFC 9669, section 5.3): a row for each, with its number and its symbol.

ghost use Rattle.std.specs.Prelude.{◌≡◌, IfSome};

use crate::table::{by_number, by_symbol};
use words::AccessSize;

/// The effect of an atomic operation on the bytes in memory (RFC 9669, section 5.3). An operation with FETCH, which also loads the old
/// bytes into a register, is no instruction here.
#[derive(Clone, Copy, Debug, PartialEq, Eq)]
pub enum AtomicOp {
    Add,
    Or,
    And,
    Xor,
}

/// The number of bytes that an atomic operation changes (RFC 9669, section 5.3): four (`Word`) or eight (`Double`).
#[derive(Clone, Copy, Debug, PartialEq, Eq)]
pub enum AtomicSize {
    Word,
    Double,
}

/// Each operation, its immediate (RFC 9669, section 5.3), and the symbol that a line of text has for it. The rows are in the order of the
/// variants, so `op as usize` is the index of its row.
const OPERATIONS: [(AtomicOp, u32, &str); 4] = [
    (AtomicOp::Add, 0x00, "+="),
    (AtomicOp::Or, 0x40, "|="),
    (AtomicOp::And, 0x50, "&="),
    (AtomicOp::Xor, 0xa0, "^="),
];

impl AtomicOp {
    ghost use Rattle.insn_set.specs.Atomic.{atomic_number, atomic_symbol};
    ghost use Rattle.insn_set.specs.AtomicRows.{atomic_by_number, atomic_by_symbol};

    /// The immediate of the operation in a slot (RFC 9669, section 5.3): 0x00 for `Add`, 0x40 for `Or`, 0x50 for `And`, 0xa0 for `Xor`.
    #[inline(always)]
    pub fn number(self) -> u32
        ensures { result ≡ atomic_number self }
    {
        OPERATIONS[self as usize].1
    }

    /// The operation that has `number` as its immediate (`value`): 0x00 (`Add`), 0x40 (`Or`), 0x50 (`And`) or 0xa0 (`Xor`). `None` for any
    /// other number, also for that of an operation with FETCH, which is no instruction here. `inverse`: `number()` of the result is
    /// `number` again.
    pub fn from_number(number: u32) -> Option<AtomicOp>
        ensures value { result ≡ atomic_by_number number }
        ensures inverse { IfSome result (λ op. atomic_number op ≡ number) }
    {
        by_number(&OPERATIONS, number)
    }

    /// The symbol of the operation in a line of text, between the operand in memory and the register: `+=`, `|=`, `&=` or `^=`.
    pub fn symbol(self) -> &'static str
        ensures { result.now ≡ atomic_symbol self }
    {
        OPERATIONS[self as usize].2
    }

    /// The operation that has this symbol in a line of text: `+=`, `|=`, `&=` or `^=`. `None` for any other text. The parser of a line uses
    /// it. By `value` the result is that of a search in the rows of `OPERATIONS`; by `inverse` its `symbol` is the given one.
    pub fn from_symbol(symbol: &str) -> Option<AtomicOp>
        ensures value { result ≡ atomic_by_symbol symbol.now }
        ensures inverse { IfSome result (λ op. atomic_symbol op ≡ symbol.now) }
    {
        by_symbol(&OPERATIONS, symbol)
    }
}

impl AtomicSize {
    ghost use Rattle.insn_set.specs.Atomic.{access_size, is_wide_atomic};

    /// The size of both accesses of an atomic operation of this size, which loads and then stores the same bytes: four (`Word`) or eight
    /// (`Double`). The type `AccessSize` is that of every load and store, so it also has one byte and two.
    #[inline(always)]
    pub fn access(self) -> AccessSize
        ensures { result ≡ access_size self }
    {
        match self {
            AtomicSize::Word => AccessSize::Word,
            AtomicSize::Double => AccessSize::Double,
        }
    }

    /// Whether an atomic operation of this size works on 64 bits: `true` for `Double`, `false` for `Word`, 32 bits.
    #[inline(always)]
    pub fn is_wide(self) -> bool
        ensures { result ≡ is_wide_atomic self }
    {
        match self {
            AtomicSize::Word => false,
            AtomicSize::Double => true,
        }
    }
}

//! The operators and the conditions.

/// The argument `wide` of an operation on whole registers, of 64 bits.
pub const BITS_64: bool = true;

/// The argument `wide` of an operation on the lower halves of registers, of 32 bits.
pub const BITS_32: bool = false;

/// An operator with two operands (RFC 9669, section 4.1): the first is the destination, the second the source. A shift is by the second
/// operand modulo the width, 64 or 32.
#[derive(Clone, Copy, Debug, PartialEq, Eq)]
pub enum AluOp {
    Add,
    Sub,
    Mul,
    /// The unsigned quotient; 0 if the divisor is 0.
    Div,
    /// The signed quotient, rounded toward zero; 0 if the divisor is 0.
    SignedDiv,
    Or,
    And,
    ShiftLeft,
    ShiftRight,
    /// The unsigned remainder; the first operand if the divisor is 0.
    Mod,
    /// The remainder of the signed quotient, with the sign of the dividend; the first operand if the divisor is 0.
    SignedMod,
    Xor,
    /// The second operand.
    Mov,
    /// A shift to the right that copies the sign bit.
    SignedShiftRight,
}

/// How a byte-order conversion orders the bytes (RFC 9669, section 4.2).
#[derive(Clone, Copy, Debug, PartialEq, Eq)]
pub enum ByteOrder {
    /// To little-endian: the bytes keep their order.
    Little,
    /// To big-endian: the bytes are reversed, since the machine is little-endian.
    Big,
    /// The bytes are reversed, whatever the machine.
    Swap,
}

/// The number of low bits that a byte-order conversion keeps.
#[derive(Clone, Copy, Debug, PartialEq, Eq)]
pub enum KeptBits {
    Bits16,
    Bits32,
    Bits64,
}

/// The number of low bits that a sign extension reads.
#[derive(Clone, Copy, Debug, PartialEq, Eq)]
pub enum ExtendedBits {
    Bits8,
    Bits16,
    Bits32,
}

/// An operator of RFC 9669, sections 4.1 and 4.2, with the destination as first operand and the source as second.
#[derive(Clone, Copy, Debug, PartialEq, Eq)]
pub enum Operator {
    /// An operator of two operands. `Mov` only reads the second.
    Binary(AluOp),
    /// The negated first operand.
    Neg,
    /// The low bits of the second operand, sign-extended.
    SignExtend { from: ExtendedBits },
    /// The low bits of the first operand in another byte order. Operand and result have 64 bits, whatever the width.
    End { how: ByteOrder, bits: KeptBits },
}

/// The condition of a conditional jump (RFC 9669, section 4.3). `Above` to `BelowOrEqual` compare unsigned numbers, `SignedAbove` to
/// `SignedBelowOrEqual` numbers in two's complement.
#[derive(Clone, Copy, Debug, PartialEq, Eq)]
pub enum Condition {
    Equal,
    NotEqual,
    Above,
    AboveOrEqual,
    Below,
    BelowOrEqual,
    SignedAbove,
    SignedAboveOrEqual,
    SignedBelow,
    SignedBelowOrEqual,
    /// The bitwise and of the operands is not 0.
    CommonBit,
}

impl KeptBits {
    ghost use Rattle.std.specs.Prelude.{◌≡◌};
    ghost use Rattle.words.specs.Operate.{kept_bits};

    /// The number of low bits that a byte-order conversion keeps: 16, 32 or 64. A slot has this number in its immediate field, so the
    /// result has the type of this field.
    pub fn count(self) -> u32
        ensures { result ≡ kept_bits self }
    {
        match self {
            KeptBits::Bits16 => 16,
            KeptBits::Bits32 => 32,
            KeptBits::Bits64 => 64,
        }
    }
}

impl ExtendedBits {
    ghost use Rattle.std.specs.Prelude.{◌≡◌};
    ghost use Rattle.words.specs.Operate.{extended_bits, is_short};

    /// The number of low bits that a sign extension reads: 8, 16 or 32. A slot has this number in its offset field, so the result has the
    /// type of this field.
    pub fn count(self) -> u16
        ensures { result ≡ extended_bits self }
    {
        match self {
            ExtendedBits::Bits8 => 8,
            ExtendedBits::Bits16 => 16,
            ExtendedBits::Bits32 => 32,
        }
    }

    /// Whether these bits are fewer than 32: then a move of 32 bits can extend the sign from them (RFC 9669, section 4.1).
    pub fn is_short(self) -> bool
        ensures { result ≡ is_short self }
    {
        match self {
            ExtendedBits::Bits8 => true,
            ExtendedBits::Bits16 => true,
            ExtendedBits::Bits32 => false,
        }
    }
}

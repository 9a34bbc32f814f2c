//! The registers and the stack of a program, and the sizes of loads and stores.

/// The number of registers, which are 0 to 10 (bpf/standardization/abi.rst of the kernel documentation).
pub const REGISTERS: usize = 11;

/// The size of the stack in bytes (MAX_BPF_STACK of linux/filter.h).
pub const STACK_SIZE: usize = 512;

/// The number of eight-byte slots of the stack.
pub const STACK_SLOTS: usize = STACK_SIZE / 8;

/// The argument `signed` of a load that extends the sign.
pub const SIGNED: bool = true;

/// The argument `signed` of a load that extends with zeros.
pub const UNSIGNED: bool = false;

/// The number of bytes that a load or a store moves (RFC 9669, section 5): 1, 2, 4 or 8.
#[derive(Clone, Copy, Debug, PartialEq, Eq)]
pub enum AccessSize {
    Byte,
    Half,
    Word,
    Double,
}

impl AccessSize {
    ghost use Rattle.std.specs.Prelude.{◌≡◌};
    ghost use Rattle.words.specs.Stack.{bytes_of, is_double};

    /// The number of bytes of a load or a store: 1, 2, 4 or 8.
    pub fn bytes(self) -> u8
        ensures { result ≡ bytes_of self }
    {
        match self {
            AccessSize::Byte => 1,
            AccessSize::Half => 2,
            AccessSize::Word => 4,
            AccessSize::Double => 8,
        }
    }

    /// Whether the size is a double word: eight bytes, the size of a stack slot. Only a load or a store of this size moves a pointer or a
    /// map between a register and the stack.
    pub fn is_double(self) -> bool
        ensures { result ≡ is_double self }
    {
        match self {
            AccessSize::Double => true,
            AccessSize::Byte => false,
            AccessSize::Half => false,
            AccessSize::Word => false,
        }
    }
}

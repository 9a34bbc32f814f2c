//! The operators and the conditions of RFC 9669 on words, and their meaning on whole numbers; numbers as bytes; the sizes of
//! loads and stores, and their position in the stack.
//!
//! # What is proved
//!
//! - Each operator and condition on words is its equation on whole numbers: each function of `words64` and `words32`.
//! - The number of bytes of a load or a store, which takes a whole slot of the stack if it has eight: `AccessSize::bytes`,
//!   `AccessSize::is_double`.
//! - The number of bits that a change of byte order keeps, and that a sign extension starts from: `KeptBits::count`,
//!   `ExtendedBits::count`, `ExtendedBits::is_short`.
//!
//! # Decisions
//!
//! As LLVM compiles them, sums, shifts, sign extensions, byte swaps and comparisons are one to three machine instructions, and
//! divisions have the tests for zero that the equations require.
#![tactic(auto)]

mod context;
mod known_answers;
mod operator;
mod parts;
mod stack;
pub mod words32;
pub mod words64;

pub use context::GIVEN_WORDS;
pub use operator::{
    AluOp, BITS_32, BITS_64, ByteOrder, Condition, ExtendedBits, KeptBits, Operator,
};
pub use stack::{AccessSize, REGISTERS, SIGNED, STACK_SIZE, STACK_SLOTS, UNSIGNED};

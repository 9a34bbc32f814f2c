//! Instructions of the virtual machine: what each reads, writes and names, how it is spelled in slots of eight bytes (RFC
//! 9669), and the slot at which it begins.
//!
//! A table has a row for each instruction, [`Profile`], with the properties that no register value affects. `insn_codec` reads
//! and writes the slots.
//!
//! # What is proved
//!
//! - An instruction's row of the table: what it reads, writes and names, its successors and its number of slots: `profile`,
//!   `slots`, `has_two_slots` of `Insn`.
//! - Whether control may pass to the next instruction or to a jump target, at which distance, and to which slot: `falls`,
//!   `jumps`, `offset`, `target` of `Successors`.
//! - The descriptor of the map that it names: `descriptor` of `Reference`.
//! - Its numbers are in the ranges of its fields, and a register's number is at most 10: `in_range` of `Insn`, `number` of
//!   `Reg`.
//! - A slot's fields are read from eight bytes, and written as these: `first`, `dst`, `src`, `bytes` of `RawSlot`.
//! - The code and the symbol of an operator, a condition or an atomic operation, the opcode and the size name of a load, and
//!   the names of conversions are those of the definitions; a look-up by code or name finds what has it: `alu_number`,
//!   `alu_symbol`, `alu_by_number`, `alu_by_symbol`, and similar.
//!
//! # Decisions
//!
//! - This crate is below the codec: the meaning of a run, the facts and the lines of a text need instructions, but not how
//!   bytes are read and rejected.
//! - A sign-extending move from 32 bits exists only in 64 bits, and a sign-extending load has no double word. An enum's
//!   variants cannot express that, so `Insn::Movsx` and `Insn::Load` contain the structs `Movsx` and `Load`. An atomic
//!   operation has types of its own for its size, which has two values, and for its operation, so each value of `Insn::Atomic`
//!   is an instruction.
//! - Operators, conditions, atomic operations, loads and conversions have a table each, with a row for each value: its number
//!   and its symbol or name (`OPERATORS`, `CONDITIONS`, `OPERATIONS`, `LOADS`, `ORDERS`, `EXTENSIONS`). A value is found by its
//!   number or symbol in the table, in the code and in the definitions. The definitions also list number and symbol by cases, as
//!   RFC 9669 does: so the table is no assumption, and a row that differs is rejected. Operators and conditions also have an
//!   array by code, which is proved to agree with the rows, so the codec needs no search. A run uses no table: with one
//!   `globals, atomic` of the bench took 18.0 machine instructions for each instruction instead of 15.3.
//! - In two tables the order matters or a row is missing: an unsigned operator comes before the signed one with its code, as
//!   the definitions find the first; and `s64` is the name of a size that no load has, so it has a name and no row.
//! - Eight groups (`View`) define what an instruction does, for values and for facts: its spelling does not matter there, and
//!   proofs go over eight cases instead of fifteen. The code goes by instruction: an enum of the groups, constructed for each
//!   instruction, made `verify` of `verifier` take 67 to 89% more machine instructions (builds without proofs).
//! - In a stored slot both registers stay in one byte, as they are spelled: a field for each would make it nine bytes, and so
//!   twelve. Its fields are bits and not signed; those of an instruction are signed.
//! - An instruction takes 16 bytes, as a constant proves, so indexing by slot is one shift and one load.
#![tactic(auto)]

mod atomic;
mod condition;
mod conversion;
mod insn;
mod known_answers;
mod load;
mod operator;
mod profile;
mod slot;
mod table;

pub use atomic::{AtomicOp, AtomicSize};
pub use condition::{condition_by_number, condition_by_symbol, condition_number, condition_symbol};
pub use conversion::{extension_by_name, extension_name, order_by_name, order_name};
pub use insn::{Insn, Load, Movsx, Operand, Reg};
pub use load::{load_by_name, load_by_opcode, size_name};
pub use operator::{alu_by_number, alu_by_symbol, alu_number, alu_offset, alu_symbol};
pub use profile::{Profile, Reference, Successors};
pub use slot::{RawSlot, SlotFields};
pub use table::named;
pub use words::{AccessSize, AluOp, ByteOrder, Condition, ExtendedBits, KeptBits};

/// The most slots that a program may have, a limit of this project.
pub const MAX_SLOTS: usize = 4096;

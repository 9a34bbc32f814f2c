//! The codec of the virtual machine's instructions: eight-byte slots to instructions and back (RFC 9669).
//!
//! `decode` and `encode` read and write one instruction, `read_program` and `write_program` a whole program. Each instruction
//! has one spelling, and no spelling is a prefix of another. The instructions are those of `insn_set`, which is re-exported.
//!
//! # What is proved
//!
//! - `decode` returns an instruction exactly if the bytes begin with its spelling: `found`, `only` of `decode`. Otherwise it
//!   returns the one fault at the front, at slot 0, by the grammar (`HasFault`): Opcode, if no instruction has this first byte;
//!   Reserved, if none has this first slot, whatever its registers; Register, if one above 10 is named; SecondSlot, if another
//!   slot follows or none: `fault`, `faulty` of `decode`.
//! - `encode` writes the spelling and leaves the bytes after it unchanged: `length`, `room`, `bytes` of `encode`.
//! - No two instructions have the same spelling, and no spelling is a prefix of another: `encoding_is_prefix_free`.
//! - A program is read exactly if the bytes spell it, unless memory is refused: `found`, `only` of `read_program`. Otherwise
//!   the fault is that of the length, or that of the first instruction that can't be decoded: `fault`, `faulty` of
//!   `read_program`, `at_most_one_fault`.
//! - `write_program` writes the program's bytes, so they are read as the same program: `bytes`, `program` of `write_program`,
//!   `only` of `read_program`.
//! - Instructions are lent by slot number, and first slots are distinguished from second ones: `code`, `get`, `is_first`,
//!   `slots` of `Program`.
//! - The slots that a program lends for a run are those of its instructions in their order; from the slot of an instruction on,
//!   they begin with its own: `length`, `slots`, `first` of `run_slots` of `Program`, `slots_of_spelled`. The first slot of a
//!   sequence may have a mark instead of its opcode; the instructions from there on are those of the mark's sequence: `marks`.
//! - The opcode and the fields of its first slot determine an instruction, form by form; a register field that the form does
//!   not use is zero: `arithmetic_by_opcode`, `moves_by_opcode`, `one_operand_by_opcode`, `jumps_by_opcode`,
//!   `accesses_by_opcode`, `atomics_by_opcode`, `wide_by_opcode`.
//! - No first slot has an opcode that is not in the table of 119, and each of these is an instruction's; its registers are 0 to
//!   10: `fields_of_first`.
//!
//! # Decisions
//!
//! - The order of the codec's faults is this project's own: the RFC does not define what a machine does with bytes that are no
//!   instruction. The kinds of faults are defined by the grammar of spellings, not by a second table of fields: Reserved and
//!   Register are distinguished by whether the slot would be an instruction if there were sixteen registers, as many as the
//!   four bits of a register field can name.
//! - A program keeps its slots as they are spelled, eight bytes each (`RawSlot`), and the instructions by slot. The slots are
//!   for the machine that runs: it dispatches on the opcode, one byte with the operation, its width and the kind of its
//!   operand. The instructions are for the verifier and the disassembler. They are decoded once, at the load, when each slot
//!   has to be read anyway. The type's invariant says that both are the same program; laws determine the instruction from the
//!   opcode and the fields of its first slot.
//! - The instructions are one vector by slot, with `exit` as a filler at the second slot of a wide instruction. A filler is
//!   never wide, so one look at the previous slot identifies a second slot.
//! - The forms of opcodes (`OpcodeForm` of the definitions) and of lines (`Form` of the crate for lines of text) are apart from `Insn`.
//!   An opcode determines less than an instruction, and a line may name a label instead of an instruction's distance. The order
//!   of the codec's faults and the laws by opcode are about the first, the law of one reading about the second.
//! - A slot is decoded by the class of its opcode, each form by a function of its own (`by_class`), and no value of the code names a
//!   form. With an enum of forms, decoding took 58 machine instructions a slot of straight code, with an instruction whose other
//!   fields are zero instead of a form 72, and now 55 (callgrind, builds without proofs).
//! - `read_program` copies the slots from the bytes first, a word of eight bytes each. Then it decodes each instruction from its
//!   slot in that list, into an entry of a vector with room for all, so no entry needs a test of the capacity. Operators and
//!   conditions are looked up by their code (`insn_set`). Machine instructions a slot (callgrind, builds without proofs):
//!   55 of straight code, and 98 when each slot was decoded and added in one step.
#![tactic(auto)]

mod by_class;
mod code;
mod fault;
mod known_answers;
pub mod laws;
mod opcode;
mod program;
mod reading;
mod sequences;
mod writing;

pub use fault::{CodecFault, FaultKind};
pub use insn_set::{
    AccessSize, AluOp, AtomicOp, AtomicSize, ByteOrder, Condition, ExtendedBits, Insn, KeptBits,
    Load, MAX_SLOTS, Movsx, Operand, Profile, RawSlot, Reference, Reg, Successors,
};
pub use opcode::SourceBit;
pub use program::{Program, read_program, write_program};
pub use reading::decode;
pub use sequences::{
    ADD64_K, ATOMIC_ADD, BE16, CALL, EXIT, LDDW_MAP, LDDW_VALUE, LDXDW, LDXH, LOAD_BYTES, MOV32_K,
    MOV64, MOV64_K, R0_MOV32_K, R2_K, R3_ADD_K, R3_FRAME, R4_K, R7_JEQ32_K, R7_LDXH, STXDW,
};
pub use writing::encode;

//! Cases whose text is bytes, hex digits which blanks may separate; and a program of a number of exits.

use bpf_text::disassemble;
use cases::{CaseError, bytes_of, hex_groups, shown, times};
use insn_codec::{FaultKind, Insn, Program, decode, encode, read_program};
use std::alloc::{AllocError, Global};
use std::fmt::Write;

/// The length of a slot in bytes.
const SLOT: usize = 8;

/// Bytes as hex digits, with a blank after each `SLOT` bytes, but not at the end, so that the bytes of a program are shown slot by slot.
/// The last group may have fewer bytes. The lines `codec` and `hex` return bytes so. `AllocError`: out of memory.
pub fn grouped(alloc: Global, bytes: &[u8]) -> Result<String, AllocError> {
    hex_groups(alloc, bytes, SLOT)
}

/// The text of a decoded instruction: the instruction as Rust prints it for debugging, `in`, the number of slots from which it was decoded
/// (`slots`), a colon, and the bytes to which `encode` encodes it, as hex digits, with a blank between slots. These are at most 16 bytes,
/// those of two slots. `AllocError`: out of memory.
fn encoded(alloc: Global, insn: &Insn, slots: usize) -> Result<String, AllocError> {
    let mut out = [0; 16];
    let length = encode(insn, &mut out);
    let written = grouped(alloc, &out[..length])?;
    format!(in alloc; "{insn:?} in {slots}: {written}")
}

/// The outcome of a line `codec`, whose `text` has bytes as hex digits: the instruction at the front of the bytes as Rust prints it for
/// debugging, the number of its slots, and the bytes to which it is encoded, as `Exit in 1: 9500000000000000`. More bytes may follow the
/// instruction. `Slots`, with the fault, if no instruction begins at the front. `Notation`, `NoText` or `Digits` if `text` is no hex digits
/// in the notation of cases (`bytes_of`). If out of memory, `Digits` from the decoder of the digits, else `Memory`.
pub fn decoded(alloc: Global, text: &str) -> Result<String, CaseError> {
    let bytes = bytes_of(alloc, text)?;
    match &decode(&bytes) {
        Ok((insn, slots)) => Ok(encoded(alloc, insn, *slots)?),
        Err(fault) => Err(CaseError::from(*fault)),
    }
}

/// The outcome of the line `dis`: the text of the program that the bytes spell, on one line, with `;` for each line feed (`shown`). `text`
/// has the bytes as hex digits in the notation of cases. `Slots`, with the fault and its slot, if the bytes spell no program; `Notation`,
/// `NoText` or `Digits` if `text` is not hex digits in that notation (`bytes_of`). If out of memory, `Memory`, but `Digits` from the
/// decoder of the digits, and `Slots` from reading the program.
pub fn disassembled(alloc: Global, text: &str) -> Result<String, CaseError> {
    let bytes = bytes_of(alloc, text)?;
    let program = read_program(alloc, &bytes)?;
    let text = disassemble(alloc, &program)?;
    let answer = shown(alloc, text.as_str())?;
    Ok(answer)
}

/// The instructions of a program, in order. The caller makes a second program of them, to test `Program::new`. At the second slot of a
/// wide instruction none begins, so `get` returns `None` there. `AllocError`: out of memory.
fn insns_of(alloc: Global, program: &Program) -> Result<Vec<Insn>, AllocError> {
    let mut insns = Vec::new(alloc);
    for slot in 0..program.slots() {
        if let Some(insn) = program.get(slot) {
            insns.push(*insn)?;
        }
    }
    Ok(insns)
}

/// Appends the number `slot` and the instruction that begins there, as Rust prints it for debugging: as `2: Exit`. If none begins there,
/// since the slot is the second of a wide instruction or is past the end, the text is as `1: none`. A semicolon and a blank are before the
/// text, unless `slot` is 0. `AllocError`: out of memory.
fn append_slot(text: &mut String, program: &Program, slot: usize) -> Result<(), AllocError> {
    if slot != 0 {
        text.push_str("; ")?;
    }
    match program.get(slot) {
        Some(insn) => write!(text, "{slot}: {insn:?}"),
        None => write!(text, "{slot}: none"),
    }
}

/// The outcome of a line `places`, as `0: Exit; 1: none`: for each slot of a program, and for the slot after its last one, the instruction
/// that begins there, as Rust prints it for debugging, or `none`. `text` has the program's slots as hex digits. They are decoded, and a
/// second program is made of the instructions and cloned. The outcome is that of the clone, so that `Program::new` and `clone` are tested
/// too. `Notation` if `text` breaks the notation of cases; `NoText` if it gives no UTF-8; `Digits` if two bytes after a `\x` are no hex
/// digits, a character that it gives is neither a space nor a hex digit, or the number of digits is odd (`bytes_of`); `Slots` if the bytes
/// spell no program. If out of memory, `Memory`, but `Digits` from the decoder of the digits, and `Slots` from reading or making a program.
pub fn places(alloc: Global, text: &str) -> Result<String, CaseError> {
    let bytes = bytes_of(alloc, text)?;
    let program = read_program(alloc, &bytes)?;
    let insns = insns_of(alloc, &program)?;
    let copy = Program::new(alloc, &insns)?.clone()?;
    let mut answer = String::new(alloc);
    for slot in 0..=copy.slots() {
        append_slot(&mut answer, &copy, slot)?;
    }
    Ok(answer)
}

/// The outcome of the line `exits COUNT`, which tests the limits of `Program::new`: makes a program of as many exits as the decimal number
/// `digits` says, and returns the number of its slots as text, for example `3 slots`. `Notation` if `digits` is no number, or a number
/// above `MOST_TIMES` of `cases`. `Slots` if the program is empty, has more than `MAX_SLOTS` slots, or no memory is left for it; `Memory`
/// if none is left for the list of exits or the text.
pub fn made_of_exits(alloc: Global, digits: &str) -> Result<String, CaseError> {
    let exits = vec![in alloc; Insn::Exit; times(digits)? as usize]?;
    let program = Program::new(alloc, &exits)?;
    let slots = program.slots();
    let answer = format!(in alloc; "{slots} slots")?;
    Ok(answer)
}

/// Whether some instruction has this opcode, the first byte of its first slot. The opcode is decoded from two slots, as many as a wide
/// instruction has, whose other bytes are zero. `decode` looks for the fault `Opcode` first: only that fault means that no instruction has
/// the opcode. Any other fault is about another field, so the opcode is known.
fn is_known(opcode: u8) -> bool {
    let mut bytes = [0; 16];
    bytes[0] = opcode;
    match decode(&bytes) {
        Ok(_) => true,
        Err(fault) => fault.kind != FaultKind::Opcode,
    }
}

/// The outcome of the line `opcodes`: the text `N opcodes`, in which N is how many of the 256 values of a byte are the opcode of an
/// instruction (`is_known`). The error is out of memory.
pub fn known_opcodes(alloc: Global) -> Result<String, CaseError> {
    let known = (0u8..=255).filter(|opcode| is_known(*opcode)).count();
    let answer = format!(in alloc; "{known} opcodes")?;
    Ok(answer)
}

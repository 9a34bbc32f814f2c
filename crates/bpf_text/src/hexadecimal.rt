//! Slots as lines of hex digits.

ghost use Rattle.std.specs.Prelude.{◌≡◌, ◌≢◌, ◌+◌, ◌*◌, ◌<◌, ◌≤◌, ◌++◌, [], ◌⊎◌, ℕ, List, length, map};
ghost use Rattle.std.specs.Prelude.{vec_len, IfOk, OnOk, IfErr, IsErrAnd, MatchResult, Some, None, unwrap_or};
ghost use Rattle.bpf_text.specs.declared.fault.TextFaultKind.TheVariants.{Memory};
ghost use Rattle.std.specs.String.{string_bytes};
ghost use Rattle.insn_set.specs.Program.{program_bytes};
ghost use Rattle.bpf_text.specs.Fault.{IsFirstFaultyLine, NoneBelow, memory_fault};
ghost use Rattle.bpf_text.specs.declared.fault.TextFault.{TextFault as AnyFault};
ghost use Rattle.bpf_text.specs.HexText.{hex_text, hex_line, hex_bytes, hex_fault, hex_fault_at, IsHexText, IsHexFault};

use crate::fault::{NO_SLOT, TextFault, TextFaultKind};
use crate::laws;
use crate::lines::split_lines;
use hex::FromHex;
use insn_codec::{MAX_SLOTS, Program, write_program};
use std::alloc::{AllocError, Global};
use text_line::stripped;

/// The slots of a program in order, each as a line of sixteen lower-case hex digits and a line feed (`text`). `asm` writes these lines.
///
/// # Errors
///
/// `AllocError`: out of memory.
pub fn hex_lines(alloc: Global, program: &Program) -> Result<String, AllocError>
    ensures text { IfOk result (λ text. string_bytes text ≡ hex_text (program_bytes program.now)) }
    // `from_hex_lines` reads the program's slots from the text.
    ensures slots { IfOk result (λ text. IsHexText (string_bytes text)
        (program_bytes program.now)) }
{
    // A law, which does nothing when it runs: it gives `slots`.
    laws::hex_lines_are_read();
    let bytes = write_program(alloc, program)?;
    let mut text = String::new(alloc);
    let mut rest = bytes.as_slice();
    // The bytes are eight for each slot, so none is left at the end.
    while rest.len() >= 8 {
        let (slot, after) = rest.split_at(8);
        text.push_str(&hex::encode(alloc, slot)?)?;
        text.push_str("\n")?;
        rest = after;
    }
    Ok(text)
}

/// The bytes of the slots on the lines of a text, eight for each slot, in order. `dis` and `verify` of `host` read their input with it.
///
/// A line is sixteen hex digits in either case, two for each byte. Spaces, tabs and carriage returns at its ends are ignored, and a line
/// without anything else is skipped.
///
/// # Errors
///
/// The fault of the first line that has one, with the line's number, from 1: `Syntax` if it is no such line, `TooLong` if its slot is the
/// first after `MAX_SLOTS` slots. If no line has a fault, `Empty` at line 0 if there is no slot. `Memory` at line 0 if out of memory.
pub fn from_hex_lines(alloc: Global, text: &str) -> Result<Vec<u8>, TextFault>
    // Slots that are returned are those of the text.
    ensures found { IfOk result (λ bytes. IsHexText text.now bytes.items) }
    // The slots of the text are returned, unless memory runs out.
    ensures only { (slots : List ℕ) → IsHexText text.now slots → MatchResult result
        (λ bytes. bytes.items ≡ slots) (λ e. e ≡ memory_fault) }
    // A fault that is returned is the one of the text, unless memory runs out.
    ensures fault { IfErr result (λ e. (e ≡ memory_fault) ⊎ IsHexFault text.now e) }
    // The fault of the text is returned, unless memory runs out.
    ensures faulty { (fault : AnyFault) → IsHexFault text.now fault → IsErrAnd result
        (λ e. (e ≡ fault) ⊎ (e ≡ memory_fault)) }
{
    let lines = split_lines(alloc, text)?;
    let bytes = slots_on(alloc, &lines)?;
    if bytes.is_empty() {
        return Err(NO_SLOT);
    }
    Ok(bytes)
}

/// The bytes of the slots on the lines, in order, eight for each slot (`found`); no bytes if all lines are blank. If bytes are returned, no
/// line has a fault (`none`). The error is `Memory` at line 0 if out of memory, else the fault of the first line that has one (`fault`):
/// `Syntax` if the line is neither blank nor a slot in hex digits, `TooLong` if `MAX_SLOTS` slots come before its slot. `hex_fault_at` has
/// the fault of a line by the line's index, from 0; the line's number in the error is one more.
fn slots_on(alloc: Global, lines: &[&str]) -> Result<Vec<u8>, TextFault>
    ensures found { IfOk result (λ bytes. bytes.items
        ≡ hex_bytes (map (λ line. line.now) lines.now)) }
    ensures none { OnOk result (NoneBelow (hex_fault_at (map (λ line. line.now) lines.now))
        (length lines.now)) }
    ensures fault { IfErr result (λ e. (e ≡ memory_fault)
        ⊎ IsFirstFaultyLine (hex_fault_at (map (λ line. line.now) lines.now)) e) }
{
    let mut bytes = Vec::new(alloc);
    for (index, line) in lines.iter().enumerate() {
        if let Err(kind) = append_slot(&mut bytes, line) {
            return Err(TextFault::at(index, kind));
        }
    }
    Ok(bytes)
}

/// Appends the bytes on a line (`hex_line`) to `bytes`: the eight bytes of a slot in sixteen hex digits, with or without blanks around
/// them, or none if the line is blank. `bytes` has the slots of the earlier lines: at most `MAX_SLOTS`, also after a call without a fault
/// (`room`). The error is the first fault that applies: `Syntax` if the line is neither blank nor a slot (then `hex_line` is `None`),
/// `TooLong` if `bytes` has `MAX_SLOTS` slots already, `Memory` if out of memory. On any error the caller drops `bytes`. Unless it is
/// `Memory`, the error is the line's fault by the definition `hex_fault`, which is given how many bytes come before the line (`fault`).
/// Without an error the line has no such fault (`none`).
fn append_slot(bytes: &mut Vec<u8>, line: &str) -> Result<(), TextFaultKind>
    requires { vec_len bytes.old ≤ 8 * MAX_SLOTS }
    ensures ok { OnOk result (bytes.new.items ≡ bytes.old.items
        ++ unwrap_or (hex_line line.now) []) }
    ensures room { OnOk result (vec_len bytes.new ≤ 8 * MAX_SLOTS) }
    ensures none { OnOk result (hex_fault (length bytes.old.items) (hex_line line.now) ≡ None) }
    ensures fault { IfErr result (λ kind. (kind ≡ Memory)
        ⊎ ((kind ≢ Memory) × (hex_fault (length bytes.old.items) (hex_line line.now)
        ≡ Some kind))) }
{
    let digits = stripped(line.as_bytes());
    if digits.is_empty() {
        return Ok(());
    }
    let Ok(slot) = <[u8; 8] as FromHex>::from_hex(digits) else {
        return Err(TextFaultKind::Syntax);
    };
    if bytes.len() > 8 * MAX_SLOTS - 8 {
        return Err(TextFaultKind::TooLong);
    }
    match bytes.extend_from_slice(&slot) {
        Ok(()) => Ok(()),
        Err(_) => Err(TextFaultKind::Memory),
    }
}
